//! Whether types, patterns and terms may be asked about.
ghost use Rattle.std.specs.Prelude.{◌≡◌, ◌+◌, ◌-◌, ◌^◌, IsTrue, IfSome, Some, length, min};
ghost use Rattle.uc_kinds.specs.PatternTyping.{Known};
ghost use Rattle.uc_kinds.specs.Typing.{binders_in, binders_among};
ghost use Rattle.uc_kinds.specs.WellFormed.{tys_count};
ghost use Rattle.uc_sound_typing.specs.Formed.{IsMonoWritten, AreMonoWritten, IsWritten, IsWrittenSignature, IsFieldsType, IsConstructorType, IsTyped, IsAnyType, IsFormedPattern, AreFormedPatterns, written_front, signature_front, IsFormed, AreFormed, AreFormedCases, IsFormedDefinition};
ghost use Rattle.uc_tree.specs.Nodes.{term_nodes};
ghost use Rattle.uc_tree.specs.Patterns.{patterns_of};
ghost use Rattle.uc_tree.specs.Terms as terms;
ghost use Rattle.uc_tree.specs.Terms.{terms_of, Cases};
ghost use Rattle.uc_tree.specs.TermViews.{case_with, cases_of};
ghost use Rattle.uc_tree.specs.Types.{tys_of};

use uc_patterns::TargetTypes;
use uc_tree::{Case, Definition, Pattern, PatternNode, Target, Term, TermNode, Ty, TyNode};

/// What the checker knows, with the arities of data types.
pub(super) trait Facts: TargetTypes {
    fn arity(&self, of: &Target) -> Option<u32>
        ensures { result ≡ (Self.known self.now).arity of.now };
}

/// Whether a data type takes as many arguments.
#[tactic(auto, using(crate::proofs::TreesCounted::arguments_counted))]
fn takes<K: Facts>(known: &K, head: &Target, arguments: &[Ty]) -> bool
    ensures { IsTrue result → (K.known known.now).arity head.now ≡ Some (tys_count (tys_of arguments.now)) }
{
    match known.arity(head) {
        Some(parameters) => parameters as usize == arguments.len(),
        None => false,
    }
}

/// Whether a type is a written monotype with so many free variables.
#[cycle(asked_mono)]
fn is_mono<K: Facts>(known: &K, variables: u32, ty: &Ty) -> bool
    ensures { IsTrue result → IsMonoWritten (K.known known.now).arity variables ty.now }
{
    match &ty.node {
        TyNode::Var(index) => *index < variables,
        TyNode::Forall(_) => false,
        TyNode::Arrow(from, to) => is_mono(known, variables, from) && is_mono(known, variables, to),
        TyNode::Unit => true,
        TyNode::Tuple(parts) => are_mono(known, variables, parts),
        TyNode::Data(head, arguments) => {
            takes(known, head, arguments) && are_mono(known, variables, arguments)
        }
    }
}

#[cycle(asked_mono)]
fn are_mono<K: Facts>(known: &K, variables: u32, types: &[Ty]) -> bool
    ensures { IsTrue result → AreMonoWritten (K.known known.now).arity variables (tys_of types.now) }
{
    match types {
        [] => true,
        [first, rest @ ..] => is_mono(known, variables, first) && are_mono(known, variables, rest),
    }
}

/// Whether a type is written with so many free variables.
#[cycle(asked_written)]
pub(super) fn is_written<K: Facts>(known: &K, variables: u32, ty: &Ty) -> bool
    ensures { IsTrue result → IsWritten (K.known known.now).arity variables ty.now }
{
    match &ty.node {
        TyNode::Var(index) => *index < variables,
        TyNode::Forall(body) => match variables.checked_add(1) {
            Some(inner) => is_written(known, inner, body),
            None => false,
        },
        TyNode::Arrow(from, to) => {
            is_written(known, variables, from) && is_written(known, variables, to)
        }
        TyNode::Unit => true,
        TyNode::Tuple(parts) => are_mono(known, variables, parts),
        TyNode::Data(head, arguments) => {
            takes(known, head, arguments) && are_mono(known, variables, arguments)
        }
    }
}

fn is_written_signature<K: Facts>(known: &K, variables: u32, signature: &Option<Ty>) -> bool
    ensures { IsTrue result → IsWrittenSignature (K.known known.now).arity variables signature.now }
{
    match signature {
        None => true,
        Some(ty) => is_written(known, variables, ty),
    }
}

/// So many variables and those of the quantifiers at the front of a type.
#[cycle(asked_front)]
fn with_front(variables: u32, ty: &Ty) -> Option<u32>
    ensures { IfSome result (λ all. all ≡ written_front ty.now + variables) }
{
    match &ty.node {
        TyNode::Forall(body) => with_front(variables, body)?.checked_add(1),
        _ => Some(variables),
    }
}

fn with_signature(variables: u32, signature: &Option<Ty>) -> Option<u32>
    ensures { IfSome result (λ all. all ≡ signature_front signature.now + variables) }
{
    match signature {
        None => Some(variables),
        Some(ty) => with_front(variables, ty),
    }
}

#[cycle(asked_fields)]
fn is_fields_type(ty: &Ty) -> bool
    ensures { IsTrue result → IsFieldsType ty.now }
{
    match &ty.node {
        TyNode::Arrow(_, to) => is_fields_type(to),
        TyNode::Data(_, _) => true,
        _ => false,
    }
}

/// Whether a type is that of a constructor.
#[cycle(asked_constructors)]
fn is_constructor_type(ty: &Ty) -> bool
    ensures { IsTrue result → IsConstructorType ty.now }
{
    match &ty.node {
        TyNode::Forall(body) => is_constructor_type(body),
        TyNode::Arrow(_, to) => is_fields_type(to),
        TyNode::Data(_, _) => true,
        _ => false,
    }
}

fn is_constructor<K: Facts>(known: &K, target: &Target) -> bool
    ensures { IsTrue result → IsTyped IsConstructorType (K.known known.now) target.now }
{
    match known.type_of(target) {
        Some(ty) => is_constructor_type(ty),
        None => false,
    }
}

fn is_typed<K: Facts>(known: &K, target: &Target) -> bool
    ensures { IsTrue result → IsTyped IsAnyType (K.known known.now) target.now }
{
    known.type_of(target).is_some()
}

#[cycle(asked_patterns)]
fn is_formed_pattern<K: Facts>(known: &K, pattern: &Pattern) -> bool
    ensures { IsTrue result → IsFormedPattern (K.known known.now) pattern.now }
{
    match &pattern.node {
        PatternNode::Any | PatternNode::Var | PatternNode::Literal(_) | PatternNode::Unit => true,
        PatternNode::As(inside) => is_formed_pattern(known, inside),
        PatternNode::Tuple(parts) => are_formed_patterns(known, parts),
        PatternNode::List(elements) => are_formed_patterns(known, elements),
        PatternNode::Ctor(target, fields) => {
            is_constructor(known, target) && are_formed_patterns(known, fields)
        }
        PatternNode::Cons(first, second) => {
            is_formed_pattern(known, first) && is_formed_pattern(known, second)
        }
        PatternNode::Snoc(first, second) => {
            is_formed_pattern(known, first) && is_formed_pattern(known, second)
        }
    }
}

#[cycle(asked_patterns)]
fn are_formed_patterns<K: Facts>(known: &K, patterns: &[Pattern]) -> bool
    ensures { IsTrue result → AreFormedPatterns (K.known known.now) (patterns_of patterns.now) }
{
    match patterns {
        [] => true,
        [first, rest @ ..] => is_formed_pattern(known, first) && are_formed_patterns(known, rest),
    }
}

/// So many variables and those that a pattern binds.
#[cycle(asked_binders)]
fn with_binders(variables: u32, pattern: &Pattern) -> Option<u32>
    ensures { IfSome result (λ all. all ≡ binders_in pattern.now + variables) }
{
    match &pattern.node {
        PatternNode::Any | PatternNode::Literal(_) | PatternNode::Unit => Some(variables),
        PatternNode::Var => variables.checked_add(1),
        PatternNode::As(inside) => with_binders(variables, inside)?.checked_add(1),
        PatternNode::Tuple(parts) | PatternNode::List(parts) | PatternNode::Ctor(_, parts) => {
            with_all_binders(variables, parts)
        }
        PatternNode::Cons(first, second) | PatternNode::Snoc(first, second) => {
            let behind = with_binders(variables, second)?;
            with_binders(behind, first)
        }
    }
}

#[cycle(asked_binders)]
fn with_all_binders(variables: u32, patterns: &[Pattern]) -> Option<u32>
    ensures { IfSome result (λ all. all ≡ binders_among (patterns_of patterns.now) + variables) }
{
    match patterns {
        [] => Some(variables),
        [first, rest @ ..] => {
            let behind = with_all_binders(variables, rest)?;
            with_binders(behind, first)
        }
    }
}

/// Whether a term may be asked about under so many binders of terms and so many of types.
#[cycle(asked_terms)]
pub(super) fn is_formed<K: Facts>(known: &K, binders: u32, variables: u32, term: &Term) -> bool
    ensures { IsTrue result → IsFormed (K.known known.now) binders variables term.now }
{
    match &term.node {
        TermNode::Var(index) => *index < binders,
        TermNode::Literal(_) | TermNode::Unit => true,
        TermNode::Link(target) => is_typed(known, target),
        TermNode::Lambda(body) => match binders.checked_add(1) {
            Some(inner) => is_formed(known, inner, variables, body),
            None => false,
        },
        TermNode::Apply(first, second) => {
            is_formed(known, binders, variables, first)
                && is_formed(known, binders, variables, second)
        }
        TermNode::Annotated(inside, ty) => {
            is_formed(known, binders, variables, inside) && is_written(known, variables, ty)
        }
        TermNode::Tuple(parts) => are_formed(known, binders, variables, parts),
        TermNode::List(elements) => are_formed(known, binders, variables, elements),
        TermNode::If(condition, consequent, alternative) => {
            is_formed(known, binders, variables, condition)
                && is_formed(known, binders, variables, consequent)
                && is_formed(known, binders, variables, alternative)
        }
        TermNode::And(first, second) => {
            is_formed(known, binders, variables, first)
                && is_formed(known, binders, variables, second)
        }
        TermNode::Or(first, second) => {
            is_formed(known, binders, variables, first)
                && is_formed(known, binders, variables, second)
        }
        TermNode::Let(signature, bound, body) => {
            is_formed_binding(known, binders, variables, signature, bound, body)
        }
        TermNode::Match(subject, cases) => {
            is_formed(known, binders, variables, subject)
                && are_formed_cases(known, binders, variables, cases)
        }
    }
}

#[cycle(asked_terms)]
fn is_formed_binding<K: Facts>(
    known: &K,
    binders: u32,
    variables: u32,
    signature: &Option<Ty>,
    bound: &Term,
    body: &Term,
) -> bool
    ensures { IsTrue result → IsFormed (K.known known.now) binders variables (terms.binding signature.now bound.now body.now) }
{
    let Some(inner) = binders.checked_add(1) else {
        return false;
    };
    let Some(seen) = with_signature(variables, signature) else {
        return false;
    };
    is_written_signature(known, variables, signature)
        && is_formed(known, inner, seen, bound)
        && is_formed(known, inner, variables, body)
}

#[cycle(asked_terms)]
fn are_formed<K: Facts>(known: &K, binders: u32, variables: u32, terms: &[Term]) -> bool
    ensures { IsTrue result → AreFormed (K.known known.now) binders variables (terms_of terms.now) }
{
    match terms {
        [] => true,
        [first, rest @ ..] => {
            is_formed(known, binders, variables, first)
                && are_formed(known, binders, variables, rest)
        }
    }
}

#[cycle(asked_terms)]
fn is_formed_case<K: Facts>(known: &K, binders: u32, variables: u32, case: &Case) -> bool
    ensures { IsTrue result → (rest : Cases) → AreFormedCases (K.known known.now) binders variables rest → AreFormedCases (K.known known.now) binders variables (case_with case.now.pattern case.now.guard case.now.body rest) }
{
    let Some(inner) = with_binders(binders, &case.pattern) else {
        return false;
    };
    if !is_formed_pattern(known, &case.pattern) {
        return false;
    }
    match &case.guard {
        None => is_formed(known, inner, variables, &case.body),
        Some(guard) => {
            is_formed(known, inner, variables, guard)
                && is_formed(known, inner, variables, &case.body)
        }
    }
}

#[cycle(asked_terms)]
fn are_formed_cases<K: Facts>(known: &K, binders: u32, variables: u32, cases: &[Case]) -> bool
    ensures { IsTrue result → AreFormedCases (K.known known.now) binders variables (cases_of cases.now) }
{
    match cases {
        [] => true,
        [first, rest @ ..] => {
            is_formed_case(known, binders, variables, first)
                && are_formed_cases(known, binders, variables, rest)
        }
    }
}

/// Whether a definition may be asked about.
pub(super) fn is_formed_definition<K: Facts>(known: &K, of: &Definition) -> bool
    ensures { IsTrue result → IsFormedDefinition (K.known known.now) of.now }
{
    match with_signature(0, &of.signature) {
        Some(seen) => {
            is_written_signature(known, 0, &of.signature) && is_formed(known, 0, seen, &of.body)
        }
        None => false,
    }
}
