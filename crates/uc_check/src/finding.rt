//! The types of terms.
ghost use Rattle.std.specs.Prelude.{◌≡◌, ◌+◌, ◌<◌, ◌^◌, ℕ, true, Some, length, slice_get, IfOk, IfErr};
ghost use Rattle.uc_base.specs.declared.fault.Fault.TheVariants.{Memory};
ghost use Rattle.uc_context.specs.Closing.{open_from};
ghost use Rattle.uc_context.specs.Contexts.{binder_type};
ghost use Rattle.uc_context.specs.Counts.{IsSmall};
ghost use Rattle.uc_context.specs.Opens.{none, more};
ghost use Rattle.uc_kinds.specs.PatternTyping.{target_type};
ghost use Rattle.uc_patterns.specs.Spots.{IsStopped, passed};
ghost use Rattle.uc_sound_typing.specs.Formed.{IsTyped, IsAnyType};
ghost use Rattle.uc_sound_typing.specs.Seeing.{AreBound};
ghost use Rattle.uc_tree.specs.Nodes.{term_nodes};
ghost use Rattle.uc_tree.specs.Terms as terms;
ghost use Rattle.uc_tree.specs.Terms.{terms_of};
ghost use Rattle.uc_tree.specs.Types.{Ty as PlainTy};
ghost use Rattle.uc_typing.specs.Fronts.{boolean};
ghost use Rattle.uc_typing.specs.Stops.{TermOutcome, stops, gives_none, giving};
ghost use Rattle.uc_check.specs.Walks.{IsAsked, AreAsked, IsFound, ahead, is_block, ChecksAllIn, SynthesizesIn, FindsIn};

use crate::applying::find_application;
use crate::checking::{check, check_by_form};
use crate::lists::{check_all_against, check_each};
use crate::scopes::{enter, leave, pass_type};
use crate::written::written;
use std::alloc::Global;
use uc_base::Fault;
use uc_context::Open;
use uc_patterns::{
    State, TargetTypes, advance, apply_at, boolean, declare, declare_all, existentials, list_of,
    literal_type,
};
use uc_tree::{Target, Term, TermNode, Ty};

/// Finds the type of a term, with the solutions put in.
#[cycle(terms)]
pub(crate) fn synthesize<K: TargetTypes>(
    alloc: Global,
    known: &K,
    state: &mut State,
    term: &Term,
) -> Result<Open, Fault>
    requires asked { IsAsked (K.known known.now) state.old 0 term.now }
    ensures ok { IfOk result (IsFound (SynthesizesIn (K.known known.now) state.old term.now) state.old state.new (length (term_nodes term.now))) }
    ensures err { IfErr result (IsStopped state.old.spot.member (λ stop. SynthesizesIn (K.known known.now) state.old term.now (gives_none stop))) }
    ensures small { IfOk result IsSmall }
{
    let here = state.spot;
    let found = find(alloc, known, state, term)?;
    let applied = apply_at(alloc, &state.context, here, &found)?;
    Ok(applied)
}

/// Finds the type of a term by its form.
#[cycle(terms)]
fn find<K: TargetTypes>(
    alloc: Global,
    known: &K,
    state: &mut State,
    term: &Term,
) -> Result<Open, Fault>
    requires asked { IsAsked (K.known known.now) state.old 0 term.now }
    ensures ok { IfOk result (IsFound (FindsIn (K.known known.now) state.old term.now) state.old state.new (length (term_nodes term.now))) }
    ensures err { IfErr result (IsStopped state.old.spot.member (λ stop. FindsIn (K.known known.now) state.old term.now (gives_none stop))) }
{
    match &term.node {
        TermNode::Var(variable) => find_variable(alloc, state, *variable),
        TermNode::Literal(literal) => {
            advance(&mut state.spot, 1);
            Ok(literal_type(alloc, literal))
        }
        TermNode::Unit => {
            advance(&mut state.spot, 1);
            Ok(Open::unit())
        }
        TermNode::Link(target) => find_link(alloc, known, state, target),
        TermNode::Lambda(body) => find_lambda(alloc, known, state, body),
        TermNode::Apply(function, argument) => {
            find_application(alloc, known, state, function, argument)
        }
        TermNode::Annotated(inside, ty) => find_annotated(alloc, known, state, inside, ty),
        TermNode::Tuple(parts) => find_tuple(alloc, known, state, parts),
        TermNode::List(elements) => find_list(alloc, known, state, elements),
        TermNode::If(condition, consequent, alternative) => {
            find_conditional(alloc, known, state, condition, consequent, alternative)
        }
        TermNode::And(first, second) => find_both(alloc, known, state, first, second),
        TermNode::Or(first, second) => find_both(alloc, known, state, first, second),
        TermNode::Let(_, _, _) | TermNode::Match(_, _) => {
            find_by_form(alloc, known, state, term)
        }
    }
}

/// The type of a variable.
fn find_variable(alloc: Global, state: &mut State, variable: u32) -> Result<Open, Fault>
    requires binder { (n : ℕ) × (slice_get state.old.sight.variables variable ≡ Some (Some n)) }
    requires bound { AreBound state.old.context state.old.sight.variables }
    requires nodes { state.old.spot.node + 1 < 2 ^ 32 }
    ensures ok { IfOk result (λ t. (n : ℕ) × (slice_get state.old.sight.variables variable ≡ Some (Some n)) × (binder_type state.old.context n ≡ Some t)) }
    ensures state { IfOk result (λ _. state.new ≡ record { context = state.old.context; sight = state.old.sight; spot = passed state.old.spot 1 }) }
    ensures err { IfErr result (λ fault. fault ≡ Memory) }
{
    let Some(number) = state.sight.binder(variable) else {
        unreachable!()
    };
    let Some(of) = state.context.binder(number) else {
        unreachable!()
    };
    let of = of.copy(alloc)?;
    advance(&mut state.spot, 1);
    Ok(of)
}

/// The type of a link.
fn find_link<K: TargetTypes>(
    alloc: Global,
    known: &K,
    state: &mut State,
    target: &Target,
) -> Result<Open, Fault>
    requires typed { IsTyped IsAnyType (K.known known.now) target.now }
    requires nodes { state.old.spot.node + 1 < 2 ^ 32 }
    ensures ok { IfOk result (λ t. (ty : PlainTy) × (target_type (K.known known.now) target.now ≡ Some ty) × (t ≡ open_from ty)) }
    ensures state { IfOk result (λ _. state.new ≡ record { context = state.old.context; sight = state.old.sight; spot = passed state.old.spot 1 }) }
    ensures err { IfErr result (λ fault. fault ≡ Memory) }
{
    let Some(ty) = known.type_of(target) else {
        unreachable!()
    };
    let of = Open::from_ty(alloc, ty)?;
    advance(&mut state.spot, 1);
    Ok(of)
}

/// The type of a lambda.
#[cycle(terms)]
fn find_lambda<K: TargetTypes>(
    alloc: Global,
    known: &K,
    state: &mut State,
    body: &Term,
) -> Result<Open, Fault>
    requires asked { IsAsked (K.known known.now) state.old 0 (terms.lambda body.now) }
    ensures ok { IfOk result (IsFound (FindsIn (K.known known.now) state.old (terms.lambda body.now)) state.old state.new (length (term_nodes (terms.lambda body.now)))) }
    ensures err { IfErr result (IsStopped state.old.spot.member (λ stop. FindsIn (K.known known.now) state.old (terms.lambda body.now) (gives_none stop))) }
{
    let argument = declare(&mut state.context)?;
    let result = declare(&mut state.context)?;
    let parameter = Open::existential(argument);
    let number = enter(alloc, state, &parameter)?;
    advance(&mut state.spot, 1);
    let result_type = Open::existential(result);
    check(alloc, known, state, body, &result_type)?;
    leave(alloc, state, number, &parameter)?;
    let found = Open::arrow(alloc, parameter, result_type)?;
    Ok(found)
}

/// The type of an annotated term.
#[cycle(terms)]
fn find_annotated<K: TargetTypes>(
    alloc: Global,
    known: &K,
    state: &mut State,
    inside: &Term,
    ty: &Ty,
) -> Result<Open, Fault>
    requires asked { IsAsked (K.known known.now) state.old 0 (terms.annotated inside.now ty.now) }
    ensures ok { IfOk result (IsFound (FindsIn (K.known known.now) state.old (terms.annotated inside.now ty.now)) state.old state.new (length (term_nodes (terms.annotated inside.now ty.now)))) }
    ensures err { IfErr result (IsStopped state.old.spot.member (λ stop. FindsIn (K.known known.now) state.old (terms.annotated inside.now ty.now) (gives_none stop))) }
{
    let of = written(alloc, &state.sight, ty)?;
    advance(&mut state.spot, 1);
    check(alloc, known, state, inside, &of)?;
    pass_type(&mut state.spot, ty);
    Ok(of)
}

/// The type of a tuple.
#[cycle(terms)]
fn find_tuple<K: TargetTypes>(
    alloc: Global,
    known: &K,
    state: &mut State,
    parts: &[Term],
) -> Result<Open, Fault>
    requires asked { IsAsked (K.known known.now) state.old 0 (terms.tuple (terms_of parts.now)) }
    ensures ok { IfOk result (IsFound (FindsIn (K.known known.now) state.old (terms.tuple (terms_of parts.now))) state.old state.new (length (term_nodes (terms.tuple (terms_of parts.now))))) }
    ensures err { IfErr result (IsStopped state.old.spot.member (λ stop. FindsIn (K.known known.now) state.old (terms.tuple (terms_of parts.now)) (gives_none stop))) }
{
    let numbers = declare_all(alloc, &mut state.context, parts.len())?;
    let types = existentials(alloc, &numbers)?;
    advance(&mut state.spot, 1);
    check_each(alloc, known, state, parts, &types)?;
    Ok(Open::tuple(types))
}

/// The type of a list.
#[cycle(terms)]
fn find_list<K: TargetTypes>(
    alloc: Global,
    known: &K,
    state: &mut State,
    elements: &[Term],
) -> Result<Open, Fault>
    requires asked { IsAsked (K.known known.now) state.old 0 (terms.list (terms_of elements.now)) }
    ensures ok { IfOk result (IsFound (FindsIn (K.known known.now) state.old (terms.list (terms_of elements.now))) state.old state.new (length (term_nodes (terms.list (terms_of elements.now))))) }
    ensures err { IfErr result (IsStopped state.old.spot.member (λ stop. FindsIn (K.known known.now) state.old (terms.list (terms_of elements.now)) (gives_none stop))) }
{
    let number = declare(&mut state.context)?;
    let element = Open::existential(number);
    advance(&mut state.spot, 1);
    check_all_against(alloc, known, state, elements, &element)?;
    let found = list_of(alloc, element)?;
    Ok(found)
}

/// The type of two terms that are joined by `&&` or `||`.
#[cycle(terms)]
fn find_both<K: TargetTypes>(
    alloc: Global,
    known: &K,
    state: &mut State,
    first: &Term,
    second: &Term,
) -> Result<Open, Fault>
    requires asked { AreAsked (K.known known.now) (ahead 1 state.old) (terms.more first.now (terms.more second.now terms.none)) }
    requires nodes { state.old.spot.node + 1 < 2 ^ 32 }
    ensures ok { IfOk result (IsFound (λ o. (p : TermOutcome) × ChecksAllIn (K.known known.now) (ahead 1 state.old) (terms.more first.now (terms.more second.now terms.none)) (more boolean (more boolean none)) p × (o ≡ giving boolean p)) state.old state.new (1 + length (term_nodes first.now) + length (term_nodes second.now))) }
    ensures err { IfErr result (IsStopped state.old.spot.member (λ stop. ChecksAllIn (K.known known.now) (ahead 1 state.old) (terms.more first.now (terms.more second.now terms.none)) (more boolean (more boolean none)) (stops stop))) }
{
    let truth = boolean(alloc);
    advance(&mut state.spot, 1);
    check(alloc, known, state, first, &truth)?;
    check(alloc, known, state, second, &truth)?;
    Ok(truth)
}

/// The type of a conditional.
#[cycle(terms)]
fn find_conditional<K: TargetTypes>(
    alloc: Global,
    known: &K,
    state: &mut State,
    condition: &Term,
    consequent: &Term,
    alternative: &Term,
) -> Result<Open, Fault>
    requires asked { IsAsked (K.known known.now) state.old 0 (terms.conditional condition.now consequent.now alternative.now) }
    ensures ok { IfOk result (IsFound (FindsIn (K.known known.now) state.old (terms.conditional condition.now consequent.now alternative.now)) state.old state.new (length (term_nodes (terms.conditional condition.now consequent.now alternative.now)))) }
    ensures err { IfErr result (IsStopped state.old.spot.member (λ stop. FindsIn (K.known known.now) state.old (terms.conditional condition.now consequent.now alternative.now) (gives_none stop))) }
{
    let truth = boolean(alloc);
    advance(&mut state.spot, 1);
    check(alloc, known, state, condition, &truth)?;
    let number = declare(&mut state.context)?;
    let found = Open::existential(number);
    check(alloc, known, state, consequent, &found)?;
    check(alloc, known, state, alternative, &found)?;
    Ok(found)
}

/// The type of a binding or a match, which is checked against a new existential.
#[cycle(terms)]
fn find_by_form<K: TargetTypes>(
    alloc: Global,
    known: &K,
    state: &mut State,
    term: &Term,
) -> Result<Open, Fault>
    requires asked { IsAsked (K.known known.now) state.old 0 term.now }
    requires form { is_block term.now ≡ true }
    ensures ok { IfOk result (IsFound (FindsIn (K.known known.now) state.old term.now) state.old state.new (length (term_nodes term.now))) }
    ensures err { IfErr result (IsStopped state.old.spot.member (λ stop. FindsIn (K.known known.now) state.old term.now (gives_none stop))) }
{
    let number = declare(&mut state.context)?;
    let found = Open::existential(number);
    check_by_form(alloc, known, state, term, &found)?;
    Ok(found)
}
