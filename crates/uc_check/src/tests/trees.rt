//! Trees of the tests. Each is made of trees that may lack memory, and may lack it itself.

use std::alloc::{AllocError, Global};
use uc_base::{Bytes, Hash, Ref};
use uc_tree::{Case, Literal, Pattern, Target, Term, Ty};

pub(super) type MadeTy = Result<Ty, AllocError>;

pub(super) type MadeTerm = Result<Term, AllocError>;

pub(super) type MadePattern = Result<Pattern, AllocError>;

pub(super) type MadeCase = Result<Case, AllocError>;

/// The optional type, and its constructors.
const OPT: Hash = Hash([7; 64]);

const OPT_TYPE: Target = Target::Stored(Ref::Def(OPT, 0));

const NONE: Target = Target::Stored(Ref::Ctor(OPT, 0, 0));

const SOME: Target = Target::Stored(Ref::Ctor(OPT, 0, 1));

fn builtin(alloc: Global, number: u16) -> Ty {
    Ty::data(Target::Stored(Ref::Builtin(number)), Vec::new(alloc))
}

pub(super) fn nat(alloc: Global) -> MadeTy {
    Ok(builtin(alloc, 0))
}

pub(super) fn int(alloc: Global) -> MadeTy {
    Ok(builtin(alloc, 1))
}

pub(super) fn boolean(alloc: Global) -> MadeTy {
    Ok(builtin(alloc, 2))
}

pub(super) fn text(alloc: Global) -> MadeTy {
    Ok(builtin(alloc, 3))
}

pub(super) fn char_type(alloc: Global) -> MadeTy {
    Ok(builtin(alloc, 4))
}

pub(super) fn unit_type() -> MadeTy {
    Ok(Ty::unit())
}

/// The type variable that counts so many quantifiers outwards.
pub(super) fn bound(index: u32) -> MadeTy {
    Ok(Ty::variable(index))
}

pub(super) fn arrow(alloc: Global, from: MadeTy, to: MadeTy) -> MadeTy {
    Ty::arrow(alloc, from?, to?)
}

pub(super) fn forall(alloc: Global, body: MadeTy) -> MadeTy {
    Ty::forall(alloc, body?)
}

fn at_one(alloc: Global, head: Target, argument: MadeTy) -> MadeTy {
    let mut arguments = Vec::new(alloc);
    arguments.push(argument?)?;
    Ok(Ty::data(head, arguments))
}

pub(super) fn list_type(alloc: Global, of: MadeTy) -> MadeTy {
    at_one(alloc, Target::Stored(Ref::Builtin(5)), of)
}

pub(super) fn opt_type(alloc: Global, of: MadeTy) -> MadeTy {
    at_one(alloc, OPT_TYPE, of)
}

pub(super) fn pair_type(alloc: Global, first: MadeTy, second: MadeTy) -> MadeTy {
    let mut parts = Vec::new(alloc);
    parts.push(first?)?;
    parts.push(second?)?;
    Ok(Ty::tuple(parts))
}

/// `forall a. a -> a`
pub(super) fn identity(alloc: Global) -> MadeTy {
    forall(alloc, arrow(alloc, bound(0), bound(0)))
}

/// `forall a b. a -> b -> a`
pub(super) fn first_of_two(alloc: Global) -> MadeTy {
    let rest = arrow(alloc, bound(0), bound(1));
    forall(alloc, forall(alloc, arrow(alloc, bound(1), rest)))
}

pub(super) fn number(value: u64) -> MadeTerm {
    Ok(Term::literal(Literal::Nat(value)))
}

pub(super) fn truth(value: bool) -> MadeTerm {
    Ok(Term::literal(Literal::Boolean(value)))
}

pub(super) fn literal(value: Literal) -> MadeTerm {
    Ok(Term::literal(value))
}

fn letter(alloc: Global) -> Result<Literal, AllocError> {
    Ok(Literal::Text(Bytes::from_slice(alloc, b"a")?))
}

/// `"a"`
pub(super) fn word(alloc: Global) -> MadeTerm {
    literal(letter(alloc)?)
}

pub(super) fn unit() -> MadeTerm {
    Ok(Term::unit())
}

pub(super) fn plus() -> MadeTerm {
    Ok(Term::link(Target::Stored(Ref::Builtin(16))))
}

/// The constructor `None`.
pub(super) fn nothing() -> MadeTerm {
    Ok(Term::link(NONE))
}

/// A member of the same component.
pub(super) fn own(member: u32) -> MadeTerm {
    Ok(Term::link(Target::Own(member)))
}

pub(super) fn variable(index: u32) -> MadeTerm {
    Ok(Term::variable(index))
}

pub(super) fn lambda(alloc: Global, body: MadeTerm) -> MadeTerm {
    Term::lambda(alloc, body?)
}

pub(super) fn apply(alloc: Global, function: MadeTerm, argument: MadeTerm) -> MadeTerm {
    Term::apply(alloc, function?, argument?)
}

/// `first + second`
pub(super) fn sum(alloc: Global, first: MadeTerm, second: MadeTerm) -> MadeTerm {
    apply(alloc, apply(alloc, plus(), first), second)
}

/// `1 2`, which has no type
pub(super) fn no_function(alloc: Global) -> MadeTerm {
    apply(alloc, number(1), number(2))
}

/// `Some of`
pub(super) fn some(alloc: Global, of: MadeTerm) -> MadeTerm {
    apply(alloc, Ok(Term::link(SOME)), of)
}

pub(super) fn annotated(alloc: Global, term: MadeTerm, ty: MadeTy) -> MadeTerm {
    Term::annotated(alloc, term?, ty?)
}

fn one(alloc: Global, only: MadeTerm) -> Result<Vec<Term>, AllocError> {
    let mut terms = Vec::new(alloc);
    terms.push(only?)?;
    Ok(terms)
}

fn two(alloc: Global, first: MadeTerm, second: MadeTerm) -> Result<Vec<Term>, AllocError> {
    let mut terms = one(alloc, first)?;
    terms.push(second?)?;
    Ok(terms)
}

pub(super) fn pair(alloc: Global, first: MadeTerm, second: MadeTerm) -> MadeTerm {
    Ok(Term::tuple(two(alloc, first, second)?))
}

pub(super) fn triple(
    alloc: Global,
    first: MadeTerm,
    second: MadeTerm,
    third: MadeTerm,
) -> MadeTerm {
    let mut terms = two(alloc, first, second)?;
    terms.push(third?)?;
    Ok(Term::tuple(terms))
}

pub(super) fn empty_list(alloc: Global) -> MadeTerm {
    Ok(Term::list(Vec::new(alloc)))
}

pub(super) fn list_of_one(alloc: Global, only: MadeTerm) -> MadeTerm {
    Ok(Term::list(one(alloc, only)?))
}

pub(super) fn list_of_two(alloc: Global, first: MadeTerm, second: MadeTerm) -> MadeTerm {
    Ok(Term::list(two(alloc, first, second)?))
}

pub(super) fn conditional(
    alloc: Global,
    condition: MadeTerm,
    consequent: MadeTerm,
    alternative: MadeTerm,
) -> MadeTerm {
    Term::conditional(alloc, condition?, consequent?, alternative?)
}

pub(super) fn both(alloc: Global, first: MadeTerm, second: MadeTerm) -> MadeTerm {
    Term::and(alloc, first?, second?)
}

pub(super) fn either(alloc: Global, first: MadeTerm, second: MadeTerm) -> MadeTerm {
    Term::or(alloc, first?, second?)
}

pub(super) fn binding(alloc: Global, bound: MadeTerm, body: MadeTerm) -> MadeTerm {
    Term::binding(alloc, None, bound?, body?)
}

pub(super) fn signed(
    alloc: Global,
    signature: MadeTy,
    bound: MadeTerm,
    body: MadeTerm,
) -> MadeTerm {
    Term::binding(alloc, Some(signature?), bound?, body?)
}

pub(super) fn any() -> MadePattern {
    Ok(Pattern::any())
}

/// A pattern that binds a variable.
pub(super) fn binder() -> MadePattern {
    Ok(Pattern::variable())
}

pub(super) fn unit_pattern() -> MadePattern {
    Ok(Pattern::unit())
}

pub(super) fn number_pattern(value: u64) -> MadePattern {
    Ok(Pattern::literal(Literal::Nat(value)))
}

pub(super) fn word_pattern(alloc: Global) -> MadePattern {
    Ok(Pattern::literal(letter(alloc)?))
}

pub(super) fn alias(alloc: Global, inside: MadePattern) -> MadePattern {
    Pattern::alias(alloc, inside?)
}

fn one_pattern(alloc: Global, only: MadePattern) -> Result<Vec<Pattern>, AllocError> {
    let mut patterns = Vec::new(alloc);
    patterns.push(only?)?;
    Ok(patterns)
}

fn two_patterns(
    alloc: Global,
    first: MadePattern,
    second: MadePattern,
) -> Result<Vec<Pattern>, AllocError> {
    let mut patterns = one_pattern(alloc, first)?;
    patterns.push(second?)?;
    Ok(patterns)
}

/// A tuple of one part.
pub(super) fn single_pattern(alloc: Global, only: MadePattern) -> MadePattern {
    Ok(Pattern::tuple(one_pattern(alloc, only)?))
}

pub(super) fn pair_pattern(alloc: Global, first: MadePattern, second: MadePattern) -> MadePattern {
    Ok(Pattern::tuple(two_patterns(alloc, first, second)?))
}

pub(super) fn one_element(alloc: Global, only: MadePattern) -> MadePattern {
    Ok(Pattern::list(one_pattern(alloc, only)?))
}

pub(super) fn two_elements(alloc: Global, first: MadePattern, second: MadePattern) -> MadePattern {
    Ok(Pattern::list(two_patterns(alloc, first, second)?))
}

pub(super) fn none_pattern(alloc: Global) -> MadePattern {
    Ok(Pattern::constructor(NONE, Vec::new(alloc)))
}

pub(super) fn some_pattern(alloc: Global, field: MadePattern) -> MadePattern {
    Ok(Pattern::constructor(SOME, one_pattern(alloc, field)?))
}

/// `Some` without its field
pub(super) fn bare_some_pattern(alloc: Global) -> MadePattern {
    Ok(Pattern::constructor(SOME, Vec::new(alloc)))
}

/// `first +: rest`
pub(super) fn cons(alloc: Global, first: MadePattern, rest: MadePattern) -> MadePattern {
    Pattern::cons(alloc, first?, rest?)
}

/// `front :+ last`
pub(super) fn snoc(alloc: Global, front: MadePattern, last: MadePattern) -> MadePattern {
    Pattern::snoc(alloc, front?, last?)
}

/// A case without a guard.
pub(super) fn case(pattern: MadePattern, body: MadeTerm) -> MadeCase {
    Ok(Case {
        pattern: pattern?,
        guard: None,
        body: body?,
    })
}

pub(super) fn guarded(pattern: MadePattern, guard: MadeTerm, body: MadeTerm) -> MadeCase {
    Ok(Case {
        pattern: pattern?,
        guard: Some(guard?),
        body: body?,
    })
}

/// A match with one case.
pub(super) fn match_one(alloc: Global, subject: MadeTerm, only: MadeCase) -> MadeTerm {
    let mut cases = Vec::new(alloc);
    cases.push(only?)?;
    Term::matching(alloc, subject?, cases)
}

/// A match with two cases.
pub(super) fn match_two(
    alloc: Global,
    subject: MadeTerm,
    first: MadeCase,
    second: MadeCase,
) -> MadeTerm {
    let mut cases = Vec::new(alloc);
    cases.push(first?)?;
    cases.push(second?)?;
    Term::matching(alloc, subject?, cases)
}
