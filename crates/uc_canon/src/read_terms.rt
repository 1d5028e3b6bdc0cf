//! Terms from canonical text.
ghost use Rattle.std.specs.Prelude.{◌≡◌, []};
ghost use Rattle.uc_canon.specs.Reading.{Gives, counted_at, items_from};
ghost use Rattle.uc_canon.specs.ReadingTerms.{term_variable_at, reference_at, reference_link_at, constructor_link_at, member_link_at, literal_term_at, lambda_at, two_at, apply_at, and_at, or_at, annotated_at, tuple_term_at, list_term_at, conditional_at, binding_at, guard_at, case_at, match_at, term_by, term_at};

use crate::read_basics::{read_count, read_literal, read_u32};
use crate::read_error::ReadError;
use crate::read_patterns::read_pattern;
use crate::read_types::{
    read_builtin, read_constructor, read_member, read_signature, read_stored, read_type,
};
use crate::scope::{TermScope, binder_count};
use std::alloc::Global;
use uc_tree::{Case, Target, Term};

#[tactic(auto, unfolding(crate::specs::ReadingTerms::term_variable_at))]
fn read_variable(scope: TermScope, bytes: &[u8]) -> Result<(Term, &[u8]), ReadError>
    ensures { Gives (λ x. (x.0, x.1.now)) result (term_variable_at scope bytes.now) }
{
    let (index, rest) = read_u32(bytes)?;
    if u64::from(index) >= scope.variables {
        return Err(ReadError::Absent);
    }
    Ok((Term::variable(index), rest))
}

/// A builtin or a stored definition.
#[tactic(auto, unfolding(crate::specs::ReadingTerms::reference_at))]
fn read_reference(bytes: &[u8]) -> Result<(Target, &[u8]), ReadError>
    ensures { Gives (λ x. (x.0, x.1.now)) result (reference_at bytes.now) }
{
    match bytes {
        [] => Err(ReadError::Absent),
        [c, rest @ ..] => match *c {
            b'b' => read_builtin(rest),
            b'h' => read_stored(rest),
            _ => Err(ReadError::Absent),
        },
    }
}

#[tactic(auto, unfolding(crate::specs::ReadingTerms::reference_link_at))]
fn read_reference_link(bytes: &[u8]) -> Result<(Term, &[u8]), ReadError>
    ensures { Gives (λ x. (x.0, x.1.now)) result (reference_link_at bytes.now) }
{
    let (target, rest) = read_reference(bytes)?;
    Ok((Term::link(target), rest))
}

#[tactic(auto, unfolding(crate::specs::ReadingTerms::constructor_link_at))]
fn read_constructor_link(bytes: &[u8]) -> Result<(Term, &[u8]), ReadError>
    ensures { Gives (λ x. (x.0, x.1.now)) result (constructor_link_at bytes.now) }
{
    let (target, rest) = read_constructor(bytes)?;
    Ok((Term::link(target), rest))
}

#[tactic(auto, unfolding(crate::specs::ReadingTerms::member_link_at))]
fn read_member_link(members: u32, bytes: &[u8]) -> Result<(Term, &[u8]), ReadError>
    ensures { Gives (λ x. (x.0, x.1.now)) result (member_link_at members bytes.now) }
{
    let (target, rest) = read_member(members, bytes)?;
    Ok((Term::link(target), rest))
}

#[tactic(auto, unfolding(crate::specs::ReadingTerms::literal_term_at))]
fn read_literal_term(alloc: Global, kind: u8, bytes: &[u8]) -> Result<(Term, &[u8]), ReadError>
    ensures { Gives (λ x. (x.0, x.1.now)) result (literal_term_at kind bytes.now) }
{
    let (literal, rest) = read_literal(alloc, kind, bytes)?;
    Ok((Term::literal(literal), rest))
}

/// A term of at most so many levels.
#[cycle(read_term)]
pub(crate) fn read_term(
    alloc: Global,
    levels: u32,
    scope: TermScope,
    bytes: &[u8],
) -> Result<(Term, &[u8]), ReadError>
    ensures { Gives (λ x. (x.0, x.1.now)) result (term_at levels scope bytes.now) }
{
    if levels == 0 {
        return Err(ReadError::Absent);
    }
    read_term_by(alloc, levels - 1, scope, bytes)
}

/// A term whose parts have at most so many levels.
#[cycle(read_term)]
#[tactic(auto, unfolding(crate::specs::ReadingTerms::term_by))]
fn read_term_by(
    alloc: Global,
    levels: u32,
    scope: TermScope,
    bytes: &[u8],
) -> Result<(Term, &[u8]), ReadError>
    ensures { Gives (λ x. (x.0, x.1.now)) result (term_by levels (term_at levels) scope bytes.now) }
{
    match bytes {
        [] => Err(ReadError::Absent),
        [c, rest @ ..] => match *c {
            b'v' => read_variable(scope, rest),
            b'e' => Ok((Term::unit(), rest)),
            b'r' => read_reference_link(rest),
            b'k' => read_constructor_link(rest),
            b'm' => read_member_link(scope.members, rest),
            b'l' => read_lambda(alloc, levels, scope, rest),
            b'a' => read_apply(alloc, levels, scope, rest),
            b's' => read_annotated(alloc, levels, scope, rest),
            b'p' => read_tuple_term(alloc, levels, scope, rest),
            b'g' => read_list_term(alloc, levels, scope, rest),
            b'f' => read_conditional(alloc, levels, scope, rest),
            b'w' => read_and(alloc, levels, scope, rest),
            b'o' => read_or(alloc, levels, scope, rest),
            b'd' => read_binding(alloc, levels, scope, rest),
            b'j' => read_match(alloc, levels, scope, rest),
            kind => read_literal_term(alloc, kind, rest),
        },
    }
}

#[cycle(read_term)]
#[tactic(auto, unfolding(crate::specs::ReadingTerms::lambda_at))]
fn read_lambda(
    alloc: Global,
    levels: u32,
    scope: TermScope,
    bytes: &[u8],
) -> Result<(Term, &[u8]), ReadError>
    ensures { Gives (λ x. (x.0, x.1.now)) result
        (lambda_at levels (term_at levels) scope bytes.now) }
{
    let (body, rest) = read_term(alloc, levels, scope.under_binders(1), bytes)?;
    Ok((Term::lambda(alloc, body)?, rest))
}

/// Two terms, one after the other.
#[cycle(read_term)]
#[tactic(auto, unfolding(crate::specs::ReadingTerms::two_at))]
fn read_two(
    alloc: Global,
    levels: u32,
    scope: TermScope,
    bytes: &[u8],
) -> Result<(Term, Term, &[u8]), ReadError>
    ensures { Gives (λ x. (x.0, x.1, x.2.now)) result
        (two_at levels (term_at levels) scope bytes.now) }
{
    let (left, rest) = read_term(alloc, levels, scope, bytes)?;
    let (right, rest) = read_term(alloc, levels, scope, rest)?;
    Ok((left, right, rest))
}

#[cycle(read_term)]
#[tactic(auto, unfolding(crate::specs::ReadingTerms::apply_at))]
fn read_apply(
    alloc: Global,
    levels: u32,
    scope: TermScope,
    bytes: &[u8],
) -> Result<(Term, &[u8]), ReadError>
    ensures { Gives (λ x. (x.0, x.1.now)) result
        (apply_at levels (term_at levels) scope bytes.now) }
{
    let (function, argument, rest) = read_two(alloc, levels, scope, bytes)?;
    Ok((Term::apply(alloc, function, argument)?, rest))
}

#[cycle(read_term)]
#[tactic(auto, unfolding(crate::specs::ReadingTerms::and_at))]
fn read_and(
    alloc: Global,
    levels: u32,
    scope: TermScope,
    bytes: &[u8],
) -> Result<(Term, &[u8]), ReadError>
    ensures { Gives (λ x. (x.0, x.1.now)) result (and_at levels (term_at levels) scope bytes.now) }
{
    let (left, right, rest) = read_two(alloc, levels, scope, bytes)?;
    Ok((Term::and(alloc, left, right)?, rest))
}

#[cycle(read_term)]
#[tactic(auto, unfolding(crate::specs::ReadingTerms::or_at))]
fn read_or(
    alloc: Global,
    levels: u32,
    scope: TermScope,
    bytes: &[u8],
) -> Result<(Term, &[u8]), ReadError>
    ensures { Gives (λ x. (x.0, x.1.now)) result (or_at levels (term_at levels) scope bytes.now) }
{
    let (left, right, rest) = read_two(alloc, levels, scope, bytes)?;
    Ok((Term::or(alloc, left, right)?, rest))
}

#[cycle(read_term)]
#[tactic(auto, unfolding(crate::specs::ReadingTerms::annotated_at))]
fn read_annotated(
    alloc: Global,
    levels: u32,
    scope: TermScope,
    bytes: &[u8],
) -> Result<(Term, &[u8]), ReadError>
    ensures { Gives (λ x. (x.0, x.1.now)) result
        (annotated_at levels (term_at levels) scope bytes.now) }
{
    let (term, rest) = read_term(alloc, levels, scope, bytes)?;
    let (ty, rest) = read_type(alloc, levels, scope.types(), rest)?;
    Ok((Term::annotated(alloc, term, ty)?, rest))
}

#[cycle(read_term)]
#[tactic(auto, unfolding(crate::specs::ReadingTerms::tuple_term_at))]
fn read_tuple_term(
    alloc: Global,
    levels: u32,
    scope: TermScope,
    bytes: &[u8],
) -> Result<(Term, &[u8]), ReadError>
    ensures { Gives (λ x. (x.0, x.1.now)) result
        (tuple_term_at levels (term_at levels) scope bytes.now) }
{
    let (parts, rest) = read_terms(alloc, levels, scope, 2, bytes)?;
    Ok((Term::tuple(parts), rest))
}

#[cycle(read_term)]
#[tactic(auto, unfolding(crate::specs::ReadingTerms::list_term_at))]
fn read_list_term(
    alloc: Global,
    levels: u32,
    scope: TermScope,
    bytes: &[u8],
) -> Result<(Term, &[u8]), ReadError>
    ensures { Gives (λ x. (x.0, x.1.now)) result
        (list_term_at levels (term_at levels) scope bytes.now) }
{
    let (elements, rest) = read_terms(alloc, levels, scope, 0, bytes)?;
    Ok((Term::list(elements), rest))
}

#[cycle(read_term)]
#[tactic(auto, unfolding(crate::specs::ReadingTerms::conditional_at))]
fn read_conditional(
    alloc: Global,
    levels: u32,
    scope: TermScope,
    bytes: &[u8],
) -> Result<(Term, &[u8]), ReadError>
    ensures { Gives (λ x. (x.0, x.1.now)) result
        (conditional_at levels (term_at levels) scope bytes.now) }
{
    let (condition, rest) = read_term(alloc, levels, scope, bytes)?;
    let (consequent, alternative, rest) = read_two(alloc, levels, scope, rest)?;
    Ok((
        Term::conditional(alloc, condition, consequent, alternative)?,
        rest,
    ))
}

#[cycle(read_term)]
#[tactic(auto, unfolding(crate::specs::ReadingTerms::binding_at))]
fn read_binding(
    alloc: Global,
    levels: u32,
    scope: TermScope,
    bytes: &[u8],
) -> Result<(Term, &[u8]), ReadError>
    ensures { Gives (λ x. (x.0, x.1.now)) result
        (binding_at levels (term_at levels) scope bytes.now) }
{
    let (signature, rest) = read_signature(alloc, levels, scope.types(), bytes)?;
    let inside = scope.under_signature(&signature).under_binders(1);
    let (value, rest) = read_term(alloc, levels, inside, rest)?;
    let (body, rest) = read_term(alloc, levels, scope.under_binders(1), rest)?;
    Ok((Term::binding(alloc, signature, value, body)?, rest))
}

#[cycle(read_term)]
#[tactic(auto, unfolding(crate::specs::ReadingTerms::match_at))]
fn read_match(
    alloc: Global,
    levels: u32,
    scope: TermScope,
    bytes: &[u8],
) -> Result<(Term, &[u8]), ReadError>
    ensures { Gives (λ x. (x.0, x.1.now)) result
        (match_at levels (term_at levels) scope bytes.now) }
{
    let (subject, rest) = read_term(alloc, levels, scope, bytes)?;
    let (cases, rest) = read_cases(alloc, levels, scope, rest)?;
    Ok((Term::matching(alloc, subject, cases)?, rest))
}

/// How many terms, of which there are at least so many, and then each.
#[cycle(read_term)]
#[tactic(auto, unfolding(crate::specs::Reading::counted_at))]
fn read_terms(
    alloc: Global,
    levels: u32,
    scope: TermScope,
    least: u32,
    bytes: &[u8],
) -> Result<(Vec<Term>, &[u8]), ReadError>
    ensures { Gives (λ x. (x.0.items, x.1.now)) result
        (counted_at (term_at levels scope) least bytes.now) }
{
    let (count, rest) = read_count(least, bytes)?;
    read_each_term(alloc, levels, scope, count, rest)
}

#[cycle(read_term)]
fn read_each_term(
    alloc: Global,
    levels: u32,
    scope: TermScope,
    count: u32,
    bytes: &[u8],
) -> Result<(Vec<Term>, &[u8]), ReadError>
    ensures { Gives (λ x. (x.0.items, x.1.now)) result
        (items_from (term_at levels scope) [] count bytes.now) }
{
    let mut terms = Vec::new(alloc);
    let mut rest = bytes;
    for _ in 0..count {
        let (term, after) = read_term(alloc, levels, scope, rest)?;
        terms.push(term)?;
        rest = after;
    }
    Ok((terms, rest))
}

#[cycle(read_term)]
#[tactic(auto, unfolding(crate::specs::ReadingTerms::guard_at))]
fn read_guard(
    alloc: Global,
    levels: u32,
    scope: TermScope,
    bytes: &[u8],
) -> Result<(Option<Term>, &[u8]), ReadError>
    ensures { Gives (λ x. (x.0, x.1.now)) result
        (guard_at levels (term_at levels) scope bytes.now) }
{
    match bytes {
        [] => Err(ReadError::Absent),
        [b'-', rest @ ..] => Ok((None, rest)),
        [b'|', rest @ ..] => {
            let (guard, rest) = read_term(alloc, levels, scope, rest)?;
            Ok((Some(guard), rest))
        }
        [_, ..] => Err(ReadError::Absent),
    }
}

#[cycle(read_term)]
#[tactic(auto, unfolding(crate::specs::ReadingTerms::case_at))]
fn read_case(
    alloc: Global,
    levels: u32,
    scope: TermScope,
    bytes: &[u8],
) -> Result<(Case, &[u8]), ReadError>
    ensures { Gives (λ x. (x.0, x.1.now)) result (case_at levels (term_at levels) scope bytes.now) }
{
    let (pattern, rest) = read_pattern(alloc, levels, bytes)?;
    let scope = scope.under_binders(binder_count(&pattern));
    let (guard, rest) = read_guard(alloc, levels, scope, rest)?;
    let (body, rest) = read_term(alloc, levels, scope, rest)?;
    let case = Case {
        pattern,
        guard,
        body,
    };
    Ok((case, rest))
}

/// How many cases, at least one, and then each.
#[cycle(read_term)]
#[tactic(auto, unfolding(crate::specs::Reading::counted_at))]
fn read_cases(
    alloc: Global,
    levels: u32,
    scope: TermScope,
    bytes: &[u8],
) -> Result<(Vec<Case>, &[u8]), ReadError>
    ensures { Gives (λ x. (x.0.items, x.1.now)) result
        (counted_at (case_at levels (term_at levels) scope) 1 bytes.now) }
{
    let (count, rest) = read_count(1, bytes)?;
    read_each_case(alloc, levels, scope, count, rest)
}

#[cycle(read_term)]
fn read_each_case(
    alloc: Global,
    levels: u32,
    scope: TermScope,
    count: u32,
    bytes: &[u8],
) -> Result<(Vec<Case>, &[u8]), ReadError>
    ensures { Gives (λ x. (x.0.items, x.1.now)) result
        (items_from (case_at levels (term_at levels) scope) [] count bytes.now) }
{
    let mut cases = Vec::new(alloc);
    let mut rest = bytes;
    for _ in 0..count {
        let (case, after) = read_case(alloc, levels, scope, rest)?;
        cases.push(case)?;
        rest = after;
    }
    Ok((cases, rest))
}
