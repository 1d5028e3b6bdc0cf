//! Matches, with each form of pattern.

use crate::tests::asking::{is_accepted, is_found, is_ill, is_refused};
use crate::tests::trees::*;
use std::alloc::Global;
use std::test::Fail;

/// A match of a number with one case of a unit.
fn number_matched(alloc: Global, pattern: MadePattern) -> MadeTerm {
    match_one(alloc, number(3), case(pattern, unit()))
}

#[test]
fn literals_match(rt: HostRuntime) -> Result<(), Fail> {
    let alloc = rt.alloc();
    assert!(rt; is_found(alloc, number_matched(alloc, number_pattern(0)), unit_type()));
    assert!(rt; is_ill(alloc, number_matched(alloc, word_pattern(alloc)), 3));
    assert!(rt; is_ill(alloc, number_matched(alloc, unit_pattern()), 3));
    let unit_case = case(unit_pattern(), number(1));
    assert!(rt; is_found(alloc, match_one(alloc, unit(), unit_case), nat(alloc)));
    Ok(())
}

/// `match 3 with 0 -> 1; _ -> other`
fn zero_or(alloc: Global, other: MadeTerm) -> MadeTerm {
    let first = case(number_pattern(0), number(1));
    match_two(alloc, number(3), first, case(any(), other))
}

#[test]
fn cases_have_one_type(rt: HostRuntime) -> Result<(), Fail> {
    let alloc = rt.alloc();
    assert!(rt; is_found(alloc, zero_or(alloc, number(2)), nat(alloc)));
    assert!(rt; is_ill(alloc, zero_or(alloc, unit()), 6));
    assert!(rt; is_accepted(alloc, nat(alloc), zero_or(alloc, number(2))));
    assert!(rt; is_refused(alloc, nat(alloc), zero_or(alloc, unit()), 7));
    // The subject has no type.
    let refused = match_one(alloc, no_function(alloc), case(any(), unit()));
    assert!(rt; is_ill(alloc, refused, 2));
    Ok(())
}

#[test]
fn guards_are_booleans(rt: HostRuntime) -> Result<(), Fail> {
    let alloc = rt.alloc();
    let only = guarded(binder(), truth(false), variable(0));
    assert!(rt; is_found(alloc, match_one(alloc, number(3), only), nat(alloc)));
    let only = guarded(binder(), variable(0), unit());
    assert!(rt; is_found(alloc, match_one(alloc, truth(true), only), unit_type()));
    let only = guarded(binder(), variable(0), unit());
    assert!(rt; is_ill(alloc, match_one(alloc, number(3), only), 4));
    // A guard counts as a node before its body.
    let first = guarded(any(), truth(true), number(1));
    let refused = match_two(alloc, number(3), first, case(any(), unit()));
    assert!(rt; is_ill(alloc, refused, 7));
    Ok(())
}

/// `match Some 1 with Some field -> body; None -> 0`
fn opened(alloc: Global, field: MadePattern, body: MadeTerm) -> MadeTerm {
    let first = case(some_pattern(alloc, field), body);
    let second = case(none_pattern(alloc), number(0));
    match_two(alloc, some(alloc, number(1)), first, second)
}

#[test]
fn constructors_match(rt: HostRuntime) -> Result<(), Fail> {
    let alloc = rt.alloc();
    assert!(rt; is_found(alloc, opened(alloc, binder(), variable(0)), nat(alloc)));
    assert!(rt; is_ill(alloc, opened(alloc, word_pattern(alloc), number(1)), 6));
    assert!(rt; is_ill(alloc, number_matched(alloc, none_pattern(alloc)), 3));
    // match Some 1 with Some -> 0: a field is missing.
    let bare = case(bare_some_pattern(alloc), number(0));
    assert!(rt; is_ill(alloc, match_one(alloc, some(alloc, number(1)), bare), 5));
    Ok(())
}

#[test]
fn quantified_subjects_are_opened(rt: HostRuntime) -> Result<(), Fail> {
    let alloc = rt.alloc();
    // match None with Some x -> x; None -> 0
    let first = case(some_pattern(alloc, binder()), variable(0));
    let second = case(none_pattern(alloc), number(0));
    let open = match_two(alloc, nothing(), first, second);
    assert!(rt; is_found(alloc, open, nat(alloc)));
    Ok(())
}

/// `match (1, ()) with pattern -> body`
fn pair_matched(alloc: Global, pattern: MadePattern, body: MadeTerm) -> MadeTerm {
    match_one(alloc, pair(alloc, number(1), unit()), case(pattern, body))
}

#[test]
fn tuples_match(rt: HostRuntime) -> Result<(), Fail> {
    let alloc = rt.alloc();
    // The last variable is the innermost.
    let first = pair_matched(alloc, pair_pattern(alloc, binder(), binder()), variable(1));
    assert!(rt; is_found(alloc, first, nat(alloc)));
    let second = pair_matched(alloc, pair_pattern(alloc, binder(), binder()), variable(0));
    assert!(rt; is_found(alloc, second, unit_type()));
    let single = pair_matched(alloc, single_pattern(alloc, binder()), number(0));
    assert!(rt; is_ill(alloc, single, 5));
    let other = pair_pattern(alloc, binder(), number_pattern(1));
    assert!(rt; is_ill(alloc, pair_matched(alloc, other, number(0)), 7));
    Ok(())
}

/// `match [1] with pattern -> body`
fn list_matched(alloc: Global, pattern: MadePattern, body: MadeTerm) -> MadeTerm {
    match_one(alloc, list_of_one(alloc, number(1)), case(pattern, body))
}

#[test]
fn lists_match(rt: HostRuntime) -> Result<(), Fail> {
    let alloc = rt.alloc();
    let only = list_matched(alloc, one_element(alloc, binder()), variable(0));
    assert!(rt; is_found(alloc, only, nat(alloc)));
    assert!(rt;
        is_ill(
            alloc,
            number_matched(alloc, one_element(alloc, binder())),
            3
        )
    );
    let words = two_elements(alloc, word_pattern(alloc), word_pattern(alloc));
    assert!(rt; is_ill(alloc, list_matched(alloc, words, number(0)), 5));
    Ok(())
}

#[test]
fn ends_of_lists_match(rt: HostRuntime) -> Result<(), Fail> {
    let alloc = rt.alloc();
    // x +: xs -> xs, and xs :+ x -> x
    let rest = list_matched(alloc, cons(alloc, binder(), binder()), variable(0));
    assert!(rt; is_found(alloc, rest, list_type(alloc, nat(alloc))));
    let last = list_matched(alloc, snoc(alloc, binder(), binder()), variable(0));
    assert!(rt; is_found(alloc, last, nat(alloc)));
    Ok(())
}

#[test]
fn ends_of_lists_are_refused(rt: HostRuntime) -> Result<(), Fail> {
    let alloc = rt.alloc();
    let first = cons(alloc, word_pattern(alloc), any());
    assert!(rt; is_ill(alloc, list_matched(alloc, first, number(0)), 5));
    let front = snoc(alloc, number_pattern(1), any());
    assert!(rt; is_ill(alloc, list_matched(alloc, front, number(0)), 5));
    let last = snoc(alloc, any(), word_pattern(alloc));
    assert!(rt; is_ill(alloc, list_matched(alloc, last, number(0)), 6));
    assert!(rt; is_ill(alloc, number_matched(alloc, cons(alloc, any(), any())), 3));
    Ok(())
}

#[test]
fn aliases_match(rt: HostRuntime) -> Result<(), Fail> {
    let alloc = rt.alloc();
    // p@(x, _): the alias stands before its inside.
    let whole = alias(alloc, pair_pattern(alloc, binder(), any()));
    let expected = pair_type(alloc, nat(alloc), unit_type());
    assert!(rt; is_found(alloc, pair_matched(alloc, whole, variable(1)), expected));
    let part = alias(alloc, pair_pattern(alloc, binder(), any()));
    assert!(rt; is_found(alloc, pair_matched(alloc, part, variable(0)), nat(alloc)));
    let other = alias(alloc, word_pattern(alloc));
    assert!(rt; is_ill(alloc, number_matched(alloc, other), 4));
    Ok(())
}
