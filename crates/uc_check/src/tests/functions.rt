//! Lambdas and applications.

use crate::tests::asking::{is_accepted, is_checked, is_found, is_ill, is_refused};
use crate::tests::trees::*;
use std::alloc::Global;
use std::test::Fail;

/// `\f -> f f`
fn self_application(alloc: Global) -> MadeTerm {
    lambda(alloc, apply(alloc, variable(0), variable(0)))
}

/// `(f 1, f "a")` under `f`
fn two_uses(alloc: Global) -> MadeTerm {
    let first = apply(alloc, variable(0), number(1));
    let second = apply(alloc, variable(0), word(alloc));
    pair(alloc, first, second)
}

/// `(forall a. a -> a) -> to`
fn from_identity(alloc: Global, to: MadeTy) -> MadeTy {
    arrow(alloc, identity(alloc), to)
}

#[test]
fn lambdas_have_types(rt: HostRuntime) -> Result<(), Fail> {
    let alloc = rt.alloc();
    // \x -> x
    let id = lambda(alloc, variable(0));
    assert!(rt; is_found(alloc, id, identity(alloc)));
    // \x -> \y -> x
    let constant = lambda(alloc, lambda(alloc, variable(1)));
    assert!(rt; is_found(alloc, constant, first_of_two(alloc)));
    Ok(())
}

#[test]
fn arguments_may_be_quantified(rt: HostRuntime) -> Result<(), Fail> {
    let alloc = rt.alloc();
    // e : (forall a. a -> a) -> (forall b. b -> b), e f = f f
    let higher = from_identity(alloc, identity(alloc));
    let expected = from_identity(alloc, identity(alloc));
    assert!(rt; is_checked(alloc, higher, self_application(alloc), expected));
    // g : (forall a. a -> a) -> (Nat, Text), g f = (f 1, f "a")
    let higher = from_identity(alloc, pair_type(alloc, nat(alloc), text(alloc)));
    assert!(rt; is_accepted(alloc, higher, lambda(alloc, two_uses(alloc))));
    Ok(())
}

#[test]
fn parameters_have_monotypes(rt: HostRuntime) -> Result<(), Fail> {
    let alloc = rt.alloc();
    // \f -> f f: the argument would be a part of its own type.
    assert!(rt; is_ill(alloc, self_application(alloc), 4));
    // \f -> (f 1, f "a")
    assert!(rt; is_ill(alloc, lambda(alloc, two_uses(alloc)), 8));
    Ok(())
}

#[test]
fn lambdas_are_refused(rt: HostRuntime) -> Result<(), Fail> {
    let alloc = rt.alloc();
    // bad : () -> (forall a. a), bad u = u
    let bad = arrow(alloc, unit_type(), forall(alloc, bound(0)));
    assert!(rt; is_refused(alloc, bad, lambda(alloc, variable(0)), 6));
    // f : Nat -> Text, f x = x
    let other = arrow(alloc, nat(alloc), text(alloc));
    assert!(rt; is_refused(alloc, other, lambda(alloc, variable(0)), 5));
    // f : Nat, f = \x -> x
    assert!(rt; is_refused(alloc, nat(alloc), lambda(alloc, variable(0)), 2));
    Ok(())
}

#[test]
fn applications_have_types(rt: HostRuntime) -> Result<(), Fail> {
    let alloc = rt.alloc();
    assert!(rt; is_found(alloc, sum(alloc, number(1), number(2)), nat(alloc)));
    assert!(rt; is_found(alloc, some(alloc, number(1)), opt_type(alloc, nat(alloc))));
    // \f -> f 1: forall a. (Nat -> a) -> a
    let at_one = lambda(alloc, apply(alloc, variable(0), number(1)));
    let from = arrow(alloc, nat(alloc), bound(0));
    let expected = forall(alloc, arrow(alloc, from, bound(0)));
    assert!(rt; is_found(alloc, at_one, expected));
    Ok(())
}

#[test]
fn applications_are_refused(rt: HostRuntime) -> Result<(), Fail> {
    let alloc = rt.alloc();
    assert!(rt; is_ill(alloc, sum(alloc, unit(), number(2)), 4));
    assert!(rt; is_ill(alloc, sum(alloc, number(1), unit()), 5));
    assert!(rt; is_ill(alloc, no_function(alloc), 1));
    // (1 + 2) 3
    let twice = apply(alloc, sum(alloc, number(1), number(2)), number(3));
    assert!(rt; is_ill(alloc, twice, 1));
    // Some (1 2)
    assert!(rt; is_ill(alloc, some(alloc, no_function(alloc)), 3));
    Ok(())
}
