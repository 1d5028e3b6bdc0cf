//! Links, literals, annotations, tuples, lists, conditionals and bindings.

use crate::tests::asking::{is_accepted, is_found, is_ill, is_refused, is_unsigned};
use crate::tests::trees::*;
use std::alloc::Global;
use std::test::Fail;
use uc_tree::Literal;

#[test]
fn literals_have_types(rt: HostRuntime) -> Result<(), Fail> {
    let alloc = rt.alloc();
    assert!(rt; is_found(alloc, number(1), nat(alloc)));
    assert!(rt; is_found(alloc, literal(Literal::Int(-1)), int(alloc)));
    assert!(rt; is_found(alloc, truth(true), boolean(alloc)));
    assert!(rt; is_found(alloc, word(alloc), text(alloc)));
    assert!(rt; is_found(alloc, literal(Literal::Char('a')), char_type(alloc)));
    assert!(rt; is_found(alloc, unit(), unit_type()));
    Ok(())
}

#[test]
fn links_have_types(rt: HostRuntime) -> Result<(), Fail> {
    let alloc = rt.alloc();
    let rest = arrow(alloc, nat(alloc), nat(alloc));
    assert!(rt; is_found(alloc, plus(), arrow(alloc, nat(alloc), rest)));
    // None: forall a. Opt a
    let expected = forall(alloc, opt_type(alloc, bound(0)));
    assert!(rt; is_found(alloc, nothing(), expected));
    assert!(rt; is_accepted(alloc, opt_type(alloc, text(alloc)), nothing()));
    Ok(())
}

#[test]
fn leaves_are_refused(rt: HostRuntime) -> Result<(), Fail> {
    let alloc = rt.alloc();
    assert!(rt; is_refused(alloc, text(alloc), number(1), 2));
    assert!(rt; is_refused(alloc, nat(alloc), literal(Literal::Int(1)), 2));
    assert!(rt; is_refused(alloc, unit_type(), word(alloc), 2));
    assert!(rt; is_refused(alloc, text(alloc), unit(), 2));
    assert!(rt; is_refused(alloc, nat(alloc), plus(), 2));
    Ok(())
}

#[test]
fn annotations_have_their_types(rt: HostRuntime) -> Result<(), Fail> {
    let alloc = rt.alloc();
    assert!(rt; is_found(alloc, annotated(alloc, number(1), nat(alloc)), nat(alloc)));
    // (\x -> x : forall a. a -> a)
    let quantified = annotated(alloc, lambda(alloc, variable(0)), identity(alloc));
    assert!(rt; is_found(alloc, quantified, identity(alloc)));
    Ok(())
}

#[test]
fn annotations_are_refused(rt: HostRuntime) -> Result<(), Fail> {
    let alloc = rt.alloc();
    assert!(rt; is_ill(alloc, annotated(alloc, number(1), text(alloc)), 2));
    // x : Text, x = (1 : Nat)
    let other = annotated(alloc, number(1), nat(alloc));
    assert!(rt; is_refused(alloc, text(alloc), other, 2));
    // ((1 : Nat), (1 : Text)): the annotation counts as a node.
    let first = annotated(alloc, number(1), nat(alloc));
    let second = annotated(alloc, number(1), text(alloc));
    assert!(rt; is_ill(alloc, pair(alloc, first, second), 6));
    Ok(())
}

#[test]
fn tuples(rt: HostRuntime) -> Result<(), Fail> {
    let alloc = rt.alloc();
    let mixed = pair(alloc, number(1), word(alloc));
    assert!(rt; is_found(alloc, mixed, pair_type(alloc, nat(alloc), text(alloc))));
    let numbers = pair_type(alloc, nat(alloc), nat(alloc));
    assert!(rt; is_refused(alloc, numbers, pair(alloc, number(1), unit()), 6));
    let numbers = pair_type(alloc, nat(alloc), nat(alloc));
    let longer = triple(alloc, number(1), number(2), number(3));
    assert!(rt; is_refused(alloc, numbers, longer, 4));
    assert!(rt; is_ill(alloc, pair(alloc, number(1), no_function(alloc)), 3));
    Ok(())
}

#[test]
fn lists_have_types(rt: HostRuntime) -> Result<(), Fail> {
    let alloc = rt.alloc();
    let numbers = list_of_two(alloc, number(1), number(2));
    assert!(rt; is_found(alloc, numbers, list_type(alloc, nat(alloc))));
    // []: forall a. [a]
    let expected = forall(alloc, list_type(alloc, bound(0)));
    assert!(rt; is_found(alloc, empty_list(alloc), expected));
    let numbers = list_type(alloc, nat(alloc));
    assert!(rt; is_accepted(alloc, numbers, empty_list(alloc)));
    Ok(())
}

#[test]
fn lists_are_refused(rt: HostRuntime) -> Result<(), Fail> {
    let alloc = rt.alloc();
    assert!(rt; is_ill(alloc, list_of_two(alloc, number(1), unit()), 3));
    let numbers = list_type(alloc, nat(alloc));
    assert!(rt; is_refused(alloc, numbers, list_of_one(alloc, unit()), 4));
    // A data type of one argument that is no list.
    let numbers = opt_type(alloc, nat(alloc));
    assert!(rt; is_refused(alloc, numbers, list_of_one(alloc, number(1)), 3));
    Ok(())
}

#[test]
fn conditionals_found(rt: HostRuntime) -> Result<(), Fail> {
    let alloc = rt.alloc();
    let choice = conditional(alloc, truth(true), number(1), number(2));
    assert!(rt; is_found(alloc, choice, nat(alloc)));
    let choice = conditional(alloc, number(0), number(1), number(2));
    assert!(rt; is_ill(alloc, choice, 2));
    let choice = conditional(alloc, truth(true), number(1), unit());
    assert!(rt; is_ill(alloc, choice, 4));
    Ok(())
}

#[test]
fn conditionals_checked(rt: HostRuntime) -> Result<(), Fail> {
    let alloc = rt.alloc();
    let choice = conditional(alloc, truth(true), number(1), number(2));
    assert!(rt; is_accepted(alloc, nat(alloc), choice));
    let choice = conditional(alloc, number(0), number(1), number(2));
    assert!(rt; is_refused(alloc, nat(alloc), choice, 3));
    let choice = conditional(alloc, truth(true), unit(), number(1));
    assert!(rt; is_refused(alloc, nat(alloc), choice, 4));
    let choice = conditional(alloc, truth(true), number(1), unit());
    assert!(rt; is_refused(alloc, nat(alloc), choice, 5));
    Ok(())
}

#[test]
fn truths(rt: HostRuntime) -> Result<(), Fail> {
    let alloc = rt.alloc();
    assert!(rt;
        is_found(
            alloc,
            both(alloc, truth(true), truth(false)),
            boolean(alloc)
        )
    );
    assert!(rt;
        is_found(
            alloc,
            either(alloc, truth(true), truth(false)),
            boolean(alloc)
        )
    );
    assert!(rt; is_ill(alloc, both(alloc, number(1), truth(true)), 2));
    assert!(rt; is_ill(alloc, both(alloc, truth(true), number(1)), 3));
    assert!(rt; is_ill(alloc, either(alloc, truth(true), number(1)), 3));
    assert!(rt;
        is_refused(
            alloc,
            nat(alloc),
            either(alloc, truth(true), truth(true)),
            2
        )
    );
    Ok(())
}

#[test]
fn bindings_have_types(rt: HostRuntime) -> Result<(), Fail> {
    let alloc = rt.alloc();
    // x = 1; x
    assert!(rt; is_found(alloc, binding(alloc, number(1), variable(0)), nat(alloc)));
    // x = 1; y = "a"; x
    let inner = binding(alloc, word(alloc), variable(1));
    assert!(rt; is_found(alloc, binding(alloc, number(1), inner), nat(alloc)));
    // x = "a"; x = 1; x
    let inner = binding(alloc, number(1), variable(0));
    assert!(rt; is_found(alloc, binding(alloc, word(alloc), inner), nat(alloc)));
    Ok(())
}

#[test]
fn bindings_are_refused(rt: HostRuntime) -> Result<(), Fail> {
    let alloc = rt.alloc();
    // f = \x -> x; (f 1, f "a"): what is bound isn't generalised.
    let first = apply(alloc, variable(0), number(1));
    let second = apply(alloc, variable(0), word(alloc));
    let body = pair(alloc, first, second);
    assert!(rt; is_ill(alloc, binding(alloc, lambda(alloc, variable(0)), body), 10));
    // x = Nat.+ (); x
    let bound = apply(alloc, plus(), unit());
    assert!(rt; is_ill(alloc, binding(alloc, bound, variable(0)), 4));
    // t : Text, t = x = 1; x
    let inner = binding(alloc, number(1), variable(0));
    assert!(rt; is_refused(alloc, text(alloc), inner, 4));
    Ok(())
}

#[test]
fn own_uses_want_signatures(rt: HostRuntime) -> Result<(), Fail> {
    let alloc = rt.alloc();
    // x = x; x
    assert!(rt; is_unsigned(alloc, binding(alloc, variable(0), variable(0)), 1));
    // f = \y -> f y; 1
    let bound = lambda(alloc, apply(alloc, variable(1), variable(0)));
    assert!(rt; is_unsigned(alloc, binding(alloc, bound, number(1)), 1));
    // y = 1; x = (y, x); x
    let inner = binding(alloc, pair(alloc, variable(1), variable(0)), variable(0));
    assert!(rt; is_unsigned(alloc, binding(alloc, number(1), inner), 3));
    Ok(())
}

/// `f : Nat -> Nat; f = \n -> f n; body`
fn recursive(alloc: Global, body: MadeTerm) -> MadeTerm {
    let signature = arrow(alloc, nat(alloc), nat(alloc));
    let bound = lambda(alloc, apply(alloc, variable(1), variable(0)));
    signed(alloc, signature, bound, body)
}

#[test]
fn signed_bindings_have_types(rt: HostRuntime) -> Result<(), Fail> {
    let alloc = rt.alloc();
    let at_one = apply(alloc, variable(0), number(1));
    assert!(rt; is_found(alloc, recursive(alloc, at_one), nat(alloc)));
    // f : forall a. a -> a; f = \x -> x; (f 1, f "a")
    let first = apply(alloc, variable(0), number(1));
    let second = apply(alloc, variable(0), word(alloc));
    let body = pair(alloc, first, second);
    let many = signed(alloc, identity(alloc), lambda(alloc, variable(0)), body);
    assert!(rt; is_found(alloc, many, pair_type(alloc, nat(alloc), text(alloc))));
    Ok(())
}

#[test]
fn signed_bindings_are_refused(rt: HostRuntime) -> Result<(), Fail> {
    let alloc = rt.alloc();
    let at_unit = apply(alloc, variable(0), unit());
    assert!(rt; is_ill(alloc, recursive(alloc, at_unit), 11));
    // x : Text; x = 1; x
    assert!(rt; is_ill(alloc, signed(alloc, text(alloc), number(1), variable(0)), 3));
    // f : forall a. a -> a; f = \x -> 1; 1
    let constant = lambda(alloc, number(1));
    assert!(rt;
        is_ill(
            alloc,
            signed(alloc, identity(alloc), constant, number(1)),
            7
        )
    );
    Ok(())
}

/// `\x -> \y -> (of : a)`, where a signature names `a` and then another variable
fn annotated_inside(alloc: Global, of: u32) -> MadeTerm {
    lambda(
        alloc,
        lambda(alloc, annotated(alloc, variable(of), bound(1))),
    )
}

#[test]
fn annotations_see_the_variables_of_signatures(rt: HostRuntime) -> Result<(), Fail> {
    let alloc = rt.alloc();
    let signature = first_of_two(alloc);
    assert!(rt; is_accepted(alloc, signature, annotated_inside(alloc, 1)));
    let signature = first_of_two(alloc);
    assert!(rt; is_refused(alloc, signature, annotated_inside(alloc, 0), 11));
    // The same of a binding in a term.
    let signature = first_of_two(alloc);
    let inner = signed(alloc, signature, annotated_inside(alloc, 1), number(1));
    assert!(rt; is_found(alloc, inner, nat(alloc)));
    let signature = first_of_two(alloc);
    let inner = signed(alloc, signature, annotated_inside(alloc, 0), number(1));
    assert!(rt; is_ill(alloc, inner, 12));
    Ok(())
}
