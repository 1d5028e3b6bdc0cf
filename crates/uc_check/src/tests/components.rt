//! Components of several members, and watches.

use crate::tests::asking::{
    checked_all, is_checked, is_ill_watch, is_refused, is_unsigned, is_unsigned_watch, is_watched,
};
use crate::tests::trees::*;
use std::alloc::{AllocError, Global};
use std::test::Fail;
use uc_base::{At, Fault, Spot};
use uc_tree::{Definition, Ty};

/// `\n -> of argument`, where `of` is a member
fn calling(alloc: Global, of: u32, argument: MadeTerm) -> MadeTerm {
    lambda(alloc, apply(alloc, own(of), argument))
}

/// `Nat -> Nat`
fn counting(alloc: Global) -> MadeTy {
    arrow(alloc, nat(alloc), nat(alloc))
}

/// Two members with these signatures.
fn members(
    alloc: Global,
    first: (Option<Ty>, MadeTerm),
    second: (Option<Ty>, MadeTerm),
) -> Result<Vec<Definition>, AllocError> {
    let mut members = Vec::new(alloc);
    members.push(Definition {
        signature: first.0,
        body: first.1?,
    })?;
    members.push(Definition {
        signature: second.0,
        body: second.1?,
    })?;
    Ok(members)
}

/// What comes of two members that call each other.
fn cycle_checked(alloc: Global, first: Option<Ty>, second: Option<Ty>) -> Result<Vec<Ty>, Fault> {
    let first = (first, calling(alloc, 1, variable(0)));
    let second = (second, calling(alloc, 0, variable(0)));
    let members = members(alloc, first, second)?;
    checked_all(alloc, &members)
}

/// Members that call each other, with signatures of functions on numbers where so.
fn counting_cycle(alloc: Global, first: bool, second: bool) -> Result<Vec<Ty>, Fault> {
    let first = if first { Some(counting(alloc)?) } else { None };
    let second = if second { Some(counting(alloc)?) } else { None };
    cycle_checked(alloc, first, second)
}

fn are_stopped(answer: Result<Vec<Ty>, Fault>, fault: Fault) -> bool {
    match &answer {
        Ok(_) => false,
        Err(answer) => *answer == fault,
    }
}

fn are_all(answer: Result<Vec<Ty>, Fault>, ty: MadeTy, count: usize) -> bool {
    match (&answer, &ty) {
        (Ok(types), Ok(ty)) => {
            for found in types {
                if *found != *ty {
                    return false;
                }
            }
            types.len() == count
        }
        _ => false,
    }
}

/// The name of a member wants a signature.
fn lacks(member: u32) -> Fault {
    Fault::NeedsSignature(At::Spot(Spot { member, node: 0 }))
}

fn ill_in(member: u32, node: u32) -> Fault {
    Fault::IllTyped(At::Spot(Spot { member, node }))
}

#[test]
fn cycles_want_signatures(rt: HostRuntime) -> Result<(), Fail> {
    let alloc = rt.alloc();
    assert!(rt; are_stopped(counting_cycle(alloc, false, false), lacks(0)));
    assert!(rt; are_stopped(counting_cycle(alloc, true, false), lacks(1)));
    assert!(rt; are_stopped(counting_cycle(alloc, false, true), lacks(0)));
    Ok(())
}

#[test]
fn members_that_use_themselves(rt: HostRuntime) -> Result<(), Fail> {
    let alloc = rt.alloc();
    // f = f; f : Nat, f = f; f : Nat, f = \n -> f n
    assert!(rt; is_unsigned(alloc, own(0), 0));
    assert!(rt; is_checked(alloc, nat(alloc), own(0), nat(alloc)));
    let called = calling(alloc, 0, variable(0));
    assert!(rt; is_refused(alloc, nat(alloc), called, 3));
    Ok(())
}

/// Members of which the second gives a text where the first gives a number.
fn text_for_number(alloc: Global) -> Result<Vec<Ty>, Fault> {
    let first = Some(counting(alloc)?);
    let second = Some(arrow(alloc, nat(alloc), text(alloc))?);
    cycle_checked(alloc, first, second)
}

#[test]
fn members_have_their_signatures(rt: HostRuntime) -> Result<(), Fail> {
    let alloc = rt.alloc();
    assert!(rt; are_all(counting_cycle(alloc, true, true), counting(alloc), 2));
    assert!(rt; are_stopped(text_for_number(alloc), ill_in(0, 5)));
    Ok(())
}

/// Two members of which the second calls the first at a text.
fn called_at_text(alloc: Global) -> Result<Vec<Ty>, Fault> {
    let first = (Some(counting(alloc)?), calling(alloc, 1, variable(0)));
    let second = (Some(counting(alloc)?), calling(alloc, 0, word(alloc)));
    let members = members(alloc, first, second)?;
    checked_all(alloc, &members)
}

#[test]
fn faults_name_their_member(rt: HostRuntime) -> Result<(), Fail> {
    let alloc = rt.alloc();
    assert!(rt; are_stopped(called_at_text(alloc), ill_in(1, 7)));
    Ok(())
}

#[test]
fn watches(rt: HostRuntime) -> Result<(), Fail> {
    let alloc = rt.alloc();
    assert!(rt; is_watched(alloc, unit(), unit_type()));
    assert!(rt; is_watched(alloc, sum(alloc, number(1), number(2)), nat(alloc)));
    let expected = forall(alloc, list_type(alloc, bound(0)));
    assert!(rt; is_watched(alloc, empty_list(alloc), expected));
    assert!(rt; is_ill_watch(alloc, no_function(alloc), 1));
    assert!(rt; is_unsigned_watch(alloc, binding(alloc, variable(0), number(1)), 1));
    Ok(())
}
