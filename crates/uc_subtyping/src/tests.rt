//! Types without free variables made subtypes, in a context without entries.
ghost use Rattle.std.specs.Prelude.{[], IsTrue};
ghost use Rattle.uc_subtyping.specs.InHand.{IsInHand};

use crate::subtyping::subtype;
use std::alloc::{AllocError, Global};
use std::test::*;
use uc_base::{At, Fault, Ref};
use uc_context::{Context, Open, is_small};
use uc_tree::Target;

const LIST: Target = Target::Stored(Ref::Builtin(5));

const OPTION: Target = Target::Stored(Ref::Builtin(6));

/// What becomes of two types of which the first is to be a subtype of the second.
#[derive(Clone, Copy, Debug, PartialEq, Eq)]
enum Answer {
    Below,
    Ill,
    TooLarge,
    /// Something is left in the context, or the types are none to ask about.
    Wrong,
}

/// Whether a type may be asked about where nothing is in the context.
#[tactic(auto, using(crate::proofs::ClosedInHand::closed))]
fn is_asked(t: &Open) -> bool
    ensures { IsTrue result → IsInHand [] t.now }
{
    t.is_closed() && is_small(t)
}

#[tactic(auto, using(crate::proofs::ClosedInHand::closed))]
fn ask(alloc: Global, lower: &Open, upper: &Open) -> Answer {
    if !is_asked(lower) {
        return Answer::Wrong;
    }
    if !is_asked(upper) {
        return Answer::Wrong;
    }
    let mut context = Context::new(alloc);
    match subtype(alloc, &mut context, lower, upper) {
        Ok(()) if context.entries().is_empty() => Answer::Below,
        Err(Fault::IllTyped(At::Nowhere)) => Answer::Ill,
        Err(Fault::TypeTooLarge(At::Nowhere)) => Answer::TooLarge,
        _ => Answer::Wrong,
    }
}

/// `(first, second)`
fn pair(alloc: Global, first: Open, second: Open) -> Result<Open, AllocError> {
    let mut parts = Vec::new(alloc);
    parts.push(first)?;
    parts.push(second)?;
    Ok(Open::tuple(parts))
}

fn at_one(alloc: Global, head: Target, argument: Open) -> Result<Open, AllocError> {
    let mut arguments = Vec::new(alloc);
    arguments.push(argument)?;
    Ok(Open::data(head, arguments))
}

/// `t -> unit`
fn taking(alloc: Global, t: Open) -> Result<Open, AllocError> {
    Open::arrow(alloc, t, Open::unit())
}

/// `a -> a`, at the innermost quantifier
fn same(alloc: Global) -> Result<Open, AllocError> {
    Open::arrow(alloc, Open::bound(0), Open::bound(0))
}

/// `forall a. a -> a`
fn identity(alloc: Global) -> Result<Open, AllocError> {
    Open::forall(alloc, same(alloc)?)
}

#[test]
fn quantified_types_have_instances(rt: HostRuntime) -> Result<(), Fail> {
    let alloc = rt.alloc();
    let unit_to_unit = taking(alloc, Open::unit())?;
    assert_eq!(rt; ask(alloc, &identity(alloc)?, &unit_to_unit), Answer::Below);
    assert_eq!(rt; ask(alloc, &unit_to_unit, &identity(alloc)?), Answer::Ill);
    // forall a. a
    let any = Open::forall(alloc, Open::bound(0))?;
    assert_eq!(rt; ask(alloc, &any, &identity(alloc)?), Answer::Below);
    assert_eq!(rt; ask(alloc, &identity(alloc)?, &any), Answer::Ill);
    // forall a. unit -> a is not below unit -> forall a. a -> a, which is no monotype.
    let giving = Open::forall(alloc, Open::arrow(alloc, Open::unit(), Open::bound(0))?)?;
    let giver = Open::arrow(alloc, Open::unit(), identity(alloc)?)?;
    assert_eq!(rt; ask(alloc, &giving, &giver), Answer::Ill);
    // forall a. a -> unit is below (forall a. a -> a) -> unit, also where that is part of others.
    let taker = Open::forall(alloc, taking(alloc, Open::bound(0))?)?;
    let quantified = [
        identity(alloc)?,
        pair(alloc, Open::unit(), identity(alloc)?)?,
        at_one(alloc, LIST, identity(alloc)?)?,
    ];
    for argument in &quantified {
        let upper = taking(alloc, argument.copy(alloc)?)?;
        assert_eq!(rt; ask(alloc, &taker, &upper), Answer::Below);
        assert_eq!(rt; ask(alloc, &upper, &taker), Answer::Ill);
    }
    Ok(())
}

#[test]
fn heads_and_lengths_are_compared(rt: HostRuntime) -> Result<(), Fail> {
    let alloc = rt.alloc();
    let two = pair(alloc, Open::unit(), Open::unit())?;
    let mut parts = Vec::new(alloc);
    for _ in 0..3 {
        parts.push(Open::unit())?;
    }
    let three = Open::tuple(parts);
    assert_eq!(rt; ask(alloc, &two, &two), Answer::Below);
    assert_eq!(rt; ask(alloc, &two, &three), Answer::Ill);
    assert_eq!(rt; ask(alloc, &three, &two), Answer::Ill);
    let list = at_one(alloc, LIST, Open::unit())?;
    let option = at_one(alloc, OPTION, Open::unit())?;
    assert_eq!(rt; ask(alloc, &list, &list), Answer::Below);
    assert_eq!(rt; ask(alloc, &list, &option), Answer::Ill);
    // forall a. (a, a)
    let twice = Open::forall(alloc, pair(alloc, Open::bound(0), Open::bound(0))?)?;
    assert_eq!(rt; ask(alloc, &twice, &two), Answer::Below);
    let mixed = pair(alloc, Open::unit(), two)?;
    assert_eq!(rt; ask(alloc, &twice, &mixed), Answer::Ill);
    Ok(())
}

#[test]
fn existentials_meet(rt: HostRuntime) -> Result<(), Fail> {
    let alloc = rt.alloc();
    // forall a. (a -> a) -> a is below (forall b. b -> b) -> unit: b becomes a, which is left to be solved.
    let lower = Open::forall(alloc, Open::arrow(alloc, same(alloc)?, Open::bound(0))?)?;
    let upper = taking(alloc, identity(alloc)?)?;
    assert_eq!(rt; ask(alloc, &lower, &upper), Answer::Below);
    // forall b. b -> b -> unit is no instance of a -> a: b would be b -> unit.
    let growing = Open::arrow(alloc, Open::bound(0), taking(alloc, Open::bound(0))?)?;
    let upper = taking(alloc, Open::forall(alloc, growing)?)?;
    assert_eq!(rt; ask(alloc, &lower, &upper), Answer::Ill);
    Ok(())
}

/// A function from pairs of a variable and its successor: in the lower one each variable with the next,
/// in the upper one with a pair of itself, so that each next one is twice as large.
fn doubling(alloc: Global, steps: u32, is_lower: bool) -> Result<Open, AllocError> {
    let mut parts = Vec::new(alloc);
    for step in 0..steps {
        if is_lower {
            parts.push(Open::bound(steps - step))?;
            parts.push(Open::bound(steps - step - 1))?;
        } else {
            let here = steps - step - 1;
            parts.push(Open::bound(here))?;
            parts.push(pair(alloc, Open::bound(here), Open::bound(here))?)?;
        }
    }
    let mut t = Open::tuple(parts);
    if is_lower {
        t = taking(alloc, t)?;
    }
    let quantifiers = if is_lower {
        steps.saturating_add(1)
    } else {
        steps
    };
    for _ in 0..quantifiers {
        t = Open::forall(alloc, t)?;
    }
    if is_lower { Ok(t) } else { taking(alloc, t) }
}

#[test]
fn solutions_grow_up_to_the_limit(rt: HostRuntime) -> Result<(), Fail> {
    let alloc = rt.alloc();
    // The pair of the last step has 2 ^ (steps + 1) - 1 nodes, of which there may be 20,000.
    for (steps, expected) in [(13, Answer::Below), (14, Answer::TooLarge)] {
        let lower = doubling(alloc, steps, true)?;
        let upper = doubling(alloc, steps, false)?;
        assert_eq!(rt; ask(alloc, &lower, &upper), expected);
    }
    Ok(())
}
