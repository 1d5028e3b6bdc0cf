//! Types at the limits of 20,000 nodes and 512 levels.

use crate::tests::asking::{
    found, found_with_none, is_accepted, is_fault, is_large, is_too_large, spot,
};
use crate::tests::trees::*;
use std::alloc::Global;
use std::test::Fail;
use uc_base::Fault;
use uc_tree::{Term, Ty, type_nodes};

/// `x = of; (x, x)` so many times, the first inside the others; the innermost binds the unit.
fn doubling(alloc: Global, times: u32) -> MadeTerm {
    let mut term = unit();
    for _ in 0..times {
        term = binding(alloc, term, pair(alloc, variable(0), variable(0)));
    }
    term
}

/// The type of a term has so many nodes.
fn has_size(alloc: Global, term: MadeTerm, nodes: u64) -> bool {
    match &found(alloc, term) {
        Ok(ty) => type_nodes(ty) == nodes,
        Err(_) => false,
    }
}

#[test]
fn types_grow_up_to_the_limit(rt: HostRuntime) -> Result<(), Fail> {
    let alloc = rt.alloc();
    assert!(rt; has_size(alloc, doubling(alloc, 13), 16_383));
    // Fourteen bindings, the unit and thirteen tuples of three nodes stand before the last tuple.
    assert!(rt; is_large(alloc, doubling(alloc, 14), 55));
    Ok(())
}

/// A tuple of so many empty lists, each of a type of its own.
fn empty_lists(alloc: Global, count: u32) -> MadeTerm {
    let mut parts = Vec::new(alloc);
    for _ in 0..count {
        parts.push(Term::list(Vec::new(alloc)))?;
    }
    Ok(Term::tuple(parts))
}

#[test]
fn quantifiers_count(rt: HostRuntime) -> Result<(), Fail> {
    let alloc = rt.alloc();
    // The tuple has three levels, and each list gives a quantifier.
    assert!(rt; has_size(alloc, empty_lists(alloc, 509), 1_528));
    assert!(rt; is_large(alloc, empty_lists(alloc, 510), 1));
    Ok(())
}

/// `(bot, .., bot)` of so many parts, with `bot : a`.
fn bottoms(alloc: Global, count: u32) -> Result<Ty, Fault> {
    let mut parts = Vec::new(alloc);
    for _ in 0..count {
        parts.push(nothing()?)?;
    }
    found_with_none(alloc, forall(alloc, bound(0)), Ok(Term::tuple(parts)))
}

#[test]
fn generalised_types_are_measured(rt: HostRuntime) -> Result<(), Fail> {
    let alloc = rt.alloc();
    // The tuple has two levels, and each part gives a quantifier.
    assert!(rt; bottoms(alloc, 510).is_ok());
    assert!(rt; is_fault(bottoms(alloc, 511), Fault::TypeTooLarge(spot(1))));
    // A tuple within the limits, and 15,000 quantifiers in front.
    assert!(rt; is_fault(bottoms(alloc, 15_000), Fault::TypeTooLarge(spot(1))));
    Ok(())
}

/// So many quantifiers before the unit.
fn quantified_unit(alloc: Global, count: u32) -> MadeTy {
    let mut ty = unit_type();
    for _ in 0..count {
        ty = forall(alloc, ty);
    }
    ty
}

/// A tuple of so many units.
fn units(alloc: Global, count: u32) -> MadeTy {
    let mut parts = Vec::new(alloc);
    for _ in 0..count {
        parts.push(Ty::unit())?;
    }
    Ok(Ty::tuple(parts))
}

#[test]
fn levels_of_signatures_are_measured(rt: HostRuntime) -> Result<(), Fail> {
    let alloc = rt.alloc();
    assert!(rt; is_accepted(alloc, quantified_unit(alloc, 511), unit()));
    assert!(rt; is_too_large(alloc, quantified_unit(alloc, 512), unit(), 514));
    Ok(())
}

#[test]
fn nodes_of_signatures_are_measured(rt: HostRuntime) -> Result<(), Fail> {
    let alloc = rt.alloc();
    // The arrow and its unit are two more nodes, and the tuple is one itself.
    let widest = arrow(alloc, units(alloc, 19_997), unit_type());
    assert!(rt; is_accepted(alloc, widest, lambda(alloc, unit())));
    let wider = arrow(alloc, units(alloc, 19_998), unit_type());
    assert!(rt; is_too_large(alloc, wider, lambda(alloc, unit()), 20_002));
    Ok(())
}
