//! Contexts and types in them, by values worked by hand.
ghost use Rattle.std.specs.Prelude.{IsTrue};
ghost use Rattle.uc_context.specs.Contexts.{CanFollow};

use crate::{
    Context, Entry, Open, copy_opens, is_small, open_levels, open_nodes, same_entry, same_open,
};
use std::alloc::{AllocError, Global};
use std::process::Abort;
use std::test::Fail;
use uc_base::{At, Fault, Ref};
use uc_tree::{Target, Ty};

const LIST: Target = Target::Stored(Ref::Builtin(5));

fn exists(x: u64) -> Open {
    Open::existential(x)
}

fn list(alloc: Global, of: Open) -> Result<Open, AllocError> {
    Ok(Open::data(LIST, vec![in alloc; of]?))
}

fn pair(alloc: Global, first: Open, second: Open) -> Result<Open, AllocError> {
    Ok(Open::tuple(vec![in alloc; first, second]?))
}

/// `first -> second -> last`
fn curried(alloc: Global, first: Open, second: Open, last: Open) -> Result<Open, AllocError> {
    let rest = Open::arrow(alloc, second, last)?;
    Open::arrow(alloc, first, rest)
}

/// Existential 0 in so many lists, one in another.
fn nested(alloc: Global, count: u32) -> Result<Open, AllocError> {
    let mut t = exists(0);
    for _ in 0..count {
        t = list(alloc, t)?;
    }
    Ok(t)
}

/// A tuple of existential 0 so many times.
fn wide(alloc: Global, count: u32) -> Result<Open, AllocError> {
    let mut parts = Vec::new(alloc);
    for _ in 0..count {
        parts.push(exists(0))?;
    }
    Ok(Open::tuple(parts))
}

fn are_same(found: &[Entry], wanted: &[Entry]) -> bool {
    found.len() == wanted.len() && found.iter().zip(wanted).all(|(a, b)| same_entry(a, b))
}

fn is_type(found: Option<&Open>, wanted: &Open) -> bool {
    found.is_some_and(|t| same_open(t, wanted))
}

fn is_too_large(found: Result<Open, Fault>) -> bool {
    found == Err(Fault::TypeTooLarge(At::Nowhere))
}

#[tactic(auto, using(crate::proofs::Looked::before_without))]
fn can_follow(context: &Context, entry: &Entry) -> bool
    ensures { IsTrue result → CanFollow context.now entry.now }
{
    match entry {
        Entry::Rigid(x) => !context.has_variable(*x),
        Entry::Exists(x) => !context.has_variable(*x),
        Entry::Solved(x, t) => !context.has_variable(*x) && context.can_solve(*x, t),
        Entry::Mark(_) | Entry::Binder(_, _) => true,
    }
}

fn filled(rt: &impl Abort, alloc: Global, entries: Vec<Entry>) -> Result<Context, Fault> {
    let mut context = Context::new(alloc);
    for entry in entries {
        assert!(rt; can_follow(&context, &entry));
        context.push(entry)?;
    }
    Ok(context)
}

fn solve(rt: &impl Abort, context: &mut Context, which: u64, with: Open) -> Result<(), Fault> {
    assert!(rt; context.is_unsolved(which));
    assert!(rt; context.can_solve(which, &with));
    context.solve(which, with)
}

/// A type with `List ()` put in for existential 0: two nodes in two levels.
fn with_units(rt: &impl Abort, alloc: Global, of: &Open) -> Result<Open, Fault> {
    let mut context = filled(rt, alloc, vec![in alloc; Entry::Exists(0)]?)?;
    solve(rt, &mut context, 0, list(alloc, Open::unit())?)?;
    context.apply(alloc, of)
}

#[test]
fn puts_entries_behind_one_another(rt: HostRuntime) -> Result<(), Fail> {
    let alloc = rt.alloc();
    assert_eq!(rt; Context::new(alloc).fresh(), 0);
    let gap = vec![in alloc; Entry::Rigid(0), Entry::Exists(1), Entry::Mark(3)]?;
    assert_eq!(rt; filled(&rt, alloc, gap)?.fresh(), 2);
    let t = list(alloc, exists(1))?;
    let copy = t.copy(alloc)?;
    let entries = vec![in alloc; Entry::Mark(0), Entry::Exists(1), Entry::Solved(2, t)]?;
    let context = filled(&rt, alloc, entries)?;
    let wanted = [Entry::Mark(0), Entry::Exists(1), Entry::Solved(2, copy)];
    assert!(rt; are_same(context.entries(), &wanted));
    assert_eq!(rt; wanted[2].number(), 2);
    assert_eq!(rt; context.fresh(), 3);
    Ok(())
}

/// Binders of one number and two equal markers.
fn scopes(rt: &impl Abort, alloc: Global) -> Result<Context, Fault> {
    let entries = vec![in alloc;
        Entry::Rigid(0),
        Entry::Binder(2, Open::unit()),
        Entry::Mark(3),
        Entry::Exists(1),
        Entry::Binder(2, exists(1)),
        Entry::Mark(3),
        Entry::Exists(4),
    ]?;
    filled(rt, alloc, entries)
}

#[test]
fn drops_from_the_last_entry(rt: HostRuntime) -> Result<(), Fail> {
    let mut context = scopes(&rt, rt.alloc())?;
    assert!(rt; is_type(context.binder(2), &exists(1)));
    context.drop_from(&Entry::Mark(9));
    assert!(rt; context.has_variable(4));
    context.drop_from(&Entry::Mark(3));
    assert!(rt; !context.has_variable(4));
    context.drop_from(&Entry::Binder(2, Open::rigid(0)));
    assert_eq!(rt; context.entries().len(), 5);
    context.drop_from(&Entry::Binder(2, exists(1)));
    assert!(rt; is_type(context.binder(2), &Open::unit()));
    context.drop_from(&Entry::Mark(3));
    assert_eq!(rt; context.entries().len(), 2);
    assert_eq!(rt; context.fresh(), 1);
    Ok(())
}

#[test]
fn tells_what_can_solve_an_existential(rt: HostRuntime) -> Result<(), Fail> {
    let alloc = rt.alloc();
    let context = scopes(&rt, alloc)?;
    assert!(rt; context.is_unsolved(1) && !context.is_unsolved(0) && !context.has_variable(2));
    assert!(rt; context.is_declared_before(1, 4) && !context.is_declared_before(4, 1));
    assert!(rt; context.can_solve(4, &exists(1)) && context.can_solve(1, &Open::rigid(0)));
    assert!(rt; !context.can_solve(1, &exists(4)) && !context.can_solve(1, &exists(1)));
    let quantified = Open::forall(alloc, Open::unit())?;
    assert!(rt; !context.can_solve(1, &quantified) && !quantified.is_monotype());
    Ok(())
}

#[test]
fn follows_solutions_to_their_ends(rt: HostRuntime) -> Result<(), Fail> {
    let alloc = rt.alloc();
    let entries = vec![in alloc; Entry::Exists(0), Entry::Exists(1), Entry::Exists(2)]?;
    let mut context = filled(&rt, alloc, entries)?;
    solve(&rt, &mut context, 2, list(alloc, exists(1))?)?;
    solve(&rt, &mut context, 1, exists(0))?;
    assert!(rt; is_type(context.solution(1), &exists(0)));
    assert!(rt; context.apply(alloc, &exists(2))? == list(alloc, exists(0))?);
    solve(&rt, &mut context, 0, Open::unit())?;
    assert!(rt; context.apply(alloc, &exists(2))? == list(alloc, Open::unit())?);
    Ok(())
}

#[test]
fn solves_with_an_arrow_in_gaps(rt: HostRuntime) -> Result<(), Fail> {
    let alloc = rt.alloc();
    let entries = vec![in alloc;
        Entry::Rigid(0),
        Entry::Exists(3),
        Entry::Binder(1, exists(3)),
    ]?;
    let mut context = filled(&rt, alloc, entries)?;
    assert!(rt; context.is_unsolved(3));
    assert_eq!(rt; context.solve_with_arrow(alloc, 3)?, (2, 4));
    let wanted = [
        Entry::Rigid(0),
        Entry::Exists(4),
        Entry::Exists(2),
        Entry::Solved(3, Open::arrow(alloc, exists(2), exists(4))?),
        Entry::Binder(1, exists(3)),
    ];
    assert!(rt; are_same(context.entries(), &wanted));
    Ok(())
}

#[test]
fn solves_with_new_existentials_in_front(rt: HostRuntime) -> Result<(), Fail> {
    let alloc = rt.alloc();
    let mut context = filled(&rt, alloc, vec![in alloc; Entry::Exists(0)]?)?;
    assert!(rt; context.is_unsolved(0));
    let new = context.solve_with_tuple(alloc, 2, 0)?;
    assert_eq!(rt; new.as_slice(), [1, 2].as_slice());
    assert!(rt; context.is_unsolved(2));
    let new = context.solve_with_data(alloc, &LIST, 1, 2)?;
    assert_eq!(rt; new.as_slice(), [3].as_slice());
    let listed = list(alloc, exists(3))?;
    let parts = pair(alloc, exists(1), exists(2))?;
    let wanted = [
        Entry::Exists(1),
        Entry::Exists(3),
        Entry::Solved(2, listed),
        Entry::Solved(0, parts),
    ];
    assert!(rt; are_same(context.entries(), &wanted));
    Ok(())
}

#[test]
fn keeps_the_limits_of_types(rt: HostRuntime) -> Result<(), Fail> {
    let alloc = rt.alloc();
    let widest = with_units(&rt, alloc, &list(alloc, wide(alloc, 9_999)?)?)?;
    assert_eq!(rt; open_nodes(&widest), 20_000);
    assert!(rt; is_too_large(with_units(&rt, alloc, &wide(alloc, 10_000)?)));
    let deepest = with_units(&rt, alloc, &nested(alloc, 510)?)?;
    assert_eq!(rt; open_levels(&deepest), 512);
    assert!(rt; is_small(&deepest));
    assert!(rt; is_too_large(with_units(&rt, alloc, &nested(alloc, 511)?)));
    Ok(())
}

#[test]
fn quantifies_at_the_front(rt: HostRuntime) -> Result<(), Fail> {
    let alloc = rt.alloc();
    let t = curried(alloc, exists(0), exists(1), exists(0))?;
    let numbers = t.existentials(alloc)?;
    assert_eq!(rt; numbers.as_slice(), [0, 1].as_slice());
    let found = t.generalised(alloc, &numbers)?;
    let body = curried(alloc, Open::bound(1), Open::bound(0), Open::bound(1))?;
    assert!(rt; found == Open::forall(alloc, Open::forall(alloc, body)?)?);
    assert!(rt; nested(alloc, 510)?.generalised(alloc, &[0]).is_ok());
    assert!(rt; is_too_large(nested(alloc, 511)?.generalised(alloc, &[0])));
    Ok(())
}

#[test]
fn closes_and_opens_types(rt: HostRuntime) -> Result<(), Fail> {
    let alloc = rt.alloc();
    let stored = Ty::forall(alloc, Ty::arrow(alloc, Ty::variable(0), Ty::variable(1))?)?;
    let t = Open::from_ty(alloc, &stored)?;
    assert!(rt; t.is_closed() && t.close(alloc)? == Some(stored));
    assert_eq!(rt; open_levels(&t), 3);
    // The variable of the quantifier outside is opened under the one inside.
    let opened = t.opened(alloc, &exists(7))?;
    let body = Open::arrow(alloc, Open::bound(0), exists(7))?;
    assert!(rt; opened == Open::forall(alloc, body)?);
    assert!(rt; opened.mentions(7) && opened.close(alloc)?.is_none());
    assert_eq!(rt; copy_opens(alloc, &[opened, t])?.len(), 2);
    Ok(())
}
