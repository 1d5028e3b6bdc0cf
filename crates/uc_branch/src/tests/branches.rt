//! Changes of branches.
use super::{def, head_of, is_refused, name};
use crate::branches::Branches;
use crate::head::Head;
use std::alloc::Global;
use std::test::Fail;
use uc_base::{Fault, Name, Sort};

/// Gives a branch a head with one name.
fn advance(alloc: Global, branches: &mut Branches, branch: &Name, byte: u8) -> Result<(), Fault> {
    let head = head_of(alloc, &[(Sort::Term, "x", def(byte))])?;
    let change = branches.prepare_head(alloc, branch, head)?;
    branches.commit(change);
    Ok(())
}

fn fork(alloc: Global, branches: &mut Branches, from: &Name, to: &Name) -> Result<(), Fault> {
    let change = branches.prepare_fork(alloc, from, to)?;
    branches.commit(change);
    Ok(())
}

fn undo(alloc: Global, branches: &mut Branches, branch: &Name) -> Result<(), Fault> {
    let change = branches.prepare_undo(alloc, branch)?;
    branches.commit(change);
    Ok(())
}

fn leave(alloc: Global, branches: &mut Branches, branch: &Name) -> Result<(), Fault> {
    let change = branches.prepare_drop(alloc, branch)?;
    branches.commit(change);
    Ok(())
}

fn new_branches(alloc: Global) -> Result<Branches, Fault> {
    Branches::new(alloc, Head::builtin(alloc)?)
}

#[test]
fn keeps_the_newest_of_a_past(rt: HostRuntime) -> Result<(), Fail> {
    let alloc = rt.alloc();
    let (main, x) = (name(alloc, "main")?, name(alloc, "x")?);
    let mut branches = new_branches(alloc)?;
    let nothing = undo(alloc, &mut branches, &main);
    assert!(rt; is_refused(alloc, nothing, "refused 27 NothingToUndo main"));
    for byte in 0..33 {
        advance(alloc, &mut branches, &main, byte)?;
    }
    advance(alloc, &mut branches, &main, 32)?;
    assert_eq!(rt; branches.past_len(&main), Some(32));
    for _ in 0..32 {
        undo(alloc, &mut branches, &main)?;
    }
    assert_eq!(rt; branches.past_len(&main), Some(0));
    let oldest = branches.head(&main);
    assert!(rt; oldest.is_some_and(|head| head.term(&x).copied() == Some(def(0))));
    Ok(())
}

#[test]
fn forks_and_drops(rt: HostRuntime) -> Result<(), Fail> {
    let alloc = rt.alloc();
    let (main, dev) = (name(alloc, "main")?, name(alloc, "dev")?);
    let mut branches = new_branches(alloc)?;
    fork(alloc, &mut branches, &main, &dev)?;
    let taken = fork(alloc, &mut branches, &main, &dev);
    assert!(rt; is_refused(alloc, taken, "refused 21 BranchTaken dev"));
    assert!(rt; branches.head(&dev).is_some_and(|head| head.count() == 47));
    let kept = leave(alloc, &mut branches, &main);
    assert!(rt; is_refused(alloc, kept, "refused 28 MainKept"));
    leave(alloc, &mut branches, &dev)?;
    let absent = leave(alloc, &mut branches, &dev);
    assert!(rt; is_refused(alloc, absent, "refused 20 NoSuchBranch dev"));
    Ok(())
}

#[test]
fn lists_branches_in_order(rt: HostRuntime) -> Result<(), Fail> {
    let alloc = rt.alloc();
    let (main, dev) = (name(alloc, "main")?, name(alloc, "dev")?);
    let mut branches = new_branches(alloc)?;
    fork(alloc, &mut branches, &main, &dev)?;
    assert!(rt; branches.after(None).is_some_and(|first| *first == dev));
    assert!(rt; branches.after(Some(&dev)).is_some_and(|next| *next == main));
    assert!(rt; branches.after(Some(&main)).is_none());
    Ok(())
}

#[test]
fn limits_branches(rt: HostRuntime) -> Result<(), Fail> {
    let alloc = rt.alloc();
    let (main, dev) = (name(alloc, "main")?, name(alloc, "dev")?);
    let mut branches = new_branches(alloc)?;
    for number in 0..255u8 {
        let text = [b'b', b'a' + number / 16, b'a' + number % 16];
        fork(alloc, &mut branches, &main, &Name::parse(alloc, &text)?)?;
    }
    let full = fork(alloc, &mut branches, &main, &dev);
    assert!(rt; is_refused(alloc, full, "refused 35 TooManyBranches"));
    Ok(())
}
