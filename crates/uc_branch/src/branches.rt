//! The branches of a codebase.
ghost use Rattle.std.specs.Prelude.{◌≡◌, ◌⊎◌, ◌+◌, ◌<◌, ◌≤◌, ◌^◌, ◌-◌, length, None, Some, IfOk, IfErr, OnOk, option_map, min, nat_lt, slice_get};
ghost use Rattle.std.specs.Option.{option_copied};
ghost use Rattle.uc_base.specs.declared.fault.Fault.TheVariants.{Memory};
ghost use Rattle.uc_base.specs.declared.fault.Fault.TheVariants.{NoSuchBranch};
ghost use Rattle.uc_branch.specs.Pairs.{name_order};
ghost use Rattle.uc_branch.specs.Places.{IsPlace, IsGap};
ghost use Rattle.std.specs.Prelude.{take, drop, slice_index_or};
ghost use Rattle.uc_branch.specs.Branches.{names_in, AreBranches};

use crate::branch::Branch;
use crate::change::{Change, Edit};
use crate::head::Head;
use std::alloc::Global;
use std::cmp::Ordering;
use std::marker::Model;
use uc_base::{Fault, Name};

/// How many branches there may be.
const BRANCH_LIMIT: usize = 256;

/// How many names all heads may have together.
const NAME_LIMIT: u64 = 262_144;

/// The branch that is always there.
const MAIN: &[u8; 4] = b"main";

/// Branches in name order. There is always room for as many as there may be.
#[derive(Drop)]
pub struct Branches {
    branches: Vec<Branch>,
}

impl Model for Branches {
    ghost use Rattle.std.specs.Prelude.{List, ◌≤◌, vec_capacity};
    ghost use Rattle.uc_branch.specs.Branches.{BranchState, AreBranches};

    ghost Value = { List BranchState };

    ghost view = { λ b. b.branches.items };

    ghost invariant = { λ b. AreBranches b.branches.items × (256 ≤ vec_capacity b.branches) };
}

/// The names of some heads together, as far as that fits.
fn names(branches: &[Branch]) -> u64
    ensures { result ≡ min (names_in branches.now) (2 ^ 64 - 1) }
{
    let mut total: u64 = 0;
    for branch in branches {
        total = total.saturating_add(branch.head().count());
    }
    total
}

impl Branches {
    ghost use Rattle.uc_branch.specs.Branches.{branch_name, branch_of, first_branches, next_branch};
    ghost use Rattle.uc_branch.specs.Changes.{with_head, with_fork, without_branch, undone, head_fault, fork_fault, drop_fault, undo_fault};
    ghost use Rattle.uc_branch.specs.Commits.{applied, Fits};

    /// The first branch alone, with an empty past.
    pub fn new(alloc: Global, main: Head) -> Result<Branches, Fault>
        ensures ok { IfOk result (λ branches. branches ≡ first_branches main) }
        ensures err { IfErr result (λ fault. fault ≡ Memory) }
    {
        let name = Name::parse(alloc, MAIN)?;
        let mut branches = Vec::with_capacity(alloc, BRANCH_LIMIT)?;
        branches.push(Branch::new(alloc, name, main)?)?;
        Ok(Branches { branches })
    }

    /// Where a branch is, or where it would go.
    fn search(&self, name: &Name) -> Result<usize, usize>
        ensures found { IfOk result (IsPlace branch_name name.now self.now) }
        ensures absent { IfErr result (IsGap branch_name name.now self.now) }
        ensures bound { IfOk result (λ at. at < 256) }
        ensures good { AreBranches self.now }
    {
        self.branches.binary_search_by(
            |branch: &Branch| -> Ordering
                ensures { result ≡ name_order branch.now.name name.entry.now }
            { branch.name().cmp(name) },
        )
    }

    fn len(&self) -> usize
        ensures { result ≡ length self.now }
    {
        self.branches.len()
    }

    /// The branch at a place.
    fn branch(&self, at: usize) -> &Branch
        requires { at < length self.now }
        ensures { result.now ≡ slice_index_or self.now at result.now }
    {
        &self.branches[at]
    }

    /// Whether all heads would have too many names with others in the place of those from one place to another.
    fn are_too_many(&self, at: usize, count: u64, behind: usize) -> bool
        requires at { at ≤ length self.now }
        requires behind { behind ≤ length self.now }
        ensures { result ≡ nat_lt 262144 (names_in (take at self.now) + (count + names_in (drop behind self.now))) }
    {
        let front = names(&self.branches[..at]);
        let back = names(&self.branches[behind..]);
        front.saturating_add(count.saturating_add(back)) > NAME_LIMIT
    }

    /// The head of a branch.
    pub fn head(&self, branch: &Name) -> Option<&Head>
        ensures { option_copied result ≡ option_map (λ b. b.head) (branch_of branch.now self.now) }
    {
        match self.search(branch) {
            Ok(at) => Some(self.branch(at).head()),
            Err(_) => None,
        }
    }

    /// How many heads the past of a branch has.
    pub fn past_len(&self, branch: &Name) -> Option<u32>
        ensures { result ≡ option_map (λ b. length b.past) (branch_of branch.now self.now) }
    {
        match self.search(branch) {
            Ok(at) => Some(self.branch(at).past().len() as u32),
            Err(_) => None,
        }
    }

    /// The place behind a branch; the first for `None`.
    fn place_after(&self, branch: Option<&Name>) -> usize
        ensures { next_branch (option_copied branch.entry) self.now ≡ option_map branch_name (slice_get self.now result) }
    {
        match branch {
            None => 0,
            Some(name) => match self.search(name) {
                Ok(at) => at + 1,
                Err(at) => at,
            },
        }
    }

    /// The next branch in name order; the first for `None`.
    pub fn after(&self, branch: Option<&Name>) -> Option<&Name>
        ensures { option_copied result ≡ next_branch (option_copied branch.entry) self.now }
    {
        match self.branches.get(self.place_after(branch)) {
            Some(branch) => Some(branch.name()),
            None => None,
        }
    }

    /// Where a branch is. `NoSuchBranch` where there is none.
    fn place_of(&self, alloc: Global, name: &Name) -> Result<usize, Fault>
        ensures found { IfOk result (IsPlace branch_name name.now self.now) }
        ensures absent { IfErr result (λ fault. ((fault ≡ NoSuchBranch name.now) × (branch_of name.now self.now ≡ None)) ⊎ (fault ≡ Memory)) }
        ensures bound { IfOk result (λ at. at < 256) }
        ensures good { AreBranches self.now }
    {
        match self.search(name) {
            Ok(at) => Ok(at),
            Err(_) => Err(Fault::NoSuchBranch(name.copy(alloc)?)),
        }
    }

    /// Another head for a branch.
    pub fn prepare_head(
        &mut self,
        alloc: Global,
        branch: &Name,
        head: Head,
    ) -> Result<Change, Fault>
        ensures kept { self.new ≡ self.old }
        ensures fits { IfOk result (λ change. Fits change self.old) }
        ensures promised { IfOk result (λ change. applied change self.old ≡ with_head branch.now head self.old) }
        ensures accepted { OnOk result (head_fault branch.now head self.old ≡ None) }
        ensures refused { IfErr result (λ fault. (head_fault branch.now head self.old ≡ Some fault) ⊎ (fault ≡ Memory)) }
    {
        let at = self.place_of(alloc, branch)?;
        let old = self.branch(at);
        if self.are_too_many(at, head.count(), at + 1) {
            return Err(Fault::TooManyNames);
        }
        if old.head().is_same(&head) {
            return Ok(Change { edit: Edit::Keep });
        }
        Ok(Change {
            edit: Edit::Advance { at, head },
        })
    }

    /// One more branch, with the head and the past of another.
    pub fn prepare_fork(&mut self, alloc: Global, from: &Name, to: &Name) -> Result<Change, Fault>
        ensures kept { self.new ≡ self.old }
        ensures fits { IfOk result (λ change. Fits change self.old) }
        ensures promised { IfOk result (λ change. applied change self.old ≡ with_fork from.now to.now self.old) }
        ensures accepted { OnOk result (fork_fault from.now to.now self.old ≡ None) }
        ensures refused { IfErr result (λ fault. (fork_fault from.now to.now self.old ≡ Some fault) ⊎ (fault ≡ Memory)) }
    {
        let source = self.place_of(alloc, from)?;
        let Err(at) = self.search(to) else {
            return Err(Fault::BranchTaken(to.copy(alloc)?));
        };
        let old = self.branch(source);
        if self.len() >= BRANCH_LIMIT {
            return Err(Fault::TooManyBranches);
        }
        if self.are_too_many(at, old.head().count(), at) {
            return Err(Fault::TooManyNames);
        }
        let branch = old.copied(alloc, to.copy(alloc)?)?;
        Ok(Change {
            edit: Edit::Add { at, branch },
        })
    }

    /// One branch less.
    pub fn prepare_drop(&mut self, alloc: Global, branch: &Name) -> Result<Change, Fault>
        ensures kept { self.new ≡ self.old }
        ensures fits { IfOk result (λ change. Fits change self.old) }
        ensures promised { IfOk result (λ change. applied change self.old ≡ without_branch branch.now self.old) }
        ensures accepted { OnOk result (drop_fault branch.now self.old ≡ None) }
        ensures refused { IfErr result (λ fault. (drop_fault branch.now self.old ≡ Some fault) ⊎ (fault ≡ Memory)) }
    {
        let at = self.place_of(alloc, branch)?;
        if branch.text() == MAIN.as_slice() {
            return Err(Fault::MainKept);
        }
        Ok(Change {
            edit: Edit::Remove { at },
        })
    }

    /// The newest head of its past for a branch.
    pub fn prepare_undo(&mut self, alloc: Global, branch: &Name) -> Result<Change, Fault>
        ensures kept { self.new ≡ self.old }
        ensures fits { IfOk result (λ change. Fits change self.old) }
        ensures promised { IfOk result (λ change. applied change self.old ≡ undone branch.now self.old) }
        ensures accepted { OnOk result (undo_fault branch.now self.old ≡ None) }
        ensures refused { IfErr result (λ fault. (undo_fault branch.now self.old ≡ Some fault) ⊎ (fault ≡ Memory)) }
    {
        let at = self.place_of(alloc, branch)?;
        let old = self.branch(at);
        let Some(newest) = old.past().first() else {
            return Err(Fault::NothingToUndo(branch.copy(alloc)?));
        };
        if self.are_too_many(at, newest.count(), at + 1) {
            return Err(Fault::TooManyNames);
        }
        Ok(Change {
            edit: Edit::Undo { at },
        })
    }

    /// Makes a change that was prepared. The branches must be as they were then.
    pub fn commit(&mut self, change: Change)
        requires { Fits change self.old }
        ensures { self.new ≡ applied change self.old }
    {
        let Change { edit } = change;
        match edit {
            Edit::Keep => {}
            Edit::Advance { at, head } => {
                let branch = &mut self.branches[at];
                branch.advance(head);
            }
            Edit::Add { at, branch } => match self.branches.insert(at, branch) {
                Ok(()) => {}
                Err(_) => unreachable!(),
            },
            Edit::Remove { at } => {
                let _ = self.branches.remove(at);
            }
            Edit::Undo { at } => {
                let branch = &mut self.branches[at];
                branch.undo();
            }
        }
    }
}
