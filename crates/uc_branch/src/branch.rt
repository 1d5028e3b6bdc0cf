//! A branch: a named head with its past.
ghost use Rattle.std.specs.Prelude.{◌≡◌, ◌≤◌, [], length, IfOk, IfErr, vec_capacity};
ghost use Rattle.std.specs.Option.{option_copied};
ghost use Rattle.std.specs.Prelude.{slice_get};
ghost use Rattle.uc_base.specs.declared.fault.Fault.TheVariants.{Memory};

use crate::head::Head;
use std::alloc::{AllocError, Global};
use std::marker::Model;
use std::mem;
use uc_base::{Fault, Name};

/// How many heads a past keeps.
const PAST_LIMIT: usize = 32;

/// A named head with the heads before it, the newest first. There is always room for a whole past.
#[derive(Debug, Drop)]
pub struct Branch {
    name: Name,
    head: Head,
    past: Vec<Head>,
}

impl Model for Branch {
    ghost use Rattle.std.specs.Prelude.{◌≤◌, length, vec_capacity};
    ghost use Rattle.uc_branch.specs.Branches.{BranchState};

    ghost Value = { BranchState };

    ghost view = { λ b. record { name = b.name; head = b.head; past = b.past.items } };

    ghost invariant = { λ b. (length b.past.items ≤ 32) × (32 ≤ vec_capacity b.past) };
}

/// Copies of heads, with room for a whole past.
fn copied_past(alloc: Global, past: &[Head]) -> Result<Vec<Head>, Fault>
    ensures items { IfOk result (λ heads. heads.items ≡ past.now) }
    ensures room { IfOk result (λ heads. 32 ≤ vec_capacity heads) }
    ensures err { IfErr result (λ fault. fault ≡ Memory) }
{
    let mut heads = Vec::with_capacity(alloc, PAST_LIMIT)?;
    for head in past {
        heads.push(head.copied(alloc)?)?;
    }
    Ok(heads)
}

impl Branch {
    ghost use Rattle.uc_branch.specs.Changes.{advanced, set_back};

    /// A branch with an empty past.
    pub fn new(alloc: Global, name: Name, head: Head) -> Result<Branch, AllocError>
        ensures { IfOk result (λ branch. branch ≡ record { name = name; head = head; past = [] }) }
    {
        Ok(Branch {
            name,
            head,
            past: Vec::with_capacity(alloc, PAST_LIMIT)?,
        })
    }

    pub fn name(&self) -> &Name
        ensures { result.now ≡ self.now.name }
    {
        &self.name
    }

    pub fn head(&self) -> &Head
        ensures { result.now ≡ self.now.head }
    {
        &self.head
    }

    /// The heads before, the newest first.
    pub fn past(&self) -> &[Head]
        ensures value { result.now ≡ self.now.past }
        ensures few { length self.now.past ≤ 32 }
    {
        self.past.as_slice()
    }

    /// The branch once more, under another name.
    pub fn copied(&self, alloc: Global, name: Name) -> Result<Branch, Fault>
        ensures ok { IfOk result (λ branch. branch ≡ record { name = name; head = self.now.head; past = self.now.past }) }
        ensures err { IfErr result (λ fault. fault ≡ Memory) }
    {
        Ok(Branch {
            name,
            head: self.head.copied(alloc)?,
            past: copied_past(alloc, &self.past)?,
        })
    }

    /// Puts another head in the place of the one that it has, which goes on the past.
    pub fn advance(&mut self, head: Head)
        ensures { self.new ≡ advanced head self.old }
    {
        let old = mem::replace(&mut self.head, head);
        self.past.truncate(PAST_LIMIT - 1);
        match self.past.insert(0, old) {
            Ok(()) => {}
            Err(_) => unreachable!(),
        }
    }

    /// Goes back to the newest head of the past.
    pub fn undo(&mut self)
        ensures { self.new ≡ set_back self.old self.old.past }
    {
        if !self.past.is_empty() {
            self.head = self.past.remove(0);
        }
    }
}
