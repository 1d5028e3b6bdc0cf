//! The existentials of a type.
ghost use Rattle.std.specs.Prelude.{◌≡◌, ◌==◌, [], OnOk, IfOk};
ghost use Rattle.std.specs.List.{list_any};
ghost use Rattle.uc_context.specs.Occurring.{occurrences, all_occurrences, found_with, found_behind, existentials_of};
ghost use Rattle.uc_context.specs.Opens.{opens_of};

use crate::open::{Open, OpenNode};
use std::alloc::{AllocError, Global};
use std::collections::BTreeSet;
use std::marker::Model;

/// Numbers in the order in which they were found, each once. Contracts see that list.
#[derive(Drop)]
struct Found {
    in_order: Vec<u64>,
    seen: BTreeSet<u64>,
}

impl Model for Found {
    ghost use Rattle.std.specs.Prelude.{◌≡◌, ◌==◌, ℕ, List};
    ghost use Rattle.std.specs.BTreeSet.{contains};
    ghost use Rattle.std.specs.List.{list_any};
    ghost use Rattle.std.specs.Ordering.{nat_cmp};

    ghost Value = { List ℕ };

    ghost view = { λ found. found.in_order.items };

    ghost invariant = { λ found. (x : ℕ) → contains nat_cmp found.seen x ≡ list_any (λ y. y == x) found.in_order.items };
}

impl Found {
    fn new(alloc: Global) -> Found
        ensures { result ≡ [] }
    {
        Found {
            in_order: Vec::new(alloc),
            seen: BTreeSet::new(alloc),
        }
    }

    /// Adds a number, unless it was found before.
    fn add(&mut self, x: u64) -> Result<(), AllocError>
        ensures { OnOk result (self.new ≡ found_with self.old x) }
    {
        if self.seen.contains(&x) {
            return Ok(());
        }
        self.in_order.reserve(1)?;
        self.seen.insert(x)?;
        self.in_order.push(x)?;
        Ok(())
    }
}

impl Open {
    /// Adds the existentials that occur in it.
    #[cycle(add_existentials)]
    #[tactic(auto, using(crate::proofs::FoundInOrder::found_in_order))]
    fn add_existentials(&self, found: &mut Found) -> Result<(), AllocError>
        ensures { OnOk result (found.new ≡ found_behind found.old (occurrences self.now)) }
    {
        match &self.node {
            OpenNode::Bound(_) | OpenNode::Rigid(_) | OpenNode::Unit => Ok(()),
            OpenNode::Exists(x) => found.add(*x),
            OpenNode::Forall(a) => a.add_existentials(found),
            OpenNode::Arrow(a, b) => {
                a.add_existentials(found)?;
                b.add_existentials(found)
            }
            OpenNode::Tuple(ts) | OpenNode::Data(_, ts) => add_existentials_of(ts, found),
        }
    }

    /// The existentials that occur in it, each once, in the order of their first occurrence.
    pub fn existentials(&self, alloc: Global) -> Result<Vec<u64>, AllocError>
        ensures { IfOk result (λ xs. xs.items ≡ existentials_of self.now) }
    {
        let mut found = Found::new(alloc);
        self.add_existentials(&mut found)?;
        Ok(found.in_order)
    }
}

#[cycle(add_existentials)]
#[tactic(auto, using(crate::proofs::FoundInOrder::found_in_order))]
fn add_existentials_of(ts: &[Open], found: &mut Found) -> Result<(), AllocError>
    ensures { OnOk result (found.new ≡ found_behind found.old (all_occurrences (opens_of ts.now))) }
{
    for t in ts {
        t.add_existentials(found)?;
    }
    Ok(())
}
