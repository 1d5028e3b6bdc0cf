//! References as a set.
ghost use Rattle.std.specs.Prelude.{◌≡◌, ◌++◌, ◌&&◌, map, OnOk, IfOk};
ghost use Rattle.std.specs.List.{filter};
ghost use Rattle.uc_tree.specs.References.{is_same_ref};
ghost use Rattle.uc_base.specs.declared.reference.Ref.{Ref as PlainRef};
ghost use Rattle.uc_branch.specs.Pairs.{within};
ghost use Rattle.uc_branch.specs.Reaches.{is_among, reaches};

use crate::head::Head;
use crate::reach::Reach;
use std::alloc::{AllocError, Global};
use std::marker::Model;
use uc_base::{Name, Ref};

/// Whether two references are the same.
pub fn is_same(one: &Ref, other: &Ref) -> bool
    ensures { result ≡ is_same_ref one.now other.now }
{
    one == other
}

/// Some references, for looking up whether one is among them.
#[derive(Drop)]
pub struct RefSet {
    refs: Vec<Ref>,
}

impl Model for RefSet {
    ghost use Rattle.std.specs.Prelude.{List};
    ghost use Rattle.std.specs.List.Sorted.{IsSorted};
    ghost use Rattle.uc_base.specs.declared.reference.Ref.{Ref as PlainRef};
    ghost use Rattle.uc_tree.specs.References.{ref_order};

    ghost Value = { List PlainRef };

    ghost view = { λ s. s.refs.items };

    ghost invariant = { λ s. IsSorted ref_order s.refs.items };
}

fn add_targets(pairs: &[(Name, Ref)], refs: &mut Vec<Ref>) -> Result<(), AllocError>
    ensures { OnOk result (refs.new.items ≡ refs.old.items ++ map (λ p. p.1) pairs.now) }
{
    for pair in pairs {
        refs.push(pair.1)?;
    }
    Ok(())
}

/// Writes what the names stand for that an edit takes.
fn add_taken(pairs: &[(Name, Ref)], reach: &Reach, refs: &mut Vec<Ref>) -> Result<(), AllocError>
    ensures { OnOk result (refs.new.items ≡ refs.old.items ++ map (λ p. p.1) (within (reaches reach.now) pairs.now)) }
{
    for pair in pairs {
        if reach.takes(&pair.0) {
            refs.push(pair.1)?;
        }
    }
    Ok(())
}

/// Writes which of some references the names stand for.
fn add_known(pairs: &[(Name, Ref)], known: &RefSet, refs: &mut Vec<Ref>) -> Result<(), AllocError>
    ensures { OnOk result (refs.new.items ≡ refs.old.items ++ filter (λ r. is_among r known.now) (map (λ p. p.1) pairs.now)) }
{
    for pair in pairs {
        if known.contains(&pair.1) {
            refs.push(pair.1)?;
        }
    }
    Ok(())
}

impl RefSet {
    ghost use Rattle.uc_branch.specs.Heads.{has_name};
    ghost use Rattle.uc_branch.specs.Deleting.{head_within};

    /// What the names of a head stand for.
    pub fn of_head(alloc: Global, head: &Head) -> Result<RefSet, AllocError>
        ensures { IfOk result (λ set. (r : PlainRef) → is_among r set ≡ has_name r head.now) }
    {
        let mut refs = Vec::new(alloc);
        add_targets(head.kinds.as_slice(), &mut refs)?;
        add_targets(head.terms.as_slice(), &mut refs)?;
        refs.sort_unstable();
        Ok(RefSet { refs })
    }

    /// What the names of a head stand for that an edit takes.
    pub fn of_taken(alloc: Global, head: &Head, reach: &Reach) -> Result<RefSet, AllocError>
        ensures { IfOk result (λ set. (r : PlainRef) → is_among r set ≡ has_name r (head_within (reaches reach.now) head.now)) }
    {
        let mut refs = Vec::new(alloc);
        add_taken(head.kinds.as_slice(), reach, &mut refs)?;
        add_taken(head.terms.as_slice(), reach, &mut refs)?;
        refs.sort_unstable();
        Ok(RefSet { refs })
    }

    /// Those for which a name of a head stands.
    pub fn named_in(&self, alloc: Global, head: &Head) -> Result<RefSet, AllocError>
        ensures { IfOk result (λ set. (r : PlainRef) → is_among r set ≡ (is_among r self.now && has_name r head.now)) }
    {
        let mut refs = Vec::new(alloc);
        add_known(head.kinds.as_slice(), self, &mut refs)?;
        add_known(head.terms.as_slice(), self, &mut refs)?;
        refs.sort_unstable();
        Ok(RefSet { refs })
    }

    /// Whether a reference is one of them.
    pub fn contains(&self, r: &Ref) -> bool
        ensures { result ≡ is_among r.now self.now }
    {
        self.refs.binary_search(r).is_ok()
    }
}
