//! Names with what they stand for, in name order.
ghost use Rattle.std.specs.Prelude.{◌≡◌, ◌<◌, ◌^◌, length, Option, Some, option_map, IfOk, IfErr, OnOk, OnErr, [], slice_get, find};
ghost use Rattle.std.specs.Option.{option_copied};
ghost use Rattle.std.specs.List.Sorted.{IsStrictlySortedBy};
ghost use Rattle.uc_tree.specs.Lookups.{pair_order, next_pair};
ghost use Rattle.uc_tree.specs.References.{is_same_ref};
ghost use Rattle.uc_branch.specs.Pairs.{target_of, has_pair, put, without, has_some, is_same_name, names_for, least_name_of, pair_name, name_order};
ghost use Rattle.std.specs.Cmp.Lexicographic.{pointwise};
ghost use Rattle.uc_branch.specs.Heads.{is_same_pair};
ghost use Rattle.uc_branch.specs.Places.{IsPlace, IsGap};
ghost use Rattle.uc_branch.specs.Reaches.{reaches};

use crate::reach::Reach;
use crate::ref_set::is_same;
use std::alloc::{AllocError, Global};
use std::cmp::Ordering;
use std::marker::Model;
use uc_base::{Name, Ref};

/// Names with what they stand for, in name order, each once. Contracts see the list.
#[derive(Debug, Drop)]
pub struct SortedPairs {
    pairs: Vec<(Name, Ref)>,
}

impl Model for SortedPairs {
    ghost use Rattle.std.specs.List.Sorted.{IsStrictlySortedBy};
    ghost use Rattle.uc_tree.specs.Lookups.{Pairs, pair_order};

    ghost Value = { Pairs };

    ghost view = { λ p. p.pairs.items };

    ghost invariant = { λ p. IsStrictlySortedBy pair_order p.pairs.items };
}

impl SortedPairs {
    pub fn new(alloc: Global) -> SortedPairs
        ensures { result ≡ [] }
    {
        SortedPairs {
            pairs: Vec::new(alloc),
        }
    }

    /// Pairs that are in order.
    pub fn from_vec(pairs: Vec<(Name, Ref)>) -> SortedPairs
        requires { IsStrictlySortedBy pair_order pairs.items }
        ensures { result ≡ pairs.items }
    {
        SortedPairs { pairs }
    }

    /// The pairs, given up.
    pub fn into_vec(self) -> Vec<(Name, Ref)>
        ensures value { result.items ≡ self }
        ensures in_order { IsStrictlySortedBy pair_order result.items }
    {
        let SortedPairs { pairs } = self;
        pairs
    }

    /// The pairs, lent.
    pub fn as_slice(&self) -> &[(Name, Ref)]
        ensures value { result.now ≡ self.now }
        ensures in_order { IsStrictlySortedBy pair_order self.now }
    {
        self.pairs.as_slice()
    }

    pub fn len(&self) -> usize
        ensures value { result ≡ length self.now }
        ensures bound { result < 2 ^ 63 }
    {
        self.pairs.len()
    }

    /// Where a name is, or where it would go.
    fn search(&self, name: &Name) -> Result<usize, usize>
        ensures found { IfOk result (IsPlace pair_name name.now self.now) }
        ensures absent { IfErr result (IsGap pair_name name.now self.now) }
        ensures bound { IfOk result (λ at. at < 2 ^ 63) }
    {
        self.pairs.binary_search_by(
            |pair: &(Name, Ref)| -> Ordering
                ensures { result ≡ name_order pair.now.0 name.entry.now }
            { pair.0.cmp(name) },
        )
    }

    /// What a name stands for.
    pub fn find(&self, name: &Name) -> Option<&Ref>
        ensures { option_copied result ≡ target_of name.now self.now }
    {
        match self.search(name) {
            Ok(at) => Some(&self.pairs[at].1),
            Err(_) => None,
        }
    }

    /// Whether a name stands for something.
    pub fn has(&self, name: &Name) -> bool
        ensures { result ≡ has_pair name.now self.now }
    {
        self.find(name).is_some()
    }

    /// The place behind a name; the first for `None`.
    fn place_after(&self, name: Option<&Name>) -> usize
        ensures { next_pair (option_copied name.entry) self.now ≡ slice_get self.now result }
    {
        match name {
            None => 0,
            Some(name) => match self.search(name) {
                Ok(at) => at + 1,
                Err(at) => at,
            },
        }
    }

    /// The next pair in name order; the first for `None`.
    pub fn after(&self, name: Option<&Name>) -> Option<(&Name, &Ref)>
        ensures { option_map (λ pair. (pair.0.now, pair.1.now)) result ≡ next_pair (option_copied name.entry) self.now }
    {
        match self.pairs.get(self.place_after(name)) {
            Some(pair) => Some((&pair.0, &pair.1)),
            None => None,
        }
    }

    /// Makes a name stand for a reference.
    pub fn set(&mut self, name: Name, target: Ref) -> Result<(), AllocError>
        ensures ok { OnOk result (self.new ≡ put name target self.old) }
        ensures err { OnErr result (self.new ≡ self.old) }
    {
        match self.search(&name) {
            Ok(at) => {
                self.pairs[at].1 = target;
                Ok(())
            }
            Err(at) => Ok(self.pairs.insert(at, (name, target))?),
        }
    }

    /// Takes a name out.
    pub fn remove(&mut self, name: &Name)
        ensures { self.new ≡ without (is_same_name name.now) self.old }
    {
        if let Ok(at) = self.search(name) {
            let _ = self.pairs.remove(at);
        }
    }

    /// The same pairs once more.
    pub fn copied(&self, alloc: Global) -> Result<SortedPairs, AllocError>
        ensures { IfOk result (λ pairs. pairs ≡ self.now) }
    {
        Ok(SortedPairs {
            pairs: copied(alloc, &self.pairs)?,
        })
    }

    /// Whether an edit takes some name.
    pub fn has_some(&self, reach: &Reach) -> bool
        ensures { result ≡ has_some (reaches reach.now) self.now }
    {
        self.pairs.iter().any(|pair| reach.takes(&pair.0))
    }

    /// The pairs whose names an edit doesn't take.
    pub fn outside(&self, alloc: Global, reach: &Reach) -> Result<SortedPairs, AllocError>
        ensures { IfOk result (λ pairs. pairs ≡ without (reaches reach.now) self.now) }
    {
        Ok(SortedPairs {
            pairs: outside(alloc, &self.pairs, reach)?,
        })
    }

    /// Whether others are the same pairs.
    pub fn is_same(&self, other: &SortedPairs) -> bool
        ensures { result ≡ pointwise is_same_pair self.now other.now }
    {
        self.pairs.as_slice() == other.pairs.as_slice()
    }

    /// The least name that stands for a reference.
    pub fn name_for(&self, of: &Ref) -> Option<&Name>
        ensures { option_copied result ≡ least_name_of (names_for of.now self.now) }
    {
        first_for(&self.pairs, of)
    }
}

/// The first name that stands for a reference.
fn first_for<'a>(pairs: &'a [(Name, Ref)], of: &Ref) -> Option<&'a Name>
    ensures { option_copied result ≡ option_map pair_name (find (λ p. is_same_ref of.now p.1) pairs.now) }
{
    for pair in pairs {
        if is_same(of, &pair.1) {
            return Some(&pair.0);
        }
    }
    None
}

/// Copies of pairs.
fn copied(alloc: Global, pairs: &[(Name, Ref)]) -> Result<Vec<(Name, Ref)>, AllocError>
    ensures { IfOk result (λ copies. copies.items ≡ pairs.now) }
{
    let mut copies = Vec::with_capacity(alloc, pairs.len())?;
    for pair in pairs {
        copies.push((pair.0.copy(alloc)?, pair.1))?;
    }
    Ok(copies)
}

/// Copies of the pairs whose names an edit doesn't take.
fn outside(
    alloc: Global,
    pairs: &[(Name, Ref)],
    reach: &Reach,
) -> Result<Vec<(Name, Ref)>, AllocError>
    ensures { IfOk result (λ left. left.items ≡ without (reaches reach.now) pairs.now) }
{
    let mut left = Vec::new(alloc);
    for pair in pairs {
        if !reach.takes(&pair.0) {
            left.push((pair.0.copy(alloc)?, pair.1))?;
        }
    }
    Ok(left)
}
