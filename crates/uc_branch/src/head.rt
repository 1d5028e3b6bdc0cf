//! The names of a branch.
ghost use Rattle.std.specs.Prelude.{◌≡◌, IfOk, IfErr, OnOk, OnErr, option_map};
ghost use Rattle.std.specs.Option.{option_copied};
ghost use Rattle.uc_base.specs.declared.fault.Fault.TheVariants.{Memory};
ghost use Rattle.uc_tree.specs.Lookups.{next_pair};
ghost use Rattle.uc_branch.specs.Pairs.{target_of, put, without, is_same_name};
ghost use Rattle.uc_branch.specs.Reaches.{reaches};

use crate::builtins::put_builtins;
use crate::reach::Reach;
use crate::sorted_pairs::SortedPairs;
use std::alloc::Global;
use std::marker::Model;
use uc_base::{BUILTIN_TERMS, BUILTIN_TYPES, FIRST_BUILTIN_TERM, Fault, Name, Ref, Sort};

/// Which names stand for which references: the names of types and those of terms.
#[derive(Debug, Drop)]
pub struct Head {
    pub(crate) kinds: SortedPairs,
    pub(crate) terms: SortedPairs,
}

impl Model for Head {
    ghost use Rattle.uc_branch.specs.Heads.{HeadPairs};

    ghost Value = { HeadPairs };

    ghost view = { λ h. record { kinds = h.kinds; terms = h.terms } };
}

impl Head {
    ghost use Rattle.uc_branch.specs.Heads.{empty_head, builtin_head, name_count, pairs_of, with_pairs, least_name, is_same_head};
    ghost use Rattle.uc_branch.specs.Deleting.{head_outside, loses_some};

    /// No names.
    pub fn empty(alloc: Global) -> Head
        ensures { result ≡ empty_head }
    {
        Head {
            kinds: SortedPairs::new(alloc),
            terms: SortedPairs::new(alloc),
        }
    }

    /// The names of the table of builtins.
    pub fn builtin(alloc: Global) -> Result<Head, Fault>
        ensures ok { IfOk result (λ head. head ≡ builtin_head) }
        ensures err { IfErr result (λ fault. fault ≡ Memory) }
    {
        let mut kinds = SortedPairs::new(alloc);
        let mut terms = SortedPairs::new(alloc);
        put_builtins(alloc, 0, &BUILTIN_TYPES, &mut kinds)?;
        put_builtins(alloc, FIRST_BUILTIN_TERM, &BUILTIN_TERMS, &mut terms)?;
        Ok(Head { kinds, terms })
    }

    /// What a term name stands for.
    pub fn term(&self, name: &Name) -> Option<&Ref>
        ensures { option_copied result ≡ target_of name.now self.now.terms }
    {
        self.terms.find(name)
    }

    /// What a type name stands for.
    pub fn kind(&self, name: &Name) -> Option<&Ref>
        ensures { option_copied result ≡ target_of name.now self.now.kinds }
    {
        self.kinds.find(name)
    }

    /// The least type name that stands for a reference, or else the least term name.
    pub fn least_name(&self, of: &Ref) -> Option<&Name>
        ensures { option_copied result ≡ least_name of.now self.now }
    {
        match self.kinds.name_for(of) {
            Some(name) => Some(name),
            None => self.terms.name_for(of),
        }
    }

    /// How many names there are.
    pub fn count(&self) -> u64
        ensures { result ≡ name_count self.now }
    {
        self.kinds.len() as u64 + self.terms.len() as u64
    }

    /// The pairs of a sort.
    pub(crate) fn pairs(&self, sort: Sort) -> &SortedPairs
        ensures { result.now ≡ pairs_of sort self.now }
    {
        match sort {
            Sort::Kind => &self.kinds,
            Sort::Term => &self.terms,
        }
    }

    /// The next pair of a sort in name order; the first for `None`.
    pub fn after(&self, sort: Sort, name: Option<&Name>) -> Option<(&Name, &Ref)>
        ensures { option_map (λ pair. (pair.0.now, pair.1.now)) result ≡ next_pair (option_copied name.entry) (pairs_of sort self.now) }
    {
        self.pairs(sort).after(name)
    }

    /// An equal head.
    pub fn copied(&self, alloc: Global) -> Result<Head, Fault>
        ensures ok { IfOk result (λ head. head ≡ self.now) }
        ensures err { IfErr result (λ fault. fault ≡ Memory) }
    {
        Ok(Head {
            kinds: self.kinds.copied(alloc)?,
            terms: self.terms.copied(alloc)?,
        })
    }

    /// Makes a name of a sort stand for a reference.
    pub fn set(&mut self, sort: Sort, name: Name, target: Ref) -> Result<(), Fault>
        ensures ok { OnOk result (self.new ≡ with_pairs sort (put name target (pairs_of sort self.old)) self.old) }
        ensures err { IfErr result (λ fault. fault ≡ Memory) }
        ensures kept { OnErr result (self.new ≡ self.old) }
    {
        match sort {
            Sort::Kind => self.kinds.set(name, target)?,
            Sort::Term => self.terms.set(name, target)?,
        }
        Ok(())
    }

    /// Takes a name of a sort out.
    pub fn remove(&mut self, sort: Sort, name: &Name)
        ensures { self.new ≡ with_pairs sort (without (is_same_name name.now) (pairs_of sort self.old)) self.old }
    {
        match sort {
            Sort::Kind => self.kinds.remove(name),
            Sort::Term => self.terms.remove(name),
        }
    }

    /// Whether an edit takes some name of either sort.
    pub(crate) fn has_some(&self, reach: &Reach) -> bool
        ensures { result ≡ loses_some (reaches reach.now) self.now }
    {
        self.kinds.has_some(reach) || self.terms.has_some(reach)
    }

    /// The head of the names that an edit doesn't take.
    pub(crate) fn outside(&self, alloc: Global, reach: &Reach) -> Result<Head, Fault>
        ensures ok { IfOk result (λ head. head ≡ head_outside (reaches reach.now) self.now) }
        ensures err { IfErr result (λ fault. fault ≡ Memory) }
    {
        Ok(Head {
            kinds: self.kinds.outside(alloc, reach)?,
            terms: self.terms.outside(alloc, reach)?,
        })
    }

    /// Whether another head has the same names for the same references.
    pub(crate) fn is_same(&self, other: &Head) -> bool
        ensures { result ≡ is_same_head self.now other.now }
    {
        self.kinds.is_same(&other.kinds) && self.terms.is_same(&other.terms)
    }
}
