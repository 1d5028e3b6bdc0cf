//! Aliases: one more name of what a name stands for.
ghost use Rattle.std.specs.Prelude.{◌≡◌, ◌⊎◌, None, Some, IfOk, IfErr, OnOk};
ghost use Rattle.uc_base.specs.declared.fault.Fault.TheVariants.{Memory};
ghost use Rattle.uc_base.specs.declared.place.Sort.TheVariants.{Term, Kind};
ghost use Rattle.uc_branch.specs.Aliases.{aliased_head, alias_fault};

use crate::head::Head;
use std::alloc::Global;
use uc_base::{Fault, Name, Sort};

impl Head {
    fn aliased(&self, alloc: Global, sort: Sort, from: &Name, to: &Name) -> Result<Head, Fault>
        ensures ok { IfOk result (λ head. head ≡ aliased_head sort from.now to.now self.now) }
        ensures accepted { OnOk result (alias_fault sort from.now to.now self.now ≡ None) }
        ensures refused { IfErr result (λ fault. (alias_fault sort from.now to.now self.now ≡ Some fault) ⊎ (fault ≡ Memory)) }
    {
        if from == to {
            return Err(Fault::SameName(from.copy(alloc)?));
        }
        let pairs = self.pairs(sort);
        let Some(target) = pairs.find(from) else {
            return Err(Fault::NoSuchName(from.copy(alloc)?));
        };
        if pairs.has(to) {
            return Err(Fault::NameTaken(to.copy(alloc)?));
        }
        let mut head = self.copied(alloc)?;
        head.set(sort, to.copy(alloc)?, *target)?;
        Ok(head)
    }

    /// The head with one more name for a term.
    pub fn aliased_term(&self, alloc: Global, from: &Name, to: &Name) -> Result<Head, Fault>
        ensures ok { IfOk result (λ head. head ≡ aliased_head Term from.now to.now self.now) }
        ensures accepted { OnOk result (alias_fault Term from.now to.now self.now ≡ None) }
        ensures refused { IfErr result (λ fault. (alias_fault Term from.now to.now self.now ≡ Some fault) ⊎ (fault ≡ Memory)) }
    {
        self.aliased(alloc, Sort::Term, from, to)
    }

    /// The head with one more name for a type.
    pub fn aliased_kind(&self, alloc: Global, from: &Name, to: &Name) -> Result<Head, Fault>
        ensures ok { IfOk result (λ head. head ≡ aliased_head Kind from.now to.now self.now) }
        ensures accepted { OnOk result (alias_fault Kind from.now to.now self.now ≡ None) }
        ensures refused { IfErr result (λ fault. (alias_fault Kind from.now to.now self.now ≡ Some fault) ⊎ (fault ≡ Memory)) }
    {
        self.aliased(alloc, Sort::Kind, from, to)
    }
}
