//! The stored references of an item.
ghost use Rattle.std.specs.Prelude.{◌≡◌, ◌↔◌, ◌++◌, OnOk, IfOk, IfErr, Contains};
ghost use Rattle.std.specs.List.Sorted.{IsStrictlySortedBy};
ghost use Rattle.uc_base.specs.declared.fault.Fault.TheVariants.{Memory};
ghost use Rattle.uc_base.specs.declared.reference.Ref.{Ref as PlainRef};
ghost use Rattle.uc_tree.specs.References.{ref_order, stored_among};
ghost use Rattle.uc_tree.specs.Targets.{IsRefOf};

use crate::item::Item;
use crate::target::Target;
use crate::targets::targets_of;
use std::alloc::{AllocError, Global};
use uc_base::{Fault, Ref};

fn stored_among(alloc: Global, targets: &[Target]) -> Result<Vec<Ref>, AllocError>
    ensures { IfOk result (λ refs. refs.items ≡ stored_among targets.now) }
{
    let mut refs = Vec::new(alloc);
    for target in targets {
        if let Target::Stored(r) = target {
            refs.push(*r)?;
        }
    }
    Ok(refs)
}

/// The stored references of an item, in reference order, each once.
pub fn refs_of(alloc: Global, item: &Item) -> Result<Vec<Ref>, Fault>
    ensures ascending { IfOk result (λ refs. IsStrictlySortedBy ref_order refs.items) }
    ensures refs { IfOk result (λ refs. (r : PlainRef) → Contains refs.items r ↔ IsRefOf r item.now) }
    ensures err { IfErr result (λ fault. fault ≡ Memory) }
{
    let targets = targets_of(alloc, item)?;
    let mut refs = stored_among(alloc, &targets)?;
    refs.sort_unstable();
    refs.dedup();
    Ok(refs)
}
