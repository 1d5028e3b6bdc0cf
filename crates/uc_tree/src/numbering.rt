//! The places of references in a list.
ghost use Rattle.std.specs.Prelude.{◌≡◌, ◌<◌, ◌^◌, length, IfOk};
ghost use Rattle.uc_tree.specs.References.{number_of};

use std::alloc::{AllocError, Global};
use std::collections::BTreeMap;
use std::marker::Model;
use uc_base::Ref;

/// References, each with the place at which it first stands among them. Contracts read it as the list.
#[derive(Drop)]
pub struct Numbering<'a> {
    /// Only contracts and proofs read it.
    refs: &'a [Ref],
    numbers: BTreeMap<Ref, u32>,
}

impl<'a> Model for Numbering<'a> {
    ghost use Rattle.std.specs.Prelude.{◌≡◌, List};
    ghost use Rattle.std.specs.BTreeMap.{get};
    ghost use Rattle.uc_base.specs.declared.reference.Ref.{Ref as PlainRef};
    ghost use Rattle.uc_tree.specs.References.{ref_order, number_of};

    ghost Value = { List PlainRef };

    ghost view = { λ numbering. numbering.refs.now };

    ghost invariant = { λ numbering. (r : PlainRef) → get ref_order numbering.numbers r ≡ number_of r numbering.refs.now };
}

impl<'a> Numbering<'a> {
    pub fn new(alloc: Global, refs: &'a [Ref]) -> Result<Numbering<'a>, AllocError>
        requires { length refs.now < 2 ^ 32 }
        ensures { IfOk result (λ numbering. numbering ≡ refs.now) }
    {
        let mut numbers = BTreeMap::new(alloc);
        for (number, r) in refs.iter().enumerate() {
            if !numbers.contains_key(r) {
                numbers.insert(*r, number as u32)?;
            }
        }
        Ok(Numbering { refs, numbers })
    }

    pub fn number_of(&self, r: &Ref) -> Option<u32>
        ensures { result ≡ number_of r.now self.now }
    {
        self.numbers.get(r).copied()
    }
}
