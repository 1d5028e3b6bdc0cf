//! What is stored under a hash.
ghost use Rattle.std.specs.Prelude.{◌≡◌, length, slice_get, option_and_then, IfOk, IfErr};
ghost use Rattle.std.specs.Option.{option_copied, option_map_or};
ghost use Rattle.std.specs.Prelude.{[]};
ghost use Rattle.uc_base.specs.declared.fault.Fault.TheVariants.{Memory};
ghost use Rattle.uc_canon.specs.Bounds.{InBounds};
ghost use Rattle.uc_canon.specs.Members.{text_of};
ghost use Rattle.uc_canon.specs.Numbering.{IsClosed};
ghost use Rattle.uc_store.specs.Entries.{refs_in, constructor_types};
ghost use Rattle.uc_store.specs.Growth.{entry_at};

use crate::checked::Checked;
use crate::member::{Member, members_from};
use crate::stored::Stored;
use std::alloc::Global;
use std::marker::Model;
use uc_base::{Bytes, Fault, Hash, Ref};
use uc_canon::open_component;
use uc_tree::Ty;

/// A component under its hash. Contracts see the `Entry` of `specs/Entries.antt`.
#[derive(Debug, Drop)]
pub struct Entry {
    hash: Hash,
    text: Bytes,
    members: Vec<Member>,
}

impl Model for Entry {
    ghost use Rattle.uc_store.specs.Entries.{Entry as Plain, coded_entry};

    ghost Value = { Plain };

    ghost coded = { coded_entry };

    ghost use Rattle.uc_store.specs.Members.{stored_of, AreKept};

    ghost view = { λ e. record { hash = e.hash; text = e.text; members = stored_of e.members.items } };

    ghost invariant = { λ e. AreKept e.hash e.members.items };
}

impl Entry {
    /// The entry of a component with this text under a hash.
    pub(crate) fn new(alloc: Global, hash: Hash, text: Bytes, of: Checked) -> Result<Entry, Fault>
        requires closed { IsClosed of.members }
        requires bounds { InBounds of.members }
        requires text { text ≡ text_of of.members }
        ensures entry { IfOk result (λ e. e ≡ entry_at hash of) }
        ensures err { IfErr result (λ fault. fault ≡ Memory) }
    {
        let Checked {
            component,
            types,
            hints,
        } = of;
        let items = open_component(alloc, &component, &hash)?;
        let members = members_from(alloc, &hash, items, types, hints.members)?;
        Ok(Entry {
            hash,
            text,
            members,
        })
    }

    pub(crate) fn hash(&self) -> &Hash
        ensures { result.now ≡ self.now.hash }
    {
        &self.hash
    }

    pub(crate) fn text(&self) -> &[u8]
        ensures { result.now ≡ self.now.text }
    {
        self.text.as_slice()
    }

    pub(crate) fn count(&self) -> usize
        ensures { result ≡ length self.now.members }
    {
        self.members.len()
    }

    pub(crate) fn stored(&self, member: u32) -> Option<&Stored>
        ensures { option_copied result ≡ slice_get self.now.members member }
    {
        if (member as usize) < self.members.len() {
            Some(&self.members[member as usize].stored)
        } else {
            None
        }
    }

    /// The direct references of a member; none where there is no such member.
    pub(crate) fn refs(&self, member: u32) -> &[Ref]
        ensures { result.now ≡ option_map_or (λ s. refs_in s.item) (slice_get self.now.members member) [] }
    {
        if (member as usize) < self.members.len() {
            &self.members[member as usize].refs
        } else {
            &[]
        }
    }

    /// The type of a constructor of a member.
    pub(crate) fn constructor(&self, member: u32, ctor: u32) -> Option<&Ty>
        ensures { option_copied result ≡ option_and_then (λ s. slice_get (constructor_types self.now.hash member s.item) ctor) (slice_get self.now.members member) }
    {
        if (member as usize) >= self.members.len() {
            return None;
        }
        let types = &self.members[member as usize].ctors;
        if (ctor as usize) < types.len() {
            Some(&types[ctor as usize])
        } else {
            None
        }
    }
}
