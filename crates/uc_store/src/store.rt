//! The table of definitions.
ghost use Rattle.std.specs.Prelude.{◌≡◌, [], option_map, IfOk, IfErr};
ghost use Rattle.std.specs.Option.{option_copied};
ghost use Rattle.uc_base.specs.declared.fault.Fault.TheVariants.{Memory};
ghost use Rattle.uc_tree.specs.Lookups.{found_by_prefix};
ghost use Rattle.uc_store.specs.Hashes.{next_hash};
ghost use Rattle.uc_store.specs.Storable.{IsMade};
ghost use Rattle.uc_store.specs.Table.{hashes_of, entry_under, stored_at, type_of_ref, member_count};

use crate::builtins::{builtin_arity, builtin_type, builtin_types};
use crate::counts::Counts;
use crate::entry::Entry;
use crate::places::{entry_under, hash_at, place_behind};
use crate::prefix::found_by_prefix;
use crate::stored::Stored;
use std::alloc::Global;
use std::marker::Model;
use uc_base::{Fault, Hash, Ref};
use uc_outside::Digester;
use uc_tree::{Arities, Env, Found, Item, Known, Target, Ty};

/// All definitions and declarations that were ever stored, each component under the digest of its canonical text.
/// Contracts see the `Table` of `specs/Table.antt`.
#[derive(Drop)]
pub struct Store<H: Digester + Drop> {
    pub(crate) digester: H,
    builtins: Vec<Ty>,
    pub(crate) entries: Vec<Box<Entry>>,
    pub(crate) counts: Counts,
}

impl<H: Digester + Drop> Model for Store<H> {
    ghost use Rattle.std.specs.Prelude.{◌≡◌};
    ghost use Rattle.uc_store.specs.Table.{Table};
    ghost use Rattle.uc_store.specs.Entries.{coded_entry};
    ghost use Rattle.std.specs.Coded.{coded_list};

    ghost Value = { Table };

    ghost coded = { coded_list coded_entry };

    ghost use Rattle.uc_store.specs.Kept.{IsSound};
    ghost use Rattle.uc_store.specs.Places.{boxed};

    ghost view = { λ s. boxed s.entries.items };

    ghost invariant = { λ s. IsSound H.digest_of s.builtins.items (boxed s.entries.items) s.counts };
}

impl<H: Digester + Drop> Store<H> {
    /// A store of nothing but the builtins.
    pub fn new(alloc: Global, digester: H) -> Result<Store<H>, Fault>
        ensures empty { IfOk result (λ store. store ≡ []) }
        ensures err { IfErr result (λ fault. fault ≡ Memory) }
    {
        Ok(Store {
            digester,
            builtins: builtin_types(alloc)?,
            entries: Vec::new(alloc),
            counts: Counts::zero(),
        })
    }

    /// The definition or declaration of a reference.
    pub fn get(&self, of: &Ref) -> Option<&Stored>
        ensures { option_copied result ≡ stored_at self.now of.now }
    {
        match of {
            Ref::Def(hash, member) => match entry_under(&self.entries, hash) {
                Some(entry) => entry.stored(*member),
                None => None,
            },
            Ref::Ctor(..) | Ref::Builtin(_) => None,
        }
    }

    /// The type of a definition, a constructor or a builtin.
    pub fn type_of(&self, of: &Ref) -> Option<&Ty>
        ensures { option_copied result ≡ type_of_ref self.now of.now }
    {
        match of {
            Ref::Def(..) => match self.get(of) {
                Some(stored) => stored.type_of.as_ref(),
                None => None,
            },
            Ref::Ctor(hash, member, ctor) => match entry_under(&self.entries, hash) {
                Some(entry) => entry.constructor(*member, *ctor),
                None => None,
            },
            Ref::Builtin(number) => builtin_type(&self.builtins, *number),
        }
    }

    /// How many stored hashes begin with the digits.
    pub fn by_prefix(&self, digits: &[u8]) -> Found
        ensures { result ≡ found_by_prefix digits.now (hashes_of self.now) }
    {
        found_by_prefix(&self.entries, digits)
    }

    /// The digest of a text.
    pub fn digest(&self, bytes: &[u8]) -> Hash
        ensures { result ≡ H.digest_of bytes.now }
    {
        self.digester.digest(bytes)
    }

    /// The canonical text under a hash.
    pub fn text(&self, of: &Hash) -> Option<&[u8]>
        ensures { option_copied result ≡ option_map (λ e. e.text) (entry_under of.now self.now) }
    {
        match entry_under(&self.entries, of) {
            Some(entry) => Some(entry.text()),
            None => None,
        }
    }

    /// The next stored hash in byte order; the first for `None`.
    pub fn after(&self, of: Option<&Hash>) -> Option<&Hash>
        ensures { option_copied result ≡ next_hash (option_copied of.entry) (hashes_of self.now) }
    {
        match of {
            Some(hash) => hash_at(&self.entries, place_behind(&self.entries, hash)),
            None => hash_at(&self.entries, 0),
        }
    }

    /// Tells that the table was made of storable components.
    pub(crate) fn tell_made(&self)
        ensures { IsMade H.digest_of self.now }
    {
        let _ = &self.counts;
    }

    /// How many members are stored.
    pub fn members(&self) -> u64
        ensures { result ≡ member_count self.now }
    {
        self.counts.members
    }
}

impl<H: Digester + Drop> Known for Store<H> {
    ghost use Rattle.uc_store.specs.Table.{direct_in};
    ghost use Rattle.std.proofs.Common.{refl};
    ghost use Rattle.uc_store.specs.Direct.{direct_in_order};

    ghost direct = { direct_in };

    ghost in_order = { direct_in_order };

    ghost of_constructor = { λ known hash member ctor. refl };

    ghost of_builtin = { λ known number. refl };

    fn refs(&self, of: &Ref) -> &[Ref] {
        match of {
            Ref::Def(hash, member) => match entry_under(&self.entries, hash) {
                Some(entry) => entry.refs(*member),
                None => &[],
            },
            Ref::Ctor(..) | Ref::Builtin(_) => &[],
        }
    }
}

impl<H: Digester + Drop> Arities for Store<H> {
    ghost use Rattle.uc_store.specs.Table.{arity_in};

    ghost arity_of = { arity_in };

    fn arity(&self, of: &Target) -> Option<u32> {
        match of {
            Target::Stored(Ref::Builtin(number)) => builtin_arity(*number),
            Target::Stored(r) => match self.get(r) {
                Some(stored) => match &stored.item {
                    Item::Kind(declaration) => Some(declaration.params),
                    Item::Term(_) => None,
                },
                None => None,
            },
            Target::Own(_) | Target::OwnCtor(..) => None,
        }
    }
}

impl<H: Digester + Drop> Env for Store<H> {
    ghost use Rattle.uc_store.specs.Table.{type_of_ref};

    ghost type_at = { type_of_ref };

    fn type_of(&self, of: &Ref) -> Option<&Ty> {
        Store::type_of(self, of)
    }
}
