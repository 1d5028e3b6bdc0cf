//! Contexts: entries in order, found by their numbers.
ghost use Rattle.std.specs.Prelude.{◌≡◌, ◌∷◌, ◌++◌, [], OnOk, OnErr, IfErr};
ghost use Rattle.uc_base.specs.declared.fault.Fault.TheVariants.{Memory};
ghost use Rattle.uc_context.specs.Entries.{is_same_entry};
ghost use Rattle.uc_context.specs.Index.{last_place};

use crate::entry::{Entry, same_entry};
use crate::index::Index;
use std::alloc::Global;
use std::marker::Model;
use uc_base::Fault;

/// A typing context. Contracts see its entries, the oldest first.
#[derive(Debug, Drop)]
pub struct Context {
    pub(crate) entries: Vec<Entry>,
    pub(crate) index: Index,
}

impl Model for Context {
    ghost use Rattle.std.specs.Coded.{coded_list};
    ghost use Rattle.uc_context.specs.Entries.{ContextEntries};
    ghost use Rattle.uc_context.specs.Kept.{IsKept};
    ghost use Rattle.uc_context.specs.contracts.entry.Entry as entry;

    ghost Value = { ContextEntries };

    ghost coded = { coded_list entry.the_row.coded };

    ghost view = { λ c. c.entries.items };

    ghost invariant = { λ c. IsKept c.entries.items c.index };
}

/// The place of the last entry that is this one.
fn last_same(entries: &[Entry], entry: &Entry) -> Option<usize>
    ensures { result ≡ last_place (is_same_entry entry.now) entries.now }
{
    for at in (0..entries.len()).rev() {
        if same_entry(entry, &entries[at]) {
            return Some(at);
        }
    }
    None
}

impl Context {
    ghost use Rattle.uc_context.specs.Contexts.{IsContext, CanFollow};
    ghost use Rattle.uc_context.specs.Entries.{IsFresh, dropped_from};
    ghost use Rattle.uc_context.specs.Fresh.{fresh_number};

    /// No entries.
    pub fn new(alloc: Global) -> Context
        ensures { result ≡ [] }
    {
        Context {
            entries: Vec::new(alloc),
            index: Index::new(alloc),
        }
    }

    /// The entries, the oldest first.
    pub fn entries(&self) -> &[Entry]
        ensures value { result.now ≡ self.now }
        ensures in_order { IsContext self.now }
    {
        self.entries.as_slice()
    }

    /// Tells a proof that the entries are in order.
    pub(crate) fn tell_in_order(&self)
        ensures { IsContext self.now }
    {
        let _ = &self.entries;
    }

    /// The least number that no entry has.
    pub fn fresh(&self) -> u64
        ensures number { result ≡ fresh_number self.now }
        ensures fresh { IsFresh self.now result }
    {
        self.index.fresh()
    }

    /// Puts an entry behind the others.
    pub fn push(&mut self, entry: Entry) -> Result<(), Fault>
        requires { CanFollow self.old entry }
        ensures ok { OnOk result (self.new ≡ self.old ++ entry ∷ []) }
        ensures err { IfErr result (λ fault. fault ≡ Memory) }
        ensures kept { OnErr result (self.new ≡ self.old) }
    {
        self.index.make_room_for(entry.number())?;
        let place = self.entries.len();
        self.entries.push(entry)?;
        self.index
            .push(&self.entries[..place], &self.entries[place]);
        Ok(())
    }

    /// Drops the last entry that is this one, and all behind it; nothing where there is none.
    pub fn drop_from(&mut self, entry: &Entry)
        ensures { self.new ≡ dropped_from entry.now self.old }
    {
        if let Some(place) = last_same(&self.entries, entry) {
            self.index.truncate(&self.entries, place);
            self.entries.truncate(place);
        }
    }
}
