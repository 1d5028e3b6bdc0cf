//! Growth of the store: all memory is taken first, and then nothing can fail.
ghost use Rattle.std.specs.Prelude.{◌≡◌, ◌⊎◌, ◌+◌, ◌≤◌, [], Some, None, IfOk, OnOk, IfErr};
ghost use Rattle.std.specs.Vec.{vec_len, vec_capacity};
ghost use Rattle.uc_base.specs.declared.fault.Fault.TheVariants.{Memory};
ghost use Rattle.uc_store.specs.Growth.{with_components, with_entries, store_fault, Extends};
ghost use Rattle.uc_store.specs.Places.{boxed};
ghost use Rattle.uc_store.specs.Prepared.{table_after, IsPreparedFor};
ghost use Rattle.uc_store.specs.Storable.{AreStorable};
ghost use Rattle.uc_store.specs.Table.{IsTable};

use crate::checked::Checked;
use crate::counts::Counts;
use crate::draft::{Draft, draft_of};
use crate::entry::Entry;
use crate::places::place_behind;
use crate::store::Store;
use std::alloc::Global;
use std::marker::Model;
use std::mem;
use uc_base::Fault;
use uc_outside::Digester;

/// New entries that a store has room for.
#[derive(Drop)]
pub struct Prepared {
    fresh: Vec<Box<Entry>>,
    room: Vec<Box<Entry>>,
    counts: Counts,
}

impl Model for Prepared {
    ghost use Rattle.std.specs.Prelude.{◌≡◌, []};
    ghost use Rattle.std.specs.Vec.{vec_capacity};
    ghost use Rattle.uc_store.specs.Places.{boxed};
    ghost use Rattle.uc_store.specs.Prepared.{Prepared as Plain, coded_prepared};

    ghost Value = { Plain };

    ghost coded = { coded_prepared };

    ghost view = { λ p. record { fresh = boxed p.fresh.items; room = vec_capacity p.room; counts = p.counts } };

    ghost invariant = { λ p. p.room.items ≡ [] };
}

/// Puts the new entries among the others, in the room that was taken for all.
fn put_in(entries: &mut Vec<Box<Entry>>, mut fresh: Vec<Box<Entry>>, room: Vec<Box<Entry>>)
    requires empty { room.items ≡ [] }
    requires room { vec_len fresh + vec_len entries.old ≤ vec_capacity room }
    requires ordered { IsTable (with_entries (boxed fresh.items) (boxed entries.old.items)) }
    ensures { boxed entries.new.items ≡ with_entries (boxed fresh.items) (boxed entries.old.items) }
{
    let mut stored = mem::replace(entries, room);
    match entries.append(&mut stored) {
        Ok(()) => {}
        Err(_) => unreachable!(),
    }
    while let Some(entry) = fresh.pop() {
        let place = place_behind(entries, entry.hash());
        match entries.insert(place, entry) {
            Ok(()) => {}
            Err(_) => unreachable!(),
        }
    }
}

impl<H: Digester + Drop> Store<H> {
    /// Makes the entries of new components, and takes all the memory that they need. A component whose text is stored
    /// adds nothing.
    pub fn prepare(&mut self, alloc: Global, new: Vec<Checked>) -> Result<Prepared, Fault>
        requires { AreStorable H.digest_of self.old new.items }
        ensures same { self.new ≡ self.old }
        ensures prepared { IfOk result (IsPreparedFor H.digest_of self.new) }
        ensures components { IfOk result (λ p. table_after self.new p ≡ with_components H.digest_of self.old new.items) }
        ensures ok { OnOk result (store_fault H.digest_of self.old new.items ≡ None) }
        ensures err { IfErr result (λ fault. (fault ≡ Memory) ⊎ (store_fault H.digest_of self.old new.items ≡ Some fault)) }
    {
        let draft = draft_of(alloc, &self.digester, &self.entries, self.counts, new)?;
        if draft.counts.are_past_limits() {
            return Err(Fault::StoreFull);
        }
        let Draft { fresh, counts } = draft;
        let Some(count) = self.entries.len().checked_add(fresh.len()) else {
            return Err(Fault::Memory);
        };
        let room = Vec::with_capacity(alloc, count)?;
        Ok(Prepared {
            fresh,
            room,
            counts,
        })
    }

    /// Puts the new entries in.
    pub fn commit(&mut self, prepared: Prepared)
        requires { IsPreparedFor H.digest_of self.old prepared }
        ensures table { self.new ≡ table_after self.old prepared }
        ensures kept { Extends self.old self.new }
    {
        let Prepared {
            fresh,
            room,
            counts,
        } = prepared;
        put_in(&mut self.entries, fresh, room);
        self.counts = counts;
    }
}
