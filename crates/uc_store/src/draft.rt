//! New entries on their way into the store.
ghost use Rattle.std.specs.Prelude.{◌≡◌, ◌⊎◌, Some, None, IfOk, OnOk, IfErr};
ghost use Rattle.std.specs.Option.{option_copied};
ghost use Rattle.uc_base.specs.declared.fault.Fault.TheVariants.{Memory};
ghost use Rattle.uc_canon.specs.Members.{text_of};
ghost use Rattle.uc_store.specs.Drafts.{drafted, AreCounts, IsDraft};
ghost use Rattle.uc_store.specs.Growth.{entry_at, with_entries, with_new, with_components, collision_with, collision_in};
ghost use Rattle.uc_store.specs.Places.{boxed};
ghost use Rattle.uc_store.specs.Storable.{AreStorable, IsStorable, IsMade};
ghost use Rattle.uc_store.specs.Table.{Table, IsTable, entry_under};

use crate::checked::Checked;
use crate::counts::{Counts, nodes_of};
use crate::entry::Entry;
use crate::places::{entry_under, place_behind};
use std::alloc::Global;
use uc_base::{Bytes, Fault, Hash};
use uc_canon::write_component;
use uc_outside::Digester;

/// New entries in the order of their hashes, and the counts of the store with them.
#[derive(Drop)]
pub struct Draft {
    pub fresh: Vec<Box<Entry>>,
    pub counts: Counts,
}

/// Refuses a text under the hash of an entry with another text.
fn same_text(alloc: Global, hash: Hash, entry: &Entry, text: Bytes) -> Result<(), Fault>
    ensures ok { OnOk result (collision_with hash text (Some entry.now) ≡ None) }
    ensures err { IfErr result (λ fault. (fault ≡ Memory) ⊎ (collision_with hash text (Some entry.now) ≡ Some fault)) }
{
    if entry.text() == text.as_slice() {
        return Ok(());
    }
    let earlier = Bytes::from_slice(alloc, entry.text())?;
    Err(Fault::Collision(hash, earlier, text))
}

impl Draft {
    /// The new or stored entry under a hash.
    fn entry_under<'a>(&'a self, stored: &'a [Box<Entry>], hash: &Hash) -> Option<&'a Entry>
        requires { IsDraft (boxed stored.now) self.now }
        ensures { option_copied result ≡ entry_under hash.now (drafted (boxed stored.now) self.now) }
    {
        match entry_under(&self.fresh, hash) {
            Some(entry) => Some(entry),
            None => entry_under(stored, hash),
        }
    }

    /// Adds the entry of a component whose hash is new.
    fn add(
        &mut self,
        alloc: Global,
        stored: &[Box<Entry>],
        hash: Hash,
        text: Bytes,
        new: Checked,
    ) -> Result<(), Fault>
        requires draft { IsDraft (boxed stored.now) self.old }
        requires text { text ≡ text_of new.members }
        requires storable { (table : Table) × IsStorable table new }
        requires absent { entry_under hash (drafted (boxed stored.now) self.old) ≡ None }
        ensures draft { OnOk result (IsDraft (boxed stored.now) self.new) }
        ensures added { OnOk result (drafted (boxed stored.now) self.new ≡ with_new (entry_at hash new) (drafted (boxed stored.now) self.old) None) }
        ensures err { IfErr result (λ fault. fault ≡ Memory) }
    {
        let bytes = text.as_slice().len();
        let type_nodes = nodes_of(&new.types);
        let entry = Entry::new(alloc, hash, text, new)?;
        let counts = self.counts.with(entry.count(), bytes, type_nodes);
        let place = place_behind(&self.fresh, &hash);
        self.fresh.insert(place, Box::new(alloc, entry)?)?;
        self.counts = counts;
        Ok(())
    }

    /// Adds a component, unless its text is there.
    fn add_checked(
        &mut self,
        alloc: Global,
        stored: &[Box<Entry>],
        hash: Hash,
        text: Bytes,
        new: Checked,
    ) -> Result<(), Fault>
        requires draft { IsDraft (boxed stored.now) self.old }
        requires text { text ≡ text_of new.members }
        requires storable { (table : Table) × IsStorable table new }
        ensures draft { OnOk result (IsDraft (boxed stored.now) self.new) }
        ensures added { OnOk result (drafted (boxed stored.now) self.new
            ≡ with_new (entry_at hash new) (drafted (boxed stored.now) self.old) (entry_under hash (drafted (boxed stored.now) self.old))) }
        ensures apart { OnOk result (collision_with hash text (entry_under hash (drafted (boxed stored.now) self.old)) ≡ None) }
        ensures err { IfErr result (λ fault. (fault ≡ Memory)
            ⊎ (collision_with hash text (entry_under hash (drafted (boxed stored.now) self.old)) ≡ Some fault)) }
    {
        match self.entry_under(stored, &hash) {
            Some(entry) => same_text(alloc, hash, entry, text),
            None => self.add(alloc, stored, hash, text, new),
        }
    }
}

/// The entries of new components over the stored ones.
pub(crate) fn draft_of<H: Digester + Drop>(
    alloc: Global,
    digester: &H,
    stored: &[Box<Entry>],
    counts: Counts,
    new: Vec<Checked>,
) -> Result<Draft, Fault>
    requires ordered { IsTable (boxed stored.now) }
    requires counted { AreCounts (boxed stored.now) counts }
    requires made { IsMade H.digest_of (boxed stored.now) }
    requires storable { AreStorable H.digest_of (boxed stored.now) new.items }
    ensures draft { IfOk result (IsDraft (boxed stored.now)) }
    ensures made { IfOk result (λ d. IsMade H.digest_of (drafted (boxed stored.now) d)) }
    ensures components { IfOk result (λ d. drafted (boxed stored.now) d ≡ with_components H.digest_of (boxed stored.now) new.items) }
    ensures apart { OnOk result (collision_in H.digest_of (boxed stored.now) new.items ≡ None) }
    ensures err { IfErr result (λ fault. (fault ≡ Memory) ⊎ (collision_in H.digest_of (boxed stored.now) new.items ≡ Some fault)) }
{
    let mut draft = Draft {
        fresh: Vec::new(alloc),
        counts,
    };
    for checked in new {
        let text = write_component(alloc, &checked.component)?;
        let hash = digester.digest(text.as_slice());
        draft.add_checked(alloc, stored, hash, text, checked)?;
    }
    Ok(draft)
}
