//! Where the entries of a context stand, and which numbers they have.
ghost use Rattle.std.specs.Prelude.{◌≡◌, ℕ, ◌+◌, ◌<◌, ◌≤◌, ◌^◌, ◌++◌, ◌∷◌, [], take, length, Some, None, OnOk, All, IsTrue, false, count_by};
ghost use Rattle.std.specs.List.{list_any};
ghost use Rattle.uc_context.specs.Numbers.{uses_at};
ghost use Rattle.uc_context.specs.Entries.{ContextEntries, number_of, is_numbered, is_variable, is_binder, IsFresh};
ghost use Rattle.uc_context.specs.Index.{last_place};

use crate::entry::Entry;
use crate::numbers::Numbers;
use crate::places::Places;
use std::alloc::{AllocError, Global};

/// By number: how many entries have it, where the rigid variable or the existential stands that has it, and
/// where the last binder stands that has it.
#[derive(Debug, Drop)]
pub(crate) struct Index {
    pub(crate) numbers: Numbers,
    pub(crate) variables: Places,
    pub(crate) binders: Places,
}

/// The place of the last binder with a number.
fn last_binder(entries: &[Entry], x: u64) -> Option<usize>
    ensures { result ≡ last_place (is_binder x) entries.now }
{
    for at in (0..entries.len()).rev() {
        if entries[at].is_binder(x) {
            return Some(at);
        }
    }
    None
}

impl Index {
    ghost use Rattle.uc_context.specs.Indexes.{Indexes};

    pub(crate) fn new(alloc: Global) -> Index
        ensures { Indexes result [] }
    {
        Index {
            numbers: Numbers::new(alloc),
            variables: Places::new(alloc),
            binders: Places::new(alloc),
        }
    }

    /// Makes room for entries with numbers below a bound.
    pub(crate) fn make_room(&mut self, up_to: usize) -> Result<(), AllocError>
        ensures kept { (es : ContextEntries) → Indexes self.old es → Indexes self.new es }
        ensures longer { length self.old.numbers ≤ length self.new.numbers }
        ensures ok { OnOk result (up_to ≤ length self.new.numbers) }
    {
        self.variables.make_room(up_to)?;
        self.binders.make_room(up_to)?;
        self.numbers.make_room(up_to)
    }
}

impl Index {
    ghost use Rattle.uc_context.specs.Contexts.{IsContext};
    ghost use Rattle.uc_context.specs.Indexes.{Indexes, noted_at, HasPlaces, AreNoted, AreNotedBelow, Exchanges};

    /// Makes room for an entry with a number.
    pub(crate) fn make_room_for(&mut self, number: u64) -> Result<(), AllocError>
        ensures kept { (es : ContextEntries) → Indexes self.old es → Indexes self.new es }
        ensures longer { length self.old.numbers ≤ length self.new.numbers }
        ensures ok { OnOk result (number < length self.new.numbers) }
    {
        let up_to = (number as usize).checked_add(1).ok_or(AllocError)?;
        self.make_room(up_to)
    }

    /// Makes room for entries with these numbers.
    pub(crate) fn make_room_for_all(&mut self, numbers: &[u64]) -> Result<(), AllocError>
        ensures kept { (es : ContextEntries) → Indexes self.old es → Indexes self.new es }
        ensures ok { OnOk result (All (λ n. n < length self.new.numbers) numbers.now) }
    {
        for n in numbers {
            self.make_room_for(*n)?;
        }
        Ok(())
    }

    /// The least number that no entry has.
    pub(crate) fn fresh(&self) -> u64
        ensures { (es : ContextEntries) → Indexes self.now es → IsFresh es result }
    {
        self.numbers.least_unused()
    }

    /// Notes a place for the number of an entry.
    pub(crate) fn note(&mut self, e: &Entry, place: Option<usize>)
        ensures numbers { self.new.numbers ≡ self.old.numbers }
        ensures variables { self.new.variables ≡ noted_at is_variable e.now place self.old.variables }
        ensures binders { self.new.binders ≡ noted_at is_binder e.now place self.old.binders }
    {
        match e {
            Entry::Rigid(x) | Entry::Exists(x) | Entry::Solved(x, _) => {
                self.variables.put(*x, place)
            }
            Entry::Binder(x, _) => self.binders.put(*x, place),
            Entry::Mark(_) => {}
        }
    }

    /// Takes in an entry behind others.
    pub(crate) fn push(&mut self, before: &[Entry], e: &Entry)
        requires indexed { Indexes self.old before.now }
        requires room { number_of e.now < length self.old.numbers }
        ensures { Indexes self.new (before.now ++ e.now ∷ []) }
    {
        self.numbers.add(e.number());
        self.note(e, Some(before.len()));
    }

    /// What to note for the number of an entry that is left out behind others: the last binder before a
    /// binder, and nothing for a variable.
    fn place_before(&self, rest: &[Entry], e: &Entry) -> Option<usize>
        requires { uses_at self.now.numbers (number_of e.now) ≡ count_by (is_numbered (number_of e.now)) rest.now }
        ensures variable { IsTrue (is_variable (number_of e.now) e.now) → result ≡ None }
        ensures binder { IsTrue (is_binder (number_of e.now) e.now) → result ≡ last_place (is_binder (number_of e.now)) rest.now }
    {
        match e {
            Entry::Binder(x, _) if self.numbers.uses(*x) > 0 => last_binder(rest, *x),
            _ => None,
        }
    }

    /// Leaves out an entry that was behind others.
    pub(crate) fn pop(&mut self, rest: &[Entry], e: &Entry)
        requires indexed { Indexes self.old (rest.now ++ e.now ∷ []) }
        requires apart { IsTrue (is_variable (number_of e.now) e.now) → list_any (is_variable (number_of e.now)) rest.now ≡ false }
        ensures { Indexes self.new rest.now }
    {
        self.numbers.remove(e.number());
        let place = self.place_before(rest, e);
        self.note(e, place);
    }

    /// Leaves out all entries from a place on.
    pub(crate) fn truncate(&mut self, entries: &[Entry], place: usize)
        requires within { place ≤ length entries.now }
        requires in_order { IsContext entries.now }
        requires indexed { Indexes self.old entries.now }
        ensures { Indexes self.new (take place entries.now) }
    {
        for at in (place..entries.len()).rev() {
            self.pop(&entries[..at], &entries[at]);
        }
    }

    /// Notes the places of the entries from one on.
    pub(crate) fn note_from(&mut self, entries: &[Entry], from: usize)
        requires room { All (λ e. number_of e < length self.old.numbers) entries.now }
        requires longer { HasPlaces self.old }
        requires variables { AreNotedBelow is_variable from self.old.variables entries.now }
        requires binders { AreNotedBelow is_binder from self.old.binders entries.now }
        ensures numbers { self.new.numbers ≡ self.old.numbers }
        ensures longer { HasPlaces self.new }
        ensures variables { AreNoted is_variable self.new.variables entries.now }
        ensures binders { AreNoted is_binder self.new.binders entries.now }
    {
        for at in from..entries.len() {
            self.note(&entries[at], Some(at));
        }
    }

    /// Takes in new existentials with these numbers, which stand in front of what has come in place of one.
    pub(crate) fn exchange(&mut self, entries: &[Entry], place: usize, numbers: &[u64])
        requires room { All (λ n. n < length self.old.numbers) numbers.now }
        requires exchanged { (es : ContextEntries) × Indexes self.old es × Exchanges es place numbers.now entries.now }
        ensures { Indexes self.new entries.now }
    {
        self.numbers.add_all(numbers);
        self.note_from(entries, place);
    }
}
