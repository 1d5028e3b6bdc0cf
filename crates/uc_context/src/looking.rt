//! What a context has: looked up by number.
ghost use Rattle.std.specs.Prelude.{◌≡◌, Some, None, take, MatchOption};
ghost use Rattle.std.specs.List.{list_any};
ghost use Rattle.std.specs.Option.{option_copied};
ghost use Rattle.uc_context.specs.Contexts.{IsContext, solution_of, binder_type};
ghost use Rattle.uc_context.specs.Entries.{is_variable, is_unsolved, is_rigid, declares, before};
ghost use Rattle.uc_context.specs.Index.{last_place};
ghost use Rattle.uc_context.specs.Looking.{HasAt};

use crate::context::Context;
use crate::entry::Entry;
use crate::open::Open;

impl Context {
    /// The place of a rigid variable or an existential, with its entry.
    pub(crate) fn standing(&self, x: u64) -> Option<(usize, &Entry)>
        ensures stands { MatchOption result (last_place (is_variable x) self.now ≡ None) (λ p. HasAt (is_variable x) self.now p.0 p.1.now) }
        ensures in_order { IsContext self.now }
    {
        match self.index.variables.get(x) {
            Some(place) => Some((place, &self.entries[place])),
            None => None,
        }
    }

    /// Whether an entry is the rigid variable or the existential with a number.
    pub fn has_variable(&self, number: u64) -> bool
        ensures { result ≡ list_any (is_variable number) self.now }
    {
        self.index.variables.get(number).is_some()
    }

    /// Whether there is such an existential that isn't solved.
    pub fn is_unsolved(&self, which: u64) -> bool
        ensures { result ≡ list_any (is_unsolved which) self.now }
    {
        match self.standing(which) {
            Some((_, e)) => e.is_unsolved(which),
            None => false,
        }
    }

    /// What an existential stands for, where it is solved.
    pub fn solution(&self, which: u64) -> Option<&Open>
        ensures { option_copied result ≡ solution_of self.now which }
    {
        match self.standing(which) {
            Some((_, e)) => e.solution(),
            None => None,
        }
    }

    /// The type of the last binder with a number.
    pub fn binder(&self, number: u64) -> Option<&Open>
        ensures { option_copied result ≡ binder_type self.now number }
    {
        match self.index.binders.get(number) {
            Some(place) => self.entries[place].binder_type(),
            None => None,
        }
    }

    /// How many entries stand before a variable; all where there is none.
    pub(crate) fn count_before(&self, which: u64) -> usize
        ensures { take result self.now ≡ before which self.now }
    {
        match self.standing(which) {
            Some((place, _)) => place,
            None => self.entries.len(),
        }
    }

    /// Whether a rigid variable is among so many entries.
    pub(crate) fn has_rigid(&self, limit: usize, x: u64) -> bool
        ensures { result ≡ list_any (is_rigid x) (take limit self.now) }
    {
        match self.standing(x) {
            Some((place, e)) => place < limit && e.is_rigid(x),
            None => false,
        }
    }

    /// Whether an existential is among so many entries.
    pub(crate) fn has_existential(&self, limit: usize, x: u64) -> bool
        ensures { result ≡ list_any (declares x) (take limit self.now) }
    {
        match self.standing(x) {
            Some((place, e)) => place < limit && e.declares(x),
            None => false,
        }
    }

    /// Whether an existential stands before a variable.
    pub fn is_declared_before(&self, first: u64, second: u64) -> bool
        ensures { result ≡ list_any (declares first) (before second self.now) }
    {
        self.has_existential(self.count_before(second), first)
    }
}
