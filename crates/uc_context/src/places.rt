//! Places by number.
ghost use Rattle.std.specs.Prelude.{◌≡◌, ℕ, ◌≤◌, max, length, [], slice_set, OnOk, Option};
ghost use Rattle.uc_context.specs.Index.{place_at};

use std::alloc::{AllocError, Global};
use std::marker::Model;

/// For each number a place, where one is noted.
#[derive(Debug, Drop)]
pub(crate) struct Places {
    by_number: Vec<Option<usize>>,
}

impl Model for Places {
    ghost use Rattle.std.specs.Prelude.{List, Option, ℕ};

    ghost Value = { List (Option ℕ) };

    ghost view = { λ p. p.by_number.items };
}

impl Places {
    pub(crate) fn new(alloc: Global) -> Places
        ensures { result ≡ [] }
    {
        Places {
            by_number: Vec::new(alloc),
        }
    }

    /// The place that is noted for a number.
    pub(crate) fn get(&self, x: u64) -> Option<usize>
        ensures { result ≡ place_at self.now x }
    {
        match self.by_number.get(x as usize) {
            Some(place) => *place,
            None => None,
        }
    }

    /// Makes room for the numbers below a bound.
    pub(crate) fn make_room(&mut self, up_to: usize) -> Result<(), AllocError>
        ensures kept { (x : ℕ) → place_at self.new x ≡ place_at self.old x }
        ensures longer { length self.old ≤ length self.new }
        ensures bound { length self.new ≤ max (length self.old) up_to }
        ensures ok { OnOk result (up_to ≤ length self.new) }
    {
        if up_to > self.by_number.len() {
            self.by_number.resize(up_to, None)?;
        }
        Ok(())
    }

    /// Notes a place, or that there is none; nothing for a number that there is no room for.
    pub(crate) fn put(&mut self, x: u64, place: Option<usize>)
        ensures { self.new ≡ slice_set self.old x place }
    {
        let at = x as usize;
        if at < self.by_number.len() {
            self.by_number[at] = place;
        }
    }
}
