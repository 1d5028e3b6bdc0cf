//! Which calls of a device in memory fail.
ghost use Rattle.std.specs.Prelude.{◌≡◌, ◌↔◌, IsTrue};
ghost use Rattle.uc_outside.specs.Plan.{Plan, Fails, plan_after};

use std::marker::Model;

/// Counts the calls of a device in memory, and knows which of them are to fail.
#[derive(Debug, Drop)]
pub struct Script {
    made: u64,
    room: u64,
    failing: Vec<u64>,
}

impl Model for Script {
    ghost use Rattle.uc_outside.specs.Plan.{Plan};

    ghost Value = { Plan };

    ghost view = { λ s. record { made = s.made; room = s.room; failing = s.failing.items } };
}

impl Script {
    /// No call is made yet. `failing` lists the numbers of the calls that fail, counted from 1; `room` is how many
    /// bytes may be written in all.
    pub fn new(room: u64, failing: Vec<u64>) -> Script
        ensures { result ≡ record { made = 0; room = room; failing = failing.items } }
    {
        Script {
            made: 0,
            room,
            failing,
        }
    }

    /// Counts a call that writes this many bytes, and says whether it fails.
    pub fn refuses(&mut self, size: u64) -> bool
        ensures exactly { IsTrue result ↔ Fails self.old size }
        ensures counted { self.new ≡ plan_after self.old size result }
    {
        self.made = self.made.saturating_add(1);
        if self.failing.contains(&self.made) || size > self.room {
            return true;
        }
        self.room -= size;
        false
    }
}
