//! Counts of a disk in memory.
ghost use Rattle.std.specs.Prelude.{◌≡◌, ◌⊎◌, ◌↔◌, ◌+◌, ◌-◌, ◌<◌, ◌≤◌, ◌^◌, min, IsTrue, if◌then◌else◌};
ghost use Rattle.std.specs.Bool.{OnFalse};
ghost use Rattle.uc_outside.specs.Plan.{Fails, plan_after};

use crate::script::Script;

/// How many more calls may be made, which of them fail, and how many have failed.
#[derive(Debug, Drop)]
pub struct Counter {
    pub left: u64,
    pub script: Script,
    pub failed: u64,
}

impl Counter {
    /// Counts a call that writes this many bytes, and says whether it fails.
    pub fn refuses(&mut self, size: u64) -> bool
        ensures exactly { IsTrue result ↔ ((self.old.left ≡ 0) ⊎ Fails self.old.script size) }
        ensures left { self.new.left ≡ self.old.left - 1 }
        ensures plan { 0 < self.old.left → self.new.script ≡ plan_after self.old.script size result }
        ensures passes { OnFalse result ((0 < self.old.left) × (size ≤ self.old.script.room)) }
        ensures room { self.new.script.room + (if result then 0 else size) ≡ self.old.script.room }
        ensures later { self.old.failed ≤ self.new.failed }
        ensures failed { self.new.failed ≡ (if result then min (self.old.failed + 1) (2 ^ 64 - 1) else self.old.failed) }
    {
        let refused = self.left == 0 || self.script.refuses(size);
        self.left = self.left.saturating_sub(1);
        if refused {
            self.failed = self.failed.saturating_add(1);
        }
        refused
    }
}
