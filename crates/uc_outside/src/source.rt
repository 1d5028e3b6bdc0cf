//! What is read.
ghost use Rattle.std.specs.Prelude.{◌≡◌, ◌++◌, ◌<◌, ◌≤◌, [], length, take, IfOk, OnErr};
ghost use Rattle.uc_outside.specs.Count.{HasCause};

use crate::Failed;

/// A stream of bytes that comes in.
pub trait Source {
    ghost use Rattle.std.specs.Prelude.{ℕ, List};

    /// Whether sources of this type tell what is left to read.
    ghost tells: { Type 0 };

    /// The bytes that are left, where it tells them.
    ghost left: { Self → List ℕ };

    /// How often the source has failed.
    ghost faults: { Self → ℕ };

    /// Puts the next bytes at the front of the room, and says how many. No byte into room that isn't empty is the
    /// end of the input.
    fn read(&mut self, room: &mut [u8]) -> Result<usize, Failed>
        ensures within { IfOk result (λ n. n ≤ length room.old) }
        ensures read { tells → IfOk result (λ n. left self.old ≡ take n room.new ++ left self.new) }
        ensures end { tells → IfOk result (λ n. n ≡ 0 → 0 < length room.old → left self.old ≡ []) }
        ensures kept { tells → OnErr result (left self.new ≡ left self.old) }
        ensures cause { HasCause (faults self.old) (faults self.new) result };
}
