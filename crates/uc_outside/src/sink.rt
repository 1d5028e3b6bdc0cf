//! What is written.
ghost use Rattle.std.specs.Prelude.{◌≡◌, ◌++◌, ◌<◌, ◌≤◌, length, take, IfOk, OnErr};
ghost use Rattle.uc_outside.specs.Count.{HasCause};

use crate::Failed;

/// A stream of bytes that goes out.
pub trait Sink {
    ghost use Rattle.std.specs.Prelude.{ℕ, List};

    /// Whether sinks of this type tell what was written.
    ghost tells: { Type 0 };

    /// The bytes that were taken, where it tells them.
    ghost taken: { Self → List ℕ };

    /// How often the sink has failed.
    ghost faults: { Self → ℕ };

    /// Takes bytes from the front of the piece, and says how many: at least one of a piece that isn't empty.
    fn write(&mut self, bytes: &[u8]) -> Result<usize, Failed>
        ensures within { IfOk result (λ n. n ≤ length bytes.now) }
        ensures some { IfOk result (λ n. 0 < length bytes.now → 0 < n) }
        ensures written { tells → IfOk result (λ n. taken self.new ≡ taken self.old ++ take n bytes.now) }
        ensures kept { tells → OnErr result (taken self.new ≡ taken self.old) }
        ensures cause { HasCause (faults self.old) (faults self.new) result };

    /// Passes on what was taken.
    fn flush(&mut self) -> Result<(), Failed>
        ensures kept { tells → taken self.new ≡ taken self.old }
        ensures cause { HasCause (faults self.old) (faults self.new) result };
}
