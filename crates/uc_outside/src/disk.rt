//! A file as the program sees it: what a read gives, and what a crash may leave.
ghost use Rattle.std.specs.Prelude.{◌≡◌, ◌+◌, ◌≤◌, List, ℕ, length, take, drop, IfOk, OnOk};
ghost use Rattle.uc_outside.specs.Count.{HasCause};
ghost use Rattle.uc_outside.specs.Disk.{DiskView, Rests, Writes, Syncs, IsSound};

use crate::Failed;

/// One file. What it holds, and what a crash may leave of it, is told by disks of some types alone.
pub trait Disk: Drop {
    /// Whether disks of this type tell what they hold.
    ghost tells: { Type 0 };

    /// What this disk tells, where it does.
    ghost view: { Self → DiskView };

    /// Which disk this is: a disk that borrows one stays on it.
    ghost place: { Self → ℕ };

    /// How often the disk has failed.
    ghost faults: { Self → ℕ };

    fn len(&mut self) -> Result<u64, Failed>
        ensures length { tells → IfOk result (λ n. n ≡ length (view self.old).seen) }
        ensures told { tells → Rests (view self.old) (view self.new) }
        ensures place { place self.new ≡ place self.old }
        ensures cause { HasCause (faults self.old) (faults self.new) result };

    /// Fills the room with the bytes from that offset on.
    fn read_at(&mut self, at: u64, room: &mut [u8]) -> Result<(), Failed>
        requires { tells → at + length room.old ≤ length (view self.old).seen }
        ensures bytes { tells → OnOk result (room.new ≡ take (length room.old) (drop at (view self.old).seen)) }
        ensures told { tells → Rests (view self.old) (view self.new) }
        ensures place { place self.new ≡ place self.old }
        ensures cause { HasCause (faults self.old) (faults self.new) result };

    /// Writes over what is there, and past the end. Until a sync, a crash may leave any bytes in the range.
    fn write_at(&mut self, at: u64, bytes: &[u8]) -> Result<(), Failed>
        requires { tells → at ≤ length (view self.old).seen }
        ensures told { tells → Writes at bytes.now (view self.old) (view self.new) result }
        ensures place { place self.new ≡ place self.old }
        ensures cause { HasCause (faults self.old) (faults self.new) result };

    /// After it, a crash leaves what a read gives.
    fn sync(&mut self) -> Result<(), Failed>
        ensures told { tells → Syncs (view self.old) (view self.new) result }
        ensures place { place self.new ≡ place self.old }
        ensures cause { HasCause (faults self.old) (faults self.new) result };

    ghost sound: { (disk : Self) → tells → IsSound (view disk) };
}
