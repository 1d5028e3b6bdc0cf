//! A write that is on the disk before the next call.
ghost use Rattle.std.specs.Prelude.{◌≡◌, ◌≤◌, length};
ghost use Rattle.uc_outside.specs.Count.{HasCause};
ghost use Rattle.uc_journal.specs.Journal.{Through};

use uc_outside::{Disk, Failed};

/// Writes, and then syncs.
pub fn write_through<D: Disk>(disk: &mut D, at: u64, bytes: &[u8]) -> Result<(), Failed>
    requires { D.tells → at ≤ length (D.view disk.old).seen }
    ensures told { D.tells → Through at bytes.now (D.view disk.old) (D.view disk.new) result }
    ensures place { D.place disk.new ≡ D.place disk.old }
    ensures cause { HasCause (D.faults disk.old) (D.faults disk.new) result }
{
    disk.write_at(at, bytes)?;
    disk.sync()
}
