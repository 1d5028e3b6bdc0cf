//! A new journal on a disk.
ghost use Rattle.std.specs.Prelude.{◌≡◌, ◌≤◌, List, ℕ, [], None, false, length, OnOk};
ghost use Rattle.uc_outside.specs.Count.{HasCause};
ghost use Rattle.uc_outside.specs.Disk.{LeavesOnly};
ghost use Rattle.uc_journal.specs.Journal.{KeepsAt, IsShort};
ghost use Rattle.uc_journal.specs.Reaches.{Reaches};

use crate::read::MARK;
use crate::through::write_through;
use uc_outside::{Disk, Failed};

/// Makes a journal without records. The mark comes when the closed gate is on the disk.
pub fn begin<D: Disk>(disk: &mut D) -> Result<(), Failed>
    ensures made { D.tells → IsShort (D.view disk.old) → OnOk result (KeepsAt D.tells (D.view disk.new) 8 false [] None) }
    ensures reaches { D.tells → OnOk result (Reaches (D.view disk.new) 8) }
    ensures any_moment { D.tells → IsShort (D.view disk.old) → LeavesOnly (D.view disk.old) (D.view disk.new) (λ c. length c ≤ 9) }
    ensures cause { HasCause (D.faults disk.old) (D.faults disk.new) result }
    ensures place { D.place disk.new ≡ D.place disk.old }
{
    write_through(disk, 0, &[0; 9])?;
    write_through(disk, 0, &MARK)
}
