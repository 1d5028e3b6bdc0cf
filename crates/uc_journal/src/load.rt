//! Reads a journal from a disk.
ghost use Rattle.std.specs.Prelude.{◌≡◌, ◌≢◌, ◌⊎◌, ◌<◌, ◌≤◌, List, ℕ, length, take, IfOk, IfErr, IsErrOf};
ghost use Rattle.uc_base.specs.declared.fault.Fault.TheVariants.{NotACodebase, Damaged, JournalFault};
ghost use Rattle.uc_outside.specs.Count.{Rose};
ghost use Rattle.uc_outside.specs.Disk.{Rests};
ghost use Rattle.uc_journal.specs.Refused.{ReadFault};
ghost use Rattle.uc_journal.specs.Text.{text_limit, mark, front, IsTextOf, IsDamagedAt};

use crate::read::read_records;
use crate::tail::MAX_TEXT;
use std::alloc::Global;
use uc_base::{Bytes, Fault};
use uc_outside::Disk;

/// Reads as much of a file as a text may have, in one piece, and finds its payloads and its closed gate.
pub fn load<D: Disk>(alloc: Global, disk: &mut D, len: u64) -> Result<(u64, Vec<Bytes>), Fault>
    requires long { 9 < len }
    requires size { D.tells → len ≡ length (D.view disk.old).seen }
    ensures told { D.tells → Rests (D.view disk.old) (D.view disk.new) }
    ensures text { D.tells → IfOk result (λ found. IsTextOf found.1.items (D.view disk.old).seen) }
    ensures gate { IfOk result (λ found. found.0 ≡ length (front found.1.items)) }
    ensures small { IfOk result (λ found. found.0 < text_limit) }
    ensures unmarked { D.tells → IsErrOf result NotACodebase → take 8 (D.view disk.old).seen ≢ mark }
    ensures damaged { D.tells → (at : ℕ) → IsErrOf result (Damaged at) → IsDamagedAt at (D.view disk.old).seen }
    ensures fault { IfErr result (λ fault. ReadFault fault ⊎ ((fault ≡ JournalFault) × Rose (D.faults disk.old) (D.faults disk.new))) }
    ensures counts { D.faults disk.old ≤ D.faults disk.new }
    ensures place { D.place disk.new ≡ D.place disk.old }
{
    let mut bytes = Vec::new(alloc);
    bytes.resize(len.min(MAX_TEXT) as usize, 0)?;
    match disk.read_at(0, bytes.as_mut_slice()) {
        Ok(()) => read_records(alloc, &bytes),
        Err(_) => Err(Fault::JournalFault),
    }
}
