//! Reads the records of a text.
ghost use Rattle.std.specs.Prelude.{◌≡◌, ◌≢◌, ◌+◌, ◌<◌, ◌≤◌, ◌^◌, List, ℕ, [], ◌∷◌, ◌++◌, length, take, drop, IfOk, IfErr, IfSome, IsNone, IsErrOf};
ghost use Rattle.uc_base.specs.declared.fault.Fault.TheVariants.{NotACodebase, Damaged, Memory};
ghost use Rattle.uc_journal.specs.Text.{text_limit, mark, framed, front, IsTextOf, IsDamagedAt};
ghost use Rattle.uc_journal.specs.Refused.{ReadFault};

use crate::tail::MAX_TEXT;
use std::alloc::Global;
use uc_base::{Bytes, Fault};

pub const MARK: [u8; 8] = *b"UCJRNL01";

// The payload of the record at the front of these bytes, if it is whole and smaller than the room.
fn record_at(bytes: &[u8], room: usize) -> Option<&[u8]>
    requires { room ≤ text_limit }
    ensures some { IfSome result (λ payload. bytes.now ≡ framed payload.now ++ drop (4 + length payload.now) bytes.now) }
    ensures size { IfSome result (λ payload. length payload.now + 4 < length bytes.now) }
    ensures fits { IfSome result (λ payload. length payload.now + 5 < room) }
    ensures none { IsNone result → (payload : List ℕ) (gate : ℕ) (rest : List ℕ) → bytes.now ≡ framed payload ++ gate ∷ rest → room ≤ length payload + 5 }
{
    if bytes.len() < 5 {
        return None;
    }
    let size = u32::from_be_bytes([bytes[0], bytes[1], bytes[2], bytes[3]]) as usize;
    if size >= bytes.len() - 4 || size + 5 >= room {
        return None;
    }
    Some(&bytes[4..4 + size])
}

/// The payloads of a text, and where its closed gate stands.
pub fn read_records(alloc: Global, bytes: &[u8]) -> Result<(u64, Vec<Bytes>), Fault>
    requires { 9 < length bytes.now }
    ensures text { IfOk result (λ found. IsTextOf found.1.items bytes.now) }
    ensures gate { IfOk result (λ found. found.0 ≡ length (front found.1.items)) }
    ensures small { IfOk result (λ found. found.0 < text_limit) }
    ensures unmarked { IsErrOf result NotACodebase → take 8 bytes.now ≢ mark }
    ensures damaged { (at : ℕ) → IsErrOf result (Damaged at) → IsDamagedAt at bytes.now }
    ensures fault { IfErr result ReadFault }
{
    if &bytes[..8] != MARK.as_slice() {
        return Err(Fault::NotACodebase);
    }
    let mut payloads = Vec::new(alloc);
    let mut gate = 8;
    while bytes[gate] == 1 {
        let Some(payload) = record_at(&bytes[gate + 1..], MAX_TEXT as usize - gate) else {
            return Err(Fault::Damaged(gate as u64));
        };
        gate += payload.len() + 5;
        payloads.push(Bytes::from_slice(alloc, payload)?)?;
    }
    Ok((gate as u64, payloads))
}
