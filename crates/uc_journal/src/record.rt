//! A payload as it is written.
ghost use Rattle.std.specs.Prelude.{◌≡◌, ◌+◌, ◌<◌, ◌^◌, [], ◌∷◌, ◌++◌, length, IfOk, IfErr};
ghost use Rattle.uc_base.specs.declared.fault.Fault.TheVariants.{Memory};
ghost use Rattle.uc_journal.specs.Text.{framed};

use std::alloc::Global;
use std::marker::Model;
use uc_base::Fault;

/// A payload with its length in front and a closed gate behind, ready to be written.
#[derive(Debug, Drop)]
pub struct Record {
    bytes: Vec<u8>,
}

impl Model for Record {
    ghost use Rattle.std.specs.Prelude.{List, ℕ};
    ghost use Rattle.uc_journal.specs.Text.{payload_of, IsPacked};

    ghost Value = { List ℕ };

    ghost view = { λ r. payload_of r.bytes.items };

    ghost invariant = { λ r. IsPacked r.bytes.items };
}

/// Packs a payload. It is copied here, and not again when it is appended.
pub fn pack(alloc: Global, payload: &[u8]) -> Result<Record, Fault>
    requires { length payload.now < 2 ^ 32 }
    ensures packed { IfOk result (λ packed. packed ≡ payload.now) }
    ensures fault { IfErr result (λ fault. fault ≡ Memory) }
{
    let mut bytes = Vec::with_capacity(alloc, payload.len() + 5)?;
    bytes.extend_from_slice(&(payload.len() as u32).to_be_bytes())?;
    bytes.extend_from_slice(payload)?;
    bytes.push(0)?;
    Ok(Record { bytes })
}

impl Record {
    // What is written behind a gate.
    pub fn bytes(&self) -> &[u8]
        ensures written { result.now ≡ framed self.now ++ 0 ∷ [] }
        ensures size { length result.now ≡ length self.now + 5 }
    {
        &self.bytes
    }
}
