//! Reading the text from the input.
ghost use Rattle.std.specs.Prelude.{◌≡◌, ◌++◌, ◌<◌, ◌≤◌, ◌+◌, ◌-◌, ◌⊎◌, true, List, [], ℕ, length, IfOk, IfErr, IsErrOf};
ghost use Rattle.uc_base.specs.declared.fault.Fault.TheVariants.{InputFault, Memory, TextTooLong};
ghost use Rattle.uc_outside.specs.Count.{Rose};
ghost use Rattle.ucm.specs.Program.{text_limit};
ghost use Rattle.ucm.specs.Reading.{Consumes, HasRead};

use std::alloc::Global;
use uc_base::Fault;
use uc_outside::Source;

/// The most bytes of a scratch text.
pub const TEXT_LIMIT: usize = 262_144;

/// How many bytes are asked of the input at once.
const PIECE: usize = 8_192;

/// Appends the next piece of the input, and says whether the input goes on.
fn read_piece<I: Source>(input: &mut I, text: &mut Vec<u8>) -> Result<bool, Fault>
    requires { length text.old.items ≤ text_limit }
    ensures read { I.tells → IfOk result (λ more. HasRead (I.left input.old) (I.left input.new) text.old.items text.new.items more) }
    ensures taken { I.tells → Consumes (I.left input.old) (I.left input.new) (text_limit + 1 - length text.old.items) }
    ensures size { IfOk result (λ more. length text.new.items ≤ text_limit + 1) }
    ensures progress { IfOk result (λ more. more ≡ true → length text.old.items < length text.new.items) }
    ensures refused { IfErr result (λ fault. (fault ≡ Memory) ⊎ ((fault ≡ InputFault) × Rose (I.faults input.old) (I.faults input.new))) }
    ensures counts { I.faults input.old ≤ I.faults input.new }
{
    let mut piece = [0; PIECE];
    let room = PIECE.min(TEXT_LIMIT + 1 - text.len());
    let size = match input.read(&mut piece[..room]) {
        Ok(size) => size,
        Err(_) => return Err(Fault::InputFault),
    };
    text.extend_from_slice(&piece[..size])?;
    Ok(size > 0)
}

/// Reads the input to its end, or to the first byte past the limit.
pub fn read_text<I: Source>(alloc: Global, input: &mut I) -> Result<Vec<u8>, Fault>
    ensures whole { I.tells → IfOk result (λ text. (I.left input.old ≡ text.items) × (length text.items ≤ text_limit)) }
    ensures taken { I.tells → Consumes (I.left input.old) (I.left input.new) (text_limit + 1) }
    ensures long { I.tells → IsErrOf result TextTooLong → text_limit < length (I.left input.old) }
    ensures refused { IfErr result (λ fault. (fault ≡ TextTooLong) ⊎ (fault ≡ Memory) ⊎ ((fault ≡ InputFault) × Rose (I.faults input.old) (I.faults input.new))) }
    ensures counts { I.faults input.old ≤ I.faults input.new }
{
    let mut text = Vec::new(alloc);
    while read_piece(input, &mut text)? {
        if text.len() > TEXT_LIMIT {
            return Err(Fault::TextTooLong);
        }
    }
    Ok(text)
}
