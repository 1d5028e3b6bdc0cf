//! Writing a text to the output.
ghost use Rattle.std.specs.Prelude.{◌≡◌, ◌++◌, ◌<◌, ◌≤◌, length, OnOk, OnErr, IfOk};
ghost use Rattle.uc_outside.specs.Count.{HasCause, Rose};
ghost use Rattle.ucm.specs.Ends.{GainsFront, IsSplit, Ends};

use uc_outside::{Failed, Sink};

/// Writes the front of a text that isn't empty, and gives the rest.
fn write_front<'a, O: Sink>(output: &mut O, text: &'a [u8]) -> Result<&'a [u8], Failed>
    requires { 0 < length text.now }
    ensures split { IfOk result (λ rest. IsSplit text.now rest.now O.tells (O.taken output.old) (O.taken output.new)) }
    ensures shorter { IfOk result (λ rest. length rest.now < length text.now) }
    ensures kept { O.tells → OnErr result (O.taken output.new ≡ O.taken output.old) }
    ensures cause { HasCause (O.faults output.old) (O.faults output.new) result }
{
    let size = output.write(text)?;
    Ok(&text[size..])
}

/// Writes all of the text and flushes it.
fn deliver<O: Sink>(output: &mut O, text: &[u8]) -> Result<(), Failed>
    ensures whole { O.tells → OnOk result (O.taken output.new ≡ O.taken output.old ++ text.now) }
    ensures cut { O.tells → OnErr result (GainsFront text.now (O.taken output.old) (O.taken output.new)) }
    ensures cause { HasCause (O.faults output.old) (O.faults output.new) result }
{
    let mut rest = text;
    while !rest.is_empty() {
        rest = write_front(output, rest)?;
    }
    output.flush()
}

/// Writes the text, and answers the status, or 5 where the output failed.
pub fn conclude<O: Sink>(output: &mut O, text: &[u8], status: u8) -> u8
    ensures ends { Ends O.tells text.now (O.taken output.old) (O.taken output.new) status (Rose (O.faults output.old) (O.faults output.new)) result }
    ensures counts { O.faults output.old ≤ O.faults output.new }
{
    match deliver(output, text) {
        Ok(()) => status,
        Err(Failed) => 5,
    }
}
