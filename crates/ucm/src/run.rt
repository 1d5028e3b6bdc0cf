//! The top call.
ghost use Rattle.std.specs.Prelude.{◌≡◌, ◌≤◌, ◌⊎◌, ◌+◌, ◌++◌, ℕ, List, IfOk, IfErr};
ghost use Rattle.uc_base.specs.declared.fault.Fault.TheVariants.{Memory};
ghost use Rattle.uc_outside.specs.Count.{Rose};
ghost use Rattle.ucm.specs.Program.{IsAdd, refusal_text, status_at, status_of, texts_of, text_limit};
ghost use Rattle.ucm.specs.Ends.{Does, Ends, EndsRefused, StandsAfterFault};
ghost use Rattle.ucm.specs.Reading.{Consumes};

use crate::adding::respond;
use crate::output::conclude;
use std::alloc::Global;
use uc_base::{Bytes, Fault};
use uc_outside::{Disk, Sink, Source};

/// The line of a fault, with its line feed.
fn refusal(alloc: Global, fault: &Fault) -> Result<Bytes, Fault>
    ensures text { IfOk result (λ text. text ≡ refusal_text fault.now) }
    ensures err { IfErr result (λ e. e ≡ Memory) }
{
    let line = fault.line(alloc)?;
    let mut out = Vec::new(alloc);
    out.extend_from_slice(line.as_slice())?;
    out.push(b'\n')?;
    Ok(Bytes::from_vec(out))
}

fn status_for(number: u8) -> u8
    ensures { result ≡ status_at number }
{
    match number {
        0..=16 | 33 | 39 => 2,
        60 => 3,
        43 | 44 => 4,
        50 => 6,
        17..=41 => 1,
        _ => 5,
    }
}

/// Writes the line of a fault, or that of `Memory` where there is none to make it.
fn refuse<O: Sink>(alloc: Global, output: &mut O, fault: &Fault) -> u8
    ensures ends { EndsRefused O.tells fault.now (O.taken output.old) (O.taken output.new) (Rose (O.faults output.old) (O.faults output.new)) result }
    ensures counts { O.faults output.old ≤ O.faults output.new }
{
    match refusal(alloc, fault) {
        Ok(text) => conclude(output, text.as_slice(), status_for(fault.number())),
        Err(_) => conclude(output, b"refused 50 Memory\n", 6),
    }
}

/// Does everything that `ucm` does: reads the words, reads the input where the action takes text, writes the answer
/// and answers the status. Status 6 says that memory ran out.
pub fn run<I: Source, O: Sink, D: Disk>(
    alloc: Global,
    words: &[String],
    input: &mut I,
    output: &mut O,
    disk: &mut D,
) -> u8
    ensures done { I.tells → O.tells → (result ≡ 5 → ⊥) → (result ≡ 6 → ⊥) → Does (texts_of words.now) (I.left input.old) (O.taken output.old) (O.taken output.new) result }
    ensures usage { result ≡ 3 → IsAdd (texts_of words.now) → ⊥ }
    ensures words { (IsAdd (texts_of words.now) → ⊥) → (input.new ≡ input.old) × ((result ≡ 3) ⊎ (result ≡ 5) ⊎ (result ≡ 6)) }
    ensures fault { result ≡ 5 → Rose (I.faults input.old) (I.faults input.new) ⊎ Rose (O.faults output.old) (O.faults output.new) }
    ensures fault_text { I.tells → O.tells → result ≡ 5 → StandsAfterFault (texts_of words.now) (I.left input.old) (O.taken output.old) (O.taken output.new)
        (Rose (I.faults input.old) (I.faults input.new)) (Rose (O.faults output.old) (O.faults output.new)) }
    ensures memory_text { O.tells → result ≡ 6 → O.taken output.new ≡ O.taken output.old ++ refusal_text Memory }
    ensures taken { I.tells → Consumes (I.left input.old) (I.left input.new) (text_limit + 1) }
    ensures disk { disk.new ≡ disk.old }
    ensures counts { (I.faults input.old ≤ I.faults input.new) × (O.faults output.old ≤ O.faults output.new) }
{
    let _ = disk;
    match respond(alloc, words, input) {
        Ok(text) => conclude(output, text.as_slice(), 0),
        Err(fault) => refuse(alloc, output, &fault),
    }
}
