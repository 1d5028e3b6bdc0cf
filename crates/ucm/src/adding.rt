//! What `add` of one number answers.
ghost use Rattle.std.specs.Prelude.{◌≡◌, ◌≤◌, ◌<◌, ◌⊎◌, ℕ, List, map, length, IfOk, IfErr, IsErrOf, IsTrue, ◌↔◌, ◌+◌, codes};
ghost use Rattle.uc_base.specs.declared.fault.Fault.TheVariants.{InputFault, Memory, NotBuilt, TextTooLong, Usage};
ghost use Rattle.uc_outside.specs.Count.{Rose};
ghost use Rattle.uc_outside.specs.Digests.{sha512_hash};
ghost use Rattle.ucm.specs.Program.{IsAdd, Runs, number_reference, added_text, refusal_text, status_of, texts_of, text_limit};
ghost use Rattle.ucm.specs.Reading.{Consumes};
ghost use Rattle.ucm.specs.Ends.{RefusesFor};

use crate::input::read_text;
use crate::number_line::{NumberLine, read_number_line};
use std::alloc::Global;
use uc_base::{Bytes, Fault, Ref};
use uc_canon::{Component, write_component};
use uc_outside::{Digester, Sha512Digester, Source};
use uc_tree::{Definition, Literal, Term};

/// The reference of the definition that a number makes.
fn reference_of(alloc: Global, number: u64) -> Result<Ref, Fault>
    ensures reference { IfOk result (λ reference. reference ≡ number_reference number) }
    ensures err { IfErr result (λ fault. fault ≡ Memory) }
{
    let mut members = Vec::new(alloc);
    members.push(Definition {
        signature: None,
        body: Term::literal(Literal::Nat(number)),
    })?;
    let text = write_component(alloc, &Component::Terms(members))?;
    Ok(Ref::Def(Sha512Digester.digest(text.as_slice()), 0))
}

/// `added term NAME REF`, with its line feed.
fn added(alloc: Global, line: &NumberLine) -> Result<Bytes, Fault>
    ensures text { IfOk result (λ text. text ≡ added_text line.now.name line.now.number) }
    ensures err { IfErr result (λ fault. fault ≡ Memory) }
{
    let reference = reference_of(alloc, line.number)?;
    let mut out = Vec::new(alloc);
    out.extend_from_slice(b"added term ")?;
    out.extend_from_slice(line.name.text())?;
    out.push(b' ')?;
    reference.write_text(&mut out)?;
    out.push(b'\n')?;
    Ok(Bytes::from_vec(out))
}

fn is_add_word(word: &str) -> bool
    ensures { IsTrue result ↔ (word.now ≡ codes "add") }
{
    word == "add"
}

fn is_add(words: &[String]) -> bool
    ensures { IsTrue result ↔ IsAdd (texts_of words.now) }
{
    match words {
        [] => false,
        [word, rest @ ..] => rest.is_empty() && is_add_word(word.as_str()),
    }
}

/// Reads the words, and the input where they ask for it, and gives the reply. No byte is read for other words.
pub fn respond<I: Source>(alloc: Global, words: &[String], input: &mut I) -> Result<Bytes, Fault>
    ensures reply { I.tells → IfOk result (λ text. Runs (texts_of words.now) (I.left input.old) text 0) }
    ensures refusal { IfErr result (λ fault. RefusesFor I.tells (texts_of words.now) (I.left input.old) (Rose (I.faults input.old) (I.faults input.new)) fault) }
    ensures usage { IsErrOf result Usage → IsAdd (texts_of words.now) → ⊥ }
    ensures words { (IsAdd (texts_of words.now) → ⊥) → (input.new ≡ input.old) × IsErrOf result Usage }
    ensures taken { I.tells → Consumes (I.left input.old) (I.left input.new) (text_limit + 1) }
    ensures counts { I.faults input.old ≤ I.faults input.new }
{
    if !is_add(words) {
        return Err(Fault::Usage);
    }
    let text = read_text(alloc, input)?;
    let line = read_number_line(alloc, &text)?;
    added(alloc, &line)
}
