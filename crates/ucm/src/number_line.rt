//! The one form of text that is built so far: `NAME = NAT` and a line feed.
ghost use Rattle.std.specs.Prelude.{◌≡◌, ◌≤◌, ◌<◌, ◌⊎◌, ℕ, List, [], ◌∷◌, ◌++◌, length, take, drop, IfOk, IfErr, IsErrOf, IsTrue, ◌↔◌, true, MatchOption, IfSome, IsSomeAnd, slice_index};
ghost use Rattle.std.specs.List.{list_all};
ghost use Rattle.std.specs.Str.Parse.{digits_value};
ghost use Rattle.uc_base.specs.Name.{IsPath};
ghost use Rattle.uc_base.specs.declared.fault.Fault.TheVariants.{Memory, NotBuilt};
ghost use Rattle.ucm.specs.NumberLine.{IsNumberLine, IsParted, CanStandFor, is_no_space};

use std::alloc::Global;
use uc_base::{Fault, Name, builtin_number_of, read_decimal};

/// How many digits a number may have, leading zeros among them.
const MOST_DIGITS: usize = 20;

/// A name and the number that it is to stand for.
#[derive(Drop)]
pub struct NumberLine {
    pub name: Name,
    pub number: u64,
}

/// How many bytes stand before the first space, or in all.
fn before_space(text: &[u8]) -> usize
    ensures within { result ≤ length text.now }
    ensures before { list_all is_no_space (take result text.now) ≡ true }
    ensures space { result < length text.now → slice_index text.now result ≡ 32 }
{
    for (i, byte) in text.iter().enumerate() {
        if *byte == b' ' {
            return i;
        }
    }
    text.len()
}

/// What stands behind ` = `.
fn behind_equals(text: &[u8]) -> Option<&[u8]>
    ensures { MatchOption result ((rest : List ℕ) → text.now ≡ 32 ∷ 61 ∷ 32 ∷ rest → ⊥) (λ rest. text.now ≡ 32 ∷ 61 ∷ 32 ∷ rest.now) }
{
    match text {
        [b' ', b'=', b' ', rest @ ..] => Some(rest),
        _ => None,
    }
}

/// What stands before the line feed at the end.
fn before_line_feed(text: &[u8]) -> Option<&[u8]>
    ensures { MatchOption result ((line : List ℕ) → text.now ≡ line ++ 10 ∷ [] → ⊥) (λ line. text.now ≡ line.now ++ 10 ∷ []) }
{
    match text {
        [line @ .., b'\n'] => Some(line),
        _ => None,
    }
}

/// The front before the first space, and what stands between ` = ` and the line feed.
fn parts_of(text: &[u8]) -> Option<(&[u8], &[u8])>
    ensures some { IfSome result (λ parts. IsParted text.now parts.0.now parts.1.now) }
    ensures only { (name digits : List ℕ) → IsParted text.now name digits → IsSomeAnd result (λ parts. (parts.0.now ≡ name) × (parts.1.now ≡ digits)) }
{
    let end = before_space(text);
    match behind_equals(&text[end..]) {
        None => None,
        Some(rest) => match before_line_feed(rest) {
            None => None,
            Some(digits) => Some((&text[..end], digits)),
        },
    }
}

/// The number that the digits spell, where that name may stand for it.
fn number_for(name: &[u8], digits: &[u8]) -> Option<u64>
    ensures { MatchOption result (CanStandFor name.now digits.now → ⊥) (λ number. CanStandFor name.now digits.now × (number ≡ digits_value 10 digits.now)) }
{
    if digits.len() > MOST_DIGITS || builtin_number_of(name).is_some() {
        return None;
    }
    read_decimal(digits)
}

/// The name that a text is, where it is a path.
fn path_of(alloc: Global, text: &[u8]) -> Result<Option<Name>, Fault>
    ensures path { IfOk result (λ path. MatchOption path (IsPath text.now → ⊥) (λ name. (name ≡ text.now) × IsPath text.now)) }
    ensures refused { IfErr result (λ fault. fault ≡ Memory) }
{
    match Name::parse(alloc, text) {
        Ok(name) => {
            if name.is_path() {
                Ok(Some(name))
            } else {
                Ok(None)
            }
        }
        Err(Fault::BadName) => Ok(None),
        Err(fault) => Err(fault),
    }
}

/// Reads the one line. `NotBuilt` where the text isn't of the form.
pub fn read_number_line(alloc: Global, text: &[u8]) -> Result<NumberLine, Fault>
    ensures found { IfOk result (λ line. (digits : List ℕ) × IsNumberLine text.now line.name digits × (line.number ≡ digits_value 10 digits)) }
    ensures none { IsErrOf result NotBuilt → (name digits : List ℕ) → IsNumberLine text.now name digits → ⊥ }
    ensures refused { IfErr result (λ fault. (fault ≡ NotBuilt) ⊎ (fault ≡ Memory)) }
{
    let Some((name, digits)) = parts_of(text) else {
        return Err(Fault::NotBuilt);
    };
    let Some(number) = number_for(name, digits) else {
        return Err(Fault::NotBuilt);
    };
    match path_of(alloc, name)? {
        Some(name) => Ok(NumberLine { name, number }),
        None => Err(Fault::NotBuilt),
    }
}
