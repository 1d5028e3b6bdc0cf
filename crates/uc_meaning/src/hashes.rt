//! What hashes and the names of builtins mean.
ghost use Rattle.std.specs.Prelude.{◌≡◌, drop, take, length, ◌≤◌};
ghost use Rattle.uc_meaning.specs.Literals.{number_written as number_of_digits};
ghost use Rattle.uc_meaning.specs.Meanings as spec;
ghost use Rattle.uc_meaning.specs.Meanings.{before_mark, from_mark};

use crate::literals::number_written;
use crate::wanted::Wanted;
use uc_base::{At, FIRST_BUILTIN_TERM, Fault, Hash, Ref, Sort, builtin_number_of};
use uc_scratch::Written;
use uc_tree::{Found, Names, Target};

/// The number of a member or of a constructor.
fn small_number(digits: &[u8]) -> u32
    ensures { result ≡ number_of_digits 32 digits.now }
{
    let number = number_written(digits);
    if number < 1 << 32 { number as u32 } else { 0 }
}

/// Where the first `.` or `#` stands.
fn mark_place(text: &[u8]) -> usize
    ensures front { take result text.now ≡ before_mark text.now }
    ensures back { drop result text.now ≡ from_mark text.now }
    ensures within { result ≤ length text.now }
{
    for (i, c) in text.iter().enumerate() {
        if *c == b'.' || *c == b'#' {
            return i;
        }
    }
    text.len()
}

/// The reference to a member, or to a constructor of it behind `#`.
fn member_ref(hash: &Hash, member: u32, behind: &[u8]) -> Ref
    ensures { result ≡ spec.member_ref hash.now member behind.now }
{
    match behind {
        [] => Ref::Def(*hash, member),
        [_, ctor @ ..] => Ref::Ctor(*hash, member, small_number(ctor)),
    }
}

/// The reference that a hash and what is written behind its digits stand for.
fn ref_from(hash: &Hash, behind: &[u8]) -> Ref
    ensures { result ≡ spec.ref_from hash.now behind.now }
{
    match behind {
        [] => Ref::Def(*hash, 0),
        [b'.', rest @ ..] => {
            let mark = mark_place(rest);
            member_ref(hash, small_number(&rest[..mark]), &rest[mark..])
        }
        _ => member_ref(hash, 0, behind),
    }
}

/// Whether something is a constructor.
pub fn is_constructor(target: &Target) -> bool
    ensures { result ≡ spec.is_constructor target.now }
{
    matches!(target, Target::Stored(Ref::Ctor(..)) | Target::OwnCtor(..))
}

/// Whether a stored reference exists and is what is wanted.
fn is_held<N: Names>(names: &N, wanted: Wanted, of: &Ref) -> bool
    ensures { result ≡ spec.is_held (N.is_held names.now) wanted of.now }
{
    match wanted {
        Wanted::Kind => names.holds(Sort::Kind, of),
        Wanted::Term => names.holds(Sort::Term, of),
        Wanted::Constructor => matches!(of, Ref::Ctor(..)) && names.holds(Sort::Term, of),
    }
}

/// What a hash means: `#` and digits, with which exactly one stored hash begins.
pub fn hash_meaning<N: Names>(names: &N, wanted: Wanted, written: &Written) -> Result<Target, Fault>
    ensures { result ≡ spec.hash_meaning (N.hashes names.now) (N.is_held names.now) wanted written.now }
{
    let text = behind_bytes(written.text.as_slice(), 1);
    let mark = mark_place(text);
    match names.by_prefix(&text[..mark]) {
        Found::None => Err(Fault::NoSuchHash(At::Place(written.place))),
        Found::Many => Err(Fault::AmbiguousHash(At::Place(written.place))),
        Found::One(hash) => {
            let of = ref_from(&hash, &text[mark..]);
            if is_held(names, wanted, &of) {
                Ok(Target::Stored(of))
            } else {
                Err(Fault::NoSuchHash(At::Place(written.place)))
            }
        }
    }
}

/// Whether a builtin is what is wanted.
fn is_wanted_builtin(wanted: Wanted, number: u16) -> bool
    ensures { result ≡ spec.is_wanted_builtin wanted number }
{
    match wanted {
        Wanted::Kind => number < FIRST_BUILTIN_TERM,
        Wanted::Term => number >= FIRST_BUILTIN_TERM,
        Wanted::Constructor => false,
    }
}

/// What `##` and a name of the table mean.
pub fn builtin_meaning(wanted: Wanted, written: &Written) -> Result<Target, Fault>
    ensures { result ≡ spec.builtin_meaning wanted written.now }
{
    match builtin_number_of(behind_bytes(written.text.as_slice(), 2)) {
        Some(number) if is_wanted_builtin(wanted, number) => {
            Ok(Target::Stored(Ref::Builtin(number)))
        }
        _ => Err(Fault::NoSuchHash(At::Place(written.place))),
    }
}

/// What stands behind so many bytes.
fn behind_bytes(text: &[u8], count: usize) -> &[u8]
    ensures { result.now ≡ drop count text.now }
{
    if count <= text.len() {
        &text[count..]
    } else {
        &[]
    }
}
