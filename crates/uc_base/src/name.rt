//! Names: segments joined by dots.
ghost use Rattle.std.specs.Prelude.{◌≡◌, ◌≢◌, ℕ, ◌<◌, ◌↔◌, Bool, true, List, [], ◌∷◌, Some, refl, length, nat_eq, IsTrue, IsOk, IfOk, IfErr, IsErrOf, MatchOption, ◌⊎◌, ⊤, ◌++◌};
ghost use Rattle.std.specs.List.{list_all};
ghost use Rattle.std.specs.Ordering.{nat_cmp};
ghost use Rattle.std.specs.Cmp.Lexicographic.{pointwise, slice_cmp, nat_list_eq_equiv, nat_list_cmp_total, texts_ties, texts_po};
ghost use Rattle.std.specs.Cmp.{partial_equiv_from_equiv};
ghost use Rattle.uc_base.specs.Name as spec;
ghost use Rattle.uc_base.specs.Name.{IsName, IsPath, IsSuffix, IsBelow, segments_of, are_segments};

use crate::bytes::Bytes;
use crate::fault::Fault;
use std::alloc::{AllocError, Global};
use std::cmp::Ordering;
use std::marker::Model;

/// A letter or `_`.
pub fn is_letter(c: u8) -> bool
    ensures { result ≡ spec.is_letter c }
{
    matches!(c, b'a'..=b'z' | b'A'..=b'Z' | b'_')
}

/// A decimal digit.
pub fn is_digit(c: u8) -> bool
    ensures { result ≡ spec.is_digit c }
{
    matches!(c, b'0'..=b'9')
}

/// A character that may follow the first of a wordy segment.
pub fn is_wordy(c: u8) -> bool
    ensures { result ≡ spec.is_wordy c }
{
    is_letter(c) || is_digit(c) || c == b'\'' || c == b'!'
}

/// A character of an operator segment.
pub fn is_operator(c: u8) -> bool
    ensures { result ≡ spec.is_operator c }
{
    matches!(
        c,
        b'!' | b'$'..=b'&' | b'*'..=b'+' | b'-' | b'/' | b':' | b'<'..=b'>' | b'^' | b'|' | b'~'
    )
}

/// A keyword that the grammar uses.
pub fn is_keyword(text: &[u8]) -> bool
    ensures { result ≡ spec.is_keyword text.now }
{
    text == b"if".as_slice()
        || text == b"then".as_slice()
        || text == b"else".as_slice()
        || text == b"match".as_slice()
        || text == b"with".as_slice()
        || text == b"cases".as_slice()
        || text == b"let".as_slice()
        || text == b"use".as_slice()
        || text == b"type".as_slice()
        || text == b"structural".as_slice()
        || text == b"unique".as_slice()
        || text == b"forall".as_slice()
        || text == b"true".as_slice()
        || text == b"false".as_slice()
}

/// A word of Unison that the grammar leaves out.
pub fn is_left_out(text: &[u8]) -> bool
    ensures { result ≡ spec.is_left_out text.now }
{
    text == b"ability".as_slice()
        || text == b"handle".as_slice()
        || text == b"do".as_slice()
        || text == b"termLink".as_slice()
        || text == b"typeLink".as_slice()
        || text == b"namespace".as_slice()
}

/// An operator that the grammar uses.
pub fn is_reserved(text: &[u8]) -> bool
    ensures { result ≡ spec.is_reserved text.now }
{
    text == b"=".as_slice()
        || text == b"->".as_slice()
        || text == b":".as_slice()
        || text == b"|".as_slice()
        || text == b"&&".as_slice()
        || text == b"||".as_slice()
}

fn are_wordy(text: &[u8]) -> bool
    ensures { result ≡ list_all spec.is_wordy text.now }
{
    text.iter().all(|c| is_wordy(*c))
}

fn are_operators(text: &[u8]) -> bool
    ensures { result ≡ list_all spec.is_operator text.now }
{
    text.iter().all(|c| is_operator(*c))
}

fn has_word_form(text: &[u8]) -> bool
    ensures { result ≡ spec.has_word_form text.now }
{
    match text {
        [] => false,
        [c, rest @ ..] => is_letter(*c) && are_wordy(rest),
    }
}

fn has_operator_form(text: &[u8]) -> bool
    ensures { result ≡ spec.has_operator_form text.now }
{
    match text {
        [] => false,
        [c, rest @ ..] => is_operator(*c) && are_operators(rest),
    }
}

/// Whether a text begins a comment.
pub fn begins_comment(text: &[u8]) -> bool
    ensures { result ≡ spec.begins_comment text.now }
{
    match text {
        [c, d, ..] => *c == b'-' && *d == b'-',
        _ => false,
    }
}

/// Whether a text is a wordy segment.
fn is_word(text: &[u8]) -> bool
    ensures { result ≡ spec.is_word text.now }
{
    has_word_form(text) && !(is_keyword(text) || is_left_out(text) || text == b"_".as_slice())
}

/// Whether a text is an operator segment.
fn is_operator_segment(text: &[u8]) -> bool
    ensures { result ≡ spec.is_operator_segment text.now }
{
    has_operator_form(text)
        && !(is_reserved(text) || text == b"!".as_slice() || begins_comment(text))
}

/// The first segment of a text, and what stands behind its dot; `None` where there is no dot.
pub fn first_segment(text: &[u8]) -> Option<(&[u8], &[u8])>
    ensures segments { MatchOption result (segments_of text.now ≡ text.now ∷ [])
        (λ x. segments_of text.now ≡ x.0.now ∷ segments_of x.1.now) }
    ensures shorter { MatchOption result ⊤ (λ x. length x.1.now < length text.now) }
{
    for (i, c) in text.iter().enumerate() {
        if *c == b'.' {
            return Some((&text[..i], &text[i + 1..]));
        }
    }
    None
}

/// Whether a text is one to many segments joined by dots.
fn are_segments(text: &[u8]) -> bool
    ensures { result ≡ spec.are_segments (segments_of text.now) }
{
    let mut rest = text;
    'segments: loop {
        match first_segment(rest) {
            None => return is_word(rest) || is_operator_segment(rest),
            Some((segment, after)) => {
                if !is_word(segment) {
                    return false;
                }
                rest = after;
            }
        }
    }
}

/// Whether the segments of a text are all wordy.
fn are_words(text: &[u8]) -> bool
    ensures { result ≡ list_all spec.is_word (segments_of text.now) }
{
    let mut rest = text;
    'segments: loop {
        match first_segment(rest) {
            None => return is_word(rest),
            Some((segment, after)) => {
                if !is_word(segment) {
                    return false;
                }
                rest = after;
            }
        }
    }
}

/// How many bytes a name may have.
pub const NAME_LIMIT: usize = 128;

/// Whether a text is a name.
pub fn is_name(text: &[u8]) -> bool
    ensures value { result ≡ spec.is_name text.now }
    ensures name { IsTrue result ↔ IsName text.now }
{
    text.len() <= NAME_LIMIT && are_segments(text)
}

/// A name: one to many segments joined by dots. Contracts see its text.
#[derive(Debug, Drop)]
pub struct Name {
    text: Bytes,
}

impl Model for Name {
    ghost use Rattle.std.specs.Prelude.{List, ℕ};
    ghost use Rattle.uc_base.specs.Name.{IsName};

    ghost Value = { List ℕ };

    ghost view = { λ n. n.text };

    ghost invariant = { λ n. IsName n.text };
}

impl Name {
    /// The name that a text is. `BadName` where it is none.
    pub fn parse(alloc: Global, text: &[u8]) -> Result<Name, Fault>
        ensures value { IfOk result (λ name. name ≡ text.now) }
        ensures name { IfOk result (λ name. IsName name) }
        ensures bad { IsErrOf result Fault.BadName ↔ ¬ IsName text.now }
        ensures faults { IfErr result (λ f. (f ≡ Fault.BadName) ⊎ (f ≡ Fault.Memory)) }
    {
        if !is_name(text) {
            return Err(Fault::BadName);
        }
        Ok(Name {
            text: Bytes::from_slice(alloc, text)?,
        })
    }

    /// A second owner of the name.
    pub fn copy(&self, alloc: Global) -> Result<Name, AllocError>
        ensures { IfOk result (λ name. name ≡ self.now) }
    {
        Ok(Name {
            text: Bytes::from_slice(alloc, self.text.as_slice())?,
        })
    }

    /// The text, lent.
    pub fn text(&self) -> &[u8]
        ensures value { result.now ≡ self.now }
        ensures name { IsName self.now }
    {
        self.text.as_slice()
    }

    /// Whether the last segment is wordy.
    pub fn is_path(&self) -> bool
        ensures { IsTrue result ↔ IsPath self.now }
    {
        are_words(self.text())
    }

    /// Whether this name is the other, or stands behind one of its dots.
    pub fn is_suffix_of(&self, other: &Name) -> bool
        ensures { IsTrue result ↔ IsSuffix self.now other.now }
    {
        match front_before(other.text(), self.text()) {
            None => false,
            Some([]) => true,
            Some([.., last]) => *last == b'.',
        }
    }

    /// Whether the prefix and a dot stand before the rest of this name.
    pub fn is_below(&self, prefix: &Name) -> bool
        ensures { IsTrue result ↔ IsBelow self.now prefix.now }
    {
        match rest_behind(self.text(), prefix.text()) {
            None | Some([]) => false,
            Some([first, ..]) => *first == b'.',
        }
    }
}

/// What stands before the end of a text.
fn front_before<'a>(text: &'a [u8], end: &[u8]) -> Option<&'a [u8]>
    ensures { MatchOption result ((front : List ℕ) → text.now ≢ front ++ end.now) (λ x. text.now ≡ x.now ++ end.now) }
{
    text.strip_suffix(end)
}

/// What stands behind the front of a text.
fn rest_behind<'a>(text: &'a [u8], front: &[u8]) -> Option<&'a [u8]>
    ensures { MatchOption result ((rest : List ℕ) → text.now ≢ front.now ++ rest) (λ x. text.now ≡ front.now ++ x.now) }
{
    text.strip_prefix(front)
}

impl PartialEq for Name {
    ghost eq = { pointwise nat_eq };

    ghost laws = { partial_equiv_from_equiv nat_list_eq_equiv };

    fn eq(&self, other: &Name) -> bool {
        self.text() == other.text()
    }
}

impl Eq for Name {
    ghost laws = { nat_list_eq_equiv };
}

impl PartialOrd for Name {
    ghost partial_cmp = { λ x y. Some (slice_cmp nat_cmp x y) };

    ghost laws = { texts_po };

    fn partial_cmp(&self, other: &Name) -> Option<Ordering> {
        Some(self.cmp(other))
    }
}

/// The byte order of the texts.
impl Ord for Name {
    ghost cmp = { slice_cmp nat_cmp };

    ghost total = { nat_list_cmp_total };

    ghost matches_partial_cmp = { λ x y. refl };

    ghost matches_eq = { texts_ties };

    fn cmp(&self, other: &Name) -> Ordering {
        self.text().cmp(other.text())
    }
}

#[cfg(test)]
mod tests {
    use super::*;
    use std::test::Fail;

    #[test]
    fn tells_names(rt: HostRuntime) -> Result<(), Fail> {
        for text in [
            "a", "_a", "x!", "x'1", "a.b.c", "Nat.+", "+", "a.!!", "Nat.==", "iff", "a.ifs", "=-",
            "+--", "->-", ":+", "__",
        ] {
            let name = Name::parse(rt.alloc(), text.as_bytes())?;
            assert_eq!(rt; name.text(), text.as_bytes(), "{text}");
        }
        for text in [
            "", "a..b", ".a", "a.", "if", "a.if", "if.a", "a.do", "a._", "_.a", "_", "a.1", "1",
            "a.'", "a.!", "!", "a.->", "a.=", "=", "a.--b", "--", "Nat.+.x", "a b", "a+", "+a",
            "é",
        ] {
            let refused = Name::parse(rt.alloc(), text.as_bytes());
            assert!(rt; matches!(refused, Err(Fault::BadName)), "{text}");
        }
        Ok(())
    }

    #[test]
    fn limits_names(rt: HostRuntime) -> Result<(), Fail> {
        let text = [b'a'; 129];
        assert_eq!(rt; Name::parse(rt.alloc(), &text[..128])?.text().len(), 128);
        assert!(rt; matches!(Name::parse(rt.alloc(), &text), Err(Fault::BadName)));
        Ok(())
    }

    #[test]
    fn compares_names(rt: HostRuntime) -> Result<(), Fail> {
        let alloc = rt.alloc();
        let whole = Name::parse(alloc, b"Basket.total.size")?;
        for (end, is_suffix, is_above) in [
            ("size", true, false),
            ("total.size", true, false),
            ("Basket.total.size", true, false),
            ("ize", false, false),
            ("total", false, false),
            ("Basket", false, true),
            ("Basket.total", false, true),
            ("Bask", false, false),
        ] {
            let other = Name::parse(alloc, end.as_bytes())?;
            assert_eq!(rt; other.is_suffix_of(&whole), is_suffix, "{end}");
            assert_eq!(rt; whole.is_below(&other), is_above, "{end}");
        }
        let same = whole.copy(alloc)?;
        assert!(rt; same == whole && whole.is_path());
        let plus = Name::parse(alloc, b"Nat.+")?;
        let below = Name::parse(alloc, b"Nat")?;
        assert!(rt; !plus.is_path() && below < plus && plus > below);
        Ok(())
    }
}
