//! The values of literals.
ghost use Rattle.std.specs.Prelude.{◌≡◌, ◌∷◌, ◌++◌, [], IfOk, drop};
ghost use Rattle.uc_meaning.specs.Literals as spec;

use std::alloc::{AllocError, Global};
use std::str;
use uc_base::{Bytes, read_decimal};
use uc_scratch::{Literal as Written, LiteralSort};
use uc_tree::Literal;

/// The number that digits spell; 0 for other texts, which no token has.
pub fn number_written(text: &[u8]) -> u64
    ensures { result ≡ spec.number_written 64 text.now }
{
    match read_decimal(text) {
        None => 0,
        Some(number) => number,
    }
}

/// The integer that a sign and digits spell.
fn integer_written(text: &[u8]) -> i64
    ensures { result ≡ spec.integer_written text.now }
{
    match text {
        [] => 0,
        [sign, digits @ ..] => signed(*sign, number_written(digits)),
    }
}

/// The integer of a sign and a number; 0 where it isn't in range.
fn signed(sign: u8, number: u64) -> i64
    ensures { result ≡ spec.signed sign number }
{
    const LIMIT: u64 = 1 << 63;
    if sign == b'-' {
        if number < LIMIT {
            -(number as i64)
        } else if number == LIMIT {
            i64::MIN
        } else {
            0
        }
    } else if number < LIMIT {
        number as i64
    } else {
        0
    }
}

/// What a backslash and a character stand for.
fn escaped(c: u8) -> u8
    ensures { result ≡ spec.escaped c }
{
    match c {
        b'n' => b'\n',
        b't' => b'\t',
        b'r' => b'\r',
        b'0' => 0,
        b's' => b' ',
        _ => c,
    }
}

/// The bytes up to the closing quote, with the escapes replaced.
fn unescaped(alloc: Global, text: &[u8]) -> Result<Vec<u8>, AllocError>
    ensures { IfOk result (λ bytes. bytes.items ≡ spec.unescaped text.now) }
{
    let mut bytes = Vec::new(alloc);
    let mut rest = text;
    'bytes: while let [c, after @ ..] = rest {
        if *c == b'"' {
            return Ok(bytes);
        }
        match after {
            [d, behind @ ..] if *c == b'\\' => {
                bytes.push(escaped(*d))?;
                rest = behind;
            }
            _ => {
                bytes.push(*c)?;
                rest = after;
            }
        }
    }
    Ok(bytes)
}

/// The first character of a text in UTF-8.
fn character_in(text: &[u8]) -> char
    ensures { result ≡ spec.character_in text.now }
{
    match str::from_utf8(text) {
        Ok(text) => text.chars().next().unwrap_or('\0'),
        Err(_) => '\0',
    }
}

/// The character behind `?`.
fn character_written(text: &[u8]) -> char
    ensures { result ≡ spec.character_written text.now }
{
    match text {
        [b'\\', escape, ..] => escaped(*escape) as char,
        _ => character_in(text),
    }
}

/// What stands behind the first byte.
fn behind_first(text: &[u8]) -> &[u8]
    ensures { result.now ≡ drop 1 text.now }
{
    match text {
        [] => text,
        [_, rest @ ..] => rest,
    }
}

/// The value of a literal.
pub fn literal_value(alloc: Global, l: &Written) -> Result<Literal, AllocError>
    ensures { IfOk result (λ value. value ≡ spec.literal_value l.now) }
{
    let text = l.written.text.as_slice();
    match l.sort {
        LiteralSort::Nat => Ok(Literal::Nat(number_written(text))),
        LiteralSort::Int => Ok(Literal::Int(integer_written(text))),
        LiteralSort::Text => {
            let bytes = unescaped(alloc, behind_first(text))?;
            Ok(Literal::Text(Bytes::from_vec(bytes)))
        }
        LiteralSort::Char => Ok(Literal::Char(character_written(behind_first(text)))),
        LiteralSort::True => Ok(Literal::Boolean(true)),
        LiteralSort::False => Ok(Literal::Boolean(false)),
    }
}
