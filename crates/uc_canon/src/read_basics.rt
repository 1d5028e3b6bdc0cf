//! Numbers, texts, hashes and literals from canonical text.
ghost use Rattle.std.specs.Prelude.{◌≡◌, ◌<◌, ◌≤◌, ◌^◌, IfOk};
ghost use Rattle.std.specs.Str.{is_utf8};
ghost use Rattle.uc_canon.specs.Reading.{Gives, pushed, number_from, number_at, count_at, hash_at, bytes_at, nat_at, plus_at, minus_at, int_at, text_at, char_at, literal_by};

use crate::read_error::ReadError;
use std::alloc::Global;
use std::str;
use uc_base::{Bytes, HASH_TEXT_LEN, Hash};
use uc_tree::Literal;

#[tactic(auto, unfolding(crate::specs::Reading::pushed))]
fn push_digit(most: u64, number: u64, c: u8) -> Result<u64, ReadError>
    ensures gives { Gives (λ x. x) result (pushed most number c) }
    ensures small { IfOk result (λ n. n ≤ most) }
{
    if !c.is_ascii_digit() {
        return Err(ReadError::Absent);
    }
    let digit = u64::from(c - b'0');
    if digit > most || number > (most - digit) / 10 {
        return Err(ReadError::Absent);
    }
    Ok(number * 10 + digit)
}

fn read_digits(most: u64, mut bytes: &[u8]) -> Result<(u64, &[u8]), ReadError>
    ensures gives { Gives (λ x. (x.0, x.1.now)) result (number_from most 0 bytes.entry.now) }
    ensures small { IfOk result (λ x. x.0 ≤ most) }
{
    let mut number = 0;
    while let [c, rest @ ..] = bytes {
        if *c == b';' {
            return Ok((number, rest));
        }
        number = push_digit(most, number, *c)?;
        bytes = rest;
    }
    Err(ReadError::Absent)
}

/// A number of at most `most`.
#[tactic(auto, unfolding(crate::specs::Reading::number_at))]
pub(crate) fn read_number(most: u64, bytes: &[u8]) -> Result<(u64, &[u8]), ReadError>
    ensures gives { Gives (λ x. (x.0, x.1.now)) result (number_at most bytes.now) }
    ensures small { IfOk result (λ x. x.0 ≤ most) }
{
    match bytes {
        [] => Err(ReadError::Absent),
        [b'0', rest @ ..] => match rest {
            [] => Err(ReadError::Absent),
            [c, rest @ ..] => {
                if *c == b';' {
                    Ok((0, rest))
                } else {
                    Err(ReadError::Absent)
                }
            }
        },
        [b';', ..] => Err(ReadError::Absent),
        [_, ..] => read_digits(most, bytes),
    }
}

/// A number of 32 bits.
pub(crate) fn read_u32(bytes: &[u8]) -> Result<(u32, &[u8]), ReadError>
    ensures { Gives (λ x. (x.0, x.1.now)) result (number_at 4294967295 bytes.now) }
{
    let (number, rest) = read_number(u64::from(u32::MAX), bytes)?;
    Ok((number as u32, rest))
}

/// A number of parts, of which there are at least so many.
#[tactic(auto, unfolding(crate::specs::Reading::count_at))]
pub(crate) fn read_count(least: u32, bytes: &[u8]) -> Result<(u32, &[u8]), ReadError>
    ensures { Gives (λ x. (x.0, x.1.now)) result (count_at least bytes.now) }
{
    let (count, rest) = read_u32(bytes)?;
    if count < least {
        return Err(ReadError::Absent);
    }
    Ok((count, rest))
}

#[tactic(auto, unfolding(crate::specs::Reading::hash_at))]
pub(crate) fn read_hash(bytes: &[u8]) -> Result<(Hash, &[u8]), ReadError>
    ensures { Gives (λ x. (x.0, x.1.now)) result (hash_at bytes.now) }
{
    if bytes.len() < HASH_TEXT_LEN {
        return Err(ReadError::Absent);
    }
    let (digits, rest) = bytes.split_at(HASH_TEXT_LEN);
    match Hash::read_text(digits) {
        None => Err(ReadError::Absent),
        Some(hash) => Ok((hash, rest)),
    }
}

/// A number of bytes, and so many bytes.
#[tactic(auto, unfolding(crate::specs::Reading::bytes_at))]
pub(crate) fn read_bytes(bytes: &[u8]) -> Result<(&[u8], &[u8]), ReadError>
    ensures { Gives (λ x. (x.0.now, x.1.now)) result (bytes_at bytes.now) }
{
    let (count, rest) = read_number(u64::MAX, bytes)?;
    if (rest.len() as u64) < count {
        return Err(ReadError::Absent);
    }
    Ok(rest.split_at(count as usize))
}

#[tactic(auto, unfolding(crate::specs::Reading::nat_at))]
fn read_nat(bytes: &[u8]) -> Result<(Literal, &[u8]), ReadError>
    ensures { Gives (λ x. (x.0, x.1.now)) result (nat_at bytes.now) }
{
    let (number, rest) = read_number(u64::MAX, bytes)?;
    Ok((Literal::Nat(number), rest))
}

#[tactic(auto, unfolding(crate::specs::Reading::plus_at))]
fn read_plus(bytes: &[u8]) -> Result<(Literal, &[u8]), ReadError>
    ensures { Gives (λ x. (x.0, x.1.now)) result (plus_at bytes.now) }
{
    let (number, rest) = read_number(i64::MAX as u64, bytes)?;
    Ok((Literal::Int(number as i64), rest))
}

#[tactic(auto, unfolding(crate::specs::Reading::minus_at))]
fn read_minus(bytes: &[u8]) -> Result<(Literal, &[u8]), ReadError>
    ensures { Gives (λ x. (x.0, x.1.now)) result (minus_at bytes.now) }
{
    let (number, rest) = read_number(i64::MIN.unsigned_abs(), bytes)?;
    if number == 0 {
        return Err(ReadError::Absent);
    }
    Ok((Literal::Int(-1 - (number - 1) as i64), rest))
}

#[tactic(auto, unfolding(crate::specs::Reading::int_at))]
fn read_int(bytes: &[u8]) -> Result<(Literal, &[u8]), ReadError>
    ensures { Gives (λ x. (x.0, x.1.now)) result (int_at bytes.now) }
{
    match bytes {
        [] => Err(ReadError::Absent),
        [c, rest @ ..] => match *c {
            b'+' => read_plus(rest),
            b'-' => read_minus(rest),
            _ => Err(ReadError::Absent),
        },
    }
}

fn is_text(bytes: &[u8]) -> bool
    ensures { result ≡ is_utf8 bytes.now }
{
    str::from_utf8(bytes).is_ok()
}

#[tactic(auto, unfolding(crate::specs::Reading::text_at))]
fn read_text(alloc: Global, bytes: &[u8]) -> Result<(Literal, &[u8]), ReadError>
    ensures { Gives (λ x. (x.0, x.1.now)) result (text_at bytes.now) }
{
    let (text, rest) = read_bytes(bytes)?;
    if !is_text(text) {
        return Err(ReadError::Absent);
    }
    Ok((Literal::Text(Bytes::from_slice(alloc, text)?), rest))
}

#[tactic(auto, unfolding(crate::specs::Reading::char_at))]
fn read_char(bytes: &[u8]) -> Result<(Literal, &[u8]), ReadError>
    ensures { Gives (λ x. (x.0, x.1.now)) result (char_at bytes.now) }
{
    let (code, rest) = read_number(u64::from(u32::from(char::MAX)), bytes)?;
    match char::from_u32(code as u32) {
        None => Err(ReadError::Absent),
        Some(c) => Ok((Literal::Char(c), rest)),
    }
}

/// The literal of a kind.
#[tactic(auto, unfolding(crate::specs::Reading::literal_by))]
pub(crate) fn read_literal(
    alloc: Global,
    kind: u8,
    bytes: &[u8],
) -> Result<(Literal, &[u8]), ReadError>
    ensures { Gives (λ x. (x.0, x.1.now)) result (literal_by kind bytes.now) }
{
    match kind {
        b'n' => read_nat(bytes),
        b'i' => read_int(bytes),
        b'y' => Ok((Literal::Boolean(true), bytes)),
        b'z' => Ok((Literal::Boolean(false), bytes)),
        b'x' => read_text(alloc, bytes),
        b'c' => read_char(bytes),
        _ => Err(ReadError::Absent),
    }
}
