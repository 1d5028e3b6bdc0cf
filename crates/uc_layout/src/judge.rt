//! What a whole lexeme is.
ghost use Rattle.std.specs.Prelude.{◌≡◌, ◌==◌, nat_le};
ghost use Rattle.std.specs.List.{list_any};
ghost use Rattle.uc_base.specs.Name.{is_letter};
ghost use Rattle.uc_layout.specs.Judgement as spec;

use crate::automaton::{Form, front};
use crate::start::Wrong;
use crate::token::Kind;
use uc_base::{builtin_number_of, is_keyword, is_left_out, is_letter, is_name, is_reserved};

/// What a whole lexeme is.
#[derive(Clone, Copy, Debug, PartialEq, Eq)]
pub enum Judgement {
    Token(Kind),
    Wrong(Wrong),
}

fn token_if(test: bool, kind: Kind) -> Judgement
    ensures { result ≡ spec.token_if test kind }
{
    if test {
        Judgement::Token(kind)
    } else {
        Judgement::Wrong(Wrong::Bad)
    }
}

/// Whether decimal digits stand for at most this number.
fn fits(digits: &[u8], most: u64) -> bool
    ensures { result ≡ nat_le (spec.value_from 0 digits.now) most }
{
    let mut value = 0;
    let mut rest = digits;
    'digits: loop {
        match front(rest) {
            None => return true,
            Some((c, after)) => {
                let digit = u64::from(c.saturating_sub(b'0'));
                if digit > most || value > (most - digit) / 10 {
                    return false;
                }
                value = value * 10 + digit;
                rest = after;
            }
        }
    }
}

fn ranged(text: &[u8]) -> Judgement
    ensures { result ≡ spec.ranged text.now }
{
    match text {
        [] => Judgement::Wrong(Wrong::Bad),
        [b'+', digits @ ..] => token_if(fits(digits, 9_223_372_036_854_775_807), Kind::Int),
        [b'-', digits @ ..] => token_if(fits(digits, 9_223_372_036_854_775_808), Kind::Int),
        [..] => token_if(fits(text, u64::MAX), Kind::Nat),
    }
}

fn has_letter(text: &[u8]) -> bool
    ensures { result ≡ list_any is_letter text.now }
{
    text.iter().any(|c| is_letter(*c))
}

fn has_point(text: &[u8]) -> bool
    ensures { result ≡ list_any (λ c. c == 46) text.now }
{
    text.iter().any(|c| *c == b'.')
}

fn judged_number(text: &[u8]) -> Judgement
    ensures { result ≡ spec.judged_number text.now }
{
    if has_letter(text) {
        Judgement::Wrong(Wrong::Bad)
    } else if has_point(text) {
        Judgement::Wrong(Wrong::LeftOut)
    } else {
        ranged(text)
    }
}

fn judged_word(text: &[u8]) -> Judgement
    ensures { result ≡ spec.judged_word text.now }
{
    if text == b"_".as_slice() {
        Judgement::Token(Kind::Wildcard)
    } else if is_keyword(text) {
        Judgement::Token(Kind::Keyword)
    } else if is_reserved(text) {
        Judgement::Token(Kind::Symbol)
    } else if is_left_out(text) || text == b"!".as_slice() {
        Judgement::Wrong(Wrong::LeftOut)
    } else {
        token_if(is_name(text), Kind::Name)
    }
}

fn judged_builtin(text: &[u8]) -> Judgement
    ensures { result ≡ spec.judged_builtin text.now }
{
    match text {
        [] | [_] => token_if(builtin_number_of(b"").is_some(), Kind::Builtin),
        [_, _, name @ ..] => token_if(builtin_number_of(name).is_some(), Kind::Builtin),
    }
}

fn judged_some(form: Form, text: &[u8]) -> Judgement
    ensures { result ≡ spec.judged_some form text.now }
{
    match form {
        Form::Dotted => judged_word(text),
        Form::Number => judged_number(text),
        Form::Text => Judgement::Token(Kind::Text),
        Form::Character => Judgement::Token(Kind::Char),
        Form::Hash => Judgement::Token(Kind::Hash),
        Form::Builtin => judged_builtin(text),
        Form::Single => Judgement::Token(Kind::Symbol),
    }
}

/// What the longest lexeme of a form is that stands at a place; where there is none, the text has no meaning.
#[tactic(auto, using(crate::proofs::Judged::judged_none, crate::proofs::Judged::judged_one))]
pub fn judged(form: Form, text: &[u8]) -> Judgement
    ensures { result ≡ spec.judged form text.now }
{
    match text {
        [] => Judgement::Wrong(Wrong::Bad),
        [_, ..] => judged_some(form, text),
    }
}
