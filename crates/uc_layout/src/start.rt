//! What begins at a place between lexemes.
ghost use Rattle.std.specs.Prelude.{◌≡◌, ◌≤◌, length};
ghost use Rattle.uc_layout.specs.Start as spec;

use crate::automaton::{Form, is_continuation, is_single};
use uc_base::{begins_comment, is_digit, is_letter, is_operator, is_wordy};

/// Why something is no token.
#[derive(Clone, Copy, Debug, PartialEq, Eq)]
pub enum Wrong {
    /// It has no meaning.
    Bad,
    /// Unison has it, and this profile leaves it out.
    LeftOut,
}

/// What begins at a place between lexemes.
#[derive(Clone, Copy, Debug, PartialEq, Eq)]
pub enum Start {
    TextEnd,
    /// A line that ends the text.
    Fold,
    LineFeed,
    White,
    Comment,
    Wrong(Wrong),
    Lexeme(Form),
}

fn is_white(c: u8) -> bool
    ensures { result ≡ spec.is_white c }
{
    c == b' ' || c == b'\t' || c == b'\r'
}

/// How many bytes there are before the line feed.
pub fn line_len(text: &[u8]) -> usize
    ensures value { result ≡ spec.line_len text.now }
    ensures within { result ≤ length text.now }
{
    text.iter().take_while(|c| **c != b'\n').count()
}

/// How many characters a UTF-8 text has.
pub fn characters(text: &[u8]) -> usize
    ensures value { result ≡ spec.characters text.now }
    ensures within { result ≤ length text.now }
{
    text.iter().filter(|c| !is_continuation(**c)).count()
}

fn are_white(text: &[u8]) -> bool
    ensures { result ≡ spec.are_white text.now }
{
    text.iter().all(|c| is_white(*c))
}

/// The text before the first line feed.
fn line(text: &[u8]) -> &[u8]
    ensures { result.now ≡ spec.line_of text.now }
{
    &text[..line_len(text)]
}

/// Whether the first line is three hyphens and white characters.
fn is_fold(text: &[u8]) -> bool
    ensures { result ≡ spec.is_fold text.now }
{
    let first = line(text);
    first.starts_with(b"---") && are_white(&first[3..])
}

fn begins_digit(text: &[u8]) -> bool
    ensures { result ≡ spec.begins_digit text.now }
{
    match text {
        [] => false,
        [c, ..] => is_digit(*c),
    }
}

fn is_sign(c: u8) -> bool
    ensures { result ≡ spec.is_sign c }
{
    c == b'+' || c == b'-'
}

fn is_unused(c: u8) -> bool
    ensures { result ≡ spec.is_unused c }
{
    c == b'{' || c == b'}' || c == b'\''
}

/// A hash sign behind a wordy character begins nothing, and two begin a builtin.
fn hash_start(before: u8, after: &[u8]) -> Start
    ensures { result ≡ spec.hash_start before after.now }
{
    if is_wordy(before) {
        Start::Wrong(Wrong::Bad)
    } else if after.starts_with(b"#") {
        Start::Lexeme(Form::Builtin)
    } else {
        Start::Lexeme(Form::Hash)
    }
}

/// Three quotes are left out.
fn text_start(after: &[u8]) -> Start
    ensures { result ≡ spec.text_start after.now }
{
    if after.starts_with(b"\"\"") {
        Start::Wrong(Wrong::LeftOut)
    } else {
        Start::Lexeme(Form::Text)
    }
}

/// What a character begins that belongs to no word, operator or number.
fn other_start(before: u8, c: u8, after: &[u8]) -> Start
    ensures { result ≡ spec.other_start before c after.now }
{
    if is_single(c) {
        Start::Lexeme(Form::Single)
    } else if c == b'?' {
        Start::Lexeme(Form::Character)
    } else if c == b'"' {
        text_start(after)
    } else if c == b'#' {
        hash_start(before, after)
    } else if is_unused(c) {
        Start::Wrong(Wrong::LeftOut)
    } else {
        Start::Wrong(Wrong::Bad)
    }
}

fn lexeme_start(before: u8, c: u8, after: &[u8]) -> Start
    ensures { result ≡ spec.lexeme_start before c after.now }
{
    if is_digit(c) || is_sign(c) && begins_digit(after) {
        Start::Lexeme(Form::Number)
    } else if is_letter(c) || is_operator(c) {
        Start::Lexeme(Form::Dotted)
    } else {
        other_start(before, c, after)
    }
}

/// What the first column of a line alone may begin.
fn first_start(text: &[u8]) -> Option<Start>
    ensures { result ≡ spec.first_start text.now }
{
    if is_fold(text) {
        Some(Start::Fold)
    } else if text.starts_with(b"test>") {
        Some(Start::Wrong(Wrong::LeftOut))
    } else {
        None
    }
}

/// What begins at a column, where this byte stands before the rest of the text.
#[tactic(auto, unfolding(crate::specs::Start::start_at))]
pub fn start_at(column: u32, before: u8, rest: &[u8]) -> Start
    ensures { result ≡ spec.start_at column before rest.now }
{
    match rest {
        [] => Start::TextEnd,
        [c, after @ ..] => {
            if *c == b'\n' {
                return Start::LineFeed;
            }
            if column == 1 {
                if let Some(start) = first_start(rest) {
                    return start;
                }
            }
            if is_white(*c) {
                Start::White
            } else if begins_comment(rest) {
                Start::Comment
            } else {
                lexeme_start(before, *c, after)
            }
        }
    }
}
