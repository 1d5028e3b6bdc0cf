//! Tokens and marks as the grammar sees them.
ghost use Rattle.std.specs.Prelude.{◌≡◌, IfOk};
ghost use Rattle.uc_base.specs.Name.{segments_of};
ghost use Rattle.uc_layout.specs.Tokens.{seen, seen_one};
ghost use Rattle.uc_scratch.specs.Terminals as spec;
ghost use Rattle.uc_scratch.specs.Terminals.{last_of, terminal_by, terminal_of, terminals_of};

use crate::written::{Literal, LiteralSort, Reference, Written};
use std::alloc::{AllocError, Global};
use uc_base::{Bytes, Place, first_segment, is_operator};
use uc_layout::{Kind, Token};

/// A token or a mark by its class. Names are of seven classes, which share no name.
#[derive(Debug, Drop)]
pub enum Terminal {
    /// One wordy segment that begins with a small letter or `_`.
    Small(Written),
    /// One wordy segment that begins with a capital letter.
    Capital(Written),
    /// A path of several segments.
    Dotted(Written),
    /// `+:`
    Cons(Written),
    /// `:+`
    Snoc(Written),
    /// `>`
    Greater(Written),
    /// Any other name whose last segment is an operator.
    Operator(Written),
    Wildcard(Place),
    Literal(Literal),
    Reference(Reference),
    Left(Place),
    Right,
    LeftSquare(Place),
    RightSquare,
    Comma,
    Dot,
    At,
    Equals,
    Arrow,
    Colon,
    Bar,
    AndAnd,
    OrOr,
    If(Place),
    Then,
    Else,
    Match(Place),
    With,
    Cases(Place),
    Let(Place),
    Use(Place),
    TypeWord(Place),
    Structural(Place),
    Unique(Place),
    Forall(Place),
    /// A block begins.
    Opens,
    /// A block ends.
    Closes,
    /// An item begins whose first token stands here.
    Item(Place),
    /// A keyword or a symbol that is none of these.
    Other,
}

/// The last segment of a text.
pub fn last_segment(text: &[u8]) -> &[u8]
    ensures { result.now ≡ last_of (segments_of text.now) }
{
    let mut rest = text;
    'segments: loop {
        match first_segment(rest) {
            None => return rest,
            Some((_, after)) => rest = after,
        }
    }
}

/// Whether a text has no dot.
pub fn is_single(text: &[u8]) -> bool
    ensures { result ≡ spec.is_single text.now }
{
    match first_segment(text) {
        None => true,
        Some(_) => false,
    }
}

fn begins_operator(text: &[u8]) -> bool
    ensures { result ≡ spec.begins_operator text.now }
{
    match text {
        [] => false,
        [c, ..] => is_operator(*c),
    }
}

fn begins_small(text: &[u8]) -> bool
    ensures { result ≡ spec.begins_small text.now }
{
    match text {
        [] => false,
        [c, ..] => matches!(*c, b'a'..=b'z' | b'_'),
    }
}

/// Whether the last segment is an operator.
fn ends_in_operator(w: &Written) -> bool
    ensures { result ≡ spec.begins_operator (last_of (segments_of w.now.text)) }
{
    begins_operator(last_segment(w.text.as_slice()))
}

fn operator_terminal(w: Written) -> Terminal
    ensures { result ≡ spec.operator_terminal w }
{
    let text = w.text.as_slice();
    if text == b"+:".as_slice() {
        Terminal::Cons(w)
    } else if text == b":+".as_slice() {
        Terminal::Snoc(w)
    } else if text == b">".as_slice() {
        Terminal::Greater(w)
    } else {
        Terminal::Operator(w)
    }
}

fn path_terminal(w: Written) -> Terminal
    ensures { result ≡ spec.path_terminal w }
{
    if !is_single(w.text.as_slice()) {
        Terminal::Dotted(w)
    } else if begins_small(w.text.as_slice()) {
        Terminal::Small(w)
    } else {
        Terminal::Capital(w)
    }
}

fn name_terminal(w: Written) -> Terminal
    ensures { result ≡ spec.name_terminal w }
{
    if ends_in_operator(&w) {
        operator_terminal(w)
    } else {
        path_terminal(w)
    }
}

fn literal_terminal(sort: LiteralSort, written: Written) -> Terminal
    ensures { result ≡ spec.literal_terminal sort written }
{
    Terminal::Literal(Literal { sort, written })
}

fn keyword_terminal(w: Written) -> Terminal
    ensures { result ≡ spec.keyword_terminal w }
{
    let text = w.text.as_slice();
    if text == b"if".as_slice() {
        Terminal::If(w.place)
    } else if text == b"then".as_slice() {
        Terminal::Then
    } else if text == b"else".as_slice() {
        Terminal::Else
    } else if text == b"match".as_slice() {
        Terminal::Match(w.place)
    } else if text == b"with".as_slice() {
        Terminal::With
    } else if text == b"cases".as_slice() {
        Terminal::Cases(w.place)
    } else if text == b"let".as_slice() {
        Terminal::Let(w.place)
    } else if text == b"true".as_slice() {
        literal_terminal(LiteralSort::True, w)
    } else if text == b"false".as_slice() {
        literal_terminal(LiteralSort::False, w)
    } else if text == b"use".as_slice() {
        Terminal::Use(w.place)
    } else if text == b"type".as_slice() {
        Terminal::TypeWord(w.place)
    } else if text == b"structural".as_slice() {
        Terminal::Structural(w.place)
    } else if text == b"unique".as_slice() {
        Terminal::Unique(w.place)
    } else if text == b"forall".as_slice() {
        Terminal::Forall(w.place)
    } else {
        Terminal::Other
    }
}

fn symbol_terminal(w: Written) -> Terminal
    ensures { result ≡ spec.symbol_terminal w }
{
    let text = w.text.as_slice();
    if text == b"(".as_slice() {
        Terminal::Left(w.place)
    } else if text == b")".as_slice() {
        Terminal::Right
    } else if text == b"[".as_slice() {
        Terminal::LeftSquare(w.place)
    } else if text == b"]".as_slice() {
        Terminal::RightSquare
    } else if text == b",".as_slice() {
        Terminal::Comma
    } else if text == b".".as_slice() {
        Terminal::Dot
    } else if text == b"@".as_slice() {
        Terminal::At
    } else if text == b"=".as_slice() {
        Terminal::Equals
    } else if text == b"->".as_slice() {
        Terminal::Arrow
    } else if text == b":".as_slice() {
        Terminal::Colon
    } else if text == b"|".as_slice() {
        Terminal::Bar
    } else if text == b"&&".as_slice() {
        Terminal::AndAnd
    } else if text == b"||".as_slice() {
        Terminal::OrOr
    } else {
        Terminal::Other
    }
}

fn terminal_of_kind(kind: Kind, w: Written) -> Terminal
    ensures { result ≡ terminal_by kind w }
{
    match kind {
        Kind::Name => name_terminal(w),
        Kind::Wildcard => Terminal::Wildcard(w.place),
        Kind::Keyword => keyword_terminal(w),
        Kind::Symbol => symbol_terminal(w),
        Kind::Nat => literal_terminal(LiteralSort::Nat, w),
        Kind::Int => literal_terminal(LiteralSort::Int, w),
        Kind::Text => literal_terminal(LiteralSort::Text, w),
        Kind::Char => literal_terminal(LiteralSort::Char, w),
        Kind::Hash => Terminal::Reference(Reference::Hash(w)),
        Kind::Builtin => Terminal::Reference(Reference::Builtin(w)),
        Kind::Opens => Terminal::Opens,
        Kind::Closes => Terminal::Closes,
        Kind::Item => Terminal::Item(w.place),
    }
}

/// A token or a mark by its class.
pub fn class_of(alloc: Global, token: &Token) -> Result<Terminal, AllocError>
    ensures { IfOk result (λ t. t ≡ terminal_of (seen_one token.now)) }
{
    let written = Written {
        text: Bytes::from_slice(alloc, token.text)?,
        place: token.place,
    };
    Ok(terminal_of_kind(token.kind, written))
}

/// Tokens and marks by their classes.
pub fn terminals(alloc: Global, tokens: &[Token]) -> Result<Vec<Terminal>, AllocError>
    ensures { IfOk result (λ ts. ts.items ≡ terminals_of (seen tokens.now)) }
{
    let mut terminals = Vec::new(alloc);
    let mut rest = tokens;
    'tokens: while let [token, after @ ..] = rest {
        terminals.push(class_of(alloc, token)?)?;
        rest = after;
    }
    Ok(terminals)
}
