//! What layout sees of tokens, and tokens with the marks among them.
ghost use Rattle.std.specs.Prelude.{◌≡◌, ◌≤◌, List, ◌∷◌, ◌++◌, length, drop, IfOk};
ghost use Rattle.uc_layout.specs.declared.piece.Mark.{Mark as MarkSeen};
ghost use Rattle.uc_layout.specs.Tokens.{seen};
ghost use Rattle.uc_layout.specs.Text as spec;
ghost use Rattle.uc_layout.specs.Text.{pieces_of, joined};

use crate::blocks::Blocks;
use crate::piece::{Mark, Piece, Role};
use crate::token::{Kind, Token};
use std::alloc::{AllocError, Global};
use uc_base::Place;

fn keyword_role(text: &[u8]) -> Role
    ensures { result ≡ spec.keyword_role text.now }
{
    if text == b"if".as_slice() {
        Role::If
    } else if text == b"then".as_slice() {
        Role::Then
    } else if text == b"else".as_slice() {
        Role::Else
    } else if text == b"match".as_slice() {
        Role::Match
    } else if text == b"with".as_slice() {
        Role::With
    } else if text == b"cases".as_slice() || text == b"let".as_slice() {
        Role::Opener
    } else if text == b"type".as_slice()
        || text == b"structural".as_slice()
        || text == b"unique".as_slice()
    {
        Role::Declares
    } else {
        Role::Plain
    }
}

fn symbol_role(text: &[u8]) -> Role
    ensures { result ≡ spec.symbol_role text.now }
{
    if text == b"=".as_slice() || text == b"->".as_slice() {
        Role::Opener
    } else if text == b":".as_slice() {
        Role::Colon
    } else if text == b"|".as_slice() {
        Role::Bar
    } else if text == b"(".as_slice() || text == b"[".as_slice() {
        Role::Left
    } else if text == b")".as_slice() || text == b"]".as_slice() {
        Role::Right
    } else if text == b",".as_slice() {
        Role::Comma
    } else {
        Role::Plain
    }
}

fn role_of(kind: Kind, text: &[u8]) -> Role
    ensures { result ≡ spec.role_of kind text.now }
{
    match kind {
        Kind::Keyword => keyword_role(text),
        Kind::Symbol => symbol_role(text),
        _ => Role::Plain,
    }
}

/// What layout sees of tokens.
pub fn pieces(alloc: Global, tokens: &[Token]) -> Result<Vec<Piece>, AllocError>
    ensures { IfOk result (λ pieces. pieces.items ≡ pieces_of 0 (seen tokens.now)) }
{
    let mut pieces = Vec::new(alloc);
    let mut line = 0;
    let mut rest = tokens;
    'tokens: while let [t, after @ ..] = rest {
        pieces.push(Piece {
            role: role_of(t.kind, t.text),
            first: t.place.line != line,
            column: t.place.column,
        })?;
        line = t.place.line;
        rest = after;
    }
    Ok(pieces)
}

fn next_place(tokens: &[Token], end: Place) -> Place
    ensures { result ≡ spec.next_place (seen tokens.now) end }
{
    match tokens {
        [] => end,
        [t, ..] => t.place,
    }
}

/// The tokens behind the first ones.
fn rest_of<'a, 'b>(tokens: &'b [Token<'a>], count: usize) -> &'b [Token<'a>]
    requires { count ≤ length tokens.now }
    ensures { seen result.now ≡ drop count (seen tokens.now) }
{
    &tokens[count..]
}

/// Adds what a mark stands for, and says how many tokens it takes.
fn join_one<'a>(
    blocks: &mut Blocks<'a>,
    mark: Mark,
    left: &[Token<'a>],
    end: Place,
) -> Result<usize, AllocError>
    ensures joined { IfOk result (λ count. (ms : List MarkSeen)
        → blocks.new ++ joined ms (drop count (seen left.now)) end ≡ blocks.old ++ joined (mark ∷ ms) (seen left.now) end) }
    ensures within { IfOk result (λ count. count ≤ length left.now) }
{
    let place = next_place(left, end);
    match mark {
        Mark::Token(_) => match left {
            [] => Ok(0),
            [t, ..] => {
                blocks.push(t.kind, t.text, t.place)?;
                Ok(1)
            }
        },
        Mark::Opens => {
            blocks.push(Kind::Opens, b"", place)?;
            Ok(0)
        }
        Mark::Closes => {
            blocks.push(Kind::Closes, b"", place)?;
            Ok(0)
        }
        Mark::Item => {
            blocks.push(Kind::Item, b"", place)?;
            Ok(0)
        }
    }
}

/// The tokens with the marks among them.
pub fn join<'a>(
    alloc: Global,
    tokens: &[Token<'a>],
    marks: &[Mark],
    end: Place,
) -> Result<Blocks<'a>, AllocError>
    ensures { IfOk result (λ blocks. blocks ≡ joined marks.now (seen tokens.now) end) }
{
    let mut blocks = Blocks::new(alloc);
    let mut count = 0;
    let mut rest = marks;
    'marks: while let [mark, after @ ..] = rest {
        count += join_one(&mut blocks, *mark, rest_of(tokens, count), end)?;
        rest = after;
    }
    Ok(blocks)
}
