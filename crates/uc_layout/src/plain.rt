//! The marks of a text by plain recursion: one call for each token, each case as the rules state it. For small texts.
ghost use Rattle.std.specs.Prelude.{◌≡◌, ◌≤◌, [], ◌∷◌, length, IfOk, MatchOption};
ghost use Rattle.uc_layout.specs.Layout.{taken, take, word, bracket, block_before, behind, first_move, LaysPieces};
ghost use Rattle.uc_layout.specs.Run.{next_move};
ghost use Rattle.uc_layout.specs.Written.{Marks, ends_file};

use crate::piece::{Mark, Piece, Region};
use crate::region::{
    at_start, behind, block_of, inside_bracket, is_begun, is_ended, is_left, opens_block, the_file,
};
use std::alloc::{AllocError, Global};

/// The first of some tokens, and those behind it.
fn first_of(pieces: &[Piece]) -> Option<(Piece, &[Piece])>
    ensures { MatchOption result (pieces.now ≡ []) (λ x. pieces.now ≡ x.0 ∷ x.1.now) }
{
    match pieces {
        [] => None,
        [t, after @ ..] => Some((*t, after)),
    }
}

/// Marks a token that opens nothing, and all behind it up to where the region ends.
#[cycle(mark_region)]
fn mark_word<'a>(
    here: Region,
    out: &mut Vec<Mark>,
    t: Piece,
    after: &'a [Piece],
) -> Result<&'a [Piece], AllocError>
    ensures marks { IfOk result (λ rest. Marks out.old.items out.new.items (take word) here (t ∷ after.now) rest.now) }
    ensures shorter { IfOk result (λ rest. length rest.now ≤ length after.now) }
    ensures file { IfOk result (λ rest. ends_file here rest.now) }
{
    out.push(Mark::Token(t))?;
    let next = behind(here, t.role)?;
    let rest = mark_region(false, next, out, after)?;
    Ok(rest)
}

/// Marks an opening bracket, what it holds, and all behind it up to where the region ends.
#[cycle(mark_region)]
fn mark_bracket<'a>(
    here: Region,
    out: &mut Vec<Mark>,
    t: Piece,
    after: &'a [Piece],
) -> Result<&'a [Piece], AllocError>
    ensures marks { IfOk result (λ rest. Marks out.old.items out.new.items (take bracket) here (t ∷ after.now) rest.now) }
    ensures shorter { IfOk result (λ rest. length rest.now ≤ length after.now) }
    ensures file { IfOk result (λ rest. ends_file here rest.now) }
{
    out.push(Mark::Token(t))?;
    let held = mark_region(false, inside_bracket(here), out, after)?;
    match first_of(held) {
        None => Ok(held),
        Some((right, behind)) => {
            out.push(Mark::Token(right))?;
            let rest = mark_region(false, here, out, behind)?;
            Ok(rest)
        }
    }
}

/// Marks an opener, its block, and all behind it up to where the region ends.
#[cycle(mark_region)]
fn mark_block<'a>(
    here: Region,
    out: &mut Vec<Mark>,
    t: Piece,
    after: &'a [Piece],
) -> Result<&'a [Piece], AllocError>
    ensures marks { IfOk result (λ rest. Marks out.old.items out.new.items (take (block_before (behind here t.role) after.now)) here (t ∷ after.now) rest.now) }
    ensures shorter { IfOk result (λ rest. length rest.now ≤ length after.now) }
    ensures file { IfOk result (λ rest. ends_file here rest.now) }
{
    out.push(Mark::Token(t))?;
    out.push(Mark::Opens)?;
    let next = behind(here, t.role)?;
    match block_of(next, after) {
        None => {
            out.push(Mark::Closes)?;
            let rest = mark_region(false, next, out, after)?;
            Ok(rest)
        }
        Some(block) => {
            let held = mark_region(true, block, out, after)?;
            out.push(Mark::Closes)?;
            let rest = mark_region(false, next, out, held)?;
            Ok(rest)
        }
    }
}

/// Marks a token that neither ends the region nor begins an item, and all behind it up to where the region ends.
#[cycle(mark_region)]
fn mark_token<'a>(
    here: Region,
    out: &mut Vec<Mark>,
    t: Piece,
    after: &'a [Piece],
) -> Result<&'a [Piece], AllocError>
    ensures marks { IfOk result (λ rest. Marks out.old.items out.new.items (take (taken here after.now t.role)) here (t ∷ after.now) rest.now) }
    ensures shorter { IfOk result (λ rest. length rest.now ≤ length after.now) }
    ensures file { IfOk result (λ rest. ends_file here rest.now) }
{
    if is_left(t.role) {
        let rest = mark_bracket(here, out, t, after)?;
        return Ok(rest);
    }
    if opens_block(behind(here, t.role)?, t.role) {
        let rest = mark_block(here, out, t, after)?;
        return Ok(rest);
    }
    let rest = mark_word(here, out, t, after)?;
    Ok(rest)
}

/// Marks a token that begins an item, and all behind it up to where the region ends.
#[cycle(mark_region)]
fn mark_item<'a>(
    here: Region,
    out: &mut Vec<Mark>,
    t: Piece,
    after: &'a [Piece],
) -> Result<&'a [Piece], AllocError>
    ensures marks { IfOk result (λ rest. Marks out.old.items out.new.items (first_move here (t ∷ after.now)) here (t ∷ after.now) rest.now) }
    ensures shorter { IfOk result (λ rest. length rest.now ≤ length after.now) }
    ensures file { IfOk result (λ rest. ends_file here rest.now) }
{
    out.push(Mark::Item)?;
    let rest = mark_token(at_start(here, t.role), out, t, after)?;
    Ok(rest)
}

/// Marks the tokens of a region up to where it ends, and answers those from there on. The first token of a fresh
/// region begins an item in any case.
#[cycle(mark_region)]
fn mark_region<'a>(
    fresh: bool,
    here: Region,
    out: &mut Vec<Mark>,
    pieces: &'a [Piece],
) -> Result<&'a [Piece], AllocError>
    ensures marks { IfOk result (λ rest. Marks out.old.items out.new.items (next_move fresh here pieces.now) here pieces.now rest.now) }
    ensures shorter { IfOk result (λ rest. length rest.now ≤ length pieces.now) }
    ensures file { IfOk result (λ rest. ends_file here rest.now) }
{
    let Some((t, after)) = first_of(pieces) else {
        return Ok(pieces);
    };
    if fresh {
        let rest = mark_item(here, out, t, after)?;
        return Ok(rest);
    }
    if is_ended(here, t) {
        return Ok(pieces);
    }
    if is_begun(here, t) {
        let rest = mark_item(here, out, t, after)?;
        return Ok(rest);
    }
    let rest = mark_token(here, out, t, after)?;
    Ok(rest)
}

/// The tokens of a text with the marks of its blocks and items, by plain recursion.
pub fn lay_plainly(alloc: Global, pieces: &[Piece]) -> Result<Vec<Mark>, AllocError>
    ensures { IfOk result (λ marks. LaysPieces pieces.now marks.items) }
{
    let mut out = Vec::new(alloc);
    mark_region(true, the_file(), &mut out, pieces)?;
    Ok(out)
}
