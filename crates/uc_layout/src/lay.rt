//! The marks among the tokens of a text, in one pass.
ghost use Rattle.std.specs.Prelude.{◌≡◌, Bool, true, false, List, [], ◌∷◌, ◌++◌, IfOk, OnOk};
ghost use Rattle.uc_layout.specs.declared.piece.Mark.{Mark as MarkSeen};
ghost use Rattle.uc_layout.specs.Layout.{stop, take, taken, move, first_move, block_before, LaysPieces};
ghost use Rattle.uc_layout.specs.Run as run;
ghost use Rattle.uc_layout.specs.Run.{innermost, ends_a_block, Completes, Leads, Opened, next_move};

use crate::piece::{Mark, Piece, Region};
use crate::region::{
    at_start, behind, block_of, inside_bracket, is_begun, is_block, is_ended, is_left, opens_block,
    the_file,
};
use crate::stack::Stack;
use std::alloc::{AllocError, Global};

fn is_block_ended(here: Region, t: Piece) -> bool
    ensures { result ≡ ends_a_block here t }
{
    is_block(here.container) && is_ended(here, t)
}

/// Ends the blocks that a token ends.
fn end_blocks(stack: &mut Stack, out: &mut Vec<Mark>, t: Piece) -> Result<(), AllocError>
    ensures leads { OnOk result (Leads out.old.items stack.old out.new.items stack.new t) }
    ensures left { OnOk result (ends_a_block (innermost stack.new) t ≡ false) }
{
    'ending: while is_block_ended(stack.innermost(), t) {
        let _ = stack.pop();
        out.push(Mark::Closes)?;
    }
    Ok(())
}

/// Opens the block behind an opener, and says whether the next token begins an item in any case.
fn open_block(stack: &mut Stack, out: &mut Vec<Mark>, after: &[Piece]) -> Result<bool, AllocError>
    ensures { IfOk result (λ fresh. (all : List MarkSeen)
        → Completes out.new.items (next_move fresh (innermost stack.new) after.now) stack.new after.now all
        → Opened out.old.items (block_before (innermost stack.old) after.now) stack.old after.now all) }
{
    out.push(Mark::Opens)?;
    match block_of(stack.innermost(), after) {
        None => {
            out.push(Mark::Closes)?;
            Ok(false)
        }
        Some(block) => {
            stack.push(block)?;
            Ok(true)
        }
    }
}

/// Takes a token, and says whether the next one begins an item in any case.
fn take_token(
    stack: &mut Stack,
    out: &mut Vec<Mark>,
    t: Piece,
    after: &[Piece],
) -> Result<bool, AllocError>
    ensures { IfOk result (λ fresh. (all : List MarkSeen)
        → Completes out.new.items (next_move fresh (innermost stack.new) after.now) stack.new after.now all
        → Completes out.old.items (take (taken (innermost stack.old) after.now t.role)) stack.old (t ∷ after.now) all) }
{
    let here = stack.innermost();
    out.push(Mark::Token(t))?;
    if is_left(t.role) {
        stack.push(inside_bracket(here))?;
        return Ok(false);
    }
    let next = behind(here, t.role)?;
    stack.replace(next)?;
    if opens_block(next, t.role) {
        let fresh = open_block(stack, out, after)?;
        return Ok(fresh);
    }
    Ok(false)
}

/// Begins an item with a token, and takes it.
fn begin_item(
    stack: &mut Stack,
    out: &mut Vec<Mark>,
    t: Piece,
    after: &[Piece],
) -> Result<bool, AllocError>
    ensures { IfOk result (λ fresh. (all : List MarkSeen)
        → Completes out.new.items (next_move fresh (innermost stack.new) after.now) stack.new after.now all
        → Completes out.old.items (first_move (innermost stack.old) (t ∷ after.now)) stack.old (t ∷ after.now) all) }
{
    let start = at_start(stack.innermost(), t.role);
    out.push(Mark::Item)?;
    stack.replace(start)?;
    let fresh = take_token(stack, out, t, after)?;
    Ok(fresh)
}

/// Compares a token with the open regions, and takes it.
fn compare(
    stack: &mut Stack,
    out: &mut Vec<Mark>,
    t: Piece,
    after: &[Piece],
) -> Result<bool, AllocError>
    ensures { IfOk result (λ fresh. (all : List MarkSeen)
        → Completes out.new.items (next_move fresh (innermost stack.new) after.now) stack.new after.now all
        → Completes out.old.items (move (innermost stack.old) (t ∷ after.now)) stack.old (t ∷ after.now) all) }
{
    end_blocks(stack, out, t)?;
    let here = stack.innermost();
    if is_ended(here, t) {
        let _ = stack.pop();
        out.push(Mark::Token(t))?;
        return Ok(false);
    }
    if is_begun(here, t) {
        let fresh = begin_item(stack, out, t, after)?;
        return Ok(fresh);
    }
    let fresh = take_token(stack, out, t, after)?;
    Ok(fresh)
}

/// Marks a token, and says whether the next one begins an item in any case.
fn step(
    stack: &mut Stack,
    out: &mut Vec<Mark>,
    fresh: bool,
    t: Piece,
    after: &[Piece],
) -> Result<bool, AllocError>
    ensures { IfOk result (λ next. (all : List MarkSeen)
        → Completes out.new.items (next_move next (innermost stack.new) after.now) stack.new after.now all
        → Completes out.old.items (next_move fresh (innermost stack.old) (t ∷ after.now)) stack.old (t ∷ after.now) all) }
{
    if fresh {
        let next = begin_item(stack, out, t, after)?;
        return Ok(next);
    }
    let next = compare(stack, out, t, after)?;
    Ok(next)
}

/// Ends all regions at the end of the text.
fn end_all(stack: &mut Stack, out: &mut Vec<Mark>) -> Result<(), AllocError>
    ensures { OnOk result (Completes out.old.items stop stack.old [] out.new.items) }
{
    'regions: loop {
        match stack.pop() {
            None => return Ok(()),
            Some(region) => {
                if is_block(region.container) {
                    out.push(Mark::Closes)?;
                }
            }
        }
    }
}

/// The tokens of a text with the marks of its blocks and items.
pub fn lay(alloc: Global, pieces: &[Piece]) -> Result<Vec<Mark>, AllocError>
    ensures { IfOk result (λ marks. LaysPieces pieces.now marks.items) }
{
    let mut out = Vec::new(alloc);
    let mut stack = Stack::new(alloc);
    stack.push(the_file())?;
    let mut fresh = true;
    let mut rest = pieces;
    'tokens: while let [t, after @ ..] = rest {
        fresh = step(&mut stack, &mut out, fresh, *t, after)?;
        rest = after;
    }
    end_all(&mut stack, &mut out)?;
    Ok(out)
}
