//! From the bytes of a text to its tokens, blocks and items.
ghost use Rattle.std.specs.Prelude.{◌≡◌, ◌<◌, ◌≤◌, ◌↔◌, ◌⊎◌, length, IsUtf8, IfOk, IfErr, IsErrOf, IsTrue};
ghost use Rattle.uc_base.specs.declared.fault.Fault.TheVariants.{Memory, TextTooLong, NotUtf8};
ghost use Rattle.uc_layout.specs.Tokens.{ended, IsTokenized};
ghost use Rattle.uc_layout.specs.Text.{Lays, IsMarked, IsFirstFault, LayoutIsUnique, FaultIsUnique, LayoutHasNoFault, TokensAreSlices, TokensAreKept};

use crate::blocks::Blocks;
use crate::lay::lay;
use crate::plain::lay_plainly;
use crate::role::{join, pieces};
use crate::scan::scan;
use std::alloc::{AllocError, Global};
use uc_base::{Fault, Place};

/// How many bytes a text may have.
pub const TEXT_LIMIT: usize = 262_144;

fn is_utf8(text: &[u8]) -> bool
    ensures { IsTrue result ↔ IsUtf8 text.now }
{
    str::from_utf8(text).is_ok()
}

/// The tokens of a text and the place where it ends, or the first fault of the text.
fn tokens_in(alloc: Global, text: &[u8]) -> Result<(Blocks<'_>, Place), Fault>
    ensures tokens { IfOk result (λ x. IsTokenized text.now x.0 (ended x.1)) }
    ensures short { IfOk result (λ x. length text.now ≤ 262144) }
    ensures utf8 { IfOk result (λ x. IsUtf8 text.now) }
    ensures fault { IfErr result (λ fault. (fault ≡ Memory) ⊎ IsFirstFault text.now fault) }
    ensures size { IsErrOf result TextTooLong ↔ (262144 < length text.now) }
    ensures encoding { IsErrOf result NotUtf8 ↔ ((length text.now ≤ 262144) × (¬ IsUtf8 text.now)) }
{
    if text.len() > TEXT_LIMIT {
        return Err(Fault::TextTooLong);
    }
    if !is_utf8(text) {
        return Err(Fault::NotUtf8);
    }
    let tokens = scan(alloc, text)?;
    Ok(tokens)
}

/// The tokens of a text with the marks of its blocks and items, where the text ends at a place.
fn with_marks<'a>(alloc: Global, tokens: &Blocks<'a>, end: Place) -> Result<Blocks<'a>, AllocError>
    ensures { IfOk result (IsMarked tokens.now end) }
{
    let pieces = pieces(alloc, tokens.tokens())?;
    let marks = lay(alloc, pieces.as_slice())?;
    join(alloc, tokens.tokens(), marks.as_slice(), end)
}

/// The same by plain recursion.
fn with_plain_marks<'a>(
    alloc: Global,
    tokens: &Blocks<'a>,
    end: Place,
) -> Result<Blocks<'a>, AllocError>
    ensures { IfOk result (IsMarked tokens.now end) }
{
    let pieces = pieces(alloc, tokens.tokens())?;
    let marks = lay_plainly(alloc, pieces.as_slice())?;
    join(alloc, tokens.tokens(), marks.as_slice(), end)
}

/// The tokens of a text with the marks of its blocks and items. The fault is the first of the text; `Memory` may come
/// at any text.
pub fn lex(alloc: Global, text: &[u8]) -> Result<Blocks<'_>, Fault>
    ensures layout { IfOk result (λ blocks. Lays text.now blocks) }
    ensures fault { IfErr result (λ fault. (fault ≡ Memory) ⊎ IsFirstFault text.now fault) }
    ensures size { IsErrOf result TextTooLong ↔ (262144 < length text.now) }
    ensures encoding { IsErrOf result NotUtf8 ↔ ((length text.now ≤ 262144) × (¬ IsUtf8 text.now)) }
{
    let (tokens, end) = tokens_in(alloc, text)?;
    let blocks = with_marks(alloc, &tokens, end)?;
    Ok(blocks)
}

/// The same as `lex`, with the marks by plain recursion, each case as the rules state it. It is for small texts: it
/// calls itself for each token, and takes stack in proportion to the length of the text.
pub fn layout_of(alloc: Global, text: &[u8]) -> Result<Blocks<'_>, Fault>
    ensures layout { IfOk result (λ blocks. Lays text.now blocks) }
    ensures fault { IfErr result (λ fault. (fault ≡ Memory) ⊎ IsFirstFault text.now fault) }
{
    let (tokens, end) = tokens_in(alloc, text)?;
    let blocks = with_plain_marks(alloc, &tokens, end)?;
    Ok(blocks)
}

/// A text has at most one layout, at most one first fault, and not both. The tokens of a layout are slices of the text,
/// in order, and all tokens of the text are there.
pub fn layout_law()
    ensures layout { LayoutIsUnique }
    ensures fault { FaultIsUnique }
    ensures either { LayoutHasNoFault }
    ensures slices { TokensAreSlices }
    ensures kept { TokensAreKept }
{}
