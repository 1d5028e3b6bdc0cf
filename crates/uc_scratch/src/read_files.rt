//! The reader of scratch files.
ghost use Rattle.std.specs.Prelude.{◌≡◌, ◌<◌, ◌≤◌, ◌⊎◌, List, [], ◌∷◌, None, length, nat_lt, IfOk, IfErr, IsErrOf};
ghost use Rattle.uc_base.specs.declared.fault.Fault.TheVariants.{Memory};
ghost use Rattle.uc_layout.specs.Tokens.{seen};
ghost use Rattle.uc_scratch.specs.declared.stop.Stop.TheVariants.{Absent};
ghost use Rattle.uc_scratch.specs.Files.{Item as Plain};
ghost use Rattle.uc_scratch.specs.FileViews.{item_of, items_of};
ghost use Rattle.uc_scratch.specs.Terminals.{terminals_of};
ghost use Rattle.uc_scratch.specs.ItemGrammar.{items_among};
ghost use Rattle.uc_scratch.specs.FileLevels as spec;
ghost use Rattle.uc_scratch.specs.FileLevels.{AreShallow};
ghost use Rattle.uc_scratch.specs.Signatures as signatures;
ghost use Rattle.uc_scratch.specs.Rooms.{HasRoom};
ghost use Rattle.uc_scratch.specs.Reading.{ReadsTokens, ReadsItems, Reads, IsItemsFault, IsFileFault};

#[cfg(test)]
mod tests;

use crate::file::{File, Item};
use crate::file_faults::name_fault;
use crate::item_levels::{item_levels, signed_behind};
use crate::items::first_item;
use crate::nesting::{LEVEL_LIMIT, too_deep_place};
use crate::read_items::read_item;
use crate::rooms::fits;
use crate::signed::Signed;
use crate::stop::Stop;
use crate::terminal::terminals;
use std::alloc::{AllocError, Global};
use uc_base::Fault;
use uc_layout::{Blocks, Token};

/// How many levels a tree may have.
const TREE_LEVEL_LIMIT: u64 = 512;

/// What some items give to a binding that follows them.
fn signed_after<'a>(alloc: Global, items: &'a [Item]) -> Result<Option<Signed<'a>>, AllocError>
    ensures { IfOk result (λ signed. signed ≡ signatures.signed_after (items_of items.now)) }
{
    match items.last() {
        None => Ok(None),
        Some(item) => signed_behind(alloc, item),
    }
}

/// Whether an item that follows others has a tree past the limit of levels.
fn is_too_deep(alloc: Global, before: &[Item], item: &Item) -> Result<bool, AllocError>
    ensures { IfOk result (λ deep. deep
        ≡ nat_lt 512 (spec.item_levels (signatures.signed_after (items_of before.now)) (item_of item.now))) }
{
    let signed = signed_after(alloc, before)?;
    Ok(item_levels(alloc, &signed, item)? > TREE_LEVEL_LIMIT)
}

/// Reads one item of a text that nests nowhere too deep.
fn read_tokens(alloc: Global, tokens: &[Token]) -> Result<Item, Stop>
    requires { HasRoom (terminals_of (seen tokens.now)) }
    ensures found { IfOk result (λ item. ReadsTokens (seen tokens.now) (item_of item)) }
    ensures none { IsErrOf result Absent → (i : Plain) → ReadsTokens (seen tokens.now) i → ⊥ }
{
    let terminals = terminals(alloc, tokens)?;
    if !fits(LEVEL_LIMIT, terminals.as_slice()) {
        return Err(Stop::Absent);
    }
    read_item(alloc, terminals.as_slice())
}

/// Reads an item that follows others. The fault is that of the item alone.
fn read_after(alloc: Global, before: &[Item], tokens: &[Token]) -> Result<Item, Fault>
    requires some { 0 < length tokens.now }
    requires room { HasRoom (terminals_of (seen tokens.now)) }
    ensures item { IfOk result (λ item. ReadsTokens (seen tokens.now) (item_of item)) }
    ensures levels { IfOk result (λ item.
        spec.item_levels (signatures.signed_after (items_of before.now)) (item_of item) ≤ 512) }
    ensures fault { IfErr result (λ fault. (fault ≡ Memory)
        ⊎ IsItemsFault (signatures.signed_after (items_of before.now)) (seen tokens.now ∷ []) fault) }
{
    let place = tokens[0].place;
    let item = match read_tokens(alloc, tokens) {
        Ok(item) => item,
        Err(Stop::Memory) => return Err(Fault::Memory),
        Err(Stop::Absent) => return Err(Fault::BadSyntax(place)),
    };
    if is_too_deep(alloc, before, &item)? {
        return Err(Fault::TooDeep(place));
    }
    Ok(item)
}

/// Reads the items of a text that nests nowhere too deep.
fn read_items(alloc: Global, tokens: &[Token]) -> Result<Vec<Item>, Fault>
    requires { HasRoom (terminals_of (seen tokens.now)) }
    ensures items { IfOk result (λ items. ReadsItems (items_among (seen tokens.now)) (items_of items.items)) }
    ensures levels { IfOk result (λ items. AreShallow None (items_of items.items)) }
    ensures fault { IfErr result (λ fault. (fault ≡ Memory)
        ⊎ IsItemsFault None (items_among (seen tokens.now)) fault) }
{
    let mut items = Vec::new(alloc);
    let mut rest = tokens;
    'items: while let Some((first, _)) = first_item(rest) {
        let item = read_after(alloc, items.as_slice(), first)?;
        items.push(item)?;
        rest = &rest[first.len()..];
    }
    Ok(items)
}

/// Reads a file from the tokens of its text. The fault is the first of the text; `Memory` may come
/// at any text.
pub fn read_file(alloc: Global, blocks: &Blocks<'_>) -> Result<File, Fault>
    ensures reading { IfOk result (Reads blocks.now) }
    ensures fault { IfErr result (λ fault. (fault ≡ Memory) ⊎ IsFileFault blocks.now fault) }
{
    let tokens = blocks.tokens();
    if let Some(place) = too_deep_place(alloc, tokens)? {
        return Err(Fault::TooDeep(place));
    }
    let items = read_items(alloc, tokens)?;
    match name_fault(alloc, items.as_slice())? {
        None => Ok(File { items }),
        Some(fault) => Err(fault),
    }
}
