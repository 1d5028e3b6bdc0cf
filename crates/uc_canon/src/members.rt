//! The members of a component, one by one.
ghost use Rattle.std.specs.Prelude.{◌≡◌, ◌++◌, IfOk, OnOk, map};
ghost use Rattle.uc_tree.specs.declared.item.Item.TheVariants as spec;
ghost use Rattle.uc_canon.specs.Members.{members_of, items_of};
ghost use Rattle.uc_canon.specs.Starts.{item_text, head_text};

use crate::component::Component;
use crate::write::{write_declaration, write_definition};
use crate::write_basics::write_number;
use std::alloc::{AllocError, Global};
use uc_tree::{Decl, Definition, Item};

fn definition_items(alloc: Global, members: &[Definition]) -> Result<Vec<Item>, AllocError>
    ensures { IfOk result (λ items. items.items ≡ map spec.Term members.now) }
{
    let mut items = Vec::new(alloc);
    for member in members {
        items.push(Item::Term(member.copy(alloc)?))?;
    }
    Ok(items)
}

fn declaration_items(alloc: Global, members: &[Decl]) -> Result<Vec<Item>, AllocError>
    ensures { IfOk result (λ items. items.items ≡ map spec.Kind members.now) }
{
    let mut items = Vec::new(alloc);
    for member in members {
        items.push(Item::Kind(member.copy(alloc)?))?;
    }
    Ok(items)
}

/// A copy of each member.
pub(crate) fn items_of(alloc: Global, of: &Component) -> Result<Vec<Item>, AllocError>
    ensures { IfOk result (λ items. items.items ≡ items_of (members_of of.now)) }
{
    match of {
        Component::Terms(members) => definition_items(alloc, members),
        Component::Kinds(members) => declaration_items(alloc, members),
    }
}

/// Writes what stands in front of the members.
pub(crate) fn write_head(of: &Component, count: usize, out: &mut Vec<u8>) -> Result<(), AllocError>
    ensures { OnOk result (out.new.items ≡ out.old.items ++ head_text (members_of of.now) count) }
{
    match of {
        Component::Terms(_) => out.push(b'T')?,
        Component::Kinds(_) => out.push(b'D')?,
    }
    write_number(count as u64, out)
}

/// Writes a member.
pub(crate) fn write_item(item: &Item, out: &mut Vec<u8>) -> Result<(), AllocError>
    ensures { OnOk result (out.new.items ≡ out.old.items ++ item_text item.now) }
{
    match item {
        Item::Term(definition) => write_definition(definition, out),
        Item::Kind(declaration) => write_declaration(declaration, out),
    }
}
