//! The members of a component as stored items.
ghost use Rattle.std.specs.Prelude.{◌≡◌, Some, map, IsSome, IfOk, IfErr};
ghost use Rattle.std.specs.List.{All};
ghost use Rattle.uc_base.specs.declared.fault.Fault.TheVariants.{Memory};
ghost use Rattle.uc_tree.specs.Replacing.{by_members, replaced};
ghost use Rattle.uc_canon.specs.Members.{members_of};
ghost use Rattle.uc_canon.specs.Numbering.{IsClosed};
ghost use Rattle.uc_canon.specs.Opening.{stored_members, IsOpened, AreMembers, Closes};

use crate::component::Component;
use crate::links::MEMBERS_LIMIT;
use crate::members::items_of;
use std::alloc::{AllocError, Global};
use uc_base::{Fault, Hash, Ref};
use uc_tree::{Item, Target, with_members, with_own};

/// What stands for each member of a component that is stored under a hash.
fn stored_members(alloc: Global, hash: &Hash, count: u32) -> Result<Vec<Target>, AllocError>
    ensures { IfOk result (λ members. members.items ≡ stored_members hash.now count) }
{
    let mut members = Vec::new(alloc);
    for member in 0..count {
        members.push(Target::Stored(Ref::Def(*hash, member)))?;
    }
    Ok(members)
}

/// The members of a component that is stored under a hash, with references to stored definitions and declarations in
/// place of their own targets. Where there are 2^32 members, it answers `Memory`.
pub fn open_component(alloc: Global, of: &Component, hash: &Hash) -> Result<Vec<Item>, Fault>
    requires { IsClosed (members_of of.now) }
    ensures opened { IfOk result (λ items. IsOpened hash.now (members_of of.now) items.items) }
    ensures err { IfErr result (λ fault. fault ≡ Memory) }
{
    let items = items_of(alloc, of)?;
    if items.len() >= MEMBERS_LIMIT {
        return Err(Fault::Memory);
    }
    let members = stored_members(alloc, hash, items.len() as u32)?;
    let mut opened = Vec::new(alloc);
    for item in &items {
        opened.push(with_members(alloc, item, &members)?.unwrap())?;
    }
    Ok(opened)
}

/// The component of items that refer to one another: each reference of a list becomes the member with the number of
/// its first place there. Where there are 2^32 references, it answers `Memory`.
pub fn close_component(alloc: Global, items: &[Item], own: &[Ref]) -> Result<Component, Fault>
    requires { AreMembers items.now }
    ensures closed { IfOk result (λ component. Closes own.now items.now (members_of component)) }
    ensures err { IfErr result (λ fault. fault ≡ Memory) }
{
    if own.len() >= MEMBERS_LIMIT {
        return Err(Fault::Memory);
    }
    let mut definitions = Vec::new(alloc);
    let mut declarations = Vec::new(alloc);
    for item in items {
        match with_own(alloc, item, own)? {
            Item::Term(definition) => definitions.push(definition)?,
            Item::Kind(declaration) => declarations.push(declaration)?,
        }
    }
    if declarations.is_empty() {
        Ok(Component::Terms(definitions))
    } else {
        Ok(Component::Kinds(declarations))
    }
}
