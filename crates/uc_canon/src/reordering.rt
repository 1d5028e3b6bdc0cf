//! The members of a component in another order.
ghost use Rattle.std.specs.Prelude.{◌≡◌, ℕ, ◌<◌, ◌^◌, Some, length, map, slice_index, IsSome, IfOk, IfErr};
ghost use Rattle.uc_base.specs.declared.fault.Fault.TheVariants.{Memory};
ghost use Rattle.uc_tree.specs.Replacing.{by_members, replaced_definition, replaced_declaration};
ghost use Rattle.uc_canon.specs.Members.{members_of, count_of};
ghost use Rattle.uc_canon.specs.Numbering.{IsClosed, IsArrangement, IsReordered};
ghost use Rattle.uc_canon.specs.Starts.{definition_at, declaration_at};

use crate::component::Component;
use crate::first_reach::renumbering;
use crate::links::MEMBERS_LIMIT;
use std::alloc::Global;
use uc_base::Fault;
use uc_tree::{Decl, Definition, Item, Target, with_members};

fn renumbered_definition(
    alloc: Global,
    definition: &Definition,
    numbers: &[Target],
) -> Result<Definition, Fault>
    requires { IsSome (replaced_definition (by_members numbers.now) definition.now) }
    ensures definition { IfOk result (λ renumbered. Some renumbered ≡ replaced_definition (by_members numbers.now) definition.now) }
    ensures err { IfErr result (λ fault. fault ≡ Memory) }
{
    let item = Item::Term(definition.copy(alloc)?);
    match with_members(alloc, &item, numbers)? {
        Some(Item::Term(renumbered)) => Ok(renumbered),
        _ => unreachable!(),
    }
}

fn renumbered_declaration(
    alloc: Global,
    declaration: &Decl,
    numbers: &[Target],
) -> Result<Decl, Fault>
    requires { IsSome (replaced_declaration (by_members numbers.now) declaration.now) }
    ensures declaration { IfOk result (λ renumbered. Some renumbered ≡ replaced_declaration (by_members numbers.now) declaration.now) }
    ensures err { IfErr result (λ fault. fault ≡ Memory) }
{
    let item = Item::Kind(declaration.copy(alloc)?);
    match with_members(alloc, &item, numbers)? {
        Some(Item::Kind(renumbered)) => Ok(renumbered),
        _ => unreachable!(),
    }
}

fn reordered_definitions(
    alloc: Global,
    members: &[Definition],
    order: &[u32],
    numbers: &[Target],
) -> Result<Vec<Definition>, Fault>
    requires below { (k : ℕ) → k < length order.now → slice_index order.now k < length members.now }
    requires there { (u : ℕ) → u < length members.now → IsSome (definition_at numbers.now members.now u) }
    ensures definitions { IfOk result (λ moved. map Some moved.items ≡ map (definition_at numbers.now members.now) order.now) }
    ensures err { IfErr result (λ fault. fault ≡ Memory) }
{
    let mut moved = Vec::new(alloc);
    for member in order {
        let definition = &members[*member as usize];
        moved.push(renumbered_definition(alloc, definition, numbers)?)?;
    }
    Ok(moved)
}

fn reordered_declarations(
    alloc: Global,
    members: &[Decl],
    order: &[u32],
    numbers: &[Target],
) -> Result<Vec<Decl>, Fault>
    requires below { (k : ℕ) → k < length order.now → slice_index order.now k < length members.now }
    requires there { (u : ℕ) → u < length members.now → IsSome (declaration_at numbers.now members.now u) }
    ensures declarations { IfOk result (λ moved. map Some moved.items ≡ map (declaration_at numbers.now members.now) order.now) }
    ensures err { IfErr result (λ fault. fault ≡ Memory) }
{
    let mut moved = Vec::new(alloc);
    for member in order {
        let declaration = &members[*member as usize];
        moved.push(renumbered_declaration(alloc, declaration, numbers)?)?;
    }
    Ok(moved)
}

/// The members in an order, numbered anew. Where there are 2^32 of them, it answers `Memory`.
pub fn reordered(alloc: Global, of: &Component, order: &[u32]) -> Result<Component, Fault>
    requires closed { IsClosed (members_of of.now) }
    requires arrangement { IsArrangement (count_of (members_of of.now)) order.now }
    ensures reordered { IfOk result (λ component. IsReordered order.now (members_of of.now) (members_of component)) }
    ensures err { IfErr result (λ fault. fault ≡ Memory) }
{
    if order.len() >= MEMBERS_LIMIT {
        return Err(Fault::Memory);
    }
    let numbers = renumbering(alloc, order, order.len())?;
    match of {
        Component::Terms(members) => {
            let moved = reordered_definitions(alloc, members, order, &numbers)?;
            Ok(Component::Terms(moved))
        }
        Component::Kinds(members) => {
            let moved = reordered_declarations(alloc, members, order, &numbers)?;
            Ok(Component::Kinds(moved))
        }
    }
}
