//! Which member of a component refers to which.
ghost use Rattle.std.specs.Prelude.{◌≡◌, ◌↔◌, ◌<◌, ◌^◌, IsTrue, IfOk, IfErr, map};
ghost use Rattle.uc_base.specs.declared.fault.Fault.TheVariants.{Memory};
ghost use Rattle.uc_canon.specs.Members.{members_of, count_of};
ghost use Rattle.uc_canon.specs.Numbering.{members_among, links_of, IsOneComponent};

use crate::component::Component;
use crate::members::items_of;
use std::alloc::{AllocError, Global};
use uc_base::Fault;
use uc_components::{Graph, components};
use uc_tree::{Item, Target, targets_of};

/// A component has fewer members: their numbers have 32 bits.
pub(crate) const MEMBERS_LIMIT: usize = 4_294_967_296;

fn members_among(alloc: Global, targets: &[Target]) -> Result<Vec<u32>, AllocError>
    ensures { IfOk result (λ members. members.items ≡ members_among targets.now) }
{
    let mut members = Vec::new(alloc);
    for target in targets {
        match target {
            Target::Stored(_) => {}
            Target::Own(member) => members.push(*member)?,
            Target::OwnCtor(member, _) => members.push(*member)?,
        }
    }
    Ok(members)
}

/// The graph of the members.
pub(crate) fn graph_of(alloc: Global, items: &[Item]) -> Result<Graph, Fault>
    ensures graph { IfOk result (λ graph. graph ≡ map links_of items.now) }
    ensures err { IfErr result (λ fault. fault ≡ Memory) }
{
    let mut edges = Vec::new(alloc);
    for item in items {
        let targets = targets_of(alloc, item)?;
        edges.push(members_among(alloc, &targets)?)?;
    }
    Ok(Graph { edges })
}

/// Whether the members are one component. Where there are 2^32 of them, it answers `Memory`.
pub(crate) fn is_one_component(alloc: Global, of: &Component) -> Result<bool, Fault>
    ensures yes { IfOk result (λ yes. IsTrue yes ↔ IsOneComponent (members_of of.now)) }
    ensures small { IfOk result (λ _. count_of (members_of of.now) < 2 ^ 32) }
    ensures err { IfErr result (λ fault. fault ≡ Memory) }
{
    let items = items_of(alloc, of)?;
    if items.len() >= MEMBERS_LIMIT {
        return Err(Fault::Memory);
    }
    let graph = graph_of(alloc, &items)?;
    if !graph.is_in_range() {
        return Ok(false);
    }
    let components = components(alloc, &graph)?;
    Ok(components.len() == 1)
}
