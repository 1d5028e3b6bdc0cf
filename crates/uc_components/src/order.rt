//! The components by their numbers, put in order: of those whose references are all placed, the one with the least member comes next.
ghost use Rattle.std.specs.Prelude.{◌≡◌, ◌<◌, ◌≤◌, ◌^◌, ◌⊎◌, ℕ, true, false, length, slice_index, slice_set, IfOk, OnOk, IfErr, IfSome, IfNone};
ghost use Rattle.std.specs.List.{Contains};
ghost use Rattle.uc_base.specs.Graph.{Edge, InRange, row, IsComponentOrder};
ghost use Rattle.uc_base.specs.declared.fault.Fault.TheVariants.{Memory};
ghost use Rattle.uc_components.specs.Rows.{lists};
ghost use Rattle.uc_components.specs.Links.{AreLinks};
ghost use Rattle.uc_components.specs.Searched.{flag, IsHome};
ghost use Rattle.uc_components.specs.Order.{IsMembers, TakesLeast, stage_of, IsStage, IsKnown, AllKnown, placed_at, IsTaken};

use crate::graph::Graph;
use crate::links::{Links, linked};
use crate::rows::{empty_rows, push_at, row_at, take_row};
use crate::search::find_homes;
use std::alloc::{AllocError, Global};
use std::collections::BTreeSet;
use uc_base::Fault;

// What is placed, and what waits. A component waits for one of its references, the one at its cursor.
#[derive(Drop)]
struct Queue {
    home: Vec<usize>,
    parts: Vec<Vec<u32>>,
    placed: Vec<bool>,
    cursors: Vec<usize>,
    ready: BTreeSet<u32>,
}

// The members of each component.
fn gathered(alloc: Global, home: &[usize], count: usize) -> Result<Vec<Vec<u32>>, AllocError>
    requires below { (v : ℕ) → v < length home.now → slice_index home.now v < count }
    requires small { length home.now < 2 ^ 32 }
    ensures len { IfOk result (λ parts. length (lists parts) ≡ count) }
    ensures members { IfOk result (λ parts. (c : ℕ) → c < count → IsMembers home.now c (row (lists parts) c)) }
{
    let mut parts = empty_rows(alloc, count)?;
    for vertex in 0..home.len() {
        push_at(&mut parts, home[vertex], vertex as u32)?;
    }
    Ok(parts)
}

fn add_ready(ready: &mut BTreeSet<u32>, least: u32) -> Result<(), AllocError>
    ensures has { OnOk result (Contains ready.new.keys least) }
    ensures keeps { OnOk result ((x : ℕ) → Contains ready.old.keys x → Contains ready.new.keys x) }
    ensures cases { OnOk result ((x : ℕ) → Contains ready.new.keys x → (x ≡ least) ⊎ Contains ready.old.keys x) }
{
    ready.insert(least)?;
    Ok(())
}

fn take_least(ready: &mut BTreeSet<u32>) -> Option<u32>
    ensures some { IfSome result (λ x. TakesLeast ready.old.keys x ready.new.keys) }
    ensures none { IfNone result ((x : ℕ) → Contains ready.old.keys x → ⊥) }
{
    ready.pop_first()
}

// The place of the first reference from a place on that isn't placed, or the count of references.
fn first_unplaced(references: &[usize], from: usize, placed: &[bool]) -> usize
    requires { (k : ℕ) → k < length references.now → slice_index references.now k < length placed.now }
    ensures passed { (k : ℕ) → from ≤ k → k < result → k < length references.now → flag placed.now (slice_index references.now k) ≡ true }
    ensures stops { result < length references.now → flag placed.now (slice_index references.now result) ≡ false }
{
    for at in from..references.len() {
        if !placed[references[at]] {
            return at;
        }
    }
    references.len()
}

// Moves a component's cursor on as far as its references are placed; past the last of them the component is ready.
fn advance(queue: &mut Queue, links: &Links, part: usize) -> Result<(), AllocError>
    requires part { part < length queue.old.placed.items }
    requires new { flag queue.old.placed.items part ≡ false }
    requires stage { IsStage (lists links.now.references) (stage_of queue.old) }
    ensures stage { OnOk result (IsStage (lists links.now.references) (stage_of queue.new)) }
    ensures same { OnOk result (queue.new ≡ record queue.old { cursors = queue.new.cursors; ready = queue.new.ready }) }
    ensures known { OnOk result (IsKnown (lists links.now.references) (stage_of queue.new) part) }
    ensures keeps { OnOk result ((c : ℕ) → IsKnown (lists links.now.references) (stage_of queue.old) c → IsKnown (lists links.now.references) (stage_of queue.new) c) }
{
    let references = row_at(&links.references, part);
    let cursor = first_unplaced(references, queue.cursors[part], queue.placed.as_slice());
    queue.cursors[part] = cursor;
    if cursor < references.len() {
        return Ok(());
    }
    let least = row_at(&queue.parts, part)[0];
    add_ready(&mut queue.ready, least)?;
    Ok(())
}

// Moves the cursors of the components that refer to a component which was placed.
fn wake(queue: &mut Queue, links: &Links, part: usize) -> Result<(), AllocError>
    requires part { part < length (lists links.now.referrers) }
    requires new { (c : ℕ) → Edge (lists links.now.referrers) part c → (c < length queue.old.placed.items) × (flag queue.old.placed.items c ≡ false) }
    requires stage { IsStage (lists links.now.references) (stage_of queue.old) }
    ensures stage { OnOk result (IsStage (lists links.now.references) (stage_of queue.new)) }
    ensures same { OnOk result (queue.new ≡ record queue.old { cursors = queue.new.cursors; ready = queue.new.ready }) }
    ensures known { OnOk result ((c : ℕ) → Edge (lists links.now.referrers) part c → IsKnown (lists links.now.references) (stage_of queue.new) c) }
    ensures keeps { OnOk result ((c : ℕ) → IsKnown (lists links.now.references) (stage_of queue.old) c → IsKnown (lists links.now.references) (stage_of queue.new) c) }
{
    let referrers = row_at(&links.referrers, part);
    for other in referrers {
        advance(queue, links, *other)?;
    }
    Ok(())
}

// Places a component, and takes its members.
fn place(alloc: Global, queue: &mut Queue, part: usize) -> Vec<u32>
    requires part { part < length queue.old.placed.items }
    requires parts { part < length (lists queue.old.parts) }
    ensures members { result.items ≡ row (lists queue.old.parts) part }
    ensures stage { stage_of queue.new ≡ placed_at (stage_of queue.old) part }
{
    queue.placed[part] = true;
    take_row(alloc, &mut queue.parts, part)
}

// The next component, if one is left.
fn next(alloc: Global, queue: &mut Queue, links: &Links) -> Result<Option<Vec<u32>>, AllocError>
    requires stage { IsStage (lists links.now.references) (stage_of queue.old) }
    requires known { AllKnown (lists links.now.references) (stage_of queue.old) }
    requires referrers { length (lists links.now.referrers) ≡ length queue.old.placed.items }
    requires mirrored { (c d : ℕ) → Edge (lists links.now.references) c d → Edge (lists links.now.referrers) d c }
    requires back { (c d : ℕ) → Edge (lists links.now.referrers) d c → Edge (lists links.now.references) c d }
    ensures some { IfOk result (λ taken. IfSome taken (λ members. IsTaken (lists links.now.references) (stage_of queue.old) (stage_of queue.new) members.items)) }
    ensures none { IfOk result (λ taken. IfNone taken ((x : ℕ) → Contains queue.old.ready.keys x → ⊥)) }
{
    let Some(least) = take_least(&mut queue.ready) else {
        return Ok(None);
    };
    let part = queue.home[least as usize];
    let members = place(alloc, queue, part);
    wake(queue, links, part)?;
    Ok(Some(members))
}

// Nothing is placed yet.
fn begun(alloc: Global, links: &Links, home: Vec<usize>, count: usize) -> Result<Queue, AllocError>
    requires below { (v : ℕ) → v < length home.items → slice_index home.items v < count }
    requires used { (c : ℕ) → c < count → (v : ℕ) × (v < length home.items) × (slice_index home.items v ≡ c) }
    requires small { length home.items < 2 ^ 32 }
    requires len { length (lists links.now.references) ≡ count }
    requires descends { (c d : ℕ) → Edge (lists links.now.references) c d → d < c }
    ensures stage { IfOk result (λ queue. IsStage (lists links.now.references) (stage_of queue)) }
    ensures known { IfOk result (λ queue. AllKnown (lists links.now.references) (stage_of queue)) }
    ensures new { IfOk result (λ queue. (c : ℕ) → flag queue.placed.items c ≡ false) }
    ensures home { IfOk result (λ queue. queue.home.items ≡ home.items) }
    ensures count { IfOk result (λ queue. length queue.placed.items ≡ count) }
{
    let parts = gathered(alloc, home.as_slice(), count)?;
    let mut queue = Queue {
        home,
        parts,
        placed: vec![in alloc; false; count]?,
        cursors: vec![in alloc; 0; count]?,
        ready: BTreeSet::new(alloc),
    };
    for part in 0..count {
        advance(&mut queue, links, part)?;
    }
    Ok(queue)
}

fn ordered(
    alloc: Global,
    graph: &Graph,
    home: Vec<usize>,
    count: usize,
) -> Result<Vec<Vec<u32>>, AllocError>
    requires range { InRange graph.now }
    requires small { length graph.now < 2 ^ 32 }
    requires home { IsHome graph.now home.items count }
    ensures { IfOk result (λ components. IsComponentOrder graph.now (lists components)) }
{
    let links = linked(alloc, graph, home.as_slice(), count)?;
    let mut queue = begun(alloc, &links, home, count)?;
    let mut components = Vec::new(alloc);
    while let Some(members) = next(alloc, &mut queue, &links)? {
        components.push(members)?;
    }
    Ok(components)
}

/// The components of a graph: at each place stands, among the components whose references all stand before it, the one with the least member. Members ascend. A path of references takes no stack.
///
/// # Errors
///
/// `Memory` alone.
pub fn components(alloc: Global, graph: &Graph) -> Result<Vec<Vec<u32>>, Fault>
    requires range { InRange graph.now }
    requires small { length graph.now < 2 ^ 32 }
    ensures order { IfOk result (λ components. IsComponentOrder graph.now (lists components)) }
    ensures err { IfErr result (λ fault. fault ≡ Memory) }
{
    let homes = find_homes(alloc, graph)?;
    let components = ordered(alloc, graph, homes.home, homes.count)?;
    Ok(components)
}
