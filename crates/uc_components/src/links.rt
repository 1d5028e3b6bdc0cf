//! The graph of the components, by their numbers.
ghost use Rattle.std.specs.Prelude.{◌≡◌, ◌<◌, ◌≤◌, ◌⊎◌, ℕ, length, slice_index, IfOk, OnOk};
ghost use Rattle.uc_base.specs.Graph.{Edge, InRange, row};
ghost use Rattle.uc_components.specs.Links.{IsLink, AreLinks, IsCovered, Keeps};
ghost use Rattle.uc_components.specs.Rows.{lists, pushed};

use crate::graph::Graph;
use crate::rows::{empty_rows, push_at};
use std::alloc::{AllocError, Global};

/// For each component the others to which its members refer, and those whose members refer to it.
#[derive(Drop)]
pub struct Links {
    pub references: Vec<Vec<usize>>,
    pub referrers: Vec<Vec<usize>>,
}

fn link(links: &mut Links, from: usize, to: usize) -> Result<(), AllocError>
    requires from { from < length (lists links.old.references) }
    requires to { to < length (lists links.old.referrers) }
    ensures references { OnOk result (lists links.new.references ≡ pushed (lists links.old.references) from to) }
    ensures referrers { OnOk result (lists links.new.referrers ≡ pushed (lists links.old.referrers) to from) }
{
    push_at(&mut links.references, from, to)?;
    push_at(&mut links.referrers, to, from)
}

// Links a component for one reference of a member.
fn link_reference(
    links: &mut Links,
    _graph: &Graph,
    home: &[usize],
    _vertex: usize,
    target: usize,
) -> Result<(), AllocError>
    requires vertex { _vertex < length _graph.now }
    requires edge { Edge _graph.now _vertex target }
    requires below { (v : ℕ) → v < length _graph.now → slice_index home.now v < length (lists links.old.references) }
    requires target { target < length home.now }
    requires home { length home.now ≡ length _graph.now }
    requires links { AreLinks _graph.now home.now (length (lists links.old.references)) (lists links.old.references) (lists links.old.referrers) }
    ensures links { OnOk result (AreLinks _graph.now home.now (length (lists links.old.references)) (lists links.new.references) (lists links.new.referrers)) }
    ensures covered { OnOk result (IsCovered home.now (lists links.new.references) _vertex target) }
    ensures keeps { OnOk result (Keeps (lists links.old.references) (lists links.new.references)) }
{
    let from = home[_vertex];
    let to = home[target];
    if to != from {
        link(links, from, to)?;
    }
    Ok(())
}

// Links a component for each reference of a member.
fn link_vertex(
    links: &mut Links,
    graph: &Graph,
    home: &[usize],
    vertex: usize,
) -> Result<(), AllocError>
    requires vertex { vertex < length graph.now }
    requires below { (v : ℕ) → v < length graph.now → slice_index home.now v < length (lists links.old.references) }
    requires range { InRange graph.now }
    requires home { length home.now ≡ length graph.now }
    requires links { AreLinks graph.now home.now (length (lists links.old.references)) (lists links.old.references) (lists links.old.referrers) }
    ensures links { OnOk result (AreLinks graph.now home.now (length (lists links.old.references)) (lists links.new.references) (lists links.new.referrers)) }
    ensures covered { OnOk result ((v : ℕ) → Edge graph.now vertex v → IsCovered home.now (lists links.new.references) vertex v) }
    ensures keeps { OnOk result (Keeps (lists links.old.references) (lists links.new.references)) }
{
    for at in 0..graph.degree(vertex) {
        let target = graph.reference(vertex, at);
        link_reference(links, graph, home, vertex, target)?;
    }
    Ok(())
}

/// The graph of the components.
pub fn linked(
    alloc: Global,
    graph: &Graph,
    home: &[usize],
    count: usize,
) -> Result<Links, AllocError>
    requires below { (v : ℕ) → v < length graph.now → slice_index home.now v < count }
    requires range { InRange graph.now }
    requires home { length home.now ≡ length graph.now }
    ensures links { IfOk result (λ links. AreLinks graph.now home.now count (lists links.references) (lists links.referrers)) }
    ensures covered { IfOk result (λ links. (u v : ℕ) → u < length graph.now → Edge graph.now u v → IsCovered home.now (lists links.references) u v) }
{
    let mut links = Links {
        references: empty_rows(alloc, count)?,
        referrers: empty_rows(alloc, count)?,
    };
    for vertex in 0..graph.len() {
        link_vertex(&mut links, graph, home, vertex)?;
    }
    Ok(links)
}
