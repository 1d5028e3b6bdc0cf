//! The search for components: a walk down one path, which keeps apart the parts that reach each other.
ghost use Rattle.std.specs.Prelude.{◌≡◌, ℕ, length, ◌<◌, ◌≤◌, ◌-◌, IfOk, slice_index};
ghost use Rattle.uc_components.specs.Searched.{state_of, entered, counted, Good};

use crate::graph::Graph;
use std::alloc::{AllocError, Global};

#[derive(Drop)]
pub struct Search {
    pub seen: Vec<bool>,
    pub closed: Vec<bool>,
    pub index: Vec<usize>,
    pub home: Vec<usize>,
    pub opened: Vec<usize>,
    pub bounds: Vec<usize>,
    pub path: Vec<usize>,
    pub nexts: Vec<usize>,
    pub heads: Vec<usize>,
}

fn enter(search: &mut Search, vertex: usize) -> Result<(), AllocError>
    requires seen { vertex < length search.old.seen.items }
    requires index { vertex < length search.old.index.items }
    ensures { IfOk result (λ _. state_of search.new ≡ entered (state_of search.old) vertex) }
{
    let at = search.opened.len();
    search.opened.push(vertex)?;
    search.bounds.push(at)?;
    search.path.push(at)?;
    search.nexts.push(0)?;
    search.seen[vertex] = true;
    search.index[vertex] = at;
    Ok(())
}

ghost use Rattle.std.specs.Prelude.{List, ◌+◌, ◌++◌, true, false};
ghost use Rattle.uc_base.specs.Graph.{InRange};
ghost use Rattle.uc_components.specs.Searched.{Looking, Looked, Merging, Leaving, Closes, shut, flag, target};

// Makes one part of those that a reference to an open vertex closes into a cycle.
fn merge(search: &mut Search, _graph: &Graph, _top: usize, low: usize)
    requires merging { Merging _graph.now (state_of search.old) _top }
    requires low { low ≡ slice_index search.old.index.items (target _graph.now (state_of search.old) _top) }
    ensures looked { Looked _graph.now (state_of search.new) _top }
    ensures seen { search.new.seen ≡ search.old.seen }
{
    while search.bounds[search.bounds.len() - 1] > low {
        search.bounds.pop();
    }
}

// Looks at the reference at hand of the path's top.
fn look(search: &mut Search, graph: &Graph, top: usize) -> Result<(), AllocError>
    requires range { InRange graph.now }
    requires looking { Looking graph.now (state_of search.old) top }
    ensures looked { IfOk result (λ _. Looked graph.now (state_of search.new) top) }
    ensures grows { IfOk result (λ _. Grows (state_of search.old) (state_of search.new)) }
{
    let target = graph.reference(search.opened[search.path[top]], search.nexts[top]);
    if !search.seen[target] {
        return enter(search, target);
    }
    if search.closed[target] {
        return Ok(());
    }
    let low = search.index[target];
    merge(search, graph, top, low);
    Ok(())
}

fn count(search: &mut Search, graph: &Graph, top: usize)
    requires { Looked graph.now (state_of search.old) top }
    ensures good { Good graph.now (state_of search.new) }
    ensures seen { search.new.seen ≡ search.old.seen }
{
    let _degree = graph.degree(search.opened[search.path[top]]);
    search.nexts[top] += 1;
}

// Closes the vertices from a place on as a component.
fn close(search: &mut Search, from: usize) -> Result<(), AllocError>
    requires from { from < length search.old.opened.items }
    requires closed { (i : ℕ) → i < length search.old.opened.items → slice_index search.old.opened.items i < length search.old.closed.items }
    requires home { (i : ℕ) → i < length search.old.opened.items → slice_index search.old.opened.items i < length search.old.home.items }
    ensures { IfOk result (λ _. Closes (state_of search.old) from (length search.old.opened.items) (length search.old.heads.items) search.new.closed.items search.new.home.items × (state_of search.new ≡ shut (state_of search.old) from search.new.closed.items search.new.home.items)) }
{
    let number = search.heads.len();
    let first = search.opened[from];
    close_each(search, from, number);
    search.heads.push(first)?;
    search.opened.truncate(from);
    search.bounds.pop();
    search.path.pop();
    search.nexts.pop();
    Ok(())
}

fn close_each(search: &mut Search, from: usize, number: usize)
    requires from { from < length search.old.opened.items }
    requires closed { (i : ℕ) → i < length search.old.opened.items → slice_index search.old.opened.items i < length search.old.closed.items }
    requires home { (i : ℕ) → i < length search.old.opened.items → slice_index search.old.opened.items i < length search.old.home.items }
    ensures closes { Closes (state_of search.old) from (length search.old.opened.items) number search.new.closed.items search.new.home.items }
    ensures state { search.new ≡ record search.old { closed = search.new.closed; home = search.new.home } }
{
    for i in from..search.opened.len() {
        let vertex = search.opened[i];
        search.closed[vertex] = true;
        search.home[vertex] = number;
    }
}

fn leave(search: &mut Search, graph: &Graph, top: usize) -> Result<(), AllocError>
    requires { Leaving graph.now (state_of search.old) top }
    ensures good { IfOk result (λ _. Good graph.now (state_of search.new)) }
    ensures grows { IfOk result (λ _. Grows (state_of search.old) (state_of search.new)) }
{
    let _degree = graph.degree(search.opened[search.path[top]]);
    let from = search.path[top];
    if search.bounds[search.bounds.len() - 1] == from {
        return close(search, from);
    }
    search.path.pop();
    search.nexts.pop();
    Ok(())
}

fn step(search: &mut Search, graph: &Graph) -> Result<(), AllocError>
    requires range { InRange graph.now }
    requires good { Good graph.now (state_of search.old) }
    requires path { 0 < length search.old.path.items }
    ensures good { IfOk result (λ _. Good graph.now (state_of search.new)) }
    ensures grows { IfOk result (λ _. Grows (state_of search.old) (state_of search.new)) }
{
    let top = search.path.len() - 1;
    if search.nexts[top] < graph.degree(search.opened[search.path[top]]) {
        look(search, graph, top)?;
        count(search, graph, top);
        Ok(())
    } else {
        leave(search, graph, top)
    }
}

ghost use Rattle.uc_components.specs.Searched.{IsSearched, Grows};

fn prepared(alloc: Global, graph: &Graph) -> Result<Search, AllocError>
    ensures good { IfOk result (λ s. Good graph.now (state_of s)) }
    ensures path { IfOk result (λ s. length s.path.items ≡ 0) }
{
    let count = graph.len();
    let seen = vec![in alloc; false; count]?;
    let closed = vec![in alloc; false; count]?;
    let index = vec![in alloc; 0; count]?;
    let home = vec![in alloc; 0; count]?;
    Ok(Search {
        seen,
        closed,
        index,
        home,
        opened: Vec::new(alloc),
        bounds: Vec::new(alloc),
        path: Vec::new(alloc),
        nexts: Vec::new(alloc),
        heads: Vec::new(alloc),
    })
}

// Walks until the path is left.
fn walk(search: &mut Search, graph: &Graph) -> Result<(), AllocError>
    requires range { InRange graph.now }
    requires good { Good graph.now (state_of search.old) }
    ensures good { IfOk result (λ _. Good graph.now (state_of search.new)) }
    ensures path { IfOk result (λ _. length search.new.path.items ≡ 0) }
    ensures grows { IfOk result (λ _. Grows (state_of search.old) (state_of search.new)) }
{
    for _ in 0..u64::MAX {
        if search.path.len() == 0 {
            return Ok(());
        }
        step(search, graph)?;
    }
    Err(AllocError)
}

// Meets a vertex that is new.
fn begin(search: &mut Search, _graph: &Graph, vertex: usize) -> Result<(), AllocError>
    requires vertex { vertex < length _graph.now }
    requires good { Good _graph.now (state_of search.old) }
    requires path { length search.old.path.items ≡ 0 }
    requires new { flag search.old.seen.items vertex ≡ false }
    ensures { IfOk result (λ _. Good _graph.now (state_of search.new) × Grows (state_of search.old) (state_of search.new) × (flag search.new.seen.items vertex ≡ true)) }
{
    enter(search, vertex)
}

// Closes a vertex, and all that it reaches.
fn visit(search: &mut Search, graph: &Graph, vertex: usize) -> Result<(), AllocError>
    requires range { InRange graph.now }
    requires vertex { vertex < length graph.now }
    requires good { Good graph.now (state_of search.old) }
    requires path { length search.old.path.items ≡ 0 }
    ensures good { IfOk result (λ _. Good graph.now (state_of search.new)) }
    ensures path { IfOk result (λ _. length search.new.path.items ≡ 0) }
    ensures grows { IfOk result (λ _. Grows (state_of search.old) (state_of search.new)) }
    ensures seen { IfOk result (λ _. flag search.new.seen.items vertex ≡ true) }
{
    if !search.seen[vertex] {
        begin(search, graph, vertex)?;
        walk(search, graph)?;
    }
    Ok(())
}

fn searched(alloc: Global, graph: &Graph) -> Result<Search, AllocError>
    requires { InRange graph.now }
    ensures { IfOk result (λ s. IsSearched graph.now (state_of s)) }
{
    let mut search = prepared(alloc, graph)?;
    for vertex in 0..graph.len() {
        visit(&mut search, graph, vertex)?;
    }
    Ok(search)
}

ghost use Rattle.uc_components.specs.Searched.{IsHome};

// A number for each vertex: one number for the members of a component.
#[derive(Drop)]
pub struct Homes {
    pub home: Vec<usize>,
    pub count: usize,
}

// The components, numbered so that no reference leads to a greater number.
pub fn find_homes(alloc: Global, graph: &Graph) -> Result<Homes, AllocError>
    requires { InRange graph.now }
    ensures { IfOk result (λ h. IsHome graph.now h.home.items h.count) }
{
    let search = searched(alloc, graph)?;
    let count = search.heads.len();
    Ok(Homes {
        home: search.home,
        count,
    })
}
