use crate::{Graph, components};
use std::alloc::{AllocError, Global};
use std::test::Fail;

// A graph has fewer vertices.
const LIMIT: usize = 4_294_967_296;

fn graph(alloc: Global, edges: &[&[u32]]) -> Result<Graph, AllocError> {
    let mut rows = Vec::new(alloc);
    for row in edges {
        rows.push(row.to_vec(alloc)?)?;
    }
    Ok(Graph { edges: rows })
}

// Whether the components of a graph are printed so.
fn gives(alloc: Global, edges: &[&[u32]], wanted: &str) -> Result<bool, Fail> {
    let graph = graph(alloc, edges)?;
    if !graph.is_in_range() || graph.len() >= LIMIT {
        return Ok(false);
    }
    match components(alloc, &graph) {
        Ok(found) => Ok(format!(in alloc; "{found:?}")?.as_str() == wanted),
        Err(_) => Ok(false),
    }
}

// The expected orders in the next three tests are those of a program of another language, which takes the least ready component by trying each.
#[test]
fn orders_small_graphs(rt: HostRuntime) -> Result<(), Fail> {
    let cases: [(&[&[u32]], &str); 5] = [
        (&[], "[]"),
        (&[&[0, 0]], "[[0]]"),
        (&[&[1], &[0], &[0]], "[[0, 1], [2]]"),
        (&[&[2], &[], &[]], "[[1], [2], [0]]"),
        (&[&[1], &[1]], "[[1], [0]]"),
    ];
    for case in &cases {
        assert!(rt; gives(rt.alloc(), case.0, case.1)?);
    }
    Ok(())
}

#[test]
fn orders_graphs_of_many_components(rt: HostRuntime) -> Result<(), Fail> {
    let cases: [(&[&[u32]], &str); 3] = [
        (
            &[&[3, 5], &[4], &[1, 2], &[0, 1], &[1], &[], &[6]],
            "[[1, 4], [2], [5], [0, 3], [6]]",
        ),
        (
            &[&[7], &[3], &[3], &[5], &[7, 6], &[7], &[7, 5, 0], &[7]],
            "[[7], [0], [5], [3], [1], [2], [6], [4]]",
        ),
        (
            &[
                &[],
                &[4, 9, 9],
                &[],
                &[],
                &[9],
                &[],
                &[0, 3],
                &[1, 8],
                &[5, 6, 2],
                &[],
                &[9, 3, 9],
            ],
            "[[0], [2], [3], [5], [6], [8], [9], [4], [1], [7], [10]]",
        ),
    ];
    for case in &cases {
        assert!(rt; gives(rt.alloc(), case.0, case.1)?);
    }
    Ok(())
}

#[test]
fn orders_graphs_with_a_large_component(rt: HostRuntime) -> Result<(), Fail> {
    let cases: [(&[&[u32]], &str); 2] = [
        (
            &[
                &[8, 0, 8],
                &[5, 0],
                &[3, 4, 4],
                &[],
                &[6, 4, 0],
                &[1],
                &[],
                &[5],
                &[8, 3, 7],
            ],
            "[[3], [0, 1, 5, 7, 8], [6], [4], [2]]",
        ),
        (
            &[
                &[],
                &[],
                &[7],
                &[3, 2],
                &[0, 6, 2],
                &[],
                &[6],
                &[3, 4, 0],
                &[],
            ],
            "[[0], [1], [5], [6], [2, 3, 4, 7], [8]]",
        ),
    ];
    for case in &cases {
        assert!(rt; gives(rt.alloc(), case.0, case.1)?);
    }
    Ok(())
}

const MANY: u32 = 400_000;

// Each vertex refers to the one after it; the last refers to none, or to the first.
fn line(alloc: Global, closed: bool) -> Result<Graph, AllocError> {
    let mut edges = Vec::new(alloc);
    for next in 1..MANY {
        edges.push(vec![in alloc; next]?)?;
    }
    edges.push(if closed {
        vec![in alloc; 0]?
    } else {
        Vec::new(alloc)
    })?;
    Ok(Graph { edges })
}

// Whether a graph has so many components, and the first has so many members.
fn has_components(alloc: Global, graph: &Graph, count: usize, members: usize) -> bool {
    if !graph.is_in_range() || graph.len() >= LIMIT {
        return false;
    }
    match components(alloc, graph) {
        Ok(found) => match found.first() {
            Some(first) => found.len() == count && first.len() == members,
            None => false,
        },
        Err(_) => false,
    }
}

#[test]
fn orders_a_long_chain(rt: HostRuntime) -> Result<(), Fail> {
    let graph = line(rt.alloc(), false)?;
    assert!(rt; has_components(rt.alloc(), &graph, 400_000, 1));
    Ok(())
}

#[test]
fn orders_a_long_cycle(rt: HostRuntime) -> Result<(), Fail> {
    let graph = line(rt.alloc(), true)?;
    assert!(rt; has_components(rt.alloc(), &graph, 1, 400_000));
    Ok(())
}
