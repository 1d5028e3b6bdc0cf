//! A graph of numbers.
ghost use Rattle.std.specs.Prelude.{◌≡◌, ◌<◌, ℕ, true, false, length, slice_index};
ghost use Rattle.uc_base.specs.Graph.{row, Edge, InRange};

use std::marker::Model;

/// A graph: the vertices are the numbers of the rows, and each row holds the vertices to which its vertex refers, in any order and as often as it likes.
#[derive(Drop)]
pub struct Graph {
    pub edges: Vec<Vec<u32>>,
}

impl Model for Graph {
    ghost use Rattle.std.specs.Prelude.{ℕ, List, map};

    ghost Value = { List (List ℕ) };

    ghost view = { λ graph. map (λ row. row.items) graph.edges.items };
}

impl Graph {
    /// The count of vertices.
    pub fn len(&self) -> usize
        ensures { result ≡ length self.now }
    {
        self.edges.len()
    }

    /// The count of a vertex's references.
    pub fn degree(&self, vertex: usize) -> usize
        requires { vertex < length self.now }
        ensures { result ≡ length (row self.now vertex) }
    {
        self.edges[vertex].len()
    }

    /// One of a vertex's references.
    pub fn reference(&self, vertex: usize, at: usize) -> usize
        requires vertex { vertex < length self.now }
        requires at { at < length (row self.now vertex) }
        ensures { result ≡ slice_index (row self.now vertex) at }
    {
        self.edges[vertex][at] as usize
    }

    fn is_row_in_range(&self, vertex: usize) -> bool
        requires { vertex < length self.now }
        ensures yes { result ≡ true → (v : ℕ) → Edge self.now vertex v → v < length self.now }
        ensures no { result ≡ false → InRange self.now → ⊥ }
    {
        for at in 0..self.degree(vertex) {
            if self.reference(vertex, at) >= self.len() {
                return false;
            }
        }
        true
    }

    /// Whether each reference is to a vertex.
    pub fn is_in_range(&self) -> bool
        ensures yes { result ≡ true → InRange self.now }
        ensures no { result ≡ false → InRange self.now → ⊥ }
    {
        for vertex in 0..self.len() {
            if !self.is_row_in_range(vertex) {
                return false;
            }
        }
        true
    }
}
