//! The components of a graph, in order.
#![tactic(auto)]

mod graph;
mod links;
mod order;
mod rows;
mod search;

pub use graph::Graph;
pub use order::components;

#[cfg(test)]
mod tests;
