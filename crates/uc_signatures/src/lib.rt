//! Written types and patterns as trees, with the places of their nodes.
#![tactic(auto)]

mod local_names;
mod names;
mod pattern_nodes;
mod patterns;
mod place_list;
mod placed;
mod type_nodes;
mod type_variables;
mod types;

pub use local_names::LocalNames;
pub use names::{con_place, resolve_con};
pub use patterns::resolve_pattern;
pub use place_list::PlaceList;
pub use placed::Placed;
pub use type_variables::TypeVariables;
pub use types::{front_of_signature, resolve_signature, resolve_type_atoms};

#[cfg(test)]
mod tests;
