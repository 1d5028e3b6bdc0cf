//! Canonical text: the bytes whose digest a component stands under.
#![tactic(auto)]

mod canonical;
mod component;
mod first_reach;
mod laws;
mod links;
mod members;
mod numbering;
mod opening;
mod read;
mod read_basics;
mod read_error;
mod read_patterns;
mod read_terms;
mod read_types;
mod reordering;
mod scope;
mod standing;
mod write;
mod write_basics;
mod write_patterns;
mod write_terms;
mod write_types;

pub use canonical::read_component;
pub use component::Component;
pub use laws::{numbering_laws, spelling_laws};
pub use numbering::number_members;
pub use opening::{close_component, open_component};
pub use reordering::reordered;
pub use write::write_component;

#[cfg(test)]
mod read_tests;
#[cfg(test)]
mod tests;
