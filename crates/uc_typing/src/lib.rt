//! The rules by which patterns, terms and components are checked, and what holds of them.
#![tactic(auto)]

mod laws;

pub use laws::{outcome_laws, relinking_laws, small_components};
