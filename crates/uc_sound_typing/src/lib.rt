//! What the checker finds is so by the declarative rules.
#![tactic(auto)]

mod laws;

pub use laws::{pattern_laws, term_laws};
