//! What solved existentials stand for: algorithmic subtyping is sound by the declarative rules.
#![tactic(auto)]

mod laws;

pub use laws::{extension_laws, soundness_laws};
