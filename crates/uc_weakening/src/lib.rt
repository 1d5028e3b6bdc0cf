//! Derivations of typing where definitions are added.
#![tactic(auto)]

mod laws;

pub use laws::weakening_laws;
