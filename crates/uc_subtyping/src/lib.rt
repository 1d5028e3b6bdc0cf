//! Subtyping between types with existentials, which it solves.
#![tactic(auto)]

mod instantiating;
mod laws;
mod side;
mod solving;
mod subtyping;

pub use instantiating::instantiate;
pub use laws::outcome_laws;
pub use side::Side;
pub use solving::solve_subtype;
pub use subtyping::subtype;

#[cfg(test)]
mod tests;
