//! Well-formed types: each data type has all its arguments, and no argument holds a quantifier.
#![tactic(auto)]

mod among;
mod check;
mod flaw;
mod laws;
mod position;
mod walk_patterns;
mod walk_terms;
mod walk_types;

pub use check::{check_decls, check_definition};
pub use laws::{kinds_laws, typing_examples};

#[cfg(test)]
mod tests;
