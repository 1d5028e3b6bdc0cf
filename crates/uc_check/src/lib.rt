//! The checker: components and watches have the types that the rules give, or stop where these say.
#![tactic(auto)]

mod applying;
mod cases;
mod checking;
mod component;
mod finding;
mod forms;
mod lists;
mod members;
mod scopes;
mod uses;
mod written;

pub use component::{check_component, type_of_watch};

#[cfg(test)]
mod tests;
