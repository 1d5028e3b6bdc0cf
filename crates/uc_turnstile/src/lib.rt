//! A lock whose holder works on a shared state. Each pass knows which turns it made and what it has seen of the one history.
#![tactic(auto)]

mod plays;
mod rule;
mod turnstile;
mod view;

pub use turnstile::{Pass, Refused, Turnstile};
pub use view::{PassName, PassRecord, TurnRow};

#[cfg(test)]
mod tests;
