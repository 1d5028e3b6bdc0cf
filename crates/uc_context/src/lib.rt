//! Typing contexts: ordered lists of variables with what stands for them.
#![tactic(auto)]

mod applying;
mod closing;
mod context;
mod copying;
mod counting;
mod entry;
mod equality;
mod generalising;
mod index;
mod looking;
mod numbers;
mod occurring;
mod open;
mod places;
mod solving;
#[cfg(test)]
mod tests;
mod variables;

pub use context::Context;
pub use copying::copy_opens;
pub use counting::{TYPE_LEVEL_LIMIT, TYPE_NODE_LIMIT, is_small, open_levels, open_nodes};
pub use entry::{Entry, same_entry};
pub use equality::same_open;
pub use open::{Open, OpenNode};
