//! The journal: payloads in gated records, each on the disk before it is acknowledged.
#![tactic(auto)]

mod begin;
mod journal;
mod load;
mod read;
mod record;
mod tail;
mod through;

pub use journal::{Journal, Unopened};
pub use record::{Record, pack};
pub use tail::Tail;

#[cfg(test)]
mod tests;
