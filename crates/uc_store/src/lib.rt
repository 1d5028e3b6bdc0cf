//! Definitions by hash: the table of all that was ever stored.
#![tactic(auto)]

mod builtins;
mod checked;
mod counts;
mod draft;
mod entry;
mod laws;
mod member;
mod places;
mod prefix;
mod prepared;
mod shelf;
mod store;
mod stored;

pub use checked::Checked;
pub use laws::store_laws;
pub use prepared::Prepared;
pub use shelf::Shelf;
pub use store::Store;
pub use stored::Stored;

#[cfg(test)]
mod tests;
