//! Files as programs: their declared types, definitions and watches, with hints and places.
#![tactic(auto)]

mod declarations;
mod definitions;
mod draft;
mod hints;
mod items;
mod laws;
mod names;
mod places;
mod program;
mod resolving;

pub use laws::places_law;
pub use places::{Listed, Places};
pub use program::Program;
pub use resolving::resolve;

#[cfg(test)]
mod tests;
