//! Heads and branches: what names stand for, and what was before.
#![tactic(auto)]

mod aliases;
mod branch;
mod branches;
mod builtins;
mod change;
mod deleting;
mod head;
mod joining;
mod moving;
mod reach;
mod ref_set;
mod sorted_pairs;
mod todo_list;

pub use branches::Branches;
pub use change::Change;
pub use head::Head;
pub use todo_list::todo;

#[cfg(test)]
mod tests;
