//! Patterns against types, and what the checking of terms shares with them: what terms see, spots,
//! new existentials and the fronts of types.
#![tactic(auto)]

mod declaring;
mod fronts;
mod lookups;
mod matching;
mod sight;
mod solving;
mod spots;
mod state;

pub use declaring::{declare, declare_all, existentials, open_front};
pub use fronts::{arguments_of, boolean, builtin, list_of, literal_type, result_of};
pub use lookups::TargetTypes;
pub use matching::match_pattern;
pub use sight::Sight;
pub use solving::{apply_at, subtype_at};
pub use spots::advance;
pub use state::State;
