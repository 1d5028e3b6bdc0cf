//! Written expressions and blocks as terms, with the places of their nodes.
#![tactic(auto)]

mod blocks;
mod exprs;
mod fronts;
mod lists;
mod locals;
mod nodes;
mod operands;
mod params;
mod parts;
mod runs;
mod signed;
mod words;

pub use blocks::resolve_bound;
pub use exprs::resolve_expr;
pub use locals::Locals;
pub use signed::{Signed, sign, signature_for};
