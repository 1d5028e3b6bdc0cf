//! Tokens, and the blocks and items among them.
#![tactic(auto)]

mod automaton;
mod blocks;
mod judge;
mod lay;
mod piece;
mod plain;
mod region;
mod role;
mod scan;
mod stack;
mod start;
#[cfg(test)]
mod tests;
mod text;
mod token;

pub use blocks::Blocks;
pub use text::{TEXT_LIMIT, layout_law, layout_of, lex};
pub use token::{Kind, Token};
