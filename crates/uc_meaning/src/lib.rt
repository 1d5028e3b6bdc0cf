//! What is written in scratch files means: names, hashes and literals.
#![tactic(auto)]

mod entries;
mod expr_words;
mod file_names;
mod hashes;
mod head_names;
mod literals;
mod lookup;
mod meanings;
mod pattern_words;
mod senses;
mod sort_names;
mod suffixes;
mod type_words;
mod usings;
mod wanted;
mod words;

pub use literals::literal_value;
pub use lookup::Lookup;
pub use meanings::Meanings;
pub use usings::Usings;
pub use wanted::Wanted;

#[cfg(test)]
mod tests;
