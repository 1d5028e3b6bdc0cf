//! What every crate speaks of: bytes, hashes, references, names, places and faults.
#![tactic(auto)]

mod builtin;
mod bytes;
mod decimal;
mod fault;
mod graph;
mod hash;
mod name;
mod name_list;
mod place;
mod reference;
mod steps;
mod worked;

pub use builtin::{
    BUILTIN_TERMS, BUILTIN_TYPES, FIRST_BUILTIN_TERM, builtin_name_of, builtin_number_of,
};
pub use bytes::Bytes;
pub use decimal::{read_decimal, write_decimal};
pub use fault::{Fault, MEMORY_LINE};
pub use graph::{component_order_is_unique, parts_agree};
pub use hash::{HASH_TEXT_LEN, Hash};
pub use name::{
    NAME_LIMIT, Name, begins_comment, first_segment, is_digit, is_keyword, is_left_out, is_letter,
    is_name, is_operator, is_reserved, is_wordy,
};
pub use name_list::NameList;
pub use place::{At, Place, Sort, Spot};
pub use reference::Ref;
pub use steps::Steps;
pub use worked::Worked;

#[cfg(test)]
mod tests;
