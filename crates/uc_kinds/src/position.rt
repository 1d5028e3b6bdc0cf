//! Where a type stands.

/// Outside of every argument, or inside an argument of a data type or a part of a tuple.
#[derive(Clone, Copy, Debug, PartialEq, Eq)]
pub enum Position {
    Outside,
    Inside,
}
