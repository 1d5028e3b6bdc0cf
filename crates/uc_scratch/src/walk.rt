//! Where a reader stands in an expression.

/// What has been read of an expression up to a token.
#[derive(Clone, Copy, Debug, PartialEq, Eq)]
pub enum Stage {
    /// Nothing: a lambda or an operand begins.
    Start,
    /// A connective: an operand begins.
    Operand,
    /// An atom of an operand.
    Atoms,
    /// A form, which ends its operand.
    Formed,
    /// A lambda, which is a whole expression.
    Whole,
}

/// A form whose condition or subject is being read.
#[derive(Clone, Copy, Debug, PartialEq, Eq)]
pub enum Form {
    If,
    Match,
}
