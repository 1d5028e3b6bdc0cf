//! What a written name has to stand for.

/// A type, a term (a definition, a constructor or a builtin), or a constructor in a pattern.
#[derive(Clone, Copy, Debug, PartialEq, Eq)]
pub enum Wanted {
    Kind,
    Term,
    Constructor,
}
