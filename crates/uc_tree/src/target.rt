//! What a type, a pattern or a term refers to.

use uc_base::Ref;

/// A stored reference, or a member of the component that the tree stands in: by its number, or the
/// constructor with a number in the declaration with a number.
#[derive(Clone, Copy, Debug, PartialEq, Eq)]
pub enum Target {
    Stored(Ref),
    Own(u32),
    OwnCtor(u32, u32),
}
