//! Changes of branches that are prepared.
use crate::branch::Branch;
use crate::head::Head;

/// What a change does, at a place of the branches.
#[derive(Drop)]
pub enum Edit {
    Keep,
    Advance { at: usize, head: Head },
    Add { at: usize, branch: Branch },
    Remove { at: usize },
    Undo { at: usize },
}

/// A change that a call of `Branches` has prepared, for `Branches::commit`.
#[derive(Drop)]
pub struct Change {
    pub(crate) edit: Edit,
}
