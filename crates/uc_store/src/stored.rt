//! What stands under a reference.
use uc_tree::{Hints, Item, Ty};

/// A stored member of a component.
#[derive(Debug, Drop)]
pub struct Stored {
    /// Its references to members of its own component are those to the component's hash.
    pub item: Item,
    /// The type of a definition; a declaration has none.
    pub type_of: Option<Ty>,
    /// The hints of this one member.
    pub hints: Hints,
}
