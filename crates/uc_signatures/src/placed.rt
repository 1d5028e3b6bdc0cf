//! Trees with the places of their nodes.

use crate::place_list::PlaceList;

/// A tree, or a list of trees, and the places of its nodes in the order of canonical text.
#[derive(Drop)]
pub struct Placed<T> {
    pub tree: T,
    pub places: PlaceList,
}
