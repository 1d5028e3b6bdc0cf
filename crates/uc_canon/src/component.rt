//! Components: definitions or declarations that reach one another.
use uc_tree::{Decl, Definition};

/// The members of a component, which name one another by their numbers.
#[derive(Debug, Drop)]
pub enum Component {
    Terms(Vec<Definition>),
    Kinds(Vec<Decl>),
}
