//! Names of binders.
use std::marker::Model;
use uc_base::Bytes;

/// For each member of a component the names of its term binders, in the order of its canonical text; for
/// a declaration none. Contracts see the lists.
#[derive(Debug, Drop)]
pub struct Hints {
    pub members: Vec<Vec<Bytes>>,
}

impl Model for Hints {
    ghost use Rattle.std.specs.Prelude.{List, ℕ};

    ghost Value = { List (List (List ℕ)) };

    ghost use Rattle.uc_tree.specs.Hints.{names_of};

    ghost view = { λ hints. names_of hints.members.items };
}
