//! What is stored: definitions and declarations.
ghost use Rattle.std.specs.Prelude.{◌≡◌, IfOk};

use crate::declaration::Decl;
use crate::definition::Definition;
use std::alloc::{AllocError, Global};

/// A member of a component.
#[derive(Debug, Drop)]
pub enum Item {
    Term(Definition),
    Kind(Decl),
}

impl Item {
    pub fn copy(&self, alloc: Global) -> Result<Item, AllocError>
        ensures { IfOk result (λ i. i ≡ self.now) }
    {
        match self {
            Item::Term(definition) => Ok(Item::Term(definition.copy(alloc)?)),
            Item::Kind(declaration) => Ok(Item::Kind(declaration.copy(alloc)?)),
        }
    }
}
