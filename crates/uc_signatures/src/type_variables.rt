//! Type variables in scope.
ghost use Rattle.std.specs.Prelude.{◌≡◌, [], ◌∷◌, ◌++◌, drop, length, reverse, OnOk, IfOk, bytes_eq};
ghost use Rattle.std.specs.List.{position_from};
ghost use Rattle.uc_scratch.specs.TypeLevels.{texts_of};

use crate::local_names::LocalNames;
use std::alloc::{AllocError, Global};
use std::marker::Model;
use uc_base::Bytes;
use uc_scratch::{Scope, Written};

/// The type variables in scope. Contracts see the innermost first.
#[derive(Drop)]
pub struct TypeVariables {
    names: LocalNames,
}

impl Model for TypeVariables {
    ghost use Rattle.std.specs.Prelude.{List, ℕ};
    ghost use Rattle.uc_signatures.specs.PlacedViews.{named, AllNamed};

    ghost Value = { List (List ℕ) };

    ghost view = { λ v. named v.names };

    ghost invariant = { λ v. AllNamed v.names };
}

impl TypeVariables {
    pub fn new(alloc: Global) -> TypeVariables
        ensures { result ≡ [] }
    {
        TypeVariables {
            names: LocalNames::new(alloc),
        }
    }

    /// Enters a quantifier.
    fn push(&mut self, name: &[u8]) -> Result<(), AllocError>
        ensures { OnOk result (self.new ≡ name.now ∷ self.old) }
    {
        self.names.push(Some(name))?;
        Ok(())
    }

    /// Enters quantifiers, of which the last is the innermost.
    pub fn push_all(&mut self, names: &[Written]) -> Result<(), AllocError>
        ensures { OnOk result (self.new ≡ reverse (texts_of names.now) ++ self.old) }
    {
        for name in names {
            self.push(name.text.as_slice())?;
        }
        Ok(())
    }

    /// Enters quantifiers by their names, of which the last is the innermost.
    pub fn push_names(&mut self, names: &[Bytes]) -> Result<(), AllocError>
        ensures { OnOk result (self.new ≡ reverse names.now ++ self.old) }
    {
        for name in names {
            self.push(name.as_slice())?;
        }
        Ok(())
    }

    /// The names, the innermost first.
    pub fn scope(&self, alloc: Global) -> Result<Scope<'_>, AllocError>
        ensures { IfOk result (λ scope. scope ≡ self.now) }
    {
        self.names.named(alloc)
    }

    /// Leaves the innermost quantifier.
    fn pop(&mut self)
        ensures { self.new ≡ drop 1 self.old }
    {
        self.names.pop();
    }

    /// Leaves so many quantifiers, the innermost first.
    pub fn leave(&mut self, count: usize)
        ensures { self.new ≡ drop count self.old }
    {
        for _ in 0..count {
            self.pop();
        }
    }

    /// How far out the innermost quantifier of a name stands.
    pub fn find(&self, text: &[u8]) -> Option<u32>
        ensures { result ≡ position_from (bytes_eq text.now) 0 self.now }
    {
        self.names.find(text)
    }
}
