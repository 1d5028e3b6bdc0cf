//! Names of type variables.
ghost use Rattle.std.specs.Option.{option_copied};
ghost use Rattle.std.specs.Prelude.{◌≡◌, [], ◌∷◌, ◌++◌, length, slice_get, OnOk, IfOk};
ghost use Rattle.uc_base.specs.Name.{is_one_of};
ghost use Rattle.uc_scratch.specs.TypeLevels.{texts_of};

use crate::written::Written;
use std::alloc::{AllocError, Global};
use std::marker::Model;

/// Names, in order. Contracts see their texts.
#[derive(Drop)]
pub struct Scope<'a> {
    names: Vec<&'a [u8]>,
}

impl<'a> Model for Scope<'a> {
    ghost use Rattle.std.specs.Prelude.{ℕ, List, map};

    ghost Value = { List (List ℕ) };

    ghost view = { λ s. map (λ name. name.now) s.names.items };
}

impl<'a> Scope<'a> {
    pub fn new(alloc: Global) -> Scope<'a>
        ensures { result ≡ [] }
    {
        Scope {
            names: Vec::new(alloc),
        }
    }

    pub fn len(&self) -> usize
        ensures { result ≡ length self.now }
    {
        self.names.len()
    }

    /// The name at a place, where there is one.
    pub fn get(&self, index: usize) -> Option<&[u8]>
        ensures { option_copied result ≡ slice_get self.now index }
    {
        if index < self.names.len() {
            Some(self.names[index])
        } else {
            None
        }
    }

    pub fn push(&mut self, name: &'a [u8]) -> Result<(), AllocError>
        ensures { OnOk result (self.new ≡ self.old ++ name.now ∷ []) }
    {
        self.names.push(name)?;
        Ok(())
    }

    /// Adds the names that are written.
    pub fn push_all(&mut self, names: &'a [Written]) -> Result<(), AllocError>
        ensures { OnOk result (self.new ≡ self.old ++ texts_of names.now) }
    {
        for name in names {
            self.push(name.text.as_slice())?;
        }
        Ok(())
    }

    /// Adds the names of another scope.
    pub fn extend(&mut self, other: &Scope<'a>) -> Result<(), AllocError>
        ensures { OnOk result (self.new ≡ self.old ++ other.now) }
    {
        for name in &other.names {
            self.push(*name)?;
        }
        Ok(())
    }

    pub fn contains(&self, text: &[u8]) -> bool
        ensures { result ≡ is_one_of self.now text.now }
    {
        for name in &self.names {
            if text == *name {
                return true;
            }
        }
        false
    }
}
