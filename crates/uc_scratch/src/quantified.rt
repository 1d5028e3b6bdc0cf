//! The quantifiers round a part of a type.
ghost use Rattle.std.specs.Prelude.{◌≡◌, [], ◌∷◌, ◌++◌, length, take, OnOk};
ghost use Rattle.uc_base.specs.Name.{is_one_of};
ghost use Rattle.uc_scratch.specs.TypeLevels.{texts_of, some_quantifies};

use crate::written::Written;
use std::alloc::{AllocError, Global};
use std::marker::Model;

/// The variables of the quantifiers round a part of a type. Contracts see the outermost quantifier
/// first.
#[derive(Drop)]
pub struct Quantified<'a> {
    quantifiers: Vec<&'a [Written]>,
}

impl<'a> Model for Quantified<'a> {
    ghost use Rattle.std.specs.Prelude.{List, map};
    ghost use Rattle.uc_scratch.specs.declared.written.Written.{Written};

    ghost Value = { List (List Written) };

    ghost view = { λ q. map (λ ws. ws.now) q.quantifiers.items };
}

impl<'a> Quantified<'a> {
    pub fn new(alloc: Global) -> Quantified<'a>
        ensures { result ≡ [] }
    {
        Quantified {
            quantifiers: Vec::new(alloc),
        }
    }

    pub fn depth(&self) -> usize
        ensures { result ≡ length self.now }
    {
        self.quantifiers.len()
    }

    pub fn push(&mut self, variables: &'a [Written]) -> Result<(), AllocError>
        ensures { OnOk result (self.new ≡ self.old ++ variables.now ∷ []) }
    {
        self.quantifiers.push(variables)?;
        Ok(())
    }

    /// Leaves quantifiers, down to so many.
    pub fn leave(&mut self, depth: usize)
        ensures { self.new ≡ take depth self.old }
    {
        self.quantifiers.truncate(depth);
    }

    pub fn contains(&self, text: &[u8]) -> bool
        ensures { result ≡ some_quantifies self.now text.now }
    {
        for variables in &self.quantifiers {
            if is_written(variables, text) {
                return true;
            }
        }
        false
    }
}

fn is_written(names: &[Written], text: &[u8]) -> bool
    ensures { result ≡ is_one_of (texts_of names.now) text.now }
{
    for name in names {
        if text == name.text.as_slice() {
            return true;
        }
    }
    false
}
