//! What a term sees.
ghost use Rattle.std.specs.Prelude.{◌≡◌, ◌∷◌, ◌≤◌, drop, ◌-◌, length, Option, slice_get, MatchOption, None, Some, OnOk, OnErr};
ghost use Rattle.std.specs.Option.{option_and_then};
ghost use Rattle.uc_typing.specs.Scopes.{no_sight, under, with_variables, with_seen};

use std::alloc::{AllocError, Global};
use std::marker::Model;

/// The numbers of the binders of term variables, of which those that aren't used have none, and the
/// rigid variables that annotations see. Contracts see both with the innermost first.
#[derive(Debug, Drop)]
pub struct Sight {
    variables: Vec<Option<u64>>,
    seen: Vec<u64>,
}

impl Model for Sight {
    ghost use Rattle.std.specs.Prelude.{reverse};
    ghost use Rattle.uc_typing.specs.Scopes.{Sight as Plain};

    ghost Value = { Plain };

    ghost view = { λ s. record { variables = reverse s.variables.items; seen = reverse s.seen.items } };
}

impl Sight {
    /// Nothing.
    pub fn new(alloc: Global) -> Sight
        ensures { result ≡ no_sight }
    {
        Sight {
            variables: Vec::new(alloc),
            seen: Vec::new(alloc),
        }
    }

    /// The number of the binder of a variable, where it has one. A variable counts binders outwards from 0.
    pub fn binder(&self, variable: u32) -> Option<u64>
        ensures { MatchOption (slice_get self.now.variables variable) (result ≡ None) (λ binder. result ≡ binder) }
    {
        let count = self.variables.len();
        if variable as usize >= count {
            return None;
        }
        self.variables[count - 1 - variable as usize]
    }

    /// The rigid variable that a variable of an annotation stands for, where there is one.
    pub fn rigid(&self, variable: u32) -> Option<u64>
        ensures { result ≡ slice_get self.now.seen variable }
    {
        let count = self.seen.len();
        if variable as usize >= count {
            return None;
        }
        Some(self.seen[count - 1 - variable as usize])
    }

    /// How many term variables there are.
    pub fn depth(&self) -> usize
        ensures { result ≡ length self.now.variables }
    {
        self.variables.len()
    }

    /// Puts a variable under the others.
    pub fn bind(&mut self, binder: Option<u64>) -> Result<(), AllocError>
        ensures ok { OnOk result (self.new ≡ under binder self.old) }
        ensures err { OnErr result (self.new ≡ self.old) }
    {
        self.variables.push(binder)?;
        Ok(())
    }

    /// Drops the innermost variables down to so many.
    pub fn leave(&mut self, depth: usize)
        requires { depth ≤ length self.old.variables }
        ensures { self.new ≡ with_variables (drop (length self.old.variables - depth) self.old.variables) self.old }
    {
        self.variables.truncate(depth);
    }

    /// Lets annotations see one more rigid variable.
    pub fn show(&mut self, rigid: u64) -> Result<(), AllocError>
        ensures ok { OnOk result (self.new ≡ with_seen rigid self.old) }
        ensures err { OnErr result (self.new ≡ self.old) }
    {
        self.seen.push(rigid)?;
        Ok(())
    }

    /// Hides the innermost rigid variable again.
    pub fn hide(&mut self)
        requires { 1 ≤ length self.old.seen }
        ensures { self.new ≡ record { variables = self.old.variables; seen = drop 1 self.old.seen } }
    {
        let _ = self.seen.pop();
    }
}
