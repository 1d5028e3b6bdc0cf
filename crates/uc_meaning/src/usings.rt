//! The `use` clauses in scope.
ghost use Rattle.std.specs.Prelude.{◌≡◌, [], ◌∷◌, OnOk, drop};
ghost use Rattle.uc_scratch.specs.TypeLevels.{texts_of};
ghost use Rattle.uc_meaning.specs.Candidates.{behind_using};
ghost use Rattle.uc_meaning.specs.UsingViews.{usings_of};

use std::alloc::{AllocError, Global};
use std::marker::Model;
use uc_scratch::Written;

/// A `use`: a path, and the names that it shortens, or none if it shortens every name.
#[derive(Clone, Copy)]
pub struct Using<'a> {
    pub path: &'a Written,
    pub names: &'a [Written],
}

/// The `use` clauses of a block and of each block around it. Contracts see the innermost block and the latest clause
/// first.
#[derive(Drop)]
pub struct Usings<'a> {
    blocks: Vec<Vec<Using<'a>>>,
    alloc: Global,
}

impl<'a> Model for Usings<'a> {
    ghost use Rattle.std.specs.Prelude.{List};
    ghost use Rattle.uc_meaning.specs.Candidates.{Using as Plain};

    ghost Value = { List (List Plain) };

    ghost use Rattle.uc_meaning.specs.UsingViews.{usings_of};

    ghost view = { λ u. usings_of u.blocks.items };
}

impl<'a> Usings<'a> {
    pub fn new(alloc: Global) -> Usings<'a>
        ensures { result ≡ [] }
    {
        Usings {
            blocks: Vec::new(alloc),
            alloc,
        }
    }

    /// The clauses block by block, the outermost block and the earliest clause first.
    pub fn blocks(&self) -> &[Vec<Using<'a>>]
        ensures { usings_of result.now ≡ self.now }
    {
        self.blocks.as_slice()
    }

    pub fn enter_block(&mut self) -> Result<(), AllocError>
        ensures { OnOk result (self.new ≡ [] ∷ self.old) }
    {
        self.blocks.push(Vec::new(self.alloc))?;
        Ok(())
    }

    /// Adds a clause to the innermost block.
    #[tactic(auto, using(crate::proofs::UsingSteps::using_steps))]
    pub fn add(&mut self, path: &'a Written, names: &'a [Written]) -> Result<(), AllocError>
        ensures { OnOk result (self.new
            ≡ behind_using (record { path = path.now.text; names = texts_of names.now }) self.old) }
    {
        let mut block = match self.blocks.pop() {
            Some(block) => block,
            None => Vec::new(self.alloc),
        };
        block.push(Using { path, names })?;
        self.blocks.push(block)?;
        Ok(())
    }

    pub fn leave_block(&mut self)
        ensures { self.new ≡ drop 1 self.old }
    {
        let _ = self.blocks.pop();
    }
}
