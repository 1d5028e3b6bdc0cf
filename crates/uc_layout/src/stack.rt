//! The regions that are open.
ghost use Rattle.std.specs.Prelude.{◌≡◌, List, [], ◌∷◌, OnOk, MatchOption};
ghost use Rattle.uc_layout.specs.Run.{innermost, outer};

use crate::piece::Region;
use crate::region::the_file;
use std::alloc::{AllocError, Global};
use std::marker::Model;

/// The open regions. Contracts see them as a list, the innermost first.
#[derive(Debug, Drop)]
pub struct Stack {
    regions: Vec<Region>,
}

impl Model for Stack {
    ghost use Rattle.std.specs.Prelude.{List, reverse};
    ghost use Rattle.uc_layout.specs.declared.piece.Region.{Region};

    ghost Value = { List Region };

    ghost view = { λ s. reverse s.regions.items };
}

impl Stack {
    pub fn new(alloc: Global) -> Stack
        ensures { result ≡ [] }
    {
        Stack {
            regions: Vec::new(alloc),
        }
    }

    pub fn innermost(&self) -> Region
        ensures { result ≡ innermost self.now }
    {
        match self.regions.as_slice() {
            [] => the_file(),
            [.., last] => *last,
        }
    }

    pub fn push(&mut self, region: Region) -> Result<(), AllocError>
        ensures { OnOk result (self.new ≡ region ∷ self.old) }
    {
        self.regions.push(region)?;
        Ok(())
    }

    pub fn pop(&mut self) -> Option<Region>
        ensures rest { self.new ≡ outer self.old }
        ensures cases { MatchOption result (self.old ≡ []) (λ r. self.old ≡ r ∷ self.new) }
    {
        self.regions.pop()
    }

    /// Puts a region in the place of the innermost one.
    pub fn replace(&mut self, region: Region) -> Result<(), AllocError>
        ensures { OnOk result (self.new ≡ region ∷ outer self.old) }
    {
        let _ = self.pop();
        self.push(region)
    }
}
