//! A program in the making.
ghost use Rattle.std.specs.Prelude.{◌≡◌, OnOk};
ghost use Rattle.uc_signatures.specs.PlacedViews.{placed_of};
ghost use Rattle.uc_meaning.specs.Programs.{Meaning, with_kind, with_term, with_watch};
ghost use Rattle.uc_resolve.specs.ItemMeanings.{no_meaning, joined};
ghost use Rattle.uc_resolve.specs.Members.{IsPlaced};
ghost use Rattle.uc_resolve.specs.ProgramViews.{draft_of, program_of};

use crate::places::{Listed, Places};
use crate::program::Program;
use std::alloc::{AllocError, Global};
use uc_base::{Name, Place};
use uc_signatures::Placed;
use uc_tree::{Decl, Definition, Hints, Term};

/// What the items up to here mean.
#[derive(Drop)]
pub struct Draft {
    kinds: Vec<(Name, Decl)>,
    ctors: Vec<(Name, u32, u32)>,
    terms: Vec<(Name, Definition)>,
    watches: Vec<Term>,
    places: Places,
}

impl Draft {
    pub fn new(alloc: Global) -> Draft
        ensures { draft_of result ≡ no_meaning }
    {
        Draft {
            kinds: Vec::new(alloc),
            ctors: Vec::new(alloc),
            terms: Vec::new(alloc),
            watches: Vec::new(alloc),
            places: Places::new(alloc),
        }
    }

    /// Adds a declared type with its name at a place, and its constructors.
    #[tactic(auto, using(crate::proofs::Joins::joins))]
    pub fn add_kind(
        &mut self,
        name: Name,
        mut ctors: Vec<(Name, u32, u32)>,
        place: Place,
        kind: Placed<Decl>,
    ) -> Result<(), AllocError>
        ensures { OnOk result ((m : Meaning)
            → joined (draft_of self.new) m
            ≡ joined (draft_of self.old) (with_kind name ctors.items place (placed_of kind) m)) }
    {
        self.kinds.push((name, kind.tree))?;
        self.ctors.append(&mut ctors)?;
        self.places.add(Listed::Kinds, place, kind.places)
    }

    /// Adds a definition with its name at a place.
    #[tactic(auto, using(crate::proofs::Joins::joins))]
    pub fn add_term(
        &mut self,
        name: Name,
        place: Place,
        definition: Placed<Definition>,
    ) -> Result<(), AllocError>
        ensures { OnOk result ((m : Meaning)
            → joined (draft_of self.new) m
            ≡ joined (draft_of self.old) (with_term name place (placed_of definition) m)) }
    {
        self.terms.push((name, definition.tree))?;
        self.places.add(Listed::Terms, place, definition.places)
    }

    /// Adds a watch with its `>` at a place.
    #[tactic(auto, using(crate::proofs::Joins::joins))]
    pub fn add_watch(&mut self, place: Place, watch: Placed<Term>) -> Result<(), AllocError>
        ensures { OnOk result ((m : Meaning)
            → joined (draft_of self.new) m ≡ joined (draft_of self.old) (with_watch place (placed_of watch) m)) }
    {
        self.watches.push(watch.tree)?;
        self.places.add(Listed::Watches, place, watch.places)
    }

    /// The program, with its hints.
    pub fn finish(self, hints: Hints) -> Program
        requires { IsPlaced (draft_of self) }
        ensures meaning { program_of result ≡ draft_of self }
        ensures hints { result.hints ≡ hints }
    {
        Program {
            kinds: self.kinds,
            ctors: self.ctors,
            terms: self.terms,
            watches: self.watches,
            hints,
            places: self.places,
        }
    }
}
