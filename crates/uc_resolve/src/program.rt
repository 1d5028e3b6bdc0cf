//! What a file means.
ghost use Rattle.uc_resolve.specs.Members.{IsPlaced};

use crate::places::Places;
use uc_base::Name;
use uc_tree::{Decl, Definition, Hints, Term};

/// The declared types, the constructors with the numbers of their type and their own, the definitions and the watches
/// of a file. `Own` counts types in a type, and definitions in a term. The hints are of the definitions and then of the
/// watches. Contracts see the `Meaning` of `specs/Programs.antt` of `uc_meaning`.
#[derive(Drop)]
pub struct Program {
    pub kinds: Vec<(Name, Decl)>,
    pub ctors: Vec<(Name, u32, u32)>,
    pub terms: Vec<(Name, Definition)>,
    pub watches: Vec<Term>,
    pub hints: Hints,
    pub places: Places,
    ghost placed: { IsPlaced (record {
      kinds = kinds.items;
      ctors = ctors.items;
      terms = terms.items;
      watches = watches.items;
      places = places;
    }) },
}
