//! Terms as parts of greater expressions, with the places where they begin.
ghost use Rattle.std.specs.Prelude.{◌≡◌, IfOk};
ghost use Rattle.std.specs.Option.{option_map};
ghost use Rattle.uc_scratch.specs.ExprViews.{atom_of};
ghost use Rattle.uc_meaning.specs.ExprMeanings as spec;
ghost use Rattle.uc_signatures.specs.PlacedViews.{placed_of};
ghost use Rattle.uc_bodies.specs.BodyViews.{operand_of};

use crate::nodes::{and_at, applied_at, leaf, or_at};
use crate::words::reference_place;
use std::alloc::{AllocError, Global};
use uc_base::Place;
use uc_scratch::Atom;
use uc_signatures::Placed;
use uc_tree::Term;

/// A term and the place of its first token, which may be a bracket round it.
#[derive(Drop)]
pub struct Operand {
    pub start: Place,
    pub term: Placed<Term>,
}

/// The place of a text's first character.
pub const FRONT: Place = Place { line: 1, column: 1 };

/// Where an atom begins.
pub fn atom_start(atom: &Atom) -> Place
    ensures { result ≡ spec.atom_start (atom_of atom.now) }
{
    match atom {
        Atom::Path(w) => w.place,
        Atom::Literal(l) => l.written.place,
        Atom::Reference(r) => reference_place(r),
        Atom::Operator(place, _)
        | Atom::Unit(place)
        | Atom::Group(place, _)
        | Atom::Annotated(place, _, _)
        | Atom::Tuple(place, _)
        | Atom::List(place, _) => *place,
    }
}

impl Operand {
    /// A form, which begins at its own node.
    pub fn form(term: Placed<Term>) -> Operand
        ensures { operand_of result ≡ spec.form (placed_of term) }
    {
        Operand {
            start: term.places.first(),
            term,
        }
    }

    /// An operator with this as its left side.
    pub fn under_operator(
        self,
        alloc: Global,
        operator: Placed<Term>,
    ) -> Result<Operand, AllocError>
        ensures { IfOk result
            (λ a. operand_of a ≡ spec.operator_over (placed_of operator) (operand_of self)) }
    {
        let Operand { start, term } = self;
        Ok(Operand {
            start,
            term: applied_at(alloc, start, operator, term)?,
        })
    }
}

/// The unit where nothing has been read.
#[tactic(auto, unfolding(uc_meaning::specs::ExprMeanings::or_nothing))]
pub fn or_nothing(alloc: Global, operand: Option<Operand>) -> Result<Operand, AllocError>
    ensures { IfOk result (λ a. operand_of a ≡ spec.or_nothing (option_map operand_of operand)) }
{
    match operand {
        None => Ok(Operand::form(leaf(alloc, Term::unit(), FRONT)?)),
        Some(operand) => Ok(operand),
    }
}

#[tactic(auto, unfolding(uc_meaning::specs::ExprMeanings::applied_if))]
pub fn applied_if(
    alloc: Global,
    before: Option<Operand>,
    part: Operand,
) -> Result<Operand, AllocError>
    ensures { IfOk result
        (λ a. operand_of a ≡ spec.applied_if (option_map operand_of before) (operand_of part)) }
{
    match before {
        None => Ok(part),
        Some(Operand { start, term }) => Ok(Operand {
            start,
            term: applied_at(alloc, start, term, part.term)?,
        }),
    }
}

#[tactic(auto, unfolding(uc_meaning::specs::ExprMeanings::and_if))]
pub fn and_if(alloc: Global, before: Option<Operand>, part: Operand) -> Result<Operand, AllocError>
    ensures { IfOk result
        (λ a. operand_of a ≡ spec.and_if (option_map operand_of before) (operand_of part)) }
{
    match before {
        None => Ok(part),
        Some(Operand { start, term }) => Ok(Operand {
            start,
            term: and_at(alloc, start, term, part.term)?,
        }),
    }
}

#[tactic(auto, unfolding(uc_meaning::specs::ExprMeanings::or_if))]
pub fn or_if(alloc: Global, before: Option<Operand>, part: Operand) -> Result<Operand, AllocError>
    ensures { IfOk result
        (λ a. operand_of a ≡ spec.or_if (option_map operand_of before) (operand_of part)) }
{
    match before {
        None => Ok(part),
        Some(Operand { start, term }) => Ok(Operand {
            start,
            term: or_at(alloc, start, term, part.term)?,
        }),
    }
}
