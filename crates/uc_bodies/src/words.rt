//! Words, literals and references as terms of one node.
ghost use Rattle.std.specs.Prelude.{◌≡◌, [], ◌∷◌, Ok};
ghost use Rattle.uc_tree.specs.Terms as trees;
ghost use Rattle.uc_meaning.specs.ExprMeanings as spec;
ghost use Rattle.uc_meaning.specs.Literals as literals;
ghost use Rattle.uc_meaning.specs.Results.{Gives};
ghost use Rattle.uc_signatures.specs.PlacedViews.{placed_of};
ghost use Rattle.uc_bodies.specs.StepMeanings.{link_meaning};

use crate::locals::Locals;
use crate::nodes::leaf;
use std::alloc::Global;
use uc_base::{Fault, Place};
use uc_meaning::{Meanings, Wanted, literal_value};
use uc_scratch::{Literal, Reference, Written};
use uc_signatures::Placed;
use uc_tree::Term;

/// The term of a written name: the innermost local binder of that name first.
pub fn resolve_word<M: Meanings>(
    alloc: Global,
    meanings: &M,
    locals: &Locals,
    w: &Written,
) -> Result<Placed<Term>, Fault>
    ensures { Gives placed_of result (spec.word_meaning (M.known meanings.now) locals.now w.now) }
{
    match locals.find(w.text.as_slice()) {
        Some(index) => Ok(leaf(alloc, Term::variable(index), w.place)?),
        None => {
            let target = meanings.name(alloc, Wanted::Term, locals.usings(), w)?;
            Ok(leaf(alloc, Term::link(target), w.place)?)
        }
    }
}

pub fn reference_place(reference: &Reference) -> Place
    ensures { result ≡ spec.reference_place reference.now }
{
    match reference {
        Reference::Hash(w) | Reference::Builtin(w) => w.place,
    }
}

pub fn resolve_reference<M: Meanings>(
    alloc: Global,
    meanings: &M,
    reference: &Reference,
) -> Result<Placed<Term>, Fault>
    ensures { Gives placed_of result (link_meaning (M.known meanings.now) reference.now) }
{
    let target = meanings.reference(Wanted::Term, reference)?;
    Ok(leaf(alloc, Term::link(target), reference_place(reference))?)
}

pub fn literal_at(alloc: Global, literal: &Literal) -> Result<Placed<Term>, Fault>
    ensures { Gives placed_of result
        (Ok (trees.literal (literals.literal_value literal.now), literal.now.written.place ∷ [])) }
{
    let value = literal_value(alloc, literal)?;
    Ok(leaf(alloc, Term::literal(value), literal.written.place)?)
}

pub fn unit_at(alloc: Global, place: Place) -> Result<Placed<Term>, Fault>
    ensures { Gives placed_of result (Ok (trees.unit, place ∷ [])) }
{
    Ok(leaf(alloc, Term::unit(), place)?)
}
