//! Nodes of terms over parts, at their places.
ghost use Rattle.std.specs.Prelude.{◌≡◌, [], ◌∷◌, ◌++◌, Ok, IfOk};
ghost use Rattle.std.specs.Option.{option_map};
ghost use Rattle.uc_tree.specs.Terms as trees;
ghost use Rattle.uc_meaning.specs.Results.{Gives};
ghost use Rattle.uc_meaning.specs.ExprMeanings as spec;
ghost use Rattle.uc_signatures.specs.PlacedViews.{placed_of};
ghost use Rattle.uc_bodies.specs.BodyViews.{signed_of, placed_terms, placed_cases};
ghost use Rattle.uc_bodies.specs.StepMeanings as steps;

use crate::signed::Signed;
use std::alloc::{AllocError, Global};
use uc_base::{Fault, Place};
use uc_signatures::{PlaceList, Placed};
use uc_tree::{Case, Pattern, Term, Ty};

/// A place before two lists.
fn places_over(place: Place, first: PlaceList, second: PlaceList) -> Result<PlaceList, AllocError>
    ensures { IfOk result (λ places. places ≡ place ∷ first ++ second) }
{
    let mut places = first;
    places.append(second)?;
    places.put_in_front(place)?;
    Ok(places)
}

/// A term of one node.
pub fn leaf(alloc: Global, tree: Term, place: Place) -> Result<Placed<Term>, AllocError>
    ensures { IfOk result (λ t. placed_of t ≡ (tree, place ∷ [])) }
{
    Ok(Placed {
        tree,
        places: PlaceList::one(alloc, place)?,
    })
}

pub fn lambda_at(
    alloc: Global,
    place: Place,
    body: Placed<Term>,
) -> Result<Placed<Term>, AllocError>
    ensures { IfOk result (λ t. placed_of t ≡ (trees.lambda body.tree, place ∷ body.places)) }
{
    let Placed { tree, mut places } = body;
    places.put_in_front(place)?;
    Ok(Placed {
        tree: Term::lambda(alloc, tree)?,
        places,
    })
}

pub fn applied_at(
    alloc: Global,
    place: Place,
    function: Placed<Term>,
    argument: Placed<Term>,
) -> Result<Placed<Term>, AllocError>
    ensures { IfOk result
        (λ t. placed_of t ≡ spec.applied_at place (placed_of function) (placed_of argument)) }
{
    Ok(Placed {
        tree: Term::apply(alloc, function.tree, argument.tree)?,
        places: places_over(place, function.places, argument.places)?,
    })
}

pub fn and_at(
    alloc: Global,
    place: Place,
    left: Placed<Term>,
    right: Placed<Term>,
) -> Result<Placed<Term>, AllocError>
    ensures { IfOk result (λ t. placed_of t ≡ spec.and_at place (placed_of left) (placed_of right)) }
{
    Ok(Placed {
        tree: Term::and(alloc, left.tree, right.tree)?,
        places: places_over(place, left.places, right.places)?,
    })
}

pub fn or_at(
    alloc: Global,
    place: Place,
    left: Placed<Term>,
    right: Placed<Term>,
) -> Result<Placed<Term>, AllocError>
    ensures { IfOk result (λ t. placed_of t ≡ spec.or_at place (placed_of left) (placed_of right)) }
{
    Ok(Placed {
        tree: Term::or(alloc, left.tree, right.tree)?,
        places: places_over(place, left.places, right.places)?,
    })
}

pub fn annotated_at(
    alloc: Global,
    place: Place,
    term: Placed<Term>,
    ty: Placed<Ty>,
) -> Result<Placed<Term>, Fault>
    ensures { Gives placed_of result
        (Ok (trees.annotated term.tree ty.tree, place ∷ term.places ++ ty.places)) }
{
    Ok(Placed {
        tree: Term::annotated(alloc, term.tree, ty.tree)?,
        places: places_over(place, term.places, ty.places)?,
    })
}

pub fn tuple_at(place: Place, parts: Placed<Vec<Term>>) -> Result<Placed<Term>, Fault>
    ensures { Gives placed_of result
        (Ok (trees.tuple (placed_terms parts).0, place ∷ parts.places)) }
{
    let Placed { tree, mut places } = parts;
    places.put_in_front(place)?;
    Ok(Placed {
        tree: Term::tuple(tree),
        places,
    })
}

pub fn list_at(place: Place, parts: Placed<Vec<Term>>) -> Result<Placed<Term>, Fault>
    ensures { Gives placed_of result
        (Ok (trees.list (placed_terms parts).0, place ∷ parts.places)) }
{
    let Placed { tree, mut places } = parts;
    places.put_in_front(place)?;
    Ok(Placed {
        tree: Term::list(tree),
        places,
    })
}

pub fn conditional_at(
    alloc: Global,
    place: Place,
    condition: Placed<Term>,
    consequent: Placed<Term>,
    alternative: Placed<Term>,
) -> Result<Placed<Term>, AllocError>
    ensures { IfOk result (λ t. placed_of t
        ≡ spec.conditional_at place (placed_of condition) (placed_of consequent) (placed_of alternative)) }
{
    let mut places = places_over(place, condition.places, consequent.places)?;
    places.append(alternative.places)?;
    Ok(Placed {
        tree: Term::conditional(alloc, condition.tree, consequent.tree, alternative.tree)?,
        places,
    })
}

pub fn match_at(
    alloc: Global,
    place: Place,
    subject: Placed<Term>,
    cases: Placed<Vec<Case>>,
) -> Result<Placed<Term>, AllocError>
    ensures { IfOk result
        (λ t. placed_of t ≡ spec.match_at place (placed_of subject) (placed_cases cases)) }
{
    Ok(Placed {
        tree: Term::matching(alloc, subject.tree, cases.tree)?,
        places: places_over(place, subject.places, cases.places)?,
    })
}

/// A lambda over a match on its variable.
pub fn cases_at(
    alloc: Global,
    place: Place,
    cases: Placed<Vec<Case>>,
) -> Result<Placed<Term>, AllocError>
    ensures { IfOk result (λ t. placed_of t ≡ spec.cases_at place (placed_cases cases)) }
{
    let subject = leaf(alloc, Term::variable(0), place)?;
    let body = match_at(alloc, place, subject, cases)?;
    lambda_at(alloc, place, body)
}

/// A case of its parts.
pub fn case_of(
    pattern: Placed<Pattern>,
    guard: Option<Placed<Term>>,
    body: Placed<Term>,
) -> Result<Placed<Case>, Fault>
    ensures { Gives placed_of result
        (Ok (steps.case_of (placed_of pattern) (option_map placed_of guard) (placed_of body))) }
{
    let mut places = pattern.places;
    let guard = match guard {
        None => None,
        Some(guard) => {
            places.append(guard.places)?;
            Some(guard.tree)
        }
    };
    places.append(body.places)?;
    Ok(Placed {
        tree: Case {
            pattern: pattern.tree,
            guard,
            body: body.tree,
        },
        places,
    })
}

/// A binding over the rest of a block, at the place of its signature, or at its own where it has none.
#[tactic(auto, unfolding(uc_meaning::specs::ExprMeanings::binding_over))]
pub fn binding_over(
    alloc: Global,
    signed: Option<Signed>,
    place: Place,
    bound: Placed<Term>,
    body: Placed<Term>,
) -> Result<Placed<Term>, Fault>
    ensures { Gives placed_of result
        (Ok (spec.binding_over (option_map signed_of signed.entry) place (placed_of bound) (placed_of body))) }
{
    match signed {
        None => Ok(Placed {
            tree: Term::binding(alloc, None, bound.tree, body.tree)?,
            places: places_over(place, bound.places, body.places)?,
        }),
        Some(signed) => {
            let Placed { tree, places } = signed.type_of;
            let mut places = places_over(signed.place, places, bound.places)?;
            places.append(body.places)?;
            Ok(Placed {
                tree: Term::binding(alloc, Some(tree), bound.tree, body.tree)?,
                places,
            })
        }
    }
}
