//! The nodes of patterns with their places.
ghost use Rattle.std.specs.Prelude.{◌≡◌, [], ◌∷◌, ◌++◌, IfOk, OnOk};
ghost use Rattle.uc_tree.specs.Patterns as patterns;
ghost use Rattle.uc_meaning.specs.PatternMeanings as spec;
ghost use Rattle.uc_signatures.specs.PlacedViews.{placed_of, placed_patterns};

use crate::place_list::PlaceList;
use crate::placed::Placed;
use std::alloc::{AllocError, Global};
use uc_base::Place;
use uc_tree::{Pattern, Target};

/// A pattern that is one node.
pub fn leaf(alloc: Global, place: Place, tree: Pattern) -> Result<Placed<Pattern>, AllocError>
    ensures { IfOk result (λ p. placed_of p ≡ (tree, place ∷ [])) }
{
    let places = PlaceList::one(alloc, place)?;
    Ok(Placed { tree, places })
}

/// A name with `@` before a pattern.
pub fn alias_at(
    alloc: Global,
    place: Place,
    inside: Placed<Pattern>,
) -> Result<Placed<Pattern>, AllocError>
    ensures { IfOk result (λ p. placed_of p ≡ (patterns.alias (placed_of inside).0, place ∷ (placed_of inside).1)) }
{
    let Placed { tree, mut places } = inside;
    places.put_in_front(place)?;
    Ok(Placed {
        tree: Pattern::alias(alloc, tree)?,
        places,
    })
}

/// A constructor and its arguments.
pub fn constructor_at(
    place: Place,
    target: Target,
    arguments: Placed<Vec<Pattern>>,
) -> Result<Placed<Pattern>, AllocError>
    ensures { IfOk result (λ p. placed_of p
        ≡ (patterns.constructor target (placed_patterns arguments).0, place ∷ (placed_patterns arguments).1)) }
{
    let Placed { tree, mut places } = arguments;
    places.put_in_front(place)?;
    Ok(Placed {
        tree: Pattern::constructor(target, tree),
        places,
    })
}

/// A tuple.
pub fn tuple_at(place: Place, parts: Placed<Vec<Pattern>>) -> Result<Placed<Pattern>, AllocError>
    ensures { IfOk result (λ p. placed_of p ≡ (patterns.tuple (placed_patterns parts).0, place ∷ (placed_patterns parts).1)) }
{
    let Placed { tree, mut places } = parts;
    places.put_in_front(place)?;
    Ok(Placed {
        tree: Pattern::tuple(tree),
        places,
    })
}

/// A list.
pub fn list_at(place: Place, parts: Placed<Vec<Pattern>>) -> Result<Placed<Pattern>, AllocError>
    ensures { IfOk result (λ p. placed_of p ≡ (patterns.list (placed_patterns parts).0, place ∷ (placed_patterns parts).1)) }
{
    let Placed { tree, mut places } = parts;
    places.put_in_front(place)?;
    Ok(Placed {
        tree: Pattern::list(tree),
        places,
    })
}

/// `+:` with both sides, where the left one begins.
pub fn cons_at(
    alloc: Global,
    place: Place,
    first: Placed<Pattern>,
    rest: Placed<Pattern>,
) -> Result<Placed<Pattern>, AllocError>
    ensures { IfOk result (λ p. placed_of p ≡ spec.cons_at place (placed_of first) (placed_of rest)) }
{
    let Placed { tree, mut places } = first;
    places.append(rest.places)?;
    places.put_in_front(place)?;
    Ok(Placed {
        tree: Pattern::cons(alloc, tree, rest.tree)?,
        places,
    })
}

/// `:+` with both sides, where the left one begins.
pub fn snoc_at(
    alloc: Global,
    place: Place,
    front: Placed<Pattern>,
    last: Placed<Pattern>,
) -> Result<Placed<Pattern>, AllocError>
    ensures { IfOk result (λ p. placed_of p ≡ spec.snoc_at place (placed_of front) (placed_of last)) }
{
    let Placed { tree, mut places } = front;
    places.append(last.places)?;
    places.put_in_front(place)?;
    Ok(Placed {
        tree: Pattern::snoc(alloc, tree, last.tree)?,
        places,
    })
}

impl Placed<Vec<Pattern>> {
    /// No patterns.
    pub fn no_patterns(alloc: Global) -> Placed<Vec<Pattern>>
        ensures tree { result.tree.items ≡ [] }
        ensures places { result.places ≡ [] }
    {
        Placed {
            tree: Vec::new(alloc),
            places: PlaceList::new(alloc),
        }
    }

    /// Puts a pattern behind these.
    pub fn push_pattern(&mut self, p: Placed<Pattern>) -> Result<(), AllocError>
        ensures tree { OnOk result (self.new.tree.items ≡ self.old.tree.items ++ p.tree ∷ []) }
        ensures places { OnOk result (self.new.places ≡ self.old.places ++ p.places) }
    {
        self.tree.push(p.tree)?;
        self.places.append(p.places)
    }
}
