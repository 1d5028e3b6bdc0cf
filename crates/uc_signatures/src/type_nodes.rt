//! The nodes of types with their places.
ghost use Rattle.std.specs.Prelude.{◌≡◌, Some, [], ◌∷◌, ◌++◌, IfOk, OnOk};
ghost use Rattle.uc_tree.specs.Types as types;
ghost use Rattle.uc_tree.specs.Types.{tys_of};
ghost use Rattle.uc_tree.specs.declared.target.Target.{Target as PlainTarget};
ghost use Rattle.uc_meaning.specs.TypeMeanings as spec;
ghost use Rattle.uc_signatures.specs.PlacedViews.{placed_of, placed_types};

use crate::place_list::PlaceList;
use crate::placed::Placed;
use std::alloc::{AllocError, Global};
use uc_base::{Place, Ref};
use uc_tree::{Target, Ty};

/// A type that is one node.
fn leaf(alloc: Global, place: Place, tree: Ty) -> Result<Placed<Ty>, AllocError>
    ensures { IfOk result (λ t. placed_of t ≡ (tree, place ∷ [])) }
{
    let places = PlaceList::one(alloc, place)?;
    Ok(Placed { tree, places })
}

/// A variable.
pub fn variable_at(alloc: Global, place: Place, number: u32) -> Result<Placed<Ty>, AllocError>
    ensures { IfOk result (λ t. placed_of t ≡ (types.variable number, place ∷ [])) }
{
    leaf(alloc, place, Ty::variable(number))
}

/// The unit.
pub fn unit_at(alloc: Global, place: Place) -> Result<Placed<Ty>, AllocError>
    ensures { IfOk result (λ t. placed_of t ≡ (types.unit, place ∷ [])) }
{
    leaf(alloc, place, Ty::unit())
}

/// A declared type at arguments.
pub fn applied_at(
    place: Place,
    target: Target,
    arguments: Placed<Vec<Ty>>,
) -> Result<Placed<Ty>, AllocError>
    ensures { IfOk result (λ t. placed_of t
        ≡ (types.applied target (placed_types arguments).0, place ∷ (placed_types arguments).1)) }
{
    let Placed { tree, mut places } = arguments;
    places.put_in_front(place)?;
    Ok(Placed {
        tree: Ty::data(target, tree),
        places,
    })
}

/// A tuple.
pub fn tuple_at(place: Place, parts: Placed<Vec<Ty>>) -> Result<Placed<Ty>, AllocError>
    ensures { IfOk result (λ t. placed_of t ≡ (types.tuple (placed_types parts).0, place ∷ (placed_types parts).1)) }
{
    let Placed { tree, mut places } = parts;
    places.put_in_front(place)?;
    Ok(Placed {
        tree: Ty::tuple(tree),
        places,
    })
}

fn one_type(alloc: Global, t: Ty) -> Result<Vec<Ty>, AllocError>
    ensures { IfOk result (λ ts. ts.items ≡ t ∷ []) }
{
    let mut types = Vec::new(alloc);
    types.push(t)?;
    Ok(types)
}

/// A list type, at its bracket.
pub fn list_at(alloc: Global, place: Place, element: Placed<Ty>) -> Result<Placed<Ty>, AllocError>
    ensures { IfOk result (λ t. placed_of t ≡ spec.list_at place (placed_of element)) }
{
    let Placed { tree, mut places } = element;
    places.put_in_front(place)?;
    let arguments = one_type(alloc, tree)?;
    Ok(Placed {
        tree: Ty::data(Target::Stored(Ref::Builtin(5)), arguments),
        places,
    })
}

/// An arrow, where its left side begins.
pub fn arrow_at(
    alloc: Global,
    place: Place,
    from: Placed<Ty>,
    to: Placed<Ty>,
) -> Result<Placed<Ty>, AllocError>
    ensures { IfOk result (λ t. placed_of t ≡ spec.arrow_at place (placed_of from) (placed_of to)) }
{
    let Placed { tree, mut places } = from;
    places.append(to.places)?;
    places.put_in_front(place)?;
    Ok(Placed {
        tree: Ty::arrow(alloc, tree, to.tree)?,
        places,
    })
}

/// A quantifier at a place.
fn one_quantified_at(
    alloc: Global,
    place: Place,
    body: Placed<Ty>,
) -> Result<Placed<Ty>, AllocError>
    ensures { IfOk result (λ t. placed_of t ≡ (types.quantified (placed_of body).0, place ∷ (placed_of body).1)) }
{
    let Placed { tree, mut places } = body;
    places.put_in_front(place)?;
    Ok(Placed {
        tree: Ty::forall(alloc, tree)?,
        places,
    })
}

/// So many quantifiers at a place.
pub fn quantified_at(
    alloc: Global,
    place: Place,
    count: usize,
    body: Placed<Ty>,
) -> Result<Placed<Ty>, AllocError>
    ensures { IfOk result (λ t. placed_of t ≡ spec.quantified_at place count (placed_of body)) }
{
    let mut t = body;
    let mut left = count;
    while left > 0 {
        left -= 1;
        t = one_quantified_at(alloc, place, t)?;
    }
    Ok(t)
}

impl Placed<Vec<Ty>> {
    /// No types.
    pub fn no_types(alloc: Global) -> Placed<Vec<Ty>>
        ensures tree { result.tree.items ≡ [] }
        ensures places { result.places ≡ [] }
    {
        Placed {
            tree: Vec::new(alloc),
            places: PlaceList::new(alloc),
        }
    }

    /// Puts a type behind these.
    pub fn push_type(&mut self, t: Placed<Ty>) -> Result<(), AllocError>
        ensures tree { OnOk result (self.new.tree.items ≡ self.old.tree.items ++ t.tree ∷ []) }
        ensures places { OnOk result (self.new.places ≡ self.old.places ++ t.places) }
    {
        self.tree.push(t.tree)?;
        self.places.append(t.places)
    }
}
