//! The levels of signatures, and the type variables in scope under them.
ghost use Rattle.std.specs.Prelude.{◌≡◌, ◌++◌, OnOk, IfOk};
ghost use Rattle.uc_scratch.specs.TypeLevels as spec;
ghost use Rattle.uc_scratch.specs.TypeLevels.{type_front};

use crate::levels::plus;
use crate::scope::Scope;
use crate::type_expr::{TypeAtom, TypeExpr, TypeFront, TypeOperand};
use crate::type_free::put_in_front;
use crate::type_levels::type_levels;
use std::alloc::{AllocError, Global};

/// Adds the variables of the quantifiers at the front of a type.
#[tactic(auto, using(crate::proofs::Sizes::type_parts))]
fn add_quantified<'a>(t: &'a TypeExpr, scope: &mut Scope<'a>) -> Result<(), AllocError>
    ensures { OnOk result (scope.new ≡ scope.old ++ type_front t.now) }
{
    for front in &t.fronts {
        match front {
            TypeFront::Forall(_, variables) => scope.push_all(variables)?,
            TypeFront::Arrow(_) => return Ok(()),
        }
    }
    match &t.last {
        TypeOperand::Atom(TypeAtom::Group(_, inner)) => add_quantified(inner, scope),
        TypeOperand::Atom(TypeAtom::Variable(_) | TypeAtom::Con(_) | TypeAtom::Unit(_))
        | TypeOperand::Atom(TypeAtom::Tuple(_, _) | TypeAtom::List(_, _))
        | TypeOperand::Applied(_, _) => Ok(()),
    }
}

/// The variables of the quantifiers at the front of a type, the outermost first.
pub fn front_variables<'a>(alloc: Global, t: &'a TypeExpr) -> Result<Scope<'a>, AllocError>
    ensures { IfOk result (λ scope. scope ≡ type_front t.now) }
{
    let mut scope = Scope::new(alloc);
    add_quantified(t, &mut scope)?;
    Ok(scope)
}

/// The levels of a signature or an annotation, with the quantifiers that are put in front.
pub fn signature_levels<'a>(
    alloc: Global,
    scope: &Scope<'a>,
    t: &'a TypeExpr,
) -> Result<u64, AllocError>
    ensures { IfOk result (λ levels. levels ≡ spec.signature_levels scope.now t.now) }
{
    let in_front = put_in_front(alloc, scope, t)?;
    plus(in_front.len() as u64, type_levels(t)?)
}

/// What is in scope in the body under a signature.
pub fn scope_under<'a>(
    alloc: Global,
    scope: &Scope<'a>,
    t: &'a TypeExpr,
) -> Result<Scope<'a>, AllocError>
    ensures { IfOk result (λ under. under ≡ spec.scope_under scope.now t.now) }
{
    let mut under = put_in_front(alloc, scope, t)?;
    add_quantified(t, &mut under)?;
    under.extend(scope)?;
    Ok(under)
}
