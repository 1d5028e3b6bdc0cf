//! The types of constructors.
ghost use Rattle.std.specs.Prelude.{◌≡◌, IfOk};
ghost use Rattle.uc_tree.specs.Types.{tys_of};
ghost use Rattle.uc_tree.specs.Constructors as spec;
ghost use Rattle.uc_tree.specs.Constructors.{arrows, quantified_over};

use crate::target::Target;
use crate::ty::Ty;
use std::alloc::{AllocError, Global};

fn parameters(alloc: Global, params: u32) -> Result<Vec<Ty>, AllocError>
    ensures { IfOk result (λ ts. tys_of ts.items ≡ spec.parameters params) }
{
    let mut parameters = Vec::new(alloc);
    let mut left = params;
    while left > 0 {
        left -= 1;
        parameters.push(Ty::variable(left))?;
    }
    Ok(parameters)
}

fn arrows_from(alloc: Global, fields: &[Ty], to: Ty) -> Result<Ty, AllocError>
    ensures { IfOk result (λ t. t ≡ arrows (tys_of fields.now) to) }
{
    let mut ty = to;
    let mut left = fields.len();
    while left > 0 {
        left -= 1;
        ty = Ty::arrow(alloc, fields[left].copy(alloc)?, ty)?;
    }
    Ok(ty)
}

fn quantify(alloc: Global, params: u32, body: Ty) -> Result<Ty, AllocError>
    ensures { IfOk result (λ t. t ≡ quantified_over params body) }
{
    let mut ty = body;
    for i in 0..params {
        ty = Ty::forall(alloc, ty)?;
    }
    Ok(ty)
}

/// The type of the constructor with these fields in the declaration `head` with so many parameters.
pub fn constructor_type(
    alloc: Global,
    head: Target,
    params: u32,
    fields: &[Ty],
) -> Result<Ty, AllocError>
    ensures { IfOk result (λ t. t ≡ spec.constructor_type head params (tys_of fields.now)) }
{
    let declared = Ty::data(head, parameters(alloc, params)?);
    let ty = arrows_from(alloc, fields, declared)?;
    quantify(alloc, params, ty)
}
