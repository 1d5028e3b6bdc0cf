//! The levels of the items of a file.
ghost use Rattle.std.specs.Prelude.{◌≡◌, IfOk};
ghost use Rattle.uc_scratch.specs.TypeViews.{type_atoms};
ghost use Rattle.uc_scratch.specs.FileViews.{item_of, constructors_of};
ghost use Rattle.uc_scratch.specs.FileLevels as spec;

use crate::expr_levels::{bound_levels, expr_levels};
use crate::file::{Constructor, Item};
use crate::levels::plus;
use crate::scope::Scope;
use crate::signed::{Signed, signed_by};
use crate::type_expr::TypeAtom;
use crate::type_levels::atom_levels;
use crate::type_scope::signature_levels;
use crate::written::Written;
use std::alloc::{AllocError, Global};

/// The levels of the declared type at its parameters.
fn result_levels(params: &[Written]) -> u64
    ensures { result ≡ spec.result_levels params.now }
{
    match params {
        [] => 1,
        [_, ..] => 2,
    }
}

/// The levels of arrows from fields to a result that has so many.
fn fields_levels(result_levels: u64, fields: &[TypeAtom]) -> Result<u64, AllocError>
    ensures { IfOk result (λ levels. levels ≡ spec.fields_levels result_levels (type_atoms fields.now)) }
{
    let mut above = 0;
    let mut deepest = 0;
    for field in fields {
        above = plus(above, 1)?;
        deepest = deepest.max(plus(above, atom_levels(field)?)?);
    }
    Ok(deepest.max(plus(above, result_levels)?))
}

/// The levels of the types of constructors.
fn constructors_levels(params: &[Written], constructors: &[Constructor]) -> Result<u64, AllocError>
    ensures { IfOk result
        (λ levels. levels ≡ spec.constructors_levels params.now (constructors_of constructors.now)) }
{
    let mut levels = 0u64;
    for constructor in constructors {
        let arrows = fields_levels(result_levels(params), &constructor.fields)?;
        levels = levels.max(plus(params.len() as u64, arrows)?);
    }
    Ok(levels)
}

/// The levels of the trees of an item behind a signature or none.
pub fn item_levels<'a>(
    alloc: Global,
    signed: &Option<Signed<'a>>,
    item: &'a Item,
) -> Result<u64, AllocError>
    ensures { IfOk result (λ levels. levels ≡ spec.item_levels signed.now (item_of item.now)) }
{
    let outside = Scope::new(alloc);
    match item {
        Item::Use(_) => Ok(0),
        Item::Declaration(d) => constructors_levels(&d.params, &d.constructors),
        Item::Signature(s) => signature_levels(alloc, &outside, &s.of),
        Item::Binding(d) => bound_levels(alloc, &outside, signed, d),
        Item::Watch(w) => expr_levels(alloc, &outside, &w.of),
    }
}

/// What an item gives to a binding that follows it.
pub fn signed_behind<'a>(alloc: Global, item: &'a Item) -> Result<Option<Signed<'a>>, AllocError>
    ensures { IfOk result (λ signed. signed ≡ spec.signed_behind (item_of item.now)) }
{
    match item {
        Item::Signature(s) => Ok(Some(signed_by(alloc, &Scope::new(alloc), s)?)),
        Item::Use(_) | Item::Declaration(_) | Item::Binding(_) | Item::Watch(_) => Ok(None),
    }
}
