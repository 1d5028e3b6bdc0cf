//! Types that are written in terms.
ghost use Rattle.std.specs.Prelude.{◌≡◌, ◌+◌, ◌<◌, ◌^◌, IfOk, length};
ghost use Rattle.uc_context.specs.Opens.{opens_of};
ghost use Rattle.uc_tree.specs.Nodes.{ty_nodes};
ghost use Rattle.uc_tree.specs.Counts.{ty_levels, tys_levels};
ghost use Rattle.uc_tree.specs.Types.{tys_of};
ghost use Rattle.uc_typing.specs.WrittenTypes as spec;
ghost use Rattle.uc_typing.specs.WrittenTypes.{variable_among, written_under, all_written_under};

use std::alloc::{AllocError, Global};
use uc_context::Open;
use uc_patterns::Sight;
use uc_tree::{Ty, TyNode};

/// What stands for a variable under so many quantifiers of its type.
fn variable_among(sight: &Sight, depth: u32, variable: u32) -> Open
    ensures { result ≡ variable_among sight.now.seen depth variable }
{
    if variable < depth {
        return Open::bound(variable);
    }
    match sight.rigid(variable - depth) {
        Some(number) => Open::rigid(number),
        None => Open::bound(variable),
    }
}

#[cycle(written)]
fn written_under(alloc: Global, sight: &Sight, depth: u32, ty: &Ty) -> Result<Open, AllocError>
    requires { depth + ty_levels ty.now < 2 ^ 32 }
    ensures { IfOk result (λ t. t ≡ written_under sight.now.seen depth ty.now) }
{
    match &ty.node {
        TyNode::Var(variable) => Ok(variable_among(sight, depth, *variable)),
        TyNode::Forall(body) => {
            Open::forall(alloc, written_under(alloc, sight, depth + 1, body)?)
        }
        TyNode::Arrow(from, to) => {
            let from = written_under(alloc, sight, depth, from)?;
            let to = written_under(alloc, sight, depth, to)?;
            Open::arrow(alloc, from, to)
        }
        TyNode::Unit => Ok(Open::unit()),
        TyNode::Tuple(parts) => Ok(Open::tuple(all_written_under(alloc, sight, depth, parts)?)),
        TyNode::Data(head, arguments) => {
            let arguments = all_written_under(alloc, sight, depth, arguments)?;
            Ok(Open::data(*head, arguments))
        }
    }
}

#[cycle(written)]
fn all_written_under(
    alloc: Global,
    sight: &Sight,
    depth: u32,
    types: &[Ty],
) -> Result<Vec<Open>, AllocError>
    requires { depth + tys_levels (tys_of types.now) < 2 ^ 32 }
    ensures { IfOk result (λ ts. opens_of ts.items ≡ all_written_under sight.now.seen depth (tys_of types.now)) }
{
    let mut written = Vec::new(alloc);
    for ty in types {
        written.push(written_under(alloc, sight, depth, ty)?)?;
    }
    Ok(written)
}

/// A type as it is written where rigid variables are in sight.
pub(crate) fn written(alloc: Global, sight: &Sight, ty: &Ty) -> Result<Open, AllocError>
    requires { length (ty_nodes ty.now) < 2 ^ 32 }
    ensures { IfOk result (λ t. t ≡ spec.written sight.now.seen ty.now) }
{
    written_under(alloc, sight, 0, ty)
}
