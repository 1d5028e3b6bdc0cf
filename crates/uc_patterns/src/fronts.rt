//! Builtin types, and the parts of function types.
ghost use Rattle.std.specs.Prelude.{◌≡◌, IfOk};
ghost use Rattle.uc_context.specs.Opens.{opens_of};
ghost use Rattle.uc_typing.specs.Fronts as spec;

use std::alloc::{AllocError, Global};
use uc_base::Ref;
use uc_context::{Open, OpenNode};
use uc_tree::{Literal, Target};

/// A builtin type without arguments.
pub fn builtin(alloc: Global, number: u16) -> Open
    ensures { result ≡ spec.builtin number }
{
    Open::data(Target::Stored(Ref::Builtin(number)), Vec::new(alloc))
}

pub fn boolean(alloc: Global) -> Open
    ensures { result ≡ spec.boolean }
{
    builtin(alloc, 2)
}

/// The type of lists with elements of a type.
pub fn list_of(alloc: Global, element: Open) -> Result<Open, AllocError>
    ensures { IfOk result (λ t. t ≡ spec.list_of element) }
{
    let mut arguments = Vec::new(alloc);
    arguments.push(element)?;
    Ok(Open::data(Target::Stored(Ref::Builtin(5)), arguments))
}

pub fn literal_type(alloc: Global, of: &Literal) -> Open
    ensures { result ≡ spec.literal_type of.now }
{
    match of {
        Literal::Nat(_) => builtin(alloc, 0),
        Literal::Int(_) => builtin(alloc, 1),
        Literal::Boolean(_) => builtin(alloc, 2),
        Literal::Text(_) => builtin(alloc, 3),
        Literal::Char(_) => builtin(alloc, 4),
    }
}

/// The arguments of a function type of several.
pub fn arguments_of(alloc: Global, of: &Open) -> Result<Vec<Open>, AllocError>
    ensures { IfOk result (λ ts. opens_of ts.items ≡ spec.arguments_of of.now) }
{
    let mut arguments = Vec::new(alloc);
    let mut rest = of;
    while let OpenNode::Arrow(from, to) = &rest.node {
        arguments.push(from.copy(alloc)?)?;
        rest = to;
    }
    Ok(arguments)
}

/// What stands behind the last argument.
pub fn result_of(of: &Open) -> &Open
    ensures { result.now ≡ spec.result_of of.now }
{
    let mut rest = of;
    while let OpenNode::Arrow(_, to) = &rest.node {
        rest = to;
    }
    rest
}
