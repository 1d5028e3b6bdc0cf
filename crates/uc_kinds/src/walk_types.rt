//! Types, node by node.
ghost use Rattle.std.specs.Prelude.{◌≡◌, ◌+◌, ◌<◌, ◌^◌, length};
ghost use Rattle.uc_tree.specs.Types.{tys_of};
ghost use Rattle.uc_tree.specs.Declarations.{fields_of};
ghost use Rattle.uc_kinds.specs.Flaws.{ty_flaws, tys_flaws, signature_flaws, fields_flaws};
ghost use Rattle.uc_kinds.specs.Walks.{walked};

use crate::flaw::{Flawed, arity_flaw, pass, quantifier_flaw};
use crate::position::Position;
use uc_tree::{Arities, Ty, TyNode};

/// Walks a type behind so many nodes.
#[cycle(walk_type)]
#[tactic(auto, using(crate::proofs::Walking::walking))]
pub fn walk_type<A: Arities>(arities: &A, at: Position, t: &Ty, before: u32) -> Result<u32, Flawed>
    requires { before + length (ty_flaws (A.arity_of arities.now) at t.now) < 2 ^ 32 }
    ensures { result ≡ walked before (ty_flaws (A.arity_of arities.now) at t.now) }
{
    match &t.node {
        TyNode::Var(_) | TyNode::Unit => Ok(before + 1),
        TyNode::Forall(body) => {
            let passed = pass(quantifier_flaw(at), before)?;
            walk_type(arities, at, body, passed)
        }
        TyNode::Arrow(from, to) => {
            let passed = walk_type(arities, at, from, before + 1)?;
            walk_type(arities, at, to, passed)
        }
        TyNode::Tuple(parts) => walk_types(arities, Position::Inside, parts, before + 1),
        TyNode::Data(head, arguments) => {
            let passed = pass(arity_flaw(arities.arity(head), arguments.len()), before)?;
            walk_types(arities, Position::Inside, arguments, passed)
        }
    }
}

#[cycle(walk_type)]
#[tactic(auto, using(crate::proofs::Walking::walking))]
pub fn walk_types<A: Arities>(
    arities: &A,
    at: Position,
    ts: &[Ty],
    before: u32,
) -> Result<u32, Flawed>
    requires { before + length (tys_flaws (A.arity_of arities.now) at (tys_of ts.now)) < 2 ^ 32 }
    ensures { result ≡ walked before (tys_flaws (A.arity_of arities.now) at (tys_of ts.now)) }
{
    let mut passed = before;
    for t in ts {
        passed = walk_type(arities, at, t, passed)?;
    }
    Ok(passed)
}

pub fn walk_signature<A: Arities>(
    arities: &A,
    signature: &Option<Ty>,
    before: u32,
) -> Result<u32, Flawed>
    requires { before + length (signature_flaws (A.arity_of arities.now) signature.now) < 2 ^ 32 }
    ensures { result ≡ walked before (signature_flaws (A.arity_of arities.now) signature.now) }
{
    match signature {
        None => Ok(before),
        Some(t) => walk_type(arities, Position::Outside, t, before),
    }
}

/// Walks the fields of constructors behind so many nodes.
pub fn walk_fields<A: Arities>(arities: &A, ctors: &[Vec<Ty>], before: u32) -> Result<u32, Flawed>
    requires { before + length (fields_flaws (A.arity_of arities.now) (fields_of ctors.now)) < 2 ^ 32 }
    ensures { result ≡ walked before (fields_flaws (A.arity_of arities.now) (fields_of ctors.now)) }
{
    let mut passed = before;
    for fields in ctors {
        passed = walk_types(arities, Position::Outside, fields, passed)?;
    }
    Ok(passed)
}
