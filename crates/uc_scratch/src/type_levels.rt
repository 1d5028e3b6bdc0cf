//! The levels of types.
ghost use Rattle.std.specs.Prelude.{◌≡◌, IfOk};
ghost use Rattle.uc_scratch.specs.TypeExprs.{types_of};
ghost use Rattle.uc_scratch.specs.TypeViews.{type_operand, type_atom, type_atoms};
ghost use Rattle.uc_scratch.specs.TypeLevels as spec;

use crate::levels::plus;
use crate::type_expr::{TypeAtom, TypeExpr, TypeFront, TypeOperand};
use std::alloc::AllocError;

/// The levels of a type.
#[cycle(type_levels)]
#[tactic(auto, using(crate::proofs::Sizes::type_parts))]
pub fn type_levels(t: &TypeExpr) -> Result<u64, AllocError>
    ensures { IfOk result (λ levels. levels ≡ spec.type_levels t.now) }
{
    let mut above = 0;
    let mut deepest = 0;
    for front in &t.fronts {
        match front {
            TypeFront::Forall(_, names) => above = plus(above, names.len() as u64)?,
            TypeFront::Arrow(left) => {
                above = plus(above, 1)?;
                deepest = deepest.max(plus(above, operand_levels(left)?)?);
            }
        }
    }
    Ok(deepest.max(plus(above, operand_levels(&t.last)?)?))
}

#[cycle(type_levels)]
#[tactic(auto, using(crate::proofs::Sizes::type_parts))]
fn operand_levels(operand: &TypeOperand) -> Result<u64, AllocError>
    ensures { IfOk result (λ levels. levels ≡ spec.type_operand_levels (type_operand operand.now)) }
{
    match operand {
        TypeOperand::Applied(_, atoms) => plus(atoms_levels(atoms)?, 1),
        TypeOperand::Atom(atom) => atom_levels(atom),
    }
}

/// The levels of an atom.
#[cycle(type_levels)]
#[tactic(auto, using(crate::proofs::Sizes::type_parts))]
pub fn atom_levels(atom: &TypeAtom) -> Result<u64, AllocError>
    ensures { IfOk result (λ levels. levels ≡ spec.type_atom_levels (type_atom atom.now)) }
{
    match atom {
        TypeAtom::Variable(_) | TypeAtom::Con(_) | TypeAtom::Unit(_) => Ok(1),
        TypeAtom::Group(_, t) => type_levels(t),
        TypeAtom::Tuple(_, ts) => plus(types_levels(ts)?, 1),
        TypeAtom::List(_, t) => plus(type_levels(t)?, 1),
    }
}

#[cycle(type_levels)]
#[tactic(auto, using(crate::proofs::Sizes::type_parts))]
fn types_levels(ts: &[TypeExpr]) -> Result<u64, AllocError>
    ensures { IfOk result (λ levels. levels ≡ spec.types_levels (types_of ts.now)) }
{
    let mut levels = 0u64;
    for t in ts {
        levels = levels.max(type_levels(t)?);
    }
    Ok(levels)
}

#[cycle(type_levels)]
#[tactic(auto, using(crate::proofs::Sizes::type_parts))]
fn atoms_levels(atoms: &[TypeAtom]) -> Result<u64, AllocError>
    ensures { IfOk result (λ levels. levels ≡ spec.type_atoms_levels (type_atoms atoms.now)) }
{
    let mut levels = 0u64;
    for atom in atoms {
        levels = levels.max(atom_levels(atom)?);
    }
    Ok(levels)
}
