//! The names that types write.
ghost use Rattle.std.specs.Prelude.{◌≡◌, ◌++◌, OnOk};
ghost use Rattle.uc_scratch.specs.TypeExprs.{TypeExpr as Plain, types_of};
ghost use Rattle.uc_scratch.specs.TypeViews.{fronted, type_operand, type_atom, type_atoms};
ghost use Rattle.uc_meaning.specs.Words as spec;

use crate::words::Words;
use std::alloc::AllocError;
use uc_scratch::{TypeAtom, TypeExpr, TypeFront, TypeOperand};

/// Adds those of a type.
#[cycle(add_type)]
#[tactic(auto, using(uc_scratch::proofs::Sizes::type_parts))]
pub fn add_type<'a>(t: &'a TypeExpr, out: &mut Words<'a>) -> Result<(), AllocError>
    ensures { OnOk result (out.new ≡ out.old ++ spec.type_words t.now) }
{
    for front in &t.fronts {
        add_front(front, out)?;
    }
    add_operand(&t.last, out)
}

/// Adds those of the left side of an arrow.
#[cycle(add_type)]
#[tactic(auto, using(uc_scratch::proofs::Sizes::type_parts))]
fn add_front<'a>(front: &'a TypeFront, out: &mut Words<'a>) -> Result<(), AllocError>
    ensures { OnOk result ((t : Plain)
        → out.new ++ spec.type_words t ≡ out.old ++ spec.type_words (fronted front.now t)) }
{
    match front {
        TypeFront::Forall(_, _) => Ok(()),
        TypeFront::Arrow(left) => add_operand(left, out),
    }
}

#[cycle(add_type)]
#[tactic(auto, using(uc_scratch::proofs::Sizes::type_parts))]
fn add_operand<'a>(operand: &'a TypeOperand, out: &mut Words<'a>) -> Result<(), AllocError>
    ensures { OnOk result (out.new ≡ out.old ++ spec.type_operand_words (type_operand operand.now)) }
{
    match operand {
        TypeOperand::Applied(con, atoms) => {
            out.push_con(con)?;
            add_atoms(atoms, out)
        }
        TypeOperand::Atom(atom) => add_atom(atom, out),
    }
}

#[cycle(add_type)]
#[tactic(auto, using(uc_scratch::proofs::Sizes::type_parts))]
fn add_atom<'a>(atom: &'a TypeAtom, out: &mut Words<'a>) -> Result<(), AllocError>
    ensures { OnOk result (out.new ≡ out.old ++ spec.type_atom_words (type_atom atom.now)) }
{
    match atom {
        TypeAtom::Variable(_) | TypeAtom::Unit(_) => Ok(()),
        TypeAtom::Con(con) => out.push_con(con),
        TypeAtom::Group(_, t) | TypeAtom::List(_, t) => add_type(t, out),
        TypeAtom::Tuple(_, ts) => add_types(ts, out),
    }
}

#[cycle(add_type)]
#[tactic(auto, using(uc_scratch::proofs::Sizes::type_parts))]
fn add_types<'a>(ts: &'a [TypeExpr], out: &mut Words<'a>) -> Result<(), AllocError>
    ensures { OnOk result (out.new ≡ out.old ++ spec.types_words (types_of ts.now)) }
{
    for t in ts {
        add_type(t, out)?;
    }
    Ok(())
}

/// Adds those of the atoms of a type.
#[cycle(add_type)]
#[tactic(auto, using(uc_scratch::proofs::Sizes::type_parts))]
pub fn add_atoms<'a>(atoms: &'a [TypeAtom], out: &mut Words<'a>) -> Result<(), AllocError>
    ensures { OnOk result (out.new ≡ out.old ++ spec.type_atoms_words (type_atoms atoms.now)) }
{
    for atom in atoms {
        add_atom(atom, out)?;
    }
    Ok(())
}
