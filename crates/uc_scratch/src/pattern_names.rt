//! The names that patterns and parameters bind.
ghost use Rattle.std.specs.Prelude.{◌≡◌, [], ◌∷◌, ◌++◌, OnOk};
ghost use Rattle.uc_scratch.specs.Patterns.{patterns_of};
ghost use Rattle.uc_scratch.specs.PatternViews.{pattern_operand, pattern_operands, pattern_atom, pattern_atoms, pattern_form};
ghost use Rattle.uc_scratch.specs.NameFaults as spec;

use crate::names::WrittenNames;
use crate::pattern::{Pattern, PatternAtom, PatternForm, PatternOperand};
use crate::written::Param;
use std::alloc::AllocError;

/// Adds the names that a pattern binds.
#[cycle(add_pattern)]
#[tactic(auto, using(crate::proofs::Sizes::pattern_parts))]
pub fn add_pattern<'a>(p: &'a Pattern, out: &mut WrittenNames<'a>) -> Result<(), AllocError>
    ensures { OnOk result (out.new ≡ out.old ++ spec.pattern_names p.now) }
{
    for head in &p.heads {
        add_operand(head, out)?;
    }
    add_operand(&p.middle, out)?;
    add_operands(&p.tails, out)
}

#[cycle(add_pattern)]
#[tactic(auto, using(crate::proofs::Sizes::pattern_parts))]
fn add_operands<'a>(
    operands: &'a [PatternOperand],
    out: &mut WrittenNames<'a>,
) -> Result<(), AllocError>
    ensures { OnOk result (out.new ≡ out.old ++ spec.pattern_operands_names (pattern_operands operands.now)) }
{
    for operand in operands {
        add_operand(operand, out)?;
    }
    Ok(())
}

#[cycle(add_pattern)]
#[tactic(auto, using(crate::proofs::Sizes::pattern_parts))]
fn add_operand<'a>(
    operand: &'a PatternOperand,
    out: &mut WrittenNames<'a>,
) -> Result<(), AllocError>
    ensures { OnOk result (out.new ≡ out.old ++ spec.pattern_operand_names (pattern_operand operand.now)) }
{
    match operand {
        PatternOperand::Applied(_, atoms) => add_atoms(atoms, out),
        PatternOperand::Atom(atom) => add_atom(atom, out),
    }
}

#[cycle(add_pattern)]
#[tactic(auto, using(crate::proofs::Sizes::pattern_parts))]
fn add_atom<'a>(atom: &'a PatternAtom, out: &mut WrittenNames<'a>) -> Result<(), AllocError>
    ensures { OnOk result (out.new ≡ out.old ++ spec.pattern_atom_names (pattern_atom atom.now)) }
{
    out.push_all(&atom.names)?;
    add_form(&atom.form, out)?;
    Ok(())
}

#[cycle(add_pattern)]
#[tactic(auto, using(crate::proofs::Sizes::pattern_parts))]
fn add_form<'a>(form: &'a PatternForm, out: &mut WrittenNames<'a>) -> Result<(), AllocError>
    ensures { OnOk result (out.new ≡ out.old ++ spec.pattern_atom_names (pattern_form form.now)) }
{
    match form {
        PatternForm::Any(_) | PatternForm::Literal(_) => Ok(()),
        PatternForm::Con(_) | PatternForm::Unit(_) => Ok(()),
        PatternForm::Variable(name) => out.push(name),
        PatternForm::Group(_, p) => add_pattern(p, out),
        PatternForm::Tuple(_, ps) | PatternForm::List(_, ps) => add_patterns(ps, out),
    }
}

#[cycle(add_pattern)]
#[tactic(auto, using(crate::proofs::Sizes::pattern_parts))]
fn add_patterns<'a>(ps: &'a [Pattern], out: &mut WrittenNames<'a>) -> Result<(), AllocError>
    ensures { OnOk result (out.new ≡ out.old ++ spec.patterns_names (patterns_of ps.now)) }
{
    for p in ps {
        add_pattern(p, out)?;
    }
    Ok(())
}

#[cycle(add_pattern)]
#[tactic(auto, using(crate::proofs::Sizes::pattern_parts))]
fn add_atoms<'a>(atoms: &'a [PatternAtom], out: &mut WrittenNames<'a>) -> Result<(), AllocError>
    ensures { OnOk result (out.new ≡ out.old ++ spec.pattern_atoms_names (pattern_atoms atoms.now)) }
{
    for atom in atoms {
        add_atom(atom, out)?;
    }
    Ok(())
}

/// Adds the name of a parameter.
pub fn add_param<'a>(param: &'a Param, out: &mut WrittenNames<'a>) -> Result<(), AllocError>
    ensures { OnOk result (out.new ≡ out.old ++ spec.param_names (param.now ∷ [])) }
{
    match param {
        Param::Name(name) => out.push(name),
        Param::Any(_) => Ok(()),
    }
}

/// Adds the names of parameters.
pub fn add_params<'a>(params: &'a [Param], out: &mut WrittenNames<'a>) -> Result<(), AllocError>
    ensures { OnOk result (out.new ≡ out.old ++ spec.param_names params.now) }
{
    for param in params {
        match param {
            Param::Name(name) => out.push(name)?,
            Param::Any(_) => {}
        }
    }
    Ok(())
}
