//! The names that patterns write.
ghost use Rattle.std.specs.Prelude.{◌≡◌, ◌++◌, OnOk};
ghost use Rattle.uc_scratch.specs.Patterns.{patterns_of};
ghost use Rattle.uc_scratch.specs.PatternViews.{pattern_operand, pattern_operands, pattern_atom, pattern_atoms, pattern_form};
ghost use Rattle.uc_meaning.specs.Words as spec;

use crate::words::Words;
use std::alloc::AllocError;
use uc_scratch::{Pattern, PatternAtom, PatternForm, PatternOperand};

/// Adds those of a pattern.
#[cycle(add_pattern)]
#[tactic(auto, using(crate::proofs::WordSteps::pattern_parts))]
pub fn add_pattern<'a>(p: &'a Pattern, out: &mut Words<'a>) -> Result<(), AllocError>
    ensures { OnOk result (out.new ≡ out.old ++ spec.pattern_words p.now) }
{
    for head in &p.heads {
        add_operand(head, out)?;
    }
    add_operand(&p.middle, out)?;
    add_operands(&p.tails, out)
}

#[cycle(add_pattern)]
#[tactic(auto, using(crate::proofs::WordSteps::pattern_parts))]
fn add_operands<'a>(operands: &'a [PatternOperand], out: &mut Words<'a>) -> Result<(), AllocError>
    ensures { OnOk result (out.new ≡ out.old ++ spec.pattern_operands_words (pattern_operands operands.now)) }
{
    for operand in operands {
        add_operand(operand, out)?;
    }
    Ok(())
}

#[cycle(add_pattern)]
#[tactic(auto, using(crate::proofs::WordSteps::pattern_parts))]
fn add_operand<'a>(operand: &'a PatternOperand, out: &mut Words<'a>) -> Result<(), AllocError>
    ensures { OnOk result (out.new ≡ out.old ++ spec.pattern_operand_words (pattern_operand operand.now)) }
{
    match operand {
        PatternOperand::Applied(con, atoms) => {
            out.push_con(con)?;
            add_atoms(atoms, out)
        }
        PatternOperand::Atom(atom) => add_atom(atom, out),
    }
}

#[cycle(add_pattern)]
#[tactic(auto, using(crate::proofs::WordSteps::pattern_parts))]
fn add_atom<'a>(atom: &'a PatternAtom, out: &mut Words<'a>) -> Result<(), AllocError>
    ensures { OnOk result (out.new ≡ out.old ++ spec.pattern_atom_words (pattern_atom atom.now)) }
{
    add_form(&atom.form, out)
}

#[cycle(add_pattern)]
#[tactic(auto, using(crate::proofs::WordSteps::pattern_parts))]
fn add_form<'a>(form: &'a PatternForm, out: &mut Words<'a>) -> Result<(), AllocError>
    ensures { OnOk result (out.new ≡ out.old ++ spec.pattern_atom_words (pattern_form form.now)) }
{
    match form {
        PatternForm::Any(_) | PatternForm::Variable(_) => Ok(()),
        PatternForm::Literal(_) | PatternForm::Unit(_) => Ok(()),
        PatternForm::Con(con) => out.push_con(con),
        PatternForm::Group(_, p) => add_pattern(p, out),
        PatternForm::Tuple(_, ps) | PatternForm::List(_, ps) => add_patterns(ps, out),
    }
}

#[cycle(add_pattern)]
#[tactic(auto, using(crate::proofs::WordSteps::pattern_parts))]
fn add_patterns<'a>(ps: &'a [Pattern], out: &mut Words<'a>) -> Result<(), AllocError>
    ensures { OnOk result (out.new ≡ out.old ++ spec.patterns_words (patterns_of ps.now)) }
{
    for p in ps {
        add_pattern(p, out)?;
    }
    Ok(())
}

#[cycle(add_pattern)]
#[tactic(auto, using(crate::proofs::WordSteps::pattern_parts))]
fn add_atoms<'a>(atoms: &'a [PatternAtom], out: &mut Words<'a>) -> Result<(), AllocError>
    ensures { OnOk result (out.new ≡ out.old ++ spec.pattern_atoms_words (pattern_atoms atoms.now)) }
{
    for atom in atoms {
        add_atom(atom, out)?;
    }
    Ok(())
}
