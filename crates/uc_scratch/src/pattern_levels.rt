//! The levels of patterns.
ghost use Rattle.std.specs.Prelude.{◌≡◌, IfOk};
ghost use Rattle.uc_scratch.specs.Patterns.{patterns_of};
ghost use Rattle.uc_scratch.specs.PatternViews.{pattern_operand, pattern_operands, pattern_atom, pattern_atoms, pattern_form};
ghost use Rattle.uc_scratch.specs.PatternLevels as spec;

use crate::levels::plus;
use crate::pattern::{Pattern, PatternAtom, PatternForm, PatternOperand};
use std::alloc::AllocError;

/// The levels of a pattern.
#[cycle(pattern_levels)]
#[tactic(auto, using(crate::proofs::Sizes::pattern_parts))]
pub fn pattern_levels(p: &Pattern) -> Result<u64, AllocError>
    ensures { IfOk result (λ levels. levels ≡ spec.pattern_levels p.now) }
{
    let mut above = 0;
    let mut deepest = 0;
    for head in &p.heads {
        above = plus(above, 1)?;
        deepest = deepest.max(plus(above, operand_levels(head)?)?);
    }
    let levels = tails_levels(operand_levels(&p.middle)?, &p.tails)?;
    Ok(deepest.max(plus(above, levels)?))
}

/// The levels of operands with `:+` between, where what stands before them has so many.
#[cycle(pattern_levels)]
#[tactic(auto, using(crate::proofs::Sizes::pattern_parts))]
fn tails_levels(before: u64, tails: &[PatternOperand]) -> Result<u64, AllocError>
    ensures { IfOk result (λ levels. levels ≡ spec.snocs_levels before (pattern_operands tails.now)) }
{
    let mut levels = before;
    for tail in tails {
        levels = plus(levels.max(operand_levels(tail)?), 1)?;
    }
    Ok(levels)
}

#[cycle(pattern_levels)]
#[tactic(auto, using(crate::proofs::Sizes::pattern_parts))]
fn operand_levels(operand: &PatternOperand) -> Result<u64, AllocError>
    ensures { IfOk result (λ levels. levels ≡ spec.pattern_operand_levels (pattern_operand operand.now)) }
{
    match operand {
        PatternOperand::Applied(_, atoms) => plus(atoms_levels(atoms)?, 1),
        PatternOperand::Atom(atom) => atom_levels(atom),
    }
}

#[cycle(pattern_levels)]
#[tactic(auto, using(crate::proofs::Sizes::pattern_parts))]
fn atom_levels(atom: &PatternAtom) -> Result<u64, AllocError>
    ensures { IfOk result (λ levels. levels ≡ spec.pattern_atom_levels (pattern_atom atom.now)) }
{
    plus(form_levels(&atom.form)?, atom.names.len() as u64)
}

#[cycle(pattern_levels)]
#[tactic(auto, using(crate::proofs::Sizes::pattern_parts))]
fn form_levels(form: &PatternForm) -> Result<u64, AllocError>
    ensures { IfOk result (λ levels. levels ≡ spec.pattern_atom_levels (pattern_form form.now)) }
{
    match form {
        PatternForm::Any(_) | PatternForm::Variable(_) | PatternForm::Literal(_) => Ok(1),
        PatternForm::Con(_) | PatternForm::Unit(_) => Ok(1),
        PatternForm::Group(_, p) => pattern_levels(p),
        PatternForm::Tuple(_, ps) | PatternForm::List(_, ps) => plus(patterns_levels(ps)?, 1),
    }
}

#[cycle(pattern_levels)]
#[tactic(auto, using(crate::proofs::Sizes::pattern_parts))]
fn patterns_levels(ps: &[Pattern]) -> Result<u64, AllocError>
    ensures { IfOk result (λ levels. levels ≡ spec.patterns_levels (patterns_of ps.now)) }
{
    let mut levels = 0u64;
    for p in ps {
        levels = levels.max(pattern_levels(p)?);
    }
    Ok(levels)
}

#[cycle(pattern_levels)]
#[tactic(auto, using(crate::proofs::Sizes::pattern_parts))]
fn atoms_levels(atoms: &[PatternAtom]) -> Result<u64, AllocError>
    ensures { IfOk result (λ levels. levels ≡ spec.pattern_atoms_levels (pattern_atoms atoms.now)) }
{
    let mut levels = 0u64;
    for atom in atoms {
        levels = levels.max(atom_levels(atom)?);
    }
    Ok(levels)
}
