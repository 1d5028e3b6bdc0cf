//! Written patterns as trees.
ghost use Rattle.std.specs.Prelude.{◌≡◌, ◌⊎◌, Err, IfOk, OnOk, IfErr};
ghost use Rattle.uc_base.specs.declared.fault.Fault.TheVariants.{Memory};
ghost use Rattle.uc_scratch.specs.Patterns.{Patterns, PatternAtoms, snocs, more, more_atoms, patterns_of};
ghost use Rattle.uc_scratch.specs.PatternViews.{heads_before, names_before, pattern_operand, pattern_operands, pattern_atom, pattern_atoms, pattern_form};
ghost use Rattle.uc_meaning.specs.Results.{Gives};
ghost use Rattle.uc_meaning.specs.PatternMeanings as spec;
ghost use Rattle.uc_signatures.specs.Joined.{behind_patterns};
ghost use Rattle.uc_signatures.specs.PlacedViews.{placed_of, placed_patterns, aliases};

use crate::names::{con_place, resolve_con};
use crate::pattern_nodes::{alias_at, cons_at, constructor_at, leaf, list_at, snoc_at, tuple_at};
use crate::placed::Placed;
use std::alloc::{AllocError, Global};
use uc_base::{Fault, Place};
use uc_meaning::{Meanings, Usings, Wanted, literal_value};
use uc_scratch::{Pattern as WrittenPattern, PatternAtom, PatternForm, PatternOperand, Written};
use uc_tree::Pattern;

fn form_start(form: &PatternForm) -> Place
    ensures { result ≡ spec.atom_start (pattern_form form.now) }
{
    match form {
        PatternForm::Variable(name) => name.place,
        PatternForm::Literal(literal) => literal.written.place,
        PatternForm::Con(con) => con_place(con),
        PatternForm::Any(place)
        | PatternForm::Unit(place)
        | PatternForm::Group(place, _)
        | PatternForm::Tuple(place, _)
        | PatternForm::List(place, _) => *place,
    }
}

fn atom_start(atom: &PatternAtom) -> Place
    ensures { result ≡ spec.atom_start (pattern_atom atom.now) }
{
    match atom.names.as_slice() {
        [] => form_start(&atom.form),
        [name, ..] => name.place,
    }
}

/// Where an operand begins, a bracket round it included.
fn operand_start(operand: &PatternOperand) -> Place
    ensures { result ≡ spec.operand_start (pattern_operand operand.now) }
{
    match operand {
        PatternOperand::Applied(con, _) => con_place(con),
        PatternOperand::Atom(atom) => atom_start(atom),
    }
}

/// The tree of a pattern.
#[cycle(resolve_pattern)]
pub fn resolve_pattern<M: Meanings>(
    alloc: Global,
    meanings: &M,
    usings: &Usings,
    p: &WrittenPattern,
) -> Result<Placed<Pattern>, Fault>
    ensures { Gives placed_of result (spec.pattern_meaning (M.known meanings.now) usings.now p.now) }
{
    resolve_heads(alloc, meanings, usings, &p.heads, &p.middle, &p.tails)
}

/// Operands with `+:` behind each, before an operand and others with `:+` between.
#[cycle(resolve_pattern)]
fn resolve_heads<M: Meanings>(
    alloc: Global,
    meanings: &M,
    usings: &Usings,
    heads: &[PatternOperand],
    middle: &PatternOperand,
    tails: &[PatternOperand],
) -> Result<Placed<Pattern>, Fault>
    ensures { Gives placed_of result (spec.pattern_meaning (M.known meanings.now) usings.now
        (heads_before heads.now (snocs (pattern_operand middle.now) (pattern_operands tails.now)))) }
{
    match heads {
        [] => resolve_tails(alloc, meanings, usings, middle, tails),
        [head, rest @ ..] => {
            let first = resolve_operand(alloc, meanings, usings, head)?;
            let rest = resolve_heads(alloc, meanings, usings, rest, middle, tails)?;
            Ok(cons_at(alloc, operand_start(head), first, rest)?)
        }
    }
}

/// An operand and others with `:+` between.
#[cycle(resolve_pattern)]
fn resolve_tails<M: Meanings>(
    alloc: Global,
    meanings: &M,
    usings: &Usings,
    middle: &PatternOperand,
    tails: &[PatternOperand],
) -> Result<Placed<Pattern>, Fault>
    ensures { Gives placed_of result (spec.pattern_meaning (M.known meanings.now) usings.now
        (snocs (pattern_operand middle.now) (pattern_operands tails.now))) }
{
    let start = operand_start(middle);
    let mut front = resolve_operand(alloc, meanings, usings, middle)?;
    for tail in tails {
        let last = resolve_operand(alloc, meanings, usings, tail)?;
        front = snoc_at(alloc, start, front, last)?;
    }
    Ok(front)
}

#[cycle(resolve_pattern)]
fn resolve_operand<M: Meanings>(
    alloc: Global,
    meanings: &M,
    usings: &Usings,
    operand: &PatternOperand,
) -> Result<Placed<Pattern>, Fault>
    ensures { Gives placed_of result (spec.operand_meaning (M.known meanings.now) usings.now (pattern_operand operand.now)) }
{
    match operand {
        PatternOperand::Applied(con, atoms) => {
            let target = resolve_con(alloc, meanings, Wanted::Constructor, usings, con)?;
            let arguments = resolve_atoms(alloc, meanings, usings, atoms)?;
            Ok(constructor_at(con_place(con), target, arguments)?)
        }
        PatternOperand::Atom(atom) => resolve_atom(alloc, meanings, usings, atom),
    }
}

#[cycle(resolve_pattern)]
fn resolve_atom<M: Meanings>(
    alloc: Global,
    meanings: &M,
    usings: &Usings,
    atom: &PatternAtom,
) -> Result<Placed<Pattern>, Fault>
    ensures { Gives placed_of result (spec.atom_meaning (M.known meanings.now) usings.now (pattern_atom atom.now)) }
{
    let inside = resolve_form(alloc, meanings, usings, &atom.form)?;
    Ok(aliases_over(alloc, &atom.names, inside)?)
}

/// Names with `@`, each over what stands behind it.
fn aliases_over(
    alloc: Global,
    names: &[Written],
    inside: Placed<Pattern>,
) -> Result<Placed<Pattern>, AllocError>
    ensures { IfOk result (λ p. placed_of p ≡ aliases names.now (placed_of inside)) }
{
    match names {
        [] => Ok(inside),
        [name, rest @ ..] => {
            let p = aliases_over(alloc, rest, inside)?;
            alias_at(alloc, name.place, p)
        }
    }
}

#[cycle(resolve_pattern)]
fn resolve_form<M: Meanings>(
    alloc: Global,
    meanings: &M,
    usings: &Usings,
    form: &PatternForm,
) -> Result<Placed<Pattern>, Fault>
    ensures { Gives placed_of result (spec.atom_meaning (M.known meanings.now) usings.now (pattern_form form.now)) }
{
    match form {
        PatternForm::Any(place) => Ok(leaf(alloc, *place, Pattern::any())?),
        PatternForm::Variable(name) => Ok(leaf(alloc, name.place, Pattern::variable())?),
        PatternForm::Literal(literal) => {
            let value = literal_value(alloc, literal)?;
            Ok(leaf(alloc, literal.written.place, Pattern::literal(value))?)
        }
        PatternForm::Con(con) => {
            let target = resolve_con(alloc, meanings, Wanted::Constructor, usings, con)?;
            Ok(constructor_at(con_place(con), target, Placed::no_patterns(alloc))?)
        }
        PatternForm::Unit(place) => Ok(leaf(alloc, *place, Pattern::unit())?),
        PatternForm::Group(_, p) => resolve_pattern(alloc, meanings, usings, p),
        PatternForm::Tuple(place, ps) => {
            let parts = resolve_patterns(alloc, meanings, usings, ps)?;
            Ok(tuple_at(*place, parts)?)
        }
        PatternForm::List(place, ps) => {
            let parts = resolve_patterns(alloc, meanings, usings, ps)?;
            Ok(list_at(*place, parts)?)
        }
    }
}

/// Adds a pattern to those before it.
#[cycle(resolve_pattern)]
fn add_pattern<M: Meanings>(
    alloc: Global,
    meanings: &M,
    usings: &Usings,
    p: &WrittenPattern,
    found: &mut Placed<Vec<Pattern>>,
) -> Result<(), Fault>
    ensures added { OnOk result ((ps : Patterns)
        → behind_patterns found.old.tree.items found.old.places (spec.patterns_meaning (M.known meanings.now) usings.now (more p.now ps))
        ≡ behind_patterns found.new.tree.items found.new.places (spec.patterns_meaning (M.known meanings.now) usings.now ps)) }
    ensures fault { IfErr result (λ fault. (fault ≡ Memory) ⊎ ((ps : Patterns)
        → spec.patterns_meaning (M.known meanings.now) usings.now (more p.now ps) ≡ Err fault)) }
{
    let p = resolve_pattern(alloc, meanings, usings, p)?;
    found.push_pattern(p)?;
    Ok(())
}

#[cycle(resolve_pattern)]
fn resolve_patterns<M: Meanings>(
    alloc: Global,
    meanings: &M,
    usings: &Usings,
    ps: &[WrittenPattern],
) -> Result<Placed<Vec<Pattern>>, Fault>
    ensures { Gives placed_patterns result (spec.patterns_meaning (M.known meanings.now) usings.now (patterns_of ps.now)) }
{
    let mut found = Placed::no_patterns(alloc);
    for p in ps {
        add_pattern(alloc, meanings, usings, p, &mut found)?;
    }
    Ok(found)
}

/// Adds an atom to those before it.
#[cycle(resolve_pattern)]
fn add_atom<M: Meanings>(
    alloc: Global,
    meanings: &M,
    usings: &Usings,
    atom: &PatternAtom,
    found: &mut Placed<Vec<Pattern>>,
) -> Result<(), Fault>
    ensures added { OnOk result ((bs : PatternAtoms)
        → behind_patterns found.old.tree.items found.old.places (spec.atoms_meaning (M.known meanings.now) usings.now (more_atoms (pattern_atom atom.now) bs))
        ≡ behind_patterns found.new.tree.items found.new.places (spec.atoms_meaning (M.known meanings.now) usings.now bs)) }
    ensures fault { IfErr result (λ fault. (fault ≡ Memory) ⊎ ((bs : PatternAtoms)
        → spec.atoms_meaning (M.known meanings.now) usings.now (more_atoms (pattern_atom atom.now) bs) ≡ Err fault)) }
{
    let p = resolve_atom(alloc, meanings, usings, atom)?;
    found.push_pattern(p)?;
    Ok(())
}

#[cycle(resolve_pattern)]
fn resolve_atoms<M: Meanings>(
    alloc: Global,
    meanings: &M,
    usings: &Usings,
    atoms: &[PatternAtom],
) -> Result<Placed<Vec<Pattern>>, Fault>
    ensures { Gives placed_patterns result (spec.atoms_meaning (M.known meanings.now) usings.now (pattern_atoms atoms.now)) }
{
    let mut found = Placed::no_patterns(alloc);
    for atom in atoms {
        add_atom(alloc, meanings, usings, atom, &mut found)?;
    }
    Ok(found)
}
