//! Patterns are read from tokens.
ghost use Rattle.std.specs.Prelude.{◌≡◌, List, ◌∷◌, true, IfOk, IsErrOf};
ghost use Rattle.uc_scratch.specs.declared.stop.Stop.TheVariants.{Absent};
ghost use Rattle.uc_scratch.specs.declared.terminal.Terminal.{Terminal as Seen};
ghost use Rattle.uc_scratch.specs.declared.terminal.Terminal.TheVariants as token;
ghost use Rattle.uc_scratch.specs.Marks.{mark_terminal};
ghost use Rattle.uc_scratch.specs.Patterns as plain;
ghost use Rattle.uc_scratch.specs.Patterns.{patterns_of};
ghost use Rattle.uc_scratch.specs.PatternViews.{pattern_form, pattern_atom, pattern_atoms, pattern_operand, pattern_operands};
ghost use Rattle.uc_scratch.specs.PatternBrackets.{operand_with, in_round, closing_terminal};
ghost use Rattle.uc_scratch.specs.PatternGrammar.{ReadsPattern, ReadsSnocs, ReadsPatternOperand, ReadsPatternAtoms, ReadsPatternAtom, ReadsPatterns};
ghost use Rattle.uc_scratch.specs.Follows.{ends_name, ends_pattern_atoms, ends_pattern};
ghost use Rattle.uc_scratch.specs.Nesting.{fits};

use crate::atom_front::{AtomFront, atom_front, con_front, cons_front, named_front, snoc_front};
use crate::front::{Mark, behind};
use crate::pattern::{Pattern, PatternAtom, PatternForm, PatternOperand};
use crate::stop::Stop;
use crate::terminal::Terminal;
use crate::written::Con;
use std::alloc::{AllocError, Global};
use uc_base::Place;

#[cfg(test)]
mod tests;

/// The shape of brackets.
#[derive(Clone, Copy, Debug, PartialEq, Eq)]
pub enum Bracket {
    Round,
    Square,
}

fn closing(bracket: Bracket) -> Mark
    ensures { mark_terminal result ≡ closing_terminal bracket }
{
    match bracket {
        Bracket::Round => Mark::Right,
        Bracket::Square => Mark::RightSquare,
    }
}

/// Whether nothing that begins an atom of a pattern or goes on with one stands at the front.
fn ends_atoms(tokens: &[Terminal]) -> bool
    ensures { result ≡ ends_pattern_atoms tokens.now }
{
    match tokens {
        [] => true,
        [token, ..] => match token {
            Terminal::Small(_)
            | Terminal::Capital(_)
            | Terminal::Dotted(_)
            | Terminal::Wildcard(_)
            | Terminal::Literal(_)
            | Terminal::Reference(_)
            | Terminal::Left(_)
            | Terminal::LeftSquare(_)
            | Terminal::At => false,
            _ => true,
        },
    }
}

/// A constructor with the atoms behind it.
fn operand(alloc: Global, con: Con, atoms: Vec<PatternAtom>) -> PatternOperand
    ensures { pattern_operand result ≡ operand_with con (pattern_atoms atoms.items) }
{
    if atoms.is_empty() {
        PatternOperand::Atom(PatternAtom {
            names: Vec::new(alloc),
            form: PatternForm::Con(con),
        })
    } else {
        PatternOperand::Applied(con, atoms)
    }
}

/// Patterns in round brackets.
fn round_pattern(
    alloc: Global,
    place: Place,
    mut patterns: Vec<Pattern>,
) -> Result<PatternForm, AllocError>
    ensures { IfOk result (λ a. pattern_form a ≡ in_round place (patterns_of patterns.items)) }
{
    if patterns.len() == 1 {
        let only = Box::new(alloc, patterns.remove(0))?;
        Ok(PatternForm::Group(place, only))
    } else {
        Ok(PatternForm::Tuple(place, patterns))
    }
}

/// Patterns with commas between them, up to the closing bracket.
#[cycle(reading_pattern)]
fn read_patterns(
    alloc: Global,
    depth: u32,
    bracket: Bracket,
    tokens: &[Terminal],
) -> Result<(Vec<Pattern>, &[Terminal]), Stop>
    requires { fits depth tokens.now ≡ true }
    ensures found { IfOk result
        (λ x. ReadsPatterns (closing_terminal bracket) tokens.now (patterns_of x.0.items) x.1.now) }
    ensures none { IsErrOf result Absent → (xs : plain.Patterns) (us : List Seen)
        → ReadsPatterns (closing_terminal bracket) tokens.now xs us → ⊥ }
{
    let mut patterns = Vec::new(alloc);
    let mut rest = tokens;
    'patterns: loop {
        let (pattern, after) = read_pattern(alloc, depth, rest)?;
        patterns.push(pattern)?;
        match behind(Mark::Comma, after) {
            Some(next) => rest = next,
            None => match behind(closing(bracket), after) {
                Some(end) => return Ok((patterns, end)),
                None => return Err(Stop::Absent),
            },
        }
    }
}

/// An atom that begins with a round bracket, from behind the bracket.
#[cycle(reading_pattern)]
fn read_round_pattern(
    alloc: Global,
    depth: u32,
    place: Place,
    tokens: &[Terminal],
) -> Result<(PatternForm, &[Terminal]), Stop>
    requires { fits depth (token.Left place ∷ tokens.now) ≡ true }
    ensures found { IfOk result
        (λ x. ReadsPatternAtom (token.Left place ∷ tokens.now) (pattern_form x.0) x.1.now) }
    ensures none { IsErrOf result Absent → (a : plain.PatternAtom) (us : List Seen)
        → ReadsPatternAtom (token.Left place ∷ tokens.now) a us → ⊥ }
{
    match behind(Mark::Right, tokens) {
        Some(rest) => Ok((PatternForm::Unit(place), rest)),
        None => {
            let (patterns, rest) = read_patterns(alloc, depth - 1, Bracket::Round, tokens)?;
            let form = round_pattern(alloc, place, patterns)?;
            Ok((form, rest))
        }
    }
}

/// A list, from behind its bracket.
#[cycle(reading_pattern)]
fn read_list_pattern(
    alloc: Global,
    depth: u32,
    place: Place,
    tokens: &[Terminal],
) -> Result<(PatternForm, &[Terminal]), Stop>
    requires { fits depth (token.LeftSquare place ∷ tokens.now) ≡ true }
    ensures found { IfOk result
        (λ x. ReadsPatternAtom (token.LeftSquare place ∷ tokens.now) (pattern_form x.0) x.1.now) }
    ensures none { IsErrOf result Absent → (a : plain.PatternAtom) (us : List Seen)
        → ReadsPatternAtom (token.LeftSquare place ∷ tokens.now) a us → ⊥ }
{
    match behind(Mark::RightSquare, tokens) {
        Some(rest) => Ok((PatternForm::List(place, Vec::new(alloc)), rest)),
        None => {
            let (patterns, rest) = read_patterns(alloc, depth - 1, Bracket::Square, tokens)?;
            Ok((PatternForm::List(place, patterns), rest))
        }
    }
}

/// An atom at the front that has no name with `@` before it.
#[cycle(reading_pattern)]
fn read_pattern_form(
    alloc: Global,
    depth: u32,
    tokens: &[Terminal],
) -> Result<(PatternForm, &[Terminal]), Stop>
    requires { fits depth tokens.now ≡ true }
    ensures found { IfOk result (λ x. ReadsPatternAtom tokens.now (pattern_form x.0) x.1.now) }
    ensures none { IsErrOf result Absent → (a : plain.PatternAtom) (us : List Seen)
        → ReadsPatternAtom tokens.now a us → ⊥ }
{
    match atom_front(tokens) {
        AtomFront::Variable(w, rest) => Ok((PatternForm::Variable(w.copy(alloc)?), rest)),
        AtomFront::Path(w, rest) => Ok((PatternForm::Con(Con::Path(w.copy(alloc)?)), rest)),
        AtomFront::Reference(r, rest) => {
            Ok((PatternForm::Con(Con::Reference(r.copy(alloc)?)), rest))
        }
        AtomFront::Wildcard(place, rest) => Ok((PatternForm::Any(place), rest)),
        AtomFront::Literal(l, rest) => Ok((PatternForm::Literal(l.copy(alloc)?), rest)),
        AtomFront::Left(place, inside) => read_round_pattern(alloc, depth, place, inside),
        AtomFront::LeftSquare(place, inside) => read_list_pattern(alloc, depth, place, inside),
        AtomFront::Other => Err(Stop::Absent),
    }
}

/// An atom at the front with the names before it.
#[cycle(reading_pattern)]
fn read_pattern_atom(
    alloc: Global,
    depth: u32,
    tokens: &[Terminal],
) -> Result<(PatternAtom, &[Terminal]), Stop>
    requires { fits depth tokens.now ≡ true }
    ensures found { IfOk result (λ x. ReadsPatternAtom tokens.now (pattern_atom x.0) x.1.now) }
    ensures ends { IfOk result (λ x. ends_name x.1.now ≡ true) }
    ensures none { IsErrOf result Absent → (a : plain.PatternAtom) (us : List Seen)
        → ReadsPatternAtom tokens.now a us → ends_name us ≡ true → ⊥ }
{
    let mut names = Vec::new(alloc);
    let mut rest = tokens;
    'names: loop {
        match named_front(rest) {
            Some((name, next)) => {
                names.push(name.copy(alloc)?)?;
                rest = next;
            }
            None => {
                let (form, after) = read_pattern_form(alloc, depth, rest)?;
                match behind(Mark::At, after) {
                    Some(_) => return Err(Stop::Absent),
                    None => return Ok((PatternAtom { names, form }, after)),
                }
            }
        }
    }
}

/// All atoms at the front.
#[cycle(reading_pattern)]
fn read_pattern_atoms(
    alloc: Global,
    depth: u32,
    tokens: &[Terminal],
) -> Result<(Vec<PatternAtom>, &[Terminal]), Stop>
    requires { fits depth tokens.now ≡ true }
    ensures found { IfOk result (λ x. ReadsPatternAtoms tokens.now (pattern_atoms x.0.items) x.1.now) }
    ensures ends { IfOk result (λ x. ends_pattern_atoms x.1.now ≡ true) }
    ensures none { IsErrOf result Absent → (bs : plain.PatternAtoms) (us : List Seen)
        → ReadsPatternAtoms tokens.now bs us → ends_pattern_atoms us ≡ true → ⊥ }
{
    let mut atoms = Vec::new(alloc);
    let mut rest = tokens;
    'atoms: while !ends_atoms(rest) {
        let (atom, after) = read_pattern_atom(alloc, depth, rest)?;
        atoms.push(atom)?;
        rest = after;
    }
    Ok((atoms, rest))
}

/// A constructor with all atoms behind it, or one other atom.
#[cycle(reading_pattern)]
fn read_pattern_operand(
    alloc: Global,
    depth: u32,
    tokens: &[Terminal],
) -> Result<(PatternOperand, &[Terminal]), Stop>
    requires { fits depth tokens.now ≡ true }
    ensures found { IfOk result (λ x. ReadsPatternOperand tokens.now (pattern_operand x.0) x.1.now) }
    ensures ends { IfOk result (λ x. ends_pattern_atoms x.1.now ≡ true) }
    ensures none { IsErrOf result Absent → (a : plain.PatternOperand) (us : List Seen)
        → ReadsPatternOperand tokens.now a us → ends_pattern_atoms us ≡ true → ⊥ }
{
    match con_front(alloc, tokens)? {
        Some((con, after)) => {
            let (atoms, rest) = read_pattern_atoms(alloc, depth, after)?;
            Ok((operand(alloc, con, atoms), rest))
        }
        None => {
            let (atom, rest) = read_pattern_atom(alloc, depth, tokens)?;
            if !ends_atoms(rest) {
                return Err(Stop::Absent);
            }
            Ok((PatternOperand::Atom(atom), rest))
        }
    }
}

/// All operands at the front that have `:+` before them.
#[cycle(reading_pattern)]
fn read_tails(
    alloc: Global,
    depth: u32,
    tokens: &[Terminal],
) -> Result<(Vec<PatternOperand>, &[Terminal]), Stop>
    requires atoms { ends_pattern_atoms tokens.now ≡ true }
    requires levels { fits depth tokens.now ≡ true }
    ensures found { IfOk result (λ x. ReadsSnocs tokens.now (pattern_operands x.0.items) x.1.now) }
    ensures ends { IfOk result (λ x. ends_pattern x.1.now ≡ true) }
    ensures none { IsErrOf result Absent → (bs : plain.PatternOperands) (us : List Seen)
        → ReadsSnocs tokens.now bs us → ends_pattern us ≡ true → ⊥ }
{
    let mut tails = Vec::new(alloc);
    let mut rest = tokens;
    'tails: loop {
        match snoc_front(rest) {
            Some((_, next)) => {
                let (operand, after) = read_pattern_operand(alloc, depth, next)?;
                tails.push(operand)?;
                rest = after;
            }
            None => match cons_front(rest) {
                Some(_) => return Err(Stop::Absent),
                None => return Ok((tails, rest)),
            },
        }
    }
}

/// A pattern at the front, with all that can go on with it.
#[cycle(reading_pattern)]
pub fn read_pattern(
    alloc: Global,
    depth: u32,
    tokens: &[Terminal],
) -> Result<(Pattern, &[Terminal]), Stop>
    requires { fits depth tokens.now ≡ true }
    ensures found { IfOk result (λ x. ReadsPattern tokens.now x.0 x.1.now) }
    ensures ends { IfOk result (λ x. ends_pattern x.1.now ≡ true) }
    ensures none { IsErrOf result Absent → (p : plain.Pattern) (us : List Seen)
        → ReadsPattern tokens.now p us → ends_pattern us ≡ true → ⊥ }
{
    let mut heads = Vec::new(alloc);
    let mut rest = tokens;
    'heads: loop {
        let (middle, after) = read_pattern_operand(alloc, depth, rest)?;
        match cons_front(after) {
            Some((_, next)) => {
                heads.push(middle)?;
                rest = next;
            }
            None => {
                let (tails, end) = read_tails(alloc, depth, after)?;
                let pattern = Pattern {
                    heads,
                    middle,
                    tails,
                };
                return Ok((pattern, end));
            }
        }
    }
}
