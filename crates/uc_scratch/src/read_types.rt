//! Types are read from tokens.
ghost use Rattle.std.specs.Prelude.{◌≡◌, ◌≢◌, List, [], ◌∷◌, true, IfOk, IsErrOf};
ghost use Rattle.uc_scratch.specs.declared.stop.Stop.TheVariants.{Absent};
ghost use Rattle.uc_scratch.specs.declared.terminal.Terminal.{Terminal as Seen};
ghost use Rattle.uc_scratch.specs.declared.terminal.Terminal.TheVariants as token;
ghost use Rattle.uc_scratch.specs.declared.written.Written.{Written as WrittenSeen};
ghost use Rattle.uc_scratch.specs.TypeExprs as plain;
ghost use Rattle.uc_scratch.specs.TypeExprs.{types_of};
ghost use Rattle.uc_scratch.specs.TypeViews.{type_atom, type_atoms, type_operand};
ghost use Rattle.uc_scratch.specs.TypeBrackets.{operand_with, in_round};
ghost use Rattle.uc_scratch.specs.TypeGrammar.{ReadsVariables, ReadsType, ReadsTypeOperand, ReadsTypeAtoms, ReadsTypeAtom, ReadsTypes};
ghost use Rattle.uc_scratch.specs.Follows.{ends_variables, ends_type_atoms, ends_type};
ghost use Rattle.uc_scratch.specs.Nesting.{fits};

use crate::atom_front::{AtomFront, atom_front, forall_front, variable_front};
use crate::front::{Mark, behind};
use crate::stop::Stop;
use crate::terminal::Terminal;
use crate::type_expr::{TypeAtom, TypeExpr, TypeFront, TypeOperand};
use crate::written::{Con, Written};
use std::alloc::{AllocError, Global};
use uc_base::Place;

#[cfg(test)]
mod tests;

/// All variables at the front.
pub fn read_variables(
    alloc: Global,
    tokens: &[Terminal],
) -> Result<(Vec<Written>, &[Terminal]), AllocError>
    ensures found { IfOk result (λ x. ReadsVariables tokens.now x.0.items x.1.now) }
    ensures ends { IfOk result (λ x. ends_variables x.1.now ≡ true) }
{
    let mut variables = Vec::new(alloc);
    let mut rest = tokens;
    'variables: loop {
        match variable_front(rest) {
            None => return Ok((variables, rest)),
            Some((w, after)) => {
                variables.push(w.copy(alloc)?)?;
                rest = after;
            }
        }
    }
}

/// The variables of a quantifier and the dot behind them.
fn read_bound(alloc: Global, tokens: &[Terminal]) -> Result<(Vec<Written>, &[Terminal]), Stop>
    ensures found { IfOk result
        (λ x. ReadsVariables tokens.now x.0.items (token.Dot ∷ x.1.now)) }
    ensures some { IfOk result (λ x. x.0.items ≢ []) }
    ensures none { IsErrOf result Absent
        → (w : WrittenSeen) (ws : List WrittenSeen) (us : List Seen)
        → ReadsVariables tokens.now (w ∷ ws) (token.Dot ∷ us) → ⊥ }
{
    let (variables, rest) = read_variables(alloc, tokens)?;
    if variables.is_empty() {
        return Err(Stop::Absent);
    }
    match behind(Mark::Dot, rest) {
        Some(after) => Ok((variables, after)),
        None => Err(Stop::Absent),
    }
}

/// Whether nothing that begins an atom of a type stands at the front.
fn ends_atoms(tokens: &[Terminal]) -> bool
    ensures { result ≡ ends_type_atoms tokens.now }
{
    match tokens {
        [] => true,
        [token, ..] => match token {
            Terminal::Small(_)
            | Terminal::Capital(_)
            | Terminal::Dotted(_)
            | Terminal::Reference(_)
            | Terminal::Left(_)
            | Terminal::LeftSquare(_) => false,
            _ => true,
        },
    }
}

/// The name of a declared type with the atoms behind it.
fn operand(con: Con, atoms: Vec<TypeAtom>) -> TypeOperand
    ensures { type_operand result ≡ operand_with con (type_atoms atoms.items) }
{
    if atoms.is_empty() {
        TypeOperand::Atom(TypeAtom::Con(con))
    } else {
        TypeOperand::Applied(con, atoms)
    }
}

/// Types in round brackets.
fn round_type(alloc: Global, place: Place, mut types: Vec<TypeExpr>) -> Result<TypeAtom, AllocError>
    ensures { IfOk result (λ a. type_atom a ≡ in_round place (types_of types.items)) }
{
    if types.len() == 1 {
        let only = Box::new(alloc, types.remove(0))?;
        Ok(TypeAtom::Group(place, only))
    } else {
        Ok(TypeAtom::Tuple(place, types))
    }
}

/// Types with commas between them, up to the closing bracket.
#[cycle(reading_type)]
fn read_types(
    alloc: Global,
    depth: u32,
    tokens: &[Terminal],
) -> Result<(Vec<TypeExpr>, &[Terminal]), Stop>
    requires { fits depth tokens.now ≡ true }
    ensures found { IfOk result (λ x. ReadsTypes tokens.now (types_of x.0.items) x.1.now) }
    ensures none { IsErrOf result Absent → (ts : plain.TypeExprs) (us : List Seen)
        → ReadsTypes tokens.now ts us → ⊥ }
{
    let mut types = Vec::new(alloc);
    let mut rest = tokens;
    'types: loop {
        let (of, after) = read_type(alloc, depth, rest)?;
        types.push(of)?;
        match behind(Mark::Comma, after) {
            Some(next) => rest = next,
            None => match behind(Mark::Right, after) {
                Some(end) => return Ok((types, end)),
                None => return Err(Stop::Absent),
            },
        }
    }
}

/// An atom that begins with a round bracket, from behind the bracket.
#[cycle(reading_type)]
fn read_round_type(
    alloc: Global,
    depth: u32,
    place: Place,
    tokens: &[Terminal],
) -> Result<(TypeAtom, &[Terminal]), Stop>
    requires { fits depth (token.Left place ∷ tokens.now) ≡ true }
    ensures found { IfOk result
        (λ x. ReadsTypeAtom (token.Left place ∷ tokens.now) (type_atom x.0) x.1.now) }
    ensures none { IsErrOf result Absent → (a : plain.TypeAtom) (us : List Seen)
        → ReadsTypeAtom (token.Left place ∷ tokens.now) a us → ⊥ }
{
    match behind(Mark::Right, tokens) {
        Some(rest) => Ok((TypeAtom::Unit(place), rest)),
        None => {
            let (types, rest) = read_types(alloc, depth - 1, tokens)?;
            let atom = round_type(alloc, place, types)?;
            Ok((atom, rest))
        }
    }
}

/// A list type, from behind its bracket.
#[cycle(reading_type)]
fn read_list_type(
    alloc: Global,
    depth: u32,
    place: Place,
    tokens: &[Terminal],
) -> Result<(TypeAtom, &[Terminal]), Stop>
    requires { fits depth (token.LeftSquare place ∷ tokens.now) ≡ true }
    ensures found { IfOk result
        (λ x. ReadsTypeAtom (token.LeftSquare place ∷ tokens.now) (type_atom x.0) x.1.now) }
    ensures none { IsErrOf result Absent → (a : plain.TypeAtom) (us : List Seen)
        → ReadsTypeAtom (token.LeftSquare place ∷ tokens.now) a us → ⊥ }
{
    let (of, after) = read_type(alloc, depth - 1, tokens)?;
    match behind(Mark::RightSquare, after) {
        Some(rest) => {
            let of = Box::new(alloc, of)?;
            Ok((TypeAtom::List(place, of), rest))
        }
        None => Err(Stop::Absent),
    }
}

/// An atom at the front.
#[cycle(reading_type)]
fn read_type_atom(
    alloc: Global,
    depth: u32,
    tokens: &[Terminal],
) -> Result<(TypeAtom, &[Terminal]), Stop>
    requires { fits depth tokens.now ≡ true }
    ensures found { IfOk result (λ x. ReadsTypeAtom tokens.now (type_atom x.0) x.1.now) }
    ensures none { IsErrOf result Absent → (a : plain.TypeAtom) (us : List Seen)
        → ReadsTypeAtom tokens.now a us → ⊥ }
{
    match atom_front(tokens) {
        AtomFront::Variable(w, rest) => Ok((TypeAtom::Variable(w.copy(alloc)?), rest)),
        AtomFront::Path(w, rest) => Ok((TypeAtom::Con(Con::Path(w.copy(alloc)?)), rest)),
        AtomFront::Reference(r, rest) => Ok((TypeAtom::Con(Con::Reference(r.copy(alloc)?)), rest)),
        AtomFront::Left(place, inside) => read_round_type(alloc, depth, place, inside),
        AtomFront::LeftSquare(place, inside) => read_list_type(alloc, depth, place, inside),
        AtomFront::Wildcard(_, _) | AtomFront::Literal(_, _) | AtomFront::Other => Err(
            Stop::Absent,
        ),
    }
}

/// All atoms at the front.
#[cycle(reading_type)]
pub fn read_type_atoms(
    alloc: Global,
    depth: u32,
    tokens: &[Terminal],
) -> Result<(Vec<TypeAtom>, &[Terminal]), Stop>
    requires { fits depth tokens.now ≡ true }
    ensures found { IfOk result (λ x. ReadsTypeAtoms tokens.now (type_atoms x.0.items) x.1.now) }
    ensures ends { IfOk result (λ x. ends_type_atoms x.1.now ≡ true) }
    ensures none { IsErrOf result Absent → (bs : plain.TypeAtoms) (us : List Seen)
        → ReadsTypeAtoms tokens.now bs us → ends_type_atoms us ≡ true → ⊥ }
{
    let mut atoms = Vec::new(alloc);
    let mut rest = tokens;
    'atoms: while !ends_atoms(rest) {
        let (atom, after) = read_type_atom(alloc, depth, rest)?;
        atoms.push(atom)?;
        rest = after;
    }
    Ok((atoms, rest))
}

/// The name of a declared type with all atoms behind it, or one other atom.
#[cycle(reading_type)]
fn read_type_operand(
    alloc: Global,
    depth: u32,
    tokens: &[Terminal],
) -> Result<(TypeOperand, &[Terminal]), Stop>
    requires { fits depth tokens.now ≡ true }
    ensures found { IfOk result (λ x. ReadsTypeOperand tokens.now (type_operand x.0) x.1.now) }
    ensures ends { IfOk result (λ x. ends_type_atoms x.1.now ≡ true) }
    ensures none { IsErrOf result Absent → (a : plain.TypeOperand) (us : List Seen)
        → ReadsTypeOperand tokens.now a us → ends_type_atoms us ≡ true → ⊥ }
{
    let (first, after) = read_type_atom(alloc, depth, tokens)?;
    match first {
        TypeAtom::Con(con) => {
            let (atoms, rest) = read_type_atoms(alloc, depth, after)?;
            Ok((operand(con, atoms), rest))
        }
        other => {
            if !ends_atoms(after) {
                return Err(Stop::Absent);
            }
            Ok((TypeOperand::Atom(other), after))
        }
    }
}

/// A type at the front, with all that can go on with it.
#[cycle(reading_type)]
pub fn read_type(
    alloc: Global,
    depth: u32,
    tokens: &[Terminal],
) -> Result<(TypeExpr, &[Terminal]), Stop>
    requires { fits depth tokens.now ≡ true }
    ensures found { IfOk result (λ x. ReadsType tokens.now x.0 x.1.now) }
    ensures ends { IfOk result (λ x. ends_type x.1.now ≡ true) }
    ensures none { IsErrOf result Absent → (t : plain.TypeExpr) (us : List Seen)
        → ReadsType tokens.now t us → ends_type us ≡ true → ⊥ }
{
    let mut fronts = Vec::new(alloc);
    let mut rest = tokens;
    'fronts: loop {
        match forall_front(rest) {
            Some((place, after)) => {
                let (variables, next) = read_bound(alloc, after)?;
                fronts.push(TypeFront::Forall(place, variables))?;
                rest = next;
            }
            None => {
                let (last, after) = read_type_operand(alloc, depth, rest)?;
                match behind(Mark::Arrow, after) {
                    Some(next) => {
                        fronts.push(TypeFront::Arrow(last))?;
                        rest = next;
                    }
                    None => return Ok((TypeExpr { fronts, last }, after)),
                }
            }
        }
    }
}
