//! Written types and patterns as short texts, for tests. A name has its place behind it, the name of
//! a constructor or of a declared type a `!` before it, and an operand with arguments `<` and `>`
//! round it.
ghost use Rattle.std.specs.Prelude.{◌≡◌, true, IsTrue};
ghost use Rattle.uc_scratch.specs.Nesting.{fits};

use crate::front::first;
use crate::pattern::{Pattern, PatternAtom, PatternForm, PatternOperand};
use crate::terminal::Terminal;
use crate::type_expr::{TypeAtom, TypeExpr, TypeFront, TypeOperand};
use crate::written::{Con, Literal, LiteralSort, Reference, Written};
use std::test::Fail;
use uc_base::Place;

/// Whether so many levels are enough.
pub fn levels_fit(most: u32, tokens: &[Terminal]) -> bool
    ensures { IsTrue result → fits most tokens.now ≡ true }
{
    let mut left = most;
    let mut rest = tokens;
    'levels: loop {
        match first(rest) {
            None => return true,
            Some((token, after)) => {
                match token {
                    Terminal::Left(_) | Terminal::LeftSquare(_) | Terminal::Opens => {
                        if left == 0 {
                            return false;
                        }
                        left -= 1;
                    }
                    Terminal::Right | Terminal::RightSquare | Terminal::Closes => {
                        if left == u32::MAX {
                            return false;
                        }
                        left += 1;
                    }
                    _ => {}
                }
                rest = after;
            }
        }
    }
}

pub fn write_place(out: &mut Vec<u8>, place: Place) -> Result<(), Fail> {
    out.push(b'@')?;
    place.write_text(out)?;
    Ok(())
}

pub fn write_name(out: &mut Vec<u8>, name: &Written) -> Result<(), Fail> {
    out.extend_from_slice(name.text.as_slice())?;
    write_place(out, name.place)
}

fn write_con(out: &mut Vec<u8>, con: &Con) -> Result<(), Fail> {
    out.push(b'!')?;
    match con {
        Con::Path(w) => write_name(out, w),
        Con::Reference(Reference::Hash(w)) => write_name(out, w),
        Con::Reference(Reference::Builtin(w)) => write_name(out, w),
    }
}

pub fn write_literal(out: &mut Vec<u8>, literal: &Literal) -> Result<(), Fail> {
    let letter = match literal.sort {
        LiteralSort::Nat => b'N',
        LiteralSort::Int => b'I',
        LiteralSort::Text => b'T',
        LiteralSort::Char => b'C',
        LiteralSort::True => b'+',
        LiteralSort::False => b'-',
    };
    out.push(letter)?;
    write_name(out, &literal.written)
}

pub fn write_between(out: &mut Vec<u8>, place: usize) -> Result<(), Fail> {
    if place != 0 {
        out.extend_from_slice(b", ")?;
    }
    Ok(())
}

/// A type with at most so many brackets inside one another.
#[cycle(shown_type)]
pub fn write_type(depth: u32, of: &TypeExpr, out: &mut Vec<u8>) -> Result<(), Fail> {
    for front in &of.fronts {
        match front {
            TypeFront::Forall(place, variables) => {
                out.extend_from_slice(b"forall")?;
                write_place(out, *place)?;
                for variable in variables {
                    out.push(b' ')?;
                    write_name(out, variable)?;
                }
                out.extend_from_slice(b" . ")?;
            }
            TypeFront::Arrow(operand) => {
                write_type_operand(depth, operand, out)?;
                out.extend_from_slice(b" -> ")?;
            }
        }
    }
    write_type_operand(depth, &of.last, out)
}

#[cycle(shown_type)]
fn write_type_operand(depth: u32, operand: &TypeOperand, out: &mut Vec<u8>) -> Result<(), Fail> {
    match operand {
        TypeOperand::Atom(atom) => write_type_atom(depth, atom, out),
        TypeOperand::Applied(con, atoms) => {
            out.push(b'<')?;
            write_con(out, con)?;
            for atom in atoms {
                out.push(b' ')?;
                write_type_atom(depth, atom, out)?;
            }
            out.push(b'>')?;
            Ok(())
        }
    }
}

#[cycle(shown_type)]
fn write_types(depth: u32, types: &[TypeExpr], out: &mut Vec<u8>) -> Result<(), Fail> {
    for (i, of) in types.iter().enumerate() {
        write_between(out, i)?;
        write_type(depth, of, out)?;
    }
    Ok(())
}

#[cycle(shown_type)]
pub fn write_type_atom(depth: u32, atom: &TypeAtom, out: &mut Vec<u8>) -> Result<(), Fail> {
    let inside = depth.checked_sub(1).ok_or("too deep")?;
    match atom {
        TypeAtom::Variable(w) => write_name(out, w),
        TypeAtom::Con(con) => write_con(out, con),
        TypeAtom::Unit(place) => {
            out.extend_from_slice(b"()")?;
            write_place(out, *place)
        }
        TypeAtom::Group(place, of) => {
            out.push(b'(')?;
            write_type(inside, of, out)?;
            out.push(b')')?;
            write_place(out, *place)
        }
        TypeAtom::Tuple(place, types) => {
            out.push(b'(')?;
            write_types(inside, types, out)?;
            out.push(b')')?;
            write_place(out, *place)
        }
        TypeAtom::List(place, of) => {
            out.push(b'[')?;
            write_type(inside, of, out)?;
            out.push(b']')?;
            write_place(out, *place)
        }
    }
}

/// A pattern with at most so many brackets inside one another.
#[cycle(shown_pattern)]
pub fn write_pattern(depth: u32, pattern: &Pattern, out: &mut Vec<u8>) -> Result<(), Fail> {
    for operand in &pattern.heads {
        write_pattern_operand(depth, operand, out)?;
        out.extend_from_slice(b" +: ")?;
    }
    write_pattern_operand(depth, &pattern.middle, out)?;
    for operand in &pattern.tails {
        out.extend_from_slice(b" :+ ")?;
        write_pattern_operand(depth, operand, out)?;
    }
    Ok(())
}

#[cycle(shown_pattern)]
fn write_pattern_operand(
    depth: u32,
    operand: &PatternOperand,
    out: &mut Vec<u8>,
) -> Result<(), Fail> {
    match operand {
        PatternOperand::Atom(atom) => write_pattern_atom(depth, atom, out),
        PatternOperand::Applied(con, atoms) => {
            out.push(b'<')?;
            write_con(out, con)?;
            for atom in atoms {
                out.push(b' ')?;
                write_pattern_atom(depth, atom, out)?;
            }
            out.push(b'>')?;
            Ok(())
        }
    }
}

#[cycle(shown_pattern)]
fn write_patterns(depth: u32, patterns: &[Pattern], out: &mut Vec<u8>) -> Result<(), Fail> {
    for (i, pattern) in patterns.iter().enumerate() {
        write_between(out, i)?;
        write_pattern(depth, pattern, out)?;
    }
    Ok(())
}

#[cycle(shown_pattern)]
fn write_pattern_atom(depth: u32, atom: &PatternAtom, out: &mut Vec<u8>) -> Result<(), Fail> {
    for name in &atom.names {
        write_name(out, name)?;
        out.extend_from_slice(b" as ")?;
    }
    write_pattern_form(depth, &atom.form, out)
}

#[cycle(shown_pattern)]
fn write_pattern_form(depth: u32, form: &PatternForm, out: &mut Vec<u8>) -> Result<(), Fail> {
    let inside = depth.checked_sub(1).ok_or("too deep")?;
    match form {
        PatternForm::Any(place) => {
            out.push(b'_')?;
            write_place(out, *place)
        }
        PatternForm::Variable(w) => write_name(out, w),
        PatternForm::Literal(literal) => write_literal(out, literal),
        PatternForm::Con(con) => write_con(out, con),
        PatternForm::Unit(place) => {
            out.extend_from_slice(b"()")?;
            write_place(out, *place)
        }
        PatternForm::Group(place, pattern) => {
            out.push(b'(')?;
            write_pattern(inside, pattern, out)?;
            out.push(b')')?;
            write_place(out, *place)
        }
        PatternForm::Tuple(place, patterns) => {
            out.push(b'(')?;
            write_patterns(inside, patterns, out)?;
            out.push(b')')?;
            write_place(out, *place)
        }
        PatternForm::List(place, patterns) => {
            out.push(b'[')?;
            write_patterns(inside, patterns, out)?;
            out.push(b']')?;
            write_place(out, *place)
        }
    }
}
