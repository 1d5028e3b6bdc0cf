//! Written expressions, blocks and items as short texts, for tests. Places stand as in `shown`, a block in braces.

use crate::block::{Binding, BindingFront, Block, Case, Entry, Signature, Use};
use crate::expr::{Atom, Expr, Step};
use crate::file::{Constructor, Declaration, DeclarationSort, Item};
use crate::shown::{
    write_between, write_literal, write_name, write_pattern, write_place, write_type,
    write_type_atom,
};
use crate::written::{Head, Param, Reference, Written};
use std::test::Fail;

fn write_names(out: &mut Vec<u8>, names: &[Written]) -> Result<(), Fail> {
    for name in names {
        out.push(b' ')?;
        write_name(out, name)?;
    }
    Ok(())
}

fn write_param(out: &mut Vec<u8>, param: &Param) -> Result<(), Fail> {
    match param {
        Param::Name(w) => write_name(out, w),
        Param::Any(place) => {
            out.push(b'_')?;
            write_place(out, *place)
        }
    }
}

fn write_params(out: &mut Vec<u8>, params: &[Param]) -> Result<(), Fail> {
    for param in params {
        out.push(b' ')?;
        write_param(out, param)?;
    }
    Ok(())
}

fn write_head(out: &mut Vec<u8>, head: &Head) -> Result<(), Fail> {
    match head {
        Head::Path(w) | Head::Operator(w) => write_name(out, w),
        Head::Bracketed(place, w) => {
            out.push(b'(')?;
            write_name(out, w)?;
            out.push(b')')?;
            write_place(out, *place)
        }
    }
}

fn write_front(out: &mut Vec<u8>, front: &BindingFront) -> Result<(), Fail> {
    match front {
        BindingFront::Prefix(head, params) => {
            write_head(out, head)?;
            write_params(out, params)
        }
        BindingFront::Infix(left, operator, right) => {
            write_param(out, left)?;
            out.push(b' ')?;
            write_name(out, operator)?;
            out.push(b' ')?;
            write_param(out, right)
        }
    }
}

fn write_use(out: &mut Vec<u8>, of: &Use) -> Result<(), Fail> {
    out.extend_from_slice(b"use")?;
    write_place(out, of.place)?;
    out.push(b' ')?;
    write_name(out, &of.path)?;
    write_names(out, &of.names)
}

fn write_signature(depth: u32, signature: &Signature, out: &mut Vec<u8>) -> Result<(), Fail> {
    write_head(out, &signature.head)?;
    out.extend_from_slice(b" : ")?;
    write_type(depth, &signature.of, out)
}

/// An expression with at most so many brackets and blocks inside one another.
#[cycle(shown_expr)]
pub fn write_expr(depth: u32, expr: &Expr, out: &mut Vec<u8>) -> Result<(), Fail> {
    for (i, step) in expr.steps.iter().enumerate() {
        if i != 0 {
            out.push(b' ')?;
        }
        write_step(depth, step, out)?;
    }
    Ok(())
}

#[cycle(shown_expr)]
fn write_step(depth: u32, step: &Step, out: &mut Vec<u8>) -> Result<(), Fail> {
    match step {
        Step::Lambda(params, block) => {
            out.push(b'\\')?;
            write_params(out, params)?;
            out.extend_from_slice(b" -> ")?;
            write_block(depth, block, out)
        }
        Step::Atom(atom) => write_atom(depth, atom, out),
        Step::Operator(w) => write_name(out, w),
        Step::And => Ok(out.extend_from_slice(b"&&")?),
        Step::Or => Ok(out.extend_from_slice(b"||")?),
        Step::If(place) => {
            out.extend_from_slice(b"if")?;
            write_place(out, *place)
        }
        Step::Match(place) => {
            out.extend_from_slice(b"match")?;
            write_place(out, *place)
        }
        Step::Then(consequent, alternative) => {
            out.extend_from_slice(b"then ")?;
            write_block(depth, consequent, out)?;
            out.extend_from_slice(b" else ")?;
            write_block(depth, alternative, out)
        }
        Step::With(cases) => {
            out.extend_from_slice(b"with ")?;
            write_cases(depth, cases, out)
        }
        Step::Cases(place, cases) => {
            out.extend_from_slice(b"cases")?;
            write_place(out, *place)?;
            out.push(b' ')?;
            write_cases(depth, cases, out)
        }
        Step::Let(place, block) => {
            out.extend_from_slice(b"let")?;
            write_place(out, *place)?;
            out.push(b' ')?;
            write_block(depth, block, out)
        }
    }
}

#[cycle(shown_expr)]
fn write_exprs(depth: u32, exprs: &[Expr], out: &mut Vec<u8>) -> Result<(), Fail> {
    for (i, expr) in exprs.iter().enumerate() {
        write_between(out, i)?;
        write_expr(depth, expr, out)?;
    }
    Ok(())
}

#[cycle(shown_expr)]
fn write_atom(depth: u32, atom: &Atom, out: &mut Vec<u8>) -> Result<(), Fail> {
    let inside = depth.checked_sub(1).ok_or("too deep")?;
    match atom {
        Atom::Path(w) => write_name(out, w),
        Atom::Reference(Reference::Hash(w)) => write_name(out, w),
        Atom::Reference(Reference::Builtin(w)) => write_name(out, w),
        Atom::Literal(literal) => write_literal(out, literal),
        Atom::Operator(place, w) => {
            out.push(b'(')?;
            write_name(out, w)?;
            out.push(b')')?;
            write_place(out, *place)
        }
        Atom::Unit(place) => {
            out.extend_from_slice(b"()")?;
            write_place(out, *place)
        }
        Atom::Group(place, expr) => {
            out.push(b'(')?;
            write_expr(inside, expr, out)?;
            out.push(b')')?;
            write_place(out, *place)
        }
        Atom::Annotated(place, expr, of) => {
            out.push(b'(')?;
            write_expr(inside, expr, out)?;
            out.extend_from_slice(b" : ")?;
            write_type(depth, of, out)?;
            out.push(b')')?;
            write_place(out, *place)
        }
        Atom::Tuple(place, exprs) => {
            out.push(b'(')?;
            write_exprs(inside, exprs, out)?;
            out.push(b')')?;
            write_place(out, *place)
        }
        Atom::List(place, exprs) => {
            out.push(b'[')?;
            write_exprs(inside, exprs, out)?;
            out.push(b']')?;
            write_place(out, *place)
        }
    }
}

#[cycle(shown_expr)]
fn write_cases(depth: u32, cases: &[Case], out: &mut Vec<u8>) -> Result<(), Fail> {
    out.push(b'{')?;
    for (i, case) in cases.iter().enumerate() {
        if i != 0 {
            out.extend_from_slice(b"; ")?;
        }
        write_pattern(depth, &case.pattern, out)?;
        if let Some(guard) = &case.guard {
            out.extend_from_slice(b" | ")?;
            write_expr(depth.checked_sub(1).ok_or("too deep")?, guard, out)?;
        }
        out.extend_from_slice(b" -> ")?;
        write_block(depth.checked_sub(1).ok_or("too deep")?, &case.body, out)?;
    }
    out.push(b'}')?;
    Ok(())
}

/// A block in braces.
#[cycle(shown_expr)]
pub fn write_block(depth: u32, block: &Block, out: &mut Vec<u8>) -> Result<(), Fail> {
    let inside = depth.checked_sub(1).ok_or("too deep")?;
    out.push(b'{')?;
    for entry in &block.entries {
        write_entry(inside, entry, out)?;
        out.extend_from_slice(b"; ")?;
    }
    write_expr(inside, &block.result, out)?;
    out.push(b'}')?;
    Ok(())
}

#[cycle(shown_expr)]
fn write_entry(depth: u32, entry: &Entry, out: &mut Vec<u8>) -> Result<(), Fail> {
    match entry {
        Entry::Use(of) => write_use(out, of),
        Entry::Signature(signature) => write_signature(depth, signature, out),
        Entry::Binding(binding) => write_binding(depth, binding, out),
    }
}

#[cycle(shown_expr)]
fn write_binding(depth: u32, binding: &Binding, out: &mut Vec<u8>) -> Result<(), Fail> {
    write_front(out, &binding.front)?;
    out.extend_from_slice(b" = ")?;
    write_block(depth, &binding.body, out)
}

fn write_sort(out: &mut Vec<u8>, sort: &DeclarationSort) -> Result<(), Fail> {
    match sort {
        DeclarationSort::Plain(place) => {
            out.extend_from_slice(b"type")?;
            write_place(out, *place)
        }
        DeclarationSort::Structural(place) => {
            out.extend_from_slice(b"structural")?;
            write_place(out, *place)
        }
        DeclarationSort::Unique(place) => {
            out.extend_from_slice(b"unique")?;
            write_place(out, *place)
        }
        DeclarationSort::Tagged(place, tag) => {
            out.extend_from_slice(b"unique")?;
            write_place(out, *place)?;
            out.extend_from_slice(b" [")?;
            write_name(out, tag)?;
            out.push(b']')?;
            Ok(())
        }
    }
}

fn write_constructor(depth: u32, of: &Constructor, out: &mut Vec<u8>) -> Result<(), Fail> {
    write_name(out, &of.name)?;
    for field in &of.fields {
        out.push(b' ')?;
        write_type_atom(depth, field, out)?;
    }
    Ok(())
}

fn write_declaration(depth: u32, of: &Declaration, out: &mut Vec<u8>) -> Result<(), Fail> {
    write_sort(out, &of.sort)?;
    out.push(b' ')?;
    write_name(out, &of.name)?;
    write_names(out, &of.params)?;
    out.extend_from_slice(b" = ")?;
    for (i, constructor) in of.constructors.iter().enumerate() {
        if i != 0 {
            out.extend_from_slice(b" | ")?;
        }
        write_constructor(depth, constructor, out)?;
    }
    Ok(())
}

/// An item with at most so many brackets and blocks inside one another.
pub fn write_item(depth: u32, item: &Item, out: &mut Vec<u8>) -> Result<(), Fail> {
    match item {
        Item::Use(of) => write_use(out, of),
        Item::Declaration(declaration) => write_declaration(depth, declaration, out),
        Item::Signature(signature) => write_signature(depth, signature, out),
        Item::Binding(binding) => write_binding(depth, binding, out),
        Item::Watch(watch) => {
            out.push(b'>')?;
            write_place(out, watch.place)?;
            out.push(b' ')?;
            write_expr(depth, &watch.of, out)
        }
    }
}
