//! The builtins with their arities and types.
ghost use Rattle.std.specs.Prelude.{◌≡◌, ◌<◌, Some, IfOk};
ghost use Rattle.std.specs.Option.{option_copied};
ghost use Rattle.uc_store.specs.Builtins as spec;
ghost use Rattle.uc_store.specs.Builtins.{AreBuiltinTypes};

use std::alloc::{AllocError, Global};
use uc_base::{FIRST_BUILTIN_TERM, Ref};
use uc_tree::{Target, Ty};

/// How many arguments a builtin type takes.
pub fn builtin_arity(number: u16) -> Option<u32>
    ensures { result ≡ spec.builtin_arity number }
{
    match number {
        0..=4 => Some(0),
        5 => Some(1),
        _ => None,
    }
}

fn plain(alloc: Global, number: u16) -> Ty
    ensures { result ≡ spec.plain number }
{
    Ty::data(Target::Stored(Ref::Builtin(number)), Vec::new(alloc))
}

fn nat(alloc: Global) -> Ty
    ensures { result ≡ spec.nat }
{
    plain(alloc, 0)
}

fn int(alloc: Global) -> Ty
    ensures { result ≡ spec.int }
{
    plain(alloc, 1)
}

fn boolean(alloc: Global) -> Ty
    ensures { result ≡ spec.boolean }
{
    plain(alloc, 2)
}

fn text(alloc: Global) -> Ty
    ensures { result ≡ spec.text }
{
    plain(alloc, 3)
}

fn char(alloc: Global) -> Ty
    ensures { result ≡ spec.char }
{
    plain(alloc, 4)
}

fn list(alloc: Global, of: Ty) -> Result<Ty, AllocError>
    ensures { IfOk result (λ t. t ≡ spec.list of) }
{
    let mut arguments = Vec::new(alloc);
    arguments.push(of)?;
    Ok(Ty::data(Target::Stored(Ref::Builtin(5)), arguments))
}

fn function(alloc: Global, first: Ty, second: Ty, to: Ty) -> Result<Ty, AllocError>
    ensures { IfOk result (λ t. t ≡ spec.function first second to) }
{
    Ty::arrow(alloc, first, Ty::arrow(alloc, second, to)?)
}

fn nat_term(alloc: Global, number: u16) -> Result<Ty, AllocError>
    requires above { 15 < number }
    requires below { number < 30 }
    ensures { IfOk result (λ t. Some t ≡ spec.builtin_type number) }
{
    match number {
        0..=20 => function(alloc, nat(alloc), nat(alloc), nat(alloc)),
        21 => function(alloc, nat(alloc), nat(alloc), int(alloc)),
        22..=26 => function(alloc, nat(alloc), nat(alloc), boolean(alloc)),
        27 => Ty::arrow(alloc, nat(alloc), nat(alloc)),
        28 => Ty::arrow(alloc, nat(alloc), int(alloc)),
        _ => Ty::arrow(alloc, nat(alloc), text(alloc)),
    }
}

fn int_term(alloc: Global, number: u16) -> Result<Ty, AllocError>
    requires above { 29 < number }
    requires below { number < 41 }
    ensures { IfOk result (λ t. Some t ≡ spec.builtin_type number) }
{
    match number {
        0..=33 => function(alloc, int(alloc), int(alloc), int(alloc)),
        34..=38 => function(alloc, int(alloc), int(alloc), boolean(alloc)),
        39 => Ty::arrow(alloc, int(alloc), int(alloc)),
        _ => Ty::arrow(alloc, int(alloc), text(alloc)),
    }
}

fn text_term(alloc: Global, number: u16) -> Result<Ty, AllocError>
    requires above { 40 < number }
    requires below { number < 50 }
    ensures { IfOk result (λ t. Some t ≡ spec.builtin_type number) }
{
    match number {
        0..=41 => Ty::arrow(alloc, boolean(alloc), boolean(alloc)),
        42 => function(alloc, text(alloc), text(alloc), text(alloc)),
        43 => Ty::arrow(alloc, text(alloc), nat(alloc)),
        44 => function(alloc, text(alloc), text(alloc), boolean(alloc)),
        45 | 46 => function(alloc, nat(alloc), text(alloc), text(alloc)),
        47 => Ty::arrow(alloc, text(alloc), list(alloc, char(alloc))?),
        48 => Ty::arrow(alloc, list(alloc, char(alloc))?, text(alloc)),
        _ => Ty::arrow(alloc, char(alloc), nat(alloc)),
    }
}

/// The variable of the quantifier in front.
fn element() -> Ty
    ensures { result ≡ spec.a }
{
    Ty::variable(0)
}

/// Lists of it.
fn lists(alloc: Global) -> Result<Ty, AllocError>
    ensures { IfOk result (λ t. t ≡ spec.list spec.a) }
{
    list(alloc, element())
}

fn list_term(alloc: Global, number: u16) -> Result<Ty, AllocError>
    requires above { 49 < number }
    requires below { number < 57 }
    ensures { IfOk result (λ t. Some t ≡ spec.builtin_type number) }
{
    let body = match number {
        0..=50 => function(alloc, lists(alloc)?, lists(alloc)?, lists(alloc)?)?,
        51 => function(alloc, element(), lists(alloc)?, lists(alloc)?)?,
        52 => function(alloc, lists(alloc)?, element(), lists(alloc)?)?,
        53 => Ty::arrow(alloc, lists(alloc)?, nat(alloc))?,
        54 | 55 => function(alloc, nat(alloc), lists(alloc)?, lists(alloc)?)?,
        _ => lists(alloc)?,
    };
    Ty::forall(alloc, body)
}

fn term(alloc: Global, number: u16) -> Result<Ty, AllocError>
    requires above { 15 < number }
    requires below { number < 57 }
    ensures { IfOk result (λ t. Some t ≡ spec.builtin_type number) }
{
    match number {
        0..=29 => nat_term(alloc, number),
        30..=40 => int_term(alloc, number),
        41..=49 => text_term(alloc, number),
        _ => list_term(alloc, number),
    }
}

/// The types of the builtin terms, by number from `FIRST_BUILTIN_TERM` on.
pub(crate) fn builtin_types(alloc: Global) -> Result<Vec<Ty>, AllocError>
    ensures { IfOk result (λ types. AreBuiltinTypes types.items) }
{
    let mut types = Vec::new(alloc);
    for number in 16..57 {
        types.push(term(alloc, number)?)?;
    }
    Ok(types)
}

/// The type of a builtin term, lent from the types of all.
pub(crate) fn builtin_type(types: &[Ty], number: u16) -> Option<&Ty>
    requires { AreBuiltinTypes types.now }
    ensures { option_copied result ≡ spec.builtin_type number }
{
    if number < FIRST_BUILTIN_TERM {
        return None;
    }
    let place = (number - FIRST_BUILTIN_TERM) as usize;
    if place < types.len() {
        Some(&types[place])
    } else {
        None
    }
}
