//! Edits of heads and changes of branches by worked cases.
mod branches;
mod heads;
mod uses;

use crate::head::Head;
use std::alloc::Global;
use uc_base::{Fault, Hash, Name, Ref, Sort};

fn name(alloc: Global, text: &str) -> Result<Name, Fault> {
    Name::parse(alloc, text.as_bytes())
}

fn def(byte: u8) -> Ref {
    Ref::Def(Hash([byte; 64]), 0)
}

fn constructor(byte: u8, number: u32) -> Ref {
    Ref::Ctor(Hash([byte; 64]), 0, number)
}

/// A head of some names.
fn head_of(alloc: Global, pairs: &[(Sort, &str, Ref)]) -> Result<Head, Fault> {
    let mut head = Head::empty(alloc);
    for (sort, text, target) in pairs {
        head.set(*sort, name(alloc, text)?, *target)?;
    }
    Ok(head)
}

/// Whether a call was refused with this line.
fn is_refused<T: Drop>(alloc: Global, outcome: Result<T, Fault>, wanted: &str) -> bool {
    match outcome {
        Ok(_) => false,
        Err(fault) => match fault.line(alloc) {
            Ok(line) => line.as_slice() == wanted.as_bytes(),
            Err(_) => false,
        },
    }
}
