//! Names and literals as they are written.
ghost use Rattle.std.specs.Prelude.{◌≡◌, IfOk};

use std::alloc::{AllocError, Global};
use uc_base::{Bytes, Place};

/// A name, a literal or a reference as it is written, at its place.
#[derive(Debug, Drop)]
pub struct Written {
    pub text: Bytes,
    pub place: Place,
}

/// A hash or the name of a builtin.
#[derive(Debug, Drop)]
pub enum Reference {
    Hash(Written),
    Builtin(Written),
}

/// The name of a constructor or of a declared type: a path with a dot or a capital first letter, or a reference.
#[derive(Debug, Drop)]
pub enum Con {
    Path(Written),
    Reference(Reference),
}

/// What a literal is.
#[derive(Clone, Copy, Debug, PartialEq, Eq)]
pub enum LiteralSort {
    Nat,
    Int,
    Text,
    Char,
    True,
    False,
}

/// A literal with its text, quotes and escapes as they are written.
#[derive(Debug, Drop)]
pub struct Literal {
    pub sort: LiteralSort,
    pub written: Written,
}

/// A parameter of a lambda or a binding: one wordy segment, or `_`.
#[derive(Debug, Drop)]
pub enum Param {
    Name(Written),
    Any(Place),
}

/// What a signature or a binding names: a path, or an operator in brackets or bare. The place is the bracket's. A bare
/// operator stands in signatures alone.
#[derive(Debug, Drop)]
pub enum Head {
    Path(Written),
    Bracketed(Place, Written),
    Operator(Written),
}

impl Written {
    pub fn copy(&self, alloc: Global) -> Result<Written, AllocError>
        ensures { IfOk result (λ w. w ≡ self.now) }
    {
        Ok(Written {
            text: Bytes::from_slice(alloc, self.text.as_slice())?,
            place: self.place,
        })
    }
}

impl Reference {
    pub fn copy(&self, alloc: Global) -> Result<Reference, AllocError>
        ensures { IfOk result (λ r. r ≡ self.now) }
    {
        match self {
            Reference::Hash(w) => Ok(Reference::Hash(w.copy(alloc)?)),
            Reference::Builtin(w) => Ok(Reference::Builtin(w.copy(alloc)?)),
        }
    }
}

impl Literal {
    pub fn copy(&self, alloc: Global) -> Result<Literal, AllocError>
        ensures { IfOk result (λ l. l ≡ self.now) }
    {
        Ok(Literal {
            sort: self.sort,
            written: self.written.copy(alloc)?,
        })
    }
}
