//! Literals of terms and patterns.
ghost use Rattle.std.specs.Prelude.{◌≡◌, IfOk};

use std::alloc::{AllocError, Global};
use uc_base::Bytes;

/// A literal. A text is its UTF-8 bytes.
#[derive(Debug, Drop)]
pub enum Literal {
    Nat(u64),
    Int(i64),
    Boolean(bool),
    Text(Bytes),
    Char(char),
}

impl Literal {
    pub fn copy(&self, alloc: Global) -> Result<Literal, AllocError>
        ensures { IfOk result (λ l. l ≡ self.now) }
    {
        match self {
            Literal::Nat(n) => Ok(Literal::Nat(*n)),
            Literal::Int(z) => Ok(Literal::Int(*z)),
            Literal::Boolean(b) => Ok(Literal::Boolean(*b)),
            Literal::Text(text) => Ok(Literal::Text(Bytes::from_slice(alloc, text.as_slice())?)),
            Literal::Char(c) => Ok(Literal::Char(*c)),
        }
    }
}
