//! The levels of the parts of an expression.
ghost use Rattle.std.specs.Prelude.{◌≡◌, [], ◌∷◌, OnOk, IfOk};
ghost use Rattle.uc_scratch.specs.ExprLevels as spec;
ghost use Rattle.uc_scratch.specs.ExprLevels.{innermost, others};

use crate::levels::plus;
use std::alloc::{AllocError, Global};
use std::marker::Model;

/// The levels of what has been read of an expression: of the operands of `||`, of those of `&&`, of an operator with
/// what stands left of it, and of the atoms behind these. 0 stands for none.
#[derive(Clone, Copy, Debug)]
pub struct Parts {
    pub ors: u64,
    pub ands: u64,
    pub operands: u64,
    pub atoms: u64,
}

/// One node over two parts, or the second part alone where there is no first.
fn joined(first: u64, second: u64) -> Result<u64, AllocError>
    ensures { IfOk result (λ levels. levels ≡ spec.joined first second) }
{
    if first == 0 {
        Ok(second)
    } else {
        plus(first.max(second), 1)
    }
}

impl Parts {
    pub fn none() -> Parts
        ensures { result ≡ spec.no_parts }
    {
        Parts {
            ors: 0,
            ands: 0,
            operands: 0,
            atoms: 0,
        }
    }

    /// An atom or a form behind the atoms before it.
    pub fn with_atom(self, levels: u64) -> Result<Parts, AllocError>
        ensures { IfOk result (λ parts. parts ≡ spec.with_atom self levels) }
    {
        Ok(Parts {
            ors: self.ors,
            ands: self.ands,
            operands: self.operands,
            atoms: joined(self.atoms, levels)?,
        })
    }

    fn infix_levels(self) -> Result<u64, AllocError>
        ensures { IfOk result (λ levels. levels ≡ spec.infix_levels self) }
    {
        joined(self.operands, self.atoms)
    }

    fn and_levels(self) -> Result<u64, AllocError>
        ensures { IfOk result (λ levels. levels ≡ spec.and_levels self) }
    {
        joined(self.ands, self.infix_levels()?)
    }

    /// The levels of the whole expression.
    pub fn or_levels(self) -> Result<u64, AllocError>
        ensures { IfOk result (λ levels. levels ≡ spec.or_levels self) }
    {
        joined(self.ors, self.and_levels()?)
    }

    pub fn behind_operator(self) -> Result<Parts, AllocError>
        ensures { IfOk result (λ parts. parts ≡ spec.behind_operator self) }
    {
        Ok(Parts {
            ors: self.ors,
            ands: self.ands,
            operands: plus(self.infix_levels()?, 1)?,
            atoms: 0,
        })
    }

    pub fn behind_and(self) -> Result<Parts, AllocError>
        ensures { IfOk result (λ parts. parts ≡ spec.behind_and self) }
    {
        Ok(Parts {
            ors: self.ors,
            ands: self.and_levels()?,
            operands: 0,
            atoms: 0,
        })
    }

    pub fn behind_or(self) -> Result<Parts, AllocError>
        ensures { IfOk result (λ parts. parts ≡ spec.behind_or self) }
    {
        Ok(Parts {
            ors: self.or_levels()?,
            ands: 0,
            operands: 0,
            atoms: 0,
        })
    }
}

/// The expressions in whose condition or subject a step stands. Contracts see the innermost first.
#[derive(Drop)]
pub struct Outside {
    parts: Vec<Parts>,
}

impl Model for Outside {
    ghost use Rattle.std.specs.Prelude.{List, reverse};
    ghost use Rattle.uc_scratch.specs.declared.parts.Parts.{Parts};

    ghost Value = { List Parts };

    ghost view = { λ o. reverse o.parts.items };
}

impl Outside {
    pub fn new(alloc: Global) -> Outside
        ensures { result ≡ [] }
    {
        Outside {
            parts: Vec::new(alloc),
        }
    }

    pub fn push(&mut self, parts: Parts) -> Result<(), AllocError>
        ensures { OnOk result (self.new ≡ parts ∷ self.old) }
    {
        self.parts.push(parts)?;
        Ok(())
    }

    /// Takes the innermost; none has no parts.
    pub fn pop(&mut self) -> Parts
        ensures innermost { result ≡ innermost self.old }
        ensures others { self.new ≡ others self.old }
    {
        match self.parts.pop() {
            None => Parts::none(),
            Some(parts) => parts,
        }
    }
}
