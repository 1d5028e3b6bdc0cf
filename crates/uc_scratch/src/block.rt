//! Blocks and cases as they are written.

use crate::expr::Expr;
use crate::pattern::Pattern;
use crate::type_expr::TypeExpr;
use crate::written::{Head, Param, Written};
use std::marker::Model;
use uc_base::Place;

/// A block: its entries, and the expression at its end. Contracts see the `Block` of `specs/Exprs.antt`.
#[cycle(expr)]
#[derive(Debug, Drop)]
pub struct Block {
    pub entries: Vec<Entry>,
    pub result: Expr,
}

/// What stands before the expression of a block.
#[cycle(expr)]
#[derive(Debug, Drop)]
pub enum Entry {
    Use(Use),
    Signature(Signature),
    Binding(Binding),
}

/// `use` with a path and the names that it shortens. The place is the keyword's.
#[derive(Debug, Drop)]
pub struct Use {
    pub place: Place,
    pub path: Written,
    pub names: Vec<Written>,
}

/// A name and its type.
#[derive(Debug, Drop)]
pub struct Signature {
    pub head: Head,
    pub of: TypeExpr,
}

/// A name with its parameters, and the block behind `=`.
#[cycle(expr)]
#[derive(Debug, Drop)]
pub struct Binding {
    pub front: BindingFront,
    pub body: Block,
}

/// What stands before the `=` of a binding: a name and its parameters, or an operator between two parameters.
#[derive(Debug, Drop)]
pub enum BindingFront {
    Prefix(Head, Vec<Param>),
    Infix(Param, Written, Param),
}

/// A case of a match.
#[cycle(expr)]
#[derive(Debug, Drop)]
pub struct Case {
    pub pattern: Pattern,
    pub guard: Option<Expr>,
    pub body: Block,
}

impl Model for Block {
    ghost use Rattle.uc_scratch.specs.Exprs.{Block as Plain, block_size};
    ghost use Rattle.uc_scratch.specs.ExprCodes.{coded_block};

    ghost Value = { Plain };

    ghost coded = { coded_block };

    ghost use Rattle.uc_scratch.specs.ExprViews.{block_of};

    ghost view = { λ b. block_of b.entries.items b.result };

    ghost size = { block_size };

    ghost use Rattle.uc_scratch.specs.ExprFalls.{block_falls};

    ghost size_decreases = { λ b h. block_falls b.entries.items b.result };
}
