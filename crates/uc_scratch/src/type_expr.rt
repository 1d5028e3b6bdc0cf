//! Types as they are written.

use crate::written::{Con, Written};
use std::marker::Model;
use uc_base::Place;

/// A type: quantifiers and left sides of arrows, and what stands behind them. Contracts see the `TypeExpr` of
/// `specs/TypeExprs.antt`.
#[cycle(type_expr)]
#[derive(Debug, Drop)]
pub struct TypeExpr {
    pub fronts: Vec<TypeFront>,
    pub last: TypeOperand,
}

/// `forall` with its variables, or the left side of an arrow.
#[cycle(type_expr)]
#[derive(Debug, Drop)]
pub enum TypeFront {
    Forall(Place, Vec<Written>),
    Arrow(TypeOperand),
}

/// The name of a declared type with arguments, or one atom.
#[cycle(type_expr)]
#[derive(Debug, Drop)]
pub enum TypeOperand {
    Applied(Con, Vec<TypeAtom>),
    Atom(TypeAtom),
}

/// A type of one word or in brackets, whose place is the opening one's.
#[cycle(type_expr)]
#[derive(Debug, Drop)]
pub enum TypeAtom {
    Variable(Written),
    Con(Con),
    Unit(Place),
    Group(Place, Box<TypeExpr>),
    Tuple(Place, Vec<TypeExpr>),
    List(Place, Box<TypeExpr>),
}

impl Model for TypeExpr {
    ghost use Rattle.uc_scratch.specs.TypeExprs.{TypeExpr as Plain, type_size};
    ghost use Rattle.uc_scratch.specs.TypeCodes.{coded_type};

    ghost Value = { Plain };

    ghost coded = { coded_type };

    ghost use Rattle.uc_scratch.specs.TypeViews.{type_of};

    ghost view = { λ t. type_of t.fronts.items t.last };

    ghost size = { type_size };

    ghost use Rattle.uc_scratch.specs.TypeFalls.{falls};

    ghost size_decreases = { λ t h. falls t };
}
