//! Expressions as they are written.

use crate::block::{Block, Case};
use crate::type_expr::TypeExpr;
use crate::written::{Literal, Param, Reference, Written};
use std::marker::Model;
use uc_base::Place;

/// An expression as the steps of its text. Conditions and subjects may stand in one another without a bracket, as in
/// `if if a then b else c then d else e`, so they don't nest here: `If` and `Match` begin one, and `Then` and `With`
/// end the one that began last. Contracts see the `Expr` of `specs/Exprs.antt`.
///
/// The tree of the steps: `Or` binds loosest, then `And`, then operators, and all associate to the left. Between these
/// stand operands. An operand is atoms, of which the first is applied to the others in turn, and perhaps a form, to
/// which they are applied last: `If` to `Then`, `Match` to `With`, `Cases` or `Let`. `Lambda` is a whole expression, or
/// a whole condition or subject.
#[cycle(expr)]
#[derive(Debug, Drop)]
pub struct Expr {
    pub steps: Vec<Step>,
}

/// A step of an expression. `Then` holds both branches.
#[cycle(expr)]
#[derive(Debug, Drop)]
pub enum Step {
    Lambda(Vec<Param>, Block),
    Atom(Atom),
    Operator(Written),
    And,
    Or,
    If(Place),
    Then(Block, Block),
    Match(Place),
    With(Vec<Case>),
    Cases(Place, Vec<Case>),
    Let(Place, Block),
}

/// An expression of one word or in brackets, whose place is the opening one's.
#[cycle(expr)]
#[derive(Debug, Drop)]
pub enum Atom {
    Path(Written),
    Operator(Place, Written),
    Literal(Literal),
    Reference(Reference),
    Unit(Place),
    Group(Place, Box<Expr>),
    Annotated(Place, Box<Expr>, TypeExpr),
    Tuple(Place, Vec<Expr>),
    List(Place, Vec<Expr>),
}

impl Model for Expr {
    ghost use Rattle.uc_scratch.specs.Exprs.{Expr as Plain, expr_size};
    ghost use Rattle.uc_scratch.specs.ExprCodes.{coded_expr};

    ghost Value = { Plain };

    ghost coded = { coded_expr };

    ghost use Rattle.uc_scratch.specs.ExprViews.{expr_of};

    ghost view = { λ e. expr_of e.steps.items };

    ghost size = { expr_size };

    ghost use Rattle.uc_scratch.specs.ExprFalls.{expr_falls};

    ghost size_decreases = { λ e h. expr_falls e.steps.items };
}
