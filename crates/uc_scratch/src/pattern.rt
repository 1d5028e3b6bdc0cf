//! Patterns as they are written.

use crate::written::{Con, Literal, Written};
use std::marker::Model;
use uc_base::Place;

/// A pattern: operands with `+:` behind each, one operand, and operands with `:+` before each. Contracts see the
/// `Pattern` of `specs/Patterns.antt`.
#[cycle(pattern)]
#[derive(Debug, Drop)]
pub struct Pattern {
    pub heads: Vec<PatternOperand>,
    pub middle: PatternOperand,
    pub tails: Vec<PatternOperand>,
}

/// A constructor with arguments, or one atom.
#[cycle(pattern)]
#[derive(Debug, Drop)]
pub enum PatternOperand {
    Applied(Con, Vec<PatternAtom>),
    Atom(PatternAtom),
}

/// An atom with the names before it, each with its `@`.
#[cycle(pattern)]
#[derive(Debug, Drop)]
pub struct PatternAtom {
    pub names: Vec<Written>,
    pub form: PatternForm,
}

/// A pattern of one word or in brackets, whose place is the opening one's.
#[cycle(pattern)]
#[derive(Debug, Drop)]
pub enum PatternForm {
    Any(Place),
    Variable(Written),
    Literal(Literal),
    Con(Con),
    Unit(Place),
    Group(Place, Box<Pattern>),
    Tuple(Place, Vec<Pattern>),
    List(Place, Vec<Pattern>),
}

impl Model for Pattern {
    ghost use Rattle.uc_scratch.specs.Patterns.{Pattern as Plain, pattern_size};
    ghost use Rattle.uc_scratch.specs.PatternCodes.{coded_pattern};

    ghost Value = { Plain };

    ghost coded = { coded_pattern };

    ghost use Rattle.uc_scratch.specs.PatternViews.{pattern_of};

    ghost view = { λ p. pattern_of p.heads.items p.middle p.tails.items };

    ghost size = { pattern_size };

    ghost use Rattle.uc_scratch.specs.PatternFalls.{falls};

    ghost size_decreases = { λ p h. falls p };
}
