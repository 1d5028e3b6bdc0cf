//! Patterns as trees.
ghost use Rattle.std.specs.Prelude.{◌≡◌, IfOk};
ghost use Rattle.uc_tree.specs.Patterns as patterns;
ghost use Rattle.uc_tree.specs.Patterns.{patterns_of};

use crate::literal::Literal;
use crate::target::Target;
use std::alloc::{AllocError, Global};
use std::marker::Model;

/// A pattern. Contracts see the `Pattern` of `specs/Patterns.antt`.
#[cycle(pattern)]
#[derive(Debug, Drop)]
pub struct Pattern {
    pub node: PatternNode,
}

/// The front of a pattern. Its variables are bound from left to right, an `As` before its inside.
#[cycle(pattern)]
#[derive(Debug, Drop)]
pub enum PatternNode {
    Any,
    Var,
    As(Box<Pattern>),
    Literal(Literal),
    Unit,
    Tuple(Vec<Pattern>),
    List(Vec<Pattern>),
    Ctor(Target, Vec<Pattern>),
    Cons(Box<Pattern>, Box<Pattern>),
    Snoc(Box<Pattern>, Box<Pattern>),
}

impl Model for Pattern {
    ghost use Rattle.uc_tree.specs.Patterns.{Pattern as Plain, pattern_size};
    ghost use Rattle.uc_tree.specs.PatternCodes.{coded_pattern};

    ghost Value = { Plain };

    ghost coded = { coded_pattern };

    ghost use Rattle.uc_tree.specs.PatternViews.{pattern_of};

    ghost view = { λ p. pattern_of p.node };

    ghost size = { pattern_size };

    ghost use Rattle.uc_tree.specs.PatternFalls.{falls};

    ghost size_decreases = { λ p h. falls p.node };
}

impl Pattern {
    pub fn any() -> Pattern
        ensures { result ≡ patterns.any }
    {
        Pattern {
            node: PatternNode::Any,
        }
    }

    pub fn variable() -> Pattern
        ensures { result ≡ patterns.variable }
    {
        Pattern {
            node: PatternNode::Var,
        }
    }

    pub fn alias(alloc: Global, inside: Pattern) -> Result<Pattern, AllocError>
        ensures { IfOk result (λ p. p ≡ patterns.alias inside) }
    {
        Ok(Pattern {
            node: PatternNode::As(Box::new(alloc, inside)?),
        })
    }

    pub fn literal(value: Literal) -> Pattern
        ensures { result ≡ patterns.literal value }
    {
        Pattern {
            node: PatternNode::Literal(value),
        }
    }

    pub fn unit() -> Pattern
        ensures { result ≡ patterns.unit }
    {
        Pattern {
            node: PatternNode::Unit,
        }
    }

    pub fn tuple(parts: Vec<Pattern>) -> Pattern
        ensures { result ≡ patterns.tuple (patterns_of parts.items) }
    {
        Pattern {
            node: PatternNode::Tuple(parts),
        }
    }

    pub fn list(elements: Vec<Pattern>) -> Pattern
        ensures { result ≡ patterns.list (patterns_of elements.items) }
    {
        Pattern {
            node: PatternNode::List(elements),
        }
    }

    pub fn constructor(head: Target, fields: Vec<Pattern>) -> Pattern
        ensures { result ≡ patterns.constructor head (patterns_of fields.items) }
    {
        Pattern {
            node: PatternNode::Ctor(head, fields),
        }
    }

    pub fn cons(alloc: Global, first: Pattern, rest: Pattern) -> Result<Pattern, AllocError>
        ensures { IfOk result (λ p. p ≡ patterns.cons first rest) }
    {
        Ok(Pattern {
            node: PatternNode::Cons(Box::new(alloc, first)?, Box::new(alloc, rest)?),
        })
    }

    pub fn snoc(alloc: Global, front: Pattern, last: Pattern) -> Result<Pattern, AllocError>
        ensures { IfOk result (λ p. p ≡ patterns.snoc front last) }
    {
        Ok(Pattern {
            node: PatternNode::Snoc(Box::new(alloc, front)?, Box::new(alloc, last)?),
        })
    }
}
