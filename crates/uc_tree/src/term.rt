//! Terms as trees.
ghost use Rattle.std.specs.Prelude.{◌≡◌, IfOk};
ghost use Rattle.uc_tree.specs.Terms as terms;
ghost use Rattle.uc_tree.specs.Terms.{terms_of};
ghost use Rattle.uc_tree.specs.TermViews.{cases_of};

use crate::literal::Literal;
use crate::pattern::Pattern;
use crate::target::Target;
use crate::ty::Ty;
use std::alloc::{AllocError, Global};
use std::marker::Model;

/// A term. Contracts see the `Term` of `specs/Terms.antt`.
#[cycle(term)]
#[derive(Debug, Drop)]
pub struct Term {
    pub node: TermNode,
}

/// A case of a match: guard and body stand under the variables of the pattern.
#[cycle(term)]
#[derive(Debug, Drop)]
pub struct Case {
    pub pattern: Pattern,
    pub guard: Option<Term>,
    pub body: Term,
}

/// The front of a term. A variable counts binders outwards from 0. Both parts of a `Let` stand under
/// its binder.
#[cycle(term)]
#[derive(Debug, Drop)]
pub enum TermNode {
    Var(u32),
    Literal(Literal),
    Unit,
    Link(Target),
    Lambda(Box<Term>),
    Apply(Box<Term>, Box<Term>),
    Annotated(Box<Term>, Ty),
    Tuple(Vec<Term>),
    List(Vec<Term>),
    If(Box<Term>, Box<Term>, Box<Term>),
    And(Box<Term>, Box<Term>),
    Or(Box<Term>, Box<Term>),
    Let(Option<Ty>, Box<Term>, Box<Term>),
    Match(Box<Term>, Vec<Case>),
}

impl Model for Term {
    ghost use Rattle.uc_tree.specs.Terms.{Term as Plain, term_size};
    ghost use Rattle.uc_tree.specs.TermCodes.{coded_term};

    ghost Value = { Plain };

    ghost coded = { coded_term };

    ghost use Rattle.uc_tree.specs.TermViews.{term_of};

    ghost view = { λ t. term_of t.node };

    ghost size = { term_size };

    ghost use Rattle.uc_tree.specs.TermFalls.{falls};

    ghost size_decreases = { λ t h. falls t.node };
}

impl Term {
    pub fn variable(index: u32) -> Term
        ensures { result ≡ terms.variable index }
    {
        Term {
            node: TermNode::Var(index),
        }
    }

    pub fn literal(value: Literal) -> Term
        ensures { result ≡ terms.literal value }
    {
        Term {
            node: TermNode::Literal(value),
        }
    }

    pub fn unit() -> Term
        ensures { result ≡ terms.unit }
    {
        Term {
            node: TermNode::Unit,
        }
    }

    pub fn link(target: Target) -> Term
        ensures { result ≡ terms.link target }
    {
        Term {
            node: TermNode::Link(target),
        }
    }

    pub fn lambda(alloc: Global, body: Term) -> Result<Term, AllocError>
        ensures { IfOk result (λ t. t ≡ terms.lambda body) }
    {
        Ok(Term {
            node: TermNode::Lambda(Box::new(alloc, body)?),
        })
    }

    pub fn apply(alloc: Global, function: Term, argument: Term) -> Result<Term, AllocError>
        ensures { IfOk result (λ t. t ≡ terms.apply function argument) }
    {
        Ok(Term {
            node: TermNode::Apply(Box::new(alloc, function)?, Box::new(alloc, argument)?),
        })
    }

    pub fn annotated(alloc: Global, term: Term, ty: Ty) -> Result<Term, AllocError>
        ensures { IfOk result (λ t. t ≡ terms.annotated term ty) }
    {
        Ok(Term {
            node: TermNode::Annotated(Box::new(alloc, term)?, ty),
        })
    }

    pub fn tuple(parts: Vec<Term>) -> Term
        ensures { result ≡ terms.tuple (terms_of parts.items) }
    {
        Term {
            node: TermNode::Tuple(parts),
        }
    }

    pub fn list(elements: Vec<Term>) -> Term
        ensures { result ≡ terms.list (terms_of elements.items) }
    {
        Term {
            node: TermNode::List(elements),
        }
    }

    pub fn conditional(
        alloc: Global,
        condition: Term,
        consequent: Term,
        alternative: Term,
    ) -> Result<Term, AllocError>
        ensures { IfOk result (λ t. t ≡ terms.conditional condition consequent alternative) }
    {
        Ok(Term {
            node: TermNode::If(
                Box::new(alloc, condition)?,
                Box::new(alloc, consequent)?,
                Box::new(alloc, alternative)?,
            ),
        })
    }

    pub fn and(alloc: Global, left: Term, right: Term) -> Result<Term, AllocError>
        ensures { IfOk result (λ t. t ≡ terms.and left right) }
    {
        Ok(Term {
            node: TermNode::And(Box::new(alloc, left)?, Box::new(alloc, right)?),
        })
    }

    pub fn or(alloc: Global, left: Term, right: Term) -> Result<Term, AllocError>
        ensures { IfOk result (λ t. t ≡ terms.or left right) }
    {
        Ok(Term {
            node: TermNode::Or(Box::new(alloc, left)?, Box::new(alloc, right)?),
        })
    }

    pub fn binding(
        alloc: Global,
        signature: Option<Ty>,
        bound: Term,
        body: Term,
    ) -> Result<Term, AllocError>
        ensures { IfOk result (λ t. t ≡ terms.binding signature bound body) }
    {
        Ok(Term {
            node: TermNode::Let(signature, Box::new(alloc, bound)?, Box::new(alloc, body)?),
        })
    }

    pub fn matching(alloc: Global, subject: Term, cases: Vec<Case>) -> Result<Term, AllocError>
        ensures { IfOk result (λ t. t ≡ terms.match subject (cases_of cases.items)) }
    {
        Ok(Term {
            node: TermNode::Match(Box::new(alloc, subject)?, cases),
        })
    }
}
