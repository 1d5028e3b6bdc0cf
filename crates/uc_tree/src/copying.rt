//! Copies of trees.
ghost use Rattle.std.specs.Prelude.{◌≡◌, IfOk};
ghost use Rattle.uc_tree.specs.TermViews.{term_of};

use crate::pattern::{Pattern, PatternNode};
use crate::term::{Case, Term, TermNode};
use crate::ty::{Ty, TyNode};
use std::alloc::{AllocError, Global};

impl Ty {
    #[cycle(copy_type)]
    #[tactic(auto, using(crate::proofs::Sizes::parts))]
    pub fn copy(&self, alloc: Global) -> Result<Ty, AllocError>
        ensures { IfOk result (λ t. t ≡ self.now) }
    {
        match &self.node {
            TyNode::Var(n) => Ok(Ty::variable(*n)),
            TyNode::Forall(a) => Ty::forall(alloc, a.copy(alloc)?),
            TyNode::Arrow(a, b) => Ty::arrow(alloc, a.copy(alloc)?, b.copy(alloc)?),
            TyNode::Unit => Ok(Ty::unit()),
            TyNode::Tuple(ts) => Ok(Ty::tuple(copy_types(alloc, ts)?)),
            TyNode::Data(x, ts) => Ok(Ty::data(*x, copy_types(alloc, ts)?)),
        }
    }
}

#[cycle(copy_type)]
#[tactic(auto, using(crate::proofs::Sizes::parts))]
pub fn copy_types(alloc: Global, types: &[Ty]) -> Result<Vec<Ty>, AllocError>
    ensures { IfOk result (λ ts. ts.items ≡ types.now) }
{
    let mut copied = Vec::new(alloc);
    for t in types {
        copied.push(t.copy(alloc)?)?;
    }
    Ok(copied)
}

pub fn copy_signature(alloc: Global, signature: &Option<Ty>) -> Result<Option<Ty>, AllocError>
    ensures { IfOk result (λ s. s ≡ signature.now) }
{
    match signature {
        None => Ok(None),
        Some(t) => Ok(Some(t.copy(alloc)?)),
    }
}

impl Pattern {
    #[cycle(copy_pattern)]
    #[tactic(auto, using(crate::proofs::Sizes::parts))]
    pub fn copy(&self, alloc: Global) -> Result<Pattern, AllocError>
        ensures { IfOk result (λ p. p ≡ self.now) }
    {
        match &self.node {
            PatternNode::Any => Ok(Pattern::any()),
            PatternNode::Var => Ok(Pattern::variable()),
            PatternNode::As(p) => Pattern::alias(alloc, p.copy(alloc)?),
            PatternNode::Literal(l) => Ok(Pattern::literal(l.copy(alloc)?)),
            PatternNode::Unit => Ok(Pattern::unit()),
            PatternNode::Tuple(ps) => Ok(Pattern::tuple(copy_patterns(alloc, ps)?)),
            PatternNode::List(ps) => Ok(Pattern::list(copy_patterns(alloc, ps)?)),
            PatternNode::Ctor(x, ps) => Ok(Pattern::constructor(*x, copy_patterns(alloc, ps)?)),
            PatternNode::Cons(p, q) => Pattern::cons(alloc, p.copy(alloc)?, q.copy(alloc)?),
            PatternNode::Snoc(p, q) => Pattern::snoc(alloc, p.copy(alloc)?, q.copy(alloc)?),
        }
    }
}

#[cycle(copy_pattern)]
#[tactic(auto, using(crate::proofs::Sizes::parts))]
pub fn copy_patterns(alloc: Global, patterns: &[Pattern]) -> Result<Vec<Pattern>, AllocError>
    ensures { IfOk result (λ ps. ps.items ≡ patterns.now) }
{
    let mut copied = Vec::new(alloc);
    for p in patterns {
        copied.push(p.copy(alloc)?)?;
    }
    Ok(copied)
}

impl Term {
    #[cycle(copy_term)]
    #[tactic(auto, using(crate::proofs::Sizes::parts))]
    pub fn copy(&self, alloc: Global) -> Result<Term, AllocError>
        ensures { IfOk result (λ t. t ≡ self.now) }
    {
        let node = copy_node(alloc, &self.node)?;
        Ok(Term { node })
    }
}

#[cycle(copy_term)]
#[tactic(auto, using(crate::proofs::Sizes::parts))]
fn copy_node(alloc: Global, node: &TermNode) -> Result<TermNode, AllocError>
    ensures { IfOk result (λ copied. term_of copied ≡ term_of node.now) }
{
    match node {
        TermNode::Var(n) => Ok(TermNode::Var(*n)),
        TermNode::Literal(l) => Ok(TermNode::Literal(l.copy(alloc)?)),
        TermNode::Unit => Ok(TermNode::Unit),
        TermNode::Link(x) => Ok(TermNode::Link(*x)),
        TermNode::Lambda(a) => Ok(TermNode::Lambda(copy_box(alloc, a)?)),
        TermNode::Apply(a, b) => Ok(TermNode::Apply(copy_box(alloc, a)?, copy_box(alloc, b)?)),
        TermNode::Annotated(a, t) => Ok(TermNode::Annotated(copy_box(alloc, a)?, t.copy(alloc)?)),
        TermNode::Tuple(ts) => Ok(TermNode::Tuple(copy_terms(alloc, ts)?)),
        TermNode::List(ts) => Ok(TermNode::List(copy_terms(alloc, ts)?)),
        TermNode::If(a, b, c) => {
            let a = copy_box(alloc, a)?;
            Ok(TermNode::If(a, copy_box(alloc, b)?, copy_box(alloc, c)?))
        }
        TermNode::And(a, b) => Ok(TermNode::And(copy_box(alloc, a)?, copy_box(alloc, b)?)),
        TermNode::Or(a, b) => Ok(TermNode::Or(copy_box(alloc, a)?, copy_box(alloc, b)?)),
        TermNode::Let(s, a, b) => {
            let s = copy_signature(alloc, s)?;
            Ok(TermNode::Let(s, copy_box(alloc, a)?, copy_box(alloc, b)?))
        }
        TermNode::Match(a, cs) => Ok(TermNode::Match(copy_box(alloc, a)?, copy_cases(alloc, cs)?)),
    }
}

/// Recursion goes through boxes, which keeps the frame of `copy_node` small.
#[cycle(copy_term)]
#[tactic(auto, using(crate::proofs::Sizes::parts))]
fn copy_box(alloc: Global, t: &Term) -> Result<Box<Term>, AllocError>
    ensures { IfOk result (λ b. b.value ≡ t.now) }
{
    let t = t.copy(alloc)?;
    Ok(Box::new(alloc, t)?)
}

#[cycle(copy_term)]
#[tactic(auto, using(crate::proofs::Sizes::parts))]
pub fn copy_terms(alloc: Global, terms: &[Term]) -> Result<Vec<Term>, AllocError>
    ensures { IfOk result (λ ts. ts.items ≡ terms.now) }
{
    let mut copied = Vec::new(alloc);
    for t in terms {
        copied.push(t.copy(alloc)?)?;
    }
    Ok(copied)
}

#[cycle(copy_term)]
#[tactic(auto, using(crate::proofs::Sizes::parts))]
fn copy_guard(alloc: Global, guard: &Option<Term>) -> Result<Option<Term>, AllocError>
    ensures { IfOk result (λ g. g ≡ guard.now) }
{
    match guard {
        None => Ok(None),
        Some(g) => Ok(Some(g.copy(alloc)?)),
    }
}

impl Case {
    #[cycle(copy_term)]
    #[tactic(auto, using(crate::proofs::Sizes::parts))]
    pub fn copy(&self, alloc: Global) -> Result<Case, AllocError>
        ensures { IfOk result (λ c. c ≡ self.now) }
    {
        let pattern = self.pattern.copy(alloc)?;
        let guard = copy_guard(alloc, &self.guard)?;
        let body = self.body.copy(alloc)?;
        Ok(Case {
            pattern,
            guard,
            body,
        })
    }
}

#[cycle(copy_term)]
#[tactic(auto, using(crate::proofs::Sizes::parts))]
pub fn copy_cases(alloc: Global, cases: &[Case]) -> Result<Vec<Case>, AllocError>
    ensures { IfOk result (λ cs. cs.items ≡ cases.now) }
{
    let mut copied = Vec::new(alloc);
    for c in cases {
        copied.push(c.copy(alloc)?)?;
    }
    Ok(copied)
}
