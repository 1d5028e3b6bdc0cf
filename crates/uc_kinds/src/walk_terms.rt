//! Terms, node by node.
ghost use Rattle.std.specs.Prelude.{◌≡◌, ◌+◌, ◌<◌, ◌^◌, length};
ghost use Rattle.uc_tree.specs.Terms.{terms_of};
ghost use Rattle.uc_tree.specs.TermViews.{cases_of};
ghost use Rattle.uc_kinds.specs.Flaws.{term_flaws, terms_flaws, guard_flaws, case_flaws, cases_flaws};
ghost use Rattle.uc_kinds.specs.Walks.{walked};

use crate::flaw::Flawed;
use crate::position::Position;
use crate::walk_patterns::walk_pattern;
use crate::walk_types::{walk_signature, walk_type};
use uc_tree::{Arities, Case, Term, TermNode};

/// Walks a term behind so many nodes.
#[cycle(walk_term)]
#[tactic(auto, using(crate::proofs::Walking::walking))]
pub fn walk_term<A: Arities>(arities: &A, t: &Term, before: u32) -> Result<u32, Flawed>
    requires { before + length (term_flaws (A.arity_of arities.now) t.now) < 2 ^ 32 }
    ensures { result ≡ walked before (term_flaws (A.arity_of arities.now) t.now) }
{
    match &t.node {
        TermNode::Var(_) | TermNode::Literal(_) | TermNode::Unit | TermNode::Link(_) => {
            Ok(before + 1)
        }
        TermNode::Lambda(body) => walk_term(arities, body, before + 1),
        TermNode::Apply(a, b) | TermNode::And(a, b) | TermNode::Or(a, b) => {
            let passed = walk_term(arities, a, before + 1)?;
            walk_term(arities, b, passed)
        }
        TermNode::Annotated(a, ty) => {
            let passed = walk_term(arities, a, before + 1)?;
            walk_type(arities, Position::Outside, ty, passed)
        }
        TermNode::Tuple(ts) | TermNode::List(ts) => walk_terms(arities, ts, before + 1),
        TermNode::If(a, b, c) => {
            let passed = walk_term(arities, a, before + 1)?;
            let passed = walk_term(arities, b, passed)?;
            walk_term(arities, c, passed)
        }
        TermNode::Let(signature, a, b) => {
            let passed = walk_signature(arities, signature, before + 1)?;
            let passed = walk_term(arities, a, passed)?;
            walk_term(arities, b, passed)
        }
        TermNode::Match(a, cs) => {
            let passed = walk_term(arities, a, before + 1)?;
            walk_cases(arities, cs, passed)
        }
    }
}

#[cycle(walk_term)]
#[tactic(auto, using(crate::proofs::Walking::walking))]
fn walk_terms<A: Arities>(arities: &A, ts: &[Term], before: u32) -> Result<u32, Flawed>
    requires { before + length (terms_flaws (A.arity_of arities.now) (terms_of ts.now)) < 2 ^ 32 }
    ensures { result ≡ walked before (terms_flaws (A.arity_of arities.now) (terms_of ts.now)) }
{
    let mut passed = before;
    for t in ts {
        passed = walk_term(arities, t, passed)?;
    }
    Ok(passed)
}

#[cycle(walk_term)]
#[tactic(auto, using(crate::proofs::Walking::walking))]
fn walk_guard<A: Arities>(arities: &A, guard: &Option<Term>, before: u32) -> Result<u32, Flawed>
    requires { before + length (guard_flaws (A.arity_of arities.now) guard.now) < 2 ^ 32 }
    ensures { result ≡ walked before (guard_flaws (A.arity_of arities.now) guard.now) }
{
    match guard {
        None => Ok(before),
        Some(g) => walk_term(arities, g, before),
    }
}

#[cycle(walk_term)]
#[tactic(auto, using(crate::proofs::Walking::walking))]
fn walk_case<A: Arities>(arities: &A, c: &Case, before: u32) -> Result<u32, Flawed>
    requires { before + length (case_flaws (A.arity_of arities.now) c.now) < 2 ^ 32 }
    ensures { result ≡ walked before (case_flaws (A.arity_of arities.now) c.now) }
{
    let passed = walk_pattern(&c.pattern, before);
    let passed = walk_guard(arities, &c.guard, passed)?;
    walk_term(arities, &c.body, passed)
}

#[cycle(walk_term)]
#[tactic(auto, using(crate::proofs::Walking::walking))]
fn walk_cases<A: Arities>(arities: &A, cs: &[Case], before: u32) -> Result<u32, Flawed>
    requires { before + length (cases_flaws (A.arity_of arities.now) (cases_of cs.now)) < 2 ^ 32 }
    ensures { result ≡ walked before (cases_flaws (A.arity_of arities.now) (cases_of cs.now)) }
{
    let mut passed = before;
    for c in cs {
        passed = walk_case(arities, c, passed)?;
    }
    Ok(passed)
}
