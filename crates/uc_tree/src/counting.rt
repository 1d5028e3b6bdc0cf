//! How large trees are.
ghost use Rattle.std.specs.Prelude.{◌≡◌, ◌-◌, ◌^◌, min};
ghost use Rattle.uc_tree.specs.Types.{tys_of};
ghost use Rattle.uc_tree.specs.Patterns.{patterns_of};
ghost use Rattle.uc_tree.specs.Terms.{terms_of};
ghost use Rattle.uc_tree.specs.TermViews.{cases_of};
ghost use Rattle.uc_tree.specs.Declarations.{fields_of};
ghost use Rattle.uc_tree.specs.Counts as spec;
ghost use Rattle.uc_tree.specs.Counts.{node_count, tys_node_count, levels_of};

use crate::item::Item;
use crate::pattern::{Pattern, PatternNode};
use crate::term::{Case, Term, TermNode};
use crate::ty::{Ty, TyNode};

/// How many nodes a type has; a count past the last u64 is that.
#[cycle(type_nodes)]
#[tactic(auto, using(crate::proofs::Sizes::parts))]
pub fn type_nodes(of: &Ty) -> u64
    ensures { result ≡ min (node_count of.now) (2 ^ 64 - 1) }
{
    match &of.node {
        TyNode::Var(_) | TyNode::Unit => 1,
        TyNode::Forall(t) => type_nodes(t).saturating_add(1),
        TyNode::Arrow(a, b) => type_nodes(a)
            .saturating_add(type_nodes(b))
            .saturating_add(1),
        TyNode::Tuple(ts) | TyNode::Data(_, ts) => nodes_of_types(ts).saturating_add(1),
    }
}

#[cycle(type_nodes)]
#[tactic(auto, using(crate::proofs::Sizes::parts))]
fn nodes_of_types(ts: &[Ty]) -> u64
    ensures { result ≡ min (tys_node_count (tys_of ts.now)) (2 ^ 64 - 1) }
{
    let mut nodes = 0u64;
    for t in ts {
        nodes = nodes.saturating_add(type_nodes(t));
    }
    nodes
}

#[cycle(type_levels)]
#[tactic(auto, using(crate::proofs::Sizes::parts))]
fn type_levels(t: &Ty) -> u32
    ensures { result ≡ min (spec.ty_levels t.now) (2 ^ 32 - 1) }
{
    match &t.node {
        TyNode::Var(_) | TyNode::Unit => 1,
        TyNode::Forall(a) => type_levels(a).saturating_add(1),
        TyNode::Arrow(a, b) => type_levels(a).max(type_levels(b)).saturating_add(1),
        TyNode::Tuple(ts) | TyNode::Data(_, ts) => types_levels(ts).saturating_add(1),
    }
}

#[cycle(type_levels)]
#[tactic(auto, using(crate::proofs::Sizes::parts))]
fn types_levels(ts: &[Ty]) -> u32
    ensures { result ≡ min (spec.tys_levels (tys_of ts.now)) (2 ^ 32 - 1) }
{
    let mut levels = 0u32;
    for t in ts {
        levels = levels.max(type_levels(t));
    }
    levels
}

fn signature_levels(signature: &Option<Ty>) -> u32
    ensures { result ≡ min (spec.signature_levels signature.now) (2 ^ 32 - 1) }
{
    match signature {
        None => 0,
        Some(t) => type_levels(t),
    }
}

#[cycle(pattern_levels)]
#[tactic(auto, using(crate::proofs::Sizes::parts))]
fn pattern_levels(p: &Pattern) -> u32
    ensures { result ≡ min (spec.pattern_levels p.now) (2 ^ 32 - 1) }
{
    match &p.node {
        PatternNode::Any | PatternNode::Var | PatternNode::Literal(_) | PatternNode::Unit => 1,
        PatternNode::As(a) => pattern_levels(a).saturating_add(1),
        PatternNode::Tuple(ps) | PatternNode::List(ps) | PatternNode::Ctor(_, ps) => {
            patterns_levels(ps).saturating_add(1)
        }
        PatternNode::Cons(a, b) | PatternNode::Snoc(a, b) => {
            pattern_levels(a).max(pattern_levels(b)).saturating_add(1)
        }
    }
}

#[cycle(pattern_levels)]
#[tactic(auto, using(crate::proofs::Sizes::parts))]
fn patterns_levels(ps: &[Pattern]) -> u32
    ensures { result ≡ min (spec.patterns_levels (patterns_of ps.now)) (2 ^ 32 - 1) }
{
    let mut levels = 0u32;
    for p in ps {
        levels = levels.max(pattern_levels(p));
    }
    levels
}

#[cycle(term_levels)]
#[tactic(auto, using(crate::proofs::Sizes::parts))]
fn term_levels(t: &Term) -> u32
    ensures { result ≡ min (spec.term_levels t.now) (2 ^ 32 - 1) }
{
    match &t.node {
        TermNode::Var(_) | TermNode::Literal(_) | TermNode::Unit | TermNode::Link(_) => 1,
        TermNode::Lambda(a) => term_levels(a).saturating_add(1),
        TermNode::Apply(a, b) | TermNode::And(a, b) | TermNode::Or(a, b) => {
            term_levels(a).max(term_levels(b)).saturating_add(1)
        }
        TermNode::Annotated(a, ty) => term_levels(a).max(type_levels(ty)).saturating_add(1),
        TermNode::Tuple(ts) | TermNode::List(ts) => terms_levels(ts).saturating_add(1),
        TermNode::If(a, b, c) => {
            let levels = term_levels(a).max(term_levels(b)).max(term_levels(c));
            levels.saturating_add(1)
        }
        TermNode::Let(signature, a, b) => {
            let levels = signature_levels(signature)
                .max(term_levels(a))
                .max(term_levels(b));
            levels.saturating_add(1)
        }
        TermNode::Match(a, cs) => term_levels(a).max(cases_levels(cs)).saturating_add(1),
    }
}

#[cycle(term_levels)]
#[tactic(auto, using(crate::proofs::Sizes::parts))]
fn terms_levels(ts: &[Term]) -> u32
    ensures { result ≡ min (spec.terms_levels (terms_of ts.now)) (2 ^ 32 - 1) }
{
    let mut levels = 0u32;
    for t in ts {
        levels = levels.max(term_levels(t));
    }
    levels
}

#[cycle(term_levels)]
#[tactic(auto, using(crate::proofs::Sizes::parts))]
fn guard_levels(guard: &Option<Term>) -> u32
    ensures { result ≡ min (spec.guard_levels guard.now) (2 ^ 32 - 1) }
{
    match guard {
        None => 0,
        Some(g) => term_levels(g),
    }
}

#[cycle(term_levels)]
#[tactic(auto, using(crate::proofs::Sizes::parts))]
fn case_levels(c: &Case) -> u32
    ensures { result ≡ min (spec.case_levels c.now) (2 ^ 32 - 1) }
{
    pattern_levels(&c.pattern)
        .max(guard_levels(&c.guard))
        .max(term_levels(&c.body))
}

#[cycle(term_levels)]
#[tactic(auto, using(crate::proofs::Sizes::parts))]
fn cases_levels(cs: &[Case]) -> u32
    ensures { result ≡ min (spec.cases_levels (cases_of cs.now)) (2 ^ 32 - 1) }
{
    let mut levels = 0u32;
    for c in cs {
        levels = levels.max(case_levels(c));
    }
    levels
}

fn fields_levels(ctors: &[Vec<Ty>]) -> u32
    ensures { result ≡ min (spec.fields_levels (fields_of ctors.now)) (2 ^ 32 - 1) }
{
    let mut levels = 0u32;
    for fields in ctors {
        levels = levels.max(types_levels(fields));
    }
    levels
}

/// The levels of the deepest tree of an item; more than the last u32 are that.
pub fn depth(item: &Item) -> u32
    ensures { result ≡ min (levels_of item.now) (2 ^ 32 - 1) }
{
    match item {
        Item::Term(definition) => {
            signature_levels(&definition.signature).max(term_levels(&definition.body))
        }
        Item::Kind(declaration) => fields_levels(&declaration.ctors),
    }
}
