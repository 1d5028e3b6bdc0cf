//! What the trees of an item refer to.
ghost use Rattle.std.specs.Prelude.{◌≡◌, ◌++◌, ◌∷◌, [], OnOk, IfOk, IfErr};
ghost use Rattle.uc_base.specs.declared.fault.Fault.TheVariants.{Memory};
ghost use Rattle.uc_tree.specs.Types.{tys_of};
ghost use Rattle.uc_tree.specs.Patterns.{patterns_of};
ghost use Rattle.uc_tree.specs.Terms.{terms_of};
ghost use Rattle.uc_tree.specs.TermViews.{cases_of};
ghost use Rattle.uc_tree.specs.Declarations.{fields_of};
ghost use Rattle.uc_tree.specs.Targets as spec;
ghost use Rattle.uc_tree.specs.Targets.{ty_targets, tys_targets, signature_targets, pattern_targets, patterns_targets, term_targets, terms_targets, guard_targets, case_targets, cases_targets, fields_targets};

use crate::definition::Definition;
use crate::item::Item;
use crate::pattern::{Pattern, PatternNode};
use crate::target::Target;
use crate::term::{Case, Term, TermNode};
use crate::ty::{Ty, TyNode};
use std::alloc::{AllocError, Global};
use uc_base::Fault;

#[cycle(add_type)]
#[tactic(auto, using(crate::proofs::Sizes::parts))]
fn add_type(t: &Ty, out: &mut Vec<Target>) -> Result<(), AllocError>
    ensures { OnOk result (out.new.items ≡ out.old.items ++ ty_targets t.now) }
{
    match &t.node {
        TyNode::Var(_) | TyNode::Unit => Ok(()),
        TyNode::Forall(a) => add_type(a, out),
        TyNode::Arrow(a, b) => {
            add_type(a, out)?;
            add_type(b, out)
        }
        TyNode::Tuple(ts) => add_types(ts, out),
        TyNode::Data(x, ts) => {
            out.push(*x)?;
            add_types(ts, out)
        }
    }
}

#[cycle(add_type)]
#[tactic(auto, using(crate::proofs::Sizes::parts))]
fn add_types(ts: &[Ty], out: &mut Vec<Target>) -> Result<(), AllocError>
    ensures { OnOk result (out.new.items ≡ out.old.items ++ tys_targets (tys_of ts.now)) }
{
    for t in ts {
        add_type(t, out)?;
    }
    Ok(())
}

fn add_signature(signature: &Option<Ty>, out: &mut Vec<Target>) -> Result<(), AllocError>
    ensures { OnOk result (out.new.items ≡ out.old.items ++ signature_targets signature.now) }
{
    match signature {
        None => Ok(()),
        Some(t) => add_type(t, out),
    }
}

#[cycle(add_pattern)]
#[tactic(auto, using(crate::proofs::Sizes::parts))]
fn add_pattern(p: &Pattern, out: &mut Vec<Target>) -> Result<(), AllocError>
    ensures { OnOk result (out.new.items ≡ out.old.items ++ pattern_targets p.now) }
{
    match &p.node {
        PatternNode::Any | PatternNode::Var | PatternNode::Literal(_) | PatternNode::Unit => Ok(()),
        PatternNode::As(a) => add_pattern(a, out),
        PatternNode::Tuple(ps) | PatternNode::List(ps) => add_patterns(ps, out),
        PatternNode::Ctor(x, ps) => {
            out.push(*x)?;
            add_patterns(ps, out)
        }
        PatternNode::Cons(a, b) | PatternNode::Snoc(a, b) => {
            add_pattern(a, out)?;
            add_pattern(b, out)
        }
    }
}

#[cycle(add_pattern)]
#[tactic(auto, using(crate::proofs::Sizes::parts))]
fn add_patterns(ps: &[Pattern], out: &mut Vec<Target>) -> Result<(), AllocError>
    ensures { OnOk result (out.new.items ≡ out.old.items ++ patterns_targets (patterns_of ps.now)) }
{
    for p in ps {
        add_pattern(p, out)?;
    }
    Ok(())
}

#[cycle(add_term)]
#[tactic(auto, using(crate::proofs::Sizes::parts))]
fn add_term(t: &Term, out: &mut Vec<Target>) -> Result<(), AllocError>
    ensures { OnOk result (out.new.items ≡ out.old.items ++ term_targets t.now) }
{
    match &t.node {
        TermNode::Var(_) | TermNode::Literal(_) | TermNode::Unit => Ok(()),
        TermNode::Link(x) => {
            out.push(*x)?;
            Ok(())
        }
        TermNode::Lambda(a) => add_term(a, out),
        TermNode::Apply(a, b) | TermNode::And(a, b) | TermNode::Or(a, b) => {
            add_term(a, out)?;
            add_term(b, out)
        }
        TermNode::Annotated(a, ty) => {
            add_term(a, out)?;
            add_type(ty, out)
        }
        TermNode::Tuple(ts) | TermNode::List(ts) => add_terms(ts, out),
        TermNode::If(a, b, c) => {
            add_term(a, out)?;
            add_term(b, out)?;
            add_term(c, out)
        }
        TermNode::Let(signature, a, b) => {
            add_signature(signature, out)?;
            add_term(a, out)?;
            add_term(b, out)
        }
        TermNode::Match(a, cs) => {
            add_term(a, out)?;
            add_cases(cs, out)
        }
    }
}

#[cycle(add_term)]
#[tactic(auto, using(crate::proofs::Sizes::parts))]
fn add_terms(ts: &[Term], out: &mut Vec<Target>) -> Result<(), AllocError>
    ensures { OnOk result (out.new.items ≡ out.old.items ++ terms_targets (terms_of ts.now)) }
{
    for t in ts {
        add_term(t, out)?;
    }
    Ok(())
}

#[cycle(add_term)]
#[tactic(auto, using(crate::proofs::Sizes::parts))]
fn add_guard(guard: &Option<Term>, out: &mut Vec<Target>) -> Result<(), AllocError>
    ensures { OnOk result (out.new.items ≡ out.old.items ++ guard_targets guard.now) }
{
    match guard {
        None => Ok(()),
        Some(g) => add_term(g, out),
    }
}

#[cycle(add_term)]
#[tactic(auto, using(crate::proofs::Sizes::parts))]
fn add_case(c: &Case, out: &mut Vec<Target>) -> Result<(), AllocError>
    ensures { OnOk result (out.new.items ≡ out.old.items ++ case_targets c.now) }
{
    add_pattern(&c.pattern, out)?;
    add_guard(&c.guard, out)?;
    add_term(&c.body, out)
}

#[cycle(add_term)]
#[tactic(auto, using(crate::proofs::Sizes::parts))]
fn add_cases(cs: &[Case], out: &mut Vec<Target>) -> Result<(), AllocError>
    ensures { OnOk result (out.new.items ≡ out.old.items ++ cases_targets (cases_of cs.now)) }
{
    for c in cs {
        add_case(c, out)?;
    }
    Ok(())
}

fn add_fields(ctors: &[Vec<Ty>], out: &mut Vec<Target>) -> Result<(), AllocError>
    ensures { OnOk result (out.new.items ≡ out.old.items ++ fields_targets (fields_of ctors.now)) }
{
    for fields in ctors {
        add_types(fields, out)?;
    }
    Ok(())
}

/// The targets in an item from left to right, each as often as it stands there.
pub fn targets_of(alloc: Global, item: &Item) -> Result<Vec<Target>, Fault>
    ensures targets { IfOk result (λ targets. targets.items ≡ spec.targets_of item.now) }
    ensures err { IfErr result (λ fault. fault ≡ Memory) }
{
    let mut targets = Vec::new(alloc);
    match item {
        Item::Term(Definition { signature, body }) => {
            add_signature(signature, &mut targets)?;
            add_term(body, &mut targets)?;
        }
        Item::Kind(declaration) => add_fields(&declaration.ctors, &mut targets)?,
    }
    Ok(targets)
}
