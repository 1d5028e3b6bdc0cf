//! The levels of expressions and blocks.
ghost use Rattle.std.specs.Prelude.{◌≡◌, [], None, IfOk};
ghost use Rattle.uc_scratch.specs.Exprs.{Expr as Plain, exprs_of};
ghost use Rattle.uc_scratch.specs.ExprViews.{atom_of, cases_of, step_before};
ghost use Rattle.uc_scratch.specs.ExprLevels as spec;
ghost use Rattle.uc_scratch.specs.ExprLevels.{no_parts};

use crate::block::{Binding, BindingFront, Block, Case, Entry};
use crate::expr::{Atom, Expr, Step};
use crate::levels::plus;
use crate::parts::{Outside, Parts};
use crate::pattern_levels::pattern_levels;
use crate::scope::Scope;
use crate::signed::{Signed, body_scope, name_of, signed_by};
use crate::type_scope::signature_levels;
use std::alloc::{AllocError, Global};

/// The levels of an expression.
#[cycle(expr_levels)]
#[tactic(auto, using(crate::proofs::Sizes::expr_parts))]
pub fn expr_levels<'a>(alloc: Global, scope: &Scope<'a>, e: &'a Expr) -> Result<u64, AllocError>
    ensures { IfOk result (λ levels. levels ≡ spec.expr_levels scope.now e.now no_parts []) }
{
    let mut parts = Parts::none();
    let mut outside = Outside::new(alloc);
    for step in &e.steps {
        parts = pass_step(alloc, scope, step, parts, &mut outside)?;
    }
    parts.or_levels()
}

/// The parts of the innermost expression behind a step.
#[cycle(expr_levels)]
#[tactic(auto, using(crate::proofs::Sizes::expr_parts))]
fn pass_step<'a>(
    alloc: Global,
    scope: &Scope<'a>,
    step: &'a Step,
    parts: Parts,
    outside: &mut Outside,
) -> Result<Parts, AllocError>
    ensures { IfOk result (λ after. (e : Plain)
        → spec.expr_levels scope.now (step_before step.now e) parts outside.old
        ≡ spec.expr_levels scope.now e after outside.new) }
{
    match step {
        Step::Lambda(params, body) => {
            parts.with_atom(plus(params.len() as u64, block_levels(alloc, scope, body)?)?)
        }
        Step::Atom(atom) => parts.with_atom(atom_levels(alloc, scope, atom)?),
        Step::Operator(_) => parts.behind_operator(),
        Step::And => parts.behind_and(),
        Step::Or => parts.behind_or(),
        Step::If(_) | Step::Match(_) => {
            outside.push(parts)?;
            Ok(Parts::none())
        }
        Step::Then(yes, no) => {
            let levels = block_levels(alloc, scope, yes)?.max(block_levels(alloc, scope, no)?);
            let form = plus(parts.or_levels()?.max(levels), 1)?;
            outside.pop().with_atom(form)
        }
        Step::With(cases) => {
            let levels = cases_levels(alloc, scope, cases)?;
            let form = plus(parts.or_levels()?.max(levels), 1)?;
            outside.pop().with_atom(form)
        }
        Step::Cases(_, cases) => {
            let levels = cases_levels(alloc, scope, cases)?;
            parts.with_atom(plus(levels.max(1), 2)?)
        }
        Step::Let(_, body) => parts.with_atom(block_levels(alloc, scope, body)?),
    }
}

#[cycle(expr_levels)]
#[tactic(auto, using(crate::proofs::Sizes::expr_parts))]
fn atom_levels<'a>(alloc: Global, scope: &Scope<'a>, atom: &'a Atom) -> Result<u64, AllocError>
    ensures { IfOk result (λ levels. levels ≡ spec.atom_levels scope.now (atom_of atom.now)) }
{
    match atom {
        Atom::Path(_) | Atom::Operator(_, _) | Atom::Literal(_) => Ok(1),
        Atom::Reference(_) | Atom::Unit(_) => Ok(1),
        Atom::Group(_, e) => expr_levels(alloc, scope, e),
        Atom::Annotated(_, e, t) => {
            let levels = expr_levels(alloc, scope, e)?;
            plus(levels.max(signature_levels(alloc, scope, t)?), 1)
        }
        Atom::Tuple(_, es) | Atom::List(_, es) => plus(exprs_levels(alloc, scope, es)?, 1),
    }
}

#[cycle(expr_levels)]
#[tactic(auto, using(crate::proofs::Sizes::expr_parts))]
fn exprs_levels<'a>(alloc: Global, scope: &Scope<'a>, es: &'a [Expr]) -> Result<u64, AllocError>
    ensures { IfOk result (λ levels. levels ≡ spec.exprs_levels scope.now (exprs_of es.now)) }
{
    let mut levels = 0u64;
    for e in es {
        levels = levels.max(expr_levels(alloc, scope, e)?);
    }
    Ok(levels)
}

#[cycle(expr_levels)]
#[tactic(auto, using(crate::proofs::Sizes::expr_parts))]
fn guard_levels<'a>(
    alloc: Global,
    scope: &Scope<'a>,
    guard: &'a Option<Expr>,
) -> Result<u64, AllocError>
    ensures { IfOk result (λ levels. levels ≡ spec.guard_levels scope.now guard.now) }
{
    match guard {
        None => Ok(0),
        Some(e) => expr_levels(alloc, scope, e),
    }
}

#[cycle(expr_levels)]
#[tactic(auto, using(crate::proofs::Sizes::expr_parts))]
fn cases_levels<'a>(alloc: Global, scope: &Scope<'a>, cases: &'a [Case]) -> Result<u64, AllocError>
    ensures { IfOk result (λ levels. levels ≡ spec.cases_levels scope.now (cases_of cases.now)) }
{
    let mut levels = 0u64;
    for case in cases {
        let pattern = pattern_levels(&case.pattern)?;
        let guard = guard_levels(alloc, scope, &case.guard)?;
        let body = block_levels(alloc, scope, &case.body)?;
        levels = levels.max(pattern.max(guard.max(body)));
    }
    Ok(levels)
}

/// The levels of a block.
#[cycle(expr_levels)]
#[tactic(auto, using(crate::proofs::Sizes::expr_parts))]
pub fn block_levels<'a>(
    alloc: Global,
    scope: &Scope<'a>,
    block: &'a Block,
) -> Result<u64, AllocError>
    ensures { IfOk result (λ levels. levels ≡ spec.block_levels scope.now None block.now) }
{
    let mut above = 0;
    let mut deepest = 0;
    let mut signed = None;
    for entry in &block.entries {
        match entry {
            Entry::Use(_) => signed = None,
            Entry::Signature(signature) => {
                let levels = signature_levels(alloc, scope, &signature.of)?;
                deepest = deepest.max(plus(above, plus(levels, 1)?)?);
                signed = Some(signed_by(alloc, scope, signature)?);
            }
            Entry::Binding(binding) => {
                above = plus(above, 1)?;
                let levels = bound_levels(alloc, scope, &signed, binding)?;
                deepest = deepest.max(plus(above, levels)?);
                signed = None;
            }
        }
    }
    Ok(deepest.max(plus(above, expr_levels(alloc, scope, &block.result)?)?))
}

/// The levels of the body of a binding under its parameters, behind a signature or none.
#[cycle(expr_levels)]
#[tactic(auto, using(crate::proofs::Sizes::expr_parts))]
pub fn bound_levels<'a>(
    alloc: Global,
    scope: &Scope<'a>,
    signed: &Option<Signed<'a>>,
    binding: &'a Binding,
) -> Result<u64, AllocError>
    ensures { IfOk result
        (λ levels. levels ≡ spec.bound_levels scope.now signed.now binding.now.front binding.now.body) }
{
    match &binding.front {
        BindingFront::Prefix(head, params) => {
            let inner = body_scope(scope, signed, name_of(head));
            plus(
                params.len() as u64,
                block_levels(alloc, inner, &binding.body)?,
            )
        }
        BindingFront::Infix(_, name, _) => {
            let inner = body_scope(scope, signed, name);
            plus(2, block_levels(alloc, inner, &binding.body)?)
        }
    }
}
