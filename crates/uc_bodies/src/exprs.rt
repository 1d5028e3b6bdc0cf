//! Expressions as terms.
ghost use Rattle.std.specs.Prelude.{◌≡◌, [], OnOk};
ghost use Rattle.std.specs.Option.{option_map};
ghost use Rattle.uc_scratch.specs.Exprs.{exprs_of};
ghost use Rattle.uc_scratch.specs.ExprViews.{atom_of, cases_of};
ghost use Rattle.uc_meaning.specs.ExprMeanings as spec;
ghost use Rattle.uc_meaning.specs.Results.{Gives};
ghost use Rattle.uc_signatures.specs.PlacedViews.{placed_of};
ghost use Rattle.uc_bodies.specs.BodyViews.{placed_terms, placed_cases, parts_of, outer_of, with_outer};
ghost use Rattle.uc_bodies.specs.StepMeanings.{step_meaning, guard_meaning, case_meaning};

use crate::blocks::{resolve_block, resolve_under};
use crate::lists::{no_cases, no_terms, push_case, push_term};
use crate::locals::Locals;
use crate::nodes::{annotated_at, case_of, list_at, tuple_at};
use crate::operands::{Operand, atom_start};
use crate::params::Params;
use crate::parts::{Outside, Parts};
use crate::words::{literal_at, resolve_reference, resolve_word, unit_at};
use std::alloc::Global;
use uc_base::Fault;
use uc_meaning::Meanings;
use uc_scratch::{Atom, Case as WrittenCase, Expr, Step, WrittenNames, add_pattern_names};
use uc_signatures::{Placed, resolve_pattern};
use uc_tree::{Case, Term};

/// The term of an expression.
#[cycle(resolve_expr)]
#[tactic(auto, using(uc_scratch::proofs::Sizes::expr_parts))]
pub fn resolve_expr<'a, M: Meanings>(
    alloc: Global,
    meanings: &M,
    locals: &mut Locals<'a>,
    e: &'a Expr,
) -> Result<Placed<Term>, Fault>
    ensures value { Gives placed_of result (spec.expr_meaning (M.known meanings.now) locals.old e.now spec.no_parts []) }
    ensures kept { OnOk result (locals.new ≡ locals.old) }
{
    let mut parts = Parts::none();
    let mut outside = Outside::new(alloc);
    for step in &e.steps {
        parts = pass_step(alloc, meanings, locals, step, parts, &mut outside)?;
    }
    parts.whole(alloc)
}

/// The parts of the innermost expression behind a step.
#[cycle(resolve_expr)]
#[tactic(auto, using(uc_scratch::proofs::Sizes::expr_parts))]
fn pass_step<'a, M: Meanings>(
    alloc: Global,
    meanings: &M,
    locals: &mut Locals<'a>,
    step: &'a Step,
    parts: Parts,
    outside: &mut Outside,
) -> Result<Parts, Fault>
    ensures value { Gives (with_outer outside.new) result
        (step_meaning (M.known meanings.now) locals.old step.now (parts_of parts) (outer_of outside.old)) }
    ensures kept { OnOk result (locals.new ≡ locals.old) }
{
    match step {
        Step::Lambda(params, body) => {
            let params = Params::Prefix(params);
            let term = resolve_under(alloc, meanings, locals, &None, params, body)?;
            parts.with_form(alloc, term)
        }
        Step::Atom(atom) => {
            let term = resolve_atom(alloc, meanings, locals, atom)?;
            let start = atom_start(atom);
            parts.with_atom(alloc, Operand { start, term })
        }
        Step::Operator(w) => {
            parts.behind_operator(alloc, resolve_word(alloc, meanings, locals, w)?)
        }
        Step::And => parts.behind_and(alloc),
        Step::Or => parts.behind_or(alloc),
        Step::If(place) | Step::Match(place) => outside.begin(*place, parts),
        Step::Then(yes, no) => {
            let consequent = resolve_block(alloc, meanings, locals, yes)?;
            let alternative = resolve_block(alloc, meanings, locals, no)?;
            outside.end_if(alloc, parts, consequent, alternative)
        }
        Step::With(cases) => {
            let cases = resolve_cases(alloc, meanings, locals, cases)?;
            outside.end_match(alloc, parts, cases)
        }
        Step::Cases(place, cases) => {
            locals.enter(None)?;
            let cases = resolve_cases(alloc, meanings, locals, cases)?;
            locals.leave(1);
            parts.with_cases(alloc, *place, cases)
        }
        Step::Let(place, body) => {
            let term = resolve_block(alloc, meanings, locals, body)?;
            let start = *place;
            parts.with_atom(alloc, Operand { start, term })
        }
    }
}

#[cycle(resolve_expr)]
#[tactic(auto, using(uc_scratch::proofs::Sizes::expr_parts))]
fn resolve_atom<'a, M: Meanings>(
    alloc: Global,
    meanings: &M,
    locals: &mut Locals<'a>,
    atom: &'a Atom,
) -> Result<Placed<Term>, Fault>
    ensures value { Gives placed_of result (spec.atom_meaning (M.known meanings.now) locals.old (atom_of atom.now)) }
    ensures kept { OnOk result (locals.new ≡ locals.old) }
{
    match atom {
        Atom::Path(w) | Atom::Operator(_, w) => resolve_word(alloc, meanings, locals, w),
        Atom::Literal(l) => literal_at(alloc, l),
        Atom::Reference(r) => resolve_reference(alloc, meanings, r),
        Atom::Unit(place) => unit_at(alloc, *place),
        Atom::Group(_, e) => resolve_expr(alloc, meanings, locals, e),
        Atom::Annotated(place, e, t) => {
            let term = resolve_expr(alloc, meanings, locals, e)?;
            let ty = locals.signature(alloc, meanings, t)?;
            annotated_at(alloc, *place, term, ty)
        }
        Atom::Tuple(place, es) => {
            let parts = resolve_exprs(alloc, meanings, locals, es)?;
            tuple_at(*place, parts)
        }
        Atom::List(place, es) => {
            let elements = resolve_exprs(alloc, meanings, locals, es)?;
            list_at(*place, elements)
        }
    }
}

#[cycle(resolve_expr)]
#[tactic(auto, using(uc_scratch::proofs::Sizes::expr_parts))]
fn resolve_exprs<'a, M: Meanings>(
    alloc: Global,
    meanings: &M,
    locals: &mut Locals<'a>,
    es: &'a [Expr],
) -> Result<Placed<Vec<Term>>, Fault>
    ensures value { Gives placed_terms result (spec.exprs_meaning (M.known meanings.now) locals.old (exprs_of es.now)) }
    ensures kept { OnOk result (locals.new ≡ locals.old) }
{
    let mut terms = no_terms(alloc);
    for e in es {
        let term = resolve_expr(alloc, meanings, locals, e)?;
        push_term(&mut terms, term)?;
    }
    Ok(terms)
}

#[cycle(resolve_expr)]
#[tactic(auto, using(uc_scratch::proofs::Sizes::expr_parts))]
fn resolve_guard<'a, M: Meanings>(
    alloc: Global,
    meanings: &M,
    locals: &mut Locals<'a>,
    guard: &'a Option<Expr>,
) -> Result<Option<Placed<Term>>, Fault>
    ensures value { Gives (option_map placed_of) result (guard_meaning (M.known meanings.now) locals.old guard.now) }
    ensures kept { OnOk result (locals.new ≡ locals.old) }
{
    match guard {
        None => Ok(None),
        Some(e) => Ok(Some(resolve_expr(alloc, meanings, locals, e)?)),
    }
}

/// A case: guard and body stand under the names of its pattern.
#[cycle(resolve_expr)]
#[tactic(auto, using(uc_scratch::proofs::Sizes::expr_parts))]
fn resolve_case<'a, M: Meanings>(
    alloc: Global,
    meanings: &M,
    locals: &mut Locals<'a>,
    case: &'a WrittenCase,
) -> Result<Placed<Case>, Fault>
    ensures value { Gives placed_of result (case_meaning (M.known meanings.now) locals.old case.now) }
    ensures kept { OnOk result (locals.new ≡ locals.old) }
{
    let pattern = resolve_pattern(alloc, meanings, locals.usings(), &case.pattern)?;
    let mut names = WrittenNames::new(alloc);
    add_pattern_names(&case.pattern, &mut names)?;
    locals.enter_names(&names)?;
    let guard = resolve_guard(alloc, meanings, locals, &case.guard)?;
    let body = resolve_block(alloc, meanings, locals, &case.body)?;
    locals.leave(names.len());
    case_of(pattern, guard, body)
}

#[cycle(resolve_expr)]
#[tactic(auto, using(uc_scratch::proofs::Sizes::expr_parts))]
fn resolve_cases<'a, M: Meanings>(
    alloc: Global,
    meanings: &M,
    locals: &mut Locals<'a>,
    cases: &'a [WrittenCase],
) -> Result<Placed<Vec<Case>>, Fault>
    ensures value { Gives placed_cases result (spec.cases_meaning (M.known meanings.now) locals.old (cases_of cases.now)) }
    ensures kept { OnOk result (locals.new ≡ locals.old) }
{
    let mut found = no_cases(alloc);
    for case in cases {
        let next = resolve_case(alloc, meanings, locals, case)?;
        push_case(&mut found, next)?;
    }
    Ok(found)
}
