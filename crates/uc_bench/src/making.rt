//! Code of a given size.
ghost use Rattle.std.specs.Prelude.{◌≡◌, ◌<◌, IfOk};
ghost use Rattle.uc_bench.specs.Ordinary as spec;
ghost use Rattle.uc_bench.specs.Ordinary.{IsSum, addition, chain, number_match};
ghost use Rattle.uc_bench.specs.Requests.{IsCode, IsWithin};

use crate::known::PLUS;
use crate::request::Kind;
use std::alloc::{AllocError, Global};
use uc_base::Ref;
use uc_tree::{Case, Literal, Pattern, Target, Term};

/// `1`
fn one() -> Term
    ensures { result ≡ spec.one }
{
    Term::literal(Literal::Nat(1))
}

/// `first + second`
fn sum(alloc: Global, first: Term, second: Term) -> Result<Term, AllocError>
    ensures { IfOk result (λ term. term ≡ addition first second) }
{
    let plus = Term::link(Target::Stored(Ref::Builtin(PLUS)));
    let partial = Term::apply(alloc, plus, first)?;
    Term::apply(alloc, partial, second)
}

/// The sum of so many ones, balanced.
fn sum_of_ones(alloc: Global, count: u32) -> Result<Term, AllocError>
    requires { 0 < count }
    ensures { IfOk result (IsSum count) }
{
    if count == 1 {
        return Ok(one());
    }
    let half = count / 2;
    let first = sum_of_ones(alloc, half)?;
    let second = sum_of_ones(alloc, count - half)?;
    sum(alloc, first, second)
}

/// `x = 1`, then `x = x + 1` of the binding before, and the last variable. Inside its own binder a
/// bound term sees the variable before at 1.
fn chain_of_bindings(alloc: Global, count: u32) -> Result<Term, AllocError>
    requires { 0 < count }
    ensures { IfOk result (λ term. term ≡ chain count) }
{
    let mut term = Term::variable(0);
    for _ in 0..count - 1 {
        let next = sum(alloc, Term::variable(1), one())?;
        term = Term::binding(alloc, None, next, term)?;
    }
    Term::binding(alloc, None, one(), term)
}

/// The case of a number.
fn case_of(number: u32) -> Case
    ensures { result ≡ spec.case_of number }
{
    Case {
        pattern: Pattern::literal(Literal::Nat(number as u64)),
        guard: None,
        body: one(),
    }
}

/// The case of all else.
fn other_case() -> Case
    ensures { result ≡ spec.other_case }
{
    Case {
        pattern: Pattern::any(),
        guard: None,
        body: one(),
    }
}

/// A match of a number with so many cases, and that of all else.
fn match_of_numbers(alloc: Global, count: u32) -> Result<Term, AllocError>
    ensures { IfOk result (λ term. term ≡ number_match count) }
{
    let mut cases = Vec::new(alloc);
    for number in 0..count {
        cases.push(case_of(number))?;
    }
    cases.push(other_case())?;
    Term::matching(alloc, one(), cases)
}

/// Code of a kind and a size.
pub(crate) fn code_of(alloc: Global, kind: Kind, count: u32) -> Result<Term, AllocError>
    requires { IsWithin kind count }
    ensures { IfOk result (IsCode kind count) }
{
    match kind {
        Kind::Applications => sum_of_ones(alloc, count.div_ceil(2) + 1),
        Kind::Bindings => chain_of_bindings(alloc, count),
        Kind::Cases => match_of_numbers(alloc, count),
    }
}
