//! The names that expressions and blocks write.
ghost use Rattle.std.specs.Prelude.{◌≡◌, ◌++◌, OnOk};
ghost use Rattle.uc_scratch.specs.Exprs.{Block as PlainBlock, Cases as PlainCases, Expr as Plain, exprs_of};
ghost use Rattle.uc_scratch.specs.ExprViews.{atom_of, case_before, cases_of, entry_before, step_before};
ghost use Rattle.uc_meaning.specs.Words as spec;

use crate::pattern_words::add_pattern;
use crate::type_words::add_type;
use crate::words::Words;
use std::alloc::AllocError;
use uc_scratch::{Atom, Block, Case, Entry, Expr, Step};

/// Adds those of an expression.
#[cycle(add_expr)]
#[tactic(auto, using(uc_scratch::proofs::Sizes::expr_parts))]
pub fn add_expr<'a>(e: &'a Expr, out: &mut Words<'a>) -> Result<(), AllocError>
    ensures { OnOk result (out.new ≡ out.old ++ spec.expr_words e.now) }
{
    for step in &e.steps {
        add_step(step, out)?;
    }
    Ok(())
}

#[cycle(add_expr)]
#[tactic(auto, using(uc_scratch::proofs::Sizes::expr_parts))]
fn add_step<'a>(step: &'a Step, out: &mut Words<'a>) -> Result<(), AllocError>
    ensures { OnOk result ((e : Plain)
        → out.new ++ spec.expr_words e ≡ out.old ++ spec.expr_words (step_before step.now e)) }
{
    match step {
        Step::And | Step::Or | Step::If(_) | Step::Match(_) => Ok(()),
        Step::Atom(atom) => add_atom(atom, out),
        Step::Operator(name) => out.push(name),
        Step::Then(yes, no) => {
            add_block(yes, out)?;
            add_block(no, out)
        }
        Step::With(cases) | Step::Cases(_, cases) => add_cases(cases, out),
        Step::Lambda(_, body) | Step::Let(_, body) => add_block(body, out),
    }
}

#[cycle(add_expr)]
#[tactic(auto, using(uc_scratch::proofs::Sizes::expr_parts))]
fn add_atom<'a>(atom: &'a Atom, out: &mut Words<'a>) -> Result<(), AllocError>
    ensures { OnOk result (out.new ≡ out.old ++ spec.atom_words (atom_of atom.now)) }
{
    match atom {
        Atom::Path(name) | Atom::Operator(_, name) => out.push(name),
        Atom::Literal(_) | Atom::Reference(_) | Atom::Unit(_) => Ok(()),
        Atom::Group(_, e) => add_expr(e, out),
        Atom::Annotated(_, e, t) => {
            add_expr(e, out)?;
            add_type(t, out)
        }
        Atom::Tuple(_, es) | Atom::List(_, es) => add_exprs(es, out),
    }
}

#[cycle(add_expr)]
#[tactic(auto, using(uc_scratch::proofs::Sizes::expr_parts))]
fn add_exprs<'a>(es: &'a [Expr], out: &mut Words<'a>) -> Result<(), AllocError>
    ensures { OnOk result (out.new ≡ out.old ++ spec.exprs_words (exprs_of es.now)) }
{
    for e in es {
        add_expr(e, out)?;
    }
    Ok(())
}

#[cycle(add_expr)]
#[tactic(auto, using(uc_scratch::proofs::Sizes::expr_parts))]
fn add_case<'a>(case: &'a Case, out: &mut Words<'a>) -> Result<(), AllocError>
    ensures { OnOk result ((cs : PlainCases)
        → out.new ++ spec.cases_words cs
        ≡ out.old ++ spec.cases_words (case_before case.now.pattern case.now.guard case.now.body cs)) }
{
    add_pattern(&case.pattern, out)?;
    match &case.guard {
        None => {}
        Some(guard) => add_expr(guard, out)?,
    }
    add_block(&case.body, out)
}

#[cycle(add_expr)]
#[tactic(auto, using(uc_scratch::proofs::Sizes::expr_parts))]
fn add_cases<'a>(cases: &'a [Case], out: &mut Words<'a>) -> Result<(), AllocError>
    ensures { OnOk result (out.new ≡ out.old ++ spec.cases_words (cases_of cases.now)) }
{
    for case in cases {
        add_case(case, out)?;
    }
    Ok(())
}

#[cycle(add_expr)]
#[tactic(auto, using(uc_scratch::proofs::Sizes::expr_parts))]
fn add_entry<'a>(entry: &'a Entry, out: &mut Words<'a>) -> Result<(), AllocError>
    ensures { OnOk result ((b : PlainBlock)
        → out.new ++ spec.block_words b ≡ out.old ++ spec.block_words (entry_before entry.now b)) }
{
    match entry {
        Entry::Use(_) => Ok(()),
        Entry::Signature(signature) => add_type(&signature.of, out),
        Entry::Binding(binding) => add_block(&binding.body, out),
    }
}

/// Adds those of a block.
#[cycle(add_expr)]
#[tactic(auto, using(uc_scratch::proofs::Sizes::expr_parts))]
pub fn add_block<'a>(block: &'a Block, out: &mut Words<'a>) -> Result<(), AllocError>
    ensures { OnOk result (out.new ≡ out.old ++ spec.block_words block.now) }
{
    for entry in &block.entries {
        add_entry(entry, out)?;
    }
    add_expr(&block.result, out)
}
