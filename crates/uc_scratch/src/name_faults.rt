//! The first fault of the names of expressions and blocks.
ghost use Rattle.std.specs.Prelude.{◌≡◌, [], ◌∷◌, OnOk, IfOk};
ghost use Rattle.std.specs.Option.{option_or};
ghost use Rattle.uc_scratch.specs.Exprs.{Expr as Plain, result as ended, exprs_of};
ghost use Rattle.uc_scratch.specs.ExprViews.{atom_of, cases_of, step_before, entry_before, entries_before};
ghost use Rattle.uc_scratch.specs.ExprGrammar.{head_name};
ghost use Rattle.uc_scratch.specs.NameSets.{SameNames};
ghost use Rattle.uc_scratch.specs.NameFaults as spec;
ghost use Rattle.uc_scratch.specs.NameFaults.{param_names, pattern_names, repeated_among};

use crate::block::{Binding, BindingFront, Block, Case, Entry, Signature};
use crate::expr::{Atom, Expr, Step};
use crate::names::{Names, WrittenNames};
use crate::pattern::Pattern;
use crate::pattern_names::{add_param, add_params, add_pattern};
use crate::signed::name_of;
use crate::written::{Head, Param, Written};
use std::alloc::{AllocError, Global};
use uc_base::{Fault, Place};

fn params_fault(alloc: Global, params: &[Param]) -> Result<Option<Fault>, AllocError>
    ensures { IfOk result (λ fault. fault ≡ repeated_among [] (param_names params.now)) }
{
    let mut names = WrittenNames::new(alloc);
    add_params(params, &mut names)?;
    names.repeated(alloc)
}

fn pattern_fault(alloc: Global, p: &Pattern) -> Result<Option<Fault>, AllocError>
    ensures { IfOk result (λ fault. fault ≡ repeated_among [] (pattern_names p.now)) }
{
    let mut names = WrittenNames::new(alloc);
    add_pattern(p, &mut names)?;
    names.repeated(alloc)
}

/// The first parameter of a binding that stands twice.
#[tactic(auto, using(crate::proofs::NameSteps::name_steps))]
fn front_fault(alloc: Global, front: &BindingFront) -> Result<Option<Fault>, AllocError>
    ensures { IfOk result (λ fault. fault ≡ repeated_among [] (param_names (spec.front_params front.now))) }
{
    match front {
        BindingFront::Prefix(_, params) => params_fault(alloc, params),
        BindingFront::Infix(left, _, right) => {
            let mut names = WrittenNames::new(alloc);
            add_param(left, &mut names)?;
            add_param(right, &mut names)?;
            names.repeated(alloc)
        }
    }
}

/// The name of a binding.
pub fn front_name(front: &BindingFront) -> &Written
    ensures { result.now ≡ spec.front_name front.now }
{
    match front {
        BindingFront::Prefix(head, _) => name_of(head),
        BindingFront::Infix(_, name, _) => name,
    }
}

fn head_place(head: &Head) -> Place
    ensures { result ≡ spec.head_place head.now }
{
    match head {
        Head::Path(name) | Head::Operator(name) => name.place,
        Head::Bracketed(place, _) => *place,
    }
}

/// The fault of a signature that isn't followed by its binding.
pub fn lone(head: &Head, is_followed: bool) -> Option<Fault>
    ensures { result ≡ spec.lone head.now is_followed }
{
    if is_followed {
        None
    } else {
        Some(Fault::LoneSignature(head_place(head)))
    }
}

/// Whether entries begin with a binding of a name.
fn begins_with_binding(name: &Written, entries: &[Entry]) -> bool
    ensures { (e : Plain) → result ≡ spec.begins_with_binding name.now (entries_before entries.now (ended e)) }
{
    match entries {
        [] | [Entry::Use(_) | Entry::Signature(_), ..] => false,
        [Entry::Binding(binding), ..] => {
            name.text.as_slice() == front_name(&binding.front).text.as_slice()
        }
    }
}

/// The first fault of the names of an expression.
#[cycle(expr_fault)]
#[tactic(auto, using(crate::proofs::Sizes::expr_parts))]
pub fn expr_fault(alloc: Global, e: &Expr) -> Result<Option<Fault>, AllocError>
    ensures { IfOk result (λ fault. fault ≡ spec.expr_fault e.now) }
{
    for step in &e.steps {
        match step_fault(alloc, step)? {
            None => {}
            Some(fault) => return Ok(Some(fault)),
        }
    }
    Ok(None)
}

#[cycle(expr_fault)]
#[tactic(auto, using(crate::proofs::Sizes::expr_parts))]
fn step_fault(alloc: Global, step: &Step) -> Result<Option<Fault>, AllocError>
    ensures { IfOk result (λ fault. (e : Plain)
        → spec.expr_fault (step_before step.now e) ≡ option_or fault (spec.expr_fault e)) }
{
    match step {
        Step::Operator(_) | Step::And | Step::Or | Step::If(_) | Step::Match(_) => Ok(None),
        Step::Atom(atom) => atom_fault(alloc, atom),
        Step::Lambda(params, body) => match params_fault(alloc, params)? {
            None => block_fault(alloc, body),
            Some(fault) => Ok(Some(fault)),
        },
        Step::Then(yes, no) => match block_fault(alloc, yes)? {
            None => block_fault(alloc, no),
            Some(fault) => Ok(Some(fault)),
        },
        Step::With(cases) | Step::Cases(_, cases) => cases_fault(alloc, cases),
        Step::Let(_, body) => block_fault(alloc, body),
    }
}

#[cycle(expr_fault)]
#[tactic(auto, using(crate::proofs::Sizes::expr_parts))]
fn atom_fault(alloc: Global, atom: &Atom) -> Result<Option<Fault>, AllocError>
    ensures { IfOk result (λ fault. fault ≡ spec.atom_fault (atom_of atom.now)) }
{
    match atom {
        Atom::Path(_) | Atom::Operator(_, _) | Atom::Literal(_) => Ok(None),
        Atom::Reference(_) | Atom::Unit(_) => Ok(None),
        Atom::Group(_, e) | Atom::Annotated(_, e, _) => expr_fault(alloc, e),
        Atom::Tuple(_, es) | Atom::List(_, es) => exprs_fault(alloc, es),
    }
}

#[cycle(expr_fault)]
#[tactic(auto, using(crate::proofs::Sizes::expr_parts))]
fn exprs_fault(alloc: Global, es: &[Expr]) -> Result<Option<Fault>, AllocError>
    ensures { IfOk result (λ fault. fault ≡ spec.exprs_fault (exprs_of es.now)) }
{
    for e in es {
        match expr_fault(alloc, e)? {
            None => {}
            Some(fault) => return Ok(Some(fault)),
        }
    }
    Ok(None)
}

#[cycle(expr_fault)]
#[tactic(auto, using(crate::proofs::Sizes::expr_parts))]
fn cases_fault(alloc: Global, cases: &[Case]) -> Result<Option<Fault>, AllocError>
    ensures { IfOk result (λ fault. fault ≡ spec.cases_fault (cases_of cases.now)) }
{
    for case in cases {
        match case_fault(alloc, case)? {
            None => {}
            Some(fault) => return Ok(Some(fault)),
        }
    }
    Ok(None)
}

#[cycle(expr_fault)]
#[tactic(auto, using(crate::proofs::Sizes::expr_parts))]
fn guard_fault(alloc: Global, guard: &Option<Expr>) -> Result<Option<Fault>, AllocError>
    ensures { IfOk result (λ fault. fault ≡ spec.guard_fault guard.now) }
{
    match guard {
        None => Ok(None),
        Some(e) => expr_fault(alloc, e),
    }
}

#[cycle(expr_fault)]
#[tactic(auto, using(crate::proofs::Sizes::expr_parts))]
fn case_fault(alloc: Global, case: &Case) -> Result<Option<Fault>, AllocError>
    ensures { IfOk result (λ fault. fault ≡ spec.case_fault case.now) }
{
    match pattern_fault(alloc, &case.pattern)? {
        None => {}
        Some(fault) => return Ok(Some(fault)),
    }
    match guard_fault(alloc, &case.guard)? {
        None => block_fault(alloc, &case.body),
        Some(fault) => Ok(Some(fault)),
    }
}

/// The first fault of the names of a block.
#[cycle(expr_fault)]
#[tactic(auto, using(crate::proofs::Sizes::expr_parts))]
pub fn block_fault(alloc: Global, block: &Block) -> Result<Option<Fault>, AllocError>
    ensures { IfOk result (λ fault. fault ≡ spec.block_fault [] block.now) }
{
    let mut before = Names::new(alloc);
    for (i, entry) in block.entries.iter().enumerate() {
        match entry_fault(alloc, &mut before, entry, &block.entries[i + 1..])? {
            None => {}
            Some(fault) => return Ok(Some(fault)),
        }
    }
    expr_fault(alloc, &block.result)
}

/// The fault of an entry before others, behind bindings of these names, to which it adds its own.
#[cycle(expr_fault)]
#[tactic(auto, using(crate::proofs::NameSteps::name_steps))]
fn entry_fault(
    alloc: Global,
    before: &mut Names,
    entry: &Entry,
    after: &[Entry],
) -> Result<Option<Fault>, AllocError>
    ensures { IfOk result (λ fault. (e : Plain)
        → spec.block_fault before.old (entry_before entry.now (entries_before after.now (ended e)))
        ≡ option_or fault (spec.block_fault before.new (entries_before after.now (ended e)))) }
{
    match entry {
        Entry::Use(_) => Ok(None),
        Entry::Signature(Signature { head, of: _ }) => {
            Ok(lone(head, begins_with_binding(name_of(head), after)))
        }
        Entry::Binding(binding) => binding_fault(alloc, before, binding),
    }
}

/// The first fault of a binding behind bindings of these names, to which it adds its own.
#[cycle(expr_fault)]
#[tactic(auto, using(crate::proofs::NameSteps::name_steps))]
pub fn binding_fault(
    alloc: Global,
    before: &mut Names,
    binding: &Binding,
) -> Result<Option<Fault>, AllocError>
    ensures fault { IfOk result
        (λ fault. fault ≡ spec.binding_fault before.old binding.now.front binding.now.body) }
    ensures names { OnOk result (SameNames before.new ((spec.front_name binding.now.front).text ∷ before.old)) }
{
    let repeated = before.add(alloc, front_name(&binding.front))?;
    match repeated {
        None => {}
        Some(fault) => return Ok(Some(fault)),
    }
    match front_fault(alloc, &binding.front)? {
        None => block_fault(alloc, &binding.body),
        Some(fault) => Ok(Some(fault)),
    }
}
