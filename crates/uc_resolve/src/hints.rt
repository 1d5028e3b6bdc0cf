//! The names of the term binders of a file.
ghost use Rattle.std.specs.Prelude.{◌≡◌, List, [], ◌∷◌, ◌++◌, IfOk, OnOk};
ghost use Rattle.uc_scratch.specs.Exprs.{Expr as Plain, Block as PlainBlock, exprs_of};
ghost use Rattle.uc_scratch.specs.ExprViews.{atom_of, cases_of, step_before, entry_before};
ghost use Rattle.uc_scratch.specs.Files.{Item as PlainItem};
ghost use Rattle.uc_scratch.specs.FileViews.{item_of, items_of};
ghost use Rattle.uc_scratch.specs.NameFaults.{pattern_names};
ghost use Rattle.uc_scratch.specs.TypeLevels.{texts_of};
ghost use Rattle.uc_tree.specs.Hints.{names_of};
ghost use Rattle.uc_meaning.specs.Hints as spec;
ghost use Rattle.uc_resolve.specs.HintViews.{guard_hints, case_hints, front_hints, bound_hints};

use crate::names::front_name;
use std::alloc::{AllocError, Global};
use uc_base::Bytes;
use uc_scratch::{
    Atom, Binding, BindingFront, Block, Case, Entry, Expr, File, Item, Param, Pattern, Step,
    WrittenNames, add_pattern_names,
};
use uc_tree::Hints;

/// Names of binders in the order of the text.
type BinderNames = Vec<Bytes>;

/// Adds a name.
fn add_text(alloc: Global, text: &[u8], out: &mut BinderNames) -> Result<(), AllocError>
    ensures { OnOk result (out.new.items ≡ out.old.items ++ text.now ∷ []) }
{
    out.push(Bytes::from_slice(alloc, text)?)?;
    Ok(())
}

/// Adds the name of a parameter.
fn add_param(alloc: Global, param: &Param, out: &mut BinderNames) -> Result<(), AllocError>
    ensures { OnOk result (out.new.items ≡ out.old.items ++ spec.param_hint param.now ∷ []) }
{
    match param {
        Param::Name(name) => add_text(alloc, name.text.as_slice(), out),
        Param::Any(_) => add_text(alloc, b"_", out),
    }
}

fn add_params(alloc: Global, params: &[Param], out: &mut BinderNames) -> Result<(), AllocError>
    ensures { OnOk result (out.new.items ≡ out.old.items ++ spec.param_hints params.now) }
{
    for param in params {
        add_param(alloc, param, out)?;
    }
    Ok(())
}

/// Adds the names of the parameters of a binding.
fn add_front(alloc: Global, front: &BindingFront, out: &mut BinderNames) -> Result<(), AllocError>
    ensures { OnOk result (out.new.items ≡ out.old.items ++ front_hints front.now) }
{
    match front {
        BindingFront::Prefix(_, params) => add_params(alloc, params, out),
        BindingFront::Infix(left, _, right) => {
            add_param(alloc, left, out)?;
            add_param(alloc, right, out)
        }
    }
}

/// Adds the names that a pattern binds.
fn add_pattern(alloc: Global, pattern: &Pattern, out: &mut BinderNames) -> Result<(), AllocError>
    ensures { OnOk result (out.new.items ≡ out.old.items ++ texts_of (pattern_names pattern.now)) }
{
    let mut names = WrittenNames::new(alloc);
    add_pattern_names(pattern, &mut names)?;
    add_names(alloc, &names, out)
}

fn add_names(alloc: Global, names: &WrittenNames, out: &mut BinderNames) -> Result<(), AllocError>
    ensures { OnOk result (out.new.items ≡ out.old.items ++ texts_of names.now) }
{
    for i in 0..names.len() {
        match names.get(i) {
            None => {}
            Some(name) => add_text(alloc, name.text.as_slice(), out)?,
        }
    }
    Ok(())
}

/// Adds those of an expression.
#[cycle(add_expr)]
#[tactic(auto, using(uc_scratch::proofs::Sizes::expr_parts))]
fn add_expr(alloc: Global, e: &Expr, out: &mut BinderNames) -> Result<(), AllocError>
    ensures { OnOk result (out.new.items ≡ out.old.items ++ spec.expr_hints e.now) }
{
    for step in &e.steps {
        add_step(alloc, step, out)?;
    }
    Ok(())
}

#[cycle(add_expr)]
#[tactic(auto, using(uc_scratch::proofs::Sizes::expr_parts))]
fn add_step(alloc: Global, step: &Step, out: &mut BinderNames) -> Result<(), AllocError>
    ensures { OnOk result ((e : Plain)
        → out.new.items ++ spec.expr_hints e ≡ out.old.items ++ spec.expr_hints (step_before step.now e)) }
{
    match step {
        Step::Operator(_) | Step::And | Step::Or | Step::If(_) | Step::Match(_) => Ok(()),
        Step::Atom(atom) => add_atom(alloc, atom, out),
        Step::Lambda(params, body) => {
            add_params(alloc, params, out)?;
            add_block(alloc, body, out)
        }
        Step::Then(yes, no) => {
            add_block(alloc, yes, out)?;
            add_block(alloc, no, out)
        }
        Step::With(cases) => add_cases(alloc, cases, out),
        Step::Cases(_, cases) => {
            add_text(alloc, b"x", out)?;
            add_cases(alloc, cases, out)
        }
        Step::Let(_, body) => add_block(alloc, body, out),
    }
}

#[cycle(add_expr)]
#[tactic(auto, using(uc_scratch::proofs::Sizes::expr_parts))]
fn add_atom(alloc: Global, atom: &Atom, out: &mut BinderNames) -> Result<(), AllocError>
    ensures { OnOk result (out.new.items ≡ out.old.items ++ spec.atom_hints (atom_of atom.now)) }
{
    match atom {
        Atom::Path(_) | Atom::Operator(_, _) | Atom::Literal(_) => Ok(()),
        Atom::Reference(_) | Atom::Unit(_) => Ok(()),
        Atom::Group(_, e) | Atom::Annotated(_, e, _) => add_expr(alloc, e, out),
        Atom::Tuple(_, es) | Atom::List(_, es) => add_exprs(alloc, es, out),
    }
}

#[cycle(add_expr)]
#[tactic(auto, using(uc_scratch::proofs::Sizes::expr_parts))]
fn add_exprs(alloc: Global, es: &[Expr], out: &mut BinderNames) -> Result<(), AllocError>
    ensures { OnOk result (out.new.items ≡ out.old.items ++ spec.exprs_hints (exprs_of es.now)) }
{
    for e in es {
        add_expr(alloc, e, out)?;
    }
    Ok(())
}

#[cycle(add_expr)]
#[tactic(auto, using(uc_scratch::proofs::Sizes::expr_parts))]
fn add_guard(alloc: Global, guard: &Option<Expr>, out: &mut BinderNames) -> Result<(), AllocError>
    ensures { OnOk result (out.new.items ≡ out.old.items ++ guard_hints guard.now) }
{
    match guard {
        None => Ok(()),
        Some(e) => add_expr(alloc, e, out),
    }
}

#[cycle(add_expr)]
#[tactic(auto, using(uc_scratch::proofs::Sizes::expr_parts))]
fn add_cases(alloc: Global, cases: &[Case], out: &mut BinderNames) -> Result<(), AllocError>
    ensures { OnOk result (out.new.items ≡ out.old.items ++ spec.cases_hints (cases_of cases.now)) }
{
    for case in cases {
        add_case(alloc, case, out)?;
    }
    Ok(())
}

#[cycle(add_expr)]
#[tactic(auto, using(uc_scratch::proofs::Sizes::expr_parts))]
fn add_case(alloc: Global, case: &Case, out: &mut BinderNames) -> Result<(), AllocError>
    ensures { OnOk result (out.new.items ≡ out.old.items ++ case_hints case.now) }
{
    add_pattern(alloc, &case.pattern, out)?;
    add_guard(alloc, &case.guard, out)?;
    add_block(alloc, &case.body, out)
}

#[cycle(add_expr)]
#[tactic(auto, using(uc_scratch::proofs::Sizes::expr_parts))]
fn add_block(alloc: Global, block: &Block, out: &mut BinderNames) -> Result<(), AllocError>
    ensures { OnOk result (out.new.items ≡ out.old.items ++ spec.block_hints block.now) }
{
    for entry in &block.entries {
        add_entry(alloc, entry, out)?;
    }
    add_expr(alloc, &block.result, out)
}

#[cycle(add_expr)]
#[tactic(auto, using(uc_scratch::proofs::Sizes::expr_parts))]
fn add_entry(alloc: Global, entry: &Entry, out: &mut BinderNames) -> Result<(), AllocError>
    ensures { OnOk result ((b : PlainBlock)
        → out.new.items ++ spec.block_hints b ≡ out.old.items ++ spec.block_hints (entry_before entry.now b)) }
{
    match entry {
        Entry::Use(_) | Entry::Signature(_) => Ok(()),
        Entry::Binding(binding) => {
            add_text(alloc, front_name(&binding.front).text.as_slice(), out)?;
            add_bound(alloc, binding, out)
        }
    }
}

/// Adds those of a binding's parameters and body.
#[cycle(add_expr)]
#[tactic(auto, using(uc_scratch::proofs::Sizes::expr_parts))]
fn add_bound(alloc: Global, binding: &Binding, out: &mut BinderNames) -> Result<(), AllocError>
    ensures { OnOk result (out.new.items ≡ out.old.items ++ bound_hints binding.now.front binding.now.body) }
{
    add_front(alloc, &binding.front, out)?;
    add_block(alloc, &binding.body, out)
}

/// The names of the binders of members.
type MemberNames = Vec<BinderNames>;

fn bound_names(alloc: Global, binding: &Binding) -> Result<BinderNames, AllocError>
    ensures { IfOk result (λ names. names.items ≡ bound_hints binding.now.front binding.now.body) }
{
    let mut names = Vec::new(alloc);
    add_bound(alloc, binding, &mut names)?;
    Ok(names)
}

fn expr_names(alloc: Global, e: &Expr) -> Result<BinderNames, AllocError>
    ensures { IfOk result (λ names. names.items ≡ spec.expr_hints e.now) }
{
    let mut names = Vec::new(alloc);
    add_expr(alloc, e, &mut names)?;
    Ok(names)
}

/// Adds those of an item, if it is a definition.
fn add_definition(alloc: Global, item: &Item, out: &mut MemberNames) -> Result<(), AllocError>
    ensures { OnOk result ((is : List PlainItem)
        → names_of out.new.items ++ spec.definitions_hints is
        ≡ names_of out.old.items ++ spec.definitions_hints (item_of item.now ∷ is)) }
{
    match item {
        Item::Use(_) | Item::Declaration(_) | Item::Signature(_) | Item::Watch(_) => Ok(()),
        Item::Binding(binding) => {
            out.push(bound_names(alloc, binding)?)?;
            Ok(())
        }
    }
}

fn add_definitions(alloc: Global, items: &[Item], out: &mut MemberNames) -> Result<(), AllocError>
    ensures { OnOk result (names_of out.new.items
        ≡ names_of out.old.items ++ spec.definitions_hints (items_of items.now)) }
{
    for item in items {
        add_definition(alloc, item, out)?;
    }
    Ok(())
}

/// Adds those of an item, if it is a watch.
fn add_watch(alloc: Global, item: &Item, out: &mut MemberNames) -> Result<(), AllocError>
    ensures { OnOk result ((is : List PlainItem)
        → names_of out.new.items ++ spec.watches_hints is
        ≡ names_of out.old.items ++ spec.watches_hints (item_of item.now ∷ is)) }
{
    match item {
        Item::Use(_) | Item::Declaration(_) | Item::Signature(_) | Item::Binding(_) => Ok(()),
        Item::Watch(watch) => {
            out.push(expr_names(alloc, &watch.of)?)?;
            Ok(())
        }
    }
}

fn add_watches(alloc: Global, items: &[Item], out: &mut MemberNames) -> Result<(), AllocError>
    ensures { OnOk result (names_of out.new.items
        ≡ names_of out.old.items ++ spec.watches_hints (items_of items.now)) }
{
    for item in items {
        add_watch(alloc, item, out)?;
    }
    Ok(())
}

/// The names of the binders of each definition and then of each watch.
pub fn file_hints(alloc: Global, file: &File) -> Result<Hints, AllocError>
    ensures { IfOk result (λ hints. hints ≡ spec.hints_of file.now) }
{
    let mut members = Vec::new(alloc);
    add_definitions(alloc, &file.items, &mut members)?;
    add_watches(alloc, &file.items, &mut members)?;
    Ok(Hints { members })
}
