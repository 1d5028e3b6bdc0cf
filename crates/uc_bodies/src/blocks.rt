//! Blocks and bodies as terms.
ghost use Rattle.std.specs.Prelude.{◌≡◌, None, OnOk};
ghost use Rattle.std.specs.Option.{option_map};
ghost use Rattle.uc_scratch.specs.ExprViews.{binding_before, block_of};
ghost use Rattle.uc_meaning.specs.ExprMeanings as spec;
ghost use Rattle.uc_meaning.specs.Results.{Gives};
ghost use Rattle.uc_signatures.specs.PlacedViews.{placed_of};
ghost use Rattle.uc_bodies.specs.BodyViews.{signed_of, params_of, listed, without_block};

use crate::exprs::resolve_expr;
use crate::fronts::{front_name, front_place};
use crate::locals::Locals;
use crate::nodes::binding_over;
use crate::params::Params;
use crate::runs::{Run, pass_run};
use crate::signed::{Signed, signature_for};
use std::alloc::Global;
use uc_base::Fault;
use uc_meaning::Meanings;
use uc_scratch::{Binding, Block, Entry, Expr};
use uc_signatures::Placed;
use uc_tree::Term;

/// The term of a block.
#[cycle(resolve_expr)]
#[tactic(auto, using(uc_scratch::proofs::Sizes::expr_parts))]
pub fn resolve_block<'a, M: Meanings>(
    alloc: Global,
    meanings: &M,
    locals: &mut Locals<'a>,
    block: &'a Block,
) -> Result<Placed<Term>, Fault>
    ensures value { Gives placed_of result
        (spec.block_meaning (M.known meanings.now) (spec.in_block locals.old) None block.now) }
    ensures kept { OnOk result (locals.new ≡ locals.old) }
{
    locals.enter_block()?;
    let term = resolve_entries(alloc, meanings, locals, &block.entries, &block.result)?;
    locals.leave_block();
    Ok(term)
}

/// The term of entries with the expression behind them. A binding is a level of the term, over the entries behind it.
#[cycle(resolve_expr)]
#[tactic(auto, using(uc_scratch::proofs::Sizes::expr_parts))]
fn resolve_entries<'a, M: Meanings>(
    alloc: Global,
    meanings: &M,
    locals: &mut Locals<'a>,
    entries: &'a [Entry],
    last: &'a Expr,
) -> Result<Placed<Term>, Fault>
    ensures value { Gives placed_of result
        (spec.block_meaning (M.known meanings.now) locals.old None (block_of entries.now last.now)) }
    ensures kept { OnOk result (without_block locals.new ≡ without_block locals.old) }
{
    match pass_run(alloc, meanings, locals, entries)? {
        Run::End => resolve_expr(alloc, meanings, locals, last),
        Run::Binding(signed, binding, behind) => {
            resolve_binding(alloc, meanings, locals, signed, binding, behind, last)
        }
    }
}

/// A binding over the entries behind it. Its name is in scope in its body and in these.
#[cycle(resolve_expr)]
#[tactic(auto, using(uc_scratch::proofs::Sizes::expr_parts))]
fn resolve_binding<'a, M: Meanings>(
    alloc: Global,
    meanings: &M,
    locals: &mut Locals<'a>,
    signed: Option<Signed<'a>>,
    binding: &'a Binding,
    behind: &'a [Entry],
    last: &'a Expr,
) -> Result<Placed<Term>, Fault>
    ensures value { Gives placed_of result
        (spec.block_meaning (M.known meanings.now) locals.old (option_map signed_of signed.entry)
        (binding_before binding.now.front binding.now.body (block_of behind.now last.now))) }
    ensures kept { OnOk result (without_block locals.new ≡ without_block locals.old) }
{
    let name = front_name(&binding.front);
    let found = signature_for(signed, name);
    locals.enter(Some(name.text.as_slice()))?;
    let params = Params::of(&binding.front);
    let bound = resolve_under(alloc, meanings, locals, &found, params, &binding.body)?;
    let body = resolve_entries(alloc, meanings, locals, behind, last)?;
    locals.leave(1);
    binding_over(alloc, found, front_place(&binding.front), bound, body)
}

/// The lambdas over a body that stands under parameters, behind a signature or none.
#[cycle(resolve_expr)]
#[tactic(auto, using(uc_scratch::proofs::Sizes::expr_parts))]
pub fn resolve_under<'a, M: Meanings>(
    alloc: Global,
    meanings: &M,
    locals: &mut Locals<'a>,
    found: &Option<Signed<'a>>,
    params: Params<'a>,
    body: &'a Block,
) -> Result<Placed<Term>, Fault>
    ensures value { Gives placed_of result
        (spec.bound_meaning (M.known meanings.now) locals.old (option_map signed_of found.now) (listed params.entry) body.now) }
    ensures kept { OnOk result (locals.new ≡ locals.old) }
{
    locals.enter_front(found)?;
    locals.enter_params(params)?;
    let term = resolve_block(alloc, meanings, locals, body)?;
    locals.leave(params.len());
    locals.leave_front(found);
    params.over(alloc, term)
}

/// The lambdas over the body of a binding, behind its signature or none.
pub fn resolve_bound<'a, M: Meanings>(
    alloc: Global,
    meanings: &M,
    locals: &mut Locals<'a>,
    found: &Option<Signed<'a>>,
    binding: &'a Binding,
) -> Result<Placed<Term>, Fault>
    ensures value { Gives placed_of result
        (spec.bound_meaning (M.known meanings.now) locals.old (option_map signed_of found.now) (params_of binding.now.front) binding.now.body) }
    ensures kept { OnOk result (locals.new ≡ locals.old) }
{
    let params = Params::of(&binding.front);
    resolve_under(alloc, meanings, locals, found, params, &binding.body)
}
