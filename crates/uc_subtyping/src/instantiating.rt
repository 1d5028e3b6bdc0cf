//! Existentials instantiated.
ghost use Rattle.std.specs.Prelude.{◌≡◌, true, false, length, OnOk, IfErr};
ghost use Rattle.std.specs.List.{list_any};
ghost use Rattle.uc_context.specs.Contexts.{IsContext};
ghost use Rattle.uc_context.specs.Entries.{is_unsolved};
ghost use Rattle.uc_context.specs.Opens.{quantified, opens_of};
ghost use Rattle.uc_context.specs.Solvable.{can_solve};
ghost use Rattle.uc_context.specs.Variables.{mentions};
ghost use Rattle.uc_subtyping.specs.Ends.{IsRefused};
ghost use Rattle.uc_subtyping.specs.InHand.{IsInHand, SolvesByMonotypes};
ghost use Rattle.uc_subtyping.specs.Instances.{no_instances, instance, all_at};
ghost use Rattle.uc_subtyping.specs.Instantiation.{SolvesInstance, SolvesInstances, is_after};
ghost use Rattle.uc_subtyping.specs.Outcomes.{done};
ghost use Rattle.uc_subtyping.specs.Readiness.{IsReady};
ghost use Rattle.uc_subtyping.specs.declared.side.Side.TheVariants as sides;

use crate::side::Side;
use std::alloc::Global;
use uc_base::{At, Fault};
use uc_context::{Context, Entry, Open, OpenNode};

/// Tells a proof that the entries are in order.
pub(crate) fn tell_in_order(context: &Context)
    ensures { IsContext context.now }
{
    let _ = context.entries();
}

/// Whether an existential is unsolved and stands behind another.
fn is_after(context: &Context, which: u64, other: u64) -> bool
    ensures { result ≡ is_after context.now which other }
{
    context.is_unsolved(other) && context.is_declared_before(which, other)
}

/// Makes an existential a type below another, or above it. A refusal has no place yet, and leaves
/// some context.
#[cycle(instantiate)]
pub fn instantiate(
    alloc: Global,
    context: &mut Context,
    side: Side,
    which: u64,
    with: &Open,
) -> Result<(), Fault>
    requires monotypes { SolvesByMonotypes context.old }
    requires in_hand { IsInHand context.old with.now }
    requires apart { mentions which with.now ≡ false }
    ensures ok { OnOk result (SolvesInstance side context.old which with.now (done context.new)) }
    ensures err { IfErr result (IsRefused (SolvesInstance side context.old which with.now)) }
{
    tell_in_order(context);
    if !context.is_unsolved(which) {
        return Err(Fault::IllTyped(At::Nowhere));
    }
    if context.can_solve(which, with) {
        let with = with.copy(alloc)?;
        context.solve(which, with)?;
        return Ok(());
    }
    instantiate_by_form(alloc, context, side, which, with)?;
    Ok(())
}

/// Makes an unsolved existential a type below another, or above it, that can't solve it.
#[cycle(instantiate)]
fn instantiate_by_form(
    alloc: Global,
    context: &mut Context,
    side: Side,
    which: u64,
    with: &Open,
) -> Result<(), Fault>
    requires monotypes { SolvesByMonotypes context.old }
    requires in_order { IsContext context.old }
    requires in_hand { IsInHand context.old with.now }
    requires apart { mentions which with.now ≡ false }
    requires unsolved { list_any (is_unsolved which) context.old ≡ true }
    requires no_solution { can_solve context.old which with.now ≡ false }
    ensures ok { OnOk result (SolvesInstance side context.old which with.now (done context.new)) }
    ensures err { IfErr result (IsRefused (SolvesInstance side context.old which with.now)) }
{
    match &with.node {
        OpenNode::Exists(other) => {
            if !is_after(context, which, *other) {
                return Err(Fault::IllTyped(At::Nowhere));
            }
            context.solve(*other, Open::existential(which))
        }
        OpenNode::Arrow(a, b) => {
            let (argument, result) = context.solve_with_arrow(alloc, which)?;
            instantiate_part(alloc, context, side.other(), argument, a)?;
            instantiate_part(alloc, context, side, result, b)
        }
        OpenNode::Tuple(ts) => {
            let numbers = context.solve_with_tuple(alloc, ts.len() as u32, which)?;
            instantiate_each(alloc, context, side, &numbers, ts)
        }
        OpenNode::Data(head, ts) => {
            let numbers = context.solve_with_data(alloc, head, ts.len() as u32, which)?;
            instantiate_each(alloc, context, side, &numbers, ts)
        }
        OpenNode::Forall(body) => match side {
            Side::Below => instantiate_below(alloc, context, which, body),
            Side::Above => instantiate_above(alloc, context, which, body),
        },
        OpenNode::Bound(_) | OpenNode::Rigid(_) | OpenNode::Unit => {
            Err(Fault::IllTyped(At::Nowhere))
        }
    }
}

/// Makes an existential a type below a quantified one.
#[cycle(instantiate)]
fn instantiate_below(
    alloc: Global,
    context: &mut Context,
    which: u64,
    body: &Open,
) -> Result<(), Fault>
    requires monotypes { SolvesByMonotypes context.old }
    requires in_order { IsContext context.old }
    requires in_hand { IsInHand context.old (quantified body.now) }
    requires apart { mentions which body.now ≡ false }
    requires unsolved { list_any (is_unsolved which) context.old ≡ true }
    ensures ok { OnOk result (SolvesInstance sides.Below context.old which (quantified body.now) (done context.new)) }
    ensures err { IfErr result (IsRefused (SolvesInstance sides.Below context.old which (quantified body.now))) }
{
    let number = context.fresh();
    context.push(Entry::Rigid(number))?;
    let opened = body.opened(alloc, &Open::rigid(number))?;
    instantiate(alloc, context, Side::Below, which, &opened)?;
    context.drop_from(&Entry::Rigid(number));
    Ok(())
}

/// Makes an existential a type above a quantified one.
#[cycle(instantiate)]
fn instantiate_above(
    alloc: Global,
    context: &mut Context,
    which: u64,
    body: &Open,
) -> Result<(), Fault>
    requires monotypes { SolvesByMonotypes context.old }
    requires in_order { IsContext context.old }
    requires in_hand { IsInHand context.old (quantified body.now) }
    requires apart { mentions which body.now ≡ false }
    requires unsolved { list_any (is_unsolved which) context.old ≡ true }
    ensures ok { OnOk result (SolvesInstance sides.Above context.old which (quantified body.now) (done context.new)) }
    ensures err { IfErr result (IsRefused (SolvesInstance sides.Above context.old which (quantified body.now))) }
{
    let number = context.fresh();
    context.push(Entry::Mark(number))?;
    context.push(Entry::Exists(number))?;
    let opened = body.opened(alloc, &Open::existential(number))?;
    instantiate(alloc, context, Side::Above, which, &opened)?;
    context.drop_from(&Entry::Mark(number));
    Ok(())
}

/// Instantiates an existential to a type with the solutions put in that there are by now.
#[cycle(instantiate)]
fn instantiate_part(
    alloc: Global,
    context: &mut Context,
    side: Side,
    which: u64,
    part: &Open,
) -> Result<(), Fault>
    requires monotypes { SolvesByMonotypes context.old }
    requires ready { IsReady context.old (instance side which part.now no_instances) }
    ensures ok { OnOk result (SolvesInstances context.old (instance side which part.now no_instances) (done context.new)) }
    ensures err { IfErr result (IsRefused (SolvesInstances context.old (instance side which part.now no_instances))) }
{
    let with = context.apply(alloc, part)?;
    instantiate(alloc, context, side, which, &with)?;
    Ok(())
}

/// Instantiates existentials to the types of a list, one after another.
#[cycle(instantiate)]
fn instantiate_each(
    alloc: Global,
    context: &mut Context,
    side: Side,
    numbers: &[u64],
    types: &[Open],
) -> Result<(), Fault>
    requires monotypes { SolvesByMonotypes context.old }
    requires ready { IsReady context.old (all_at side numbers.now (opens_of types.now)) }
    requires as_many { length numbers.now ≡ length types.now }
    ensures ok { OnOk result (SolvesInstances context.old (all_at side numbers.now (opens_of types.now)) (done context.new)) }
    ensures err { IfErr result (IsRefused (SolvesInstances context.old (all_at side numbers.now (opens_of types.now)))) }
{
    for at in 0..types.len() {
        instantiate_part(alloc, context, side, numbers[at], &types[at])?;
    }
    Ok(())
}
