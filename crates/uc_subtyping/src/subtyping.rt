//! Types made subtypes.
ghost use Rattle.std.specs.Prelude.{◌≡◌, ◌↔◌, true, false, length, OnOk, IfErr, IsTrue};
ghost use Rattle.uc_context.specs.Contexts.{IsContext, type_under, types_under};
ghost use Rattle.uc_context.specs.Opens.{quantified, none, more, opens_of};
ghost use Rattle.uc_context.specs.Variables.{has_variables, has_variables_of};
ghost use Rattle.uc_subtyping.specs.Ends.{IsRefused};
ghost use Rattle.uc_subtyping.specs.InHand.{IsInHand, SolvesByMonotypes};
ghost use Rattle.uc_subtyping.specs.Outcomes.{done};
ghost use Rattle.uc_subtyping.specs.Subtyping.{is_quantified, HasRule, SolvesSubtype, SolvesSubtypes};

use crate::instantiating::{instantiate, tell_in_order};
use crate::side::Side;
use std::alloc::Global;
use uc_base::{At, Fault};
use uc_context::{Context, Entry, Open, OpenNode, same_open};

/// Whether a rule fits two types of which neither is quantified.
fn has_rule(lower: &Open, upper: &Open) -> bool
    ensures { IsTrue result ↔ HasRule lower.now upper.now }
{
    match (&lower.node, &upper.node) {
        (OpenNode::Exists(_), OpenNode::Exists(_)) => true,
        (OpenNode::Exists(x), _) => !upper.mentions(*x),
        (_, OpenNode::Exists(y)) => !lower.mentions(*y),
        (OpenNode::Rigid(x), OpenNode::Rigid(y)) => *x == *y,
        (OpenNode::Unit, OpenNode::Unit) => true,
        (OpenNode::Arrow(_, _), OpenNode::Arrow(_, _)) => true,
        (OpenNode::Tuple(ts), OpenNode::Tuple(us)) => ts.len() == us.len(),
        (OpenNode::Data(h, ts), OpenNode::Data(k, us)) => *h == *k && ts.len() == us.len(),
        _ => false,
    }
}

/// Makes the first type a subtype of the second. A refusal has no place yet, and leaves some context.
#[cycle(subtype)]
pub fn subtype(
    alloc: Global,
    context: &mut Context,
    lower: &Open,
    upper: &Open,
) -> Result<(), Fault>
    requires monotypes { SolvesByMonotypes context.old }
    requires lower { IsInHand context.old lower.now }
    requires upper { IsInHand context.old upper.now }
    ensures ok { OnOk result (SolvesSubtype context.old lower.now upper.now (done context.new)) }
    ensures err { IfErr result (IsRefused (SolvesSubtype context.old lower.now upper.now)) }
{
    tell_in_order(context);
    if let OpenNode::Forall(body) = &upper.node {
        return subtype_right(alloc, context, lower, body);
    }
    if let OpenNode::Forall(body) = &lower.node {
        return subtype_left(alloc, context, body, upper);
    }
    if !has_rule(lower, upper) {
        return Err(Fault::IllTyped(At::Nowhere));
    }
    subtype_by_form(alloc, context, lower, upper)
}

/// Makes a type a subtype of a quantified one.
#[cycle(subtype)]
fn subtype_right(
    alloc: Global,
    context: &mut Context,
    lower: &Open,
    body: &Open,
) -> Result<(), Fault>
    requires monotypes { SolvesByMonotypes context.old }
    requires in_order { IsContext context.old }
    requires lower { IsInHand context.old lower.now }
    requires upper { IsInHand context.old (quantified body.now) }
    ensures ok { OnOk result (SolvesSubtype context.old lower.now (quantified body.now) (done context.new)) }
    ensures err { IfErr result (IsRefused (SolvesSubtype context.old lower.now (quantified body.now))) }
{
    let number = context.fresh();
    context.push(Entry::Rigid(number))?;
    let opened = body.opened(alloc, &Open::rigid(number))?;
    subtype(alloc, context, lower, &opened)?;
    context.drop_from(&Entry::Rigid(number));
    Ok(())
}

/// Makes a quantified type a subtype of one that isn't.
#[cycle(subtype)]
fn subtype_left(
    alloc: Global,
    context: &mut Context,
    body: &Open,
    upper: &Open,
) -> Result<(), Fault>
    requires monotypes { SolvesByMonotypes context.old }
    requires in_order { IsContext context.old }
    requires lower { IsInHand context.old (quantified body.now) }
    requires upper { IsInHand context.old upper.now }
    requires plain { is_quantified upper.now ≡ false }
    ensures ok { OnOk result (SolvesSubtype context.old (quantified body.now) upper.now (done context.new)) }
    ensures err { IfErr result (IsRefused (SolvesSubtype context.old (quantified body.now) upper.now)) }
{
    let number = context.fresh();
    context.push(Entry::Mark(number))?;
    context.push(Entry::Exists(number))?;
    let opened = body.opened(alloc, &Open::existential(number))?;
    subtype(alloc, context, &opened, upper)?;
    context.drop_from(&Entry::Mark(number));
    Ok(())
}

/// Makes a type a subtype of another where a rule fits, and neither is quantified.
#[cycle(subtype)]
fn subtype_by_form(
    alloc: Global,
    context: &mut Context,
    lower: &Open,
    upper: &Open,
) -> Result<(), Fault>
    requires monotypes { SolvesByMonotypes context.old }
    requires in_order { IsContext context.old }
    requires lower { IsInHand context.old lower.now }
    requires upper { IsInHand context.old upper.now }
    requires plain_lower { is_quantified lower.now ≡ false }
    requires plain_upper { is_quantified upper.now ≡ false }
    requires rule { HasRule lower.now upper.now }
    ensures ok { OnOk result (SolvesSubtype context.old lower.now upper.now (done context.new)) }
    ensures err { IfErr result (IsRefused (SolvesSubtype context.old lower.now upper.now)) }
{
    if let OpenNode::Exists(x) = &lower.node {
        if same_open(lower, upper) {
            return Ok(());
        }
        return instantiate(alloc, context, Side::Below, *x, upper);
    }
    if let OpenNode::Exists(y) = &upper.node {
        return instantiate(alloc, context, Side::Above, *y, lower);
    }
    match (&lower.node, &upper.node) {
        (OpenNode::Rigid(_), OpenNode::Rigid(_)) => Ok(()),
        (OpenNode::Unit, OpenNode::Unit) => Ok(()),
        (OpenNode::Arrow(a, b), OpenNode::Arrow(c, d)) => {
            subtype_part(alloc, context, c, a)?;
            subtype_part(alloc, context, b, d)
        }
        (OpenNode::Tuple(ts), OpenNode::Tuple(us)) => subtype_each(alloc, context, ts, us),
        (OpenNode::Data(_, ts), OpenNode::Data(_, us)) => subtype_each(alloc, context, ts, us),
        _ => unreachable!(),
    }
}

/// Makes a type a subtype of another, both with the solutions put in that there are by now.
#[cycle(subtype)]
pub(crate) fn subtype_part(
    alloc: Global,
    context: &mut Context,
    lower: &Open,
    upper: &Open,
) -> Result<(), Fault>
    requires monotypes { SolvesByMonotypes context.old }
    requires in_order { IsContext context.old }
    requires lower { has_variables context.old (type_under context.old lower.now) ≡ true }
    requires upper { has_variables context.old (type_under context.old upper.now) ≡ true }
    ensures ok { OnOk result (SolvesSubtypes context.old (more lower.now none) (more upper.now none) (done context.new)) }
    ensures err { IfErr result (IsRefused (SolvesSubtypes context.old (more lower.now none) (more upper.now none))) }
{
    let lower = context.apply(alloc, lower)?;
    let upper = context.apply(alloc, upper)?;
    subtype(alloc, context, &lower, &upper)?;
    Ok(())
}

/// Makes types subtypes of those of another list, one after another.
#[cycle(subtype)]
fn subtype_each(
    alloc: Global,
    context: &mut Context,
    lower: &[Open],
    upper: &[Open],
) -> Result<(), Fault>
    requires monotypes { SolvesByMonotypes context.old }
    requires in_order { IsContext context.old }
    requires known_lower { has_variables_of context.old (opens_of lower.now) ≡ true }
    requires known_upper { has_variables_of context.old (opens_of upper.now) ≡ true }
    requires current_lower { types_under context.old (opens_of lower.now) ≡ opens_of lower.now }
    requires current_upper { types_under context.old (opens_of upper.now) ≡ opens_of upper.now }
    requires as_many { length lower.now ≡ length upper.now }
    ensures ok { OnOk result (SolvesSubtypes context.old (opens_of lower.now) (opens_of upper.now) (done context.new)) }
    ensures err { IfErr result (IsRefused (SolvesSubtypes context.old (opens_of lower.now) (opens_of upper.now))) }
{
    for at in 0..lower.len() {
        subtype_part(alloc, context, &lower[at], &upper[at])?;
    }
    Ok(())
}
