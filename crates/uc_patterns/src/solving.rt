//! Solutions put in and types made subtypes, with refusals at a spot.
ghost use Rattle.std.specs.Prelude.{◌≡◌, OnOk, IfOk, IfErr};
ghost use Rattle.uc_context.specs.Contexts.{type_under};
ghost use Rattle.uc_context.specs.Counts.{IsSmall};
ghost use Rattle.uc_context.specs.Opens.{none, more};
ghost use Rattle.uc_soundness.specs.WellFormed.{IsTypeIn, IsWellFormedContext};
ghost use Rattle.uc_subtyping.specs.Outcomes.{done, refused, Refusal};
ghost use Rattle.uc_subtyping.specs.Subtyping.{SolvesSubtypes};
ghost use Rattle.uc_typing.specs.Stops.{too_large, stop_at};
ghost use Rattle.uc_patterns.specs.Spots.{IsStopped, placed_at};

use crate::lookups::TargetTypes;
use std::alloc::Global;
use uc_base::{At, Fault, Spot};
use uc_context::{Context, Open};
use uc_subtyping::solve_subtype;

/// A refusal that has no place yet, at a spot.
fn placed(fault: Fault, spot: Spot) -> Fault
    ensures { result ≡ placed_at spot fault }
{
    match fault {
        Fault::IllTyped(At::Nowhere) => Fault::IllTyped(At::Spot(spot)),
        Fault::TypeTooLarge(At::Nowhere) => Fault::TypeTooLarge(At::Spot(spot)),
        other => other,
    }
}

/// A type with the solutions put in.
pub fn apply_at(alloc: Global, context: &Context, spot: Spot, of: &Open) -> Result<Open, Fault>
    ensures ok { IfOk result (λ t. (t ≡ type_under context.now of.now) × IsSmall t) }
    ensures err { IfErr result (IsStopped spot.member (λ stop. (stop ≡ too_large spot.node) × ¬ IsSmall (type_under context.now of.now))) }
{
    match context.apply(alloc, of) {
        Ok(t) => Ok(t),
        Err(fault) => Err(placed(fault, spot)),
    }
}

/// Makes the first type a subtype of the second, both with the solutions put in. A refusal leaves some
/// context.
pub fn subtype_at<K: TargetTypes>(
    alloc: Global,
    known: &K,
    context: &mut Context,
    spot: Spot,
    lower: &Open,
    upper: &Open,
) -> Result<(), Fault>
    requires context { IsWellFormedContext (K.known known.now).arity context.old }
    requires lower { IsTypeIn (K.known known.now).arity context.old 0 lower.now }
    requires upper { IsTypeIn (K.known known.now).arity context.old 0 upper.now }
    ensures ok { OnOk result (SolvesSubtypes context.old (more lower.now none) (more upper.now none) (done context.new)) }
    ensures err { IfErr result (IsStopped spot.member (λ stop. (why : Refusal) × (stop ≡ stop_at spot.node why) × SolvesSubtypes context.old (more lower.now none) (more upper.now none) (refused why))) }
{
    match solve_subtype(alloc, context, lower, upper) {
        Ok(()) => Ok(()),
        Err(fault) => Err(placed(fault, spot)),
    }
}
