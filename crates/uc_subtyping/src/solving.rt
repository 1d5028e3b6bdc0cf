//! Types made subtypes with the solutions put in.
ghost use Rattle.std.specs.Prelude.{◌≡◌, true, OnOk, IfErr};
ghost use Rattle.uc_context.specs.Contexts.{type_under};
ghost use Rattle.uc_context.specs.Opens.{none, more};
ghost use Rattle.uc_context.specs.Variables.{has_variables};
ghost use Rattle.uc_subtyping.specs.Ends.{IsRefused};
ghost use Rattle.uc_subtyping.specs.InHand.{SolvesByMonotypes};
ghost use Rattle.uc_subtyping.specs.Outcomes.{done};
ghost use Rattle.uc_subtyping.specs.Subtyping.{SolvesSubtypes};

use crate::instantiating::tell_in_order;
use crate::subtyping::subtype_part;
use std::alloc::Global;
use uc_base::Fault;
use uc_context::{Context, Open};

/// Makes the first type a subtype of the second, both with the solutions put in. A refusal has no
/// place yet, and leaves some context.
pub fn solve_subtype(
    alloc: Global,
    context: &mut Context,
    lower: &Open,
    upper: &Open,
) -> Result<(), Fault>
    requires monotypes { SolvesByMonotypes context.old }
    requires lower { has_variables context.old (type_under context.old lower.now) ≡ true }
    requires upper { has_variables context.old (type_under context.old upper.now) ≡ true }
    ensures ok { OnOk result (SolvesSubtypes context.old (more lower.now none) (more upper.now none) (done context.new)) }
    ensures err { IfErr result (IsRefused (SolvesSubtypes context.old (more lower.now none) (more upper.now none))) }
{
    tell_in_order(context);
    subtype_part(alloc, context, lower, upper)
}
