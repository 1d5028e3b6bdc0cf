//! Variables that come into scope and go out of it.
ghost use Rattle.std.specs.Prelude.{◌≡◌, ◌<◌, ◌+◌, ◌≤◌, ◌^◌, ◌++◌, ◌∷◌, [], Some, drop, length, IfOk, OnOk, IfErr};
ghost use Rattle.uc_base.specs.declared.fault.Fault.TheVariants.{Memory};
ghost use Rattle.uc_context.specs.Entries.{dropped_from};
ghost use Rattle.uc_context.specs.Fresh.{fresh_number};
ghost use Rattle.uc_context.specs.declared.entry.Entry.TheVariants.{Binder, Rigid};
ghost use Rattle.uc_patterns.specs.Spots.{passed};
ghost use Rattle.uc_tree.specs.Nodes.{ty_nodes};
ghost use Rattle.uc_typing.specs.Scopes.{under, with_variables, with_seen};

use std::alloc::Global;
use uc_base::{Fault, Spot};
use uc_context::{Context, Entry, Open};
use uc_patterns::{State, advance};
use uc_tree::{Ty, type_nodes};

/// Brings a variable of a type into scope. Answers the number of its binder.
pub(crate) fn enter(alloc: Global, state: &mut State, of: &Open) -> Result<u64, Fault>
    ensures number { IfOk result (λ n. n ≡ fresh_number state.old.context) }
    ensures context { IfOk result (λ n. state.new.context ≡ state.old.context ++ Binder n of.now ∷ []) }
    ensures sight { IfOk result (λ n. state.new.sight ≡ under (Some n) state.old.sight) }
    ensures spot { IfOk result (λ _. state.new.spot ≡ state.old.spot) }
    ensures err { IfErr result (λ fault. fault ≡ Memory) }
{
    let number = state.context.fresh();
    state.context.push(Entry::Binder(number, of.copy(alloc)?))?;
    state.sight.bind(Some(number))?;
    Ok(number)
}

/// Takes the innermost variable, which has this binder, out of scope again.
pub(crate) fn leave(alloc: Global, state: &mut State, number: u64, of: &Open) -> Result<(), Fault>
    requires { 1 ≤ length state.old.sight.variables }
    ensures context { OnOk result (state.new.context ≡ dropped_from (Binder number of.now) state.old.context) }
    ensures sight { OnOk result (state.new.sight ≡ with_variables (drop 1 state.old.sight.variables) state.old.sight) }
    ensures spot { OnOk result (state.new.spot ≡ state.old.spot) }
    ensures err { IfErr result (λ fault. fault ≡ Memory) }
{
    let binder = Entry::Binder(number, of.copy(alloc)?);
    state.context.drop_from(&binder);
    let depth = state.sight.depth();
    state.sight.leave(depth - 1);
    Ok(())
}

/// Passes the nodes of a type.
pub(crate) fn pass_type(spot: &mut Spot, ty: &Ty)
    requires { spot.old.node + length (ty_nodes ty.now) < 2 ^ 32 }
    ensures { spot.new ≡ passed spot.old (length (ty_nodes ty.now)) }
{
    advance(spot, type_nodes(ty) as u32);
}
