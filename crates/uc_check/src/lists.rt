//! Several terms, one after another.
ghost use Rattle.std.specs.Prelude.{◌≡◌, length, OnOk, IfErr};
ghost use Rattle.uc_context.specs.Opens.{opens_of};
ghost use Rattle.uc_patterns.specs.Spots.{IsStopped};
ghost use Rattle.uc_patterns.specs.Walks.{AreTypes};
ghost use Rattle.uc_soundness.specs.WellFormed.{IsTypeIn};
ghost use Rattle.uc_tree.specs.Nodes.{terms_nodes};
ghost use Rattle.uc_tree.specs.Terms.{terms_of};
ghost use Rattle.uc_typing.specs.Fronts.{repeated};
ghost use Rattle.uc_typing.specs.Stops.{stops};
ghost use Rattle.uc_check.specs.Walks.{AreAsked, IsChecked, ChecksAllIn};

use crate::checking::check;
use std::alloc::Global;
use uc_base::Fault;
use uc_context::Open;
use uc_patterns::{State, TargetTypes};
use uc_tree::Term;

/// Checks terms against as many types, one after another.
#[cycle(terms)]
pub(crate) fn check_each<K: TargetTypes>(
    alloc: Global,
    known: &K,
    state: &mut State,
    terms: &[Term],
    types: &[Open],
) -> Result<(), Fault>
    requires asked { AreAsked (K.known known.now) state.old (terms_of terms.now) }
    requires typed { AreTypes (K.known known.now).arity state.old.context (opens_of types.now) }
    requires as_many { length terms.now ≡ length types.now }
    ensures ok { OnOk result (IsChecked (ChecksAllIn (K.known known.now) state.old (terms_of terms.now) (opens_of types.now)) state.old state.new (length (terms_nodes (terms_of terms.now)))) }
    ensures err { IfErr result (IsStopped state.old.spot.member (λ stop. ChecksAllIn (K.known known.now) state.old (terms_of terms.now) (opens_of types.now) (stops stop))) }
{
    for at in 0..terms.len() {
        check(alloc, known, state, &terms[at], &types[at])?;
    }
    Ok(())
}

/// Checks terms against one type, one after another.
#[cycle(terms)]
pub(crate) fn check_all_against<K: TargetTypes>(
    alloc: Global,
    known: &K,
    state: &mut State,
    terms: &[Term],
    against: &Open,
) -> Result<(), Fault>
    requires asked { AreAsked (K.known known.now) state.old (terms_of terms.now) }
    requires typed { IsTypeIn (K.known known.now).arity state.old.context 0 against.now }
    ensures ok { OnOk result (IsChecked (ChecksAllIn (K.known known.now) state.old (terms_of terms.now) (repeated (length terms.now) against.now)) state.old state.new (length (terms_nodes (terms_of terms.now)))) }
    ensures err { IfErr result (IsStopped state.old.spot.member (λ stop. ChecksAllIn (K.known known.now) state.old (terms_of terms.now) (repeated (length terms.now) against.now) (stops stop))) }
{
    for term in terms {
        check(alloc, known, state, term, against)?;
    }
    Ok(())
}
