//! Applications.
ghost use Rattle.std.specs.Prelude.{◌≡◌, length, IfOk, IfErr};
ghost use Rattle.uc_context.specs.Counts.{IsSmall};
ghost use Rattle.uc_context.specs.Opens.{existential, quantified};
ghost use Rattle.uc_patterns.specs.Spots.{IsStopped};
ghost use Rattle.uc_soundness.specs.WellFormed.{IsTypeIn};
ghost use Rattle.uc_tree.specs.Nodes.{term_nodes};
ghost use Rattle.uc_tree.specs.Terms as terms;
ghost use Rattle.uc_typing.specs.Stops.{gives_none};
ghost use Rattle.uc_check.specs.Walks.{IsAsked, IsFound, FindsIn, AppliesIn};

use crate::checking::check;
use crate::finding::synthesize;
use std::alloc::Global;
use uc_base::{At, Fault, Spot};
use uc_context::{Open, OpenNode};
use uc_patterns::{State, TargetTypes, advance, declare};
use uc_tree::Term;

/// The type of an application.
#[cycle(terms)]
pub(crate) fn find_application<K: TargetTypes>(
    alloc: Global,
    known: &K,
    state: &mut State,
    function: &Term,
    argument: &Term,
) -> Result<Open, Fault>
    requires asked { IsAsked (K.known known.now) state.old 0 (terms.apply function.now argument.now) }
    ensures ok { IfOk result (IsFound (FindsIn (K.known known.now) state.old (terms.apply function.now argument.now)) state.old state.new (length (term_nodes (terms.apply function.now argument.now)))) }
    ensures err { IfErr result (IsStopped state.old.spot.member (λ stop. FindsIn (K.known known.now) state.old (terms.apply function.now argument.now) (gives_none stop))) }
{
    let here = state.spot;
    advance(&mut state.spot, 1);
    let of = synthesize(alloc, known, state, function)?;
    let found = apply_function(alloc, known, state, here, &of, argument)?;
    Ok(found)
}

/// The type of what a function of a type gives, in an application at a spot.
#[cycle(terms)]
fn apply_function<K: TargetTypes>(
    alloc: Global,
    known: &K,
    state: &mut State,
    here: Spot,
    function: &Open,
    argument: &Term,
) -> Result<Open, Fault>
    requires asked { IsAsked (K.known known.now) state.old 0 argument.now }
    requires typed { IsTypeIn (K.known known.now).arity state.old.context 0 function.now }
    requires small { IsSmall function.now }
    requires member { here.member ≡ state.old.spot.member }
    ensures ok { IfOk result (IsFound (AppliesIn (K.known known.now) state.old here.node function.now argument.now) state.old state.new (length (term_nodes argument.now))) }
    ensures err { IfErr result (IsStopped state.old.spot.member (λ stop. AppliesIn (K.known known.now) state.old here.node function.now argument.now (gives_none stop))) }
{
    match &function.node {
        OpenNode::Forall(body) => apply_quantified(alloc, known, state, here, body, argument),
        OpenNode::Arrow(from, to) => {
            check(alloc, known, state, argument, from)?;
            let found = to.copy(alloc)?;
            Ok(found)
        }
        OpenNode::Exists(which) => apply_existential(alloc, known, state, here, *which, argument),
        _ => Err(Fault::IllTyped(At::Spot(here))),
    }
}

/// The type of what a function of a quantified type gives.
#[cycle(terms)]
fn apply_quantified<K: TargetTypes>(
    alloc: Global,
    known: &K,
    state: &mut State,
    here: Spot,
    body: &Open,
    argument: &Term,
) -> Result<Open, Fault>
    requires asked { IsAsked (K.known known.now) state.old 0 argument.now }
    requires typed { IsTypeIn (K.known known.now).arity state.old.context 0 (quantified body.now) }
    requires small { IsSmall (quantified body.now) }
    requires member { here.member ≡ state.old.spot.member }
    ensures ok { IfOk result (IsFound (AppliesIn (K.known known.now) state.old here.node (quantified body.now) argument.now) state.old state.new (length (term_nodes argument.now))) }
    ensures err { IfErr result (IsStopped state.old.spot.member (λ stop. AppliesIn (K.known known.now) state.old here.node (quantified body.now) argument.now (gives_none stop))) }
{
    let number = declare(&mut state.context)?;
    let opened = body.opened(alloc, &Open::existential(number))?;
    let found = apply_function(alloc, known, state, here, &opened, argument)?;
    Ok(found)
}

/// The type of what a function of an existential type gives, which is solved by an arrow.
#[cycle(terms)]
fn apply_existential<K: TargetTypes>(
    alloc: Global,
    known: &K,
    state: &mut State,
    here: Spot,
    which: u64,
    argument: &Term,
) -> Result<Open, Fault>
    requires asked { IsAsked (K.known known.now) state.old 0 argument.now }
    requires member { here.member ≡ state.old.spot.member }
    ensures ok { IfOk result (IsFound (AppliesIn (K.known known.now) state.old here.node (existential which) argument.now) state.old state.new (length (term_nodes argument.now))) }
    ensures err { IfErr result (IsStopped state.old.spot.member (λ stop. AppliesIn (K.known known.now) state.old here.node (existential which) argument.now (gives_none stop))) }
{
    if !state.context.is_unsolved(which) {
        return Err(Fault::IllTyped(At::Spot(here)));
    }
    let (from, to) = state.context.solve_with_arrow(alloc, which)?;
    let parameter = Open::existential(from);
    check(alloc, known, state, argument, &parameter)?;
    Ok(Open::existential(to))
}
