//! The cases of a match.
ghost use Rattle.std.specs.Prelude.{◌≡◌, ◌+◌, length, OnOk, IfErr};
ghost use Rattle.uc_patterns.specs.Spots.{IsStopped};
ghost use Rattle.uc_soundness.specs.WellFormed.{IsTypeIn};
ghost use Rattle.uc_tree.specs.Nodes.{pattern_nodes, terms_nodes, cases_nodes};
ghost use Rattle.uc_tree.specs.TermViews.{case_with, cases_of};
ghost use Rattle.uc_tree.specs.Terms.{no_case};
ghost use Rattle.uc_typing.specs.Stops.{stops};
ghost use Rattle.uc_check.specs.Walks.{AreAsked, AreAskedCases, IsChecked, ChecksAllIn, ChecksCasesIn, ChecksCaseIn, case_terms, case_types};

use crate::checking::check;
use std::alloc::Global;
use uc_base::Fault;
use uc_context::{Entry, Open};
use uc_patterns::{State, TargetTypes, boolean, match_pattern};
use uc_tree::{Case, Term};

/// Checks cases one after another: patterns against the first type, bodies against the second.
#[cycle(terms)]
pub(crate) fn check_cases<K: TargetTypes>(
    alloc: Global,
    known: &K,
    state: &mut State,
    cases: &[Case],
    matched: &Open,
    against: &Open,
) -> Result<(), Fault>
    requires asked { AreAskedCases (K.known known.now) state.old (cases_of cases.now) }
    requires subject { IsTypeIn (K.known known.now).arity state.old.context 0 matched.now }
    requires typed { IsTypeIn (K.known known.now).arity state.old.context 0 against.now }
    ensures ok { OnOk result (IsChecked (ChecksCasesIn (K.known known.now) state.old (cases_of cases.now) matched.now against.now) state.old state.new (length (cases_nodes (cases_of cases.now)))) }
    ensures err { IfErr result (IsStopped state.old.spot.member (λ stop. ChecksCasesIn (K.known known.now) state.old (cases_of cases.now) matched.now against.now (stops stop))) }
{
    for case in cases {
        check_case(alloc, known, state, case, matched, against)?;
    }
    Ok(())
}

/// Checks a case: its guard and its body stand under the variables of its pattern.
#[cycle(terms)]
fn check_case<K: TargetTypes>(
    alloc: Global,
    known: &K,
    state: &mut State,
    case: &Case,
    matched: &Open,
    against: &Open,
) -> Result<(), Fault>
    requires asked { AreAskedCases (K.known known.now) state.old (case_with case.now.pattern case.now.guard case.now.body no_case) }
    requires subject { IsTypeIn (K.known known.now).arity state.old.context 0 matched.now }
    requires typed { IsTypeIn (K.known known.now).arity state.old.context 0 against.now }
    ensures ok { OnOk result (IsChecked (ChecksCaseIn (K.known known.now) state.old case.now.pattern (case_terms case.now.guard case.now.body) matched.now (case_types case.now.guard against.now)) state.old state.new (length (pattern_nodes case.now.pattern) + length (terms_nodes (case_terms case.now.guard case.now.body)))) }
    ensures err { IfErr result (IsStopped state.old.spot.member (λ stop. ChecksCaseIn (K.known known.now) state.old case.now.pattern (case_terms case.now.guard case.now.body) matched.now (case_types case.now.guard against.now) (stops stop))) }
{
    let number = state.context.fresh();
    let depth = state.sight.depth();
    state.context.push(Entry::Mark(number))?;
    match_pattern(alloc, known, state, &case.pattern, matched)?;
    check_guarded(alloc, known, state, &case.guard, &case.body, against)?;
    state.sight.leave(depth);
    state.context.drop_from(&Entry::Mark(number));
    Ok(())
}

/// Checks a guard, where there is one, and a body.
#[cycle(terms)]
fn check_guarded<K: TargetTypes>(
    alloc: Global,
    known: &K,
    state: &mut State,
    guard: &Option<Term>,
    body: &Term,
    against: &Open,
) -> Result<(), Fault>
    requires asked { AreAsked (K.known known.now) state.old (case_terms guard.now body.now) }
    requires typed { IsTypeIn (K.known known.now).arity state.old.context 0 against.now }
    ensures ok { OnOk result (IsChecked (ChecksAllIn (K.known known.now) state.old (case_terms guard.now body.now) (case_types guard.now against.now)) state.old state.new (length (terms_nodes (case_terms guard.now body.now)))) }
    ensures err { IfErr result (IsStopped state.old.spot.member (λ stop. ChecksAllIn (K.known known.now) state.old (case_terms guard.now body.now) (case_types guard.now against.now) (stops stop))) }
{
    match guard {
        None => {
            check(alloc, known, state, body, against)?;
            Ok(())
        }
        Some(guard) => {
            check(alloc, known, state, guard, &boolean(alloc))?;
            check(alloc, known, state, body, against)?;
            Ok(())
        }
    }
}
