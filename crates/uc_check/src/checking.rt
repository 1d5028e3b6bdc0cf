//! Terms against types.
ghost use Rattle.std.specs.Prelude.{◌≡◌, true, false, None, Some, length, OnOk, IfOk, IfErr};
ghost use Rattle.uc_context.specs.Contexts.{type_under};
ghost use Rattle.uc_context.specs.Counts.{IsSmall};
ghost use Rattle.uc_context.specs.Opens.{quantified, arrow, tuple, opens_of};
ghost use Rattle.uc_subtyping.specs.Instances.{opens_count};
ghost use Rattle.uc_patterns.specs.Spots.{IsStopped};
ghost use Rattle.uc_soundness.specs.WellFormed.{IsTypeIn};
ghost use Rattle.uc_subtyping.specs.Subtyping.{is_quantified};
ghost use Rattle.uc_tree.specs.Nodes.{term_nodes};
ghost use Rattle.uc_tree.specs.TermViews.{cases_of};
ghost use Rattle.uc_tree.specs.Terms as terms;
ghost use Rattle.uc_tree.specs.Terms.{terms_of};
ghost use Rattle.uc_typing.specs.Fronts.{front_count, list_of};
ghost use Rattle.uc_typing.specs.Stops.{stops, gives_none};
ghost use Rattle.uc_typing.specs.Terms.{terms_count, has_rule_of_form};
ghost use Rattle.uc_check.specs.Walks.{IsAsked, IsChecked, IsFound, unused, ChecksIn, ChecksAgainstIn, ChecksByFormIn, SynthesizesIn, MeetsIn};

use crate::cases::check_cases;
use crate::finding::synthesize;
use crate::forms::has_rule_of_form;
use crate::lists::{check_all_against, check_each};
use crate::scopes::{enter, leave, pass_type};
use crate::uses::uses;
use crate::written::written;
use std::alloc::Global;
use uc_base::{At, Fault};
use uc_context::{Entry, Open, OpenNode, is_small};
use uc_patterns::{State, TargetTypes, advance, apply_at, boolean, open_front, subtype_at};
use uc_tree::{Case, Term, TermNode, Ty};

/// Checks a term against a type.
#[cycle(terms)]
pub(crate) fn check<K: TargetTypes>(
    alloc: Global,
    known: &K,
    state: &mut State,
    term: &Term,
    against: &Open,
) -> Result<(), Fault>
    requires asked { IsAsked (K.known known.now) state.old 0 term.now }
    requires typed { IsTypeIn (K.known known.now).arity state.old.context 0 against.now }
    ensures ok { OnOk result (IsChecked (ChecksIn (K.known known.now) state.old term.now against.now) state.old state.new (length (term_nodes term.now))) }
    ensures err { IfErr result (IsStopped state.old.spot.member (λ stop. ChecksIn (K.known known.now) state.old term.now against.now (stops stop))) }
{
    let against = apply_at(alloc, &state.context, state.spot, against)?;
    check_against(alloc, known, state, term, &against)?;
    Ok(())
}

/// Checks a term against a type in which the solutions are put in.
#[cycle(terms)]
fn check_against<K: TargetTypes>(
    alloc: Global,
    known: &K,
    state: &mut State,
    term: &Term,
    against: &Open,
) -> Result<(), Fault>
    requires asked { IsAsked (K.known known.now) state.old 0 term.now }
    requires typed { IsTypeIn (K.known known.now).arity state.old.context 0 against.now }
    requires small { IsSmall against.now }
    requires current { type_under state.old.context against.now ≡ against.now }
    ensures ok { OnOk result (IsChecked (ChecksAgainstIn (K.known known.now) state.old term.now against.now) state.old state.new (length (term_nodes term.now))) }
    ensures err { IfErr result (IsStopped state.old.spot.member (λ stop. ChecksAgainstIn (K.known known.now) state.old term.now against.now (stops stop))) }
{
    if let OpenNode::Forall(body) = &against.node {
        return check_quantified(alloc, known, state, term, body);
    }
    if has_rule_of_form(term, against) {
        return check_by_form(alloc, known, state, term, against);
    }
    check_by_subtype(alloc, known, state, term, against)
}

/// Checks a term against a quantified type.
#[cycle(terms)]
fn check_quantified<K: TargetTypes>(
    alloc: Global,
    known: &K,
    state: &mut State,
    term: &Term,
    body: &Open,
) -> Result<(), Fault>
    requires asked { IsAsked (K.known known.now) state.old 0 term.now }
    requires typed { IsTypeIn (K.known known.now).arity state.old.context 0 (quantified body.now) }
    requires small { IsSmall (quantified body.now) }
    requires current { type_under state.old.context (quantified body.now) ≡ quantified body.now }
    ensures ok { OnOk result (IsChecked (ChecksAgainstIn (K.known known.now) state.old term.now (quantified body.now)) state.old state.new (length (term_nodes term.now))) }
    ensures err { IfErr result (IsStopped state.old.spot.member (λ stop. ChecksAgainstIn (K.known known.now) state.old term.now (quantified body.now) (stops stop))) }
{
    let number = state.context.fresh();
    state.context.push(Entry::Rigid(number))?;
    let opened = body.opened(alloc, &Open::rigid(number))?;
    check_against(alloc, known, state, term, &opened)?;
    state.context.drop_from(&Entry::Rigid(number));
    Ok(())
}

/// Checks a term against a type by the type that it has found.
#[cycle(terms)]
fn check_by_subtype<K: TargetTypes>(
    alloc: Global,
    known: &K,
    state: &mut State,
    term: &Term,
    against: &Open,
) -> Result<(), Fault>
    requires asked { IsAsked (K.known known.now) state.old 0 term.now }
    requires typed { IsTypeIn (K.known known.now).arity state.old.context 0 against.now }
    requires plain { is_quantified against.now ≡ false }
    requires formless { has_rule_of_form term.now against.now ≡ false }
    ensures ok { OnOk result (IsChecked (ChecksAgainstIn (K.known known.now) state.old term.now against.now) state.old state.new (length (term_nodes term.now))) }
    ensures err { IfErr result (IsStopped state.old.spot.member (λ stop. ChecksAgainstIn (K.known known.now) state.old term.now against.now (stops stop))) }
{
    let here = state.spot;
    let found = synthesize(alloc, known, state, term)?;
    subtype_at(alloc, known, &mut state.context, here, &found, against)?;
    Ok(())
}

/// Checks a term by the rule of its form.
#[cycle(terms)]
pub(crate) fn check_by_form<K: TargetTypes>(
    alloc: Global,
    known: &K,
    state: &mut State,
    term: &Term,
    against: &Open,
) -> Result<(), Fault>
    requires asked { IsAsked (K.known known.now) state.old 0 term.now }
    requires typed { IsTypeIn (K.known known.now).arity state.old.context 0 against.now }
    requires form { has_rule_of_form term.now against.now ≡ true }
    ensures ok { OnOk result (IsChecked (ChecksByFormIn (K.known known.now) state.old term.now against.now) state.old state.new (length (term_nodes term.now))) }
    ensures err { IfErr result (IsStopped state.old.spot.member (λ stop. ChecksByFormIn (K.known known.now) state.old term.now against.now (stops stop))) }
{
    match &term.node {
        TermNode::Lambda(body) => {
            let OpenNode::Arrow(from, to) = &against.node else {
                unreachable!()
            };
            check_lambda(alloc, known, state, body, from, to)
        }
        TermNode::Tuple(parts) => {
            let OpenNode::Tuple(types) = &against.node else {
                unreachable!()
            };
            check_tuple(alloc, known, state, parts, types)
        }
        TermNode::List(elements) => {
            let OpenNode::Data(_, arguments) = &against.node else {
                unreachable!()
            };
            check_list(alloc, known, state, elements, &arguments[0])
        }
        TermNode::If(condition, consequent, alternative) => check_conditional(
            alloc,
            known,
            state,
            condition,
            consequent,
            alternative,
            against,
        ),
        TermNode::Let(signature, bound, body) => match signature {
            Some(signature) => check_signed(alloc, known, state, signature, bound, body, against),
            None => check_unsigned(alloc, known, state, bound, body, against),
        },
        TermNode::Match(subject, cases) => {
            check_match(alloc, known, state, subject, cases, against)
        }
        _ => unreachable!(),
    }
}

/// Checks a lambda against an arrow.
#[cycle(terms)]
fn check_lambda<K: TargetTypes>(
    alloc: Global,
    known: &K,
    state: &mut State,
    body: &Term,
    from: &Open,
    to: &Open,
) -> Result<(), Fault>
    requires asked { IsAsked (K.known known.now) state.old 0 (terms.lambda body.now) }
    requires typed { IsTypeIn (K.known known.now).arity state.old.context 0 (arrow from.now to.now) }
    ensures ok { OnOk result (IsChecked (ChecksByFormIn (K.known known.now) state.old (terms.lambda body.now) (arrow from.now to.now)) state.old state.new (length (term_nodes (terms.lambda body.now)))) }
    ensures err { IfErr result (IsStopped state.old.spot.member (λ stop. ChecksByFormIn (K.known known.now) state.old (terms.lambda body.now) (arrow from.now to.now) (stops stop))) }
{
    let number = enter(alloc, state, from)?;
    advance(&mut state.spot, 1);
    check(alloc, known, state, body, to)?;
    leave(alloc, state, number, from)?;
    Ok(())
}

/// Checks a tuple against a type that has as many parts.
#[cycle(terms)]
fn check_tuple<K: TargetTypes>(
    alloc: Global,
    known: &K,
    state: &mut State,
    parts: &[Term],
    types: &[Open],
) -> Result<(), Fault>
    requires asked { IsAsked (K.known known.now) state.old 0 (terms.tuple (terms_of parts.now)) }
    requires typed { IsTypeIn (K.known known.now).arity state.old.context 0 (tuple (opens_of types.now)) }
    requires as_many { terms_count (terms_of parts.now) ≡ opens_count (opens_of types.now) }
    ensures ok { OnOk result (IsChecked (ChecksByFormIn (K.known known.now) state.old (terms.tuple (terms_of parts.now)) (tuple (opens_of types.now))) state.old state.new (length (term_nodes (terms.tuple (terms_of parts.now))))) }
    ensures err { IfErr result (IsStopped state.old.spot.member (λ stop. ChecksByFormIn (K.known known.now) state.old (terms.tuple (terms_of parts.now)) (tuple (opens_of types.now)) (stops stop))) }
{
    advance(&mut state.spot, 1);
    check_each(alloc, known, state, parts, types)?;
    Ok(())
}

/// Checks a list against the type of lists with elements of a type.
#[cycle(terms)]
fn check_list<K: TargetTypes>(
    alloc: Global,
    known: &K,
    state: &mut State,
    elements: &[Term],
    of: &Open,
) -> Result<(), Fault>
    requires asked { IsAsked (K.known known.now) state.old 0 (terms.list (terms_of elements.now)) }
    requires typed { IsTypeIn (K.known known.now).arity state.old.context 0 (list_of of.now) }
    ensures ok { OnOk result (IsChecked (ChecksByFormIn (K.known known.now) state.old (terms.list (terms_of elements.now)) (list_of of.now)) state.old state.new (length (term_nodes (terms.list (terms_of elements.now))))) }
    ensures err { IfErr result (IsStopped state.old.spot.member (λ stop. ChecksByFormIn (K.known known.now) state.old (terms.list (terms_of elements.now)) (list_of of.now) (stops stop))) }
{
    advance(&mut state.spot, 1);
    check_all_against(alloc, known, state, elements, of)?;
    Ok(())
}

/// Checks a conditional.
#[cycle(terms)]
fn check_conditional<K: TargetTypes>(
    alloc: Global,
    known: &K,
    state: &mut State,
    condition: &Term,
    consequent: &Term,
    alternative: &Term,
    against: &Open,
) -> Result<(), Fault>
    requires asked { IsAsked (K.known known.now) state.old 0 (terms.conditional condition.now consequent.now alternative.now) }
    requires typed { IsTypeIn (K.known known.now).arity state.old.context 0 against.now }
    ensures ok { OnOk result (IsChecked (ChecksByFormIn (K.known known.now) state.old (terms.conditional condition.now consequent.now alternative.now) against.now) state.old state.new (length (term_nodes (terms.conditional condition.now consequent.now alternative.now)))) }
    ensures err { IfErr result (IsStopped state.old.spot.member (λ stop. ChecksByFormIn (K.known known.now) state.old (terms.conditional condition.now consequent.now alternative.now) against.now (stops stop))) }
{
    advance(&mut state.spot, 1);
    check(alloc, known, state, condition, &boolean(alloc))?;
    check(alloc, known, state, consequent, against)?;
    check(alloc, known, state, alternative, against)?;
    Ok(())
}

/// Checks a binding with a signature, and what stands under it.
#[cycle(terms)]
fn check_signed<K: TargetTypes>(
    alloc: Global,
    known: &K,
    state: &mut State,
    signature: &Ty,
    bound: &Term,
    body: &Term,
    against: &Open,
) -> Result<(), Fault>
    requires asked { IsAsked (K.known known.now) state.old 0 (terms.binding (Some signature.now) bound.now body.now) }
    requires typed { IsTypeIn (K.known known.now).arity state.old.context 0 against.now }
    ensures ok { OnOk result (IsChecked (ChecksByFormIn (K.known known.now) state.old (terms.binding (Some signature.now) bound.now body.now) against.now) state.old state.new (length (term_nodes (terms.binding (Some signature.now) bound.now body.now)))) }
    ensures err { IfErr result (IsStopped state.old.spot.member (λ stop. ChecksByFormIn (K.known known.now) state.old (terms.binding (Some signature.now) bound.now body.now) against.now (stops stop))) }
{
    let of = written(alloc, &state.sight, signature)?;
    let number = enter(alloc, state, &of)?;
    advance(&mut state.spot, 1);
    pass_type(&mut state.spot, signature);
    meet(alloc, known, state, bound, &of)?;
    check(alloc, known, state, body, against)?;
    leave(alloc, state, number, &of)?;
    Ok(())
}

/// Checks a binding without a signature, and what stands under it.
#[cycle(terms)]
fn check_unsigned<K: TargetTypes>(
    alloc: Global,
    known: &K,
    state: &mut State,
    bound: &Term,
    body: &Term,
    against: &Open,
) -> Result<(), Fault>
    requires asked { IsAsked (K.known known.now) state.old 0 (terms.binding None bound.now body.now) }
    requires typed { IsTypeIn (K.known known.now).arity state.old.context 0 against.now }
    ensures ok { OnOk result (IsChecked (ChecksByFormIn (K.known known.now) state.old (terms.binding None bound.now body.now) against.now) state.old state.new (length (term_nodes (terms.binding None bound.now body.now)))) }
    ensures err { IfErr result (IsStopped state.old.spot.member (λ stop. ChecksByFormIn (K.known known.now) state.old (terms.binding None bound.now body.now) against.now (stops stop))) }
{
    if uses(0, bound) {
        return Err(Fault::NeedsSignature(At::Spot(state.spot)));
    }
    advance(&mut state.spot, 1);
    let of = synthesize_unbound(alloc, known, state, bound)?;
    let number = enter(alloc, state, &of)?;
    check(alloc, known, state, body, against)?;
    leave(alloc, state, number, &of)?;
    Ok(())
}

/// Finds the type of what is bound, under a variable that it doesn't use.
#[cycle(terms)]
fn synthesize_unbound<K: TargetTypes>(
    alloc: Global,
    known: &K,
    state: &mut State,
    bound: &Term,
) -> Result<Open, Fault>
    requires asked { IsAsked (K.known known.now) (unused state.old) 0 bound.now }
    ensures ok { IfOk result (IsFound (SynthesizesIn (K.known known.now) (unused state.old) bound.now) state.old state.new (length (term_nodes bound.now))) }
    ensures small { IfOk result IsSmall }
    ensures err { IfErr result (IsStopped state.old.spot.member (λ stop. SynthesizesIn (K.known known.now) (unused state.old) bound.now (gives_none stop))) }
{
    let depth = state.sight.depth();
    state.sight.bind(None)?;
    let of = synthesize(alloc, known, state, bound)?;
    state.sight.leave(depth);
    Ok(of)
}

/// Checks a match.
#[cycle(terms)]
fn check_match<K: TargetTypes>(
    alloc: Global,
    known: &K,
    state: &mut State,
    subject: &Term,
    cases: &[Case],
    against: &Open,
) -> Result<(), Fault>
    requires asked { IsAsked (K.known known.now) state.old 0 (terms.match subject.now (cases_of cases.now)) }
    requires typed { IsTypeIn (K.known known.now).arity state.old.context 0 against.now }
    ensures ok { OnOk result (IsChecked (ChecksByFormIn (K.known known.now) state.old (terms.match subject.now (cases_of cases.now)) against.now) state.old state.new (length (term_nodes (terms.match subject.now (cases_of cases.now))))) }
    ensures err { IfErr result (IsStopped state.old.spot.member (λ stop. ChecksByFormIn (K.known known.now) state.old (terms.match subject.now (cases_of cases.now)) against.now (stops stop))) }
{
    advance(&mut state.spot, 1);
    let found = synthesize(alloc, known, state, subject)?;
    let matched = open_front(alloc, &mut state.context, &found)?;
    check_cases(alloc, known, state, cases, &matched, against)?;
    Ok(())
}

/// Checks a body against its signature.
#[cycle(terms)]
pub(crate) fn meet<K: TargetTypes>(
    alloc: Global,
    known: &K,
    state: &mut State,
    term: &Term,
    signature: &Open,
) -> Result<(), Fault>
    requires asked { IsAsked (K.known known.now) state.old (front_count signature.now) term.now }
    requires typed { IsTypeIn (K.known known.now).arity state.old.context 0 signature.now }
    ensures ok { OnOk result (IsChecked (MeetsIn (K.known known.now) state.old term.now signature.now) state.old state.new (length (term_nodes term.now))) }
    ensures err { IfErr result (IsStopped state.old.spot.member (λ stop. MeetsIn (K.known known.now) state.old term.now signature.now (stops stop))) }
{
    if let OpenNode::Forall(body) = &signature.node {
        if !is_small(signature) {
            return Err(Fault::TypeTooLarge(At::Spot(state.spot)));
        }
        return meet_quantified(alloc, known, state, term, body);
    }
    let met = check(alloc, known, state, term, signature)?;
    Ok(met)
}

/// Checks a body against its signature under a variable that annotations see.
#[cycle(terms)]
fn meet_quantified<K: TargetTypes>(
    alloc: Global,
    known: &K,
    state: &mut State,
    term: &Term,
    body: &Open,
) -> Result<(), Fault>
    requires asked { IsAsked (K.known known.now) state.old (front_count (quantified body.now)) term.now }
    requires typed { IsTypeIn (K.known known.now).arity state.old.context 0 (quantified body.now) }
    requires small { IsSmall (quantified body.now) }
    ensures ok { OnOk result (IsChecked (MeetsIn (K.known known.now) state.old term.now (quantified body.now)) state.old state.new (length (term_nodes term.now))) }
    ensures err { IfErr result (IsStopped state.old.spot.member (λ stop. MeetsIn (K.known known.now) state.old term.now (quantified body.now) (stops stop))) }
{
    let number = state.context.fresh();
    state.context.push(Entry::Rigid(number))?;
    state.sight.show(number)?;
    let opened = body.opened(alloc, &Open::rigid(number))?;
    meet(alloc, known, state, term, &opened)?;
    state.sight.hide();
    state.context.drop_from(&Entry::Rigid(number));
    Ok(())
}
