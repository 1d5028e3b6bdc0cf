//! Patterns against types.
ghost use Rattle.std.specs.Prelude.{◌≡◌, ◌+◌, ◌<◌, ◌^◌, ◌++◌, ◌∷◌, [], Some, length, OnOk, IfOk, IfErr};
ghost use Rattle.uc_base.specs.declared.fault.Fault.TheVariants.{Memory};
ghost use Rattle.uc_context.specs.Fresh.{fresh_number};
ghost use Rattle.uc_context.specs.Opens.{opens_of, none, more};
ghost use Rattle.uc_context.specs.declared.entry.Entry.TheVariants.{Binder};
ghost use Rattle.uc_soundness.specs.WellFormed.{IsTypeIn};
ghost use Rattle.uc_sound_typing.specs.Formed.{IsFormedPattern, AreFormedPatterns, IsTyped, IsConstructorType};
ghost use Rattle.uc_subtyping.specs.Outcomes.{done, refused, Refusal};
ghost use Rattle.uc_subtyping.specs.Subtyping.{SolvesSubtypes};
ghost use Rattle.uc_tree.specs.Nodes.{pattern_nodes, patterns_nodes};
ghost use Rattle.uc_tree.specs.Patterns as patterns;
ghost use Rattle.uc_tree.specs.Patterns.{patterns_of};
ghost use Rattle.uc_tree.specs.Types.{Ty};
ghost use Rattle.uc_kinds.specs.PatternTyping.{target_type};
ghost use Rattle.uc_typing.specs.Fronts as spec;
ghost use Rattle.uc_typing.specs.Scopes.{under};
ghost use Rattle.uc_typing.specs.Stops.{unmatched, stop_at};
ghost use Rattle.uc_patterns.specs.Asking.{IsKnown};
ghost use Rattle.uc_patterns.specs.Spots.{IsStopped, passed};
ghost use Rattle.uc_patterns.specs.Walks.{IsReady, AreTypes, IsFreshInstance, Matches, MatchesAll, IsMatched, AreMatched};

use crate::declaring::{declare, declare_all, existentials, open_front};
use crate::fronts::{arguments_of, list_of, literal_type, result_of};
use crate::lookups::TargetTypes;
use crate::solving::subtype_at;
use crate::spots::advance;
use crate::state::State;
use std::alloc::{AllocError, Global};
use uc_base::{At, Fault};
use uc_context::{Context, Entry, Open};
use uc_tree::{Literal, Pattern, PatternNode, Target};

/// Binds a variable of a type, and passes its node.
fn bind(alloc: Global, state: &mut State, of: &Open) -> Result<(), Fault>
    requires { state.old.spot.node + 1 < 2 ^ 32 }
    ensures ok { OnOk result (state.new ≡ record { context = state.old.context ++ Binder (fresh_number state.old.context) of.now ∷ []; sight = under (Some (fresh_number state.old.context)) state.old.sight; spot = passed state.old.spot 1 }) }
    ensures err { IfErr result (λ fault. fault ≡ Memory) }
{
    let number = state.context.fresh();
    state.context.push(Entry::Binder(number, of.copy(alloc)?))?;
    state.sight.bind(Some(number))?;
    advance(&mut state.spot, 1);
    Ok(())
}

/// Makes a type a subtype of what a pattern expects, and passes the node of the pattern.
fn expect<K: TargetTypes>(
    alloc: Global,
    known: &K,
    state: &mut State,
    against: &Open,
    expected: &Open,
) -> Result<(), Fault>
    requires ready { IsReady (K.known known.now) state.old }
    requires lower { IsTypeIn (K.known known.now).arity state.old.context 0 against.now }
    requires upper { IsTypeIn (K.known known.now).arity state.old.context 0 expected.now }
    requires nodes { state.old.spot.node + 1 < 2 ^ 32 }
    ensures ok { OnOk result (SolvesSubtypes state.old.context (more against.now none) (more expected.now none) (done state.new.context)) }
    ensures sight { OnOk result (state.new.sight ≡ state.old.sight) }
    ensures spot { OnOk result (state.new.spot ≡ passed state.old.spot 1) }
    ensures err { IfErr result (IsStopped state.old.spot.member (λ stop. (why : Refusal) × (stop ≡ stop_at state.old.spot.node why) × SolvesSubtypes state.old.context (more against.now none) (more expected.now none) (refused why))) }
{
    subtype_at(
        alloc,
        known,
        &mut state.context,
        state.spot,
        against,
        expected,
    )?;
    advance(&mut state.spot, 1);
    Ok(())
}

/// Matches the pattern of a literal.
fn match_literal<K: TargetTypes>(
    alloc: Global,
    known: &K,
    state: &mut State,
    literal: &Literal,
    against: &Open,
) -> Result<(), Fault>
    requires ready { IsReady (K.known known.now) state.old }
    requires typed { IsTypeIn (K.known known.now).arity state.old.context 0 against.now }
    requires nodes { state.old.spot.node + 1 < 2 ^ 32 }
    ensures ok { OnOk result (IsMatched (K.known known.now) state.old state.new (patterns.literal literal.now) against.now) }
    ensures err { IfErr result (IsStopped state.old.spot.member (λ stop. Matches (K.known known.now) state.old (patterns.literal literal.now) against.now (unmatched stop))) }
{
    let expected = literal_type(alloc, literal);
    expect(alloc, known, state, against, &expected)?;
    Ok(())
}

/// Matches the pattern of the unit.
fn match_unit<K: TargetTypes>(
    alloc: Global,
    known: &K,
    state: &mut State,
    against: &Open,
) -> Result<(), Fault>
    requires ready { IsReady (K.known known.now) state.old }
    requires typed { IsTypeIn (K.known known.now).arity state.old.context 0 against.now }
    requires nodes { state.old.spot.node + 1 < 2 ^ 32 }
    ensures ok { OnOk result (IsMatched (K.known known.now) state.old state.new patterns.unit against.now) }
    ensures err { IfErr result (IsStopped state.old.spot.member (λ stop. Matches (K.known known.now) state.old patterns.unit against.now (unmatched stop))) }
{
    let expected = Open::unit();
    expect(alloc, known, state, against, &expected)?;
    Ok(())
}

/// Matches a pattern against a type. Its variables come into sight.
#[cycle(patterns)]
pub fn match_pattern<K: TargetTypes>(
    alloc: Global,
    known: &K,
    state: &mut State,
    pattern: &Pattern,
    against: &Open,
) -> Result<(), Fault>
    requires ready { IsReady (K.known known.now) state.old }
    requires pattern { IsFormedPattern (K.known known.now) pattern.now }
    requires typed { IsTypeIn (K.known known.now).arity state.old.context 0 against.now }
    requires nodes { state.old.spot.node + length (pattern_nodes pattern.now) < 2 ^ 32 }
    ensures ok { OnOk result (IsMatched (K.known known.now) state.old state.new pattern.now against.now) }
    ensures err { IfErr result (IsStopped state.old.spot.member (λ stop. Matches (K.known known.now) state.old pattern.now against.now (unmatched stop))) }
{
    match &pattern.node {
        PatternNode::Any => {
            advance(&mut state.spot, 1);
            Ok(())
        }
        PatternNode::Var => bind(alloc, state, against),
        PatternNode::As(inside) => {
            bind(alloc, state, against)?;
            match_pattern(alloc, known, state, inside, against)?;
            Ok(())
        }
        PatternNode::Literal(literal) => match_literal(alloc, known, state, literal, against),
        PatternNode::Unit => match_unit(alloc, known, state, against),
        PatternNode::Tuple(parts) => match_tuple(alloc, known, state, parts, against),
        PatternNode::List(elements) => match_list(alloc, known, state, elements, against),
        PatternNode::Ctor(target, fields) => {
            match_constructor(alloc, known, state, target, fields, against)
        }
        PatternNode::Cons(first, rest) => { match_cons(alloc, known, state, first, rest, against) }
        PatternNode::Snoc(front, last) => { match_snoc(alloc, known, state, front, last, against) }
    }
}

/// Matches the pattern of a tuple.
#[cycle(patterns)]
fn match_tuple<K: TargetTypes>(
    alloc: Global,
    known: &K,
    state: &mut State,
    parts: &[Pattern],
    against: &Open,
) -> Result<(), Fault>
    requires ready { IsReady (K.known known.now) state.old }
    requires pattern { AreFormedPatterns (K.known known.now) (patterns_of parts.now) }
    requires typed { IsTypeIn (K.known known.now).arity state.old.context 0 against.now }
    requires nodes { state.old.spot.node + 1 + length (patterns_nodes (patterns_of parts.now)) < 2 ^ 32 }
    ensures ok { OnOk result (IsMatched (K.known known.now) state.old state.new (patterns.tuple (patterns_of parts.now)) against.now) }
    ensures err { IfErr result (IsStopped state.old.spot.member (λ stop. Matches (K.known known.now) state.old (patterns.tuple (patterns_of parts.now)) against.now (unmatched stop))) }
{
    let numbers = declare_all(alloc, &mut state.context, parts.len())?;
    let parts_expected = existentials(alloc, &numbers)?;
    let expected = Open::tuple(parts_expected);
    expect(alloc, known, state, against, &expected)?;
    let types = existentials(alloc, &numbers)?;
    match_each(alloc, known, state, parts, &types)?;
    Ok(())
}

/// A type so many times.
fn repeated(alloc: Global, count: usize, of: &Open) -> Result<Vec<Open>, AllocError>
    ensures { IfOk result (λ ts. opens_of ts.items ≡ spec.repeated count of.now) }
{
    let mut types = Vec::new(alloc);
    for _ in 0..count {
        types.push(of.copy(alloc)?)?;
    }
    Ok(types)
}

/// Matches the pattern of a list of so many elements.
#[cycle(patterns)]
fn match_list<K: TargetTypes>(
    alloc: Global,
    known: &K,
    state: &mut State,
    elements: &[Pattern],
    against: &Open,
) -> Result<(), Fault>
    requires ready { IsReady (K.known known.now) state.old }
    requires pattern { AreFormedPatterns (K.known known.now) (patterns_of elements.now) }
    requires typed { IsTypeIn (K.known known.now).arity state.old.context 0 against.now }
    requires nodes { state.old.spot.node + 1 + length (patterns_nodes (patterns_of elements.now)) < 2 ^ 32 }
    ensures ok { OnOk result (IsMatched (K.known known.now) state.old state.new (patterns.list (patterns_of elements.now)) against.now) }
    ensures err { IfErr result (IsStopped state.old.spot.member (λ stop. Matches (K.known known.now) state.old (patterns.list (patterns_of elements.now)) against.now (unmatched stop))) }
{
    let number = declare(&mut state.context)?;
    let expected = list_of(alloc, Open::existential(number))?;
    expect(alloc, known, state, against, &expected)?;
    let element = Open::existential(number);
    let types = repeated(alloc, elements.len(), &element)?;
    match_each(alloc, known, state, elements, &types)?;
    Ok(())
}

/// The type of a constructor with new existentials for its parameters.
fn constructor_type<K: TargetTypes>(
    alloc: Global,
    known: &K,
    context: &mut Context,
    target: &Target,
) -> Result<Open, Fault>
    requires known { IsKnown (K.known known.now) }
    requires typed { IsTyped IsConstructorType (K.known known.now) target.now }
    ensures ok { IfOk result (λ t. (ty : Ty) → target_type (K.known known.now) target.now ≡ Some ty → IsFreshInstance context.old context.new ty t) }
    ensures err { IfErr result (λ fault. fault ≡ Memory) }
{
    match known.type_of(target) {
        Some(ty) => {
            let closed = Open::from_ty(alloc, ty)?;
            let opened = open_front(alloc, context, &closed)?;
            Ok(opened)
        }
        None => unreachable!(),
    }
}

/// Matches the pattern of a constructor.
#[cycle(patterns)]
fn match_constructor<K: TargetTypes>(
    alloc: Global,
    known: &K,
    state: &mut State,
    target: &Target,
    fields: &[Pattern],
    against: &Open,
) -> Result<(), Fault>
    requires ready { IsReady (K.known known.now) state.old }
    requires constructor { IsTyped IsConstructorType (K.known known.now) target.now }
    requires pattern { AreFormedPatterns (K.known known.now) (patterns_of fields.now) }
    requires typed { IsTypeIn (K.known known.now).arity state.old.context 0 against.now }
    requires nodes { state.old.spot.node + 1 + length (patterns_nodes (patterns_of fields.now)) < 2 ^ 32 }
    ensures ok { OnOk result (IsMatched (K.known known.now) state.old state.new (patterns.constructor target.now (patterns_of fields.now)) against.now) }
    ensures err { IfErr result (IsStopped state.old.spot.member (λ stop. Matches (K.known known.now) state.old (patterns.constructor target.now (patterns_of fields.now)) against.now (unmatched stop))) }
{
    let here = state.spot;
    let constructor = constructor_type(alloc, known, &mut state.context, target)?;
    let expected = result_of(&constructor);
    expect(alloc, known, state, against, expected)?;
    let types = arguments_of(alloc, &constructor)?;
    if fields.len() != types.len() {
        return Err(Fault::IllTyped(At::Spot(here)));
    }
    match_each(alloc, known, state, fields, &types)?;
    Ok(())
}

/// Matches the pattern of a first element and the rest of a list.
#[cycle(patterns)]
fn match_cons<K: TargetTypes>(
    alloc: Global,
    known: &K,
    state: &mut State,
    first: &Pattern,
    rest: &Pattern,
    against: &Open,
) -> Result<(), Fault>
    requires ready { IsReady (K.known known.now) state.old }
    requires first { IsFormedPattern (K.known known.now) first.now }
    requires rest { IsFormedPattern (K.known known.now) rest.now }
    requires typed { IsTypeIn (K.known known.now).arity state.old.context 0 against.now }
    requires nodes { state.old.spot.node + 1 + length (pattern_nodes first.now) + length (pattern_nodes rest.now) < 2 ^ 32 }
    ensures ok { OnOk result (IsMatched (K.known known.now) state.old state.new (patterns.cons first.now rest.now) against.now) }
    ensures err { IfErr result (IsStopped state.old.spot.member (λ stop. Matches (K.known known.now) state.old (patterns.cons first.now rest.now) against.now (unmatched stop))) }
{
    let number = declare(&mut state.context)?;
    let list = list_of(alloc, Open::existential(number))?;
    expect(alloc, known, state, against, &list)?;
    let element = Open::existential(number);
    match_pattern(alloc, known, state, first, &element)?;
    match_pattern(alloc, known, state, rest, &list)?;
    Ok(())
}

/// Matches the pattern of the front and the last element of a list.
#[cycle(patterns)]
fn match_snoc<K: TargetTypes>(
    alloc: Global,
    known: &K,
    state: &mut State,
    front: &Pattern,
    last: &Pattern,
    against: &Open,
) -> Result<(), Fault>
    requires ready { IsReady (K.known known.now) state.old }
    requires front { IsFormedPattern (K.known known.now) front.now }
    requires last { IsFormedPattern (K.known known.now) last.now }
    requires typed { IsTypeIn (K.known known.now).arity state.old.context 0 against.now }
    requires nodes { state.old.spot.node + 1 + length (pattern_nodes front.now) + length (pattern_nodes last.now) < 2 ^ 32 }
    ensures ok { OnOk result (IsMatched (K.known known.now) state.old state.new (patterns.snoc front.now last.now) against.now) }
    ensures err { IfErr result (IsStopped state.old.spot.member (λ stop. Matches (K.known known.now) state.old (patterns.snoc front.now last.now) against.now (unmatched stop))) }
{
    let number = declare(&mut state.context)?;
    let list = list_of(alloc, Open::existential(number))?;
    expect(alloc, known, state, against, &list)?;
    match_pattern(alloc, known, state, front, &list)?;
    let element = Open::existential(number);
    match_pattern(alloc, known, state, last, &element)?;
    Ok(())
}

/// Matches patterns against as many types, one after another.
#[cycle(patterns)]
fn match_each<K: TargetTypes>(
    alloc: Global,
    known: &K,
    state: &mut State,
    patterns: &[Pattern],
    types: &[Open],
) -> Result<(), Fault>
    requires ready { IsReady (K.known known.now) state.old }
    requires patterns { AreFormedPatterns (K.known known.now) (patterns_of patterns.now) }
    requires typed { AreTypes (K.known known.now).arity state.old.context (opens_of types.now) }
    requires as_many { length patterns.now ≡ length types.now }
    requires nodes { state.old.spot.node + length (patterns_nodes (patterns_of patterns.now)) < 2 ^ 32 }
    ensures ok { OnOk result (AreMatched (K.known known.now) state.old state.new (patterns_of patterns.now) (opens_of types.now)) }
    ensures err { IfErr result (IsStopped state.old.spot.member (λ stop. MatchesAll (K.known known.now) state.old (patterns_of patterns.now) (opens_of types.now) (unmatched stop))) }
{
    for at in 0..patterns.len() {
        match_pattern(alloc, known, state, &patterns[at], &types[at])?;
    }
    Ok(())
}
