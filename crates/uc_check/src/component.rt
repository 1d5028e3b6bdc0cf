//! Components and watches.
ghost use Rattle.std.specs.Prelude.{◌≡◌, ◌<◌, ◌^◌, [], ◌∷◌, None, length, IfOk, IfErr};
ghost use Rattle.uc_base.specs.declared.fault.Fault.TheVariants.{Memory};
ghost use Rattle.std.specs.List.{list_any};
ghost use Rattle.uc_check.specs.Answers.{known_by, IsCheckable, IsCheckableWatch, IsFaultOf, AreTyped, IsAnswer, AreAnswers};
ghost use Rattle.uc_kinds.specs.Typing.{DefinitionHasType};
ghost use Rattle.uc_tree.specs.Targets.{term_targets};
ghost use Rattle.uc_typing.specs.Components as spec;
ghost use Rattle.uc_typing.specs.Components.{HasOutcome, HasWatchOutcome, is_own, types, with_members};

use crate::members::{Members, type_found, type_of_member};
use std::alloc::Global;
use uc_base::{At, Fault, Spot};
use uc_tree::{Definition, Env, Item, Target, Term, Ty, targets_of};

/// Whether a body refers to a member of its own component.
fn refers_to_members(alloc: Global, body: &Term) -> Result<bool, Fault>
    ensures ok { IfOk result (λ refers. refers ≡ list_any is_own (term_targets body.now)) }
    ensures err { IfErr result (λ fault. fault ≡ Memory) }
{
    let item = Item::Term(Definition {
        signature: None,
        body: body.copy(alloc)?,
    });
    let targets = targets_of(alloc, &item)?;
    for target in &targets {
        if let Target::Own(_) = target {
            return Ok(true);
        }
    }
    Ok(false)
}

/// Whether members refer to each other in a cycle.
fn is_cycle(alloc: Global, members: &[Definition]) -> Result<bool, Fault>
    ensures ok { IfOk result (λ cycle. cycle ≡ spec.is_cycle members.now) }
    ensures err { IfErr result (λ fault. fault ≡ Memory) }
{
    match members {
        [] => Ok(false),
        [only] => refers_to_members(alloc, &only.body),
        _ => Ok(true),
    }
}

/// The number of the first member without a signature that needs one.
pub(crate) fn missing_signature(alloc: Global, members: &[Definition]) -> Result<Option<u32>, Fault>
    requires { length members.now < 2 ^ 32 }
    ensures ok { IfOk result (λ missing. missing ≡ spec.missing_signature members.now) }
    ensures err { IfErr result (λ fault. fault ≡ Memory) }
{
    if !is_cycle(alloc, members)? {
        return Ok(None);
    }
    for (number, member) in members.iter().enumerate() {
        if member.signature.is_none() {
            return Ok(Some(number as u32));
        }
    }
    Ok(None)
}

/// The types of the members of a component, in their order: `NeedsSignature`, `IllTyped` and
/// `TypeTooLarge` come with their spot.
pub fn check_component<E: Env>(
    alloc: Global,
    env: &E,
    members: &[Definition],
) -> Result<Vec<Ty>, Fault>
    requires { IsCheckable (known_by (E.arity_of env.now) (E.type_at env.now)) members.now }
    ensures ok { IfOk result (λ tys. HasOutcome (known_by (E.arity_of env.now) (E.type_at env.now)) members.now (types tys.items)) }
    ensures sound { IfOk result (λ tys. AreTyped (with_members (known_by (E.arity_of env.now) (E.type_at env.now)) members.now) members.now tys.items) }
    ensures well_formed { IfOk result (λ tys. AreAnswers (with_members (known_by (E.arity_of env.now) (E.type_at env.now)) members.now) members.now tys.items) }
    ensures err { IfErr result (IsFaultOf (HasOutcome (known_by (E.arity_of env.now) (E.type_at env.now)) members.now)) }
{
    if let Some(member) = missing_signature(alloc, members)? {
        return Err(Fault::NeedsSignature(At::Spot(Spot { member, node: 0 })));
    }
    let known = Members { env, members };
    let mut types = Vec::new(alloc);
    for (number, member) in members.iter().enumerate() {
        let ty = type_of_member(alloc, &known, number as u32, member)?;
        types.push(ty)?;
    }
    Ok(types)
}

/// The type of a term that stands alone. The member of a spot is 0.
pub fn type_of_watch<E: Env>(alloc: Global, env: &E, term: &Term) -> Result<Ty, Fault>
    requires { IsCheckableWatch (known_by (E.arity_of env.now) (E.type_at env.now)) term.now }
    ensures ok { IfOk result (λ ty. HasWatchOutcome (known_by (E.arity_of env.now) (E.type_at env.now)) term.now (types (ty ∷ []))) }
    ensures sound { IfOk result (λ ty. DefinitionHasType (with_members (known_by (E.arity_of env.now) (E.type_at env.now)) []) (record { signature = None; body = term.now }) ty) }
    ensures well_formed { IfOk result (λ ty. IsAnswer (with_members (known_by (E.arity_of env.now) (E.type_at env.now)) []) (record { signature = None; body = term.now }) ty) }
    ensures err { IfErr result (IsFaultOf (HasWatchOutcome (known_by (E.arity_of env.now) (E.type_at env.now)) term.now)) }
{
    let known = Members { env, members: &[] };
    let ty = type_found(alloc, &known, 0, term)?;
    Ok(ty)
}
