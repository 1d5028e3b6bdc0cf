//! Members of components.
ghost use Rattle.std.specs.Prelude.{◌≡◌, ◌+◌, ◌<◌, ◌^◌, Some, IfOk, IfErr, length};
ghost use Rattle.uc_patterns.specs.Asking.{IsKnown};
ghost use Rattle.uc_patterns.specs.Spots.{IsStopped};
ghost use Rattle.uc_sound_typing.specs.Formed.{IsFormed, IsFormedDefinition};
ghost use Rattle.uc_context.specs.Closing.{open_from};
ghost use Rattle.uc_tree.specs.Nodes.{nodes_of, term_nodes, ty_nodes};
ghost use Rattle.uc_tree.specs.declared.item.Item.TheVariants as item;
ghost use Rattle.uc_check.specs.Walks.{first_state};
ghost use Rattle.uc_typing.specs.Components.{HasTypeFound, HasNoTypeFound, HasMemberOutcome, member_type, member_stop};

use crate::checking::meet;
use crate::finding::synthesize;
use crate::scopes::pass_type;
use std::alloc::Global;
use uc_base::{At, Fault, Spot};
use uc_context::{Context, Open};
use uc_patterns::{Sight, State, TargetTypes};
use uc_tree::{Definition, Env, Target, Term, Ty};

/// What is known, and the members of a component, of which the signatures are known.
#[derive(Drop)]
pub(crate) struct Members<'a, E> {
    pub(crate) env: &'a E,
    pub(crate) members: &'a [Definition],
}

impl<'a, E: Env> TargetTypes for Members<'a, E> {
    ghost use Rattle.uc_typing.specs.Components.{with_members};
    ghost use Rattle.uc_check.specs.Answers.{known_by};

    ghost known = { λ all. with_members (known_by (E.arity_of all.env.now) (E.type_at all.env.now)) all.members.now };

    fn type_of(&self, of: &Target) -> Option<&Ty> {
        match of {
            Target::Stored(reference) => self.env.type_of(reference),
            Target::Own(member) => match self.members.get(*member as usize) {
                Some(definition) => definition.signature.as_ref(),
                None => None,
            },
            Target::OwnCtor(_, _) => None,
        }
    }
}

/// The state in which the first node of a member is checked.
fn first_state(alloc: Global, member: u32) -> State
    ensures { result ≡ first_state member }
{
    State {
        context: Context::new(alloc),
        sight: Sight::new(alloc),
        spot: Spot { member, node: 1 },
    }
}

/// The type that a term without a signature has.
pub(crate) fn type_found<K: TargetTypes>(
    alloc: Global,
    known: &K,
    member: u32,
    term: &Term,
) -> Result<Ty, Fault>
    requires known { IsKnown (K.known known.now) }
    requires formed { IsFormed (K.known known.now) 0 0 term.now }
    requires small { length (term_nodes term.now) + 1 < 2 ^ 32 }
    ensures ok { IfOk result (λ ty. HasTypeFound (K.known known.now) term.now (open_from ty)) }
    ensures err { IfErr result (IsStopped member (λ stop. HasNoTypeFound (K.known known.now) term.now stop)) }
{
    let mut state = first_state(alloc, member);
    let here = state.spot;
    let found = synthesize(alloc, known, &mut state, term)?;
    let numbers = found.existentials(alloc)?;
    let generalised = match found.generalised(alloc, &numbers) {
        Ok(generalised) => generalised,
        Err(Fault::TypeTooLarge(_)) => return Err(Fault::TypeTooLarge(At::Spot(here))),
        Err(fault) => return Err(fault),
    };
    match generalised.close(alloc)? {
        Some(ty) => Ok(ty),
        None => unreachable!(),
    }
}

/// The type that a body has by its signature.
fn type_signed<K: TargetTypes>(
    alloc: Global,
    known: &K,
    member: u32,
    signature: &Ty,
    body: &Term,
) -> Result<Ty, Fault>
    requires known { IsKnown (K.known known.now) }
    requires formed { IsFormedDefinition (K.known known.now) (record { signature = Some signature.now; body = body.now }) }
    requires small { length (ty_nodes signature.now) + length (term_nodes body.now) + 1 < 2 ^ 32 }
    ensures ok { IfOk result (λ ty. HasMemberOutcome (K.known known.now) (record { signature = Some signature.now; body = body.now }) (member_type ty)) }
    ensures err { IfErr result (IsStopped member (λ stop. HasMemberOutcome (K.known known.now) (record { signature = Some signature.now; body = body.now }) (member_stop stop))) }
{
    let mut state = first_state(alloc, member);
    pass_type(&mut state.spot, signature);
    let of = Open::from_ty(alloc, signature)?;
    meet(alloc, known, &mut state, body, &of)?;
    let ty = signature.copy(alloc)?;
    Ok(ty)
}

/// The type of a member.
pub(crate) fn type_of_member<K: TargetTypes>(
    alloc: Global,
    known: &K,
    member: u32,
    of: &Definition,
) -> Result<Ty, Fault>
    requires known { IsKnown (K.known known.now) }
    requires formed { IsFormedDefinition (K.known known.now) of.now }
    requires small { length (nodes_of (item.Term of.now)) + 1 < 2 ^ 32 }
    ensures ok { IfOk result (λ ty. HasMemberOutcome (K.known known.now) of.now (member_type ty)) }
    ensures err { IfErr result (IsStopped member (λ stop. HasMemberOutcome (K.known known.now) of.now (member_stop stop))) }
{
    match &of.signature {
        Some(signature) => type_signed(alloc, known, member, signature, &of.body),
        None => type_found(alloc, known, member, &of.body),
    }
}
