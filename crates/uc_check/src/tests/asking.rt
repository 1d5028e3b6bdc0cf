//! What comes of definitions, and of terms that stand alone, where they may be asked about.
ghost use Rattle.std.specs.Prelude.{◌+◌, ◌<◌, ◌^◌, IsTrue, IfOk, All, length};
ghost use Rattle.uc_check.specs.Answers.{known_by, IsCheckable, IsCheckableWatch};
ghost use Rattle.uc_check.specs.FewKnown.{few_arity, few_type, IsClosed, IsClosedSignature};
ghost use Rattle.uc_patterns.specs.Asking.{IsKnown};
ghost use Rattle.uc_sound_typing.specs.Formed.{IsFormedDefinition};
ghost use Rattle.uc_tree.specs.Counts.{ty_levels};
ghost use Rattle.uc_tree.specs.declared.item.Item.TheVariants as item;
ghost use Rattle.uc_tree.specs.Nodes.{nodes_of};
ghost use Rattle.uc_typing.specs.Components.{with_members};

use crate::component::missing_signature;
use crate::members::Members;
use crate::tests::counted::{definition_nodes, term_nodes};
use crate::tests::formed::{Facts, is_formed, is_formed_definition, is_written};
use crate::tests::known::Few;
use crate::tests::trees::{MadeTerm, MadeTy};
use crate::{check_component, type_of_watch};
use std::alloc::Global;
use uc_base::{At, Fault, Spot};
use uc_tree::{Definition, Term, Ty, type_nodes};

/// More nodes than a tree of the tests has.
const MANY: u64 = 1_000_000;

#[tactic(auto, using(crate::proofs::FewFormed::few_levels))]
fn has_few_levels(ty: &Ty) -> bool
    ensures { IsTrue result → ty_levels ty.now < 2 ^ 32 }
{
    type_nodes(ty) < MANY
}

/// Whether a type is closed and well-formed, and its levels can be counted.
fn is_closed<K: Facts>(known: &K, ty: &Ty) -> bool
    ensures { IsTrue result → IsClosed (K.known known.now).arity ty.now }
{
    is_written(known, 0, ty) && has_few_levels(ty)
}

fn is_closed_signature<K: Facts>(known: &K, signature: &Option<Ty>) -> bool
    ensures { IsTrue result → IsClosedSignature (K.known known.now).arity signature.now }
{
    match signature {
        None => true,
        Some(ty) => is_closed(known, ty),
    }
}

fn are_closed_signatures<K: Facts>(known: &K, members: &[Definition]) -> bool
    ensures { IsTrue result → All (λ d. IsClosedSignature (K.known known.now).arity d.signature) members.now }
{
    match members {
        [] => true,
        [first, rest @ ..] => {
            is_closed_signature(known, &first.signature) && are_closed_signatures(known, rest)
        }
    }
}

/// Whether the nodes of each member can be counted.
fn are_small(members: &[Definition]) -> bool
    ensures { IsTrue result → All (λ d. length (nodes_of (item.Term d)) + 1 < 2 ^ 32) members.now }
{
    match members {
        [] => true,
        [first, rest @ ..] => definition_nodes(first) < MANY && are_small(rest),
    }
}

/// Whether each member may be asked about.
fn are_formed<K: Facts>(known: &K, members: &[Definition]) -> bool
    ensures { IsTrue result → All (IsFormedDefinition (K.known known.now)) members.now }
{
    match members {
        [] => true,
        [first, rest @ ..] => is_formed_definition(known, first) && are_formed(known, rest),
    }
}

/// Whether what the tests know is well-formed.
fn is_known(env: &Few, members: &[Definition]) -> bool
    ensures { IsTrue result → IsKnown (with_members (known_by few_arity (few_type env.now.plus env.now.none env.now.some)) members.now) }
{
    let known = Members { env, members };
    if !is_closed(&known, &env.plus) {
        return false;
    }
    if !is_closed(&known, &env.none) {
        return false;
    }
    if !is_closed(&known, &env.some) {
        return false;
    }
    are_closed_signatures(&known, members)
}

/// Whether members may be asked about, or lack a signature.
fn are_checkable(alloc: Global, env: &Few, members: &[Definition]) -> Result<bool, Fault>
    ensures { IfOk result (λ asked. IsTrue asked → IsCheckable (known_by few_arity (few_type env.now.plus env.now.none env.now.some)) members.now) }
{
    if members.len() > 100 {
        return Ok(false);
    }
    if !is_known(env, members) {
        return Ok(false);
    }
    if !are_small(members) {
        return Ok(false);
    }
    match missing_signature(alloc, members)? {
        Some(_) => Ok(true),
        None => {
            let known = Members { env, members };
            Ok(are_formed(&known, members))
        }
    }
}

/// The types of members over what is known. `Usage`, which no rule of typing gives, comes of those
/// that may not be asked about.
fn checked_over(alloc: Global, env: &Few, members: &[Definition]) -> Result<Vec<Ty>, Fault> {
    if !are_checkable(alloc, env, members)? {
        return Err(Fault::Usage);
    }
    check_component(alloc, env, members)
}

/// The types of members.
pub(super) fn checked_all(alloc: Global, members: &[Definition]) -> Result<Vec<Ty>, Fault> {
    let env = Few::new(alloc)?;
    checked_over(alloc, &env, members)
}

fn only(mut types: Vec<Ty>) -> Result<Ty, Fault> {
    match types.pop() {
        Some(ty) => Ok(ty),
        None => Err(Fault::Usage),
    }
}

fn checked_alone(alloc: Global, signature: Option<Ty>, body: Term) -> Result<Ty, Fault> {
    let mut members = Vec::new(alloc);
    members.push(Definition { signature, body })?;
    let types = checked_all(alloc, &members)?;
    only(types)
}

fn checked(alloc: Global, signature: MadeTy, body: MadeTerm) -> Result<Ty, Fault> {
    checked_alone(alloc, Some(signature?), body?)
}

/// The type of a definition without a signature.
pub(super) fn found(alloc: Global, body: MadeTerm) -> Result<Ty, Fault> {
    checked_alone(alloc, None, body?)
}

/// The type of a definition without a signature, where `None` has another type.
pub(super) fn found_with_none(alloc: Global, none: MadeTy, body: MadeTerm) -> Result<Ty, Fault> {
    let mut env = Few::new(alloc)?;
    env.none = none?;
    let mut members = Vec::new(alloc);
    members.push(Definition {
        signature: None,
        body: body?,
    })?;
    let types = checked_over(alloc, &env, &members)?;
    only(types)
}

/// Whether a term may stand alone.
fn is_checkable_watch(env: &Few, term: &Term) -> bool
    ensures { IsTrue result → IsCheckableWatch (known_by few_arity (few_type env.now.plus env.now.none env.now.some)) term.now }
{
    if !is_known(env, &[]) {
        return false;
    }
    let known = Members { env, members: &[] };
    is_formed(&known, 0, 0, term) && term_nodes(term) < MANY
}

/// The type of a term that stands alone.
fn watched(alloc: Global, term: MadeTerm) -> Result<Ty, Fault> {
    let env = Few::new(alloc)?;
    let term = term?;
    if !is_checkable_watch(&env, &term) {
        return Err(Fault::Usage);
    }
    type_of_watch(alloc, &env, &term)
}

fn is_type(answer: Result<Ty, Fault>, ty: MadeTy) -> bool {
    match (&answer, &ty) {
        (Ok(answer), Ok(ty)) => *answer == *ty,
        _ => false,
    }
}

pub(super) fn is_fault(answer: Result<Ty, Fault>, fault: Fault) -> bool {
    match &answer {
        Ok(_) => false,
        Err(answer) => *answer == fault,
    }
}

/// The spot of a node of the first member.
pub(super) fn spot(node: u32) -> At {
    At::Spot(Spot { member: 0, node })
}

/// A term without a signature has this type.
pub(super) fn is_found(alloc: Global, body: MadeTerm, ty: MadeTy) -> bool {
    is_type(found(alloc, body), ty)
}

/// It is ill-typed at a node.
pub(super) fn is_ill(alloc: Global, body: MadeTerm, node: u32) -> bool {
    is_fault(found(alloc, body), Fault::IllTyped(spot(node)))
}

/// A signature is wanting at a node.
pub(super) fn is_unsigned(alloc: Global, body: MadeTerm, node: u32) -> bool {
    is_fault(found(alloc, body), Fault::NeedsSignature(spot(node)))
}

/// A type is too large at a node.
pub(super) fn is_large(alloc: Global, body: MadeTerm, node: u32) -> bool {
    is_fault(found(alloc, body), Fault::TypeTooLarge(spot(node)))
}

/// A body with a signature has this type.
pub(super) fn is_checked(alloc: Global, signature: MadeTy, body: MadeTerm, ty: MadeTy) -> bool {
    is_type(checked(alloc, signature, body), ty)
}

pub(super) fn is_accepted(alloc: Global, signature: MadeTy, body: MadeTerm) -> bool {
    checked(alloc, signature, body).is_ok()
}

/// It is ill-typed at a node.
pub(super) fn is_refused(alloc: Global, signature: MadeTy, body: MadeTerm, node: u32) -> bool {
    let answer = checked(alloc, signature, body);
    is_fault(answer, Fault::IllTyped(spot(node)))
}

/// A type is too large at a node.
pub(super) fn is_too_large(alloc: Global, signature: MadeTy, body: MadeTerm, node: u32) -> bool {
    let answer = checked(alloc, signature, body);
    is_fault(answer, Fault::TypeTooLarge(spot(node)))
}

/// A term that stands alone has this type.
pub(super) fn is_watched(alloc: Global, term: MadeTerm, ty: MadeTy) -> bool {
    is_type(watched(alloc, term), ty)
}

/// It is ill-typed at a node.
pub(super) fn is_ill_watch(alloc: Global, term: MadeTerm, node: u32) -> bool {
    is_fault(watched(alloc, term), Fault::IllTyped(spot(node)))
}

/// A signature is wanting at a node.
pub(super) fn is_unsigned_watch(alloc: Global, term: MadeTerm, node: u32) -> bool {
    is_fault(watched(alloc, term), Fault::NeedsSignature(spot(node)))
}
