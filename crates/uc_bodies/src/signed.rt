//! Signatures of bindings.
ghost use Rattle.std.specs.Prelude.{◌≡◌, OnOk};
ghost use Rattle.std.specs.Option.{option_map};
ghost use Rattle.uc_meaning.specs.ExprMeanings as spec;
ghost use Rattle.uc_meaning.specs.Results.{Gives};
ghost use Rattle.uc_bodies.specs.BodyViews.{signed_of};
ghost use Rattle.uc_bodies.specs.StepMeanings.{signing_meaning};

use crate::fronts::{head_name, head_place};
use crate::locals::Locals;
use std::alloc::Global;
use uc_base::{Bytes, Fault, Place};
use uc_meaning::Meanings;
use uc_scratch::{Signature, Written};
use uc_signatures::Placed;
use uc_tree::Ty;

/// What a signature gives to the binding behind it.
#[derive(Drop)]
pub struct Signed<'a> {
    pub name: &'a [u8],
    /// Where the signature begins.
    pub place: Place,
    pub type_of: Placed<Ty>,
    /// The quantifiers at its front, those that are put there first.
    pub front: Vec<Bytes>,
}

/// Reads a signature.
pub fn sign<'a, M: Meanings>(
    alloc: Global,
    meanings: &M,
    locals: &mut Locals,
    signature: &'a Signature,
) -> Result<Signed<'a>, Fault>
    ensures value { Gives signed_of result
        (signing_meaning (M.known meanings.now) locals.old signature.now.head signature.now.of) }
    ensures kept { OnOk result (locals.new ≡ locals.old) }
{
    let type_of = locals.signature(alloc, meanings, &signature.of)?;
    Ok(Signed {
        name: head_name(&signature.head).text.as_slice(),
        place: head_place(&signature.head),
        type_of,
        front: locals.front(alloc, &signature.of)?,
    })
}

/// The signature of a binding of this name, where one stands before it.
#[tactic(auto, unfolding(uc_meaning::specs::ExprMeanings::signature_for))]
pub fn signature_for<'a>(signed: Option<Signed<'a>>, name: &Written) -> Option<Signed<'a>>
    ensures { option_map signed_of result ≡ spec.signature_for (option_map signed_of signed.entry) name.now }
{
    match signed {
        Some(signed) if signed.name == name.text.as_slice() => Some(signed),
        _ => None,
    }
}
