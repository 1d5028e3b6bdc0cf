//! Signatures before their bindings.
ghost use Rattle.std.specs.Prelude.{◌≡◌, IfOk, Some};
ghost use Rattle.uc_scratch.specs.ExprGrammar.{head_name};
ghost use Rattle.uc_scratch.specs.ExprLevels as spec;

use crate::block::Signature;
use crate::scope::Scope;
use crate::type_scope::scope_under;
use crate::written::{Head, Written};
use std::alloc::{AllocError, Global};
use std::marker::Model;

/// A signed name, and the type variables that are in scope in a body under its signature.
#[derive(Drop)]
pub struct Signed<'a> {
    name: &'a [u8],
    scope: Scope<'a>,
}

impl<'a> Model for Signed<'a> {
    ghost use Rattle.uc_scratch.specs.ExprLevels.{Signed as Plain};

    ghost Value = { Plain };

    ghost view = { λ s. record { name = s.name.now; scope = s.scope } };
}

/// The name that a head has.
pub fn name_of(head: &Head) -> &Written
    ensures { result.now ≡ head_name head.now }
{
    match head {
        Head::Path(w) | Head::Bracketed(_, w) | Head::Operator(w) => w,
    }
}

/// What a signature gives to a binding that follows it.
pub fn signed_by<'a>(
    alloc: Global,
    scope: &Scope<'a>,
    signature: &'a Signature,
) -> Result<Signed<'a>, AllocError>
    ensures { IfOk result (λ signed. Some signed ≡ spec.signed_by scope.now signature.now.head signature.now.of) }
{
    Ok(Signed {
        name: name_of(&signature.head).text.as_slice(),
        scope: scope_under(alloc, scope, &signature.of)?,
    })
}

/// The type variables in scope in the body of a binding, behind a signature or none.
pub fn body_scope<'a, 'b>(
    scope: &'b Scope<'a>,
    signed: &'b Option<Signed<'a>>,
    name: &Written,
) -> &'b Scope<'a>
    ensures { result.now ≡ spec.body_scope scope.now signed.now name.now }
{
    match signed {
        None => scope,
        Some(s) => {
            if s.name == name.text.as_slice() {
                &s.scope
            } else {
                scope
            }
        }
    }
}
