//! Checking the code.
ghost use Rattle.std.specs.Prelude.{◌≡◌, IfOk, IfErr};
ghost use Rattle.uc_base.specs.declared.fault.Fault.TheVariants.{Memory};
ghost use Rattle.uc_bench.specs.Ordinary.{CanBeChecked};
ghost use Rattle.uc_bench.specs.Requests.{ComesTo, IsWithin, IsCheckedCode};

use crate::known::Additions;
use crate::making::code_of;
use crate::request::Request;
use std::alloc::Global;
use uc_base::Fault;
use uc_check::check_component;
use uc_tree::{Definition, Term};

/// Whether a definition without a signature has a type.
fn has_type(alloc: Global, body: Term) -> Result<bool, Fault>
    requires { CanBeChecked body }
    ensures ok { IfOk result (λ typed. ComesTo typed body) }
    ensures err { IfErr result (λ fault. fault ≡ Memory) }
{
    let env = Additions::new(alloc)?;
    let mut members = Vec::new(alloc);
    members.push(Definition {
        signature: None,
        body,
    })?;
    match check_component(alloc, &env, &members) {
        Ok(_) => Ok(true),
        Err(Fault::Memory) => Err(Fault::Memory),
        Err(_) => Ok(false),
    }
}

/// Whether the code that is asked for has a type.
pub(crate) fn is_checked(alloc: Global, request: Request) -> Result<bool, Fault>
    requires { IsWithin request.kind request.count }
    ensures ok { IfOk result (IsCheckedCode request.kind request.count) }
    ensures err { IfErr result (λ fault. fault ≡ Memory) }
{
    let code = code_of(alloc, request.kind, request.count)?;
    has_type(alloc, code)
}
