//! Components from their canonical text.
ghost use Rattle.std.specs.Prelude.{◌≡◌, IfOk, IfErr, IfSome, IfNone};
ghost use Rattle.uc_base.specs.declared.fault.Fault.TheVariants.{Memory};
ghost use Rattle.uc_canon.specs.Canonical.{IsCanonical};
ghost use Rattle.uc_canon.specs.Members.{Members, members_of};

use crate::component::Component;
use crate::links::is_one_component;
use crate::numbering::is_least;
use crate::read::read_spelled;
use std::alloc::Global;
use uc_base::Fault;

/// The component whose canonical text the bytes are.
pub fn read_component(alloc: Global, bytes: &[u8]) -> Result<Option<Component>, Fault>
    // The bytes are the canonical text of what is read.
    ensures found { IfOk result (λ read. IfSome read (λ component.
        IsCanonical bytes.now (members_of component))) }
    // Nothing is read only where the bytes are the canonical text of no component.
    ensures none { IfOk result (λ read. IfNone read
        ((members : Members) → IsCanonical bytes.now members → ⊥)) }
    ensures err { IfErr result (λ fault. fault ≡ Memory) }
{
    let Some(component) = read_spelled(alloc, bytes)? else {
        return Ok(None);
    };
    if !is_one_component(alloc, &component)? {
        return Ok(None);
    }
    if !is_least(alloc, &component)? {
        return Ok(None);
    }
    Ok(Some(component))
}
