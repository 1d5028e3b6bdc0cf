//! The todo list of a head.
ghost use Rattle.std.specs.Prelude.{◌≡◌, ◌++◌, not, map, IfOk, IfErr, OnOk};
ghost use Rattle.std.specs.List.{filter};
ghost use Rattle.uc_base.specs.declared.fault.Fault.TheVariants.{Memory};
ghost use Rattle.uc_branch.specs.Reaches.{is_among};
ghost use Rattle.uc_branch.specs.Todo.{todo_in, todo_of};

use crate::deleting::is_def;
use crate::head::Head;
use crate::ref_set::RefSet;
use std::alloc::{AllocError, Global};
use uc_base::{Fault, Name, Ref};
use uc_tree::Known;

/// Writes a name with each of some references that has no name.
fn add_unnamed(
    alloc: Global,
    name: &Name,
    refs: &[Ref],
    named: &RefSet,
    out: &mut Vec<(Name, Ref)>,
) -> Result<(), AllocError>
    ensures { OnOk result (out.new.items ≡ out.old.items ++ map (λ r. (name.now, r)) (filter (λ r. not (is_among r named.now)) refs.now)) }
{
    for r in refs {
        if !named.contains(r) {
            out.push((name.copy(alloc)?, *r))?;
        }
    }
    Ok(())
}

/// Writes what is to do at each of some names.
fn add_todo<K: Known>(
    alloc: Global,
    pairs: &[(Name, Ref)],
    named: &RefSet,
    known: &K,
    out: &mut Vec<(Name, Ref)>,
) -> Result<(), AllocError>
    ensures { OnOk result (out.new.items ≡ out.old.items ++ todo_in (K.direct known.now) (λ r. is_among r named.now) pairs.now) }
{
    for pair in pairs {
        if is_def(&pair.1) {
            add_unnamed(alloc, &pair.0, known.refs(&pair.1), named, out)?;
        }
    }
    Ok(())
}

/// For each name of a definition its direct references that have no name, types first.
pub fn todo<K: Known>(alloc: Global, head: &Head, known: &K) -> Result<Vec<(Name, Ref)>, Fault>
    ensures ok { IfOk result (λ list. list.items ≡ todo_of (K.direct known.now) head.now) }
    ensures err { IfErr result (λ fault. fault ≡ Memory) }
{
    let named = RefSet::of_head(alloc, head)?;
    let mut out = Vec::new(alloc);
    add_todo(alloc, head.kinds.as_slice(), &named, known, &mut out)?;
    add_todo(alloc, head.terms.as_slice(), &named, known, &mut out)?;
    Ok(out)
}
