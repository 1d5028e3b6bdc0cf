//! The names of builtins.
ghost use Rattle.std.specs.Prelude.{◌≡◌, ◌+◌, ◌^◌, ◌<◌, true, length, map, OnOk, IfErr};
ghost use Rattle.std.specs.List.{list_all};
ghost use Rattle.uc_base.specs.Name.{is_name};
ghost use Rattle.uc_base.specs.declared.fault.Fault.TheVariants.{Memory};
ghost use Rattle.uc_branch.specs.Heads as heads;

use crate::sorted_pairs::SortedPairs;
use std::alloc::Global;
use uc_base::{Fault, Name, Ref};

/// Makes names stand for builtins, by number from one on.
pub fn put_builtins(
    alloc: Global,
    number: u16,
    names: &[&str],
    pairs: &mut SortedPairs,
) -> Result<(), Fault>
    requires few { number + length names.now < 2 ^ 16 }
    requires good { list_all is_name (map (λ name. name.now) names.now) ≡ true }
    ensures ok { OnOk result (pairs.new ≡ heads.put_builtins number (map (λ name. name.now) names.now) pairs.old) }
    ensures err { IfErr result (λ fault. fault ≡ Memory) }
{
    match names {
        [] => Ok(()),
        [name, rest @ ..] => {
            pairs.set(Name::parse(alloc, name.as_bytes())?, Ref::Builtin(number))?;
            put_builtins(alloc, number + 1, rest, pairs)
        }
    }
}
