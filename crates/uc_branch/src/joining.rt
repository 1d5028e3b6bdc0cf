//! Two lists in name order joined to one.
ghost use Rattle.std.specs.Prelude.{◌≡◌, ◌<◌, ◌+◌, ◌++◌, [], length, IfOk, IfNone, OnSome};
ghost use Rattle.std.specs.Option.{option_to_list};
ghost use Rattle.std.specs.List.Sorted.{IsStrictlySortedBy};
ghost use Rattle.uc_tree.specs.Lookups.{pair_order};
ghost use Rattle.uc_branch.specs.Pairs.{put_all};

use crate::sorted_pairs::SortedPairs;
use std::alloc::{AllocError, Global};
use std::cmp::Ordering;
use std::collections::VecDeque;
use uc_base::{Name, Ref};

/// The first of what is left of both lists. Of two pairs with one name the new one stays.
fn next_of(old: &mut VecDeque<(Name, Ref)>, new: &mut VecDeque<(Name, Ref)>) -> Option<(Name, Ref)>
    requires old_in_order { IsStrictlySortedBy pair_order old.old.items }
    requires new_in_order { IsStrictlySortedBy pair_order new.old.items }
    ensures next { put_all new.old.items old.old.items ≡ option_to_list result ++ put_all new.new.items old.new.items }
    ensures old_in_order { IsStrictlySortedBy pair_order old.new.items }
    ensures new_in_order { IsStrictlySortedBy pair_order new.new.items }
    ensures none { IfNone result (put_all new.new.items old.new.items ≡ []) }
    ensures fewer { OnSome result (length old.new.items + length new.new.items < length old.old.items + length new.old.items) }
{
    match (old.front(), new.front()) {
        (Some(one), Some(other)) => match one.0.cmp(&other.0) {
            Ordering::Less => old.pop_front(),
            Ordering::Equal => {
                let _ = old.pop_front();
                new.pop_front()
            }
            Ordering::Greater => new.pop_front(),
        },
        (Some(_), None) => old.pop_front(),
        (None, _) => new.pop_front(),
    }
}

/// Pairs put among others.
pub fn joined(alloc: Global, old: SortedPairs, new: SortedPairs) -> Result<SortedPairs, AllocError>
    ensures { IfOk result (λ pairs. pairs ≡ put_all new old) }
{
    let mut pairs = Vec::with_capacity(alloc, old.len() + new.len())?;
    let mut old = VecDeque::from(old.into_vec());
    let mut new = VecDeque::from(new.into_vec());
    while let Some(pair) = next_of(&mut old, &mut new) {
        pairs.push(pair)?;
    }
    Ok(SortedPairs::from_vec(pairs))
}
