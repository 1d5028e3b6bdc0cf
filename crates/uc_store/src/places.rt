//! Binary search among entries in the order of their hashes.
ghost use Rattle.std.specs.Prelude.{◌≡◌, option_map, slice_get};
ghost use Rattle.std.specs.Option.{option_copied};
ghost use Rattle.std.specs.Ordering.{is_lt};
ghost use Rattle.uc_store.specs.Hashes.{hash_order, is_same_hash};
ghost use Rattle.uc_store.specs.Places.{boxed, IsPlaceBehind};
ghost use Rattle.uc_store.specs.Table.{IsTable, entry_under};

use crate::entry::Entry;
use uc_base::Hash;

#[tactic(auto, unfolding(crate::specs::Hashes::hash_order))]
fn is_before(hash: &Hash, other: &Hash) -> bool
    ensures { result ≡ is_lt (hash_order hash.now other.now) }
{
    hash.cmp(other).is_lt()
}

#[tactic(auto, unfolding(crate::specs::Hashes::hash_order))]
fn is_same(hash: &Hash, other: &Hash) -> bool
    ensures { result ≡ is_same_hash hash.now other.now }
{
    hash.cmp(other).is_eq()
}

/// The hash of the entry at a place.
pub(crate) fn hash_at(entries: &[Box<Entry>], place: usize) -> Option<&Hash>
    ensures { option_copied result ≡ option_map (λ e. e.hash) (slice_get (boxed entries.now) place) }
{
    if place < entries.len() {
        Some(entries[place].hash())
    } else {
        None
    }
}

/// How many entries have a hash that is at most this one.
pub(crate) fn place_behind(entries: &[Box<Entry>], hash: &Hash) -> usize
    requires { IsTable (boxed entries.now) }
    ensures { IsPlaceBehind hash.now (boxed entries.now) result }
{
    let mut low = 0;
    let mut high = entries.len();
    while low < high {
        let middle = low + (high - low) / 2;
        if is_before(hash, entries[middle].hash()) {
            high = middle;
        } else {
            low = middle + 1;
        }
    }
    low
}

/// The entry under a hash.
pub(crate) fn entry_under<'a>(entries: &'a [Box<Entry>], hash: &Hash) -> Option<&'a Entry>
    requires { IsTable (boxed entries.now) }
    ensures { option_copied result ≡ entry_under hash.now (boxed entries.now) }
{
    let place = place_behind(entries, hash);
    if place == 0 {
        return None;
    }
    let entry = &entries[place - 1];
    if is_same(hash, entry.hash()) {
        Some(entry)
    } else {
        None
    }
}
