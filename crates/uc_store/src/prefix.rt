//! Hashes by the digits with which their texts begin.
ghost use Rattle.std.specs.Prelude.{◌≡◌};
ghost use Rattle.hex.specs.Hex.{encode_lower};
ghost use Rattle.uc_tree.specs.Lookups.{begins_with, found_by_prefix};
ghost use Rattle.uc_store.specs.Places.{boxed};
ghost use Rattle.uc_store.specs.Table.{hashes_of};

use crate::entry::Entry;
use uc_base::{HASH_TEXT_LEN, Hash};
use uc_tree::Found;

fn has_prefix(digits: &[u8], hash: &Hash) -> bool
    ensures { result ≡ begins_with digits.now (encode_lower hash.now.0) }
{
    let mut text = [0; HASH_TEXT_LEN];
    hash.write_text(&mut text);
    text.as_slice().starts_with(digits)
}

/// How many of the hashes begin with the digits.
pub(crate) fn found_by_prefix(entries: &[Box<Entry>], digits: &[u8]) -> Found
    ensures { result ≡ found_by_prefix digits.now (hashes_of (boxed entries.now)) }
{
    let mut found = Found::None;
    for entry in entries {
        if has_prefix(digits, entry.hash()) {
            match found {
                Found::None => found = Found::One(*entry.hash()),
                _ => return Found::Many,
            }
        }
    }
    found
}
