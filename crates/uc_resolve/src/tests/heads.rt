//! Heads that have all builtins.
ghost use Rattle.std.specs.Prelude.{◌≡◌, List, ◌∷◌, IsTrue, nat_eq};
ghost use Rattle.std.specs.declared.cmp.Ordering.TheVariants.{Less};
ghost use Rattle.std.specs.List.{AllByRecursion};
ghost use Rattle.std.specs.List.Sorted.{IsStrictlySortedBy};
ghost use Rattle.std.proofs.lemmas.Map.Keys.{IsStrictlySortedBy-prop};
ghost use Rattle.std.specs.Map.{lookup};
ghost use Rattle.std.specs.Option.{option_copied, option_map};
ghost use Rattle.std.specs.Cmp.Lexicographic.{pointwise};
ghost use Rattle.hex.specs.Hex.{encode_lower};
ghost use Rattle.uc_base.specs.declared.hash.Hash.{Hash as PlainHash};
ghost use Rattle.uc_tree.specs.Lookups.{pair_order, next_pair, begins_with, found_by_prefix, found_among as among};
ghost use Rattle.uc_resolve.specs.BySort.{by_sort};

use std::alloc::Global;
use uc_base::{Fault, HASH_TEXT_LEN, Hash, Name, Ref, Sort, builtin_name_of};
use uc_tree::{Found, Names};

/// Whether the name of a pair is below those of others.
fn is_below(pair: &(Name, Ref), others: &[(Name, Ref)]) -> bool
    ensures { IsTrue result → AllByRecursion (λ q. pair_order pair.now q ≡ Less) others.now }
{
    match others {
        [] => true,
        [first, rest @ ..] => pair.0 < first.0 && is_below(pair, rest),
    }
}

/// Whether pairs stand in name order, each name once.
fn are_in_order(pairs: &[(Name, Ref)]) -> bool
    ensures { IsTrue result → IsStrictlySortedBy pair_order pairs.now }
{
    match pairs {
        [] => true,
        [first, rest @ ..] => is_below(first, rest) && are_in_order(rest),
    }
}

/// Names in name order, each with what it stands for.
#[derive(Drop)]
struct SortNames {
    pairs: Vec<(Name, Ref)>,
    ghost in_order: { IsStrictlySortedBy pair_order pairs.items } by { IsStrictlySortedBy-prop pair_order pairs.items },
}

impl SortNames {
    fn new(mut pairs: Vec<(Name, Ref)>) -> Result<SortNames, Fault> {
        pairs.sort_unstable();
        if are_in_order(&pairs) {
            Ok(SortNames { pairs })
        } else {
            Err(Fault::BadName)
        }
    }

    /// The builtins with these numbers.
    fn builtins(alloc: Global, from: u16, to: u16) -> Result<Vec<(Name, Ref)>, Fault> {
        let mut pairs = Vec::new(alloc);
        for number in from..to {
            match builtin_name_of(number) {
                None => {}
                Some(name) => {
                    let name = Name::parse(alloc, name.as_bytes())?;
                    pairs.push((name, Ref::Builtin(number)))?;
                }
            }
        }
        Ok(pairs)
    }

    fn find(&self, name: &Name) -> Option<&Ref>
        ensures { option_copied result ≡ lookup (pointwise nat_eq name.now) self.now.pairs.items }
    {
        for (other, of) in &self.pairs {
            if name == other {
                return Some(of);
            }
        }
        None
    }

    fn after(&self, name: Option<&Name>) -> Option<(&Name, &Ref)>
        ensures { option_map (λ pair. (pair.0.now, pair.1.now)) result
            ≡ next_pair (option_copied name.entry) self.now.pairs.items }
    {
        for (other, of) in &self.pairs {
            match name {
                None => return Some((other, of)),
                Some(name) => {
                    if name < other {
                        return Some((other, of));
                    }
                }
            }
        }
        None
    }
}

fn begins_with_digits(digits: &[u8], hash: &Hash) -> bool
    ensures { result ≡ begins_with digits.now (encode_lower hash.now.0) }
{
    let mut text = [0; HASH_TEXT_LEN];
    hash.write_text(&mut text);
    text.as_slice().starts_with(digits)
}

/// What one more hash makes of what was found among others.
fn with_hash(hash: &Hash, found: Found) -> Found
    ensures { (hashes : List PlainHash) → found ≡ among hashes → result ≡ among (hash.now ∷ hashes) }
{
    match found {
        Found::None => Found::One(*hash),
        Found::One(_) | Found::Many => Found::Many,
    }
}

/// How many of the hashes begin with the digits.
fn found_among(hashes: &[Hash], digits: &[u8]) -> Found
    ensures { result ≡ found_by_prefix digits.now hashes.now }
{
    match hashes {
        [] => Found::None,
        [hash, rest @ ..] => {
            let found = found_among(rest, digits);
            if begins_with_digits(digits, hash) {
                with_hash(hash, found)
            } else {
                found
            }
        }
    }
}

/// The names of the builtins, `plus` for one of them, and some hashes.
#[derive(Drop)]
pub struct Head {
    kinds: SortNames,
    terms: SortNames,
    hashes: Vec<Hash>,
}

impl Head {
    fn new(alloc: Global, hashes: Vec<Hash>) -> Result<Head, Fault> {
        let kinds = SortNames::builtins(alloc, 0, 16)?;
        let mut terms = SortNames::builtins(alloc, 16, 57)?;
        for name in ["a.plus", "b.plus"] {
            terms.push((Name::parse(alloc, name.as_bytes())?, Ref::Builtin(16)))?;
        }
        Ok(Head {
            kinds: SortNames::new(kinds)?,
            terms: SortNames::new(terms)?,
            hashes,
        })
    }

    /// A head over no hash.
    pub fn builtins(alloc: Global) -> Result<Head, Fault> {
        Head::new(alloc, Vec::new(alloc))
    }

    /// A head over two hashes that begin with zeros.
    pub fn with_zeros(alloc: Global) -> Result<Head, Fault> {
        let mut hashes = Vec::new(alloc);
        hashes.push(Hash([0; 64]))?;
        let mut other = [0; 64];
        other[4] = 1;
        hashes.push(Hash(other))?;
        Head::new(alloc, hashes)
    }

    fn names(&self, sort: Sort) -> &SortNames
        ensures { result.now ≡ by_sort self.now.kinds self.now.terms sort }
    {
        match sort {
            Sort::Kind => &self.kinds,
            Sort::Term => &self.terms,
        }
    }
}

impl Names for Head {
    ghost use Rattle.std.specs.Prelude.{true};
    ghost use Rattle.uc_resolve.specs.BySort.{by_sort};

    ghost pairs = { λ head sort. (by_sort head.kinds head.terms sort).pairs.items };

    ghost in_order = { λ head sort. (by_sort head.kinds head.terms sort).in_order };

    ghost hashes = { λ head. head.hashes.items };

    ghost is_held = { λ _ _ _. true };

    fn find(&self, sort: Sort, name: &Name) -> Option<&Ref> {
        self.names(sort).find(name)
    }

    fn after(&self, sort: Sort, name: Option<&Name>) -> Option<(&Name, &Ref)> {
        self.names(sort).after(name)
    }

    fn by_prefix(&self, digits: &[u8]) -> Found {
        found_among(&self.hashes, digits)
    }

    fn holds(&self, _sort: Sort, _of: &Ref) -> bool {
        true
    }
}
