//! Moves: a name and all below it get another front.
ghost use Rattle.std.specs.Prelude.{◌≡◌, true, false, ◌⊎◌, IfOk, IfErr, OnOk, None, Some};
ghost use Rattle.std.specs.List.{filter};
ghost use Rattle.std.specs.Option.{option_copied};
ghost use Rattle.std.specs.List.Sorted.{IsStrictlySortedBy};
ghost use Rattle.uc_base.specs.Name.{is_name};
ghost use Rattle.uc_base.specs.declared.fault.Fault.TheVariants.{BadName, Memory};
ghost use Rattle.uc_tree.specs.Lookups.{pair_order};
ghost use Rattle.uc_branch.specs.Pairs.{without, has_pair, names_of, least_name_of};
ghost use Rattle.uc_branch.specs.Pairs as pair;
ghost use Rattle.uc_branch.specs.Moving as spec;
ghost use Rattle.uc_branch.specs.Moving.{is_moved, makes_no_name, moved_head, move_fault};

use crate::head::Head;
use crate::joining::joined;
use crate::reach::Reach;
use crate::sorted_pairs::SortedPairs;
use std::alloc::Global;
use uc_base::{Fault, Name, Ref};

/// A name with its front replaced.
fn renamed(alloc: Global, from: &Name, to: &Name, name: &Name) -> Result<Name, Fault>
    requires { is_moved from.now name.now ≡ true }
    ensures ok { IfOk result (λ new. new ≡ spec.renamed from.now to.now name.now) }
    ensures good { OnOk result (is_name (spec.renamed from.now to.now name.now) ≡ true) }
    ensures err { IfErr result (λ fault. ((fault ≡ BadName) × (is_name (spec.renamed from.now to.now name.now) ≡ false)) ⊎ (fault ≡ Memory)) }
{
    let mut text = Vec::new(alloc);
    text.extend_from_slice(to.text())?;
    let (_, rest) = name.text().split_at(from.text().len());
    text.extend_from_slice(rest)?;
    Name::parse(alloc, &text)
}

/// The pairs that move, under their new names.
fn renamed_pairs(
    alloc: Global,
    from: &Name,
    to: &Name,
    pairs: &[(Name, Ref)],
) -> Result<Vec<(Name, Ref)>, Fault>
    ensures ok { IfOk result (λ new. new.items ≡ spec.renamed_pairs from.now to.now pairs.now) }
    ensures good { OnOk result (makes_no_name from.now to.now pairs.now ≡ false) }
    ensures err { IfErr result (λ fault. ((fault ≡ BadName) × (makes_no_name from.now to.now pairs.now ≡ true)) ⊎ (fault ≡ Memory)) }
{
    let reach = Reach::FromThere(from);
    let mut new = Vec::new(alloc);
    for pair in pairs {
        if reach.takes(&pair.0) {
            new.push((renamed(alloc, from, to, &pair.0)?, pair.1))?;
        }
    }
    Ok(new)
}

/// The first of some names that others have too.
fn first_taken<'a>(new: &'a [(Name, Ref)], staying: &SortedPairs) -> Option<&'a Name>
    requires { IsStrictlySortedBy pair_order new.now }
    ensures { option_copied result ≡ least_name_of (filter (λ name. has_pair name staying.now) (names_of new.now)) }
{
    for pair in new {
        if staying.has(&pair.0) {
            return Some(&pair.0);
        }
    }
    None
}

/// The lesser of two names, where there are two.
pub fn lesser<'a>(one: Option<&'a Name>, other: Option<&'a Name>) -> Option<&'a Name>
    ensures { option_copied result ≡ pair.lesser (option_copied one.entry) (option_copied other.entry) }
{
    match (one, other) {
        (None, _) => other,
        (Some(_), None) => one,
        (Some(first), Some(second)) => { if second < first { other } else { one } }
    }
}

/// The pairs of a sort before a move is made: those that stay, and the others under their new names.
#[derive(Drop)]
struct Move {
    staying: SortedPairs,
    renamed: SortedPairs,
}

fn parted(alloc: Global, from: &Name, to: &Name, pairs: &SortedPairs) -> Result<Move, Fault>
    ensures staying { IfOk result (λ parted. parted.staying ≡ without (is_moved from.now) pairs.now) }
    ensures renamed { IfOk result (λ parted. parted.renamed ≡ spec.renamed_pairs from.now to.now pairs.now) }
    ensures good { OnOk result (makes_no_name from.now to.now pairs.now ≡ false) }
    ensures err { IfErr result (λ fault. ((fault ≡ BadName) × (makes_no_name from.now to.now pairs.now ≡ true)) ⊎ (fault ≡ Memory)) }
{
    let renamed = renamed_pairs(alloc, from, to, pairs.as_slice())?;
    Ok(Move {
        staying: pairs.outside(alloc, &Reach::FromThere(from))?,
        renamed: SortedPairs::from_vec(renamed),
    })
}

impl Head {
    /// The head in which a name and all below it have another front.
    pub fn moved(&self, alloc: Global, from: &Name, to: &Name) -> Result<Head, Fault>
        ensures ok { IfOk result (λ head. head ≡ moved_head from.now to.now self.now) }
        ensures accepted { OnOk result (move_fault from.now to.now self.now ≡ None) }
        ensures refused { IfErr result (λ fault. (move_fault from.now to.now self.now ≡ Some fault) ⊎ (fault ≡ Memory)) }
    {
        if from == to {
            return Err(Fault::SameName(from.copy(alloc)?));
        }
        if !self.has_some(&Reach::FromThere(from)) {
            return Err(Fault::NoSuchName(from.copy(alloc)?));
        }
        let kinds = parted(alloc, from, to, &self.kinds)?;
        let terms = parted(alloc, from, to, &self.terms)?;
        let taken = lesser(
            first_taken(kinds.renamed.as_slice(), &kinds.staying),
            first_taken(terms.renamed.as_slice(), &terms.staying),
        );
        if let Some(name) = taken {
            return Err(Fault::NameTaken(name.copy(alloc)?));
        }
        Ok(Head {
            kinds: joined(alloc, kinds.staying, kinds.renamed)?,
            terms: joined(alloc, terms.staying, terms.renamed)?,
        })
    }
}
