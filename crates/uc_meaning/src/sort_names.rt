//! The names of one sort that can be meant in a file.
ghost use Rattle.std.specs.Prelude.{◌≡◌, ℕ, List, [], ◌∷◌, ◌++◌, bytes_eq, IfOk, IfErr, OnOk};
ghost use Rattle.std.specs.Map.{lookup};
ghost use Rattle.uc_base.specs.Name.{is_one_of};
ghost use Rattle.uc_base.specs.declared.fault.Fault.TheVariants.{Memory};
ghost use Rattle.uc_meaning.specs.Candidates as spec;
ghost use Rattle.uc_meaning.specs.Entries.{IsInOrder, entries_over, head_entries, unhidden};
ghost use Rattle.uc_meaning.specs.EntryViews.{entries_of};
ghost use Rattle.uc_meaning.specs.HeadNames.{AreNames};
ghost use Rattle.uc_meaning.specs.SortNames.{ending_among};
ghost use Rattle.uc_meaning.specs.Suffixes.{ending_at, told_all};

use crate::entries::{Entries, NameVec, ends_in};
use crate::head_names::HeadNames;
use crate::senses::Ending;
use crate::suffixes::Suffixes;
use crate::words::Words;
use std::alloc::{AllocError, Global};
use std::marker::Model;
use uc_base::{Fault, Name, Sort, is_name};
use uc_tree::{Names, Target};

/// The names of one sort that can be meant in a file: its own over those of the head. Contracts see the list, and the
/// words at which it is known what the names that end in them stand for.
#[derive(Drop)]
pub struct SortNames<'a, N: Names> {
    names: &'a N,
    sort: Sort,
    own: Entries,
    suffixes: Suffixes,
}

impl<'a, N: Names> Model for SortNames<'a, N> {
    ghost use Rattle.std.specs.Map.{keys_of};
    ghost use Rattle.uc_meaning.specs.Entries.{entries_over, head_entries};
    ghost use Rattle.uc_meaning.specs.SortNames.{Indexed, IsIndexed};

    ghost Value = { Indexed };

    ghost view = { λ s. record { entries = entries_over s.own (head_entries (N.pairs s.names.now s.sort)); words = keys_of s.suffixes } };

    ghost invariant = { λ s. IsIndexed s.own (N.pairs s.names.now s.sort) s.suffixes };
}

/// What a name of a head stands for.
fn head_target<N: Names>(
    alloc: Global,
    names: &N,
    sort: Sort,
    text: &[u8],
) -> Result<Option<Target>, Fault>
    requires { AreNames (N.pairs names.now sort) }
    ensures found { IfOk result (λ target. target ≡ lookup (bytes_eq text.now) (head_entries (N.pairs names.now sort))) }
    ensures err { IfErr result (λ fault. fault ≡ Memory) }
{
    if !is_name(text) {
        return Ok(None);
    }
    let name = Name::parse(alloc, text)?;
    match names.find(sort, &name) {
        None => Ok(None),
        Some(of) => Ok(Some(Target::Stored(*of))),
    }
}

/// The names of a head that end in the segments of a written one.
fn head_ending_in<N: Names>(
    alloc: Global,
    names: &N,
    sort: Sort,
    text: &[u8],
    found: &mut NameVec,
) -> Result<(), AllocError>
    ensures { OnOk result (entries_of found.new.items
        ≡ entries_of found.old.items ++ spec.ending_in (head_entries (N.pairs names.now sort)) text.now) }
{
    let mut head = HeadNames::new(names, sort);
    'head: while let Some((name, of)) = head.next() {
        if ends_in(text, name.text()) {
            found.push((name.text().to_vec(alloc)?, Target::Stored(*of)))?;
        }
    }
    Ok(())
}

/// Tells the texts in which the names of a head end what these stand for, but for those that a file hides.
fn add_head<N: Names>(names: &N, sort: Sort, own: &Entries, suffixes: &mut Suffixes)
    ensures told { (w : List ℕ)
        → ending_at suffixes.new w
        ≡ told_all (spec.ending_in (unhidden own.now (head_entries (N.pairs names.now sort))) w) (ending_at suffixes.old w) }
    ensures names { AreNames (N.pairs names.now sort) }
{
    let mut head = HeadNames::new(names, sort);
    'head: while let Some((name, of)) = head.next() {
        if own.get(name.text()).is_none() {
            suffixes.add(name.text(), &Target::Stored(*of));
        }
    }
}

impl<'a, N: Names> SortNames<'a, N> {
    /// Walks once over the head, to find what the names stand for that end in one of the words.
    pub fn new(
        alloc: Global,
        names: &'a N,
        sort: Sort,
        own: Entries,
        words: &Words,
    ) -> Result<SortNames<'a, N>, AllocError>
        ensures entries { IfOk result (λ known. known.entries ≡ entries_over own (head_entries (N.pairs names.now sort))) }
        ensures words { IfOk result (λ known. (w : List ℕ) → is_one_of known.words w ≡ is_one_of words.now w) }
    {
        let mut suffixes = Suffixes::new(alloc, words)?;
        own.add_to(&mut suffixes);
        add_head(names, sort, &own, &mut suffixes);
        Ok(SortNames {
            names,
            sort,
            own,
            suffixes,
        })
    }

    /// What a name stands for.
    pub fn get(&self, alloc: Global, text: &[u8]) -> Result<Option<Target>, Fault>
        ensures found { IfOk result (λ target. target ≡ lookup (bytes_eq text.now) self.now.entries) }
        ensures order { IsInOrder self.now.entries }
        ensures err { IfErr result (λ fault. fault ≡ Memory) }
    {
        match self.own.get(text) {
            Some(target) => Ok(Some(target)),
            None => head_target(alloc, self.names, self.sort, text),
        }
    }

    /// What the names that end in the segments of a written one stand for, where it is one of the words.
    pub fn ending(&self, text: &[u8]) -> Option<Ending>
        ensures { result ≡ ending_among self.now text.now }
    {
        self.suffixes.get(text)
    }

    /// The names that end in the segments of a written one.
    pub fn ending_in(&self, alloc: Global, text: &[u8]) -> Result<Entries, AllocError>
        ensures { IfOk result (λ entries. entries ≡ spec.ending_in self.now.entries text.now) }
    {
        let mut found = Vec::new(alloc);
        self.own.add_ending_in(alloc, text, &mut found)?;
        head_ending_in(alloc, self.names, self.sort, text, &mut found)?;
        Entries::from_names(alloc, found)
    }
}
