//! Names in name order, each with what it stands for.
ghost use Rattle.std.specs.Prelude.{◌≡◌, ℕ, List, [], ◌∷◌, ◌++◌, ◌⊎◌, map, slice_get, bytes_eq, IfOk, OnOk, IsTrue, ◌↔◌};
ghost use Rattle.std.specs.List.{filter, list_all};
ghost use Rattle.std.specs.Map.{lookup};
ghost use Rattle.std.specs.Option.{option_map};
ghost use Rattle.uc_base.specs.declared.fault.Fault.TheVariants.{Memory};
ghost use Rattle.uc_meaning.specs.Candidates as spec;
ghost use Rattle.uc_meaning.specs.Entries.{IsInOrder, with_entry, entries_over};
ghost use Rattle.uc_meaning.specs.EntryViews.{entries_of};
ghost use Rattle.uc_meaning.specs.Meanings.{is_constructor as is_constructor_target};
ghost use Rattle.uc_meaning.specs.Results.{Gives};
ghost use Rattle.uc_meaning.specs.Suffixes.{ending_at, told_all};

use crate::hashes::is_constructor;
use crate::senses::are_same;
use crate::suffixes::Suffixes;
use std::alloc::{AllocError, Global};
use std::collections::BTreeMap;
use std::marker::Model;
use uc_base::{Fault, Name, NameList, Place};
use uc_tree::Target;

/// Names in the order of a text, each with what it stands for.
pub type NameVec = Vec<(Vec<u8>, Target)>;

/// Names in name order, each with what it stands for. Contracts see the list.
#[derive(Drop)]
pub struct Entries {
    targets: BTreeMap<Vec<u8>, Target>,
}

impl Model for Entries {
    ghost use Rattle.std.specs.Prelude.{List, ℕ};
    ghost use Rattle.uc_tree.specs.declared.target.Target.{Target as PlainTarget};

    ghost Value = { List (List ℕ × PlainTarget) };

    ghost use Rattle.uc_meaning.specs.EntryViews.{entries_of};

    ghost view = { λ e. entries_of e.targets.entries };
}

/// Whether a whole name ends in the segments of a written one, with more before them.
pub fn ends_in(written: &[u8], whole: &[u8]) -> bool
    ensures { result ≡ spec.ends_in written.now whole.now }
{
    let mut rest = whole;
    'bytes: while let [c, after @ ..] = rest {
        if *c == b'.' && written == after {
            return true;
        }
        rest = after;
    }
    false
}

/// Nothing has the written name.
pub fn unbound(alloc: Global, place: Place, text: &[u8]) -> Fault
    ensures { (result ≡ Memory) ⊎ (result ≡ spec.unbound place text.now) }
{
    match Name::parse(alloc, text) {
        Ok(name) => Fault::Unbound(place, name),
        Err(fault) => fault,
    }
}

impl Entries {
    pub fn new(alloc: Global) -> Entries
        ensures { result ≡ [] }
    {
        Entries {
            targets: BTreeMap::new(alloc),
        }
    }

    /// Adds a name, in the place of an equal one.
    pub fn put(&mut self, name: Vec<u8>, target: Target) -> Result<(), AllocError>
        ensures { OnOk result (self.new ≡ with_entry (name.items, target) self.old) }
    {
        self.targets.insert(name, target)?;
        Ok(())
    }

    /// Names in name order. Of equal ones the first counts.
    pub fn from_names(alloc: Global, mut names: NameVec) -> Result<Entries, AllocError>
        ensures { IfOk result (λ entries. entries ≡ entries_over (entries_of names.items) []) }
    {
        let mut entries = Entries::new(alloc);
        while let Some((name, target)) = names.pop() {
            entries.put(name, target)?;
        }
        Ok(entries)
    }

    pub fn is_empty(&self) -> bool
        ensures { IsTrue result ↔ (self.now ≡ []) }
    {
        self.targets.is_empty()
    }

    /// What a name stands for.
    pub fn get(&self, name: &[u8]) -> Option<Target>
        ensures { result ≡ lookup (bytes_eq name.now) self.now }
    {
        self.targets.get(name).copied()
    }

    /// Adds the names that end in the segments of a written one.
    pub fn add_ending_in(
        &self,
        alloc: Global,
        text: &[u8],
        found: &mut NameVec,
    ) -> Result<(), AllocError>
        ensures { OnOk result (entries_of found.new.items
            ≡ entries_of found.old.items ++ spec.ending_in self.now text.now) }
    {
        for (name, target) in &self.targets {
            if ends_in(text, name) {
                found.push((name.as_slice().to_vec(alloc)?, *target))?;
            }
        }
        Ok(())
    }

    /// Tells the texts in which the names end what they stand for.
    pub fn add_to(&self, suffixes: &mut Suffixes)
        ensures told { (w : List ℕ)
            → ending_at suffixes.new w ≡ told_all (spec.ending_in self.now w) (ending_at suffixes.old w) }
        ensures order { IsInOrder self.now }
    {
        for (name, target) in self.targets.iter() {
            suffixes.add(name, target);
        }
    }

    /// The names of constructors.
    pub fn constructors(&self, alloc: Global) -> Result<Entries, AllocError>
        ensures { IfOk result (λ entries. entries ≡ filter (λ e. is_constructor_target e.1) self.now) }
    {
        let mut found = Vec::new(alloc);
        for (name, target) in self.targets.iter() {
            if is_constructor(target) {
                found.push((name.as_slice().to_vec(alloc)?, *target))?;
            }
        }
        Entries::from_names(alloc, found)
    }

    /// What the first name stands for.
    fn first_target(&self) -> Option<Target>
        ensures { result ≡ option_map (λ e. e.1) (slice_get self.now 0) }
    {
        match self.targets.first_key_value() {
            None => None,
            Some((_, target)) => Some(*target),
        }
    }

    /// Whether all stand for one thing.
    fn all_stand_for(&self, target: &Target) -> bool
        ensures { result ≡ list_all (λ e. spec.is_same_target e.1 target.now) self.now }
    {
        for t in self.targets.values() {
            if !are_same(t, target) {
                return false;
            }
        }
        true
    }

    /// The names.
    fn names(&self, alloc: Global) -> Result<Vec<Name>, Fault>
        ensures { Gives (λ v. v.items) result (spec.all_names (map (λ e. e.0) self.now)) }
    {
        let mut names = Vec::new(alloc);
        for text in self.targets.keys() {
            names.push(Name::parse(alloc, text.as_slice())?)?;
        }
        Ok(names)
    }

    /// Several things could be meant.
    fn ambiguous(&self, alloc: Global, place: Place) -> Fault
        ensures { (result ≡ Memory) ⊎ (result ≡ spec.ambiguous place (map (λ e. e.0) self.now)) }
    {
        match self.names(alloc) {
            Ok(names) => Fault::Ambiguous(place, NameList::from_vec(names)),
            Err(fault) => fault,
        }
    }

    /// What the names mean as the candidates of a written name: the one thing that they all stand for.
    pub fn meaning(&self, alloc: Global, place: Place, text: &[u8]) -> Result<Target, Fault>
        ensures { Gives (λ t. t) result (spec.meaning_among place text.now self.now) }
    {
        match self.first_target() {
            None => Err(unbound(alloc, place, text)),
            Some(target) => {
                if self.all_stand_for(&target) {
                    Ok(target)
                } else {
                    Err(self.ambiguous(alloc, place))
                }
            }
        }
    }
}
