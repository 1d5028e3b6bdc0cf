//! What written names mean in a file.
ghost use Rattle.std.specs.Prelude.{◌≡◌, [], ◌∷◌, ◌++◌, map, bytes_eq, List, OnOk, IfOk, IfErr};
ghost use Rattle.std.specs.Map.{lookup};
ghost use Rattle.uc_base.specs.declared.fault.Fault.TheVariants.{Memory};
ghost use Rattle.uc_scratch.specs.TypeLevels.{texts_of};
ghost use Rattle.uc_meaning.specs.Candidates as spec;
ghost use Rattle.uc_meaning.specs.Entries.{IsInOrder};
ghost use Rattle.uc_meaning.specs.Candidates.{Using as PlainUsing};
ghost use Rattle.uc_meaning.specs.Meanings.{Known, constructor_among};
ghost use Rattle.uc_meaning.specs.FileNames.{known_of};
ghost use Rattle.uc_meaning.specs.Results.{Gives};
ghost use Rattle.uc_meaning.specs.SortNames.{indexed_wanted, senses_wanted};
ghost use Rattle.uc_meaning.specs.UsingViews.{using_of, block_usings};

use crate::entries::{Entries, unbound};
use crate::file_names::{own_kinds, own_terms};
use crate::hashes::{builtin_meaning, hash_meaning, is_constructor};
use crate::meanings::Meanings;
use crate::senses::Senses;
use crate::sort_names::SortNames;
use crate::usings::{Using, Usings};
use crate::wanted::Wanted;
use crate::words::file_words;
use std::alloc::{AllocError, Global};
use uc_base::{Fault, Place, Sort};
use uc_scratch::{File, Reference, Written};
use uc_tree::{Names, Target};

/// The names that can be meant in a file, and what is stored.
#[derive(Drop)]
pub struct Lookup<'a, N: Names> {
    stored: &'a N,
    kinds: SortNames<'a, N>,
    terms: SortNames<'a, N>,
}

/// Whether something is of the file.
fn is_own(target: &Target) -> bool
    ensures { result ≡ spec.is_own target.now }
{
    match target {
        Target::Stored(_) => false,
        Target::Own(_) | Target::OwnCtor(..) => true,
    }
}

/// What is found, if it is a constructor.
fn constructor(found: Option<Target>) -> Option<Target>
    ensures { result ≡ constructor_among found }
{
    match found {
        None => None,
        Some(target) => {
            if is_constructor(&target) {
                Some(target)
            } else {
                None
            }
        }
    }
}

/// Whether a written name is a name, or begins with it and a dot.
fn is_headed_by(name: &[u8], written: &[u8]) -> bool
    ensures { result ≡ spec.is_headed_by name.now written.now }
{
    let mut rest = written;
    for c in name {
        match rest {
            [d, after @ ..] if c == d => rest = after,
            _ => return false,
        }
    }
    matches!(rest, [] | [b'.', ..])
}

/// Whether one of some names is a written name, or its first segments.
fn is_headed_by_one(names: &[Written], written: &[u8]) -> bool
    ensures { result ≡ spec.is_headed_by_one (texts_of names.now) written.now }
{
    for name in names {
        if is_headed_by(name.text.as_slice(), written) {
            return true;
        }
    }
    false
}

/// Whether a `use` shortens a written name.
fn shortens(clause: &Using, written: &[u8]) -> bool
    ensures { result ≡ spec.shortens (using_of clause.now).names written.now }
{
    clause.names.is_empty() || is_headed_by_one(clause.names, written)
}

/// A written name behind a path.
fn joined(alloc: Global, path: &Written, written: &[u8]) -> Result<Vec<u8>, AllocError>
    ensures { IfOk result (λ name. name.items ≡ path.now.text ++ 46 ∷ written.now) }
{
    let mut name = path.text.as_slice().to_vec(alloc)?;
    name.push(b'.')?;
    name.extend_from_slice(written)?;
    Ok(name)
}

impl<'a, N: Names> Lookup<'a, N> {
    pub fn new(alloc: Global, file: &File, stored: &'a N) -> Result<Lookup<'a, N>, AllocError>
        ensures { IfOk result (λ lookup. ⟦<Lookup<'a, N> as Meanings>⟧.known lookup
            ≡ known_of file.now (N.pairs stored.now) (N.hashes stored.now) (N.is_held stored.now)) }
    {
        let words = file_words(alloc, file)?;
        let own = own_kinds(alloc, &file.items)?;
        let kinds = SortNames::new(alloc, stored, Sort::Kind, own, &words)?;
        let own = own_terms(alloc, &file.items)?;
        let terms = SortNames::new(alloc, stored, Sort::Term, own, &words)?;
        Ok(Lookup {
            stored,
            kinds,
            terms,
        })
    }

    /// What a name stands for, if it is what is wanted.
    fn target(&self, alloc: Global, wanted: Wanted, text: &[u8]) -> Result<Option<Target>, Fault>
        ensures found { IfOk result (λ target. target
            ≡ lookup (bytes_eq text.now) (indexed_wanted self.now.kinds self.now.terms wanted)) }
        ensures order { IsInOrder (indexed_wanted self.now.kinds self.now.terms wanted) }
        ensures err { IfErr result (λ fault. fault ≡ Memory) }
    {
        match wanted {
            Wanted::Kind => self.kinds.get(alloc, text),
            Wanted::Term => self.terms.get(alloc, text),
            Wanted::Constructor => {
                let target = self.terms.get(alloc, text)?;
                Ok(constructor(target))
            }
        }
    }

    /// Adds what a `use` clause gives to what those before it gave.
    fn use_clause(
        &self,
        alloc: Global,
        wanted: Wanted,
        clause: &Using,
        text: &[u8],
        entries: &mut Entries,
    ) -> Result<(), Fault>
        ensures used { OnOk result ((us : List PlainUsing)
            → entries.old ≡ spec.used_in (indexed_wanted self.now.kinds self.now.terms wanted) text.now us
            → entries.new ≡ spec.used_in (indexed_wanted self.now.kinds self.now.terms wanted) text.now (using_of clause.now ∷ us)) }
        ensures err { IfErr result (λ fault. fault ≡ Memory) }
    {
        if !shortens(clause, text) {
            return Ok(());
        }
        let name = joined(alloc, clause.path, text)?;
        match self.target(alloc, wanted, &name)? {
            None => Ok(()),
            Some(target) => {
                entries.put(name, target)?;
                Ok(())
            }
        }
    }

    /// What the `use` clauses of a block give.
    fn used_in(
        &self,
        alloc: Global,
        wanted: Wanted,
        block: &[Using],
        text: &[u8],
    ) -> Result<Entries, Fault>
        ensures used { IfOk result (λ entries. entries
            ≡ spec.used_in (indexed_wanted self.now.kinds self.now.terms wanted) text.now (block_usings block.now)) }
        ensures err { IfErr result (λ fault. fault ≡ Memory) }
    {
        let mut entries = Entries::new(alloc);
        for clause in block {
            self.use_clause(alloc, wanted, clause, text, &mut entries)?;
        }
        Ok(entries)
    }

    /// What the `use` clauses of the innermost block that has some for a written name give.
    fn used(
        &self,
        alloc: Global,
        wanted: Wanted,
        usings: &Usings,
        text: &[u8],
    ) -> Result<Entries, Fault>
        ensures used { IfOk result (λ entries. entries
            ≡ spec.first_filled (spec.used_among (indexed_wanted self.now.kinds self.now.terms wanted) text.now usings.now)) }
        ensures err { IfErr result (λ fault. fault ≡ Memory) }
    {
        let blocks = usings.blocks();
        let mut depth = blocks.len();
        while depth > 0 {
            depth -= 1;
            let entries = self.used_in(alloc, wanted, &blocks[depth], text)?;
            if !entries.is_empty() {
                return Ok(entries);
            }
        }
        Ok(Entries::new(alloc))
    }

    /// The names that end in the segments of a written one.
    fn ending_in(&self, alloc: Global, wanted: Wanted, text: &[u8]) -> Result<Entries, AllocError>
        ensures { IfOk result (λ entries. entries
            ≡ spec.ending_in (indexed_wanted self.now.kinds self.now.terms wanted) text.now) }
    {
        match wanted {
            Wanted::Kind => self.kinds.ending_in(alloc, text),
            Wanted::Term => self.terms.ending_in(alloc, text),
            Wanted::Constructor => {
                let entries = self.terms.ending_in(alloc, text)?;
                entries.constructors(alloc)
            }
        }
    }

    /// What the names that end in the segments of a written one stand for, where the file writes it.
    fn senses(&self, wanted: Wanted, text: &[u8]) -> Option<Senses>
        ensures { result ≡ senses_wanted self.now.kinds self.now.terms wanted text.now }
    {
        match wanted {
            Wanted::Kind => Some(self.kinds.ending(text)?.any),
            Wanted::Term => Some(self.terms.ending(text)?.any),
            Wanted::Constructor => Some(self.terms.ending(text)?.constructors),
        }
    }

    /// What a written name means by the names that end in its segments. The names themselves are needed where they
    /// stand for several things.
    fn ending_meaning(
        &self,
        alloc: Global,
        wanted: Wanted,
        place: Place,
        text: &[u8],
    ) -> Result<Target, Fault>
        ensures { Gives (λ t. t) result (spec.meaning_among place text.now
            (spec.ending_in (indexed_wanted self.now.kinds self.now.terms wanted) text.now)) }
    {
        match self.senses(wanted, text) {
            Some(Senses::None) => Err(unbound(alloc, place, text)),
            Some(Senses::One(target)) => Ok(target),
            Some(Senses::Many) | None => {
                let entries = self.ending_in(alloc, wanted, text)?;
                entries.meaning(alloc, place, text)
            }
        }
    }
}

impl<'a, N: Names> Meanings for Lookup<'a, N> {
    ghost known = { λ lookup. record { kinds = lookup.kinds.entries; terms = lookup.terms.entries; hashes = N.hashes lookup.stored.now; holds = N.is_held lookup.stored.now } };

    fn name(
        &self,
        alloc: Global,
        wanted: Wanted,
        usings: &Usings,
        written: &Written,
    ) -> Result<Target, Fault> {
        let text = written.text.as_slice();
        let whole = self.target(alloc, wanted, text)?;
        match whole {
            None => {}
            Some(target) => {
                if is_own(&target) {
                    return Ok(target);
                }
            }
        }
        let used = self.used(alloc, wanted, usings, text)?;
        if !used.is_empty() {
            return used.meaning(alloc, written.place, text);
        }
        match whole {
            Some(target) => Ok(target),
            None => self.ending_meaning(alloc, wanted, written.place, text),
        }
    }

    fn reference(&self, wanted: Wanted, written: &Reference) -> Result<Target, Fault> {
        match written {
            Reference::Hash(w) => hash_meaning(self.stored, wanted, w),
            Reference::Builtin(w) => builtin_meaning(wanted, w),
        }
    }
}
