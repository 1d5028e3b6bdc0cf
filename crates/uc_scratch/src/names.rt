//! Sets of names.
ghost use Rattle.std.specs.Option.{option_copied};
ghost use Rattle.std.specs.Prelude.{◌≡◌, [], ◌∷◌, ◌++◌, length, slice_get, not, OnOk, IfOk};
ghost use Rattle.uc_base.specs.declared.fault.Fault.TheVariants.{DuplicateName};
ghost use Rattle.uc_base.specs.Name.{is_one_of};
ghost use Rattle.uc_scratch.specs.NameSets.{SameNames};
ghost use Rattle.uc_scratch.specs.NameFaults as spec;

use crate::written::Written;
use std::alloc::{AllocError, Global};
use std::collections::BTreeSet;
use std::marker::Model;
use uc_base::Fault;

/// A set of names. Contracts see their texts.
#[derive(Drop)]
pub struct Names {
    texts: BTreeSet<Vec<u8>>,
}

impl Model for Names {
    ghost use Rattle.std.specs.Prelude.{ℕ, List, map};

    ghost Value = { List (List ℕ) };

    ghost view = { λ s. map (λ text. text.items) s.texts.keys };
}

impl Names {
    pub fn new(alloc: Global) -> Names
        ensures { result ≡ [] }
    {
        Names {
            texts: BTreeSet::new(alloc),
        }
    }

    /// Adds a name, and says whether it is new.
    pub fn insert(&mut self, text: Vec<u8>) -> Result<bool, AllocError>
        ensures added { IfOk result (λ added. added ≡ not (is_one_of self.old text.items)) }
        ensures names { OnOk result (SameNames self.new (text.items ∷ self.old)) }
    {
        let added = self.texts.insert(text)?;
        Ok(added)
    }

    /// Adds a name that is written. The fault says that it stands there already.
    pub fn add(&mut self, alloc: Global, name: &Written) -> Result<Option<Fault>, AllocError>
        ensures fault { IfOk result (λ fault. fault ≡ spec.repeated self.old name.now) }
        ensures names { OnOk result (SameNames self.new (name.now.text ∷ self.old)) }
    {
        if self.insert(name.text.as_slice().to_vec(alloc)?)? {
            Ok(None)
        } else {
            Ok(Some(Fault::DuplicateName(name.place)))
        }
    }
}

/// Names that are written, in the order of the text.
#[derive(Drop)]
pub struct WrittenNames<'a> {
    names: Vec<&'a Written>,
}

impl<'a> Model for WrittenNames<'a> {
    ghost use Rattle.std.specs.Prelude.{List, map};
    ghost use Rattle.uc_scratch.specs.declared.written.Written.{Written};

    ghost Value = { List Written };

    ghost view = { λ s. map (λ name. name.now) s.names.items };
}

impl<'a> WrittenNames<'a> {
    pub fn new(alloc: Global) -> WrittenNames<'a>
        ensures { result ≡ [] }
    {
        WrittenNames {
            names: Vec::new(alloc),
        }
    }

    pub fn push(&mut self, name: &'a Written) -> Result<(), AllocError>
        ensures { OnOk result (self.new ≡ self.old ++ name.now ∷ []) }
    {
        self.names.push(name)?;
        Ok(())
    }

    pub fn push_all(&mut self, names: &'a [Written]) -> Result<(), AllocError>
        ensures { OnOk result (self.new ≡ self.old ++ names.now) }
    {
        for name in names {
            self.push(name)?;
        }
        Ok(())
    }

    pub fn len(&self) -> usize
        ensures { result ≡ length self.now }
    {
        self.names.len()
    }

    /// The name at a place, where there is one.
    pub fn get(&self, index: usize) -> Option<&'a Written>
        ensures { option_copied result ≡ slice_get self.now index }
    {
        if index < self.names.len() {
            Some(self.names[index])
        } else {
            None
        }
    }

    /// The first that stands among those before it.
    #[tactic(auto, using(crate::proofs::NameSteps::name_steps))]
    pub fn repeated(&self, alloc: Global) -> Result<Option<Fault>, AllocError>
        ensures { IfOk result (λ fault. fault ≡ spec.repeated_among [] self.now) }
    {
        let mut before = Names::new(alloc);
        for name in &self.names {
            match before.add(alloc, *name)? {
                None => {}
                Some(fault) => return Ok(Some(fault)),
            }
        }
        Ok(None)
    }
}
