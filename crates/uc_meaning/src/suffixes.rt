//! What the names that end in the texts of a file stand for.
ghost use Rattle.std.specs.Prelude.{◌≡◌, ℕ, List, Some, None, bytes_eq, IfOk, if◌then◌else◌};
ghost use Rattle.uc_base.specs.Name.{is_one_of};
ghost use Rattle.uc_meaning.specs.Candidates.{ends_in};
ghost use Rattle.uc_meaning.specs.Senses.{no_names};
ghost use Rattle.uc_meaning.specs.Suffixes as spec;

use crate::senses::Ending;
use crate::words::Words;
use std::alloc::{AllocError, Global};
use std::collections::BTreeMap;
use std::marker::Model;
use uc_tree::Target;

/// Texts, each with what the names that end in it, with more segments before, stand for. Contracts see the list.
#[derive(Drop)]
pub struct Suffixes {
    endings: BTreeMap<Vec<u8>, Ending>,
}

impl Model for Suffixes {
    ghost use Rattle.std.specs.Prelude.{List, ℕ};
    ghost use Rattle.uc_meaning.specs.declared.senses.Ending.{Ending as PlainEnding};

    ghost Value = { List (List ℕ × PlainEnding) };

    ghost use Rattle.uc_meaning.specs.Suffixes.{suffixes_of};

    ghost view = { λ s. suffixes_of s.endings.entries };
}

impl Suffixes {
    /// The texts, before any name.
    pub fn new(alloc: Global, words: &Words) -> Result<Suffixes, AllocError>
        ensures { IfOk result (λ suffixes. (w : List ℕ)
            → spec.ending_at suffixes w ≡ (if is_one_of words.now w then Some no_names else None)) }
    {
        let mut endings = BTreeMap::new(alloc);
        for text in words.texts() {
            endings.insert(text.to_vec(alloc)?, Ending::none())?;
        }
        Ok(Suffixes { endings })
    }

    /// What the names that end in a text stand for, where it is among the texts.
    pub fn get(&self, text: &[u8]) -> Option<Ending>
        ensures { result ≡ spec.ending_at self.now text.now }
    {
        self.endings.get(text).copied()
    }

    /// Tells a text of a name that ends in it.
    fn add_at(&mut self, text: &[u8], target: &Target)
        ensures { (w : List ℕ)
            → spec.ending_at self.new w ≡ spec.told (bytes_eq w text.now) target.now (spec.ending_at self.old w) }
    {
        match self.endings.get_mut(text) {
            None => {}
            Some(ending) => *ending = ending.with(target),
        }
    }

    /// Tells the texts in which a name ends what it stands for.
    pub fn add(&mut self, name: &[u8], target: &Target)
        ensures { (w : List ℕ)
            → spec.ending_at self.new w ≡ spec.told (ends_in w name.now) target.now (spec.ending_at self.old w) }
    {
        let mut rest = name;
        'bytes: while let Some((c, after)) = rest.split_first() {
            if *c == b'.' {
                self.add_at(after, target);
            }
            rest = after;
        }
    }
}
