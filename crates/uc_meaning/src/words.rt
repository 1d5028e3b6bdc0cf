//! The names that a file writes and that may be looked up.
ghost use Rattle.std.specs.Prelude.{◌≡◌, [], ◌∷◌, ◌++◌, map, OnOk, IfOk};
ghost use Rattle.uc_scratch.specs.TypeViews.{type_atoms};
ghost use Rattle.uc_scratch.specs.FileViews.{item_of, items_of, constructors_of};
ghost use Rattle.uc_meaning.specs.Words as spec;

use crate::expr_words::{add_block, add_expr};
use crate::type_words::{add_atoms, add_type};
use std::alloc::{AllocError, Global};
use std::marker::Model;
use uc_scratch::{Con, Constructor, File, Item, Written};

/// The texts of names, in the order in which they are written. Contracts see the list.
#[derive(Drop)]
pub struct Words<'a> {
    texts: Vec<&'a [u8]>,
}

impl<'a> Model for Words<'a> {
    ghost use Rattle.std.specs.Prelude.{ℕ, List, map};

    ghost Value = { List (List ℕ) };

    ghost view = { λ words. map (λ text. text.now) words.texts.items };
}

impl<'a> Words<'a> {
    pub fn new(alloc: Global) -> Words<'a>
        ensures { result ≡ [] }
    {
        Words {
            texts: Vec::new(alloc),
        }
    }

    pub fn texts(&self) -> &[&'a [u8]]
        ensures { map (λ text. text.now) result.now ≡ self.now }
    {
        self.texts.as_slice()
    }

    pub fn push(&mut self, name: &'a Written) -> Result<(), AllocError>
        ensures { OnOk result (self.new ≡ self.old ++ name.now.text ∷ []) }
    {
        self.texts.push(name.text.as_slice())?;
        Ok(())
    }

    /// Adds the name of a declared type or of a constructor, unless it is a hash or a builtin.
    pub fn push_con(&mut self, con: &'a Con) -> Result<(), AllocError>
        ensures { OnOk result (self.new ≡ self.old ++ spec.con_words con.now) }
    {
        match con {
            Con::Path(name) => self.push(name),
            Con::Reference(_) => Ok(()),
        }
    }
}

/// Adds those of the fields of constructors.
fn add_constructors<'a>(
    constructors: &'a [Constructor],
    out: &mut Words<'a>,
) -> Result<(), AllocError>
    ensures { OnOk result (out.new ≡ out.old ++ spec.constructors_words (constructors_of constructors.now)) }
{
    for constructor in constructors {
        add_atoms(&constructor.fields, out)?;
    }
    Ok(())
}

/// Adds those of an item.
fn add_item<'a>(item: &'a Item, out: &mut Words<'a>) -> Result<(), AllocError>
    ensures { OnOk result (out.new ≡ out.old ++ spec.item_words (item_of item.now)) }
{
    match item {
        Item::Use(_) => Ok(()),
        Item::Declaration(declaration) => add_constructors(&declaration.constructors, out),
        Item::Signature(signature) => add_type(&signature.of, out),
        Item::Binding(binding) => add_block(&binding.body, out),
        Item::Watch(watch) => add_expr(&watch.of, out),
    }
}

/// Those of a file.
pub fn file_words<'a>(alloc: Global, file: &'a File) -> Result<Words<'a>, AllocError>
    ensures { IfOk result (λ words. words ≡ spec.file_words file.now) }
{
    let mut words = Words::new(alloc);
    for item in &file.items {
        add_item(item, &mut words)?;
    }
    Ok(words)
}
