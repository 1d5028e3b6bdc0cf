//! The names that a file declares and defines.
ghost use Rattle.std.specs.Prelude.{◌≡◌, ◌+◌, ◌++◌, List, [], ◌∷◌, IfOk, OnOk};
ghost use Rattle.uc_scratch.specs.Files.{Item as Plain};
ghost use Rattle.uc_scratch.specs.FileViews.{constructor_of, constructors_of, item_of, items_of};
ghost use Rattle.uc_scratch.specs.NameFaults as faults;
ghost use Rattle.uc_meaning.specs.Entries.{entries_over};
ghost use Rattle.uc_meaning.specs.EntryViews.{entries_of};
ghost use Rattle.uc_meaning.specs.FileNames as spec;

use crate::entries::{Entries, NameVec};
use std::alloc::{AllocError, Global};
use uc_scratch::{BindingFront, Constructor, Declaration, Head, Item, Written};
use uc_tree::Target;

/// The next number. There is no memory for a file in which it doesn't fit.
fn next_number(number: u32) -> Result<u32, AllocError>
    ensures { IfOk result (λ next. next ≡ number + 1) }
{
    match number.checked_add(1) {
        None => Err(AllocError),
        Some(next) => Ok(next),
    }
}

/// The name of a binding.
fn front_name(front: &BindingFront) -> &Written
    ensures { result.now ≡ faults.front_name front.now }
{
    match front {
        BindingFront::Prefix(Head::Path(name), _)
        | BindingFront::Prefix(Head::Bracketed(_, name), _)
        | BindingFront::Prefix(Head::Operator(name), _)
        | BindingFront::Infix(_, name, _) => name,
    }
}

/// Adds a declared type, and gives the number of the next.
fn add_kind(alloc: Global, item: &Item, number: u32, names: &mut NameVec) -> Result<u32, AllocError>
    ensures { IfOk result (λ next. (is : List Plain)
        → entries_of names.new.items ++ spec.kind_entries next is
        ≡ entries_of names.old.items ++ spec.kind_entries number (item_of item.now ∷ is)) }
{
    match item {
        Item::Declaration(declaration) => {
            let name = declaration.name.text.as_slice().to_vec(alloc)?;
            names.push((name, Target::Own(number)))?;
            next_number(number)
        }
        Item::Use(_) | Item::Signature(_) | Item::Binding(_) | Item::Watch(_) => Ok(number),
    }
}

/// The declared types of a file.
fn kind_names(alloc: Global, items: &[Item]) -> Result<NameVec, AllocError>
    ensures { IfOk result (λ names. entries_of names.items ≡ spec.kind_entries 0 (items_of items.now)) }
{
    let mut names = Vec::new(alloc);
    let mut number = 0;
    for item in items {
        number = add_kind(alloc, item, number, &mut names)?;
    }
    Ok(names)
}

/// The whole name of a constructor of a type.
fn whole_name(alloc: Global, of: &Written, constructor: &Constructor) -> Result<Vec<u8>, AllocError>
    ensures { IfOk result (λ name. name.items ≡ faults.constructor_name of.now (constructor_of constructor.now)) }
{
    let mut name = of.text.as_slice().to_vec(alloc)?;
    name.push(b'.')?;
    name.extend_from_slice(constructor.name.text.as_slice())?;
    Ok(name)
}

/// Adds the constructors of the declared type of a number.
fn add_constructors(
    alloc: Global,
    number: u32,
    declaration: &Declaration,
    names: &mut NameVec,
) -> Result<(), AllocError>
    ensures { OnOk result (entries_of names.new.items
        ≡ entries_of names.old.items ++ spec.ctor_entries number declaration.now.name 0 (constructors_of declaration.now.constructors.items)) }
{
    let mut next = 0;
    for constructor in &declaration.constructors {
        let name = whole_name(alloc, &declaration.name, constructor)?;
        names.push((name, Target::OwnCtor(number, next)))?;
        next = next_number(next)?;
    }
    Ok(())
}

/// How many declared types and definitions stand before an item.
#[derive(Clone, Copy)]
struct Counts {
    kinds: u32,
    terms: u32,
}

/// Adds the terms of an item, and gives the counts behind it.
fn add_terms(
    alloc: Global,
    item: &Item,
    counts: Counts,
    names: &mut NameVec,
) -> Result<Counts, AllocError>
    ensures { IfOk result (λ next. (is : List Plain)
        → entries_of names.new.items ++ spec.term_entries next.kinds next.terms is
        ≡ entries_of names.old.items ++ spec.term_entries counts.kinds counts.terms (item_of item.now ∷ is)) }
{
    let Counts { kinds, terms } = counts;
    match item {
        Item::Declaration(declaration) => {
            add_constructors(alloc, kinds, declaration, names)?;
            let kinds = next_number(kinds)?;
            Ok(Counts { kinds, terms })
        }
        Item::Binding(binding) => {
            let name = front_name(&binding.front).text.as_slice().to_vec(alloc)?;
            names.push((name, Target::Own(terms)))?;
            let terms = next_number(terms)?;
            Ok(Counts { kinds, terms })
        }
        Item::Use(_) | Item::Signature(_) | Item::Watch(_) => Ok(counts),
    }
}

/// The definitions and constructors of a file.
fn term_names(alloc: Global, items: &[Item]) -> Result<NameVec, AllocError>
    ensures { IfOk result (λ names. entries_of names.items ≡ spec.term_entries 0 0 (items_of items.now)) }
{
    let mut names = Vec::new(alloc);
    let mut counts = Counts { kinds: 0, terms: 0 };
    for item in items {
        counts = add_terms(alloc, item, counts, &mut names)?;
    }
    Ok(names)
}

/// The declared types of a file in name order.
pub fn own_kinds(alloc: Global, items: &[Item]) -> Result<Entries, AllocError>
    ensures { IfOk result (λ own. own ≡ entries_over (spec.kind_entries 0 (items_of items.now)) []) }
{
    let names = kind_names(alloc, items)?;
    Entries::from_names(alloc, names)
}

/// The definitions and constructors of a file in name order.
pub fn own_terms(alloc: Global, items: &[Item]) -> Result<Entries, AllocError>
    ensures { IfOk result (λ own. own ≡ entries_over (spec.term_entries 0 0 (items_of items.now)) []) }
{
    let names = term_names(alloc, items)?;
    Entries::from_names(alloc, names)
}
