//! The first fault of the names of a file.
ghost use Rattle.std.specs.Prelude.{◌≡◌, List, [], ◌∷◌, IfOk};
ghost use Rattle.std.specs.Option.{option_or};
ghost use Rattle.uc_scratch.specs.Files.{Item as Plain};
ghost use Rattle.uc_scratch.specs.FileViews.{item_of, items_of, constructor_of, constructors_of, declaration_of};
ghost use Rattle.uc_scratch.specs.NameSets.{SameNames};
ghost use Rattle.uc_scratch.specs.NameFaults as spec;
ghost use Rattle.uc_scratch.specs.NameFaults.{constructor_name, constructors_before, repeated_among};

use crate::block::Signature;
use crate::file::{Constructor, Declaration, Item};
use crate::name_faults::{binding_fault, expr_fault, front_name, lone};
use crate::names::{Names, WrittenNames};
use crate::signed::name_of;
use crate::written::Written;
use std::alloc::{AllocError, Global};
use uc_base::Fault;

fn names_fault(alloc: Global, written: &[Written]) -> Result<Option<Fault>, AllocError>
    ensures { IfOk result (λ fault. fault ≡ repeated_among [] written.now) }
{
    let mut names = WrittenNames::new(alloc);
    names.push_all(written)?;
    names.repeated(alloc)
}

/// The whole name of a constructor of a type.
fn whole_name(alloc: Global, of: &Written, constructor: &Constructor) -> Result<Vec<u8>, AllocError>
    ensures { IfOk result (λ name. name.items ≡ constructor_name of.now (constructor_of constructor.now)) }
{
    let mut name = of.text.as_slice().to_vec(alloc)?;
    name.push(b'.')?;
    name.extend_from_slice(constructor.name.text.as_slice())?;
    Ok(name)
}

/// The first constructor whose name is that of a term before it. All are added to the terms.
#[tactic(auto, using(crate::proofs::NameSteps::name_steps))]
fn constructors_fault(
    alloc: Global,
    terms: &mut Names,
    of: &Written,
    constructors: &[Constructor],
) -> Result<Option<Fault>, AllocError>
    ensures fault { IfOk result
        (λ fault. fault ≡ spec.constructors_fault terms.old of.now (constructors_of constructors.now)) }
    ensures names { IfOk result (λ fault. fault ≡ None
        → SameNames terms.new (constructors_before of.now (constructors_of constructors.now) terms.old)) }
{
    for constructor in constructors {
        if !terms.insert(whole_name(alloc, of, constructor)?)? {
            return Ok(Some(Fault::DuplicateName(constructor.name.place)));
        }
    }
    Ok(None)
}

/// Whether items begin with a binding of a name.
fn begin_with_binding(name: &Written, items: &[Item]) -> bool
    ensures { result ≡ spec.begin_with_binding name.now (items_of items.now) }
{
    match items {
        []
        | [
            Item::Use(_) | Item::Declaration(_) | Item::Signature(_) | Item::Watch(_),
            ..
        ] => false,
        [Item::Binding(binding), ..] => {
            name.text.as_slice() == front_name(&binding.front).text.as_slice()
        }
    }
}

/// The first fault of a declaration behind terms and declared types of these names, to which it adds its own.
#[tactic(auto, using(crate::proofs::NameSteps::name_steps))]
fn declaration_fault(
    alloc: Global,
    terms: &mut Names,
    kinds: &mut Names,
    declaration: &Declaration,
) -> Result<Option<Fault>, AllocError>
    ensures { IfOk result (λ fault. (is : List Plain)
        → spec.items_fault terms.old kinds.old (declaration_of declaration.now ∷ is)
        ≡ option_or fault (spec.items_fault terms.new kinds.new is)) }
{
    match kinds.add(alloc, &declaration.name)? {
        None => {}
        Some(fault) => return Ok(Some(fault)),
    }
    match names_fault(alloc, &declaration.params)? {
        None => {}
        Some(fault) => return Ok(Some(fault)),
    }
    let fault = constructors_fault(alloc, terms, &declaration.name, &declaration.constructors)?;
    Ok(fault)
}

/// The first fault of an item before others, behind terms and declared types of these names, to which it adds its own.
#[tactic(auto, using(crate::proofs::NameSteps::name_steps))]
fn item_fault(
    alloc: Global,
    terms: &mut Names,
    kinds: &mut Names,
    item: &Item,
    after: &[Item],
) -> Result<Option<Fault>, AllocError>
    ensures { IfOk result (λ fault. spec.items_fault terms.old kinds.old (item_of item.now ∷ items_of after.now)
        ≡ option_or fault (spec.items_fault terms.new kinds.new (items_of after.now))) }
{
    match item {
        Item::Use(_) => Ok(None),
        Item::Declaration(declaration) => declaration_fault(alloc, terms, kinds, declaration),
        Item::Signature(Signature { head, of: _ }) => {
            Ok(lone(head, begin_with_binding(name_of(head), after)))
        }
        Item::Binding(binding) => binding_fault(alloc, terms, binding),
        Item::Watch(watch) => expr_fault(alloc, &watch.of),
    }
}

/// The first fault of the names of a file.
pub fn name_fault(alloc: Global, items: &[Item]) -> Result<Option<Fault>, AllocError>
    ensures { IfOk result (λ fault. fault ≡ spec.name_fault (items_of items.now)) }
{
    let mut terms = Names::new(alloc);
    let mut kinds = Names::new(alloc);
    for (i, item) in items.iter().enumerate() {
        match item_fault(alloc, &mut terms, &mut kinds, item, &items[i + 1..])? {
            None => {}
            Some(fault) => return Ok(Some(fault)),
        }
    }
    Ok(None)
}
