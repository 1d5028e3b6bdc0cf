//! The shopping lists: a file with types, constructors, definitions, a watch and text behind the fold.
use super::heads::Head;
use super::resolved;
use crate::Program;
use std::alloc::{AllocError, Global};
use std::test::Fail;
use uc_base::Bytes;

const SHOPPING_LISTS: &str = "use Nat + ==

-- Shopping lists.
structural type Maybe a = None | Some a

unique[basket1] type Basket
  = Basket [(Text, Nat)]

Basket.empty : Basket
Basket.empty = Basket.Basket []

Basket.put : Text -> Nat -> Basket -> Basket
Basket.put name count = cases
  Basket.Basket items ->
    Basket.Basket ((name, count) List.+: items)

find : Text -> [(Text, Nat)] -> Maybe Nat
find name items = match items with
  [] -> Maybe.None
  (n, c) +: rest
    | n Text.== name -> Maybe.Some c
  _ +: rest -> find name rest

total : Basket -> Nat
total b =
  go : Nat -> [(Text, Nat)] -> Nat
  go acc rest = match rest with
    [] -> acc
    (_, c) +: more -> go (acc + c) more
  match b with
    Basket.Basket items -> go 0 items

> total (Basket.put \"tea\" 2 Basket.empty)
---
notes that are never read
";

fn add_word(out: &mut Vec<u8>, word: &[u8]) -> Result<(), AllocError> {
    out.extend_from_slice(word)?;
    out.push(b' ')?;
    Ok(())
}

/// The names of the members, of types, constructors and definitions.
fn names(alloc: Global, program: &Program) -> Result<Vec<u8>, AllocError> {
    let mut out = Vec::new(alloc);
    for (name, _) in &program.kinds {
        add_word(&mut out, name.text())?;
    }
    for (name, _, _) in &program.ctors {
        add_word(&mut out, name.text())?;
    }
    for (name, _) in &program.terms {
        add_word(&mut out, name.text())?;
    }
    Ok(out)
}

fn add_words(out: &mut Vec<u8>, words: &[Bytes]) -> Result<(), AllocError> {
    for word in words {
        add_word(out, word.as_slice())?;
    }
    add_word(out, b"|")
}

/// The names of the binders of each definition, and then of each watch.
fn binders(alloc: Global, program: &Program) -> Result<Vec<u8>, AllocError> {
    let mut out = Vec::new(alloc);
    for member in &program.hints.members {
        add_words(&mut out, member)?;
    }
    Ok(out)
}

#[test]
fn resolves_shopping_lists(rt: HostRuntime) -> Result<(), Fail> {
    let alloc = rt.alloc();
    let program = resolved(alloc, &Head::builtins(alloc)?, SHOPPING_LISTS)?;
    let expected =
        "Maybe Basket Maybe.None Maybe.Some Basket.Basket Basket.empty Basket.put find total ";
    assert_eq!(rt; names(alloc, &program)?.as_slice(), expected.as_bytes());
    let expected =
        "| name count x items | name items n c rest rest | b go acc rest c more items | | ";
    assert_eq!(rt; binders(alloc, &program)?.as_slice(), expected.as_bytes());
    assert_eq!(rt; program.watches.len(), 1);
    Ok(())
}
