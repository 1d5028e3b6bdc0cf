//! Files as they are read: the faults of texts, and the sorts of items.

use super::read_file;
use crate::file::Item;
use std::alloc::{AllocError, Global};
use std::test::Fail;
use uc_base::{Bytes, Fault};
use uc_layout::lex;

fn letter(item: &Item) -> u8 {
    match item {
        Item::Use(_) => b'u',
        Item::Declaration(_) => b'd',
        Item::Signature(_) => b's',
        Item::Binding(_) => b'b',
        Item::Watch(_) => b'w',
    }
}

fn letters(alloc: Global, items: &[Item]) -> Result<Bytes, AllocError> {
    let mut out = Vec::new(alloc);
    for item in items {
        out.push(letter(item))?;
    }
    Bytes::from_slice(alloc, out.as_slice())
}

/// The line of the fault of a text, or a letter for each of its items.
fn answer(alloc: Global, text: &str) -> Result<Bytes, Fault> {
    let blocks = lex(alloc, text.as_bytes())?;
    match read_file(alloc, &blocks) {
        Ok(file) => Ok(letters(alloc, file.items.as_slice())?),
        Err(fault) => fault.line(alloc),
    }
}

/// A text between a front and an end, as often as a count says.
fn repeated(
    alloc: Global,
    front: &str,
    text: &str,
    count: usize,
    end: &str,
) -> Result<String, AllocError> {
    let mut whole = String::from_str(alloc, front)?;
    for _ in 0..count {
        whole.push_str(text)?;
    }
    whole.push_str(end)?;
    Ok(whole)
}

/// `x = ` and a text between as many brackets.
fn in_brackets(alloc: Global, count: usize, text: &str) -> Result<String, AllocError> {
    let mut whole = repeated(alloc, "x = ", "(", count, text)?;
    for _ in 0..count {
        whole.push_str(")")?;
    }
    Ok(whole)
}

#[test]
fn answers_the_first_fault(rt: HostRuntime) -> Result<(), Fail> {
    for (text, wanted) in [
        ("", ""),
        ("x = 5\n", "b"),
        ("> 1", "w"),
        ("x =", "refused 5 BadSyntax 1:1"),
        ("x = 1\ny =\nz =\n", "refused 5 BadSyntax 2:1"),
        ("x : Nat", "refused 9 LoneSignature 1:1"),
        ("x = 1\nx = 2\n", "refused 8 DuplicateName 2:1"),
        ("x = 1\nx = 2\ny =\n", "refused 5 BadSyntax 3:1"),
    ] {
        let line = answer(rt.alloc(), text)?;
        assert_eq!(rt; line.as_slice(), wanted.as_bytes(), "{text}");
    }
    Ok(())
}

#[test]
fn finds_constructors_and_bindings_of_one_name(rt: HostRuntime) -> Result<(), Fail> {
    for (text, wanted) in [
        (
            "structural type T = A\nT.A = 1\n",
            "refused 8 DuplicateName 2:1",
        ),
        (
            "T.A = 1\nstructural type T = A\n",
            "refused 8 DuplicateName 2:21",
        ),
    ] {
        let line = answer(rt.alloc(), text)?;
        assert_eq!(rt; line.as_slice(), wanted.as_bytes(), "{text}");
    }
    Ok(())
}

#[test]
fn keeps_within_brackets(rt: HostRuntime) -> Result<(), Fail> {
    for (count, text, wanted) in [
        (127, "5", "b"),
        (128, "5", "refused 7 TooDeep 1:132"),
        (127, "y -> z", "refused 7 TooDeep 1:134"),
    ] {
        let text = in_brackets(rt.alloc(), count, text)?;
        let line = answer(rt.alloc(), text.as_str())?;
        assert_eq!(rt; line.as_slice(), wanted.as_bytes(), "{count}");
    }
    Ok(())
}

#[test]
fn keeps_within_levels(rt: HostRuntime) -> Result<(), Fail> {
    // A parameter is a level, an operator with its two sides is two, a field is one.
    for (front, text, count, end, wanted) in [
        ("x = 1\nf ", "_ ", 511, "= 5", "bb"),
        ("x = 1\nf ", "_ ", 512, "= 5", "refused 7 TooDeep 2:1"),
        ("x = 1\nf ", "_ ", 512, "= 5 = 5", "refused 5 BadSyntax 2:1"),
        ("x = ", "a + ", 255, "a", "b"),
        ("x = ", "a + ", 256, "a", "refused 7 TooDeep 1:1"),
        ("structural type T = A", " T", 511, "", "d"),
        (
            "structural type T = A",
            " T",
            512,
            "",
            "refused 7 TooDeep 1:1",
        ),
    ] {
        let text = repeated(rt.alloc(), front, text, count, end)?;
        let line = answer(rt.alloc(), text.as_str())?;
        assert_eq!(rt; line.as_slice(), wanted.as_bytes(), "{front} {count}");
    }
    Ok(())
}

#[test]
fn answers_of_long_items(rt: HostRuntime) -> Result<(), Fail> {
    for (front, text, count, end, wanted) in [
        ("x = ", "if ", 66_667, "", "refused 5 BadSyntax 1:1"),
        ("x = ", "match ", 33_334, "", "refused 5 BadSyntax 1:1"),
        ("x = ", "a + ", 50_000, "a", "refused 7 TooDeep 1:1"),
        ("x : ", "A -> ", 40_000, "A", "refused 7 TooDeep 1:1"),
        ("x = f", " a", 100_000, "", "refused 7 TooDeep 1:1"),
        ("x : A", " A", 100_000, "", "refused 9 LoneSignature 1:1"),
    ] {
        let text = repeated(rt.alloc(), front, text, count, end)?;
        let line = answer(rt.alloc(), text.as_str())?;
        assert_eq!(rt; line.as_slice(), wanted.as_bytes(), "{front} {count}");
    }
    Ok(())
}

const SHOPPING_LISTS: &str = "use Nat + ==

-- Shopping lists.
structural type Maybe a = None | Some a

unique[basket1] type Basket
  = Basket [(Text, Nat)]

Basket.empty : Basket
Basket.empty = Basket.Basket []

Basket.put : Text -> Nat -> Basket -> Basket
Basket.put name count = cases
  Basket.Basket items ->
    Basket.Basket ((name, count) List.+: items)

find : Text -> [(Text, Nat)] -> Maybe Nat
find name items = match items with
  [] -> Maybe.None
  (n, c) +: rest
    | n Text.== name -> Maybe.Some c
  _ +: rest -> find name rest

total : Basket -> Nat
total b =
  go : Nat -> [(Text, Nat)] -> Nat
  go acc rest = match rest with
    [] -> acc
    (_, c) +: more -> go (acc + c) more
  match b with
    Basket.Basket items -> go 0 items

> total (Basket.put \"tea\" 2 Basket.empty)
---
notes that are never read
";

#[test]
fn reads_items_of_each_sort(rt: HostRuntime) -> Result<(), Fail> {
    let line = answer(rt.alloc(), SHOPPING_LISTS)?;
    assert_eq!(rt; line.as_slice(), b"uddsbsbsbsbw".as_slice());
    Ok(())
}
