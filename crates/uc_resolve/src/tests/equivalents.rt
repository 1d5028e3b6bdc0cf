//! Texts that mean the same, and texts that do not.
use super::heads::Head;
use super::resolved;
use std::alloc::Global;
use std::test::Fail;
use uc_base::Fault;
use uc_tree::{Decl, Definition};

fn last_definition(alloc: Global, head: &Head, text: &str) -> Result<Option<Definition>, Fault> {
    let mut program = resolved(alloc, head, text)?;
    match program.terms.pop() {
        None => Ok(None),
        Some((_, definition)) => Ok(Some(definition)),
    }
}

/// Whether two texts have the same last definition, whatever it is called.
fn mean_the_same(alloc: Global, head: &Head, text: &str, other: &str) -> Result<bool, Fault> {
    let one = last_definition(alloc, head, text)?;
    let other = last_definition(alloc, head, other)?;
    Ok(one.is_some() && one == other)
}

/// The innermost binder, of terms and of types.
const BINDERS: [(&str, &str); 9] = [
    ("f x = x -> x", "f y = x -> x"),
    ("f x =\n  x = 1\n  x", "f y =\n  x = 1\n  x"),
    ("f x = cases x -> x", "f y = cases x -> x"),
    (
        "x : forall a a. a -> Nat\nx = x",
        "x : forall b a. a -> Nat\nx = x",
    ),
    ("x : nope -> nope\nx = x", "x : a -> a\nx = x"),
    ("x : _a -> Nat\nx = x", "x : b -> Nat\nx = x"),
    (
        "f : a -> a\nf x = (x : b)",
        "f : c -> c\nf x = (x : forall b. b)",
    ),
    (
        "f : a -> a\nf x =\n  g : a -> a\n  g y = x\n  g x",
        "f : forall b. b -> b\nf x =\n  g : b -> b\n  g y = x\n  g x",
    ),
    (
        "f = ((x -> (x : a)) : a -> a)",
        "f = ((x -> (x : forall b. b)) : a -> a)",
    ),
];

/// Local binders before all other names, save for names with a dot and for patterns.
const LOCALS: [(&str, &str); 8] = [
    ("use a\nf plus = plus", "f x = x"),
    ("f plus =\n  use a\n  plus", "f x = x"),
    ("f Nat = (Nat.+)", "f x = (Nat.+)"),
    (
        "f =\n  a + b = a\n  1 Nat.+ 2",
        "f =\n  g a b = a\n  1 Nat.+ 2",
    ),
    ("f =\n  a + b = a\n  1 + 2", "f =\n  g a b = a\n  g 1 2"),
    (
        "structural type T = D\nf D = D",
        "structural type T = D\nf x = x",
    ),
    (
        "structural type T = D\nf D = cases D -> 1",
        "structural type T = D\nf x = cases T.D -> 1",
    ),
    (
        "structural type T = c\nf = cases c -> c",
        "structural type T = c\nf = cases y -> y",
    ),
];

/// The steps behind local binders.
const STEPS: [(&str, &str); 8] = [
    ("a.plus = 1\nx = a.plus", "y = 1\nx = y"),
    ("a.d = 1\nd = 2\nx = d", "y = 1\nz = 2\nx = z"),
    ("x = 1 +: []", "x = 1 List.+: []"),
    ("use Nat\nx =\n  use Int\n  1 + 2", "x = 1 Int.+ 2"),
    (
        "structural type S.T = C\nstructural type R.T = D\nuse S\nx : T\nx = x",
        "structural type S.T = C\nx : S.T\nx = x",
    ),
    (
        "structural type S = C\nstructural type R = C\nuse S\nf = cases C -> 1",
        "structural type S = C\nf = cases S.C -> 1",
    ),
    (
        "structural type S = C\na.C = 1\nf = cases C -> 1",
        "structural type S = C\na.C = 1\nf = cases S.C -> 1",
    ),
    (
        "structural type Nat = N\nx = 1 Nat.+ 2",
        "structural type M = N\nx = 1 Nat.+ 2",
    ),
];

/// Texts that differ in one name, and with it in what they mean.
const DIFFERENT: [(&str, &str); 5] = [
    ("f x = x -> x", "f x = y -> x"),
    ("f : a -> a\nf x = (x : a)", "f : a -> a\nf x = (x : b)"),
    (
        "f : a -> a\nf x =\n  g : a -> a\n  g y = x\n  g x",
        "f : a -> a\nf x =\n  g : b -> b\n  g y = x\n  g x",
    ),
    (
        "f = ((x -> (x : Nat)) : a -> a)",
        "f = ((x -> (x : a)) : a -> a)",
    ),
    ("x = 1 Nat.+ 2", "x = 1 Int.+ 2"),
];

#[test]
fn takes_the_innermost_binder(rt: HostRuntime) -> Result<(), Fail> {
    let head = Head::builtins(rt.alloc())?;
    for (text, other) in BINDERS {
        assert!(rt; mean_the_same(rt.alloc(), &head, text, other)?, "{text}");
    }
    Ok(())
}

#[test]
fn takes_local_binders_first(rt: HostRuntime) -> Result<(), Fail> {
    let head = Head::builtins(rt.alloc())?;
    for (text, other) in LOCALS {
        assert!(rt; mean_the_same(rt.alloc(), &head, text, other)?, "{text}");
    }
    Ok(())
}

#[test]
fn takes_the_first_step_with_candidates(rt: HostRuntime) -> Result<(), Fail> {
    let head = Head::builtins(rt.alloc())?;
    for (text, other) in STEPS {
        assert!(rt; mean_the_same(rt.alloc(), &head, text, other)?, "{text}");
    }
    Ok(())
}

#[test]
fn tells_meanings_apart(rt: HostRuntime) -> Result<(), Fail> {
    let head = Head::builtins(rt.alloc())?;
    for (text, other) in DIFFERENT {
        assert!(rt; !mean_the_same(rt.alloc(), &head, text, other)?, "{text}");
    }
    Ok(())
}

#[test]
fn takes_digits_alone_as_member_0(rt: HostRuntime) -> Result<(), Fail> {
    let stored = Head::with_zeros(rt.alloc())?;
    let (text, same, other) = ("x = #0000000001", "x = #0000000001.0", "x = #0000000001.1");
    assert!(rt; mean_the_same(rt.alloc(), &stored, text, same)?);
    assert!(rt; !mean_the_same(rt.alloc(), &stored, text, other)?);
    Ok(())
}

fn last_declaration(alloc: Global, head: &Head, text: &str) -> Result<Option<Decl>, Fault> {
    let mut program = resolved(alloc, head, text)?;
    match program.kinds.pop() {
        None => Ok(None),
        Some((_, declaration)) => Ok(Some(declaration)),
    }
}

#[test]
fn counts_the_last_parameter_as_nearest(rt: HostRuntime) -> Result<(), Fail> {
    let head = Head::builtins(rt.alloc())?;
    let one = last_declaration(rt.alloc(), &head, "structural type T a b = C b a")?;
    let same = last_declaration(rt.alloc(), &head, "structural type T x y = C y x")?;
    let other = last_declaration(rt.alloc(), &head, "structural type T a b = C a b")?;
    assert!(rt; one.is_some() && one == same);
    assert!(rt; one != other);
    Ok(())
}
