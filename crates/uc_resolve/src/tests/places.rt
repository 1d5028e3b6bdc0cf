//! The places of the nodes of trees.
use super::heads::Head;
use super::resolved;
use crate::{Listed, Program};
use std::alloc::Global;
use std::test::Fail;
use uc_base::{Bytes, Fault, Spot};

/// The places of the nodes of the first member of a list, as a text.
fn places(alloc: Global, program: &Program, list: Listed) -> Result<Bytes, Fault> {
    let mut out = Vec::new(alloc);
    for node in 0..100 {
        let spot = Spot { member: 0, node };
        if program.places.has(list, &spot) {
            program.places.of(list, &spot).write_text(&mut out)?;
            out.push(b' ')?;
        }
    }
    Ok(Bytes::from_vec(out))
}

const DEFINITIONS: [(&str, &str); 6] = [
    ("h : [forall a. a]\nh = []", "2:1 1:5 1:6 1:16 2:5 "),
    ("g h x = h x x", "1:1 1:3 1:5 1:9 1:9 1:9 1:11 1:13 "),
    ("i : Nat -> Nat\ni x = x", "2:1 1:5 1:5 1:12 2:3 2:7 "),
    ("j : a -> a\nj x = x", "2:1 1:5 1:5 1:5 1:10 2:3 2:7 "),
    ("k = cases\n  y@0 -> y", "1:1 1:5 1:5 1:5 2:3 2:5 2:10 "),
    (
        "l a =\n  (++) : Nat\n  x ++ y = x\n  a ++ a",
        "1:1 1:3 2:3 2:10 3:3 3:8 3:12 4:3 4:3 4:5 4:3 4:8 ",
    ),
];

/// What has a bracket or a block on its left side begins there.
const BRACKETS: [(&str, &str); 7] = [
    (
        "f a b c = (a Nat.+ b) Nat.* c",
        "1:1 1:3 1:5 1:7 1:11 1:11 1:23 1:12 1:12 1:14 1:12 1:20 1:29 ",
    ),
    (
        "m a = ((a && a) || a, [a], (), (a : Nat))",
        "1:1 1:3 1:7 1:8 1:9 1:9 1:14 1:20 1:23 1:24 1:28 1:32 1:33 1:37 ",
    ),
    (
        "n : (Nat -> Nat) -> Nat\nn = n",
        "2:1 1:5 1:6 1:6 1:13 1:21 2:5 ",
    ),
    (
        "o f a = (f a) (a a) a",
        "1:1 1:3 1:5 1:9 1:9 1:10 1:10 1:12 1:16 1:16 1:18 1:21 ",
    ),
    ("p = (Nat.+) 1 2", "1:1 1:5 1:5 1:6 1:13 1:15 "),
    (
        "q = cases (a +: b) +: [c, _] -> a",
        "1:1 1:5 1:5 1:5 1:11 1:12 1:12 1:17 1:23 1:24 1:27 1:33 ",
    ),
    (
        "r a =\n  let\n      a\n    Nat.+ a",
        "1:1 1:3 2:3 2:3 4:5 3:7 4:11 ",
    ),
];

#[test]
fn keeps_the_places_of_nodes(rt: HostRuntime) -> Result<(), Fail> {
    let head = Head::builtins(rt.alloc())?;
    for (text, line) in DEFINITIONS {
        let program = resolved(rt.alloc(), &head, text)?;
        let found = places(rt.alloc(), &program, Listed::Terms)?;
        assert_eq!(rt; found.as_slice(), line.as_bytes(), "{text}");
    }
    Ok(())
}

#[test]
fn keeps_the_places_of_brackets(rt: HostRuntime) -> Result<(), Fail> {
    let head = Head::builtins(rt.alloc())?;
    for (text, line) in BRACKETS {
        let program = resolved(rt.alloc(), &head, text)?;
        let found = places(rt.alloc(), &program, Listed::Terms)?;
        assert_eq!(rt; found.as_slice(), line.as_bytes(), "{text}");
    }
    Ok(())
}

#[test]
fn keeps_the_places_of_watches_and_declarations(rt: HostRuntime) -> Result<(), Fail> {
    let head = Head::builtins(rt.alloc())?;
    let program = resolved(rt.alloc(), &head, "> let\n  a = 1\n  a")?;
    let found = places(rt.alloc(), &program, Listed::Watches)?;
    assert_eq!(rt; found.as_slice(), b"1:1 2:3 2:7 3:3 ".as_slice());
    let program = resolved(rt.alloc(), &head, "structural type P a = Q [a] a")?;
    let found = places(rt.alloc(), &program, Listed::Kinds)?;
    assert_eq!(rt; found.as_slice(), b"1:17 1:25 1:26 1:29 ".as_slice());
    Ok(())
}
