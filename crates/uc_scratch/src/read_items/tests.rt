//! Items as they are read.

use crate::read_items::read_item;
use crate::shown::levels_fit;
use crate::shown_items::write_item;
use crate::stop::Stop;
use crate::terminal::terminals;
use std::alloc::Global;
use std::process::Abort;
use std::test::Fail;
use uc_layout::lex;

/// The item that a text is, or `-` where it has no reading.
fn shown(rt: &impl Abort, alloc: Global, text: &[u8]) -> Result<String, Fail> {
    let blocks = lex(alloc, text)?;
    let tokens = terminals(alloc, blocks.tokens())?;
    assert!(rt; levels_fit(128, tokens.as_slice()));
    let mut out = Vec::new(alloc);
    match read_item(alloc, tokens.as_slice()) {
        Err(Stop::Memory) => return Err("no memory".into()),
        Err(Stop::Absent) => out.push(b'-')?,
        Ok(item) => write_item(9, &item, &mut out)?,
    }
    Ok(String::from_utf8(out)?)
}

#[test]
fn reads_items(rt: HostRuntime) -> Result<(), Fail> {
    for (text, wanted) in [
        ("use a.b", "use@1:1 a.b@1:5"),
        ("use A x Y + >", "use@1:1 A@1:5 x@1:7 Y@1:9 +@1:11 >@1:13"),
        ("type A = B", "type@1:1 A@1:6 = B@1:10"),
        (
            "structural type List a = Nil | Cons a (List a)",
            "structural@1:1 List@1:17 a@1:22 = Nil@1:26 | Cons@1:32 a@1:37 (<!List@1:40 a@1:45>)@1:39",
        ),
        (
            "unique type a.B = c ()",
            "unique@1:1 a.B@1:13 = c@1:19 ()@1:21",
        ),
        (
            "unique[x.y] type T u v = K [u] #00000000 v",
            "unique@1:1 [x.y@1:8] T@1:18 u@1:20 v@1:22 = K@1:26 [u@1:29]@1:28 !#00000000@1:32 v@1:42",
        ),
        ("x : Nat", "x@1:1 : !Nat@1:5"),
        ("a.B : c -> d", "a.B@1:1 : c@1:7 -> d@1:12"),
        ("(+) : a", "(+@1:2)@1:1 : a@1:7"),
        ("+ : a", "+@1:1 : a@1:5"),
        ("> : T", ">@1:1 : !T@1:5"),
        ("x = 5", "x@1:1 = {N5@1:5}"),
        ("f a B _ = a", "f@1:1 a@1:3 B@1:5 _@1:7 = {a@1:11}"),
        ("a.b x = x", "a.b@1:1 x@1:5 = {x@1:9}"),
        ("(Nat.+) a = a", "(Nat.+@1:2)@1:1 a@1:9 = {a@1:13}"),
        ("a <> _ = a", "a@1:1 <>@1:3 _@1:6 = {a@1:10}"),
        ("A List.++ b = A", "A@1:1 List.++@1:3 b@1:11 = {A@1:15}"),
        ("> x", ">@1:1 x@1:3"),
        ("> f 1 + 2", ">@1:1 f@1:3 N1@1:5 +@1:7 N2@1:9"),
        (
            "x =\n  use a b\n  f : T\n  f y = y\n  a + b = a\n  (+) c = c\n  f",
            "x@1:1 = {use@2:3 a@2:7 b@2:9; f@3:3 : !T@3:7; f@4:3 y@4:5 = {y@4:9}; \
             a@5:3 +@5:5 b@5:7 = {a@5:11}; (+@6:4)@6:3 c@6:7 = {c@6:11}; f@7:3}",
        ),
    ] {
        assert_eq!(rt;
            shown(&rt, rt.alloc(), text.as_bytes())?.as_str(),
            wanted,
            "{text}"
        );
    }
    Ok(())
}

#[test]
fn reads_expressions(rt: HostRuntime) -> Result<(), Fail> {
    for (text, wanted) in [
        ("> x _ -> x", ">@1:1 \\ x@1:3 _@1:5 -> {x@1:10}"),
        (
            "> a || b && c + d",
            ">@1:1 a@1:3 || b@1:8 && c@1:13 +@1:15 d@1:17",
        ),
        (
            "> a +: b :+ c > d Nat.+ e",
            ">@1:1 a@1:3 +:@1:5 b@1:8 :+@1:10 c@1:13 >@1:15 d@1:17 Nat.+@1:19 e@1:25",
        ),
        (
            "> if a then b else c",
            ">@1:1 if@1:3 a@1:6 then {b@1:13} else {c@1:20}",
        ),
        (
            "> f if a then b else c",
            ">@1:1 f@1:3 if@1:5 a@1:8 then {b@1:15} else {c@1:22}",
        ),
        (
            "> match a with\n  b -> c\n  d | e -> f",
            ">@1:1 match@1:3 a@1:9 with {b@2:3 -> {c@2:8}; d@3:3 | e@3:7 -> {f@3:12}}",
        ),
        ("> cases b -> c", ">@1:1 cases@1:3 {b@1:9 -> {c@1:14}}"),
        (
            "> cases\n  A | f x -> b",
            ">@1:1 cases@1:3 {!A@2:3 | f@2:7 x@2:9 -> {b@2:14}}",
        ),
        (
            "> cases\n  A | x ->\n      b\n    -> c",
            ">@1:1 cases@1:3 {!A@2:3 | \\ x@2:7 -> {b@3:7} -> {c@4:8}}",
        ),
        (
            "> let\n  x = 1\n  x",
            ">@1:1 let@1:3 {x@2:3 = {N1@2:7}; x@3:3}",
        ),
        (
            "> if match a with b -> c then d else e",
            ">@1:1 if@1:3 match@1:6 a@1:12 with {b@1:19 -> {c@1:24}} then {d@1:31} else {e@1:38}",
        ),
        ("> a B c.d", ">@1:1 a@1:3 B@1:5 c.d@1:7"),
        (
            "> (+) (>) (Nat.+)",
            ">@1:1 (+@1:4)@1:3 (>@1:8)@1:7 (Nat.+@1:12)@1:11",
        ),
        (
            "> f 1 -2 \"t\" ?c true false",
            ">@1:1 f@1:3 N1@1:5 I-2@1:7 T\"t\"@1:10 C?c@1:14 +true@1:17 -false@1:22",
        ),
        ("> #00000000 ##Nat", ">@1:1 #00000000@1:3 ##Nat@1:13"),
        (
            "> () (a) (a : b) (a, b, c) [] [a] [a, b]",
            ">@1:1 ()@1:3 (a@1:7)@1:6 (a@1:11 : b@1:15)@1:10 (a@1:19, b@1:22, c@1:25)@1:18 \
             []@1:28 [a@1:32]@1:31 [a@1:36, b@1:39]@1:35",
        ),
    ] {
        assert_eq!(rt;
            shown(&rt, rt.alloc(), text.as_bytes())?.as_str(),
            wanted,
            "{text}"
        );
    }
    Ok(())
}

#[test]
fn refuses_items(rt: HostRuntime) -> Result<(), Fail> {
    for text in [
        "use",
        "use +",
        "use a (b)",
        "type A",
        "type A =",
        "type A = b |",
        "type A = b = c",
        "type a = B",
        "type A.b = C",
        "type A B = c",
        "type A = a.b",
        "type A = B _",
        "structural A = b",
        "structural unique type A = b",
        "unique[+] type A = b",
        "unique[a type A = b",
        "unique[a] A = b",
        "x",
        "x :",
        "x : a b",
        "x : A = 5",
        "x =",
        "x = y = z",
        "5 = x",
        "+ a = b",
        "a + b c = d",
        "a + 5 = d",
        ">",
        "> a b : T",
        "> a = b",
    ] {
        assert_eq!(rt;
            shown(&rt, rt.alloc(), text.as_bytes())?.as_str(),
            "-",
            "{text}"
        );
    }
    Ok(())
}

#[test]
fn refuses_expressions(rt: HostRuntime) -> Result<(), Fail> {
    for text in [
        "> a +",
        "> + a",
        "> a ||",
        "> && a",
        "> (a",
        "> (,)",
        "> (a,)",
        "> [a,]",
        "> (+ a)",
        "> (x -> e : T)",
        "> (a : b",
        "> (a : b, c)",
        "> _",
        "> _ + a",
        "> if a then b",
        "> if a else b",
        "> match a with",
        "> match with a -> b",
        "> cases",
        "> cases a",
        "> cases a | -> b",
        "> let",
        "> let\n  x = 1",
        "> let\n  x.y = 1\n  x",
        "> let\n  x Nat.+ y = 1\n  x",
        "> let\n  > x\n  x",
        "> let\n  x\n  y",
    ] {
        assert_eq!(rt;
            shown(&rt, rt.alloc(), text.as_bytes())?.as_str(),
            "-",
            "{text}"
        );
    }
    Ok(())
}

/// A type of one letter whose constructor has a name of so many letters.
fn declared(alloc: Global, length: usize) -> Result<Vec<u8>, Fail> {
    let mut text = Vec::from_slice(alloc, b"type T = ")?;
    for _ in 0..length {
        text.push(b'c')?;
    }
    Ok(text)
}

#[test]
fn limits_names_of_constructors(rt: HostRuntime) -> Result<(), Fail> {
    for (length, read) in [(1usize, true), (126, true), (127, false)] {
        let text = declared(rt.alloc(), length)?;
        let shown = shown(&rt, rt.alloc(), text.as_slice())?;
        assert_eq!(rt; shown.as_str() != "-", read, "{length}");
    }
    Ok(())
}
