//! Texts with their tokens, marks, places and faults.

use crate::{Blocks, Kind, TEXT_LIMIT, layout_of, lex};
use std::alloc::Global;
use std::process::Abort;
use std::test::Fail;
use uc_base::{Fault, Place};

/// The texts of tokens with a space before each, and `{`, `}` and `;` for the marks.
fn shown(alloc: Global, blocks: &Blocks) -> Result<Vec<u8>, Fail> {
    let mut out = Vec::new(alloc);
    for token in blocks.tokens() {
        out.push(b' ')?;
        match token.kind {
            Kind::Opens => out.push(b'{')?,
            Kind::Closes => out.push(b'}')?,
            Kind::Item => out.push(b';')?,
            _ => out.extend_from_slice(token.text)?,
        }
    }
    Ok(out)
}

fn letter(kind: Kind) -> u8 {
    match kind {
        Kind::Name => b'n',
        Kind::Wildcard => b'w',
        Kind::Keyword => b'k',
        Kind::Symbol => b's',
        Kind::Nat => b'N',
        Kind::Int => b'I',
        Kind::Text => b'T',
        Kind::Char => b'C',
        Kind::Hash => b'H',
        Kind::Builtin => b'B',
        Kind::Opens | Kind::Closes | Kind::Item => b'-',
    }
}

/// The tokens without marks, each with a letter for its kind.
fn kinds(alloc: Global, blocks: &Blocks) -> Result<Vec<u8>, Fail> {
    let mut out = Vec::new(alloc);
    for token in blocks.tokens() {
        if letter(token.kind) != b'-' {
            out.push(b' ')?;
            out.push(letter(token.kind))?;
            out.push(b':')?;
            out.extend_from_slice(token.text)?;
        }
    }
    Ok(out)
}

/// Holds where a text is cut into such tokens.
fn cuts(rt: &impl Abort, alloc: Global, text: &str, wanted: &str) -> Result<(), Fail> {
    let blocks = lex(alloc, text.as_bytes())?;
    assert_eq!(rt;
        kinds(alloc, &blocks)?.as_slice(),
        wanted.as_bytes(),
        "{text}"
    );
    Ok(())
}

#[test]
fn cuts_names_and_symbols(rt: HostRuntime) -> Result<(), Fail> {
    for (text, wanted) in [
        ("", ""),
        ("if do_ x' _ __ _x", " k:if n:do_ n:x' w:_ n:__ n:_x"),
        ("->-", " n:->-"),
        ("x!=y", " n:x! s:= n:y"),
        ("+--", " n:+--"),
        ("forall a.b", " k:forall n:a.b"),
        ("a.+ a..b a. b", " n:a.+ n:a s:. s:. n:b n:a s:. n:b"),
        ("= -> : | && ||", " s:= s:-> s:: s:| s:&& s:||"),
        ("(a,b)@[].", " s:( n:a s:, n:b s:) s:@ s:[ s:] s:."),
        (" test> test >", " n:test n:> n:test n:>"),
    ] {
        cuts(&rt, rt.alloc(), text, wanted)?;
    }
    Ok(())
}

#[test]
fn cuts_literals(rt: HostRuntime) -> Result<(), Fail> {
    for (text, wanted) in [
        ("=-1", " n:=- N:1"),
        (":-1", " n::- N:1"),
        ("|-1", " n:|- N:1"),
        (">-1", " n:>- N:1"),
        ("f -1", " n:f I:-1"),
        ("f - 1", " n:f n:- N:1"),
        ("+1+2", " I:+1 I:+2"),
        ("?  ?\" ?é ?\\n ?\\\"", " C:?  C:?\" C:?é C:?\\n C:?\\\""),
        (
            "18446744073709551615 -9223372036854775808",
            " N:18446744073709551615 I:-9223372036854775808",
        ),
        (
            "\"\" \"a\\\"b\" \"\t\r\0é\"",
            " T:\"\" T:\"a\\\"b\" T:\"\t\r\0é\"",
        ),
    ] {
        cuts(&rt, rt.alloc(), text, wanted)?;
    }
    Ok(())
}

#[test]
fn cuts_references(rt: HostRuntime) -> Result<(), Fail> {
    for (text, wanted) in [
        ("#00000000g", " H:#00000000 n:g"),
        ("#00000000.01", " H:#00000000.0 N:1"),
        ("#00000000.12#3", " H:#00000000.12#3"),
        ("#00000000#0", " H:#00000000#0"),
        ("#0123456789abcdef.", " H:#0123456789abcdef s:."),
        ("#00000000.1234567890", " H:#00000000.123456789 N:0"),
        ("##Nat.+ ##List", " B:##Nat.+ B:##List"),
    ] {
        cuts(&rt, rt.alloc(), text, wanted)?;
    }
    Ok(())
}

#[test]
fn passes_over_comments_and_folds(rt: HostRuntime) -> Result<(), Fail> {
    for (text, wanted) in [
        ("a--b", " n:a"),
        ("a -- b", " n:a"),
        ("a\t\rb", " n:a n:b"),
        ("a\n---\n;{", " n:a"),
        ("a\n--- \t\r\n;{", " n:a"),
        ("a\n--- b\nc", " n:a n:c"),
        (" ---\na", " n:a"),
    ] {
        cuts(&rt, rt.alloc(), text, wanted)?;
    }
    Ok(())
}

fn refuses(rt: &impl Abort, alloc: Global, text: &[u8], wanted: &Fault) {
    match lex(alloc, text) {
        Ok(_) => assert!(rt; false, "a text with no layout"),
        Err(fault) => assert_eq!(rt; &fault, wanted),
    }
}

#[test]
fn refuses_numbers(rt: HostRuntime) {
    for (text, line, column) in [
        ("x = 18446744073709551616", 1, 5),
        ("-9223372036854775809", 1, 1),
        ("+9223372036854775808", 1, 1),
        (" 5a", 1, 2),
        ("5_", 1, 1),
    ] {
        let fault = Fault::BadToken(Place { line, column });
        refuses(&rt, rt.alloc(), text.as_bytes(), &fault);
    }
}

#[test]
fn refuses_paths(rt: HostRuntime) {
    for (text, line, column) in [
        (" a.if", 1, 2),
        ("if.a", 1, 1),
        ("a.do", 1, 1),
        ("a._", 1, 1),
        ("_.a", 1, 1),
        ("a.1", 1, 1),
        ("a.'", 1, 1),
        ("a.!", 1, 1),
        ("a.->", 1, 1),
        ("a.=", 1, 1),
        ("a.--b", 1, 1),
        ("Nat.+.x", 1, 1),
    ] {
        let fault = Fault::BadToken(Place { line, column });
        refuses(&rt, rt.alloc(), text.as_bytes(), &fault);
    }
    refuses(
        &rt,
        rt.alloc(),
        &[b'a'; 129],
        &Fault::BadToken(Place { line: 1, column: 1 }),
    );
}

#[test]
fn refuses_references(rt: HostRuntime) {
    for (text, line, column) in [
        ("#0000000", 1, 1),
        ("#0000000A", 1, 1),
        ("x#00000000", 1, 2),
        ("5#00000000", 1, 2),
        ("a!#00000000", 1, 3),
        ("#00000000#", 1, 10),
        ("##Natx", 1, 1),
        ("x ##Nat.foo", 1, 3),
        ("##", 1, 1),
    ] {
        let fault = Fault::BadToken(Place { line, column });
        refuses(&rt, rt.alloc(), text.as_bytes(), &fault);
    }
}

#[test]
fn refuses_characters(rt: HostRuntime) {
    for (text, line, column) in [
        (";", 1, 1),
        ("`", 1, 1),
        ("\\", 1, 1),
        ("é", 1, 1),
        ("\u{c}", 1, 1),
        ("x \"é\" ;", 1, 7),
        ("\t\r;", 1, 3),
        ("a\n\n;{", 3, 1),
    ] {
        let fault = Fault::BadToken(Place { line, column });
        refuses(&rt, rt.alloc(), text.as_bytes(), &fault);
    }
}

#[test]
fn refuses_texts_and_chars(rt: HostRuntime) {
    for (text, line, column) in [
        ("\"abc", 1, 1),
        ("a\n \"abc\n\"", 2, 2),
        ("\"\\q\"", 1, 1),
        ("?", 1, 1),
        ("?\n", 1, 1),
        ("?\r", 1, 1),
        ("?\\q", 1, 1),
    ] {
        let fault = Fault::BadToken(Place { line, column });
        refuses(&rt, rt.alloc(), text.as_bytes(), &fault);
    }
}

#[test]
fn tells_what_is_left_out(rt: HostRuntime) {
    for (text, line, column) in [
        ("x = 1.5", 1, 5),
        ("99999999999999999999.5", 1, 1),
        (" +1.5", 1, 2),
        ("do", 1, 1),
        ("ability", 1, 1),
        ("handle", 1, 1),
        ("termLink", 1, 1),
        ("typeLink", 1, 1),
        ("namespace", 1, 1),
        ("test> 1", 1, 1),
        ("x\ntest>= 1", 2, 1),
        ("\"\"\"a\"\"\"", 1, 1),
        ("{", 1, 1),
        ("a }", 1, 3),
        ("'a", 1, 1),
        ("!", 1, 1),
        ("!x", 1, 1),
        ("{ ;", 1, 1),
    ] {
        let fault = Fault::LeftOut(Place { line, column });
        refuses(&rt, rt.alloc(), text.as_bytes(), &fault);
    }
}

#[test]
fn refuses_other_encodings(rt: HostRuntime) {
    for text in [b";\xff".as_slice(), b"x\n---\n\xff".as_slice()] {
        refuses(&rt, rt.alloc(), text, &Fault::NotUtf8);
    }
}

/// Holds where a text has such blocks and items, plainly laid out and in one pass.
fn marks(rt: &impl Abort, alloc: Global, text: &str, wanted: &str) -> Result<(), Fail> {
    let plain = layout_of(alloc, text.as_bytes())?;
    assert_eq!(rt;
        shown(alloc, &plain)?.as_slice(),
        wanted.as_bytes(),
        "{text} plainly"
    );
    let blocks = lex(alloc, text.as_bytes())?;
    assert_eq!(rt;
        shown(alloc, &blocks)?.as_slice(),
        wanted.as_bytes(),
        "{text}"
    );
    Ok(())
}

#[test]
fn marks_items_and_blocks(rt: HostRuntime) -> Result<(), Fail> {
    for (text, wanted) in [
        ("x = 5", " ; x = { ; 5 }"),
        ("   x = 5\ny = 6", " ; x = { ; 5 } ; y = { ; 6 }"),
        ("f x = a\n  + b", " ; f x = { ; a + b }"),
        ("f =\n  a\n  + b", " ; f = { ; a ; + b }"),
        (
            "f =\n    a ->\n        b\n      c\n  d",
            " ; f = { ; a -> { ; b } c } d",
        ),
        ("f =\ng = 1", " ; f = { } ; g = { ; 1 }"),
        ("f =", " ; f = { }"),
        ("f = )", " ; f = { } )"),
        ("f = then", " ; f = { } then { }"),
        ("(a -> , b)", " ; ( a -> { } , b )"),
        ("f = | a", " ; f = { ; | a }"),
        ("x = 1\n---\ny = 2", " ; x = { ; 1 }"),
    ] {
        marks(&rt, rt.alloc(), text, wanted)?;
    }
    Ok(())
}

#[test]
fn marks_conditionals(rt: HostRuntime) -> Result<(), Fail> {
    for (text, wanted) in [
        (
            "> if a then b else c",
            " ; > if a then { ; b } else { ; c }",
        ),
        (
            "f =\n  if a\n  then b\n  else c",
            " ; f = { ; if a then { ; b } else { ; c } }",
        ),
        (
            "x = if a then if b then 1 else 2 else 3",
            " ; x = { ; if a then { ; if b then { ; 1 } else { ; 2 } } else { ; 3 } }",
        ),
        (
            "x = if if a then b else c then d else e",
            " ; x = { ; if if a then { ; b } else { ; c } then { ; d } else { ; e } }",
        ),
        ("x = else a", " ; x = { } else { ; a }"),
        (
            "x = (y -> if a) then b",
            " ; x = { ; ( y -> { ; if a } ) then { ; b } }",
        ),
    ] {
        marks(&rt, rt.alloc(), text, wanted)?;
    }
    Ok(())
}

#[test]
fn marks_cases(rt: HostRuntime) -> Result<(), Fail> {
    for (text, wanted) in [
        (
            "x = match a with\n  B -> 1\n  C | c -> 2",
            " ; x = { ; match a with { ; B -> { ; 1 } ; C | c -> { ; 2 } } }",
        ),
        (
            "x = match match a with\n      B -> c\n    with\n      D -> e",
            " ; x = { ; match match a with { ; B -> { ; c } } with { ; D -> { ; e } } }",
        ),
        (
            "x = match (match a with B -> c) with D -> e",
            " ; x = { ; match ( match a with { ; B -> { ; c } } ) with { ; D -> { ; e } } }",
        ),
        (
            "f = cases\n  0 -> a\n  n -> b",
            " ; f = { ; cases { ; 0 -> { ; a } ; n -> { ; b } } }",
        ),
    ] {
        marks(&rt, rt.alloc(), text, wanted)?;
    }
    Ok(())
}

#[test]
fn marks_brackets(rt: HostRuntime) -> Result<(), Fail> {
    for (text, wanted) in [
        ("x = (a ->\n  b\n  c)", " ; x = { ; ( a -> { ; b ; c } ) }"),
        ("x = (a\nb)\nc", " ; x = { ; ( a b ) } ; c"),
        ("x = (\ny = 1", " ; x = { ; ( y = { ; 1 } }"),
        ("x ] y", " ; x ] y"),
        ("x = (a]\ny", " ; x = { ; ( a ] } ; y"),
        ("x = a, b", " ; x = { ; a , b }"),
        ("x = [a -> b, c]", " ; x = { ; [ a -> { ; b } , c ] }"),
    ] {
        marks(&rt, rt.alloc(), text, wanted)?;
    }
    Ok(())
}

#[test]
fn marks_types_and_lets(rt: HostRuntime) -> Result<(), Fail> {
    for (text, wanted) in [
        (
            "structural type T =\n  A\n  | B -> c\nx = 1",
            " ; structural type T = A | B -> c ; x = { ; 1 }",
        ),
        ("x =\n  type = 5", " ; x = { ; type = { ; 5 } }"),
        ("f : a -> b\nf = 1", " ; f : a -> b ; f = { ; 1 }"),
        (
            "x = (a : b -> c) -> d",
            " ; x = { ; ( a : b -> c ) -> { ; d } }",
        ),
        ("x = a : b -> c\n  -> d", " ; x = { ; a : b -> c -> d }"),
        (
            "x =\n  let y = 1\n  y",
            " ; x = { ; let { ; y = { ; 1 } } ; y }",
        ),
    ] {
        marks(&rt, rt.alloc(), text, wanted)?;
    }
    Ok(())
}

/// The place of the last token or mark.
fn last_place(blocks: &Blocks) -> Option<Place> {
    match blocks.tokens() {
        [] => None,
        [.., last] => Some(last.place),
    }
}

#[test]
fn places_marks(rt: HostRuntime) -> Result<(), Fail> {
    for (text, line, column) in [
        ("x = 1", 1, 6),
        ("x = \"é\"", 1, 8),
        ("x = 1 -- é", 1, 11),
        ("x = 1\n", 2, 1),
        ("x = 1\n ---", 2, 5),
        ("x = 1\n\n---\n1", 3, 1),
    ] {
        let blocks = lex(rt.alloc(), text.as_bytes())?;
        assert_eq!(rt; last_place(&blocks), Some(Place { line, column }), "{text}");
    }
    let blocks = lex(rt.alloc(), b"x =\n  y")?;
    let mut places = Vec::new(rt.alloc());
    for token in blocks.tokens() {
        places.push((token.place.line, token.place.column))?;
    }
    assert_eq!(rt;
        places.as_slice(),
        [(1, 1), (1, 1), (1, 3), (2, 3), (2, 3), (2, 3), (2, 4)].as_slice()
    );
    Ok(())
}

const SHOPPING_LISTS: &str = "use Nat + ==

-- Shopping lists.
structural type Maybe a = None | Some a

unique[basket1] type Basket
  = Basket [(Text, Nat)]

Basket.empty : Basket
Basket.empty = Basket.Basket []

Basket.put : Text -> Nat -> Basket -> Basket
Basket.put name count = cases
  Basket.Basket items ->
    Basket.Basket ((name, count) List.+: items)

find : Text -> [(Text, Nat)] -> Maybe Nat
find name items = match items with
  [] -> Maybe.None
  (n, c) +: rest
    | n Text.== name -> Maybe.Some c
  _ +: rest -> find name rest

total : Basket -> Nat
total b =
  go : Nat -> [(Text, Nat)] -> Nat
  go acc rest = match rest with
    [] -> acc
    (_, c) +: more -> go (acc + c) more
  match b with
    Basket.Basket items -> go 0 items

> total (Basket.put \"tea\" 2 Basket.empty)
---
notes that are never read
";

#[test]
fn lays_out_shopping_lists(rt: HostRuntime) -> Result<(), Fail> {
    let blocks = lex(rt.alloc(), SHOPPING_LISTS.as_bytes())?;
    let plain = layout_of(rt.alloc(), SHOPPING_LISTS.as_bytes())?;
    let mut wanted = String::new(rt.alloc());
    for item in [
        "use Nat + ==",
        "structural type Maybe a = None | Some a",
        "unique [ basket1 ] type Basket = Basket [ ( Text , Nat ) ]",
        "Basket.empty : Basket",
        "Basket.empty = { ; Basket.Basket [ ] }",
        "Basket.put : Text -> Nat -> Basket -> Basket",
        "Basket.put name count = { ; cases { ; Basket.Basket items -> { ; Basket.Basket ( ( name , count ) List.+: items ) } } }",
        "find : Text -> [ ( Text , Nat ) ] -> Maybe Nat",
        "find name items = { ; match items with { ; [ ] -> { ; Maybe.None } ; ( n , c ) +: rest | n Text.== name -> { ; Maybe.Some c } ; _ +: rest -> { ; find name rest } } }",
        "total : Basket -> Nat",
        "total b = { ; go : Nat -> [ ( Text , Nat ) ] -> Nat ; go acc rest = { ; match rest with { ; [ ] -> { ; acc } ; ( _ , c ) +: more -> { ; go ( acc + c ) more } } } ; match b with { ; Basket.Basket items -> { ; go 0 items } } }",
        "> total ( Basket.put \"tea\" 2 Basket.empty )",
    ] {
        wanted.push_str(" ; ")?;
        wanted.push_str(item)?;
    }
    assert_eq!(rt; shown(rt.alloc(), &blocks)?.as_slice(), wanted.as_bytes());
    assert_eq!(rt; shown(rt.alloc(), &plain)?.as_slice(), wanted.as_bytes());
    Ok(())
}

/// A text that repeats a part as often as it fits into a length.
fn repeated(alloc: Global, part: &[u8], len: usize) -> Result<Vec<u8>, Fail> {
    let mut text = Vec::new(alloc);
    for _ in 0..len {
        if text.len() + part.len() <= len {
            text.extend_from_slice(part)?;
        } else {
            break;
        }
    }
    Ok(text)
}

#[test]
fn limits_texts(rt: HostRuntime) -> Result<(), Fail> {
    let text = repeated(rt.alloc(), b"-", TEXT_LIMIT)?;
    assert_eq!(rt; text.len(), TEXT_LIMIT);
    assert!(rt; lex(rt.alloc(), text.as_slice())?.tokens().is_empty());
    for last in [b'-', 255] {
        let mut longer = repeated(rt.alloc(), b"-", TEXT_LIMIT)?;
        longer.push(last)?;
        refuses(&rt, rt.alloc(), longer.as_slice(), &Fault::TextTooLong);
    }
    Ok(())
}

// Each takes time in proportion to its length, and no more stack than a short text.
#[test]
fn reads_long_texts(rt: HostRuntime) -> Result<(), Fail> {
    for (part, is_laid_out) in [
        ("(", true),
        ("a = ", true),
        ("x = 5\n", true),
        ("x -> (", true),
        ("if a then b else ", true),
        ("a.", false),
    ] {
        let text = repeated(rt.alloc(), part.as_bytes(), TEXT_LIMIT)?;
        assert_eq!(rt;
            lex(rt.alloc(), text.as_slice()).is_ok(),
            is_laid_out,
            "{part}"
        );
    }
    Ok(())
}
