//! The items of texts, by their tokens.

use super::first_item;
use std::alloc::Global;
use std::test::Fail;
use uc_layout::{Token, lex};

/// The texts of tokens without the marks, with a bar behind each item.
fn shown(alloc: Global, tokens: &[Token]) -> Result<Vec<u8>, Fail> {
    let mut out = Vec::new(alloc);
    let mut rest = tokens;
    'items: while let Some((item, _)) = first_item(rest) {
        for token in item {
            out.extend_from_slice(token.text)?;
        }
        out.push(b'|')?;
        rest = &rest[item.len()..];
    }
    Ok(out)
}

#[test]
fn cuts_items(rt: HostRuntime) -> Result<(), Fail> {
    for (text, wanted) in [
        ("", ""),
        ("x = 5\n", "x=5|"),
        ("use a b\nx : Nat\nx = 5\n\n> x", "useab|x:Nat|x=5|>x|"),
        (
            "x y =\n  use a b\n  z = y\n  cases\n    1 -> z\n    2 -> y\ntype A = B\n",
            "xy=useabz=ycases1->z2->y|typeA=B|",
        ),
    ] {
        let blocks = lex(rt.alloc(), text.as_bytes())?;
        let shown = shown(rt.alloc(), blocks.tokens())?;
        assert_eq!(rt; shown.as_slice(), wanted.as_bytes(), "{text}");
    }
    Ok(())
}
