//! Patterns as they are read.

use crate::read_patterns::read_pattern;
use crate::shown::{levels_fit, write_pattern};
use crate::stop::Stop;
use crate::terminal::{Terminal, terminals};
use std::alloc::Global;
use std::process::Abort;
use std::test::Fail;
use uc_layout::lex;

/// The pattern at the front and how many tokens stand behind it, or `-` where there is none.
fn shown(rt: &impl Abort, alloc: Global, text: &str) -> Result<String, Fail> {
    let blocks = lex(alloc, text.as_bytes())?;
    let tokens = terminals(alloc, blocks.tokens())?;
    let pattern = match tokens.as_slice() {
        [Terminal::Item(_), pattern @ ..] => pattern,
        other => other,
    };
    assert!(rt; levels_fit(9, pattern));
    let mut out = Vec::new(alloc);
    match read_pattern(alloc, 9, pattern) {
        Err(Stop::Memory) => return Err("no memory".into()),
        Err(Stop::Absent) => out.push(b'-')?,
        Ok((pattern, rest)) => {
            write_pattern(9, &pattern, &mut out)?;
            if !rest.is_empty() {
                let left = rest.len();
                out.extend_from_slice(format!(in alloc; " +{left}")?.as_bytes())?;
            }
        }
    }
    Ok(String::from_utf8(out)?)
}

#[test]
fn reads_patterns(rt: HostRuntime) -> Result<(), Fail> {
    for (text, wanted) in [
        ("_", "_@1:1"),
        ("a", "a@1:1"),
        ("a@b@_", "a@1:1 as b@1:3 as _@1:5"),
        ("5", "N5@1:1"),
        ("-5", "I-5@1:1"),
        ("\"x\"", "T\"x\"@1:1"),
        ("?x", "C?x@1:1"),
        ("true", "+true@1:1"),
        ("false", "-false@1:1"),
        ("None", "!None@1:1"),
        ("##Nat", "!##Nat@1:1"),
        ("Some a", "<!Some@1:1 a@1:6>"),
        (
            "a.B x@(c) _ 1 D",
            "<!a.B@1:1 x@1:5 as (c@1:8)@1:7 _@1:11 N1@1:13 !D@1:15>",
        ),
        ("#00000000 a", "<!#00000000@1:1 a@1:11>"),
        ("()", "()@1:1"),
        ("(a)", "(a@1:2)@1:1"),
        ("(a,\n _)", "(a@1:2, _@2:2)@1:1"),
        ("[]", "[]@1:1"),
        ("[a]", "[a@1:2]@1:1"),
        ("[A b, c]", "[<!A@1:2 b@1:4>, c@1:7]@1:1"),
        ("a +: F b +: c", "a@1:1 +: <!F@1:6 b@1:8> +: c@1:13"),
        ("a :+ F b :+ c", "a@1:1 :+ <!F@1:6 b@1:8> :+ c@1:13"),
        ("a +: b :+ c", "a@1:1 +: b@1:6 :+ c@1:11"),
        ("a -> b", "a@1:1 +5"),
        ("F | b", "!F@1:1 +2"),
    ] {
        assert_eq!(rt; shown(&rt, rt.alloc(), text)?.as_str(), wanted, "{text}");
    }
    Ok(())
}

#[test]
fn refuses_patterns(rt: HostRuntime) -> Result<(), Fail> {
    for text in [
        "",
        "->",
        "+: a",
        "a +:",
        "a :+",
        "a :+ b +: c",
        "a@",
        "@a",
        "a@@b",
        "_@b",
        "A@b",
        "a b",
        "5 5",
        "x@F a",
        "F a@",
        "(a",
        "(,)",
        "(a,)",
        "[a,]",
        "[,]",
        "[a",
        "(a b)",
        "()@a",
        "+",
        ")",
    ] {
        assert_eq!(rt; shown(&rt, rt.alloc(), text)?.as_str(), "-", "{text}");
    }
    Ok(())
}
