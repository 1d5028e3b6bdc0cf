//! Types as they are read.

use crate::read_types::read_type;
use crate::shown::{levels_fit, write_type};
use crate::stop::Stop;
use crate::terminal::{Terminal, terminals};
use std::alloc::Global;
use std::process::Abort;
use std::test::Fail;
use uc_layout::lex;

/// The type behind a colon and how many tokens stand behind it, or `-` where there is none.
fn shown(rt: &impl Abort, alloc: Global, text: &str) -> Result<String, Fail> {
    let blocks = lex(alloc, text.as_bytes())?;
    let tokens = terminals(alloc, blocks.tokens())?;
    let of = match tokens.as_slice() {
        [Terminal::Item(_), Terminal::Colon, of @ ..] => of,
        _ => return Err("no colon".into()),
    };
    assert!(rt; levels_fit(9, of));
    let mut out = Vec::new(alloc);
    match read_type(alloc, 9, of) {
        Err(Stop::Memory) => return Err("no memory".into()),
        Err(Stop::Absent) => out.push(b'-')?,
        Ok((of, rest)) => {
            write_type(9, &of, &mut out)?;
            if !rest.is_empty() {
                let left = rest.len();
                out.extend_from_slice(format!(in alloc; " +{left}")?.as_bytes())?;
            }
        }
    }
    Ok(String::from_utf8(out)?)
}

#[test]
fn reads_types(rt: HostRuntime) -> Result<(), Fail> {
    for (text, wanted) in [
        (": a", "a@1:3"),
        (": Nat", "!Nat@1:3"),
        (": a.b", "!a.b@1:3"),
        (": #00000000", "!#00000000@1:3"),
        (": ##Nat", "!##Nat@1:3"),
        (": ()", "()@1:3"),
        (": (a)", "(a@1:4)@1:3"),
        (": (a,\n b)", "(a@1:4, b@2:2)@1:3"),
        (": (a, (), [c])", "(a@1:4, ()@1:7, [c@1:12]@1:11)@1:3"),
        (": [F a]", "[<!F@1:4 a@1:6>]@1:3"),
        (": List a", "<!List@1:3 a@1:8>"),
        (
            ": F (k) [v] () G a",
            "<!F@1:3 (k@1:6)@1:5 [v@1:10]@1:9 ()@1:13 !G@1:16 a@1:18>",
        ),
        (": a -> B -> c", "a@1:3 -> !B@1:8 -> c@1:13"),
        (
            ": (a -> b) -> F c",
            "(a@1:4 -> b@1:9)@1:3 -> <!F@1:15 c@1:17>",
        ),
        (
            ": forall a b. a -> b",
            "forall@1:3 a@1:10 b@1:12 . a@1:15 -> b@1:20",
        ),
        (
            ": a -> forall b. F b",
            "a@1:3 -> forall@1:8 b@1:15 . <!F@1:18 b@1:20>",
        ),
        (": F a = b", "<!F@1:3 a@1:5> +2"),
        (": F _", "!F@1:3 +1"),
    ] {
        assert_eq!(rt; shown(&rt, rt.alloc(), text)?.as_str(), wanted, "{text}");
    }
    Ok(())
}

#[test]
fn refuses_types(rt: HostRuntime) -> Result<(), Fail> {
    for text in [
        ": ",
        ": ->",
        ": a b",
        ": a (b)",
        ": a ->",
        ": -> a",
        ": forall",
        ": forall . a",
        ": forall a",
        ": forall a -> a",
        ": forall A. a",
        ": forall a.",
        ": (a",
        ": (a,)",
        ": (,)",
        ": (a b)",
        ": []",
        ": [a, b]",
        ": [a",
        ": F (",
        ": _",
        ": 5",
        ": +",
        ": a -> b c",
        ": )",
    ] {
        assert_eq!(rt; shown(&rt, rt.alloc(), text)?.as_str(), "-", "{text}");
    }
    Ok(())
}
