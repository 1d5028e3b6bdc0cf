//! Levels of brackets and blocks, by the count of brackets.

use super::too_deep_place;
use std::alloc::{AllocError, Global};
use std::test::Fail;
use uc_base::Place;
use uc_layout::lex;

/// `x = ` and a text between as many brackets.
fn in_brackets(alloc: Global, count: usize, text: &str) -> Result<String, AllocError> {
    let mut whole = String::from_str(alloc, "x = ")?;
    for _ in 0..count {
        whole.push_str("(")?;
    }
    whole.push_str(text)?;
    for _ in 0..count {
        whole.push_str(")")?;
    }
    Ok(whole)
}

#[test]
fn finds_the_place_of_level_129(rt: HostRuntime) -> Result<(), Fail> {
    // The block behind `=` is a level, and so is the one behind `->`.
    for (count, text, wanted) in [
        (0, "5", None),
        (127, "5", None),
        (128, "5", Some((1, 132))),
        (129, "5", Some((1, 132))),
        (126, "y -> z", None),
        (127, "y -> z", Some((1, 134))),
        (126, "()()[][]", None),
        (127, "5 ()", Some((1, 134))),
        (123, "\n  let\n    y = [()]\n    [(())]", None),
        (123, "\n  let\n    y = [()]\n    [((()))]", Some((4, 8))),
    ] {
        let text = in_brackets(rt.alloc(), count, text)?;
        let blocks = lex(rt.alloc(), text.as_bytes())?;
        let place = too_deep_place(rt.alloc(), blocks.tokens())?;
        let wanted = wanted.map(|(line, column)| Place { line, column });
        assert_eq!(rt; place, wanted, "{text}");
    }
    Ok(())
}
