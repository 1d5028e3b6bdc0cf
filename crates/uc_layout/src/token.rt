//! Tokens.

use uc_base::Place;

/// What a token is. `Symbol` stands for the reserved operators and for `( ) [ ] , . @`. The last three are marks
/// among the tokens: where a block begins, where it ends, and where an item of a block or of the file begins.
#[derive(Clone, Copy, Debug, PartialEq, Eq)]
pub enum Kind {
    Name,
    Wildcard,
    Keyword,
    Symbol,
    Nat,
    Int,
    Text,
    Char,
    Hash,
    Builtin,
    Opens,
    Closes,
    Item,
}

/// A token with its slice of the source and the place of its first character. A mark has an empty text and the place
/// of the next token that is no mark, or else the place where the text ends.
#[derive(Clone, Copy, Debug)]
pub struct Token<'a> {
    pub kind: Kind,
    pub text: &'a [u8],
    pub place: Place,
}
