//! What layout sees of tokens, and the marks among them.

/// What layout sees of a token's text.
#[derive(Clone, Copy, Debug, PartialEq, Eq)]
pub enum Role {
    Plain,
    /// `=`, `->`, `cases` or `let`: a block stands behind it.
    Opener,
    If,
    Then,
    Else,
    Match,
    With,
    Bar,
    Colon,
    /// `type`, `structural` or `unique`.
    Declares,
    Left,
    Right,
    Comma,
}

/// A token: its role, whether it is the first of its line, and its column.
#[derive(Clone, Copy, Debug, PartialEq, Eq)]
pub struct Piece {
    pub role: Role,
    pub first: bool,
    pub column: u32,
}

/// A token, or a mark between tokens.
#[derive(Clone, Copy, Debug, PartialEq, Eq)]
pub enum Mark {
    Opens,
    Closes,
    Item,
    Token(Piece),
}

/// What tokens stand in: the file, a bracket, a block with a column, or a block that began in its opener's line.
#[derive(Clone, Copy, Debug, PartialEq, Eq)]
pub enum Container {
    File,
    Bracket,
    Block,
    Inline,
}

/// How many words wait for their `then`, `else` or `with`.
#[derive(Clone, Copy, Debug, PartialEq, Eq)]
pub struct Waiting {
    pub thens: u64,
    pub elses: u64,
    pub withs: u64,
}

/// Whether words wait outside a block, inside the innermost open bracket.
#[derive(Clone, Copy, Debug, PartialEq, Eq)]
pub struct Outside {
    pub thens: bool,
    pub elses: bool,
    pub withs: bool,
}

/// A container at a place of it.
#[derive(Clone, Copy, Debug, PartialEq, Eq)]
pub struct Region {
    pub container: Container,
    /// The column of the innermost block that has one, inside the innermost open bracket; 0 where there is none.
    pub column: u32,
    /// Whether a bracket is open.
    pub bracketed: bool,
    /// What waits outside the block.
    pub outside: Outside,
    /// What waits in the item so far, or in the bracket.
    pub waiting: Waiting,
    /// Whether the text from here to the end of the item or bracket is type text.
    pub types: bool,
}
