//! How many levels of brackets and blocks some tokens take.
ghost use Rattle.std.specs.Prelude.{◌≡◌, ◌+◌, ◌<◌, ◌^◌};
ghost use Rattle.uc_scratch.specs.Nesting as spec;

use crate::nesting::Nests;
use crate::terminal::Terminal;

/// What a token does to what is open.
fn nests_of(token: &Terminal) -> Nests
    ensures { result ≡ spec.nests_of token.now }
{
    match token {
        Terminal::Left(_) | Terminal::LeftSquare(_) => Nests::OpensBracket,
        Terminal::Right | Terminal::RightSquare => Nests::ClosesBracket,
        Terminal::Opens => Nests::OpensBlock,
        Terminal::Closes => Nests::ClosesBlock,
        _ => Nests::Neither,
    }
}

/// How many levels may still be opened behind a token; `None` where it opens one too many.
fn levels_behind(levels: usize, nests: Nests) -> Option<usize>
    requires { levels + 1 < 2 ^ 64 }
    ensures { result ≡ spec.levels_behind levels nests }
{
    match nests {
        Nests::OpensBracket | Nests::OpensBlock => levels.checked_sub(1),
        Nests::ClosesBracket | Nests::ClosesBlock => Some(levels + 1),
        Nests::Neither => Some(levels),
    }
}

/// Whether never more than so many levels are opened at once.
pub fn fits(levels: usize, tokens: &[Terminal]) -> bool
    ensures { result ≡ spec.fits levels tokens.now }
{
    let mut left = levels;
    for (i, token) in tokens.iter().enumerate() {
        // As many levels as tokens are enough.
        if tokens.len() - i <= left {
            return true;
        }
        match levels_behind(left, nests_of(token)) {
            None => return false,
            Some(behind) => left = behind,
        }
    }
    true
}
