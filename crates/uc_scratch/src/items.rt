//! The items of a file among the tokens of a text.
ghost use Rattle.std.specs.Prelude.{◌≡◌, ◌+◌, ◌<◌, ◌==◌, ◌||◌, ◌^◌, [], ◌∷◌, ◌++◌, ⊤, length, MatchOption};
ghost use Rattle.uc_layout.specs.Tokens.{seen};
ghost use Rattle.uc_scratch.specs.ItemGrammar as spec;
ghost use Rattle.uc_scratch.specs.ItemGrammar.{items_among};

#[cfg(test)]
mod tests;

use uc_layout::{Kind, Token};

fn blocks_behind(blocks: usize, kind: Kind) -> usize
    requires { blocks + 1 < 2 ^ 64 }
    ensures { result ≡ spec.blocks_behind blocks kind }
{
    match kind {
        Kind::Opens => blocks + 1,
        Kind::Closes => blocks.saturating_sub(1),
        _ => blocks,
    }
}

/// Whether an item ends before these tokens, where so many blocks are open.
fn ends_before(blocks: usize, tokens: &[Token]) -> bool
    ensures { result ≡ (length tokens.now == 0 || spec.begins_item blocks (seen tokens.now)) }
{
    match tokens {
        [] => true,
        [token, ..] => blocks == 0 && token.kind == Kind::Item,
    }
}

/// The first item, and what stands behind it; `None` where there is no token.
pub fn first_item<'a, 'b>(tokens: &'b [Token<'a>]) -> Option<(&'b [Token<'a>], &'b [Token<'a>])>
    ensures cut { MatchOption result (tokens.now ≡ [])
        (λ x. items_among (seen tokens.now) ≡ seen x.0.now ∷ items_among (seen x.1.now)) }
    ensures whole { MatchOption result ⊤ (λ x. tokens.now ≡ x.0.now ++ x.1.now) }
    ensures some { MatchOption result ⊤ (λ x. 0 < length x.0.now) }
{
    let mut blocks = 0;
    for (i, token) in tokens.iter().enumerate() {
        blocks = blocks_behind(blocks, token.kind);
        let (item, after) = tokens.split_at(i + 1);
        if ends_before(blocks, after) {
            return Some((item, after));
        }
    }
    None
}
