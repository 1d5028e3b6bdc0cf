//! What stands at the front of tokens.
ghost use Rattle.std.specs.Prelude.{◌≡◌, List, [], ◌∷◌, MatchOption};
ghost use Rattle.uc_scratch.specs.declared.terminal.Terminal.{Terminal as Seen};
ghost use Rattle.uc_base.specs.declared.place.Place.{Place as PlaceSeen};
ghost use Rattle.uc_scratch.specs.declared.terminal.Terminal.TheVariants.{Item};
ghost use Rattle.uc_scratch.specs.Marks.{mark_terminal};
ghost use Rattle.uc_scratch.specs.Marks as spec;
ghost use Rattle.uc_scratch.specs.Follows as follows;

use crate::terminal::Terminal;
use uc_base::Place;

/// A token that has no text and no place of its own.
#[derive(Clone, Copy, Debug, PartialEq, Eq)]
pub enum Mark {
    Right,
    RightSquare,
    Comma,
    Dot,
    At,
    Equals,
    Arrow,
    Colon,
    Bar,
    Then,
    Else,
    With,
    Opens,
    Closes,
}

fn mark_of(t: &Terminal) -> Option<Mark>
    ensures { result ≡ spec.mark_of t.now }
{
    match t {
        Terminal::Right => Some(Mark::Right),
        Terminal::RightSquare => Some(Mark::RightSquare),
        Terminal::Comma => Some(Mark::Comma),
        Terminal::Dot => Some(Mark::Dot),
        Terminal::At => Some(Mark::At),
        Terminal::Equals => Some(Mark::Equals),
        Terminal::Arrow => Some(Mark::Arrow),
        Terminal::Colon => Some(Mark::Colon),
        Terminal::Bar => Some(Mark::Bar),
        Terminal::Then => Some(Mark::Then),
        Terminal::Else => Some(Mark::Else),
        Terminal::With => Some(Mark::With),
        Terminal::Opens => Some(Mark::Opens),
        Terminal::Closes => Some(Mark::Closes),
        _ => None,
    }
}

/// The first token and those behind it.
pub fn first(tokens: &[Terminal]) -> Option<(&Terminal, &[Terminal])>
    ensures { MatchOption result (tokens.now ≡ []) (λ x. tokens.now ≡ x.0.now ∷ x.1.now) }
{
    match tokens {
        [] => None,
        [t, rest @ ..] => Some((t, rest)),
    }
}

/// What stands behind a token, where it is the first.
pub fn behind(mark: Mark, tokens: &[Terminal]) -> Option<&[Terminal]>
    ensures { MatchOption result ((us : List Seen) → tokens.now ≡ mark_terminal mark ∷ us → ⊥)
        (λ x. tokens.now ≡ mark_terminal mark ∷ x.now) }
{
    match first(tokens) {
        None => None,
        Some((t, rest)) => {
            if mark_of(t) == Some(mark) {
                Some(rest)
            } else {
                None
            }
        }
    }
}

/// With what of an expression the next token can go on.
pub fn reach(tokens: &[Terminal]) -> u8
    ensures { result ≡ follows.reach tokens.now }
{
    match first(tokens) {
        None => 6,
        Some((t, _)) => goes_on(t),
    }
}

fn goes_on(t: &Terminal) -> u8
    ensures { result ≡ follows.goes_on t.now }
{
    match t {
        Terminal::Small(_)
        | Terminal::Capital(_)
        | Terminal::Dotted(_)
        | Terminal::Literal(_)
        | Terminal::Reference(_)
        | Terminal::Left(_)
        | Terminal::LeftSquare(_) => 0,
        Terminal::If(_) | Terminal::Match(_) | Terminal::Cases(_) | Terminal::Let(_) => 1,
        Terminal::Cons(_) | Terminal::Snoc(_) | Terminal::Greater(_) | Terminal::Operator(_) => 2,
        Terminal::AndAnd => 3,
        Terminal::OrOr => 4,
        Terminal::Arrow | Terminal::Wildcard(_) => 5,
        _ => 6,
    }
}

/// The place of `(`.
pub fn left_of(t: &Terminal) -> Option<Place>
    ensures { result ≡ spec.left_of t.now }
{
    match t {
        Terminal::Left(place) => Some(*place),
        _ => None,
    }
}

/// The place of `use`.
pub fn use_of(t: &Terminal) -> Option<Place>
    ensures { result ≡ spec.use_of t.now }
{
    match t {
        Terminal::Use(place) => Some(*place),
        _ => None,
    }
}

fn item_of(t: &Terminal) -> Option<Place>
    ensures { result ≡ spec.item_of t.now }
{
    match t {
        Terminal::Item(place) => Some(*place),
        _ => None,
    }
}

/// What stands behind the beginning of an item.
pub fn behind_item(tokens: &[Terminal]) -> Option<(Place, &[Terminal])>
    ensures { MatchOption result ((p : PlaceSeen) (us : List Seen) → tokens.now ≡ Item p ∷ us → ⊥)
        (λ x. tokens.now ≡ Item x.0 ∷ x.1.now) }
{
    match first(tokens) {
        None => None,
        Some((t, rest)) => match item_of(t) {
            None => None,
            Some(place) => Some((place, rest)),
        },
    }
}

/// Whether an item or the end of a block is next.
pub fn ends_case(tokens: &[Terminal]) -> bool
    ensures { result ≡ follows.ends_case tokens.now }
{
    match first(tokens) {
        None => false,
        Some((t, _)) => match t {
            Terminal::Item(_) | Terminal::Closes => true,
            _ => false,
        },
    }
}
