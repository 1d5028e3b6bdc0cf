//! What an atom begins with.
ghost use Rattle.std.specs.Prelude.{◌≡◌, List, ◌∷◌, true, IfOk, MatchOption};
ghost use Rattle.uc_base.specs.declared.place.Place.{Place as PlaceSeen};
ghost use Rattle.uc_scratch.specs.declared.written.Con.{Con as ConSeen};
ghost use Rattle.uc_scratch.specs.declared.written.Written.{Written as WrittenSeen};
ghost use Rattle.uc_scratch.specs.declared.terminal.Terminal.{Terminal as Seen};
ghost use Rattle.uc_scratch.specs.declared.terminal.Terminal.TheVariants as token;
ghost use Rattle.uc_scratch.specs.Follows.{ends_variables};
ghost use Rattle.uc_scratch.specs.AtomFronts.{IsAtomFront, BeginsCon};

use crate::terminal::Terminal;
use crate::written::{Con, Literal, Reference, Written};
use std::alloc::{AllocError, Global};
use uc_base::Place;

/// What an atom of a type or a pattern begins with, and what stands behind it. `Path` is the name
/// of a constructor or of a declared type.
#[derive(Drop)]
pub enum AtomFront<'a> {
    Variable(&'a Written, &'a [Terminal]),
    Path(&'a Written, &'a [Terminal]),
    Reference(&'a Reference, &'a [Terminal]),
    Wildcard(Place, &'a [Terminal]),
    Literal(&'a Literal, &'a [Terminal]),
    Left(Place, &'a [Terminal]),
    LeftSquare(Place, &'a [Terminal]),
    Other,
}

/// What stands at the front, where it can begin an atom.
pub fn atom_front(tokens: &[Terminal]) -> AtomFront<'_>
    ensures { IsAtomFront tokens.now result }
{
    match tokens {
        [] => AtomFront::Other,
        [token, rest @ ..] => match token {
            Terminal::Small(w) => AtomFront::Variable(w, rest),
            Terminal::Capital(w) | Terminal::Dotted(w) => AtomFront::Path(w, rest),
            Terminal::Reference(r) => AtomFront::Reference(r, rest),
            Terminal::Wildcard(place) => AtomFront::Wildcard(*place, rest),
            Terminal::Literal(l) => AtomFront::Literal(l, rest),
            Terminal::Left(place) => AtomFront::Left(*place, rest),
            Terminal::LeftSquare(place) => AtomFront::LeftSquare(*place, rest),
            _ => AtomFront::Other,
        },
    }
}

pub fn variable_front(tokens: &[Terminal]) -> Option<(&Written, &[Terminal])>
    ensures { MatchOption result
        (ends_variables tokens.now ≡ true)
        (λ x. tokens.now ≡ token.Small x.0.now ∷ x.1.now) }
{
    match tokens {
        [Terminal::Small(w), rest @ ..] => Some((w, rest)),
        _ => None,
    }
}

pub fn forall_front(tokens: &[Terminal]) -> Option<(Place, &[Terminal])>
    ensures { MatchOption result
        ((p : PlaceSeen) (us : List Seen) → tokens.now ≡ token.Forall p ∷ us → ⊥)
        (λ x. tokens.now ≡ token.Forall x.0 ∷ x.1.now) }
{
    match tokens {
        [Terminal::Forall(place), rest @ ..] => Some((*place, rest)),
        _ => None,
    }
}

pub fn con_front(
    alloc: Global,
    tokens: &[Terminal],
) -> Result<Option<(Con, &[Terminal])>, AllocError>
    ensures { IfOk result (λ o. MatchOption o
        ((c : ConSeen) (us : List Seen) → BeginsCon tokens.now c us → ⊥)
        (λ x. BeginsCon tokens.now x.0 x.1.now)) }
{
    match atom_front(tokens) {
        AtomFront::Path(w, rest) => Ok(Some((Con::Path(w.copy(alloc)?), rest))),
        AtomFront::Reference(r, rest) => Ok(Some((Con::Reference(r.copy(alloc)?), rest))),
        _ => Ok(None),
    }
}

/// A name with `@` behind it.
pub fn named_front(tokens: &[Terminal]) -> Option<(&Written, &[Terminal])>
    ensures { MatchOption result
        ((w : WrittenSeen) (us : List Seen) → tokens.now ≡ token.Small w ∷ token.At ∷ us → ⊥)
        (λ x. tokens.now ≡ token.Small x.0.now ∷ token.At ∷ x.1.now) }
{
    match tokens {
        [Terminal::Small(w), Terminal::At, rest @ ..] => Some((w, rest)),
        _ => None,
    }
}

pub fn cons_front(tokens: &[Terminal]) -> Option<(&Written, &[Terminal])>
    ensures { MatchOption result
        ((w : WrittenSeen) (us : List Seen) → tokens.now ≡ token.Cons w ∷ us → ⊥)
        (λ x. tokens.now ≡ token.Cons x.0.now ∷ x.1.now) }
{
    match tokens {
        [Terminal::Cons(w), rest @ ..] => Some((w, rest)),
        _ => None,
    }
}

pub fn snoc_front(tokens: &[Terminal]) -> Option<(&Written, &[Terminal])>
    ensures { MatchOption result
        ((w : WrittenSeen) (us : List Seen) → tokens.now ≡ token.Snoc w ∷ us → ⊥)
        (λ x. tokens.now ≡ token.Snoc x.0.now ∷ x.1.now) }
{
    match tokens {
        [Terminal::Snoc(w), rest @ ..] => Some((w, rest)),
        _ => None,
    }
}
