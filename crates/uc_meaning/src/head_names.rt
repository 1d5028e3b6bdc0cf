//! The names of a head, one after the other.
ghost use Rattle.std.specs.Prelude.{◌≡◌, [], ◌∷◌, MatchOption, ⊤};
ghost use Rattle.uc_base.specs.Name.{IsName};

use std::marker::Model;
use uc_base::{Name, Ref, Sort};
use uc_tree::Names;

/// The names of a sort behind one, or all. Contracts see the list of what is left.
#[derive(Drop)]
pub struct HeadNames<'a, N: Names> {
    names: &'a N,
    sort: Sort,
    last: Option<&'a Name>,
}

impl<'a, N: Names> Model for HeadNames<'a, N> {
    ghost use Rattle.std.specs.Prelude.{ℕ, List};
    ghost use Rattle.std.specs.Option.{option_copied};
    ghost use Rattle.uc_base.specs.declared.reference.Ref.{Ref as PlainRef};

    ghost Value = { List (List ℕ × PlainRef) };

    ghost use Rattle.uc_meaning.specs.HeadNames.{pairs_after};

    ghost view = { λ h. pairs_after (option_copied h.last) (N.pairs h.names.now h.sort) };
}

impl<'a, N: Names> HeadNames<'a, N> {
    pub fn new(names: &'a N, sort: Sort) -> HeadNames<'a, N>
        ensures { result ≡ N.pairs names.now sort }
    {
        HeadNames {
            names,
            sort,
            last: None,
        }
    }

    pub fn next(&mut self) -> Option<(&'a Name, &'a Ref)>
        ensures rest { MatchOption result (self.old ≡ []) (λ pair. self.old ≡ (pair.0.now, pair.1.now) ∷ self.new) }
        ensures name { MatchOption result ⊤ (λ pair. IsName pair.0.now) }
    {
        match self.names.after(self.sort, self.last) {
            None => None,
            Some((name, of)) => {
                let _ = name.text();
                self.last = Some(name);
                Some((name, of))
            }
        }
    }
}
