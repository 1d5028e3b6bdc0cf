//! The entries of a context.
ghost use Rattle.std.specs.Prelude.{◌≡◌};
ghost use Rattle.std.specs.Option.{option_copied};
ghost use Rattle.uc_context.specs.Entries.{number_of, is_same_entry, is_rigid, is_unsolved, declares, is_binder};
ghost use Rattle.uc_context.specs.Looking.{solution_in, type_in};

use crate::open::Open;

/// An entry of a context, with its number.
#[derive(Debug, Drop)]
pub enum Entry {
    /// A rigid variable.
    Rigid(u64),
    /// An existential that isn't solved.
    Exists(u64),
    /// An existential with what it stands for.
    Solved(u64, Open),
    /// A marker.
    Mark(u64),
    /// A variable of a term with its type.
    Binder(u64, Open),
}

impl Entry {
    pub fn number(&self) -> u64
        ensures { result ≡ number_of self.now }
    {
        match self {
            Entry::Rigid(x) | Entry::Exists(x) | Entry::Solved(x, _) => *x,
            Entry::Mark(x) | Entry::Binder(x, _) => *x,
        }
    }

    /// Whether it is the rigid variable with a number.
    pub(crate) fn is_rigid(&self, x: u64) -> bool
        ensures { result ≡ is_rigid x self.now }
    {
        match self {
            Entry::Rigid(y) => *y == x,
            _ => false,
        }
    }

    /// Whether it is the existential with a number, and not solved.
    pub(crate) fn is_unsolved(&self, x: u64) -> bool
        ensures { result ≡ is_unsolved x self.now }
    {
        match self {
            Entry::Exists(y) => *y == x,
            _ => false,
        }
    }

    /// Whether it is the existential with a number, solved or not.
    pub(crate) fn declares(&self, x: u64) -> bool
        ensures { result ≡ declares x self.now }
    {
        match self {
            Entry::Exists(y) | Entry::Solved(y, _) => *y == x,
            _ => false,
        }
    }

    /// Whether it is a binder with a number.
    pub(crate) fn is_binder(&self, x: u64) -> bool
        ensures { result ≡ is_binder x self.now }
    {
        match self {
            Entry::Binder(y, _) => *y == x,
            _ => false,
        }
    }

    /// What the existential stands for, where it is a solved one.
    pub(crate) fn solution(&self) -> Option<&Open>
        ensures { option_copied result ≡ solution_in self.now }
    {
        match self {
            Entry::Solved(_, t) => Some(t),
            _ => None,
        }
    }

    /// The type of the variable, where it is a binder.
    pub(crate) fn binder_type(&self) -> Option<&Open>
        ensures { option_copied result ≡ type_in self.now }
    {
        match self {
            Entry::Binder(_, t) => Some(t),
            _ => None,
        }
    }
}

/// Whether two entries are the same.
pub fn same_entry(first: &Entry, second: &Entry) -> bool
    ensures { result ≡ is_same_entry first.now second.now }
{
    match (first, second) {
        (Entry::Rigid(x), Entry::Rigid(y)) => *x == *y,
        (Entry::Exists(x), Entry::Exists(y)) => *x == *y,
        (Entry::Solved(x, s), Entry::Solved(y, t)) => *x == *y && *s == *t,
        (Entry::Mark(x), Entry::Mark(y)) => *x == *y,
        (Entry::Binder(x, s), Entry::Binder(y, t)) => *x == *y && *s == *t,
        _ => false,
    }
}
