//! What some names stand for together.
ghost use Rattle.std.specs.Prelude.{◌≡◌};
ghost use Rattle.uc_tree.specs.References.{is_same_ref};
ghost use Rattle.uc_meaning.specs.Candidates.{is_same_target};
ghost use Rattle.uc_meaning.specs.Senses as spec;

use crate::hashes::is_constructor;
use uc_base::Ref;
use uc_tree::Target;

/// What some names stand for: nothing where there are none, the one thing that all stand for, or several things.
#[derive(Clone, Copy, Debug)]
pub enum Senses {
    None,
    One(Target),
    Many,
}

/// What the names that end in a text stand for, and what the constructors among them do.
#[derive(Clone, Copy, Debug)]
pub struct Ending {
    pub any: Senses,
    pub constructors: Senses,
}

/// Whether two references are the same.
fn are_same_refs(r: &Ref, s: &Ref) -> bool
    ensures { result ≡ is_same_ref r.now s.now }
{
    r == s
}

/// Whether two targets are the same.
pub fn are_same(a: &Target, b: &Target) -> bool
    ensures { result ≡ is_same_target a.now b.now }
{
    match (a, b) {
        (Target::Stored(r), Target::Stored(s)) => are_same_refs(r, s),
        (Target::Own(k), Target::Own(l)) => k == l,
        (Target::OwnCtor(k, c), Target::OwnCtor(l, d)) => k == l && c == d,
        _ => false,
    }
}

impl Senses {
    /// With a name more, which stands for a thing.
    pub fn with(self, target: &Target) -> Senses
        ensures { result ≡ spec.with_sense target.now self }
    {
        match self {
            Senses::None => Senses::One(*target),
            Senses::One(known) => {
                if are_same(target, &known) {
                    Senses::One(known)
                } else {
                    Senses::Many
                }
            }
            Senses::Many => Senses::Many,
        }
    }
}

impl Ending {
    /// That of no names.
    pub fn none() -> Ending
        ensures { result ≡ spec.no_names }
    {
        Ending {
            any: Senses::None,
            constructors: Senses::None,
        }
    }

    /// With a name more, which stands for a thing.
    pub fn with(self, target: &Target) -> Ending
        ensures { result ≡ spec.with_name target.now self }
    {
        let constructors = if is_constructor(target) {
            self.constructors.with(target)
        } else {
            self.constructors
        };
        Ending {
            any: self.any.with(target),
            constructors,
        }
    }
}
