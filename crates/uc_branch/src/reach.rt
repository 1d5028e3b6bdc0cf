//! Which names an edit takes.
ghost use Rattle.std.specs.Prelude.{◌≡◌};
ghost use Rattle.uc_branch.specs.Moving.{is_below};
ghost use Rattle.uc_branch.specs.Reaches.{reaches};

use uc_base::Name;

/// Which names an edit takes.
#[derive(Clone, Copy)]
pub enum Reach<'a> {
    /// That name alone.
    Exactly(&'a Name),
    /// All names below that name.
    Below(&'a Name),
    /// That name and all below it.
    FromThere(&'a Name),
}

fn stands_below(name: &Name, prefix: &Name) -> bool
    ensures { result ≡ is_below prefix.now name.now }
{
    name.is_below(prefix)
}

impl Reach<'_> {
    pub fn takes(&self, name: &Name) -> bool
        ensures { result ≡ reaches self.now name.now }
    {
        match self {
            Reach::Exactly(wanted) => *wanted == name,
            Reach::Below(prefix) => stands_below(name, prefix),
            Reach::FromThere(prefix) => *prefix == name || stands_below(name, prefix),
        }
    }
}
