//! Arities where declarations name one another.
ghost use Rattle.std.specs.Prelude.{◌≡◌};
ghost use Rattle.uc_kinds.specs.Faults.{arity_among};

use uc_tree::{Arities, Decl, Target};

/// What is known, and the declarations for which own targets stand.
#[derive(Drop)]
pub struct Among<'a, A> {
    pub decls: &'a [Decl],
    pub known: &'a A,
}

impl<'a, A: Arities> Arities for Among<'a, A> {
    ghost arity_of = { λ among. arity_among among.decls.now (A.arity_of among.known.now) };

    fn arity(&self, of: &Target) -> Option<u32> {
        match of {
            Target::Own(member) => self.decls.get(*member as usize).map(|d| d.params),
            Target::Stored(_) | Target::OwnCtor(..) => self.known.arity(of),
        }
    }
}
