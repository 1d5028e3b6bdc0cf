//! Definitions that all use one reference.
use std::slice;
use uc_base::Ref;
use uc_tree::Known;

/// What each definition uses.
#[derive(Drop)]
pub struct AllUse(pub Ref);

impl Known for AllUse {
    ghost use Rattle.uc_branch.specs.Uses.{uses_of, uses_in_order};
    ghost use Rattle.std.specs.Prelude.{refl};

    ghost direct = { λ uses. uses_of uses.0 };

    ghost in_order = { λ uses. uses_in_order uses.0 };

    ghost of_constructor = { λ _ _ _ _. refl };

    ghost of_builtin = { λ _ _. refl };

    fn refs(&self, of: &Ref) -> &[Ref] {
        match of {
            Ref::Def(..) => slice::from_ref(&self.0),
            _ => &[],
        }
    }
}
