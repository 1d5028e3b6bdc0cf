//! What is known: the builtin types, and `+`.
ghost use Rattle.std.specs.Prelude.{◌≡◌};
ghost use Rattle.uc_bench.specs.Ordinary.{nat_type, addition_type};

use std::alloc::{AllocError, Global};
use uc_base::Ref;
use uc_tree::{Arities, Env, Target, Ty};

/// The builtin `+` of numbers.
pub(crate) const PLUS: u16 = 16;

/// The builtin types, and the type of `+`.
#[derive(Drop)]
pub(crate) struct Additions {
    plus: Ty,
    ghost is_addition: { plus ≡ addition_type },
}

fn nat(alloc: Global) -> Ty
    ensures { result ≡ nat_type }
{
    Ty::data(Target::Stored(Ref::Builtin(0)), Vec::new(alloc))
}

impl Additions {
    pub(crate) fn new(alloc: Global) -> Result<Additions, AllocError> {
        let second = Ty::arrow(alloc, nat(alloc), nat(alloc))?;
        let plus = Ty::arrow(alloc, nat(alloc), second)?;
        Ok(Additions { plus })
    }
}

impl Arities for Additions {
    ghost use Rattle.uc_bench.specs.Ordinary.{builtin_arity};

    ghost arity_of = { λ _. builtin_arity };

    fn arity(&self, of: &Target) -> Option<u32> {
        match of {
            Target::Stored(Ref::Builtin(number)) => Some(if *number == 5 { 1 } else { 0 }),
            _ => None,
        }
    }
}

impl Env for Additions {
    ghost use Rattle.uc_bench.specs.Ordinary.{builtin_type};

    ghost type_at = { λ _. builtin_type };

    fn type_of(&self, of: &Ref) -> Option<&Ty> {
        match of {
            Ref::Builtin(number) => {
                if *number == PLUS {
                    Some(&self.plus)
                } else {
                    None
                }
            }
            _ => None,
        }
    }
}
