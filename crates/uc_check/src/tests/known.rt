//! What the tests know.
ghost use Rattle.std.specs.Prelude.{◌≡◌};

use crate::members::Members;
use crate::tests::formed::Facts;
use crate::tests::trees::{arrow, bound, forall, nat, opt_type};
use std::alloc::{AllocError, Global};
use uc_base::Ref;
use uc_tree::{Arities, Env, Target, Ty};

/// The builtin types, `Nat.+`, and one declared type of one parameter, `Opt`, with its constructors
/// `None` and `Some`.
#[derive(Drop)]
pub(super) struct Few {
    pub(super) plus: Ty,
    pub(super) none: Ty,
    pub(super) some: Ty,
}

impl Arities for Few {
    ghost use Rattle.uc_check.specs.FewKnown.{few_arity};

    ghost arity_of = { λ _. few_arity };

    fn arity(&self, of: &Target) -> Option<u32> {
        match of {
            Target::Stored(Ref::Builtin(number)) => Some(if *number == 5 { 1 } else { 0 }),
            Target::Stored(Ref::Def(_, _)) => Some(1),
            _ => None,
        }
    }
}

impl Env for Few {
    ghost use Rattle.uc_check.specs.FewKnown.{few_type};

    ghost type_at = { λ few. few_type few.plus few.none few.some };

    fn type_of(&self, of: &Ref) -> Option<&Ty> {
        match of {
            Ref::Def(_, _) => None,
            Ref::Ctor(_, _, constructor) => {
                if *constructor == 0 {
                    Some(&self.none)
                } else {
                    Some(&self.some)
                }
            }
            Ref::Builtin(number) => {
                if *number == 16 {
                    Some(&self.plus)
                } else {
                    None
                }
            }
        }
    }
}

impl<'a, E: Env> Facts for Members<'a, E> {
    fn arity(&self, of: &Target) -> Option<u32> {
        self.env.arity(of)
    }
}

impl Few {
    pub(super) fn new(alloc: Global) -> Result<Few, AllocError> {
        let plus = arrow(alloc, nat(alloc), arrow(alloc, nat(alloc), nat(alloc)))?;
        let none = forall(alloc, opt_type(alloc, bound(0)))?;
        let some = forall(alloc, arrow(alloc, bound(0), opt_type(alloc, bound(0))))?;
        Ok(Few { plus, none, some })
    }
}
