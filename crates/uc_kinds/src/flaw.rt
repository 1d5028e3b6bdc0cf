//! What may be wrong at a node.
ghost use Rattle.std.specs.Prelude.{◌≡◌, ◌+◌, ◌<◌, ◌^◌, [], ◌∷◌};
ghost use Rattle.uc_kinds.specs.Faults.{fault_in};
ghost use Rattle.uc_kinds.specs.Flaws as spec;
ghost use Rattle.uc_kinds.specs.Walks.{walked};

use crate::position::Position;
use uc_base::{At, Fault, Spot};

/// A data type with a wrong number of arguments, or a quantifier inside an argument.
#[derive(Clone, Copy, Debug, PartialEq, Eq)]
pub enum Flaw {
    WrongArity,
    InnerQuantifier,
}

/// A flaw with the number of its node.
#[derive(Clone, Copy, Debug, PartialEq, Eq)]
pub struct Flawed {
    pub flaw: Flaw,
    pub node: u32,
}

impl Flawed {
    /// The fault of a flaw in a member.
    pub fn fault(self, member: u32) -> Fault
        ensures { result ≡ fault_in member self }
    {
        let at = At::Spot(Spot {
            member,
            node: self.node,
        });
        match self.flaw {
            Flaw::WrongArity => Fault::BadArity(at),
            Flaw::InnerQuantifier => Fault::Impredicative(at),
        }
    }
}

/// What is wrong with so many arguments, where so many are taken.
pub fn arity_flaw(params: Option<u32>, arguments: usize) -> Option<Flaw>
    ensures { result ≡ spec.arity_flaw params arguments }
{
    match params {
        Some(params) if params as usize == arguments => None,
        _ => Some(Flaw::WrongArity),
    }
}

/// What is wrong with a quantifier.
pub fn quantifier_flaw(at: Position) -> Option<Flaw>
    ensures { result ≡ spec.quantifier_flaw at }
{
    match at {
        Position::Outside => None,
        Position::Inside => Some(Flaw::InnerQuantifier),
    }
}

/// Passes one node behind so many others.
pub fn pass(flaw: Option<Flaw>, before: u32) -> Result<u32, Flawed>
    requires { before + 1 < 2 ^ 32 }
    ensures { result ≡ walked before (flaw ∷ []) }
{
    let node = before + 1;
    match flaw {
        None => Ok(node),
        Some(flaw) => Err(Flawed { flaw, node }),
    }
}
