//! Names of types and constructors.
ghost use Rattle.std.specs.Prelude.{◌≡◌};
ghost use Rattle.uc_meaning.specs.Meanings.{con_meaning};
ghost use Rattle.uc_meaning.specs.Results.{Gives};
ghost use Rattle.uc_meaning.specs.TypeMeanings as spec;

use std::alloc::Global;
use uc_base::{Fault, Place};
use uc_meaning::{Meanings, Usings, Wanted};
use uc_scratch::{Con, Reference};
use uc_tree::Target;

/// The place of the name of a constructor or of a declared type.
pub fn con_place(con: &Con) -> Place
    ensures { result ≡ spec.con_place con.now }
{
    match con {
        Con::Path(name)
        | Con::Reference(Reference::Hash(name))
        | Con::Reference(Reference::Builtin(name)) => name.place,
    }
}

/// What the name of a constructor or of a declared type means.
pub fn resolve_con<M: Meanings>(
    alloc: Global,
    meanings: &M,
    wanted: Wanted,
    usings: &Usings,
    con: &Con,
) -> Result<Target, Fault>
    ensures { Gives (λ t. t) result (con_meaning (M.known meanings.now) wanted usings.now con.now) }
{
    match con {
        Con::Path(name) => meanings.name(alloc, wanted, usings, name),
        Con::Reference(reference) => meanings.reference(wanted, reference),
    }
}
