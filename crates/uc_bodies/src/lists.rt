//! Terms and cases in order.
ghost use Rattle.std.specs.Prelude.{◌≡◌, [], ◌∷◌, ◌++◌, OnOk, IfErr};
ghost use Rattle.uc_base.specs.declared.fault.Fault.TheVariants.{Memory};

use std::alloc::Global;
use uc_base::Fault;
use uc_signatures::{PlaceList, Placed};
use uc_tree::{Case, Term};

pub fn no_terms(alloc: Global) -> Placed<Vec<Term>>
    ensures tree { result.tree.items ≡ [] }
    ensures places { result.places ≡ [] }
{
    Placed {
        tree: Vec::new(alloc),
        places: PlaceList::new(alloc),
    }
}

/// Adds a term to those before it.
pub fn push_term(terms: &mut Placed<Vec<Term>>, term: Placed<Term>) -> Result<(), Fault>
    ensures tree { OnOk result (terms.new.tree.items ≡ terms.old.tree.items ++ term.tree ∷ []) }
    ensures places { OnOk result (terms.new.places ≡ terms.old.places ++ term.places) }
    ensures err { IfErr result (λ fault. fault ≡ Memory) }
{
    terms.tree.push(term.tree)?;
    terms.places.append(term.places)?;
    Ok(())
}

pub fn no_cases(alloc: Global) -> Placed<Vec<Case>>
    ensures tree { result.tree.items ≡ [] }
    ensures places { result.places ≡ [] }
{
    Placed {
        tree: Vec::new(alloc),
        places: PlaceList::new(alloc),
    }
}

/// Adds a case to those before it.
pub fn push_case(cases: &mut Placed<Vec<Case>>, case: Placed<Case>) -> Result<(), Fault>
    ensures tree { OnOk result (cases.new.tree.items ≡ cases.old.tree.items ++ case.tree ∷ []) }
    ensures places { OnOk result (cases.new.places ≡ cases.old.places ++ case.places) }
    ensures err { IfErr result (λ fault. fault ≡ Memory) }
{
    cases.tree.push(case.tree)?;
    cases.places.append(case.places)?;
    Ok(())
}
