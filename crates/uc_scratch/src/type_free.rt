//! The free variables of a signature's type, and what is in scope under it.
ghost use Rattle.std.specs.Prelude.{◌≡◌, ◌||◌, length, take, OnOk, IfOk};
ghost use Rattle.uc_base.specs.Name.{is_one_of};
ghost use Rattle.uc_scratch.specs.TypeExprs.{TypeExpr as Plain, types_of, variable};
ghost use Rattle.uc_scratch.specs.TypeViews.{fronted, type_operand, type_atom, type_atoms};
ghost use Rattle.uc_scratch.specs.TypeLevels as spec;
ghost use Rattle.uc_scratch.specs.TypeLevels.{quantified_in};

use crate::quantified::Quantified;
use crate::scope::Scope;
use crate::type_expr::{TypeAtom, TypeExpr, TypeFront, TypeOperand};
use crate::written::Written;
use std::alloc::{AllocError, Global};

/// Whether a variable is bound in a scope inside quantifiers, or found already.
#[tactic(auto, using(crate::proofs::Variables::variables))]
fn is_known(text: &[u8], scope: &Scope, bound: &Quantified, found: &Scope) -> bool
    ensures { result
        ≡ (is_one_of (quantified_in bound.now scope.now) text.now || is_one_of found.now text.now) }
{
    bound.contains(text) || scope.contains(text) || found.contains(text)
}

/// Adds a variable that is neither bound nor found.
fn add_variable<'a>(
    w: &'a Written,
    scope: &Scope<'a>,
    bound: &Quantified<'a>,
    found: &mut Scope<'a>,
) -> Result<(), AllocError>
    ensures { OnOk result
        (found.new ≡ spec.type_atom_free (quantified_in bound.now scope.now) (variable w.now) found.old) }
{
    let text = w.text.as_slice();
    if is_known(text, scope, bound, found) {
        Ok(())
    } else {
        found.push(text)
    }
}

/// Adds the variables of a type that are neither bound nor found.
#[cycle(add_type)]
#[tactic(auto, using(crate::proofs::Sizes::type_parts))]
fn add_type<'a>(
    t: &'a TypeExpr,
    scope: &Scope<'a>,
    bound: &mut Quantified<'a>,
    found: &mut Scope<'a>,
) -> Result<(), AllocError>
    ensures found { OnOk result (found.new ≡ spec.type_free (quantified_in bound.old scope.now) t.now found.old) }
    ensures bound { OnOk result (bound.new ≡ bound.old) }
{
    let depth = bound.depth();
    for front in &t.fronts {
        add_front(front, scope, bound, found)?;
    }
    add_operand(&t.last, scope, bound, found)?;
    bound.leave(depth);
    Ok(())
}

/// Goes on behind a quantifier, or behind the left side of an arrow, whose variables it adds.
#[cycle(add_type)]
#[tactic(auto, using(crate::proofs::Variables::variables))]
fn add_front<'a>(
    front: &'a TypeFront,
    scope: &Scope<'a>,
    bound: &mut Quantified<'a>,
    found: &mut Scope<'a>,
) -> Result<(), AllocError>
    ensures found { OnOk result ((t : Plain)
        → spec.type_free (quantified_in bound.new scope.now) t found.new
        ≡ spec.type_free (quantified_in bound.old scope.now) (fronted front.now t) found.old) }
    ensures bound { OnOk result (take (length bound.old) bound.new ≡ bound.old) }
{
    match front {
        TypeFront::Forall(_, variables) => bound.push(variables),
        TypeFront::Arrow(left) => add_operand(left, scope, bound, found),
    }
}

#[cycle(add_type)]
#[tactic(auto, using(crate::proofs::Sizes::type_parts))]
fn add_operand<'a>(
    operand: &'a TypeOperand,
    scope: &Scope<'a>,
    bound: &mut Quantified<'a>,
    found: &mut Scope<'a>,
) -> Result<(), AllocError>
    ensures found { OnOk result
        (found.new ≡ spec.type_operand_free (quantified_in bound.old scope.now) (type_operand operand.now) found.old) }
    ensures bound { OnOk result (bound.new ≡ bound.old) }
{
    match operand {
        TypeOperand::Applied(_, atoms) => add_atoms(atoms, scope, bound, found),
        TypeOperand::Atom(atom) => add_atom(atom, scope, bound, found),
    }
}

#[cycle(add_type)]
#[tactic(auto, using(crate::proofs::Sizes::type_parts))]
fn add_atom<'a>(
    atom: &'a TypeAtom,
    scope: &Scope<'a>,
    bound: &mut Quantified<'a>,
    found: &mut Scope<'a>,
) -> Result<(), AllocError>
    ensures found { OnOk result
        (found.new ≡ spec.type_atom_free (quantified_in bound.old scope.now) (type_atom atom.now) found.old) }
    ensures bound { OnOk result (bound.new ≡ bound.old) }
{
    match atom {
        TypeAtom::Variable(w) => add_variable(w, scope, bound, found),
        TypeAtom::Con(_) | TypeAtom::Unit(_) => Ok(()),
        TypeAtom::Group(_, t) | TypeAtom::List(_, t) => add_type(t, scope, bound, found),
        TypeAtom::Tuple(_, ts) => add_types(ts, scope, bound, found),
    }
}

#[cycle(add_type)]
#[tactic(auto, using(crate::proofs::Sizes::type_parts))]
fn add_types<'a>(
    ts: &'a [TypeExpr],
    scope: &Scope<'a>,
    bound: &mut Quantified<'a>,
    found: &mut Scope<'a>,
) -> Result<(), AllocError>
    ensures found { OnOk result (found.new ≡ spec.types_free (quantified_in bound.old scope.now) (types_of ts.now) found.old) }
    ensures bound { OnOk result (bound.new ≡ bound.old) }
{
    for t in ts {
        add_type(t, scope, bound, found)?;
    }
    Ok(())
}

#[cycle(add_type)]
#[tactic(auto, using(crate::proofs::Sizes::type_parts))]
fn add_atoms<'a>(
    atoms: &'a [TypeAtom],
    scope: &Scope<'a>,
    bound: &mut Quantified<'a>,
    found: &mut Scope<'a>,
) -> Result<(), AllocError>
    ensures found { OnOk result
        (found.new ≡ spec.type_atoms_free (quantified_in bound.old scope.now) (type_atoms atoms.now) found.old) }
    ensures bound { OnOk result (bound.new ≡ bound.old) }
{
    for atom in atoms {
        add_atom(atom, scope, bound, found)?;
    }
    Ok(())
}

/// The variables that are quantified at the front of a signature or an annotation, where these are in scope.
pub fn put_in_front<'a>(
    alloc: Global,
    scope: &Scope<'a>,
    t: &'a TypeExpr,
) -> Result<Scope<'a>, AllocError>
    ensures { IfOk result (λ found. found ≡ spec.put_in_front scope.now t.now) }
{
    let mut bound = Quantified::new(alloc);
    let mut found = Scope::new(alloc);
    add_type(t, scope, &mut bound, &mut found)?;
    Ok(found)
}
