//! Written types as trees.
ghost use Rattle.std.specs.Prelude.{◌≡◌, ◌⊎◌, ◌++◌, ◌∷◌, [], Err, bytes_eq, OnOk, IfOk, IfErr};
ghost use Rattle.std.specs.List.{position_from};
ghost use Rattle.uc_base.specs.declared.fault.Fault.TheVariants.{Memory};
ghost use Rattle.uc_scratch.specs.TypeExprs.{TypeExprs, TypeAtoms, more, more_atoms, types_of};
ghost use Rattle.uc_scratch.specs.TypeLevels.{put_in_front as variables_in_front};
ghost use Rattle.uc_scratch.specs.TypeViews.{type_of, type_operand, type_atom, type_atoms};
ghost use Rattle.uc_meaning.specs.Candidates.{unbound as unbound_at};
ghost use Rattle.uc_meaning.specs.Results.{Gives};
ghost use Rattle.uc_meaning.specs.TypeMeanings as spec;
ghost use Rattle.uc_signatures.specs.Joined.{behind_types};
ghost use Rattle.uc_signatures.specs.PlacedViews.{placed_of, placed_types};

use crate::names::{con_place, resolve_con};
use crate::placed::Placed;
use crate::type_nodes::{
    applied_at, arrow_at, list_at, quantified_at, tuple_at, unit_at, variable_at,
};
use crate::type_variables::TypeVariables;
use std::alloc::{AllocError, Global};
use uc_base::{Bytes, Fault, Name, Place};
use uc_meaning::{Meanings, Usings, Wanted};
use uc_scratch::{
    Scope, TypeAtom, TypeExpr, TypeFront, TypeOperand, Written, front_variables, put_in_front,
};
use uc_tree::Ty;

/// Nothing in scope has the name.
fn unbound(alloc: Global, name: &Written) -> Fault
    ensures { (result ≡ Memory) ⊎ (result ≡ unbound_at name.now.place name.now.text) }
{
    match Name::parse(alloc, name.text.as_slice()) {
        Ok(parsed) => Fault::Unbound(name.place, parsed),
        Err(fault) => fault,
    }
}

/// A variable of those in scope.
fn resolve_variable(
    alloc: Global,
    variables: &TypeVariables,
    name: &Written,
) -> Result<Placed<Ty>, Fault>
    ensures { Gives placed_of result (spec.variable_at name.now (position_from (bytes_eq name.now.text) 0 variables.now)) }
{
    match variables.find(name.text.as_slice()) {
        None => Err(unbound(alloc, name)),
        Some(number) => Ok(variable_at(alloc, name.place, number)?),
    }
}

fn atom_start(atom: &TypeAtom) -> Place
    ensures { result ≡ spec.atom_start (type_atom atom.now) }
{
    match atom {
        TypeAtom::Variable(name) => name.place,
        TypeAtom::Con(con) => con_place(con),
        TypeAtom::Unit(place)
        | TypeAtom::Group(place, _)
        | TypeAtom::Tuple(place, _)
        | TypeAtom::List(place, _) => *place,
    }
}

/// Where an operand begins, a bracket round it included.
fn operand_start(operand: &TypeOperand) -> Place
    ensures { result ≡ spec.operand_start (type_operand operand.now) }
{
    match operand {
        TypeOperand::Applied(con, _) => con_place(con),
        TypeOperand::Atom(atom) => atom_start(atom),
    }
}

/// The tree of a type.
#[cycle(resolve_type)]
fn resolve_type<M: Meanings>(
    alloc: Global,
    meanings: &M,
    usings: &Usings,
    variables: &mut TypeVariables,
    t: &TypeExpr,
) -> Result<Placed<Ty>, Fault>
    ensures value { Gives placed_of result (spec.type_meaning (M.known meanings.now) usings.now variables.old t.now) }
    ensures kept { OnOk result (variables.new ≡ variables.old) }
{
    resolve_fronts(alloc, meanings, usings, variables, &t.fronts, &t.last)
}

/// A type: what stands behind its fronts, under them.
#[cycle(resolve_type)]
fn resolve_fronts<M: Meanings>(
    alloc: Global,
    meanings: &M,
    usings: &Usings,
    variables: &mut TypeVariables,
    fronts: &[TypeFront],
    last: &TypeOperand,
) -> Result<Placed<Ty>, Fault>
    ensures value { Gives placed_of result
        (spec.type_meaning (M.known meanings.now) usings.now variables.old (type_of fronts.now last.now)) }
    ensures kept { OnOk result (variables.new ≡ variables.old) }
{
    match fronts {
        [] => resolve_operand(alloc, meanings, usings, variables, last),
        [TypeFront::Forall(place, names), rest @ ..] => {
            variables.push_all(names)?;
            let body = resolve_fronts(alloc, meanings, usings, variables, rest, last)?;
            variables.leave(names.len());
            Ok(quantified_at(alloc, *place, names.len(), body)?)
        }
        [TypeFront::Arrow(left), rest @ ..] => {
            let from = resolve_operand(alloc, meanings, usings, variables, left)?;
            let to = resolve_fronts(alloc, meanings, usings, variables, rest, last)?;
            Ok(arrow_at(alloc, operand_start(left), from, to)?)
        }
    }
}

#[cycle(resolve_type)]
fn resolve_operand<M: Meanings>(
    alloc: Global,
    meanings: &M,
    usings: &Usings,
    variables: &mut TypeVariables,
    operand: &TypeOperand,
) -> Result<Placed<Ty>, Fault>
    ensures value { Gives placed_of result
        (spec.type_operand_meaning (M.known meanings.now) usings.now variables.old (type_operand operand.now)) }
    ensures kept { OnOk result (variables.new ≡ variables.old) }
{
    match operand {
        TypeOperand::Applied(con, atoms) => {
            let target = resolve_con(alloc, meanings, Wanted::Kind, usings, con)?;
            let arguments = resolve_type_atoms(alloc, meanings, usings, variables, atoms)?;
            Ok(applied_at(con_place(con), target, arguments)?)
        }
        TypeOperand::Atom(atom) => resolve_atom(alloc, meanings, usings, variables, atom),
    }
}

#[cycle(resolve_type)]
fn resolve_atom<M: Meanings>(
    alloc: Global,
    meanings: &M,
    usings: &Usings,
    variables: &mut TypeVariables,
    atom: &TypeAtom,
) -> Result<Placed<Ty>, Fault>
    ensures value { Gives placed_of result
        (spec.type_atom_meaning (M.known meanings.now) usings.now variables.old (type_atom atom.now)) }
    ensures kept { OnOk result (variables.new ≡ variables.old) }
{
    match atom {
        TypeAtom::Variable(name) => resolve_variable(alloc, variables, name),
        TypeAtom::Con(con) => {
            let target = resolve_con(alloc, meanings, Wanted::Kind, usings, con)?;
            Ok(applied_at(con_place(con), target, Placed::no_types(alloc))?)
        }
        TypeAtom::Unit(place) => Ok(unit_at(alloc, *place)?),
        TypeAtom::Group(_, t) => resolve_type(alloc, meanings, usings, variables, t),
        TypeAtom::Tuple(place, ts) => {
            let parts = resolve_types(alloc, meanings, usings, variables, ts)?;
            Ok(tuple_at(*place, parts)?)
        }
        TypeAtom::List(place, t) => {
            let element = resolve_type(alloc, meanings, usings, variables, t)?;
            Ok(list_at(alloc, *place, element)?)
        }
    }
}

/// Adds a type to those before it.
#[cycle(resolve_type)]
fn add_type<M: Meanings>(
    alloc: Global,
    meanings: &M,
    usings: &Usings,
    variables: &mut TypeVariables,
    t: &TypeExpr,
    found: &mut Placed<Vec<Ty>>,
) -> Result<(), Fault>
    ensures added { OnOk result ((ts : TypeExprs)
        → behind_types found.old.tree.items found.old.places (spec.types_meaning (M.known meanings.now) usings.now variables.old (more t.now ts))
        ≡ behind_types found.new.tree.items found.new.places (spec.types_meaning (M.known meanings.now) usings.now variables.old ts)) }
    ensures fault { IfErr result (λ fault. (fault ≡ Memory) ⊎ ((ts : TypeExprs)
        → spec.types_meaning (M.known meanings.now) usings.now variables.old (more t.now ts) ≡ Err fault)) }
    ensures kept { OnOk result (variables.new ≡ variables.old) }
{
    let t = resolve_type(alloc, meanings, usings, variables, t)?;
    found.push_type(t)?;
    Ok(())
}

#[cycle(resolve_type)]
fn resolve_types<M: Meanings>(
    alloc: Global,
    meanings: &M,
    usings: &Usings,
    variables: &mut TypeVariables,
    ts: &[TypeExpr],
) -> Result<Placed<Vec<Ty>>, Fault>
    ensures value { Gives placed_types result
        (spec.types_meaning (M.known meanings.now) usings.now variables.old (types_of ts.now)) }
    ensures kept { OnOk result (variables.new ≡ variables.old) }
{
    let mut found = Placed::no_types(alloc);
    for t in ts {
        add_type(alloc, meanings, usings, variables, t, &mut found)?;
    }
    Ok(found)
}

/// Adds an atom to those before it.
#[cycle(resolve_type)]
fn add_atom<M: Meanings>(
    alloc: Global,
    meanings: &M,
    usings: &Usings,
    variables: &mut TypeVariables,
    atom: &TypeAtom,
    found: &mut Placed<Vec<Ty>>,
) -> Result<(), Fault>
    ensures added { OnOk result ((bs : TypeAtoms)
        → behind_types found.old.tree.items found.old.places (spec.type_atoms_meaning (M.known meanings.now) usings.now variables.old (more_atoms (type_atom atom.now) bs))
        ≡ behind_types found.new.tree.items found.new.places (spec.type_atoms_meaning (M.known meanings.now) usings.now variables.old bs)) }
    ensures fault { IfErr result (λ fault. (fault ≡ Memory) ⊎ ((bs : TypeAtoms)
        → spec.type_atoms_meaning (M.known meanings.now) usings.now variables.old (more_atoms (type_atom atom.now) bs) ≡ Err fault)) }
    ensures kept { OnOk result (variables.new ≡ variables.old) }
{
    let t = resolve_atom(alloc, meanings, usings, variables, atom)?;
    found.push_type(t)?;
    Ok(())
}

/// The types of the fields of a constructor.
#[cycle(resolve_type)]
pub fn resolve_type_atoms<M: Meanings>(
    alloc: Global,
    meanings: &M,
    usings: &Usings,
    variables: &mut TypeVariables,
    atoms: &[TypeAtom],
) -> Result<Placed<Vec<Ty>>, Fault>
    ensures value { Gives placed_types result
        (spec.type_atoms_meaning (M.known meanings.now) usings.now variables.old (type_atoms atoms.now)) }
    ensures kept { OnOk result (variables.new ≡ variables.old) }
{
    let mut found = Placed::no_types(alloc);
    for atom in atoms {
        add_atom(alloc, meanings, usings, variables, atom, &mut found)?;
    }
    Ok(found)
}

fn push_owned(alloc: Global, name: &[u8], owned: &mut Vec<Bytes>) -> Result<(), AllocError>
    ensures { OnOk result (owned.new.items ≡ owned.old.items ++ name.now ∷ []) }
{
    owned.push(Bytes::from_slice(alloc, name)?)?;
    Ok(())
}

/// The texts of names.
fn owned_names(alloc: Global, names: &Scope) -> Result<Vec<Bytes>, AllocError>
    ensures { IfOk result (λ owned. owned.items ≡ names.now) }
{
    let mut owned = Vec::new(alloc);
    for i in 0..names.len() {
        if let Some(name) = names.get(i) {
            push_owned(alloc, name, &mut owned)?;
        }
    }
    Ok(owned)
}

/// The variables that are quantified at the front of a signature or an annotation.
fn free_variables(
    alloc: Global,
    variables: &TypeVariables,
    t: &TypeExpr,
) -> Result<Vec<Bytes>, AllocError>
    ensures { IfOk result (λ front. front.items ≡ variables_in_front variables.now t.now) }
{
    let scope = variables.scope(alloc)?;
    let front = put_in_front(alloc, &scope, t)?;
    owned_names(alloc, &front)
}

/// The quantifiers at the front of a signature, those that are put there first.
pub fn front_of_signature(
    alloc: Global,
    variables: &TypeVariables,
    t: &TypeExpr,
) -> Result<Vec<Bytes>, AllocError>
    ensures { IfOk result (λ front. front.items ≡ spec.front_of_signature variables.now t.now) }
{
    let scope = variables.scope(alloc)?;
    let mut front = put_in_front(alloc, &scope, t)?;
    let written = front_variables(alloc, t)?;
    front.extend(&written)?;
    owned_names(alloc, &front)
}

/// The type of a signature or an annotation, with its free variables quantified in front.
pub fn resolve_signature<M: Meanings>(
    alloc: Global,
    meanings: &M,
    usings: &Usings,
    variables: &mut TypeVariables,
    t: &TypeExpr,
) -> Result<Placed<Ty>, Fault>
    ensures value { Gives placed_of result (spec.signature_meaning (M.known meanings.now) usings.now variables.old t.now) }
    ensures kept { OnOk result (variables.new ≡ variables.old) }
{
    let front = free_variables(alloc, variables, t)?;
    variables.push_names(&front)?;
    let body = resolve_type(alloc, meanings, usings, variables, t)?;
    variables.leave(front.len());
    let place = body.places.first();
    Ok(quantified_at(alloc, place, front.len(), body)?)
}
