//! Declared types.
ghost use Rattle.std.specs.Prelude.{◌≡◌, [], OnOk, IfOk};
ghost use Rattle.uc_scratch.specs.FileViews.{constructor_of, constructors_of};
ghost use Rattle.uc_scratch.specs.NameFaults as faults;
ghost use Rattle.uc_meaning.specs.Programs as spec;
ghost use Rattle.uc_meaning.specs.Results.{Gives};
ghost use Rattle.uc_signatures.specs.PlacedViews.{placed_of};
ghost use Rattle.uc_resolve.specs.ItemMeanings.{declared_meaning, declaration_adds, Adds};
ghost use Rattle.uc_resolve.specs.ProgramViews.{draft_of, placed_fields};

use crate::draft::Draft;
use crate::names::{next_number, parse_name, small_number};
use std::alloc::{AllocError, Global};
use uc_base::{Bytes, Fault, Name};
use uc_meaning::{Meanings, Usings};
use uc_scratch::{Constructor, Declaration, DeclarationSort, Written};
use uc_signatures::{PlaceList, Placed, TypeVariables, resolve_type_atoms};
use uc_tree::{Decl, Ty};

/// The whole name of a constructor of a type.
fn whole_name(alloc: Global, of: &Written, constructor: &Constructor) -> Result<Vec<u8>, AllocError>
    ensures { IfOk result (λ name. name.items ≡ faults.constructor_name of.now (constructor_of constructor.now)) }
{
    let mut name = of.text.as_slice().to_vec(alloc)?;
    name.push(b'.')?;
    name.extend_from_slice(constructor.name.text.as_slice())?;
    Ok(name)
}

/// The names of the constructors of a declared type, with its number and their own.
fn constructor_names(
    alloc: Global,
    number: u32,
    declaration: &Declaration,
) -> Result<Vec<(Name, u32, u32)>, Fault>
    ensures { Gives (λ names. names.items) result
        (spec.ctors_meaning number declaration.now.name 0 (constructors_of declaration.now.constructors.items)) }
{
    let mut names = Vec::new(alloc);
    let mut next = 0;
    for constructor in &declaration.constructors {
        let text = whole_name(alloc, &declaration.name, constructor)?;
        names.push((parse_name(alloc, &text)?, number, next))?;
        next = next_number(next)?;
    }
    Ok(names)
}

/// The tag of a declared type.
fn tag_of(
    alloc: Global,
    sort: &DeclarationSort,
    name: &Written,
) -> Result<Option<Bytes>, AllocError>
    ensures { IfOk result (λ tag. tag ≡ spec.tag_of sort.now name.now) }
{
    let tag = match sort {
        DeclarationSort::Structural(_) => return Ok(None),
        DeclarationSort::Plain(_) | DeclarationSort::Unique(_) => name,
        DeclarationSort::Tagged(_, tag) => tag,
    };
    Ok(Some(Bytes::from_slice(alloc, tag.text.as_slice())?))
}

/// The fields of constructors under type variables.
fn resolve_fields<M: Meanings>(
    alloc: Global,
    meanings: &M,
    usings: &Usings,
    variables: &mut TypeVariables,
    constructors: &[Constructor],
) -> Result<Placed<Vec<Vec<Ty>>>, Fault>
    ensures { Gives placed_fields result
        (spec.fields_meaning (M.known meanings.now)
        (record { binders = []; variables = variables.old; usings = usings.now })
        (constructors_of constructors.now)) }
{
    let mut fields = Vec::new(alloc);
    let mut places = PlaceList::new(alloc);
    for constructor in constructors {
        let types = resolve_type_atoms(alloc, meanings, usings, variables, &constructor.fields)?;
        fields.push(types.tree)?;
        places.append(types.places)?;
    }
    Ok(Placed {
        tree: fields,
        places,
    })
}

/// A declared type.
fn resolve_declaration<M: Meanings>(
    alloc: Global,
    meanings: &M,
    usings: &Usings,
    declaration: &Declaration,
) -> Result<Placed<Decl>, Fault>
    ensures { Gives placed_of result
        (declared_meaning (M.known meanings.now) usings.now declaration.now.sort declaration.now.name
        declaration.now.params.items (constructors_of declaration.now.constructors.items)) }
{
    let mut variables = TypeVariables::new(alloc);
    variables.push_all(&declaration.params)?;
    let fields = resolve_fields(
        alloc,
        meanings,
        usings,
        &mut variables,
        &declaration.constructors,
    )?;
    Ok(Placed {
        tree: Decl {
            tag: tag_of(alloc, &declaration.sort, &declaration.name)?,
            params: small_number(declaration.params.len())?,
            ctors: fields.tree,
        },
        places: fields.places,
    })
}

/// Adds a declared type that has this number.
pub fn add_declaration<M: Meanings>(
    alloc: Global,
    meanings: &M,
    usings: &Usings,
    number: u32,
    declaration: &Declaration,
    draft: &mut Draft,
) -> Result<(), Fault>
    ensures { Adds (draft_of draft.old) (draft_of draft.new) result
        (declaration_adds (M.known meanings.now) usings.now number declaration.now.sort declaration.now.name
        declaration.now.params.items (constructors_of declaration.now.constructors.items)) }
{
    let name = parse_name(alloc, declaration.name.text.as_slice())?;
    let ctors = constructor_names(alloc, number, declaration)?;
    let kind = resolve_declaration(alloc, meanings, usings, declaration)?;
    draft.add_kind(name, ctors, declaration.name.place, kind)?;
    Ok(())
}
