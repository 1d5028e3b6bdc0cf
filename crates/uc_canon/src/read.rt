//! Components from canonical text.
ghost use Rattle.std.specs.Prelude.{◌≡◌, List, ℕ, [], IfOk, IfErr, IfSome, IfNone};
ghost use Rattle.uc_base.specs.declared.fault.Fault.TheVariants.{Memory};
ghost use Rattle.uc_tree.specs.Types.{tys_of};
ghost use Rattle.uc_tree.specs.Declarations.{fields_of};
ghost use Rattle.uc_canon.specs.Bounds.{InBounds};
ghost use Rattle.uc_canon.specs.Members.{Members, members_of, text_of};
ghost use Rattle.uc_canon.specs.Reading.{Gives, counted_at, items_from};
ghost use Rattle.uc_canon.specs.ReadingMembers.{definition_at, path_of, tag_at, fields_from, fields_at, declaration_at, definitions_at, declarations_at, members_at};

use crate::component::Component;
use crate::read_basics::{read_bytes, read_count, read_u32};
use crate::read_error::ReadError;
use crate::read_terms::read_term;
use crate::read_types::{read_signature, read_type};
use crate::scope::{TermScope, TypeScope};
use std::alloc::Global;
use uc_base::{Bytes, Fault, Name};
use uc_tree::{Decl, Definition, Ty};

/// How many levels a tree may have.
const LEVELS: u32 = 512;

/// A definition among so many.
#[tactic(auto, unfolding(crate::specs::ReadingMembers::definition_at))]
fn read_definition(
    alloc: Global,
    members: u32,
    bytes: &[u8],
) -> Result<(Definition, &[u8]), ReadError>
    ensures { Gives (λ x. (x.0, x.1.now)) result (definition_at members bytes.now) }
{
    let scope = TermScope {
        members,
        type_variables: 0,
        variables: 0,
    };
    let (signature, rest) = read_signature(alloc, LEVELS, scope.types(), bytes)?;
    let (body, rest) = read_term(alloc, LEVELS, scope.under_signature(&signature), rest)?;
    Ok((Definition { signature, body }, rest))
}

fn read_each_definition(
    alloc: Global,
    members: u32,
    bytes: &[u8],
) -> Result<(Vec<Definition>, &[u8]), ReadError>
    ensures { Gives (λ x. (x.0.items, x.1.now)) result
        (items_from (definition_at members) [] members bytes.now) }
{
    let mut definitions = Vec::new(alloc);
    let mut rest = bytes;
    for _ in 0..members {
        let (definition, after) = read_definition(alloc, members, rest)?;
        definitions.push(definition)?;
        rest = after;
    }
    Ok((definitions, rest))
}

#[tactic(auto, unfolding(crate::specs::ReadingMembers::definitions_at))]
fn read_definitions(alloc: Global, bytes: &[u8]) -> Result<(Vec<Definition>, &[u8]), ReadError>
    ensures { Gives (λ x. (x.0.items, x.1.now)) result (definitions_at bytes.now) }
{
    let (count, rest) = read_count(1, bytes)?;
    read_each_definition(alloc, count, rest)
}

/// The path that a text is.
#[tactic(auto, unfolding(crate::specs::ReadingMembers::path_of))]
fn read_path(alloc: Global, text: &[u8]) -> Result<Bytes, ReadError>
    ensures { Gives (λ x. x) result (path_of text.now) }
{
    match Name::parse(alloc, text) {
        Ok(name) => {
            if !name.is_path() {
                return Err(ReadError::Absent);
            }
            Ok(Bytes::from_slice(alloc, text)?)
        }
        Err(Fault::BadName) => Err(ReadError::Absent),
        Err(_) => Err(ReadError::Memory),
    }
}

#[tactic(auto, unfolding(crate::specs::ReadingMembers::tag_at))]
fn read_tag(alloc: Global, bytes: &[u8]) -> Result<(Option<Bytes>, &[u8]), ReadError>
    ensures { Gives (λ x. (x.0, x.1.now)) result (tag_at bytes.now) }
{
    match bytes {
        [] => Err(ReadError::Absent),
        [b's', rest @ ..] => Ok((None, rest)),
        [b'u', rest @ ..] => {
            let (text, rest) = read_bytes(rest)?;
            let tag = read_path(alloc, text)?;
            Ok((Some(tag), rest))
        }
        [_, ..] => Err(ReadError::Absent),
    }
}

/// The fields of a constructor whose type has at most so many levels, and whose end has so many.
fn read_each_field(
    alloc: Global,
    levels: u32,
    scope: TypeScope,
    end: u32,
    count: u32,
    bytes: &[u8],
) -> Result<(Vec<Ty>, &[u8]), ReadError>
    ensures { Gives (λ x. (x.0.items, x.1.now)) result
        (fields_from scope end [] levels count bytes.now) }
{
    let mut left = levels;
    let mut fields = Vec::new(alloc);
    let mut rest = bytes;
    for _ in 0..count {
        if left == 0 {
            return Err(ReadError::Absent);
        }
        left -= 1;
        let (field, after) = read_type(alloc, left, scope, rest)?;
        fields.push(field)?;
        rest = after;
    }
    if left < end {
        return Err(ReadError::Absent);
    }
    Ok((fields, rest))
}

/// The fields of a constructor of a declaration among so many with so many parameters.
#[tactic(auto, unfolding(crate::specs::ReadingMembers::fields_at))]
fn read_fields(
    alloc: Global,
    members: u32,
    params: u32,
    bytes: &[u8],
) -> Result<(Vec<Ty>, &[u8]), ReadError>
    ensures { Gives (λ x. (tys_of x.0.items, x.1.now)) result (fields_at members params bytes.now) }
{
    let (count, rest) = read_count(0, bytes)?;
    let scope = TypeScope {
        members,
        variables: u64::from(params),
    };
    let end = params.min(1) + 1;
    read_each_field(
        alloc,
        LEVELS.saturating_sub(params),
        scope,
        end,
        count,
        rest,
    )
}

fn read_each_constructor(
    alloc: Global,
    members: u32,
    params: u32,
    count: u32,
    bytes: &[u8],
) -> Result<(Vec<Vec<Ty>>, &[u8]), ReadError>
    ensures { Gives (λ x. (fields_of x.0.items, x.1.now)) result
        (items_from (fields_at members params) [] count bytes.now) }
{
    let mut ctors = Vec::new(alloc);
    let mut rest = bytes;
    for _ in 0..count {
        let (fields, after) = read_fields(alloc, members, params, rest)?;
        ctors.push(fields)?;
        rest = after;
    }
    Ok((ctors, rest))
}

#[tactic(auto, unfolding(crate::specs::Reading::counted_at))]
fn read_constructors(
    alloc: Global,
    members: u32,
    params: u32,
    bytes: &[u8],
) -> Result<(Vec<Vec<Ty>>, &[u8]), ReadError>
    ensures { Gives (λ x. (fields_of x.0.items, x.1.now)) result
        (counted_at (fields_at members params) 1 bytes.now) }
{
    let (count, rest) = read_count(1, bytes)?;
    read_each_constructor(alloc, members, params, count, rest)
}

/// A declaration among so many.
#[tactic(auto, unfolding(crate::specs::ReadingMembers::declaration_at))]
fn read_declaration(alloc: Global, members: u32, bytes: &[u8]) -> Result<(Decl, &[u8]), ReadError>
    ensures { Gives (λ x. (x.0, x.1.now)) result (declaration_at members bytes.now) }
{
    let (tag, rest) = read_tag(alloc, bytes)?;
    let (params, rest) = read_u32(rest)?;
    let (ctors, rest) = read_constructors(alloc, members, params, rest)?;
    Ok((Decl { tag, params, ctors }, rest))
}

fn read_each_declaration(
    alloc: Global,
    members: u32,
    bytes: &[u8],
) -> Result<(Vec<Decl>, &[u8]), ReadError>
    ensures { Gives (λ x. (x.0.items, x.1.now)) result
        (items_from (declaration_at members) [] members bytes.now) }
{
    let mut declarations = Vec::new(alloc);
    let mut rest = bytes;
    for _ in 0..members {
        let (declaration, after) = read_declaration(alloc, members, rest)?;
        declarations.push(declaration)?;
        rest = after;
    }
    Ok((declarations, rest))
}

#[tactic(auto, unfolding(crate::specs::ReadingMembers::declarations_at))]
fn read_declarations(alloc: Global, bytes: &[u8]) -> Result<(Vec<Decl>, &[u8]), ReadError>
    ensures { Gives (λ x. (x.0.items, x.1.now)) result (declarations_at bytes.now) }
{
    let (count, rest) = read_count(1, bytes)?;
    read_each_declaration(alloc, count, rest)
}

/// The component at the front of the bytes.
#[tactic(auto, unfolding(crate::specs::ReadingMembers::members_at))]
fn read_members(alloc: Global, bytes: &[u8]) -> Result<(Component, &[u8]), ReadError>
    ensures { Gives (λ x. (members_of x.0, x.1.now)) result (members_at bytes.now) }
{
    match bytes {
        [] => Err(ReadError::Absent),
        [b'T', rest @ ..] => {
            let (definitions, rest) = read_definitions(alloc, rest)?;
            Ok((Component::Terms(definitions), rest))
        }
        [b'D', rest @ ..] => {
            let (declarations, rest) = read_declarations(alloc, rest)?;
            Ok((Component::Kinds(declarations), rest))
        }
        [_, ..] => Err(ReadError::Absent),
    }
}

/// The component in bounds that all of the bytes spell, whatever the order of its members.
pub(crate) fn read_spelled(alloc: Global, bytes: &[u8]) -> Result<Option<Component>, Fault>
    // What is read is spelled so, and in bounds.
    ensures found { IfOk result (λ read. IfSome read (λ component.
        (bytes.now ≡ text_of (members_of component)) × InBounds (members_of component))) }
    // Nothing is read only where the bytes spell no component in bounds.
    ensures none { IfOk result (λ read. IfNone read
        ((members : Members) → InBounds members → bytes.now ≡ text_of members → ⊥)) }
    ensures err { IfErr result (λ fault. fault ≡ Memory) }
{
    match read_members(alloc, bytes) {
        Ok((component, [])) => Ok(Some(component)),
        Ok((_, [_, ..])) => Ok(None),
        Err(ReadError::Absent) => Ok(None),
        Err(ReadError::Memory) => Err(Fault::Memory),
    }
}
