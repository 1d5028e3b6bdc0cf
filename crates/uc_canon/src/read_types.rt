//! Types from canonical text.
ghost use Rattle.std.specs.Prelude.{◌≡◌, []};
ghost use Rattle.uc_canon.specs.Reading.{Gives, counted_at, items_from};
ghost use Rattle.uc_canon.specs.ReadingTypes.{builtin_at, stored_at, constructor_at, member_at, type_target_at, type_variable_at, quantified_at, arrow_at, tuple_type_at, applied_at, type_by, type_at, signature_at};

use crate::read_basics::{read_count, read_hash, read_number, read_u32};
use crate::read_error::ReadError;
use crate::scope::TypeScope;
use std::alloc::Global;
use uc_base::Ref;
use uc_tree::{Target, Ty};

#[tactic(auto, unfolding(crate::specs::ReadingTypes::builtin_at))]
pub(crate) fn read_builtin(bytes: &[u8]) -> Result<(Target, &[u8]), ReadError>
    ensures { Gives (λ x. (x.0, x.1.now)) result (builtin_at bytes.now) }
{
    let (number, rest) = read_number(u64::from(u16::MAX), bytes)?;
    Ok((Target::Stored(Ref::Builtin(number as u16)), rest))
}

#[tactic(auto, unfolding(crate::specs::ReadingTypes::stored_at))]
pub(crate) fn read_stored(bytes: &[u8]) -> Result<(Target, &[u8]), ReadError>
    ensures { Gives (λ x. (x.0, x.1.now)) result (stored_at bytes.now) }
{
    let (hash, rest) = read_hash(bytes)?;
    let (member, rest) = read_u32(rest)?;
    Ok((Target::Stored(Ref::Def(hash, member)), rest))
}

#[tactic(auto, unfolding(crate::specs::ReadingTypes::constructor_at))]
pub(crate) fn read_constructor(bytes: &[u8]) -> Result<(Target, &[u8]), ReadError>
    ensures { Gives (λ x. (x.0, x.1.now)) result (constructor_at bytes.now) }
{
    let (hash, rest) = read_hash(bytes)?;
    let (member, rest) = read_u32(rest)?;
    let (ctor, rest) = read_u32(rest)?;
    Ok((Target::Stored(Ref::Ctor(hash, member, ctor)), rest))
}

/// One of so many members.
#[tactic(auto, unfolding(crate::specs::ReadingTypes::member_at))]
pub(crate) fn read_member(members: u32, bytes: &[u8]) -> Result<(Target, &[u8]), ReadError>
    ensures { Gives (λ x. (x.0, x.1.now)) result (member_at members bytes.now) }
{
    let (member, rest) = read_u32(bytes)?;
    if member >= members {
        return Err(ReadError::Absent);
    }
    Ok((Target::Own(member), rest))
}

#[tactic(auto, unfolding(crate::specs::ReadingTypes::type_target_at))]
fn read_type_target(members: u32, bytes: &[u8]) -> Result<(Target, &[u8]), ReadError>
    ensures { Gives (λ x. (x.0, x.1.now)) result (type_target_at members bytes.now) }
{
    match bytes {
        [] => Err(ReadError::Absent),
        [c, rest @ ..] => match *c {
            b'b' => read_builtin(rest),
            b'h' => read_stored(rest),
            b'm' => read_member(members, rest),
            _ => Err(ReadError::Absent),
        },
    }
}

#[tactic(auto, unfolding(crate::specs::ReadingTypes::type_variable_at))]
fn read_type_variable(scope: TypeScope, bytes: &[u8]) -> Result<(Ty, &[u8]), ReadError>
    ensures { Gives (λ x. (x.0, x.1.now)) result (type_variable_at scope bytes.now) }
{
    let (index, rest) = read_u32(bytes)?;
    if u64::from(index) >= scope.variables {
        return Err(ReadError::Absent);
    }
    Ok((Ty::variable(index), rest))
}

/// A type of at most so many levels.
#[cycle(read_type)]
pub(crate) fn read_type(
    alloc: Global,
    levels: u32,
    scope: TypeScope,
    bytes: &[u8],
) -> Result<(Ty, &[u8]), ReadError>
    ensures { Gives (λ x. (x.0, x.1.now)) result (type_at levels scope bytes.now) }
{
    if levels == 0 {
        return Err(ReadError::Absent);
    }
    read_type_by(alloc, levels - 1, scope, bytes)
}

/// A type whose parts have at most so many levels.
#[cycle(read_type)]
#[tactic(auto, unfolding(crate::specs::ReadingTypes::type_by))]
fn read_type_by(
    alloc: Global,
    levels: u32,
    scope: TypeScope,
    bytes: &[u8],
) -> Result<(Ty, &[u8]), ReadError>
    ensures { Gives (λ x. (x.0, x.1.now)) result (type_by (type_at levels) scope bytes.now) }
{
    match bytes {
        [] => Err(ReadError::Absent),
        [c, rest @ ..] => match *c {
            b'v' => read_type_variable(scope, rest),
            b'q' => read_quantified(alloc, levels, scope, rest),
            b'a' => read_arrow(alloc, levels, scope, rest),
            b'e' => Ok((Ty::unit(), rest)),
            b'p' => read_tuple_type(alloc, levels, scope, rest),
            b't' => read_applied(alloc, levels, scope, rest),
            _ => Err(ReadError::Absent),
        },
    }
}

#[cycle(read_type)]
#[tactic(auto, unfolding(crate::specs::ReadingTypes::quantified_at))]
fn read_quantified(
    alloc: Global,
    levels: u32,
    scope: TypeScope,
    bytes: &[u8],
) -> Result<(Ty, &[u8]), ReadError>
    ensures { Gives (λ x. (x.0, x.1.now)) result (quantified_at (type_at levels) scope bytes.now) }
{
    let (ty, rest) = read_type(alloc, levels, scope.quantified(), bytes)?;
    Ok((Ty::forall(alloc, ty)?, rest))
}

#[cycle(read_type)]
#[tactic(auto, unfolding(crate::specs::ReadingTypes::arrow_at))]
fn read_arrow(
    alloc: Global,
    levels: u32,
    scope: TypeScope,
    bytes: &[u8],
) -> Result<(Ty, &[u8]), ReadError>
    ensures { Gives (λ x. (x.0, x.1.now)) result (arrow_at (type_at levels) scope bytes.now) }
{
    let (from, rest) = read_type(alloc, levels, scope, bytes)?;
    let (to, rest) = read_type(alloc, levels, scope, rest)?;
    Ok((Ty::arrow(alloc, from, to)?, rest))
}

#[cycle(read_type)]
#[tactic(auto, unfolding(crate::specs::ReadingTypes::tuple_type_at))]
fn read_tuple_type(
    alloc: Global,
    levels: u32,
    scope: TypeScope,
    bytes: &[u8],
) -> Result<(Ty, &[u8]), ReadError>
    ensures { Gives (λ x. (x.0, x.1.now)) result (tuple_type_at (type_at levels) scope bytes.now) }
{
    let (parts, rest) = read_types(alloc, levels, scope, 2, bytes)?;
    Ok((Ty::tuple(parts), rest))
}

#[cycle(read_type)]
#[tactic(auto, unfolding(crate::specs::ReadingTypes::applied_at))]
fn read_applied(
    alloc: Global,
    levels: u32,
    scope: TypeScope,
    bytes: &[u8],
) -> Result<(Ty, &[u8]), ReadError>
    ensures { Gives (λ x. (x.0, x.1.now)) result (applied_at (type_at levels) scope bytes.now) }
{
    let (head, rest) = read_type_target(scope.members, bytes)?;
    let (arguments, rest) = read_types(alloc, levels, scope, 0, rest)?;
    Ok((Ty::data(head, arguments), rest))
}

/// How many types, of which there are at least so many, and then each.
#[cycle(read_type)]
#[tactic(auto, unfolding(crate::specs::Reading::counted_at))]
fn read_types(
    alloc: Global,
    levels: u32,
    scope: TypeScope,
    least: u32,
    bytes: &[u8],
) -> Result<(Vec<Ty>, &[u8]), ReadError>
    ensures { Gives (λ x. (x.0.items, x.1.now)) result
        (counted_at (type_at levels scope) least bytes.now) }
{
    let (count, rest) = read_count(least, bytes)?;
    read_each_type(alloc, levels, scope, count, rest)
}

#[cycle(read_type)]
fn read_each_type(
    alloc: Global,
    levels: u32,
    scope: TypeScope,
    count: u32,
    bytes: &[u8],
) -> Result<(Vec<Ty>, &[u8]), ReadError>
    ensures { Gives (λ x. (x.0.items, x.1.now)) result
        (items_from (type_at levels scope) [] count bytes.now) }
{
    let mut types = Vec::new(alloc);
    let mut rest = bytes;
    for _ in 0..count {
        let (ty, after) = read_type(alloc, levels, scope, rest)?;
        types.push(ty)?;
        rest = after;
    }
    Ok((types, rest))
}

/// A signature whose type has at most so many levels.
#[tactic(auto, unfolding(crate::specs::ReadingTypes::signature_at))]
pub(crate) fn read_signature(
    alloc: Global,
    levels: u32,
    scope: TypeScope,
    bytes: &[u8],
) -> Result<(Option<Ty>, &[u8]), ReadError>
    ensures { Gives (λ x. (x.0, x.1.now)) result (signature_at levels scope bytes.now) }
{
    match bytes {
        [] => Err(ReadError::Absent),
        [b'-', rest @ ..] => Ok((None, rest)),
        [b':', rest @ ..] => {
            let (ty, rest) = read_type(alloc, levels, scope, rest)?;
            Ok((Some(ty), rest))
        }
        [_, ..] => Err(ReadError::Absent),
    }
}
