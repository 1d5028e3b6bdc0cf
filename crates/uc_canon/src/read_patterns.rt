//! Patterns from canonical text.
ghost use Rattle.std.specs.Prelude.{◌≡◌, []};
ghost use Rattle.uc_canon.specs.Reading.{Gives, counted_at, items_from};
ghost use Rattle.uc_canon.specs.ReadingPatterns.{literal_pattern_at, alias_at, tuple_pattern_at, list_pattern_at, constructor_pattern_at, cons_at, snoc_at, pattern_by, pattern_at};

use crate::read_basics::{read_count, read_literal};
use crate::read_error::ReadError;
use crate::read_types::read_constructor;
use std::alloc::Global;
use uc_tree::Pattern;

#[tactic(auto, unfolding(crate::specs::ReadingPatterns::literal_pattern_at))]
fn read_literal_pattern(
    alloc: Global,
    kind: u8,
    bytes: &[u8],
) -> Result<(Pattern, &[u8]), ReadError>
    ensures { Gives (λ x. (x.0, x.1.now)) result (literal_pattern_at kind bytes.now) }
{
    let (literal, rest) = read_literal(alloc, kind, bytes)?;
    Ok((Pattern::literal(literal), rest))
}

/// A pattern of at most so many levels.
#[cycle(read_pattern)]
pub(crate) fn read_pattern(
    alloc: Global,
    levels: u32,
    bytes: &[u8],
) -> Result<(Pattern, &[u8]), ReadError>
    ensures { Gives (λ x. (x.0, x.1.now)) result (pattern_at levels bytes.now) }
{
    if levels == 0 {
        return Err(ReadError::Absent);
    }
    read_pattern_by(alloc, levels - 1, bytes)
}

/// A pattern whose parts have at most so many levels.
#[cycle(read_pattern)]
#[tactic(auto, unfolding(crate::specs::ReadingPatterns::pattern_by))]
fn read_pattern_by(alloc: Global, levels: u32, bytes: &[u8]) -> Result<(Pattern, &[u8]), ReadError>
    ensures { Gives (λ x. (x.0, x.1.now)) result (pattern_by (pattern_at levels) bytes.now) }
{
    match bytes {
        [] => Err(ReadError::Absent),
        [c, rest @ ..] => match *c {
            b'_' => Ok((Pattern::any(), rest)),
            b'v' => Ok((Pattern::variable(), rest)),
            b'@' => read_alias(alloc, levels, rest),
            b'e' => Ok((Pattern::unit(), rest)),
            b'p' => read_tuple_pattern(alloc, levels, rest),
            b'g' => read_list_pattern(alloc, levels, rest),
            b'k' => read_constructor_pattern(alloc, levels, rest),
            b'<' => read_cons(alloc, levels, rest),
            b'>' => read_snoc(alloc, levels, rest),
            kind => read_literal_pattern(alloc, kind, rest),
        },
    }
}

#[cycle(read_pattern)]
#[tactic(auto, unfolding(crate::specs::ReadingPatterns::alias_at))]
fn read_alias(alloc: Global, levels: u32, bytes: &[u8]) -> Result<(Pattern, &[u8]), ReadError>
    ensures { Gives (λ x. (x.0, x.1.now)) result (alias_at (pattern_at levels) bytes.now) }
{
    let (inside, rest) = read_pattern(alloc, levels, bytes)?;
    Ok((Pattern::alias(alloc, inside)?, rest))
}

#[cycle(read_pattern)]
#[tactic(auto, unfolding(crate::specs::ReadingPatterns::tuple_pattern_at))]
fn read_tuple_pattern(
    alloc: Global,
    levels: u32,
    bytes: &[u8],
) -> Result<(Pattern, &[u8]), ReadError>
    ensures { Gives (λ x. (x.0, x.1.now)) result (tuple_pattern_at (pattern_at levels) bytes.now) }
{
    let (parts, rest) = read_patterns(alloc, levels, 2, bytes)?;
    Ok((Pattern::tuple(parts), rest))
}

#[cycle(read_pattern)]
#[tactic(auto, unfolding(crate::specs::ReadingPatterns::list_pattern_at))]
fn read_list_pattern(
    alloc: Global,
    levels: u32,
    bytes: &[u8],
) -> Result<(Pattern, &[u8]), ReadError>
    ensures { Gives (λ x. (x.0, x.1.now)) result (list_pattern_at (pattern_at levels) bytes.now) }
{
    let (elements, rest) = read_patterns(alloc, levels, 0, bytes)?;
    Ok((Pattern::list(elements), rest))
}

#[cycle(read_pattern)]
#[tactic(auto, unfolding(crate::specs::ReadingPatterns::constructor_pattern_at))]
fn read_constructor_pattern(
    alloc: Global,
    levels: u32,
    bytes: &[u8],
) -> Result<(Pattern, &[u8]), ReadError>
    ensures { Gives (λ x. (x.0, x.1.now)) result
        (constructor_pattern_at (pattern_at levels) bytes.now) }
{
    let (head, rest) = read_constructor(bytes)?;
    let (fields, rest) = read_patterns(alloc, levels, 0, rest)?;
    Ok((Pattern::constructor(head, fields), rest))
}

#[cycle(read_pattern)]
#[tactic(auto, unfolding(crate::specs::ReadingPatterns::cons_at))]
fn read_cons(alloc: Global, levels: u32, bytes: &[u8]) -> Result<(Pattern, &[u8]), ReadError>
    ensures { Gives (λ x. (x.0, x.1.now)) result (cons_at (pattern_at levels) bytes.now) }
{
    let (first, rest) = read_pattern(alloc, levels, bytes)?;
    let (others, rest) = read_pattern(alloc, levels, rest)?;
    Ok((Pattern::cons(alloc, first, others)?, rest))
}

#[cycle(read_pattern)]
#[tactic(auto, unfolding(crate::specs::ReadingPatterns::snoc_at))]
fn read_snoc(alloc: Global, levels: u32, bytes: &[u8]) -> Result<(Pattern, &[u8]), ReadError>
    ensures { Gives (λ x. (x.0, x.1.now)) result (snoc_at (pattern_at levels) bytes.now) }
{
    let (front, rest) = read_pattern(alloc, levels, bytes)?;
    let (last, rest) = read_pattern(alloc, levels, rest)?;
    Ok((Pattern::snoc(alloc, front, last)?, rest))
}

/// How many patterns, of which there are at least so many, and then each.
#[cycle(read_pattern)]
#[tactic(auto, unfolding(crate::specs::Reading::counted_at))]
fn read_patterns(
    alloc: Global,
    levels: u32,
    least: u32,
    bytes: &[u8],
) -> Result<(Vec<Pattern>, &[u8]), ReadError>
    ensures { Gives (λ x. (x.0.items, x.1.now)) result
        (counted_at (pattern_at levels) least bytes.now) }
{
    let (count, rest) = read_count(least, bytes)?;
    read_each_pattern(alloc, levels, count, rest)
}

#[cycle(read_pattern)]
fn read_each_pattern(
    alloc: Global,
    levels: u32,
    count: u32,
    bytes: &[u8],
) -> Result<(Vec<Pattern>, &[u8]), ReadError>
    ensures { Gives (λ x. (x.0.items, x.1.now)) result
        (items_from (pattern_at levels) [] count bytes.now) }
{
    let mut patterns = Vec::new(alloc);
    let mut rest = bytes;
    for _ in 0..count {
        let (pattern, after) = read_pattern(alloc, levels, rest)?;
        patterns.push(pattern)?;
        rest = after;
    }
    Ok((patterns, rest))
}
