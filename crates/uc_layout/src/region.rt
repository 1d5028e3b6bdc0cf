//! Which tokens end a region, begin an item, or open a block.
ghost use Rattle.std.specs.Prelude.{◌≡◌, ◌+◌, ◌&&◌, not, true, IfOk, MatchOption, IfSome};
ghost use Rattle.uc_layout.specs.Layout as spec;
ghost use Rattle.uc_layout.specs.Layout.{hollow, block, block_before};
ghost use Rattle.uc_layout.specs.Run as run;

use crate::piece::{Container, Outside, Piece, Region, Role, Waiting};
use std::alloc::AllocError;

fn is_right(role: Role) -> bool
    ensures { result ≡ spec.is_right role }
{
    matches!(role, Role::Right)
}

fn is_punctuation(role: Role) -> bool
    ensures { result ≡ spec.is_punctuation role }
{
    matches!(role, Role::Right | Role::Comma)
}

fn is_closing(role: Role) -> bool
    ensures { result ≡ spec.is_closing role }
{
    matches!(
        role,
        Role::Right | Role::Comma | Role::Then | Role::Else | Role::With
    )
}

fn goes_on(role: Role) -> bool
    ensures { result ≡ spec.goes_on role }
{
    matches!(role, Role::Bar) || is_closing(role)
}

fn declares(role: Role) -> bool
    ensures { result ≡ spec.declares role }
{
    matches!(role, Role::Declares)
}

fn opens(role: Role) -> bool
    ensures { result ≡ spec.opens role }
{
    matches!(role, Role::Opener | Role::Then | Role::Else | Role::With)
}

/// Whether a block stands behind a token, where this is the region behind it.
pub fn opens_block(here: Region, role: Role) -> bool
    ensures { result ≡ (spec.opens role && not here.types) }
{
    opens(role) && !here.types
}

pub fn is_left(role: Role) -> bool
    ensures { result ≡ run.is_left role }
{
    matches!(role, Role::Left)
}

pub fn is_block(container: Container) -> bool
    ensures { result ≡ run.is_block container }
{
    matches!(container, Container::Block | Container::Inline)
}

const NOTHING: Waiting = Waiting {
    thens: 0,
    elses: 0,
    withs: 0,
};

const NOTHING_OUTSIDE: Outside = Outside {
    thens: false,
    elses: false,
    withs: false,
};

/// The file, before its first token.
pub fn the_file() -> Region
    ensures { result ≡ spec.the_file }
{
    Region {
        container: Container::File,
        column: 1,
        bracketed: false,
        outside: NOTHING_OUTSIDE,
        waiting: NOTHING,
        types: false,
    }
}

fn more(outside: Outside, waiting: Waiting) -> Outside
    ensures { result ≡ spec.more outside waiting }
{
    Outside {
        thens: outside.thens || 0 < waiting.thens,
        elses: outside.elses || 0 < waiting.elses,
        withs: outside.withs || 0 < waiting.withs,
    }
}

fn ends_word(outside: Outside, waiting: Waiting, role: Role) -> bool
    ensures { result ≡ spec.ends_word outside waiting role }
{
    match role {
        Role::Then => waiting.thens == 0 && outside.thens,
        Role::Else => waiting.elses == 0 && outside.elses,
        Role::With => waiting.withs == 0 && outside.withs,
        _ => false,
    }
}

fn ends_block(here: Region, t: Piece) -> bool
    ensures { result ≡ spec.ends_block here t }
{
    here.bracketed && is_punctuation(t.role)
        || ends_word(here.outside, here.waiting, t.role)
        || t.first && t.column < here.column
}

fn is_in_column(here: Region, t: Piece) -> bool
    ensures { result ≡ spec.in_column here t }
{
    t.first && t.column == here.column && !goes_on(t.role)
}

/// Whether a token ends the region.
pub fn is_ended(here: Region, t: Piece) -> bool
    ensures { result ≡ spec.ends_at here.container here t }
{
    match here.container {
        Container::File => false,
        Container::Bracket => is_right(t.role),
        Container::Block => ends_block(here, t),
        Container::Inline => ends_block(here, t) || is_in_column(here, t),
    }
}

/// Whether a token that doesn't end the region begins an item of it.
pub fn is_begun(here: Region, t: Piece) -> bool
    ensures { result ≡ spec.begins_at here.container here t }
{
    match here.container {
        Container::File | Container::Block => is_in_column(here, t),
        Container::Bracket | Container::Inline => false,
    }
}

/// The region where an item begins with a token.
pub fn at_start(here: Region, role: Role) -> Region
    ensures { result ≡ spec.at_start here role }
{
    Region {
        waiting: NOTHING,
        types: declares(role) && matches!(here.container, Container::File),
        ..here
    }
}

/// One more, save that a count past 64 bits would want more memory than there is.
fn one_more(count: u64) -> Result<u64, AllocError>
    ensures { IfOk result (λ n. n ≡ count + 1) }
{
    count.checked_add(1).ok_or(AllocError)
}

/// What waits behind a word.
fn waits(waiting: Waiting, role: Role) -> Result<Waiting, AllocError>
    ensures { IfOk result (λ w. w ≡ spec.waits waiting role) }
{
    let mut next = waiting;
    match role {
        Role::If => next.thens = one_more(waiting.thens)?,
        Role::Then => {
            if waiting.thens > 0 {
                next.thens = waiting.thens - 1;
                next.elses = one_more(waiting.elses)?;
            }
        }
        Role::Else => next.elses = waiting.elses.saturating_sub(1),
        Role::Match => next.withs = one_more(waiting.withs)?,
        Role::With => next.withs = waiting.withs.saturating_sub(1),
        _ => {}
    }
    Ok(next)
}

/// The region behind a token.
pub fn behind(here: Region, role: Role) -> Result<Region, AllocError>
    ensures { IfOk result (λ r. r ≡ spec.behind here role) }
{
    let waiting = waits(here.waiting, role)?;
    Ok(Region {
        waiting,
        types: here.types || matches!(role, Role::Colon),
        ..here
    })
}

/// A bracket that is opened here.
pub fn inside_bracket(here: Region) -> Region
    ensures { result ≡ spec.inside_bracket here }
{
    Region {
        container: Container::Bracket,
        column: 0,
        bracketed: true,
        outside: NOTHING_OUTSIDE,
        waiting: NOTHING,
        types: here.types,
    }
}

fn inside_block(container: Container, column: u32, here: Region) -> Region
    ensures { result ≡ spec.inside_block container column here }
{
    Region {
        container,
        column,
        bracketed: here.bracketed,
        outside: more(here.outside, here.waiting),
        waiting: NOTHING,
        types: false,
    }
}

/// The block behind an opener; `None` where it is empty.
pub fn block_of(here: Region, after: &[Piece]) -> Option<Region>
    ensures is { MatchOption result (block_before here after.now ≡ hollow) (λ r. block_before here after.now ≡ block r) }
    ensures block { IfSome result (λ r. run.is_block r.container ≡ true) }
{
    match after {
        [] => None,
        [t, ..] => {
            if is_closing(t.role) || t.first && t.column <= here.column {
                None
            } else if t.first {
                Some(inside_block(Container::Block, t.column, here))
            } else {
                Some(inside_block(Container::Inline, here.column, here))
            }
        }
    }
}
