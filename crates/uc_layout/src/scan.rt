//! The tokens of a text, in one pass.
ghost use Rattle.std.specs.Prelude.{◌≡◌, ◌+◌, ◌<◌, ◌≤◌, ◌⊎◌, List, [], length, drop, IfOk, IfErr, IfSome, MatchOption};
ghost use Rattle.uc_base.specs.declared.fault.Fault.TheVariants.{Memory};
ghost use Rattle.uc_layout.specs.declared.scan.Cursor.{Cursor as CursorSeen};
ghost use Rattle.uc_layout.specs.Tokens.{Seen as SeenToken, Ending, ended, moved, last_byte, next_line, IsTokenized};
ghost use Rattle.uc_layout.specs.Scan as spec;
ghost use Rattle.uc_layout.specs.Scan.{IsBounded, Completes, Refuses, IsTokenFault};

use crate::automaton::{initial, longest};
use crate::blocks::Blocks;
use crate::judge::{Judgement, judged};
use crate::start::{Start, Wrong, characters, line_len, start_at};
use std::alloc::Global;
use uc_base::{Fault, Place};

/// A place between lexemes: what is left of the text, and the byte before.
#[derive(Clone, Copy, Debug)]
pub struct Cursor<'a> {
    pub rest: &'a [u8],
    pub before: u8,
    pub place: Place,
}

/// The place behind some bytes of a line.
fn behind<'a>(here: Cursor<'a>, count: usize) -> Cursor<'a>
    requires bounded { IsBounded here }
    requires some { 0 < count }
    requires within { count ≤ length here.rest.now }
    ensures place { result.place ≡ moved here.entry.place count here.entry.rest.now }
    ensures before { result.before ≡ last_byte count here.entry.rest.now }
    ensures rest { result.rest.now ≡ drop count here.entry.rest.now }
    ensures bounded { IsBounded result }
    ensures shorter { length result.rest.now < length here.entry.rest.now }
{
    let taken = characters(&here.rest[..count]);
    Cursor {
        rest: &here.rest[count..],
        before: here.rest[count - 1],
        place: Place {
            line: here.place.line,
            column: here.place.column + taken as u32,
        },
    }
}

/// The first place of the next line.
fn on_next_line<'a>(here: Cursor<'a>) -> Cursor<'a>
    requires bounded { IsBounded here }
    requires some { 0 < length here.rest.now }
    ensures place { result.place ≡ next_line here.entry.place }
    ensures before { result.before ≡ 10 }
    ensures rest { result.rest.now ≡ drop 1 here.entry.rest.now }
    ensures bounded { IsBounded result }
    ensures shorter { length result.rest.now < length here.entry.rest.now }
{
    Cursor {
        rest: &here.rest[1..],
        before: b'\n',
        place: Place {
            line: here.place.line + 1,
            column: 1,
        },
    }
}

fn fault_of(wrong: Wrong, place: Place) -> Fault
    ensures { result ≡ spec.fault_of wrong place }
{
    match wrong {
        Wrong::Bad => Fault::BadToken(place),
        Wrong::LeftOut => Fault::LeftOut(place),
    }
}

/// Reads what begins here. `None` where the text ends.
fn advance<'a>(here: Cursor<'a>, tokens: &mut Blocks<'a>) -> Result<Option<Cursor<'a>>, Fault>
    requires { IsBounded here }
    ensures reads { IfOk result (λ next. MatchOption next
        (Completes tokens.old here.entry tokens.new (ended here.entry.place))
        (λ x. (all : List SeenToken) (e : Ending) → Completes tokens.new x all e → Completes tokens.old here.entry all e)) }
    ensures bounded { IfOk result (λ next. IfSome next IsBounded) }
    ensures shorter { IfOk result (λ next. IfSome next (λ x. length x.rest.now < length here.entry.rest.now)) }
    ensures fault { IfErr result (λ fault. (fault ≡ Memory) ⊎ Refuses tokens.old here.entry fault) }
{
    match start_at(here.place.column, here.before, here.rest) {
        Start::TextEnd => Ok(None),
        Start::Fold => Ok(None),
        Start::Wrong(wrong) => Err(fault_of(wrong, here.place)),
        Start::LineFeed => Ok(Some(on_next_line(here))),
        Start::White => Ok(Some(behind(here, 1))),
        Start::Comment => Ok(Some(behind(here, line_len(here.rest)))),
        Start::Lexeme(form) => {
            let count = longest(form, here.rest);
            let text = &here.rest[..count];
            match judged(form, text) {
                Judgement::Wrong(wrong) => Err(fault_of(wrong, here.place)),
                Judgement::Token(kind) => {
                    tokens.push(kind, text, here.place)?;
                    Ok(Some(behind(here, count)))
                }
            }
        }
    }
}

/// The tokens of a text, and the place where it ends.
pub fn scan<'a>(alloc: Global, text: &'a [u8]) -> Result<(Blocks<'a>, Place), Fault>
    requires { length text.now ≤ 262144 }
    ensures tokens { IfOk result (λ x. IsTokenized text.now x.0 (ended x.1)) }
    ensures fault { IfErr result (λ fault. (fault ≡ Memory) ⊎ IsTokenFault text.now fault) }
{
    let mut tokens = Blocks::new(alloc);
    let mut here = Cursor {
        rest: text,
        before: b'\n',
        place: Place { line: 1, column: 1 },
    };
    'places: loop {
        match advance(here, &mut tokens)? {
            None => return Ok((tokens, here.place)),
            Some(next) => here = next,
        }
    }
}
