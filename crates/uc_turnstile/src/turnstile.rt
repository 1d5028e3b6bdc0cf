//! The turnstile and its passes.
ghost use Rattle.std.specs.Prelude.{◌≡◌, ◌+◌, ◌*◌, ◌^◌, ◌⊎◌, ◌<◌, ◌≤◌, true, [], length};
ghost use Rattle.uc_turnstile.specs.Rule.{is_idle};

use crate::rule::{Opening, TableSeat, TurnstileRule};
use crate::view::SeatView;
use atomic_table::{Seat, Table};
use std::alloc::Global;
use uc_base::Worked;

mod closing;
mod opening;
mod passing;
mod turning;

/// A lock whose holder works on the state. Its holders come in the order of their tickets.
pub struct Turnstile<S: Worked> {
    table: Table<
        Option<S>,
        SeatView<S::Entry, S::Request, S::Reply>,
        Opening<S>,
        TurnstileRule<S>,
        Global,
    >,
    ghost sized: { (table.shared.table_id.words ≡ 2) × (table.shared.table_id.slots ≡ 1) },
}

/// One place at the turnstile, for one thread at a time.
pub struct Pass<S: Worked> {
    seat: Seat<Option<S>, SeatView<S::Entry, S::Request, S::Reply>>,
    turns_left: u64,
    splits_left: u32,
    ghost idle: { is_idle seat.me.0.stage ≡ true },
    ghost empty: { length seat.me.1 ≡ 0 },
    ghost counted: { turns_left + length seat.me.0.own.turns ≡ 2 ^ 40 },
    ghost first: { 0 < splits_left → seat.me.0.own.name.split ≡ 0 },
    ghost room: { turns_left + splits_left * 2 ^ 40 ≤ seat.me.0.room },
}

/// There was no memory for a turnstile. The state comes back.
#[derive(Drop)]
pub struct Refused<S> {
    pub state: S,
}

// A pass that has made no turns yet.
fn seated<S: Worked>(seat: TableSeat<S>, splits_left: u32) -> Pass<S>
    requires idle { (is_idle seat.me.0.stage ≡ true) × (length seat.me.1 ≡ 0) }
    requires first { (seat.me.0.own.turns ≡ []) × (seat.me.0.own.name.split ≡ 0 ⊎ splits_left ≡ 0) }
    requires room { 2 ^ 40 + splits_left * 2 ^ 40 ≤ seat.me.0.room }
    ensures { (result.seat ≡ seat) × (result.turns_left ≡ 2 ^ 40) × (result.splits_left ≡ splits_left) }
{
    Pass {
        seat,
        turns_left: 1 << 40,
        splits_left,
    }
}

impl<S: Worked> Pass<S> {
    ghost use Rattle.uc_turnstile.specs.Shown.{turns_left_of, splits_left_of};

    /// How many turns the pass may still make. A new pass may make 2^40.
    pub fn turns_left(&self) -> u64
        ensures { result ≡ turns_left_of self.now }
    {
        self.turns_left
    }

    /// How many times the pass may still be split. It is 0 for a pass that was split off.
    pub fn splits_left(&self) -> u32
        ensures { result ≡ splits_left_of self.now }
    {
        self.splits_left
    }

    fn into_seat(self) -> TableSeat<S>
        ensures { result ≡ self.seat }
    {
        let Pass {
            seat,
            turns_left: _,
            splits_left: _,
        } = self;
        seat
    }
}

impl<S: Worked> Drop for Pass<S> {
    fn drop(self) {
        let Self {
            seat: _,
            turns_left: _,
            splits_left: _,
        } = self;
    }
}
