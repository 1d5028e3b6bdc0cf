//! The rule of the turnstile's table.
use crate::view::SeatView;
use atomic_table::{Seat, TableRule};
use std::marker::PhantomData;
use std::snapshot::Snapshot;
use uc_base::Worked;

/// What the table is told when it is made: the state at the opening, and the number of passes.
pub struct Opening<S> {
    pub state: Snapshot<S>,
    pub passes: u64,
}

impl<S> Drop for Opening<S> {
    fn drop(self) {
        let Self {
            state: _,
            passes: _,
        } = self;
    }
}

/// The rule for states of this type.
pub struct TurnstileRule<S> {
    state: PhantomData<S>,
}

impl<S: Worked> TableRule<Option<S>, SeatView<S::Entry, S::Request, S::Reply>, Opening<S>>
    for TurnstileRule<S> {
    ghost use Rattle.uc_turnstile.specs.Rule.{Stands, first_view};

    ghost holds = { λ about. Stands S.entries about.passes (S.entries about.state.value) };

    ghost first = { λ about. first_view about.passes (S.entries about.state.value) };
}

/// A seat of the turnstile's table.
pub type TableSeat<S> = Seat<
    Option<S>,
    SeatView<<S as Worked>::Entry, <S as Worked>::Request, <S as Worked>::Reply>,
>;
