//! How a turnstile is closed.
ghost use Rattle.std.specs.Prelude.{◌≡◌};
ghost use Rattle.uc_turnstile.specs.Passes.{HoldsAllPasses, IsComplete};
ghost use Rattle.uc_turnstile.specs.Shown.{IsPassOf, opening_of, passes_of, view_of};

use super::{Pass, Turnstile};
use uc_base::Worked;

impl<S: Worked> Turnstile<S> {
    /// The state, once all other passes were met into the last.
    pub fn close(self, last: Pass<S>) -> S
        requires own { IsPassOf self last }
        requires all { HoldsAllPasses (passes_of self) (view_of last) }
        ensures state { S.entries result ≡ (view_of last).seen }
        ensures complete { IsComplete (opening_of S.entries self) (view_of last) }
    {
        let Turnstile { table } = self;
        let seat = last.into_seat();
        let mut closed = table.close_with(seat);
        let place = closed.take(0);
        closed.free();
        let Some(state) = place else { unreachable!() };
        state
    }
}
