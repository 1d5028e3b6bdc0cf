//! Passes that are split and that meet.
ghost use Rattle.std.specs.Prelude.{◌≡◌, ◌+◌, ◌^◌, ◌<◌};
ghost use Rattle.uc_turnstile.specs.Passes.{Meets, SplitsOff};
ghost use Rattle.uc_turnstile.specs.Shown.{IsPassOf, splits_left_of, turns_left_of, view_of};

use super::{Pass, Turnstile, seated};
use crate::plays::{Cut, Meet, Tell};
use uc_base::Worked;

impl<S: Worked> Turnstile<S> {
    /// A pass of its own for another thread, which has seen the same and made no turns.
    pub fn split(&self, pass: &mut Pass<S>) -> Pass<S>
        requires own { IsPassOf self.now pass.old }
        requires left { 0 < splits_left_of pass.old }
        ensures own { IsPassOf self.now pass.new × IsPassOf self.now result }
        ensures turns { (turns_left_of pass.new ≡ turns_left_of pass.old) × (turns_left_of result ≡ 2 ^ 40) }
        ensures splits { (splits_left_of pass.new + 1 ≡ splits_left_of pass.old) × (splits_left_of result ≡ 0) }
        ensures split { SplitsOff (view_of pass.old) (view_of pass.new) (view_of result) }
    {
        let seat = self.table.shared.split_seat::<Cut>(&mut pass.seat);
        pass.splits_left -= 1;
        seated(seat, 0)
    }

    /// The other pass ends. Afterwards `pass` has seen what both had.
    pub fn meet(&self, pass: &mut Pass<S>, other: Pass<S>)
        requires own { IsPassOf self.now pass.old × IsPassOf self.now other }
        ensures own { IsPassOf self.now pass.new }
        ensures left { (turns_left_of pass.new ≡ turns_left_of pass.old) × (splits_left_of pass.new ≡ splits_left_of pass.old) }
        ensures met { Meets (view_of pass.old) (view_of other) (view_of pass.new) }
    {
        let seat = other.into_seat();
        self.table.shared.join_seat::<Meet>(&mut pass.seat, seat);
        self.table.shared.load::<Tell<S>>(&mut pass.seat, 1);
    }
}
