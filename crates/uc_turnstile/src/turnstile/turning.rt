//! A turn and its steps.
ghost use Rattle.std.specs.Prelude.{◌≡◌, ◌+◌, ◌<◌, [], Some};
ghost use Rattle.uc_turnstile.specs.declared.view.Stage.TheVariants.{Idle, Drawn};
ghost use Rattle.uc_turnstile.specs.Passes.{TakesTurn};
ghost use Rattle.uc_turnstile.specs.Rule.{view_drawn, IsServed, IsHeld, HasWorked, MayPass, PassesOn};
ghost use Rattle.uc_turnstile.specs.Shown.{IsPassOf, splits_left_of, turns_left_of, view_of};

use super::{Pass, Turnstile};
use crate::plays::{Called, Draw, Look, PassOn};
use crate::rule::TableSeat;
use std::marker::Brand;
use std::sync::Wait;
use std::thread;
use uc_base::Worked;

impl<S: Worked> Turnstile<S> {
    // Draws a ticket.
    fn draw(&self, seat: &mut TableSeat<S>) -> u64
        requires own { seat.old.table_id ≡ self.now.table.shared.table_id }
        requires idle { (seat.old.me.0.stage ≡ Idle) × (0 < seat.old.me.0.room) }
        ensures own { seat.new.table_id ≡ seat.old.table_id }
        ensures drawn { seat.new.me ≡ (view_drawn seat.old.me.0 result, seat.old.me.1) }
    {
        self.table.shared.fetch_add::<Draw<S>>(seat, 0, 1)
    }

    // Waits until the ticket is served. Then the seat has the state.
    fn wait_for<R: Wait>(&self, rt: &R, seat: &mut TableSeat<S>, ticket: u64)
        requires own { seat.old.table_id ≡ self.now.table.shared.table_id }
        requires drawn { (seat.old.me.0.stage ≡ Drawn ticket) × (seat.old.me.1 ≡ []) }
        ensures own { seat.new.table_id ≡ seat.old.table_id }
        ensures served { IsServed S.entries S.faults seat.old.me.0 ticket seat.new.me }
    {
        for _ in rt.forever() {
            if self.table.shared.load::<Look<S>>(seat, 1) == ticket {
                return;
            }
            thread::yield_now();
        }
        unreachable!()
    }

    // Takes the state out of the slot, works, and gives it back.
    fn work(&self, seat: &mut TableSeat<S>, request: &S::Request) -> S::Reply
        requires own { seat.old.table_id ≡ self.now.table.shared.table_id }
        requires held { IsHeld seat.old.me }
        ensures own { seat.new.table_id ≡ seat.old.table_id }
        ensures worked { HasWorked S.entries S.faults S.tied request.now result seat.old.me seat.new.me }
    {
        let taken = self.table.shared.exchange(seat, 0, None);
        let Some(mut state) = taken else {
            unreachable!()
        };
        let reply = state.work(request);
        let left = self.table.shared.exchange(seat, 0, Some(state));
        let None = left else { unreachable!() };
        reply
    }

    // Passes on the turn with this request and this reply.
    fn pass_on<C: Called<S::Request, S::Reply>>(
        &self,
        seat: &mut TableSeat<S>,
        request: &S::Request,
        reply: &S::Reply,
    )
        requires call { C.call ≡ Some (request.now, reply.now) }
        requires own { seat.old.table_id ≡ self.now.table.shared.table_id }
        requires worked { MayPass S.entries seat.old.me }
        ensures own { seat.new.table_id ≡ seat.old.table_id }
        ensures passed { PassesOn S.entries S.faults (Some (request.now, reply.now)) seat.old.me seat.new.me }
    {
        let _ = request;
        let _ = reply;
        self.table.shared.fetch_add::<PassOn<S, C>>(seat, 1, 1);
    }

    /// Works on the state once, when the turn has come. It waits for the turns before it.
    pub fn turn<R: Wait>(&self, rt: &R, pass: &mut Pass<S>, request: &S::Request) -> S::Reply
        requires own { IsPassOf self.now pass.old }
        requires left { 0 < turns_left_of pass.old }
        ensures own { IsPassOf self.now pass.new }
        ensures left { (turns_left_of pass.new + 1 ≡ turns_left_of pass.old) × (splits_left_of pass.new ≡ splits_left_of pass.old) }
        ensures turned { TakesTurn S.tied request.now result (view_of pass.old) (view_of pass.new) }
    {
        let ticket = self.draw(&mut pass.seat);
        self.wait_for(rt, &mut pass.seat, ticket);
        let reply = self.work(&mut pass.seat, request);
        self.pass_on::<Brand>(&mut pass.seat, request, &reply);
        pass.turns_left -= 1;
        reply
    }
}
