//! How a turnstile is made.
ghost use Rattle.std.specs.Prelude.{◌≡◌, ℕ, ◌^◌, ◌<◌, ◌≤◌, All, slice_get, vec_len, vec_capacity, [], ◌∷◌, Some, IfOk, IfErr};
ghost use Rattle.uc_turnstile.specs.Passes.{new_pass};
ghost use Rattle.uc_turnstile.specs.Rule.{first_view, new_view};
ghost use Rattle.uc_turnstile.specs.Shown.{IsPassOf, opening_of, passes_of, splits_left_of, turns_left_of, view_of};

use super::{Pass, Refused, Turnstile, seated};
use crate::plays::Deal;
use crate::rule::{Opening, TableSeat};
use atomic_table::Table;
use std::alloc::{AllocFailed, Global};
use std::snapshot::Snapshot;
use uc_base::Worked;

// The one value that is left, of a list of one.
fn last<S>(slots: Vec<Option<S>>) -> S
    requires { (k : _) × (slots.items ≡ Some k ∷ []) }
    ensures { (k : _) → slots.items ≡ Some k ∷ [] → result ≡ k }
{
    let mut slots = slots;
    let found = slots.pop();
    let Some(place) = found else { unreachable!() };
    let Some(state) = place else { unreachable!() };
    slots.destroy_empty();
    state
}

impl<S: Worked> Turnstile<S> {
    // The turnstile for so many passes, and its first seat.
    fn open(
        alloc: Global,
        state: S,
        passes: u64,
    ) -> Result<(Turnstile<S>, TableSeat<S>), Refused<S>>
        requires { (0 < passes) × (passes ≤ 4096) }
        ensures ok { IfOk result (λ r. (r.1.table_id ≡ r.0.table.shared.table_id) × (r.1.me ≡ (first_view passes (S.entries state), [])) × (S.entries r.0.table.shared.key.state.value ≡ S.entries state) × (r.0.table.shared.key.passes ≡ passes)) }
        ensures err { IfErr result (λ r. r.state ≡ state) }
    {
        let about = Opening {
            state: Snapshot::of(&state),
            passes,
        };
        let mut slots = Vec::new(alloc);
        if let Err(failed) = slots.push(Some(state)) {
            let AllocFailed { value } = failed;
            slots.destroy_empty();
            let Some(state) = value else { unreachable!() };
            return Err(Refused { state });
        }
        match Table::new(alloc, &[0, 0], slots, &about) {
            Ok((table, seat)) => Ok((Turnstile { table }, seat)),
            Err(refused) => {
                let atomic_table::Refused { slots } = refused;
                Err(Refused { state: last(slots) })
            }
        }
    }

    // Deals the passes, the first of which is numbered 0.
    fn deal(&self, seat: TableSeat<S>, passes: u32, all: &mut Vec<Pass<S>>)
        requires own { seat.table_id ≡ self.now.table.shared.table_id }
        requires some { (0 < passes) × (passes ≤ 4096) × (all.old.items ≡ []) × (passes ≤ vec_capacity all.old) }
        requires view { (log : _) × (seat.me ≡ (first_view passes log, [])) }
        ensures count { vec_len all.new ≡ passes }
        ensures own { All (λ p. p.seat.table_id ≡ self.now.table.shared.table_id) all.new.items }
        ensures left { All (λ p. (p.turns_left ≡ 2 ^ 40) × (p.splits_left ≡ 15)) all.new.items }
        ensures each { (log : _) → seat.me ≡ (first_view passes log, []) → (k : ℕ) (p : _) → slice_get all.new.items k ≡ Some p → p.seat.me ≡ (new_view k log, []) }
    {
        let mut seat = seat;
        for i in 0..passes - 1 {
            let next = self.table.shared.split_seat::<Deal>(&mut seat);
            all.push_reserved(seated(next, 15));
        }
        all.push_reserved(seated(seat, 15));
    }

    /// A turnstile with so many passes, at most 4,096. It is refused only for want of memory.
    pub fn new(
        alloc: Global,
        state: S,
        passes: u32,
    ) -> Result<(Turnstile<S>, Vec<Pass<S>>), Refused<S>>
        requires { (0 < passes) × (passes ≤ 4096) }
        ensures made { IfOk result (λ r. (passes_of r.0 ≡ passes) × (opening_of S.entries r.0 ≡ S.entries state)) }
        ensures count { IfOk result (λ r. vec_len r.1 ≡ passes) }
        ensures own { IfOk result (λ r. All (IsPassOf r.0) r.1.items) }
        ensures left { IfOk result (λ r. All (λ pass. (turns_left_of pass ≡ 2 ^ 40) × (splits_left_of pass ≡ 15)) r.1.items) }
        ensures each { IfOk result (λ r. (k : ℕ) (pass : _) → slice_get r.1.items k ≡ Some pass → view_of pass ≡ new_pass k (S.entries state)) }
        ensures refused { IfErr result (λ r. r.state ≡ state) }
    {
        let Ok(mut all) = Vec::with_capacity(alloc, passes as usize) else {
            return Err(Refused { state });
        };
        match Turnstile::open(alloc, state, passes as u64) {
            Ok((turnstile, seat)) => {
                turnstile.deal(seat, passes, &mut all);
                Ok((turnstile, all))
            }
            Err(refused) => {
                all.destroy_empty();
                Err(refused)
            }
        }
    }
}
