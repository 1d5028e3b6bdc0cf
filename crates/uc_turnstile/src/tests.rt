//! Threads that take turns at one turnstile.
ghost use Rattle.std.specs.Prelude.{◌≡◌, ℕ, ◌^◌, ◌<◌, ◌≤◌, All, [], Some, length, slice_get, slice_index_or, vec_len};
ghost use Rattle.uc_turnstile.specs.Passes.{HoldsAllPasses};
ghost use Rattle.uc_turnstile.specs.Shown.{IsPassOf, passes_of, splits_left_of, turns_left_of, view_of};

use crate::turnstile::{Pass, Turnstile};
use std::alloc::Global;
use std::sync::Wait;
use std::test::*;
use std::thread;
use std::thread::Threads;
use uc_base::Worked;

// A state that counts turns. A request says whether to count this one, and the reply is the count before it.
#[derive(Drop)]
struct TurnCount {
    turns: u64,
}

impl Worked for TurnCount {
    type Entry = bool;

    type Request = bool;

    type Reply = Option<u64>;

    ghost use Rattle.std.specs.Prelude.{◌≡◌, ◌+◌, true, length, replicate, MatchBool, MatchOption};

    ghost entries = { λ state. replicate state.turns true };

    ghost faults = { λ state. 0 };

    ghost tied = { λ before after request reply f g. MatchOption reply (after ≡ before) (λ n. (n ≡ length before) × MatchBool request (length after ≡ length before + 1) (after ≡ before)) };

    fn work(&mut self, request: &bool) -> Option<u64> {
        let before = self.turns;
        if *request {
            self.turns = before.checked_add(1)?;
        }
        Some(before)
    }
}

// So many turns of one pass.
fn take_turns<R: Wait>(
    rt: &R,
    turnstile: &Turnstile<TurnCount>,
    pass: &mut Pass<TurnCount>,
    turns: u64,
)
    requires own { IsPassOf turnstile.now pass.old }
    requires left { turns ≤ turns_left_of pass.old }
    ensures own { IsPassOf turnstile.now pass.new }
    ensures name { (view_of pass.new).own.name ≡ (view_of pass.old).own.name }
    ensures splits { (view_of pass.new).own.splits ≡ (view_of pass.old).own.splits }
    ensures met { (view_of pass.new).met ≡ (view_of pass.old).met }
{
    for _ in 0..turns {
        turnstile.turn(rt, pass, &true);
    }
}

// So many turns of each pass, all at the same time.
fn take_all_turns<R: Threads + Wait + Sync>(
    rt: &R,
    turnstile: &Turnstile<TurnCount>,
    passes: &mut [Pass<TurnCount>],
    turns: u64,
)
    requires own { All (λ pass. IsPassOf turnstile.now pass) passes.old }
    requires left { All (λ pass. turns ≤ turns_left_of pass) passes.old }
    ensures own { All (λ pass. IsPassOf turnstile.now pass) passes.new }
    ensures name { (k : ℕ) (d : _) → k < length passes.old → (view_of (slice_index_or passes.new k d)).own.name ≡ (view_of (slice_index_or passes.old k d)).own.name }
    ensures splits { (k : ℕ) (d : _) → k < length passes.old → (view_of (slice_index_or passes.new k d)).own.splits ≡ (view_of (slice_index_or passes.old k d)).own.splits }
    ensures met { (k : ℕ) (d : _) → k < length passes.old → (view_of (slice_index_or passes.new k d)).met ≡ (view_of (slice_index_or passes.old k d)).met }
{
    thread::for_each_mut(
        rt,
        passes,
        8,
        &|_, pass| take_turns(rt, turnstile, pass, turns),
    );
}

// All passes of a new turnstile meet, one after another.
fn gather(turnstile: &Turnstile<TurnCount>, mut passes: Vec<Pass<TurnCount>>) -> Pass<TurnCount>
    requires some { 0 < vec_len passes }
    requires each { (k : ℕ) (pass : _) → slice_get passes.items k ≡ Some pass → IsPassOf turnstile.now pass × (((view_of pass).own.name ≡ record { number = k; split = 0 }) × ((view_of pass).own.splits ≡ 0) × ((view_of pass).met ≡ [])) }
    ensures own { IsPassOf turnstile.now result }
    ensures all { HoldsAllPasses (vec_len passes) (view_of result) }
{
    let last = passes.pop();
    let Some(mut pass) = last else { unreachable!() };
    while let Some(other) = passes.pop() {
        turnstile.meet(&mut pass, other);
    }
    passes.destroy_empty();
    pass
}

// The count after so many turns of each of so many passes.
fn count_after<R: Threads + Wait + Sync>(
    rt: &R,
    alloc: Global,
    passes: u32,
    turns: u64,
) -> Option<u64>
    requires { (0 < passes) × (passes ≤ 4096) × (turns ≤ 2 ^ 40) }
{
    let Ok((turnstile, mut all)) = Turnstile::new(alloc, TurnCount { turns: 0 }, passes) else {
        return None;
    };
    take_all_turns(rt, &turnstile, all.as_mut_slice(), turns);
    let last = gather(&turnstile, all);
    let state = turnstile.close(last);
    Some(state.turns)
}

#[test]
fn each_turn_is_counted_once(rt: HostRuntime) -> Result<(), Fail> {
    assert_eq!(rt; count_after(&rt, rt.alloc(), 2, 3), Some(6));
    assert_eq!(rt; count_after(&rt, rt.alloc(), 1, 1_000), Some(1_000));
    assert_eq!(rt; count_after(&rt, rt.alloc(), 2, 1_000), Some(2_000));
    assert_eq!(rt; count_after(&rt, rt.alloc(), 8, 1_000), Some(8_000));
    assert_eq!(rt; count_after(&rt, rt.alloc(), 4_096, 1), Some(4_096));
    Ok(())
}

// Three turns of one pass.
fn three_turns<R: Wait>(
    rt: &R,
    turnstile: &Turnstile<TurnCount>,
    mut pass: Pass<TurnCount>,
) -> Pass<TurnCount>
    requires own { IsPassOf turnstile.now pass }
    requires left { 3 ≤ turns_left_of pass }
    ensures own { IsPassOf turnstile.now result }
    ensures same { ((view_of result).own.name ≡ (view_of pass).own.name) × ((view_of result).own.splits ≡ (view_of pass).own.splits) × ((view_of result).met ≡ (view_of pass).met) }
{
    take_turns(rt, turnstile, &mut pass, 3);
    pass
}

// Three turns of a pass and of one that was split from it, in two threads. Then they meet.
fn split_and_meet<R: Threads + Wait + Sync>(
    rt: &R,
    turnstile: Turnstile<TurnCount>,
    mut pass: Pass<TurnCount>,
) -> u64
    requires made { passes_of turnstile ≡ 1 }
    requires own { IsPassOf turnstile pass }
    requires left { (3 ≤ turns_left_of pass) × (0 < splits_left_of pass) }
    requires first { ((view_of pass).own.name ≡ record { number = 0; split = 0 }) × ((view_of pass).own.splits ≡ 0) × ((view_of pass).met ≡ []) }
{
    let half = turnstile.split(&mut pass);
    let shared = &turnstile;
    let (mut one, other) = thread::join(
        rt,
        move || -> Pass<TurnCount>
            requires { IsPassOf shared.now pass × (3 ≤ turns_left_of pass) }
            ensures own { IsPassOf shared.entry.now result }
            ensures same { ((view_of result).own.name ≡ (view_of pass).own.name) × ((view_of result).own.splits ≡ (view_of pass).own.splits) × ((view_of result).met ≡ (view_of pass).met) }
        { three_turns(rt, shared, pass) },
        move || -> Pass<TurnCount>
            requires { IsPassOf shared.now half × (3 ≤ turns_left_of half) }
            ensures own { IsPassOf shared.entry.now result }
            ensures same { ((view_of result).own.name ≡ (view_of half).own.name) × ((view_of result).own.splits ≡ (view_of half).own.splits) × ((view_of result).met ≡ (view_of half).met) }
        { three_turns(rt, shared, half) },
    );
    turnstile.meet(&mut one, other);
    turnstile.close(one).turns
}

// The turns that a new pass has left, and the splits, before and after a split; and the count at the end.
fn one_pass_split<R: Threads + Wait + Sync>(rt: &R, alloc: Global) -> Option<(u64, u32, u64)> {
    let Ok((turnstile, mut passes)) = Turnstile::new(alloc, TurnCount { turns: 0 }, 1) else {
        return None;
    };
    let last = passes.pop();
    let Some(pass) = last else { unreachable!() };
    passes.destroy_empty();
    let turns = pass.turns_left();
    let splits = pass.splits_left();
    Some((turns, splits, split_and_meet(rt, turnstile, pass)))
}

#[test]
fn a_split_pass_meets_again(rt: HostRuntime) -> Result<(), Fail> {
    let told = one_pass_split(&rt, rt.alloc());
    assert_eq!(rt; told, Some((1_099_511_627_776, 15, 6)));
    Ok(())
}
