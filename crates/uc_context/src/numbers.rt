//! How often numbers are used, and the least that isn't.
ghost use Rattle.std.specs.Prelude.{◌≡◌, ◌≢◌, ℕ, ◌+◌, ◌*◌, ◌-◌, ◌/◌, ◌<◌, ◌≤◌, ◌^◌, max, length, map, [], slice_index, slice_set, slice_index_or, OnOk, vec_len, All, count_by, ◌==◌};
ghost use Rattle.uc_context.specs.Numbers.{tally_at, winner_at, IsPlayed, IsTournament, uses_at, uses_of};

use std::alloc::{AllocError, Global};
use std::marker::Model;

/// How often a number `n` is used, and the least unused one of the numbers below it in a tree in which
/// `2n + 1` and `2n + 2` stand right below `n`.
#[derive(Clone, Copy, Debug)]
pub(crate) struct Tally {
    pub(crate) uses: u64,
    pub(crate) least: u64,
}

/// A set of numbers, each as often as it is used. Contracts see how often by number.
#[derive(Debug, Drop)]
pub(crate) struct Numbers {
    tallies: Vec<Tally>,
}

impl Model for Numbers {
    ghost use Rattle.std.specs.Prelude.{List, ℕ};
    ghost use Rattle.uc_context.specs.Numbers.{uses_of, IsTournament};

    ghost Value = { List ℕ };

    ghost view = { λ n. uses_of n.tallies.items };

    ghost invariant = { λ n. IsTournament n.tallies.items };
}

/// The least unused number at or below a place in the tree.
fn least_at(tallies: &[Tally], at: usize) -> u64
    ensures { result ≡ (tally_at tallies.now at).least }
{
    if at < tallies.len() {
        tallies[at].least
    } else {
        at as u64
    }
}

fn winner(tallies: &[Tally], at: usize) -> u64
    requires { at < length tallies.now }
    ensures { result ≡ winner_at tallies.now at }
{
    if tallies[at].uses == 0 {
        return at as u64;
    }
    least_at(tallies, 2 * at + 1).min(least_at(tallies, 2 * at + 2))
}

/// Mends the least numbers from a place up to the root.
fn mend(tallies: &mut [Tally], at: usize)
    requires within { at < length tallies.old }
    requires others { (x : ℕ) → x ≢ at → IsPlayed tallies.old x }
    ensures played { IsTournament tallies.new }
    ensures uses { map (λ t. t.uses) tallies.new ≡ map (λ t. t.uses) tallies.old }
{
    tallies[at].least = winner(tallies, at);
    if at > 0 {
        mend(tallies, (at - 1) / 2);
    }
}

/// Writes how often a number is used.
fn recount(tallies: &mut [Tally], at: usize, uses: u64)
    requires within { at < length tallies.old }
    requires played { IsTournament tallies.old }
    ensures played { IsTournament tallies.new }
    ensures uses { uses_of tallies.new ≡ slice_set (uses_of tallies.old) at uses }
{
    tallies[at].uses = uses;
    mend(tallies, at);
}

/// Adds unused numbers until there are so many.
fn lengthen(tallies: &mut Vec<Tally>, up_to: usize) -> Result<(), AllocError>
    ensures kept { (x : ℕ) → tally_at tallies.new.items x ≡ tally_at tallies.old.items x }
    ensures longer { vec_len tallies.old ≤ vec_len tallies.new }
    ensures bound { vec_len tallies.new ≤ max (vec_len tallies.old) up_to }
    ensures ok { OnOk result (up_to ≤ vec_len tallies.new) }
{
    if up_to > tallies.len() {
        tallies.reserve(up_to - tallies.len())?;
    }
    for next in tallies.len()..up_to {
        tallies.push(Tally {
            uses: 0,
            least: next as u64,
        })?;
    }
    Ok(())
}

impl Numbers {
    pub(crate) fn new(alloc: Global) -> Numbers
        ensures { result ≡ [] }
    {
        Numbers {
            tallies: Vec::new(alloc),
        }
    }

    /// How often a number is used.
    pub(crate) fn uses(&self, x: u64) -> u64
        ensures uses { result ≡ uses_at self.now x }
        ensures within { 0 < result → x < length self.now }
        ensures small { 0 < result → x < 2 ^ 63 }
    {
        match self.tallies.get(x as usize) {
            Some(tally) => tally.uses,
            None => 0,
        }
    }

    pub(crate) fn least_unused(&self) -> u64
        ensures unused { uses_at self.now result ≡ 0 }
        ensures least { (m : ℕ) → m < result → 0 < uses_at self.now m }
    {
        least_at(&self.tallies, 0)
    }

    /// The least unused number from one on.
    pub(crate) fn next_unused(&self, from: u64) -> u64
        ensures unused { uses_at self.now result ≡ 0 }
        ensures from { from ≤ result }
        ensures used { (m : ℕ) → from ≤ m → m < result → 0 < uses_at self.now m }
    {
        let mut next = from;
        while self.uses(next) > 0 {
            next += 1;
        }
        next
    }

    /// Makes room for the numbers below a bound, which `add` takes.
    pub(crate) fn make_room(&mut self, up_to: usize) -> Result<(), AllocError>
        ensures kept { (x : ℕ) → uses_at self.new x ≡ uses_at self.old x }
        ensures longer { length self.old ≤ length self.new }
        ensures bound { length self.new ≤ max (length self.old) up_to }
        ensures ok { OnOk result (up_to ≤ length self.new) }
    {
        lengthen(&mut self.tallies, up_to)
    }

    /// One use more.
    pub(crate) fn add(&mut self, x: u64)
        requires room { x < length self.old }
        requires bound { uses_at self.old x + 1 < 2 ^ 64 }
        ensures { self.new ≡ slice_set self.old x (uses_at self.old x + 1) }
    {
        let at = x as usize;
        let uses = self.tallies[at].uses + 1;
        recount(&mut self.tallies, at, uses);
    }

    /// One use less.
    pub(crate) fn remove(&mut self, x: u64)
        requires { 0 < uses_at self.old x }
        ensures { self.new ≡ slice_set self.old x (uses_at self.old x - 1) }
    {
        let at = x as usize;
        let uses = self.tallies[at].uses - 1;
        recount(&mut self.tallies, at, uses);
    }

    /// One use more of each of these numbers.
    pub(crate) fn add_all(&mut self, numbers: &[u64])
        requires room { All (λ n. n < length self.old) numbers.now }
        requires bound { (x : ℕ) → uses_at self.old x + length numbers.now < 2 ^ 64 }
        ensures uses { (x : ℕ) → uses_at self.new x ≡ uses_at self.old x + count_by (λ n. n == x) numbers.now }
        ensures len { length self.new ≡ length self.old }
    {
        for n in numbers {
            self.add(*n);
        }
    }
}
