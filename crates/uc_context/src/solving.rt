//! Existentials solved.
ghost use Rattle.std.specs.Prelude.{◌≡◌, ◌+◌, ◌≤◌, ◌<◌, ◌^◌, ℕ, true, false, ◌∷◌, ◌++◌, [], length, map, slice_set, IsOk, IsTrue, IfOk, OnOk, IfErr, OnErr, vec_len};
ghost use Rattle.std.specs.List.{list_any, splice};
ghost use Rattle.uc_base.specs.declared.fault.Fault.TheVariants.{Memory};
ghost use Rattle.uc_context.specs.Contexts.{AreDeclaredBefore};
ghost use Rattle.uc_context.specs.Entries.{is_numbered, is_variable, is_unsolved};
ghost use Rattle.uc_context.specs.Fresh.{fresh_number, fresh_numbers, AreNew};
ghost use Rattle.uc_context.specs.Looking.{HasAt};
ghost use Rattle.uc_context.specs.Opens.{existential, opens_of};
ghost use Rattle.uc_context.specs.Solving.{solved, solved_with, solved_with_arrow, solved_with_data, solved_with_tuple};
ghost use Rattle.uc_context.specs.Variables.{declares_all};
ghost use Rattle.uc_context.specs.declared.entry.Entry.TheVariants as entry;

use crate::context::Context;
use crate::entry::Entry;
use crate::open::Open;
use std::alloc::{AllocError, Global};
use uc_base::Fault;
use uc_tree::Target;

fn set_entry(entries: &mut Vec<Entry>, at: usize, e: Entry)
    requires { at < vec_len entries.old }
    ensures { entries.new.items ≡ slice_set entries.old.items at e }
{
    entries[at] = e;
}

/// New existentials with these numbers.
fn new_existentials(alloc: Global, numbers: &[u64]) -> Result<Vec<Entry>, AllocError>
    ensures { IfOk result (λ es. es.items ≡ map (λ n. entry.Exists n) numbers.now) }
{
    let mut new = Vec::new(alloc);
    for n in numbers {
        new.push(Entry::Exists(*n))?;
    }
    Ok(new)
}

/// These existentials as types.
fn existentials(alloc: Global, numbers: &[u64]) -> Result<Vec<Open>, AllocError>
    ensures { IfOk result (λ ts. ts.items ≡ map (λ n. existential n) numbers.now) }
{
    let mut types = Vec::new(alloc);
    for n in numbers {
        types.push(Open::existential(*n))?;
    }
    Ok(types)
}

/// Puts entries in place of one.
fn exchange(entries: &mut Vec<Entry>, place: usize, new: Vec<Entry>) -> Result<(), AllocError>
    requires { place < vec_len entries.old }
    ensures ok { OnOk result (entries.new.items ≡ splice entries.old.items place (place + 1) new.items) }
    ensures err { OnErr result (entries.new.items ≡ entries.old.items) }
{
    let _ = entries.splice(place..place + 1, new)?;
    Ok(())
}

impl Context {
    /// The place of an existential that isn't solved.
    fn place_of_unsolved(&self, which: u64) -> usize
        requires { IsTrue (list_any (is_unsolved which) self.now) }
        ensures { HasAt (is_variable which) self.now result (entry.Exists which) }
    {
        match self.standing(which) {
            Some((place, _)) => place,
            None => unreachable!(),
        }
    }

    /// Solves an existential.
    pub fn solve(&mut self, which: u64, with: Open) -> Result<(), Fault>
        requires unsolved { IsTrue (list_any (is_unsolved which) self.old) }
        requires declared { AreDeclaredBefore self.old with which }
        // It takes no memory.
        ensures succeeds { IsOk result }
        ensures solved { self.new ≡ solved self.old which with }
    {
        let place = self.place_of_unsolved(which);
        set_entry(&mut self.entries, place, Entry::Solved(which, with));
        Ok(())
    }

    /// So many numbers that no entry has, the least ones.
    fn fresh_numbers(&self, alloc: Global, count: u32) -> Result<Vec<u64>, AllocError>
        ensures { IfOk result (λ numbers. numbers.items ≡ fresh_numbers count self.now) }
    {
        let mut numbers = Vec::new(alloc);
        let mut next = self.fresh();
        while numbers.len() < count as usize {
            let number = self.index.numbers.next_unused(next);
            numbers.push(number)?;
            next = number + 1;
        }
        Ok(numbers)
    }

    /// The number that is fresh once a fresh one is taken.
    fn next_fresh(&self, taken: u64) -> u64
        requires { taken ≡ fresh_number self.now }
        ensures { taken ∷ result ∷ [] ≡ fresh_numbers 2 self.now }
    {
        self.index.numbers.next_unused(taken + 1)
    }

    /// Solves an existential by a type of new ones, which come to stand before it.
    fn solve_with(
        &mut self,
        alloc: Global,
        which: u64,
        numbers: &[u64],
        with: Open,
    ) -> Result<(), AllocError>
        requires unsolved { IsTrue (list_any (is_unsolved which) self.old) }
        requires new { AreNew numbers.now self.old }
        requires declared { IsTrue (declares_all (map (λ n. entry.Exists n) numbers.now) with) }
        ensures ok { OnOk result (self.new ≡ solved_with self.old which numbers.now with) }
        ensures err { OnErr result (self.new ≡ self.old) }
    {
        let place = self.place_of_unsolved(which);
        let mut new = new_existentials(alloc, numbers)?;
        new.push(Entry::Solved(which, with))?;
        self.index.make_room_for_all(numbers)?;
        exchange(&mut self.entries, place, new)?;
        self.index.exchange(&self.entries, place, numbers);
        Ok(())
    }

    /// Solves an existential by an arrow. Answers the new existentials of the argument and the result, of
    /// which that of the result stands first.
    pub fn solve_with_arrow(&mut self, alloc: Global, which: u64) -> Result<(u64, u64), Fault>
        requires { IsTrue (list_any (is_unsolved which) self.old) }
        ensures numbers { IfOk result (λ pair. pair.0 ∷ pair.1 ∷ [] ≡ fresh_numbers 2 self.old) }
        ensures ok { IfOk result (λ pair. self.new ≡ solved_with_arrow self.old which pair.0 pair.1) }
        ensures err { IfErr result (λ fault. fault ≡ Memory) }
        ensures kept { OnErr result (self.new ≡ self.old) }
    {
        let from = self.fresh();
        let to = self.next_fresh(from);
        let with = Open::arrow(alloc, Open::existential(from), Open::existential(to))?;
        self.solve_with(alloc, which, &[to, from], with)?;
        Ok((from, to))
    }

    /// Solves an existential by a declared type at so many new ones, which stand in their order.
    pub fn solve_with_data(
        &mut self,
        alloc: Global,
        head: &Target,
        count: u32,
        which: u64,
    ) -> Result<Vec<u64>, Fault>
        requires { IsTrue (list_any (is_unsolved which) self.old) }
        ensures numbers { IfOk result (λ numbers. numbers.items ≡ fresh_numbers count self.old) }
        ensures ok { IfOk result (λ numbers. self.new ≡ solved_with_data self.old which head.now numbers.items) }
        ensures err { IfErr result (λ fault. fault ≡ Memory) }
        ensures kept { OnErr result (self.new ≡ self.old) }
    {
        let numbers = self.fresh_numbers(alloc, count)?;
        let with = Open::data(*head, existentials(alloc, &numbers)?);
        self.solve_with(alloc, which, &numbers, with)?;
        Ok(numbers)
    }

    /// Solves an existential by a tuple of so many new ones, which stand in their order.
    pub fn solve_with_tuple(
        &mut self,
        alloc: Global,
        count: u32,
        which: u64,
    ) -> Result<Vec<u64>, Fault>
        requires { IsTrue (list_any (is_unsolved which) self.old) }
        ensures numbers { IfOk result (λ numbers. numbers.items ≡ fresh_numbers count self.old) }
        ensures ok { IfOk result (λ numbers. self.new ≡ solved_with_tuple self.old which numbers.items) }
        ensures err { IfErr result (λ fault. fault ≡ Memory) }
        ensures kept { OnErr result (self.new ≡ self.old) }
    {
        let numbers = self.fresh_numbers(alloc, count)?;
        let with = Open::tuple(existentials(alloc, &numbers)?);
        self.solve_with(alloc, which, &numbers, with)?;
        Ok(numbers)
    }
}
