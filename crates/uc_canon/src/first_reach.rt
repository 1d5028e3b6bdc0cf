//! The order in which the members of a component are first reached.
ghost use Rattle.std.specs.Prelude.{◌≡◌, ℕ, ◌+◌, ◌<◌, ◌^◌, ◌==◌, false, [], ◌∷◌, ◌++◌, length, slice_index, slice_index_or, IfOk, OnOk};
ghost use Rattle.std.specs.List.{list_any};
ghost use Rattle.uc_base.specs.Graph.{row, InRange};
ghost use Rattle.uc_canon.specs.Numbering.{added, renumbering};
ghost use Rattle.uc_canon.specs.Starts.{IsTable, AreReached};

use std::alloc::{AllocError, Global};
use uc_components::Graph;
use uc_tree::Target;

/// The members that are reached from a start, in their order. The table beside it is made once for all starts, so that
/// a start that is given up early costs no more than what was reached.
#[derive(Drop)]
pub(crate) struct Reach {
    pub(crate) order: Vec<u32>,
    /// What stands for each member that is reached: the member with the number of its place.
    pub(crate) numbers: Vec<Target>,
    /// The number of the start that reached each member last, from 1; 0 for none.
    starts: Vec<usize>,
    start: usize,
}

impl Reach {
    pub(crate) fn new(alloc: Global, count: usize) -> Result<Reach, AllocError>
        ensures start { IfOk result (λ reach. reach.start ≡ 0) }
        ensures table { IfOk result (λ reach. IsTable count reach.start reach.starts.items reach.numbers.items) }
    {
        Ok(Reach {
            order: Vec::new(alloc),
            numbers: vec![in alloc; Target::Own(0); count]?,
            starts: vec![in alloc; 0; count]?,
            start: 0,
        })
    }

    fn is_reached(&self, member: usize) -> bool
        requires { member < length self.now.starts.items }
        ensures { result ≡ (slice_index_or self.now.starts.items member 0 == self.now.start) }
    {
        self.starts[member] == self.start
    }

    /// Adds a member that isn't reached yet.
    fn add(&mut self, count: usize, member: usize) -> Result<(), AllocError>
        requires small { count < 2 ^ 32 }
        requires member { member < count }
        requires fresh { list_any (λ y. y == member) self.old.order.items ≡ false }
        requires reached { AreReached count self.old.start self.old.starts.items self.old.numbers.items self.old.order.items }
        ensures order { OnOk result (self.new.order.items ≡ self.old.order.items ++ member ∷ []) }
        ensures start { self.new.start ≡ self.old.start }
        ensures reached { OnOk result (AreReached count self.new.start self.new.starts.items self.new.numbers.items self.new.order.items) }
    {
        self.starts[member] = self.start;
        self.numbers[member] = Target::Own(self.order.len() as u32);
        self.order.push(member as u32)?;
        Ok(())
    }

    /// Begins anew, with a start of the next number.
    pub(crate) fn begin(&mut self, count: usize, start: usize) -> Result<(), AllocError>
        requires small { count < 2 ^ 32 }
        requires start { start < count }
        requires number { self.old.start < count }
        requires table { IsTable count self.old.start self.old.starts.items self.old.numbers.items }
        ensures order { OnOk result (self.new.order.items ≡ start ∷ []) }
        ensures start { self.new.start ≡ self.old.start + 1 }
        ensures reached { OnOk result (AreReached count self.new.start self.new.starts.items self.new.numbers.items self.new.order.items) }
    {
        self.start += 1;
        self.order.clear();
        self.add(count, start)
    }

    /// Adds what a member refers to.
    pub(crate) fn add_links(&mut self, graph: &Graph, member: usize) -> Result<(), AllocError>
        requires range { InRange graph.now }
        requires small { length graph.now < 2 ^ 32 }
        requires member { member < length graph.now }
        requires reached { AreReached (length graph.now) self.old.start self.old.starts.items self.old.numbers.items self.old.order.items }
        ensures order { OnOk result (self.new.order.items ≡ added self.old.order.items (row graph.now member)) }
        ensures start { self.new.start ≡ self.old.start }
        ensures reached { OnOk result (AreReached (length graph.now) self.new.start self.new.starts.items self.new.numbers.items self.new.order.items) }
    {
        for at in 0..graph.degree(member) {
            let next = graph.reference(member, at);
            if !self.is_reached(next) {
                self.add(graph.len(), next)?;
            }
        }
        Ok(())
    }
}

/// What stands for each member: the member with the number of its place in an order.
pub(crate) fn renumbering(
    alloc: Global,
    order: &[u32],
    count: usize,
) -> Result<Vec<Target>, AllocError>
    requires below { (k : ℕ) → k < length order.now → slice_index order.now k < count }
    requires small { length order.now < 2 ^ 32 }
    ensures { IfOk result (λ numbers. numbers.items ≡ renumbering order.now count) }
{
    let mut numbers = vec![in alloc; Target::Own(order.len() as u32); count]?;
    for place in (0..order.len()).rev() {
        numbers[order[place] as usize] = Target::Own(place as u32);
    }
    Ok(numbers)
}
