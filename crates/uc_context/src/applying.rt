//! Types with solutions put in.
ghost use Rattle.std.specs.Prelude.{◌≡◌, ℕ, ◌⊎◌, true, None, IfOk, IfErr};
ghost use Rattle.std.specs.Option.{option_copied};
ghost use Rattle.uc_base.specs.declared.fault.Fault.TheVariants.{Memory, TypeTooLarge};
ghost use Rattle.uc_base.specs.declared.place.At.TheVariants.{Nowhere};
ghost use Rattle.uc_context.specs.Contexts.{type_under, types_under, solution_of};
ghost use Rattle.uc_context.specs.Counts.{IsSmall};
ghost use Rattle.uc_context.specs.Opens.{opens_of};
ghost use Rattle.uc_context.specs.Variables.{mentions};
ghost use Rattle.uc_context.specs.Applying.{front_solution, IsSettled, IsWithin, IsPast, AreWithin, ArePast};

use crate::context::Context;
use crate::counting::{TYPE_LEVEL_LIMIT, TYPE_NODE_LIMIT};
use crate::open::{Open, OpenNode};
use std::alloc::Global;
use uc_base::{At, Fault};

impl Context {
    /// What a type stands for that is a solved existential.
    fn front_solution(&self, of: &Open) -> Option<&Open>
        ensures { option_copied result ≡ front_solution self.now of.now }
    {
        match &of.node {
            OpenNode::Exists(x) => self.solution(*x),
            _ => None,
        }
    }

    /// A type, or what it stands for in the end where it is a solved existential.
    fn followed<'a>(&'a self, of: &'a Open) -> &'a Open
        ensures same { type_under self.now result.now ≡ type_under self.now of.now }
        ensures settled { IsSettled self.now result.now }
    {
        self.tell_in_order();
        let mut front = of;
        while let Some(next) = self.front_solution(front) {
            front = next;
        }
        front
    }

    /// A type with the solutions put in, within so many levels and in a room for so many nodes.
    #[cycle(build)]
    fn build(&self, alloc: Global, of: &Open, levels: u32, room: &mut u64) -> Result<Open, Fault>
        ensures ok { IfOk result (λ t. (t ≡ type_under self.now of.now) × IsWithin levels room.old room.new t) }
        ensures err { IfErr result (IsPast levels room.old (type_under self.now of.now)) }
    {
        if levels == 0 || *room == 0 {
            return Err(Fault::TypeTooLarge(At::Nowhere));
        }
        *room -= 1;
        match &self.followed(of).node {
            OpenNode::Bound(i) => Ok(Open::bound(*i)),
            OpenNode::Rigid(x) => Ok(Open::rigid(*x)),
            OpenNode::Exists(x) => Ok(Open::existential(*x)),
            OpenNode::Forall(t) => {
                let t = self.build(alloc, t, levels - 1, room)?;
                Ok(Open::forall(alloc, t)?)
            }
            OpenNode::Arrow(a, b) => {
                let a = self.build(alloc, a, levels - 1, room)?;
                let b = self.build(alloc, b, levels - 1, room)?;
                Ok(Open::arrow(alloc, a, b)?)
            }
            OpenNode::Unit => Ok(Open::unit()),
            OpenNode::Tuple(ts) => {
                let ts = self.build_all(alloc, ts, levels - 1, room)?;
                Ok(Open::tuple(ts))
            }
            OpenNode::Data(x, ts) => {
                let ts = self.build_all(alloc, ts, levels - 1, room)?;
                Ok(Open::data(*x, ts))
            }
        }
    }

    #[cycle(build)]
    fn build_all(
        &self,
        alloc: Global,
        ts: &[Open],
        levels: u32,
        room: &mut u64,
    ) -> Result<Vec<Open>, Fault>
        ensures ok { IfOk result (λ us. (opens_of us.items ≡ types_under self.now (opens_of ts.now)) × AreWithin levels room.old room.new (opens_of us.items)) }
        ensures err { IfErr result (ArePast levels room.old (types_under self.now (opens_of ts.now))) }
    {
        let mut built = Vec::new(alloc);
        for t in ts {
            built.push(self.build(alloc, t, levels, room)?)?;
        }
        Ok(built)
    }

    /// A type with the solutions put in until none is left.
    #[tactic(auto, using(crate::proofs::Unsolved::unsolved))]
    pub fn apply(&self, alloc: Global, of: &Open) -> Result<Open, Fault>
        ensures ok { IfOk result (λ t. (t ≡ type_under self.now of.now) × IsSmall t) }
        ensures unsolved { IfOk result (λ t. (x : ℕ) → mentions x t ≡ true → solution_of self.now x ≡ None) }
        ensures err { IfErr result (λ fault. (fault ≡ Memory) ⊎ ((fault ≡ TypeTooLarge Nowhere) × ¬ IsSmall (type_under self.now of.now))) }
    {
        self.tell_in_order();
        let mut room = TYPE_NODE_LIMIT;
        self.build(alloc, of, TYPE_LEVEL_LIMIT, &mut room)
    }
}
