//! Variables in types.
ghost use Rattle.std.specs.Prelude.{◌≡◌, ◌+◌, ◌<◌, ◌^◌, IfOk, IsTrue, take};
ghost use Rattle.uc_context.specs.Contexts.{AreDeclaredBefore};
ghost use Rattle.uc_context.specs.Counts.{levels_of_open, levels_of_opens};
ghost use Rattle.uc_context.specs.Opens.{opens_of};
ghost use Rattle.uc_context.specs.Solvable as spec;
ghost use Rattle.uc_context.specs.Variables.{is_monotype, are_monotypes, mentions, some_mentions, opened_at, opened_all_at, has_variables, has_variables_of};

use crate::context::Context;
use crate::open::{Open, OpenNode};
use std::alloc::{AllocError, Global};

impl Open {
    /// Whether no quantifier stands in it.
    #[cycle(is_monotype)]
    #[tactic(auto, using(crate::proofs::Sizes::parts))]
    pub fn is_monotype(&self) -> bool
        ensures { result ≡ is_monotype self.now }
    {
        match &self.node {
            OpenNode::Bound(_) | OpenNode::Rigid(_) | OpenNode::Exists(_) | OpenNode::Unit => true,
            OpenNode::Forall(_) => false,
            OpenNode::Arrow(a, b) => a.is_monotype() && b.is_monotype(),
            OpenNode::Tuple(ts) | OpenNode::Data(_, ts) => are_monotypes(ts),
        }
    }

    /// Whether an existential stands in it.
    #[cycle(mentions)]
    #[tactic(auto, using(crate::proofs::Sizes::parts))]
    pub fn mentions(&self, x: u64) -> bool
        ensures { result ≡ mentions x self.now }
    {
        match &self.node {
            OpenNode::Bound(_) | OpenNode::Rigid(_) | OpenNode::Unit => false,
            OpenNode::Exists(y) => *y == x,
            OpenNode::Forall(t) => t.mentions(x),
            OpenNode::Arrow(a, b) => a.mentions(x) || b.mentions(x),
            OpenNode::Tuple(ts) | OpenNode::Data(_, ts) => some_mentions(ts, x),
        }
    }

    /// The body of a quantifier with a type in place of the quantifier's variable.
    pub fn opened(&self, alloc: Global, by: &Open) -> Result<Open, AllocError>
        requires { levels_of_open self.now < 2 ^ 32 }
        ensures { IfOk result (λ t. t ≡ opened_at 0 by.now self.now) }
    {
        open_at(alloc, 0, by, self)
    }
}

#[cycle(is_monotype)]
#[tactic(auto, using(crate::proofs::Sizes::parts))]
fn are_monotypes(ts: &[Open]) -> bool
    ensures { result ≡ are_monotypes (opens_of ts.now) }
{
    for t in ts {
        if !t.is_monotype() {
            return false;
        }
    }
    true
}

#[cycle(mentions)]
#[tactic(auto, using(crate::proofs::Sizes::parts))]
fn some_mentions(ts: &[Open], x: u64) -> bool
    ensures { result ≡ some_mentions x (opens_of ts.now) }
{
    for t in ts {
        if t.mentions(x) {
            return true;
        }
    }
    false
}

#[cycle(open_at)]
#[tactic(auto, using(crate::proofs::Sizes::parts))]
fn open_at(alloc: Global, k: u32, by: &Open, t: &Open) -> Result<Open, AllocError>
    requires { k + levels_of_open t.now < 2 ^ 32 }
    ensures { IfOk result (λ u. u ≡ opened_at k by.now t.now) }
{
    match &t.node {
        OpenNode::Bound(i) if *i == k => by.copy(alloc),
        OpenNode::Bound(i) => Ok(Open::bound(*i)),
        OpenNode::Rigid(x) => Ok(Open::rigid(*x)),
        OpenNode::Exists(x) => Ok(Open::existential(*x)),
        OpenNode::Forall(a) => {
            let a = open_at(alloc, k + 1, by, a)?;
            Open::forall(alloc, a)
        }
        OpenNode::Arrow(a, b) => {
            let a = open_at(alloc, k, by, a)?;
            let b = open_at(alloc, k, by, b)?;
            Open::arrow(alloc, a, b)
        }
        OpenNode::Unit => Ok(Open::unit()),
        OpenNode::Tuple(ts) => {
            let ts = open_all_at(alloc, k, by, ts)?;
            Ok(Open::tuple(ts))
        }
        OpenNode::Data(x, ts) => {
            let ts = open_all_at(alloc, k, by, ts)?;
            Ok(Open::data(*x, ts))
        }
    }
}

#[cycle(open_at)]
#[tactic(auto, using(crate::proofs::Sizes::parts))]
fn open_all_at(alloc: Global, k: u32, by: &Open, ts: &[Open]) -> Result<Vec<Open>, AllocError>
    requires { k + levels_of_opens (opens_of ts.now) < 2 ^ 32 }
    ensures { IfOk result (λ us. opens_of us.items ≡ opened_all_at k by.now (opens_of ts.now)) }
{
    let mut opened = Vec::new(alloc);
    for t in ts {
        opened.push(open_at(alloc, k, by, t)?)?;
    }
    Ok(opened)
}

impl Context {
    /// Whether each rigid variable and each existential of a type is among so many entries.
    #[cycle(has_variables)]
    #[tactic(auto, using(crate::proofs::Sizes::parts))]
    fn has_variables(&self, limit: usize, t: &Open) -> bool
        ensures { result ≡ has_variables (take limit self.now) t.now }
    {
        match &t.node {
            OpenNode::Bound(_) | OpenNode::Unit => true,
            OpenNode::Rigid(x) => self.has_rigid(limit, *x),
            OpenNode::Exists(x) => self.has_existential(limit, *x),
            OpenNode::Forall(a) => self.has_variables(limit, a),
            OpenNode::Arrow(a, b) => self.has_variables(limit, a) && self.has_variables(limit, b),
            OpenNode::Tuple(ts) | OpenNode::Data(_, ts) => self.has_variables_of(limit, ts),
        }
    }

    #[cycle(has_variables)]
    #[tactic(auto, using(crate::proofs::Sizes::parts))]
    fn has_variables_of(&self, limit: usize, ts: &[Open]) -> bool
        ensures { result ≡ has_variables_of (take limit self.now) (opens_of ts.now) }
    {
        for t in ts {
            if !self.has_variables(limit, t) {
                return false;
            }
        }
        true
    }

    /// Whether a type is a monotype whose variables all stand before an existential.
    #[tactic(auto, using(crate::proofs::Declared::variables_declared))]
    pub fn can_solve(&self, which: u64, with: &Open) -> bool
        ensures value { result ≡ spec.can_solve self.now which with.now }
        ensures declared { IsTrue result → AreDeclaredBefore self.now with.now which }
    {
        with.is_monotype() && self.has_variables(self.count_before(which), with)
    }
}
