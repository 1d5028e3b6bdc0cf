//! Types with existentials quantified at the front.
ghost use Rattle.std.specs.Prelude.{◌≡◌, ◌+◌, ◌<◌, ◌^◌, ◌⊎◌, length, IfOk, IfErr};
ghost use Rattle.uc_base.specs.declared.fault.Fault.TheVariants.{Memory, TypeTooLarge};
ghost use Rattle.uc_base.specs.declared.place.At.TheVariants.{Nowhere};
ghost use Rattle.uc_context.specs.Counts.{levels_of_open, levels_of_opens, IsSmall};
ghost use Rattle.uc_context.specs.Generalising.{bound_by, all_bound_at, each_bound_at, behind_quantifiers, generalised};
ghost use Rattle.uc_context.specs.Opens.{opens_of};

use crate::counting::{TYPE_LEVEL_LIMIT, TYPE_NODE_LIMIT, open_levels, open_nodes};
use crate::open::{Open, OpenNode};
use std::alloc::{AllocError, Global};
use uc_base::{At, Fault};

/// What stands for an existential under so many quantifiers.
fn bind(numbers: &[u64], k: u32, x: u64) -> Open
    requires { length numbers.now + k < 2 ^ 32 }
    ensures { result ≡ bound_by numbers.now k x }
{
    for (place, number) in numbers.iter().enumerate() {
        if *number == x {
            return Open::bound((numbers.len() - 1 - place) as u32 + k);
        }
    }
    Open::existential(x)
}

#[cycle(bind_all)]
#[tactic(auto, using(crate::proofs::Sizes::parts))]
fn bind_all(alloc: Global, numbers: &[u64], k: u32, t: &Open) -> Result<Open, AllocError>
    requires { length numbers.now + k + levels_of_open t.now < 2 ^ 32 }
    ensures { IfOk result (λ u. u ≡ all_bound_at numbers.now k t.now) }
{
    match &t.node {
        OpenNode::Bound(i) => Ok(Open::bound(*i)),
        OpenNode::Rigid(x) => Ok(Open::rigid(*x)),
        OpenNode::Exists(x) => Ok(bind(numbers, k, *x)),
        OpenNode::Forall(a) => {
            let a = bind_all(alloc, numbers, k + 1, a)?;
            Open::forall(alloc, a)
        }
        OpenNode::Arrow(a, b) => {
            let a = bind_all(alloc, numbers, k, a)?;
            let b = bind_all(alloc, numbers, k, b)?;
            Open::arrow(alloc, a, b)
        }
        OpenNode::Unit => Ok(Open::unit()),
        OpenNode::Tuple(ts) => {
            let ts = bind_each(alloc, numbers, k, ts)?;
            Ok(Open::tuple(ts))
        }
        OpenNode::Data(x, ts) => {
            let ts = bind_each(alloc, numbers, k, ts)?;
            Ok(Open::data(*x, ts))
        }
    }
}

#[cycle(bind_all)]
#[tactic(auto, using(crate::proofs::Sizes::parts))]
fn bind_each(alloc: Global, numbers: &[u64], k: u32, ts: &[Open]) -> Result<Vec<Open>, AllocError>
    requires { length numbers.now + k + levels_of_opens (opens_of ts.now) < 2 ^ 32 }
    ensures { IfOk result (λ us. opens_of us.items ≡ each_bound_at numbers.now k (opens_of ts.now)) }
{
    let mut bound = Vec::new(alloc);
    for t in ts {
        bound.push(bind_all(alloc, numbers, k, t)?)?;
    }
    Ok(bound)
}

/// Puts a quantifier in front for each number.
fn quantify(alloc: Global, numbers: &[u64], t: Open) -> Result<Open, AllocError>
    ensures { IfOk result (λ u. u ≡ behind_quantifiers numbers.now t) }
{
    match numbers {
        [] => Ok(t),
        [_, rest @ ..] => Open::forall(alloc, quantify(alloc, rest, t)?),
    }
}

impl Open {
    /// The type with the given existentials quantified at its front, the first of them outermost.
    #[tactic(auto, using(crate::proofs::Generalised::sizes))]
    pub fn generalised(&self, alloc: Global, numbers: &[u64]) -> Result<Open, Fault>
        ensures ok { IfOk result (λ t. (t ≡ generalised numbers.now self.now) × IsSmall t) }
        ensures err { IfErr result (λ fault. (fault ≡ Memory) ⊎ ((fault ≡ TypeTooLarge Nowhere) × ¬ IsSmall (generalised numbers.now self.now))) }
    {
        let more = numbers.len() as u64;
        let nodes = open_nodes(self).saturating_add(more);
        let levels = (open_levels(self) as u64).saturating_add(more);
        if nodes > TYPE_NODE_LIMIT || levels > TYPE_LEVEL_LIMIT as u64 {
            return Err(Fault::TypeTooLarge(At::Nowhere));
        }
        let bound = bind_all(alloc, numbers, 0, self)?;
        Ok(quantify(alloc, numbers, bound)?)
    }
}
