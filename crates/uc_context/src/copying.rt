//! Copies of types.
ghost use Rattle.std.specs.Prelude.{◌≡◌, IfOk};

use crate::open::{Open, OpenNode};
use std::alloc::{AllocError, Global};

impl Open {
    #[cycle(copy_open)]
    #[tactic(auto, using(crate::proofs::Sizes::parts))]
    pub fn copy(&self, alloc: Global) -> Result<Open, AllocError>
        ensures { IfOk result (λ t. t ≡ self.now) }
    {
        match &self.node {
            OpenNode::Bound(i) => Ok(Open::bound(*i)),
            OpenNode::Rigid(x) => Ok(Open::rigid(*x)),
            OpenNode::Exists(x) => Ok(Open::existential(*x)),
            OpenNode::Forall(a) => Open::forall(alloc, a.copy(alloc)?),
            OpenNode::Arrow(a, b) => Open::arrow(alloc, a.copy(alloc)?, b.copy(alloc)?),
            OpenNode::Unit => Ok(Open::unit()),
            OpenNode::Tuple(ts) => Ok(Open::tuple(copy_opens(alloc, ts)?)),
            OpenNode::Data(x, ts) => Ok(Open::data(*x, copy_opens(alloc, ts)?)),
        }
    }
}

#[cycle(copy_open)]
#[tactic(auto, using(crate::proofs::Sizes::parts))]
pub fn copy_opens(alloc: Global, types: &[Open]) -> Result<Vec<Open>, AllocError>
    ensures { IfOk result (λ ts. ts.items ≡ types.now) }
{
    let mut copied = Vec::new(alloc);
    for t in types {
        copied.push(t.copy(alloc)?)?;
    }
    Ok(copied)
}
