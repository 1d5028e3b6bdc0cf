//! Types without free variables: as types of the checker, and back.
ghost use Rattle.std.specs.Prelude.{◌≡◌, true, false, IfOk, IfSome, MatchOption};
ghost use Rattle.uc_context.specs.Closing.{open_from, opens_from, is_closed, are_closed};
ghost use Rattle.uc_context.specs.Counts.{open_node_count, levels_of_open};
ghost use Rattle.uc_context.specs.Opens.{opens_of};
ghost use Rattle.uc_tree.specs.Counts.{node_count, ty_levels};
ghost use Rattle.uc_tree.specs.Types.{tys_of};

use crate::open::{Open, OpenNode};
use std::alloc::{AllocError, Global};
use uc_tree::{Ty, TyNode};

impl Open {
    /// A type that is written or stored, as one of the checker.
    #[cycle(from_ty)]
    #[tactic(auto, using(crate::proofs::Closed::from_types))]
    pub fn from_ty(alloc: Global, ty: &Ty) -> Result<Open, AllocError>
        ensures { IfOk result (λ t. t ≡ open_from ty.now) }
    {
        match &ty.node {
            TyNode::Var(i) => Ok(Open::bound(*i)),
            TyNode::Forall(a) => Open::forall(alloc, Open::from_ty(alloc, a)?),
            TyNode::Arrow(a, b) => {
                Open::arrow(alloc, Open::from_ty(alloc, a)?, Open::from_ty(alloc, b)?)
            }
            TyNode::Unit => Ok(Open::unit()),
            TyNode::Tuple(ts) => Ok(Open::tuple(opens_from_tys(alloc, ts)?)),
            TyNode::Data(x, ts) => Ok(Open::data(*x, opens_from_tys(alloc, ts)?)),
        }
    }

    /// Whether no free variable stands in it.
    #[cycle(is_closed)]
    #[tactic(auto, using(crate::proofs::Sizes::parts))]
    pub fn is_closed(&self) -> bool
        ensures { result ≡ is_closed self.now }
    {
        match &self.node {
            OpenNode::Bound(_) | OpenNode::Unit => true,
            OpenNode::Rigid(_) | OpenNode::Exists(_) => false,
            OpenNode::Forall(a) => a.is_closed(),
            OpenNode::Arrow(a, b) => a.is_closed() && b.is_closed(),
            OpenNode::Tuple(ts) | OpenNode::Data(_, ts) => are_closed(ts),
        }
    }

    /// The type again that it is one of the checker of.
    #[cycle(to_ty)]
    #[tactic(auto, using(crate::proofs::Closed::closed_parts))]
    fn to_ty(&self, alloc: Global) -> Result<Ty, AllocError>
        requires { is_closed self.now ≡ true }
        ensures { IfOk result (λ t. open_from t ≡ self.now) }
    {
        match &self.node {
            OpenNode::Bound(i) => Ok(Ty::variable(*i)),
            OpenNode::Rigid(_) | OpenNode::Exists(_) => unreachable!(),
            OpenNode::Forall(a) => Ty::forall(alloc, a.to_ty(alloc)?),
            OpenNode::Arrow(a, b) => Ty::arrow(alloc, a.to_ty(alloc)?, b.to_ty(alloc)?),
            OpenNode::Unit => Ok(Ty::unit()),
            OpenNode::Tuple(ts) => Ok(Ty::tuple(tys_from_opens(alloc, ts)?)),
            OpenNode::Data(x, ts) => Ok(Ty::data(*x, tys_from_opens(alloc, ts)?)),
        }
    }

    /// The type as it is stored, or `None` where a free variable is left.
    #[tactic(auto, using(crate::proofs::Closed::sizes_from))]
    pub fn close(&self, alloc: Global) -> Result<Option<Ty>, AllocError>
        ensures ok { IfOk result (λ o. MatchOption o (is_closed self.now ≡ false) (λ t. open_from t ≡ self.now)) }
        ensures nodes { IfOk result (λ o. IfSome o (λ t. node_count t ≡ open_node_count self.now)) }
        ensures levels { IfOk result (λ o. IfSome o (λ t. ty_levels t ≡ levels_of_open self.now)) }
    {
        if !self.is_closed() {
            return Ok(None);
        }
        Ok(Some(self.to_ty(alloc)?))
    }
}

#[cycle(from_ty)]
#[tactic(auto, using(crate::proofs::Closed::from_types))]
fn opens_from_tys(alloc: Global, tys: &[Ty]) -> Result<Vec<Open>, AllocError>
    ensures { IfOk result (λ ts. opens_of ts.items ≡ opens_from (tys_of tys.now)) }
{
    let mut opens = Vec::new(alloc);
    for ty in tys {
        opens.push(Open::from_ty(alloc, ty)?)?;
    }
    Ok(opens)
}

#[cycle(is_closed)]
#[tactic(auto, using(crate::proofs::Closed::closed_parts))]
fn are_closed(ts: &[Open]) -> bool
    ensures { result ≡ are_closed (opens_of ts.now) }
{
    for t in ts {
        if !t.is_closed() {
            return false;
        }
    }
    true
}

#[cycle(to_ty)]
#[tactic(auto, using(crate::proofs::Closed::closed_parts))]
fn tys_from_opens(alloc: Global, ts: &[Open]) -> Result<Vec<Ty>, AllocError>
    requires { are_closed (opens_of ts.now) ≡ true }
    ensures { IfOk result (λ us. opens_from (tys_of us.items) ≡ opens_of ts.now) }
{
    let mut tys = Vec::new(alloc);
    for t in ts {
        tys.push(t.to_ty(alloc)?)?;
    }
    Ok(tys)
}
