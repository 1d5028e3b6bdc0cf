//! Whether two types are the same.
ghost use Rattle.std.specs.Prelude.{◌≡◌, ◌↔◌, IsTrue};
ghost use Rattle.uc_context.specs.Opens.{opens_of};

use crate::open::{Open, OpenNode};

#[cycle(same_open)]
#[tactic(auto, using(crate::proofs::Sizes::parts))]
pub fn same_open(t: &Open, u: &Open) -> bool
    ensures { IsTrue result ↔ (t.now ≡ u.now) }
{
    match (&t.node, &u.node) {
        (OpenNode::Bound(m), OpenNode::Bound(n)) => *m == *n,
        (OpenNode::Rigid(m), OpenNode::Rigid(n)) => *m == *n,
        (OpenNode::Exists(m), OpenNode::Exists(n)) => *m == *n,
        (OpenNode::Forall(a), OpenNode::Forall(b)) => same_open(a, b),
        (OpenNode::Arrow(a, b), OpenNode::Arrow(c, d)) => same_open(a, c) && same_open(b, d),
        (OpenNode::Unit, OpenNode::Unit) => true,
        (OpenNode::Tuple(ts), OpenNode::Tuple(us)) => same_opens(ts, us),
        (OpenNode::Data(x, ts), OpenNode::Data(y, us)) => *x == *y && same_opens(ts, us),
        _ => false,
    }
}

#[cycle(same_open)]
#[tactic(auto, using(crate::proofs::Sizes::parts))]
fn same_opens(ts: &[Open], us: &[Open]) -> bool
    ensures { IsTrue result ↔ (opens_of ts.now ≡ opens_of us.now) }
{
    if ts.len() != us.len() {
        return false;
    }
    for i in 0..ts.len() {
        if !same_open(&ts[i], &us[i]) {
            return false;
        }
    }
    true
}

impl PartialEq for Open {
    ghost use Rattle.std.specs.Cmp.{partial_equiv_from_equiv};
    ghost use Rattle.uc_context.specs.OpenCodes.{coded_open};
    ghost use Rattle.uc_tree.specs.Same.{same_code, same_code_equiv};

    ghost eq = { same_code coded_open };

    ghost laws = { partial_equiv_from_equiv (same_code_equiv coded_open) };

    fn eq(&self, other: &Open) -> bool {
        same_open(self, other)
    }
}

impl Eq for Open {
    ghost use Rattle.uc_context.specs.OpenCodes.{coded_open};
    ghost use Rattle.uc_tree.specs.Same.{same_code_equiv};

    ghost laws = { same_code_equiv coded_open };
}
