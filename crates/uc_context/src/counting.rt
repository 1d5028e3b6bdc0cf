//! How large types are.
ghost use Rattle.std.specs.Prelude.{◌≡◌, ◌-◌, ◌^◌, ◌↔◌, min, IsTrue};
ghost use Rattle.uc_context.specs.Opens.{opens_of};
ghost use Rattle.uc_context.specs.Counts.{open_node_count, opens_node_count, levels_of_open, levels_of_opens, IsSmall};

use crate::open::{Open, OpenNode};

/// How many nodes a type in the checker may have.
pub const TYPE_NODE_LIMIT: u64 = 20_000;

/// How many levels a type in the checker may have.
pub const TYPE_LEVEL_LIMIT: u32 = 512;

/// How many nodes a type has; a count past the last u64 is that.
#[cycle(open_nodes)]
#[tactic(auto, using(crate::proofs::Sizes::parts))]
pub fn open_nodes(of: &Open) -> u64
    ensures { result ≡ min (open_node_count of.now) (2 ^ 64 - 1) }
{
    match &of.node {
        OpenNode::Bound(_) | OpenNode::Rigid(_) | OpenNode::Exists(_) | OpenNode::Unit => 1,
        OpenNode::Forall(t) => open_nodes(t).saturating_add(1),
        OpenNode::Arrow(a, b) => open_nodes(a)
            .saturating_add(open_nodes(b))
            .saturating_add(1),
        OpenNode::Tuple(ts) | OpenNode::Data(_, ts) => nodes_of_opens(ts).saturating_add(1),
    }
}

#[cycle(open_nodes)]
#[tactic(auto, using(crate::proofs::Sizes::parts))]
fn nodes_of_opens(ts: &[Open]) -> u64
    ensures { result ≡ min (opens_node_count (opens_of ts.now)) (2 ^ 64 - 1) }
{
    let mut nodes = 0u64;
    for t in ts {
        nodes = nodes.saturating_add(open_nodes(t));
    }
    nodes
}

/// How many levels a type has; a count past the last u32 is that.
#[cycle(open_levels)]
#[tactic(auto, using(crate::proofs::Sizes::parts))]
pub fn open_levels(of: &Open) -> u32
    ensures { result ≡ min (levels_of_open of.now) (2 ^ 32 - 1) }
{
    match &of.node {
        OpenNode::Bound(_) | OpenNode::Rigid(_) | OpenNode::Exists(_) | OpenNode::Unit => 1,
        OpenNode::Forall(a) => open_levels(a).saturating_add(1),
        OpenNode::Arrow(a, b) => open_levels(a).max(open_levels(b)).saturating_add(1),
        OpenNode::Tuple(ts) | OpenNode::Data(_, ts) => opens_levels(ts).saturating_add(1),
    }
}

#[cycle(open_levels)]
#[tactic(auto, using(crate::proofs::Sizes::parts))]
fn opens_levels(ts: &[Open]) -> u32
    ensures { result ≡ min (levels_of_opens (opens_of ts.now)) (2 ^ 32 - 1) }
{
    let mut levels = 0u32;
    for t in ts {
        levels = levels.max(open_levels(t));
    }
    levels
}

/// Whether a type is within the limits of a type in the checker.
pub fn is_small(of: &Open) -> bool
    ensures { IsTrue result ↔ IsSmall of.now }
{
    open_nodes(of) <= TYPE_NODE_LIMIT && open_levels(of) <= TYPE_LEVEL_LIMIT
}
