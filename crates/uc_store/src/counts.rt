//! How much is stored.
ghost use Rattle.std.specs.Prelude.{◌≡◌, ◌+◌, ◌-◌, ◌^◌, ◌||◌, min, nat_lt, sum_by};
ghost use Rattle.uc_tree.specs.Counts.{node_count};

use uc_tree::{Ty, type_nodes};

/// The members, the bytes of canonical texts and the nodes of stored types; a count past the last u64 is that.
#[derive(Clone, Copy, Debug)]
pub struct Counts {
    pub members: u64,
    pub bytes: u64,
    pub type_nodes: u64,
}

/// How many members are stored at most.
pub const MEMBERS_LIMIT: u64 = 400_000;

/// How many bytes the canonical texts have at most.
pub const BYTES_LIMIT: u64 = 67_108_864;

/// How many nodes the stored types have at most.
pub const TYPE_NODES_LIMIT: u64 = 20_000_000;

/// The nodes of some types.
pub(crate) fn nodes_of(types: &[Ty]) -> u64
    ensures { result ≡ min (sum_by node_count types.now) (2 ^ 64 - 1) }
{
    let mut nodes = 0u64;
    for t in types {
        nodes = nodes.saturating_add(type_nodes(t));
    }
    nodes
}

impl Counts {
    pub(crate) fn zero() -> Counts
        ensures members { result.members ≡ 0 }
        ensures bytes { result.bytes ≡ 0 }
        ensures type_nodes { result.type_nodes ≡ 0 }
    {
        Counts {
            members: 0,
            bytes: 0,
            type_nodes: 0,
        }
    }

    /// The counts with those of a new component.
    pub(crate) fn with(self, members: usize, bytes: usize, type_nodes: u64) -> Counts
        ensures members { result.members ≡ min (self.members + members) (2 ^ 64 - 1) }
        ensures bytes { result.bytes ≡ min (self.bytes + bytes) (2 ^ 64 - 1) }
        ensures type_nodes { result.type_nodes ≡ min (self.type_nodes + type_nodes) (2 ^ 64 - 1) }
    {
        Counts {
            members: self.members.saturating_add(members as u64),
            bytes: self.bytes.saturating_add(bytes as u64),
            type_nodes: self.type_nodes.saturating_add(type_nodes),
        }
    }

    /// Whether one of the limits is passed.
    pub(crate) fn are_past_limits(&self) -> bool
        ensures { result ≡ (nat_lt 400000 self.now.members || (nat_lt 67108864 self.now.bytes || nat_lt 20000000 self.now.type_nodes)) }
    {
        self.members > MEMBERS_LIMIT
            || self.bytes > BYTES_LIMIT
            || self.type_nodes > TYPE_NODES_LIMIT
    }
}
