//! Spots in a member.
ghost use Rattle.std.specs.Prelude.{◌≡◌, ◌+◌, ◌<◌, ◌^◌};
ghost use Rattle.uc_patterns.specs.Spots.{passed};

use uc_base::Spot;

/// Goes on by so many nodes.
pub fn advance(spot: &mut Spot, nodes: u32)
    requires { spot.old.node + nodes < 2 ^ 32 }
    ensures { spot.new ≡ passed spot.old nodes }
{
    spot.node += nodes;
}
