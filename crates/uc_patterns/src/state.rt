//! Where the checker stands.

use crate::sight::Sight;
use uc_base::Spot;
use uc_context::Context;

/// The context, what the pattern or term at hand sees, and the spot of its node.
#[derive(Debug, Drop)]
pub struct State {
    pub context: Context,
    pub sight: Sight,
    pub spot: Spot,
}
