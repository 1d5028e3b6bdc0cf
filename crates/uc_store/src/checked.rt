//! Components that are to be stored.
use std::marker::Model;
use uc_canon::Component;
use uc_tree::{Hints, Ty};

/// A component that was checked: its members in the order of their numbering, the types of its definitions, and the
/// hints of each member.
#[derive(Debug, Drop)]
pub struct Checked {
    pub component: Component,
    pub types: Vec<Ty>,
    pub hints: Hints,
}

impl Model for Checked {
    ghost use Rattle.uc_store.specs.Checked.{Checked as Plain, coded_checked};

    ghost Value = { Plain };

    ghost coded = { coded_checked };

    ghost use Rattle.uc_canon.specs.Members.{members_of};

    ghost view = { λ c. record { members = members_of c.component; types = c.types.items; hints = c.hints } };
}
