//! Places in texts, and nodes in trees.
ghost use Rattle.std.specs.Prelude.{◌≡◌, ◌++◌, OnOk};
ghost use Rattle.uc_base.specs.Place.{place_text};

use crate::decimal::write_decimal;
use std::alloc::AllocError;

/// A line and a column, both from 1. A column is one character.
#[derive(Clone, Copy, Debug, PartialEq, Eq, PartialOrd, Ord)]
pub struct Place {
    pub line: u32,
    pub column: u32,
}

impl Place {
    /// Writes the line, a colon and the column.
    pub fn write_text(&self, out: &mut Vec<u8>) -> Result<(), AllocError>
        ensures { OnOk result (out.new.items ≡ out.old.items ++ place_text self.now) }
    {
        write_decimal(u64::from(self.line), out)?;
        out.push(b':')?;
        write_decimal(u64::from(self.column), out)
    }
}

/// A node of a member: node 0 is the member's name, and the others are its tree nodes in the order of canonical text.
#[derive(Clone, Copy, Debug, PartialEq, Eq, PartialOrd, Ord)]
pub struct Spot {
    pub member: u32,
    pub node: u32,
}

/// Where a fault stands: nowhere in a text, at a node, or at a place. Only a place is printed.
#[derive(Clone, Copy, Debug, PartialEq, Eq)]
pub enum At {
    Nowhere,
    Spot(Spot),
    Place(Place),
}

/// Whether a name or a reference is of a term or of a type.
#[derive(Clone, Copy, Debug, PartialEq, Eq, PartialOrd, Ord)]
pub enum Sort {
    Term,
    Kind,
}
