//! The places of the nodes of a program.
ghost use Rattle.std.specs.Prelude.{◌≡◌, ◌∷◌, ◌↔◌, IsTrue, Some, OnOk};
ghost use Rattle.uc_resolve.specs.Members.{HasPlace, member_places, place_at};
ghost use Rattle.uc_resolve.specs.PlaceLists.{no_places, with_places};

use std::alloc::{AllocError, Global};
use std::marker::Model;
use uc_base::{Place, Spot};
use uc_signatures::PlaceList;

/// The lists of a program whose members have places.
#[derive(Clone, Copy, Debug, PartialEq, Eq)]
pub enum Listed {
    Kinds,
    Terms,
    Watches,
}

/// The places of the nodes of each member, the place of its name first; of a watch, that of its `>`. Contracts see the
/// `PlacesOf` of `specs/Programs.antt` of `uc_meaning`.
#[derive(Drop)]
pub struct Places {
    kinds: Vec<PlaceList>,
    terms: Vec<PlaceList>,
    watches: Vec<PlaceList>,
}

impl Model for Places {
    ghost use Rattle.uc_meaning.specs.Programs.{PlacesOf};

    ghost Value = { PlacesOf };

    ghost view = { λ p. record { kinds = p.kinds.items; terms = p.terms.items; watches = p.watches.items } };
}

impl Places {
    pub fn new(alloc: Global) -> Places
        ensures { result ≡ no_places }
    {
        Places {
            kinds: Vec::new(alloc),
            terms: Vec::new(alloc),
            watches: Vec::new(alloc),
        }
    }

    /// Adds a member to a list: the place of its name, and those of its nodes.
    pub fn add(&mut self, list: Listed, name: Place, mut nodes: PlaceList) -> Result<(), AllocError>
        ensures { OnOk result (self.new ≡ with_places self.old list (name ∷ nodes)) }
    {
        nodes.put_in_front(name)?;
        match list {
            Listed::Kinds => self.kinds.push(nodes)?,
            Listed::Terms => self.terms.push(nodes)?,
            Listed::Watches => self.watches.push(nodes)?,
        }
        Ok(())
    }

    fn members(&self, list: Listed) -> &[PlaceList]
        ensures { result.now ≡ member_places self.now list }
    {
        match list {
            Listed::Kinds => &self.kinds,
            Listed::Terms => &self.terms,
            Listed::Watches => &self.watches,
        }
    }

    /// Whether a list has a member with such a node.
    pub fn has(&self, list: Listed, spot: &Spot) -> bool
        ensures { IsTrue result ↔ HasPlace self.now list spot.now }
    {
        let members = self.members(list);
        let member = spot.member as usize;
        member < members.len() && (spot.node as usize) < members[member].len()
    }

    /// The place of a node of a member of a list.
    pub fn of(&self, list: Listed, spot: &Spot) -> Place
        requires { HasPlace self.now list spot.now }
        ensures { Some result ≡ place_at self.now list spot.now }
    {
        let nodes = &self.members(list)[spot.member as usize];
        match nodes.get(spot.node as usize) {
            Some(place) => place,
            None => nodes.first(),
        }
    }
}
