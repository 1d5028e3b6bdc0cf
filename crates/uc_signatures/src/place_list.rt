//! Places in order.
ghost use Rattle.std.specs.Prelude.{◌≡◌, [], ◌∷◌, ◌++◌, length, slice_get, OnOk, IfOk, MatchOption};
ghost use Rattle.uc_meaning.specs.Placed.{first_place};

use std::alloc::{AllocError, Global};
use std::collections::VecDeque;
use std::marker::Model;
use std::mem;
use uc_base::Place;

/// The places of nodes, in order. Contracts see the list.
#[derive(Drop)]
pub struct PlaceList {
    places: VecDeque<Place>,
}

impl Model for PlaceList {
    ghost use Rattle.std.specs.Prelude.{List};
    ghost use Rattle.uc_base.specs.declared.place.Place.{Place as PlainPlace};

    ghost Value = { List PlainPlace };

    ghost view = { λ l. l.places.items };
}

impl PlaceList {
    pub fn new(alloc: Global) -> PlaceList
        ensures { result ≡ [] }
    {
        PlaceList {
            places: VecDeque::new(alloc),
        }
    }

    /// One place.
    pub fn one(alloc: Global, place: Place) -> Result<PlaceList, AllocError>
        ensures { IfOk result (λ l. l ≡ place ∷ []) }
    {
        let mut places = PlaceList::new(alloc);
        places.push(place)?;
        Ok(places)
    }

    /// The first; the place of a text's first character where there is none.
    pub fn first(&self) -> Place
        ensures { result ≡ first_place self.now }
    {
        match self.places.front() {
            None => Place { line: 1, column: 1 },
            Some(place) => *place,
        }
    }

    pub fn len(&self) -> usize
        ensures { result ≡ length self.now }
    {
        self.places.len()
    }

    /// The place with a number, where there is one.
    pub fn get(&self, number: usize) -> Option<Place>
        ensures { result ≡ slice_get self.now number }
    {
        self.places.get(number).copied()
    }

    /// Puts a place before the others.
    pub fn put_in_front(&mut self, place: Place) -> Result<(), AllocError>
        ensures { OnOk result (self.new ≡ place ∷ self.old) }
    {
        self.places.push_front(place)?;
        Ok(())
    }

    /// Puts a place behind the others.
    fn push(&mut self, place: Place) -> Result<(), AllocError>
        ensures { OnOk result (self.new ≡ self.old ++ place ∷ []) }
    {
        self.places.push_back(place)?;
        Ok(())
    }

    /// Takes the first place.
    fn pop_first(&mut self) -> Option<Place>
        ensures { MatchOption result ((self.old ≡ []) × (self.new ≡ [])) (λ place. self.old ≡ place ∷ self.new) }
    {
        self.places.pop_front()
    }

    /// Takes the last place.
    fn pop_last(&mut self) -> Option<Place>
        ensures { MatchOption result ((self.old ≡ []) × (self.new ≡ [])) (λ place. self.old ≡ self.new ++ place ∷ []) }
    {
        self.places.pop_back()
    }

    /// Puts places before these, one after the other.
    fn put_all_in_front(&mut self, mut front: PlaceList) -> Result<(), AllocError>
        ensures { OnOk result (self.new ≡ front ++ self.old) }
    {
        while let Some(place) = front.pop_last() {
            self.put_in_front(place)?;
        }
        Ok(())
    }

    /// Puts places behind these, one after the other.
    fn push_all(&mut self, mut back: PlaceList) -> Result<(), AllocError>
        ensures { OnOk result (self.new ≡ self.old ++ back) }
    {
        while let Some(place) = back.pop_first() {
            self.push(place)?;
        }
        Ok(())
    }

    /// Puts places behind these. The shorter list is moved.
    pub fn append(&mut self, other: PlaceList) -> Result<(), AllocError>
        ensures { OnOk result (self.new ≡ self.old ++ other) }
    {
        if other.len() <= self.len() {
            self.push_all(other)
        } else {
            let front = mem::replace(self, other);
            self.put_all_in_front(front)
        }
    }
}
