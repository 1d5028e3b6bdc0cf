//! Binders in scope, and places put together.
use crate::{LocalNames, PlaceList};
use std::alloc::{AllocError, Global};
use std::test::Fail;
use uc_base::Place;

fn at(column: u32) -> Place {
    Place { line: 1, column }
}

/// The places of the first line from one column to another.
fn places(alloc: Global, from: u32, to: u32) -> Result<PlaceList, AllocError> {
    let mut list = PlaceList::new(alloc);
    for column in from..to {
        list.append(PlaceList::one(alloc, at(column))?)?;
    }
    Ok(list)
}

#[test]
fn finds_the_innermost_binder(rt: HostRuntime) -> Result<(), Fail> {
    let mut names = LocalNames::new(rt.alloc());
    for name in [Some("x"), Some("y"), None, Some("x")] {
        names.push(name.map(|name| name.as_bytes()))?;
    }
    assert_eq!(rt; names.find(b"x"), Some(0));
    assert_eq!(rt; names.find(b"y"), Some(2));
    assert_eq!(rt; names.find(b"_"), None);
    names.pop();
    assert_eq!(rt; names.find(b"x"), Some(2));
    assert_eq!(rt; names.find(b"y"), Some(1));
    for _ in 0..3 {
        names.pop();
    }
    assert_eq!(rt; names.find(b"x"), None);
    Ok(())
}

#[test]
fn joins_places_in_order(rt: HostRuntime) -> Result<(), Fail> {
    let alloc = rt.alloc();
    for (middle, end) in [(1, 9), (2, 9), (5, 9), (8, 9), (9, 9)] {
        let mut list = places(alloc, 1, middle)?;
        list.append(places(alloc, middle, end)?)?;
        list.put_in_front(at(0))?;
        assert_eq!(rt; list.first(), at(0));
        for column in 0..end {
            assert_eq!(rt; list.get(column as usize), Some(at(column)));
        }
        assert_eq!(rt; list.get(end as usize), None);
    }
    Ok(())
}
