//! Numberings of small components.
use crate::links::is_one_component;
use crate::numbering::is_least;
use crate::tests::{named, nat, parity};
use crate::{
    Component, close_component, number_members, open_component, reordered, write_component,
};
use std::alloc::{AllocError, Global};
use std::process::Abort;
use std::test::Fail;
use uc_base::{Bytes, Hash, Ref};
use uc_tree::{Decl, Definition, Item, Target, Term, Ty};

/// SHA-512 of `T2;:tb0;0;m1;:tb0;0;m0;`, by coreutils.
const CYCLE: &str =
    "57907793d4f8b9fb1a2afb477d1b27ac8eb3e3f65a8c948a19ee903f995b0e68ed3fdf686725f1b386361c3a2499d69d500dac04461df76c6628c770b2762ec0";

fn unsigned(body: Term) -> Definition {
    Definition {
        signature: None,
        body,
    }
}

/// `: Nat`, and a member.
fn alias(alloc: Global, member: u32) -> Definition {
    Definition {
        signature: Some(named(alloc, 0)),
        body: Term::link(Target::Own(member)),
    }
}

fn pair(alloc: Global, left: u32, right: u32) -> Result<Term, AllocError> {
    let parts = vec![in alloc;
        Term::link(Target::Own(left)),
        Term::link(Target::Own(right)),
    ]?;
    Ok(Term::tuple(parts))
}

/// A structural type with one field of a member's type in its last constructor.
fn kind(alloc: Global, member: u32, empty: usize) -> Result<Decl, AllocError> {
    let mut ctors = Vec::new(alloc);
    for _ in 0..empty {
        ctors.push(Vec::new(alloc))?;
    }
    ctors.push(vec![in alloc; Ty::data(Target::Own(member), Vec::new(alloc))]?)?;
    Ok(Decl {
        tag: None,
        params: 0,
        ctors,
    })
}

/// The numbering as it is printed, and the text of the members in its order.
fn numbered(rt: &impl Abort, alloc: Global, of: &Component) -> Result<(String, Bytes), Fail> {
    let one = is_one_component(alloc, of)?;
    assert!(rt; one);
    let order = number_members(alloc, of)?;
    let text = write_component(alloc, &reordered(alloc, of, &order)?)?;
    Ok((format!(in alloc; "{order:?}")?, text))
}

/// Whether a component's own order gives the least text; none, if it is no component.
fn least(alloc: Global, of: &Component) -> Result<Option<bool>, Fail> {
    if is_one_component(alloc, of)? {
        Ok(Some(is_least(alloc, of)?))
    } else {
        Ok(None)
    }
}

#[test]
fn mutual_recursion_text(rt: HostRuntime) -> Result<(), Fail> {
    let alloc = rt.alloc();
    let wanted =
        "T2;:atb0;0;tb2;0;lfaarb22;v0;n0;yam1;aarb20;v0;n1;:atb0;0;tb2;0;lfaarb22;v0;n0;zam0;aarb20;v0;n1;";

    let even_first = vec![in alloc; parity(alloc, true, 1)?, parity(alloc, false, 0)?]?;
    let even_first = Component::Terms(even_first);
    let (order, text) = numbered(&rt, alloc, &even_first)?;
    assert_eq!(rt; order.as_str(), "[0, 1]");
    assert_eq!(rt; text.as_slice(), wanted.as_bytes());
    assert_eq!(rt; least(alloc, &even_first)?, Some(true));

    let odd_first = vec![in alloc; parity(alloc, false, 1)?, parity(alloc, true, 0)?]?;
    let odd_first = Component::Terms(odd_first);
    let (order, text) = numbered(&rt, alloc, &odd_first)?;
    assert_eq!(rt; order.as_str(), "[1, 0]");
    assert_eq!(rt; text.as_slice(), wanted.as_bytes());
    assert_eq!(rt; least(alloc, &odd_first)?, Some(false));
    Ok(())
}

#[test]
fn symmetric_cycle_numbers(rt: HostRuntime) -> Result<(), Fail> {
    let alloc = rt.alloc();
    let members = vec![in alloc; alias(alloc, 1), alias(alloc, 0)]?;
    let cycle = Component::Terms(members);
    let (order, text) = numbered(&rt, alloc, &cycle)?;
    assert_eq!(rt; order.as_str(), "[0, 1]");
    assert_eq!(rt; text.as_slice(), b"T2;:tb0;0;m1;:tb0;0;m0;".as_slice());

    let hash = Hash::read_text(CYCLE.as_bytes()).ok_or("no hash")?;
    let one = is_one_component(alloc, &cycle)?;
    assert!(rt; one);
    let mut opened = Vec::new(alloc);
    for item in open_component(alloc, &cycle, &hash)? {
        if let Item::Term(definition) = item {
            opened.push(definition)?;
        }
    }
    let text = write_component(alloc, &Component::Terms(opened))?;
    let wanted = format!(in alloc; "T2;:tb0;0;rh{CYCLE}1;:tb0;0;rh{CYCLE}0;")?;
    assert_eq!(rt; text.as_slice(), wanted.as_bytes());
    Ok(())
}

/// `: Nat`, and a member that is stored.
fn stored_alias(alloc: Global, hash: Hash, member: u32) -> Definition {
    Definition {
        signature: Some(named(alloc, 0)),
        body: Term::link(Target::Stored(Ref::Def(hash, member))),
    }
}

#[test]
fn closes_a_cycle(rt: HostRuntime) -> Result<(), Fail> {
    let alloc = rt.alloc();
    let hash = Hash::read_text(CYCLE.as_bytes()).ok_or("no hash")?;
    let items = [
        Item::Term(stored_alias(alloc, hash, 1)),
        Item::Term(stored_alias(alloc, hash, 0)),
    ];
    let own = [Ref::Def(hash, 0), Ref::Def(hash, 1)];
    let closed = close_component(alloc, &items, &own)?;
    let text = write_component(alloc, &closed)?;
    assert_eq!(rt; text.as_slice(), b"T2;:tb0;0;m1;:tb0;0;m0;".as_slice());
    Ok(())
}

#[test]
fn numbers_by_first_reach(rt: HostRuntime) -> Result<(), Fail> {
    let alloc = rt.alloc();
    let members = vec![in alloc;
        unsigned(pair(alloc, 2, 1)?),
        unsigned(Term::link(Target::Own(0))),
        unsigned(Term::link(Target::Own(0))),
    ]?;
    let (order, text) = numbered(&rt, alloc, &Component::Terms(members))?;
    assert_eq!(rt; order.as_str(), "[2, 0, 1]");
    assert_eq!(rt; text.as_slice(), b"T3;-m1;-p2;m0;m2;-m1;".as_slice());

    let kinds = vec![in alloc; kind(alloc, 1, 1)?, kind(alloc, 0, 0)?]?;
    let (order, text) = numbered(&rt, alloc, &Component::Kinds(kinds))?;
    assert_eq!(rt; order.as_str(), "[1, 0]");
    assert_eq!(rt;
        text.as_slice(),
        b"D2;s0;1;1;tm1;0;s0;2;0;1;tm0;0;".as_slice()
    );
    Ok(())
}

#[test]
fn tells_what_is_no_component(rt: HostRuntime) -> Result<(), Fail> {
    let alloc = rt.alloc();
    let none = Component::Terms(Vec::new(alloc));
    assert_eq!(rt; least(alloc, &none)?, None);
    let apart = vec![in alloc; unsigned(nat(5)), unsigned(nat(6))]?;
    assert_eq!(rt; least(alloc, &Component::Terms(apart))?, None);
    let one_way = vec![in alloc; unsigned(Term::link(Target::Own(1))), unsigned(nat(6))]?;
    assert_eq!(rt; least(alloc, &Component::Terms(one_way))?, None);
    let beyond = vec![in alloc; unsigned(Term::link(Target::Own(1)))]?;
    assert_eq!(rt; least(alloc, &Component::Terms(beyond))?, None);
    let single = vec![in alloc; unsigned(nat(5))]?;
    assert_eq!(rt; least(alloc, &Component::Terms(single))?, Some(true));
    let itself = vec![in alloc; unsigned(Term::link(Target::Own(0)))]?;
    assert_eq!(rt; least(alloc, &Component::Terms(itself))?, Some(true));
    Ok(())
}
