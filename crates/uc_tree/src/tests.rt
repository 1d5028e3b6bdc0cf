use crate::constructors::constructor_type;
use crate::counting::{depth, type_nodes};
use crate::declaration::Decl;
use crate::definition::Definition;
use crate::hints::Hints;
use crate::item::Item;
use crate::literal::Literal;
use crate::pattern::Pattern;
use crate::ref_map::{Image, RefMap};
use crate::references::refs_of;
use crate::replacing::{rewrite, with_members, with_own};
use crate::target::Target;
use crate::targets::targets_of;
use crate::term::{Case, Term};
use crate::ty::Ty;
use std::alloc::{AllocError, Global};
use std::test::*;
use uc_base::{Bytes, Hash, Ref};

const NAT: Ref = Ref::Builtin(0);

const TEXT: Ref = Ref::Builtin(3);

const PLUS: Ref = Ref::Builtin(16);

fn stored(byte: u8, member: u32) -> Ref {
    Ref::Def(Hash([byte; 64]), member)
}

fn constructor(byte: u8) -> Ref {
    Ref::Ctor(Hash([byte; 64]), 0, 1)
}

fn definition(body: Term) -> Item {
    Item::Term(Definition {
        signature: None,
        body,
    })
}

/// A body of so many levels with the link in its leaf.
fn nested(alloc: Global, levels: u32, link: Ref) -> Result<Term, AllocError> {
    let mut term = Term::link(Target::Stored(link));
    for _ in 1..levels {
        term = Term::lambda(alloc, term)?;
    }
    Ok(term)
}

/// `match 1 with C 1 | true -> f`, with a type round it.
fn matching(alloc: Global, head: Target, link: Target, of: Target) -> Result<Item, Fail> {
    let mut fields = Vec::new(alloc);
    fields.push(Pattern::literal(Literal::Nat(1)))?;
    let mut cases = Vec::new(alloc);
    cases.push(Case {
        pattern: Pattern::constructor(head, fields),
        guard: Some(Term::literal(Literal::Boolean(true))),
        body: Term::link(link),
    })?;
    let body = Term::matching(alloc, Term::literal(Literal::Nat(1)), cases)?;
    let ty = Ty::data(of, Vec::new(alloc));
    Ok(definition(Term::annotated(alloc, body, ty)?))
}

/// The same with stored references, and the type `Nat`.
fn matched(alloc: Global, head: Ref, link: Ref) -> Result<Item, Fail> {
    let nat = Target::Stored(NAT);
    matching(alloc, Target::Stored(head), Target::Stored(link), nat)
}

#[test]
fn keeps_the_deepest_tree(rt: HostRuntime) -> Result<(), Fail> {
    let alloc = rt.alloc();
    let item = definition(nested(alloc, 512, PLUS)?);
    assert_eq!(rt; depth(&item), 512);
    assert!(rt; item == item.copy(alloc)?);
    let mut map = RefMap::new(alloc);
    map.set(PLUS, Image::New(NAT))?;
    let found = rewrite(alloc, &item, &map)?;
    let expected = definition(nested(alloc, 512, NAT)?);
    assert!(rt; found == Some(expected));
    Ok(())
}

#[test]
fn rewrites_by_images(rt: HostRuntime) -> Result<(), Fail> {
    let alloc = rt.alloc();
    let item = matched(alloc, constructor(7), stored(8, 0))?;
    let images = [
        (constructor(7), Image::New(PLUS), None),
        (constructor(7), Image::Gone, None),
        (NAT, Image::Gone, None),
        (
            stored(9, 0),
            Image::Gone,
            Some(matched(alloc, constructor(7), stored(8, 0))?),
        ),
        (
            stored(8, 0),
            Image::New(PLUS),
            Some(matched(alloc, constructor(7), PLUS)?),
        ),
    ];
    for (of, image, expected) in images {
        let mut map = RefMap::new(alloc);
        map.set(of, image)?;
        assert!(rt; rewrite(alloc, &item, &map)? == expected);
    }
    Ok(())
}

#[test]
fn opens_and_closes_a_component(rt: HostRuntime) -> Result<(), Fail> {
    let alloc = rt.alloc();
    let link = stored(7, 0);
    let kind = stored(7, 1);
    let [open_link, open_kind] = [Target::Stored(link), Target::Stored(kind)];
    let head = Target::Stored(Ref::Ctor(Hash([7; 64]), 1, 2));
    let opened = matching(alloc, head, open_link, open_kind)?;
    let closed = matching(alloc, Target::OwnCtor(1, 2), Target::Own(0), Target::Own(1))?;
    let members = [open_link, open_kind];
    assert!(rt; with_members(alloc, &closed, &members)? == Some(opened.copy(alloc)?));
    assert!(rt; with_own(alloc, &opened, &[link, kind])? == closed);
    // The first place counts, and other references stay.
    let twice = [stored(8, 0), kind, kind];
    let kind_closed = matching(alloc, Target::OwnCtor(1, 2), open_link, Target::Own(1))?;
    assert!(rt; with_own(alloc, &opened, &twice)? == kind_closed);
    Ok(())
}

#[test]
fn lists_references_in_order(rt: HostRuntime) -> Result<(), Fail> {
    let alloc = rt.alloc();
    let item = matched(alloc, constructor(7), stored(8, 0))?;
    let found = refs_of(alloc, &item)?;
    assert_eq!(rt;
        found.as_slice(),
        [stored(8, 0), constructor(7), NAT].as_slice()
    );
    assert_eq!(rt; targets_of(alloc, &item)?.len(), 3);
    Ok(())
}

#[test]
fn types_constructors_of_declarations(rt: HostRuntime) -> Result<(), Fail> {
    let alloc = rt.alloc();
    let mut fields = Vec::new(alloc);
    fields.push(Ty::variable(1))?;
    fields.push(Ty::unit())?;
    let ty = constructor_type(alloc, Target::Own(0), 2, &fields)?;
    assert_eq!(rt; type_nodes(&ty), 9);
    let mut ctors = Vec::new(alloc);
    ctors.push(fields)?;
    let tag = Some(Bytes::from_slice(alloc, b"T")?);
    let item = Item::Kind(Decl {
        tag,
        params: 2,
        ctors,
    });
    assert_eq!(rt; depth(&item), 1);
    assert!(rt; with_members(alloc, &item, &[])? == Some(item.copy(alloc)?));
    let hints = Hints {
        members: Vec::new(alloc),
    };
    assert!(rt; hints.members.is_empty());
    Ok(())
}
