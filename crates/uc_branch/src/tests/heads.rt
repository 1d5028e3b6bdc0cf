//! Edits of heads.
use super::uses::AllUse;
use super::{constructor, def, head_of, is_refused, name};
use crate::head::Head;
use crate::todo_list::todo;
use std::alloc::Global;
use std::test::Fail;
use uc_base::{Fault, Name, Ref, Sort};

fn moved(alloc: Global, head: &Head, from: &str, to: &str) -> Result<Head, Fault> {
    head.moved(alloc, &name(alloc, from)?, &name(alloc, to)?)
}

fn deleted(alloc: Global, head: &Head, text: &str, known: &AllUse) -> Result<Head, Fault> {
    head.deleted(alloc, &name(alloc, text)?, known)
}

fn below_deleted(alloc: Global, head: &Head, text: &str, known: &AllUse) -> Result<Head, Fault> {
    head.namespace_deleted(alloc, &name(alloc, text)?, known)
}

fn aliased(alloc: Global, head: &Head, from: &str, to: &str) -> Result<Head, Fault> {
    head.aliased_term(alloc, &name(alloc, from)?, &name(alloc, to)?)
}

fn stands_for(alloc: Global, head: &Head, sort: Sort, text: &str, target: Ref) -> bool {
    match name(alloc, text) {
        Ok(name) => match sort {
            Sort::Kind => head.kind(&name).copied() == Some(target),
            Sort::Term => head.term(&name).copied() == Some(target),
        },
        Err(_) => false,
    }
}

#[test]
fn moves_a_declaration_with_its_constructors(rt: HostRuntime) -> Result<(), Fail> {
    let alloc = rt.alloc();
    let head = head_of(
        alloc,
        &[
            (Sort::Kind, "T", def(1)),
            (Sort::Term, "T.A", constructor(1, 0)),
            (Sort::Term, "T.B", constructor(1, 1)),
            (Sort::Term, "z", def(2)),
        ],
    )?;
    let head = moved(alloc, &head, "T", "T.T")?;
    assert_eq!(rt; head.count(), 4);
    assert!(rt; stands_for(alloc, &head, Sort::Kind, "T.T", def(1)));
    assert!(rt; stands_for(alloc, &head, Sort::Term, "T.T.A", constructor(1, 0)));
    assert!(rt; stands_for(alloc, &head, Sort::Term, "T.T.B", constructor(1, 1)));
    assert!(rt; stands_for(alloc, &head, Sort::Term, "z", def(2)));
    let least = head.least_name(&constructor(1, 1));
    assert!(rt; least.is_some_and(|least| least.text() == b"T.T.B".as_slice()));
    let taken = moved(alloc, &head, "z", "T.T.A");
    assert!(rt; is_refused(alloc, taken, "refused 23 NameTaken T.T.A"));
    Ok(())
}

#[test]
fn refuses_moves_in_order(rt: HostRuntime) -> Result<(), Fail> {
    let alloc = rt.alloc();
    let terms = [
        (Sort::Term, "x.a", def(1)),
        (Sort::Term, "y.a", def(1)),
        (Sort::Term, "x.b", def(1)),
        (Sort::Term, "y.b", def(1)),
    ];
    let head = head_of(alloc, &terms)?;
    for (from, to, line) in [
        ("x", "x", "refused 24 SameName x"),
        ("no", "y", "refused 22 NoSuchName no"),
        ("x", "Nat.+", "refused 29 BadName"),
        ("x", "y", "refused 23 NameTaken y.a"),
    ] {
        assert!(rt;
            is_refused(alloc, moved(alloc, &head, from, to), line),
            "{from} {to}"
        );
    }
    Ok(())
}

#[test]
fn names_the_least_of_both_sorts(rt: HostRuntime) -> Result<(), Fail> {
    let alloc = rt.alloc();
    let pairs = [
        (Sort::Term, "x.a", def(1)),
        (Sort::Term, "y.a", def(1)),
        (Sort::Kind, "x.K", def(1)),
        (Sort::Kind, "y.K", def(1)),
    ];
    let head = head_of(alloc, &pairs)?;
    assert!(rt;
        is_refused(
            alloc,
            moved(alloc, &head, "x", "y"),
            "refused 23 NameTaken y.K"
        )
    );
    Ok(())
}

#[test]
fn limits_moved_names(rt: HostRuntime) -> Result<(), Fail> {
    let alloc = rt.alloc();
    let head = head_of(alloc, &[(Sort::Term, "x.a", def(1))])?;
    let from = name(alloc, "x")?;
    let long = [b'l'; 127];
    let fits = Name::parse(alloc, &long[..126])?;
    assert_eq!(rt; head.moved(alloc, &from, &fits)?.count(), 1);
    let past = Name::parse(alloc, &long)?;
    assert!(rt; is_refused(alloc, head.moved(alloc, &from, &past), "refused 29 BadName"));
    Ok(())
}

#[test]
fn keeps_what_is_used(rt: HostRuntime) -> Result<(), Fail> {
    let alloc = rt.alloc();
    let known = AllUse(def(1));
    let pairs = [
        (Sort::Term, "a", def(1)),
        (Sort::Term, "c", def(3)),
        (Sort::Term, "b", def(2)),
        (Sort::Term, "B", constructor(2, 0)),
    ];
    let head = head_of(alloc, &pairs)?;
    let used = deleted(alloc, &head, "a", &known);
    assert!(rt; is_refused(alloc, used, "refused 25 StillUsed b"));
    let absent = deleted(alloc, &head, "no", &known);
    assert!(rt; is_refused(alloc, absent, "refused 22 NoSuchName no"));
    let head = aliased(alloc, &head, "a", "a2")?;
    let taken = aliased(alloc, &head, "a", "a2");
    assert!(rt; is_refused(alloc, taken, "refused 23 NameTaken a2"));
    let head = deleted(alloc, &head, "a", &known)?;
    assert_eq!(rt; head.count(), 4);
    assert!(rt; stands_for(alloc, &head, Sort::Term, "a2", def(1)));
    Ok(())
}

#[test]
fn lists_what_has_no_name(rt: HostRuntime) -> Result<(), Fail> {
    let alloc = rt.alloc();
    let known = AllUse(def(1));
    let pairs = [
        (Sort::Term, "a", def(1)),
        (Sort::Term, "c", def(3)),
        (Sort::Kind, "b", def(2)),
        (Sort::Term, "B", constructor(2, 0)),
    ];
    let mut head = head_of(alloc, &pairs)?;
    assert_eq!(rt; todo(alloc, &head, &known)?.len(), 0);
    head.remove(Sort::Term, &name(alloc, "a")?);
    let list = todo(alloc, &head, &known)?;
    assert_eq!(rt; list.len(), 2);
    assert!(rt; list[0].0.text() == b"b".as_slice() && list[0].1 == def(1));
    assert!(rt; list[1].0.text() == b"c".as_slice() && list[1].1 == def(1));
    Ok(())
}

#[test]
fn deletes_what_stands_below(rt: HostRuntime) -> Result<(), Fail> {
    let alloc = rt.alloc();
    let known = AllUse(Ref::Builtin(16));
    let head = Head::builtin(alloc)?;
    assert_eq!(rt; head.count(), 47);
    assert!(rt; stands_for(alloc, &head, Sort::Term, "Nat.+", Ref::Builtin(16)));
    let first = head.after(Sort::Kind, None);
    assert!(rt; first.is_some_and(|pair| pair.0.text() == b"Boolean".as_slice()));
    let left = below_deleted(alloc, &head, "Nat", &known)?;
    assert_eq!(rt; left.count(), 33);
    assert!(rt; stands_for(alloc, &left, Sort::Kind, "Nat", Ref::Builtin(0)));
    let again = below_deleted(alloc, &left, "Nat", &known);
    assert!(rt; is_refused(alloc, again, "refused 22 NoSuchName Nat"));
    Ok(())
}

#[test]
fn makes_aliases_of_types(rt: HostRuntime) -> Result<(), Fail> {
    let alloc = rt.alloc();
    let (from, to) = (name(alloc, "Nat")?, name(alloc, "N")?);
    let head = Head::builtin(alloc)?.aliased_kind(alloc, &from, &to)?;
    assert!(rt; stands_for(alloc, &head, Sort::Kind, "N", Ref::Builtin(0)));
    let same = head.aliased_kind(alloc, &to, &to);
    assert!(rt; is_refused(alloc, same, "refused 24 SameName N"));
    Ok(())
}
