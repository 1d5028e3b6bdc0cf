//! Canonical texts of small components.
use crate::{Component, write_component};
use std::alloc::{AllocError, Global};
use std::test::Fail;
use uc_base::{Bytes, Hash, Ref};
use uc_tree::{Case, Decl, Definition, Literal, Pattern, Target, Term, TermNode, Ty};

/// SHA-512 of `D1;s0;1;2;tb0;0;tb0;0;`, by coreutils.
const POINT: &str =
    "d2c692eb9528f2d6e72bf6e44141694b616ce90cf4e9cba873dd51d640d002b639411de2d60b054a00d78d3c14ca3ce2ba67cacb2a3daae41c13374ef0f04ddd";

fn builtin(number: u16) -> Target {
    Target::Stored(Ref::Builtin(number))
}

pub(crate) fn named(alloc: Global, number: u16) -> Ty {
    Ty::data(builtin(number), Vec::new(alloc))
}

pub(crate) fn nat(number: u64) -> Term {
    Term::literal(Literal::Nat(number))
}

/// A builtin at two arguments.
fn infix(alloc: Global, number: u16, left: Term, right: Term) -> Result<Term, AllocError> {
    let link = Term::link(builtin(number));
    Term::apply(alloc, Term::apply(alloc, link, left)?, right)
}

/// `n -> if n Nat.== 0 then LITERAL else OTHER (Nat.drop n 1)`
pub(crate) fn parity(alloc: Global, at_zero: bool, other: u32) -> Result<Definition, AllocError> {
    let signature = Ty::arrow(alloc, named(alloc, 0), named(alloc, 2))?;
    let test = infix(alloc, 22, Term::variable(0), nat(0))?;
    let rest = infix(alloc, 20, Term::variable(0), nat(1))?;
    let call = Term::apply(alloc, Term::link(Target::Own(other)), rest)?;
    let body = Term::conditional(alloc, test, Term::literal(Literal::Boolean(at_zero)), call)?;
    Ok(Definition {
        signature: Some(signature),
        body: Term::lambda(alloc, body)?,
    })
}

fn text_of(alloc: Global, members: Vec<Definition>) -> Result<Bytes, Fail> {
    Ok(write_component(alloc, &Component::Terms(members))?)
}

#[test]
fn writes_definitions(rt: HostRuntime) -> Result<(), Fail> {
    let alloc = rt.alloc();
    let signature = None;
    let members = vec![in alloc;
        Definition {
            signature,
            body: nat(5)
        },
    ]?;
    assert_eq!(rt; text_of(alloc, members)?.as_slice(), b"T1;-n5;".as_slice());

    let identity = Term::lambda(alloc, Term::variable(0))?;
    let signature = Some(Ty::forall(alloc, Ty::arrow(alloc, Ty::variable(0), Ty::variable(0))?)?);
    let members = vec![in alloc;
        Definition {
            signature,
            body: identity
        },
    ]?;
    assert_eq!(rt;
        text_of(alloc, members)?.as_slice(),
        b"T1;:qav0;v0;lv0;".as_slice()
    );

    let double = Term::lambda(
        alloc,
        infix(alloc, 16, Term::variable(0), Term::variable(0))?,
    )?;
    let signature = None;
    let members = vec![in alloc;
        Definition {
            signature,
            body: double
        },
    ]?;
    assert_eq!(rt;
        text_of(alloc, members)?.as_slice(),
        b"T1;-laarb16;v0;v0;".as_slice()
    );
    Ok(())
}

#[test]
fn writes_a_cycle(rt: HostRuntime) -> Result<(), Fail> {
    let alloc = rt.alloc();
    let members = vec![in alloc; parity(alloc, true, 1)?, parity(alloc, false, 0)?]?;
    let text = text_of(alloc, members)?;
    let wanted =
        "T2;:atb0;0;tb2;0;lfaarb22;v0;n0;yam1;aarb20;v0;n1;:atb0;0;tb2;0;lfaarb22;v0;n0;zam0;aarb20;v0;n1;";
    assert_eq!(rt; text.as_slice(), wanted.as_bytes());
    Ok(())
}

#[test]
fn writes_a_declaration(rt: HostRuntime) -> Result<(), Fail> {
    let alloc = rt.alloc();
    let fields = vec![in alloc; named(alloc, 0)]?;
    let ctors = vec![in alloc; Vec::new(alloc), fields]?;
    let members = vec![in alloc;
        Decl {
            tag: None,
            params: 0,
            ctors
        },
    ]?;
    let text = write_component(alloc, &Component::Kinds(members))?;
    assert_eq!(rt; text.as_slice(), b"D1;s0;2;0;1;tb0;0;".as_slice());
    Ok(())
}

#[test]
fn writes_a_match(rt: HostRuntime) -> Result<(), Fail> {
    let alloc = rt.alloc();
    let hash = Hash::read_text(POINT.as_bytes()).ok_or("no hash")?;
    let point = Ty::data(Target::Stored(Ref::Def(hash, 0)), Vec::new(alloc));
    let fields = vec![in alloc; Pattern::variable(), Pattern::any()]?;
    let pattern = Pattern::constructor(Target::Stored(Ref::Ctor(hash, 0, 0)), fields);
    let body = Term::variable(0);
    let cases = vec![in alloc;
        Case {
            pattern,
            guard: None,
            body
        },
    ]?;
    let node = TermNode::Match(Box::new(alloc, Term::variable(0))?, cases);
    let signature = Some(Ty::arrow(alloc, point, named(alloc, 0))?);
    let body = Term::lambda(alloc, Term { node })?;
    let members = vec![in alloc; Definition { signature, body }]?;
    let wanted = format!(in alloc; "T1;:ath{POINT}0;0;tb0;0;ljv0;1;k{POINT}0;0;2;v_-v0;")?;
    assert_eq!(rt; text_of(alloc, members)?.as_slice(), wanted.as_bytes());
    Ok(())
}
