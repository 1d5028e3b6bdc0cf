//! Texts of files and what they mean.
mod equivalents;
mod heads;
mod places;
mod refusals;
mod shopping_lists;

use crate::{Program, resolve};
use heads::Head;
use std::alloc::{AllocError, Global};
use std::test::Fail;
use uc_base::{Fault, Ref};
use uc_layout::lex;
use uc_scratch::read_file;
use uc_tree::{Definition, Literal, Target, Term, Ty};

fn resolved(alloc: Global, head: &Head, text: &str) -> Result<Program, Fault> {
    let blocks = lex(alloc, text.as_bytes())?;
    let file = read_file(alloc, &blocks)?;
    resolve(alloc, &file, head)
}

/// The body of the last definition of a text.
fn last_body(alloc: Global, head: &Head, text: &str) -> Result<Option<Term>, Fault> {
    let mut program = resolved(alloc, head, text)?;
    match program.terms.pop() {
        None => Ok(None),
        Some((_, definition)) => Ok(Some(definition.body)),
    }
}

fn nat(value: u64) -> Term {
    Term::literal(Literal::Nat(value))
}

fn lambda(alloc: Global, count: u32, body: Term) -> Result<Term, AllocError> {
    let mut term = body;
    for _ in 0..count {
        term = Term::lambda(alloc, term)?;
    }
    Ok(term)
}

/// `1 + 2`.
fn sum(alloc: Global) -> Result<Term, AllocError> {
    let plus = Term::link(Target::Stored(Ref::Builtin(16)));
    let half = Term::apply(alloc, plus, nat(1))?;
    Term::apply(alloc, half, nat(2))
}

#[test]
fn finds_what_names_mean(rt: HostRuntime) -> Result<(), Fail> {
    let alloc = rt.alloc();
    let head = Head::builtins(alloc)?;
    for (text, body) in [
        ("use Nat +\ny = 1 + 2", sum(alloc)?),
        ("y = (Nat.+) 1 2", sum(alloc)?),
        ("y = plus 1 2", sum(alloc)?),
        ("f x = x\ng f = f", lambda(alloc, 1, Term::variable(0))?),
        ("f x = x\ng = f", Term::link(Target::Own(0))),
        ("f x = x -> x", lambda(alloc, 2, Term::variable(0))?),
        ("f x = y -> x", lambda(alloc, 2, Term::variable(1))?),
        ("f _ x _ = x", lambda(alloc, 3, Term::variable(1))?),
        (
            "structural type T = C | D\nx = D",
            Term::link(Target::OwnCtor(0, 1)),
        ),
    ] {
        assert!(rt; last_body(alloc, &head, text)? == Some(body), "{text}");
    }
    Ok(())
}

#[test]
fn quantifies_in_front(rt: HostRuntime) -> Result<(), Fail> {
    let alloc = rt.alloc();
    let head = Head::builtins(alloc)?;
    let mut program = resolved(alloc, &head, "f : a -> b -> a\nf x y = x")?;
    let inner = Ty::arrow(alloc, Ty::variable(0), Ty::variable(1))?;
    let arrows = Ty::arrow(alloc, Ty::variable(1), inner)?;
    let signature = Some(Ty::forall(alloc, Ty::forall(alloc, arrows)?)?);
    let body = lambda(alloc, 2, Term::variable(1))?;
    match program.terms.pop() {
        None => assert!(rt; false),
        Some((name, found)) => {
            assert_eq!(rt; name.text(), b"f".as_slice());
            assert!(rt; found == Definition { signature, body });
        }
    }
    Ok(())
}
