//! Types, terms and declarations with a flaw, each at its node, and some without.
ghost use Rattle.std.specs.Prelude.{◌≡◌, ◌+◌, ◌<◌, [], ◌∷◌, length, IfOk};
ghost use Rattle.uc_tree.specs.declared.item.Item.TheVariants as item;
ghost use Rattle.uc_tree.specs.Nodes.{ty_nodes, term_nodes, nodes_of};

use crate::{check_decls, check_definition};
use std::alloc::{AllocError, Global};
use std::test::Fail;
use uc_base::{At, Fault, Ref, Spot};
use uc_tree::{Arities, Case, Decl, Definition, Literal, Pattern, Target, Term, Ty};

/// All targets take so many parameters.
#[derive(Drop)]
struct Each(Option<u32>);

impl Arities for Each {
    ghost arity_of = { λ each _. each.0 };

    fn arity(&self, _of: &Target) -> Option<u32> {
        self.0
    }
}

const LIST: Target = Target::Stored(Ref::Builtin(5));

fn spot(member: u32, node: u32) -> At {
    At::Spot(Spot { member, node })
}

/// `forall a. a`
fn any(alloc: Global) -> Result<Ty, AllocError>
    ensures { IfOk result (λ t. length (ty_nodes t) ≡ 2) }
{
    Ty::forall(alloc, Ty::variable(0))
}

fn one<T: Drop>(alloc: Global, item: T) -> Result<Vec<T>, AllocError>
    ensures { IfOk result (λ v. v.items ≡ item ∷ []) }
{
    let mut items = Vec::new(alloc);
    items.push(item)?;
    Ok(items)
}

fn two<T: Drop>(alloc: Global, first: T, second: T) -> Result<Vec<T>, AllocError>
    ensures { IfOk result (λ v. v.items ≡ first ∷ second ∷ []) }
{
    let mut items = Vec::new(alloc);
    items.push(first)?;
    items.push(second)?;
    Ok(items)
}

/// A data type without arguments.
fn bare(alloc: Global, head: Target) -> Ty
    ensures { length (ty_nodes result) ≡ 1 }
{
    Ty::data(head, Vec::new(alloc))
}

#[tactic(auto, using(crate::proofs::Walking::walking))]
fn at_one(alloc: Global, head: Target, argument: Ty) -> Result<Ty, AllocError>
    ensures { IfOk result (λ t. length (ty_nodes t) ≡ length (ty_nodes argument) + 1) }
{
    let arguments = one(alloc, argument)?;
    Ok(Ty::data(head, arguments))
}

#[tactic(auto, using(crate::proofs::Walking::walking))]
fn at_two(alloc: Global, head: Target, first: Ty, second: Ty) -> Result<Ty, AllocError>
    ensures { IfOk result (λ t. length (ty_nodes t) ≡ length (ty_nodes first) + length (ty_nodes second) + 1) }
{
    let arguments = two(alloc, first, second)?;
    Ok(Ty::data(head, arguments))
}

#[tactic(auto, using(crate::proofs::Walking::walking))]
fn pair(alloc: Global, first: Ty, second: Ty) -> Result<Ty, AllocError>
    ensures { IfOk result (λ t. length (ty_nodes t) ≡ length (ty_nodes first) + length (ty_nodes second) + 1) }
{
    let parts = two(alloc, first, second)?;
    Ok(Ty::tuple(parts))
}

#[tactic(auto, using(crate::proofs::Walking::walking))]
fn arrow(alloc: Global, from: Ty, to: Ty) -> Result<Ty, AllocError>
    ensures { IfOk result (λ t. length (ty_nodes t) ≡ length (ty_nodes from) + length (ty_nodes to) + 1) }
{
    Ty::arrow(alloc, from, to)
}

/// A unit with a signature.
#[tactic(auto, using(crate::proofs::Walking::walking))]
fn check_signature(signature: Ty, arity: Option<u32>) -> Result<(), Fault>
    requires { length (ty_nodes signature) < 100 }
{
    let definition = Definition {
        signature: Some(signature),
        body: Term::unit(),
    };
    check_definition(&definition, &Each(arity))
}

fn check_body(body: Term) -> Result<(), Fault>
    requires { length (term_nodes body) < 100 }
{
    let definition = Definition {
        signature: None,
        body,
    };
    check_definition(&definition, &Each(Some(1)))
}

#[test]
fn finds_the_flaws_of_signatures(rt: HostRuntime) -> Result<(), Fail> {
    let alloc = rt.alloc();
    let list = at_one(alloc, LIST, any(alloc)?)?;
    assert!(rt; check_signature(list, Some(1)) == Err(Fault::Impredicative(spot(0, 2))));
    let bare = bare(alloc, LIST);
    assert!(rt; check_signature(bare, Some(1)) == Err(Fault::BadArity(spot(0, 1))));
    let twice = at_two(alloc, LIST, any(alloc)?, Ty::unit())?;
    assert!(rt; check_signature(twice, Some(1)) == Err(Fault::BadArity(spot(0, 1))));
    let unknown = at_one(alloc, LIST, Ty::unit())?;
    assert!(rt; check_signature(unknown, None) == Err(Fault::BadArity(spot(0, 1))));
    let inner = pair(alloc, Ty::unit(), any(alloc)?)?;
    assert!(rt; check_signature(inner, None) == Err(Fault::Impredicative(spot(0, 3))));
    Ok(())
}

#[test]
fn accepts_quantifiers_outside(rt: HostRuntime) -> Result<(), Fail> {
    let alloc = rt.alloc();
    let under = arrow(alloc, any(alloc)?, any(alloc)?)?;
    assert!(rt; check_signature(under, None) == Ok(()));
    let list = at_one(alloc, LIST, Ty::unit())?;
    assert!(rt; check_signature(list, Some(1)) == Ok(()));
    assert!(rt; check_signature(bare(alloc, LIST), Some(0)) == Ok(()));
    Ok(())
}

/// `match () with (x, _) | true -> (() : t)`, where the type is the ninth node.
#[tactic(auto, using(crate::proofs::Walking::walking))]
fn annotated_case(alloc: Global, ty: Ty) -> Result<Term, AllocError>
    ensures { IfOk result (λ t. length (term_nodes t) ≡ length (ty_nodes ty) + 8) }
{
    let parts = two(alloc, Pattern::variable(), Pattern::any())?;
    let body = Term::annotated(alloc, Term::unit(), ty)?;
    let case = Case {
        pattern: Pattern::tuple(parts),
        guard: Some(Term::literal(Literal::Boolean(true))),
        body,
    };
    let cases = one(alloc, case)?;
    Term::matching(alloc, Term::unit(), cases)
}

/// `let x : t; x = () in ()`, where the type is the second node.
#[tactic(auto, using(crate::proofs::Walking::walking))]
fn signed_let(alloc: Global, ty: Ty) -> Result<Term, AllocError>
    ensures { IfOk result (λ t. length (term_nodes t) ≡ length (ty_nodes ty) + 3) }
{
    Term::binding(alloc, Some(ty), Term::unit(), Term::unit())
}

#[test]
fn finds_the_flaws_of_bodies(rt: HostRuntime) -> Result<(), Fail> {
    let alloc = rt.alloc();
    let good = annotated_case(alloc, any(alloc)?)?;
    assert!(rt; check_body(good) == Ok(()));
    let bad = annotated_case(alloc, bare(alloc, LIST))?;
    assert!(rt; check_body(bad) == Err(Fault::BadArity(spot(0, 9))));
    let list = at_one(alloc, LIST, any(alloc)?)?;
    let bound = signed_let(alloc, list)?;
    assert!(rt; check_body(bound) == Err(Fault::Impredicative(spot(0, 3))));
    Ok(())
}

/// A structural type with two constructors: the first has no fields, the second has one.
#[tactic(auto, using(crate::proofs::Walking::walking))]
fn decl(alloc: Global, params: u32, field: Ty) -> Result<Decl, AllocError>
    ensures { IfOk result (λ d. length (nodes_of (item.Kind d)) ≡ length (ty_nodes field)) }
{
    let fields = one(alloc, field)?;
    let ctors = two(alloc, Vec::new(alloc), fields)?;
    Ok(Decl {
        tag: None,
        params,
        ctors,
    })
}

/// Two declarations beside which nothing is known.
fn check_both(first: Decl, second: Decl) -> Result<(), Fault>
    requires first { length (nodes_of (item.Kind first)) < 100 }
    requires second { length (nodes_of (item.Kind second)) < 100 }
{
    check_decls(&[first, second], &Each(None))
}

#[test]
fn finds_the_flaws_of_declarations(rt: HostRuntime) -> Result<(), Fail> {
    let alloc = rt.alloc();
    let [one_param, two_params] = [Target::Own(0), Target::Own(1)];
    let first = decl(
        alloc,
        1,
        at_two(alloc, two_params, Ty::variable(0), Ty::unit())?,
    )?;
    let second = decl(alloc, 2, at_one(alloc, one_param, Ty::variable(0))?)?;
    assert!(rt; check_both(first, second) == Ok(()));
    let first = decl(alloc, 1, any(alloc)?)?;
    let second = decl(alloc, 2, arrow(alloc, Ty::unit(), bare(alloc, one_param))?)?;
    assert!(rt; check_both(first, second) == Err(Fault::BadArity(spot(1, 3))));
    let first = decl(alloc, 1, at_one(alloc, one_param, any(alloc)?)?)?;
    let second = decl(alloc, 2, bare(alloc, LIST))?;
    assert!(rt; check_both(first, second) == Err(Fault::Impredicative(spot(0, 2))));
    let first = decl(alloc, 0, Ty::unit())?;
    let second = decl(alloc, 0, bare(alloc, Target::Own(2)))?;
    assert!(rt; check_both(first, second) == Err(Fault::BadArity(spot(1, 1))));
    Ok(())
}
