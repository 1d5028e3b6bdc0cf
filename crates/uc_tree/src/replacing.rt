//! Trees with their targets replaced.
ghost use Rattle.std.specs.Prelude.{◌≡◌, ◌<◌, ◌^◌, length, Some, IfOk, IfErr};
ghost use Rattle.uc_base.specs.declared.fault.Fault.TheVariants as faults;
ghost use Rattle.uc_tree.specs.Types.{tys_of};
ghost use Rattle.uc_tree.specs.Patterns.{patterns_of};
ghost use Rattle.uc_tree.specs.Terms.{terms_of};
ghost use Rattle.uc_tree.specs.Terms as terms;
ghost use Rattle.uc_tree.specs.TermViews.{term_of, case_with, cases_of};
ghost use Rattle.uc_tree.specs.Declarations.{fields_of};
ghost use Rattle.uc_tree.specs.Stops.{Gives, replacement_of};
ghost use Rattle.uc_tree.specs.Replacing as spec;
ghost use Rattle.uc_tree.specs.Replacing.{replaced, replaced_ty, replaced_tys, replaced_pattern, replaced_patterns, replaced_term, replaced_terms, replaced_cases, replaced_fields, rewritten, by_members, by_references};

use crate::declaration::{Decl, copy_tag};
use crate::definition::Definition;
use crate::item::Item;
use crate::numbering::Numbering;
use crate::pattern::{Pattern, PatternNode};
use crate::ref_map::{Image, RefMap};
use crate::target::Target;
use crate::term::{Case, Term, TermNode};
use crate::ty::{Ty, TyNode};
use std::alloc::{AllocError, AllocFailed, Global};
use uc_base::{Fault, Ref};

/// Why a walk gave no tree.
#[derive(Debug, Drop)]
enum Stop {
    Memory,
    /// Nothing stands for a target.
    Gone,
}

impl From<AllocError> for Stop {
    ghost use Rattle.uc_tree.specs.declared.replacing.Stop.TheVariants.{Memory};

    ghost from_gives = { λ _ stop. stop ≡ Memory };

    fn from(_: AllocError) -> Stop {
        Stop::Memory
    }
}

impl<T: Drop> From<AllocFailed<T>> for Stop {
    ghost use Rattle.uc_tree.specs.declared.replacing.Stop.TheVariants.{Memory};

    ghost from_gives = { λ _ stop. stop ≡ Memory };

    fn from(_: AllocFailed<T>) -> Stop {
        Stop::Memory
    }
}

/// What stands for targets: images for stored references, targets for the members of the component, or
/// numbers for the references of its members.
#[derive(Clone, Copy)]
enum Standing<'a> {
    Images(&'a RefMap),
    Members(&'a [Target]),
    References(&'a Numbering<'a>),
}

fn constructor_of(ctor: u32, of: &Target) -> Option<Target>
    ensures { result ≡ spec.constructor_of ctor of.now }
{
    match of {
        Target::Stored(Ref::Def(hash, member)) => {
            Some(Target::Stored(Ref::Ctor(*hash, *member, ctor)))
        }
        Target::Own(member) => Some(Target::OwnCtor(*member, ctor)),
        Target::Stored(_) | Target::OwnCtor(_, _) => None,
    }
}

fn member_under(members: &[Target], of: &Target) -> Option<Target>
    ensures { result ≡ spec.member_under members.now of.now }
{
    match of {
        Target::Stored(_) => Some(*of),
        Target::Own(member) => members.get(*member as usize).copied(),
        Target::OwnCtor(member, ctor) => match members.get(*member as usize) {
            Some(declaration) => constructor_of(*ctor, declaration),
            None => None,
        },
    }
}

fn own_under(numbering: &Numbering, of: &Target) -> Target
    ensures { result ≡ spec.own_under numbering.now of.now }
{
    match of {
        Target::Stored(Ref::Def(hash, member)) => {
            match numbering.number_of(&Ref::Def(*hash, *member)) {
                Some(number) => Target::Own(number),
                None => *of,
            }
        }
        Target::Stored(Ref::Ctor(hash, member, ctor)) => {
            match numbering.number_of(&Ref::Def(*hash, *member)) {
                Some(number) => Target::OwnCtor(number, *ctor),
                None => *of,
            }
        }
        Target::Stored(Ref::Builtin(_)) | Target::Own(_) | Target::OwnCtor(_, _) => *of,
    }
}

fn imaged(r: &Ref, image: Image) -> Option<Target>
    ensures { result ≡ spec.imaged r.now image }
{
    match image {
        Image::Same => Some(Target::Stored(*r)),
        Image::New(s) => Some(Target::Stored(s)),
        Image::Gone => None,
    }
}

fn imaged_constructor(r: &Ref, image: Image) -> Option<Target>
    ensures { result ≡ spec.imaged_constructor r.now image }
{
    match image {
        Image::Same => Some(Target::Stored(*r)),
        Image::New(Ref::Ctor(hash, member, ctor)) => {
            Some(Target::Stored(Ref::Ctor(hash, member, ctor)))
        }
        Image::New(_) | Image::Gone => None,
    }
}

fn target_under(standing: &Standing, of: &Target) -> Result<Target, Stop>
    ensures { Gives (λ x. x) result (spec.target_under (replacement_of standing.now) of.now) }
{
    let found = match standing {
        Standing::Members(members) => member_under(members, of),
        Standing::References(numbering) => Some(own_under(numbering, of)),
        Standing::Images(images) => match of {
            Target::Stored(r) => imaged(r, images.get(r)),
            Target::Own(_) | Target::OwnCtor(_, _) => Some(*of),
        },
    };
    found.ok_or(Stop::Gone)
}

fn constructor_under(standing: &Standing, of: &Target) -> Result<Target, Stop>
    ensures { Gives (λ x. x) result (spec.constructor_under (replacement_of standing.now) of.now) }
{
    let found = match standing {
        Standing::Members(members) => member_under(members, of),
        Standing::References(numbering) => Some(own_under(numbering, of)),
        Standing::Images(images) => match of {
            Target::Stored(r) => imaged_constructor(r, images.get(r)),
            Target::Own(_) | Target::OwnCtor(_, _) => Some(*of),
        },
    };
    found.ok_or(Stop::Gone)
}

#[cycle(replace_type)]
#[tactic(auto, using(crate::proofs::Sizes::parts))]
fn replace_type(alloc: Global, standing: &Standing, t: &Ty) -> Result<Ty, Stop>
    ensures { Gives (λ u. u) result (replaced_ty (replacement_of standing.now) t.now) }
{
    match &t.node {
        TyNode::Var(n) => Ok(Ty::variable(*n)),
        TyNode::Forall(a) => {
            let a = replace_type(alloc, standing, a)?;
            Ok(Ty::forall(alloc, a)?)
        }
        TyNode::Arrow(a, b) => {
            let a = replace_type(alloc, standing, a)?;
            let b = replace_type(alloc, standing, b)?;
            Ok(Ty::arrow(alloc, a, b)?)
        }
        TyNode::Unit => Ok(Ty::unit()),
        TyNode::Tuple(ts) => {
            let ts = replace_types(alloc, standing, ts)?;
            Ok(Ty::tuple(ts))
        }
        TyNode::Data(x, ts) => {
            let x = target_under(standing, x)?;
            let ts = replace_types(alloc, standing, ts)?;
            Ok(Ty::data(x, ts))
        }
    }
}

#[cycle(replace_type)]
#[tactic(auto, using(crate::proofs::Sizes::parts))]
fn replace_types(alloc: Global, standing: &Standing, ts: &[Ty]) -> Result<Vec<Ty>, Stop>
    ensures { Gives (λ us. tys_of us.items) result (replaced_tys (replacement_of standing.now) (tys_of ts.now)) }
{
    let mut replaced = Vec::new(alloc);
    for t in ts {
        replaced.push(replace_type(alloc, standing, t)?)?;
    }
    Ok(replaced)
}

fn replace_signature(
    alloc: Global,
    standing: &Standing,
    signature: &Option<Ty>,
) -> Result<Option<Ty>, Stop>
    ensures { Gives (λ s. s) result (spec.replaced_signature (replacement_of standing.now) signature.now) }
{
    match signature {
        None => Ok(None),
        Some(t) => {
            let t = replace_type(alloc, standing, t)?;
            Ok(Some(t))
        }
    }
}

#[cycle(replace_pattern)]
#[tactic(auto, using(crate::proofs::Sizes::parts))]
fn replace_pattern(alloc: Global, standing: &Standing, p: &Pattern) -> Result<Pattern, Stop>
    ensures { Gives (λ q. q) result (replaced_pattern (replacement_of standing.now) p.now) }
{
    match &p.node {
        PatternNode::Any => Ok(Pattern::any()),
        PatternNode::Var => Ok(Pattern::variable()),
        PatternNode::As(a) => {
            let a = replace_pattern(alloc, standing, a)?;
            Ok(Pattern::alias(alloc, a)?)
        }
        PatternNode::Literal(l) => {
            let l = l.copy(alloc)?;
            Ok(Pattern::literal(l))
        }
        PatternNode::Unit => Ok(Pattern::unit()),
        PatternNode::Tuple(ps) => {
            let ps = replace_patterns(alloc, standing, ps)?;
            Ok(Pattern::tuple(ps))
        }
        PatternNode::List(ps) => {
            let ps = replace_patterns(alloc, standing, ps)?;
            Ok(Pattern::list(ps))
        }
        PatternNode::Ctor(x, ps) => {
            let x = constructor_under(standing, x)?;
            let ps = replace_patterns(alloc, standing, ps)?;
            Ok(Pattern::constructor(x, ps))
        }
        PatternNode::Cons(a, b) => {
            let a = replace_pattern(alloc, standing, a)?;
            let b = replace_pattern(alloc, standing, b)?;
            Ok(Pattern::cons(alloc, a, b)?)
        }
        PatternNode::Snoc(a, b) => {
            let a = replace_pattern(alloc, standing, a)?;
            let b = replace_pattern(alloc, standing, b)?;
            Ok(Pattern::snoc(alloc, a, b)?)
        }
    }
}

#[cycle(replace_pattern)]
#[tactic(auto, using(crate::proofs::Sizes::parts))]
fn replace_patterns(
    alloc: Global,
    standing: &Standing,
    ps: &[Pattern],
) -> Result<Vec<Pattern>, Stop>
    ensures { Gives (λ qs. patterns_of qs.items) result (replaced_patterns (replacement_of standing.now) (patterns_of ps.now)) }
{
    let mut replaced = Vec::new(alloc);
    for p in ps {
        replaced.push(replace_pattern(alloc, standing, p)?)?;
    }
    Ok(replaced)
}

#[cycle(replace_term)]
#[tactic(auto, using(crate::proofs::Sizes::parts))]
fn replace_term(alloc: Global, standing: &Standing, t: &Term) -> Result<Term, Stop>
    ensures { Gives (λ u. u) result (replaced_term (replacement_of standing.now) t.now) }
{
    let node = replace_node(alloc, standing, &t.node)?;
    Ok(Term { node })
}

#[cycle(replace_term)]
#[tactic(auto, using(crate::proofs::Sizes::parts))]
fn replace_node(alloc: Global, standing: &Standing, node: &TermNode) -> Result<TermNode, Stop>
    ensures { Gives (λ n. term_of n) result (replaced_term (replacement_of standing.now) (term_of node.now)) }
{
    match node {
        TermNode::Var(n) => Ok(TermNode::Var(*n)),
        TermNode::Literal(l) => Ok(TermNode::Literal(l.copy(alloc)?)),
        TermNode::Unit => Ok(TermNode::Unit),
        TermNode::Link(x) => Ok(TermNode::Link(target_under(standing, x)?)),
        TermNode::Lambda(a) => Ok(TermNode::Lambda(replace_box(alloc, standing, a)?)),
        TermNode::Apply(a, b) => {
            let (a, b) = replace_two(alloc, standing, a, b)?;
            Ok(TermNode::Apply(a, b))
        }
        TermNode::Annotated(a, ty) => {
            let a = replace_box(alloc, standing, a)?;
            Ok(TermNode::Annotated(a, replace_type(alloc, standing, ty)?))
        }
        TermNode::Tuple(ts) => Ok(TermNode::Tuple(replace_terms(alloc, standing, ts)?)),
        TermNode::List(ts) => Ok(TermNode::List(replace_terms(alloc, standing, ts)?)),
        TermNode::If(a, b, c) => {
            let (a, b) = replace_two(alloc, standing, a, b)?;
            Ok(TermNode::If(a, b, replace_box(alloc, standing, c)?))
        }
        TermNode::And(a, b) => {
            let (a, b) = replace_two(alloc, standing, a, b)?;
            Ok(TermNode::And(a, b))
        }
        TermNode::Or(a, b) => {
            let (a, b) = replace_two(alloc, standing, a, b)?;
            Ok(TermNode::Or(a, b))
        }
        TermNode::Let(signature, a, b) => replace_let(alloc, standing, signature, a, b),
        TermNode::Match(a, cs) => {
            let a = replace_box(alloc, standing, a)?;
            Ok(TermNode::Match(a, replace_cases(alloc, standing, cs)?))
        }
    }
}

#[cycle(replace_term)]
#[tactic(auto, using(crate::proofs::Sizes::parts))]
fn replace_let(
    alloc: Global,
    standing: &Standing,
    signature: &Option<Ty>,
    t: &Term,
    u: &Term,
) -> Result<TermNode, Stop>
    ensures { Gives (λ n. term_of n) result (replaced_term (replacement_of standing.now) (terms.binding signature.now t.now u.now)) }
{
    let signature = replace_signature(alloc, standing, signature)?;
    let (t, u) = replace_two(alloc, standing, t, u)?;
    Ok(TermNode::Let(signature, t, u))
}

/// Recursion goes through boxes, which keeps the frame of `replace_node` small.
#[cycle(replace_term)]
#[tactic(auto, using(crate::proofs::Sizes::parts))]
fn replace_box(alloc: Global, standing: &Standing, t: &Term) -> Result<Box<Term>, Stop>
    ensures { Gives (λ b. b.value) result (replaced_term (replacement_of standing.now) t.now) }
{
    let t = replace_term(alloc, standing, t)?;
    Ok(Box::new(alloc, t)?)
}

#[cycle(replace_term)]
#[tactic(auto, using(crate::proofs::Sizes::parts))]
fn replace_two(
    alloc: Global,
    standing: &Standing,
    t: &Term,
    u: &Term,
) -> Result<(Box<Term>, Box<Term>), Stop>
    ensures { Gives (λ p. (p.0.value, p.1.value)) result (spec.replaced_two (replacement_of standing.now) t.now u.now) }
{
    let t = replace_box(alloc, standing, t)?;
    let u = replace_box(alloc, standing, u)?;
    Ok((t, u))
}

#[cycle(replace_term)]
#[tactic(auto, using(crate::proofs::Sizes::parts))]
fn replace_terms(alloc: Global, standing: &Standing, ts: &[Term]) -> Result<Vec<Term>, Stop>
    ensures { Gives (λ us. terms_of us.items) result (replaced_terms (replacement_of standing.now) (terms_of ts.now)) }
{
    let mut replaced = Vec::new(alloc);
    for t in ts {
        replaced.push(replace_term(alloc, standing, t)?)?;
    }
    Ok(replaced)
}

#[cycle(replace_term)]
#[tactic(auto, using(crate::proofs::Sizes::parts))]
fn replace_guard(
    alloc: Global,
    standing: &Standing,
    guard: &Option<Term>,
) -> Result<Option<Term>, Stop>
    ensures { Gives (λ g. g) result (spec.replaced_guard (replacement_of standing.now) guard.now) }
{
    match guard {
        None => Ok(None),
        Some(g) => {
            let g = replace_term(alloc, standing, g)?;
            Ok(Some(g))
        }
    }
}

#[cycle(replace_term)]
#[tactic(auto, using(crate::proofs::Sizes::parts))]
fn replace_case(alloc: Global, standing: &Standing, c: &Case) -> Result<Case, Stop>
    ensures { Gives (λ d. d) result (spec.replaced_case (replacement_of standing.now) c.now) }
{
    let pattern = replace_pattern(alloc, standing, &c.pattern)?;
    let guard = replace_guard(alloc, standing, &c.guard)?;
    let body = replace_term(alloc, standing, &c.body)?;
    Ok(Case {
        pattern,
        guard,
        body,
    })
}

#[cycle(replace_term)]
#[tactic(auto, using(crate::proofs::Sizes::parts))]
fn replace_cases(alloc: Global, standing: &Standing, cs: &[Case]) -> Result<Vec<Case>, Stop>
    ensures { Gives (λ ds. cases_of ds.items) result (replaced_cases (replacement_of standing.now) (cases_of cs.now)) }
{
    let mut replaced = Vec::new(alloc);
    for c in cs {
        replaced.push(replace_case(alloc, standing, c)?)?;
    }
    Ok(replaced)
}

fn replace_definition(
    alloc: Global,
    standing: &Standing,
    d: &Definition,
) -> Result<Definition, Stop>
    ensures { Gives (λ e. e) result (spec.replaced_definition (replacement_of standing.now) d.now) }
{
    let signature = replace_signature(alloc, standing, &d.signature)?;
    let body = replace_term(alloc, standing, &d.body)?;
    Ok(Definition { signature, body })
}

fn replace_fields(
    alloc: Global,
    standing: &Standing,
    ctors: &[Vec<Ty>],
) -> Result<Vec<Vec<Ty>>, Stop>
    ensures { Gives (λ cs. fields_of cs.items) result (replaced_fields (replacement_of standing.now) (fields_of ctors.now)) }
{
    let mut replaced = Vec::new(alloc);
    for fields in ctors {
        replaced.push(replace_types(alloc, standing, fields)?)?;
    }
    Ok(replaced)
}

fn replace_declaration(alloc: Global, standing: &Standing, d: &Decl) -> Result<Decl, Stop>
    ensures { Gives (λ e. e) result (spec.replaced_declaration (replacement_of standing.now) d.now) }
{
    let tag = copy_tag(alloc, &d.tag)?;
    let ctors = replace_fields(alloc, standing, &d.ctors)?;
    Ok(Decl {
        tag,
        params: d.params,
        ctors,
    })
}

fn replace_item(alloc: Global, standing: &Standing, item: &Item) -> Result<Item, Stop>
    ensures { Gives (λ i. i) result (replaced (replacement_of standing.now) item.now) }
{
    match item {
        Item::Term(definition) => {
            let definition = replace_definition(alloc, standing, definition)?;
            Ok(Item::Term(definition))
        }
        Item::Kind(declaration) => {
            let declaration = replace_declaration(alloc, standing, declaration)?;
            Ok(Item::Kind(declaration))
        }
    }
}

fn replace(alloc: Global, standing: &Standing, item: &Item) -> Result<Option<Item>, Fault>
    ensures item { IfOk result (λ found. found ≡ replaced (replacement_of standing.now) item.now) }
    ensures err { IfErr result (λ fault. fault ≡ faults.Memory) }
{
    match replace_item(alloc, standing, item) {
        Ok(item) => Ok(Some(item)),
        Err(Stop::Gone) => Ok(None),
        Err(Stop::Memory) => Err(Fault::Memory),
    }
}

/// The item with each stored reference replaced by its image; none where an image is `Gone`, or where a
/// constructor in a pattern has an image that is no constructor.
pub fn rewrite(alloc: Global, item: &Item, map: &RefMap) -> Result<Option<Item>, Fault>
    ensures item { IfOk result (λ found. found ≡ rewritten map.now item.now) }
    ensures err { IfErr result (λ fault. fault ≡ faults.Memory) }
{
    replace(alloc, &Standing::Images(map), item)
}

/// The item with each member of its component replaced by what stands for it in a list; none where the
/// list is too short, or where what stands for a declaration has no constructors.
pub fn with_members(alloc: Global, item: &Item, members: &[Target]) -> Result<Option<Item>, Fault>
    ensures item { IfOk result (λ found. found ≡ replaced (by_members members.now) item.now) }
    ensures err { IfErr result (λ fault. fault ≡ faults.Memory) }
{
    replace(alloc, &Standing::Members(members), item)
}

/// The item with the references of its component's members as members again: a reference that stands in a
/// list becomes the member with the number of its first place there, and a constructor of one that of the
/// member.
pub fn with_own(alloc: Global, item: &Item, own: &[Ref]) -> Result<Item, Fault>
    requires { length own.now < 2 ^ 32 }
    ensures item { IfOk result (λ found. replaced (by_references own.now) item.now ≡ Some found) }
    ensures err { IfErr result (λ fault. fault ≡ faults.Memory) }
{
    let numbering = Numbering::new(alloc, own)?;
    let found = replace(alloc, &Standing::References(&numbering), item)?;
    Ok(found.unwrap())
}
