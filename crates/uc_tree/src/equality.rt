//! Whether two trees are the same.
ghost use Rattle.std.specs.Prelude.{◌≡◌, ◌↔◌, IsTrue};
ghost use Rattle.uc_tree.specs.Declarations.{fields_of};
ghost use Rattle.uc_tree.specs.Types.{tys_of};
ghost use Rattle.uc_tree.specs.Patterns.{patterns_of};
ghost use Rattle.uc_tree.specs.Terms.{terms_of};
ghost use Rattle.uc_tree.specs.TermViews.{cases_of};

use crate::declaration::Decl;
use crate::definition::Definition;
use crate::item::Item;
use crate::literal::Literal;
use crate::pattern::{Pattern, PatternNode};
use crate::term::{Case, Term, TermNode};
use crate::ty::{Ty, TyNode};
use uc_base::Bytes;

#[cycle(same_type)]
#[tactic(auto, using(crate::proofs::Sizes::parts))]
pub fn same_type(t: &Ty, u: &Ty) -> bool
    ensures { IsTrue result ↔ (t.now ≡ u.now) }
{
    match (&t.node, &u.node) {
        (TyNode::Var(m), TyNode::Var(n)) => *m == *n,
        (TyNode::Forall(a), TyNode::Forall(b)) => same_type(a, b),
        (TyNode::Arrow(a, b), TyNode::Arrow(c, d)) => same_type(a, c) && same_type(b, d),
        (TyNode::Unit, TyNode::Unit) => true,
        (TyNode::Tuple(ts), TyNode::Tuple(us)) => same_types(ts, us),
        (TyNode::Data(x, ts), TyNode::Data(y, us)) => *x == *y && same_types(ts, us),
        _ => false,
    }
}

#[cycle(same_type)]
#[tactic(auto, using(crate::proofs::Sizes::parts))]
fn same_types(ts: &[Ty], us: &[Ty]) -> bool
    ensures { IsTrue result ↔ (tys_of ts.now ≡ tys_of us.now) }
{
    if ts.len() != us.len() {
        return false;
    }
    for i in 0..ts.len() {
        if !same_type(&ts[i], &us[i]) {
            return false;
        }
    }
    true
}

fn same_signature(s: &Option<Ty>, t: &Option<Ty>) -> bool
    ensures { IsTrue result ↔ (s.now ≡ t.now) }
{
    match s {
        None => t.is_none(),
        Some(a) => match t {
            None => false,
            Some(b) => same_type(a, b),
        },
    }
}

pub fn same_literal(l: &Literal, m: &Literal) -> bool
    ensures { IsTrue result ↔ (l.now ≡ m.now) }
{
    match (l, m) {
        (Literal::Nat(a), Literal::Nat(b)) => *a == *b,
        (Literal::Int(a), Literal::Int(b)) => *a == *b,
        (Literal::Boolean(a), Literal::Boolean(b)) => *a == *b,
        (Literal::Text(a), Literal::Text(b)) => a.as_slice() == b.as_slice(),
        (Literal::Char(a), Literal::Char(b)) => *a == *b,
        _ => false,
    }
}

#[cycle(same_pattern)]
#[tactic(auto, using(crate::proofs::Sizes::parts))]
pub fn same_pattern(p: &Pattern, q: &Pattern) -> bool
    ensures { IsTrue result ↔ (p.now ≡ q.now) }
{
    match (&p.node, &q.node) {
        (PatternNode::Any, PatternNode::Any) => true,
        (PatternNode::Var, PatternNode::Var) => true,
        (PatternNode::As(a), PatternNode::As(b)) => same_pattern(a, b),
        (PatternNode::Literal(l), PatternNode::Literal(m)) => same_literal(l, m),
        (PatternNode::Unit, PatternNode::Unit) => true,
        (PatternNode::Tuple(ps), PatternNode::Tuple(qs)) => same_patterns(ps, qs),
        (PatternNode::List(ps), PatternNode::List(qs)) => same_patterns(ps, qs),
        (PatternNode::Ctor(x, ps), PatternNode::Ctor(y, qs)) => *x == *y && same_patterns(ps, qs),
        (PatternNode::Cons(a, b), PatternNode::Cons(c, d)) => {
            same_pattern(a, c) && same_pattern(b, d)
        }
        (PatternNode::Snoc(a, b), PatternNode::Snoc(c, d)) => {
            same_pattern(a, c) && same_pattern(b, d)
        }
        _ => false,
    }
}

#[cycle(same_pattern)]
#[tactic(auto, using(crate::proofs::Sizes::parts))]
fn same_patterns(ps: &[Pattern], qs: &[Pattern]) -> bool
    ensures { IsTrue result ↔ (patterns_of ps.now ≡ patterns_of qs.now) }
{
    if ps.len() != qs.len() {
        return false;
    }
    for i in 0..ps.len() {
        if !same_pattern(&ps[i], &qs[i]) {
            return false;
        }
    }
    true
}

#[cycle(same_term)]
#[tactic(auto, using(crate::proofs::Sizes::parts))]
pub fn same_term(t: &Term, u: &Term) -> bool
    ensures { IsTrue result ↔ (t.now ≡ u.now) }
{
    match (&t.node, &u.node) {
        (TermNode::Var(m), TermNode::Var(n)) => *m == *n,
        (TermNode::Literal(l), TermNode::Literal(m)) => same_literal(l, m),
        (TermNode::Unit, TermNode::Unit) => true,
        (TermNode::Link(x), TermNode::Link(y)) => *x == *y,
        (TermNode::Lambda(a), TermNode::Lambda(b)) => same_term(a, b),
        (TermNode::Apply(a, b), TermNode::Apply(c, d)) => same_term(a, c) && same_term(b, d),
        (TermNode::Annotated(a, t), TermNode::Annotated(b, u)) => same_term(a, b)
            && same_type(t, u),
        (TermNode::Tuple(ts), TermNode::Tuple(us)) => same_terms(ts, us),
        (TermNode::List(ts), TermNode::List(us)) => same_terms(ts, us),
        (TermNode::If(a, b, c), TermNode::If(d, e, f)) => {
            same_term(a, d) && same_term(b, e) && same_term(c, f)
        }
        (TermNode::And(a, b), TermNode::And(c, d)) => same_term(a, c) && same_term(b, d),
        (TermNode::Or(a, b), TermNode::Or(c, d)) => same_term(a, c) && same_term(b, d),
        (TermNode::Let(s, a, b), TermNode::Let(t, c, d)) => {
            same_signature(s, t) && same_term(a, c) && same_term(b, d)
        }
        (TermNode::Match(a, cs), TermNode::Match(b, ds)) => same_term(a, b) && same_cases(cs, ds),
        _ => false,
    }
}

#[cycle(same_term)]
#[tactic(auto, using(crate::proofs::Sizes::parts))]
fn same_terms(ts: &[Term], us: &[Term]) -> bool
    ensures { IsTrue result ↔ (terms_of ts.now ≡ terms_of us.now) }
{
    if ts.len() != us.len() {
        return false;
    }
    for i in 0..ts.len() {
        if !same_term(&ts[i], &us[i]) {
            return false;
        }
    }
    true
}

#[cycle(same_term)]
#[tactic(auto, using(crate::proofs::Sizes::parts))]
fn same_guard(g: &Option<Term>, h: &Option<Term>) -> bool
    ensures { IsTrue result ↔ (g.now ≡ h.now) }
{
    match g {
        None => h.is_none(),
        Some(a) => match h {
            None => false,
            Some(b) => same_term(a, b),
        },
    }
}

#[cycle(same_term)]
#[tactic(auto, using(crate::proofs::Sizes::parts))]
fn same_case(c: &Case, d: &Case) -> bool
    ensures { IsTrue result ↔ (c.now ≡ d.now) }
{
    same_pattern(&c.pattern, &d.pattern)
        && same_guard(&c.guard, &d.guard)
        && same_term(&c.body, &d.body)
}

#[cycle(same_term)]
#[tactic(auto, using(crate::proofs::Sizes::parts))]
fn same_cases(cs: &[Case], ds: &[Case]) -> bool
    ensures { IsTrue result ↔ (cases_of cs.now ≡ cases_of ds.now) }
{
    if cs.len() != ds.len() {
        return false;
    }
    for i in 0..cs.len() {
        if !same_case(&cs[i], &ds[i]) {
            return false;
        }
    }
    true
}

fn same_definition(d: &Definition, e: &Definition) -> bool
    ensures { IsTrue result ↔ (d.now ≡ e.now) }
{
    same_signature(&d.signature, &e.signature) && same_term(&d.body, &e.body)
}

fn same_tag(s: &Option<Bytes>, t: &Option<Bytes>) -> bool
    ensures { IsTrue result ↔ (s.now ≡ t.now) }
{
    match s {
        None => t.is_none(),
        Some(a) => match t {
            None => false,
            Some(b) => a.as_slice() == b.as_slice(),
        },
    }
}

fn same_fields(cs: &[Vec<Ty>], ds: &[Vec<Ty>]) -> bool
    ensures { IsTrue result ↔ (fields_of cs.now ≡ fields_of ds.now) }
{
    if cs.len() != ds.len() {
        return false;
    }
    for i in 0..cs.len() {
        if !same_types(&cs[i], &ds[i]) {
            return false;
        }
    }
    true
}

fn same_declaration(d: &Decl, e: &Decl) -> bool
    ensures { IsTrue result ↔ (d.now ≡ e.now) }
{
    same_tag(&d.tag, &e.tag) && d.params == e.params && same_fields(&d.ctors, &e.ctors)
}

fn same_item(i: &Item, j: &Item) -> bool
    ensures { IsTrue result ↔ (i.now ≡ j.now) }
{
    match (i, j) {
        (Item::Term(d), Item::Term(e)) => same_definition(d, e),
        (Item::Kind(d), Item::Kind(e)) => same_declaration(d, e),
        _ => false,
    }
}

impl PartialEq for Literal {
    ghost use Rattle.std.specs.Cmp.{partial_equiv_from_equiv};
    ghost use Rattle.uc_tree.specs.Literals.{coded_literal};
    ghost use Rattle.uc_tree.specs.Same.{same_code, same_code_equiv};

    ghost eq = { same_code coded_literal };

    ghost laws = { partial_equiv_from_equiv (same_code_equiv coded_literal) };

    fn eq(&self, other: &Literal) -> bool {
        same_literal(self, other)
    }
}

impl Eq for Literal {
    ghost use Rattle.uc_tree.specs.Literals.{coded_literal};
    ghost use Rattle.uc_tree.specs.Same.{same_code_equiv};

    ghost laws = { same_code_equiv coded_literal };
}

impl PartialEq for Ty {
    ghost use Rattle.std.specs.Cmp.{partial_equiv_from_equiv};
    ghost use Rattle.uc_tree.specs.TypeCodes.{coded_ty};
    ghost use Rattle.uc_tree.specs.Same.{same_code, same_code_equiv};

    ghost eq = { same_code coded_ty };

    ghost laws = { partial_equiv_from_equiv (same_code_equiv coded_ty) };

    fn eq(&self, other: &Ty) -> bool {
        same_type(self, other)
    }
}

impl Eq for Ty {
    ghost use Rattle.uc_tree.specs.TypeCodes.{coded_ty};
    ghost use Rattle.uc_tree.specs.Same.{same_code_equiv};

    ghost laws = { same_code_equiv coded_ty };
}

impl PartialEq for Pattern {
    ghost use Rattle.std.specs.Cmp.{partial_equiv_from_equiv};
    ghost use Rattle.uc_tree.specs.PatternCodes.{coded_pattern};
    ghost use Rattle.uc_tree.specs.Same.{same_code, same_code_equiv};

    ghost eq = { same_code coded_pattern };

    ghost laws = { partial_equiv_from_equiv (same_code_equiv coded_pattern) };

    fn eq(&self, other: &Pattern) -> bool {
        same_pattern(self, other)
    }
}

impl Eq for Pattern {
    ghost use Rattle.uc_tree.specs.PatternCodes.{coded_pattern};
    ghost use Rattle.uc_tree.specs.Same.{same_code_equiv};

    ghost laws = { same_code_equiv coded_pattern };
}

impl PartialEq for Term {
    ghost use Rattle.std.specs.Cmp.{partial_equiv_from_equiv};
    ghost use Rattle.uc_tree.specs.TermCodes.{coded_term};
    ghost use Rattle.uc_tree.specs.Same.{same_code, same_code_equiv};

    ghost eq = { same_code coded_term };

    ghost laws = { partial_equiv_from_equiv (same_code_equiv coded_term) };

    fn eq(&self, other: &Term) -> bool {
        same_term(self, other)
    }
}

impl Eq for Term {
    ghost use Rattle.uc_tree.specs.TermCodes.{coded_term};
    ghost use Rattle.uc_tree.specs.Same.{same_code_equiv};

    ghost laws = { same_code_equiv coded_term };
}

impl PartialEq for Definition {
    ghost use Rattle.std.specs.Cmp.{partial_equiv_from_equiv};
    ghost use Rattle.uc_tree.specs.Items.{coded_definition};
    ghost use Rattle.uc_tree.specs.Same.{same_code, same_code_equiv};

    ghost eq = { same_code coded_definition };

    ghost laws = { partial_equiv_from_equiv (same_code_equiv coded_definition) };

    fn eq(&self, other: &Definition) -> bool {
        same_definition(self, other)
    }
}

impl Eq for Definition {
    ghost use Rattle.uc_tree.specs.Items.{coded_definition};
    ghost use Rattle.uc_tree.specs.Same.{same_code_equiv};

    ghost laws = { same_code_equiv coded_definition };
}

impl PartialEq for Decl {
    ghost use Rattle.std.specs.Cmp.{partial_equiv_from_equiv};
    ghost use Rattle.uc_tree.specs.Declarations.{coded_decl};
    ghost use Rattle.uc_tree.specs.Same.{same_code, same_code_equiv};

    ghost eq = { same_code coded_decl };

    ghost laws = { partial_equiv_from_equiv (same_code_equiv coded_decl) };

    fn eq(&self, other: &Decl) -> bool {
        same_declaration(self, other)
    }
}

impl Eq for Decl {
    ghost use Rattle.uc_tree.specs.Declarations.{coded_decl};
    ghost use Rattle.uc_tree.specs.Same.{same_code_equiv};

    ghost laws = { same_code_equiv coded_decl };
}

impl PartialEq for Item {
    ghost use Rattle.std.specs.Cmp.{partial_equiv_from_equiv};
    ghost use Rattle.uc_tree.specs.Items.{coded_item};
    ghost use Rattle.uc_tree.specs.Same.{same_code, same_code_equiv};

    ghost eq = { same_code coded_item };

    ghost laws = { partial_equiv_from_equiv (same_code_equiv coded_item) };

    fn eq(&self, other: &Item) -> bool {
        same_item(self, other)
    }
}

impl Eq for Item {
    ghost use Rattle.uc_tree.specs.Items.{coded_item};
    ghost use Rattle.uc_tree.specs.Same.{same_code_equiv};

    ghost laws = { same_code_equiv coded_item };
}
