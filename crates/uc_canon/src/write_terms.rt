//! Terms as canonical text.
ghost use Rattle.std.specs.Prelude.{◌≡◌, ◌∷◌, ◌++◌, OnOk};
ghost use Rattle.uc_tree.specs.Terms.{terms_of};
ghost use Rattle.uc_tree.specs.TermViews.{cases_of};
ghost use Rattle.uc_canon.specs.Spelling.{link_text, term_text, counted_terms, counted_cases, case_text};

use crate::write_basics::{write_literal, write_number, write_tag};
use crate::write_patterns::write_pattern;
use crate::write_types::{write_signature, write_type};
use std::alloc::AllocError;
use uc_base::Ref;
use uc_tree::{Case, Target, Term, TermNode};

fn write_link(target: &Target, out: &mut Vec<u8>) -> Result<(), AllocError>
    ensures { OnOk result (out.new.items ≡ out.old.items ++ link_text target.now) }
{
    match target {
        Target::Stored(Ref::Builtin(n)) => {
            out.push(b'r')?;
            out.push(b'b')?;
            write_number(u64::from(*n), out)
        }
        Target::Stored(Ref::Def(hash, n)) => {
            out.push(b'r')?;
            out.push(b'h')?;
            hash.append_text(out)?;
            write_number(u64::from(*n), out)
        }
        Target::Stored(Ref::Ctor(hash, n, ctor)) => {
            out.push(b'k')?;
            hash.append_text(out)?;
            write_number(u64::from(*n), out)?;
            write_number(u64::from(*ctor), out)
        }
        Target::Own(n) => {
            out.push(b'm')?;
            write_number(u64::from(*n), out)
        }
        Target::OwnCtor(_, _) => Ok(()),
    }
}

#[cycle(write_term)]
#[tactic(auto, using(crate::proofs::Counts::parts))]
pub(crate) fn write_term(term: &Term, out: &mut Vec<u8>) -> Result<(), AllocError>
    ensures { OnOk result (out.new.items ≡ out.old.items ++ term_text term.now) }
{
    match &term.node {
        TermNode::Var(n) => {
            out.push(b'v')?;
            write_number(u64::from(*n), out)
        }
        TermNode::Literal(literal) => write_literal(literal, out),
        TermNode::Unit => write_tag(b'e', out),
        TermNode::Link(x) => write_link(x, out),
        TermNode::Lambda(a) => write_tagged(b'l', a, out),
        TermNode::Apply(a, b) => write_pair(b'a', a, b, out),
        TermNode::Annotated(a, ty) => {
            write_tagged(b's', a, out)?;
            write_type(ty, out)
        }
        TermNode::Tuple(ts) => write_listed(b'p', ts, out),
        TermNode::List(ts) => write_listed(b'g', ts, out),
        TermNode::If(a, b, c) => {
            write_pair(b'f', a, b, out)?;
            write_term(c, out)
        }
        TermNode::And(a, b) => write_pair(b'w', a, b, out),
        TermNode::Or(a, b) => write_pair(b'o', a, b, out),
        TermNode::Let(ty, a, b) => {
            out.push(b'd')?;
            write_signature(ty, out)?;
            write_term(a, out)?;
            write_term(b, out)
        }
        TermNode::Match(a, cs) => {
            write_tagged(b'j', a, out)?;
            write_cases(cs, out)
        }
    }
}

/// Writes a tag, and then a term.
#[cycle(write_term)]
#[tactic(auto, using(crate::proofs::Counts::parts))]
fn write_tagged(tag: u8, term: &Term, out: &mut Vec<u8>) -> Result<(), AllocError>
    ensures { OnOk result (out.new.items ≡ out.old.items ++ tag ∷ term_text term.now) }
{
    out.push(tag)?;
    write_term(term, out)
}

/// Writes a tag, and then two terms.
#[cycle(write_term)]
#[tactic(auto, using(crate::proofs::Counts::parts))]
fn write_pair(tag: u8, first: &Term, second: &Term, out: &mut Vec<u8>) -> Result<(), AllocError>
    ensures { OnOk result (out.new.items ≡ out.old.items ++ tag ∷ (term_text first.now ++ term_text second.now)) }
{
    out.push(tag)?;
    write_term(first, out)?;
    write_term(second, out)
}

/// Writes a tag, and then how many terms and each.
#[cycle(write_term)]
#[tactic(auto, using(crate::proofs::Counts::parts))]
fn write_listed(tag: u8, terms: &[Term], out: &mut Vec<u8>) -> Result<(), AllocError>
    ensures { OnOk result (out.new.items ≡ out.old.items ++ tag ∷ counted_terms (terms_of terms.now)) }
{
    out.push(tag)?;
    write_terms(terms, out)
}

#[cycle(write_term)]
#[tactic(auto, using(crate::proofs::Counts::parts))]
fn write_terms(terms: &[Term], out: &mut Vec<u8>) -> Result<(), AllocError>
    ensures { OnOk result (out.new.items ≡ out.old.items ++ counted_terms (terms_of terms.now)) }
{
    write_number(terms.len() as u64, out)?;
    for term in terms {
        write_term(term, out)?;
    }
    Ok(())
}

#[cycle(write_term)]
#[tactic(auto, using(crate::proofs::Counts::parts))]
fn write_case(case: &Case, out: &mut Vec<u8>) -> Result<(), AllocError>
    ensures { OnOk result (out.new.items ≡ out.old.items ++ case_text case.now.pattern case.now.guard case.now.body) }
{
    write_pattern(&case.pattern, out)?;
    match &case.guard {
        None => {
            out.push(b'-')?;
            write_term(&case.body, out)
        }
        Some(guard) => {
            out.push(b'|')?;
            write_term(guard, out)?;
            write_term(&case.body, out)
        }
    }
}

#[cycle(write_term)]
#[tactic(auto, using(crate::proofs::Counts::parts))]
fn write_cases(cases: &[Case], out: &mut Vec<u8>) -> Result<(), AllocError>
    ensures { OnOk result (out.new.items ≡ out.old.items ++ counted_cases (cases_of cases.now)) }
{
    write_number(cases.len() as u64, out)?;
    for case in cases {
        write_case(case, out)?;
    }
    Ok(())
}
