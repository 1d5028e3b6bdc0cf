//! The checks of definitions and of declarations.
ghost use Rattle.std.specs.Prelude.{◌≡◌, ◌↔◌, ◌<◌, ◌^◌, length, All, MatchResult, IsOk, None, Some};
ghost use Rattle.uc_tree.specs.declared.item.Item.TheVariants as item;
ghost use Rattle.uc_tree.specs.Nodes.{nodes_of};
ghost use Rattle.uc_kinds.specs.Faults.{item_fault, definition_fault, decls_fault, arity_among};
ghost use Rattle.uc_kinds.specs.Flaws.{item_flaws};
ghost use Rattle.uc_kinds.specs.Walks.{walked};
ghost use Rattle.uc_kinds.specs.WellFormed.{IsWellFormedDefinition, AreWellFormedDecls};

use crate::among::Among;
use crate::flaw::Flawed;
use crate::walk_terms::walk_term;
use crate::walk_types::{walk_fields, walk_signature};
use uc_base::Fault;
use uc_tree::{Arities, Decl, Definition};

#[tactic(auto, using(crate::proofs::Walking::walking))]
fn walk_definition<A: Arities>(arities: &A, of: &Definition) -> Result<u32, Flawed>
    requires { length (item_flaws (A.arity_of arities.now) (item.Term of.now)) < 2 ^ 32 }
    ensures { result ≡ walked 0 (item_flaws (A.arity_of arities.now) (item.Term of.now)) }
{
    let passed = walk_signature(arities, &of.signature, 0)?;
    walk_term(arities, &of.body, passed)
}

/// The types that are written in a definition. Its spots are of member 0.
pub fn check_definition<A: Arities>(of: &Definition, known: &A) -> Result<(), Fault>
    requires { length (nodes_of (item.Term of.now)) < 2 ^ 32 }
    ensures fault { MatchResult result (λ _. definition_fault (A.arity_of known.now) of.now ≡ None) (λ fault. definition_fault (A.arity_of known.now) of.now ≡ Some fault) }
    ensures well_formed { IsOk result ↔ IsWellFormedDefinition (A.arity_of known.now) of.now }
{
    match walk_definition(known, of) {
        Ok(_) => Ok(()),
        Err(flawed) => Err(flawed.fault(0)),
    }
}

#[tactic(auto, using(crate::proofs::Walking::walking))]
fn walk_decl<A: Arities>(arities: &A, of: &Decl) -> Result<u32, Flawed>
    requires { length (item_flaws (A.arity_of arities.now) (item.Kind of.now)) < 2 ^ 32 }
    ensures { result ≡ walked 0 (item_flaws (A.arity_of arities.now) (item.Kind of.now)) }
{
    walk_fields(arities, &of.ctors, 0)
}

fn check_decl<A: Arities>(arities: &A, of: &Decl, member: u32) -> Result<(), Fault>
    requires { length (nodes_of (item.Kind of.now)) < 2 ^ 32 }
    ensures { MatchResult result (λ _. item_fault (A.arity_of arities.now) member (item.Kind of.now) ≡ None) (λ fault. item_fault (A.arity_of arities.now) member (item.Kind of.now) ≡ Some fault) }
{
    match walk_decl(arities, of) {
        Ok(_) => Ok(()),
        Err(flawed) => Err(flawed.fault(member)),
    }
}

/// The fields of declarations that may name one another: the k-th is the own target `k`.
pub fn check_decls<A: Arities>(decls: &[Decl], known: &A) -> Result<(), Fault>
    requires few { length decls.now < 2 ^ 32 }
    requires small { All (λ d. length (nodes_of (item.Kind d)) < 2 ^ 32) decls.now }
    ensures fault { MatchResult result (λ _. decls_fault (A.arity_of known.now) decls.now ≡ None) (λ fault. decls_fault (A.arity_of known.now) decls.now ≡ Some fault) }
    ensures well_formed { IsOk result ↔ AreWellFormedDecls (arity_among decls.now (A.arity_of known.now)) decls.now }
{
    let among = Among { decls, known };
    for (member, decl) in decls.iter().enumerate() {
        check_decl(&among, decl, member as u32)?;
    }
    Ok(())
}
