//! What is in scope.
ghost use Rattle.std.specs.Prelude.{◌≡◌, [], ◌∷◌, ◌++◌, map, reverse, drop, Some, IfOk, OnOk};
ghost use Rattle.std.specs.List.{position_from};
ghost use Rattle.std.specs.Option.{option_map, option_copied};
ghost use Rattle.uc_meaning.specs.ExprMeanings.{Scope as PlainScope, under, with_using, in_block, param_binder, is_binder_of, body_scope};
ghost use Rattle.uc_meaning.specs.Programs.{file_scope};
ghost use Rattle.uc_meaning.specs.Results.{Gives};
ghost use Rattle.uc_meaning.specs.TypeMeanings.{signature_meaning};
ghost use Rattle.uc_meaning.specs.TypeMeanings as types;
ghost use Rattle.uc_signatures.specs.PlacedViews.{placed_of};
ghost use Rattle.uc_bodies.specs.BodyViews.{signed_of, listed, without_binders, without_block};

use crate::params::Params;
use crate::signed::Signed;
use std::alloc::{AllocError, Global};
use std::marker::Model;
use uc_base::{Bytes, Fault};
use uc_meaning::{Meanings, Usings};
use uc_scratch::{TypeExpr, Written, WrittenNames};
use uc_signatures::{LocalNames, Placed, TypeVariables, front_of_signature, resolve_signature};
use uc_tree::Ty;

/// What is in scope: local binders, type variables and `use` clauses. Contracts see the `Scope` of
/// `specs/ExprMeanings.antt` of `uc_meaning`.
#[derive(Drop)]
pub struct Locals<'a> {
    binders: LocalNames,
    variables: TypeVariables,
    usings: Usings<'a>,
}

impl<'a> Model for Locals<'a> {
    ghost use Rattle.uc_meaning.specs.ExprMeanings.{Scope};

    ghost Value = { Scope };

    ghost view = { λ l. record { binders = l.binders; variables = l.variables; usings = l.usings } };
}

fn text_of<'a>(name: Option<&'a Written>) -> Option<&'a [u8]>
    ensures { option_copied result ≡ option_map (λ w. w.text) (option_copied name.entry) }
{
    match name {
        None => None,
        Some(name) => Some(name.text.as_slice()),
    }
}

/// Enters the names of a pattern.
fn enter_all(names: &WrittenNames, binders: &mut LocalNames) -> Result<(), AllocError>
    ensures { OnOk result (binders.new ≡ reverse (map (λ w. Some w.text) names.now) ++ binders.old) }
{
    for number in 0..names.len() {
        binders.push(text_of(names.get(number)))?;
    }
    Ok(())
}

/// Leaves so many binders.
fn leave_all(binders: &mut LocalNames, count: usize)
    ensures { binders.new ≡ drop count binders.old }
{
    for _ in 0..count {
        binders.pop();
    }
}

impl<'a> Locals<'a> {
    /// The scope at the front of a file: one block.
    pub fn new(alloc: Global) -> Result<Locals<'a>, AllocError>
        ensures { IfOk result (λ locals. locals ≡ file_scope) }
    {
        let mut usings = Usings::new(alloc);
        usings.enter_block()?;
        Ok(Locals {
            binders: LocalNames::new(alloc),
            variables: TypeVariables::new(alloc),
            usings,
        })
    }

    /// The `use` clauses.
    pub fn usings(&self) -> &Usings<'a>
        ensures { result.now ≡ self.now.usings }
    {
        &self.usings
    }

    /// The innermost binder of a name: how many binders stand inside it.
    pub fn find(&self, text: &[u8]) -> Option<u32>
        ensures { result ≡ position_from (is_binder_of text.now) 0 self.now.binders }
    {
        self.binders.find(text)
    }

    /// Adds a `use` clause to the innermost block.
    pub fn add_using(&mut self, path: &'a Written, names: &'a [Written]) -> Result<(), AllocError>
        ensures { OnOk result (self.new ≡ with_using path.now names.now self.old) }
    {
        self.usings.add(path, names)?;
        Ok(())
    }

    /// Enters one binder.
    pub fn enter(&mut self, name: Option<&[u8]>) -> Result<(), AllocError>
        ensures { OnOk result (self.new ≡ under (option_copied name.entry ∷ []) self.old) }
    {
        self.binders.push(name)
    }

    pub fn enter_params(&mut self, params: Params) -> Result<(), AllocError>
        ensures { OnOk result (self.new ≡ under (map param_binder (listed params.entry)) self.old) }
    {
        params.enter(&mut self.binders)
    }

    /// Enters the names of a pattern.
    pub fn enter_names(&mut self, names: &WrittenNames) -> Result<(), AllocError>
        ensures { OnOk result (self.new ≡ under (map (λ w. Some w.text) names.now) self.old) }
    {
        enter_all(names, &mut self.binders)
    }

    /// Leaves so many binders.
    pub fn leave(&mut self, count: usize)
        ensures { self.new ≡ without_binders count self.old }
    {
        leave_all(&mut self.binders, count);
    }

    pub fn enter_block(&mut self) -> Result<(), AllocError>
        ensures { OnOk result (self.new ≡ in_block self.old) }
    {
        self.usings.enter_block()
    }

    pub fn leave_block(&mut self)
        ensures { self.new ≡ without_block self.old }
    {
        self.usings.leave_block();
    }

    /// Enters the quantifiers at the front of a signature.
    #[tactic(auto, unfolding(uc_meaning::specs::ExprMeanings::body_scope))]
    pub fn enter_front(&mut self, signed: &Option<Signed>) -> Result<(), AllocError>
        ensures { OnOk result (self.new ≡ body_scope (option_map signed_of signed.now) self.old) }
    {
        match signed {
            None => Ok(()),
            Some(signed) => self.variables.push_names(&signed.front),
        }
    }

    /// Leaves them again.
    #[tactic(auto, unfolding(uc_meaning::specs::ExprMeanings::body_scope))]
    pub fn leave_front(&mut self, signed: &Option<Signed>)
        ensures { (scope : PlainScope)
            → self.old ≡ body_scope (option_map signed_of signed.now) scope → self.new ≡ scope }
    {
        match signed {
            None => {}
            Some(signed) => self.variables.leave(signed.front.len()),
        }
    }

    /// The type of a signature or an annotation.
    pub fn signature<M: Meanings>(
        &mut self,
        alloc: Global,
        meanings: &M,
        t: &TypeExpr,
    ) -> Result<Placed<Ty>, Fault>
        ensures value { Gives placed_of result
            (signature_meaning (M.known meanings.now) self.old.usings self.old.variables t.now) }
        ensures kept { OnOk result (self.new ≡ self.old) }
    {
        resolve_signature(alloc, meanings, &self.usings, &mut self.variables, t)
    }

    /// The quantifiers at the front of a signature, those that are put there first.
    pub fn front(&self, alloc: Global, t: &TypeExpr) -> Result<Vec<Bytes>, AllocError>
        ensures { IfOk result (λ front. front.items ≡ types.front_of_signature self.now.variables t.now) }
    {
        front_of_signature(alloc, &self.variables, t)
    }
}
