//! Names of binders in scope.
ghost use Rattle.std.specs.Prelude.{◌≡◌, [], ◌∷◌, Some, drop, bytes_eq, IfOk, OnOk, OnErr};
ghost use Rattle.std.specs.Map.{lookup};
ghost use Rattle.std.specs.List.{position_from};
ghost use Rattle.std.specs.Option.{option_copied, IsSome};
ghost use Rattle.uc_meaning.specs.ExprMeanings.{is_binder_of};
ghost use Rattle.uc_signatures.specs.LocalViews.{places_of, place_in, HasAlso};
ghost use Rattle.uc_signatures.specs.PlacedViews.{named};

use std::alloc::{AllocError, Global};
use std::collections::BTreeMap;
use std::marker::Model;
use uc_base::Bytes;
use uc_scratch::Scope;

/// A binder in scope, and the place of the one of its name that it hides.
#[derive(Drop)]
struct Local {
    name: Option<Bytes>,
    shadowed: Option<u32>,
}

/// The names of binders in scope, of which some have none. Contracts see the innermost first.
#[derive(Drop)]
pub struct LocalNames {
    locals: Vec<Local>,
    /// The place of the innermost binder of each name, counted from the outermost binder.
    last: BTreeMap<Vec<u8>, Option<u32>>,
    alloc: Global,
}

impl Model for LocalNames {
    ghost use Rattle.std.specs.Prelude.{List, ℕ, Option};
    ghost use Rattle.uc_signatures.specs.LocalViews.{names_of, IsKept};

    ghost Value = { List (Option (List ℕ)) };

    ghost view = { λ l. names_of l.locals.items };

    ghost invariant = { λ l. IsKept l.locals.items l.last.entries };
}

/// The place of the innermost binder of a name.
fn place_of(last: &BTreeMap<Vec<u8>, Option<u32>>, text: &[u8]) -> Option<u32>
    ensures { result ≡ place_in (places_of last.now.entries) text.now }
{
    match last.get(text) {
        None => None,
        Some(place) => *place,
    }
}

fn owned(alloc: Global, text: &[u8]) -> Result<Vec<u8>, AllocError>
    ensures { IfOk result (λ owned. owned.items ≡ text.now) }
{
    text.to_vec(alloc)
}

fn owned_name(alloc: Global, name: Option<&[u8]>) -> Result<Option<Bytes>, AllocError>
    ensures { IfOk result (λ owned. owned ≡ option_copied name.entry) }
{
    match name {
        None => Ok(None),
        Some(text) => Ok(Some(Bytes::from_slice(alloc, text)?)),
    }
}

/// Notes the place of a new innermost binder of a name, and answers that of the one before.
fn put_place(
    alloc: Global,
    last: &mut BTreeMap<Vec<u8>, Option<u32>>,
    text: &[u8],
    place: u32,
) -> Result<Option<u32>, AllocError>
    ensures before { IfOk result (λ before. before ≡ place_in (places_of last.old.entries) text.now) }
    ensures noted { OnOk result (HasAlso text.now (Some place) (places_of last.old.entries) (places_of last.new.entries)) }
    ensures kept { OnErr result (last.new.entries ≡ last.old.entries) }
{
    match last.insert(owned(alloc, text)?, Some(place))? {
        None => Ok(None),
        Some(before) => Ok(before),
    }
}

/// Notes the place of the innermost binder of a name that is noted already.
fn set_place(last: &mut BTreeMap<Vec<u8>, Option<u32>>, text: &[u8], place: Option<u32>)
    requires { IsSome (lookup (bytes_eq text.now) (places_of last.old.entries)) }
    ensures { HasAlso text.now place (places_of last.old.entries) (places_of last.new.entries) }
{
    if let Some(noted) = last.get_mut(text) {
        *noted = place;
    }
}

impl LocalNames {
    pub fn new(alloc: Global) -> LocalNames
        ensures { result ≡ [] }
    {
        LocalNames {
            locals: Vec::new(alloc),
            last: BTreeMap::new(alloc),
            alloc,
        }
    }

    /// Enters a binder.
    pub fn push(&mut self, name: Option<&[u8]>) -> Result<(), AllocError>
        ensures entered { OnOk result (self.new ≡ option_copied name.entry ∷ self.old) }
        ensures kept { OnErr result (self.new ≡ self.old) }
    {
        if self.locals.len() >= u32::MAX as usize {
            return Err(AllocError);
        }
        let place = self.locals.len() as u32;
        self.locals.reserve(1)?;
        let name = owned_name(self.alloc, name)?;
        let shadowed = match &name {
            None => None,
            Some(text) => put_place(self.alloc, &mut self.last, text.as_slice(), place)?,
        };
        self.locals.push(Local { name, shadowed })?;
        Ok(())
    }

    /// Leaves the innermost binder.
    pub fn pop(&mut self)
        ensures { self.new ≡ drop 1 self.old }
    {
        if let Some(local) = self.locals.pop() {
            if let Some(text) = &local.name {
                set_place(&mut self.last, text.as_slice(), local.shadowed);
            }
        }
    }

    /// The names, the innermost first, without the binders that have none.
    pub fn named(&self, alloc: Global) -> Result<Scope<'_>, AllocError>
        ensures { IfOk result (λ scope. scope ≡ named self.now) }
    {
        let mut scope = Scope::new(alloc);
        let mut left = self.locals.len();
        while left > 0 {
            left -= 1;
            if let Some(name) = &self.locals[left].name {
                scope.push(name.as_slice())?;
            }
        }
        Ok(scope)
    }

    /// How far out the innermost binder of a name stands.
    pub fn find(&self, text: &[u8]) -> Option<u32>
        ensures { result ≡ position_from (is_binder_of text.now) 0 self.now }
    {
        match place_of(&self.last, text) {
            None => None,
            Some(place) => Some(self.locals.len() as u32 - 1 - place),
        }
    }
}
