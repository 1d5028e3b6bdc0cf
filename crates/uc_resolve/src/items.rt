//! The items of a file in turn.
ghost use Rattle.std.specs.Prelude.{◌≡◌, None, OnOk};
ghost use Rattle.uc_scratch.specs.FileViews.{item_of, items_of, declaration_of, binding_of};
ghost use Rattle.uc_meaning.specs.ExprMeanings.{with_using};
ghost use Rattle.uc_meaning.specs.Programs.{file_meaning};
ghost use Rattle.uc_meaning.specs.Results.{Gives};
ghost use Rattle.uc_resolve.specs.Passing.{Passes, signature_of, watch_of};
ghost use Rattle.uc_resolve.specs.ProgramViews.{draft_of};

use crate::declarations::add_declaration;
use crate::definitions::{add_binding, add_watch};
use crate::draft::Draft;
use crate::names::next_number;
use std::alloc::{AllocError, Global};
use uc_base::Fault;
use uc_bodies::{Locals, Signed, sign};
use uc_meaning::Meanings;
use uc_scratch::{Binding, Declaration, Item, Signature, Use, Watch};

/// What stands before an item: what is in scope, the signature right before it, and how many declared types.
#[derive(Drop)]
struct Before<'a> {
    locals: Locals<'a>,
    signed: Option<Signed<'a>>,
    kinds: u32,
}

impl<'a> Before<'a> {
    /// Puts a signature or none right before the next item.
    fn put_signature(&mut self, signed: Option<Signed<'a>>)
        ensures { self.new ≡ record self.old { signed = signed.entry } }
    {
        self.signed = signed;
    }
}

fn pass_use<'a>(before: &mut Before<'a>, clause: &'a Use) -> Result<(), AllocError>
    ensures { OnOk result (before.new
        ≡ record before.old { locals = with_using clause.now.path clause.now.names.items before.old.locals; signed = None }) }
{
    before.locals.add_using(&clause.path, &clause.names)?;
    before.put_signature(None);
    Ok(())
}

fn pass_declaration<'a, M: Meanings>(
    alloc: Global,
    meanings: &M,
    before: &mut Before<'a>,
    declaration: &Declaration,
    draft: &mut Draft,
) -> Result<(), Fault>
    ensures { Passes (M.known meanings.now) before.old before.new (draft_of draft.old) (draft_of draft.new)
        (declaration_of declaration.now) result }
{
    let number = before.kinds;
    before.kinds = next_number(number)?;
    before.put_signature(None);
    let usings = before.locals.usings();
    add_declaration(alloc, meanings, usings, number, declaration, draft)
}

fn pass_signature<'a, M: Meanings>(
    alloc: Global,
    meanings: &M,
    before: &mut Before<'a>,
    signature: &'a Signature,
    draft: &Draft,
) -> Result<(), Fault>
    ensures { Passes (M.known meanings.now) before.old before.new (draft_of draft.now) (draft_of draft.now)
        (signature_of signature.now) result }
{
    let signed = sign(alloc, meanings, &mut before.locals, signature)?;
    before.put_signature(Some(signed));
    Ok(())
}

fn pass_binding<'a, M: Meanings>(
    alloc: Global,
    meanings: &M,
    before: &mut Before<'a>,
    binding: &'a Binding,
    draft: &mut Draft,
) -> Result<(), Fault>
    ensures { Passes (M.known meanings.now) before.old before.new (draft_of draft.old) (draft_of draft.new)
        (binding_of binding.now.front binding.now.body) result }
{
    let signed = before.signed.take();
    add_binding(alloc, meanings, &mut before.locals, signed, binding, draft)
}

#[tactic(auto, using(crate::proofs::ItemSteps::item_steps))]
fn pass_watch<'a, M: Meanings>(
    alloc: Global,
    meanings: &M,
    before: &mut Before<'a>,
    watch: &'a Watch,
    draft: &mut Draft,
) -> Result<(), Fault>
    ensures { Passes (M.known meanings.now) before.old before.new (draft_of draft.old) (draft_of draft.new)
        (watch_of watch.now) result }
{
    add_watch(alloc, meanings, &mut before.locals, watch, draft)?;
    before.put_signature(None);
    Ok(())
}

/// Adds what an item means, and passes it.
fn pass_item<'a, M: Meanings>(
    alloc: Global,
    meanings: &M,
    before: &mut Before<'a>,
    item: &'a Item,
    draft: &mut Draft,
) -> Result<(), Fault>
    ensures { Passes (M.known meanings.now) before.old before.new (draft_of draft.old) (draft_of draft.new)
        (item_of item.now) result }
{
    match item {
        Item::Use(clause) => Ok(pass_use(before, clause)?),
        Item::Declaration(d) => pass_declaration(alloc, meanings, before, d, draft),
        Item::Signature(s) => pass_signature(alloc, meanings, before, s, draft),
        Item::Binding(b) => pass_binding(alloc, meanings, before, b, draft),
        Item::Watch(w) => pass_watch(alloc, meanings, before, w, draft),
    }
}

/// What the items of a file mean.
pub fn resolve_items<M: Meanings>(
    alloc: Global,
    meanings: &M,
    items: &[Item],
) -> Result<Draft, Fault>
    ensures { Gives draft_of result (file_meaning (M.known meanings.now) (items_of items.now)) }
{
    let mut before = Before {
        locals: Locals::new(alloc)?,
        signed: None,
        kinds: 0,
    };
    let mut draft = Draft::new(alloc);
    for item in items {
        pass_item(alloc, meanings, &mut before, item, &mut draft)?;
    }
    Ok(draft)
}
