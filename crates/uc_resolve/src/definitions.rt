//! Definitions and watches.
ghost use Rattle.std.specs.Prelude.{◌≡◌, OnOk, IfOk};
ghost use Rattle.std.specs.Option.{option_map};
ghost use Rattle.uc_scratch.specs.NameFaults as faults;
ghost use Rattle.uc_meaning.specs.Programs as spec;
ghost use Rattle.uc_meaning.specs.Results.{Gives};
ghost use Rattle.uc_signatures.specs.PlacedViews.{placed_of};
ghost use Rattle.uc_bodies.specs.BodyViews.{signed_of, params_of};
ghost use Rattle.uc_resolve.specs.ItemMeanings.{binding_adds, watch_adds, Adds};
ghost use Rattle.uc_resolve.specs.ProgramViews.{draft_of};

use crate::draft::Draft;
use crate::names::{front_name, parse_name};
use std::alloc::{AllocError, Global};
use uc_base::Fault;
use uc_bodies::{Locals, Signed, resolve_bound, resolve_expr, signature_for};
use uc_meaning::Meanings;
use uc_scratch::{Binding, Watch};
use uc_signatures::Placed;
use uc_tree::{Definition, Term};

/// A definition behind its signature or none.
#[tactic(auto, unfolding(uc_meaning::specs::Programs::definition_of))]
fn definition_of(
    signed: Option<Signed>,
    body: Placed<Term>,
) -> Result<Placed<Definition>, AllocError>
    ensures { IfOk result
        (λ d. placed_of d ≡ spec.definition_of (option_map signed_of signed.entry) (placed_of body)) }
{
    match signed {
        None => Ok(Placed {
            tree: Definition {
                signature: None,
                body: body.tree,
            },
            places: body.places,
        }),
        Some(signed) => {
            let Placed { tree, mut places } = signed.type_of;
            places.append(body.places)?;
            Ok(Placed {
                tree: Definition {
                    signature: Some(tree),
                    body: body.tree,
                },
                places,
            })
        }
    }
}

/// The definition of a binding, behind the signature before it or none.
fn resolve_definition<'a, M: Meanings>(
    alloc: Global,
    meanings: &M,
    locals: &mut Locals<'a>,
    signed: Option<Signed<'a>>,
    binding: &'a Binding,
) -> Result<Placed<Definition>, Fault>
    ensures value { Gives placed_of result
        (spec.definition_meaning (M.known meanings.now) locals.old (option_map signed_of signed.entry)
        (faults.front_name binding.now.front) (params_of binding.now.front) binding.now.body) }
    ensures kept { OnOk result (locals.new ≡ locals.old) }
{
    let found = signature_for(signed, front_name(&binding.front));
    let body = resolve_bound(alloc, meanings, locals, &found, binding)?;
    Ok(definition_of(found, body)?)
}

/// Adds the definition of a binding, behind the signature before it or none.
pub fn add_binding<'a, M: Meanings>(
    alloc: Global,
    meanings: &M,
    locals: &mut Locals<'a>,
    signed: Option<Signed<'a>>,
    binding: &'a Binding,
    draft: &mut Draft,
) -> Result<(), Fault>
    ensures added { Adds (draft_of draft.old) (draft_of draft.new) result
        (binding_adds (M.known meanings.now) locals.old (option_map signed_of signed.entry)
        binding.now.front binding.now.body) }
    ensures kept { OnOk result (locals.new ≡ locals.old) }
{
    let written = front_name(&binding.front);
    let name = parse_name(alloc, written.text.as_slice())?;
    let definition = resolve_definition(alloc, meanings, locals, signed, binding)?;
    draft.add_term(name, written.place, definition)?;
    Ok(())
}

/// Adds a watch.
pub fn add_watch<'a, M: Meanings>(
    alloc: Global,
    meanings: &M,
    locals: &mut Locals<'a>,
    watch: &'a Watch,
    draft: &mut Draft,
) -> Result<(), Fault>
    ensures added { Adds (draft_of draft.old) (draft_of draft.new) result
        (watch_adds (M.known meanings.now) locals.old watch.now.place watch.now.of) }
    ensures kept { OnOk result (locals.new ≡ locals.old) }
{
    let term = resolve_expr(alloc, meanings, locals, &watch.of)?;
    draft.add_watch(watch.place, term)?;
    Ok(())
}
