//! The numbering of the members of a component, which gives the least text.
ghost use Rattle.std.specs.Prelude.{◌≡◌, ◌≢◌, ◌↔◌, ◌⊎◌, ℕ, List, ◌+◌, ◌<◌, ◌^◌, ◌++◌, [], length, map, slice_index, slice_get, option_and_then, IsTrue, IfOk, IfErr, IfSome, IfNone, OnOk};
ghost use Rattle.std.specs.Option.{option_map_or};
ghost use Rattle.uc_base.specs.declared.fault.Fault.TheVariants.{Memory};
ghost use Rattle.uc_tree.specs.Replacing.{by_members, replaced};
ghost use Rattle.uc_canon.specs.Members.{members_of, items_of, count_of, text_of};
ghost use Rattle.uc_canon.specs.Numbering.{IsOneComponent, IsArrangement, IsLeastText, IsNumbering, IsBefore, order_from, rows_of};
ghost use Rattle.uc_canon.specs.Starts.{IsTable, item_text, text_in, ComesBefore};

use crate::component::Component;
use crate::first_reach::Reach;
use crate::links::graph_of;
use crate::members::{items_of, write_head, write_item};
use crate::standing::{Standing, with_part};
use crate::write::write_component;
use std::alloc::Global;
use uc_base::Fault;
use uc_components::Graph;
use uc_tree::{Item, Target, with_members};

/// The text of a member with its own targets renumbered. Each of them has a number, so nothing is left out.
fn renumbered_text(alloc: Global, item: &Item, numbers: &[Target]) -> Result<Vec<u8>, Fault>
    ensures text { IfOk result (λ text. text.items ≡ option_map_or item_text (replaced (by_members numbers.now) item.now) []) }
    ensures err { IfErr result (λ fault. fault ≡ Memory) }
{
    let mut text = Vec::new(alloc);
    if let Some(renumbered) = with_members(alloc, item, numbers)? {
        write_item(&renumbered, &mut text)?;
    }
    Ok(text)
}

/// The text with the members in the order of a start, if it comes before the least one so far. It is given up with the
/// first member that puts it behind.
fn text_before(
    alloc: Global,
    of: &Component,
    items: &[Item],
    graph: &Graph,
    reach: &mut Reach,
    start: usize,
    known: Standing,
) -> Result<Option<Vec<u8>>, Fault>
    requires one { IsOneComponent (members_of of.now) }
    requires small { length graph.now < 2 ^ 32 }
    requires items { items.now ≡ items_of (members_of of.now) }
    requires graph { graph.now ≡ rows_of (members_of of.now) }
    requires start { start < length graph.now }
    requires number { reach.old.start ≡ start }
    requires table { IsTable (length graph.now) reach.old.start reach.old.starts.items reach.old.numbers.items }
    ensures some { IfOk result (λ found. IfSome found (λ text. text.items ≡ text_in (order_from (members_of of.now) start) (members_of of.now))) }
    ensures order { IfOk result (λ found. IfSome found (λ _. reach.new.order.items ≡ order_from (members_of of.now) start)) }
    ensures before { IfOk result (λ found. IfSome found (λ text. ComesBefore known.entry text.items)) }
    ensures none { IfOk result (λ found. IfNone found (ComesBefore known.entry (text_in (order_from (members_of of.now) start) (members_of of.now)) → ⊥)) }
    ensures number { reach.new.start ≡ start + 1 }
    ensures table { OnOk result (IsTable (length graph.now) reach.new.start reach.new.starts.items reach.new.numbers.items) }
    ensures err { IfErr result (λ fault. fault ≡ Memory) }
{
    reach.begin(graph.len(), start)?;
    let mut text = Vec::new(alloc);
    write_head(of, graph.len(), &mut text)?;
    let mut standing = with_part(known, &text);
    for place in 0..graph.len() {
        let member = reach.order[place] as usize;
        reach.add_links(graph, member)?;
        let part = renumbered_text(alloc, &items[member], &reach.numbers)?;
        standing = with_part(standing, &part);
        if let Standing::Greater = standing {
            return Ok(None);
        }
        text.extend_from_slice(&part)?;
    }
    match standing {
        Standing::Less => Ok(Some(text)),
        Standing::Same(rest) if !rest.is_empty() => Ok(Some(text)),
        _ => Ok(None),
    }
}

/// The least text so far, and the order that gives it; both are empty while there is none.
#[derive(Drop)]
struct Least {
    order: Vec<u32>,
    text: Vec<u8>,
}

impl Least {
    fn none(alloc: Global) -> Least
        ensures { result.order.items ≡ [] }
    {
        Least {
            order: Vec::new(alloc),
            text: Vec::new(alloc),
        }
    }

    /// How a text stands to it of which nothing is written yet.
    fn against(&self) -> Standing<'_>
        ensures { (text : List ℕ) → ComesBefore result text ↔ ((self.now.order.items ≡ []) ⊎ IsBefore text self.now.text.items) }
    {
        if self.order.is_empty() {
            Standing::Less
        } else {
            Standing::Same(&self.text)
        }
    }
}

/// The least text, and the order from the first start that gives it.
fn least_start(alloc: Global, of: &Component) -> Result<Least, Fault>
    requires one { IsOneComponent (members_of of.now) }
    requires small { count_of (members_of of.now) < 2 ^ 32 }
    ensures numbering { IfOk result (λ least. IsNumbering (members_of of.now) least.order.items) }
    ensures text { IfOk result (λ least. IsLeastText (members_of of.now) least.text.items) }
    ensures err { IfErr result (λ fault. fault ≡ Memory) }
{
    let items = items_of(alloc, of)?;
    let graph = graph_of(alloc, &items)?;
    let mut least = Least::none(alloc);
    let mut reach = Reach::new(alloc, graph.len())?;
    for start in 0..graph.len() {
        let known = least.against();
        if let Some(text) = text_before(alloc, of, &items, &graph, &mut reach, start, known)? {
            let order = reach.order.to_vec(alloc)?;
            least = Least { order, text };
        }
    }
    Ok(least)
}

/// The numbering of a component: its members in the order of first reach from the first start that gives the least
/// text.
pub fn number_members(alloc: Global, of: &Component) -> Result<Vec<u32>, Fault>
    requires one { IsOneComponent (members_of of.now) }
    requires small { count_of (members_of of.now) < 2 ^ 32 }
    ensures numbering { IfOk result (λ order. IsNumbering (members_of of.now) order.items) }
    ensures arrangement { IfOk result (λ order. IsArrangement (count_of (members_of of.now)) order.items) }
    ensures err { IfErr result (λ fault. fault ≡ Memory) }
{
    let least = least_start(alloc, of)?;
    Ok(least.order)
}

/// Whether the text with the members in the given order is the least one.
pub(crate) fn is_least(alloc: Global, of: &Component) -> Result<bool, Fault>
    requires one { IsOneComponent (members_of of.now) }
    requires small { count_of (members_of of.now) < 2 ^ 32 }
    ensures yes { IfOk result (λ yes. IsTrue yes ↔ IsLeastText (members_of of.now) (text_of (members_of of.now))) }
    ensures err { IfErr result (λ fault. fault ≡ Memory) }
{
    let least = least_start(alloc, of)?;
    let text = write_component(alloc, of)?;
    Ok(least.text.as_slice() == text.as_slice())
}

#[cfg(test)]
mod tests;
