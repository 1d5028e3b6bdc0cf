//! Members of entries.
ghost use Rattle.std.specs.Prelude.{◌≡◌, ◌<◌, ◌^◌, [], ◌∷◌, map, length, IfOk, IfErr};
ghost use Rattle.std.specs.Option.{option_map_or};
ghost use Rattle.uc_base.specs.declared.fault.Fault.TheVariants.{Memory};
ghost use Rattle.uc_tree.specs.Constructors as spec;
ghost use Rattle.uc_tree.specs.Declarations.{fields_of};
ghost use Rattle.uc_tree.specs.Hints.{names_of};
ghost use Rattle.uc_store.specs.Entries.{constructor_types};
ghost use Rattle.uc_store.specs.Growth.{stored_from};
ghost use Rattle.uc_store.specs.Members.{stored_of, IsKept, AreKept};

use crate::stored::Stored;
use std::alloc::{AllocError, Global};
use uc_base::{Bytes, Fault, Hash, Ref};
use uc_tree::{Hints, Item, Target, Ty, constructor_type, refs_of};

/// A stored member with what is asked of it often: its direct references and the types of its constructors.
#[derive(Debug, Drop)]
pub struct Member {
    pub stored: Stored,
    pub refs: Vec<Ref>,
    pub ctors: Vec<Ty>,
}

fn declared_types(
    alloc: Global,
    head: Target,
    params: u32,
    ctors: &[Vec<Ty>],
) -> Result<Vec<Ty>, AllocError>
    ensures { IfOk result (λ types. types.items ≡ map (spec.constructor_type head params) (fields_of ctors.now)) }
{
    let mut types = Vec::new(alloc);
    for fields in ctors {
        types.push(constructor_type(alloc, head, params, fields)?)?;
    }
    Ok(types)
}

fn constructor_types(
    alloc: Global,
    hash: &Hash,
    number: u32,
    item: &Item,
) -> Result<Vec<Ty>, AllocError>
    ensures { IfOk result (λ types. types.items ≡ constructor_types hash.now number item.now) }
{
    match item {
        Item::Term(_) => Ok(Vec::new(alloc)),
        Item::Kind(declaration) => {
            let head = Target::Stored(Ref::Def(*hash, number));
            declared_types(alloc, head, declaration.params, &declaration.ctors)
        }
    }
}

fn hints_of(alloc: Global, names: Option<Vec<Bytes>>) -> Result<Hints, AllocError>
    ensures { IfOk result (λ hints. hints ≡ option_map_or (λ ns. ns.items) names [] ∷ []) }
{
    let mut members = Vec::new(alloc);
    match names {
        Some(names) => members.push(names)?,
        None => members.push(Vec::new(alloc))?,
    }
    Ok(Hints { members })
}

impl Member {
    /// The member with a number of the component under a hash.
    fn new(
        alloc: Global,
        hash: &Hash,
        number: u32,
        item: Item,
        type_of: Option<Ty>,
        names: Option<Vec<Bytes>>,
    ) -> Result<Member, Fault>
        ensures item { IfOk result (λ m. m.stored.item ≡ item) }
        ensures type_of { IfOk result (λ m. m.stored.type_of ≡ type_of) }
        ensures hints { IfOk result (λ m. m.stored.hints ≡ option_map_or (λ ns. ns.items) names [] ∷ []) }
        ensures kept { IfOk result (λ m. IsKept hash.now number m) }
        ensures err { IfErr result (λ fault. fault ≡ Memory) }
    {
        let refs = refs_of(alloc, &item)?;
        let ctors = constructor_types(alloc, hash, number, &item)?;
        let hints = hints_of(alloc, names)?;
        let stored = Stored {
            item,
            type_of,
            hints,
        };
        Ok(Member {
            stored,
            refs,
            ctors,
        })
    }
}

/// The members of the component under a hash, from its items, the types of its definitions and its hints.
pub(crate) fn members_from(
    alloc: Global,
    hash: &Hash,
    items: Vec<Item>,
    types: Vec<Ty>,
    hints: Vec<Vec<Bytes>>,
) -> Result<Vec<Member>, Fault>
    requires { length items.items < 2 ^ 32 }
    ensures stored { IfOk result (λ members. stored_of members.items ≡ stored_from items.items types.items (names_of hints.items)) }
    ensures kept { IfOk result (λ members. AreKept hash.now members.items) }
    ensures err { IfErr result (λ fault. fault ≡ Memory) }
{
    let mut members = Vec::new(alloc);
    let mut types_left = types.into_iter();
    let mut hints_left = hints.into_iter();
    for item in items {
        let number = members.len() as u32;
        let member = Member::new(
            alloc,
            hash,
            number,
            item,
            types_left.next(),
            hints_left.next(),
        )?;
        members.push(member)?;
    }
    Ok(members)
}
