//! Small components stored, found again and refused.
ghost use Rattle.std.specs.Prelude.{◌≡◌, [], ◌∷◌, true, None, IfOk};
ghost use Rattle.uc_tree.specs.declared.literal.Literal.TheVariants.{Nat};
ghost use Rattle.uc_tree.specs.Terms as term;
ghost use Rattle.uc_tree.specs.Types as types;
ghost use Rattle.uc_canon.specs.Members.{terms};
ghost use Rattle.uc_store.specs.Binders.{IsHint, of_lambda};
ghost use Rattle.uc_store.specs.Builtins as builtins;
ghost use Rattle.uc_store.specs.Storable.{IsStorable};
ghost use Rattle.uc_store.specs.Table.{Table};

use crate::{Checked, Shelf, Store};
use std::alloc::{AllocError, Global};
use std::test::Fail;
use uc_base::{Bytes, Fault, Hash, Ref};
use uc_canon::Component;
use uc_outside::SumDigester;
use uc_tree::{Arities, Definition, Found, Hints, Known, Literal, Target, Term, Ty};

fn single<T: Drop>(alloc: Global, item: T) -> Result<Vec<T>, AllocError>
    ensures { IfOk result (λ v. v.items ≡ item ∷ []) }
{
    let mut items = Vec::new(alloc);
    items.push(item)?;
    Ok(items)
}

fn checked(
    alloc: Global,
    definition: Definition,
    of_type: Ty,
    names: Vec<Bytes>,
) -> Result<Checked, AllocError>
    ensures { IfOk result (λ c. c ≡ record { members = terms (definition ∷ []); types = of_type ∷ []; hints = names.items ∷ [] }) }
{
    let component = Component::Terms(single(alloc, definition)?);
    let types = single(alloc, of_type)?;
    let members = single(alloc, names)?;
    Ok(Checked {
        component,
        types,
        hints: Hints { members },
    })
}

fn nat(alloc: Global) -> Ty
    ensures { result ≡ builtins.nat }
{
    Ty::data(Target::Stored(Ref::Builtin(0)), Vec::new(alloc))
}

fn nat_definition(number: u64) -> Definition
    ensures { result ≡ record { signature = None; body = term.literal (Nat number) } }
{
    Definition {
        signature: None,
        body: Term::literal(Literal::Nat(number)),
    }
}

/// A Nat.
fn numeral(alloc: Global, number: u64) -> Result<Checked, AllocError>
    ensures { IfOk result (λ c. (table : Table) → IsStorable table c) }
{
    let definition = nat_definition(number);
    let of_type = nat(alloc);
    let names = Vec::new(alloc);
    let new = checked(alloc, definition, of_type, names)?;
    Ok(new)
}

fn identity_definition(alloc: Global) -> Result<Definition, AllocError>
    ensures { IfOk result (λ d. d ≡ record { signature = None; body = term.lambda (term.variable 0) }) }
{
    let body = Term::lambda(alloc, Term::variable(0))?;
    Ok(Definition {
        signature: None,
        body,
    })
}

fn identity_type(alloc: Global) -> Result<Ty, AllocError>
    ensures { IfOk result (λ t. t ≡ types.quantified (types.arrow (types.variable 0) (types.variable 0))) }
{
    let arrow = Ty::arrow(alloc, Ty::variable(0), Ty::variable(0))?;
    Ty::forall(alloc, arrow)
}

/// The function that answers its argument, which has a name.
fn identity(alloc: Global, name: Bytes) -> Result<Checked, AllocError>
    requires { IsHint (of_lambda true) name }
    ensures { IfOk result (λ c. (table : Table) → IsStorable table c) }
{
    let definition = identity_definition(alloc)?;
    let of_type = identity_type(alloc)?;
    let names = single(alloc, name)?;
    let new = checked(alloc, definition, of_type, names)?;
    Ok(new)
}

/// Stores a component.
fn put(store: &mut Store<SumDigester>, alloc: Global, new: Checked) -> Result<(), Fault>
    requires { (table : Table) → IsStorable table new }
{
    let components = single(alloc, new)?;
    let prepared = store.prepare(alloc, components)?;
    store.commit(prepared);
    Ok(())
}

/// 64 equal bytes.
fn hash(byte: u8) -> Hash {
    Hash([byte; 64])
}

/// Both texts have bytes of the sum 507.
#[test]
fn refuses_another_text_of_one_hash(rt: HostRuntime) -> Result<(), Fail> {
    let alloc = rt.alloc();
    let mut store = Store::new(alloc, SumDigester)?;
    put(&mut store, alloc, numeral(alloc, 14)?)?;
    assert_eq!(rt; store.text(&hash(0xfb)), Some(b"T1;-n14;".as_slice()));
    let earlier = Bytes::from_slice(alloc, b"T1;-n14;")?;
    let text = Bytes::from_slice(alloc, b"T1;-n23;")?;
    let wanted = Fault::Collision(hash(0xfb), earlier, text);
    assert!(rt; put(&mut store, alloc, numeral(alloc, 23)?) == Err(wanted));
    put(&mut store, alloc, numeral(alloc, 14)?)?;
    assert_eq!(rt; store.members(), 1);
    Ok(())
}

/// `T1;-n1;` has bytes of the sum 455, which is 199 and once 256; each next digit adds one.
#[test]
fn finds_what_is_stored(rt: HostRuntime) -> Result<(), Fail> {
    let alloc = rt.alloc();
    let mut store = Store::new(alloc, SumDigester)?;
    assert_eq!(rt; store.by_prefix(b""), Found::None);
    assert_eq!(rt; store.after(None), None);
    put(&mut store, alloc, numeral(alloc, 2)?)?;
    assert_eq!(rt; store.by_prefix(b""), Found::One(hash(0xc8)));
    put(&mut store, alloc, numeral(alloc, 1)?)?;
    assert_eq!(rt; store.by_prefix(b""), Found::Many);
    assert_eq!(rt; store.by_prefix(b"c"), Found::Many);
    assert_eq!(rt; store.by_prefix(b"c7"), Found::One(hash(0xc7)));
    assert_eq!(rt; store.by_prefix(b"d"), Found::None);
    assert_eq!(rt; store.after(None), Some(&hash(0xc7)));
    assert_eq!(rt; store.after(Some(&hash(0xc7))), Some(&hash(0xc8)));
    assert_eq!(rt; store.after(Some(&hash(0xc8))), None);
    let of = Ref::Def(hash(0xc7), 0);
    assert!(rt; store.get(&of).is_some() && store.item(&of).is_some());
    assert!(rt; store.get(&Ref::Def(hash(0xc7), 1)).is_none());
    assert_eq!(rt; store.twin(b"T1;-n2;"), Some(b"T1;-n2;".as_slice()));
    assert!(rt; store.refs(&of).is_empty());
    Ok(())
}

#[test]
fn knows_the_builtins(rt: HostRuntime) -> Result<(), Fail> {
    let alloc = rt.alloc();
    let store = Store::new(alloc, SumDigester)?;
    let text = Ty::data(Target::Stored(Ref::Builtin(3)), Vec::new(alloc));
    let wanted = Ty::arrow(alloc, text, nat(alloc))?;
    assert!(rt;
        store
            .type_of(&Ref::Builtin(43))
            .is_some_and(|ty| *ty == wanted)
    );
    assert!(rt; store.type_of(&Ref::Builtin(56)).is_some());
    assert!(rt; store.type_of(&Ref::Builtin(57)).is_none());
    assert_eq!(rt; store.arity(&Target::Stored(Ref::Builtin(4))), Some(0));
    assert_eq!(rt; store.arity(&Target::Stored(Ref::Builtin(5))), Some(1));
    assert_eq!(rt; store.arity(&Target::Stored(Ref::Builtin(16))), None);
    Ok(())
}

/// `T1;-lv0;` has bytes of the sum 570, which is 58 and twice 256.
#[test]
fn keeps_the_first_hints(rt: HostRuntime) -> Result<(), Fail> {
    let alloc = rt.alloc();
    let mut store = Store::new(alloc, SumDigester)?;
    let first = Bytes::from_slice(alloc, b"x")?;
    put(&mut store, alloc, identity(alloc, first)?)?;
    let second = Bytes::from_slice(alloc, b"y")?;
    put(&mut store, alloc, identity(alloc, second)?)?;
    let stored = store.get(&Ref::Def(hash(0x3a), 0)).ok_or("nothing stored")?;
    let names = stored.hints.members.first().ok_or("no hints")?;
    let name = names.first().ok_or("no hint")?;
    assert_eq!(rt; name.as_slice(), b"x".as_slice());
    Ok(())
}
