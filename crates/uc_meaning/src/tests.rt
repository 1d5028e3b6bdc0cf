//! Names, references and literals of short texts.
use crate::{Lookup, Meanings, Usings, Wanted, literal_value};
use std::alloc::Global;
use std::test::Fail;
use uc_base::{Bytes, Fault, Name, Place, Ref, Sort};
use uc_layout::lex;
use uc_scratch::{File, Literal as WrittenLiteral, LiteralSort, Reference, Written, read_file};
use uc_tree::{Found, Literal, Names, Target};

/// A head with one name, and nothing that is stored.
#[derive(Drop)]
struct OneName {
    name: Name,
    of: Ref,
}

impl Names for OneName {
    ghost use Rattle.std.specs.Prelude.{[], true};
    ghost use Rattle.uc_meaning.specs.OneName.{one_pair, one_in_order};

    ghost pairs = { λ names _. one_pair names.name names.of };

    ghost in_order = { λ names _. one_in_order names.name names.of };

    ghost hashes = { λ _. [] };

    ghost is_held = { λ _ _ _. true };

    fn find(&self, _sort: Sort, name: &Name) -> Option<&Ref> {
        if *name == self.name {
            Some(&self.of)
        } else {
            None
        }
    }

    fn after(&self, _sort: Sort, name: Option<&Name>) -> Option<(&Name, &Ref)> {
        match name {
            None => Some((&self.name, &self.of)),
            Some(name) => {
                if *name < self.name {
                    Some((&self.name, &self.of))
                } else {
                    None
                }
            }
        }
    }

    fn by_prefix(&self, _digits: &[u8]) -> Found {
        Found::None
    }

    fn holds(&self, _sort: Sort, _of: &Ref) -> bool {
        true
    }
}

fn nat_plus(alloc: Global) -> Result<OneName, Fault> {
    Ok(OneName {
        name: Name::parse(alloc, b"Nat.+")?,
        of: Ref::Builtin(16),
    })
}

fn file(alloc: Global, text: &str) -> Result<File, Fault> {
    let blocks = lex(alloc, text.as_bytes())?;
    read_file(alloc, &blocks)
}

fn written(alloc: Global, text: &str) -> Result<Written, Fault> {
    Ok(Written {
        text: Bytes::from_slice(alloc, text.as_bytes())?,
        place: Place { line: 1, column: 5 },
    })
}

/// What a name means in a file over a head with the name `Nat.+`, without any `use`.
fn meaning(alloc: Global, text: &str, wanted: Wanted, name: &str) -> Result<Target, Fault> {
    let head = nat_plus(alloc)?;
    let file = file(alloc, text)?;
    let lookup = Lookup::new(alloc, &file, &head)?;
    let usings = Usings::new(alloc);
    lookup.name(alloc, wanted, &usings, &written(alloc, name)?)
}

/// The line of the fault of a name that has no one meaning.
fn fault_line(alloc: Global, text: &str, wanted: Wanted, name: &str) -> Result<Bytes, Fault> {
    match meaning(alloc, text, wanted, name) {
        Ok(_) => Bytes::from_slice(alloc, b"").map_err(Fault::from),
        Err(fault) => fault.line(alloc),
    }
}

const TYPE: &str = "structural type T = C | D\na.f = 1\nb.f = 2\n";

#[test]
fn finds_names_step_by_step(rt: HostRuntime) -> Result<(), Fail> {
    let alloc = rt.alloc();
    let plus = Target::Stored(Ref::Builtin(16));
    let hidden = "(Nat.+) a b = a\n";
    for (text, wanted, name, target) in [
        (TYPE, Wanted::Term, "a.f", Target::Own(0)),
        (TYPE, Wanted::Term, "b.f", Target::Own(1)),
        (TYPE, Wanted::Kind, "T", Target::Own(0)),
        (TYPE, Wanted::Term, "T.D", Target::OwnCtor(0, 1)),
        (TYPE, Wanted::Constructor, "C", Target::OwnCtor(0, 0)),
        (TYPE, Wanted::Term, "Nat.+", plus),
        (TYPE, Wanted::Term, "+", plus),
        (hidden, Wanted::Term, "Nat.+", Target::Own(0)),
        (hidden, Wanted::Term, "+", Target::Own(0)),
    ] {
        let found = meaning(alloc, text, wanted, name).ok();
        assert!(rt; found == Some(target), "{name}");
    }
    Ok(())
}

#[test]
fn refuses_names_without_one_meaning(rt: HostRuntime) -> Result<(), Fail> {
    let alloc = rt.alloc();
    for (wanted, name, line) in [
        (Wanted::Term, "f", "refused 11 Ambiguous 1:5 a.f b.f"),
        (Wanted::Term, "y", "refused 10 Unbound 1:5 y"),
        (Wanted::Term, "at.+", "refused 10 Unbound 1:5 at.+"),
        (Wanted::Constructor, "f", "refused 10 Unbound 1:5 f"),
        (Wanted::Constructor, "+", "refused 10 Unbound 1:5 +"),
        (Wanted::Kind, "C", "refused 10 Unbound 1:5 C"),
    ] {
        let found = fault_line(alloc, TYPE, wanted, name)?;
        assert_eq!(rt; found.as_slice(), line.as_bytes());
    }
    Ok(())
}

/// Texts that write the names that are asked for.
#[test]
fn finds_names_that_the_file_writes(rt: HostRuntime) -> Result<(), Fail> {
    let alloc = rt.alloc();
    let plus = Target::Stored(Ref::Builtin(16));
    let hidden = "(Nat.+) a b = a\nx = 1 + 2\n";
    let typed = "structural type a.T = C\nx : T\nx = 1\n";
    let cases = "structural type T = C | D\nx = cases C -> 1\n";
    for (text, wanted, name, target) in [
        ("x = 1 + 2\n", Wanted::Term, "+", plus),
        (hidden, Wanted::Term, "+", Target::Own(0)),
        ("a.f = 1\nx = f 2\n", Wanted::Term, "f", Target::Own(0)),
        (typed, Wanted::Kind, "T", Target::Own(0)),
        (cases, Wanted::Constructor, "C", Target::OwnCtor(0, 0)),
        (cases, Wanted::Term, "C", Target::OwnCtor(0, 0)),
    ] {
        let found = meaning(alloc, text, wanted, name).ok();
        assert!(rt; found == Some(target), "{name}");
    }
    for (text, wanted, name, line) in [
        (
            "a.f = 1\nb.f = 2\nx = f\n",
            Wanted::Term,
            "f",
            "refused 11 Ambiguous 1:5 a.f b.f",
        ),
        ("x = y\n", Wanted::Term, "y", "refused 10 Unbound 1:5 y"),
        (
            "x = 1 + 2\n",
            Wanted::Constructor,
            "+",
            "refused 10 Unbound 1:5 +",
        ),
    ] {
        let found = fault_line(alloc, text, wanted, name)?;
        assert_eq!(rt; found.as_slice(), line.as_bytes());
    }
    Ok(())
}

#[test]
fn the_innermost_use_counts(rt: HostRuntime) -> Result<(), Fail> {
    let alloc = rt.alloc();
    let (head, file) = (nat_plus(alloc)?, file(alloc, TYPE)?);
    let lookup = Lookup::new(alloc, &file, &head)?;
    let (a, b, g, f) = (
        written(alloc, "a")?,
        written(alloc, "b")?,
        written(alloc, "g")?,
        written(alloc, "f")?,
    );
    let names = [g];
    let mut usings = Usings::new(alloc);
    usings.enter_block()?;
    usings.add(&a, &[])?;
    assert!(rt; lookup.name(alloc, Wanted::Term, &usings, &f).ok() == Some(Target::Own(0)));
    usings.enter_block()?;
    usings.add(&b, &names)?;
    assert!(rt; lookup.name(alloc, Wanted::Term, &usings, &f).ok() == Some(Target::Own(0)));
    usings.add(&b, &[])?;
    assert!(rt; lookup.name(alloc, Wanted::Term, &usings, &f).ok() == Some(Target::Own(1)));
    usings.leave_block();
    assert!(rt; lookup.name(alloc, Wanted::Term, &usings, &f).ok() == Some(Target::Own(0)));
    Ok(())
}

#[test]
fn reads_references(rt: HostRuntime) -> Result<(), Fail> {
    let alloc = rt.alloc();
    let (head, file) = (nat_plus(alloc)?, file(alloc, TYPE)?);
    let lookup = Lookup::new(alloc, &file, &head)?;
    let plus = Reference::Builtin(written(alloc, "##Nat.+")?);
    let found = lookup.reference(Wanted::Term, &plus).ok();
    assert!(rt; found == Some(Target::Stored(Ref::Builtin(16))));
    assert!(rt; lookup.reference(Wanted::Kind, &plus).is_err());
    assert!(rt; lookup.reference(Wanted::Constructor, &plus).is_err());
    let hash = Reference::Hash(written(alloc, "#00000000")?);
    match lookup.reference(Wanted::Term, &hash) {
        Ok(_) => assert!(rt; false),
        Err(fault) => {
            assert_eq!(rt;
                fault.line(alloc)?.as_slice(),
                b"refused 33 NoSuchHash 1:5".as_slice()
            );
        }
    }
    Ok(())
}

fn value(alloc: Global, sort: LiteralSort, text: &str) -> Result<Literal, Fault> {
    let literal = WrittenLiteral {
        sort,
        written: written(alloc, text)?,
    };
    Ok(literal_value(alloc, &literal)?)
}

#[test]
fn reads_literals(rt: HostRuntime) -> Result<(), Fail> {
    let alloc = rt.alloc();
    let most = value(alloc, LiteralSort::Nat, "18446744073709551615")?;
    assert!(rt; most == Literal::Nat(u64::MAX));
    let least = value(alloc, LiteralSort::Int, "-9223372036854775808")?;
    assert!(rt; least == Literal::Int(i64::MIN));
    assert!(rt; value(alloc, LiteralSort::Int, "+3")? == Literal::Int(3));
    assert!(rt; value(alloc, LiteralSort::True, "true")? == Literal::Boolean(true));
    assert!(rt; value(alloc, LiteralSort::Char, "?a")? == Literal::Char('a'));
    assert!(rt; value(alloc, LiteralSort::Char, "?\\s")? == Literal::Char(' '));
    assert!(rt; value(alloc, LiteralSort::Char, "?é")? == Literal::Char('é'));
    let text = value(alloc, LiteralSort::Text, "\"a\\n\\\"b\"")?;
    assert!(rt; text == Literal::Text(Bytes::from_slice(alloc, b"a\n\"b")?));
    Ok(())
}
