//! Printed texts and look-ups.
use crate::{
    At, Bytes, Fault, Hash, Name, NameList, Place, Ref, Spot, builtin_name_of, builtin_number_of,
    read_decimal,
};
use std::alloc::Global;
use std::process::Abort;
use std::test::Fail;

/// SHA-512 of `abc`, FIPS 180-4.
const ABC: &str =
    "ddaf35a193617abacc417349ae20413112e6fa4e89a97ea20a9eeee64b55d39a2192992a274fc1a836ba3c23a3feebbd454d4423643ce80e2a9ac94fa54ca49f";

#[test]
fn prints_references(rt: HostRuntime) -> Result<(), Fail> {
    let alloc = rt.alloc();
    let hash = Hash::read_text(ABC.as_bytes()).ok_or("no hash")?;
    assert!(rt; hash.0[0] == 0xdd && hash.0[1] == 0xaf && hash.0[2] == 0x35);
    assert!(rt; Hash::read_text(&ABC.as_bytes()[1..]).is_none());
    assert!(rt; Hash::read_text(ABC.to_uppercase(alloc)?.as_bytes()).is_none());
    for (reference, tail) in [
        (Ref::Def(hash, 0), ""),
        (Ref::Def(hash, 12), ".12"),
        (Ref::Ctor(hash, 0, 0), "#0"),
        (Ref::Ctor(hash, 2, 1), ".2#1"),
    ] {
        let mut out = Vec::new(alloc);
        reference.write_text(&mut out)?;
        let wanted = format!(in alloc; "#{ABC}{tail}")?;
        assert_eq!(rt; out.as_slice(), wanted.as_bytes());
    }
    let mut out = Vec::new(alloc);
    Ref::Builtin(16).write_text(&mut out)?;
    assert_eq!(rt; out.as_slice(), b"##Nat.+".as_slice());
    assert!(rt; Ref::Def(hash, 9) < Ref::Ctor(hash, 0, 0) && Ref::Def(hash, 1) < Ref::Def(hash, 2));
    Ok(())
}

fn check_line(rt: &impl Abort, alloc: Global, fault: Fault, line: &str) -> Result<(), Fail> {
    assert_eq!(rt; fault.line(alloc)?.as_slice(), line.as_bytes());
    Ok(())
}

#[test]
fn prints_places(rt: HostRuntime) -> Result<(), Fail> {
    let alloc = rt.alloc();
    let place = Place { line: 1, column: 5 };
    for (fault, line) in [
        (Fault::BadToken(place), "refused 3 BadToken 1:5"),
        (Fault::BadSyntax(place), "refused 5 BadSyntax 1:5"),
        (Fault::LeftOut(place), "refused 6 LeftOut 1:5"),
        (Fault::TooDeep(place), "refused 7 TooDeep 1:5"),
        (Fault::DuplicateName(place), "refused 8 DuplicateName 1:5"),
        (Fault::LoneSignature(place), "refused 9 LoneSignature 1:5"),
    ] {
        check_line(&rt, alloc, fault, line)?;
    }
    let at = At::Place(place);
    check_line(&rt, alloc, Fault::BadArity(at), "refused 12 BadArity 1:5")?;
    let spot = At::Spot(Spot { member: 2, node: 7 });
    check_line(
        &rt,
        alloc,
        Fault::Impredicative(spot),
        "refused 13 Impredicative",
    )
}

#[test]
fn prints_faults(rt: HostRuntime) -> Result<(), Fail> {
    let alloc = rt.alloc();
    for (fault, line) in [
        (Fault::TextTooLong, "refused 2 TextTooLong"),
        (Fault::BadName, "refused 29 BadName"),
        (Fault::StoreFull, "refused 41 StoreFull"),
        (Fault::Damaged(8), "refused 44 Damaged 8"),
        (Fault::InputFault, "refused 45 InputFault"),
        (Fault::Memory, crate::MEMORY_LINE),
        (Fault::Usage, "refused 60 Usage"),
    ] {
        check_line(&rt, alloc, fault, line)?;
    }
    Ok(())
}

#[test]
fn prints_what_faults_hold(rt: HostRuntime) -> Result<(), Fail> {
    let alloc = rt.alloc();
    let used = Fault::StillUsed(Name::parse(alloc, b"Nat.+")?);
    check_line(&rt, alloc, used, "refused 25 StillUsed Nat.+")?;
    let hash = Hash::read_text(ABC.as_bytes()).ok_or("no hash")?;
    let old = Bytes::from_slice(alloc, b"T1;-n14;")?;
    let new = Bytes::from_slice(alloc, b"T1;-n23;")?;
    assert!(rt; old != new);
    let wanted = format!(in alloc; "refused 32 Collision #{ABC}")?;
    check_line(
        &rt,
        alloc,
        Fault::Collision(hash, old, new),
        wanted.as_str(),
    )
}

#[test]
fn prints_what_names_could_mean(rt: HostRuntime) -> Result<(), Fail> {
    let alloc = rt.alloc();
    let place = Place { line: 1, column: 7 };
    let unbound = Fault::Unbound(place, Name::parse(alloc, b"y")?);
    check_line(&rt, alloc, unbound, "refused 10 Unbound 1:7 y")?;
    let mut two = Vec::new(alloc);
    two.push(Name::parse(alloc, b"Int.+")?)?;
    two.push(Name::parse(alloc, b"Nat.+")?)?;
    let ambiguous = Fault::Ambiguous(place, NameList::from_vec(two));
    check_line(
        &rt,
        alloc,
        ambiguous,
        "refused 11 Ambiguous 1:7 Int.+ Nat.+",
    )?;
    let mut many = Vec::new(alloc);
    for text in ["a", "b", "c", "d", "e", "f", "g", "h", "i", "j", "k"] {
        many.push(Name::parse(alloc, text.as_bytes())?)?;
    }
    let ambiguous = Fault::Ambiguous(place, NameList::from_vec(many));
    check_line(
        &rt,
        alloc,
        ambiguous,
        "refused 11 Ambiguous 1:7 a b c d e f g h i j",
    )?;
    let at = At::Place(place);
    check_line(
        &rt,
        alloc,
        Fault::NoSuchHash(at),
        "refused 33 NoSuchHash 1:7",
    )?;
    check_line(
        &rt,
        alloc,
        Fault::AmbiguousHash(At::Nowhere),
        "refused 39 AmbiguousHash",
    )
}

#[test]
fn knows_builtins(rt: HostRuntime) {
    for (name, number) in [
        ("Nat", 0),
        ("List", 5),
        ("Nat.+", 16),
        ("Int.+", 30),
        ("List.empty", 56),
    ] {
        assert_eq!(rt; builtin_number_of(name.as_bytes()), Some(number), "{name}");
        assert!(rt;
            builtin_name_of(number).is_some_and(|found| found == name),
            "{name}"
        );
    }
    assert!(rt; builtin_number_of(b"Nat.foo").is_none() && builtin_number_of(b"").is_none());
    assert!(rt;
        builtin_name_of(6).is_none()
            && builtin_name_of(15).is_none()
            && builtin_name_of(57).is_none()
    );
}

#[test]
fn reads_decimals(rt: HostRuntime) {
    assert_eq!(rt; read_decimal(b"0018446744073709551615"), Some(u64::MAX));
    for text in ["", "+5", "-5", "5a", "18446744073709551616"] {
        assert_eq!(rt; read_decimal(text.as_bytes()), None, "{text}");
    }
}
