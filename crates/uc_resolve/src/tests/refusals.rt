//! Texts that have no meaning, with the line of their fault.
use super::heads::Head;
use super::resolved;
use std::alloc::Global;
use std::test::Fail;
use uc_base::{Bytes, Fault};

/// The line of the fault of a text that has no meaning.
fn fault_line(alloc: Global, head: &Head, text: &str) -> Result<Bytes, Fault> {
    match resolved(alloc, head, text) {
        Ok(_) => Ok(Bytes::from_slice(alloc, b"")?),
        Err(fault) => fault.line(alloc),
    }
}

const UNBOUND: [(&str, &str); 8] = [
    ("x = y\nz = w", "refused 10 Unbound 1:5 y"),
    ("ab.cd = 1\nx = d", "refused 10 Unbound 2:5 d"),
    ("x = lus", "refused 10 Unbound 1:5 lus"),
    ("x : Nope\nx = 1", "refused 10 Unbound 1:5 Nope"),
    ("use Nat\nx = 1\n> y", "refused 10 Unbound 3:3 y"),
    ("structural type T a = C b", "refused 10 Unbound 1:25 b"),
    ("x = 1\nf = cases x.y -> 1", "refused 10 Unbound 2:11 x.y"),
    ("a.C = 1\nf = cases C -> 1", "refused 10 Unbound 2:11 C"),
];

const AMBIGUOUS: [(&str, &str); 7] = [
    (
        "a.f = 1\nb.f = 2\nx = f",
        "refused 11 Ambiguous 3:5 a.f b.f",
    ),
    ("x = 1 + 2", "refused 11 Ambiguous 1:7 Int.+ Nat.+"),
    ("x = 1 + 2\nuse Nat", "refused 11 Ambiguous 1:7 Int.+ Nat.+"),
    (
        "use Nat +\nuse Int +\nx = 1 + 2",
        "refused 11 Ambiguous 3:7 Int.+ Nat.+",
    ),
    (
        "a.plus = 1\nx = plus",
        "refused 11 Ambiguous 2:5 a.plus b.plus",
    ),
    (
        "structural type T = D\na.D = 1\nx = D",
        "refused 11 Ambiguous 3:5 T.D a.D",
    ),
    (
        "a.v = 1\nb.v = 1\nc.v = 1\nd.v = 1\ne.v = 1\nf.v = 1\ng.v = 1\nh.v = 1\ni.v = 1\nj.v = 1\nk.v = 1\nx = v",
        "refused 11 Ambiguous 12:5 a.v b.v c.v d.v e.v f.v g.v h.v i.v j.v",
    ),
];

#[test]
fn refuses_names_of_nothing(rt: HostRuntime) -> Result<(), Fail> {
    let head = Head::builtins(rt.alloc())?;
    for (text, line) in UNBOUND {
        assert_eq!(rt;
            fault_line(rt.alloc(), &head, text)?.as_slice(),
            line.as_bytes(),
            "{text}"
        );
    }
    Ok(())
}

#[test]
fn refuses_names_of_several_things(rt: HostRuntime) -> Result<(), Fail> {
    let head = Head::builtins(rt.alloc())?;
    for (text, line) in AMBIGUOUS {
        assert_eq!(rt;
            fault_line(rt.alloc(), &head, text)?.as_slice(),
            line.as_bytes(),
            "{text}"
        );
    }
    Ok(())
}

const DIGITS: [(&str, &str); 3] = [
    ("x = #00000000", "refused 39 AmbiguousHash 1:5"),
    ("x = #0000000002", "refused 33 NoSuchHash 1:5"),
    ("f = cases #0000000001 -> 1", "refused 33 NoSuchHash 1:11"),
];

#[test]
fn refuses_digits_of_none_and_of_several(rt: HostRuntime) -> Result<(), Fail> {
    let stored = Head::with_zeros(rt.alloc())?;
    for (text, line) in DIGITS {
        assert_eq!(rt;
            fault_line(rt.alloc(), &stored, text)?.as_slice(),
            line.as_bytes(),
            "{text}"
        );
    }
    let head = Head::builtins(rt.alloc())?;
    let line = fault_line(rt.alloc(), &head, "x = #00000000")?;
    assert_eq!(rt; line.as_slice(), b"refused 33 NoSuchHash 1:5".as_slice());
    Ok(())
}
