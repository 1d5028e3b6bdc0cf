//! Whole runs over devices in memory.
use crate::input::TEXT_LIMIT;
use crate::run;
use std::alloc::Global;
use std::process::Abort;
use std::test::Fail;
use uc_base::{Bytes, Ref};
use uc_canon::{read_component, write_component};
use uc_outside::{Digester, MemDisk, MemSink, MemSource, Sha512Digester};

/// What `x = 5` answers, with the reference by coreutils' sha512sum of `T1;-n5;`.
const ADDED: &str =
    "added term x #b06d2efbc83b1b34427676e11c67699875e36a3bda3de47a996dcf1267ecf178b7bd8800fedd9429ef5a3df8e0222cf671ee1b57e671639d7cc40378081789db\n";

/// Runs on this text, given in pieces of that size, with these calls of input and output failing, and compares the
/// status and the output.
fn check(
    rt: &impl Abort,
    alloc: Global,
    words: &[&str],
    text: &[u8],
    devices: (usize, &[u64], &[u64]),
    wanted: (u8, &str),
) -> Result<(), Fail> {
    let (piece, reads, writes) = devices;
    let (status, output) = wanted;
    let mut owned = Vec::new(alloc);
    for word in words {
        owned.push(String::from_str(alloc, word)?)?;
    }
    let text = Bytes::from_slice(alloc, text)?;
    let mut source = MemSource::new(text, piece.max(1), reads.to_vec(alloc)?);
    let mut sink = MemSink::new(alloc, 1_024, writes.to_vec(alloc)?)?;
    let mut disk = MemDisk::new(alloc, Bytes::from_slice(alloc, b"")?, 0, 0, Vec::new(alloc))?;
    let answer = run(alloc, &owned, &mut source, &mut sink, &mut disk);
    assert_eq!(rt;
        sink.bytes(),
        output.as_bytes(),
        "reads {reads:?} writes {writes:?}"
    );
    assert_eq!(rt; answer, status);
    Ok(())
}

#[test]
fn adds_one_number(rt: HostRuntime) -> Result<(), Fail> {
    let alloc = rt.alloc();
    check(&rt, alloc, &["add"], b"x = 5\n", (1, &[], &[]), (0, ADDED))?;
    check(
        &rt,
        alloc,
        &["add"],
        b"x = 0005\n",
        (64, &[], &[]),
        (0, ADDED),
    )
}

#[test]
fn refuses_other_words_and_texts(rt: HostRuntime) -> Result<(), Fail> {
    let alloc = rt.alloc();
    let usage = (3, "refused 60 Usage\n");
    for words in [[].as_slice(), &["update"], &["add", "add"], &["Add"]] {
        check(&rt, alloc, words, b"x = 5\n", (8, &[1], &[]), usage)?;
    }
    let not_built = (2, "refused 4 NotBuilt\n");
    for text in [
        "x = y\n",
        "",
        "x = 5",
        "x = 5\n\n",
        "x  = 5\n",
        "x =5\n",
        "x = \n",
        "x = 18446744073709551616\n",
        "x = 000000000000000000005\n",
        "x = +5\n",
        "Nat = 5\n",
        "Nat.mod = 5\n",
        "a.if = 5\n",
        "+ = 5\n",
    ] {
        check(
            &rt,
            alloc,
            &["add"],
            text.as_bytes(),
            (8, &[], &[]),
            not_built,
        )?;
    }
    Ok(())
}

#[test]
fn limits_the_text(rt: HostRuntime) -> Result<(), Fail> {
    let alloc = rt.alloc();
    let text = vec![in alloc; b'a'; TEXT_LIMIT + 1]?;
    check(
        &rt,
        alloc,
        &["add"],
        &text,
        (5_000, &[], &[]),
        (2, "refused 2 TextTooLong\n"),
    )?;
    check(
        &rt,
        alloc,
        &["add"],
        &text[1..],
        (5_000, &[], &[]),
        (2, "refused 4 NotBuilt\n"),
    )
}

#[test]
fn each_call_fails_once(rt: HostRuntime) -> Result<(), Fail> {
    let alloc = rt.alloc();
    for call in 1..=7 {
        let failed = (5, "refused 45 InputFault\n");
        check(&rt, alloc, &["add"], b"x = 5\n", (1, &[call], &[]), failed)?;
    }
    check(
        &rt,
        alloc,
        &["add"],
        b"x = 5\n",
        (1, &[8], &[3]),
        (0, ADDED),
    )?;
    check(&rt, alloc, &["add"], b"x = 5\n", (1, &[], &[1]), (5, ""))?;
    check(&rt, alloc, &["add"], b"x = 5\n", (1, &[], &[2]), (5, ADDED))?;
    check(&rt, alloc, &["add"], b"x = 5\n", (1, &[3], &[1]), (5, ""))
}

#[test]
fn greatest_number(rt: HostRuntime) -> Result<(), Fail> {
    let text = b"most.of_all = 18446744073709551615\n";
    let added =
        "added term most.of_all #d4d8a7c4d48260627d0fefe5282f56158686b70ed5b4d7cff639b23f8ee61dc222f44966e6601641e291964535384e676d9f933ccfb04570555f328b1604e506\n";
    check(&rt, rt.alloc(), &["add"], text, (64, &[], &[]), (0, added))
}

/// The canonical texts of two functions that call each other and of two members that are each other, with SHA-512 of
/// each by coreutils' sha512sum.
const CYCLES: [(&str, &str); 2] = [
    (
        "T2;:atb0;0;tb2;0;lfaarb22;v0;n0;yam1;aarb20;v0;n1;:atb0;0;tb2;0;lfaarb22;v0;n0;zam0;aarb20;v0;n1;",
        "fae5a9da8fa698c96cbf6c5f3a5b97c41106de670b43a347ac3aef1cb0f422599adc3d104f4fc0e7bc65a1695e8c04576b55ebcf2648b96791d25b829a4a8e02",
    ),
    (
        "T2;:tb0;0;m1;:tb0;0;m0;",
        "57907793d4f8b9fb1a2afb477d1b27ac8eb3e3f65a8c948a19ee903f995b0e68ed3fdf686725f1b386361c3a2499d69d500dac04461df76c6628c770b2762ec0",
    ),
];

#[test]
fn refers_to_members_of_cycles(rt: HostRuntime) -> Result<(), Fail> {
    let alloc = rt.alloc();
    for (canonical, digits) in CYCLES {
        let component = read_component(alloc, canonical.as_bytes())?.ok_or("no component")?;
        let text = write_component(alloc, &component)?;
        let hash = Sha512Digester.digest(text.as_slice());
        for (member, tail) in [(0, ""), (1, ".1")] {
            let mut printed = Vec::new(alloc);
            Ref::Def(hash, member).write_text(&mut printed)?;
            let wanted = format!(in alloc; "#{digits}{tail}")?;
            assert_eq!(rt; printed.as_slice(), wanted.as_bytes());
        }
    }
    Ok(())
}
