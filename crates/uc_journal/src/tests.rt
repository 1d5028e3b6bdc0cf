use crate::{Journal, Unopened, pack};
use std::alloc::Global;
use std::fs;
use std::test::Fail;
use uc_base::{Bytes, Fault};
use uc_outside::{FileDisk, MemDisk};

// A journal with one record, whose payload is the command that adds `x = 5` on the branch `main` as number 1 of the
// caller `local`.
const WORKED: [u8; 44] =
    *b"UCJRNL01\x01\x00\x00\x00\x1e\x05local\x00\x00\x00\x00\x00\x00\x00\x01\x01\x04main\x00\x00\x00\x06x = 5\n\x00";

const PAYLOADS: [&[u8]; 2] = [b"first", b"the second"];

// The calls that an opening of an empty disk makes, and that two appends make behind it.
const OPENING: u64 = 6;

const ALL: u64 = 14;

fn disk_of(alloc: Global, bytes: &[u8], failing: Vec<u64>) -> Result<MemDisk, Fail> {
    let bytes = Bytes::from_slice(alloc, bytes)?;
    Ok(
        MemDisk::new(alloc, bytes, ALL, 1000, failing)
            .ok()
            .ok_or("no disk")?,
    )
}

fn payloads_of(alloc: Global, bytes: &[u8]) -> Result<Vec<Bytes>, Fail> {
    let disk = disk_of(alloc, bytes, Vec::new(alloc))?;
    let (_journal, payloads) = Journal::open(alloc, disk).ok().ok_or("not opened")?;
    Ok(payloads)
}

fn fault_of(alloc: Global, bytes: &[u8]) -> Result<Option<Fault>, Fail> {
    match Journal::open(alloc, disk_of(alloc, bytes, Vec::new(alloc))?) {
        Ok(_) => Ok(None),
        Err(refused) => Ok(Some(refused.fault)),
    }
}

#[test]
fn files_are_opened_or_refused(rt: HostRuntime) -> Result<(), Fail> {
    let alloc = rt.alloc();
    let files = [
        (b"".as_slice(), None),
        (b"012345678", None),
        (b"0123456789", Some(Fault::NotACodebase)),
        (b"UCJRNL01\x01", None),
        (b"UCJRNL01\x01\x00", Some(Fault::Damaged(8))),
        (b"UCJRNL01\x02\x00", None),
        (&WORKED, None),
        (&WORKED[..43], Some(Fault::Damaged(8))),
    ];
    for (bytes, fault) in files {
        assert_eq!(rt; fault_of(alloc, bytes)?, fault);
    }
    Ok(())
}

#[test]
fn the_worked_record_is_written_and_read(rt: HostRuntime) -> Result<(), Fail> {
    let alloc = rt.alloc();
    let disk = disk_of(alloc, b"", Vec::new(alloc))?;
    let (mut journal, payloads) = Journal::open(alloc, disk).ok().ok_or("not opened")?;
    assert!(rt; payloads.is_empty());
    let packed = pack(alloc, &WORKED[13..43]).ok().ok_or("not packed")?;
    assert!(rt; journal.append(&packed).is_ok());
    let image = journal
        .into_disk()
        .image(alloc, b"")
        .ok()
        .ok_or("no image")?;
    assert_eq!(rt; image.as_slice(), WORKED.as_slice());
    let payloads = payloads_of(alloc, &WORKED)?;
    assert_eq!(rt; payloads.len(), 1);
    for payload in &payloads {
        assert_eq!(rt; payload.as_slice(), &WORKED[13..43]);
    }
    Ok(())
}

// Opens an empty disk and appends the payloads up to the first failure. It gives how many were acknowledged.
fn run(alloc: Global, failing: Vec<u64>) -> Result<(usize, MemDisk), Fail> {
    match Journal::open(alloc, disk_of(alloc, b"", failing)?) {
        Ok((mut journal, _payloads)) => {
            let mut acknowledged = 0;
            for i in 0..PAYLOADS.len() {
                let packed = pack(alloc, PAYLOADS[i]).ok().ok_or("not packed")?;
                if journal.append(&packed).is_err() {
                    break;
                }
                acknowledged = i + 1;
            }
            Ok((acknowledged, journal.into_disk()))
        }
        Err(refused) => {
            let Unopened {
                fault: _fault,
                disk,
            } = refused;
            Ok((0, disk))
        }
    }
}

// At each call in turn: that call alone fails, or the program stops there.
#[test]
fn a_crash_at_any_call_keeps_what_was_acknowledged(rt: HostRuntime) -> Result<(), Fail> {
    let alloc = rt.alloc();
    for call in 1..ALL + 2 {
        for stop in [call, ALL] {
            let mut failing = Vec::new(alloc);
            for number in call..=stop {
                failing.push(number)?;
            }
            let (acknowledged, disk) = run(alloc, failing)?;
            let attempted = if call <= OPENING { 0 } else { 1 };
            for fill in [0, 1, 255] {
                let image = disk.image(alloc, &[fill]).ok().ok_or("no image")?;
                let payloads = payloads_of(alloc, image.as_slice())?;
                let read = payloads.len();
                assert!(rt; read >= acknowledged && read - acknowledged <= attempted);
                for (payload, sent) in payloads.iter().zip(PAYLOADS) {
                    assert_eq!(rt; payload.as_slice(), sent);
                }
            }
        }
    }
    let (acknowledged, _disk) = run(alloc, Vec::new(alloc))?;
    assert_eq!(rt; acknowledged, 2);
    Ok(())
}

#[test]
fn a_failed_append_can_be_made_again(rt: HostRuntime) -> Result<(), Fail> {
    let alloc = rt.alloc();
    for call in OPENING + 1..ALL + 1 {
        for settles in [false, true] {
            let disk = MemDisk::new(
                alloc,
                Bytes::from_vec(Vec::new(alloc)),
                100,
                1000,
                [call].to_vec(alloc)?,
            );
            let disk = disk.ok().ok_or("no disk")?;
            let (mut journal, _) = Journal::open(alloc, disk).ok().ok_or("not opened")?;
            for payload in PAYLOADS {
                let packed = pack(alloc, payload).ok().ok_or("not packed")?;
                if journal.append(&packed) == Err(Fault::JournalFault) {
                    if settles {
                        assert!(rt; journal.settle().is_ok());
                    }
                    assert!(rt; journal.append(&packed).is_ok());
                }
            }
            let image = journal
                .into_disk()
                .image(alloc, &[1])
                .ok()
                .ok_or("no image")?;
            assert_eq!(rt; payloads_of(alloc, image.as_slice())?.len(), 2);
        }
    }
    Ok(())
}

#[test]
fn a_real_file_is_opened_again(rt: HostRuntime) -> Result<(), Fail> {
    let alloc = rt.alloc();
    let path = "journal_test.uj";
    let _ = fs::remove_file(&rt, path);
    let (mut journal, _) = Journal::open(alloc, FileDisk::new(&rt, path))
        .ok()
        .ok_or("not opened")?;
    let packed = pack(alloc, PAYLOADS[0]).ok().ok_or("not packed")?;
    assert!(rt; journal.append(&packed).is_ok());
    let (_, payloads) = Journal::open(alloc, FileDisk::new(&rt, path))
        .ok()
        .ok_or("not opened again")?;
    assert_eq!(rt; payloads.len(), 1);
    for payload in &payloads {
        assert_eq!(rt; payload.as_slice(), PAYLOADS[0]);
    }
    fs::remove_file(&rt, path)?;
    Ok(())
}
