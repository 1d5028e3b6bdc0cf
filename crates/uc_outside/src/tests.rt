use crate::{Disk, FileDisk, Lent, MemDisk};
use std::fs;
use std::test::Fail;
use uc_base::Bytes;

// The calls are numbered on the right. The second is listed, the third has no room, and the eighth is one too many.
#[test]
fn a_disk_in_memory_fails_where_it_is_told_to(rt: HostRuntime) -> Result<(), Fail> {
    let alloc = rt.alloc();
    let bytes = Bytes::from_slice(alloc, b"0123456789")?;
    let failing = vec![in alloc; 2]?;
    let mut disk = MemDisk::new(alloc, bytes, 7, 7, failing)
        .ok()
        .ok_or("no disk")?;
    assert!(rt; disk.write_at(8, b"AB12").is_ok()); // 1
    assert!(rt; disk.write_at(0, b"mn").is_err()); // 2
    assert!(rt; disk.write_at(0, b"pqrs").is_err()); // 3
    let images = [
        (b"".as_slice(), b"0123456789".as_slice()),
        (b"#", b"####4567####"),
        (b"#*?", b"#*?#4567#*?#"),
    ];
    for (fill, image) in images {
        let left = disk.image(alloc, fill).ok().ok_or("no image")?;
        assert_eq!(rt; left.as_slice(), image);
    }
    let mut lent = Lent::new(&mut disk);
    assert!(rt; lent.sync().is_ok()); // 4
    assert_eq!(rt; lent.len(), Ok(12)); // 5
    let mut room = [0; 4];
    assert!(rt; lent.read_at(7, &mut room).is_ok()); // 6
    assert_eq!(rt; room, *b"7AB1");
    assert!(rt; lent.write_at(0, b"xyz").is_ok()); // 7
    assert!(rt; lent.sync().is_err()); // 8
    let left = disk.image(alloc, b"").ok().ok_or("no image")?;
    assert_eq!(rt; left.as_slice(), b"01234567AB12".as_slice());
    Ok(())
}

#[test]
fn a_real_file_keeps_what_is_written(rt: HostRuntime) -> Result<(), Fail> {
    let path = "file_disk_test.bin";
    let _ = fs::remove_file(&rt, path);
    let mut disk = FileDisk::new(&rt, path);
    assert_eq!(rt; disk.len(), Ok(0));
    assert!(rt; disk.write_at(0, b"0123456789").is_ok());
    assert!(rt; disk.write_at(8, b"ABCD").is_ok());
    assert!(rt; disk.sync().is_ok());
    let mut again = FileDisk::new(&rt, path);
    assert_eq!(rt; again.len(), Ok(12));
    let mut room = [0; 6];
    assert!(rt; again.read_at(6, &mut room).is_ok());
    assert_eq!(rt; room, *b"67ABCD");
    assert!(rt; again.read_at(10, &mut room).is_err());
    fs::remove_file(&rt, path)?;
    let mut nowhere = FileDisk::new(&rt, "no_such_folder/file_disk_test.bin");
    assert!(rt; nowhere.len().is_err());
    Ok(())
}
