//! A disk that borrows a disk.
ghost use Rattle.std.specs.Prelude.{◌≡◌};

use crate::{Disk, Failed};

/// A disk that borrows a disk, and does each call on it.
#[derive(Drop)]
pub struct Lent<'a, D: Disk> {
    pub disk: &'a mut D,
}

impl<'a, D: Disk> Lent<'a, D> {
    pub fn new(disk: &'a mut D) -> Lent<'a, D>
        ensures same_reference { result.disk.ghost_name ≡ disk.entry.ghost_name }
        ensures same_disk { result.disk.now ≡ disk.old }
    {
        Lent { disk }
    }
}

impl<'a, D: Disk> Disk for Lent<'a, D> {
    ghost tells = { D.tells };

    ghost view = { λ lent. D.view lent.disk.now };

    ghost place = { λ lent. lent.disk.ghost_name };

    ghost faults = { λ lent. D.faults lent.disk.now };

    ghost sound = { λ lent told. D.sound lent.disk.now told };

    fn len(&mut self) -> Result<u64, Failed> {
        self.disk.len()
    }

    fn read_at(&mut self, at: u64, room: &mut [u8]) -> Result<(), Failed> {
        self.disk.read_at(at, room)
    }

    fn write_at(&mut self, at: u64, bytes: &[u8]) -> Result<(), Failed> {
        self.disk.write_at(at, bytes)
    }

    fn sync(&mut self) -> Result<(), Failed> {
        self.disk.sync()
    }
}
