//! A disk over a real file. What such a file holds is trusted, and no clause speaks of it.
ghost use Rattle.std.specs.Prelude.{◌≡◌};
ghost use Rattle.uc_outside.specs.Count.{HasCause};

use crate::{Disk, Failed};
use std::fs::{OpenFile, OpenOptions};
use std::io::{self, Read, Seek, SeekFrom, Write};
use std::rt::Files;

/// A file that is opened at the first call, and made then where there is none.
#[derive(Drop)]
pub struct FileDisk<R: Files + Drop> {
    file: LateFile<R>,
    failed: u64,
}

impl<R: Files + Drop> FileDisk<R> {
    /// The file of that path. No call is made on it here.
    pub fn new(files: R, path: &'static str) -> FileDisk<R>
        ensures { result.failed ≡ 0 }
    {
        FileDisk {
            file: LateFile {
                files,
                path,
                opened: None,
            },
            failed: 0,
        }
    }

    // Counts an error.
    fn count<T: Drop>(&mut self, outcome: io::Result<T>) -> Result<T, Failed>
        ensures { HasCause self.old.failed self.new.failed result }
    {
        match outcome {
            Ok(value) => Ok(value),
            Err(_) => {
                self.failed = self.failed.saturating_add(1);
                Err(Failed)
            }
        }
    }
}

impl<R: Files + Drop> Disk for FileDisk<R> {
    ghost use Rattle.uc_outside.specs.Disk.{untold};

    ghost tells = { ⊥ };

    ghost view = { λ _. untold };

    ghost place = { λ _. 0 };

    ghost faults = { λ disk. disk.failed };

    ghost sound = { λ _ told. absurd told };

    fn len(&mut self) -> Result<u64, Failed> {
        let outcome = self.file.len();
        self.count(outcome)
    }

    fn read_at(&mut self, at: u64, room: &mut [u8]) -> Result<(), Failed> {
        let outcome = self.file.read_at(at, room);
        self.count(outcome)
    }

    fn write_at(&mut self, at: u64, bytes: &[u8]) -> Result<(), Failed> {
        let outcome = self.file.write_at(at, bytes);
        self.count(outcome)
    }

    fn sync(&mut self) -> Result<(), Failed> {
        let outcome = self.file.sync();
        self.count(outcome)
    }
}

/// A file that is opened when it is first used.
#[derive(Drop)]
struct LateFile<R: Files + Drop> {
    files: R,
    path: &'static str,
    opened: Option<R::File>,
}

impl<R: Files + Drop> LateFile<R> {
    fn file(&mut self) -> io::Result<&mut R::File> {
        let file = match self.opened.take() {
            Some(file) => file,
            None => OpenOptions::new()
                .read(true)
                .write(true)
                .create(true)
                .open(&self.files, self.path)?,
        };
        Ok(self.opened.insert(file))
    }

    fn len(&mut self) -> io::Result<u64> {
        Ok(self.file()?.metadata()?.len())
    }

    fn read_at(&mut self, at: u64, room: &mut [u8]) -> io::Result<()> {
        let file = self.file()?;
        file.seek(SeekFrom::Start(at))?;
        file.read_exact(room)
    }

    fn write_at(&mut self, at: u64, bytes: &[u8]) -> io::Result<()> {
        let file = self.file()?;
        file.seek(SeekFrom::Start(at))?;
        file.write_all(bytes)
    }

    fn sync(&mut self) -> io::Result<()> {
        self.file()?.sync_all()
    }
}
