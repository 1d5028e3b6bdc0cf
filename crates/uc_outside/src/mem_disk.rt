//! A disk in memory. Its record of calls tells what a crash might have left at any moment.
ghost use Rattle.std.specs.Prelude.{◌≡◌, ◌+◌, ◌^◌, ◌↔◌, ◌≤◌, [], ◌∷◌, ◌++◌, length, take, drop, IfOk, IfErr, IsErr, OnOk, OnErr, vec_capacity};
ghost use Rattle.uc_outside.specs.Count.{HasCause};
ghost use Rattle.uc_outside.specs.Disk.{Rests, Writes, Syncs};
ghost use Rattle.uc_outside.specs.Call.{Synced};
ghost use Rattle.uc_base.specs.declared.fault.Fault.TheVariants.{Memory};
ghost use Rattle.uc_outside.specs.Image.{image_by};
ghost use Rattle.uc_outside.specs.MemDisk.{Refuses, Counts, Records, Adds, disk_view};
ghost use Rattle.uc_outside.specs.Replay.{over};

use crate::counter::Counter;
use crate::done::Done;
use crate::image::{image_of, lay};
use crate::script::Script;
use crate::{Disk, Failed};
use std::alloc::Global;
use std::marker::Model;
use uc_base::{Bytes, Fault};

/// A disk in memory, which tells all that it holds and all that a crash may leave of it.
#[derive(Drop)]
pub struct MemDisk {
    first: Bytes,
    file: Vec<u8>,
    log: Vec<u8>,
    done: Vec<Done>,
    counter: Counter,
}

impl Model for MemDisk {
    ghost use Rattle.uc_outside.specs.MemDisk.{MemFile};

    ghost Value = { MemFile };

    ghost use Rattle.uc_outside.specs.Kept.{mem_file, IsKept};

    ghost view = { mem_file };

    ghost invariant = { IsKept };
}

impl MemDisk {
    /// A disk that holds these bytes. It takes its memory here: for `calls` calls, which write `room` bytes in all.
    /// The calls whose numbers stand in `failing` fail; they are counted from 1.
    pub fn new(
        alloc: Global,
        bytes: Bytes,
        calls: u64,
        room: u64,
        failing: Vec<u64>,
    ) -> Result<MemDisk, Fault>
        ensures made { IfOk result (λ disk. disk ≡ record { first = bytes; calls = []; left = calls; plan = record { made = 0; room = room; failing = failing.items }; failed = 0 }) }
        ensures fault { IfErr result (λ fault. fault ≡ Memory) }
    {
        let mut file = Vec::from_slice(alloc, bytes.as_slice())?;
        file.reserve(room as usize)?;
        Ok(MemDisk {
            first: bytes,
            file,
            log: Vec::with_capacity(alloc, room as usize)?,
            done: Vec::with_capacity(alloc, calls as usize)?,
            counter: Counter {
                left: calls,
                script: Script::new(room, failing),
                failed: 0,
            },
        })
    }

    /// One image that a crash may leave now. The bytes of `fill`, repeated from its front, stand over each range that was
    /// written since the last sync that succeeded. An empty `fill` gives the file as it was at that sync, or as it was
    /// made.
    pub fn image(&self, alloc: Global, fill: &[u8]) -> Result<Bytes, Fault>
        ensures exactly { IfOk result (λ image. image ≡ image_by fill.now self.now.first self.now.calls) }
        ensures left { IfOk result (λ image. (disk_view self.now).may_leave image) }
        ensures fault { IfErr result (λ fault. fault ≡ Memory) }
    {
        let first = self.first.as_slice();
        let image = image_of(alloc, first, &self.file, &self.log, &self.done, fill)?;
        Ok(Bytes::from_vec(image))
    }
}

impl Disk for MemDisk {
    ghost use Rattle.uc_outside.specs.Sound.{told_by_sound};

    ghost tells = { Unit {0} };

    ghost view = { disk_view };

    ghost place = { λ _. 0 };

    ghost faults = { λ disk. disk.failed };

    ghost sound = { λ disk _. told_by_sound disk.first disk.calls };

    fn len(&mut self) -> Result<u64, Failed>
        ensures length { IfOk result (λ n. n ≡ length (disk_view self.old).seen) }
        ensures told { Rests (disk_view self.old) (disk_view self.new) }
        ensures cause { HasCause self.old.failed self.new.failed result }
        ensures exactly { IsErr result ↔ Refuses self.old 0 }
        ensures counted { Counts self.old self.new 0 result }
        ensures calls { self.new.calls ≡ self.old.calls }
    {
        if self.counter.refuses(0) {
            return Err(Failed);
        }
        Ok(self.file.len() as u64)
    }

    fn read_at(&mut self, at: u64, room: &mut [u8]) -> Result<(), Failed>
        requires { at + length room.old ≤ length (disk_view self.old).seen }
        ensures bytes { OnOk result (room.new ≡ take (length room.old) (drop at (disk_view self.old).seen)) }
        ensures told { Rests (disk_view self.old) (disk_view self.new) }
        ensures cause { HasCause self.old.failed self.new.failed result }
        ensures exactly { IsErr result ↔ Refuses self.old 0 }
        ensures counted { Counts self.old self.new 0 result }
        ensures calls { self.new.calls ≡ self.old.calls }
    {
        if self.counter.refuses(0) {
            return Err(Failed);
        }
        let from = at as usize;
        room.copy_from_slice(&self.file[from..from + room.len()]);
        Ok(())
    }

    fn write_at(&mut self, at: u64, bytes: &[u8]) -> Result<(), Failed>
        requires { at ≤ length (disk_view self.old).seen }
        ensures told { Writes at bytes.now (disk_view self.old) (disk_view self.new) result }
        ensures cause { HasCause self.old.failed self.new.failed result }
        ensures exactly { IsErr result ↔ Refuses self.old (length bytes.now) }
        ensures counted { Counts self.old self.new (length bytes.now) result }
        ensures calls { Records at bytes.now self.old self.new result }
    {
        let at = at as usize;
        let len = bytes.len();
        if self.counter.refuses(len as u64) {
            let _ = self.done.push(Done::Spoilt { at, len });
            return Err(Failed);
        }
        lay(&mut self.file, at, bytes);
        self.log.extend_from_slice(bytes).unwrap();
        self.done.push(Done::Wrote { at, len }).unwrap();
        Ok(())
    }

    fn sync(&mut self) -> Result<(), Failed>
        ensures told { Syncs (disk_view self.old) (disk_view self.new) result }
        ensures cause { HasCause self.old.failed self.new.failed result }
        ensures exactly { IsErr result ↔ Refuses self.old 0 }
        ensures counted { Counts self.old self.new 0 result }
        ensures calls { OnOk result (Adds self.old Synced self.new) }
        ensures calls_err { OnErr result (self.new.calls ≡ self.old.calls) }
    {
        if self.counter.refuses(0) {
            return Err(Failed);
        }
        self.done.push(Done::Synced).unwrap();
        Ok(())
    }
}
