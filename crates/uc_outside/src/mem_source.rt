//! A source in memory.
ghost use Rattle.std.specs.Prelude.{◌≡◌, ◌<◌, ◌↔◌, ◌≤◌, [], ◌++◌, length, take, IfOk, OnErr, IsErr};

use crate::script::Script;
use crate::{Failed, Source};
use std::marker::Model;
use uc_base::Bytes;

/// A source that gives bytes from memory, so many at the most in each read.
#[derive(Drop)]
pub struct MemSource {
    bytes: Bytes,
    at: usize,
    piece: usize,
    script: Script,
    failed: u64,
}

impl Model for MemSource {
    ghost use Rattle.uc_outside.specs.MemSource.{MemInput};

    ghost Value = { MemInput };

    ghost use Rattle.uc_outside.specs.MemSourceView.{mem_input, IsInput};

    ghost view = { mem_input };

    ghost invariant = { IsInput };
}

impl MemSource {
    /// A source of these bytes. The calls whose numbers stand in `failing` fail; they are counted from 1.
    pub fn new(bytes: Bytes, piece: usize, failing: Vec<u64>) -> MemSource
        requires { 0 < piece }
        ensures { result ≡ record { left = bytes; piece = piece; plan = record { made = 0; room = 0; failing = failing.items }; failed = 0 } }
    {
        MemSource {
            bytes,
            at: 0,
            piece,
            script: Script::new(0, failing),
            failed: 0,
        }
    }
}

// Copies as much of the bytes as goes into the room, at most a piece.
fn copy_piece(bytes: &[u8], piece: usize, room: &mut [u8]) -> usize
    requires { 0 < piece }
    ensures within { (result ≤ length room.old) × (result ≤ length bytes.now) }
    ensures copied { take result room.new ≡ take result bytes.now }
    ensures some { result ≡ 0 → 0 < length room.old → bytes.now ≡ [] }
{
    let size = piece.min(bytes.len()).min(room.len());
    room[..size].copy_from_slice(&bytes[..size]);
    size
}

impl Source for MemSource {
    ghost use Rattle.uc_outside.specs.Count.{HasCause};
    ghost use Rattle.uc_outside.specs.MemSource.{CountsRead};
    ghost use Rattle.uc_outside.specs.Plan.{Fails};

    ghost tells = { Unit {0} };

    ghost left = { λ source. source.left };

    ghost faults = { λ source. source.failed };

    fn read(&mut self, room: &mut [u8]) -> Result<usize, Failed>
        ensures within { IfOk result (λ n. n ≤ length room.old) }
        ensures read { IfOk result (λ n. self.old.left ≡ take n room.new ++ self.new.left) }
        ensures end { IfOk result (λ n. n ≡ 0 → 0 < length room.old → self.old.left ≡ []) }
        ensures kept { OnErr result (self.new.left ≡ self.old.left) }
        ensures cause { HasCause self.old.failed self.new.failed result }
        ensures exactly { IsErr result ↔ Fails self.old.plan 0 }
        ensures counted { CountsRead self.old self.new result }
    {
        if self.script.refuses(0) {
            self.failed = self.failed.saturating_add(1);
            return Err(Failed);
        }
        let size = copy_piece(&self.bytes.as_slice()[self.at..], self.piece, room);
        self.at += size;
        Ok(size)
    }
}
