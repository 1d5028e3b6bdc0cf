//! A sink in memory.
ghost use Rattle.std.specs.Prelude.{◌≡◌, ◌+◌, ◌<◌, ◌↔◌, ◌≤◌, [], ◌++◌, length, take, IfOk, IfErr, OnErr, OnOk, IsErr};
ghost use Rattle.uc_base.specs.declared.fault.Fault.TheVariants.{Memory};

use crate::script::Script;
use crate::{Failed, Sink};
use std::alloc::Global;
use std::marker::Model;
use uc_base::Fault;

/// A sink that keeps what is written, up to a limit.
#[derive(Drop)]
pub struct MemSink {
    bytes: Vec<u8>,
    script: Script,
    failed: u64,
}

impl Model for MemSink {
    ghost use Rattle.uc_outside.specs.MemSink.{MemOutput};

    ghost Value = { MemOutput };

    ghost use Rattle.uc_outside.specs.MemSinkView.{mem_output, HasRoom};

    ghost view = { mem_output };

    ghost invariant = { HasRoom };
}

impl MemSink {
    /// A sink for `room` bytes, whose memory it takes here. The calls whose numbers stand in `failing` fail; they
    /// are counted from 1. So does a write that goes past the room.
    pub fn new(alloc: Global, room: u64, failing: Vec<u64>) -> Result<MemSink, Fault>
        ensures made { IfOk result (λ sink. sink ≡ record { taken = []; plan = record { made = 0; room = room; failing = failing.items }; failed = 0 }) }
        ensures err { IfErr result (λ fault. fault ≡ Memory) }
    {
        Ok(MemSink {
            bytes: Vec::with_capacity(alloc, room as usize)?,
            script: Script::new(room, failing),
            failed: 0,
        })
    }

    /// What was written.
    pub fn bytes(&self) -> &[u8]
        ensures { result.now ≡ self.now.taken }
    {
        self.bytes.as_slice()
    }
}

impl Sink for MemSink {
    ghost use Rattle.uc_outside.specs.Count.{HasCause};
    ghost use Rattle.uc_outside.specs.MemSink.{CountsWrite};
    ghost use Rattle.uc_outside.specs.Plan.{Fails};

    ghost tells = { Unit {0} };

    ghost taken = { λ sink. sink.taken };

    ghost faults = { λ sink. sink.failed };

    /// Takes the whole piece.
    fn write(&mut self, bytes: &[u8]) -> Result<usize, Failed>
        ensures whole { IfOk result (λ n. n ≡ length bytes.now) }
        ensures within { IfOk result (λ n. n ≤ length bytes.now) }
        ensures some { IfOk result (λ n. 0 < length bytes.now → 0 < n) }
        ensures written { IfOk result (λ n. self.new.taken ≡ self.old.taken ++ take n bytes.now) }
        ensures kept { OnErr result (self.new.taken ≡ self.old.taken) }
        ensures cause { HasCause self.old.failed self.new.failed result }
        ensures exactly { IsErr result ↔ Fails self.old.plan (length bytes.now) }
        ensures counted { CountsWrite self.old self.new (length bytes.now) result }
    {
        if self.script.refuses(bytes.len() as u64) {
            self.failed = self.failed.saturating_add(1);
            return Err(Failed);
        }
        self.bytes.extend_from_slice(bytes).unwrap();
        Ok(bytes.len())
    }

    fn flush(&mut self) -> Result<(), Failed>
        ensures kept { self.new.taken ≡ self.old.taken }
        ensures cause { HasCause self.old.failed self.new.failed result }
        ensures exactly { IsErr result ↔ Fails self.old.plan 0 }
        ensures counted { CountsWrite self.old self.new 0 result }
    {
        if self.script.refuses(0) {
            self.failed = self.failed.saturating_add(1);
            return Err(Failed);
        }
        Ok(())
    }
}
