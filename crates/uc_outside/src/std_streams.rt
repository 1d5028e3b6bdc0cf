//! Standard input and output. They tell nothing of their content: what a terminal or a pipe holds is trusted.
ghost use Rattle.std.specs.Prelude.{◌≡◌, []};

use crate::{Failed, Sink, Source};
use std::io::{Read, Stdin, Stdout, Write};

/// Standard input.
#[derive(Drop)]
pub struct StdInput {
    stdin: Stdin,
    pub failed: u64,
}

impl StdInput {
    /// Reads from this stream.
    pub fn new(stdin: Stdin) -> StdInput
        ensures { result.failed ≡ 0 }
    {
        StdInput { stdin, failed: 0 }
    }
}

impl Source for StdInput {
    ghost tells = { ⊥ };

    ghost left = { λ _. [] };

    ghost faults = { λ input. input.failed };

    fn read(&mut self, room: &mut [u8]) -> Result<usize, Failed> {
        match self.stdin.read(room) {
            Ok(size) => Ok(size),
            Err(_) => {
                self.failed = self.failed.saturating_add(1);
                Err(Failed)
            }
        }
    }
}

/// Standard output. A write that takes nothing of a piece counts as a failure.
#[derive(Drop)]
pub struct StdOutput {
    stdout: Stdout,
    pub failed: u64,
}

impl StdOutput {
    /// Writes to this stream.
    pub fn new(stdout: Stdout) -> StdOutput
        ensures { result.failed ≡ 0 }
    {
        StdOutput { stdout, failed: 0 }
    }
}

impl Sink for StdOutput {
    ghost tells = { ⊥ };

    ghost taken = { λ _. [] };

    ghost faults = { λ output. output.failed };

    fn write(&mut self, bytes: &[u8]) -> Result<usize, Failed> {
        match self.stdout.write(bytes) {
            Ok(size) if size > 0 || bytes.is_empty() => Ok(size),
            _ => {
                self.failed = self.failed.saturating_add(1);
                Err(Failed)
            }
        }
    }

    fn flush(&mut self) -> Result<(), Failed> {
        match self.stdout.flush() {
            Ok(()) => Ok(()),
            Err(_) => {
                self.failed = self.failed.saturating_add(1);
                Err(Failed)
            }
        }
    }
}
