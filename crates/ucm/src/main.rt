//! A codebase manager: definitions under the hash of their structure.
//!
//! `run` is the whole program, over an input, an output and a disk; `main` hands it the real ones.
#![tactic(auto)]

mod adding;
mod input;
mod number_line;
mod output;
mod run;
#[cfg(test)]
mod tests;

use output::conclude;
pub use run::run;
use std::alloc::Global;
use std::process::ExitCode;
use std::{env, io};
use uc_base::Bytes;
use uc_outside::{MemDisk, StdInput, StdOutput};

/// The words of the command line without the program's name. Words that aren't UTF-8 count as none.
fn words_of(alloc: Global, arguments: io::Result<env::Args>) -> Result<Vec<String>, io::ErrorKind> {
    let mut words = Vec::new(alloc);
    match arguments {
        Ok(arguments) => {
            for word in arguments.skip(1) {
                if words.push(word).is_err() {
                    return Err(io::ErrorKind::OutOfMemory);
                }
            }
            Ok(words)
        }
        Err(error) => match error.kind() {
            io::ErrorKind::OutOfMemory => Err(io::ErrorKind::OutOfMemory),
            _ => Ok(words),
        },
    }
}

fn main(rt: HostRuntime) -> ExitCode {
    let alloc = rt.alloc();
    let mut input = StdInput::new(rt.stdin());
    let mut output = StdOutput::new(rt.stdout());
    let disk = MemDisk::new(
        alloc,
        Bytes::from_vec(Vec::new(alloc)),
        0,
        0,
        Vec::new(alloc),
    );
    let words = words_of(alloc, env::args(&rt));
    match (words, disk) {
        (Ok(words), Ok(mut disk)) => {
            ExitCode::from(run(alloc, &words, &mut input, &mut output, &mut disk))
        }
        _ => ExitCode::from(conclude(&mut output, b"refused 50 Memory\n", 6)),
    }
}
