//! The outside: devices as traits, and devices in memory.
#![tactic(auto)]

mod counter;
mod digester;
mod disk;
mod done;
mod failed;
mod file_disk;
mod image;
mod lent;
mod mem_disk;
mod mem_sink;
mod mem_source;
mod script;
mod sink;
mod source;
mod std_streams;

pub use digester::{Digester, Sha512Digester, SumDigester};
pub use disk::Disk;
pub use failed::Failed;
pub use file_disk::FileDisk;
pub use lent::Lent;
pub use mem_disk::MemDisk;
pub use mem_sink::MemSink;
pub use mem_source::MemSource;
pub use sink::Sink;
pub use source::Source;
pub use std_streams::{StdInput, StdOutput};

#[cfg(test)]
mod tests;
