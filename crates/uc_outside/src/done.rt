/// A call of a disk in memory that changed what a crash may leave. What a write wrote stands in a log.
#[derive(Clone, Copy, Debug, Drop)]
pub enum Done {
    Wrote { at: usize, len: usize },
    Spoilt { at: usize, len: usize },
    Synced,
}
