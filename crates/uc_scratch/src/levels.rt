//! Counts of levels. Want of memory stands for a count past the last u64.
ghost use Rattle.std.specs.Prelude.{◌≡◌, ◌+◌, IfOk};

use std::alloc::AllocError;

/// So many levels more.
pub fn plus(levels: u64, more: u64) -> Result<u64, AllocError>
    ensures { IfOk result (λ n. n ≡ levels + more) }
{
    levels.checked_add(more).ok_or(AllocError)
}
