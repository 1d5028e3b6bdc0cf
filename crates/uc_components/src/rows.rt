//! Rows of rows that grow item by item.
ghost use Rattle.std.specs.Prelude.{◌≡◌, ◌<◌, [], length, slice_set, OnOk, IfOk, IfErr, ℕ, slice_index_or};
ghost use Rattle.uc_components.specs.Rows.{lists, pushed};

use std::alloc::{AllocError, Global};

/// As many empty rows as asked for.
pub fn empty_rows<T: Drop>(alloc: Global, count: usize) -> Result<Vec<Vec<T>>, AllocError>
    ensures len { IfOk result (λ rows. length (lists rows) ≡ count) }
    ensures empty { IfOk result (λ rows. (at : ℕ) → slice_index_or (lists rows) at [] ≡ []) }
{
    let mut rows = Vec::new(alloc);
    for _ in 0..count {
        rows.push(Vec::new(alloc))?;
    }
    Ok(rows)
}

/// Adds an item at the end of a row.
pub fn push_at<T: Drop>(rows: &mut Vec<Vec<T>>, at: usize, item: T) -> Result<(), AllocError>
    requires { at < length (lists rows.old) }
    ensures { OnOk result (lists rows.new ≡ pushed (lists rows.old) at item) }
{
    rows[at].push(item)?;
    Ok(())
}

/// A row.
pub fn row_at<T>(rows: &Vec<Vec<T>>, at: usize) -> &[T]
    requires { at < length (lists rows.now) }
    ensures { result.now ≡ slice_index_or (lists rows.now) at [] }
{
    rows[at].as_slice()
}

/// Takes a row out, and leaves an empty one.
pub fn take_row<T: Drop>(alloc: Global, rows: &mut Vec<Vec<T>>, at: usize) -> Vec<T>
    requires { at < length (lists rows.old) }
    ensures items { result.items ≡ slice_index_or (lists rows.old) at [] }
    ensures rows { lists rows.new ≡ slice_set (lists rows.old) at [] }
{
    std::mem::replace(&mut rows[at], Vec::new(alloc))
}
