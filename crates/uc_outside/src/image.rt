//! Images that a crash may leave, from a record of calls.
ghost use Rattle.std.specs.Prelude.{◌≡◌, ◌+◌, ◌<◌, ◌≤◌, ◌^◌, [], ◌∷◌, ◌++◌, List, ℕ, length, take, drop, IfOk, OnOk, vec_capacity};
ghost use Rattle.uc_outside.specs.Call.{logged, calls_of};
ghost use Rattle.uc_outside.specs.declared.done.Done.{Done};
ghost use Rattle.uc_outside.specs.Image.{settled, ranges, filled, image_by};
ghost use Rattle.uc_outside.specs.Ranges.{ranges_of};
ghost use Rattle.uc_outside.specs.Replay.{over, contents, StaysWithin};

use crate::done::Done;
use std::alloc::{AllocError, Global};

// Lays bytes over a file that has room for them.
pub fn lay(file: &mut Vec<u8>, at: usize, bytes: &[u8])
    requires within { at ≤ length file.old.items }
    requires room { length file.old.items + length bytes.now ≤ vec_capacity file.old }
    ensures laid { file.new.items ≡ over file.old.items at bytes.now }
    ensures capacity { vec_capacity file.old ≤ vec_capacity file.new }
{
    let inside = bytes.len().min(file.len() - at);
    file.as_mut_slice()[at..at + inside].copy_from_slice(&bytes[..inside]);
    match file.extend_from_slice(&bytes[inside..]) {
        Ok(()) => {}
        Err(_) => unreachable!(),
    }
}

/// An image that a crash may leave after these calls, with the fill over what was written since the last sync.
pub fn image_of(
    alloc: Global,
    first: &[u8],
    file: &[u8],
    log: &[u8],
    done: &[Done],
    fill: &[u8],
) -> Result<Vec<u8>, AllocError>
    requires size { logged done.now ≤ length log.now }
    requires within { StaysWithin first.now (calls_of log.now done.now) }
    requires reads { contents first.now (calls_of log.now done.now) ≡ file.now }
    ensures { IfOk result (λ image. image.items ≡ image_by fill.now first.now (calls_of log.now done.now)) }
{
    if fill.is_empty() {
        settled_file(alloc, first, log, done)
    } else {
        filled_file(alloc, file, done, fill)
    }
}

// The file as it was at the last sync, or as it was made.
fn settled_file(
    alloc: Global,
    first: &[u8],
    log: &[u8],
    done: &[Done],
) -> Result<Vec<u8>, AllocError>
    requires size { logged done.now ≤ length log.now }
    requires within { StaysWithin first.now (calls_of log.now done.now) }
    ensures { IfOk result (λ file. file.items ≡ contents first.now (take (settled (calls_of log.now done.now)) (calls_of log.now done.now))) }
{
    replay(alloc, first, log, &done[..settled_calls(done)])
}

// The file with the fill over each range that was written since the last sync.
fn filled_file(
    alloc: Global,
    file: &[u8],
    done: &[Done],
    fill: &[u8],
) -> Result<Vec<u8>, AllocError>
    requires { 0 < length fill.now }
    ensures { (log : List ℕ) → logged done.now ≤ length log
        → IfOk result (λ image. image.items ≡ filled fill.now (ranges (drop (settled (calls_of log done.now)) (calls_of log done.now))) 0 file.now) }
{
    let mut image = Vec::from_slice(alloc, file)?;
    fill_ranges(image.as_mut_slice(), &done[settled_calls(done)..], fill);
    Ok(image)
}

// How many of the calls stand up to the last sync.
fn settled_calls(done: &[Done]) -> usize
    ensures count { (log : List ℕ) → result ≡ settled (calls_of log done.now) }
    ensures within { result ≤ length done.now }
{
    let mut count = 0;
    for i in 0..done.len() {
        count = settled_after(count, done[i], i);
    }
    count
}

// The same with one call more, which stands behind so many others.
fn settled_after(count: usize, call: Done, before: usize) -> usize
    requires room { before + 1 < 2 ^ 64 }
    requires within { count ≤ before }
    ensures count { (log : List ℕ) (calls : List Done) → length calls ≡ before → count ≡ settled (calls_of log calls) → result ≡ settled (calls_of log (calls ++ call ∷ [])) }
    ensures within { result ≤ before + 1 }
{
    match call {
        Done::Wrote { .. } | Done::Spoilt { .. } => count,
        Done::Synced => before + 1,
    }
}

// The file after these calls, as a read gives it.
fn replay(alloc: Global, first: &[u8], log: &[u8], done: &[Done]) -> Result<Vec<u8>, AllocError>
    requires size { logged done.now ≤ length log.now }
    requires within { StaysWithin first.now (calls_of log.now done.now) }
    ensures { IfOk result (λ file. file.items ≡ contents first.now (calls_of log.now done.now)) }
{
    let mut file = Vec::from_slice(alloc, first)?;
    let mut used = 0;
    for i in 0..done.len() {
        used = redo(&mut file, log, used, done[i])?;
    }
    Ok(file)
}

// Does one call again, whose bytes stand in the log from there on.
fn redo(file: &mut Vec<u8>, log: &[u8], used: usize, call: Done) -> Result<usize, AllocError>
    requires size { used + logged (call ∷ []) ≤ length log.now }
    requires within { StaysWithin file.old.items (calls_of (drop used log.now) (call ∷ [])) }
    ensures file { OnOk result (file.new.items ≡ contents file.old.items (calls_of (drop used log.now) (call ∷ []))) }
    ensures used { IfOk result (λ next. next ≡ used + logged (call ∷ [])) }
{
    match call {
        Done::Wrote { at, len } => {
            file.reserve(len)?;
            lay(file, at, &log[used..used + len]);
            Ok(used + len)
        }
        Done::Spoilt { .. } | Done::Synced => Ok(used),
    }
}

// Lays the fill over each range that the calls wrote, as far as the image goes.
fn fill_ranges(image: &mut [u8], done: &[Done], fill: &[u8])
    requires { 0 < length fill.now }
    ensures { image.new ≡ filled fill.now (ranges_of done.now) 0 image.old }
{
    for i in 0..done.len() {
        fill_call(image, done[i], fill);
    }
}

// Lays the fill over what one call wrote.
fn fill_call(image: &mut [u8], call: Done, fill: &[u8])
    requires { 0 < length fill.now }
    ensures { image.new ≡ filled fill.now (ranges_of (call ∷ [])) 0 image.old }
{
    match call {
        Done::Wrote { at, len } | Done::Spoilt { at, len } => fill_range(image, at, len, fill),
        Done::Synced => {}
    }
}

// Lays the fill over one range, from its front and repeated.
fn fill_range(image: &mut [u8], at: usize, len: usize, fill: &[u8])
    requires { 0 < length fill.now }
    ensures { image.new ≡ filled fill.now ((at, len) ∷ []) 0 image.old }
{
    let end = at.saturating_add(len).min(image.len());
    for i in at..end {
        image[i] = fill[(i - at) % fill.len()];
    }
}
