//! Runs of bytes with one more.

ghost use Rattle.std.specs.Prelude.{◌≡◌, ℕ, ◌<◌, ◌≤◌, ◌+◌, ◌-◌, ◌||◌, length, slice_get, IfSome, IsSomeAnd, IfOk, OnOk, OnErr};
ghost use Rattle.abi_index.specs.RangeSet.{is_in_run, is_in_ranges, AreMaximalRuns};

use crate::inline_vec::InlineVec;
use std::alloc::{AllocError, Global};

/// Adds the bytes from one on up to another, and without that one, to these runs, each its first byte and how many
/// bytes it has. Where they begin no earlier than the last run, only that one changes or one more comes behind it; else
/// the list is made anew. `AllocError` where memory is refused: then the runs are as they were.
pub(crate) fn add_run(
    alloc: Global,
    runs: &mut InlineVec<(u64, u64)>,
    from: u64,
    to: u64,
) -> Result<(), AllocError>
    requires some { from < to }
    requires maximal { AreMaximalRuns 0 runs.old.items }
    ensures bytes { OnOk result ((k : ℕ) → is_in_ranges runs.new.items k
        ≡ (is_in_run k (from, to - from) || is_in_ranges runs.old.items k)) }
    ensures maximal { AreMaximalRuns 0 runs.new.items }
    ensures err { OnErr result (runs.new.items ≡ runs.old.items) }
{
    match runs.as_slice().last().copied() {
        None => push_run(runs, from, to),
        Some((first, size)) if first + size < from => push_run(runs, from, to),
        Some((first, _size)) if first <= from => {
            lengthen_last(runs, from, to);
            Ok(())
        }
        Some(_) => {
            *runs = InlineVec::from_vec(with_run(alloc, runs.as_slice(), from, to)?);
            Ok(())
        }
    }
}

/// Puts the run from a byte on up to another and without it behind these, of which none meets it. `AllocError` where
/// memory is refused: then the runs are as they were.
fn push_run(runs: &mut InlineVec<(u64, u64)>, from: u64, to: u64) -> Result<(), AllocError>
    requires some { from < to }
    requires maximal { AreMaximalRuns 0 runs.old.items }
    requires behind { IfSome (slice_get runs.old.items (length runs.old.items - 1)) (λ last.
        last.0 + last.1 < from) }
    ensures bytes { OnOk result ((k : ℕ) → is_in_ranges runs.new.items k
        ≡ (is_in_run k (from, to - from) || is_in_ranges runs.old.items k)) }
    ensures maximal { AreMaximalRuns 0 runs.new.items }
    ensures err { OnErr result (runs.new.items ≡ runs.old.items) }
{
    runs.push((from, to - from))?;
    Ok(())
}

/// Makes the last run reach from a byte that it has, or that is directly behind it, up to another and without that one.
fn lengthen_last(runs: &mut InlineVec<(u64, u64)>, from: u64, to: u64)
    requires some { from < to }
    requires maximal { AreMaximalRuns 0 runs.old.items }
    requires meets { IsSomeAnd (slice_get runs.old.items (length runs.old.items - 1)) (λ last.
        (last.0 ≤ from) × (from ≤ last.0 + last.1)) }
    ensures bytes { (k : ℕ) → is_in_ranges runs.new.items k ≡
        (is_in_run k (from, to - from) || is_in_ranges runs.old.items k) }
    ensures maximal { AreMaximalRuns 0 runs.new.items }
{
    let last = runs.len() - 1;
    let (first, size) = runs.as_slice()[last];
    runs.set_last((first, size.max(to - first)));
}

/// These runs and the one from a byte on up to another and without it, joined to those that it meets. `AllocError`
/// where memory is refused.
fn with_run(
    alloc: Global,
    runs: &[(u64, u64)],
    from: u64,
    to: u64,
) -> Result<Vec<(u64, u64)>, AllocError>
    requires some { from < to }
    requires maximal { AreMaximalRuns 0 runs.now }
    ensures bytes { IfOk result (λ made. (k : ℕ) →
        is_in_ranges made.items k ≡ (is_in_run k (from, to - from) || is_in_ranges runs.now k)) }
    ensures maximal { IfOk result (λ made. AreMaximalRuns 0 made.items) }
{
    let mut start = from;
    let mut end = to;
    let mut made = Vec::with_capacity(alloc, runs.len() + 1)?;
    for i in 0..runs.len() {
        let (first, size) = runs[i];
        if end < first {
            made.push((start, end - start))?;
            made.extend_from_slice(&runs[i..])?;
            return Ok(made);
        }
        if first + size < start {
            made.push((first, size))?;
        } else {
            start = start.min(first);
            end = end.max(first + size);
        }
    }
    made.push((start, end - start))?;
    Ok(made)
}
