//! Where runs begin.

ghost use Rattle.std.specs.Prelude.{◌≡◌, ℕ, ◌<◌, ◌≤◌, ◌&&◌, ◌||◌, IfOk, OnOk, map, nat_lt};
ghost use Rattle.abi_index.specs.RangeSet.{is_in_ranges};
ghost use Rattle.abi_tree.specs.Parts.{kept_part};
ghost use Rattle.abi_map.specs.Starts.{changes, is_start, starts_of};
ghost use Rattle.abi_map.specs.Covering.{AreAscending};
ghost use Rattle.abi_map.specs.Numbers.{AddsBelow, numbers};

use abi_index::{RangeSet, RangeSetBuilder};
use abi_tree::PartBytes;
use std::alloc::{AllocError, Global};

/// Puts the bytes at which a part changes behind others; what isn't below the size is left open.
fn put_changes(
    alloc: Global,
    runs: &mut RangeSetBuilder,
    part: &PartBytes,
    size: u64,
) -> Result<(), AllocError>
    requires { size ≤ 65536 }
    ensures { OnOk result (AddsBelow size runs.old runs.new (changes (kept_part part.now))) }
{
    let bytes = part.bytes.prefix(alloc, size)?;
    let mut moved = RangeSetBuilder::new(alloc);
    moved.add_set(&bytes, 1)?;
    let before = moved.build(alloc)?;
    runs.add_set(&bytes.difference(alloc, &before)?, 0)?;
    runs.add_set(&before.difference(alloc, &bytes)?, 0)
}

/// The bytes below the size at which runs begin, as a set.
fn start_set(alloc: Global, parts: &[PartBytes], size: u64) -> Result<RangeSet, AllocError>
    requires { size ≤ 65536 }
    ensures { IfOk result (λ set. (k : ℕ) →
        is_in_ranges set k ≡ (nat_lt k size && is_start (map kept_part parts.now) k)) }
{
    let mut runs = RangeSetBuilder::new(alloc);
    runs.add_range(0, 1)?;
    for part in parts {
        put_changes(alloc, &mut runs, part, size)?;
    }
    runs.build(alloc)?.prefix(alloc, size)
}

/// The bytes of a set, one by one.
fn numbers(alloc: Global, set: &RangeSet) -> Result<Vec<u64>, AllocError>
    ensures { IfOk result (λ all. all.items ≡ numbers set.now) }
{
    let mut all = Vec::new(alloc);
    for run in set.as_slice() {
        for k in run.0..run.0 + run.1 {
            all.push(k)?;
        }
    }
    Ok(all)
}

/// The bytes below the size at which runs begin, ascending.
pub(crate) fn starts_of(
    alloc: Global,
    parts: &[PartBytes],
    size: u64,
) -> Result<Vec<u64>, AllocError>
    requires { size ≤ 65536 }
    ensures starts { IfOk result (λ starts.
        starts.items ≡ starts_of (map kept_part parts.now) size) }
    ensures ascend { IfOk result (λ starts. AreAscending starts.items) }
{
    let set = start_set(alloc, parts, size)?;
    numbers(alloc, &set)
}
