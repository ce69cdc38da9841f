//! What cuts leave of a run of bytes.

ghost use Rattle.std.specs.Prelude.{◌≡◌, ℕ, ◌<◌, ◌≤◌, ◌+◌, ◌-◌, ◌&&◌, ◌||◌, not, length, take, slice_get, OnOk, IfOk, IfSome};
ghost use Rattle.abi_index.specs.RangeSet.{is_in_run, is_in_ranges, AreMaximalRuns, EndBy};

use crate::range_set::RangeSet;
use std::alloc::AllocError;

/// Adds to a set the bytes from `from` on and before `to` that are in no cut. A cut is a run of bytes, its first byte
/// and how many bytes it has; the cuts before the index `first` have to end by `from`. Answers the index of the first
/// cut that ends behind `to`, or how many cuts there are where none does: what comes later can begin with that one.
/// `AllocError` where memory is refused.
pub(crate) fn add_uncut(
    made: &mut RangeSet,
    from: u64,
    to: u64,
    cuts: &[(u64, u64)],
    first: usize,
) -> Result<usize, AllocError>
    requires ascend { from ≤ to }
    requires maximal { AreMaximalRuns 0 cuts.now }
    requires place { first ≤ length cuts.now }
    requires passed { EndBy from (take first cuts.now) }
    ensures bytes { OnOk result ((k : ℕ) →
        is_in_ranges made.new k ≡ ((is_in_run k (from, to - from) && not (is_in_ranges cuts.now k))
        || is_in_ranges made.old k)) }
    ensures place { IfOk result (λ next. next ≤ length cuts.now) }
    ensures passed { IfOk result (λ next. EndBy to (take next cuts.now)) }
    ensures behind { IfOk result (λ next.
        IfSome (slice_get cuts.now next) (λ cut. to < cut.0 + cut.1)) }
{
    let mut start = from;
    for next in first..cuts.len() {
        let (cut, size) = cuts[next];
        made.add_range(start, cut.min(to).saturating_sub(start))?;
        if to < cut + size {
            return Ok(next);
        }
        start = start.max(cut + size);
    }
    made.add_range(start, to - start)?;
    Ok(cuts.len())
}
