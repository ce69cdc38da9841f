//! The least range that holds some values.

ghost use Rattle.std.specs.Prelude.{◌≡◌, ◌≤◌, ◌<◌, ◌%◌, ◌^◌, length, map, All, IfOk};
ghost use Rattle.std.specs.List.Sorted.{IsNonDecreasing};
ghost use Rattle.std.specs.Iterator.{IsFinite};
ghost use Rattle.std.specs.Iterator.Runs.{EachRunFrom, WholeRun};
ghost use Rattle.abi_scalar.specs.Range.{numbers_of};
ghost use Rattle.abi_scalar.specs.LeastRange.{HaveLeastAndGreatest, IsLeastRange, IsSmallestOf};

use crate::wrapping_range::{WrappingRange, steps};
use abi_base::Size;
use std::alloc::{AllocError, Global};

/// Some values as numbers of 64 bits, and the least and the greatest of them, the greatest number there is and 0 where
/// there are none.
#[derive(Drop)]
struct Values {
    list: Vec<u64>,
    least: u64,
    greatest: u64,
}

/// The least range that holds ascending values: from the least to the greatest, or round a gap between two
/// neighbours.
fn least_of_ascending(values: &[u128], size: Size) -> WrappingRange
    requires some { 1 ≤ size }
    requires most { size ≤ 16 }
    requires any { 0 < length values.now }
    requires within { All (λ v. v < numbers_of size) values.now }
    requires ascending { IsNonDecreasing values.now }
    ensures { IsLeastRange size values.now result }
{
    let mut best = WrappingRange {
        start: values[0],
        end: values[values.len() - 1],
    };
    let mut fewest = best.end - best.start;
    for k in 1..values.len() {
        let end = values[k - 1];
        let start = values[k];
        if end < start {
            let reach = steps(start, end, size);
            if reach < fewest {
                best = WrappingRange { start, end };
                fewest = reach;
            }
        }
    }
    best
}

/// These numbers of 64 bits, as values.
fn wide_values(alloc: Global, short: &[u64]) -> Result<Vec<u128>, AllocError>
    ensures { IfOk result (λ values. values.items ≡ short.now) }
{
    let mut values = Vec::with_capacity(alloc, short.len())?;
    for value in short {
        values.push(u128::from(*value))?;
    }
    Ok(values)
}

/// The least range that holds the values, which have at most eight bytes; None for no values.
///
/// Where the way on from the greatest value round to the least is no shorter than the way up from the least to
/// the greatest, which then takes at most half of all numbers, no range that wraps round is better than the one
/// from the least to the greatest, and nothing is sorted.
fn least_of_short(
    alloc: Global,
    values: Values,
    size: Size,
) -> Result<Option<WrappingRange>, AllocError>
    requires some { 1 ≤ size }
    requires most { size ≤ 16 }
    requires within { All (λ v. v < numbers_of size) values.list.items }
    requires ends { HaveLeastAndGreatest values.list.items values.least values.greatest }
    ensures { IfOk result (IsSmallestOf size values.list.items) }
{
    let Values {
        mut list,
        least,
        greatest,
    } = values;
    if list.is_empty() {
        return Ok(None);
    }
    let ends = WrappingRange {
        start: u128::from(least),
        end: u128::from(greatest),
    };
    if ends.end - ends.start <= steps(ends.end, ends.start, size) {
        return Ok(Some(ends));
    }
    list.sort_unstable();
    let sorted = wide_values(alloc, &list)?;
    Ok(Some(least_of_ascending(sorted.as_slice(), size)))
}

/// The least range that holds the values, of whatever width; None for no values.
fn least_of_wide(mut values: Vec<u128>, size: Size) -> Option<WrappingRange>
    requires some { 1 ≤ size }
    requires most { size ≤ 16 }
    requires within { All (λ v. v < numbers_of size) values.items }
    ensures { IsSmallestOf size values.items result }
{
    if values.is_empty() {
        return None;
    }
    values.sort_unstable();
    Some(least_of_ascending(values.as_slice(), size))
}

/// The lower 64 bits of a value.
#[inline(always)]
fn low_half(value: u128) -> u64
    ensures rest { result ≡ value % 2 ^ 64 }
    ensures narrow { result < 2 ^ 64 }
{
    (value % 0x1_0000_0000_0000_0000) as u64
}

/// The lower 64 bits of the values as a list, in the order in which they come, with room for as many as the iterator is
/// sure of; and their ends. Numbers of 64 bits take a third of the time to collect and to sort that the values take.
fn values_of<I: Iterator<Item = u128>>(alloc: Global, values: I) -> Result<Values, AllocError>
where
    I: Drop,
    requires can { I.can_next values }
    requires ends { IsFinite (I.remaining values) }
    ensures items { IfOk result (λ all. WholeRun I.next_gives values (λ p.
        all.list.items ≡ map (λ v. v % 2 ^ 64) p.items)) }
    ensures ends { IfOk result (λ all. HaveLeastAndGreatest all.list.items all.least all.greatest) }
{
    let (sure, _) = values.size_hint();
    let mut list = Vec::with_capacity(alloc, sure)?;
    let mut least = u64::MAX;
    let mut greatest = 0;
    for value in values {
        let value = low_half(value);
        least = least.min(value);
        greatest = greatest.max(value);
        list.push(value)?;
    }
    Ok(Values {
        list,
        least,
        greatest,
    })
}

/// The values as a list, in the order in which they come, with room for as many as the iterator is sure of.
fn wide_values_of<I: Iterator<Item = u128>>(
    alloc: Global,
    values: I,
) -> Result<Vec<u128>, AllocError>
where
    I: Drop,
    requires can { I.can_next values }
    requires ends { IsFinite (I.remaining values) }
    ensures { IfOk result (λ all. WholeRun I.next_gives values (λ p. all.items ≡ p.items)) }
{
    let (sure, _) = values.size_hint();
    let mut all = Vec::with_capacity(alloc, sure)?;
    for value in values {
        all.push(value)?;
    }
    Ok(all)
}

impl WrappingRange {
    /// The least range of numbers of `size` bytes that holds the values, which come in any order: the one with the
    /// fewest numbers, of several such one that does not wrap round, else the one with the least end. None for no
    /// values.
    ///
    /// Asked of values that end, each a number of `size` bytes, and of 1 to 16 bytes. `AllocError` where memory
    /// for the values is refused.
    pub fn smallest_range_containing<I: IntoIterator<Item = u128>>(
        alloc: Global,
        values: I,
        size: Size,
    ) -> Result<Option<WrappingRange>, AllocError>
    where
        I::IntoIter: Drop,
        requires some { 1 ≤ size }
        requires most { size ≤ 16 }
        requires ends { (items : I.IntoIter) → I.into_iter_gives values items
            → I.IntoIter.can_next items × IsFinite (I.IntoIter.remaining items) }
        requires within { (items : I.IntoIter) → I.into_iter_gives values items →
            EachRunFrom I.IntoIter.next_gives items (λ p. All (λ v. v < numbers_of size) p.items) }
        ensures { IfOk result (λ found. (items : I.IntoIter) × I.into_iter_gives values items
            × WholeRun I.IntoIter.next_gives items (λ p. IsSmallestOf size p.items found)) }
    {
        let values = values.into_iter();
        if size.bytes() > 8 {
            let all = wide_values_of(alloc, values)?;
            return Ok(least_of_wide(all, size));
        }
        let all = values_of(alloc, values)?;
        Ok(least_of_short(alloc, all, size)?)
    }
}
