//! Ranges of numbers that may wrap round.

ghost use Rattle.std.specs.Prelude.{◌≡◌, ℕ, ◌≤◌, ◌<◌, ◌-◌, ◌↔◌, IsTrue, Some, IsErr, IfOk, codes};
ghost use Rattle.abi_scalar.specs.Range.{numbers_of, IsIn, IsBetween, IsFree, IsFull, Includes, AreWithin, free_count, full_range, steps_between};
ghost use Rattle.abi_scalar.specs.Wraparound.{unsigned_place, signed_place, HasNoGap};
ghost use Rattle.abi_scalar.specs.RangeText.{range_text};

use abi_base::Size;
use std::error::Error;
use std::fmt;
use std::fmt::{Debug, Display};

/// The numbers that are met when counting from `start` to `end`, modulo 2 to the width in bits that the range
/// is read at. It wraps round where `start` is above `end`.
#[derive(Clone, Copy, PartialEq, Eq, Hash)]
pub struct WrappingRange {
    /// The number that the count begins with.
    pub start: u128,
    /// The number that it ends with, which is in the range too.
    pub end: u128,
}

/// The greatest number of `size` bytes.
pub(crate) fn greatest_number(size: Size) -> u128
    requires some { 1 ≤ size }
    requires most { size ≤ 16 }
    ensures { result ≡ numbers_of size - 1 }
{
    size.unsigned_int_max()
}

/// Whether the number is met when counting from the start to the end.
fn is_between(start: u128, end: u128, n: u128) -> bool
    ensures { IsTrue result ↔ IsBetween start end n }
{
    if start <= end {
        start <= n && n <= end
    } else {
        start <= n || n <= end
    }
}

/// How many steps lead from one number of `size` bytes to another, counting up.
pub(crate) fn steps(start: u128, end: u128, size: Size) -> u128
    requires some { 1 ≤ size }
    requires most { size ≤ 16 }
    requires start_within { start < numbers_of size }
    requires end_within { end < numbers_of size }
    ensures { result ≡ steps_between size start end }
{
    if start <= end {
        end - start
    } else {
        greatest_number(size) - start + 1 + end
    }
}

/// Whether the numbers ascend.
fn ascend(first: u128, last: u128, reach: u128) -> bool
    ensures { IsTrue result ↔ ((first ≤ last) × (last ≤ reach)) }
{
    first <= last && last <= reach
}

/// How many numbers of `size` bytes are below this one, where they are read as signed.
fn place(n: u128, size: Size) -> u128
    requires some { 1 ≤ size }
    requires most { size ≤ 16 }
    requires within { n < numbers_of size }
    ensures { result ≡ signed_place size n }
{
    let half = greatest_number(size) / 2 + 1;
    if n < half { n + half } else { n - half }
}

/// A range with every number, of which it can't be said whether it wraps round.
#[derive(Clone, Copy, PartialEq, Eq, Debug)]
pub struct RangeFull;

impl Display for RangeFull {
    ghost output = { λ _. Some (codes "a range with every number") };

    fn fmt<W: fmt::Write>(&self, f: &mut fmt::Formatter<W>) -> fmt::Result {
        f.write_str("a range with every number")
    }
}

impl Error for RangeFull {}

impl WrappingRange {
    /// The range of every number of `size` bytes, from 0 on.
    pub fn full(size: Size) -> WrappingRange
        requires some { 1 ≤ size }
        requires most { size ≤ 16 }
        ensures { result ≡ full_range size }
    {
        WrappingRange {
            start: 0,
            end: greatest_number(size),
        }
    }

    /// Whether the number is in it, whatever width the ends and the number are read at.
    pub fn contains(&self, v: u128) -> bool
        ensures { (width : ℕ) → AreWithin width self.now → v < numbers_of width
            → (IsTrue result ↔ IsIn width self.now v) }
    {
        is_between(self.start, self.end, v)
    }

    /// Whether each number of the other range is in this one.
    pub fn contains_range(&self, other: WrappingRange, size: Size) -> bool
        requires some { 1 ≤ size }
        requires most { size ≤ 16 }
        requires within { AreWithin size self.now }
        requires other_within { AreWithin size other }
        ensures { IsTrue result ↔ Includes size self.now other }
    {
        if self.is_full_for(size) {
            return true;
        }
        let reach = steps(self.start, self.end, size);
        let first = steps(self.start, other.start, size);
        let last = steps(self.start, other.end, size);
        ascend(first, last, reach)
    }

    /// Whether it has every number of `size` bytes. Ranges other than that of `full` are full too.
    #[tactic(auto, using(crate::proofs::RangeLemmas::none_free, crate::proofs::RangeLemmas::full_none))]
    pub fn is_full_for(&self, size: Size) -> bool
        requires some { 1 ≤ size }
        requires most { size ≤ 16 }
        requires within { AreWithin size self.now }
        ensures { IsTrue result ↔ IsFull size self.now }
    {
        self.free_count(size) == 0
    }

    /// Whether it has no gap when its numbers are read as unsigned; `RangeFull` where it has every number.
    pub fn no_unsigned_wraparound(&self, size: Size) -> Result<bool, RangeFull>
        requires some { 1 ≤ size }
        requires most { size ≤ 16 }
        requires within { AreWithin size self.now }
        ensures full { IsErr result ↔ IsFull size self.now }
        ensures gap { IfOk result (λ answer. IsTrue answer
            ↔ HasNoGap unsigned_place size self.now) }
    {
        if self.is_full_for(size) {
            Err(RangeFull)
        } else {
            Ok(self.start <= self.end)
        }
    }

    /// Whether it has no gap when its numbers are read as signed; `RangeFull` where it has every number.
    pub fn no_signed_wraparound(&self, size: Size) -> Result<bool, RangeFull>
        requires some { 1 ≤ size }
        requires most { size ≤ 16 }
        requires within { AreWithin size self.now }
        ensures full { IsErr result ↔ IsFull size self.now }
        ensures gap { IfOk result (λ answer. IsTrue answer ↔ HasNoGap signed_place size self.now) }
    {
        if self.is_full_for(size) {
            Err(RangeFull)
        } else {
            Ok(place(self.start, size) <= place(self.end, size))
        }
    }

    /// How many numbers of `size` bytes it doesn't have.
    pub(crate) fn free_count(&self, size: Size) -> u128
        requires some { 1 ≤ size }
        requires most { size ≤ 16 }
        requires within { AreWithin size self.now }
        ensures { result ≡ free_count size self.now }
    {
        if self.start > self.end {
            self.start - self.end - 1
        } else {
            self.start + (greatest_number(size) - self.end)
        }
    }

    /// Whether some number of `size` bytes is not in it.
    #[tactic(auto, using(crate::proofs::RangeLemmas::free_after, crate::proofs::RangeLemmas::none_free))]
    pub(crate) fn has_free(&self, size: Size) -> bool
        requires some { 1 ≤ size }
        requires most { size ≤ 16 }
        requires within { AreWithin size self.now }
        ensures { IsTrue result ↔ ((n : ℕ) × IsFree size self.now n) }
    {
        self.free_count(size) != 0
    }
}

impl Debug for WrappingRange {
    ghost debug_output = { λ range. Some (range_text range.start range.end) };

    fn fmt<W: fmt::Write>(&self, f: &mut fmt::Formatter<W>) -> fmt::Result {
        let start = self.start;
        let end = self.end;
        if start > end {
            write!(f, "(..={end}) | ({start}..)")
        } else {
            write!(f, "{start}..={end}")
        }
    }
}
