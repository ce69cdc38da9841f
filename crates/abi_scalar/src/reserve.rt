//! Handing out free numbers of a niche.

ghost use Rattle.std.specs.Prelude.{◌≡◌, ◌↔◌, ◌≤◌, ◌<◌, IsSome, IfSome};
ghost use Rattle.abi_scalar.specs.Range.{numbers_of, AreWithin};
ghost use Rattle.abi_scalar.specs.Scalar.{primitive_of, range_of};
ghost use Rattle.abi_scalar.specs.Niche.{niche_size, available_in, IsWellFormedNiche};
ghost use Rattle.abi_scalar.specs.Reserve.{stepped_on, stepped_back, magnitude, start_is_nearer, start_gives_room, moves_start, reserved, HandsOut};

use crate::niche::Niche;
use crate::scalar::Scalar;
use crate::wrapping_range::{WrappingRange, greatest_number};
use abi_base::{HasDataLayout, Size};

/// The number `count` steps further on, in the width.
fn step_on(n: u128, count: u128, size: Size) -> u128
    requires some { 1 ≤ size }
    requires most { size ≤ 16 }
    requires within { n < numbers_of size }
    requires count_within { count < numbers_of size }
    ensures { result ≡ stepped_on size n count }
{
    let left = greatest_number(size) - n;
    if count <= left {
        n + count
    } else {
        count - left - 1
    }
}

/// The number `count` steps back, in the width.
fn step_back(n: u128, count: u128, size: Size) -> u128
    requires some { 1 ≤ size }
    requires most { size ≤ 16 }
    requires within { n < numbers_of size }
    requires count_within { count < numbers_of size }
    ensures { result ≡ stepped_back size n count }
{
    if count <= n {
        n - count
    } else {
        greatest_number(size) - (count - n) + 1
    }
}

/// How far a number is from 0 when it is read as signed.
fn magnitude(n: u128, size: Size) -> u128
    requires some { 1 ≤ size }
    requires most { size ≤ 16 }
    requires within { n < numbers_of size }
    ensures { result ≡ magnitude size n }
{
    if n == 0 {
        0
    } else {
        n.min(greatest_number(size) - n + 1)
    }
}

/// Whether the number before the start is no further from 0 than the one after the end.
#[tactic(auto, using(crate::proofs::ReserveLemmas::one_below))]
fn start_is_nearer(range: WrappingRange, size: Size) -> bool
    requires some { 1 ≤ size }
    requires most { size ≤ 16 }
    requires within { AreWithin size range }
    ensures { result ≡ start_is_nearer size range }
{
    let down = step_back(range.start, 1, size);
    let up = step_on(range.end, 1, size);
    magnitude(down, size) <= magnitude(up, size)
}

/// Whether the start moves, for several numbers.
fn start_gives_room(range: WrappingRange, count: u128, size: Size) -> bool
    requires some { 1 ≤ size }
    requires most { size ≤ 16 }
    requires within { AreWithin size range }
    requires count_within { count < numbers_of size }
    ensures { result ≡ start_gives_room size range count }
{
    if range.start > range.end {
        false
    } else if range.start <= greatest_number(size) - range.end {
        count <= range.start
    } else {
        let end = step_on(range.end, count, size);
        1 <= end && end <= range.end
    }
}

/// Whether the start moves, and not the end.
fn moves_start(range: WrappingRange, count: u128, size: Size) -> bool
    requires some { 1 ≤ size }
    requires most { size ≤ 16 }
    requires within { AreWithin size range }
    requires count_within { count < numbers_of size }
    ensures { result ≡ moves_start size range count }
{
    if count == 1 && !(range.start == 0 && range.end == 1) {
        start_is_nearer(range, size)
    } else {
        start_gives_room(range, count, size)
    }
}

impl Niche {
    /// Hands out `count` free numbers: the first of them, and the scalar that holds them too. None where fewer
    /// are free.
    #[tactic(auto, using(crate::proofs::ReserveLemmas::reserved_hands_out, crate::proofs::ReserveLemmas::one_below))]
    pub fn reserve<C: HasDataLayout>(&self, cx: &C, count: u128) -> Option<(u128, Scalar)>
        requires readable { IsWellFormedNiche (C.target cx.now) self.now }
        requires some { 1 ≤ count }
        ensures room { IsSome result ↔ (count ≤ available_in (C.target cx.now) self.now) }
        ensures side { IfSome result (λ handed.
            handed ≡ reserved (C.target cx.now) self.now count) }
        ensures primitive { IfSome result (λ handed. primitive_of handed.1 ≡ self.now.value) }
        ensures set { IfSome result (λ handed. HandsOut (niche_size (C.target cx.now) self.now)
            self.now.valid_range (range_of (C.target cx.now) handed.1) handed.0 count) }
    {
        let size = self.value.size(cx);
        let range = self.valid_range;
        if count > range.free_count(size) {
            return None;
        }
        let (first, valid_range) = if moves_start(range, count, size) {
            let start = step_back(range.start, count, size);
            (
                start,
                WrappingRange {
                    start,
                    end: range.end,
                },
            )
        } else {
            let end = step_on(range.end, count, size);
            (
                step_on(range.end, 1, size),
                WrappingRange {
                    start: range.start,
                    end,
                },
            )
        };
        let value = self.value;
        Some((first, Scalar::Initialized { value, valid_range }))
    }
}
