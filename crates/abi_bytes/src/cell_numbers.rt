//! Numbers that cells make.

ghost use Rattle.std.specs.Prelude.{◌≡◌, ◌+◌, ◌<◌, ◌≤◌, MatchOption, MatchResult, length};
ghost use Rattle.abi_base.specs.declared.endian.Endian.TheVariants.{Big, Little};
ghost use Rattle.abi_scalar.specs.Range.{numbers_of};
ghost use Rattle.abi_bytes.specs.Filling.{AreSet};
ghost use Rattle.abi_bytes.specs.Holding.{cells_at};
ghost use Rattle.abi_bytes.specs.NotHeld.{IsFirstUnset, MakeAt, number_in};

use crate::answers::byte_in;
use abi_base::Endian;

/// The first of so many cells from a place on that isn't set, counted from there.
fn first_unset(cells: &[Option<u8>], at: usize, size: usize) -> Option<usize>
    requires { at + size ≤ length cells.now }
    ensures { MatchOption result (AreSet (cells_at cells.now at size)) (IsFirstUnset cells.now at size) }
{
    for i in 0..size {
        if cells[at + i].is_none() {
            return Some(i);
        }
    }
    None
}

/// The number that cells make which are set, the least byte first.
fn little_number(cells: &[Option<u8>]) -> u128
    requires { length cells.now ≤ 16 }
    ensures value { result ≡ number_in Little cells.now }
    ensures bound { result < numbers_of (length cells.now) }
{
    match cells {
        [] => 0,
        [first, rest @ ..] => u128::from(byte_in(*first)) + 256 * little_number(rest),
    }
}

/// The number that cells make which are set, the greatest byte first.
fn big_number(cells: &[Option<u8>]) -> u128
    requires { length cells.now ≤ 16 }
    ensures value { result ≡ number_in Big cells.now }
    ensures bound { result < numbers_of (length cells.now) }
{
    match cells {
        [] => 0,
        [rest @ .., last] => u128::from(byte_in(*last)) + 256 * big_number(rest),
    }
}

/// The number that so many cells from a place on make; an error is the first that isn't set, counted from there.
pub(crate) fn number_at(
    order: Endian,
    cells: &[Option<u8>],
    at: usize,
    size: usize,
) -> Result<u128, usize>
    requires fits { at + size ≤ length cells.now }
    requires narrow { size ≤ 16 }
    ensures made { MatchResult result (MakeAt order cells.now at size) (IsFirstUnset cells.now at size) }
    ensures bound { MatchResult result (λ n. n < numbers_of size) (λ k. k < size) }
{
    if let Some(place) = first_unset(cells, at, size) {
        return Err(place);
    }
    let part = &cells[at..at + size];
    match order {
        Endian::Little => Ok(little_number(part)),
        Endian::Big => Ok(big_number(part)),
    }
}
