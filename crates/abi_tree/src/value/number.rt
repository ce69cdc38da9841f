//! Numbers in bytes.

ghost use Rattle.std.specs.Prelude.{◌≡◌, ◌+◌, ◌<◌, ◌≤◌, length, MatchOption};
ghost use Rattle.abi_base.specs.declared.endian.Endian.TheVariants.{Big};
ghost use Rattle.abi_scalar.specs.Range.{numbers_of};
ghost use Rattle.abi_tree.specs.Bytes.{bytes_at, little, number_of};

use abi_base::Endian;

/// The number that the bytes make, the least byte first.
fn little_number(bytes: &[u8]) -> u128
    requires { length bytes.now ≤ 16 }
    ensures value { result ≡ little bytes.now }
    ensures bound { result < numbers_of (length bytes.now) }
{
    match bytes {
        [] => 0,
        [first, rest @ ..] => u128::from(*first) + 256 * little_number(rest),
    }
}

/// The number that the bytes make, the greatest byte first.
fn big_number(bytes: &[u8]) -> u128
    requires { length bytes.now ≤ 16 }
    ensures value { result ≡ number_of Big bytes.now }
    ensures bound { result < numbers_of (length bytes.now) }
{
    match bytes {
        [] => 0,
        [rest @ .., last] => u128::from(*last) + 256 * big_number(rest),
    }
}

/// The number that the bytes make, at most 16.
pub(crate) fn number_in(order: Endian, bytes: &[u8]) -> u128
    requires { length bytes.now ≤ 16 }
    ensures value { result ≡ number_of order bytes.now }
    ensures bound { result < numbers_of (length bytes.now) }
{
    match order {
        Endian::Little => little_number(bytes),
        Endian::Big => big_number(bytes),
    }
}

/// The `size` bytes from the offset on; `None` where there are fewer.
pub(crate) fn part_of(bytes: &[u8], offset: u64, size: u64) -> Option<&[u8]>
    ensures { MatchOption result
        (offset + size ≤ length bytes.now → ⊥)
        (λ part. (offset + size ≤ length bytes.now) × (part.now ≡ bytes_at bytes.now offset size)) }
{
    let start = bytes.len().min(offset as usize);
    let part = bytes[start..].get(..size as usize)?;
    if offset as usize == start {
        Some(part)
    } else {
        None
    }
}
