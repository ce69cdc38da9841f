//! Where a number ends.

ghost use Rattle.std.specs.Prelude.{◌≡◌, ◌≤◌, length};
ghost use Rattle.rust_source.specs.Numerals.{begins_fraction, begins_signed_exponent, decimal_length, has_base, number_length, tail_length};

use crate::tokens::characters::{byte_at, bytes_after};
use crate::tokens::runs::{Run, run_length};

/// Whether the bytes behind a number's digits begin with the point of a fraction: `1.` and `1.5`, but neither `1..2` nor
/// `1.max(2)`.
pub(crate) fn begins_fraction(rest: &[u8]) -> bool
    ensures { result ≡ begins_fraction rest.now }
{
    let next = byte_at(rest, 1);
    byte_at(rest, 0) == b'.'
        && next != b'.'
        && next != b'_'
        && !next.is_ascii_alphabetic()
        && next < 0x80
}

/// Whether the bytes begin with an exponent that has a sign.
fn begins_signed_exponent(rest: &[u8]) -> bool
    ensures { result ≡ begins_signed_exponent rest.now }
{
    let is_exponent = byte_at(rest, 0) == b'e' || byte_at(rest, 0) == b'E';
    let is_signed = byte_at(rest, 1) == b'+' || byte_at(rest, 1) == b'-';
    is_exponent && is_signed && byte_at(rest, 2).is_ascii_digit()
}

/// How many bytes of a number's exponent and suffix the bytes begin with.
#[tactic(auto, unfolding(crate::specs::Numerals::tail_length))]
fn tail_length(rest: &[u8]) -> usize
    ensures same { result ≡ tail_length rest.now }
    ensures within { result ≤ length rest.now }
{
    if begins_signed_exponent(rest) {
        run_length(bytes_after(rest, 2), Run::Word) + 2
    } else {
        run_length(rest, Run::Word)
    }
}

/// How many bytes a decimal number's digits have, with those of its fraction.
#[tactic(auto, unfolding(crate::specs::Numerals::decimal_length))]
fn decimal_length(rest: &[u8]) -> usize
    ensures same { result ≡ decimal_length rest.now }
    ensures within { result ≤ length rest.now }
{
    let whole = run_length(rest, Run::Digits);
    let behind = bytes_after(rest, whole);
    if begins_fraction(behind) {
        let fraction = run_length(bytes_after(behind, 1), Run::Digits);
        whole + fraction + 1
    } else {
        whole
    }
}

/// Whether the bytes begin with a base that isn't ten.
pub(crate) fn has_base(rest: &[u8]) -> bool
    ensures { result ≡ has_base rest.now }
{
    let base = byte_at(rest, 1);
    byte_at(rest, 0) == b'0' && (base == b'x' || base == b'o' || base == b'b')
}

/// How many bytes the number has, with its suffix, that the bytes begin with by a digit.
#[tactic(auto, unfolding(crate::specs::Numerals::number_length))]
pub(crate) fn number_length(rest: &[u8]) -> usize
    ensures same { result ≡ number_length rest.now }
    ensures within { result ≤ length rest.now }
{
    if has_base(rest) {
        return run_length(rest, Run::Word);
    }
    let length = decimal_length(rest);
    length + tail_length(bytes_after(rest, length))
}
