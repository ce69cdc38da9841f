//! A fuzzer: bytes of a value, changed at will.

mod spare;
mod unused;

ghost use Rattle.std.specs.Prelude.{◌≡◌, ◌↔◌, ◌&&◌, ◌⊎◌, IfErr, IfOk, IfSome, None, false, true, if◌then◌else◌, slice_set};
ghost use Rattle.abi_index.specs.RangeSet.{is_in_ranges};
ghost use Rattle.abi_tree.specs.Deciding.{DifferAt, all_inhabited_of};
ghost use Rattle.abi_tree.specs.Holding.{Holds};
ghost use Rattle.abi_tree.specs.Laid.{endian_of, placed_of};
ghost use Rattle.abi_tree.specs.Places.{is_data_place};
ghost use Rattle.abi_tree.specs.Reading.{Finds};
ghost use Rattle.abi_tree.specs.Value.{Value as Meant, value_of};
ghost use Rattle.abi_tree.specs.OfTree.{IsOfTree};
ghost use Rattle.guarantees.specs.Ignored.{DecidesNothing, with_padding};

use rustc_abi::{Laid, RangeSet, Value, read_value};
pub use spare::vary;
use std::alloc::{AllocError, Global};
pub use unused::vary_unused;

/// Whether the byte with this number is in one of the ranges.
fn is_in(ranges: &RangeSet, place: u64) -> bool
    ensures { result ≡ is_in_ranges ranges.now place }
{
    for run in ranges.as_slice() {
        if run.0 <= place && place - run.0 < run.1 {
            return true;
        }
    }
    false
}

/// Puts a byte at the place, where it is in one of the ranges and there is a byte.
fn put_in(ranges: &RangeSet, bytes: &mut [u8], place: usize, byte: u8)
    ensures { bytes.new
        ≡ (if is_in_ranges ranges.now place then slice_set bytes.old place byte else bytes.old) }
{
    if place < bytes.len() && is_in(ranges, place as u64) {
        bytes[place] = byte;
    }
}

/// Changes a byte of a type that was laid out, where it is one of its padding, and reads the value that the bytes hold
/// then. Where it is none of its padding, or lies behind the bytes, they stay as they are.
///
/// `AllocError` where a growth of memory was refused; the byte may be changed then.
pub fn ignore(
    alloc: Global,
    laid: &Laid,
    bytes: &mut [u8],
    place: usize,
    byte: u8,
) -> Result<Option<Value>, AllocError>
    requires laid { IsOfTree laid.now }

    // What is read is what the bytes held before, and they hold it still.
    ensures reads { IfOk result (Finds (Holds (endian_of laid.now)
        (placed_of laid.now) bytes.old)) }
    ensures holds { (v : Meant) → Holds (endian_of laid.now) (placed_of laid.now) bytes.old v ↔
        Holds (endian_of laid.now) (placed_of laid.now) bytes.new v }

    // Which byte was changed: where memory is wanting this one, or none.
    ensures changed { IfOk result (λ _.
        bytes.new ≡ with_padding (placed_of laid.now) bytes.old place byte) }
    ensures no_other { IfErr result (λ _. (bytes.new ≡ bytes.old) ⊎
        (bytes.new ≡ with_padding (placed_of laid.now) bytes.old place byte)) }
{
    let (ranges, _visits) = laid.padding(alloc)?;
    put_in(&ranges, bytes, place, byte);
    read_value(alloc, laid, bytes)
}

/// Bytes of a value, and the same with another byte.
#[derive(Drop)]
pub struct Flipped {
    /// Bytes that hold the value.
    pub first: Vec<u8>,
    /// What they hold.
    pub value: Value,
    /// These bytes with another one at the place.
    pub second: Vec<u8>,
}

/// Two byte lists that differ in the byte at the place alone, the first of which is read as a value, and the second not
/// as it. `None` where the byte decides nothing, as it is padding or lies behind the type, and where some type in the
/// type has no value: where each has one, exactly where the byte decides nothing.
///
/// `AllocError` where a growth of memory was refused.
pub fn flip(alloc: Global, laid: &Laid, place: u64) -> Result<Option<Flipped>, AllocError>
    requires laid { IsOfTree laid.now }

    // What the byte lists are.
    ensures differ { IfOk result (λ found. IfSome found (λ f.
        DifferAt place f.first.items f.second.items)) }
    ensures reads { IfOk result (λ found. IfSome found (λ f.
        Holds (endian_of laid.now) (placed_of laid.now) f.first.items (value_of f.value))) }
    ensures other { IfOk result (λ found. IfSome found (λ f.
        Holds (endian_of laid.now) (placed_of laid.now) f.second.items (value_of f.value) → ⊥)) }

    // Where there are none.
    ensures none { IfOk result (λ found. found ≡ None →
        (all_inhabited_of laid.now && is_data_place (placed_of laid.now) place) ≡ false) }
    ensures exactly { IfOk result (λ found. all_inhabited_of laid.now ≡ true →
        (found ≡ None) ↔ DecidesNothing (endian_of laid.now) (placed_of laid.now) place) }
{
    let (first, second) = match laid.decider(alloc, place)? {
        Some(pair) => pair,
        None => return Ok(None),
    };
    match read_value(alloc, laid, &first)? {
        Some(value) => Ok(Some(Flipped {
            first,
            value,
            second,
        })),
        None => unreachable!(),
    }
}
