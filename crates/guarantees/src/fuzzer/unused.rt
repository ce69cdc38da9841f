//! Bytes that the present variant leaves unused.

ghost use Rattle.std.specs.Prelude.{◌≡◌, [], IfOk, IfSome, None, get_or};
ghost use Rattle.abi_index.specs.RangeSet.{is_in_ranges};
ghost use Rattle.abi_tree.specs.Holding.{Holds};
ghost use Rattle.abi_tree.specs.Laid.{endian_of, placed_of};
ghost use Rattle.abi_tree.specs.OfTree.{IsOfTree};
ghost use Rattle.abi_tree.specs.Reading.{Finds};
ghost use Rattle.abi_tree.specs.Value.{Value as Meant, value_of};
ghost use Rattle.guarantees.specs.Spared.{is_in_set_of, with_spared};

use super::is_in;
use super::spare::vary;
use rustc_abi::{IndexVec, Laid, RangeSet, Value, VariantIdx, read_value};
use std::alloc::{AllocError, Global};

/// Whether the byte with this number is in the set with this index.
fn is_in_set(sets: &IndexVec<VariantIdx, RangeSet>, index: usize, place: u64) -> bool
    ensures { result ≡ is_in_ranges (get_or sets.now index []) place }
{
    match sets.as_slice().as_raw().get(index) {
        Some(set) => is_in(set, place),
        None => false,
    }
}

/// Whether the byte with this number is in the set of the value's variant or state.
fn is_unused(sets: &IndexVec<VariantIdx, RangeSet>, value: &Value, place: u64) -> bool
    ensures { result ≡ is_in_set_of sets.now (value_of value.now) place }
{
    match value {
        Value::Variant(index, _fields) => is_in_set(sets, *index, place),
        Value::State { state, .. } => is_in_set(sets, *state, place),
        _ => false,
    }
}

/// Changes a byte of a type that was laid out, where the variant or state of the value that the bytes hold leaves it
/// unused, and reads the value that they hold then: the same as before. Where that uses the byte, or is of no variant,
/// they stay as they are.
///
/// `AllocError` where a growth of memory was refused; the byte may be changed then.
pub fn vary_unused(
    alloc: Global,
    laid: &Laid,
    bytes: &mut [u8],
    place: usize,
    byte: u8,
) -> Result<Option<Value>, AllocError>
    requires laid { IsOfTree laid.now }

    // What is read is what the bytes held before, and they hold it still.
    ensures reads { IfOk result (Finds (Holds (endian_of laid.now)
        (placed_of laid.now) bytes.old)) }
    ensures holds { (v : Meant) → Holds (endian_of laid.now) (placed_of laid.now) bytes.old v →
        Holds (endian_of laid.now) (placed_of laid.now) bytes.new v }

    // Which byte was changed: without a value none.
    ensures changed { IfOk result (λ found. IfSome found (λ value. bytes.new ≡
        with_spared (placed_of laid.now) (value_of value) bytes.old place byte)) }
    ensures no_value { IfOk result (λ found. found ≡ None → bytes.new ≡ bytes.old) }
{
    let Some(value) = read_value(alloc, laid, bytes)? else {
        return Ok(None);
    };
    let root = laid.root();
    let sets = root.each_variant_dependent_padding_ranges(alloc, &())?;
    if is_unused(&sets, &value, place as u64) {
        vary(alloc, laid, bytes, place, byte)
    } else {
        Ok(Some(value))
    }
}
