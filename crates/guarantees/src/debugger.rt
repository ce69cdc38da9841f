//! A debugger: values in the bytes of a program that it looks at.

mod parts;
mod slices;

ghost use Rattle.std.specs.Prelude.{◌≡◌, IfErr, IfOk, None, slice_get};
ghost use Rattle.abi_base.specs.declared.data_layout.TargetDataLayout.{TargetDataLayout as Target};
ghost use Rattle.abi_tree.specs.Holding.{Holds};
ghost use Rattle.abi_tree.specs.Laid.{endian_of, placed_of};
ghost use Rattle.abi_tree.specs.OfTree.{IsOfTree};
ghost use Rattle.abi_tree.specs.Reading.{KeepsValues};
ghost use Rattle.abi_tree.specs.Tree.{Tree};
ghost use Rattle.abi_tree.specs.Value.{Values, list, value_of};
ghost use Rattle.abi_tree.specs.Values.{IsValueOf};
ghost use Rattle.guarantees.specs.Field.{IsValueFound, value_at};

pub use parts::{field_of_variant, local_of_state, numbers_of};
use rustc_abi::{Laid, Value, ValueError, read_value, write_value};
pub use slices::{put_field, slice_of_field};
use std::alloc::{AllocError, Global};

/// A value that was written, and read from its bytes.
#[derive(Drop)]
pub struct ReadBack {
    /// The bytes that were written.
    pub bytes: Vec<u8>,
    /// The value that was read.
    pub value: Value,
}

/// Writes a value of a type that was laid out, and reads it from the bytes that were written.
///
/// `NotAValue` where the value is none of the type's. `OutOfMemory` where a growth of memory was refused.
pub fn read_back(alloc: Global, laid: &Laid, value: &Value) -> Result<ReadBack, ValueError>
    requires laid { IsOfTree laid.now }
    ensures held { IfOk result (λ back.
        Holds (endian_of laid.now) (placed_of laid.now) back.bytes.items (value_of back.value)) }
    ensures same { IfOk result (λ back. value_of back.value ≡ value_of value.now) }
    ensures value { IfOk result (λ _. (dl : Target) (tree : Tree) → KeepsValues dl tree laid.now →
        IsValueOf dl tree (placed_of laid.now) (value_of value.now)) }
    ensures not_a_value { IfErr result (λ e. e ≡ ValueError.NotAValue →
        (dl : Target) (tree : Tree) → KeepsValues dl tree laid.now →
        IsValueOf dl tree (placed_of laid.now) (value_of value.now) → ⊥) }
{
    let bytes = write_value(alloc, laid, value)?;
    match read_value(alloc, laid, &bytes)? {
        Some(read) => Ok(ReadBack { bytes, value: read }),
        None => unreachable!(),
    }
}

/// The value with this index; `None` where there are fewer.
pub(crate) fn item_at(mut values: Vec<Value>, index: usize) -> Option<Value>
    ensures { result ≡ slice_get values.items index }
{
    if index < values.len() {
        Some(values.swap_remove(index))
    } else {
        None
    }
}

/// The value of one of the fields, elements or lanes, in source order, of a type that was laid out, out of its bytes.
/// `None` where the bytes hold no list, or one that ends before the index.
///
/// `AllocError` where a growth of memory was refused.
pub fn field_of(
    alloc: Global,
    laid: &Laid,
    bytes: &[u8],
    index: usize,
) -> Result<Option<Value>, AllocError>
    requires laid { IsOfTree laid.now }
    ensures field { IfOk result (λ found.
        (vs : Values) → Holds (endian_of laid.now) (placed_of laid.now) bytes.now (list vs) →
        IsValueFound found (value_at vs index)) }
    ensures none { IfOk result (λ found. ((vs : Values) →
        Holds (endian_of laid.now) (placed_of laid.now) bytes.now (list vs) → ⊥) → found ≡ None) }
{
    match read_value(alloc, laid, bytes)? {
        Some(Value::List(values)) => Ok(item_at(values, index)),
        _ => Ok(None),
    }
}
