//! The bytes of a field, and a value with a field changed.

ghost use Rattle.std.specs.Prelude.{◌≡◌, ℕ, ◌<◌, IfErr, IfOk, IfSome, MatchOption, None, Some};
ghost use Rattle.abi_base.specs.declared.data_layout.TargetDataLayout.{TargetDataLayout as Target};
ghost use Rattle.abi_tree.specs.Bytes.{bytes_at};
ghost use Rattle.abi_tree.specs.Holding.{Holds};
ghost use Rattle.abi_tree.specs.Laid.{endian_of, placed_of};
ghost use Rattle.abi_tree.specs.OfTree.{IsOfTree};
ghost use Rattle.abi_tree.specs.Placed.{Placed, layout_of, size_of};
ghost use Rattle.abi_tree.specs.Reading.{KeepsValues};
ghost use Rattle.abi_tree.specs.Tree.{Tree};
ghost use Rattle.abi_tree.specs.Value.{Value as Meant, Values, list as of_list, value_of};
ghost use Rattle.abi_tree.specs.Values.{IsValueOf};
ghost use Rattle.abi_scalar.specs.Shape.{field_count};
ghost use Rattle.guarantees.specs.Field.{HasFieldAt, value_at, with_value};

use crate::slice::bytes_from;
use rustc_abi::{Laid, Value, ValueError, read_value, write_value};
use std::alloc::Global;

/// The bytes of a field of a struct that was laid out, in source order: those at the field's offset, as many as its type
/// has. `None` where the layout has no field of this index, and where the bytes end before it does.
pub fn slice_of_field<'a>(laid: &Laid, bytes: &'a [u8], index: usize) -> Option<&'a [u8]>
    ensures slice { IfSome result (λ slice. (offset : ℕ) (field : Placed) →
        HasFieldAt (placed_of laid.now) index offset field →
        slice.now ≡ bytes_at bytes.now offset (size_of field)) }
    ensures holds { IfSome result (λ slice. (offset : ℕ) (field : Placed) →
        HasFieldAt (placed_of laid.now) index offset field → (vs : Values) (v : Meant) →
        Holds (endian_of laid.now) (placed_of laid.now) bytes.now (of_list vs) →
        value_at vs index ≡ Some v → Holds (endian_of laid.now) field slice.now v) }
    ensures none { result ≡ None → index < field_count (layout_of (placed_of laid.now)).fields →
        (offset : ℕ) (field : Placed) → HasFieldAt (placed_of laid.now) index offset field →
        (vs : Values) → Holds (endian_of laid.now) (placed_of laid.now) bytes.now (of_list vs) → ⊥ }
{
    let root = laid.root();
    let layout = laid.layout();
    // It is a number of 64 bits, and each offset lies below it.
    let _whole = layout.size.bytes();
    if index >= layout.fields.count() {
        return None;
    }
    let offset = layout.fields.offset(index);
    let field = root.field(&(), index);
    let size = field.layout.size();
    bytes_from(bytes, offset.bytes(), size.bytes())
}

/// The values of the list with this one in the place of that with this index, if there is one, as a list again.
fn list_with(list: Value, index: usize, value: Value) -> Option<Value>
    ensures { MatchOption result
        ((vs : Values) → value_of list ≡ of_list vs → value_at vs index ≡ None)
        (λ changed. (vs : Values) × (value_of list ≡ of_list vs) ×
        (value_of changed ≡ of_list (with_value vs index (value_of value)))) }
{
    match list {
        Value::List(mut values) => {
            if index < values.len() {
                values[index] = value;
                Some(Value::List(values))
            } else {
                None
            }
        }
        _ => None,
    }
}

/// Bytes that hold the same list as these, with another value in the place of one: of a struct with this field changed
/// and the others kept, or of an array with this element. `None` where the bytes hold no list, or one that ends before
/// the index.
///
/// `NotAValue` where the value is none of the field's type. `OutOfMemory` where a growth of memory was refused.
pub fn put_field(
    alloc: Global,
    laid: &Laid,
    bytes: &[u8],
    index: usize,
    value: Value,
) -> Result<Option<Vec<u8>>, ValueError>
    requires laid { IsOfTree laid.now }
    ensures put { IfOk result (λ put. IfSome put (λ written. (vs : Values) →
        Holds (endian_of laid.now) (placed_of laid.now) bytes.now (of_list vs) →
        Holds (endian_of laid.now) (placed_of laid.now) written.items
        (of_list (with_value vs index (value_of value))))) }
    ensures none { IfOk result (λ put. put ≡ None → (vs : Values) → Holds (endian_of laid.now)
        (placed_of laid.now) bytes.now (of_list vs) → value_at vs index ≡ None) }
    ensures not_a_value { IfErr result (λ e. e ≡ ValueError.NotAValue →
        (vs : Values) → Holds (endian_of laid.now) (placed_of laid.now) bytes.now (of_list vs) →
        (dl : Target) (tree : Tree) → KeepsValues dl tree laid.now → IsValueOf dl tree
        (placed_of laid.now) (of_list (with_value vs index (value_of value))) → ⊥) }
{
    let Some(held) = read_value(alloc, laid, bytes)? else {
        return Ok(None);
    };
    match list_with(held, index, value) {
        Some(changed) => Ok(Some(write_value(alloc, laid, &changed)?)),
        None => Ok(None),
    }
}
