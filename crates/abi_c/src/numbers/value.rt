//! Values out of numbers.

ghost use Rattle.std.specs.Prelude.{◌≡◌, IfErr, IfOk, Some, drop, map};
ghost use Rattle.abi_tree.specs.Value.{Value as Meant, value_of};
ghost use Rattle.abi_c.specs.Numbers.Pieces.{Fails, front_as, front_list};
ghost use Rattle.abi_c.specs.Numbers.FlatValue.{flat_value, IsReadableValue};
ghost use Rattle.abi_c.specs.Numbers.FrontValue.{byte_numbered, front_of_value_kind, front_state_value, front_value, front_variant_value, value_kind_numbered};

use crate::numbers::error::ReadError;
use crate::numbers::words::{numbered, read_wide, read_word};
use abi_tree::Value;
use std::alloc::Global;

/// A kind of value, in the order of their numbers.
#[derive(Clone, Copy)]
pub(crate) enum ValueKind {
    Number,
    Two,
    List,
    Variant,
    State,
    Bytes,
}

const KINDS: [ValueKind; 6] = [
    ValueKind::Number,
    ValueKind::Two,
    ValueKind::List,
    ValueKind::Variant,
    ValueKind::State,
    ValueKind::Bytes,
];

/// A value is nested in at most so many others, less one.
const MOST_NESTED: u64 = 201;

/// The number of a kind.
fn read_value_kind(numbers: &[u64], at: &mut usize) -> Result<ValueKind, ReadError>
    ensures ok { IfOk result (λ a. front_as value_kind_numbered (drop at.old numbers.now) ≡
        Some (a, drop at.new numbers.now)) }
    ensures err { IfErr result (Fails (front_as value_kind_numbered (drop at.old numbers.now))) }
{
    let number = read_word(numbers, at)?;
    numbered(&KINDS, number)
}

/// A byte.
fn read_byte(numbers: &[u64], at: &mut usize) -> Result<u8, ReadError>
    ensures ok { IfOk result (λ a. front_as byte_numbered (drop at.old numbers.now) ≡
        Some (a, drop at.new numbers.now)) }
    ensures err { IfErr result (Fails (front_as byte_numbered (drop at.old numbers.now))) }
{
    let number = read_word(numbers, at)?;
    if number < 256 {
        Ok(number as u8)
    } else {
        Err(ReadError::Unreadable)
    }
}

/// A list of bytes.
fn read_bytes(alloc: Global, numbers: &[u64], at: &mut usize) -> Result<Vec<u8>, ReadError>
    ensures ok { IfOk result (λ a. front_list (front_as byte_numbered) (drop at.old numbers.now) ≡
        Some (a.items, drop at.new numbers.now)) }
    ensures err { IfErr result (Fails (front_list (front_as byte_numbered) (drop at.old numbers.now))) }
{
    let count = read_word(numbers, at)?;
    let mut bytes = Vec::new(alloc);
    for _ in 0..count {
        let byte = read_byte(numbers, at)?;
        bytes.push(byte)?;
    }
    Ok(bytes)
}

/// Values, one after another, behind their count.
#[cycle(read_value)]
fn read_values(
    alloc: Global,
    left: u64,
    numbers: &[u64],
    at: &mut usize,
) -> Result<Vec<Value>, ReadError>
    ensures ok { IfOk result (λ a. front_list (front_value left) (drop at.old numbers.now) ≡
        Some (map value_of a.items, drop at.new numbers.now)) }
    ensures err { IfErr result (Fails (front_list (front_value left) (drop at.old numbers.now))) }
{
    let count = read_word(numbers, at)?;
    let mut values = Vec::new(alloc);
    for _ in 0..count {
        let value = read_value_node(alloc, left, numbers, at)?;
        values.push(value)?;
    }
    Ok(values)
}

/// A variant's index and fields.
#[cycle(read_value)]
fn read_variant_value(
    alloc: Global,
    left: u64,
    numbers: &[u64],
    at: &mut usize,
) -> Result<Value, ReadError>
    ensures ok { IfOk result (λ a. front_variant_value (front_value left) (drop at.old numbers.now) ≡
        Some (value_of a, drop at.new numbers.now)) }
    ensures err { IfErr result (Fails (front_variant_value (front_value left) (drop at.old numbers.now))) }
{
    let index = read_word(numbers, at)?;
    let values = read_values(alloc, left, numbers, at)?;
    Ok(Value::Variant(index as usize, values))
}

/// A state's index, prefix fields and locals.
#[cycle(read_value)]
fn read_state_value(
    alloc: Global,
    left: u64,
    numbers: &[u64],
    at: &mut usize,
) -> Result<Value, ReadError>
    ensures ok { IfOk result (λ a. front_state_value (front_value left) (drop at.old numbers.now) ≡
        Some (value_of a, drop at.new numbers.now)) }
    ensures err { IfErr result (Fails (front_state_value (front_value left) (drop at.old numbers.now))) }
{
    let index = read_word(numbers, at)?;
    let prefix = read_values(alloc, left, numbers, at)?;
    let locals = read_values(alloc, left, numbers, at)?;
    Ok(Value::State {
        state: index as usize,
        prefix,
        locals,
    })
}

/// A value of a kind.
#[cycle(read_value)]
fn read_of_value_kind(
    alloc: Global,
    left: u64,
    kind: ValueKind,
    numbers: &[u64],
    at: &mut usize,
) -> Result<Value, ReadError>
    ensures ok { IfOk result (λ a. front_of_value_kind (front_value left) kind (drop at.old numbers.now) ≡
        Some (value_of a, drop at.new numbers.now)) }
    ensures err { IfErr result (Fails (front_of_value_kind (front_value left) kind (drop at.old numbers.now))) }
{
    match kind {
        ValueKind::Number => {
            let number = read_wide(numbers, at)?;
            Ok(Value::Num(number))
        }
        ValueKind::Two => {
            let first = read_wide(numbers, at)?;
            let second = read_wide(numbers, at)?;
            Ok(Value::Pair(first, second))
        }
        ValueKind::List => {
            let values = read_values(alloc, left, numbers, at)?;
            Ok(Value::List(values))
        }
        ValueKind::Variant => read_variant_value(alloc, left, numbers, at),
        ValueKind::State => read_state_value(alloc, left, numbers, at),
        ValueKind::Bytes => {
            let bytes = read_bytes(alloc, numbers, at)?;
            Ok(Value::Union(bytes))
        }
    }
}

/// A value in which less than so many are nested in one another.
#[cycle(read_value)]
fn read_value_node(
    alloc: Global,
    left: u64,
    numbers: &[u64],
    at: &mut usize,
) -> Result<Value, ReadError>
    ensures ok { IfOk result (λ a. front_value left (drop at.old numbers.now) ≡
        Some (value_of a, drop at.new numbers.now)) }
    ensures err { IfErr result (Fails (front_value left (drop at.old numbers.now))) }
{
    if left == 0 {
        return Err(ReadError::Unreadable);
    }
    let kind = read_value_kind(numbers, at)?;
    read_of_value_kind(alloc, left - 1, kind, numbers, at)
}

/// The value that has these numbers, as `docs/NUMBERS.md` has them; no other has them.
///
/// `Unreadable` where no value has them that is nested in at most 200 others, and whose bytes have 8 bits. `OutOfMemory`
/// where a growth of memory was refused.
pub(crate) fn read_flat_value(alloc: Global, numbers: &[u64]) -> Result<Value, ReadError>
    ensures ok { IfOk result (λ value. numbers.now ≡ flat_value (value_of value)) }
    ensures one { IfOk result (λ value. (v : Meant) → IsReadableValue 201 v → numbers.now ≡ flat_value v →
        v ≡ value_of value) }
    ensures unreadable { IfErr result (λ e. e ≡ ReadError.Unreadable →
        (v : Meant) → IsReadableValue 201 v → numbers.now ≡ flat_value v → ⊥) }
{
    let mut at = 0;
    let value = read_value_node(alloc, MOST_NESTED, numbers, &mut at)?;
    if at >= numbers.len() {
        Ok(value)
    } else {
        Err(ReadError::Unreadable)
    }
}
