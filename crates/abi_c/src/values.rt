//! Values written to bytes and read from them, as numbers.

ghost use Rattle.std.specs.Prelude.{◌≡◌, ◌∷◌, [], IfOk};
ghost use Rattle.abi_base.specs.declared.data_layout.TargetDataLayout.{TargetDataLayout as Target};
ghost use Rattle.abi_tree.specs.Laid.{placed_of};
ghost use Rattle.abi_tree.specs.Tree.{Tree};
ghost use Rattle.abi_tree.specs.Value.{value_of};
ghost use Rattle.abi_c.specs.Numbers.FlatValue.{flat_value};
ghost use Rattle.abi_c.specs.Flat.{reply_of};
ghost use Rattle.abi_c.specs.FlatValues.{IsReadOf, IsReplyOfLaid, IsWritten, IsWrittenOf, reply_of_bytes};
ghost use Rattle.abi_c.specs.LaidType.{IsLaidFrom};

use crate::flat::{FlatAnswer, one_number};
use crate::laid_type::{LayoutFailure, lay_type};
use crate::numbers::{ReadError, read_flat_value, write_flat_value};
use abi_tree::{Laid, Value, ValueError, read_value, write_value};
use std::alloc::{AllocError, Global};

/// A status, and the bytes beside it.
#[derive(Drop)]
pub(crate) struct BytesAnswer {
    /// 0 for an answer, 1 for a refusal, 2 for numbers or a string that can't be read, 3 for no value of the type.
    pub(crate) status: u8,
    /// The bytes.
    pub(crate) bytes: Vec<u8>,
}

/// A status with one byte.
fn one_byte(alloc: Global, status: u8, byte: u8) -> Result<BytesAnswer, AllocError>
    ensures { IfOk result (λ a. reply_of_bytes a ≡ record { status = status; numbers = byte ∷ [] }) }
{
    let mut bytes = Vec::new(alloc);
    bytes.push(byte)?;
    Ok(BytesAnswer { status, bytes })
}

/// The answer to a value of a laid-out type.
fn bytes_of_value(alloc: Global, laid: &Laid, value: &Value) -> Result<BytesAnswer, AllocError>
    ensures { IfOk result (λ a. (dl : Target) (t : Tree) → IsLaidFrom dl t laid.now →
        IsWritten dl t (placed_of laid.now) (value_of value.now) (reply_of_bytes a)) }
{
    match write_value(alloc, laid, value) {
        Ok(bytes) => Ok(BytesAnswer { status: 0, bytes }),
        Err(ValueError::NotAValue) => Ok(BytesAnswer {
            status: 3,
            bytes: Vec::new(alloc),
        }),
        Err(ValueError::OutOfMemory) => Err(AllocError),
    }
}

/// The answer to the numbers of a value of a laid-out type.
fn bytes_of_numbers(alloc: Global, laid: &Laid, value: &[u64]) -> Result<BytesAnswer, AllocError>
    ensures { IfOk result (λ a. (dl : Target) (t : Tree) → IsLaidFrom dl t laid.now →
        IsWrittenOf value.now dl t (placed_of laid.now) (reply_of_bytes a)) }
{
    match read_flat_value(alloc, value) {
        Ok(value) => bytes_of_value(alloc, laid, &value),
        Err(ReadError::Unreadable) => one_byte(alloc, 2, 2),
        Err(ReadError::OutOfMemory) => Err(AllocError),
    }
}

/// The answer to the numbers of a value of the type with these numbers. `AllocError` where a growth of memory was
/// refused.
pub(crate) fn answer_write(
    alloc: Global,
    string: &[u8],
    tree: &[u64],
    value: &[u64],
) -> Result<BytesAnswer, AllocError>
    ensures { IfOk result (λ a.
        IsReplyOfLaid (IsWrittenOf value.now) string.now tree.now (reply_of_bytes a)) }
{
    match lay_type(alloc, string, tree) {
        Ok(laid) => bytes_of_numbers(alloc, &laid, value),
        Err(LayoutFailure::Refused { status, number }) => one_byte(alloc, status, number),
        Err(LayoutFailure::OutOfMemory) => Err(AllocError),
    }
}

/// The answer to bytes that hold a value.
fn value_numbers(alloc: Global, value: &Value) -> Result<FlatAnswer, AllocError>
    ensures { IfOk result (λ a. reply_of a ≡
        record { status = 0; numbers = flat_value (value_of value.now) }) }
{
    Ok(FlatAnswer {
        status: 0,
        numbers: write_flat_value(alloc, value)?,
    })
}

/// The answer to bytes of a laid-out type.
fn numbers_of_bytes(alloc: Global, laid: &Laid, bytes: &[u8]) -> Result<FlatAnswer, AllocError>
    ensures { IfOk result (λ a. (dl : Target) (t : Tree) → IsLaidFrom dl t laid.now →
        IsReadOf bytes.now dl t (placed_of laid.now) (reply_of a)) }
{
    match read_value(alloc, laid, bytes)? {
        Some(value) => value_numbers(alloc, &value),
        None => Ok(FlatAnswer {
            status: 3,
            numbers: Vec::new(alloc),
        }),
    }
}

/// The answer to bytes of the type with these numbers. `AllocError` where a growth of memory was refused.
pub(crate) fn answer_read(
    alloc: Global,
    string: &[u8],
    tree: &[u64],
    bytes: &[u8],
) -> Result<FlatAnswer, AllocError>
    ensures { IfOk result (λ a. IsReplyOfLaid (IsReadOf bytes.now) string.now tree.now (reply_of a)) }
{
    match lay_type(alloc, string, tree) {
        Ok(laid) => numbers_of_bytes(alloc, &laid, bytes),
        Err(LayoutFailure::Refused { status, number }) => one_number(alloc, status, number),
        Err(LayoutFailure::OutOfMemory) => Err(AllocError),
    }
}
