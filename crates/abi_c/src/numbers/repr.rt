//! What a `repr` attribute asks for out of numbers.

ghost use Rattle.std.specs.Prelude.{◌≡◌, IfErr, IfOk, Some, drop};
ghost use Rattle.abi_c.specs.Numbers.Pieces.{Fails, front_as};
ghost use Rattle.abi_c.specs.Numbers.FlatRepr.{align_numbered, flags_numbered, front_repr, int_numbered, scalable_numbered};

use crate::numbers::error::ReadError;
use crate::numbers::words::{numbered, read_word};
use abi_base::{Align, Integer, IntegerType, ScalableElt};
use abi_index::Hash64;
use abi_scalar::{ReprFlags, ReprOptions};
use bitflags::Flags;

const INTEGER_TYPES: [Option<IntegerType>; 13] = [
    None,
    Some(IntegerType::Pointer(false)),
    Some(IntegerType::Pointer(true)),
    Some(IntegerType::Fixed(Integer::I8, false)),
    Some(IntegerType::Fixed(Integer::I8, true)),
    Some(IntegerType::Fixed(Integer::I16, false)),
    Some(IntegerType::Fixed(Integer::I16, true)),
    Some(IntegerType::Fixed(Integer::I32, false)),
    Some(IntegerType::Fixed(Integer::I32, true)),
    Some(IntegerType::Fixed(Integer::I64, false)),
    Some(IntegerType::Fixed(Integer::I64, true)),
    Some(IntegerType::Fixed(Integer::I128, false)),
    Some(IntegerType::Fixed(Integer::I128, true)),
];

/// The integer of an enum's tag.
fn read_int(numbers: &[u64], at: &mut usize) -> Result<Option<IntegerType>, ReadError>
    ensures ok { IfOk result (λ a. front_as int_numbered (drop at.old numbers.now) ≡
        Some (a, drop at.new numbers.now)) }
    ensures err { IfErr result (Fails (front_as int_numbered (drop at.old numbers.now))) }
{
    let number = read_word(numbers, at)?;
    numbered(&INTEGER_TYPES, number)
}

/// The alignment of so many bytes, and none of 0.
fn align_numbered(number: u64) -> Result<Option<Align>, ReadError>
    ensures ok { IfOk result (λ a. align_numbered number ≡ Some a) }
    ensures err { IfErr result (Fails (align_numbered number)) }
{
    if number == 0 {
        return Ok(None);
    }
    match Align::from_bytes(number) {
        Ok(align) => Ok(Some(align)),
        Err(_) => Err(ReadError::Unreadable),
    }
}

/// An alignment.
fn read_align(numbers: &[u64], at: &mut usize) -> Result<Option<Align>, ReadError>
    ensures ok { IfOk result (λ a. front_as align_numbered (drop at.old numbers.now) ≡
        Some (a, drop at.new numbers.now)) }
    ensures err { IfErr result (Fails (front_as align_numbered (drop at.old numbers.now))) }
{
    let number = read_word(numbers, at)?;
    align_numbered(number)
}

/// The flags with these bits.
fn flags_numbered(number: u64) -> Result<ReprFlags, ReadError>
    ensures ok { IfOk result (λ a. flags_numbered number ≡ Some a) }
    ensures err { IfErr result (Fails (flags_numbered number)) }
{
    if number < 1 << 8 {
        Ok(ReprFlags::from_bits_retain(number as u8))
    } else {
        Err(ReadError::Unreadable)
    }
}

/// Flags.
fn read_flags(numbers: &[u64], at: &mut usize) -> Result<ReprFlags, ReadError>
    ensures ok { IfOk result (λ a. front_as flags_numbered (drop at.old numbers.now) ≡
        Some (a, drop at.new numbers.now)) }
    ensures err { IfErr result (Fails (front_as flags_numbered (drop at.old numbers.now))) }
{
    let number = read_word(numbers, at)?;
    flags_numbered(number)
}

/// The scalable vector with the number.
fn scalable_numbered(number: u64) -> Result<Option<ScalableElt>, ReadError>
    ensures ok { IfOk result (λ a. scalable_numbered number ≡ Some a) }
    ensures err { IfErr result (Fails (scalable_numbered number)) }
{
    if number == 0 {
        return Ok(None);
    }
    if number == 1 {
        return Ok(Some(ScalableElt::Container));
    }
    let count = number - 2;
    if count < 1 << 16 {
        Ok(Some(ScalableElt::ElementCount(count as u16)))
    } else {
        Err(ReadError::Unreadable)
    }
}

/// A scalable vector.
fn read_scalable(numbers: &[u64], at: &mut usize) -> Result<Option<ScalableElt>, ReadError>
    ensures ok { IfOk result (λ a. front_as scalable_numbered (drop at.old numbers.now) ≡
        Some (a, drop at.new numbers.now)) }
    ensures err { IfErr result (Fails (front_as scalable_numbered (drop at.old numbers.now))) }
{
    let number = read_word(numbers, at)?;
    scalable_numbered(number)
}

/// What a `repr` attribute asks for.
pub(crate) fn read_repr(numbers: &[u64], at: &mut usize) -> Result<ReprOptions, ReadError>
    ensures ok { IfOk result (λ a. front_repr (drop at.old numbers.now) ≡
        Some (a, drop at.new numbers.now)) }
    ensures err { IfErr result (Fails (front_repr (drop at.old numbers.now))) }
{
    let int = read_int(numbers, at)?;
    let align = read_align(numbers, at)?;
    let pack = read_align(numbers, at)?;
    let flags = read_flags(numbers, at)?;
    let scalable = read_scalable(numbers, at)?;
    let seed = read_word(numbers, at)?;
    let repr = ReprOptions {
        int,
        align,
        pack,
        flags,
        scalable,
        field_shuffle_seed: Hash64::new(seed),
    };
    Ok(repr)
}
