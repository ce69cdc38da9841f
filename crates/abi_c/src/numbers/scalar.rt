//! Scalars out of numbers.

ghost use Rattle.std.specs.Prelude.{◌≡◌, IfErr, IfOk, Some, drop};
ghost use Rattle.abi_c.specs.Numbers.Pieces.{Fails};
ghost use Rattle.abi_c.specs.Numbers.FlatScalar.{float_number, front_primitive, front_range, front_scalar, integer_number, primitive_numbered};

use crate::numbers::error::ReadError;
use crate::numbers::words::{numbered, read_wide, read_word};
use abi_base::{AddressSpace, Float, Integer, Primitive};
use abi_scalar::{Scalar, WrappingRange};

const INTEGERS: [Integer; 5] = [
    Integer::I8,
    Integer::I16,
    Integer::I32,
    Integer::I64,
    Integer::I128,
];

const FLOATS: [Float; 6] = [
    Float::F16,
    Float::F32,
    Float::F64,
    Float::F128,
    Float::F16B,
    Float::PpcF128,
];

/// The number of an integer.
pub(crate) fn integer_number(integer: Integer) -> u64
    ensures { result ≡ integer_number integer }
{
    match integer {
        Integer::I8 => 0,
        Integer::I16 => 1,
        Integer::I32 => 2,
        Integer::I64 => 3,
        Integer::I128 => 4,
    }
}

/// The number of a float.
pub(crate) fn float_number(float: Float) -> u64
    ensures { result ≡ float_number float }
{
    match float {
        Float::F16 => 0,
        Float::F32 => 1,
        Float::F64 => 2,
        Float::F128 => 3,
        Float::F16B => 4,
        Float::PpcF128 => 5,
    }
}

/// The primitive of three numbers.
#[inline(always)]
fn primitive_numbered(kind: u64, which: u64, sign: u64) -> Result<Primitive, ReadError>
    ensures ok { IfOk result (λ p. primitive_numbered kind which sign ≡ Some p) }
    ensures err { IfErr result (Fails (primitive_numbered kind which sign)) }
{
    if kind == 0 {
        let integer = numbered(&INTEGERS, which)?;
        let signed = numbered(&[false, true], sign)?;
        return Ok(Primitive::Int(integer, signed));
    }
    if sign != 0 {
        return Err(ReadError::Unreadable);
    }
    if kind == 1 {
        let float = numbered(&FLOATS, which)?;
        return Ok(Primitive::Float(float));
    }
    if kind == 2 && which < 1 << 32 {
        Ok(Primitive::Pointer(AddressSpace(which as u32)))
    } else {
        Err(ReadError::Unreadable)
    }
}

/// A primitive.
#[inline(always)]
fn read_primitive(numbers: &[u64], at: &mut usize) -> Result<Primitive, ReadError>
    ensures ok { IfOk result (λ a. front_primitive (drop at.old numbers.now) ≡
        Some (a, drop at.new numbers.now)) }
    ensures err { IfErr result (Fails (front_primitive (drop at.old numbers.now))) }
{
    let kind = read_word(numbers, at)?;
    let which = read_word(numbers, at)?;
    let sign = read_word(numbers, at)?;
    primitive_numbered(kind, which, sign)
}

/// The range behind a scalar's primitive.
#[inline(always)]
fn read_range(value: Primitive, numbers: &[u64], at: &mut usize) -> Result<Scalar, ReadError>
    ensures ok { IfOk result (λ a. front_range value (drop at.old numbers.now) ≡
        Some (a, drop at.new numbers.now)) }
    ensures err { IfErr result (Fails (front_range value (drop at.old numbers.now))) }
{
    let start = read_wide(numbers, at)?;
    let end = read_wide(numbers, at)?;
    let valid_range = WrappingRange { start, end };
    Ok(Scalar::Initialized { value, valid_range })
}

/// A scalar.
#[inline(always)]
pub(crate) fn read_scalar(numbers: &[u64], at: &mut usize) -> Result<Scalar, ReadError>
    ensures ok { IfOk result (λ a. front_scalar (drop at.old numbers.now) ≡
        Some (a, drop at.new numbers.now)) }
    ensures err { IfErr result (Fails (front_scalar (drop at.old numbers.now))) }
{
    let form = read_word(numbers, at)?;
    let value = read_primitive(numbers, at)?;
    if form == 0 {
        return read_range(value, numbers, at);
    }
    if form == 1 {
        Ok(Scalar::Union { value })
    } else {
        Err(ReadError::Unreadable)
    }
}
