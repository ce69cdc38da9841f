//! What methods of integers make of numbers.

ghost use Rattle.std.specs.Prelude.{◌≡◌, ◌≤◌, ◌^◌, IfNone, IfSome, pos};
ghost use Rattle.std.specs.Int.{int_pow};
ghost use Rattle.abi_rust.specs.Int.{number_of_int};
ghost use Rattle.abi_rust.specs.Methods.{binary_digits, counted, euclid, kind_made, kind_of_other, suffix_kind, end_of, kind_beside, made_of_both, made_of_one, of_both, of_one, unsigned_kind};
ghost use Rattle.abi_rust.specs.Operators.{fitted, seen};
ghost use Rattle.abi_rust.specs.Values.{value_as_read};

use crate::fault::FaultKind;
use crate::int::{Int, Width};
use crate::operators::fitting;
use crate::ty::{ConstValue, Kind};
use rust_source::IntegerKind;

/// A method of integers that is called on a number alone.
#[derive(Clone, Copy, PartialEq, Eq)]
pub(crate) enum MethodOfOne {
    NextPowerOfTwo,
    IsPowerOfTwo,
    CountOnes,
    LeadingZeros,
    TrailingZeros,
    Ilog2,
}

/// A method of integers that is called on a number and given another.
#[derive(Clone, Copy, PartialEq, Eq)]
pub(crate) enum MethodOfTwo {
    Pow,
    DivCeil,
    AbsDiff,
    SaturatingAdd,
    SaturatingSub,
    SaturatingMul,
    WrappingAdd,
    WrappingSub,
    WrappingMul,
    DivEuclid,
    RemEuclid,
}

/// A method of integers.
#[derive(Clone, Copy, PartialEq, Eq)]
pub(crate) enum Method {
    /// `min_value`, a type's.
    Least,
    /// `max_value`, a type's.
    Greatest,
    Of(MethodOfOne),
    OfBoth(MethodOfTwo),
}

/// A method of integers that is called, and the type whose it is, where a path names it.
#[derive(Clone, Copy)]
pub(crate) struct IntegerCall {
    pub(crate) method: Method,
    pub(crate) kind: Option<IntegerKind>,
}

/// An integer type as a type of constants.
fn integer_type(kind: Option<IntegerKind>) -> Option<Kind>
    ensures { result ≡ suffix_kind kind }
{
    match kind {
        Some(kind) => Some(Kind::Integer(kind)),
        None => None,
    }
}

/// The type of what a method makes of a number of a type, as far as it is known.
pub(crate) fn kind_made(called: IntegerCall) -> Option<Kind>
    ensures { result ≡ kind_made called.method called.kind }
{
    match called.method {
        Method::Of(MethodOfOne::IsPowerOfTwo) => Some(Kind::Bool),
        Method::Of(MethodOfOne::NextPowerOfTwo) => integer_type(called.kind),
        Method::Of(_) => Some(Kind::Integer(IntegerKind::U32)),
        Method::OfBoth(MethodOfTwo::AbsDiff) => match called.kind {
            Some(kind) => Some(Kind::Integer(unsigned_kind(kind))),
            None => None,
        },
        _ => integer_type(called.kind),
    }
}

/// A count, which is a `u32`.
fn counted(count: u32) -> Result<ConstValue, FaultKind>
    ensures { seen value_as_read result ≡ counted count }
{
    let int = Int::positive(u128::from(count));
    Ok(ConstValue::Integer(IntegerKind::U32, int))
}

/// How many binary digits a number has.
fn binary_digits(number: u128) -> u32
    ensures { result ≡ binary_digits number }
{
    128u32.saturating_sub(number.leading_zeros())
}

/// What a method makes of a number.
#[tactic(auto, using(crate::proofs::Numbers::too_wide))]
pub(crate) fn of_one(
    method: MethodOfOne,
    kind: IntegerKind,
    width: Width,
    int: Int,
) -> Result<ConstValue, FaultKind>
    ensures { seen value_as_read result
        ≡ of_one method kind width.is_signed width.bits (number_of_int int) }
{
    match method {
        MethodOfOne::NextPowerOfTwo => next_power(kind, width, int),
        MethodOfOne::IsPowerOfTwo => is_power(kind, width, int),
        MethodOfOne::CountOnes => counted(width.low(int.bits()).count_ones()),
        MethodOfOne::LeadingZeros => {
            counted(
                width
                    .bits
                    .saturating_sub(binary_digits(width.low(int.bits()))),
            )
        }
        MethodOfOne::TrailingZeros => {
            counted(width.bits.min(width.low(int.bits()).trailing_zeros()))
        }
        MethodOfOne::Ilog2 => logarithm(kind, width, int),
    }
}

/// The least power of two that isn't below a number without a sign.
#[tactic(auto, using(crate::proofs::Numbers::too_wide))]
fn next_power(kind: IntegerKind, width: Width, int: Int) -> Result<ConstValue, FaultKind>
    ensures { seen value_as_read result
        ≡ of_one MethodOfOne.NextPowerOfTwo kind width.is_signed width.bits (number_of_int int) }
{
    if width.is_signed {
        return Err(FaultKind::WrongType);
    }
    let digits = binary_digits(int.magnitude.saturating_sub(1));
    fitting(kind, width, power_of_two(digits))
}

/// Two to the power, or none where it has more than 128 bits.
fn power_of_two(exponent: u32) -> Option<Int>
    requires { exponent ≤ 128 }
    ensures some { IfSome result (λ power. number_of_int power ≡ pos (2 ^ exponent)) }
    ensures none { IfNone result (exponent ≡ 128) }
{
    if exponent < 128 {
        Some(Int::positive(1 << exponent))
    } else {
        None
    }
}

/// Whether a number without a sign is a power of two.
fn is_power(kind: IntegerKind, width: Width, int: Int) -> Result<ConstValue, FaultKind>
    ensures { seen value_as_read result
        ≡ of_one MethodOfOne.IsPowerOfTwo kind width.is_signed width.bits (number_of_int int) }
{
    if width.is_signed {
        return Err(FaultKind::WrongType);
    }
    Ok(ConstValue::Bool(int.magnitude.is_power_of_two()))
}

/// The logarithm of a number to the base two, cut downwards. No number that isn't above 0 has one.
fn logarithm(kind: IntegerKind, width: Width, int: Int) -> Result<ConstValue, FaultKind>
    ensures { seen value_as_read result
        ≡ of_one MethodOfOne.Ilog2 kind width.is_signed width.bits (number_of_int int) }
{
    if !Int::positive(0).is_below(int) {
        return Err(FaultKind::Overflow(IntegerKind::U32));
    }
    counted(binary_digits(int.magnitude).saturating_sub(1))
}

/// The type without a sign that has as many bits.
pub(crate) fn unsigned_kind(kind: IntegerKind) -> IntegerKind
    ensures { result ≡ unsigned_kind kind }
{
    match kind {
        IntegerKind::I8 => IntegerKind::U8,
        IntegerKind::I16 => IntegerKind::U16,
        IntegerKind::I32 => IntegerKind::U32,
        IntegerKind::I64 => IntegerKind::U64,
        IntegerKind::I128 => IntegerKind::U128,
        IntegerKind::Isize => IntegerKind::Usize,
        _ => kind,
    }
}

/// The type of a method's other number.
pub(crate) fn kind_of_other(method: MethodOfTwo, kind: IntegerKind) -> IntegerKind
    ensures { result ≡ kind_of_other method kind }
{
    match method {
        MethodOfTwo::Pow => IntegerKind::U32,
        _ => kind,
    }
}

/// The value of a method that is called on a value alone.
pub(crate) fn made_of_one(
    method: MethodOfOne,
    value: ConstValue,
    pointer_bits: u32,
) -> Result<ConstValue, FaultKind>
    ensures { seen value_as_read result ≡ made_of_one pointer_bits method (value_as_read value) }
{
    match value {
        ConstValue::Integer(kind, int) => {
            of_one(method, kind, Width::of(kind, pointer_bits), int)
        }
        _ => Err(FaultKind::WrongType),
    }
}

/// The value of a method that is called on a value and given another.
pub(crate) fn made_of_both(
    method: MethodOfTwo,
    value: ConstValue,
    other: ConstValue,
    pointer_bits: u32,
) -> Result<ConstValue, FaultKind>
    ensures { seen value_as_read result
        ≡ made_of_both pointer_bits method (value_as_read value) (value_as_read other) }
{
    match (value, other) {
        (ConstValue::Integer(kind, a), ConstValue::Integer(_, b)) => {
            of_both(method, kind, Width::of(kind, pointer_bits), a, b)
        }
        _ => Err(FaultKind::WrongType),
    }
}

/// The type that a method's other value has to have.
pub(crate) fn kind_beside(method: MethodOfTwo, value: ConstValue) -> Option<Kind>
    ensures { result ≡ kind_beside method (value_as_read value) }
{
    match value {
        ConstValue::Integer(kind, _) => Some(Kind::Integer(kind_of_other(method, kind))),
        _ => None,
    }
}

/// The least or the greatest number of an integer type.
pub(crate) fn end_of(kind: IntegerKind, is_greatest: bool, pointer_bits: u32) -> ConstValue
    ensures { value_as_read result ≡ end_of pointer_bits is_greatest kind }
{
    let width = Width::of(kind, pointer_bits);
    let end = if is_greatest {
        width.max()
    } else {
        width.min()
    };
    ConstValue::Integer(kind, end)
}

/// What a method makes of two numbers.
#[tactic(auto, using(crate::proofs::Numbers::too_wide))]
pub(crate) fn of_both(
    method: MethodOfTwo,
    kind: IntegerKind,
    width: Width,
    a: Int,
    b: Int,
) -> Result<ConstValue, FaultKind>
    ensures { seen value_as_read result
        ≡ of_both method kind width.is_signed width.bits (number_of_int a) (number_of_int b) }
{
    match method {
        MethodOfTwo::Pow => power(kind, width, a, b),
        MethodOfTwo::DivCeil => divided_up(kind, width, a, b),
        MethodOfTwo::AbsDiff => difference(kind, width, a, b),
        MethodOfTwo::SaturatingAdd => Ok(ConstValue::Integer(kind, width.nearest_sum(a, b))),
        MethodOfTwo::SaturatingSub => {
            Ok(ConstValue::Integer(kind, width.nearest_sum(a, b.negated())))
        }
        MethodOfTwo::SaturatingMul => Ok(ConstValue::Integer(kind, width.nearest_product(a, b))),
        MethodOfTwo::WrappingAdd => {
            Ok(ConstValue::Integer(kind, width.wrap(a.bits().wrapping_add(b.bits()))))
        }
        MethodOfTwo::WrappingSub => {
            Ok(ConstValue::Integer(kind, width.wrap(a.bits().wrapping_sub(b.bits()))))
        }
        MethodOfTwo::WrappingMul => {
            Ok(ConstValue::Integer(kind, width.wrap(a.bits().wrapping_mul(b.bits()))))
        }
        MethodOfTwo::DivEuclid => quotient(kind, width, a, b),
        MethodOfTwo::RemEuclid => remainder(kind, width, a, b),
    }
}

/// The quotient of numbers without a sign, cut upwards.
fn divided_up(kind: IntegerKind, width: Width, a: Int, b: Int) -> Result<ConstValue, FaultKind>
    ensures { seen value_as_read result
        ≡ of_both MethodOfTwo.DivCeil kind width.is_signed width.bits (number_of_int a) (number_of_int b) }
{
    if width.is_signed {
        return Err(FaultKind::WrongType);
    }
    if b.magnitude == 0 {
        return Err(FaultKind::DivisionByZero);
    }
    let up = a.magnitude.div_ceil(b.magnitude);
    fitting(kind, width, Some(Int::positive(up)))
}

/// How far two numbers are from one another, as a number without a sign.
#[tactic(auto, using(crate::proofs::Numbers::too_great))]
fn difference(kind: IntegerKind, width: Width, a: Int, b: Int) -> Result<ConstValue, FaultKind>
    ensures { seen value_as_read result
        ≡ of_both MethodOfTwo.AbsDiff kind width.is_signed width.bits (number_of_int a) (number_of_int b) }
{
    let kind = unsigned_kind(kind);
    let width = width.unsigned();
    match a.plus(b.negated()) {
        Some(apart) => fitting(kind, width, Some(Int::positive(apart.magnitude))),
        None => Err(FaultKind::Overflow(kind)),
    }
}

/// The quotient whose remainder isn't negative.
#[tactic(auto, using(crate::proofs::Numbers::too_wide))]
fn quotient(kind: IntegerKind, width: Width, a: Int, b: Int) -> Result<ConstValue, FaultKind>
    ensures { seen value_as_read result ≡ euclid kind width.is_signed width.bits (number_of_int a) (number_of_int b) }
{
    match a.over_euclid(b) {
        Some(quotient) => fitting(kind, width, Some(quotient)),
        None => Err(FaultKind::DivisionByZero),
    }
}

/// What that quotient leaves. It overflows where the quotient does.
fn remainder(kind: IntegerKind, width: Width, a: Int, b: Int) -> Result<ConstValue, FaultKind>
    ensures { seen value_as_read result
        ≡ of_both MethodOfTwo.RemEuclid kind width.is_signed width.bits (number_of_int a) (number_of_int b) }
{
    let _quotient = quotient(kind, width, a, b)?;
    match a.left_over_euclid(b) {
        Some(rest) => fitting(kind, width, Some(rest)),
        None => Err(FaultKind::DivisionByZero),
    }
}

/// A number to the power.
#[tactic(auto, using(crate::proofs::Numbers::too_wide))]
fn power_of(
    kind: IntegerKind,
    width: Width,
    int: Int,
    exponent: u32,
) -> Result<ConstValue, FaultKind>
    ensures { seen value_as_read result
        ≡ fitted kind width.is_signed width.bits (int_pow (number_of_int int) exponent) }
{
    fitting(kind, width, int.power(exponent))
}

/// A number to a power, which is a `u32`.
fn power(kind: IntegerKind, width: Width, a: Int, b: Int) -> Result<ConstValue, FaultKind>
    ensures { seen value_as_read result
        ≡ of_both MethodOfTwo.Pow kind width.is_signed width.bits (number_of_int a) (number_of_int b) }
{
    match b.exponent() {
        Some(exponent) => power_of(kind, width, a, exponent),
        None => Err(FaultKind::WrongType),
    }
}
