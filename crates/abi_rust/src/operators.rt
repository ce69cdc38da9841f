//! What operators make of values.

ghost use Rattle.std.specs.Prelude.{◌≡◌, IfNone, IfOk, IfSome, Err, pos, unsigned_abs, ◌%◌};
ghost use Rattle.std.specs.Option.{option_map};
ghost use Rattle.abi_rust.specs.Int.{number_of_int};
ghost use Rattle.abi_rust.specs.Operators.{as_code, binary_of, bits_of_value, cast_of, divided, fitted, is_settled, number_of_kind, number_of_truth, of_numbers, of_truths, of_two, order_of, same_integer, is_same_kind, seen, shifted_left, shifted_right, unary_of};
ghost use Rattle.abi_rust.specs.Values.{IsNumberOfKind, value_as_read};

use crate::fault::FaultKind;
use crate::int::{Int, Width};
use crate::ty::{ConstValue, Kind};
use rust_source::{Binary, IntegerKind, Unary};

/// A number, where it fits the type.
pub(crate) fn fitting(
    kind: IntegerKind,
    width: Width,
    int: Option<Int>,
) -> Result<ConstValue, FaultKind>
    ensures number { IfOk result (λ value. IsNumberOfKind kind int value) }
    ensures fits { IfSome int (λ i. seen value_as_read result
        ≡ fitted kind width.is_signed width.bits (number_of_int i)) }
    ensures none { IfNone int (result ≡ Err (FaultKind.Overflow kind)) }
{
    match int {
        Some(int) => {
            if width.has(int) {
                Ok(ConstValue::Integer(kind, int))
            } else {
                Err(FaultKind::Overflow(kind))
            }
        }
        None => Err(FaultKind::Overflow(kind)),
    }
}

/// What an operator before its operand makes of it.
pub(crate) fn unary(
    operator: Unary,
    value: ConstValue,
    pointer_bits: u32,
) -> Result<ConstValue, FaultKind>
    ensures { seen value_as_read result ≡ unary_of pointer_bits operator (value_as_read value) }
{
    match (operator, value) {
        (Unary::Not, ConstValue::Bool(truth)) => Ok(ConstValue::Bool(!truth)),
        (Unary::Not, ConstValue::Integer(kind, int)) => {
            let width = Width::of(kind, pointer_bits);
            Ok(ConstValue::Integer(kind, width.wrap(!int.bits())))
        }
        (Unary::Minus, ConstValue::Integer(kind, int)) => {
            let width = Width::of(kind, pointer_bits);
            if !width.is_signed {
                return Err(FaultKind::WrongType);
            }
            fitting(kind, width, Some(int.negated()))
        }
        _ => Err(FaultKind::WrongType),
    }
}

/// Whether the first operand decides: `false && ..`, `true || ..`.
pub(crate) fn is_settled(operator: Binary, first: ConstValue) -> bool
    ensures { result ≡ is_settled operator (value_as_read first) }
{
    match (operator, first) {
        (Binary::And, ConstValue::Bool(false)) => true,
        (Binary::Or, ConstValue::Bool(true)) => true,
        _ => false,
    }
}

/// What an operator between two values makes of them.
pub(crate) fn binary(
    operator: Binary,
    left: ConstValue,
    right: ConstValue,
    pointer_bits: u32,
) -> Result<ConstValue, FaultKind>
    ensures { seen value_as_read result ≡ binary_of pointer_bits operator (value_as_read left) (value_as_read right) }
{
    match (left, right) {
        (ConstValue::Bool(a), ConstValue::Bool(b)) => of_bools(operator, a, b),
        (ConstValue::Char(a), ConstValue::Char(b)) => {
            let (a, b) = (Int::positive(u128::from(a)), Int::positive(u128::from(b)));
            of_order(operator, a, b)
        }
        (ConstValue::Integer(kind, a), ConstValue::Integer(other, b)) => {
            let width = Width::of(kind, pointer_bits);
            of_two(operator, width, (kind, a), (other, b))
        }
        _ => Err(FaultKind::WrongType),
    }
}

/// What an operator makes of truths.
fn of_bools(operator: Binary, a: bool, b: bool) -> Result<ConstValue, FaultKind>
    ensures { seen value_as_read result ≡ of_truths operator a b }
{
    match operator {
        Binary::And | Binary::BitAnd => Ok(ConstValue::Bool(a && b)),
        Binary::Or | Binary::BitOr => Ok(ConstValue::Bool(a || b)),
        Binary::BitXor => Ok(ConstValue::Bool(if a { !b } else { b })),
        _ => of_order(operator, of_truth(a), of_truth(b)),
    }
}

/// A truth as a number.
fn of_truth(truth: bool) -> Int
    ensures { number_of_int result ≡ pos (number_of_truth truth) }
{
    Int::positive(u128::from(truth))
}

/// What a comparison tells.
fn of_order(operator: Binary, a: Int, b: Int) -> Result<ConstValue, FaultKind>
    ensures { seen value_as_read result ≡ order_of operator (number_of_int a) (number_of_int b) }
{
    match operator {
        Binary::Equal => Ok(ConstValue::Bool(!a.is_below(b) && !b.is_below(a))),
        Binary::NotEqual => Ok(ConstValue::Bool(a.is_below(b) || b.is_below(a))),
        Binary::Less => Ok(ConstValue::Bool(a.is_below(b))),
        Binary::LessOrEqual => Ok(ConstValue::Bool(!b.is_below(a))),
        Binary::Greater => Ok(ConstValue::Bool(b.is_below(a))),
        Binary::GreaterOrEqual => Ok(ConstValue::Bool(!a.is_below(b))),
        _ => Err(FaultKind::WrongType),
    }
}

/// The number times two to the power, of which the lowest bits stay.
fn shifted_left(kind: IntegerKind, width: Width, a: Int, b: Int) -> Result<ConstValue, FaultKind>
    ensures { seen value_as_read result
        ≡ shifted_left kind width.is_signed width.bits (number_of_int a) (number_of_int b) }
{
    fitting(kind, width, a.shifted_left(width, b))
}

/// The number over two to the power, cut downwards.
fn shifted_right(kind: IntegerKind, width: Width, a: Int, b: Int) -> Result<ConstValue, FaultKind>
    ensures { seen value_as_read result
        ≡ shifted_right kind width.is_signed width.bits (number_of_int a) (number_of_int b) }
{
    fitting(kind, width, a.shifted_right(width, b))
}

/// What an operator makes of two numbers, each with its type: of two types for a shift alone.
fn of_two(
    operator: Binary,
    width: Width,
    left: (IntegerKind, Int),
    right: (IntegerKind, Int),
) -> Result<ConstValue, FaultKind>
    ensures { seen value_as_read result ≡ of_two operator width.is_signed width.bits left.0 right.0
        (number_of_int left.1) (number_of_int right.1) }
{
    let ((kind, a), (other, b)) = (left, right);
    match operator {
        Binary::Shl => shifted_left(kind, width, a, b),
        Binary::Shr => shifted_right(kind, width, a, b),
        _ => {
            if !same_integer(kind, other) {
                return Err(FaultKind::WrongType);
            }
            of_integers(operator, kind, width, a, b)
        }
    }
}

/// What an operator makes of two numbers of one type.
#[tactic(auto, using(crate::proofs::Numbers::too_wide))]
fn of_integers(
    operator: Binary,
    kind: IntegerKind,
    width: Width,
    a: Int,
    b: Int,
) -> Result<ConstValue, FaultKind>
    ensures { seen value_as_read result
        ≡ of_numbers operator kind width.is_signed width.bits (number_of_int a) (number_of_int b) }
{
    match operator {
        Binary::Add => fitting(kind, width, a.plus(b)),
        Binary::Sub => fitting(kind, width, a.plus(b.negated())),
        Binary::Mul => fitting(kind, width, a.times(b)),
        Binary::Div => divided(kind, width, a, b),
        Binary::Rem => remainder(kind, width, a, b),
        Binary::BitAnd => Ok(ConstValue::Integer(kind, width.wrap(a.bits() & b.bits()))),
        Binary::BitOr => Ok(ConstValue::Integer(kind, width.wrap(a.bits() | b.bits()))),
        Binary::BitXor => Ok(ConstValue::Integer(kind, width.wrap(a.bits() ^ b.bits()))),
        _ => of_order(operator, a, b),
    }
}

/// The quotient, cut towards zero.
fn divided(kind: IntegerKind, width: Width, a: Int, b: Int) -> Result<ConstValue, FaultKind>
    ensures { seen value_as_read result ≡ divided kind width.is_signed width.bits (number_of_int a) (number_of_int b) }
{
    match a.over(b) {
        Some(quotient) => fitting(kind, width, Some(quotient)),
        None => Err(FaultKind::DivisionByZero),
    }
}

/// What the quotient leaves. It overflows where the quotient does.
fn remainder(kind: IntegerKind, width: Width, a: Int, b: Int) -> Result<ConstValue, FaultKind>
    ensures { seen value_as_read result
        ≡ of_numbers Binary.Rem kind width.is_signed width.bits (number_of_int a) (number_of_int b) }
{
    let _quotient = divided(kind, width, a, b)?;
    match a.left_over(b) {
        Some(rest) => fitting(kind, width, Some(rest)),
        None => Err(FaultKind::DivisionByZero),
    }
}

/// The lowest byte of a number that isn't negative.
fn low_byte(int: Int) -> u32
    ensures { result ≡ unsigned_abs (number_of_int int) % 256 }
{
    u32::try_from(int.magnitude % 256).unwrap_or(0)
}

/// A value's bits.
fn bits_of(value: ConstValue) -> u128
    ensures { result ≡ bits_of_value (value_as_read value) }
{
    match value {
        ConstValue::Bool(truth) => of_truth(truth).bits(),
        ConstValue::Char(code) => u128::from(code),
        ConstValue::Integer(_, int) => int.bits(),
    }
}

/// What a cast to a character makes of a value: of one, and of a byte.
fn as_code(value: ConstValue) -> Result<ConstValue, FaultKind>
    ensures { seen value_as_read result ≡ as_code (value_as_read value) }
{
    match value {
        ConstValue::Char(code) => Ok(ConstValue::Char(code)),
        ConstValue::Integer(IntegerKind::U8, int) => Ok(ConstValue::Char(low_byte(int))),
        _ => Err(FaultKind::WrongType),
    }
}

/// What a cast makes of a value.
pub(crate) fn cast(
    value: ConstValue,
    kind: Kind,
    pointer_bits: u32,
) -> Result<ConstValue, FaultKind>
    ensures { seen value_as_read result ≡ cast_of pointer_bits kind (value_as_read value) }
{
    match kind {
        Kind::Integer(wanted) => {
            let width = Width::of(wanted, pointer_bits);
            Ok(ConstValue::Integer(wanted, width.wrap(bits_of(value))))
        }
        Kind::Char => as_code(value),
        Kind::Bool => match value {
            ConstValue::Bool(truth) => Ok(ConstValue::Bool(truth)),
            _ => Err(FaultKind::WrongType),
        },
    }
}

/// An integer type's number among them.
fn number_of_kind(kind: IntegerKind) -> u8
    ensures { result ≡ number_of_kind kind }
{
    kind as u8
}

/// Whether two integer types are one.
pub(crate) fn same_integer(a: IntegerKind, b: IntegerKind) -> bool
    ensures { result ≡ same_integer a b }
{
    number_of_kind(a) == number_of_kind(b)
}

/// Whether two types of constants are one.
pub(crate) fn same_kind(a: Kind, b: Kind) -> bool
    ensures { result ≡ is_same_kind a b }
{
    match (a, b) {
        (Kind::Bool, Kind::Bool) => true,
        (Kind::Char, Kind::Char) => true,
        (Kind::Integer(a), Kind::Integer(b)) => same_integer(a, b),
        _ => false,
    }
}
