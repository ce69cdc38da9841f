//! The values of numbers and characters.

ghost use Rattle.std.specs.Prelude.{◌≡◌, ◌≤◌, length, map};
ghost use Rattle.rust_source.specs.Literals.{code_from, base_of, char_code, code_by, code_within, digit_value, digits_length, digits_value, kind_entry, escape_by, escaped_code, hex_code, integer_kind, integer_kind_in, is_digit_in, is_float_tail, is_float_type, letter_code, number_of_digits, number_written, suffixed, with_digit, bytes_between};
ghost use Rattle.rust_source.specs.Characters.{first_char};
ghost use Rattle.rust_source.specs.Slices.{now_of};

use crate::fault::SourceFaultKind;
use crate::syntax::IntegerKind;
use crate::tokens::{byte_at, bytes_after, first_char, has_base};

/// How many integer types there are.
const KINDS: usize = 12;

/// The integer types, as a suffix or a `repr` names them.
static KIND_NAMES: [(&str, IntegerKind); KINDS] = [
    ("i8", IntegerKind::I8),
    ("i16", IntegerKind::I16),
    ("i32", IntegerKind::I32),
    ("i64", IntegerKind::I64),
    ("i128", IntegerKind::I128),
    ("isize", IntegerKind::Isize),
    ("u8", IntegerKind::U8),
    ("u16", IntegerKind::U16),
    ("u32", IntegerKind::U32),
    ("u64", IntegerKind::U64),
    ("u128", IntegerKind::U128),
    ("usize", IntegerKind::Usize),
];

/// The first integer type of a table that has this name.
fn integer_kind_in(table: &[(&'static str, IntegerKind)], name: &[u8]) -> Option<IntegerKind>
    ensures { result ≡ integer_kind_in (map kind_entry table.now) name.now }
{
    for (text, kind) in table {
        if text.as_bytes() == name {
            return Some(*kind);
        }
    }
    None
}

/// The integer type of this name.
pub(crate) fn integer_kind(name: &[u8]) -> Option<IntegerKind>
    ensures { result ≡ integer_kind name.now }
{
    integer_kind_in(&KIND_NAMES, name)
}

/// What a number in a source is.
#[derive(Clone, Copy)]
pub(crate) enum Number {
    /// An integer, and the type that its suffix names.
    Integer(u128, Option<IntegerKind>),
    /// A float.
    Float,
    /// None that there is.
    Bad,
}

/// The value of a digit, in bases up to sixteen. Greater than fifteen where it is none.
pub(crate) fn digit_value(byte: u8) -> u8
    ensures { result ≡ digit_value byte }
{
    match byte {
        b'0'..=b'9' => byte - b'0',
        b'a'..=b'f' => byte - b'a' + 10,
        b'A'..=b'F' => byte - b'A' + 10,
        _ => 16,
    }
}

/// Whether a byte is a digit of a base, or `_`.
fn is_digit_in(byte: u8, base: u8) -> bool
    ensures { result ≡ is_digit_in base byte }
{
    byte == b'_' || digit_value(byte) < base
}

/// How many digits of a base, and `_`, the bytes begin with.
#[tactic(auto, unfolding(crate::specs::Literals::digits_length))]
fn digits_length(digits: &[u8], base: u8) -> usize
    ensures { result ≡ digits_length base digits.now }
{
    for (index, byte) in digits.iter().enumerate() {
        if !is_digit_in(*byte, base) {
            return index;
        }
    }
    digits.len()
}

/// The number that a digit makes behind others. None where it doesn't fit 128 bits.
fn with_digit(before: Option<u128>, base: u8, digit: u8) -> Option<u128>
    ensures { result ≡ with_digit base before digit }
{
    let more = before.unwrap_or(0).checked_mul(u128::from(base))?;
    more.checked_add(u128::from(digit))
}

/// The number that the digits of a base are, `_` aside. None where there is no digit, a digit is too great, or the
/// number doesn't fit 128 bits.
#[tactic(auto, using(crate::proofs::Digits::digits_same))]
fn digits_value(digits: &[u8], base: u8) -> Option<u128>
    ensures { result ≡ digits_value base digits.now }
{
    let mut value: Option<u128> = None;
    for byte in digits {
        if *byte == b'_' {
            continue;
        }
        let digit = digit_value(*byte);
        if digit >= base {
            return None;
        }
        value = Some(with_digit(value, base, digit)?);
    }
    value
}

/// The number that digits are worth with a suffix.
fn suffixed(value: Option<u128>, kind: Option<IntegerKind>, is_bare: bool) -> Number
    ensures { result ≡ suffixed value kind is_bare }
{
    match (value, kind) {
        (Some(value), Some(kind)) => Number::Integer(value, Some(kind)),
        (Some(value), None) if is_bare => Number::Integer(value, None),
        _ => Number::Bad,
    }
}

/// The number that digits of a base are, and what follows them.
#[tactic(auto, unfolding(crate::specs::Literals::number_of_digits))]
fn number_in(text: &[u8], base: u8) -> Number
    ensures { result ≡ number_of_digits base text.now }
{
    let length = digits_length(text, base);
    let suffix = bytes_after(text, length);
    let digits = match text.get(..length) {
        Some(digits) => digits,
        None => text,
    };
    suffixed(
        digits_value(digits, base),
        integer_kind(suffix),
        suffix.is_empty(),
    )
}

/// Whether it is the name of a float's type.
fn is_float_type(name: &[u8]) -> bool
    ensures { result ≡ is_float_type name.now }
{
    "f32".as_bytes() == name
        || "f64".as_bytes() == name
        || "f16".as_bytes() == name
        || "f128".as_bytes() == name
}

/// Whether what follows a decimal number's digits makes it a float.
fn is_float_tail(tail: &[u8]) -> bool
    ensures { result ≡ is_float_tail tail.now }
{
    match tail.first() {
        Some(first) => { *first == b'.' || *first == b'e' || *first == b'E' || is_float_type(tail) }
        None => false,
    }
}

/// The base that the letter behind a `0` names.
fn base_of(text: &[u8]) -> u8
    ensures { result ≡ base_of text.now }
{
    match byte_at(text, 1) {
        b'x' => 16,
        b'o' => 8,
        _ => 2,
    }
}

/// What a number is that a source writes so.
#[tactic(auto, unfolding(crate::specs::Literals::number_written))]
pub(crate) fn number_of(text: &[u8]) -> Number
    ensures { result ≡ number_written text.now }
{
    if has_base(text) {
        number_in(bytes_after(text, 2), base_of(text))
    } else if is_float_tail(bytes_after(text, digits_length(text, 10))) {
        Number::Float
    } else {
        number_in(text, 10)
    }
}

/// The code of a character that an escape's letter names.
fn letter_code(letter: char) -> Option<u32>
    ensures { result ≡ letter_code letter }
{
    match letter {
        'n' => Some(10),
        'r' => Some(13),
        't' => Some(9),
        '0' => Some(0),
        '\\' | '\'' | '"' => Some(letter as u32),
        _ => None,
    }
}

/// A number that is a character's code.
fn as_code(value: Option<u128>) -> Option<u32>
    ensures { result ≡ code_from value }
{
    let code = u32::try_from(value?).ok()?;
    if char::from_u32(code).is_some() {
        Some(code)
    } else {
        None
    }
}

/// The bytes between a first one and a last one.
#[tactic(auto, unfolding(crate::specs::Literals::bytes_between))]
pub(crate) fn bytes_between(bytes: &[u8], first: u8, last: u8) -> Option<&[u8]>
    ensures { now_of result ≡ bytes_between first last bytes.now }
{
    let end = bytes.len();
    if end >= 2 && bytes[0] == first && bytes[end - 1] == last {
        Some(&bytes[1..end - 1])
    } else {
        None
    }
}

/// The code that hexadecimal digits are.
fn hex_code(digits: Option<&[u8]>) -> Option<u32>
    ensures { result ≡ hex_code (now_of digits.entry) }
{
    as_code(digits_value(digits?, 16))
}

/// The code that the digits behind an escape's letter are, as in `\x41` and `\u{7b}`.
#[tactic(auto, unfolding(crate::specs::Literals::escaped_code))]
fn escaped_code(letter: char, digits: &[u8]) -> Option<u32>
    ensures { result ≡ escaped_code letter digits.now }
{
    match letter {
        'x' => hex_code(Some(digits)),
        'u' => hex_code(bytes_between(digits, b'{', b'}')),
        _ => None,
    }
}

/// The code of an escape, of which this stands behind the backslash.
pub(crate) fn escape_code(rest: &[u8]) -> Option<u32>
    ensures { result ≡ escape_by rest.now (first_char rest.now) }
{
    let (letter, length) = first_char(rest)?;
    let digits = bytes_after(rest, length);
    if digits.is_empty() {
        letter_code(letter)
    } else {
        escaped_code(letter, digits)
    }
}

/// The code of the one character that stands between the quotes of a literal.
fn code_between(inside: &[u8]) -> Option<u32>
    ensures { result ≡ code_by inside.now (first_char inside.now) }
{
    let (first, length) = first_char(inside)?;
    let rest = bytes_after(inside, length);
    if first == '\\' {
        escape_code(rest)
    } else if rest.is_empty() {
        Some(first as u32)
    } else {
        None
    }
}

/// The code of a character literal, or of a byte's literal behind its `b`.
#[tactic(auto, unfolding(crate::specs::Literals::char_code))]
pub(crate) fn char_code(text: &[u8]) -> Result<u32, SourceFaultKind>
    ensures { result ≡ char_code text.now }
{
    let code = match bytes_between(text, b'\'', b'\'') {
        Some(inside) => code_between(inside),
        None => None,
    };
    match code {
        Some(code) => Ok(code),
        None => Err(SourceFaultKind::BadCharacter),
    }
}
