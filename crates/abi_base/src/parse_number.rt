//! Numbers in a data layout string.

ghost use Rattle.std.specs.Prelude.{◌≡◌, ◌^◌, Some};
ghost use Rattle.std.specs.Str.{all_ascii_digits};
ghost use Rattle.std.specs.Str.Parse.{without_leading_plus};
ghost use Rattle.abi_base.specs.NumberText.{is_numeral, number_answer, number_error};
ghost use Rattle.abi_base.specs.ErrorText.{number_error_text};

use std::error::Error;
use std::fmt;
use std::fmt::Display;

/// Why a text is no number that fits. A number is one decimal digit or more, after at most one
/// plus.
#[derive(Clone, Copy, PartialEq, Eq, Debug)]
pub enum NumberError {
    /// There is no text where a number should stand.
    Empty,
    /// The text is no number, as `+`, `-1` and `1x` are none.
    InvalidDigit,
    /// The number has more bits than are kept of it.
    PosOverflow,
}

impl Display for NumberError {
    ghost output = { λ error. Some (number_error_text error) };

    /// Why it is no number.
    fn fmt<W: fmt::Write>(&self, f: &mut fmt::Formatter<W>) -> fmt::Result {
        f.write_str(match self {
            NumberError::Empty => "no number",
            NumberError::InvalidDigit => "not a decimal number",
            NumberError::PosOverflow => "too large a number",
        })
    }
}

impl Error for NumberError {}

/// Whether it is one decimal digit or more, and nothing else.
fn is_numeral(digits: &[u8]) -> bool
    ensures { result ≡ is_numeral digits.now }
{
    !digits.is_empty() && are_digits(digits)
}

/// Whether each byte is a decimal digit.
fn are_digits(bytes: &[u8]) -> bool
    ensures { result ≡ all_ascii_digits bytes.now }
{
    for byte in bytes {
        if !byte.is_ascii_digit() {
            return false;
        }
    }
    true
}

/// What follows one plus, if one stands first.
fn without_plus(text: &[u8]) -> &[u8]
    ensures { result.now ≡ without_leading_plus text.now }
{
    match text {
        [b'+', rest @ ..] => rest,
        _ => text,
    }
}

/// Why a text is no number that fits.
fn number_error(text: &[u8]) -> NumberError
    ensures { result ≡ number_error text.now }
{
    if text.is_empty() {
        NumberError::Empty
    } else if is_numeral(without_plus(text)) {
        NumberError::PosOverflow
    } else {
        NumberError::InvalidDigit
    }
}

/// The number of 64 bits that the text is.
pub(crate) fn number_u64(text: &str) -> Result<u64, NumberError>
    ensures { result ≡ number_answer (2 ^ 64) text.now }
{
    match text.parse::<u64>() {
        Ok(number) => Ok(number),
        Err(_) => Err(number_error(text.as_bytes())),
    }
}

/// The number of 32 bits that the text is.
pub(crate) fn number_u32(text: &str) -> Result<u32, NumberError>
    ensures { result ≡ number_answer (2 ^ 32) text.now }
{
    match text.parse::<u32>() {
        Ok(number) => Ok(number),
        Err(_) => Err(number_error(text.as_bytes())),
    }
}
