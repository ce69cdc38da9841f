//! Numbers in a type's text.

ghost use Rattle.std.specs.Prelude.{◌≡◌, Some};
ghost use Rattle.abi_text.specs.Numbers.{discriminant_in, negated, number_of_bits, number_to};

/// The number that the word is: decimal digits without a sign. None where it's something else, or greater than `most`.
fn number_to(word: &[u8], most: u128) -> Option<u128>
    ensures { result ≡ number_to most word.now }
{
    if word.is_empty() {
        return None;
    }
    let mut number = 0u128;
    for digit in word {
        if !digit.is_ascii_digit() {
            return None;
        }
        let Some(tens) = number.checked_mul(10) else {
            return None;
        };
        let Some(more) = tens.checked_add(u128::from(*digit - b'0')) else {
            return None;
        };
        if more > most {
            return None;
        }
        number = more;
    }
    Some(number)
}

/// The number of 128 bits that a word is: decimal digits without a sign. None where it is something else, or greater.
pub fn number_u128(word: &[u8]) -> Option<u128>
    ensures { result ≡ number_of_bits 128 word.now }
{
    number_to(word, u128::MAX)
}

/// The two's complement of 128 bits of minus the number. None for 0.
fn negated(number: u128) -> Option<u128>
    ensures { result ≡ negated (Some number) }
{
    if number == 0 {
        return None;
    }
    Some(u128::MAX - (number - 1))
}

/// The discriminant that a word is: a number of 128 bits, or `-` and a number from 1 to 2^127, as two's complement.
/// None where it is something else.
pub fn discriminant(word: &[u8]) -> Option<u128>
    ensures { result ≡ discriminant_in word.now }
{
    match word.split_first() {
        Some((b'-', digits)) => negated(number_to(digits, 1 << 127)?),
        _ => number_u128(word),
    }
}

/// The number of 64 bits that a word is: decimal digits without a sign. None where it is something else, or greater.
pub fn decimal(word: &[u8]) -> Option<u64>
    ensures { result ≡ number_of_bits 64 word.now }
{
    Some(number_to(word, u128::from(u64::MAX))? as u64)
}

/// The number of 32 bits that a word is: decimal digits without a sign. None where it is something else, or greater.
pub fn number_u32(word: &[u8]) -> Option<u32>
    ensures { result ≡ number_of_bits 32 word.now }
{
    Some(number_to(word, u128::from(u32::MAX))? as u32)
}
