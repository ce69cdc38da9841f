//! Numbers out of a list, from a place on.

ghost use Rattle.std.specs.Prelude.{◌≡◌, IfErr, IfOk, Some, drop, map, slice_get};
ghost use Rattle.abi_c.specs.Numbers.Pieces.{Fails, bool_numbered, front_as, front_list, front_two, front_wide, front_word, front_words, list_kept};

use crate::numbers::error::ReadError;
use std::alloc::Global;

/// What a table has for a number.
pub(crate) fn numbered<T: Copy>(all: &[T], number: u64) -> Result<T, ReadError>
    ensures ok { IfOk result (λ a. slice_get all.now number ≡ Some a) }
    ensures err { IfErr result (Fails (slice_get all.now number)) }
{
    match all.get(number as usize) {
        Some(item) => Ok(*item),
        None => Err(ReadError::Unreadable),
    }
}

/// The next number.
pub(crate) fn read_word(numbers: &[u64], at: &mut usize) -> Result<u64, ReadError>
    ensures ok { IfOk result (λ a. front_word (drop at.old numbers.now) ≡
        Some (a, drop at.new numbers.now)) }
    ensures err { IfErr result (Fails (front_word (drop at.old numbers.now))) }
{
    match numbers.get(*at) {
        Some(number) => {
            *at += 1;
            Ok(*number)
        }
        None => Err(ReadError::Unreadable),
    }
}

/// False or true.
pub(crate) fn read_bool(numbers: &[u64], at: &mut usize) -> Result<bool, ReadError>
    ensures ok { IfOk result (λ a. front_as bool_numbered (drop at.old numbers.now) ≡
        Some (a, drop at.new numbers.now)) }
    ensures err { IfErr result (Fails (front_as bool_numbered (drop at.old numbers.now))) }
{
    let number = read_word(numbers, at)?;
    numbered(&[false, true], number)
}

/// A number of 128 bits.
pub(crate) fn read_wide(numbers: &[u64], at: &mut usize) -> Result<u128, ReadError>
    ensures ok { IfOk result (λ a. front_wide (drop at.old numbers.now) ≡
        Some (a, drop at.new numbers.now)) }
    ensures err { IfErr result (Fails (front_wide (drop at.old numbers.now))) }
{
    let low = read_word(numbers, at)?;
    let high = read_word(numbers, at)?;
    Ok(u128::from(high) * (1 << 64) + u128::from(low))
}

/// A list of numbers.
pub(crate) fn read_words(
    alloc: Global,
    numbers: &[u64],
    at: &mut usize,
) -> Result<Vec<u64>, ReadError>
    ensures ok { IfOk result (λ a. front_words (drop at.old numbers.now) ≡
        Some (a.items, drop at.new numbers.now)) }
    ensures err { IfErr result (Fails (front_words (drop at.old numbers.now))) }
{
    let count = read_word(numbers, at)?;
    let mut words = Vec::new(alloc);
    for _ in 0..count {
        let word = read_word(numbers, at)?;
        words.push(word)?;
    }
    Ok(words)
}

/// A list of lists of numbers.
pub(crate) fn read_lists(
    alloc: Global,
    numbers: &[u64],
    at: &mut usize,
) -> Result<Vec<Vec<u64>>, ReadError>
    ensures ok { IfOk result (λ a. front_list front_words (drop at.old numbers.now) ≡
        Some (map list_kept a.items, drop at.new numbers.now)) }
    ensures err { IfErr result (Fails (front_list front_words (drop at.old numbers.now))) }
{
    let count = read_word(numbers, at)?;
    let mut lists = Vec::new(alloc);
    for _ in 0..count {
        let list = read_words(alloc, numbers, at)?;
        lists.push(list)?;
    }
    Ok(lists)
}

/// Two numbers.
fn read_pair(numbers: &[u64], at: &mut usize) -> Result<(u64, u64), ReadError>
    ensures ok { IfOk result (λ a. front_two front_word front_word (drop at.old numbers.now) ≡
        Some (a, drop at.new numbers.now)) }
    ensures err { IfErr result (Fails (front_two front_word front_word (drop at.old numbers.now))) }
{
    let first = read_word(numbers, at)?;
    let second = read_word(numbers, at)?;
    Ok((first, second))
}

/// A list of pairs of numbers.
pub(crate) fn read_pairs(
    alloc: Global,
    numbers: &[u64],
    at: &mut usize,
) -> Result<Vec<(u64, u64)>, ReadError>
    ensures ok { IfOk result (λ a.
        front_list (front_two front_word front_word) (drop at.old numbers.now) ≡
        Some (a.items, drop at.new numbers.now)) }
    ensures err { IfErr result (Fails (front_list (front_two front_word front_word) (drop at.old numbers.now))) }
{
    let count = read_word(numbers, at)?;
    let mut pairs = Vec::new(alloc);
    for _ in 0..count {
        let pair = read_pair(numbers, at)?;
        pairs.push(pair)?;
    }
    Ok(pairs)
}
