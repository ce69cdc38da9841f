//! Values and their bytes that words write.

use crate::command::{Command, meaning_of};
use crate::stop::{Name, Refusal};
use abi_text::number_u128;
use rustc_abi::Value;
use std::alloc::Global;

/// Values of a line lie at most so deep in one another.
const MOST_DEEP: u64 = 200;

/// The digit that a byte is.
fn digit(byte: u8) -> Option<u8> {
    match byte {
        b'0'..=b'9' => Some(byte.wrapping_sub(b'0')),
        b'a'..=b'f' => Some(byte.wrapping_sub(b'a').wrapping_add(10)),
        _ => None,
    }
}

/// The byte that two hexadecimal digits write.
fn byte(word: &[u8]) -> Option<u8> {
    match word {
        [high, low] => Some(digit(*high)?.wrapping_mul(16).wrapping_add(digit(*low)?)),
        _ => None,
    }
}

/// The bytes that all next words write, up to the end or a closing parenthesis.
pub(crate) fn bytes(command: &mut Command) -> Vec<u8> {
    let mut all = Vec::new(command.alloc);
    for _ in 0..u64::MAX {
        if !command.has_word() || command.is_next(b")") {
            break;
        }
        let read = byte(command.word());
        let byte = command.fits(read, 0);
        command.grow(all.push(byte));
    }
    all
}

/// Values up to a closing parenthesis.
#[cycle(values)]
fn next_values(command: &mut Command, deep: u64) -> Vec<Value> {
    let mut values = Vec::new(command.alloc);
    for _ in 0..u64::MAX {
        if !command.has_more() {
            break;
        }
        let item = next_value(command, deep);
        command.grow(values.push(item));
    }
    values
}

/// Values between parentheses.
#[cycle(values)]
fn value_list(command: &mut Command, deep: u64) -> Vec<Value> {
    command.expect(b"(");
    next_values(command, deep)
}

/// What a value begins with.
#[derive(Clone, Copy)]
enum ValueWord {
    Num(u128),
    List,
    Pair,
    Variant,
    State,
    Union,
}

const VALUE_WORDS: [(&[u8], ValueWord); 5] = [
    (b"(", ValueWord::List),
    (b"pair", ValueWord::Pair),
    (b"variant", ValueWord::Variant),
    (b"state", ValueWord::State),
    (b"union", ValueWord::Union),
];

/// What a value begins with that begins with this word.
fn value_word(word: &[u8]) -> Option<ValueWord> {
    match meaning_of(&VALUE_WORDS, word) {
        Some(begun) => Some(begun),
        None => Some(ValueWord::Num(number_u128(word)?)),
    }
}

/// The value that is next, in which values lie so deep at most.
#[cycle(values)]
fn next_value(command: &mut Command, deep: u64) -> Value {
    let read = value_word(command.word());
    if deep == 0 {
        command.stop(Refusal::Refused(Name::TooDeep));
        return Value::Num(0);
    }
    match command.fits(read, ValueWord::Num(0)) {
        ValueWord::Num(number) => Value::Num(number),
        ValueWord::List => Value::List(next_values(command, deep - 1)),
        ValueWord::Pair => Value::Pair(command.wide_number(), command.wide_number()),
        ValueWord::Variant => {
            let index = command.number() as usize;
            Value::Variant(index, value_list(command, deep - 1))
        }
        ValueWord::State => Value::State {
            state: command.number() as usize,
            prefix: value_list(command, deep - 1),
            locals: value_list(command, deep - 1),
        },
        ValueWord::Union => {
            command.expect(b"(");
            let bytes = bytes(command);
            command.expect(b")");
            Value::Union(bytes)
        }
    }
}

/// The value that is next.
pub(crate) fn value(command: &mut Command) -> Value {
    next_value(command, MOST_DEEP)
}
