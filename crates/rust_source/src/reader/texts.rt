//! How many bytes strings have.

ghost use Rattle.std.specs.Prelude.{◌≡◌, ◌≤◌};
ghost use Rattle.rust_source.specs.Literals.{bytes_between};
ghost use Rattle.rust_source.specs.Texts.{before_quote, code_part, encoded_length, escape_part, is_whole, length_from, part_after, plain_part, quoted_length, raw_length, text_length};

use crate::reader::literals::{bytes_between, digit_value};
use crate::tokens::{Run, byte_at, bytes_after, run_length};

/// What the next byte of a string is a part of.
#[derive(Clone, Copy)]
pub(crate) enum TextPart {
    /// A raw string.
    Raw,
    /// A character, or the backslash before an escape.
    Plain,
    /// An escape, behind its backslash.
    Escape,
    /// A byte's digits, so many of them.
    Digits(u8),
    /// The brace before a character's code.
    Brace,
    /// A character's code, whose digits so far are worth so much.
    Code(u32),
    /// The blanks behind a line that goes on.
    Blanks,
}

/// How many bytes a character of this code has.
fn encoded_length(code: u32) -> u64
    ensures { result ≡ encoded_length code }
{
    if code < 0x80 {
        1
    } else if code < 0x800 {
        2
    } else if code < 0x1_0000 {
        3
    } else {
        4
    }
}

/// What follows a byte that stands for itself, and how many bytes it adds. A line's end is one byte.
fn plain_part(byte: u8) -> (TextPart, u64)
    ensures { result ≡ plain_part byte }
{
    match byte {
        b'\\' => (TextPart::Escape, 0),
        b'\r' => (TextPart::Plain, 0),
        _ => (TextPart::Plain, 1),
    }
}

/// What follows an escape's first byte, and how many bytes it adds. None where there is no such escape.
fn escape_part(byte: u8) -> Option<(TextPart, u64)>
    ensures { result ≡ escape_part byte }
{
    match byte {
        b'x' => Some((TextPart::Digits(2), 1)),
        b'u' => Some((TextPart::Brace, 0)),
        b'\n' | b'\r' => Some((TextPart::Blanks, 0)),
        b'n' | b'r' | b't' | b'0' | b'\\' | b'\'' | b'"' => Some((TextPart::Plain, 1)),
        _ => None,
    }
}

/// What follows a byte of a code, and how many bytes it adds. None where it is no digit, or no character has the code.
fn code_part(code: u32, byte: u8) -> Option<(TextPart, u64)>
    ensures { result ≡ code_part code byte }
{
    if byte == b'}' {
        return Some((TextPart::Plain, encoded_length(code)));
    }
    if byte == b'_' {
        return Some((TextPart::Code(code), 0));
    }
    let digit = digit_value(byte);
    if digit >= 16 || code >= 0x1_1000 {
        return None;
    }
    Some((TextPart::Code(code * 16 + u32::from(digit)), 0))
}

/// What follows a byte, and how many bytes it adds. None where the text has no value.
fn part_after(part: TextPart, byte: u8) -> Option<(TextPart, u64)>
    ensures { result ≡ part_after part byte }
{
    match part {
        TextPart::Raw => {
            if byte == b'\r' {
                Some((TextPart::Raw, 0))
            } else {
                Some((TextPart::Raw, 1))
            }
        }
        TextPart::Plain => Some(plain_part(byte)),
        TextPart::Escape => escape_part(byte),
        TextPart::Digits(left) => {
            if left > 1 {
                Some((TextPart::Digits(left - 1), 0))
            } else {
                Some((TextPart::Plain, 0))
            }
        }
        TextPart::Brace => {
            if byte == b'{' {
                Some((TextPart::Code(0), 0))
            } else {
                None
            }
        }
        TextPart::Code(code) => code_part(code, byte),
        TextPart::Blanks => match byte {
            b' ' | b'\t' | b'\n' | b'\r' => Some((TextPart::Blanks, 0)),
            _ => Some(plain_part(byte)),
        },
    }
}

/// Whether a string may end before such a byte.
fn is_whole(part: TextPart) -> bool
    ensures { result ≡ is_whole part }
{
    match part {
        TextPart::Raw | TextPart::Plain | TextPart::Blanks => true,
        _ => false,
    }
}

/// How many bytes a string has that is written so, whose first byte is such a part. None where it has no value.
fn length_from(first: TextPart, text: &[u8]) -> Option<u64>
    ensures { result ≡ length_from first 0 text.now }
{
    let mut part = first;
    let mut length: u64 = 0;
    for byte in text {
        let (next, more) = part_after(part, *byte)?;
        part = next;
        length = length.checked_add(more)?;
    }
    if is_whole(part) { Some(length) } else { None }
}

/// How many bytes a string has that stands between two quotes.
fn quoted_length(text: &[u8]) -> Option<u64>
    ensures { result ≡ quoted_length text.now }
{
    length_from(TextPart::Plain, bytes_between(text, b'"', b'"')?)
}

/// How many bytes a raw string has, before whose first `#` or quote so many letters stand.
fn raw_length(text: &[u8], letters: usize) -> Option<u64>
    requires { letters ≤ 2 }
    ensures { result ≡ raw_length text.now letters }
{
    let hashes = run_length(bytes_after(text, letters), Run::Hashes);
    let all = length_from(TextPart::Raw, bytes_after(text, letters + hashes))?;
    before_quote(all, hashes)
}

/// How many bytes stand between a raw string's quotes, of all that stand behind its letters and first `#`.
fn before_quote(all: u64, hashes: usize) -> Option<u64>
    ensures { result ≡ before_quote hashes all }
{
    all.checked_sub(hashes as u64)?.checked_sub(2)
}

/// How many bytes a string or a byte string has that a source writes so: a character is written in UTF-8. None where it
/// is C's, or has no value.
#[tactic(auto, unfolding(crate::specs::Texts::text_length))]
pub(crate) fn text_length(text: &[u8]) -> Option<u64>
    ensures { result ≡ text_length text.now }
{
    match (byte_at(text, 0), byte_at(text, 1)) {
        (b'"', _) => quoted_length(text),
        (b'b', b'"') => quoted_length(bytes_after(text, 1)),
        (b'r', _) => raw_length(text, 1),
        (b'b', b'r') => raw_length(text, 2),
        _ => None,
    }
}
