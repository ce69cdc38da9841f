//! Single characters of a source.

ghost use Rattle.std.specs.Prelude.{◌≡◌, ◌≤◌, IfSome, drop, length};
ghost use Rattle.rust_source.specs.Characters.{byte_at, decoded, first_char, is_word_byte, name_length, name_more, name_start, six_bits};

use unicode_ident::{is_xid_continue, is_xid_start};

/// The first byte that isn't ASCII's.
const FIRST_OTHER: u8 = 0x80;

/// The byte that this many stand before, or 0 where there is none.
pub(crate) fn byte_at(rest: &[u8], before: usize) -> u8
    ensures { result ≡ byte_at rest.now before }
{
    match rest.get(before) {
        Some(byte) => *byte,
        None => 0,
    }
}

/// The six bits that a byte of a longer character has, which stands behind this many.
fn six_bits(rest: &[u8], before: usize) -> u32
    ensures { result ≡ six_bits rest.now before }
{
    u32::from(byte_at(rest, before) % 64)
}

/// The code of the character that the bytes begin with, and how many bytes it has. The bytes are those of a text.
#[tactic(auto, unfolding(crate::specs::Characters::decoded))]
fn decoded(rest: &[u8]) -> (u32, usize)
    ensures { result ≡ decoded rest.now }
{
    let first = byte_at(rest, 0);
    let head = u32::from(first);
    match first {
        0..0xC0 => (head, 1),
        0xC0..0xE0 => (head % 32 * 64 + six_bits(rest, 1), 2),
        0xE0..0xF0 => (
            head % 16 * 4096 + six_bits(rest, 1) * 64 + six_bits(rest, 2),
            3,
        ),
        _ => (
            head % 8 * 262_144
                + six_bits(rest, 1) * 4096
                + six_bits(rest, 2) * 64
                + six_bits(rest, 3),
            4,
        ),
    }
}

/// The character that the bytes of a text begin with, and how many bytes it has. None at the end.
#[tactic(auto, unfolding(crate::specs::Characters::first_char))]
pub(crate) fn first_char(rest: &[u8]) -> Option<(char, usize)>
    ensures same { result ≡ first_char rest.now }
    ensures within { IfSome result (λ c. c.1 ≤ length rest.now) }
{
    if rest.is_empty() {
        return None;
    }
    let (code, length) = decoded(rest);
    match char::from_u32(code) {
        Some(first) if length <= rest.len() => Some((first, length)),
        _ => None,
    }
}

/// Whether a byte may stand in a word of ASCII.
pub(crate) fn is_word_byte(byte: u8) -> bool
    ensures { result ≡ is_word_byte byte }
{
    byte.is_ascii_alphanumeric() || byte == b'_'
}

/// How many bytes the character has that a name may begin with and the bytes do, or 0.
#[tactic(auto, unfolding(crate::specs::Characters::name_start))]
pub(crate) fn name_start(rest: &[u8]) -> usize
    ensures same { result ≡ name_start rest.now }
    ensures within { result ≤ length rest.now }
{
    let first = byte_at(rest, 0);
    if first < FIRST_OTHER {
        return if first.is_ascii_alphabetic() || first == b'_' {
            1
        } else {
            0
        };
    }
    match first_char(rest) {
        Some((first, length)) if is_xid_start(first) => length,
        _ => 0,
    }
}

/// How many bytes the character has that a name may go on with and the bytes begin with, or 0.
#[tactic(auto, unfolding(crate::specs::Characters::name_more))]
fn name_more(rest: &[u8]) -> usize
    ensures same { result ≡ name_more rest.now }
    ensures within { result ≤ length rest.now }
{
    let first = byte_at(rest, 0);
    if first < FIRST_OTHER {
        return if is_word_byte(first) { 1 } else { 0 };
    }
    match first_char(rest) {
        Some((first, length)) if is_xid_continue(first) => length,
        _ => 0,
    }
}

/// What follows this many bytes.
pub(crate) fn bytes_after(rest: &[u8], length: usize) -> &[u8]
    ensures { result.now ≡ drop length rest.now }
{
    match rest.get(length..) {
        Some(more) => more,
        None => &[],
    }
}

/// How many bytes the name has that the bytes begin with, or 0.
#[tactic(auto, unfolding(crate::specs::Characters::name_length))]
pub(crate) fn name_length(rest: &[u8]) -> usize
    ensures same { result ≡ name_length rest.now }
    ensures within { result ≤ length rest.now }
{
    let mut length = name_start(rest);
    if length == 0 {
        return 0;
    }
    for _byte in rest {
        let more = name_more(bytes_after(rest, length));
        if more == 0 {
            return length;
        }
        length += more;
    }
    length
}
