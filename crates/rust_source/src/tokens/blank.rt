//! What stands between tokens: spaces and comments.

ghost use Rattle.std.specs.Prelude.{◌≡◌, ◌+◌, ◌≤◌, IfErr, IfOk, IfSome, length};
ghost use Rattle.rust_source.specs.Blanks.{blank_length, comment_length, head_length, is_attribute, is_wide_space, mark_length, one_blank_length, space_length};

use crate::tokens::characters::{byte_at, bytes_after, first_char};
use crate::tokens::runs::{Run, run_length};

/// How many bytes the comment has that the bytes begin with by `/*`. None where it has no end.
#[tactic(auto, unfolding(crate::specs::Blanks::comment_length))]
fn comment_length(rest: &[u8]) -> Option<usize>
    ensures same { result ≡ comment_length rest.now }
    ensures within { IfSome result (λ bytes. bytes ≤ length rest.now) }
{
    let mut depth = 0usize;
    let mut last = 0u8;
    for (index, byte) in rest.iter().enumerate() {
        if last == b'/' && *byte == b'*' {
            depth += 1;
            last = 0;
        } else if last == b'*' && *byte == b'/' {
            if depth <= 1 {
                return Some(index + 1);
            }
            depth -= 1;
            last = 0;
        } else {
            last = *byte;
        }
    }
    None
}

/// Whether a character is a space that isn't ASCII's.
fn is_wide_space(character: char) -> bool
    ensures { result ≡ is_wide_space character }
{
    match character {
        '\u{85}' | '\u{200E}' | '\u{200F}' | '\u{2028}' | '\u{2029}' => true,
        _ => false,
    }
}

/// How many bytes the space has that the bytes begin with, or 0 where they begin with none.
#[tactic(auto, unfolding(crate::specs::Blanks::space_length))]
fn space_length(rest: &[u8]) -> usize
    ensures same { result ≡ space_length rest.now }
    ensures within { result ≤ length rest.now }
{
    match byte_at(rest, 0) {
        b' ' | b'\t' | b'\n' | b'\r' | 0x0B | 0x0C => 1,
        0..0x80 => 0,
        _ => match first_char(rest) {
            Some((first, length)) if is_wide_space(first) => length,
            _ => 0,
        },
    }
}

/// How many bytes the space or the comment has that the bytes begin with, or 0 where they begin with neither. None
/// where a comment has no end.
#[tactic(auto, unfolding(crate::specs::Blanks::one_blank_length))]
fn one_blank_length(rest: &[u8]) -> Option<usize>
    ensures same { result ≡ one_blank_length rest.now }
    ensures within { IfSome result (λ bytes. bytes ≤ length rest.now) }
{
    if byte_at(rest, 0) != b'/' {
        return Some(space_length(rest));
    }
    match byte_at(rest, 1) {
        b'/' => Some(run_length(rest, Run::Line)),
        b'*' => comment_length(rest),
        _ => Some(space_length(rest)),
    }
}

/// How many bytes of spaces and comments the bytes begin with. An error has where the comment begins that has no end.
#[tactic(auto, unfolding(crate::specs::Blanks::blank_length))]
pub(crate) fn blank_length(rest: &[u8]) -> Result<usize, usize>
    ensures same { result ≡ blank_length rest.now }
    ensures within { IfOk result (λ bytes. bytes ≤ length rest.now) }
    ensures begins { IfErr result (λ bytes. bytes ≤ length rest.now) }
{
    let mut length = 0usize;
    for _byte in rest {
        match one_blank_length(bytes_after(rest, length)) {
            Some(0) => return Ok(length),
            Some(more) => length += more,
            None => return Err(length),
        }
    }
    Ok(length)
}

/// How many bytes the byte order mark has with which a source may begin.
fn mark_length(text: &[u8]) -> usize
    ensures same { result ≡ mark_length text.now }
    ensures short { result ≤ 3 }
{
    if byte_at(text, 0) == 0xEF && byte_at(text, 1) == 0xBB && byte_at(text, 2) == 0xBF {
        3
    } else {
        0
    }
}

/// Whether what follows `#!` begins an attribute.
fn is_attribute(more: &[u8]) -> bool
    ensures { result ≡ is_attribute more.now (blank_length more.now) }
{
    match blank_length(more) {
        Ok(blank) => byte_at(more, blank) == b'[',
        Err(_) => false,
    }
}

/// How many bytes a byte order mark and a line `#!` have, with which a source may begin. `#![` begins an attribute.
#[tactic(auto, unfolding(crate::specs::Blanks::head_length))]
pub(crate) fn head_length(text: &[u8]) -> usize
    ensures same { result ≡ head_length text.now }
    ensures bounded { result ≤ length text.now + 3 }
{
    let mark = mark_length(text);
    let rest = bytes_after(text, mark);
    if byte_at(rest, 0) != b'#' || byte_at(rest, 1) != b'!' || is_attribute(bytes_after(rest, 2)) {
        return mark;
    }
    mark + run_length(rest, Run::Line)
}
