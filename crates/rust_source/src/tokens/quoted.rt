//! Strings, characters and lifetimes.

ghost use Rattle.std.specs.Prelude.{◌≡◌, ◌+◌, ◌<◌, ◌≤◌, ◌^◌, IfOk, IfSome, length};
ghost use Rattle.rust_source.specs.Quoted.{byte_token, token_closed, escaped_length, escapes, is_end, hashes_with, is_never_raw, lifetime, prefixed_token, quote_token, raw_end, raw_name, raw_token, string_token};

use crate::fault::SourceFaultKind;
use crate::tokens::characters::{byte_at, bytes_after, first_char, name_length};
use crate::tokens::keyword::{Keyword, keyword_of};
use crate::tokens::runs::{Run, run_length};
use crate::tokens::token::TokenKind;

/// Whether a byte is the quote that ends a text.
fn is_end(is_escaped: bool, byte: u8, quote: u8) -> bool
    ensures { result ≡ is_end is_escaped byte quote }
{
    !is_escaped && byte == quote
}

/// Whether a byte takes the next one with it.
fn escapes(is_escaped: bool, byte: u8) -> bool
    ensures { result ≡ escapes is_escaped byte }
{
    !is_escaped && byte == b'\\'
}

/// How many bytes a text has that the bytes begin with by its first quote. A backslash takes the next byte with it. None
/// where it has no end.
#[tactic(auto, unfolding(crate::specs::Quoted::escaped_length))]
pub(crate) fn escaped_length(rest: &[u8], quote: u8) -> Option<usize>
    ensures same { result ≡ escaped_length quote rest.now }
    ensures within { IfSome result (λ bytes. bytes ≤ length rest.now) }
{
    let mut is_escaped = true;
    for (index, byte) in rest.iter().enumerate() {
        if is_end(is_escaped, *byte, quote) {
            return Some(index + 1);
        }
        is_escaped = escapes(is_escaped, *byte);
    }
    None
}

/// How many `#` follow the last quote, with a byte more. None where other bytes follow it.
fn hashes_with(seen: Option<usize>, byte: u8) -> Option<usize>
    requires { IfSome seen (λ count. count < 2 ^ 63) }
    ensures { result ≡ hashes_with seen byte }
{
    match byte {
        b'"' => Some(0),
        b'#' => Some(seen? + 1),
        _ => None,
    }
}

/// How many bytes end a raw string, where the bytes follow its first quote: up to a quote and as many `#` as it began
/// with. None where it has no end.
#[tactic(auto, unfolding(crate::specs::Quoted::raw_end))]
fn raw_end(rest: &[u8], hashes: usize) -> Option<usize>
    ensures same { result ≡ raw_end rest.now hashes }
    ensures within { IfSome result (λ bytes. bytes ≤ length rest.now) }
{
    let mut seen: Option<usize> = None;
    for (index, byte) in rest.iter().enumerate() {
        seen = hashes_with(seen, *byte);
        if seen == Some(hashes) {
            return Some(index + 1);
        }
    }
    None
}

/// A kind of token, and how many bytes it has.
pub(crate) type Lexed = Result<(TokenKind, usize), SourceFaultKind>;

/// The token of this kind, where its end was found behind `before` bytes.
fn closed(kind: TokenKind, before: usize, length: Option<usize>) -> Lexed
    requires { IfSome length (λ bytes. before + bytes < 2 ^ 64) }
    ensures { result ≡ token_closed kind before length }
{
    match length {
        Some(length) => Ok((kind, before + length)),
        None => Err(SourceFaultKind::UnclosedText),
    }
}

/// The string that the bytes begin with by its quote, which this many bytes stand before.
#[tactic(auto, unfolding(crate::specs::Quoted::string_token))]
pub(crate) fn string_token(rest: &[u8], before: usize) -> Lexed
    requires { before ≤ 1 }
    ensures same { result ≡ string_token rest.now before }
    ensures bounded { IfOk result (λ token. token.1 ≤ length rest.now + 4) }
{
    closed(
        TokenKind::Text,
        before,
        escaped_length(bytes_after(rest, before), b'"'),
    )
}

/// The lifetime whose name has this length.
fn lifetime(length: usize) -> Lexed
    requires { length < 2 ^ 63 }
    ensures { result ≡ lifetime length }
{
    match length {
        0 => Err(SourceFaultKind::BadCharacter),
        length => Ok((TokenKind::Lifetime, length + 1)),
    }
}

/// The character or the lifetime that the bytes begin with by `'`.
#[tactic(auto, unfolding(crate::specs::Quoted::quote_token))]
pub(crate) fn quote_token(rest: &[u8]) -> Lexed
    ensures same { result ≡ quote_token rest.now }
    ensures bounded { IfOk result (λ token. token.1 ≤ length rest.now + 4) }
{
    let inside = bytes_after(rest, 1);
    if byte_at(inside, 0) == b'\\' {
        return closed(TokenKind::Char, 0, escaped_length(rest, b'\''));
    }
    let Some((_, length)) = first_char(inside) else {
        return Err(SourceFaultKind::UnclosedText);
    };
    if byte_at(inside, length) == b'\'' && byte_at(inside, 0) != b'\'' {
        return Ok((TokenKind::Char, length + 2));
    }
    lifetime(name_length(inside))
}

/// The byte literal that the bytes begin with by `b'`, which has one character. What would be a lifetime behind the `b` is none.
#[tactic(auto, unfolding(crate::specs::Quoted::byte_token))]
fn byte_token(rest: &[u8]) -> Lexed
    requires { 1 ≤ length rest.now }
    ensures same { result ≡ byte_token rest.now }
    ensures bounded { IfOk result (λ token. token.1 ≤ length rest.now + 4) }
{
    match quote_token(bytes_after(rest, 1))? {
        (TokenKind::Char, length) => Ok((TokenKind::Byte, length + 1)),
        _ => Err(SourceFaultKind::BadCharacter),
    }
}

/// Whether a word can't be a raw name: one that a path may begin with, or `_`.
fn is_never_raw(word: Option<Keyword>) -> bool
    ensures { result ≡ is_never_raw word }
{
    match word {
        Some(
            Keyword::Crate
            | Keyword::SelfValue
            | Keyword::SelfType
            | Keyword::Super
            | Keyword::Underscore,
        ) => true,
        _ => false,
    }
}

/// The raw name that stands behind `r#`. None where no word does.
#[tactic(auto, unfolding(crate::specs::Quoted::raw_name))]
fn raw_name(rest: &[u8]) -> Option<Lexed>
    ensures same { result ≡ raw_name rest.now }
    ensures bounded { IfSome result (λ lexed. IfOk lexed (λ token. token.1 ≤ length rest.now + 2)) }
{
    let length = name_length(rest);
    if length == 0 {
        return None;
    }
    if is_never_raw(keyword_of(&rest[..length])) {
        return Some(Err(SourceFaultKind::BadRawName));
    }
    Some(Ok((TokenKind::RawName, length + 2)))
}

/// The raw string or the raw name that the bytes begin with, where `letters` bytes stand before its first `#` or quote.
/// None where they begin with neither.
#[tactic(auto, unfolding(crate::specs::Quoted::raw_token))]
fn raw_token(rest: &[u8], letters: usize) -> Option<Lexed>
    requires { letters ≤ 2 }
    ensures same { result ≡ raw_token rest.now letters }
    ensures bounded { IfSome result (λ lexed. IfOk lexed (λ token. token.1 ≤ length rest.now + 4)) }
{
    let hashes = run_length(bytes_after(rest, letters), Run::Hashes);
    let before = letters + hashes;
    if byte_at(rest, before) == b'"' {
        let length = raw_end(bytes_after(rest, before + 1), hashes);
        return Some(closed(TokenKind::Text, before + 1, length));
    }
    if letters == 1 && hashes == 1 && byte_at(rest, 0) == b'r' {
        raw_name(bytes_after(rest, 2))
    } else {
        None
    }
}

/// The literal or the raw name that the bytes begin with by a letter. None where they begin with none.
#[tactic(auto, unfolding(crate::specs::Quoted::prefixed_token))]
pub(crate) fn prefixed_token(rest: &[u8]) -> Option<Lexed>
    ensures same { result ≡ prefixed_token rest.now }
    ensures bounded { IfSome result (λ lexed. IfOk lexed (λ token. token.1 ≤ length rest.now + 4)) }
{
    match (byte_at(rest, 0), byte_at(rest, 1)) {
        (b'b', b'\'') => Some(byte_token(rest)),
        (b'b' | b'c', b'"') => Some(string_token(rest, 1)),
        (b'r', b'"' | b'#') => raw_token(rest, 1),
        (b'b' | b'c', b'r') => raw_token(rest, 2),
        _ => None,
    }
}
