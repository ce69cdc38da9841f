//! A place in a source, as people find it, and what is told of a fault there.

ghost use Rattle.std.specs.Prelude.{◌≡◌, ◌-◌, ◌^◌, ◌≤◌, ◌++◌, IfOk, OnOk, chars, codes, decimal, string_bytes, take};
ghost use Rattle.std.specs.List.{after_first, before_first};
ghost use Rattle.type_reports.specs.Position.{after_byte, after_bytes, blank_of, blanks_of, fault_lines, is_continuation, is_line_end, is_return, line_of, position_of, rest_after_lines};

use abi_rust::FaultPlace;
use itoa::Buffer;
use std::alloc::{AllocError, Global};
use unicode_width::UnicodeWidthChar;

/// What a fault lies in, and the byte of it.
#[derive(Clone, Copy)]
pub(crate) enum Spot {
    /// The file of this index, and the byte of it.
    File(usize, u32),
    /// The type that was asked for behind as many others.
    Asked(usize, u32),
    /// Neither.
    Nowhere,
}

impl Spot {
    /// Where a fault of a type lies that stands here: the type's own place where the fault has none.
    pub(crate) fn of(self, fault: FaultPlace) -> Spot {
        match (fault, self) {
            (FaultPlace::File(index, byte), _) => Spot::File(index, byte),
            (FaultPlace::Argument(byte), Spot::Asked(before, _)) => Spot::Asked(before, byte),
            _ => self,
        }
    }
}

/// A place in a text, as people find it.
#[derive(Clone, Copy)]
pub(crate) struct Position {
    /// The number of its line, from 1 on.
    pub(crate) line: usize,
    /// The number of its character in the line, from 1 on.
    pub(crate) column: usize,
}

/// Whether a byte goes on a character that began before it, as UTF-8 has it.
fn is_continuation(byte: u8) -> bool
    ensures { result ≡ is_continuation byte }
{
    128 <= byte && byte < 192
}

/// Where one stands behind one more byte.
fn after_byte(byte: u8, at: Position) -> Position
    requires line { at.line ≤ 2 ^ 64 - 2 }
    requires column { at.column ≤ 2 ^ 64 - 2 }
    ensures { result ≡ after_byte byte at }
{
    if byte == b'\n' {
        return Position {
            line: at.line + 1,
            column: 1,
        };
    }
    if is_continuation(byte) {
        return at;
    }
    Position {
        line: at.line,
        column: at.column + 1,
    }
}

/// Where one stands behind these bytes, from the start of a text on.
fn position_after(bytes: &[u8]) -> Position
    ensures { result ≡ after_bytes bytes.now (record { line = 1; column = 1 }) }
{
    let mut at = Position { line: 1, column: 1 };
    for byte in bytes {
        at = after_byte(*byte, at);
    }
    at
}

/// Where the byte of this number lies; the text's end where it has fewer.
pub(crate) fn position_of(text: &str, byte: usize) -> Position
    ensures { result ≡ position_of byte text.now }
{
    match text.as_bytes().get(..byte) {
        Some(head) => position_after(head),
        None => position_after(text.as_bytes()),
    }
}

/// What stands behind the first end of a line; nothing where there is none.
fn rest_after_line(text: &str) -> &str
    ensures { result.now ≡ after_first is_line_end text.now }
{
    match text.split_once('\n') {
        Some((_, behind)) => behind,
        None => "",
    }
}

/// The first line of a text, without its end.
fn first_line_of(text: &str) -> &str
    ensures { result.now ≡ before_first is_return (before_first is_line_end text.now) }
{
    let line = match text.split_once('\n') {
        Some((line, _)) => line,
        None => text,
    };
    match line.split_once('\r') {
        Some((line, _)) => line,
        None => line,
    }
}

/// The line of this number, from 1 on, without its end.
fn line_of(text: &str, number: usize) -> &str
    ensures { result.now ≡ line_of number text.now }
{
    let mut rest = text;
    for line in 1..number {
        rest = rest_after_line(rest);
    }
    first_line_of(rest)
}

/// Writes what is as wide as a character in a terminal: a tab, or spaces.
fn write_blank(out: &mut String, character: char) -> Result<(), AllocError>
    ensures { OnOk result (string_bytes out.new ≡ string_bytes out.old ++ blank_of character) }
{
    if character == '\t' {
        return out.push('\t');
    }
    for _ in 0..character.width().unwrap_or(0) {
        out.push(' ')?;
    }
    Ok(())
}

/// Writes what is as wide in a terminal as these characters.
fn write_blanks(out: &mut String, characters: &[char]) -> Result<(), AllocError>
    ensures { OnOk result (string_bytes out.new ≡ string_bytes out.old ++ blanks_of characters.now) }
{
    for character in characters {
        write_blank(out, *character)?;
    }
    Ok(())
}

/// The characters of a text.
fn characters_of(alloc: Global, text: &str) -> Result<Vec<char>, AllocError>
    ensures { IfOk result (λ characters. characters.items ≡ chars text.now) }
{
    text.chars().collect(alloc)
}

/// Writes a mark under a character of a line, before which so many stand.
fn write_mark(out: &mut String, line: &str, count: usize) -> Result<(), AllocError>
    ensures { OnOk result (string_bytes out.new
        ≡ string_bytes out.old ++ blanks_of (take count (chars line.now)) ++ codes "^\n") }
{
    let characters = characters_of(*out.allocator(), line)?;
    match characters.get(..count) {
        Some(before) => write_blanks(out, before)?,
        None => write_blanks(out, &characters)?,
    }
    out.push_str("^\n")
}

/// Writes a number.
fn write_number(out: &mut String, number: usize) -> Result<(), AllocError>
    ensures { OnOk result (string_bytes out.new ≡ string_bytes out.old ++ decimal number) }
{
    let mut buffer = Buffer::new();
    out.push_str(buffer.format(number))
}

/// Writes a text and what stands behind it.
fn write_with(out: &mut String, text: &str, behind: &str) -> Result<(), AllocError>
    ensures { OnOk result (string_bytes out.new ≡ string_bytes out.old ++ text.now ++ behind.now) }
{
    out.push_str(text)?;
    out.push_str(behind)
}

/// `FILE:LINE:COLUMN: TEXT`, and behind it the line with a mark under the place. An error comes where a growth of memory
/// was refused.
pub fn write_fault(
    out: &mut String,
    file: &str,
    source: &str,
    byte: usize,
    text: &str,
) -> Result<(), AllocError>
    ensures { OnOk result (string_bytes out.new
        ≡ string_bytes out.old ++ fault_lines file.now source.now text.now (position_of byte source.now)) }
{
    let at = position_of(source, byte);
    let line = line_of(source, at.line);
    write_with(out, file, ":")?;
    write_number(out, at.line)?;
    out.push_str(":")?;
    write_number(out, at.column)?;
    out.push_str(": ")?;
    write_with(out, text, "\n")?;
    write_with(out, line, "\n")?;
    write_mark(out, line, at.column.saturating_sub(1))
}
