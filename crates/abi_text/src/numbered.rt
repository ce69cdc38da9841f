//! Lines that end in a number, of which a type may have many.

ghost use Rattle.std.specs.Prelude.{◌≡◌, ◌++◌, OnOk, codes, decimal, string_bytes};

use itoa::Buffer;
use std::alloc::AllocError;

/// Writes a word and a number, and ends the line.
pub(crate) fn write_numbered(out: &mut String, word: &str, number: u64) -> Result<(), AllocError>
    ensures { OnOk result (string_bytes out.new
        ≡ string_bytes out.old ++ word.now ++ decimal number ++ codes "\n") }
{
    let mut digits = Buffer::new();
    out.push_str(word)?;
    out.push_str(digits.format(number))?;
    out.push_str("\n")
}

/// Writes a word and a number, and another of each, and ends the line.
pub(crate) fn write_two_numbered(
    out: &mut String,
    word: &str,
    number: u64,
    between: &str,
    other: u64,
) -> Result<(), AllocError>
    ensures { OnOk result (string_bytes out.new ≡ string_bytes out.old
        ++ (word.now ++ (decimal number ++ (between.now ++ (decimal other ++ codes "\n"))))) }
{
    let mut digits = Buffer::new();
    out.push_str(word)?;
    out.push_str(digits.format(number))?;
    write_numbered(out, between, other)
}
