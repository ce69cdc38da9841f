//! The lines of a text.

ghost use Rattle.std.specs.Prelude.{◌≡◌};
ghost use Rattle.abi_text.specs.Lines.{first_line, second_line, without_return};

use crate::pieces::split_at_byte;

fn without_return(line: &[u8]) -> &[u8]
    ensures { result.now ≡ without_return line.now }
{
    match line.last() {
        Some(b'\r') => &line[..line.len() - 1],
        _ => line,
    }
}

/// The first two lines. A missing one is empty.
pub(crate) fn two_lines(text: &[u8]) -> (&[u8], &[u8])
    ensures first { result.0.now ≡ first_line text.now }
    ensures second { result.1.now ≡ second_line text.now }
{
    let (first, rest) = split_at_byte(text, b'\n');
    let (second, _) = split_at_byte(rest.unwrap_or(&[]), b'\n');
    (without_return(first), without_return(second))
}
