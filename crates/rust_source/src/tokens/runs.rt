//! Bytes in a row that go on with a token or a line.

ghost use Rattle.std.specs.Prelude.{◌≡◌, ◌≤◌, length};
ghost use Rattle.rust_source.specs.Blanks.{goes_on, run_length};

use crate::tokens::characters::is_word_byte;

/// Bytes that stand in a row.
#[derive(Clone, Copy)]
pub(crate) enum Run {
    /// The rest of a line, without its end.
    Line,
    /// Letters, digits and `_` of ASCII.
    Word,
    /// Decimal digits and `_`.
    Digits,
    /// `#`
    Hashes,
}

/// Whether a byte goes on with such a run.
fn goes_on(run: Run, byte: u8) -> bool
    ensures { result ≡ goes_on run byte }
{
    match run {
        Run::Line => byte != b'\n',
        Run::Word => is_word_byte(byte),
        Run::Digits => byte.is_ascii_digit() || byte == b'_',
        Run::Hashes => byte == b'#',
    }
}

/// How many bytes of a run the bytes begin with.
#[tactic(auto, unfolding(crate::specs::Blanks::run_length))]
pub(crate) fn run_length(rest: &[u8], run: Run) -> usize
    ensures same { result ≡ run_length run rest.now }
    ensures within { result ≤ length rest.now }
{
    for (index, byte) in rest.iter().enumerate() {
        if !goes_on(run, *byte) {
            return index;
        }
    }
    rest.len()
}
