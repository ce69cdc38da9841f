//! Cells, and their letters.

ghost use Rattle.std.specs.Prelude.{◌≡◌, ◌<◌};
ghost use Rattle.automata.specs.Cell.{IsCell, letter_of};

/// How many letters there are: a byte is its own letter, and 256 is that of a cell that isn't initialised.
pub const LETTERS: u16 = 257;

/// The cell of a letter.
pub(crate) fn cell_of(letter: u16) -> Option<u8>
    requires { letter < 257 }
    ensures letter { letter_of result ≡ letter }
    ensures cell { IsCell result }
{
    if letter < 256 {
        Some(letter as u8)
    } else {
        None
    }
}
