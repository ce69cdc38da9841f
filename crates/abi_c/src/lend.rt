//! Texts and numbers in memory that a caller lends.

ghost use Rattle.abi_c.specs.Lent.{Lent};

/// Writes a text, or numbers, to the front of what the caller lent, where they fit, and says how many there are.
pub(crate) fn lend<T: Copy>(text: &[T], output: &mut [T], needed: &mut usize)
    ensures { Lent output.old output.new text.now needed.new }
{
    *needed = text.len();
    if text.len() <= output.len() {
        output[..text.len()].copy_from_slice(text);
    }
}
