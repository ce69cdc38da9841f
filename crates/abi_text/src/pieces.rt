//! A text cut at a byte.

ghost use Rattle.std.specs.Prelude.{◌≡◌, ◌<◌, IfSome, length};
ghost use Rattle.std.specs.Option.{option_copied};
ghost use Rattle.abi_text.specs.Pieces.{before, after_byte};

/// What stands before the first such byte, and what follows it; the whole, and nothing, where no byte is such a one.
pub fn split_at_byte(text: &[u8], at: u8) -> (&[u8], Option<&[u8]>)
    ensures front { result.0.now ≡ before at text.now }
    ensures back { option_copied result.1 ≡ after_byte at text.now }
    ensures shorter { IfSome result.1 (λ rest. length rest.now < length text.now) }
{
    for (index, byte) in text.iter().enumerate() {
        if *byte == at {
            return (&text[..index], Some(&text[index + 1..]));
        }
    }
    (text, None)
}
