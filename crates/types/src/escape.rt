//! Text in a page of HTML.

ghost use Rattle.std.specs.Prelude.{◌≡◌, ◌++◌, All, OnOk};
ghost use Rattle.types.specs.Escape.{IsPlain, escape_of, escaped};

use std::alloc::AllocError;

/// Writes a byte of a text into a page: one that marks up as the name of its character. An error comes where a growth of
/// memory was refused, here and below.
fn write_byte(out: &mut Vec<u8>, byte: u8) -> Result<(), AllocError>
    ensures { OnOk result (out.new.items ≡ out.old.items ++ escape_of byte) }
{
    match byte {
        b'&' => out.extend_from_slice("&amp;".as_bytes()),
        b'<' => out.extend_from_slice("&lt;".as_bytes()),
        b'>' => out.extend_from_slice("&gt;".as_bytes()),
        b'"' => out.extend_from_slice("&quot;".as_bytes()),
        b'\'' => out.extend_from_slice("&#39;".as_bytes()),
        _ => Ok(out.push(byte)?),
    }
}

/// Writes a text into a page, between tags or as an attribute's value in quotes: whatever the text is, it marks up nothing.
#[tactic(auto, using(crate::proofs::EscapeLemmas::all_plain))]
pub(crate) fn write_escaped(out: &mut Vec<u8>, text: &str) -> Result<(), AllocError>
    ensures text { OnOk result (out.new.items ≡ out.old.items ++ escaped text.now) }
    ensures marks_up_nothing { All IsPlain (escaped text.now) }
{
    for byte in text.as_bytes() {
        write_byte(out, *byte)?;
    }
    Ok(())
}
