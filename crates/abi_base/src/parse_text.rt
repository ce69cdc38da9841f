//! The parts of a data layout string.

ghost use Rattle.std.specs.Prelude.{◌≡◌, ◌<◌, IfSome, length, drop, slice_index, ◌∷◌};
ghost use Rattle.std.specs.Option.{option_copied};
ghost use Rattle.abi_base.specs.DataLayoutSpec.{begins, begins_alphabetic, has_parts, spec_parts_left, spec_parts};

use unicode::properties::is_alphabetic;

/// A text's first part, up to the mark, and those that follow it, if there are any.
pub(crate) fn split_at_mark(text: &str, mark: char) -> (&str, Option<&str>)
    requires { mark < 128 }
    ensures parts { spec_parts mark text.now
        ≡ result.0.now ∷ spec_parts_left mark (option_copied result.1) }
    ensures shorter { IfSome result.1 (λ rest. length rest.now < length text.now) }
{
    match text.split_once(mark) {
        Some((part, rest)) => (part, Some(rest)),
        None => (text, None),
    }
}

/// Whether there are parts.
pub(crate) fn has_parts(parts: Option<&str>) -> bool
    ensures { result ≡ has_parts (spec_parts_left 58 (option_copied parts.entry)) }
{
    parts.is_some()
}

/// Whether the text begins with the character.
pub(crate) fn begins(text: &str, mark: char) -> bool
    requires some { 0 < mark }
    requires ascii { mark < 128 }
    ensures { result ≡ begins mark text.now }
{
    text.starts_with(mark)
}

/// What follows the first character.
pub(crate) fn tail(text: &str) -> &str
    requires some { 0 < slice_index text.now 0 }
    requires ascii { slice_index text.now 0 < 128 }
    ensures { result.now ≡ drop 1 text.now }
{
    &text[1..]
}

/// Whether the first character is a letter, of the class Alphabetic.
pub(crate) fn begins_alphabetic(text: &str) -> bool
    ensures { result ≡ begins_alphabetic text.now }
{
    match text.chars().next() {
        Some(letter) => is_alphabetic(letter),
        None => false,
    }
}
