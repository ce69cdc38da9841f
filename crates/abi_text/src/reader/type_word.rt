//! The words that begin a type.

ghost use Rattle.std.specs.Prelude.{◌≡◌};
ghost use Rattle.abi_text.specs.TypeWords.{other_word, type_word};

use crate::reader::scalar_word::{ScalarWord, scalar_word};

/// What a word means where a type begins.
#[derive(Clone, Copy)]
pub(crate) enum TypeWord {
    Scalar(ScalarWord),
    /// Two scalars follow.
    Pair,
    Never,
    Unit,
    /// An array: a count and a type follow.
    Array,
    /// A vector, packed or not: a count of lanes and a type follow.
    Vector(bool),
    /// A struct: a repr and fields follow.
    Struct,
    /// A struct whose order is handed in: a repr, the order and fields follow.
    Ordered,
    /// A union: a repr and fields follow.
    Union,
    /// An enum: a repr and variants follow.
    Enum,
    /// A coroutine: prefix fields, locals, states and conflicts follow.
    Coroutine,
}

/// What a word means that begins no scalar. None where it begins no type.
fn other_word(word: &[u8]) -> Option<TypeWord>
    ensures { result ≡ other_word word.now }
{
    if word == b"pair".as_slice() {
        Some(TypeWord::Pair)
    } else if word == b"never".as_slice() {
        Some(TypeWord::Never)
    } else if word == b"unit".as_slice() {
        Some(TypeWord::Unit)
    } else if word == b"array".as_slice() {
        Some(TypeWord::Array)
    } else if word == b"simd".as_slice() {
        Some(TypeWord::Vector(false))
    } else if word == b"psimd".as_slice() {
        Some(TypeWord::Vector(true))
    } else if word == b"struct".as_slice() {
        Some(TypeWord::Struct)
    } else if word == b"ordered".as_slice() {
        Some(TypeWord::Ordered)
    } else if word == b"union".as_slice() {
        Some(TypeWord::Union)
    } else if word == b"enum".as_slice() {
        Some(TypeWord::Enum)
    } else if word == b"coroutine".as_slice() {
        Some(TypeWord::Coroutine)
    } else {
        None
    }
}

/// What the word means where a type begins. None where it begins no type.
pub(crate) fn type_word(word: &[u8]) -> Option<TypeWord>
    ensures { result ≡ type_word word.now }
{
    match scalar_word(word) {
        Some(scalar) => Some(TypeWord::Scalar(scalar)),
        None => other_word(word),
    }
}
