//! The words that begin a scalar.

ghost use Rattle.std.specs.Prelude.{◌≡◌};
ghost use Rattle.abi_text.specs.ScalarWords.{integer_named, is_index_word, float_named, integer_word, float_word, special_word, scalar_word};

use abi_base::{Float, Integer};

/// What a word means where a scalar may begin.
#[derive(Clone, Copy)]
pub(crate) enum ScalarWord {
    /// An integer, signed or not.
    Integer(Integer, bool),
    /// An integer as wide as an index, signed or not.
    Index(bool),
    Float(Float),
    /// A pointer into the default space.
    Pointer,
    /// A pointer into a space whose number follows.
    PointerIn,
    Bool,
    Char,
    /// A pointer into the default space that isn't null.
    Ref,
    /// A primitive and the ends of its range follow.
    Range,
    /// A primitive follows, of which any bytes may be.
    UnionOf,
}

/// The integer of this name, and whether it's signed.
pub(crate) fn integer_named(word: &[u8]) -> Option<(Integer, bool)>
    ensures { result ≡ integer_named word.now }
{
    if word == b"u8".as_slice() {
        Some((Integer::I8, false))
    } else if word == b"u16".as_slice() {
        Some((Integer::I16, false))
    } else if word == b"u32".as_slice() {
        Some((Integer::I32, false))
    } else if word == b"u64".as_slice() {
        Some((Integer::I64, false))
    } else if word == b"u128".as_slice() {
        Some((Integer::I128, false))
    } else if word == b"i8".as_slice() {
        Some((Integer::I8, true))
    } else if word == b"i16".as_slice() {
        Some((Integer::I16, true))
    } else if word == b"i32".as_slice() {
        Some((Integer::I32, true))
    } else if word == b"i64".as_slice() {
        Some((Integer::I64, true))
    } else if word == b"i128".as_slice() {
        Some((Integer::I128, true))
    } else {
        None
    }
}

/// Whether it's an integer as wide as an index.
pub(crate) fn is_index_word(word: &[u8]) -> bool
    ensures { result ≡ is_index_word word.now }
{
    word == b"usize".as_slice() || word == b"isize".as_slice()
}

/// The float format of this name.
fn float_named(word: &[u8]) -> Option<Float>
    ensures { result ≡ float_named word.now }
{
    if word == b"f16".as_slice() {
        Some(Float::F16)
    } else if word == b"f16b".as_slice() {
        Some(Float::F16B)
    } else if word == b"f32".as_slice() {
        Some(Float::F32)
    } else if word == b"f64".as_slice() {
        Some(Float::F64)
    } else if word == b"f128".as_slice() {
        Some(Float::F128)
    } else if word == b"ppcf128".as_slice() {
        Some(Float::PpcF128)
    } else {
        None
    }
}

fn integer_word(word: &[u8]) -> Option<ScalarWord>
    ensures { result ≡ integer_word word.now }
{
    let (integer, signed) = integer_named(word)?;
    Some(ScalarWord::Integer(integer, signed))
}

fn float_word(word: &[u8]) -> Option<ScalarWord>
    ensures { result ≡ float_word word.now }
{
    Some(ScalarWord::Float(float_named(word)?))
}

/// A word that is no integer's and no float's name.
fn special_word(word: &[u8]) -> Option<ScalarWord>
    ensures { result ≡ special_word word.now }
{
    if word == b"usize".as_slice() {
        Some(ScalarWord::Index(false))
    } else if word == b"isize".as_slice() {
        Some(ScalarWord::Index(true))
    } else if word == b"ptr".as_slice() {
        Some(ScalarWord::Pointer)
    } else if word == b"ptrin".as_slice() {
        Some(ScalarWord::PointerIn)
    } else if word == b"bool".as_slice() {
        Some(ScalarWord::Bool)
    } else if word == b"char".as_slice() {
        Some(ScalarWord::Char)
    } else if word == b"ref".as_slice() {
        Some(ScalarWord::Ref)
    } else if word == b"range".as_slice() {
        Some(ScalarWord::Range)
    } else if word == b"unionof".as_slice() {
        Some(ScalarWord::UnionOf)
    } else {
        None
    }
}

/// What the word means where a scalar may begin. None for a word that begins none.
pub(crate) fn scalar_word(word: &[u8]) -> Option<ScalarWord>
    ensures { result ≡ scalar_word word.now }
{
    if let Some(integer) = integer_word(word) {
        return Some(integer);
    }
    if let Some(float) = float_word(word) {
        return Some(float);
    }
    special_word(word)
}
