//! The names that have a meaning of their own.

ghost use Rattle.std.specs.Prelude.{◌≡◌, IfOk, OnOk, codes, map};
ghost use Rattle.rust_source.specs.Names.{added, all_added, number_of_name, texts, word_of};
ghost use Rattle.abi_rust.specs.Words.{integer_at, is_std, is_word, known_words, method_named, primitive_named, symbol_of};

use crate::methods::{Method, MethodOfOne, MethodOfTwo};
use crate::ty::Primitive;
use abi_base::Float;
use rust_source::{IntegerKind, Names, Symbol};
use std::alloc::AllocError;

/// The names of primitive types, then others, and then those of methods, in the order of their numbers.
static WORDS: [&str; 65] = [
    "bool",
    "char",
    "str",
    "i8",
    "i16",
    "i32",
    "i64",
    "i128",
    "isize",
    "u8",
    "u16",
    "u32",
    "u64",
    "u128",
    "usize",
    "f16",
    "f32",
    "f64",
    "f128",
    "std",
    "core",
    "alloc",
    "MAX",
    "MIN",
    "BITS",
    "mem",
    "size_of",
    "align_of",
    "prelude",
    "borrow",
    "Owned",
    "string",
    "String",
    "vec",
    "Vec",
    "ffi",
    "CStr",
    "CString",
    "OsStr",
    "OsString",
    "path",
    "Path",
    "PathBuf",
    "ManuallyDrop",
    "libc",
    "next_power_of_two",
    "is_power_of_two",
    "count_ones",
    "leading_zeros",
    "trailing_zeros",
    "ilog2",
    "pow",
    "div_ceil",
    "abs_diff",
    "saturating_add",
    "saturating_sub",
    "saturating_mul",
    "wrapping_add",
    "wrapping_sub",
    "wrapping_mul",
    "div_euclid",
    "rem_euclid",
    "min_value",
    "max_value",
    "len",
];

/// The names that have a meaning of their own, by how far they stand behind the first of them.
#[derive(Clone, Copy)]
pub(crate) struct Words {
    first: u32,
}

/// A name that has a meaning of its own, but for those of primitive types.
#[derive(Clone, Copy, PartialEq, Eq)]
pub(crate) enum Word {
    Std = 19,
    Core = 20,
    Alloc = 21,
    Max = 22,
    Min = 23,
    Bits = 24,
    Mem = 25,
    SizeOf = 26,
    AlignOf = 27,
    Prelude = 28,
    Borrow = 29,
    Owned = 30,
    StringModule = 31,
    String = 32,
    VecModule = 33,
    Vec = 34,
    Ffi = 35,
    CStr = 36,
    CString = 37,
    OsStr = 38,
    OsString = 39,
    PathModule = 40,
    Path = 41,
    PathBuf = 42,
    ManuallyDrop = 43,
    Libc = 44,
    Len = 64,
}

impl Words {
    /// Numbers the names, of which none may have a number before.
    pub(crate) fn new(names: &mut Names) -> Result<Words, AllocError>
        ensures first { IfOk result
            (λ ws. ws.first ≡ number_of_name (texts names.old) (codes "bool")) }
        ensures names { OnOk result (texts names.new
            ≡ all_added (added (texts names.old) (codes "bool")) known_words) }
    {
        let first = names.add("bool")?.0;
        add_all(names, &WORDS)?;
        Ok(Words { first })
    }

    /// The number of a name.
    #[tactic(auto, unfolding(crate::specs::Words::symbol_of))]
    pub(crate) fn symbol(self, word: Word) -> Symbol
        ensures { result ≡ symbol_of self word }
    {
        Symbol(self.first.wrapping_add(word as u32))
    }

    /// Whether it is this name.
    pub(crate) fn is(self, name: Symbol, word: Word) -> bool
        ensures { result ≡ is_word self name word }
    {
        name == self.symbol(word)
    }

    /// The primitive type of this name, if there is one.
    #[tactic(auto, unfolding(crate::specs::Words::primitive_named))]
    pub(crate) fn primitive(self, name: Symbol) -> Option<Primitive>
        ensures { result ≡ primitive_named self name }
    {
        match name.0.wrapping_sub(self.first) {
            0 => Some(Primitive::Bool),
            1 => Some(Primitive::Char),
            2 => Some(Primitive::Str),
            15 => Some(Primitive::Float(Float::F16)),
            16 => Some(Primitive::Float(Float::F32)),
            17 => Some(Primitive::Float(Float::F64)),
            18 => Some(Primitive::Float(Float::F128)),
            number => Some(Primitive::Integer(integer_numbered(number)?)),
        }
    }

    /// The method of integers of this name, if there is one.
    #[tactic(auto, unfolding(crate::specs::Words::method_named))]
    pub(crate) fn method(self, name: Symbol) -> Option<Method>
        ensures { result ≡ method_named self name }
    {
        match name.0.wrapping_sub(self.first) {
            45 => Some(Method::Of(MethodOfOne::NextPowerOfTwo)),
            46 => Some(Method::Of(MethodOfOne::IsPowerOfTwo)),
            47 => Some(Method::Of(MethodOfOne::CountOnes)),
            48 => Some(Method::Of(MethodOfOne::LeadingZeros)),
            49 => Some(Method::Of(MethodOfOne::TrailingZeros)),
            50 => Some(Method::Of(MethodOfOne::Ilog2)),
            51 => Some(Method::OfBoth(MethodOfTwo::Pow)),
            52 => Some(Method::OfBoth(MethodOfTwo::DivCeil)),
            53 => Some(Method::OfBoth(MethodOfTwo::AbsDiff)),
            54 => Some(Method::OfBoth(MethodOfTwo::SaturatingAdd)),
            55 => Some(Method::OfBoth(MethodOfTwo::SaturatingSub)),
            56 => Some(Method::OfBoth(MethodOfTwo::SaturatingMul)),
            57 => Some(Method::OfBoth(MethodOfTwo::WrappingAdd)),
            58 => Some(Method::OfBoth(MethodOfTwo::WrappingSub)),
            59 => Some(Method::OfBoth(MethodOfTwo::WrappingMul)),
            60 => Some(Method::OfBoth(MethodOfTwo::DivEuclid)),
            61 => Some(Method::OfBoth(MethodOfTwo::RemEuclid)),
            62 => Some(Method::Least),
            63 => Some(Method::Greatest),
            _ => None,
        }
    }

    /// Whether it is the name of the standard library: `std`, `core` or `alloc`.
    pub(crate) fn is_std(self, name: Symbol) -> bool
        ensures { result ≡ is_std self name }
    {
        self.is(name, Word::Std) || self.is(name, Word::Core) || self.is(name, Word::Alloc)
    }
}

/// Gives numbers to names that have none, in their order.
fn add_all(names: &mut Names, all: &[&'static str]) -> Result<(), AllocError>
    ensures { OnOk result (texts names.new ≡ all_added (texts names.old) (map word_of all.now)) }
{
    for word in all {
        let _ = names.add(word)?;
    }
    Ok(())
}

/// The integer type whose name has this number.
fn integer_numbered(number: u32) -> Option<IntegerKind>
    ensures { result ≡ integer_at number }
{
    match number {
        3 => Some(IntegerKind::I8),
        4 => Some(IntegerKind::I16),
        5 => Some(IntegerKind::I32),
        6 => Some(IntegerKind::I64),
        7 => Some(IntegerKind::I128),
        8 => Some(IntegerKind::Isize),
        9 => Some(IntegerKind::U8),
        10 => Some(IntegerKind::U16),
        11 => Some(IntegerKind::U32),
        12 => Some(IntegerKind::U64),
        13 => Some(IntegerKind::U128),
        14 => Some(IntegerKind::Usize),
        _ => None,
    }
}
