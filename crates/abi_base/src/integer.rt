//! Integer types.

ghost use Rattle.std.specs.Prelude.{◌≡◌, ◌==◌, ◌-◌, ◌*◌, ◌^◌, ◌<◌, ◌≤◌, pos, neg_ℤ, unwrap_or, Some};
ghost use Rattle.std.specs.List.{find};
ghost use Rattle.std.specs.Option.{ok_or};
ghost use Rattle.abi_base.specs.declared.integer.Integer.{Integer};
ghost use Rattle.abi_base.specs.declared.integer.Integer.TheVariants.{I8};
ghost use Rattle.abi_base.specs.Integer.{integers, tag_integers, integer_size, integer_align, signed_text, unsigned_text, is_of_align, is_within_align, HoldsSigned, HoldsUnsigned, no_such_text};
ghost use Rattle.abi_base.specs.IntegerType.{KnowsIndex, integer_of_type, is_signed_type};

use crate::align::Align;
use crate::data_layout::HasDataLayout;
use crate::prove_ascending;
use crate::size::Size;
use std::error::Error;
use std::fmt;
use std::fmt::Display;

/// The width of an integer type, signed or not.
#[derive(Clone, Copy, PartialEq, Eq, PartialOrd, Ord, Hash, Debug)]
pub enum Integer {
    /// 8 bits.
    I8,
    /// 16 bits.
    I16,
    /// 32 bits.
    I32,
    /// 64 bits.
    I64,
    /// 128 bits.
    I128,
}

// The order of the integers, by which they are compared, is that of their sizes.
const _: () = prove_ascending!(Integer: I8, I16, I32, I64, I128);

impl Integer {
    /// How many bytes it has: 1 to 16, a power of two.
    pub fn size(self) -> Size
        ensures { result ≡ integer_size self }
    {
        match self {
            Integer::I8 => Size::from_bytes(1),
            Integer::I16 => Size::from_bytes(2),
            Integer::I32 => Size::from_bytes(4),
            Integer::I64 => Size::from_bytes(8),
            Integer::I128 => Size::from_bytes(16),
        }
    }

    /// The alignment that the data layout has for integers of its width.
    pub fn align<C: HasDataLayout>(self, cx: &C) -> Align
        ensures { result ≡ integer_align (C.target cx.now) self }
    {
        let dl = cx.data_layout();
        match self {
            Integer::I8 => dl.i8_align,
            Integer::I16 => dl.i16_align,
            Integer::I32 => dl.i32_align,
            Integer::I64 => dl.i64_align,
            Integer::I128 => dl.i128_align,
        }
    }

    /// The name of the signed type, as `i8`.
    pub fn int_ty_str(self) -> &'static str
        ensures { result.now ≡ signed_text self }
    {
        match self {
            Integer::I8 => "i8",
            Integer::I16 => "i16",
            Integer::I32 => "i32",
            Integer::I64 => "i64",
            Integer::I128 => "i128",
        }
    }

    /// The name of the unsigned type, as `u8`.
    pub fn uint_ty_str(self) -> &'static str
        ensures { result.now ≡ unsigned_text self }
    {
        match self {
            Integer::I8 => "u8",
            Integer::I16 => "u16",
            Integer::I32 => "u32",
            Integer::I64 => "u64",
            Integer::I128 => "u128",
        }
    }

    /// The greatest number of the signed type.
    pub fn signed_max(self) -> i128
        ensures { result ≡ pos (2 ^ (integer_size self * 8 - 1) - 1) }
    {
        match self {
            Integer::I8 => 0x7F,
            Integer::I16 => 0x7FFF,
            Integer::I32 => 0x7FFF_FFFF,
            Integer::I64 => 0x7FFF_FFFF_FFFF_FFFF,
            Integer::I128 => i128::MAX,
        }
    }

    /// The least number of the signed type.
    pub fn signed_min(self) -> i128
        ensures { result ≡ neg_ℤ (pos (2 ^ (integer_size self * 8 - 1))) }
    {
        match self {
            Integer::I8 => -0x80,
            Integer::I16 => -0x8000,
            Integer::I32 => -0x8000_0000,
            Integer::I64 => -0x8000_0000_0000_0000,
            Integer::I128 => i128::MIN,
        }
    }

    /// The least integer whose signed type has the number.
    pub fn fit_signed(x: i128) -> Integer
        ensures holds { HoldsSigned result x }
        ensures least { (i : Integer) → HoldsSigned i x → integer_size result ≤ integer_size i }
    {
        if -0x80 <= x && x <= 0x7F {
            Integer::I8
        } else if -0x8000 <= x && x <= 0x7FFF {
            Integer::I16
        } else if -0x8000_0000 <= x && x <= 0x7FFF_FFFF {
            Integer::I32
        } else if -0x8000_0000_0000_0000 <= x && x <= 0x7FFF_FFFF_FFFF_FFFF {
            Integer::I64
        } else {
            Integer::I128
        }
    }

    /// The least integer whose unsigned type has the number.
    pub fn fit_unsigned(x: u128) -> Integer
        ensures holds { HoldsUnsigned result x }
        ensures least { (i : Integer) → HoldsUnsigned i x → integer_size result ≤ integer_size i }
    {
        if x <= 0xFF {
            Integer::I8
        } else if x <= 0xFFFF {
            Integer::I16
        } else if x <= 0xFFFF_FFFF {
            Integer::I32
        } else if x <= 0xFFFF_FFFF_FFFF_FFFF {
            Integer::I64
        } else {
            Integer::I128
        }
    }

    /// The integer that an integer type of an attribute names: the index's for `isize` and
    /// `usize`, for which the index has to have 16, 32 or 64 bits.
    pub fn from_attr<C: HasDataLayout>(cx: &C, ity: IntegerType) -> Integer
        requires { KnowsIndex (C.target cx.now) ity }
        ensures { result ≡ integer_of_type (C.target cx.now) ity }
    {
        match ity {
            IntegerType::Pointer(_) => cx.data_layout().ptr_sized_integer(),
            IntegerType::Fixed(integer, _) => integer,
        }
    }

    /// The integer whose alignment and size both are the wanted bytes, if there is one.
    pub fn for_align<C: HasDataLayout>(cx: &C, wanted: Align) -> Option<Integer>
        ensures { result ≡ find (is_of_align (C.target cx.now) wanted) integers }
    {
        let integers = [
            Integer::I8,
            Integer::I16,
            Integer::I32,
            Integer::I64,
            Integer::I128,
        ];
        first_of_align(cx, wanted, &integers)
    }

    /// The greatest integer up to 64 bits whose alignment and size both are at most the wanted bytes,
    /// and `I8` where none is.
    pub fn approximate_align<C: HasDataLayout>(cx: &C, wanted: Align) -> Integer
        ensures { result
            ≡ unwrap_or (find (is_within_align (C.target cx.now) wanted) tag_integers) I8 }
    {
        let integers = [Integer::I64, Integer::I32, Integer::I16];
        first_within_align(cx, wanted, &integers).unwrap_or(Integer::I8)
    }

    /// The integer of the size. `NoSuchInteger` with the number of bits, which has to fit, where
    /// there is none.
    pub fn from_size(size: Size) -> Result<Integer, NoSuchInteger>
        requires { size * 8 < 2 ^ 64 }
        ensures { result
            ≡ ok_or (find (λ i. integer_size i == size) integers) (record { 0 = size * 8 }) }
    {
        match size.bytes() {
            1 => Ok(Integer::I8),
            2 => Ok(Integer::I16),
            4 => Ok(Integer::I32),
            8 => Ok(Integer::I64),
            16 => Ok(Integer::I128),
            _ => Err(NoSuchInteger(size.bits())),
        }
    }
}

/// The first whose alignment and size both are the wanted bytes, if there is one.
fn first_of_align<C: HasDataLayout>(cx: &C, wanted: Align, integers: &[Integer]) -> Option<Integer>
    ensures { result ≡ find (is_of_align (C.target cx.now) wanted) integers.now }
{
    for candidate in integers {
        if candidate.align(cx) == wanted && wanted.is_size(candidate.size()) {
            return Some(*candidate);
        }
    }
    None
}

/// The first whose alignment and size both are at most the wanted bytes, if there is one.
fn first_within_align<C: HasDataLayout>(
    cx: &C,
    wanted: Align,
    integers: &[Integer],
) -> Option<Integer>
    ensures { result ≡ find (is_within_align (C.target cx.now) wanted) integers.now }
{
    for candidate in integers {
        if candidate.align(cx) <= wanted && wanted.holds(candidate.size()) {
            return Some(*candidate);
        }
    }
    None
}

/// A number of bits that no integer type has. It prints with that number.
#[derive(Clone, Copy, PartialEq, Eq, Debug)]
pub struct NoSuchInteger(pub u64);

impl Display for NoSuchInteger {
    ghost output = { λ error. Some (no_such_text error.0) };

    fn fmt<W: fmt::Write>(&self, f: &mut fmt::Formatter<W>) -> fmt::Result {
        write!(f, "rust does not support integers with {} bits", self.0)
    }
}

impl Error for NoSuchInteger {}

/// An integer type as a repr names it; true where it is signed.
#[derive(Clone, Copy, PartialEq, Eq, Debug)]
pub enum IntegerType {
    /// `isize` or `usize`: as wide as an index.
    Pointer(bool),
    /// A type of fixed width, as `u8`.
    Fixed(Integer, bool),
}

impl IntegerType {
    /// Whether it is signed: of `isize`, or of a fixed integer that is.
    pub fn is_signed(&self) -> bool
        ensures { result ≡ is_signed_type self.now }
    {
        match self {
            IntegerType::Pointer(signed) | IntegerType::Fixed(_, signed) => *signed,
        }
    }
}
