//! Floating-point formats.

ghost use Rattle.std.specs.Prelude.{◌≡◌};
ghost use Rattle.abi_base.specs.Float.{float_size, float_align, float_text, is_ieee_float};

use crate::align::Align;
use crate::data_layout::HasDataLayout;
use crate::prove_ascending;
use crate::size::Size;

/// A floating-point format. Only its size and its alignment matter to a layout.
#[derive(Clone, Copy, PartialEq, Eq, PartialOrd, Ord, Hash, Debug)]
pub enum Float {
    /// IEEE 754 binary16.
    F16,
    /// `bfloat16`.
    F16B,
    /// IEEE 754 binary32.
    F32,
    /// IEEE 754 binary64.
    F64,
    /// IEEE 754 binary128.
    F128,
    /// Two `f64` of a double double.
    PpcF128,
}

// The order in which floats are compared.
const _: () = prove_ascending!(Float: F16, F16B, F32, F64, F128, PpcF128);

impl Float {
    /// How many bytes a float of the format has: 2 to 16.
    pub fn size(self) -> Size
        ensures { result ≡ float_size self }
    {
        match self {
            Float::F16 | Float::F16B => Size::from_bytes(2),
            Float::F32 => Size::from_bytes(4),
            Float::F64 => Size::from_bytes(8),
            Float::F128 | Float::PpcF128 => Size::from_bytes(16),
        }
    }

    /// The alignment that the data layout has for floats of its width.
    pub fn align<C: HasDataLayout>(self, cx: &C) -> Align
        ensures { result ≡ float_align (C.target cx.now) self }
    {
        let dl = cx.data_layout();
        match self {
            Float::F16 | Float::F16B => dl.f16_align,
            Float::F32 => dl.f32_align,
            Float::F64 => dl.f64_align,
            Float::F128 | Float::PpcF128 => dl.f128_align,
        }
    }

    /// Its name, as `f32`.
    pub fn ty_str(self) -> &'static str
        ensures { result.now ≡ float_text self }
    {
        match self {
            Float::F16 => "f16",
            Float::F16B => "f16b",
            Float::F32 => "f32",
            Float::F64 => "f64",
            Float::F128 => "f128",
            Float::PpcF128 => "ppcf128",
        }
    }

    /// Whether it is one of IEEE 754's interchange formats.
    pub fn is_ieee(self) -> bool
        ensures { result ≡ is_ieee_float self }
    {
        match self {
            Float::F16 | Float::F32 | Float::F64 | Float::F128 => true,
            Float::F16B | Float::PpcF128 => false,
        }
    }
}
