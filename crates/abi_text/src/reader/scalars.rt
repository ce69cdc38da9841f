//! The scalars that words stand for.

ghost use Rattle.std.specs.Prelude.{◌≡◌, ◌≤◌};
ghost use Rattle.abi_base.specs.DataLayout.{index_integer};
ghost use Rattle.abi_text.specs.Scalars.{a_bool, a_char, a_ref, default_pointer, full, index_primitive, width_of};

use abi_base::{AddressSpace, Integer, Primitive, Size, TargetDataLayout};
use abi_scalar::{Scalar, WrappingRange};

/// How many bytes a primitive has, 1 to 16: a pointer with another number of bytes is refused when it's laid out.
fn width(dl: &TargetDataLayout, value: Primitive) -> Size
    ensures value { result ≡ width_of dl.now value }
    ensures some { 1 ≤ result }
    ensures most { result ≤ 16 }
{
    let size = match value {
        Primitive::Int(integer, _) => integer.size(),
        Primitive::Float(float) => float.size(),
        Primitive::Pointer(space) => {
            if dl.knows(space) {
                dl.pointer_size_in(space)
            } else {
                dl.pointer_size()
            }
        }
    };
    Size::from_bytes(size.bytes().min(16).max(1))
}

/// A primitive with every number of its width.
pub(crate) fn full(dl: &TargetDataLayout, value: Primitive) -> Scalar
    ensures { result ≡ full dl.now value }
{
    Scalar::Initialized {
        value,
        valid_range: WrappingRange::full(width(dl, value)),
    }
}

/// An integer as wide as an index.
pub(crate) fn index_primitive(dl: &TargetDataLayout, signed: bool) -> Primitive
    ensures { result ≡ index_primitive dl.now signed }
{
    let integer = match dl.pointer_offset().bytes() {
        2 => Integer::I16,
        4 => Integer::I32,
        _ => Integer::I64,
    };
    Primitive::Int(integer, signed)
}

/// A pointer into space 0.
pub(crate) fn default_pointer() -> Primitive
    ensures { result ≡ default_pointer }
{
    Primitive::Pointer(AddressSpace::ZERO)
}

pub(crate) fn a_bool() -> Scalar
    ensures { result ≡ a_bool }
{
    Scalar::Initialized {
        value: Primitive::Int(Integer::I8, false),
        valid_range: WrappingRange { start: 0, end: 1 },
    }
}

/// A Unicode scalar value, or a surrogate.
pub(crate) fn a_char() -> Scalar
    ensures { result ≡ a_char }
{
    Scalar::Initialized {
        value: Primitive::Int(Integer::I32, false),
        valid_range: WrappingRange {
            start: 0,
            end: 0x10_FFFF,
        },
    }
}

/// A pointer that isn't null.
pub(crate) fn a_ref(dl: &TargetDataLayout) -> Scalar
    ensures { result ≡ a_ref dl.now }
{
    let value = default_pointer();
    Scalar::Initialized {
        value,
        valid_range: WrappingRange {
            start: 1,
            end: width(dl, value).unsigned_int_max(),
        },
    }
}
