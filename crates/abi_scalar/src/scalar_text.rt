//! How a scalar is written.

ghost use Rattle.std.specs.Prelude.{◌≡◌, ◌≤◌, Some};
ghost use Rattle.abi_scalar.specs.ScalarText.{text_width, signed_range_text, bounds_text, scalar_text};

use crate::scalar::{Scalar, is_signed_integer};
use crate::wrapping_range::{WrappingRange, greatest_number};
use abi_base::{Primitive, Size};
use std::fmt;
use std::fmt::Debug;

/// How many bytes the range of a primitive is written at.
fn text_width(value: Primitive) -> Size
    ensures width { result ≡ text_width value }
    ensures some { 1 ≤ result }
    ensures most { result ≤ 16 }
{
    match value {
        Primitive::Int(integer, _) => integer.size(),
        Primitive::Float(float) => float.size(),
        Primitive::Pointer(_) => Size::from_bytes(16),
    }
}

/// A range of signed numbers, to be written.
#[derive(Clone, Copy)]
struct SignedRange {
    start: i128,
    end: i128,
}

impl Debug for SignedRange {
    ghost debug_output = { λ range. Some (signed_range_text range.start range.end) };

    fn fmt<W: fmt::Write>(&self, f: &mut fmt::Formatter<W>) -> fmt::Result {
        let start = self.start;
        let end = self.end;
        if start > end {
            write!(f, "(..={end}) | ({start}..)")
        } else {
            write!(f, "{start}..={end}")
        }
    }
}

/// The range of a primitive, to be written.
#[derive(Clone, Copy)]
struct Bounds {
    value: Primitive,
    range: WrappingRange,
}

impl Debug for Bounds {
    ghost debug_output = { λ bounds. Some (bounds_text bounds.value bounds.range) };

    fn fmt<W: fmt::Write>(&self, f: &mut fmt::Formatter<W>) -> fmt::Result {
        let size = text_width(self.value);
        let range = self.range;
        if range.start == 0 && range.end == greatest_number(size) {
            return f.write_str("..");
        }
        if !is_signed_integer(self.value) {
            return range.fmt(f);
        }
        let signed = SignedRange {
            start: size.sign_extend(range.start),
            end: size.sign_extend(range.end),
        };
        signed.fmt(f)
    }
}

impl Debug for Scalar {
    ghost debug_output = { λ scalar. Some (scalar_text scalar) };

    fn fmt<W: fmt::Write>(&self, f: &mut fmt::Formatter<W>) -> fmt::Result {
        match *self {
            Scalar::Initialized { value, valid_range } => {
                let bounds = Bounds {
                    value,
                    range: valid_range,
                };
                write!(f, "{value:?} is {bounds:?}")
            }
            Scalar::Union { value } => write!(f, "union {value:?}"),
        }
    }
}
