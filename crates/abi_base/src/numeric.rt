//! Numbers: integers and floats.

ghost use Rattle.std.specs.Prelude.{◌≡◌};
ghost use Rattle.abi_base.specs.Numeric.{numeric_size, primitive_of_numeric};
ghost use Rattle.abi_base.specs.RegKind.{reg_kind_of};

use crate::float::Float;
use crate::integer::Integer;
use crate::primitive::Primitive;
use crate::reg_kind::RegKind;
use crate::size::Size;

/// A primitive type that numbers have: an integer or a float, no pointer.
#[derive(Clone, Copy, PartialEq, Eq, Hash, Debug)]
pub enum Numeric {
    /// An integer, signed where the flag is set.
    Int(Integer, bool),
    /// A float.
    Float(Float),
}

impl Numeric {
    /// How many bytes a number of the type has: 1 to 16.
    pub fn size(self) -> Size
        ensures { result ≡ numeric_size self }
    {
        match self {
            Numeric::Int(integer, _) => integer.size(),
            Numeric::Float(float) => float.size(),
        }
    }

    /// The kind of register that it is passed in, as its primitive is.
    pub fn reg_kind(self) -> RegKind
        ensures { result ≡ reg_kind_of (primitive_of_numeric self) }
    {
        match self {
            Numeric::Int(integer, signed) => {
                RegKind::from_primitive(Primitive::Int(integer, signed))
            }
            Numeric::Float(float) => RegKind::from_primitive(Primitive::Float(float)),
        }
    }
}
