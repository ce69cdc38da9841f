//! What kind of register a value is passed in.

ghost use Rattle.std.specs.Prelude.{◌≡◌};
ghost use Rattle.abi_base.specs.RegKind.{reg_kind_of};

use crate::float::Float;
use crate::primitive::Primitive;

/// What kind of register a value is passed in.
#[derive(Clone, Copy, PartialEq, Eq, Hash, Debug)]
pub enum RegKind {
    /// A register of integers, pointers among them.
    Integer,
    /// A register of floats.
    Float,
    /// A pair of `f64`s, each in a register of its own: PowerPC's extended precision.
    PpcF128,
    /// A vector register.
    Vector {
        /// What the lanes are taken for. It is a hint: no size and no alignment depends on it.
        hint_vector_elem: Primitive,
    },
}

impl RegKind {
    /// The kind that a primitive is passed in.
    pub fn from_primitive(primitive: Primitive) -> Self
        ensures { result ≡ reg_kind_of primitive }
    {
        match primitive {
            Primitive::Int(..) | Primitive::Pointer(_) => RegKind::Integer,
            Primitive::Float(Float::PpcF128) => RegKind::PpcF128,
            Primitive::Float(_) => RegKind::Float,
        }
    }
}
