//! Scalars: a primitive, and the numbers that it may hold.

ghost use Rattle.std.specs.Prelude.{◌≡◌, ◌↔◌, IsTrue};
ghost use Rattle.std.specs.Borrow.{sem};
ghost use Rattle.abi_base.specs.Primitive.{KnowsPrimitive};
ghost use Rattle.abi_scalar.specs.declared.scalar.Scalar.TheVariants.{Union};
ghost use Rattle.abi_scalar.specs.Scalar.{primitive_of, scalar_size, scalar_align, range_of, IsUnion, HasRange, IsInitialized, IsBool, is_signed_integer, IsSignedInteger, IsAlwaysValid, IsWellFormed};
ghost use Rattle.abi_scalar.specs.Lending.{LendsRange};

use crate::wrapping_range::WrappingRange;
use abi_base::{Align, HasDataLayout, Integer, Primitive, Size};

/// A primitive, and the numbers that it may hold.
#[derive(Clone, Copy, PartialEq, Eq, Hash)]
pub enum Scalar {
    /// It holds a number of the range.
    Initialized {
        /// What it consists of.
        value: Primitive,
        /// The numbers that it may hold, each as an unsigned one of its width.
        valid_range: WrappingRange,
    },
    /// It holds any number, and may be uninitialised, as in a union.
    Union {
        /// What it consists of.
        value: Primitive,
    },
}

/// Whether the primitive is a signed integer.
pub(crate) fn is_signed_integer(value: Primitive) -> bool
    ensures { result ≡ is_signed_integer value }
{
    match value {
        Primitive::Int(_, signed) => signed,
        Primitive::Float(_) => false,
        Primitive::Pointer(_) => false,
    }
}

impl Scalar {
    /// Whether it is an unsigned byte that holds 0 or 1.
    pub fn is_bool(&self) -> bool
        ensures { IsTrue result ↔ IsBool self.now }
    {
        match *self {
            Scalar::Initialized {
                value: Primitive::Int(Integer::I8, false),
                valid_range,
            } => valid_range.start == 0 && valid_range.end == 1,
            _ => false,
        }
    }

    /// What it consists of, whatever numbers it may hold.
    pub fn primitive(&self) -> Primitive
        ensures { result ≡ primitive_of self.now }
    {
        match *self {
            Scalar::Initialized {
                value,
                valid_range: _,
            } => value,
            Scalar::Union { value } => value,
        }
    }

    /// Whether it consists of this primitive.
    pub(crate) fn is_of(&self, value: Primitive) -> bool
        ensures { IsTrue result ↔ (primitive_of self.now ≡ value) }
    {
        self.primitive() == value
    }

    /// Its alignment as a type of its own.
    pub fn default_align<C: HasDataLayout>(self, cx: &C) -> Align
        requires { KnowsPrimitive (C.target cx.now) (primitive_of self) }
        ensures { result ≡ scalar_align (C.target cx.now) self }
    {
        self.primitive().default_align(cx)
    }

    /// How many bytes its primitive has under the data layout.
    pub fn size<C: HasDataLayout>(self, cx: &C) -> Size
        requires { KnowsPrimitive (C.target cx.now) (primitive_of self) }
        ensures { result ≡ scalar_size (C.target cx.now) self }
    {
        self.primitive().size(cx)
    }

    /// The same primitive as a union has it: it may hold any bytes.
    pub fn to_union(&self) -> Scalar
        ensures { result ≡ Union (primitive_of self.now) }
    {
        Scalar::Union {
            value: self.primitive(),
        }
    }

    /// The numbers that it may hold: for a union's scalar all of its width.
    pub fn valid_range<C: HasDataLayout>(&self, cx: &C) -> WrappingRange
        requires { IsWellFormed (C.target cx.now) self.now }
        ensures { result ≡ range_of (C.target cx.now) self.now }
    {
        match *self {
            Scalar::Initialized {
                value: _,
                valid_range,
            } => valid_range,
            Scalar::Union { value } => WrappingRange::full(value.size(cx)),
        }
    }

    /// Lends its range for writing, which a union's scalar doesn't have.
    pub fn valid_range_mut(&mut self) -> &mut WrappingRange
        requires { IsInitialized self.old }
        ensures own { HasRange self.old result.now }
        ensures* written { sem 𝓛 (LendsRange self.entry result) }
    {
        match self {
            Scalar::Initialized {
                value: _,
                valid_range: lent,
            } => lent,
            Scalar::Union { value: _ } => unreachable!(),
        }
    }

    /// Whether it may hold every number of its bytes.
    pub fn is_always_valid<C: HasDataLayout>(&self, cx: &C) -> bool
        requires { IsWellFormed (C.target cx.now) self.now }
        ensures { IsTrue result ↔ IsAlwaysValid (C.target cx.now) self.now }
    {
        match *self {
            Scalar::Initialized { value, valid_range } => valid_range.is_full_for(value.size(cx)),
            Scalar::Union { value: _ } => true,
        }
    }

    /// Whether it may be uninitialised, as only a union's scalar may.
    pub fn is_uninit_valid(&self) -> bool
        ensures { IsTrue result ↔ IsUnion self.now }
    {
        match self {
            Scalar::Initialized {
                value: _,
                valid_range: _,
            } => false,
            Scalar::Union { value: _ } => true,
        }
    }

    /// Whether its primitive is a signed integer; no float or pointer is.
    pub fn is_signed(&self) -> bool
        ensures { IsTrue result ↔ IsSignedInteger (primitive_of self.now) }
    {
        is_signed_integer(self.primitive())
    }
}
