//! Primitive types: what a scalar consists of.

ghost use Rattle.std.specs.Prelude.{◌≡◌, Some};
ghost use Rattle.abi_base.specs.Primitive.{primitive_size, primitive_align, primitive_text, KnowsPrimitive};

use crate::address_space::AddressSpace;
use crate::align::Align;
use crate::data_layout::HasDataLayout;
use crate::float::Float;
use crate::integer::Integer;
use crate::size::Size;
use std::fmt;
use std::fmt::Debug;

/// A primitive type: what a scalar consists of.
#[derive(Clone, Copy, PartialEq, Eq, Hash)]
pub enum Primitive {
    /// An integer, signed where the flag is set. No layout depends on the sign.
    Int(Integer, bool),
    /// A float.
    Float(Float),
    /// A pointer into an address space.
    Pointer(AddressSpace),
}

impl Primitive {
    /// How many bytes it has; a pointer by its address space, which the data layout has to know.
    pub fn size<C: HasDataLayout>(self, cx: &C) -> Size
        requires { KnowsPrimitive (C.target cx.now) self }
        ensures { result ≡ primitive_size (C.target cx.now) self }
    {
        match self {
            Primitive::Int(integer, _) => integer.size(),
            Primitive::Float(float) => float.size(),
            Primitive::Pointer(space) => cx.data_layout().pointer_size_in(space),
        }
    }

    /// Its alignment, where no other is asked for.
    pub fn default_align<C: HasDataLayout>(self, cx: &C) -> Align
        requires { KnowsPrimitive (C.target cx.now) self }
        ensures { result ≡ primitive_align (C.target cx.now) self }
    {
        match self {
            Primitive::Int(integer, _) => integer.align(cx),
            Primitive::Float(float) => float.align(cx),
            Primitive::Pointer(space) => cx.data_layout().pointer_align_in(space),
        }
    }
}

impl Debug for Primitive {
    ghost debug_output = { λ primitive. Some (primitive_text primitive) };

    fn fmt<W: fmt::Write>(&self, f: &mut fmt::Formatter<W>) -> fmt::Result {
        match self {
            Primitive::Int(integer, true) => f.write_str(integer.int_ty_str()),
            Primitive::Int(integer, false) => f.write_str(integer.uint_ty_str()),
            Primitive::Float(float) => f.write_str(float.ty_str()),
            Primitive::Pointer(AddressSpace(0)) => f.write_str("pointer"),
            Primitive::Pointer(space) => write!(f, "pointer(AddressSpace({}))", space.0),
        }
    }
}
