//! Registers that a value is passed in.

ghost use Rattle.std.specs.Prelude.{◌≡◌, ◌≤◌};
ghost use Rattle.abi_types.specs.Reg.{float_reg, integer_reg, vector_reg, integer_with_room, plain_float, IsFloatSize, HasAlign, reg_align};

use abi_base::{Align, Float, HasDataLayout, Integer, Primitive, RegKind, Size};

/// A register, or as much of one as a value takes.
#[derive(Clone, Copy, PartialEq, Eq, Hash, Debug)]
pub struct Reg {
    /// Whether integers, floats or vectors are passed in it.
    pub kind: RegKind,
    /// How many bytes of it are used.
    pub size: Size,
}

impl Reg {
    /// An integer of 8 bits.
    pub fn i8() -> Reg
        ensures { result ≡ integer_reg 1 }
    {
        Reg::integer(1)
    }

    /// An integer of 16 bits.
    pub fn i16() -> Reg
        ensures { result ≡ integer_reg 2 }
    {
        Reg::integer(2)
    }

    /// An integer of 32 bits.
    pub fn i32() -> Reg
        ensures { result ≡ integer_reg 4 }
    {
        Reg::integer(4)
    }

    /// An integer of 64 bits.
    pub fn i64() -> Reg
        ensures { result ≡ integer_reg 8 }
    {
        Reg::integer(8)
    }

    /// An integer of 128 bits.
    pub fn i128() -> Reg
        ensures { result ≡ integer_reg 16 }
    {
        Reg::integer(16)
    }

    /// A float of 16 bits.
    pub fn f16() -> Reg
        ensures { result ≡ float_reg 2 }
    {
        Reg::float(2)
    }

    /// A float of 32 bits.
    pub fn f32() -> Reg
        ensures { result ≡ float_reg 4 }
    {
        Reg::float(4)
    }

    /// A float of 64 bits.
    pub fn f64() -> Reg
        ensures { result ≡ float_reg 8 }
    {
        Reg::float(8)
    }

    /// A float of 128 bits.
    pub fn f128() -> Reg
        ensures { result ≡ float_reg 16 }
    {
        Reg::float(16)
    }

    /// A vector of the size, whose lanes may be anything: they are taken for signed bytes.
    pub fn opaque_vector(size: Size) -> Reg
        ensures { result ≡ vector_reg size }
    {
        let hint_vector_elem = Primitive::Int(Integer::I8, true);
        Reg {
            kind: RegKind::Vector { hint_vector_elem },
            size,
        }
    }

    /// Its alignment. An integer has to have 1 to 16 bytes, and is aligned as the least integer
    /// that holds it; a float has to have 2, 4, 8 or 16 bytes. A vector of a size that the data
    /// layout doesn't list is aligned to the next power of two, and has to be at most 2^29 bytes.
    pub fn align<C: HasDataLayout>(&self, cx: &C) -> Align
        requires { HasAlign (C.target cx.now) self.now }
        ensures { result ≡ reg_align (C.target cx.now) self.now }
    {
        let dl = cx.data_layout();
        match self.kind {
            RegKind::Integer => integer_holding(self.size).align(dl),
            RegKind::Float => float_of(self.size).align(dl),
            RegKind::PpcF128 => dl.f128_align,
            RegKind::Vector { .. } => dl.rust_vector_align(self.size),
        }
    }

    /// An integer of `bytes` bytes.
    fn integer(bytes: u64) -> Reg
        ensures { result ≡ integer_reg bytes }
    {
        Reg {
            kind: RegKind::Integer,
            size: Size::from_bytes(bytes),
        }
    }

    /// A float of `bytes` bytes.
    fn float(bytes: u64) -> Reg
        ensures { result ≡ float_reg bytes }
    {
        Reg {
            kind: RegKind::Float,
            size: Size::from_bytes(bytes),
        }
    }
}

/// The least integer that has room for `size` bytes, of which there are 1 to 16.
fn integer_holding(size: Size) -> Integer
    requires least { 1 ≤ size }
    requires most { size ≤ 16 }
    ensures { result ≡ integer_with_room size }
{
    match size.bytes() {
        1 => Integer::I8,
        2 => Integer::I16,
        3..=4 => Integer::I32,
        5..=8 => Integer::I64,
        _ => Integer::I128,
    }
}

/// The float of 2, 4, 8 or 16 bytes.
fn float_of(size: Size) -> Float
    requires { IsFloatSize size }
    ensures { result ≡ plain_float size }
{
    match size.bytes() {
        2 => Float::F16,
        4 => Float::F32,
        8 => Float::F64,
        16 => Float::F128,
        _ => unreachable!(),
    }
}
