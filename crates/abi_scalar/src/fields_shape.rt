//! Where the fields of a type lie.

ghost use Rattle.std.specs.Prelude.{◌≡◌, ◌≤◌, ◌<◌, ◌^◌};
ghost use Rattle.std.specs.Option.{SomeIff};
ghost use Rattle.abi_scalar.specs.Shape.{field_count, field_offset};

use abi_base::Size;
use abi_index::{Idx, IndexVec, TryClone};
use std::alloc::{AllocError, Global};
use std::marker::Model;

/// How many fields a union has: at least one.
#[derive(Clone, Copy, PartialEq, Eq, Hash, Debug)]
pub struct FieldCount {
    count: usize,
}

impl Model for FieldCount {
    ghost use Rattle.std.specs.Prelude.{ℕ, ◌≤◌};

    ghost Value = { ℕ };

    ghost view = { λ a. a.count };

    ghost inverse = { λ n. record { count = n } };

    ghost invariant = { λ a. 1 ≤ a.count };
}

impl FieldCount {
    /// The count of a union's fields, of which there is at least one; `None` for 0.
    pub fn new(count: usize) -> Option<FieldCount>
        ensures { SomeIff result (1 ≤ count) count }
    {
        if count == 0 {
            None
        } else {
            Some(FieldCount { count })
        }
    }

    /// The count as a number, which is at least 1.
    pub fn get(self) -> usize
        ensures { result ≡ self }
    {
        self.count
    }
}

/// Where the fields of a type lie.
#[derive(Drop, PartialEq, Eq, Hash, Debug)]
pub enum FieldsShape<FieldIdx: Idx> {
    /// A scalar, or a type with no values: no fields.
    Primitive,
    /// A union: how many fields there are, each at offset 0.
    Union(FieldCount),
    /// `count` elements, each `stride` bytes after the one before.
    Array {
        /// How many bytes each element begins after the one before.
        stride: Size,
        /// How many elements there are.
        count: u64,
    },
    /// Fields at these offsets, in source order; and which field lies first in memory, which next, and so on.
    Arbitrary {
        /// Each field's offset, in bytes, in source order.
        offsets: IndexVec<FieldIdx, Size>,
        /// The fields as they lie in memory, the first one first.
        in_memory_order: IndexVec<u32, FieldIdx>,
    },
}

impl<FieldIdx: Idx> FieldsShape<FieldIdx> {
    /// How many fields or elements there are; 0 for a primitive.
    pub fn count(&self) -> usize
        ensures { result ≡ field_count self.now }
    {
        match self {
            FieldsShape::Primitive => 0,
            FieldsShape::Union(count) => count.get(),
            FieldsShape::Array { stride: _, count } => *count as usize,
            FieldsShape::Arbitrary {
                offsets,
                in_memory_order: _,
            } => offsets.len(),
        }
    }

    /// How many bytes lie before the field, in source order.
    pub fn offset(&self, i: usize) -> Size
        requires within { i < field_count self.now }
        requires fits { field_offset self.now i < 2 ^ 64 }
        ensures { result ≡ field_offset self.now i }
    {
        match self {
            FieldsShape::Primitive => unreachable!(),
            FieldsShape::Union(_) => Size::ZERO,
            FieldsShape::Array { stride, count: _ } => *stride * (i as u64),
            FieldsShape::Arbitrary {
                offsets,
                in_memory_order: _,
            } => offsets.as_slice().as_raw()[i],
        }
    }
}

impl<FieldIdx: Idx> TryClone for FieldsShape<FieldIdx> {
    fn try_clone(&self, alloc: Global) -> Result<Self, AllocError> {
        Ok(match self {
            FieldsShape::Primitive => FieldsShape::Primitive,
            FieldsShape::Union(count) => FieldsShape::Union(*count),
            FieldsShape::Array { stride, count } => {
                FieldsShape::Array {
                    stride: *stride,
                    count: *count,
                }
            }
            FieldsShape::Arbitrary {
                offsets,
                in_memory_order,
            } => FieldsShape::Arbitrary {
                offsets: offsets.try_clone(alloc)?,
                in_memory_order: in_memory_order.try_clone(alloc)?,
            },
        })
    }
}
