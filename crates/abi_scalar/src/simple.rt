//! The layouts of types without parts.

ghost use Rattle.std.specs.Prelude.{◌≡◌, ◌%◌};
ghost use Rattle.abi_base.specs.DataLayout.{IsLawfulDataLayout};
ghost use Rattle.abi_scalar.specs.Scalar.{IsWellFormed, IsLawfulScalar};
ghost use Rattle.abi_scalar.specs.Simple.{seed_kind, mixed, scalar_seed, scalar_layout, unit_layout, never_layout, uninhabited_layout};
ghost use Rattle.abi_scalar.specs.Lawful.{IsLawfulLayout};
ghost use Rattle.abi_scalar.specs.Order.{HasOrder};

use crate::backend_repr::BackendRepr;
use crate::fields_shape::{FieldCount, FieldsShape};
use crate::layout_data::LayoutData;
use crate::niche::Niche;
use crate::scalar::Scalar;
use crate::variants::Variants;
use abi_base::{AbiAlign, HasDataLayout, Primitive, Size};
use abi_index::{Hash64, Idx, IndexVec};
use std::alloc::Global;

/// What distinguishes the seeds of equally large primitives.
fn kind(value: Primitive) -> u64
    ensures { result ≡ seed_kind value }
{
    match value {
        Primitive::Int(_, signed) => { if signed { 1 } else { 2 } }
        Primitive::Float(_) => 3,
        Primitive::Pointer(_) => 4,
    }
}

/// The low 64 bits, rotated right by 16.
fn mix(n: u128) -> Hash64
    ensures { result ≡ mixed n }
{
    Hash64::new(((n % (1 << 64)) as u64).rotate_right(16))
}

/// The seed of a scalar.
fn seed<C: HasDataLayout>(cx: &C, scalar: Scalar) -> Hash64
    requires { IsWellFormed (C.target cx.now) scalar }
    ensures { result ≡ scalar_seed (C.target cx.now) scalar }
{
    let range = scalar.valid_range(cx);
    let kind = kind(scalar.primitive()) << 32;
    Hash64::new(scalar.size(cx).bytes())
        .wrapping_add(Hash64::new(kind))
        .wrapping_add(mix(range.start))
        .wrapping_add(mix(range.end))
}

impl<FieldIdx: Idx, VariantIdx: Idx> LayoutData<FieldIdx, VariantIdx> {
    /// The layout of a type without fields: no bytes, aligned as an `i8`. `sized` gives whether its size is known
    /// beforehand. It takes no memory.
    pub fn unit<C: HasDataLayout>(alloc: Global, cx: &C, sized: bool) -> Self
        ensures exact { result ≡ unit_layout (VariantIdx.at 0) (C.target cx.now) sized }
        ensures lawful { IsLawfulDataLayout (C.target cx.now) →
            IsLawfulLayout (C.target cx.now) result }
        ensures order { HasOrder FieldIdx.number result.fields }
    {
        let align = cx.data_layout().i8_align;
        LayoutData {
            fields: FieldsShape::Arbitrary {
                offsets: IndexVec::new(alloc),
                in_memory_order: IndexVec::new(alloc),
            },
            variants: Variants::Single {
                index: VariantIdx::new(0),
            },
            backend_repr: BackendRepr::Memory { sized },
            largest_niche: None,
            uninhabited: false,
            align: AbiAlign::new(align),
            size: Size::ZERO,
            max_repr_align: None,
            unadjusted_abi_align: align,
            repr_c: false,
            randomization_seed: Hash64::ZERO,
        }
    }

    /// The layout of a type with no values: no bytes, aligned as an `i8`, and no variants.
    pub fn never_type<C: HasDataLayout>(cx: &C) -> Self
        ensures exact { result ≡ never_layout (C.target cx.now) }
        ensures lawful { IsLawfulDataLayout (C.target cx.now) →
            IsLawfulLayout (C.target cx.now) result }
        ensures order { HasOrder FieldIdx.number result.fields }
    {
        let align = cx.data_layout().i8_align;
        LayoutData {
            fields: FieldsShape::Primitive,
            variants: Variants::Empty,
            backend_repr: BackendRepr::Memory { sized: true },
            largest_niche: None,
            uninhabited: true,
            align: AbiAlign::new(align),
            size: Size::ZERO,
            max_repr_align: None,
            unadjusted_abi_align: align,
            repr_c: false,
            randomization_seed: Hash64::ZERO,
        }
    }

    /// The layout of a variant that no value has, with `fields` fields: no bytes, aligned as an `i8`. It takes no
    /// memory.
    pub fn uninhabited_variant<C: HasDataLayout>(
        alloc: Global,
        cx: &C,
        index: VariantIdx,
        fields: usize,
    ) -> Self
        ensures exact { result ≡ uninhabited_layout index (C.target cx.now) fields }
        ensures lawful { IsLawfulDataLayout (C.target cx.now) →
            IsLawfulLayout (C.target cx.now) result }
        ensures order { HasOrder FieldIdx.number result.fields }
    {
        let align = cx.data_layout().i8_align;
        let fields = match FieldCount::new(fields) {
            Some(count) => FieldsShape::Union(count),
            None => FieldsShape::Arbitrary {
                offsets: IndexVec::new(alloc),
                in_memory_order: IndexVec::new(alloc),
            },
        };
        LayoutData {
            fields,
            variants: Variants::Single { index },
            backend_repr: BackendRepr::Memory { sized: true },
            largest_niche: None,
            uninhabited: true,
            align: AbiAlign::new(align),
            size: Size::ZERO,
            max_repr_align: None,
            unadjusted_abi_align: align,
            repr_c: false,
            randomization_seed: Hash64::ZERO,
        }
    }

    /// The layout of one scalar: its size, its own alignment, and its free numbers as niche.
    pub fn scalar<C: HasDataLayout>(cx: &C, scalar: Scalar) -> Self
        requires { IsWellFormed (C.target cx.now) scalar }
        ensures exact { result ≡ scalar_layout (VariantIdx.at 0) (C.target cx.now) scalar }
        ensures lawful { IsLawfulDataLayout (C.target cx.now) →
            IsLawfulScalar (C.target cx.now) scalar → IsLawfulLayout (C.target cx.now) result }
        ensures order { HasOrder FieldIdx.number result.fields }
    {
        let align = scalar.default_align(cx);
        LayoutData {
            fields: FieldsShape::Primitive,
            variants: Variants::Single {
                index: VariantIdx::new(0),
            },
            backend_repr: BackendRepr::Scalar(scalar),
            largest_niche: Niche::from_scalar(cx, Size::ZERO, scalar),
            uninhabited: false,
            align: AbiAlign::new(align),
            size: scalar.size(cx),
            max_repr_align: None,
            unadjusted_abi_align: align,
            repr_c: false,
            randomization_seed: seed(cx, scalar),
        }
    }
}
