//! The layout of a list of fields, without room for several variants.

ghost use Rattle.std.specs.Prelude.{◌≡◌, map};
ghost use Rattle.abi_scalar.specs.Order.{indices_by_offset};
ghost use Rattle.abi_scalar.specs.Shape.{listed_offsets, listed_order};
ghost use Rattle.abi_univariant.specs.UnivariantLayouts.{list_of};

use crate::univariant_layouts::VariantRest;
use abi_base::{AbiAlign, Align, Size};
use abi_index::{Hash64, Idx, IndexVec};
use abi_scalar::{BackendRepr, FieldsShape, LayoutData, Niche, VariantLayout, Variants};
use std::marker::Model;

/// The layout of a list of fields: all that a `LayoutData` has, but for room for several variants, of which a list has
/// one. Contracts see it as that `LayoutData`.
#[derive(Drop)]
pub struct UnivariantLayout<FieldIdx: Idx, VariantIdx: Idx> {
    /// Where each field begins, in source order.
    pub(crate) offsets: IndexVec<FieldIdx, Size>,
    /// Which field lies first in memory, which next, and so on.
    pub(crate) in_memory_order: IndexVec<u32, FieldIdx>,
    /// Which variant the list is.
    pub(crate) index: VariantIdx,
    /// How a code generator sees the values.
    pub(crate) backend_repr: BackendRepr,
    /// The place with the most free numbers.
    pub(crate) largest_niche: Option<Niche>,
    /// Whether no value can be.
    pub(crate) uninhabited: bool,
    /// The alignment.
    pub(crate) align: Align,
    /// How many bytes a value takes, with padding at its end.
    pub(crate) size: Size,
    /// The greatest alignment that a `repr(align)` asks for.
    pub(crate) max_repr_align: Option<Align>,
    /// The alignment before `repr(align)` raised it.
    pub(crate) unadjusted_abi_align: Align,
    /// Whether the fields lie as `repr(C)` has them.
    pub(crate) repr_c: bool,
    /// A hash of the parts, to seed a shuffle of fields with.
    pub(crate) randomization_seed: Hash64,
}

impl<FieldIdx: Idx, VariantIdx: Idx> Model for UnivariantLayout<FieldIdx, VariantIdx> {
    ghost use Rattle.abi_scalar.specs.declared.fields_shape.FieldsShape.TheVariants.{Arbitrary};
    ghost use Rattle.abi_scalar.specs.declared.layout_data.LayoutData.{LayoutData};
    ghost use Rattle.abi_scalar.specs.declared.variants.Variants.TheVariants.{Single};

    ghost Value = { LayoutData FieldIdx VariantIdx };

    ghost view = { λ a. record {
      fields = Arbitrary a.offsets a.in_memory_order;
      variants = Single a.index;
      backend_repr = a.backend_repr;
      largest_niche = a.largest_niche;
      uninhabited = a.uninhabited;
      align = record { abi = a.align };
      size = a.size;
      max_repr_align = a.max_repr_align;
      unadjusted_abi_align = a.unadjusted_abi_align;
      repr_c = a.repr_c;
      randomization_seed = a.randomization_seed;
    } };
}

impl<FieldIdx: Idx, VariantIdx: Idx> UnivariantLayout<FieldIdx, VariantIdx> {
    /// Where each field begins, in source order.
    pub fn offsets(&self) -> &[Size]
        ensures { result.now ≡ listed_offsets self.now.fields }
    {
        self.offsets.as_slice().as_raw()
    }

    /// The fields as they follow one another in memory.
    pub fn in_memory_order(&self) -> &[FieldIdx]
        ensures order { result.now ≡ listed_order self.now.fields }
        ensures places { map FieldIdx.number result.now
            ≡ indices_by_offset FieldIdx.number self.now.fields }
    {
        self.in_memory_order.as_slice().as_raw()
    }

    /// Whether it is marked as having no value, as a list with such a field is.
    pub fn uninhabited(&self) -> bool
        ensures { result ≡ self.now.uninhabited }
    {
        self.uninhabited
    }

    /// The alignment of the whole list.
    pub fn align(&self) -> Align
        ensures { result ≡ self.now.align.abi }
    {
        self.align
    }

    /// How many bytes a value takes, with padding at its end.
    pub fn size(&self) -> Size
        ensures { result ≡ self.now.size }
    {
        self.size
    }

    /// The layout of a type that is this list.
    pub fn into_layout(self) -> LayoutData<FieldIdx, VariantIdx>
        ensures { result ≡ self }
    {
        LayoutData {
            fields: FieldsShape::Arbitrary {
                offsets: self.offsets,
                in_memory_order: self.in_memory_order,
            },
            variants: Variants::Single { index: self.index },
            backend_repr: self.backend_repr,
            largest_niche: self.largest_niche,
            uninhabited: self.uninhabited,
            align: AbiAlign::new(self.align),
            size: self.size,
            max_repr_align: self.max_repr_align,
            unadjusted_abi_align: self.unadjusted_abi_align,
            repr_c: self.repr_c,
            randomization_seed: self.randomization_seed,
        }
    }

    /// What it has as one variant of a type, and the rest.
    pub(crate) fn into_parts(self) -> (VariantLayout<FieldIdx>, VariantRest<VariantIdx>)
        ensures { list_of result.0 result.1 ≡ self }
    {
        let rest = VariantRest {
            index: self.index,
            align: self.align,
            max_repr_align: self.max_repr_align,
            unadjusted_abi_align: self.unadjusted_abi_align,
            repr_c: self.repr_c,
            randomization_seed: self.randomization_seed,
        };
        (VariantLayout::from_layout(self.into_layout()), rest)
    }
}
