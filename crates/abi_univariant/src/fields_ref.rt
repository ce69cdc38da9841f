//! The layout of a list of fields, lent by whoever keeps it in parts.

ghost use Rattle.std.specs.Prelude.{◌≡◌, map};
ghost use Rattle.abi_scalar.specs.Order.{indices_by_offset};
ghost use Rattle.abi_scalar.specs.Shape.{listed_offsets, listed_order};
ghost use Rattle.abi_univariant.specs.UnivariantLayouts.{list_of};

use crate::univariant_layouts::VariantRest;
use abi_base::{Align, Size};
use abi_index::{Hash64, Idx};
use abi_scalar::{BackendRepr, Niche, VariantLayout};
use std::marker::Model;

/// The layout of a list of fields, lent. Contracts see it as that `LayoutData`.
#[derive(Drop)]
pub struct FieldsRef<'a, FieldIdx: Idx, VariantIdx: Idx> {
    variant: &'a VariantLayout<FieldIdx>,
    rest: &'a VariantRest<VariantIdx>,
}

impl<'a, FieldIdx: Idx, VariantIdx: Idx> Model for FieldsRef<'a, FieldIdx, VariantIdx> {
    ghost use Rattle.abi_scalar.specs.declared.layout_data.LayoutData.{LayoutData};
    ghost use Rattle.abi_univariant.specs.UnivariantLayouts.{list_of};

    ghost Value = { LayoutData FieldIdx VariantIdx };

    ghost view = { λ a. list_of a.variant.now a.rest.now };
}

impl<'a, FieldIdx: Idx, VariantIdx: Idx> FieldsRef<'a, FieldIdx, VariantIdx> {
    /// The list that has this as a variant, and this beside it.
    pub(crate) fn new(
        variant: &'a VariantLayout<FieldIdx>,
        rest: &'a VariantRest<VariantIdx>,
    ) -> Self
        ensures { result ≡ list_of variant.now rest.now }
    {
        FieldsRef { variant, rest }
    }

    /// Where each field begins, in source order.
    pub fn offsets(&self) -> &[Size]
        ensures { result.now ≡ listed_offsets self.now.fields }
    {
        self.variant.field_offsets.as_slice().as_raw()
    }

    /// The fields as they follow one another in memory.
    pub fn in_memory_order(&self) -> &[FieldIdx]
        ensures order { result.now ≡ listed_order self.now.fields }
        ensures places { map FieldIdx.number result.now
            ≡ indices_by_offset FieldIdx.number self.now.fields }
    {
        self.variant.in_memory_order()
    }

    /// How a code generator sees the values.
    pub fn backend_repr(&self) -> BackendRepr
        ensures { result ≡ self.now.backend_repr }
    {
        self.variant.backend_repr
    }

    /// The place with the most free numbers.
    pub fn largest_niche(&self) -> Option<Niche>
        ensures { result ≡ self.now.largest_niche }
    {
        self.variant.largest_niche()
    }

    /// Whether it is marked as having no value, as a list with such a field is.
    pub fn uninhabited(&self) -> bool
        ensures { result ≡ self.now.uninhabited }
    {
        self.variant.is_uninhabited()
    }

    /// The alignment of the whole list.
    pub fn align(&self) -> Align
        ensures { result ≡ self.now.align.abi }
    {
        self.rest.align
    }

    /// How many bytes a value takes, with padding at its end.
    pub fn size(&self) -> Size
        ensures { result ≡ self.now.size }
    {
        self.variant.size
    }

    /// The greatest alignment that a `repr(align)` asks for.
    pub fn max_repr_align(&self) -> Option<Align>
        ensures { result ≡ self.now.max_repr_align }
    {
        self.rest.max_repr_align
    }

    /// The alignment before `repr(align)` raised it.
    pub fn unadjusted_abi_align(&self) -> Align
        ensures { result ≡ self.now.unadjusted_abi_align }
    {
        self.rest.unadjusted_abi_align
    }

    /// A hash of the parts, to seed a shuffle of fields with.
    pub fn randomization_seed(&self) -> Hash64
        ensures { result ≡ self.now.randomization_seed }
    {
        self.rest.randomization_seed
    }
}
