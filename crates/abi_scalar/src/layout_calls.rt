//! What a layout says.

ghost use Rattle.std.specs.Prelude.{◌≡◌, ◌↔◌, IsTrue};
ghost use Rattle.abi_scalar.specs.View.{IsUnsizedView, IsSizedView, IsAggregateView, IsScalableView};
ghost use Rattle.abi_scalar.specs.Layout.{IsZst, Is1zst, StandsAlone, IsVariantUninhabited, HasSameAbi, scalable_lanes};

use crate::backend_repr::BackendRepr;
use crate::lane_count::BackendLaneCount;
use crate::layout_data::LayoutData;
use crate::variants::Variants;
use abi_base::{Align, Size};
use abi_index::Idx;

impl<FieldIdx: Idx, VariantIdx: Idx> LayoutData<FieldIdx, VariantIdx> {
    /// Whether a code generator sees two scalars, or bytes in memory.
    pub fn is_aggregate(&self) -> bool
        ensures { IsTrue result ↔ IsAggregateView self.now.backend_repr }
    {
        !self.backend_repr.is_scalar_or_simd()
    }

    /// Whether it is marked as having no value.
    pub fn is_uninhabited(&self) -> bool
        ensures { result ≡ self.now.uninhabited }
    {
        self.uninhabited
    }

    /// Whether its fields lie as `repr(C)` has them.
    pub fn is_repr_c(&self) -> bool
        ensures { result ≡ self.now.repr_c }
    {
        self.repr_c
    }

    /// Whether the size is known only with a value.
    pub fn is_unsized(&self) -> bool
        ensures { IsTrue result ↔ IsUnsizedView self.now.backend_repr }
    {
        self.backend_repr.is_unsized()
    }

    /// Whether the size is known beforehand, as it isn't of a slice.
    pub fn is_sized(&self) -> bool
        ensures { IsTrue result ↔ IsSizedView self.now.backend_repr }
    {
        self.backend_repr.is_sized()
    }

    /// Whether it has no bytes: sized bytes in memory of size 0. It can still be aligned to more than one byte.
    pub fn is_zst(&self) -> bool
        ensures { IsTrue result ↔ IsZst self.now }
    {
        match self.backend_repr {
            BackendRepr::Memory { sized } => sized && self.size == Size::ZERO,
            _ => false,
        }
    }

    /// Whether it is sized and has no bytes, aligned to one byte.
    pub fn is_1zst(&self) -> bool
        ensures { IsTrue result ↔ Is1zst self.now }
    {
        self.is_sized() && self.size == Size::ZERO && self.align.abi == Align::ONE
    }

    /// Whether it consists of vectors whose length the machine decides.
    pub fn is_scalable_vector(&self) -> bool
        ensures { IsTrue result ↔ IsScalableView self.now.backend_repr }
    {
        self.scalable_vector_element_count().is_some()
    }

    /// The lanes of vectors whose length the machine decides; None for all others.
    pub fn scalable_vector_element_count(&self) -> Option<BackendLaneCount>
        ensures { result ≡ scalable_lanes self.now.backend_repr }
    {
        match self.backend_repr {
            BackendRepr::SimdScalableVector {
                element: _,
                count,
                number_of_vectors: _,
            } => Some(count),
            _ => None,
        }
    }

    /// Whether its scalars and vectors tell a value whole, whatever memory holds.
    pub fn is_ssa_standalone(&self) -> bool
        ensures { IsTrue result ↔ StandsAlone self.now }
    {
        match self.backend_repr {
            BackendRepr::Memory { sized: _ } => self.is_zst(),
            _ => true,
        }
    }

    /// Whether the variant has no value: one beside the only one, one that is marked, or none at all.
    pub fn is_variant_uninhabited(&self, variant: VariantIdx) -> bool
        ensures { IsTrue result
            ↔ IsVariantUninhabited VariantIdx.number self.now (VariantIdx.number variant) }
    {
        match &self.variants {
            Variants::Empty => true,
            Variants::Single { index } => variant.index() != index.index() || self.uninhabited,
            Variants::Multiple {
                tag: _,
                tag_encoding: _,
                tag_field: _,
                variants,
            } => match variants.get(variant) {
                Some(layout) => layout.is_uninhabited(),
                None => true,
            },
        }
    }

    /// Whether values of both are passed in the same way: size, alignment and view agree, but for the numbers
    /// that scalars may hold, and both are a `bool` or neither.
    pub fn eq_abi(&self, other: &Self) -> bool
        ensures { IsTrue result ↔ HasSameAbi self.now other.now }
    {
        self.size == other.size
            && self.align.abi == other.align.abi
            && self.backend_repr.eq_up_to_validity(&other.backend_repr)
            && self.backend_repr.is_bool() == other.backend_repr.is_bool()
    }
}
