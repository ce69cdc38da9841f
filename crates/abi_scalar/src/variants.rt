//! The variants of a type, and how its bytes name one.

ghost use Rattle.std.specs.Prelude.{◌≡◌, ◌<◌, ◌↔◌, IsTrue, length};
ghost use Rattle.abi_scalar.specs.Shape.{IsListed};
ghost use Rattle.abi_scalar.specs.Order.{HasOrder};
ghost use Rattle.abi_scalar.specs.Variant.{IsOrderedVariant, variant_of};

use crate::backend_repr::BackendRepr;
use crate::fields_shape::FieldsShape;
use crate::layout_data::LayoutData;
use crate::niche::Niche;
use crate::scalar::Scalar;
use abi_base::Size;
use abi_index::{Idx, IndexList, IndexVec, TryClone};
use std::alloc::{AllocError, Global};

/// The numbers or indices from `start` to `last`, both of them in it.
#[derive(Clone, Copy, PartialEq, Eq, Hash, Debug)]
pub struct RangeInclusive<I> {
    /// The first.
    pub start: I,
    /// The last, which is in it.
    pub last: I,
}

/// The numbers from `start` on.
#[derive(Clone, Copy, PartialEq, Eq, Hash, Debug)]
pub struct RangeFrom<I> {
    /// The first.
    pub start: I,
}

/// The numbers up to `last`, itself in it.
#[derive(Clone, Copy, PartialEq, Eq, Hash, Debug)]
pub struct RangeToInclusive<I> {
    /// The last, which is in it.
    pub last: I,
}

/// How a tag's number names a variant.
#[derive(Clone, Copy, PartialEq, Eq, Hash, Debug)]
pub enum TagEncoding<VariantIdx: Idx> {
    /// By the variant's discriminant, cut to the tag's width.
    Direct,
    /// The tag lies in a niche of the untagged variant. The variants of the span are named by the numbers from
    /// `niche_start` on, and every other number names the untagged one.
    Niche {
        /// The variant in whose bytes the niche lies, which no number of its own names.
        untagged_variant: VariantIdx,
        /// The span of the variants that have a number each; the untagged one may stand among them.
        niche_variants: RangeInclusive<VariantIdx>,
        /// The number of the first variant of the span, cut to the tag's width; each next variant's is one more.
        niche_start: u128,
    },
}

/// What the layout of one variant has of its own.
#[derive(Drop, PartialEq, Eq, Hash, Debug)]
pub struct VariantLayout<FieldIdx: Idx> {
    /// How many bytes the variant takes, from the first of the whole type on.
    pub size: Size,
    /// How a code generator sees the variant.
    pub backend_repr: BackendRepr,
    /// The offset of each of its fields in the whole type, in bytes, in source order.
    pub field_offsets: IndexVec<FieldIdx, Size>,
    /// Which of its fields lies first in memory, which next, and so on.
    pub(crate) fields_in_memory_order: IndexVec<u32, FieldIdx>,
    /// The place among its fields with the most free numbers.
    pub(crate) largest_niche: Option<Niche>,
    /// Whether no value of the variant can be.
    pub(crate) uninhabited: bool,
}

/// The variants of a type: none, the one that is left, or several beside a tag.
#[derive(Drop, PartialEq, Eq, Hash, Debug)]
pub enum Variants<FieldIdx: Idx, VariantIdx: Idx> {
    /// None: the type has no values.
    Empty,
    /// One, so that no tag is needed.
    Single {
        /// Which it is.
        index: VariantIdx,
    },
    /// Several, distinguished by a tag.
    Multiple {
        /// The scalar that the tag is, with the numbers that it may hold.
        tag: Scalar,
        /// How its number names a variant.
        tag_encoding: TagEncoding<VariantIdx>,
        /// The field that the tag is, among those of the whole type.
        tag_field: FieldIdx,
        /// What each variant has of its own, in source order.
        variants: IndexList<VariantIdx, VariantLayout<FieldIdx>>,
    },
}

impl<FieldIdx: Idx> VariantLayout<FieldIdx> {
    /// What the layout of a list of fields has of its own, as that of one variant: its size, view, offsets, memory
    /// order and niche, and whether it is marked as having no value. Asked of fields that are listed one by one.
    pub fn from_layout<V: Idx>(layout: LayoutData<FieldIdx, V>) -> Self
        requires { IsListed layout.fields }
        ensures exact { result ≡ variant_of layout }
        ensures order { HasOrder FieldIdx.number layout.fields →
            IsOrderedVariant FieldIdx.number result }
    {
        let LayoutData {
            fields,
            size,
            backend_repr,
            largest_niche,
            uninhabited,
            ..
        } = layout;
        match fields {
            FieldsShape::Arbitrary {
                offsets,
                in_memory_order,
            } => VariantLayout {
                size,
                backend_repr,
                field_offsets: offsets,
                fields_in_memory_order: in_memory_order,
                largest_niche,
                uninhabited,
            },
            _ => unreachable!(),
        }
    }

    /// Its fields as they follow one another in memory.
    pub fn in_memory_order(&self) -> &[FieldIdx]
        ensures { result.now ≡ self.now.fields_in_memory_order }
    {
        self.fields_in_memory_order.as_slice().as_raw()
    }

    /// The place among its fields with the most free numbers.
    pub fn largest_niche(&self) -> Option<Niche>
        ensures { result ≡ self.now.largest_niche }
    {
        self.largest_niche
    }

    /// Whether it is marked as having no value.
    pub fn is_uninhabited(&self) -> bool
        ensures { result ≡ self.now.uninhabited }
    {
        self.uninhabited
    }

    /// Whether it has fields of its own.
    pub fn has_fields(&self) -> bool
        ensures { IsTrue result ↔ (0 < length self.now.field_offsets) }
    {
        self.field_offsets.len() > 0
    }
}

impl<FieldIdx: Idx> TryClone for VariantLayout<FieldIdx> {
    fn try_clone(&self, alloc: Global) -> Result<Self, AllocError> {
        Ok(VariantLayout {
            size: self.size,
            backend_repr: self.backend_repr,
            field_offsets: self.field_offsets.try_clone(alloc)?,
            fields_in_memory_order: self.fields_in_memory_order.try_clone(alloc)?,
            largest_niche: self.largest_niche,
            uninhabited: self.uninhabited,
        })
    }
}

impl<FieldIdx: Idx, VariantIdx: Idx> TryClone for Variants<FieldIdx, VariantIdx> {
    fn try_clone(&self, alloc: Global) -> Result<Self, AllocError> {
        Ok(match self {
            Variants::Empty => Variants::Empty,
            Variants::Single { index } => Variants::Single { index: *index },
            Variants::Multiple {
                tag,
                tag_encoding,
                tag_field,
                variants,
            } => Variants::Multiple {
                tag: *tag,
                tag_encoding: *tag_encoding,
                tag_field: *tag_field,
                variants: variants.try_clone(alloc)?,
            },
        })
    }
}
