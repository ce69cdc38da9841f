//! The layout of one variant of a type.

ghost use Rattle.std.specs.Prelude.{◌≡◌, ◌<◌, length, slice_get, IfOk, IfSome, Some, option_map};
ghost use Rattle.abi_scalar.specs.Order.{HasOrder};
ghost use Rattle.abi_scalar.specs.Variant.{IsOrderedVariant, variants_of, variant_layout};

use crate::fields_shape::FieldsShape;
use crate::layout_data::LayoutData;
use crate::variants::Variants;
use abi_index::{Hash64, Idx};
use std::alloc::{AllocError, Global};

impl<FieldIdx: Idx, VariantIdx: Idx> LayoutData<FieldIdx, VariantIdx> {
    /// The layout of one variant of a type, as a type of its own: offsets, memory order, view, niche, mark and size
    /// are the variant's, the alignments and the mark of `repr(C)` the type's.
    ///
    /// Asked of an index among several variants that a tag distinguishes. `AllocError` where memory for the copy is
    /// refused.
    pub fn for_variant(alloc: Global, parent: &Self, index: VariantIdx) -> Result<Self, AllocError>
        requires { VariantIdx.number index < length (variants_of parent.now.variants) }
        ensures exact { IfOk result (λ layout.
            Some layout ≡ option_map (variant_layout parent.now index)
            (slice_get (variants_of parent.now.variants) (VariantIdx.number index))) }
        ensures order { IfOk result (λ layout.
            IfSome (slice_get (variants_of parent.now.variants) (VariantIdx.number index))
            (IsOrderedVariant FieldIdx.number)
            → HasOrder FieldIdx.number layout.fields) }
    {
        let Variants::Multiple { variants, .. } = &parent.variants else {
            unreachable!()
        };
        let variant = &variants.as_slice().as_raw()[index.index()];
        Ok(LayoutData {
            fields: FieldsShape::Arbitrary {
                offsets: variant.field_offsets.try_clone(alloc)?,
                in_memory_order: variant.fields_in_memory_order.try_clone(alloc)?,
            },
            variants: Variants::Single { index },
            backend_repr: variant.backend_repr,
            largest_niche: variant.largest_niche,
            uninhabited: variant.uninhabited,
            align: parent.align,
            size: variant.size,
            max_repr_align: parent.max_repr_align,
            unadjusted_abi_align: parent.unadjusted_abi_align,
            repr_c: parent.repr_c,
            randomization_seed: Hash64::ZERO,
        })
    }
}
