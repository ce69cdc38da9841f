//! The layout of two scalars.

ghost use Rattle.std.specs.Prelude.{◌≡◌, ◌<◌, [], ◌∷◌};
ghost use Rattle.abi_index.specs.InlineVec.{TwoFit};
ghost use Rattle.abi_base.specs.DataLayout.{IsLawfulDataLayout, size_bound};
ghost use Rattle.abi_scalar.specs.Scalar.{IsWellFormed, IsLawfulScalar};
ghost use Rattle.abi_scalar.specs.Lawful.{IsLawfulLayout};
ghost use Rattle.abi_scalar.specs.Niche.{niche_at};
ghost use Rattle.abi_scalar.specs.declared.fields_shape.FieldsShape.TheVariants.{Arbitrary};
ghost use Rattle.abi_scalar.specs.Order.{HasOrder};
ghost use Rattle.abi_scalar.specs.Pair.{pair_align, pair_size, larger_niche, pair_layout};

use crate::backend_repr::BackendRepr;
use crate::fields_shape::FieldsShape;
use crate::layout_data::LayoutData;
use crate::niche::Niche;
use crate::scalar::Scalar;
use crate::variants::Variants;
use abi_base::{AbiAlign, Align, HasDataLayout, Size};
use abi_index::{Hash64, Idx, IndexVec};
use std::alloc::{AllocError, Global};

/// The niche of two scalars: the one with more free numbers, the first's where both have as many.
#[tactic(auto, using(crate::proofs::NicheLemmas::niche_readable))]
fn pair_niche<C: HasDataLayout>(cx: &C, a: Scalar, b: Scalar, b_offset: Size) -> Option<Niche>
    requires first { IsWellFormed (C.target cx.now) a }
    requires second { IsWellFormed (C.target cx.now) b }
    ensures { result ≡ larger_niche (C.target cx.now) (niche_at (C.target cx.now) 0 a)
        (niche_at (C.target cx.now) b_offset b) }
{
    let first = Niche::from_scalar(cx, Size::ZERO, a);
    let second = Niche::from_scalar(cx, b_offset, b);
    match first {
        None => second,
        Some(low) => match second {
            None => Some(low),
            Some(high) => {
                if low.available(cx) < high.available(cx) {
                    Some(high)
                } else {
                    Some(low)
                }
            }
        },
    }
}

/// The alignment of two scalars: the greatest of both and of a list of fields.
fn pair_align<C: HasDataLayout>(cx: &C, a: Scalar, b: Scalar) -> Align
    requires first { IsWellFormed (C.target cx.now) a }
    requires second { IsWellFormed (C.target cx.now) b }
    ensures { result ≡ pair_align (C.target cx.now) a b }
{
    let own = cx.data_layout().aggregate_align;
    a.default_align(cx).max(b.default_align(cx)).max(own)
}

/// Two items as a list.
fn two_items<I: Idx, T: Copy>(alloc: Global, first: T, second: T) -> IndexVec<I, T>
    requires { TwoFit T.row }
    ensures { result ≡ first ∷ second ∷ [] }
{
    let mut list = IndexVec::new(alloc);
    let first_index: Result<I, AllocError> = list.push(first);
    let second_index: Result<I, AllocError> = list.push(second);
    prove!(first_index.is_ok() && second_index.is_ok());
    list
}

/// Two fields, the second at this offset.
fn two_fields<FieldIdx: Idx>(alloc: Global, b_offset: Size) -> FieldsShape<FieldIdx>
    ensures exact { result ≡ Arbitrary (0 ∷ b_offset ∷ []) (FieldIdx.at 0 ∷ FieldIdx.at 1 ∷ []) }
    ensures order { HasOrder FieldIdx.number result }
{
    FieldsShape::Arbitrary {
        offsets: two_items(alloc, Size::ZERO, b_offset),
        in_memory_order: two_items(alloc, FieldIdx::new(0), FieldIdx::new(1)),
    }
}

impl<FieldIdx: Idx, VariantIdx: Idx> LayoutData<FieldIdx, VariantIdx> {
    /// The layout of two scalars: the second begins after the first, at its own alignment, and the whole is as
    /// aligned as both and as a list of fields. It asks for no memory.
    pub fn scalar_pair<C: HasDataLayout>(alloc: Global, cx: &C, a: Scalar, b: Scalar) -> Self
        requires data_layout { IsLawfulDataLayout (C.target cx.now) }
        requires first { IsWellFormed (C.target cx.now) a }
        requires second { IsWellFormed (C.target cx.now) b }
        ensures exact { result
            ≡ pair_layout (VariantIdx.at 0) (FieldIdx.at 0) (FieldIdx.at 1) (C.target cx.now) a b }
        // Where the size is below the data layout's bound.
        ensures lawful { IsLawfulScalar (C.target cx.now) a → IsLawfulScalar (C.target cx.now) b
            → pair_size (C.target cx.now) a b < size_bound (C.target cx.now)
            → IsLawfulLayout (C.target cx.now) result }
        ensures order { HasOrder FieldIdx.number result.fields }
    {
        let align = pair_align(cx, a, b);
        let b_offset = a.size(cx).align_to(b.default_align(cx));
        let end = b_offset + b.size(cx);
        LayoutData {
            fields: two_fields(alloc, b_offset),
            variants: Variants::Single {
                index: VariantIdx::new(0),
            },
            backend_repr: BackendRepr::ScalarPair { a, b, b_offset },
            largest_niche: pair_niche(cx, a, b, b_offset),
            uninhabited: false,
            align: AbiAlign::new(align),
            size: end.align_to(align),
            max_repr_align: None,
            unadjusted_abi_align: align,
            repr_c: false,
            randomization_seed: Hash64::new(a.size(cx).bytes() + b.size(cx).bytes()),
        }
    }
}
