//! The layout of an enum with a tag.

ghost use Rattle.std.specs.Prelude.{◌≡◌, ◌≤◌, ◌<◌, ◌+◌, ◌⊎◌, All, Err, IfErr, IfOk, IfSome, None, OnOk, length, map};
ghost use Rattle.abi_base.specs.DataLayout.{IsLawfulDataLayout, size_bound};
ghost use Rattle.abi_scalar.specs.Lawful.{IsLawfulLayout};
ghost use Rattle.abi_scalar.specs.Scalar.{IsLawfulScalar, scalar_size};
ghost use Rattle.abi_scalar.specs.Variant.{variant_of};
ghost use Rattle.abi_univariant.specs.List.{HasLawfulAligns};
ghost use Rattle.abi_calc.specs.Enums.Growth.{grown_variant};
ghost use Rattle.abi_calc.specs.Enums.Lists.{AreListsOf, behind_tag};
ghost use Rattle.abi_calc.specs.Enums.Payload.{variant_with_view};
ghost use Rattle.abi_calc.specs.Enums.Promised.{IsPlacedByTag, IsSizedByTag};
ghost use Rattle.abi_calc.specs.Enums.Tagged.{IsTaggedAnswer, IsTaggedBy, layout_with_view, lists_align, lists_size};

use crate::calculator::LayoutCalculator;
use crate::enums::discriminants::{TagRequest, tag_range};
use crate::enums::growth::{grow_variant, grown_tag, start_align};
use crate::enums::lists::behind_tag;
use crate::enums::payload::{adopt_view, tagged_view};
use abi_base::{AbiAlign, Align, HasDataLayout, Primitive, Size, TargetDataLayout};
use abi_index::{Idx, IndexList, IndexVec};
use abi_scalar::{
    BackendRepr, FieldsShape, LayoutCalculatorError, LayoutData, LayoutHandle, Niche, ReprOptions,
    Scalar, TagEncoding, VariantLayout, Variants,
};
use abi_univariant::{UnivariantLayouts, one, round_up};
use std::alloc::{AllocError, Global};

/// The greatest alignment of the variants' lists, and no less than that of aggregates.
pub(crate) fn lists_align<FieldIdx: Idx, VariantIdx: Idx>(
    dl: &TargetDataLayout,
    lists: &UnivariantLayouts<FieldIdx, VariantIdx>,
) -> Align
    ensures { result ≡ lists_align dl.now lists.now }
{
    lists.summary().align_with(dl.aggregate_align)
}

/// The greatest size of the variants' lists, rounded up to the greatest alignment.
pub(crate) fn lists_size<FieldIdx: Idx, VariantIdx: Idx>(
    dl: &TargetDataLayout,
    lists: &UnivariantLayouts<FieldIdx, VariantIdx>,
    align: Align,
) -> Size
    requires data_layout { IsLawfulDataLayout dl.now }
    requires lists { All (IsLawfulLayout dl.now) lists.now }
    requires align { align ≡ lists_align dl.now lists.now }
    ensures { result ≡ lists_size dl.now lists.now }
{
    round_up(lists.summary().size, align)
}

/// That size, where it is below the data layout's bound.
fn bounded_size<FieldIdx: Idx, VariantIdx: Idx>(
    dl: &TargetDataLayout,
    lists: &UnivariantLayouts<FieldIdx, VariantIdx>,
    align: Align,
) -> Option<Size>
    requires data_layout { IsLawfulDataLayout dl.now }
    requires lists { All (IsLawfulLayout dl.now) lists.now }
    requires align { align ≡ lists_align dl.now lists.now }
    ensures some { IfSome result (λ size. (size ≡ lists_size dl.now lists.now) × (size < size_bound dl.now)) }
    ensures none { result ≡ None → size_bound dl.now ≤ lists_size dl.now lists.now }
{
    let size = lists_size(dl, lists, align);
    if size.bytes() >= dl.obj_size_bound() {
        None
    } else {
        Some(size)
    }
}

/// Makes a variant a part of an enum of this view and size, beside a tag that grew from the old size to the new one.
fn complete_variant<FieldIdx: Idx>(
    alloc: Global,
    old: Size,
    new: Size,
    view: &BackendRepr,
    size: Size,
    variant: &mut VariantLayout<FieldIdx>,
) -> Result<(), AllocError>
    ensures { OnOk result (variant.new ≡ variant_with_view view.now size
        (grown_variant old new variant.old)) }
{
    grow_variant(alloc, old, new, variant)?;
    adopt_view(view, size, variant);
    Ok(())
}

/// The variants, as parts of an enum of this view and size, beside a tag that grew from the old size to the new one.
fn variants_of<FieldIdx: Idx, VariantIdx: Idx>(
    alloc: Global,
    old: Size,
    new: Size,
    view: &BackendRepr,
    size: Size,
    lists: UnivariantLayouts<FieldIdx, VariantIdx>,
) -> Result<IndexList<VariantIdx, VariantLayout<FieldIdx>>, AllocError>
    requires { length lists ≤ VariantIdx.MAX_INDEX + 1 }
    ensures { IfOk result (λ variants.
        variants ≡ map (λ l. variant_with_view view.now size (grown_variant old new (variant_of l))) lists) }
{
    let (mut variants, _) = lists.into_parts();
    for variant in variants.iter_mut() {
        complete_variant(alloc, old, new, view, size, variant)?;
    }
    Ok(IndexList::from_raw(variants))
}

/// How an enum is seen and how large it is: its view, its alignment, and its size in bytes.
#[derive(Clone, Copy)]
struct EnumExtent {
    view: BackendRepr,
    align: Align,
    size: Size,
}

/// The layout of an enum as a whole that is seen so and so large, whose tag grew from the old size, and whose variants
/// have these lists.
fn layout_with_view<FieldIdx: Idx, VariantIdx: Idx>(
    alloc: Global,
    dl: &TargetDataLayout,
    repr: &ReprOptions,
    old: Size,
    tag: Scalar,
    whole: EnumExtent,
    lists: UnivariantLayouts<FieldIdx, VariantIdx>,
) -> Result<LayoutData<FieldIdx, VariantIdx>, AllocError>
    requires data_layout { IsLawfulDataLayout dl.now }
    requires tag { IsLawfulScalar dl.now tag }
    requires align { whole.align ≡ lists_align dl.now lists }
    requires size { whole.size ≡ lists_size dl.now lists }
    requires count { length lists ≤ VariantIdx.MAX_INDEX + 1 }
    ensures { IfOk result (λ l. l ≡ layout_with_view (FieldIdx.at 0) dl.now repr.now old tag
        (scalar_size dl.now tag) lists whole.view) }
{
    let summary = lists.summary();
    let max_repr_align = summary.max_repr_align_with(repr.align);
    let unadjusted_abi_align = summary.unadjusted_align_with(dl.aggregate_align);
    let randomization_seed = summary.seed_with(repr.field_shuffle_seed);
    let variants = variants_of(alloc, old, tag.size(dl), &whole.view, whole.size, lists)?;
    let first = FieldIdx::new(0);
    Ok(LayoutData {
        fields: FieldsShape::Arbitrary {
            offsets: one(alloc, Size::ZERO),
            in_memory_order: one(alloc, first),
        },
        variants: Variants::Multiple {
            tag,
            tag_encoding: TagEncoding::Direct,
            tag_field: first,
            variants,
        },
        backend_repr: whole.view,
        largest_niche: Niche::from_scalar(dl, Size::ZERO, tag),
        uninhabited: summary.uninhabited,
        align: AbiAlign::new(whole.align),
        size: whole.size,
        max_repr_align,
        unadjusted_abi_align,
        repr_c: repr.c(),
        randomization_seed,
    })
}

/// The layout of an enum whose variants have these lists behind a tag, which is asked for as this integer, signed or not,
/// and holds these discriminants.
fn layout_of_lists<FieldIdx: Idx, VariantIdx: Idx, F: LayoutHandle<FieldIdx, VariantIdx> + Copy>(
    alloc: Global,
    dl: &TargetDataLayout,
    variants: &[IndexVec<FieldIdx, F>],
    repr: &ReprOptions,
    request: TagRequest<'_>,
    lists: UnivariantLayouts<FieldIdx, VariantIdx>,
) -> Result<LayoutData<FieldIdx, VariantIdx>, LayoutCalculatorError<F>>
    requires data_layout { IsLawfulDataLayout dl.now }
    requires fields { All (All (λ f. IsLawfulLayout dl.now (F.layout_of f))) variants.now }
    requires lists { AreListsOf variants.now lists }
    requires lawful { All (IsLawfulLayout dl.now) lists }
    requires count { length variants.now ≤ VariantIdx.MAX_INDEX + 1 }
    ensures exact { IfOk result (IsTaggedBy FieldIdx.number (FieldIdx.at 0) dl.now repr.now request.entry.integer
        request.entry.is_signed request.entry.values.now (map (map F.layout_of) variants.now) lists) }
    ensures fault { IfErr result (λ e.
        ((size_bound dl.now ≤ lists_size dl.now lists) × (e ≡ LayoutCalculatorError.SizeOverflow)) ⊎
        (e ≡ LayoutCalculatorError.OutOfMemory)) }
{
    let align = lists_align(dl, &lists);
    let Some(size) = bounded_size(dl, &lists, align) else {
        return Err(LayoutCalculatorError::SizeOverflow);
    };
    let integer = grown_tag(dl, repr, request.integer, start_align(variants, &lists));
    let range = tag_range(alloc, integer.size(), request.values)?;
    let tag = Scalar::Initialized {
        value: Primitive::Int(integer, request.is_signed),
        valid_range: range,
    };
    let view = tagged_view(
        dl,
        tag,
        size,
        align,
        request.integer.size(),
        variants,
        &lists,
    );
    let whole = EnumExtent { view, align, size };
    match layout_with_view(alloc, dl, repr, request.integer.size(), tag, whole, lists) {
        Ok(layout) => Ok(layout),
        Err(error) => Err(error.into()),
    }
}

impl<Cx: HasDataLayout> LayoutCalculator<Cx> {
    /// The layout of an enum with a tag, which is asked for as this integer and holds these discriminants, those that
    /// count: the variants' fields are lists behind the tag, and where their layout is free it grows up to their first
    /// fields.
    ///
    /// Refused as the first variant is whose fields have no layout, and as `SizeOverflow` where the greatest list's
    /// size, rounded up, isn't below the bound. `OutOfMemory` may come at any time.
    pub(crate) fn layout_of_tagged<
        FieldIdx: Idx,
        VariantIdx: Idx,
        F: LayoutHandle<FieldIdx, VariantIdx> + Copy,
    >(
        &self,
        alloc: Global,
        variants: &[IndexVec<FieldIdx, F>],
        repr: &ReprOptions,
        tag: TagRequest<'_>,
    ) -> Result<LayoutData<FieldIdx, VariantIdx>, LayoutCalculatorError<F>>
        requires data_layout { IsLawfulDataLayout (Cx.target self.now.cx) }
        requires fields { All (All (λ f. IsLawfulLayout (Cx.target self.now.cx)
            (F.layout_of f))) variants.now }
        requires count { length variants.now ≤ VariantIdx.MAX_INDEX + 1 }
        requires repr { HasLawfulAligns repr.now }
        requires unpacked { repr.now.pack ≡ None }
        requires some { 0 < length variants.now }
        ensures exact { IsTaggedAnswer F.layout_of FieldIdx.at FieldIdx.number (VariantIdx.at 0)
            (Cx.target self.now.cx) repr.now tag.entry.integer tag.entry.is_signed tag.entry.values.now variants.now result }
        ensures lawful { IfOk result (IsLawfulLayout (Cx.target self.now.cx)) }
        ensures within { IfOk result
            (λ l. All (λ fields. length fields ≤ FieldIdx.MAX_INDEX + 1) variants.now) }
        ensures placed { IfOk result (IsPlacedByTag (Cx.target self.now.cx) tag.entry.integer tag.entry.values.now
            (map (map F.layout_of) variants.now)) }
        ensures sized { IsSizedByTag F.layout_of FieldIdx.at (VariantIdx.at 0)
            (Cx.target self.now.cx) repr.now tag.entry.integer variants.now result }
    {
        let dl = self.cx.data_layout();
        let kind = behind_tag(dl, repr, tag.integer, variants);
        match self.lists_of_variants(alloc, variants, repr, &kind) {
            Ok(lists) => layout_of_lists(alloc, dl, variants, repr, tag, lists),
            Err(error) => Err(error),
        }
    }
}
