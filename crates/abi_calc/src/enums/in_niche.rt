//! Enums whose tag lies in a niche of one variant: whether there is such a layout, and which.

ghost use Rattle.std.specs.Prelude.{◌≡◌, ◌+◌, ◌^◌, ◌<◌, ◌≤◌, ◌≢◌, ◌==◌, ◌&&◌, All, IfErr, IfOk, IfSome, MatchBool, Some, true, length, map, slice_get, if◌then◌else◌};
ghost use Rattle.abi_base.specs.DataLayout.{IsLawfulDataLayout};
ghost use Rattle.abi_scalar.specs.Lawful.{IsLawfulLayout};
ghost use Rattle.abi_scalar.specs.declared.backend_repr.BackendRepr.TheVariants.{Memory};
ghost use Rattle.abi_scalar.specs.declared.variants.TagEncoding.TheVariants.{Niche as InNiche};
ghost use Rattle.abi_scalar.specs.Niche.{IsWellFormedNiche, niche_size};
ghost use Rattle.abi_scalar.specs.Reserve.{reserved};
ghost use Rattle.abi_scalar.specs.Scalar.{IsLawfulScalar};
ghost use Rattle.abi_univariant.specs.List.{HasLawfulAligns};
ghost use Rattle.abi_calc.specs.Enums.Choice.{IsNicheAnswer};
ghost use Rattle.abi_calc.specs.Enums.Lists.{AreGoodLists, AreListLayouts};
ghost use Rattle.abi_calc.specs.Enums.Niche.{IsRoomy, IsSmallList, if_placed, niche_layout, niche_of_list, others_empty, room_beside, span_count, variants_from, view_with};

use crate::calculator::LayoutCalculator;
use crate::enums::niche::{Room, others_empty, placed_variants, span_of, untagged_of, view_with};
use crate::enums::strategy::is_free;
use crate::enums::tagged::{lists_align, lists_size};
use abi_base::{AbiAlign, Align, HasDataLayout, Size, StructKind, TargetDataLayout};
use abi_index::{Idx, IndexList, IndexVec};
use abi_scalar::{
    BackendRepr, FieldsShape, LayoutCalculatorError, LayoutData, LayoutHandle, Niche,
    RangeInclusive, ReprOptions, Scalar, TagEncoding, VariantLayout, Variants,
};
use abi_univariant::{FieldsRef, UnivariantLayouts, one};
use std::alloc::{AllocError, Global};

/// The room beside a niche of the untagged variant, in an enum of this size.
fn room_beside(dl: &TargetDataLayout, niche: Niche, whole: Size) -> Room
    requires readable { IsWellFormedNiche dl.now niche }
    requires offset { niche.offset < 2 ^ 61 }
    ensures before { result.before ≡ niche.offset }
    ensures after { result.after ≡ niche.offset + niche_size dl.now niche }
    ensures whole { result.whole ≡ whole }
    ensures roomy { IsRoomy result }
{
    Room {
        before: niche.offset,
        after: niche.offset + niche.value.size(dl),
        whole,
    }
}

/// How a variant is named: by the numbers from the first that is handed out on, in the span; else it is the untagged
/// one.
fn niche_encoding<VariantIdx: Idx>(
    untagged: usize,
    span: (usize, usize),
    start: u128,
) -> TagEncoding<VariantIdx>
    requires untagged { untagged ≤ VariantIdx.MAX_INDEX }
    requires first { span.0 ≤ VariantIdx.MAX_INDEX }
    requires last { span.1 ≤ VariantIdx.MAX_INDEX }
    ensures { result ≡ InNiche (VariantIdx.at untagged)
        (record { start = VariantIdx.at span.0; last = VariantIdx.at span.1 }) start }
{
    TagEncoding::Niche {
        untagged_variant: VariantIdx::new(untagged),
        niche_variants: RangeInclusive {
            start: VariantIdx::new(span.0),
            last: VariantIdx::new(span.1),
        },
        niche_start: start,
    }
}

/// How a code generator sees the enum, whose untagged variant may fill it.
fn niche_view<FieldIdx: Idx, VariantIdx: Idx>(
    fills: bool,
    untagged: usize,
    own_view: BackendRepr,
    offset: Size,
    tag: Scalar,
    variants: &IndexList<VariantIdx, VariantLayout<FieldIdx>>,
) -> BackendRepr
    ensures { result ≡ (if fills && others_empty untagged 0 variants.now then view_with offset tag
        own_view else Memory true) }
{
    if fills && others_empty(untagged, variants.as_slice().as_raw()) {
        view_with(offset, tag, own_view)
    } else {
        BackendRepr::Memory { sized: true }
    }
}

/// Whether the list fills an enum of this size and alignment.
fn fills<FieldIdx: Idx, VariantIdx: Idx>(
    list: &FieldsRef<'_, FieldIdx, VariantIdx>,
    size: Size,
    align: Align,
) -> bool
    ensures { result ≡ ((size == list.now.size) && (align == list.now.align.abi)) }
{
    size == list.size() && align == list.align()
}

/// Whether the list at a place fills an enum of this size and alignment, and its view.
fn untagged_view<FieldIdx: Idx, VariantIdx: Idx>(
    lists: &UnivariantLayouts<FieldIdx, VariantIdx>,
    untagged: usize,
    size: Size,
    align: Align,
) -> (bool, BackendRepr)
    requires { untagged < length lists.now }
    ensures fills { (list : LayoutData FieldIdx VariantIdx) → slice_get lists.now untagged ≡ Some
        list → result.0 ≡ ((size == list.size) && (align == list.align.abi)) }
    ensures view { (list : LayoutData FieldIdx VariantIdx) →
        slice_get lists.now untagged ≡ Some list → result.1 ≡ list.backend_repr }
{
    let list = lists.at(untagged);
    (fills(&list, size, align), list.backend_repr())
}

/// The variants that a niche distinguishes: the one that has the niche, and the first and the last of the others.
#[derive(Clone, Copy)]
struct NicheVariants {
    untagged: usize,
    span: (usize, usize),
}

/// The layout with this niche of the untagged variant, from which these numbers are handed out, if there is room for
/// each other variant.
fn layout_in_niche<FieldIdx: Idx, VariantIdx: Idx>(
    alloc: Global,
    dl: &TargetDataLayout,
    repr: &ReprOptions,
    among: NicheVariants,
    niche: Niche,
    handed: (u128, Scalar),
    lists: UnivariantLayouts<FieldIdx, VariantIdx>,
) -> Result<Option<LayoutData<FieldIdx, VariantIdx>>, AllocError>
    requires data_layout { IsLawfulDataLayout dl.now }
    requires lawful { All (IsLawfulLayout dl.now) lists }
    requires small { All IsSmallList lists }
    requires count { length lists ≤ VariantIdx.MAX_INDEX + 1 }
    requires untagged { among.untagged < length lists }
    requires first { among.span.0 ≤ VariantIdx.MAX_INDEX }
    requires last { among.span.1 ≤ VariantIdx.MAX_INDEX }
    requires readable { IsWellFormedNiche dl.now niche }
    requires offset { niche.offset < 2 ^ 61 }
    requires handed { handed ≡ reserved dl.now niche (span_count among.span) }
    requires tag { IsLawfulScalar dl.now handed.1 }
    ensures { IfOk result (λ found. (list : LayoutData FieldIdx VariantIdx) →
        slice_get lists among.untagged ≡ Some list → found ≡ if_placed
        (FieldIdx.at 0) VariantIdx.at dl.now repr.now among.untagged among.span lists list niche
        (variants_from (room_beside dl.now niche lists) among.untagged 0 lists)) }
{
    let untagged = among.untagged;
    let align = lists_align(dl, &lists);
    let size = lists_size(dl, &lists, align);
    let (fills, own_view) = untagged_view(&lists, untagged, size, align);
    let summary = lists.summary();
    let max_repr_align = summary.max_repr_align_with(repr.align);
    let unadjusted_abi_align = summary.unadjusted_align_with(dl.aggregate_align);
    let randomization_seed = summary.seed_with(repr.field_shuffle_seed);
    let offset = niche.offset;
    let room = room_beside(dl, niche, size);
    let Some(variants) = placed_variants(alloc, &room, untagged, lists)? else {
        return Ok(None);
    };
    let (start, tag) = handed;
    let backend_repr = niche_view(fills, untagged, own_view, offset, tag, &variants);
    let first = FieldIdx::new(0);
    Ok(Some(LayoutData {
        fields: FieldsShape::Arbitrary {
            offsets: one(alloc, offset),
            in_memory_order: one(alloc, first),
        },
        variants: Variants::Multiple {
            tag,
            tag_encoding: niche_encoding(untagged, among.span, start),
            tag_field: first,
            variants,
        },
        backend_repr,
        largest_niche: Niche::from_scalar(dl, offset, tag),
        uninhabited: summary.uninhabited,
        align: AbiAlign::new(align),
        size,
        max_repr_align,
        unadjusted_abi_align,
        repr_c: repr.c(),
        randomization_seed,
    }))
}

/// The greatest niche of the list at a place.
fn niche_at<FieldIdx: Idx, VariantIdx: Idx>(
    lists: &UnivariantLayouts<FieldIdx, VariantIdx>,
    place: usize,
) -> Option<Niche>
    ensures { result ≡ niche_of_list (slice_get lists.now place) }
{
    if place < lists.len() {
        lists.at(place).largest_niche()
    } else {
        None
    }
}

/// How many numbers the variants from the first of these places to the last take.
fn span_count(span: (usize, usize)) -> u128
    requires { span.0 ≤ span.1 }
    ensures { result ≡ span_count span }
{
    (span.1 - span.0) as u128 + 1
}

/// The layout with a niche, where there is one, of variants whose fields have these layouts as always sized lists.
pub(crate) fn niche_of_lists<FieldIdx: Idx, VariantIdx: Idx, F: LayoutHandle<FieldIdx, VariantIdx>>(
    alloc: Global,
    dl: &TargetDataLayout,
    repr: &ReprOptions,
    variants: &[IndexVec<FieldIdx, F>],
    lists: UnivariantLayouts<FieldIdx, VariantIdx>,
) -> Result<Option<LayoutData<FieldIdx, VariantIdx>>, AllocError>
    requires data_layout { IsLawfulDataLayout dl.now }
    requires lawful { All (IsLawfulLayout dl.now) lists }
    requires small { All IsSmallList lists }
    requires count { length lists ≤ VariantIdx.MAX_INDEX + 1 }
    requires each { length lists ≡ length variants.now }
    ensures { IfOk result (λ found. found ≡ niche_layout
        (FieldIdx.at 0) VariantIdx.at dl.now repr.now (map (map F.layout_of) variants.now) lists) }
{
    let untagged = untagged_of(&lists);
    let Some(span) = span_of(untagged, variants) else {
        return Ok(None);
    };
    let Some(niche) = niche_at(&lists, untagged) else {
        return Ok(None);
    };
    let Some(handed) = niche.reserve(dl, span_count(span)) else {
        return Ok(None);
    };
    let among = NicheVariants { untagged, span };
    layout_in_niche(alloc, dl, repr, among, niche, handed, lists)
}

/// Whether memory was refused.
fn wants_memory<H>(error: &LayoutCalculatorError<H>) -> bool
    ensures { MatchBool result (error.now ≡ LayoutCalculatorError.OutOfMemory)
        (error.now ≢ LayoutCalculatorError.OutOfMemory) }
{
    matches!(error, LayoutCalculatorError::OutOfMemory)
}

impl<Cx: HasDataLayout> LayoutCalculator<Cx> {
    /// The layout of an enum with a niche, where there is one: none where C or an integer is asked for, or where some
    /// variant's fields have no layout as an always sized list. Only that memory ran out is an error.
    pub(crate) fn layout_of_niche<
        FieldIdx: Idx,
        VariantIdx: Idx,
        F: LayoutHandle<FieldIdx, VariantIdx> + Copy,
    >(
        &self,
        alloc: Global,
        variants: &[IndexVec<FieldIdx, F>],
        repr: &ReprOptions,
    ) -> Result<Option<LayoutData<FieldIdx, VariantIdx>>, LayoutCalculatorError<F>>
        requires data_layout { IsLawfulDataLayout (Cx.target self.now.cx) }
        requires fields { All (All (λ f. IsLawfulLayout (Cx.target self.now.cx)
            (F.layout_of f))) variants.now }
        requires count { length variants.now ≤ VariantIdx.MAX_INDEX + 1 }
        requires repr { HasLawfulAligns repr.now }
        ensures exact { IfOk result (IsNicheAnswer AreListLayouts F.layout_of FieldIdx.at
            VariantIdx.at (Cx.target self.now.cx) repr.now variants.now) }
        ensures good { IfOk result (IsNicheAnswer AreGoodLists F.layout_of FieldIdx.at VariantIdx.at
            (Cx.target self.now.cx) repr.now variants.now) }
        ensures within { IfOk result (λ found. IfSome found
            (λ l. All (λ fields. length fields ≤ FieldIdx.MAX_INDEX + 1) variants.now)) }
        ensures memory { IfErr result (λ e. e ≡ LayoutCalculatorError.OutOfMemory) }
    {
        if !is_free(repr) {
            return Ok(None);
        }
        match self.lists_of_variants(alloc, variants, repr, &StructKind::AlwaysSized) {
            Ok(lists) => {
                let dl = self.cx.data_layout();
                match niche_of_lists(alloc, dl, repr, variants, lists) {
                    Ok(found) => Ok(found),
                    Err(error) => Err(error.into()),
                }
            }
            Err(error) => {
                if wants_memory(&error) {
                    return Err(LayoutCalculatorError::OutOfMemory);
                }
                Ok(None)
            }
        }
    }
}
