//! The layout of an enum whose tag lies in a niche of one variant.

ghost use Rattle.std.specs.Prelude.{◌≡◌, ◌==◌, ◌&&◌, ◌||◌, ◌+◌, ◌++◌, ◌∷◌, ◌^◌, ◌<◌, ◌≤◌, [], All, IfOk, List, MatchOption, OnOk, Some, false, if◌then◌else◌, length, map, nat_le, not, true, ℕ};
ghost use Rattle.abi_univariant.specs.Part.{max_align};
ghost use Rattle.abi_calc.specs.Enums.EnumStrategy.{is_absent};
ghost use Rattle.abi_calc.specs.Enums.Niche.{IsRoomy, IsSmallList, beside_niche, moved_on, needing_numbers, others_empty, place_after, span_of, untagged_of, variants_from, view_with};

use crate::enums::strategy::is_absent;
use abi_base::{Align, Size};
use abi_index::{Idx, IndexList, IndexVec};
use abi_scalar::variant_parts::forget_niche;
use abi_scalar::{BackendRepr, LayoutHandle, Scalar, VariantLayout};
use abi_univariant::{FieldsRef, UnivariantLayouts, round_up};
use std::alloc::{AllocError, Global};

/// Where a niche of the untagged variant leaves room.
#[derive(Clone, Copy)]
pub struct Room {
    /// The bytes before the niche.
    pub before: Size,
    /// Where the niche ends.
    pub after: Size,
    /// The size of the whole enum.
    pub whole: Size,
}

/// Whether this list is no smaller than the other.
fn reaches<FieldIdx: Idx, VariantIdx: Idx>(
    list: &FieldsRef<'_, FieldIdx, VariantIdx>,
    other: &FieldsRef<'_, FieldIdx, VariantIdx>,
) -> bool
    ensures { result ≡ nat_le other.now.size list.now.size }
{
    list.size() >= other.size()
}

/// The variant to which no number is given: the last of those whose lists are greatest.
pub(crate) fn untagged_of<FieldIdx: Idx, VariantIdx: Idx>(
    lists: &UnivariantLayouts<FieldIdx, VariantIdx>,
) -> usize
    ensures { result ≡ untagged_of lists.now }
{
    let mut untagged = 0;
    for index in 1..lists.len() {
        if reaches(&lists.at(index), &lists.at(untagged)) {
            untagged = index;
        }
    }
    untagged
}

/// Whether the variant at this place, with these fields, needs a number.
fn needs_number<FieldIdx: Idx, VariantIdx: Idx, F: LayoutHandle<FieldIdx, VariantIdx>>(
    untagged: usize,
    index: usize,
    fields: &[F],
) -> bool
    ensures { result ≡ (not (index == untagged) && not (is_absent (map F.layout_of fields.now))) }
{
    index != untagged && !is_absent(fields)
}

/// The first and the last of some places, with one more behind them.
fn span_to(span: Option<(usize, usize)>, index: usize) -> Option<(usize, usize)>
    ensures { (places : List ℕ) → span ≡ span_of places → result ≡ span_of (places ++ index ∷ []) }
{
    match span {
        None => Some((index, index)),
        Some((first, _)) => Some((first, index)),
    }
}

/// The first and the last of the variants that need a number.
pub(crate) fn span_of<FieldIdx: Idx, VariantIdx: Idx, F: LayoutHandle<FieldIdx, VariantIdx>>(
    untagged: usize,
    variants: &[IndexVec<FieldIdx, F>],
) -> Option<(usize, usize)>
    ensures { result ≡ span_of (needing_numbers untagged (map (map F.layout_of) variants.now)) }
{
    let mut span = None;
    for index in 0..variants.len() {
        if needs_number(untagged, index, variants[index].as_slice().as_raw()) {
            span = span_to(span, index);
        }
    }
    span
}

/// These offsets, so many bytes further on.
fn moved_offsets<FieldIdx: Idx>(
    alloc: Global,
    by: Size,
    offsets: &[Size],
) -> Result<IndexVec<FieldIdx, Size>, AllocError>
    requires count { length offsets.now ≤ FieldIdx.MAX_INDEX + 1 }
    requires fits { All (λ o. by + o < 2 ^ 64) offsets.now }
    ensures { IfOk result (λ list. list ≡ map (λ o. by + o) offsets.now) }
{
    let mut list = IndexVec::with_capacity(alloc, offsets.len())?;
    for offset in offsets {
        let _index = list.push(by + *offset)?;
    }
    Ok(list)
}

/// Moves a variant so many bytes on, without its niche. It is bytes in memory unless it has no values.
fn move_on<FieldIdx: Idx>(
    alloc: Global,
    by: Size,
    variant: &mut VariantLayout<FieldIdx>,
) -> Result<(), AllocError>
    requires fits { by + variant.old.size < 2 ^ 64 }
    requires inside { All (λ o. o ≤ variant.old.size) variant.old.field_offsets }
    ensures { OnOk result (variant.new ≡ moved_on by variant.old) }
{
    variant.field_offsets = moved_offsets(alloc, by, variant.field_offsets.as_slice().as_raw())?;
    forget_niche(variant);
    if !variant.is_uninhabited() {
        variant.backend_repr = BackendRepr::Memory { sized: true };
    }
    variant.size = by + variant.size;
    Ok(())
}

/// Where a variant of this alignment begins that doesn't end before the niche.
fn place_after(room: &Room, align: Align) -> Size
    requires roomy { IsRoomy room.now }
    requires align { align ≤ max_align }
    ensures value { result ≡ place_after room.now align }
    ensures bound { result < 2 ^ 63 }
{
    round_up(room.after, align)
}

/// Places a variant of this alignment beside the niche, if there is room for it. Whether there is.
fn place_beside<FieldIdx: Idx>(
    alloc: Global,
    room: &Room,
    align: Align,
    variant: &mut VariantLayout<FieldIdx>,
) -> Result<bool, AllocError>
    requires roomy { IsRoomy room.now }
    requires align { align ≤ max_align }
    requires small { variant.old.size < 2 ^ 62 }
    requires inside { All (λ o. o ≤ variant.old.size) variant.old.field_offsets }
    ensures { IfOk result (λ has_room. MatchOption (beside_niche room.now align variant.old)
        (has_room ≡ false) (λ placed. (has_room ≡ true) × (variant.new ≡ placed))) }
{
    if variant.size <= room.before {
        forget_niche(variant);
        return Ok(true);
    }
    let place = place_after(room, align);
    if place + variant.size > room.whole {
        return Ok(false);
    }
    move_on(alloc, place, variant)?;
    Ok(true)
}

/// Places the variant at an index: the untagged one stays as it is, another one comes beside its niche, if there is
/// room for it. Whether there is.
fn place_at<FieldIdx: Idx>(
    alloc: Global,
    room: &Room,
    untagged: usize,
    at: usize,
    align: Align,
    variant: &mut VariantLayout<FieldIdx>,
) -> Result<bool, AllocError>
    requires roomy { IsRoomy room.now }
    requires align { align ≤ max_align }
    requires small { variant.old.size < 2 ^ 62 }
    requires inside { All (λ o. o ≤ variant.old.size) variant.old.field_offsets }
    ensures { IfOk result (λ has_room. MatchOption
        (if at == untagged then Some variant.old else beside_niche room.now align variant.old)
        (has_room ≡ false) (λ placed. (has_room ≡ true) × (variant.new ≡ placed))) }
{
    if at == untagged {
        return Ok(true);
    }
    place_beside(alloc, room, align, variant)
}

/// The variants: the untagged one as it is, the others beside its niche, if there is room for each.
pub(crate) fn placed_variants<FieldIdx: Idx, VariantIdx: Idx>(
    alloc: Global,
    room: &Room,
    untagged: usize,
    lists: UnivariantLayouts<FieldIdx, VariantIdx>,
) -> Result<Option<IndexList<VariantIdx, VariantLayout<FieldIdx>>>, AllocError>
    requires roomy { IsRoomy room.now }
    requires small { All IsSmallList lists }
    requires count { length lists ≤ VariantIdx.MAX_INDEX + 1 }
    ensures { IfOk result (λ variants. variants ≡ variants_from room.now untagged 0 lists) }
{
    let (mut variants, rests) = lists.into_parts();
    for (at, variant) in variants.iter_mut().enumerate() {
        if !place_at(alloc, room, untagged, at, rests[at].align(), variant)? {
            return Ok(None);
        }
    }
    Ok(Some(IndexList::from_raw(variants)))
}

/// The untagged variant's view, with the numbers of the others.
pub(crate) fn view_with(offset: Size, tag: Scalar, view: BackendRepr) -> BackendRepr
    ensures { result ≡ view_with offset tag view }
{
    match view {
        BackendRepr::Scalar(_) => BackendRepr::Scalar(tag),
        BackendRepr::ScalarPair { a, b, b_offset } => {
            if offset == Size::ZERO {
                BackendRepr::ScalarPair {
                    a: tag,
                    b: b.to_union(),
                    b_offset,
                }
            } else {
                BackendRepr::ScalarPair {
                    a: a.to_union(),
                    b: tag,
                    b_offset,
                }
            }
        }
        _ => BackendRepr::Memory { sized: true },
    }
}

/// Whether the variant at this place is the untagged one, or has no bytes.
fn stays_empty<FieldIdx: Idx>(
    untagged: usize,
    index: usize,
    variant: &VariantLayout<FieldIdx>,
) -> bool
    ensures { result ≡ ((index == untagged) || (variant.now.size == 0)) }
{
    index == untagged || variant.size == Size::ZERO
}

/// Whether all variants but the untagged one have no bytes.
pub(crate) fn others_empty<FieldIdx: Idx>(
    untagged: usize,
    variants: &[VariantLayout<FieldIdx>],
) -> bool
    ensures { result ≡ others_empty untagged 0 variants.now }
{
    for index in 0..variants.len() {
        if !stays_empty(untagged, index, &variants[index]) {
            return false;
        }
    }
    true
}
