//! A tag that grows into the space before the variants' fields.

ghost use Rattle.std.specs.Prelude.{◌≡◌, ◌+◌, ◌≤◌, IfOk, None, OnOk, Some, length, map, min, slice_get, unwrap_or};
ghost use Rattle.abi_univariant.specs.Part.{max_align};
ghost use Rattle.abi_calc.specs.Enums.Growth.{align_or, first_align, grown_tag, grown_variant, moved_offset, start_align};
ghost use Rattle.abi_calc.specs.Enums.Lists.{AreListsOf};

use crate::enums::strategy::{is_free, takes_no_room};
use abi_base::{Align, Integer, Size, TargetDataLayout};
use abi_index::{Idx, IndexVec};
use abi_scalar::{LayoutData, LayoutHandle, ReprOptions, VariantLayout};
use abi_univariant::UnivariantLayouts;
use std::alloc::{AllocError, Global};

/// The field's alignment, if it takes room.
fn room_align<FieldIdx: Idx, VariantIdx: Idx>(
    field: &LayoutData<FieldIdx, VariantIdx>,
) -> Option<Align>
    ensures { result ≡ align_or (Some field.now) None }
{
    if takes_no_room(field) {
        None
    } else {
        Some(field.align.abi)
    }
}

/// The alignment of the field at this place, where there is one that takes room.
pub(crate) fn align_at<FieldIdx: Idx, VariantIdx: Idx, F: LayoutHandle<FieldIdx, VariantIdx>>(
    fields: &[F],
    index: usize,
) -> Option<Align>
    ensures { result ≡ align_or (slice_get (map F.layout_of fields.now) index) None }
{
    match fields.get(index) {
        Some(field) => room_align(field.layout()),
        None => None,
    }
}

/// The alignment of the first field in memory order that takes room.
fn first_align<FieldIdx: Idx, VariantIdx: Idx, F: LayoutHandle<FieldIdx, VariantIdx>>(
    fields: &[F],
    order: &[FieldIdx],
) -> Option<Align>
    ensures { result ≡ first_align (map F.layout_of fields.now) (map FieldIdx.number order.now) }
{
    for index in order {
        if let Some(align) = align_at(fields, index.index()) {
            return Some(align);
        }
    }
    None
}

/// The lesser of the two, the first where there is no second; the first is an alignment that a type can have.
fn least_with(least: Align, other: Option<Align>) -> Align
    requires { least ≤ max_align }
    ensures { result ≡ min least (unwrap_or other max_align) }
{
    match other {
        Some(other) => least.min(other),
        None => least,
    }
}

/// The least of those alignments over the variants, whose lists these are; where no variant has one the greatest there
/// is, which no integer has.
pub(crate) fn start_align<FieldIdx: Idx, VariantIdx: Idx, F: LayoutHandle<FieldIdx, VariantIdx>>(
    variants: &[IndexVec<FieldIdx, F>],
    lists: &UnivariantLayouts<FieldIdx, VariantIdx>,
) -> Align
    requires { AreListsOf variants.now lists.now }
    ensures { result ≡ start_align FieldIdx.number (map (map F.layout_of) variants.now) lists.now }
{
    let mut least = Align::MAX;
    for index in 0..lists.len() {
        let fields = variants[index].as_slice().as_raw();
        let first = first_align(fields, lists.at(index).in_memory_order());
        least = least_with(least, first);
    }
    least
}

/// The tag's integer: the one that was asked for, or where the layout is free a larger one of this size and alignment.
pub(crate) fn grown_tag(
    dl: &TargetDataLayout,
    repr: &ReprOptions,
    asked: Integer,
    start: Align,
) -> Integer
    ensures { result ≡ grown_tag dl.now repr.now asked start }
{
    if !is_free(repr) {
        return asked;
    }
    match Integer::for_align(dl, start) {
        Some(integer) if integer.size() > asked.size() => integer,
        _ => asked,
    }
}

/// Where a field lies beside a tag that grew from the old size to the new one.
pub(crate) fn moved_offset(old: Size, new: Size, offset: Size) -> Size
    ensures { result ≡ moved_offset old new offset }
{
    if offset == old { new } else { offset }
}

/// These offsets beside a tag that grew.
fn moved_offsets<FieldIdx: Idx>(
    alloc: Global,
    old: Size,
    new: Size,
    offsets: &[Size],
) -> Result<IndexVec<FieldIdx, Size>, AllocError>
    requires { length offsets.now ≤ FieldIdx.MAX_INDEX + 1 }
    ensures { IfOk result (λ list. list ≡ map (moved_offset old new) offsets.now) }
{
    let mut list = IndexVec::with_capacity(alloc, offsets.len())?;
    for offset in offsets {
        let _index = list.push(moved_offset(old, new, *offset))?;
    }
    Ok(list)
}

/// Lays the variant out beside a tag that grew from the old size to the new one.
pub(crate) fn grow_variant<FieldIdx: Idx>(
    alloc: Global,
    old: Size,
    new: Size,
    variant: &mut VariantLayout<FieldIdx>,
) -> Result<(), AllocError>
    ensures { OnOk result (variant.new ≡ grown_variant old new variant.old) }
{
    if old < new {
        variant.field_offsets = moved_offsets(
            alloc,
            old,
            new,
            variant.field_offsets.as_slice().as_raw(),
        )?;
        variant.size = variant.size.max(new);
    }
    Ok(())
}
