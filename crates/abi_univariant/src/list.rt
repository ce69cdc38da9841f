//! Lists of fields, one after another in memory.

ghost use Rattle.std.specs.Prelude.{◌≡◌, ◌+◌, ◌<◌, ◌≤◌, All, IfOk, length, map};
ghost use Rattle.std.specs.List.{list_any};
ghost use Rattle.abi_index.specs.Slice.{items_of};
ghost use Rattle.abi_base.specs.DataLayout.{IsLawfulDataLayout, size_bound};
ghost use Rattle.abi_scalar.specs.declared.fields_shape.FieldsShape.TheVariants.{Arbitrary};
ghost use Rattle.abi_scalar.specs.declared.variants.Variants.TheVariants.{Single};
ghost use Rattle.abi_scalar.specs.Lawful.{IsLawfulLayout};
ghost use Rattle.abi_scalar.specs.Repr.{is_abi_fixed};
ghost use Rattle.abi_univariant.specs.Fault.{IsErrorOf, IsFaultIndex};
ghost use Rattle.abi_univariant.specs.Fields.{greatest_repr_align, lies_as_in_c};
ghost use Rattle.abi_univariant.specs.List.{HasLawfulAligns, IsUnivariantAnswer, list_seed, unadjusted_of};
ghost use Rattle.abi_univariant.specs.ListView.{bulk_of, bulky_parts, list_view};
ghost use Rattle.abi_univariant.specs.Part.{parts_of};
ghost use Rattle.abi_univariant.specs.Run.{IsInOrder};
ghost use Rattle.abi_univariant.specs.Placement.{IsWellFormedPrefix, IsNonEmptyIfUnsized, align_of, fields_repr};

use crate::fields::{greatest_repr_align, lies_as_in_c, seed_with};
use crate::fields_repr::{FieldsRepr, fields_repr, unraised_repr};
use crate::list_view::{Bulk, bulk_of, list_view, transparent_align};
use crate::order::movable_front;
use crate::part::Parts;
use crate::placing::{FieldsFault, list_align};
use crate::run::{PlacedList, layout_of_parts};
use crate::univariant_layout::UnivariantLayout;
use abi_base::{Align, Size, StructKind, TargetDataLayout};
use abi_index::{Idx, IndexSlice, IndexVec};
use abi_scalar::{LayoutCalculatorError, LayoutData, LayoutHandle, ReprOptions};
use std::alloc::{AllocError, Global};

/// Whether some field is marked as having no values, and so the list has none.
pub fn any_uninhabited<FieldIdx: Idx, VariantIdx: Idx, F: LayoutHandle<FieldIdx, VariantIdx>>(
    fields: &[F],
) -> bool
    ensures { result ≡ list_any (λ f. f.uninhabited) (map F.layout_of fields.now) }
{
    for field in fields {
        if field.layout().uninhabited {
            return true;
        }
    }
    false
}

/// These offsets, as those of fields.
pub fn field_offsets<FieldIdx: Idx>(
    alloc: Global,
    offsets: &[Size],
) -> Result<IndexVec<FieldIdx, Size>, AllocError>
    requires { length offsets.now ≤ FieldIdx.MAX_INDEX + 1 }
    ensures { IfOk result (λ list. list ≡ offsets.now) }
{
    let mut list = IndexVec::with_capacity(alloc, offsets.len())?;
    for offset in offsets {
        let _index = list.push(*offset)?;
    }
    Ok(list)
}

/// The error that names a fault.
pub(crate) fn error_of<F: Copy>(fields: &[F], fault: FieldsFault) -> LayoutCalculatorError<F>
    requires { IsFaultIndex (length fields.now) fault }
    ensures { IsErrorOf fields.now fault result }
{
    match fault {
        FieldsFault::Unsized(index) => LayoutCalculatorError::UnexpectedUnsized(fields[index]),
        FieldsFault::TooLarge => LayoutCalculatorError::SizeOverflow,
        FieldsFault::OutOfMemory => LayoutCalculatorError::OutOfMemory,
    }
}

/// The list's alignment before `repr(align)` raised it.
fn unadjusted_align<FieldIdx: Idx, VariantIdx: Idx, F: LayoutHandle<FieldIdx, VariantIdx>>(
    dl: &TargetDataLayout,
    repr: &ReprOptions,
    list: &FieldsRepr,
    size: Size,
    align: Align,
    parts: &Parts<'_, FieldIdx, VariantIdx, F>,
    bulk: Bulk,
) -> Align
    requires bulk { bulk ≡ bulk_of (bulky_parts parts.now) }
    requires list { list.now ≡ fields_repr dl.now repr.now list.now.kind }
    requires align { align ≡ align_of list.now parts.now }
    ensures { result ≡ unadjusted_of dl.now repr.now list.now.kind size align parts.now }
{
    if repr.transparent() {
        transparent_align(size, align, parts, bulk)
    } else if repr.align.is_none() {
        align
    } else {
        list_align(parts, &unraised_repr(dl, repr, list))
    }
}

/// A list that is placed.
#[inline(always)]
pub(crate) fn list_of_placed<FieldIdx: Idx, VariantIdx: Idx, F: LayoutHandle<FieldIdx, VariantIdx>>(
    dl: &TargetDataLayout,
    fields: &[F],
    repr: &ReprOptions,
    list: &FieldsRepr,
    placed: PlacedList<FieldIdx>,
) -> UnivariantLayout<FieldIdx, VariantIdx>
    requires data_layout { IsLawfulDataLayout dl.now }
    requires fields { All (λ f. IsLawfulLayout dl.now (F.layout_of f)) fields.now }
    requires repr { HasLawfulAligns repr.now }
    requires list { list.now ≡ fields_repr dl.now repr.now list.now.kind }
    requires prefix { IsWellFormedPrefix list.now.kind (size_bound dl.now) }
    requires tail { IsNonEmptyIfUnsized list.now.kind (length fields.now) }
    requires count { length fields.now ≤ FieldIdx.MAX_INDEX + 1 }
    requires placed { IsInOrder dl.now list.now (parts_of dl.now (map F.layout_of fields.now))
        placed.order placed.offsets.items placed.size placed.align placed.largest_niche }
    requires fits { placed.size < size_bound dl.now }
    ensures size { result.size ≡ placed.size }
    ensures align { result.align.abi ≡ placed.align }
    ensures niche { result.largest_niche ≡ placed.largest_niche }
    ensures shape { result.fields ≡ Arbitrary placed.offsets.items (map FieldIdx.at placed.order) }
    ensures variants { result.variants ≡ Single (VariantIdx.at 0) }
    ensures view { result.backend_repr ≡ list_view dl.now (is_abi_fixed repr.now) result.size
        result.align.abi (parts_of dl.now (map F.layout_of fields.now)) placed.offsets.items }
    ensures uninhabited { result.uninhabited
        ≡ list_any (λ f. f.uninhabited) (map F.layout_of fields.now) }
    ensures max_repr_align { result.max_repr_align
        ≡ greatest_repr_align repr.now.align (map F.layout_of fields.now) }
    ensures unadjusted { result.unadjusted_abi_align ≡ unadjusted_of dl.now repr.now list.now.kind
        result.size result.align.abi (parts_of dl.now (map F.layout_of fields.now)) }
    ensures repr_c { result.repr_c ≡ lies_as_in_c repr.now (map F.layout_of fields.now) }
    ensures seed { result.randomization_seed
        ≡ list_seed repr.now list.now.kind (map F.layout_of fields.now) }
    ensures lawful { IsLawfulLayout dl.now result }
{
    let PlacedList {
        offsets,
        order,
        size,
        align,
        largest_niche,
        last_niche: _,
    } = placed;
    let parts: Parts<'_, FieldIdx, VariantIdx, F> = Parts::new(dl, fields);
    let bulk = bulk_of(&parts);
    let fixed = repr.inhibit_newtype_abi_optimization();
    let view = list_view(dl, fixed, size, align, &parts, &offsets, bulk);
    let unadjusted_abi_align = unadjusted_align(dl, repr, list, size, align, &parts, bulk);
    let offsets = IndexVec::from_raw(offsets);
    UnivariantLayout {
        offsets,
        in_memory_order: order.into_fields(),
        index: VariantIdx::new(0),
        backend_repr: view,
        largest_niche,
        uninhabited: any_uninhabited(fields),
        align,
        size,
        max_repr_align: greatest_repr_align(repr.align, fields),
        unadjusted_abi_align,
        repr_c: lies_as_in_c(repr, fields),
        randomization_seed: seed_with(repr.field_shuffle_seed, movable_front(list.kind, fields)),
    }
}

/// These fields as one list.
#[inline(always)]
fn list_of_slice<FieldIdx: Idx, VariantIdx: Idx, F: LayoutHandle<FieldIdx, VariantIdx> + Copy>(
    alloc: Global,
    dl: &TargetDataLayout,
    fields: &[F],
    repr: &ReprOptions,
    list: &FieldsRepr,
) -> Result<UnivariantLayout<FieldIdx, VariantIdx>, LayoutCalculatorError<F>>
    requires data_layout { IsLawfulDataLayout dl.now }
    requires fields { All (λ f. IsLawfulLayout dl.now (F.layout_of f)) fields.now }
    requires repr { HasLawfulAligns repr.now }
    requires list { list.now ≡ fields_repr dl.now repr.now list.now.kind }
    requires prefix { IsWellFormedPrefix list.now.kind (size_bound dl.now) }
    requires tail { IsNonEmptyIfUnsized list.now.kind (length fields.now) }
    requires count { length fields.now ≤ FieldIdx.MAX_INDEX + 1 }
    ensures exact { IsUnivariantAnswer F.layout_of FieldIdx.at
        (VariantIdx.at 0) dl.now repr.now list.now.kind fields.now result }
    ensures lawful { IfOk result (IsLawfulLayout dl.now) }
{
    let parts: Parts<'_, FieldIdx, VariantIdx, F> = Parts::new(dl, fields);
    let placed = match layout_of_parts(alloc, dl, &parts, list) {
        Ok(placed) => placed,
        Err(fault) => return Err(error_of(fields, fault)),
    };
    Ok(list_of_placed(dl, fields, repr, list, placed))
}

/// These fields as one list of this kind, one after another in memory, in an order that the `repr` allows. Where it
/// leaves a choice, the list has the least size of all orders.
///
/// Refused as `UnexpectedUnsized` with a field whose size isn't known beforehand, unless it is the last of a
/// maybe-unsized list, and as `SizeOverflow` where a field's end or the size isn't below the data layout's bound: the
/// first fault in memory order is reported. `OutOfMemory` may come at any time.
pub fn list_of_fields<FieldIdx: Idx, VariantIdx: Idx, F: LayoutHandle<FieldIdx, VariantIdx> + Copy>(
    alloc: Global,
    dl: &TargetDataLayout,
    fields: IndexSlice<'_, FieldIdx, F>,
    repr: &ReprOptions,
    kind: StructKind,
) -> Result<UnivariantLayout<FieldIdx, VariantIdx>, LayoutCalculatorError<F>>
    requires data_layout { IsLawfulDataLayout dl.now }
    requires fields { All (λ f. IsLawfulLayout dl.now (F.layout_of f)) (items_of fields) }
    requires repr { HasLawfulAligns repr.now }
    requires prefix { IsWellFormedPrefix kind (size_bound dl.now) }
    requires tail { IsNonEmptyIfUnsized kind (length (items_of fields)) }
    ensures exact { IsUnivariantAnswer F.layout_of FieldIdx.at (VariantIdx.at 0) dl.now repr.now kind
        (items_of fields.entry) result }
    ensures lawful { IfOk result (IsLawfulLayout dl.now) }
    ensures within { length (items_of fields.entry) ≤ FieldIdx.MAX_INDEX + 1 }
{
    let list = fields_repr(dl, repr, kind);
    list_of_slice(alloc, dl, fields.as_raw(), repr, &list)
}

/// The layout of these fields as `list_of_fields` lays them out, and refused as it refuses them.
pub fn layout_of_fields<
    FieldIdx: Idx,
    VariantIdx: Idx,
    F: LayoutHandle<FieldIdx, VariantIdx> + Copy,
>(
    alloc: Global,
    dl: &TargetDataLayout,
    fields: IndexSlice<'_, FieldIdx, F>,
    repr: &ReprOptions,
    kind: StructKind,
) -> Result<LayoutData<FieldIdx, VariantIdx>, LayoutCalculatorError<F>>
    requires data_layout { IsLawfulDataLayout dl.now }
    requires fields { All (λ f. IsLawfulLayout dl.now (F.layout_of f)) (items_of fields) }
    requires repr { HasLawfulAligns repr.now }
    requires prefix { IsWellFormedPrefix kind (size_bound dl.now) }
    requires tail { IsNonEmptyIfUnsized kind (length (items_of fields)) }
    ensures exact { IsUnivariantAnswer F.layout_of FieldIdx.at (VariantIdx.at 0) dl.now repr.now kind
        (items_of fields.entry) result }
    ensures lawful { IfOk result (IsLawfulLayout dl.now) }
    ensures within { length (items_of fields.entry) ≤ FieldIdx.MAX_INDEX + 1 }
{
    Ok(list_of_fields(alloc, dl, fields, repr, kind)?.into_layout())
}
