//! Lists of fields in an order that is handed in.

ghost use Rattle.std.specs.Prelude.{◌≡◌, ◌↔◌, ◌+◌, ◌≤◌, All, IfOk, IsPermutation, IsTrue, false, length, map};
ghost use Rattle.abi_index.specs.Slice.{items_of};
ghost use Rattle.abi_base.specs.DataLayout.{IsLawfulDataLayout, size_bound};
ghost use Rattle.abi_scalar.specs.Lawful.{IsLawfulLayout};
ghost use Rattle.abi_scalar.specs.Repr.{has_fixed_order};
ghost use Rattle.abi_univariant.specs.InOrder.{IsOrderedAnswer};
ghost use Rattle.abi_univariant.specs.List.{HasLawfulAligns};
ghost use Rattle.abi_univariant.specs.Placement.{IsAllowed, IsWellFormedPrefix, IsNonEmptyIfUnsized, KeepsTail, fields_repr, source_order};

use crate::fields_repr::{FieldsRepr, fields_repr};
use crate::list::{error_of, list_of_placed};
use crate::memory_order::MemoryOrder;
use crate::order::NicheBias;
use crate::part::Parts;
use crate::run::placed_in;
use crate::univariant_layout::UnivariantLayout;
use abi_base::{StructKind, TargetDataLayout};
use abi_index::{Idx, IndexSlice};
use abi_scalar::{LayoutCalculatorError, LayoutData, LayoutHandle, ReprOptions};
use std::alloc::{AllocError, Global};

/// The fields' indices, as numbers.
fn numbers_of<FieldIdx: Idx>(alloc: Global, order: &[FieldIdx]) -> Result<Vec<usize>, AllocError>
    ensures { IfOk result (λ numbers. numbers.items ≡ map FieldIdx.number order.now) }
{
    let mut numbers = Vec::with_capacity(alloc, order.len())?;
    for index in order {
        numbers.push(index.index())?;
    }
    Ok(numbers)
}

/// Whether these are the first `count` numbers, one after another.
fn is_source_order(numbers: &[usize], count: usize) -> bool
    ensures { IsTrue result ↔ (numbers.now ≡ source_order count) }
{
    if numbers.len() != count {
        return false;
    }
    for at in 0..count {
        if numbers[at] != at {
            return false;
        }
    }
    true
}

/// Whether the order names each of `count` fields once.
fn names_each<FieldIdx: Idx>(
    alloc: Global,
    order: &[FieldIdx],
    count: usize,
) -> Result<bool, AllocError>
    ensures { IfOk result (λ each.
        IsTrue each ↔ IsPermutation (source_order count) (map FieldIdx.number order.now)) }
{
    let mut sorted = numbers_of(alloc, order)?;
    sorted.sort_unstable();
    Ok(is_source_order(&sorted, count))
}

/// Whether a last field that may be unsized stays last.
fn keeps_tail<FieldIdx: Idx>(kind: StructKind, order: &[FieldIdx]) -> bool
    requires { IsNonEmptyIfUnsized kind (length order.now) }
    ensures { IsTrue result ↔ KeepsTail kind (length order.now) (map FieldIdx.number order.now) }
{
    match kind {
        StructKind::MaybeUnsized => order[order.len() - 1].index() == order.len() - 1,
        _ => true,
    }
}

/// Whether `count` fields may lie in this order, if they may be moved at all.
fn is_allowed<FieldIdx: Idx>(
    alloc: Global,
    kind: StructKind,
    order: &[FieldIdx],
    count: usize,
) -> Result<bool, AllocError>
    requires { IsNonEmptyIfUnsized kind count }
    ensures { IfOk result (λ allowed. IsTrue allowed ↔ IsPermutation (source_order count)
        (map FieldIdx.number order.now) × KeepsTail kind count (map FieldIdx.number order.now)) }
{
    if !names_each(alloc, order, count)? {
        return Ok(false);
    }
    Ok(keeps_tail(kind, order))
}

/// These fields as a list in this order, which is allowed.
fn list_in_order<FieldIdx: Idx, VariantIdx: Idx, F: LayoutHandle<FieldIdx, VariantIdx> + Copy>(
    alloc: Global,
    dl: &TargetDataLayout,
    fields: &[F],
    repr: &ReprOptions,
    list: &FieldsRepr,
    order: MemoryOrder<FieldIdx>,
) -> Result<UnivariantLayout<FieldIdx, VariantIdx>, LayoutCalculatorError<F>>
    requires data_layout { IsLawfulDataLayout dl.now }
    requires fields { All (λ f. IsLawfulLayout dl.now (F.layout_of f)) fields.now }
    requires repr { HasLawfulAligns repr.now }
    requires list { list.now ≡ fields_repr dl.now repr.now list.now.kind }
    requires prefix { IsWellFormedPrefix list.now.kind (size_bound dl.now) }
    requires tail { IsNonEmptyIfUnsized list.now.kind (length fields.now) }
    requires count { length fields.now ≤ FieldIdx.MAX_INDEX + 1 }
    requires order { IsAllowed list.now (length fields.now) order }
    ensures exact { IsOrderedAnswer F.layout_of FieldIdx.at
        (VariantIdx.at 0) dl.now repr.now list.now.kind order fields.now result }
    ensures lawful { IfOk result (IsLawfulLayout dl.now) }
{
    let parts: Parts<'_, FieldIdx, VariantIdx, F> = Parts::new(dl, fields);
    let placed = match placed_in(alloc, dl, &parts, list, NicheBias::Start, order) {
        Ok(placed) => placed,
        Err(fault) => return Err(error_of(fields, fault)),
    };
    Ok(list_of_placed(dl, fields, repr, list, placed))
}

/// The layout of these fields as one list of this kind, one after another in memory in this order. The niche is the
/// greatest, of equals the first in memory.
///
/// Refused first of all as `BadOrder` where the order doesn't name each field once, or moves the last field of a
/// maybe-unsized list. Then as `UnexpectedUnsized` with a field whose size isn't known beforehand, unless it is the
/// last of a maybe-unsized list, and as `SizeOverflow` where a field's end or the size isn't below the data layout's
/// bound: the first fault in memory order is reported. `OutOfMemory` may come at any time.
pub fn layout_of_fields_in_order<
    FieldIdx: Idx,
    VariantIdx: Idx,
    F: LayoutHandle<FieldIdx, VariantIdx> + Copy,
>(
    alloc: Global,
    dl: &TargetDataLayout,
    fields: IndexSlice<'_, FieldIdx, F>,
    repr: &ReprOptions,
    kind: StructKind,
    order: &[FieldIdx],
) -> Result<LayoutData<FieldIdx, VariantIdx>, LayoutCalculatorError<F>>
    requires data_layout { IsLawfulDataLayout dl.now }
    requires fields { All (λ f. IsLawfulLayout dl.now (F.layout_of f)) (items_of fields) }
    requires repr { HasLawfulAligns repr.now }
    requires prefix { IsWellFormedPrefix kind (size_bound dl.now) }
    requires tail { IsNonEmptyIfUnsized kind (length (items_of fields)) }
    requires free { has_fixed_order repr.now ≡ false }
    ensures exact { IsOrderedAnswer F.layout_of FieldIdx.at (VariantIdx.at 0) dl.now repr.now kind
        (map FieldIdx.number order.now) (items_of fields.entry) result }
    ensures lawful { IfOk result (IsLawfulLayout dl.now) }
    ensures within { length (items_of fields.entry) ≤ FieldIdx.MAX_INDEX + 1 }
{
    let list = fields_repr(dl, repr, kind);
    let fields = fields.as_raw();
    if !is_allowed(alloc, kind, order, fields.len())? {
        return Err(LayoutCalculatorError::BadOrder);
    }
    let order = MemoryOrder::of(alloc, order)?;
    Ok(list_in_order(alloc, dl, fields, repr, &list, order)?.into_layout())
}
