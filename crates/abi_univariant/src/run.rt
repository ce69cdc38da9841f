//! The layout of a list's fields, its niche as near an edge as the named orders bring it.

ghost use Rattle.std.specs.Prelude.{◌≡◌, ◌+◌, ◌<◌, ◌≤◌, ◌⊎◌, All, Err, IfOk, IfErr, IfSome, IsPermutation, Some, None, length, if◌then◌else◌};
ghost use Rattle.abi_base.specs.DataLayout.{IsLawfulDataLayout, size_bound};
ghost use Rattle.abi_scalar.specs.Lawful.{IsLawfulNiche};
ghost use Rattle.abi_scalar.specs.Niche.{IsWellFormedNiche};
ghost use Rattle.abi_univariant.specs.Fault.{fault_in};
ghost use Rattle.abi_univariant.specs.Placement.{IsWellFormedRepr, source_order};
ghost use Rattle.abi_univariant.specs.ListNiche.{begins_after, niche_in, space_beside};
ghost use Rattle.abi_univariant.specs.Order.{IsNamedOrder};
ghost use Rattle.abi_univariant.specs.declared.placing.FieldsFault.TheVariants.{OutOfMemory};
ghost use Rattle.abi_univariant.specs.LawfulPart.{IsLawfulPart};
ghost use Rattle.abi_univariant.specs.Run.{IsFaultOf, IsNamedLayout, IsPlacedIn, may_move};

use crate::fields_repr::{FieldsRepr, round_up};
use crate::list_niche::space_beside;
use crate::memory_order::MemoryOrder;
use crate::order::{NicheBias, memory_order};
use crate::part::Parts;
use crate::placing::{FieldsFault, Placement, list_align, place};
use abi_base::{Align, Size, StructKind, TargetDataLayout};
use abi_index::Idx;
use abi_scalar::{LayoutHandle, Niche};
use std::alloc::Global;

/// A list whose fields have their places: offsets, order, size, alignment, niche.
#[derive(Drop)]
pub struct PlacedList<FieldIdx: Idx> {
    /// Where each field begins, in source order.
    pub offsets: Vec<Size>,
    /// The fields as they lie in memory.
    pub order: MemoryOrder<FieldIdx>,
    pub size: Size,
    pub align: Align,
    /// The greatest niche, counted from the start of the list.
    pub largest_niche: Option<Niche>,
    /// The last of those that are as great in this order.
    pub last_niche: Option<Niche>,
}

/// The list in this order, with the niche that the bias takes.
#[inline(always)]
pub(crate) fn placed_in<FieldIdx: Idx, VariantIdx: Idx, F: LayoutHandle<FieldIdx, VariantIdx>>(
    alloc: Global,
    dl: &TargetDataLayout,
    parts: &Parts<'_, FieldIdx, VariantIdx, F>,
    repr: &FieldsRepr,
    bias: NicheBias,
    order: MemoryOrder<FieldIdx>,
) -> Result<PlacedList<FieldIdx>, FieldsFault>
    requires data_layout { IsLawfulDataLayout dl.now }
    requires lawful { All (IsLawfulPart dl.now) parts.now }
    requires repr { IsWellFormedRepr repr.now (length parts.now) (size_bound dl.now) }
    requires order { IsPermutation (source_order (length parts.now)) order }
    ensures same { IfOk result (λ list. list.order ≡ order) }
    ensures placed { IfOk result (λ list.
        IsPlacedIn dl.now repr.now bias parts.now order list.offsets.items list.size list.align
        list.largest_niche) }
    ensures last { IfOk result (λ list.
        list.last_niche ≡ niche_in dl.now repr.now NicheBias.End parts.now order) }
    ensures readable { IfOk result (λ list. IfSome list.largest_niche (IsWellFormedNiche dl.now)) }
    ensures inside { IfOk result (λ list.
        IfSome list.largest_niche (IsLawfulNiche dl.now list.size)) }
    ensures fits { IfOk result (λ list. list.size < size_bound dl.now) }
    ensures fault { IfErr result (λ fault.
        (fault_in repr.now (size_bound dl.now) parts.now order ≡ Some fault)
        ⊎ (fault ≡ OutOfMemory)) }
{
    let Placement {
        offsets,
        end,
        niche,
    } = place(alloc, dl, parts, &order, repr)?;
    let largest_niche = niche.niche_by_bias(bias);
    let last_niche = niche.niche_by_bias(NicheBias::End);
    let align = list_align(parts, repr);
    let size = round_up(end, align);
    if size.bytes() >= dl.obj_size_bound() {
        return Err(FieldsFault::TooLarge);
    }
    Ok(PlacedList {
        offsets,
        order,
        size,
        align,
        largest_niche,
        last_niche,
    })
}

/// The list in the order that is named for the bias.
#[inline(always)]
fn run<FieldIdx: Idx, VariantIdx: Idx, F: LayoutHandle<FieldIdx, VariantIdx>>(
    alloc: Global,
    dl: &TargetDataLayout,
    parts: &Parts<'_, FieldIdx, VariantIdx, F>,
    repr: &FieldsRepr,
    bias: NicheBias,
) -> Result<PlacedList<FieldIdx>, FieldsFault>
    requires data_layout { IsLawfulDataLayout dl.now }
    requires lawful { All (IsLawfulPart dl.now) parts.now }
    requires repr { IsWellFormedRepr repr.now (length parts.now) (size_bound dl.now) }
    requires count { length parts.now ≤ FieldIdx.MAX_INDEX + 1 }
    ensures named { IfOk result (λ list. IsNamedOrder repr.now bias parts.now list.order) }
    ensures placed { IfOk result (λ list.
        IsPlacedIn dl.now repr.now bias parts.now list.order list.offsets.items list.size list.align
        list.largest_niche) }
    ensures last { IfOk result (λ list.
        list.last_niche ≡ niche_in dl.now repr.now NicheBias.End parts.now list.order) }
    ensures readable { IfOk result (λ list. IfSome list.largest_niche (IsWellFormedNiche dl.now)) }
    ensures inside { IfOk result (λ list.
        IfSome list.largest_niche (IsLawfulNiche dl.now list.size)) }
    ensures fits { IfOk result (λ list. list.size < size_bound dl.now) }
    ensures fault { IfErr result (IsFaultOf dl.now repr.now bias parts.now) }
{
    let order = memory_order(alloc, parts, repr, bias)?;
    placed_in(alloc, dl, parts, repr, bias, order)
}

/// Whether a second order is tried.
fn may_move(kind: StructKind, count: usize) -> bool
    ensures { result ≡ may_move kind count }
{
    match kind {
        StructKind::MaybeUnsized => false,
        _ => count > 1,
    }
}

/// How far a second order's niche has to begin from the front, if one is tried.
fn space_wanted<FieldIdx: Idx>(
    dl: &TargetDataLayout,
    repr: &FieldsRepr,
    count: usize,
    first: &PlacedList<FieldIdx>,
) -> Option<Size>
    requires readable { IfSome first.now.largest_niche (IsWellFormedNiche dl.now) }
    requires inside { IfSome first.now.largest_niche (IsLawfulNiche dl.now first.now.size) }
    ensures { result ≡ (if may_move repr.now.kind count then space_beside dl.now first.now.size
        first.now.largest_niche else None) }
{
    if !may_move(repr.kind, count) {
        return None;
    }
    space_beside(dl, first.size, first.largest_niche.as_ref()?)
}

/// Whether the niche begins after `space` bytes.
fn begins_after(niche: &Option<Niche>, space: Size) -> bool
    ensures { result ≡ begins_after space niche.now }
{
    match niche {
        Some(niche) => niche.offset > space,
        None => false,
    }
}

/// The list with the last of its greatest niches, where that begins after `space` bytes, else as it is.
fn with_last_niche<FieldIdx: Idx>(list: PlacedList<FieldIdx>, space: Size) -> PlacedList<FieldIdx>
    ensures same { (result.offsets ≡ list.offsets) × (result.order ≡ list.order)
        × (result.size ≡ list.size) × (result.align ≡ list.align) }
    ensures niche { result.largest_niche ≡
        (if begins_after space list.last_niche then list.last_niche else list.largest_niche) }
{
    if begins_after(&list.last_niche, space) {
        PlacedList {
            largest_niche: list.last_niche,
            ..list
        }
    } else {
        list
    }
}

/// Lays the fields out one after another, in an order of least size where they may move.
pub(crate) fn layout_of_parts<
    FieldIdx: Idx,
    VariantIdx: Idx,
    F: LayoutHandle<FieldIdx, VariantIdx>,
>(
    alloc: Global,
    dl: &TargetDataLayout,
    parts: &Parts<'_, FieldIdx, VariantIdx, F>,
    repr: &FieldsRepr,
) -> Result<PlacedList<FieldIdx>, FieldsFault>
    requires data_layout { IsLawfulDataLayout dl.now }
    requires lawful { All (IsLawfulPart dl.now) parts.now }
    requires repr { IsWellFormedRepr repr.now (length parts.now) (size_bound dl.now) }
    requires count { length parts.now ≤ FieldIdx.MAX_INDEX + 1 }
    ensures named { IfOk result (λ list.
        IsNamedLayout dl.now repr.now parts.now list.order list.offsets.items list.size list.align
        list.largest_niche) }
    ensures fits { IfOk result (λ list. list.size < size_bound dl.now) }
    ensures fault { IfErr result (IsFaultOf dl.now repr.now NicheBias.Start parts.now) }
{
    let first = run(alloc, dl, parts, repr, NicheBias::Start)?;
    let Some(space) = space_wanted(dl, repr, parts.len(), &first) else {
        return Ok(first);
    };
    if !repr.reorderable {
        return Ok(with_last_niche(first, space));
    }
    let second = match run(alloc, dl, parts, repr, NicheBias::End) {
        Ok(second) => second,
        Err(fault) => return Err(fault),
    };
    if begins_after(&second.largest_niche, space) {
        Ok(second)
    } else {
        Ok(first)
    }
}
