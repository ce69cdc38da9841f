//! Fields placed one after another, in an order.

ghost use Rattle.std.specs.Prelude.{◌≡◌, ◌+◌, ◌^◌, ◌<◌, ◌⊎◌, All, IfOk, IfErr, Some, None, length, map, slice_index, IsPermutation, not, ◌&&◌};
ghost use Rattle.abi_base.specs.DataLayout.{IsLawfulDataLayout, size_bound};
ghost use Rattle.abi_univariant.specs.Part.{is_unsized, max_align};
ghost use Rattle.abi_univariant.specs.Placement.{align_of, prefix_align, end_from, in_order, IsWellFormedPrefix, offsets_from, source_order, start_of};
ghost use Rattle.abi_univariant.specs.ListNiche.{niche_in};
ghost use Rattle.abi_univariant.specs.Fault.{fault_from, is_maybe_unsized};
ghost use Rattle.abi_univariant.specs.declared.placing.FieldsFault.TheVariants.{OutOfMemory};
ghost use Rattle.abi_univariant.specs.LawfulPart.{IsLawfulPart};

use crate::fields_repr::{FieldsRepr, cut_to, round_up};
use crate::list_niche::{GreatestNiche, NicheSoFar};
use crate::memory_order::MemoryOrder;
use crate::order::NicheBias;
use crate::part::{Parts, is_unsized};
use abi_base::{Align, Size, StructKind, TargetDataLayout};
use abi_index::Idx;
use abi_scalar::{BackendRepr, LayoutHandle};
use std::alloc::{AllocError, AllocFailed, Global};

/// Why a list of fields has no layout.
#[derive(Clone, Copy)]
pub enum FieldsFault {
    /// The field of this index is unsized, and may not be.
    Unsized(usize),
    /// A field's end, or the size, is not below the bound.
    TooLarge,
    OutOfMemory,
}

impl From<AllocError> for FieldsFault {
    ghost from_gives = { λ _ fault. fault ≡ OutOfMemory };

    fn from(_: AllocError) -> Self {
        FieldsFault::OutOfMemory
    }
}

/// Whether the last field may be unsized.
pub(crate) fn is_maybe_unsized(kind: StructKind) -> bool
    ensures { result ≡ is_maybe_unsized kind }
{
    match kind {
        StructKind::MaybeUnsized => true,
        _ => false,
    }
}

/// Whether a field of this view is unsized in a list of sized fields.
fn is_misplaced(kind: StructKind, view: BackendRepr) -> bool
    ensures { result ≡ (is_unsized view && not (is_maybe_unsized kind)) }
{
    is_unsized(view) & !is_maybe_unsized(kind)
}

/// Whether a field of this view is unsized and others follow.
fn is_followed(view: BackendRepr, more: bool) -> bool
    ensures { result ≡ (is_unsized view && more) }
{
    is_unsized(view) & more
}

/// The alignment of what comes before the fields.
fn prefix_align(kind: StructKind, pack: Option<Align>) -> Align
    ensures { result ≡ prefix_align pack kind }
{
    match kind {
        StructKind::Prefixed(_, align) => cut_to(align, pack),
        _ => Align::ONE,
    }
}

/// The greatest alignment of the list, its prefix and its fields.
pub(crate) fn list_align<FieldIdx: Idx, VariantIdx: Idx, F: LayoutHandle<FieldIdx, VariantIdx>>(
    parts: &Parts<'_, FieldIdx, VariantIdx, F>,
    repr: &FieldsRepr,
) -> Align
    ensures { result ≡ align_of repr.now parts.now }
{
    let mut greatest = repr.align.max(prefix_align(repr.kind, repr.pack));
    for index in 0..parts.len() {
        greatest = greatest.max(cut_to(parts.layout_at(index).align.abi, repr.pack));
    }
    greatest
}

/// Where the first field may begin.
fn list_start(kind: StructKind, pack: Option<Align>, bound: u64) -> Size
    requires bound { bound < 2 ^ 62 }
    requires starts { IsWellFormedPrefix kind bound }
    ensures value { result ≡ start_of pack kind }
    ensures small { result < bound + 2 ^ max_align }
{
    match kind {
        StructKind::Prefixed(size, align) => round_up(size, cut_to(align, pack)),
        _ => Size::ZERO,
    }
}

/// Each field's offset in source order, with the end of the last one in memory and the greatest niches.
#[derive(Drop)]
pub struct Placement {
    pub offsets: Vec<Size>,
    pub end: Size,
    pub niche: GreatestNiche,
}

/// Places the fields in this order.
#[inline(always)]
pub(crate) fn place<FieldIdx: Idx, VariantIdx: Idx, F: LayoutHandle<FieldIdx, VariantIdx>>(
    alloc: Global,
    dl: &TargetDataLayout,
    parts: &Parts<'_, FieldIdx, VariantIdx, F>,
    order: &MemoryOrder<FieldIdx>,
    repr: &FieldsRepr,
) -> Result<Placement, FieldsFault>
    requires data_layout { IsLawfulDataLayout dl.now }
    requires lawful { All (IsLawfulPart dl.now) parts.now }
    requires starts { IsWellFormedPrefix repr.now.kind (size_bound dl.now) }
    requires order { IsPermutation (source_order (length parts.now)) order.now }
    ensures count { IfOk result (λ placed. length placed.offsets.items ≡ length parts.now) }
    ensures offsets { IfOk result (λ placed.
        map (slice_index placed.offsets.items) order.now ≡ offsets_from repr.now.pack
        (start_of repr.now.pack repr.now.kind) (in_order parts.now order.now)) }
    ensures end { IfOk result (λ placed. placed.end ≡ end_from repr.now.pack
        (start_of repr.now.pack repr.now.kind) (in_order parts.now order.now)) }
    ensures first { IfOk result (λ placed.
        placed.niche.first ≡ niche_in dl.now repr.now NicheBias.Start parts.now order.now) }
    ensures last { IfOk result (λ placed.
        placed.niche.last ≡ niche_in dl.now repr.now NicheBias.End parts.now order.now) }
    ensures small { IfOk result (λ placed. placed.end < size_bound dl.now + 2 ^ max_align) }
    ensures faultless { IfOk result (λ placed. fault_from repr.now (size_bound dl.now) parts.now
        (start_of repr.now.pack repr.now.kind) order.now ≡ None) }
    ensures fault { IfErr result (λ fault.
        (fault_from repr.now (size_bound dl.now) parts.now
        (start_of repr.now.pack repr.now.kind) order.now ≡ Some fault) ⊎ (fault ≡ OutOfMemory)) }
{
    let mut offsets = vec![in alloc; Size::ZERO; parts.len()]?;
    let mut end = list_start(repr.kind, repr.pack, dl.obj_size_bound());
    let mut niche = NicheSoFar::NONE;
    let count = order.len();
    for at in 0..count {
        let index = order.at(at);
        let part = parts.at(index);
        if is_misplaced(repr.kind, part.view) {
            return Err(FieldsFault::Unsized(index));
        }
        let offset = round_up(end, cut_to(part.align, repr.pack));
        let Some(next) = offset.checked_add(part.size, dl) else {
            return Err(FieldsFault::TooLarge);
        };
        if is_followed(part.view, at + 1 < count) {
            return Err(FieldsFault::Unsized(index));
        }
        offsets[index] = offset;
        niche = niche.with(index, offset, part.free);
        end = next;
    }
    Ok(Placement {
        offsets,
        end,
        niche: niche.niches(parts),
    })
}
