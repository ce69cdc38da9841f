//! The layout of a coroutine, from the layouts of its lists.

ghost use Rattle.std.specs.Prelude.{◌≡◌, ◌≢◌, ◌+◌, ◌<◌, ◌≤◌, ◌⊎◌, ◌||◌, All, IfErr, IfOk, filter, length, map, nat_lt, take};
ghost use Rattle.std.specs.List.{AllPairs, AllZip, list_all};
ghost use Rattle.abi_base.specs.DataLayout.{IsLawfulDataLayout, size_bound};
ghost use Rattle.abi_index.specs.BitSet.{domain_size, members_of};
ghost use Rattle.abi_scalar.specs.declared.fields_shape.FieldsShape.TheVariants.{Arbitrary};
ghost use Rattle.abi_scalar.specs.Lawful.{IsLawfulLayout};
ghost use Rattle.abi_scalar.specs.Shape.{listed_offsets, listed_order};
ghost use Rattle.abi_calc.specs.Coroutine.Layout.{IsStateTag, coroutine_layout, whole_align, whole_size};
ghost use Rattle.abi_calc.specs.Coroutine.Lists.{own_of};
ghost use Rattle.abi_calc.specs.Coroutine.States.{HasFields, ranks_of, state_layouts};

use crate::coroutine::states::{PromotedLocals, place_state, ranks_below};
use abi_base::{AbiAlign, Align, HasDataLayout, Integer, Primitive, Size, TargetDataLayout};
use abi_index::{DenseBitSet, Hash64, Idx, IndexList, IndexVec};
use abi_scalar::{
    BackendRepr, FieldsShape, LayoutCalculatorError, LayoutData, Scalar, TagEncoding,
    VariantLayout, Variants, WrappingRange,
};
use abi_univariant::{UnivariantLayout, UnivariantLayouts, field_offsets, round_up};
use std::alloc::{AllocError, Global};

/// The states of a coroutine, and which of its locals, of so many, are promoted.
#[derive_where(Clone, Copy)]
pub(crate) struct CoroutineStates<'a, FieldIdx: Idx, LocalIdx: Idx> {
    pub(crate) promoted: &'a DenseBitSet<LocalIdx>,
    pub(crate) count: usize,
    pub(crate) states: &'a [IndexVec<FieldIdx, LocalIdx>],
}

/// How large a coroutine is: its alignment, and its size in bytes.
#[derive(Clone, Copy)]
struct Extent {
    align: Align,
    size: Size,
}

/// The tag of so many states of a coroutine: the least unsigned integer that has the number of each. A caller of
/// `layout_of_coroutine` that lends the layout of the tag makes it of this scalar.
pub fn state_tag(count: usize) -> Scalar
    requires { 0 < count }
    ensures { IsStateTag count result }
{
    let last = (count - 1) as u128;
    Scalar::Initialized {
        value: Primitive::Int(Integer::fit_unsigned(last), false),
        valid_range: WrappingRange {
            start: 0,
            end: last,
        },
    }
}

/// The greatest alignment of the lists.
fn whole_align<FieldIdx: Idx, VariantIdx: Idx>(
    first: &UnivariantLayout<FieldIdx, VariantIdx>,
    lists: &UnivariantLayouts<FieldIdx, VariantIdx>,
) -> Align
    ensures { result ≡ whole_align first.now lists.now }
{
    lists.summary().align_with(first.align())
}

/// The size of the greatest list in bytes, rounded up to the greatest alignment.
fn whole_size<FieldIdx: Idx, VariantIdx: Idx>(
    dl: &TargetDataLayout,
    first: &UnivariantLayout<FieldIdx, VariantIdx>,
    lists: &UnivariantLayouts<FieldIdx, VariantIdx>,
    align: Align,
) -> Size
    requires data_layout { IsLawfulDataLayout dl.now }
    requires first { IsLawfulLayout dl.now first.now }
    requires lists { All (IsLawfulLayout dl.now) lists.now }
    requires align { align ≡ whole_align first.now lists.now }
    ensures { result ≡ whole_size first.now lists.now }
{
    round_up(first.size().max(lists.summary().size), align)
}

/// Whether the coroutine has no values: the first list has none, or no state has any.
fn is_uninhabited<FieldIdx: Idx, VariantIdx: Idx>(
    first: &UnivariantLayout<FieldIdx, VariantIdx>,
    lists: &UnivariantLayouts<FieldIdx, VariantIdx>,
) -> bool
    ensures { result ≡ (first.now.uninhabited || list_all (λ list. list.uninhabited) lists.now) }
{
    first.uninhabited() | lists.summary().uninhabited
}

/// The fields that stand before the promoted locals, as they follow one another in memory.
fn shared_order<FieldIdx: Idx>(
    alloc: Global,
    before: usize,
    order: &[FieldIdx],
) -> Result<IndexVec<u32, FieldIdx>, AllocError>
    requires { length order.now ≤ 0xFFFF_FFFF + 1 }
    ensures { IfOk result (λ list. list ≡ filter
        (λ i. nat_lt (FieldIdx.number i) before) order.now) }
{
    let mut list = IndexVec::new(alloc);
    for index in order {
        if index.index() < before {
            let _place = list.push(*index)?;
        }
    }
    Ok(list)
}

/// The ranks of the promoted locals as they follow one another in memory, where so many fields stand before them.
fn ranks_of<FieldIdx: Idx>(
    alloc: Global,
    before: usize,
    order: &[FieldIdx],
) -> Result<Vec<usize>, AllocError>
    ensures { IfOk result (λ ranks. ranks.items ≡ ranks_of FieldIdx.number before order.now) }
{
    let mut ranks = Vec::with_capacity(alloc, order.len())?;
    for index in order {
        let place = index.index();
        if place >= before {
            ranks.push(place - before)?;
        }
    }
    Ok(ranks)
}

/// The fields that all states share, so many of the first list's: where they begin, and how they follow one another in
/// memory.
fn shared_fields<FieldIdx: Idx, VariantIdx: Idx>(
    alloc: Global,
    before: usize,
    first: &UnivariantLayout<FieldIdx, VariantIdx>,
) -> Result<FieldsShape<FieldIdx>, AllocError>
    requires within { before ≤ length (listed_offsets first.now.fields) }
    requires few { before ≤ FieldIdx.MAX_INDEX + 1 }
    requires order { length (listed_order first.now.fields) ≤ 0xFFFF_FFFF + 1 }
    ensures { IfOk result (λ shape. shape ≡ Arbitrary
        (take before (listed_offsets first.now.fields))
        (filter (λ i. nat_lt (FieldIdx.number i) before) (listed_order first.now.fields))) }
{
    let offsets = field_offsets(alloc, &first.offsets()[..before])?;
    let in_memory_order = shared_order(alloc, before, first.in_memory_order())?;
    Ok(FieldsShape::Arbitrary {
        offsets,
        in_memory_order,
    })
}

/// Each state in the whole, from its own list and the first one, where so many fields stand before the promoted locals.
fn state_layouts<FieldIdx: Idx, VariantIdx: Idx, LocalIdx: Idx>(
    alloc: Global,
    before: usize,
    saved: CoroutineStates<'_, FieldIdx, LocalIdx>,
    first: &UnivariantLayout<FieldIdx, VariantIdx>,
    lists: UnivariantLayouts<FieldIdx, VariantIdx>,
) -> Result<IndexList<VariantIdx, VariantLayout<FieldIdx>>, AllocError>
    requires count { saved.count ≡ domain_size saved.promoted.now }
    requires named { saved.count ≤ LocalIdx.MAX_INDEX + 1 }
    requires few { length saved.states.now ≤ VariantIdx.MAX_INDEX + 1 }
    requires within { All (All (λ l. LocalIdx.number l < saved.count)) saved.states.now }
    requires once { All (λ state. AllPairs (λ a b. a ≢ b)
        (map LocalIdx.number state)) saved.states.now }
    requires first { HasFields FieldIdx.number
        (before + length (members_of saved.promoted.now)) first.now }
    requires lists { AllZip (λ state list. HasFields FieldIdx.number (length
        (own_of saved.promoted.now (map LocalIdx.number state))) list) saved.states.now lists }
    ensures { IfOk result (λ layouts. layouts ≡ state_layouts FieldIdx.at
        FieldIdx.number before saved.entry.promoted.now first.now
        (map (map LocalIdx.number) saved.entry.states.now) lists) }
{
    let CoroutineStates {
        promoted,
        count,
        states,
    } = saved;
    let below = ranks_below(alloc, promoted, count)?;
    let ranks = ranks_of(alloc, before, first.in_memory_order())?;
    let promoted = PromotedLocals {
        locals: promoted,
        below: &below,
        offsets: &first.offsets()[before..],
        ranks: &ranks,
    };
    let (mut variants, _) = lists.into_parts();
    for (at, variant) in variants.iter_mut().enumerate() {
        place_state(alloc, promoted, &states[at], variant)?;
    }
    Ok(IndexList::from_raw(variants))
}

/// The layout of a coroutine with so many prefix fields, of this alignment and size.
fn layout_of_size<FieldIdx: Idx, VariantIdx: Idx, LocalIdx: Idx>(
    alloc: Global,
    prefix: usize,
    tag: Scalar,
    saved: CoroutineStates<'_, FieldIdx, LocalIdx>,
    first: UnivariantLayout<FieldIdx, VariantIdx>,
    lists: UnivariantLayouts<FieldIdx, VariantIdx>,
    extent: Extent,
) -> Result<LayoutData<FieldIdx, VariantIdx>, AllocError>
    requires prefix { prefix + length (members_of saved.promoted.now) ≤ FieldIdx.MAX_INDEX }
    requires count { saved.count ≡ domain_size saved.promoted.now }
    requires named { saved.count ≤ LocalIdx.MAX_INDEX + 1 }
    requires few { length saved.states.now ≤ VariantIdx.MAX_INDEX + 1 }
    requires within { All (All (λ l. LocalIdx.number l < saved.count)) saved.states.now }
    requires once { All (λ state. AllPairs (λ a b. a ≢ b)
        (map LocalIdx.number state)) saved.states.now }
    requires first { HasFields FieldIdx.number
        (prefix + 1 + length (members_of saved.promoted.now)) first }
    requires lists { AllZip (λ state list. HasFields FieldIdx.number (length
        (own_of saved.promoted.now (map LocalIdx.number state))) list) saved.states.now lists }
    requires align { extent.align ≡ whole_align first lists }
    requires size { extent.size ≡ whole_size first lists }
    ensures { IfOk result (λ layout.
        layout ≡ coroutine_layout FieldIdx.at FieldIdx.number prefix tag saved.entry.promoted.now
        (map (map LocalIdx.number) saved.entry.states.now) first lists) }
{
    let before = prefix + 1;
    let uninhabited = is_uninhabited(&first, &lists);
    let fields = shared_fields(alloc, before, &first)?;
    let variants = state_layouts(alloc, before, saved, &first, lists)?;
    Ok(LayoutData {
        fields,
        variants: Variants::Multiple {
            tag,
            tag_encoding: TagEncoding::Direct,
            tag_field: FieldIdx::new(prefix),
            variants,
        },
        backend_repr: BackendRepr::Memory { sized: true },
        largest_niche: None,
        uninhabited,
        align: AbiAlign::new(extent.align),
        size: extent.size,
        max_repr_align: None,
        unadjusted_abi_align: extent.align,
        repr_c: false,
        randomization_seed: Hash64::ZERO,
    })
}

/// The layout of a coroutine with so many prefix fields, from the layouts of its lists. Refused as `SizeOverflow` where
/// the size isn't below the data layout's bound.
pub(crate) fn layout_of_lists<FieldIdx: Idx, VariantIdx: Idx, LocalIdx: Idx, F>(
    alloc: Global,
    dl: &TargetDataLayout,
    prefix: usize,
    tag: Scalar,
    saved: CoroutineStates<'_, FieldIdx, LocalIdx>,
    first: UnivariantLayout<FieldIdx, VariantIdx>,
    lists: UnivariantLayouts<FieldIdx, VariantIdx>,
) -> Result<LayoutData<FieldIdx, VariantIdx>, LayoutCalculatorError<F>>
    requires data_layout { IsLawfulDataLayout dl.now }
    requires prefix { prefix + length (members_of saved.promoted.now) ≤ FieldIdx.MAX_INDEX }
    requires count { saved.count ≡ domain_size saved.promoted.now }
    requires named { saved.count ≤ LocalIdx.MAX_INDEX + 1 }
    requires few { length saved.states.now ≤ VariantIdx.MAX_INDEX + 1 }
    requires within { All (All (λ l. LocalIdx.number l < saved.count)) saved.states.now }
    requires once { All (λ state. AllPairs (λ a b. a ≢ b)
        (map LocalIdx.number state)) saved.states.now }
    requires first { HasFields FieldIdx.number
        (prefix + 1 + length (members_of saved.promoted.now)) first }
    requires lists { AllZip (λ state list. HasFields FieldIdx.number (length
        (own_of saved.promoted.now (map LocalIdx.number state))) list) saved.states.now lists }
    requires lawful_first { IsLawfulLayout dl.now first }
    requires lawful { All (IsLawfulLayout dl.now) lists }
    ensures exact { IfOk result (λ layout. (whole_size first lists < size_bound dl.now)
        × (layout ≡ coroutine_layout FieldIdx.at FieldIdx.number prefix tag saved.entry.promoted.now
        (map (map LocalIdx.number) saved.entry.states.now) first lists)) }
    ensures fault { IfErr result (λ e.
        ((size_bound dl.now ≤ whole_size first lists) × (e ≡ LayoutCalculatorError.SizeOverflow)) ⊎
        (e ≡ LayoutCalculatorError.OutOfMemory)) }
{
    let align = whole_align(&first, &lists);
    let size = whole_size(dl, &first, &lists, align);
    if size.bytes() >= dl.obj_size_bound() {
        return Err(LayoutCalculatorError::SizeOverflow);
    }
    let extent = Extent { align, size };
    match layout_of_size(alloc, prefix, tag, saved, first, lists, extent) {
        Ok(layout) => Ok(layout),
        Err(error) => Err(error.into()),
    }
}
