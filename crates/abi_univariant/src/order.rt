//! The order that fields have in memory.

ghost use Rattle.std.specs.Prelude.{◌≡◌, ◌+◌, ◌≤◌, All, IfOk, IsPermutation, OnOk, fold, map, max, length};
ghost use Rattle.std.specs.List.Sorted.{IsSortedByKey, IsStableByKey};
ghost use Rattle.abi_univariant.specs.Part.{max_align};
ghost use Rattle.abi_univariant.specs.LawfulPart.{IsAlignedPart};
ghost use Rattle.abi_univariant.specs.Placement.{IsNonEmptyIfUnsized};
ghost use Rattle.abi_univariant.specs.Order.{size_as_align, group_of, niche_from_front, niche_to_end, sort_key, compare_keys, key_at, IsSortedOrder, movable_front, is_prefixed, rule_of, IsSortedBefore, IsNamedOrder};

use crate::fields_repr::FieldsRepr;
use crate::memory_order::MemoryOrder;
use crate::part::{Part, Parts};
use abi_base::{Align, StructKind};
use abi_index::Idx;
use abi_scalar::LayoutHandle;
use std::alloc::{AllocError, Global};

/// Where niches go among fields that share an alignment, and which of equally great niches counts.
#[derive(Clone, Copy)]
pub enum NicheBias {
    /// To the start; the one that comes first in memory.
    Start,
    /// To the end; the one that comes last.
    End,
}

/// What the order of the fields that may move goes by.
#[derive(Clone, Copy)]
pub struct SortRule {
    pub pack: Option<Align>,
    pub is_prefixed: bool,
    pub bias: NicheBias,
    /// The greatest alignment of those fields, as an exponent of two.
    pub greatest_align: u32,
    /// The most free numbers that a niche of theirs has.
    pub greatest_niche: u128,
}

/// A field's place in the order: least first.
#[derive(Clone, Copy, PartialEq, Eq, PartialOrd, Ord)]
pub struct SortKey {
    pub group: u32,
    pub niche: u128,
    pub distance: u64,
}

/// The alignment's exponent.
#[tactic(auto, using(crate::proofs::Offsets::Groups::trailing_power))]
fn exponent_of(align: Align) -> u32
    requires { align ≤ max_align }
    ensures { result ≡ align }
{
    align.bytes().trailing_zeros()
}

fn distance_from_front(part: &Part) -> u64
    ensures { result ≡ niche_from_front part.now }
{
    match part.largest_niche {
        Some(niche) => niche.offset.bytes(),
        None => 0,
    }
}

/// A rank that falls as the niche's distance from the end grows.
fn nearness_to_end(part: &Part) -> u64
    ensures { result ≡ niche_to_end part.now }
{
    u64::MAX - part.after.bytes()
}

/// The greatest power of two that the size is a multiple of, as an exponent; for no bytes the alignment.
fn effective_align(part: &Part) -> u32
    requires { IsAlignedPart part.now }
    ensures { result ≡ size_as_align part.now }
{
    part.size.bytes().max(part.align.bytes()).trailing_zeros()
}

impl SortRule {
    fn group_of(&self, part: &Part) -> u32
        requires { IsAlignedPart part.now }
        ensures { result ≡ group_of self.now part.now }
    {
        if let Some(pack) = self.pack {
            return exponent_of(part.align.min(pack));
        }
        if self.greatest_niche == 0 {
            return effective_align(part);
        }
        match self.bias {
            NicheBias::Start => self.greatest_align.min(effective_align(part)),
            NicheBias::End if part.free == self.greatest_niche => exponent_of(part.align),
            NicheBias::End => effective_align(part),
        }
    }

    fn key_of(&self, part: &Part) -> SortKey
        requires { IsAlignedPart part.now }
        ensures { result ≡ sort_key self.now part.now }
    {
        let group = self.group_of(part);
        if self.is_prefixed {
            return SortKey {
                group,
                niche: part.free,
                distance: 0,
            };
        }
        let group = u64::BITS - group;
        match self.bias {
            NicheBias::Start => SortKey {
                group,
                niche: u128::MAX - part.free,
                distance: distance_from_front(part),
            },
            NicheBias::End => SortKey {
                group,
                niche: part.free,
                distance: nearness_to_end(part),
            },
        }
    }

    /// The key of the part at an index; past the last part, one of zeros.
    pub(crate) fn key_at<FieldIdx: Idx, VariantIdx: Idx, F: LayoutHandle<FieldIdx, VariantIdx>>(
        &self,
        parts: &Parts<'_, FieldIdx, VariantIdx, F>,
        index: usize,
    ) -> SortKey
        requires { All IsAlignedPart parts.now }
        ensures { result ≡ key_at (map (sort_key self.now) parts.now) index }
    {
        if index < parts.len() {
            self.key_of(&parts.at(index))
        } else {
            SortKey {
                group: 0,
                niche: 0,
                distance: 0,
            }
        }
    }
}

fn sort_keys<FieldIdx: Idx, VariantIdx: Idx, F: LayoutHandle<FieldIdx, VariantIdx>>(
    alloc: Global,
    parts: &Parts<'_, FieldIdx, VariantIdx, F>,
    rule: &SortRule,
) -> Result<Vec<SortKey>, AllocError>
    requires { All IsAlignedPart parts.now }
    ensures { IfOk result (λ keys. keys.items ≡ map (sort_key rule.now) parts.now) }
{
    let mut keys = Vec::with_capacity(alloc, parts.len())?;
    for index in 0..parts.len() {
        keys.push(rule.key_of(&parts.at(index)))?;
    }
    Ok(keys)
}

/// The key at an index; past the last one, one of zeros.
pub(crate) fn key_in(keys: &[SortKey], index: usize) -> SortKey
    ensures { result ≡ key_at keys.now index }
{
    keys.get(index).copied().unwrap_or(SortKey {
        group: 0,
        niche: 0,
        distance: 0,
    })
}

/// How many sort keys are kept in a list at most: each takes 48 bytes. Those of a longer list are found anew where they
/// are compared, which takes longer, and no memory.
const KEPT_KEYS: usize = 16_384;

/// Sorts the fields of these parts by their keys, and leaves those of equal keys as they follow one another.
fn sort_fields<FieldIdx: Idx, VariantIdx: Idx, F: LayoutHandle<FieldIdx, VariantIdx>>(
    alloc: Global,
    order: &mut MemoryOrder<FieldIdx>,
    parts: &Parts<'_, FieldIdx, VariantIdx, F>,
    rule: &SortRule,
) -> Result<(), AllocError>
    requires { All IsAlignedPart parts.now }
    ensures permutes { OnOk result (IsPermutation order.old order.new) }
    ensures sorted { OnOk result
        (IsSortedByKey (key_at (map (sort_key rule.now) parts.now)) compare_keys order.new) }
    ensures stable { OnOk result (IsStableByKey (key_at (map (sort_key rule.now) parts.now))
        compare_keys order.old order.new) }
{
    if parts.len() > KEPT_KEYS {
        return order.sort(parts, rule);
    }
    let keys = sort_keys(alloc, parts, rule)?;
    order.sort_by_keys(&keys)
}

/// The order of these parts, sorted by their keys, with room for `room` fields.
fn sorted_order<FieldIdx: Idx, VariantIdx: Idx, F: LayoutHandle<FieldIdx, VariantIdx>>(
    alloc: Global,
    room: usize,
    parts: &Parts<'_, FieldIdx, VariantIdx, F>,
    rule: &SortRule,
) -> Result<MemoryOrder<FieldIdx>, AllocError>
    requires lawful { All IsAlignedPart parts.now }
    requires count { length parts.now ≤ FieldIdx.MAX_INDEX + 1 }
    ensures { IfOk result (λ order. IsSortedOrder (map (sort_key rule.now) parts.now) order) }
{
    let mut order = MemoryOrder::in_source_order(alloc, room, parts.len())?;
    sort_fields(alloc, &mut order, parts, rule)?;
    Ok(order)
}

/// The fields that may move: all but a last one that may be unsized.
pub(crate) fn movable_front<'a, F>(kind: StructKind, fields: &'a [F]) -> &'a [F]
    requires { IsNonEmptyIfUnsized kind (length fields.now) }
    ensures { result.now ≡ movable_front kind fields.now }
{
    match kind {
        StructKind::MaybeUnsized => &fields[..fields.len() - 1],
        _ => fields,
    }
}

fn is_prefixed(kind: StructKind) -> bool
    ensures { result ≡ is_prefixed kind }
{
    match kind {
        StructKind::Prefixed(_, _) => true,
        _ => false,
    }
}

/// The greatest alignment of these fields.
fn greatest_align<FieldIdx: Idx, VariantIdx: Idx, F: LayoutHandle<FieldIdx, VariantIdx>>(
    parts: &Parts<'_, FieldIdx, VariantIdx, F>,
) -> Align
    ensures { result ≡ fold (λ greatest part. max greatest part.align) 0 parts.now }
{
    let mut greatest = Align::ONE;
    for index in 0..parts.len() {
        greatest = greatest.max(parts.at(index).align);
    }
    greatest
}

/// The most free numbers that a niche of these fields has.
fn greatest_niche<FieldIdx: Idx, VariantIdx: Idx, F: LayoutHandle<FieldIdx, VariantIdx>>(
    parts: &Parts<'_, FieldIdx, VariantIdx, F>,
) -> u128
    ensures { result ≡ fold (λ greatest part. max greatest part.free) 0 parts.now }
{
    let mut greatest = 0;
    for index in 0..parts.len() {
        greatest = greatest.max(parts.at(index).free);
    }
    greatest
}

impl SortRule {
    fn new<FieldIdx: Idx, VariantIdx: Idx, F: LayoutHandle<FieldIdx, VariantIdx>>(
        repr: &FieldsRepr,
        bias: NicheBias,
        parts: &Parts<'_, FieldIdx, VariantIdx, F>,
    ) -> Self
        requires { All IsAlignedPart parts.now }
        ensures { result ≡ rule_of repr.now bias parts.now }
    {
        SortRule {
            pack: repr.pack,
            is_prefixed: is_prefixed(repr.kind),
            bias,
            greatest_align: exponent_of(greatest_align(parts)),
            greatest_niche: greatest_niche(parts),
        }
    }
}

fn sorted_before<FieldIdx: Idx, VariantIdx: Idx, F: LayoutHandle<FieldIdx, VariantIdx>>(
    alloc: Global,
    parts: &Parts<'_, FieldIdx, VariantIdx, F>,
    repr: &FieldsRepr,
    bias: NicheBias,
) -> Result<MemoryOrder<FieldIdx>, AllocError>
    requires lawful { All IsAlignedPart parts.now }
    requires kind { IsNonEmptyIfUnsized repr.now.kind (length parts.now) }
    requires count { length parts.now ≤ FieldIdx.MAX_INDEX + 1 }
    ensures { IfOk result (λ order. IsSortedBefore repr.now bias parts.now order) }
{
    let movable_front = parts.movable_front(repr.kind);
    if movable_front.len() < 2 {
        return MemoryOrder::in_source_order(alloc, parts.len(), parts.len());
    }
    let rule = SortRule::new(repr, bias, &movable_front);
    let mut order = sorted_order(alloc, parts.len(), &movable_front, &rule)?;
    if movable_front.len() < parts.len() {
        order.push(movable_front.len())?;
    }
    Ok(order)
}

/// The fields' indices in the order that they are to have in memory.
pub(crate) fn memory_order<FieldIdx: Idx, VariantIdx: Idx, F: LayoutHandle<FieldIdx, VariantIdx>>(
    alloc: Global,
    parts: &Parts<'_, FieldIdx, VariantIdx, F>,
    repr: &FieldsRepr,
    bias: NicheBias,
) -> Result<MemoryOrder<FieldIdx>, AllocError>
    requires lawful { All IsAlignedPart parts.now }
    requires kind { IsNonEmptyIfUnsized repr.now.kind (length parts.now) }
    requires count { length parts.now ≤ FieldIdx.MAX_INDEX + 1 }
    ensures { IfOk result (λ order. IsNamedOrder repr.now bias parts.now order) }
{
    if repr.reorderable {
        sorted_before(alloc, parts, repr, bias)
    } else {
        MemoryOrder::in_source_order(alloc, parts.len(), parts.len())
    }
}
