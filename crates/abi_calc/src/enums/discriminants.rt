//! The discriminants of an enum that count, what is asked with them, and the numbers of the tag.

ghost use Rattle.std.specs.Prelude.{◌≡◌, ◌*◌, ◌%◌, ◌^◌, ◌<◌, ◌≤◌, ◌∷◌, All, IfOk, length, map, pos};
ghost use Rattle.std.specs.Iterator.{IsFinite};
ghost use Rattle.std.specs.Iterator.Runs.{WholeRun};
ghost use Rattle.abi_base.specs.DataLayout.{IsLawfulDataLayout};
ghost use Rattle.abi_base.specs.Size.{signed_value};
ghost use Rattle.abi_calc.specs.Enums.Discriminants.{IsAskedWith, IsGreatestOf, IsLeastOf, IsTagRange, counted_discriminants, counts};

use abi_base::{Integer, Size, TargetDataLayout};
use abi_index::{Idx, IndexVec};
use abi_scalar::{LayoutHandle, ReprOptions, WrappingRange};
use abi_univariant::any_uninhabited;
use std::alloc::{AllocError, Global};

/// The least and the greatest number that a tag has to hold.
#[derive(Clone, Copy)]
pub struct DiscrRange {
    /// 0 or less.
    pub least: i128,
    pub greatest: u128,
}

/// A tag that is asked for: its integer, and whether that is signed; and the discriminants that it has to hold, those that
/// count.
#[derive(Clone, Copy)]
pub(crate) struct TagRequest<'a> {
    pub(crate) integer: Integer,
    pub(crate) is_signed: bool,
    pub(crate) values: &'a [u128],
}

/// The discriminants that the iterator gives; there is room for `count` of them before any is asked for.
pub(crate) fn collect_discriminants<VariantIdx: Idx, I: Iterator<Item = (VariantIdx, u128)>>(
    alloc: Global,
    count: usize,
    discriminants: I,
) -> Result<Vec<(VariantIdx, u128)>, AllocError>
where
    I: Drop,
    requires can { I.can_next discriminants }
    requires ends { IsFinite (I.remaining discriminants) }
    ensures { IfOk result (λ list. WholeRun I.next_gives discriminants
        (λ run. list.items ≡ run.items)) }
{
    let mut list = Vec::with_capacity(alloc, count)?;
    for item in discriminants {
        list.push(item)?;
    }
    Ok(list)
}

/// Whether the discriminant of the variant at an index counts: under C each does, else those of variants whose every
/// field may have values.
fn counts<FieldIdx: Idx, VariantIdx: Idx, F: LayoutHandle<FieldIdx, VariantIdx>>(
    repr: &ReprOptions,
    variants: &[IndexVec<FieldIdx, F>],
    item: (VariantIdx, u128),
) -> bool
    requires { VariantIdx.number item.0 < length variants.now }
    ensures { result ≡ counts VariantIdx.number repr.now (map (map F.layout_of) variants.now) item }
{
    repr.c() || !any_uninhabited(variants[item.0.index()].as_slice().as_raw())
}

/// The discriminants that count.
pub(crate) fn counted_discriminants<
    FieldIdx: Idx,
    VariantIdx: Idx,
    F: LayoutHandle<FieldIdx, VariantIdx>,
>(
    alloc: Global,
    repr: &ReprOptions,
    variants: &[IndexVec<FieldIdx, F>],
    items: &[(VariantIdx, u128)],
) -> Result<Vec<u128>, AllocError>
    requires { All (λ item. VariantIdx.number item.0 < length variants.now) items.now }
    ensures { IfOk result (λ values. values.items ≡ counted_discriminants VariantIdx.number repr.now
        (map (map F.layout_of) variants.now) items.now) }
{
    let mut values = Vec::with_capacity(alloc, items.len())?;
    for &item in items {
        if counts(repr, variants, item) {
            values.push(item.1)?;
        }
    }
    Ok(values)
}

/// The greatest of the discriminants, 0 where there are none.
fn greatest_of(values: &[u128]) -> u128
    ensures { IsGreatestOf (pos 0 ∷ map pos values.now) (pos result) }
{
    let mut greatest = 0;
    for value in values {
        greatest = greatest.max(*value);
    }
    greatest
}

/// The least and the greatest of 0 and what the discriminants stand for as signed integers of so many bytes.
fn signed_ends(size: Size, values: &[u128]) -> DiscrRange
    requires { size ≤ 16 }
    ensures least { IsLeastOf
        (pos 0 ∷ map (λ v. signed_value (size * 8) (v % 2 ^ (size * 8))) values.now) result.least }
    ensures greatest { IsGreatestOf (pos 0 ∷ map
        (λ v. signed_value (size * 8) (v % 2 ^ (size * 8))) values.now) (pos result.greatest) }
{
    let mut least: i128 = 0;
    let mut greatest: i128 = 0;
    for value in values {
        let meant = size.sign_extend(*value);
        least = least.min(meant);
        greatest = greatest.max(meant);
    }
    DiscrRange {
        least,
        greatest: greatest as u128,
    }
}

/// The least and the greatest of 0 and what the discriminants stand for: the tag's integer has to hold them.
pub(crate) fn discr_range(dl: &TargetDataLayout, repr: &ReprOptions, values: &[u128]) -> DiscrRange
    requires { IsLawfulDataLayout dl.now }
    ensures { IsAskedWith dl.now repr.now values.now result.least result.greatest }
{
    let discr_type = repr.discr_type();
    if discr_type.is_signed() {
        signed_ends(Integer::from_attr(dl, discr_type).size(), values)
    } else {
        DiscrRange {
            least: 0,
            greatest: greatest_of(values),
        }
    }
}

/// The range of a tag of so many bytes.
pub(crate) fn tag_range(
    alloc: Global,
    size: Size,
    values: &[u128],
) -> Result<WrappingRange, AllocError>
    requires some { 1 ≤ size }
    requires most { size ≤ 16 }
    ensures { IfOk result (IsTagRange size values.now) }
{
    let mut cut = Vec::with_capacity(alloc, values.len())?;
    for value in values {
        cut.push(size.truncate(*value))?;
    }
    let found = WrappingRange::smallest_range_containing(alloc, cut, size)?;
    Ok(found.unwrap_or(WrappingRange { start: 0, end: 0 }))
}
