//! How a code generator sees a list of fields.

ghost use Rattle.std.specs.Prelude.{◌≡◌, ◌+◌, ◌<◌, ◌⊎◌, ⊤, All, MatchBool, length, not};
ghost use Rattle.abi_univariant.specs.declared.list_view.Bulk.TheVariants.{More, Nothing};
ghost use Rattle.abi_base.specs.DataLayout.{IsLawfulDataLayout};
ghost use Rattle.abi_scalar.specs.Scalar.{IsLawfulScalar};
ghost use Rattle.abi_univariant.specs.Part.{is_empty_view};
ghost use Rattle.abi_univariant.specs.LawfulPart.{IsLawfulPart};
ghost use Rattle.abi_univariant.specs.ListView.{any_unsized, bulk_of, bulk_with, bulky_parts, bulky_view, kept_view, list_view, one_view, pair_view, transparent_align, two_view};

use crate::part::{Part, Parts, is_unsized};
use abi_base::{Align, Size, TargetDataLayout};
use abi_index::Idx;
use abi_scalar::{BackendRepr, LayoutHandle, Scalar};

/// Whether the field has bytes, or is seen as more than bytes in memory.
fn is_bulky(view: &BackendRepr, size: Size) -> bool
    ensures { result ≡ not (is_empty_view view.now size) }
{
    match view {
        BackendRepr::Memory { sized } => !(*sized && size == Size::ZERO),
        _ => true,
    }
}

/// The fields that have bytes, or are seen as more than bytes in memory, by their indices: as far as the list's view
/// asks.
#[derive(Clone, Copy)]
pub enum Bulk {
    Nothing,
    One(usize),
    Two(usize, usize),
    More,
}

/// Such fields with one more, which comes after them.
fn bulk_with(bulk: Bulk, index: usize) -> Bulk
    ensures { result ≡ bulk_with bulk index }
{
    match bulk {
        Bulk::Nothing => Bulk::One(index),
        Bulk::One(first) => Bulk::Two(first, index),
        _ => Bulk::More,
    }
}

/// Whether there are more than a view asks for.
fn is_more(bulk: Bulk) -> bool
    ensures { MatchBool result (bulk ≡ More) ⊤ }
{
    match bulk {
        Bulk::More => true,
        _ => false,
    }
}

/// Whether a view may be one of theirs: where there are one or two.
fn is_few(bulk: Bulk) -> bool
    ensures { MatchBool result ⊤ ((bulk ≡ Nothing) ⊎ (bulk ≡ More)) }
{
    match bulk {
        Bulk::Nothing => false,
        Bulk::More => false,
        _ => true,
    }
}

/// Those of these fields; no field is looked at behind the third of them.
pub(crate) fn bulk_of<FieldIdx: Idx, VariantIdx: Idx, F: LayoutHandle<FieldIdx, VariantIdx>>(
    parts: &Parts<'_, FieldIdx, VariantIdx, F>,
) -> Bulk
    ensures { result ≡ bulk_of (bulky_parts parts.now) }
{
    let mut bulk = Bulk::Nothing;
    for index in 0..parts.len() {
        if is_more(bulk) {
            return bulk;
        }
        let layout = parts.layout_at(index);
        if is_bulky(&layout.backend_repr, layout.size) {
            bulk = bulk_with(bulk, index);
        }
    }
    bulk
}

/// Whether some field is unsized.
pub(crate) fn any_unsized<FieldIdx: Idx, VariantIdx: Idx, F: LayoutHandle<FieldIdx, VariantIdx>>(
    parts: &Parts<'_, FieldIdx, VariantIdx, F>,
) -> bool
    ensures { result ≡ any_unsized parts.now }
{
    for index in 0..parts.len() {
        if is_unsized(parts.layout_at(index).backend_repr) {
            return true;
        }
    }
    false
}

/// The view that a list takes over from the one field that fills it.
fn kept_view(fixed: bool, view: BackendRepr) -> BackendRepr
    ensures { result ≡ kept_view fixed view }
{
    match view {
        BackendRepr::ScalarPair { .. } => view,
        BackendRepr::Scalar(_) | BackendRepr::SimdVector { .. } if !fixed => view,
        _ => BackendRepr::Memory { sized: true },
    }
}

/// The view of a list with one field that has bytes.
fn one_view(fixed: bool, size: Size, align: Align, offset: Size, part: &Part) -> BackendRepr
    ensures { result ≡ one_view fixed size align offset part.now }
{
    if offset == Size::ZERO && align == part.align && size == part.size {
        kept_view(fixed, part.view)
    } else {
        BackendRepr::Memory { sized: true }
    }
}

/// The view of a list with two scalars, in memory order.
pub fn pair_view(
    dl: &TargetDataLayout,
    size: Size,
    align: Align,
    low: Size,
    a: Scalar,
    high: Size,
    b: Scalar,
) -> BackendRepr
    requires data_layout { IsLawfulDataLayout dl.now }
    requires first { IsLawfulScalar dl.now a }
    requires second { IsLawfulScalar dl.now b }
    ensures { result ≡ pair_view dl.now size align low a high b }
{
    let b_offset = a.size(dl).align_to(b.default_align(dl));
    let pair_align = a
        .default_align(dl)
        .max(b.default_align(dl))
        .max(dl.aggregate_align);
    let pair_size = (b_offset + b.size(dl)).align_to(pair_align);
    if low == Size::ZERO && high == b_offset && align == pair_align && size == pair_size {
        BackendRepr::ScalarPair { a, b, b_offset }
    } else {
        BackendRepr::Memory { sized: true }
    }
}

/// The view of a list with two fields that have bytes.
fn two_view(
    dl: &TargetDataLayout,
    size: Size,
    align: Align,
    first: Size,
    one: &Part,
    second: Size,
    other: &Part,
) -> BackendRepr
    requires data_layout { IsLawfulDataLayout dl.now }
    requires one { IsLawfulPart dl.now one.now }
    requires other { IsLawfulPart dl.now other.now }
    ensures { result ≡ two_view dl.now size align first one.now.view second other.now.view }
{
    let BackendRepr::Scalar(a) = one.view else {
        return BackendRepr::Memory { sized: true };
    };
    let BackendRepr::Scalar(b) = other.view else {
        return BackendRepr::Memory { sized: true };
    };
    if first < second {
        pair_view(dl, size, align, first, a, second, b)
    } else {
        pair_view(dl, size, align, second, b, first, a)
    }
}

/// The view of a list by those of its fields that have bytes, or are seen as more than bytes in memory.
fn bulky_view<FieldIdx: Idx, VariantIdx: Idx, F: LayoutHandle<FieldIdx, VariantIdx>>(
    dl: &TargetDataLayout,
    fixed: bool,
    size: Size,
    align: Align,
    parts: &Parts<'_, FieldIdx, VariantIdx, F>,
    offsets: &[Size],
    bulk: Bulk,
) -> BackendRepr
    requires data_layout { IsLawfulDataLayout dl.now }
    requires parts { All (IsLawfulPart dl.now) parts.now }
    requires count { length offsets.now ≡ length parts.now }
    requires bulk { bulk ≡ bulk_of (bulky_parts parts.now) }
    ensures { result
        ≡ bulky_view dl.now fixed size align parts.now offsets.now (bulky_parts parts.now) }
{
    match bulk {
        Bulk::One(i) => one_view(fixed, size, align, offsets[i], &parts.at(i)),
        Bulk::Two(i, j) => {
            let one = parts.at(i);
            let other = parts.at(j);
            two_view(dl, size, align, offsets[i], &one, offsets[j], &other)
        }
        _ => BackendRepr::Memory { sized: true },
    }
}

/// How a code generator sees a list of this size and alignment, whose fields lie at these offsets.
#[inline(always)]
pub(crate) fn list_view<FieldIdx: Idx, VariantIdx: Idx, F: LayoutHandle<FieldIdx, VariantIdx>>(
    dl: &TargetDataLayout,
    fixed: bool,
    size: Size,
    align: Align,
    parts: &Parts<'_, FieldIdx, VariantIdx, F>,
    offsets: &[Size],
    bulk: Bulk,
) -> BackendRepr
    requires data_layout { IsLawfulDataLayout dl.now }
    requires parts { All (IsLawfulPart dl.now) parts.now }
    requires count { length offsets.now ≡ length parts.now }
    requires bulk { bulk ≡ bulk_of (bulky_parts parts.now) }
    ensures { result ≡ list_view dl.now fixed size align parts.now offsets.now }
{
    let sized = !any_unsized(parts);
    // (one branch for all that is seen as bytes: a view is large, and copied where branches meet)
    if !sized | (size == Size::ZERO) | !is_few(bulk) {
        BackendRepr::Memory { sized }
    } else {
        bulky_view(dl, fixed, size, align, parts, offsets, bulk)
    }
}

/// The alignment of a transparent list before a `repr(align)` raised it: that of its one field with bytes, else
/// the list's.
pub(crate) fn transparent_align<
    FieldIdx: Idx,
    VariantIdx: Idx,
    F: LayoutHandle<FieldIdx, VariantIdx>,
>(size: Size, align: Align, parts: &Parts<'_, FieldIdx, VariantIdx, F>, bulk: Bulk) -> Align
    requires { bulk ≡ bulk_of (bulky_parts parts.now) }
    ensures { result ≡ transparent_align size align parts.now }
{
    if any_unsized(parts) || size == Size::ZERO {
        return align;
    }
    match bulk {
        Bulk::One(i) => parts.at(i).unadjusted_align,
        _ => align,
    }
}
