//! Which of a layout with a tag and one with a niche is the better one: what sums of sizes decide before both are made.

ghost use Rattle.std.specs.Prelude.{◌≡◌, ◌-◌, ◌^◌, ◌<◌, ◌≤◌, All, IfSome, map, nat_le};
ghost use Rattle.abi_base.specs.DataLayout.{IsLawfulDataLayout};
ghost use Rattle.abi_scalar.specs.Lawful.{IsLawfulLayout, IsLawfulNiche};
ghost use Rattle.abi_scalar.specs.Range.{numbers_of};
ghost use Rattle.abi_univariant.specs.Part.{max_align};
ghost use Rattle.abi_calc.specs.Enums.Bounds.{fits_behind, greatest_free, greatest_of_all, least_left, least_only, least_whole, left_beside, most_free, most_tag, only_align, outdoes, room_of_tag, tag_first, tag_wins, which_first, wins};

use crate::enums::growth::align_at;
use crate::enums::lists::align_with_all;
use crate::enums::strategy::is_free;
use abi_base::{Align, Integer, Size, TargetDataLayout};
use abi_index::{Idx, IndexVec};
use abi_scalar::{LayoutData, LayoutHandle, ReprOptions};
use abi_univariant::{free_numbers, round_up};

/// Which layout of an enum is made first.
#[derive(Clone, Copy)]
pub enum FirstLayout {
    /// The one with a tag: there is none with a niche.
    OnlyTagged,
    /// The one with a tag: one with a niche has at least so many bytes, and at most so many free numbers.
    Tagged { least: Size, free: u128 },
    /// The one with a niche, if there is one.
    Niche,
}

/// So many bytes without these, none where these are more.
fn size_without(whole: Size, part: Size) -> Size
    ensures { result ≡ whole - part }
{
    if part < whole {
        whole - part
    } else {
        Size::ZERO
    }
}

/// How many bytes a whole of this size has beside these fields, none where these are larger.
fn left_beside<FieldIdx: Idx, VariantIdx: Idx, F: LayoutHandle<FieldIdx, VariantIdx>>(
    whole: Size,
    fields: &[F],
) -> Size
    ensures { result ≡ left_beside whole (map F.layout_of fields.now) }
{
    let mut left = whole;
    for field in fields {
        left = size_without(left, field.layout().size);
    }
    left
}

/// The fewest bytes that it has beside the fields of some variant.
fn least_left<FieldIdx: Idx, VariantIdx: Idx, F: LayoutHandle<FieldIdx, VariantIdx>>(
    whole: Size,
    variants: &[IndexVec<FieldIdx, F>],
) -> Size
    ensures { result ≡ least_left whole (map (map F.layout_of) variants.now) }
{
    let mut least = whole;
    for fields in variants {
        least = least.min(left_beside(whole, fields.as_slice().as_raw()));
    }
    least
}

/// The alignment of a variant's only field, where that takes room; the greatest there is for any other variant.
fn only_align<FieldIdx: Idx, VariantIdx: Idx, F: LayoutHandle<FieldIdx, VariantIdx>>(
    fields: &[F],
) -> Align
    ensures { result ≡ only_align (map F.layout_of fields.now) }
{
    if fields.len() == 1 {
        align_at(fields, 0).unwrap_or(Align::MAX)
    } else {
        Align::MAX
    }
}

/// The least of those.
fn least_only<FieldIdx: Idx, VariantIdx: Idx, F: LayoutHandle<FieldIdx, VariantIdx>>(
    variants: &[IndexVec<FieldIdx, F>],
) -> Align
    ensures least { result ≡ least_only (map (map F.layout_of) variants.now) }
    ensures most { result ≤ max_align }
{
    let mut least = Align::MAX;
    for fields in variants {
        least = least.min(only_align(fields.as_slice().as_raw()));
    }
    least
}

/// How many bytes a tag that is asked for as this integer may grow to.
fn most_tag<FieldIdx: Idx, VariantIdx: Idx, F: LayoutHandle<FieldIdx, VariantIdx>>(
    asked: Integer,
    variants: &[IndexVec<FieldIdx, F>],
) -> Size
    ensures { result ≡ most_tag asked (map (map F.layout_of) variants.now) }
{
    asked
        .size()
        .max(Size::from_bytes(least_only(variants).bytes()))
}

/// How many bytes a tag that is asked for as this integer has at most, beside the variants' fields in a whole of this
/// size.
fn room_of_tag<FieldIdx: Idx, VariantIdx: Idx, F: LayoutHandle<FieldIdx, VariantIdx>>(
    whole: Size,
    asked: Integer,
    variants: &[IndexVec<FieldIdx, F>],
) -> Size
    ensures { result ≡ room_of_tag whole asked (map (map F.layout_of) variants.now) }
{
    least_left(whole, variants).min(most_tag(asked, variants))
}

/// Whether so many bytes have no more numbers than this.
fn has_no_more(width: Size, numbers: u128) -> bool
    ensures { result ≡ nat_le (numbers_of width) numbers }
{
    let bytes = width.bytes();
    bytes < 16 && 1u128 << (8 * bytes) <= numbers
}

/// Whether so many bytes, which are all that a tag may have, have no room for one of this integer, or no more numbers
/// than a niche leaves free: then no layout with a tag is as good.
fn outdoes(asked: Integer, left: Size, free: u128) -> bool
    ensures { result ≡ outdoes asked left free }
{
    left < asked.size() || has_no_more(left, free)
}

/// Whether a tag of this integer and this layout, each rounded up to the greater alignment of both, stay below the bound
/// together: then no variant, which is no larger than the layout, is too large behind the tag.
fn fits_behind<FieldIdx: Idx, VariantIdx: Idx>(
    dl: &TargetDataLayout,
    asked: Integer,
    layout: &LayoutData<FieldIdx, VariantIdx>,
) -> bool
    requires data_layout { IsLawfulDataLayout dl.now }
    requires align { layout.now.align.abi ≤ max_align }
    requires size { layout.now.size < 2 ^ 63 }
    ensures { result ≡ fits_behind dl.now asked layout.now }
{
    let align = layout.align.abi.max(asked.align(dl));
    let tag = round_up(asked.size(), align);
    let whole = round_up(layout.size, align);
    (tag + whole).bytes() < dl.obj_size_bound()
}

/// Whether this layout with a niche is sure to be the better one, and one with a tag of this integer to be there.
pub(crate) fn wins<FieldIdx: Idx, VariantIdx: Idx, F: LayoutHandle<FieldIdx, VariantIdx>>(
    dl: &TargetDataLayout,
    asked: Integer,
    layout: &LayoutData<FieldIdx, VariantIdx>,
    variants: &[IndexVec<FieldIdx, F>],
) -> bool
    requires data_layout { IsLawfulDataLayout dl.now }
    requires niche { IfSome layout.now.largest_niche (IsLawfulNiche dl.now layout.now.size) }
    requires align { layout.now.align.abi ≤ max_align }
    requires size { layout.now.size < 2 ^ 63 }
    ensures { result ≡ wins dl.now asked layout.now (map (map F.layout_of) variants.now) }
{
    if !fits_behind(dl, asked, layout) {
        return false;
    }
    let free = free_numbers(dl, layout.size, layout.largest_niche);
    outdoes(asked, room_of_tag(layout.size, asked, variants), free)
}

/// The most free numbers that a niche of these fields has, 0 where none has a niche.
fn greatest_free<FieldIdx: Idx, VariantIdx: Idx, F: LayoutHandle<FieldIdx, VariantIdx>>(
    dl: &TargetDataLayout,
    fields: &[F],
) -> u128
    requires { All (λ f. IsLawfulLayout dl.now (F.layout_of f)) fields.now }
    ensures { result ≡ greatest_free dl.now (map F.layout_of fields.now) }
{
    let mut most = 0;
    for field in fields {
        let layout = field.layout();
        most = most.max(free_numbers(dl, layout.size, layout.largest_niche));
    }
    most
}

/// The same of all variants.
fn greatest_of_all<FieldIdx: Idx, VariantIdx: Idx, F: LayoutHandle<FieldIdx, VariantIdx>>(
    dl: &TargetDataLayout,
    variants: &[IndexVec<FieldIdx, F>],
) -> u128
    requires { All (All (λ f. IsLawfulLayout dl.now (F.layout_of f))) variants.now }
    ensures { result ≡ greatest_of_all dl.now (map (map F.layout_of) variants.now) }
{
    let mut most = 0;
    for fields in variants {
        most = most.max(greatest_free(dl, fields.as_slice().as_raw()));
    }
    most
}

/// How many free numbers a layout with a niche has at most: there is none where this is 0.
fn most_free<FieldIdx: Idx, VariantIdx: Idx, F: LayoutHandle<FieldIdx, VariantIdx>>(
    dl: &TargetDataLayout,
    repr: &ReprOptions,
    variants: &[IndexVec<FieldIdx, F>],
) -> u128
    requires { All (All (λ f. IsLawfulLayout dl.now (F.layout_of f))) variants.now }
    ensures { result ≡ most_free dl.now repr.now (map (map F.layout_of) variants.now) }
{
    if is_free(repr) {
        greatest_of_all(dl, variants)
    } else {
        0
    }
}

/// How many bytes a layout of these variants has at least: those of the largest one's fields together, rounded up to the
/// greatest alignment of any field.
fn least_whole<FieldIdx: Idx, VariantIdx: Idx, F: LayoutHandle<FieldIdx, VariantIdx>>(
    dl: &TargetDataLayout,
    variants: &[IndexVec<FieldIdx, F>],
) -> Size
    requires data_layout { IsLawfulDataLayout dl.now }
    requires fields { All (All (λ f. IsLawfulLayout dl.now (F.layout_of f))) variants.now }
    ensures { result ≡ least_whole dl.now (map (map F.layout_of) variants.now) }
{
    let bound = Size::from_bytes(dl.obj_size_bound());
    let most = size_without(bound, least_left(bound, variants));
    round_up(most, align_with_all(Align::ONE, variants))
}

/// Whether a tag that is asked for as this integer has no more numbers than a niche leaves free, however far it grows: then
/// the layout with a niche is made first, whatever the sizes.
fn is_outnumbered<FieldIdx: Idx, VariantIdx: Idx, F: LayoutHandle<FieldIdx, VariantIdx>>(
    asked: Integer,
    free: u128,
    variants: &[IndexVec<FieldIdx, F>],
) -> bool
    ensures { result ≡ nat_le (numbers_of (most_tag asked (map (map F.layout_of) variants.now))) free }
{
    has_no_more(most_tag(asked, variants), free)
}

/// Whether the layout with a tag of this integer is made first: where one with a niche of so many bytes and free numbers
/// isn't sure to be the better one.
fn tag_first<FieldIdx: Idx, VariantIdx: Idx, F: LayoutHandle<FieldIdx, VariantIdx>>(
    asked: Integer,
    least: Size,
    free: u128,
    variants: &[IndexVec<FieldIdx, F>],
) -> bool
    ensures { result ≡ tag_first asked least free (map (map F.layout_of) variants.now) }
{
    !outdoes(asked, room_of_tag(least, asked, variants), free)
}

/// Which layout is made first, where the one with a tag is asked for as this integer. The sizes aren't summed up where
/// they don't matter.
pub(crate) fn which_first<FieldIdx: Idx, VariantIdx: Idx, F: LayoutHandle<FieldIdx, VariantIdx>>(
    dl: &TargetDataLayout,
    repr: &ReprOptions,
    asked: Integer,
    variants: &[IndexVec<FieldIdx, F>],
) -> FirstLayout
    requires data_layout { IsLawfulDataLayout dl.now }
    requires fields { All (All (λ f. IsLawfulLayout dl.now (F.layout_of f))) variants.now }
    ensures { result ≡ which_first dl.now repr.now asked (map (map F.layout_of) variants.now) }
{
    let free = most_free(dl, repr, variants);
    if free == 0 {
        return FirstLayout::OnlyTagged;
    }
    if is_outnumbered(asked, free, variants) {
        return FirstLayout::Niche;
    }
    let least = least_whole(dl, variants);
    if tag_first(asked, least, free, variants) {
        FirstLayout::Tagged { least, free }
    } else {
        FirstLayout::Niche
    }
}

/// Whether this layout with a tag is the better one, where one with a niche has at least so many bytes, and at most so
/// many free numbers.
pub(crate) fn tag_wins<FieldIdx: Idx, VariantIdx: Idx>(
    dl: &TargetDataLayout,
    least: Size,
    free: u128,
    layout: &LayoutData<FieldIdx, VariantIdx>,
) -> bool
    requires { IfSome layout.now.largest_niche (IsLawfulNiche dl.now layout.now.size) }
    ensures { result ≡ tag_wins dl.now least free layout.now }
{
    layout.size <= least && free <= free_numbers(dl, layout.size, layout.largest_niche)
}
