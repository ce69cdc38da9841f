//! A type as lines, with the names of its fields and variants.

ghost use Rattle.std.specs.Prelude.{◌≡◌, ℕ, ◌<◌, ◌≤◌, ◌+◌, ◌++◌, OnOk, length, slice_get, string_bytes};
ghost use Rattle.abi_index.specs.Idx.{greatest_place};
ghost use Rattle.abi_tree.specs.Laid.{placed_of};
ghost use Rattle.abi_tree.specs.Placed.{layout_of};
ghost use Rattle.abi_types.specs.Ty.Runs.{IsVariantOfSeveral};
ghost use Rattle.type_reports.specs.Lines.{labelled_fields, labelled_niche, offsets_in, own_offsets, parts_lines, labelled_range, rest_lines, several_lines, single_lines, labelled_tag, type_lines, labelled_variant, labelled_variants};

use crate::labels::{offset_at, offsets_of, write_field_name};
use crate::mapped::write_variant;
use abi_base::Size;
use abi_index::{FieldIdx, VariantIdx};
use abi_rust::{Label, ReportShape, VariantLabels};
use abi_scalar::{RangeInclusive, Scalar, TagEncoding, VariantLayout, Variants};
use abi_text::{
    listed_unused, runs_of, write_niche, write_padding, write_ranges, write_scalar, write_size,
    write_uninhabited,
};
use abi_tree::Laid;
use rust_source::Names;
use std::alloc::{AllocError, Global};

/// The variants of an enum, and the names of the source.
#[derive(Clone, Copy)]
struct NamedVariants<'a> {
    names: &'a Names,
    labels: &'a [VariantLabels],
}

/// Writes a line for each field: its name and its offset in bytes.
fn write_fields(
    out: &mut String,
    names: &Names,
    labels: &[Label],
    offsets: &[Size],
) -> Result<(), AllocError>
    ensures { OnOk result (string_bytes out.new
        ≡ string_bytes out.old ++ labelled_fields names.now 0 labels.now offsets.now) }
{
    for (index, label) in labels.iter().enumerate() {
        let offset = offset_at(offsets, index);
        out.push_str("field ")?;
        write_field_name(out, names, label.name)?;
        write!(out, " offset {offset}\n")?;
    }
    Ok(())
}

/// The offsets, where they are those of the variant with this index; none else.
fn own_offsets(single: Option<usize>, index: usize, offsets: &[Size]) -> &[Size]
    ensures { result.now ≡ own_offsets single index offsets.now }
{
    match single {
        Some(single) if single == index => offsets,
        _ => &[],
    }
}

/// Writes a variant, and the offsets of its fields.
fn write_one(
    out: &mut String,
    names: &Names,
    variant: &VariantLabels,
    offsets: &[Size],
) -> Result<(), AllocError>
    ensures { OnOk result (string_bytes out.new
        ≡ string_bytes out.old ++ labelled_variant names.now (Some variant.now) offsets.now) }
{
    out.push_str("variant ")?;
    out.push_str(names.text(variant.name))?;
    out.push_str("\n")?;
    write_fields(out, names, &variant.fields, offsets)
}

/// Writes the variant with this index, and the offsets of its fields.
fn write_one_of(
    out: &mut String,
    all: NamedVariants<'_>,
    index: usize,
    offsets: &[Size],
) -> Result<(), AllocError>
    ensures { OnOk result (string_bytes out.new ≡ string_bytes out.old
        ++ labelled_variant all.entry.names.now (slice_get all.entry.labels.now index) offsets.now) }
{
    match all.labels.get(index) {
        Some(variant) => write_one(out, all.names, variant, offsets),
        None => out.push_str("variant \n"),
    }
}

/// Writes the variants of an enum that is laid out as the one with this index, or as none of them; the fields of the
/// others lie at 0.
fn write_single(
    out: &mut String,
    names: &Names,
    labels: &[VariantLabels],
    single: Option<usize>,
    offsets: &[Size],
) -> Result<(), AllocError>
    ensures { OnOk result (string_bytes out.new
        ≡ string_bytes out.old ++ single_lines names.now single 0 labels.now offsets.now) }
{
    for (index, variant) in labels.iter().enumerate() {
        write_one(out, names, variant, own_offsets(single, index, offsets))?;
    }
    Ok(())
}

/// Writes each of the variants that a tag distinguishes, the first of which has the index 0.
fn write_several(
    alloc: Global,
    out: &mut String,
    all: NamedVariants<'_>,
    laid: &Laid,
    layouts: &[VariantLayout<FieldIdx>],
) -> Result<(), AllocError>
    requires most { length layouts.now ≤ greatest_place + 1 }
    requires variants { (i : ℕ) → i < length layouts.now →
        IsVariantOfSeveral (layout_of (placed_of laid.now)).variants i }
    ensures { OnOk result (string_bytes out.new ≡ string_bytes out.old
        ++ several_lines all.entry.names.now all.entry.labels.now (placed_of laid.now) 0 layouts.now) }
{
    let unused = listed_unused(alloc, laid)?;
    for (index, layout) in layouts.iter().enumerate() {
        let offsets = layout.field_offsets.as_slice().as_raw();
        write_one_of(out, all, index, offsets)?;
        write_ranges(
            out,
            "unused",
            runs_of(&unused, VariantIdx::from_usize(index)),
        )?;
    }
    Ok(())
}

/// Writes the first and the last of the variants that a niche names.
fn write_range(
    out: &mut String,
    all: NamedVariants<'_>,
    named: RangeInclusive<VariantIdx>,
) -> Result<(), AllocError>
    ensures { OnOk result (string_bytes out.new
        ≡ string_bytes out.old ++ labelled_range all.entry.names.now all.entry.labels.now named) }
{
    out.push_str(" variants ")?;
    write_variant(out, all.names, all.labels, named.start.as_usize())?;
    out.push_str("..=")?;
    write_variant(out, all.names, all.labels, named.last.as_usize())
}

/// Writes which variants a niche names, and from which number on.
fn write_named(
    out: &mut String,
    all: NamedVariants<'_>,
    untagged: VariantIdx,
    named: RangeInclusive<VariantIdx>,
    start: u128,
) -> Result<(), AllocError>
    ensures { OnOk result (string_bytes out.new
        ≡ string_bytes out.old ++ labelled_niche all.entry.names.now all.entry.labels.now untagged named start) }
{
    out.push_str(" untagged ")?;
    write_variant(out, all.names, all.labels, untagged.as_usize())?;
    write_range(out, all, named)?;
    write!(out, " start {start}")
}

/// Writes where the tag lies, in bytes, what it holds, and how it names a variant.
fn write_tag(
    out: &mut String,
    all: NamedVariants<'_>,
    offset: u64,
    tag: Scalar,
    encoding: TagEncoding<VariantIdx>,
) -> Result<(), AllocError>
    ensures { OnOk result (string_bytes out.new
        ≡ string_bytes out.old ++ labelled_tag all.entry.names.now all.entry.labels.now offset tag encoding) }
{
    match encoding {
        TagEncoding::Direct => {
            write!(out, "tag offset {offset} direct ")?;
            write_scalar(out, tag)?;
            out.push_str("\n")
        }
        TagEncoding::Niche {
            untagged_variant,
            niche_variants,
            niche_start,
        } => {
            write!(out, "tag offset {offset} niche ")?;
            write_scalar(out, tag)?;
            write_named(out, all, untagged_variant, niche_variants, niche_start)?;
            out.push_str("\n")
        }
    }
}

/// Writes the tag of an enum, where one distinguishes its variants.
pub(crate) fn write_tag_of(
    out: &mut String,
    names: &Names,
    labels: &[VariantLabels],
    laid: &Laid,
) -> Result<(), AllocError> {
    let layout = laid.layout();
    let Variants::Multiple {
        tag,
        tag_encoding,
        tag_field,
        variants: _,
    } = &layout.variants
    else {
        return Ok(());
    };
    let all = NamedVariants { names, labels };
    let offset = offset_at(offsets_of(layout), tag_field.as_usize());
    write_tag(out, all, offset, *tag, *tag_encoding)
}

/// Writes the variants of an enum, and the tag where it has one.
fn write_variants(
    alloc: Global,
    out: &mut String,
    names: &Names,
    labels: &[VariantLabels],
    laid: &Laid,
) -> Result<(), AllocError>
    ensures { let placed = placed_of laid.now in OnOk result (string_bytes out.new ≡ string_bytes out.old
        ++ labelled_variants names.now labels.now placed (offsets_in (layout_of placed).fields)
        (layout_of placed).variants) }
{
    let layout = laid.layout();
    let offsets = offsets_of(layout);
    match &layout.variants {
        Variants::Empty => write_single(out, names, labels, None, &[]),
        Variants::Single { index } => {
            write_single(out, names, labels, Some(index.as_usize()), offsets)
        }
        Variants::Multiple {
            tag,
            tag_encoding,
            tag_field,
            variants,
        } => {
            let all = NamedVariants { names, labels };
            write_several(alloc, out, all, laid, variants.as_slice().as_raw())?;
            let offset = offset_at(offsets, tag_field.as_usize());
            write_tag(out, all, offset, *tag, *tag_encoding)
        }
    }
}

/// Writes where the parts of a type lie, and whether it has no values.
fn write_parts(
    alloc: Global,
    out: &mut String,
    names: &Names,
    shape: &ReportShape,
    laid: &Laid,
) -> Result<(), AllocError>
    ensures { let placed = placed_of laid.now in OnOk result (string_bytes out.new
        ≡ string_bytes out.old ++ parts_lines names.now shape.now placed (layout_of placed)) }
{
    let layout = laid.layout();
    match shape {
        ReportShape::Plain => Ok(()),
        ReportShape::Struct(labels) => {
            write_uninhabited(out, layout.uninhabited)?;
            write_fields(out, names, labels, offsets_of(layout))
        }
        ReportShape::Union(labels) => write_fields(out, names, labels, &[]),
        ReportShape::Enum(labels) => {
            write_uninhabited(out, layout.uninhabited)?;
            write_variants(alloc, out, names, labels, laid)
        }
    }
}

/// Writes the largest niche and the padding of a type with named parts.
fn write_rest(
    alloc: Global,
    out: &mut String,
    shape: &ReportShape,
    laid: &Laid,
) -> Result<(), AllocError>
    ensures { OnOk result (string_bytes out.new
        ≡ string_bytes out.old ++ rest_lines shape.now (placed_of laid.now)) }
{
    if let ReportShape::Plain = shape {
        return Ok(());
    }
    write_niche(out, laid.layout().largest_niche)?;
    write_padding(alloc, out, laid)
}

/// Writes the lines of a type behind its name: its size and alignment; and of a type with fields or variants whether it
/// has no values, where they lie, its tag, its largest niche and its padding, all in bytes. An error comes where a growth
/// of memory was refused; a beginning of the lines may then stand in the text.
pub(crate) fn write_lines(
    alloc: Global,
    out: &mut String,
    names: &Names,
    shape: &ReportShape,
    laid: &Laid,
) -> Result<(), AllocError>
    requires align { (layout_of (placed_of laid.now)).align.abi < 64 }
    ensures { OnOk result (string_bytes out.new
        ≡ string_bytes out.old ++ type_lines names.now shape.now (placed_of laid.now)) }
{
    write_size(out, laid.layout())?;
    write_parts(alloc, out, names, shape, laid)?;
    write_rest(alloc, out, shape, laid)
}
