//! How the variants of a laid-out type are written.

ghost use Rattle.std.specs.Prelude.{◌≡◌, ℕ, ◌<◌, ◌≤◌, ◌+◌, ◌++◌, List, [], IfOk, OnOk, codes, get_or, length, string_bytes};
ghost use Rattle.abi_index.specs.Idx.{greatest_place};
ghost use Rattle.abi_index.specs.RangeSet.{AreMaximalRuns};
ghost use Rattle.abi_text.specs.Printing.{lines_of_variants, named_text, range_lines, printed_scalar, tag_line, unused_lines, variant_lines, variants_lines};
ghost use Rattle.abi_text.specs.Listed.{ListsUnused};
ghost use Rattle.abi_types.specs.Ty.Runs.{IsVariantOfSeveral};
ghost use Rattle.abi_tree.specs.Laid.{placed_of};
ghost use Rattle.abi_tree.specs.Placed.{layout_of};

use crate::numbered::write_numbered;
use crate::print::{MOST_LISTED, write_fields, write_primitive, write_ranges};
use abi_base::Size;
use abi_index::{FieldIdx, IndexVec, RangeSet, VariantIdx};
use abi_scalar::{RangeInclusive, Scalar, TagEncoding, VariantLayout, Variants};
use abi_tree::Laid;
use std::alloc::{AllocError, Global};

/// Of each variant that a tag tells apart the bytes that it doesn't use though another one may; none where the type has
/// more than 65,536 bytes. An error comes where a growth of memory was refused.
pub fn listed_unused(
    alloc: Global,
    laid: &Laid,
) -> Result<IndexVec<VariantIdx, RangeSet>, AllocError>
    ensures { IfOk result (ListsUnused (placed_of laid.now)) }
{
    if laid.layout().size.bytes() > MOST_LISTED {
        return Ok(IndexVec::new(alloc));
    }
    match &laid.layout().variants {
        Variants::Multiple {
            tag: _,
            tag_encoding: _,
            tag_field: _,
            variants: _,
        } => {
            let (unused, _visits) = laid.variant_padding(alloc)?;
            Ok(unused)
        }
        _ => Ok(IndexVec::new(alloc)),
    }
}

/// The runs of the set of a variant, each its first byte and how many; none where it has no set.
pub fn runs_of<'a>(
    sets: &'a IndexVec<VariantIdx, RangeSet>,
    variant: VariantIdx,
) -> &'a [(u64, u64)]
    ensures runs { result.now ≡ get_or sets.now variant [] }
    ensures maximal { AreMaximalRuns 0 result.now }
{
    match sets.get(variant) {
        Some(set) => set.as_slice(),
        None => &[],
    }
}

/// Writes a variant, the offsets of its fields, and the runs of bytes that it doesn't use.
fn write_variant(
    out: &mut String,
    variant: VariantIdx,
    offsets: &[Size],
    unused: &[(u64, u64)],
) -> Result<(), AllocError>
    requires { AreMaximalRuns 0 unused.now }
    ensures { OnOk result (string_bytes out.new ≡ string_bytes out.old
        ++ variant_lines variant offsets.now (range_lines (codes "unused") unused.now)) }
{
    write_numbered(out, "variant ", u64::from(variant.as_u32()))?;
    write_fields(out, offsets)?;
    write_ranges(out, "unused", unused)
}

/// Writes each of the variants, the first of which has the index 0.
fn write_each_variant(
    out: &mut String,
    laid: &Laid,
    unused: &IndexVec<VariantIdx, RangeSet>,
    variants: &[VariantLayout<FieldIdx>],
) -> Result<(), AllocError>
    requires unused { ListsUnused (placed_of laid.now) unused.now }
    requires most { length variants.now ≤ greatest_place + 1 }
    requires variants { (i : ℕ) → i < length variants.now →
        IsVariantOfSeveral (layout_of (placed_of laid.now)).variants i }
    ensures { OnOk result (string_bytes out.new ≡ string_bytes out.old ++ lines_of_variants
        (placed_of laid.now) 0 variants.now) }
{
    for (index, variant) in variants.iter().enumerate() {
        let offsets = variant.field_offsets.as_slice().as_raw();
        let variant = VariantIdx::from_usize(index);
        write_variant(out, variant, offsets, runs_of(unused, variant))?;
    }
    Ok(())
}

/// Writes the primitive of a scalar, and its range where it has one. An error comes where a growth of memory was refused.
pub fn write_scalar(out: &mut String, scalar: Scalar) -> Result<(), AllocError>
    ensures { OnOk result (string_bytes out.new ≡ string_bytes out.old ++ printed_scalar scalar) }
{
    match scalar {
        Scalar::Initialized { value, valid_range } => {
            write_primitive(out, value)?;
            write!(out, " {valid_range:?}")
        }
        Scalar::Union { value } => write_primitive(out, value),
    }
}

/// Writes which variants a niche names, and from which number on.
fn write_named(
    out: &mut String,
    untagged: VariantIdx,
    named: RangeInclusive<VariantIdx>,
    start: u128,
) -> Result<(), AllocError>
    ensures { OnOk result (string_bytes out.new
        ≡ string_bytes out.old ++ named_text untagged named start) }
{
    let untagged = untagged.as_u32();
    let first = named.start.as_u32();
    let last = named.last.as_u32();
    write!(
        out,
        " untagged {untagged} variants {first}..={last} start {start}"
    )
}

/// Writes which field the tag is, what it holds, and how it names a variant.
fn write_tag(
    out: &mut String,
    field: FieldIdx,
    tag: Scalar,
    encoding: TagEncoding<VariantIdx>,
) -> Result<(), AllocError>
    ensures { OnOk result (string_bytes out.new
        ≡ string_bytes out.old ++ tag_line field tag encoding) }
{
    let field = field.as_u32();
    match encoding {
        TagEncoding::Direct => {
            write!(out, "tag {field} direct ")?;
            write_scalar(out, tag)?;
            out.push_str("\n")
        }
        TagEncoding::Niche {
            untagged_variant,
            niche_variants,
            niche_start,
        } => {
            write!(out, "tag {field} niche ")?;
            write_scalar(out, tag)?;
            write_named(out, untagged_variant, niche_variants, niche_start)?;
            out.push_str("\n")
        }
    }
}

/// Writes the variants of a type that has several, and the tag that tells them apart.
pub(crate) fn write_variants(
    out: &mut String,
    laid: &Laid,
    unused: &IndexVec<VariantIdx, RangeSet>,
) -> Result<(), AllocError>
    requires { ListsUnused (placed_of laid.now) unused.now }
    ensures { let placed = placed_of laid.now in OnOk result (string_bytes out.new
        ≡ string_bytes out.old ++ variants_lines placed (layout_of placed).variants) }
{
    match &laid.layout().variants {
        Variants::Multiple {
            tag,
            tag_encoding,
            tag_field,
            variants,
        } => {
            write_each_variant(out, laid, unused, variants.as_slice().as_raw())?;
            write_tag(out, *tag_field, *tag, *tag_encoding)
        }
        Variants::Empty => Ok(()),
        Variants::Single { index: _ } => Ok(()),
    }
}
