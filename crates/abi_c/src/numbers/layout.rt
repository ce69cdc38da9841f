//! Layouts as numbers.

ghost use Rattle.std.specs.Prelude.{◌≡◌, ◌<◌, ◌++◌, ◌∷◌, [], IfOk, OnOk, Option, Some, None, length, option_map};
ghost use Rattle.abi_index.specs.RangeSet.{AreMaximalRuns};
ghost use Rattle.abi_tree.specs.Laid.{placed_of};
ghost use Rattle.abi_tree.specs.Placed.{layout_of, size_of};
ghost use Rattle.abi_c.specs.Numbers.Pieces.{flat_wide};
ghost use Rattle.abi_c.specs.Numbers.FlatScalar.{flat_primitive};
ghost use Rattle.abi_c.specs.Numbers.FlatTree.{flat_pairs};
ghost use Rattle.abi_c.specs.Numbers.FlatLayout.{eight, flat_beside, flat_each_variant_layout, flat_encoding, flat_head, flat_layout, flat_listed, flat_niche, flat_shape, flat_variant_layout, flat_variants_head, flat_view, listed_padding, no_scalar, with_runs};

use crate::numbers::scalar::{float_number, integer_number};
use abi_base::{Primitive, Size};
use abi_index::{FieldIdx, VariantIdx};
use abi_scalar::{
    BackendRepr, FieldsShape, LayoutData, Niche, Scalar, TagEncoding, VariantLayout, Variants,
};
use abi_tree::Laid;
use std::alloc::{AllocError, Global};

/// The bytes of a larger type aren't listed. In bytes.
const MOST_LISTED: u64 = 65_536;

/// How many numbers a layout may have before more room is asked for.
const FIRST_ROOM: usize = 128;

/// Adds a number of 128 bits.
pub(crate) fn write_wide(out: &mut Vec<u64>, number: u128) -> Result<(), AllocError>
    ensures { OnOk result (out.new.items ≡ out.old.items ++ flat_wide number) }
{
    out.extend_from_slice(&[(number % (1 << 64)) as u64, (number / (1 << 64)) as u64])
}

/// Adds a primitive.
pub(crate) fn write_primitive(out: &mut Vec<u64>, value: Primitive) -> Result<(), AllocError>
    ensures { OnOk result (out.new.items ≡ out.old.items ++ flat_primitive value) }
{
    match value {
        Primitive::Int(integer, signed) => {
            out.extend_from_slice(&[0, integer_number(integer), u64::from(signed)])
        }
        Primitive::Float(float) => out.extend_from_slice(&[1, float_number(float), 0]),
        Primitive::Pointer(space) => out.extend_from_slice(&[2, u64::from(space.0), 0]),
    }
}

/// Adds the numbers of no scalar.
fn write_no_scalar(out: &mut Vec<u64>) -> Result<(), AllocError>
    ensures { OnOk result (out.new.items ≡ out.old.items ++ no_scalar) }
{
    out.extend_from_slice(&[0, 0, 0, 0, 0, 0, 0, 0])
}

/// Adds a scalar.
fn write_scalar(out: &mut Vec<u64>, scalar: Scalar) -> Result<(), AllocError>
    ensures { OnOk result (out.new.items ≡ out.old.items ++ eight scalar) }
{
    match scalar {
        Scalar::Initialized { value, valid_range } => {
            out.extend_from_slice(&[1])?;
            write_primitive(out, value)?;
            write_wide(out, valid_range.start)?;
            write_wide(out, valid_range.end)
        }
        Scalar::Union { value } => {
            out.extend_from_slice(&[2])?;
            write_primitive(out, value)?;
            out.extend_from_slice(&[0, 0, 0, 0])
        }
    }
}

/// Adds where fields lie.
fn write_shape(out: &mut Vec<u64>, shape: &FieldsShape<FieldIdx>) -> Result<(), AllocError>
    ensures { OnOk result (out.new.items ≡ out.old.items ++ flat_shape shape.now) }
{
    match shape {
        FieldsShape::Primitive => out.extend_from_slice(&[0, 0, 0]),
        FieldsShape::Union(count) => out.extend_from_slice(&[1, count.get() as u64, 0]),
        FieldsShape::Array { stride, count } => {
            out.extend_from_slice(&[2, *count, stride.bytes()])
        }
        FieldsShape::Arbitrary {
            offsets,
            in_memory_order: _,
        } => out.extend_from_slice(&[3, offsets.len() as u64, 0]),
    }
}

/// Adds how a tag names a variant.
fn write_encoding(out: &mut Vec<u64>, encoding: TagEncoding<VariantIdx>) -> Result<(), AllocError>
    ensures { OnOk result (out.new.items ≡ out.old.items ++ flat_encoding encoding) }
{
    match encoding {
        TagEncoding::Direct => out.extend_from_slice(&[0, 0, 0, 0, 0, 0]),
        TagEncoding::Niche {
            untagged_variant,
            niche_variants,
            niche_start,
        } => {
            let untagged = u64::from(untagged_variant.as_u32());
            let first = u64::from(niche_variants.start.as_u32());
            let last = u64::from(niche_variants.last.as_u32());
            out.extend_from_slice(&[1, untagged, first, last])?;
            write_wide(out, niche_start)
        }
    }
}

/// Adds which variants there are, without their layouts.
fn write_variants_head(
    out: &mut Vec<u64>,
    variants: &Variants<FieldIdx, VariantIdx>,
) -> Result<(), AllocError>
    ensures { OnOk result (out.new.items ≡ out.old.items ++ flat_variants_head variants.now) }
{
    match variants {
        Variants::Empty => {
            out.extend_from_slice(&[0, 0, 0])?;
            write_no_scalar(out)?;
            write_encoding(out, TagEncoding::Direct)
        }
        Variants::Single { index } => {
            out.extend_from_slice(&[1, u64::from(index.as_u32()), 0])?;
            write_no_scalar(out)?;
            write_encoding(out, TagEncoding::Direct)
        }
        Variants::Multiple {
            tag,
            tag_encoding,
            tag_field,
            variants,
        } => {
            let field = u64::from(tag_field.as_u32());
            out.extend_from_slice(&[2, field, variants.len() as u64])?;
            write_scalar(out, *tag)?;
            write_encoding(out, *tag_encoding)
        }
    }
}

/// Adds how a code generator sees the values.
fn write_view(out: &mut Vec<u64>, view: BackendRepr) -> Result<(), AllocError>
    ensures { OnOk result (out.new.items ≡ out.old.items ++ flat_view view) }
{
    match view {
        BackendRepr::Memory { sized } => {
            out.extend_from_slice(&[0, u64::from(sized), 0])?;
            write_no_scalar(out)?;
            write_no_scalar(out)
        }
        BackendRepr::Scalar(scalar) => {
            out.extend_from_slice(&[1, 0, 0])?;
            write_scalar(out, scalar)?;
            write_no_scalar(out)
        }
        BackendRepr::ScalarPair { a, b, b_offset } => {
            out.extend_from_slice(&[2, b_offset.bytes(), 0])?;
            write_scalar(out, a)?;
            write_scalar(out, b)
        }
        BackendRepr::SimdVector { element, count } => {
            out.extend_from_slice(&[3, count.as_u64(), 0])?;
            write_scalar(out, element)?;
            write_no_scalar(out)
        }
        BackendRepr::SimdScalableVector {
            element,
            count,
            number_of_vectors,
        } => {
            out.extend_from_slice(&[4, count.as_u64(), u64::from(number_of_vectors.0)])?;
            write_scalar(out, element)?;
            write_no_scalar(out)
        }
    }
}

/// Adds the place with the most free numbers.
fn write_niche(out: &mut Vec<u64>, niche: Option<Niche>) -> Result<(), AllocError>
    ensures { OnOk result (out.new.items ≡ out.old.items ++ flat_niche niche) }
{
    match niche {
        None => {
            out.extend_from_slice(&[0])?;
            write_no_scalar(out)
        }
        Some(niche) => {
            out.extend_from_slice(&[niche.offset.bytes()])?;
            write_scalar(
                out,
                Scalar::Initialized {
                    value: niche.value,
                    valid_range: niche.valid_range,
                },
            )
        }
    }
}

/// Adds what stands at fixed places of a layout.
fn write_head(
    out: &mut Vec<u64>,
    layout: &LayoutData<FieldIdx, VariantIdx>,
) -> Result<(), AllocError>
    requires { layout.now.align.abi < 64 }
    ensures { OnOk result (out.new.items ≡ out.old.items ++ flat_head layout.now) }
{
    let (size, align) = (layout.size.bytes(), layout.align.abi.bytes());
    out.extend_from_slice(&[size, align, u64::from(layout.uninhabited)])?;
    write_shape(out, &layout.fields)?;
    write_variants_head(out, &layout.variants)?;
    write_view(out, layout.backend_repr)?;
    write_niche(out, layout.largest_niche)
}

/// Adds offsets, in bytes.
fn write_offsets(out: &mut Vec<u64>, offsets: &[Size]) -> Result<(), AllocError>
    ensures { OnOk result (out.new.items ≡ out.old.items ++ offsets.now) }
{
    for offset in offsets {
        out.push(offset.bytes())?;
    }
    Ok(())
}

/// Adds an order in memory.
fn write_order(out: &mut Vec<u64>, order: &[FieldIdx]) -> Result<(), AllocError>
    ensures { OnOk result (out.new.items ≡ out.old.items ++ order.now) }
{
    for field in order {
        out.push(u64::from(field.as_u32()))?;
    }
    Ok(())
}

/// Adds the fields that are listed.
fn write_listed(out: &mut Vec<u64>, shape: &FieldsShape<FieldIdx>) -> Result<(), AllocError>
    ensures { OnOk result (out.new.items ≡ out.old.items ++ flat_listed shape.now) }
{
    match shape {
        FieldsShape::Arbitrary {
            offsets,
            in_memory_order,
        } => {
            write_offsets(out, offsets.as_slice().as_raw())?;
            write_order(out, in_memory_order.as_slice().as_raw())
        }
        _ => Ok(()),
    }
}

/// Adds a variant.
fn write_variant(out: &mut Vec<u64>, variant: &VariantLayout<FieldIdx>) -> Result<(), AllocError>
    ensures { OnOk result (out.new.items ≡ out.old.items ++ flat_variant_layout variant.now) }
{
    let offsets = variant.field_offsets.as_slice().as_raw();
    let empty = u64::from(variant.is_uninhabited());
    out.extend_from_slice(&[variant.size.bytes(), empty, offsets.len() as u64])?;
    write_offsets(out, offsets)?;
    write_order(out, variant.in_memory_order())
}

/// Adds variants.
fn write_each_variant(
    out: &mut Vec<u64>,
    variants: &[VariantLayout<FieldIdx>],
) -> Result<(), AllocError>
    ensures { OnOk result (out.new.items ≡ out.old.items ++ flat_each_variant_layout variants.now) }
{
    for variant in variants {
        write_variant(out, variant)?;
    }
    Ok(())
}

/// Adds the variants beside a tag.
fn write_beside(
    out: &mut Vec<u64>,
    variants: &Variants<FieldIdx, VariantIdx>,
) -> Result<(), AllocError>
    ensures { OnOk result (out.new.items ≡ out.old.items ++ flat_beside variants.now) }
{
    match variants {
        Variants::Multiple { variants, .. } => write_each_variant(
            out,
            variants.as_slice().as_raw(),
        ),
        _ => Ok(()),
    }
}

/// Adds runs of bytes.
fn write_runs(out: &mut Vec<u64>, runs: &[(u64, u64)]) -> Result<(), AllocError>
    ensures { OnOk result (out.new.items ≡ out.old.items ++ flat_pairs runs.now) }
{
    for run in runs {
        out.extend_from_slice(&[run.0, run.1])?;
    }
    Ok(())
}

/// Adds a layout's lists, with runs of padding before and behind, if they are listed.
fn write_lists(
    out: &mut Vec<u64>,
    layout: &LayoutData<FieldIdx, VariantIdx>,
    runs: Option<&[(u64, u64)]>,
) -> Result<(), AllocError>
    ensures { OnOk result (out.new.items ≡ out.old.items ++ with_runs (option_map (λ r. r.now) runs.entry)
        (flat_listed layout.now.fields ++ flat_beside layout.now.variants)) }
{
    match runs {
        Some(runs) => {
            out.extend_from_slice(&[1, runs.len() as u64])?;
            write_listed(out, &layout.fields)?;
            write_beside(out, &layout.variants)?;
            write_runs(out, runs)
        }
        None => {
            out.extend_from_slice(&[0, 0])?;
            write_listed(out, &layout.fields)?;
            write_beside(out, &layout.variants)
        }
    }
}

/// The numbers of a laid-out type, as `docs/NUMBERS.md` has them; of a type of more than 65,536 bytes without the runs
/// of its padding. What it asks holds of each type that `lay_out` answers. `AllocError` where a growth of memory was
/// refused.
pub(crate) fn write_layout(alloc: Global, laid: &Laid) -> Result<Vec<u64>, AllocError>
    requires { (layout_of (placed_of laid.now)).align.abi < 64 }
    ensures { IfOk result (λ numbers. numbers.items ≡ flat_layout (placed_of laid.now)) }
{
    let layout = laid.layout();
    let mut out = Vec::with_capacity(alloc, FIRST_ROOM)?;
    write_head(&mut out, layout)?;
    if layout.size.bytes() > MOST_LISTED {
        write_lists(&mut out, layout, None)?;
        return Ok(out);
    }
    let (bytes, _visits) = laid.padding(alloc)?;
    write_lists(&mut out, layout, Some(bytes.as_slice()))?;
    Ok(out)
}
