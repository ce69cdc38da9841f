//! How a laid-out type is written.

ghost use Rattle.std.specs.Prelude.{◌≡◌, ◌<◌, ◌++◌, OnOk, IfOk, replicate, string_bytes};
ghost use Rattle.abi_text.specs.Printing.{field_lines, layout_lines, niche_line, padding_lines, range_lines, shape_lines, size_line, type_text, uninhabited_line};
ghost use Rattle.abi_base.specs.Integer.{integer_text};
ghost use Rattle.abi_base.specs.Primitive.{primitive_text};
ghost use Rattle.abi_index.specs.RangeSet.{AreMaximalRuns};
ghost use Rattle.abi_tree.specs.Laid.{placed_of};
ghost use Rattle.abi_tree.specs.Placed.{layout_of};

use crate::numbered::write_two_numbered;
use crate::print_variants::{listed_unused, write_variants};
use abi_base::{Integer, Primitive, Size};
use abi_index::{FieldIdx, VariantIdx};
use abi_scalar::{FieldsShape, LayoutData, Niche};
use abi_tree::Laid;
use std::alloc::{AllocError, Global};

/// The bytes of a larger type aren't listed. In bytes.
pub(crate) const MOST_LISTED: u64 = 65_536;

/// Writes the size and the alignment, in bytes. What it asks holds of each type that `lay_out` answers. An error comes
/// where a growth of memory was refused.
pub fn write_size(
    out: &mut String,
    layout: &LayoutData<FieldIdx, VariantIdx>,
) -> Result<(), AllocError>
    requires { layout.now.align.abi < 64 }
    ensures { OnOk result (string_bytes out.new ≡ string_bytes out.old ++ size_line layout.now) }
{
    let size = layout.size.bytes();
    let align = layout.align.abi.bytes();
    write!(out, "size {size} align {align}\n")
}

/// Writes a line where the type has no values. An error comes where a growth of memory was refused.
pub fn write_uninhabited(out: &mut String, uninhabited: bool) -> Result<(), AllocError>
    ensures { OnOk result (string_bytes out.new
        ≡ string_bytes out.old ++ uninhabited_line uninhabited) }
{
    if uninhabited {
        out.push_str("uninhabited\n")
    } else {
        Ok(())
    }
}

/// Writes the offset of each field.
pub(crate) fn write_fields(out: &mut String, offsets: &[Size]) -> Result<(), AllocError>
    ensures { OnOk result (string_bytes out.new
        ≡ string_bytes out.old ++ field_lines 0 offsets.now) }
{
    for (index, offset) in offsets.iter().enumerate() {
        write_two_numbered(out, "field ", index as u64, " offset ", offset.bytes())?;
    }
    Ok(())
}

/// Writes the offset of each of `count` fields of a union.
fn write_union_fields(out: &mut String, count: usize) -> Result<(), AllocError>
    ensures { OnOk result (string_bytes out.new
        ≡ string_bytes out.old ++ field_lines 0 (replicate count 0)) }
{
    for index in 0..count {
        write_two_numbered(out, "field ", index as u64, " offset ", 0)?;
    }
    Ok(())
}

/// Writes where the elements or fields lie.
fn write_shape(out: &mut String, shape: &FieldsShape<FieldIdx>) -> Result<(), AllocError>
    ensures { OnOk result (string_bytes out.new ≡ string_bytes out.old ++ shape_lines shape.now) }
{
    match shape {
        FieldsShape::Array { stride, count } => {
            let stride = stride.bytes();
            let count = *count;
            write!(out, "elements stride {stride} count {count}\n")
        }
        FieldsShape::Arbitrary {
            offsets,
            in_memory_order: _,
        } => write_fields(out, offsets.as_slice().as_raw()),
        FieldsShape::Primitive => Ok(()),
        FieldsShape::Union(count) => write_union_fields(out, count.get()),
    }
}

/// The name of an integer type, as `i8` or `u8`.
fn integer_text(integer: Integer, signed: bool) -> &'static str
    ensures { result.now ≡ integer_text integer signed }
{
    if signed {
        integer.int_ty_str()
    } else {
        integer.uint_ty_str()
    }
}

/// Writes a primitive's name: `i8` to `u128` with the sign, `f32` and its like, `pointer` in the default address space
/// and `pointer(AddressSpace(N))` in another. An error comes where a growth of memory was refused.
pub fn write_primitive(out: &mut String, primitive: Primitive) -> Result<(), AllocError>
    ensures { OnOk result (string_bytes out.new
        ≡ string_bytes out.old ++ primitive_text primitive) }
{
    match primitive {
        Primitive::Int(integer, signed) => out.push_str(integer_text(integer, signed)),
        Primitive::Float(float) => out.push_str(float.ty_str()),
        Primitive::Pointer(space) => {
            let number = space.0;
            if number == 0 {
                out.push_str("pointer")
            } else {
                write!(out, "pointer(AddressSpace({number}))")
            }
        }
    }
}

/// Writes the place with the most free numbers: its offset in bytes, its primitive and its range. An error comes where a
/// growth of memory was refused.
pub fn write_niche(out: &mut String, niche: Option<Niche>) -> Result<(), AllocError>
    ensures { OnOk result (string_bytes out.new ≡ string_bytes out.old ++ niche_line niche) }
{
    match niche {
        Some(niche) => {
            let offset = niche.offset.bytes();
            let range = niche.valid_range;
            write!(out, "niche {offset} ")?;
            write_primitive(out, niche.value)?;
            write!(out, " {range:?}\n")
        }
        None => out.push_str("niche none\n"),
    }
}

/// Writes what there is to say of a type as a whole.
fn write_layout(
    out: &mut String,
    layout: &LayoutData<FieldIdx, VariantIdx>,
) -> Result<(), AllocError>
    requires { layout.now.align.abi < 64 }
    ensures { OnOk result (string_bytes out.new ≡ string_bytes out.old ++ layout_lines layout.now) }
{
    write_size(out, layout)?;
    write_uninhabited(out, layout.uninhabited)?;
    write_shape(out, &layout.fields)
}

/// Writes each run of bytes, its first byte and how many, behind this word, with the byte after its last. An error comes
/// where a growth of memory was refused.
pub fn write_ranges(out: &mut String, word: &str, runs: &[(u64, u64)]) -> Result<(), AllocError>
    requires { AreMaximalRuns 0 runs.now }
    ensures { OnOk result (string_bytes out.new
        ≡ string_bytes out.old ++ range_lines word.now runs.now) }
{
    for run in runs {
        let (start, size) = *run;
        out.push_str(word)?;
        let end = start + size;
        write_two_numbered(out, " ", start, "..", end)?;
    }
    Ok(())
}

/// Writes the runs of padding, in bytes; of a type of more than 65,536 bytes that they aren't listed. An error comes where
/// a growth of memory was refused.
pub fn write_padding(alloc: Global, out: &mut String, laid: &Laid) -> Result<(), AllocError>
    ensures { OnOk result (string_bytes out.new
        ≡ string_bytes out.old ++ padding_lines (placed_of laid.now)) }
{
    if laid.layout().size.bytes() > MOST_LISTED {
        return out.push_str("padding not listed\n");
    }
    let (bytes, _visits) = laid.padding(alloc)?;
    write_ranges(out, "padding", bytes.as_slice())
}

/// Writes all there is to say of a laid-out type behind what stands in the text, a line for each fact: the size and the
/// alignment, whether it has no values, its fields, its variants with the bytes that each doesn't use, the tag, the
/// largest niche, and the runs of padding, all in bytes. The lines are in `docs/FORMATS.md`. Of a type of more than
/// 65,536 bytes neither padding nor what variants don't use is listed.
///
/// What it asks holds of each type that `lay_out` answers. An error comes where a growth of memory was refused; a
/// beginning of the lines may then stand in the text.
pub fn write_type(alloc: Global, out: &mut String, laid: &Laid) -> Result<(), AllocError>
    requires { (layout_of (placed_of laid.now)).align.abi < 64 }
    ensures { OnOk result (string_bytes out.new
        ≡ string_bytes out.old ++ type_text (placed_of laid.now)) }
{
    let unused = listed_unused(alloc, laid)?;
    write_layout(out, laid.layout())?;
    write_variants(out, laid, &unused)?;
    write_niche(out, laid.layout().largest_niche)?;
    write_padding(alloc, out, laid)
}
