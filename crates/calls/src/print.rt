//! How layouts are written: words apart, and a variant behind each semicolon.

use crate::command::Command;
use crate::layouts::Layout;
use crate::stop::Refusal;
use abi_base::{Align, Size};
use abi_index::{FieldIdx, RangeSet, VariantIdx};
use abi_scalar::{BackendRepr, FieldsShape, Niche, Scalar, TagEncoding, Variants, WrappingRange};
use std::alloc::Global;

/// Writes an alignment in bytes, or that it is beyond the limit.
pub(crate) fn write_align(command: &mut Command, align: Align) {
    if align > Align::MAX {
        command.write("beyond");
    } else {
        command.write_number(align.bytes());
    }
}

/// Writes runs of bytes, each by its first byte and the byte after its last, or that there are none.
pub(crate) fn write_runs(command: &mut Command, runs: &RangeSet) {
    let mut between = "";
    for (start, size) in runs.as_slice() {
        command.write_with_number(between, *start);
        command.write_with_number("..", start.saturating_add(*size));
        between = " ";
    }
    if between.is_empty() {
        command.write("none");
    }
}

/// Writes the names of what is so, or that there is none.
pub(crate) fn write_true(command: &mut Command, facts: &[(&str, bool)]) {
    let mut between = "";
    for (name, holds) in facts {
        if *holds {
            command.write(between);
            command.write(name);
            between = " ";
        }
    }
    if between.is_empty() {
        command.write("none");
    }
}

/// Writes the range, by its ends.
pub(crate) fn write_range(command: &mut Command, range: WrappingRange) {
    command.write_debugged(&range);
}

/// Writes a scalar: its primitive and its range, or that it is a union's.
fn write_scalar(command: &mut Command, scalar: Scalar) {
    match scalar {
        Scalar::Initialized { value, valid_range } => {
            command.write_primitive(value);
            command.write(" ");
            write_range(command, valid_range);
        }
        Scalar::Union { value } => {
            command.write("union ");
            command.write_primitive(value);
        }
    }
}

/// Writes where fields lie: the offset of each, and their order in memory.
fn write_listed(command: &mut Command, offsets: &[Size], order: &[FieldIdx]) {
    command.write(" offsets");
    for offset in offsets {
        command.write_with_number(" ", offset.bytes());
    }
    command.write(" order");
    for field in order {
        command.write_with_number(" ", u64::from(field.as_u32()));
    }
}

/// Writes where the fields of a type lie.
fn write_shape(command: &mut Command, shape: &FieldsShape<FieldIdx>) {
    match shape {
        FieldsShape::Primitive => command.write(" primitive"),
        FieldsShape::Union(count) => command.write_with_number(" union ", count.get() as u64),
        FieldsShape::Array { stride, count } => {
            command.write_with_number(" stride ", stride.bytes());
            command.write_with_number(" count ", *count);
        }
        FieldsShape::Arbitrary {
            offsets,
            in_memory_order,
        } => write_listed(
            command,
            offsets.as_slice().as_raw(),
            in_memory_order.as_slice().as_raw(),
        ),
    }
}

/// Writes a niche: its place, and what lies there.
pub(crate) fn write_niche(command: &mut Command, niche: Option<Niche>) {
    match niche {
        Some(
            Niche {
                offset,
                value,
                valid_range,
            },
        ) => {
            command.write_with_number("niche ", offset.bytes());
            command.write(" ");
            write_scalar(command, Scalar::Initialized { value, valid_range });
        }
        None => command.write("niche none"),
    }
}

/// Writes a pair of scalars, the second at an offset.
fn write_pair(command: &mut Command, a: Scalar, b: Scalar, offset: Size) {
    command.write(" seen ");
    write_scalar(command, a);
    command.write(" and ");
    write_scalar(command, b);
    command.write_with_number(" at ", offset.bytes());
}

/// Writes how a code generator sees a type; of sized bytes in memory nothing.
fn write_view(command: &mut Command, view: BackendRepr) {
    match view {
        BackendRepr::Memory { sized: true } => {}
        BackendRepr::Memory { sized: false } => command.write(" unsized"),
        BackendRepr::Scalar(scalar) => {
            command.write(" seen ");
            write_scalar(command, scalar);
        }
        BackendRepr::ScalarPair { a, b, b_offset } => write_pair(command, a, b, b_offset),
        BackendRepr::SimdVector { element, count } => {
            command.write_with_number(" seen ", count.as_u64());
            command.write(" of ");
            write_scalar(command, element);
        }
        BackendRepr::SimdScalableVector {
            element,
            count,
            number_of_vectors,
        } => {
            command.write_with_number(" seen ", u64::from(number_of_vectors.0));
            command.write_with_number(" scalable ", count.as_u64());
            command.write(" of ");
            write_scalar(command, element);
        }
    }
}

/// Writes the marks of a type that aren't the common ones.
fn write_marks(command: &mut Command, layout: &Layout) {
    if layout.unadjusted_abi_align != layout.align.abi {
        command.write(" unadjusted ");
        write_align(command, layout.unadjusted_abi_align);
    }
    if let Some(align) = layout.max_repr_align {
        command.write(" max-repr-align ");
        write_align(command, align);
    }
    if layout.repr_c {
        command.write(" repr-c");
    }
}

/// Writes a layout without its variants.
fn write_whole(command: &mut Command, layout: &Layout) {
    command.write_with_number("size ", layout.size.bytes());
    command.write(" align ");
    write_align(command, layout.align.abi);
    if layout.uninhabited {
        command.write(" uninhabited");
    }
    write_shape(command, &layout.fields);
    command.write(" ");
    write_niche(command, layout.largest_niche);
    write_view(command, layout.backend_repr);
    write_marks(command, layout);
}

/// Writes how a tag's number names a variant.
fn write_encoding(command: &mut Command, encoding: TagEncoding<VariantIdx>) {
    match encoding {
        TagEncoding::Direct => command.write(" direct"),
        TagEncoding::Niche {
            untagged_variant,
            niche_variants,
            niche_start,
        } => {
            command.write_with_number(" niche untagged ", u64::from(untagged_variant.as_u32()));
            command.write_with_number(" variants ", u64::from(niche_variants.start.as_u32()));
            command.write_with_number("..=", u64::from(niche_variants.last.as_u32()));
            command.write(" start ");
            command.write_wide(niche_start);
        }
    }
}

/// Writes the layout of one of several variants.
fn write_variant(command: &mut Command, layout: &Layout, index: VariantIdx) {
    match &layout.variants {
        Variants::Multiple { variants, .. } if index.as_usize() < variants.len() => {
            command.write_with_number("; variant ", u64::from(index.as_u32()));
            command.write(" ");
            match Layout::for_variant(command.alloc, layout, index) {
                Ok(variant) => write_whole(command, &variant),
                Err(_) => command.mark_cut(),
            }
        }
        _ => {}
    }
}

/// Writes the variants of a type; of one that is the first nothing.
fn write_variants(command: &mut Command, layout: &Layout) {
    match &layout.variants {
        Variants::Empty => command.write(" no-variant"),
        Variants::Single { index } => {
            let number = index.as_u32();
            if number > 0 {
                command.write_with_number(" variant ", u64::from(number));
            }
        }
        Variants::Multiple {
            tag,
            tag_encoding,
            tag_field,
            variants,
        } => {
            command.write_with_number(" tag ", u64::from(tag_field.as_u32()));
            command.write(" ");
            write_scalar(command, *tag);
            write_encoding(command, *tag_encoding);
            for index in variants.indices() {
                write_variant(command, layout, index);
            }
        }
    }
}

/// Writes a layout whole, but for its seed.
fn write_layout(command: &mut Command, layout: &Layout) {
    write_whole(command, layout);
    write_variants(command, layout);
}

/// Writes a layout whole, behind it its seed where the line asks for it, and ends the line.
fn write_answer(command: &mut Command, layout: &Layout) {
    let with_seed = command.takes(b"seed");
    command.end();
    write_layout(command, layout);
    if with_seed {
        command.write_with_number(" seed ", layout.randomization_seed.as_u64());
    }
}

/// Writes the layout that a call answers, or stops the line.
pub(crate) fn write_layout_or_stop(command: &mut Command, made: Result<Layout, Refusal>) {
    match made {
        Ok(layout) => write_answer(command, &layout),
        Err(stop) => command.stop(stop),
    }
}
