//! A type as a declaration of Rust, with comments that say where its parts lie.

ghost use Rattle.std.specs.Prelude.{◌<◌};
ghost use Rattle.abi_tree.specs.Laid.{placed_of};
ghost use Rattle.abi_tree.specs.Placed.{layout_of};

use crate::json::{MOST_LISTED, TypeContext, size_of_tree, variant_offsets};
use crate::labels::{offset_at, offsets_of};
use crate::lines::write_tag_of;
use abi_base::Size;
use abi_index::{IndexVec, RangeSet, VariantIdx};
use abi_rust::{Label, ReportShape, VariantLabels};
use abi_scalar::Variants;
use abi_text::{listed_unused, runs_of, write_niche, write_ranges};
use abi_tree::{Laid, TypeTree};
use rust_source::FieldName;
use rustc_abi::LayError;

/// A type that is declared: its name, what it is, and its tree.
#[derive(Clone, Copy)]
pub(crate) struct DeclaredType<'a> {
    pub(crate) name: &'a str,
    pub(crate) shape: &'a ReportShape,
    pub(crate) tree: &'a TypeTree,
}

/// The fields of a struct, a union or a variant, in source order.
#[derive(Clone, Copy)]
struct DeclaredFields<'a> {
    labels: &'a [Label],
    /// None where they all lie at 0.
    offsets: &'a [Size],
    trees: &'a [TypeTree],
    /// What stands before each line.
    indent: &'a str,
}

/// The variants of an enum, with the bytes that each leaves to others.
#[derive(Clone, Copy)]
struct EnumVariants<'a> {
    labels: &'a [VariantLabels],
    trees: &'a [(u128, Vec<TypeTree>)],
    unused: &'a IndexVec<VariantIdx, RangeSet>,
}

/// Whether fields have numbers in place of names.
fn is_tuple(labels: &[Label]) -> bool {
    match labels.first() {
        Some(label) => match label.name {
            FieldName::Named(_) => false,
            FieldName::Numbered(_) => true,
        },
        None => false,
    }
}

/// Writes a field as it is declared, and where it lies.
fn write_field(
    out: &mut String,
    cx: TypeContext<'_>,
    label: &Label,
    offset: u64,
    tree: &TypeTree,
) -> Result<(), LayError> {
    if let FieldName::Named(name) = label.name {
        let name = cx.names.text(name);
        write!(out, "{name}: ")?;
    }
    let written = cx.files.text_between(label.start, label.end);
    out.push_str(if written.is_empty() { "_" } else { written })?;
    let size = size_of_tree(cx.alloc, cx.dl, tree)?;
    write!(out, ", // offset {offset}, size {size}\n")?;
    Ok(())
}

/// Writes fields in brackets; nothing where there are none.
fn write_fields(
    out: &mut String,
    cx: TypeContext<'_>,
    fields: DeclaredFields<'_>,
) -> Result<(), LayError> {
    if fields.labels.is_empty() {
        return Ok(());
    }
    let is_tuple = is_tuple(fields.labels);
    out.push_str(if is_tuple { "(\n" } else { " {\n" })?;
    for (index, label) in fields.labels.iter().enumerate() {
        if let Some(tree) = fields.trees.get(index) {
            out.push_str(fields.indent)?;
            out.push_str("    ")?;
            write_field(out, cx, label, offset_at(fields.offsets, index), tree)?;
        }
    }
    out.push_str(fields.indent)?;
    out.push_str(if is_tuple { ")" } else { "}" })?;
    Ok(())
}

/// Writes a struct or a union, which a word begins.
fn write_struct(
    out: &mut String,
    cx: TypeContext<'_>,
    word: &str,
    name: &str,
    fields: DeclaredFields<'_>,
) -> Result<(), LayError> {
    write!(out, "{word} {name}")?;
    write_fields(out, cx, fields)?;
    let has_braces = !fields.labels.is_empty() && !is_tuple(fields.labels);
    out.push_str(if has_braces { "\n" } else { ";\n" })?;
    Ok(())
}

/// Writes the variants of an enum, each behind the bytes that it leaves to others.
fn write_variants(
    out: &mut String,
    cx: TypeContext<'_>,
    variants: EnumVariants<'_>,
    laid: &Laid,
) -> Result<(), LayError> {
    for (index, label) in variants.labels.iter().enumerate() {
        if let Some((_, trees)) = variants.trees.get(index) {
            let runs = match variants.unused.as_slice().as_raw().get(index) {
                Some(set) => set.as_slice(),
                None => &[],
            };
            write_ranges(out, "    // unused", runs)?;
            out.push_str("    ")?;
            out.push_str(cx.names.text(label.name))?;
            let fields = DeclaredFields {
                labels: &label.fields,
                offsets: variant_offsets(laid, index),
                trees,
                indent: "    ",
            };
            write_fields(out, cx, fields)?;
            out.push_str(",\n")?;
        }
    }
    Ok(())
}

/// Writes an enum, and where its tag lies.
fn write_enum(
    out: &mut String,
    cx: TypeContext<'_>,
    name: &str,
    variants: EnumVariants<'_>,
    laid: &Laid,
) -> Result<(), LayError> {
    write!(out, "enum {name} {{\n")?;
    write_variants(out, cx, variants, laid)?;
    out.push_str("}\n")?;
    if let Variants::Multiple { .. } = &laid.layout().variants {
        out.push_str("// ")?;
        write_tag_of(out, cx.names, variants.labels, laid)?;
    }
    Ok(())
}

/// Writes the padding of a type, a comment for each run.
fn write_padding(out: &mut String, cx: TypeContext<'_>, laid: &Laid) -> Result<(), LayError> {
    if laid.layout().size.bytes() > MOST_LISTED {
        return Ok(out.push_str("// padding not listed\n")?);
    }
    let (bytes, _visits) = laid.padding(cx.alloc)?;
    Ok(write_ranges(out, "// padding", bytes.as_slice())?)
}

/// Writes a type as it is declared, by its shape; one without named parts by its name alone.
fn write_declaration(
    out: &mut String,
    cx: TypeContext<'_>,
    ty: DeclaredType<'_>,
    laid: &Laid,
) -> Result<(), LayError> {
    let name = ty.name;
    match (ty.shape, ty.tree) {
        (ReportShape::Struct(labels), TypeTree::Struct { fields, .. }) => {
            let fields = DeclaredFields {
                labels,
                offsets: offsets_of(laid.layout()),
                trees: fields,
                indent: "",
            };
            write_struct(out, cx, "struct", name, fields)
        }
        (ReportShape::Union(labels), TypeTree::Union { fields, .. }) => {
            let fields = DeclaredFields {
                labels,
                offsets: &[],
                trees: fields,
                indent: "",
            };
            write_struct(out, cx, "union", name, fields)
        }
        (ReportShape::Enum(labels), TypeTree::Enum { variants, .. }) => {
            let unused = listed_unused(cx.alloc, laid)?;
            let variants = EnumVariants {
                labels,
                trees: variants,
                unused: &unused,
            };
            write_enum(out, cx, name, variants, laid)
        }
        _ => Ok(write!(out, "type {name};\n")?),
    }
}

/// Writes a type as a declaration of Rust, with comments: its size and alignment before it, the offset and the size of
/// each field behind it, the bytes that a variant leaves to others before it, and its tag, its largest niche and its
/// padding behind all, in bytes. A field's type is what the source writes, `_` where that is the standard library's.
pub(crate) fn write_pretty(
    out: &mut String,
    cx: TypeContext<'_>,
    ty: DeclaredType<'_>,
    laid: &Laid,
) -> Result<(), LayError>
    requires { (layout_of (placed_of laid.now)).align.abi < 64 }
{
    let layout = laid.layout();
    let size = layout.size.bytes();
    let align = layout.align.abi.bytes();
    write!(out, "// size {size}, align {align}\n")?;
    if layout.uninhabited {
        out.push_str("// uninhabited\n")?;
    }
    write_declaration(out, cx, ty, laid)?;
    if let ReportShape::Plain = ty.shape {
        return Ok(());
    }
    out.push_str("// ")?;
    write_niche(out, layout.largest_niche)?;
    write_padding(out, cx, laid)
}
