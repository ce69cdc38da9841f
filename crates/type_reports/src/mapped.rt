//! The map of a type, with the names of its fields and variants.

ghost use Rattle.std.specs.Prelude.{◌≡◌, ◌++◌, OnOk, slice_get, string_bytes};
ghost use Rattle.type_reports.specs.Labels.{label_text, labels_in, variant_text};

use crate::labels::write_field_name;
use abi_map::Called;
use abi_rust::{Label, ReportShape, VariantLabels};
use abi_scalar::Variants;
use abi_tree::{Laid, PartName};
use rust_source::Names;
use std::alloc::AllocError;

/// What the parts of a type are called: its fields and variants by their names.
#[derive(Clone, Copy)]
pub(crate) struct ByName<'a> {
    pub(crate) names: &'a Names,
    /// The labels of its own fields.
    pub(crate) fields: &'a [Label],
    /// Those of its variants, where a tag distinguishes them.
    pub(crate) variants: &'a [VariantLabels],
}

/// Writes the name of the field with this index.
fn write_label(
    out: &mut String,
    names: &Names,
    labels: &[Label],
    index: usize,
) -> Result<(), AllocError>
    ensures { OnOk result (string_bytes out.new ≡ string_bytes out.old
        ++ label_text names.now (slice_get labels.now index)) }
{
    match labels.get(index) {
        Some(label) => write_field_name(out, names, label.name),
        None => Ok(()),
    }
}

/// Writes the name of the variant with this index.
pub(crate) fn write_variant(
    out: &mut String,
    names: &Names,
    variants: &[VariantLabels],
    index: usize,
) -> Result<(), AllocError>
    ensures { OnOk result (string_bytes out.new ≡ string_bytes out.old
        ++ variant_text names.now (slice_get variants.now index)) }
{
    match variants.get(index) {
        Some(variant) => out.push_str(names.text(variant.name)),
        None => Ok(()),
    }
}

/// The labels of the fields of the variant with this index; none where there is no such variant.
fn labels_of(variants: &[VariantLabels], index: usize) -> &[Label]
    ensures { result.now ≡ labels_in (slice_get variants.now index) }
{
    match variants.get(index) {
        Some(variant) => &variant.fields,
        None => &[],
    }
}

impl Called for ByName<'_> {
    ghost use Rattle.type_reports.specs.Labels.{part_text};

    ghost called = { λ by name. part_text by.names.now by.fields.now by.variants.now name };

    fn write_name(&self, out: &mut String, name: PartName) -> Result<(), AllocError> {
        match name {
            PartName::Number => out.push_str("number"),
            PartName::Elements => out.push_str("elements"),
            PartName::Lanes => out.push_str("lanes"),
            PartName::Tag => out.push_str("tag"),
            PartName::Field(i) => {
                out.push_str("field ")?;
                write_label(out, self.names, self.fields, i)
            }
            PartName::VariantField(v, i) => {
                out.push_str("variant ")?;
                write_variant(out, self.names, self.variants, v)?;
                out.push_str(" field ")?;
                write_label(out, self.names, labels_of(self.variants, v), i)
            }
        }
    }
}

/// What the parts of a laid-out type of this shape are called. An enum that is laid out as one variant has that one's
/// fields.
pub(crate) fn by_name<'a>(names: &'a Names, shape: &'a ReportShape, laid: &Laid) -> ByName<'a> {
    let (fields, variants): (&'a [Label], &'a [VariantLabels]) = match shape {
        ReportShape::Plain => (&[], &[]),
        ReportShape::Struct(labels) => (labels, &[]),
        ReportShape::Union(labels) => (labels, &[]),
        ReportShape::Enum(variants) => match &laid.layout().variants {
            Variants::Single { index } => (labels_of(variants, index.as_usize()), &[]),
            _ => (&[], variants),
        },
    };
    ByName {
        names,
        fields,
        variants,
    }
}
