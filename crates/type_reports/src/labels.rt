//! What fields and variants are called.

ghost use Rattle.std.specs.Prelude.{◌≡◌, ◌++◌, OnOk, get_or, string_bytes};
ghost use Rattle.type_reports.specs.Labels.{field_text};
ghost use Rattle.type_reports.specs.Lines.{offsets_in};

use abi_base::Size;
use abi_index::{FieldIdx, VariantIdx};
use abi_scalar::{FieldsShape, LayoutData};
use rust_source::{FieldName, Names};
use std::alloc::AllocError;

/// Writes the name of a field: as it is written, or its number. An error comes where a growth of memory was refused.
pub(crate) fn write_field_name(
    out: &mut String,
    names: &Names,
    name: FieldName,
) -> Result<(), AllocError>
    ensures { OnOk result (string_bytes out.new
        ≡ string_bytes out.old ++ field_text names.now name) }
{
    match name {
        FieldName::Named(name) => out.push_str(names.text(name)),
        FieldName::Numbered(number) => write!(out, "{number}"),
    }
}

/// The offsets of the fields of a struct or a variant, in source order; none where they all lie at 0.
pub(crate) fn offsets_of(layout: &LayoutData<FieldIdx, VariantIdx>) -> &[Size]
    ensures { result.now ≡ offsets_in layout.now.fields }
{
    match &layout.fields {
        FieldsShape::Arbitrary {
            offsets,
            in_memory_order: _,
        } => offsets.as_slice().as_raw(),
        _ => &[],
    }
}

/// The offset of a field, in bytes; 0 where the list has none.
pub(crate) fn offset_at(offsets: &[Size], index: usize) -> u64
    ensures { result ≡ get_or offsets.now index 0 }
{
    match offsets.get(index) {
        Some(offset) => offset.bytes(),
        None => 0,
    }
}
