//! A type as JSON, and the document of all types (`docs/types.schema.json`).

ghost use Rattle.std.specs.Prelude.{◌<◌, IfOk, string_bytes};
ghost use Rattle.abi_tree.specs.Laid.{placed_of};
ghost use Rattle.abi_tree.specs.Placed.{layout_of};
ghost use Rattle.type_reports.specs.Document.{IsDocument};

use crate::crate_files::CrateFiles;
use crate::labels::{offset_at, offsets_of, write_field_name};
use crate::options::ReportOptions;
use crate::parts::layout_value;
use crate::place::position_of;
use abi_base::{Size, TargetDataLayout};
use abi_rust::{Label, ReportShape, VariantLabels};
use abi_scalar::{Niche, Scalar, TagEncoding, Variants};
use abi_text::write_scalar;
use abi_tree::{Laid, TypeTree};
use rust_source::Names;
use rustc_abi::{LayError, lay_out};
use serde_json::{Map, Value};
use std::alloc::{AllocError, Global};

/// The bytes of a larger type aren't listed. In bytes.
pub(crate) const MOST_LISTED: u64 = 65_536;

/// What types are written with, by the names and the texts of their parts.
#[derive(Clone, Copy)]
pub(crate) struct TypeContext<'a> {
    pub(crate) alloc: Global,
    pub(crate) dl: &'a TargetDataLayout,
    pub(crate) names: &'a Names,
    /// The files, of which types are cut out as they are written.
    pub(crate) files: &'a CrateFiles<'a>,
}

/// Puts a member into an object.
pub(crate) fn put_member(
    alloc: Global,
    object: &mut Map<String, Value>,
    key: &str,
    value: Value,
) -> Result<(), AllocError> {
    object.insert(String::from_str(alloc, key)?, value)?;
    Ok(())
}

/// Puts a text into an object.
pub(crate) fn put_text(
    alloc: Global,
    object: &mut Map<String, Value>,
    key: &str,
    text: &str,
) -> Result<(), AllocError> {
    let text = String::from_str(alloc, text)?;
    put_member(alloc, object, key, Value::String(text))
}

/// Puts a number into an object.
pub(crate) fn put_number(
    alloc: Global,
    object: &mut Map<String, Value>,
    key: &str,
    number: u64,
) -> Result<(), AllocError> {
    put_member(alloc, object, key, Value::from(number))
}

/// The size of a type, in bytes.
pub(crate) fn size_of_tree(
    alloc: Global,
    dl: &TargetDataLayout,
    tree: &TypeTree,
) -> Result<u64, LayError> {
    let laid = lay_out(alloc, dl, tree)?;
    Ok(laid.layout().size.bytes())
}

/// A field: its name, its type as it is written, its offset and its size.
fn field_value(
    cx: TypeContext<'_>,
    label: &Label,
    offset: u64,
    tree: &TypeTree,
) -> Result<Value, LayError> {
    let mut object = Map::new(cx.alloc);
    let mut name = String::new(cx.alloc);
    write_field_name(&mut name, cx.names, label.name)?;
    put_member(cx.alloc, &mut object, "name", Value::String(name))?;
    let written = cx.files.text_between(label.start, label.end);
    put_text(cx.alloc, &mut object, "type", written)?;
    put_number(cx.alloc, &mut object, "offset", offset)?;
    put_number(
        cx.alloc,
        &mut object,
        "size",
        size_of_tree(cx.alloc, cx.dl, tree)?,
    )?;
    Ok(Value::Object(object))
}

/// Fields, in source order.
fn fields_value(
    cx: TypeContext<'_>,
    labels: &[Label],
    offsets: &[Size],
    trees: &[TypeTree],
) -> Result<Value, LayError> {
    let mut all = Vec::new(cx.alloc);
    for (index, label) in labels.iter().enumerate() {
        if let Some(tree) = trees.get(index) {
            let offset = offset_at(offsets, index);
            all.push(field_value(cx, label, offset, tree)?)?;
        }
    }
    Ok(Value::Array(all))
}

/// The offsets of the fields of the variant with this index; none where they all lie at 0.
pub(crate) fn variant_offsets(laid: &Laid, variant: usize) -> &[Size] {
    let layout = laid.layout();
    match &layout.variants {
        Variants::Empty => &[],
        Variants::Single { index } => {
            if index.as_usize() == variant {
                offsets_of(layout)
            } else {
                &[]
            }
        }
        Variants::Multiple {
            tag: _,
            tag_encoding: _,
            tag_field: _,
            variants,
        } => match variants.as_slice().as_raw().get(variant) {
            Some(layout) => layout.field_offsets.as_slice().as_raw(),
            None => &[],
        },
    }
}

/// The variants of an enum, each with its name and its fields.
fn variants_value(
    cx: TypeContext<'_>,
    labels: &[VariantLabels],
    laid: &Laid,
    trees: &[(u128, Vec<TypeTree>)],
) -> Result<Value, LayError> {
    let mut all = Vec::new(cx.alloc);
    for (index, label) in labels.iter().enumerate() {
        if let Some((_, fields)) = trees.get(index) {
            let mut object = Map::new(cx.alloc);
            put_text(cx.alloc, &mut object, "name", cx.names.text(label.name))?;
            let offsets = variant_offsets(laid, index);
            let fields = fields_value(cx, &label.fields, offsets, fields)?;
            put_member(cx.alloc, &mut object, "fields", fields)?;
            all.push(Value::Object(object))?;
        }
    }
    Ok(Value::Array(all))
}

/// Puts the primitive and the range of a scalar, as lines have them.
fn put_scalar(
    alloc: Global,
    object: &mut Map<String, Value>,
    scalar: Scalar,
) -> Result<(), AllocError> {
    let mut text = String::new(alloc);
    write_scalar(&mut text, scalar)?;
    match text.as_str().split_once(' ') {
        Some((primitive, range)) => {
            put_text(alloc, object, "primitive", primitive)?;
            put_text(alloc, object, "range", range)
        }
        None => put_text(alloc, object, "primitive", text.as_str()),
    }
}

/// The name of the variant with this index.
fn variant_name<'a>(cx: TypeContext<'a>, labels: &[VariantLabels], variant: usize) -> &'a str {
    match labels.get(variant) {
        Some(label) => cx.names.text(label.name),
        None => "",
    }
}

/// The tag of an enum: where it lies, what it holds, and how it names a variant; null where it has none.
fn tag_value(
    cx: TypeContext<'_>,
    labels: &[VariantLabels],
    laid: &Laid,
) -> Result<Value, AllocError> {
    let layout = laid.layout();
    let Variants::Multiple {
        tag,
        tag_encoding,
        tag_field,
        variants: _,
    } = &layout.variants
    else {
        return Ok(Value::Null);
    };
    let mut object = Map::new(cx.alloc);
    let offset = offset_at(offsets_of(layout), tag_field.as_usize());
    put_number(cx.alloc, &mut object, "offset", offset)?;
    put_scalar(cx.alloc, &mut object, *tag)?;
    match *tag_encoding {
        TagEncoding::Direct => put_text(cx.alloc, &mut object, "encoding", "direct")?,
        TagEncoding::Niche {
            untagged_variant,
            niche_variants,
            niche_start,
        } => {
            let untagged = variant_name(cx, labels, untagged_variant.as_usize());
            let first = variant_name(cx, labels, niche_variants.start.as_usize());
            let last = variant_name(cx, labels, niche_variants.last.as_usize());
            let start = format!(in cx.alloc; "{niche_start}")?;
            put_text(cx.alloc, &mut object, "encoding", "niche")?;
            put_text(cx.alloc, &mut object, "untagged", untagged)?;
            put_text(cx.alloc, &mut object, "first", first)?;
            put_text(cx.alloc, &mut object, "last", last)?;
            put_text(cx.alloc, &mut object, "start", start.as_str())?;
        }
    }
    Ok(Value::Object(object))
}

/// The largest niche: where it lies, in bytes, and what it holds; null where there is none.
fn niche_value(alloc: Global, niche: Option<Niche>) -> Result<Value, AllocError> {
    let Some(niche) = niche else {
        return Ok(Value::Null);
    };
    let mut object = Map::new(alloc);
    put_number(alloc, &mut object, "offset", niche.offset.bytes())?;
    let scalar = Scalar::Initialized {
        value: niche.value,
        valid_range: niche.valid_range,
    };
    put_scalar(alloc, &mut object, scalar)?;
    Ok(Value::Object(object))
}

/// Two numbers.
fn pair_value(alloc: Global, first: u64, second: u64) -> Result<Value, AllocError> {
    let mut both = Vec::new(alloc);
    both.push(Value::from(first))?;
    both.push(Value::from(second))?;
    Ok(Value::Array(both))
}

/// The runs of padding, each its first byte and the one behind its last; null where they aren't listed.
fn padding_value(alloc: Global, laid: &Laid) -> Result<Value, AllocError> {
    if laid.layout().size.bytes() > MOST_LISTED {
        return Ok(Value::Null);
    }
    let (bytes, _visits) = laid.padding(alloc)?;
    let mut all = Vec::new(alloc);
    for run in bytes.as_slice() {
        let (start, size) = *run;
        all.push(pair_value(alloc, start, start.saturating_add(size))?)?;
    }
    Ok(Value::Array(all))
}

/// Puts the fields of a struct, a union or an enum's variants, as its shape has them.
fn put_parts(
    object: &mut Map<String, Value>,
    cx: TypeContext<'_>,
    shape: &ReportShape,
    tree: &TypeTree,
    laid: &Laid,
) -> Result<(), LayError> {
    match (shape, tree) {
        (
            ReportShape::Struct(labels),
            TypeTree::Struct {
                repr: _,
                always_sized: _,
                fields,
            },
        ) => {
            let offsets = offsets_of(laid.layout());
            let fields = fields_value(cx, labels, offsets, fields)?;
            put_member(cx.alloc, object, "fields", fields)?;
        }
        (ReportShape::Union(labels), TypeTree::Union { repr: _, fields }) => {
            let fields = fields_value(cx, labels, &[], fields)?;
            put_member(cx.alloc, object, "fields", fields)?;
        }
        (ReportShape::Enum(labels), TypeTree::Enum { repr: _, variants }) => {
            let all = variants_value(cx, labels, laid, variants)?;
            put_member(cx.alloc, object, "variants", all)?;
            put_member(cx.alloc, object, "tag", tag_value(cx, labels, laid)?)?;
        }
        _ => {}
    }
    Ok(())
}

/// Where a fault lies: what the text is called that it lies in, the text, and the byte of it.
#[derive(Clone, Copy)]
pub(crate) struct FaultSpot<'a> {
    pub(crate) file: &'a str,
    pub(crate) source: &'a str,
    pub(crate) byte: usize,
}

/// A place as a JSON object: its file, line and column.
fn place_value(alloc: Global, spot: FaultSpot<'_>) -> Result<Value, AllocError> {
    let found = position_of(spot.source, spot.byte);
    let mut object = Map::new(alloc);
    put_text(alloc, &mut object, "file", spot.file)?;
    put_number(alloc, &mut object, "line", found.line as u64)?;
    put_number(alloc, &mut object, "column", found.column as u64)?;
    Ok(Value::Object(object))
}

/// A fault as a JSON object: its text, its place where it has one, and the name of the type that it stops, where it stops
/// one.
pub(crate) fn fault_value(
    alloc: Global,
    name: Option<&str>,
    text: &str,
    spot: Option<FaultSpot<'_>>,
) -> Result<Map<String, Value>, AllocError> {
    let mut object = Map::new(alloc);
    if let Some(name) = name {
        put_text(alloc, &mut object, "name", name)?;
    }
    put_text(alloc, &mut object, "text", text)?;
    if let Some(spot) = spot {
        put_member(alloc, &mut object, "place", place_value(alloc, spot)?)?;
    }
    Ok(object)
}

/// What a JSON document lists.
#[derive(Drop)]
pub struct JsonLists {
    /// The types that are reported on.
    pub types: Vec<Value>,
    /// Those that are passed over, since they have no size of their own.
    pub skipped: Vec<Value>,
    /// The faults, of types and of files.
    pub faults: Vec<Value>,
}

/// The number of the document's form.
const VERSION: u64 = 1;

impl JsonLists {
    /// Nothing yet.
    pub fn new(alloc: Global) -> JsonLists {
        JsonLists {
            types: Vec::new(alloc),
            skipped: Vec::new(alloc),
            faults: Vec::new(alloc),
        }
    }

    /// Whether nothing is listed.
    pub fn is_empty(&self) -> bool {
        self.types.is_empty() && self.skipped.is_empty() && self.faults.is_empty()
    }

    /// Puts others behind these. An error comes where a growth of memory was refused.
    pub fn append(&mut self, more: JsonLists) -> Result<(), AllocError> {
        let JsonLists {
            types,
            skipped,
            faults,
        } = more;
        append_values(&mut self.types, types)?;
        append_values(&mut self.skipped, skipped)?;
        append_values(&mut self.faults, faults)
    }

    /// The document as an object, without its target. An error comes where a growth of memory was refused.
    fn into_object(self, alloc: Global) -> Result<Map<String, Value>, AllocError> {
        let JsonLists {
            types,
            skipped,
            faults,
        } = self;
        let mut object = Map::new(alloc);
        put_number(alloc, &mut object, "version", VERSION)?;
        put_member(alloc, &mut object, "types", Value::Array(types))?;
        put_member(alloc, &mut object, "skipped", Value::Array(skipped))?;
        put_member(alloc, &mut object, "faults", Value::Array(faults))?;
        Ok(object)
    }
}

/// The JSON document of these lists, with the target where all types are laid out for one.
fn document_of(
    alloc: Global,
    options: &ReportOptions<'_>,
    lists: JsonLists,
) -> Result<Value, AllocError> {
    let mut object = lists.into_object(alloc)?;
    if let Some(target) = options.targets.first() {
        if options.targets.len() == 1 {
            put_text(alloc, &mut object, "target", target.triple)?;
            if options.with_parts {
                let layout = layout_value(alloc, target)?;
                put_member(alloc, &mut object, "data_layout", layout)?;
            }
        }
    }
    Ok(Value::Object(object))
}

/// The text of a document, with a line feed at its end.
fn text_of(alloc: Global, document: &Value) -> Result<String, AllocError>
    ensures { IfOk result (λ text. IsDocument (string_bytes text)) }
{
    let mut text = document.to_string_pretty(alloc)?;
    text.push_str("\n")?;
    Ok(text)
}

/// The text of the JSON document of these lists, with a line feed at its end. An error comes where a growth of memory was
/// refused.
pub fn document_text(
    alloc: Global,
    options: &ReportOptions<'_>,
    lists: JsonLists,
) -> Result<String, AllocError>
    ensures { IfOk result (λ text. IsDocument (string_bytes text)) }
{
    let document = document_of(alloc, options, lists)?;
    text_of(alloc, &document)
}

/// Puts values behind others.
fn append_values(all: &mut Vec<Value>, more: Vec<Value>) -> Result<(), AllocError> {
    for value in more {
        all.push(value)?;
    }
    Ok(())
}

/// A type as a JSON object: its name, size and alignment in bytes; and of a type with fields or variants these, the tag,
/// the largest niche and the padding.
pub(crate) fn type_value(
    cx: TypeContext<'_>,
    name: &str,
    shape: &ReportShape,
    tree: &TypeTree,
    laid: &Laid,
) -> Result<Map<String, Value>, LayError>
    requires { (layout_of (placed_of laid.now)).align.abi < 64 }
{
    let layout = laid.layout();
    let mut object = Map::new(cx.alloc);
    put_text(cx.alloc, &mut object, "name", name)?;
    put_number(cx.alloc, &mut object, "size", layout.size.bytes())?;
    put_number(cx.alloc, &mut object, "align", layout.align.abi.bytes())?;
    if !matches!(shape, ReportShape::Plain) {
        put_parts(&mut object, cx, shape, tree, laid)?;
        put_member(
            cx.alloc,
            &mut object,
            "niche",
            niche_value(cx.alloc, layout.largest_niche)?,
        )?;
        put_member(
            cx.alloc,
            &mut object,
            "padding",
            padding_value(cx.alloc, laid)?,
        )?;
    }
    Ok(object)
}
