//! What could be saved of a type, as lines and as JSON.

use crate::json::{put_member, put_text};
use crate::labels::write_field_name;
use crate::savings::{LargestVariant, ListCost, Savings};
use abi_index::FieldIdx;
use abi_rust::{Label, ReportShape, VariantLabels};
use rust_source::Names;
use serde_json::{Map, Value};
use std::alloc::{AllocError, Global};

/// The names of a type's parts.
#[derive(Clone, Copy)]
pub(crate) struct PartNames<'a> {
    pub(crate) names: &'a Names,
    pub(crate) shape: &'a ReportShape,
}

impl<'a> PartNames<'a> {
    /// The labels of the variants; none where it is no enum.
    fn variants(self) -> &'a [VariantLabels] {
        match self.shape {
            ReportShape::Enum(variants) => variants,
            _ => &[],
        }
    }

    /// The labels of the fields of a variant, or of a struct or a union.
    fn fields(self, variant: Option<usize>) -> &'a [Label] {
        match (self.shape, variant) {
            (ReportShape::Struct(labels), _) => labels,
            (ReportShape::Union(labels), _) => labels,
            (ReportShape::Enum(variants), Some(index)) => match variants.get(index) {
                Some(variant) => &variant.fields,
                None => &[],
            },
            _ => &[],
        }
    }

    /// The name of a variant.
    fn variant_name(self, index: usize) -> &'a str {
        match self.variants().get(index) {
            Some(variant) => self.names.text(variant.name),
            None => "",
        }
    }
}

/// Writes the name of a field.
fn write_field(
    out: &mut String,
    names: &Names,
    labels: &[Label],
    field: FieldIdx,
) -> Result<(), AllocError> {
    match labels.get(field.as_usize()) {
        Some(label) => write_field_name(out, names, label.name),
        None => Ok(()),
    }
}

/// Writes the least size of a list, behind the variant's name where it is that of one, and an order that has it where its
/// type has a fixed one.
fn write_list(out: &mut String, parts: PartNames<'_>, list: &ListCost) -> Result<(), AllocError> {
    if let Some(variant) = list.variant {
        out.push_str("variant ")?;
        out.push_str(parts.variant_name(variant))?;
        out.push_str(" ")?;
    }
    let least = list.least;
    write!(out, "least {least}")?;
    if let Some(order) = &list.order {
        out.push_str(" order")?;
        let labels = parts.fields(list.variant);
        for field in order {
            out.push_str(" ")?;
            write_field(out, parts.names, labels, *field)?;
        }
    }
    out.push_str("\n")
}

/// Writes the largest variant and the next, and the size of the enum with the largest one's fields behind a pointer.
fn write_largest(
    out: &mut String,
    parts: PartNames<'_>,
    largest: LargestVariant,
) -> Result<(), AllocError> {
    let name = parts.variant_name(largest.index);
    let size = largest.size;
    write!(out, "largest {name} {size}")?;
    if let Some((next, size)) = largest.next {
        let name = parts.variant_name(next);
        write!(out, " next {name} {size}")?;
    }
    let boxed = largest.boxed;
    write!(out, " boxed {boxed}\n")
}

/// Writes how many bytes are padding.
fn write_waste(out: &mut String, waste: Option<u64>) -> Result<(), AllocError> {
    match waste {
        Some(waste) => write!(out, "waste {waste}\n"),
        None => out.push_str("waste unknown\n"),
    }
}

/// Writes what could be saved of a type, a line for each fact, behind `start`. An error comes where a growth of memory was
/// refused.
pub(crate) fn write_savings(
    out: &mut String,
    start: &str,
    parts: PartNames<'_>,
    savings: &Savings,
) -> Result<(), AllocError> {
    out.push_str(start)?;
    write_waste(out, savings.waste)?;
    for list in &savings.lists {
        out.push_str(start)?;
        write_list(out, parts, list)?;
    }
    match savings.largest {
        Some(largest) => {
            out.push_str(start)?;
            write_largest(out, parts, largest)
        }
        None => Ok(()),
    }
}

/// The names of fields, in an order.
fn order_value(
    alloc: Global,
    names: &Names,
    labels: &[Label],
    order: &[FieldIdx],
) -> Result<Value, AllocError> {
    let mut all = Vec::with_capacity(alloc, order.len())?;
    for field in order {
        let mut name = String::new(alloc);
        write_field(&mut name, names, labels, *field)?;
        all.push(Value::String(name))?;
    }
    Ok(Value::Array(all))
}

/// The least size of a list as a JSON object.
fn list_value(alloc: Global, parts: PartNames<'_>, list: &ListCost) -> Result<Value, AllocError> {
    let mut object = Map::new(alloc);
    if let Some(variant) = list.variant {
        put_text(alloc, &mut object, "variant", parts.variant_name(variant))?;
    }
    put_member(alloc, &mut object, "size", Value::from(list.least))?;
    if let Some(order) = &list.order {
        let labels = parts.fields(list.variant);
        let order = order_value(alloc, parts.names, labels, order)?;
        put_member(alloc, &mut object, "order", order)?;
    }
    Ok(Value::Object(object))
}

/// The least sizes of lists.
fn lists_value(
    alloc: Global,
    parts: PartNames<'_>,
    lists: &[ListCost],
) -> Result<Value, AllocError> {
    let mut all = Vec::with_capacity(alloc, lists.len())?;
    for list in lists {
        all.push(list_value(alloc, parts, list)?)?;
    }
    Ok(Value::Array(all))
}

/// The largest variant as a JSON object.
fn largest_value(
    alloc: Global,
    parts: PartNames<'_>,
    largest: LargestVariant,
) -> Result<Value, AllocError> {
    let mut object = Map::new(alloc);
    put_text(
        alloc,
        &mut object,
        "name",
        parts.variant_name(largest.index),
    )?;
    put_member(alloc, &mut object, "size", Value::from(largest.size))?;
    if let Some((next, size)) = largest.next {
        put_text(alloc, &mut object, "next", parts.variant_name(next))?;
        put_member(alloc, &mut object, "next_size", Value::from(size))?;
    }
    put_member(alloc, &mut object, "boxed", Value::from(largest.boxed))?;
    Ok(Value::Object(object))
}

/// Puts what could be saved of a type into its JSON object.
pub(crate) fn put_savings(
    alloc: Global,
    object: &mut Map<String, Value>,
    parts: PartNames<'_>,
    savings: &Savings,
) -> Result<(), AllocError> {
    let waste = match savings.waste {
        Some(waste) => Value::from(waste),
        None => Value::Null,
    };
    put_member(alloc, object, "waste", waste)?;
    let lists = lists_value(alloc, parts, &savings.lists)?;
    put_member(alloc, object, "least", lists)?;
    if let Some(largest) = savings.largest {
        let largest = largest_value(alloc, parts, largest)?;
        put_member(alloc, object, "largest", largest)?;
    }
    Ok(())
}
