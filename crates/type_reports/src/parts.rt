//! What the parts of types are called, as JSON, and the data layout under which these lie.

use crate::json::{put_member, put_number, put_text};
use crate::labels::write_field_name;
use abi_rust::{NamedPart, PartFields, Sources, Target};
use rust_source::FieldName;
use serde_json::{Map, Value};
use std::alloc::{AllocError, Global};

/// Fields: the name of each, and the number of its part.
fn fields_value(
    alloc: Global,
    sources: &Sources,
    fields: &[(FieldName, usize)],
) -> Result<Value, AllocError> {
    let mut all = Vec::new(alloc);
    for (name, number) in fields {
        let mut object = Map::new(alloc);
        let mut text = String::new(alloc);
        write_field_name(&mut text, sources.names(), *name)?;
        put_member(alloc, &mut object, "name", Value::String(text))?;
        put_number(alloc, &mut object, "part", *number as u64)?;
        all.push(Value::Object(object))?;
    }
    Ok(Value::Array(all))
}

/// The name of a part's item: of one of the standard library's behind `std::`.
fn item_name(alloc: Global, sources: &Sources, item: usize) -> Result<String, AllocError> {
    let mut name = String::new(alloc);
    if sources.is_of_library(item) {
        name.push_str("std::")?;
    }
    sources.write_name(&mut name, item)?;
    Ok(name)
}

/// Puts the fields of a part, or its variants with theirs, into its object.
fn put_lists(
    alloc: Global,
    sources: &Sources,
    object: &mut Map<String, Value>,
    lists: &[PartFields],
) -> Result<(), AllocError> {
    let mut variants = Vec::new(alloc);
    for list in lists {
        let fields = fields_value(alloc, sources, &list.fields)?;
        match list.variant {
            Some(name) => {
                let mut variant = Map::new(alloc);
                put_text(alloc, &mut variant, "name", sources.names().text(name))?;
                put_member(alloc, &mut variant, "fields", fields)?;
                variants.push(Value::Object(variant))?;
            }
            None => put_member(alloc, object, "fields", fields)?,
        }
    }
    if !variants.is_empty() {
        put_member(alloc, object, "variants", Value::Array(variants))?;
    }
    Ok(())
}

/// The parts of a type: the name of each, where it has one, and its fields, or its variants with theirs.
pub(crate) fn parts_value(
    alloc: Global,
    sources: &Sources,
    parts: &[NamedPart],
) -> Result<Value, AllocError> {
    let mut all = Vec::new(alloc);
    for part in parts {
        let mut object = Map::new(alloc);
        if let Some(item) = part.item {
            let name = item_name(alloc, sources, item)?;
            put_member(alloc, &mut object, "name", Value::String(name))?;
        }
        put_lists(alloc, sources, &mut object, &part.lists)?;
        all.push(Value::Object(object))?;
    }
    Ok(Value::Array(all))
}

/// A target's data layout: its string, and the bytes of the least enum of its C, which the string doesn't say.
pub(crate) fn layout_value(alloc: Global, target: &Target) -> Result<Value, AllocError> {
    let mut object = Map::new(alloc);
    put_text(alloc, &mut object, "string", target.data_layout)?;
    let least = target.c_enum_min_size.size().bytes();
    put_number(alloc, &mut object, "least_c_enum", least)?;
    Ok(Value::Object(object))
}
