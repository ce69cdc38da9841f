//! What the parts of a type are called, and what these have.

use crate::budget::{Budget, Context, Instance};
use crate::fault::Stop;
use crate::paths::item_at;
use crate::report::{Subject, type_of};
use crate::resolve::resolve;
use crate::ty::{GenericArg, Ty};
use rust_source::{Field, FieldName, ItemKind, Symbol};
use std::mem;

/// How many parts of a type are told of.
const MOST_PARTS: usize = 4096;

/// Fields of a part.
#[derive(Drop)]
pub struct PartFields {
    /// The name of the variant that they are of, where they are of one.
    pub variant: Option<Symbol>,
    /// The name of each, and the number of the part that it is, in the order of the source. There may be no part of the number,
    /// since not all are told of.
    pub fields: Vec<(FieldName, usize)>,
}

/// A part of a type.
#[derive(Drop)]
pub struct NamedPart {
    /// The number of its item, where it is one.
    pub item: Option<usize>,
    /// Its fields, or those of each variant of an enum; of a tuple, and of an array the one that all elements are. Empty where it
    /// has none that are told of.
    pub lists: Vec<PartFields>,
}

/// Puts a field, and its type behind those of the other parts.
fn put_field(
    fields: &mut Vec<(FieldName, usize)>,
    types: &mut Vec<Ty>,
    name: FieldName,
    ty: Ty,
) -> Result<(), Stop> {
    fields.push((name, types.len()))?;
    types.push(ty)?;
    Ok(())
}

/// The fields of an item.
fn fields_of_item<'a>(
    cx: &Context<'a, '_>,
    budget: &mut Budget<'a>,
    instance: Instance<'a, '_>,
    fields: &'a [Field],
    types: &mut Vec<Ty>,
) -> Result<Vec<(FieldName, usize)>, Stop> {
    let mut all = Vec::new(cx.alloc);
    for field in fields {
        let ty = resolve(cx, budget, instance.inside(), &field.ty)?;
        put_field(&mut all, types, field.name, ty)?;
    }
    Ok(all)
}

/// The lists of fields of an item.
fn lists_of_item<'a>(
    cx: &Context<'a, '_>,
    budget: &mut Budget<'a>,
    instance: Instance<'a, '_>,
    types: &mut Vec<Ty>,
) -> Result<Vec<PartFields>, Stop> {
    let mut lists = Vec::new(cx.alloc);
    match &instance.item.kind {
        ItemKind::Struct(all) => {
            let fields = fields_of_item(cx, budget, instance, all.all.as_slice(), types)?;
            lists.push(PartFields {
                variant: None,
                fields,
            })?;
        }
        ItemKind::Union(all) => {
            let fields = fields_of_item(cx, budget, instance, all.all.as_slice(), types)?;
            lists.push(PartFields {
                variant: None,
                fields,
            })?;
        }
        ItemKind::Enum(all) => {
            for variant in &all.variants {
                let of = variant.fields.all.as_slice();
                let fields = fields_of_item(cx, budget, instance, of, types)?;
                lists.push(PartFields {
                    variant: Some(variant.name),
                    fields,
                })?;
            }
        }
        _ => {}
    }
    Ok(lists)
}

/// The list of the fields of a tuple.
fn list_of_types(
    cx: &Context<'_, '_>,
    parts: Vec<Ty>,
    types: &mut Vec<Ty>,
) -> Result<Vec<PartFields>, Stop> {
    let mut fields = Vec::new(cx.alloc);
    let mut number = 0u32;
    for part in parts {
        put_field(&mut fields, types, FieldName::Numbered(number), part)?;
        number = number.saturating_add(1);
    }
    let mut lists = Vec::new(cx.alloc);
    lists.push(PartFields {
        variant: None,
        fields,
    })?;
    Ok(lists)
}

/// A part that is an item under what its parameters are given.
fn part_of_item<'a>(
    cx: &Context<'a, '_>,
    budget: &mut Budget<'a>,
    number: u32,
    given: &[GenericArg],
    types: &mut Vec<Ty>,
) -> Result<NamedPart, Stop> {
    let lists = match item_at(cx.items, number) {
        Some(item) => {
            let instance = Instance {
                number,
                item,
                given,
            };
            lists_of_item(cx, budget, instance, types)?
        }
        None => Vec::new(cx.alloc),
    };
    Ok(NamedPart {
        item: Some(number as usize),
        lists,
    })
}

/// A part of this type; the types of its parts are put behind the others.
fn part_of<'a>(
    cx: &Context<'a, '_>,
    budget: &mut Budget<'a>,
    ty: Ty,
    types: &mut Vec<Ty>,
) -> Result<NamedPart, Stop> {
    match ty {
        Ty::Tuple(parts) => Ok(NamedPart {
            item: None,
            lists: list_of_types(cx, parts, types)?,
        }),
        Ty::Array(element, _) => {
            let mut parts = Vec::new(cx.alloc);
            parts.push(Box::into_inner(element))?;
            Ok(NamedPart {
                item: None,
                lists: list_of_types(cx, parts, types)?,
            })
        }
        Ty::Adt(number, given) => part_of_item(cx, budget, number, given.as_slice(), types),
        _ => Ok(NamedPart {
            item: None,
            lists: Vec::new(cx.alloc),
        }),
    }
}

/// The parts of a subject's type: itself, and behind each part its parts.
pub(crate) fn parts_of<'a>(
    cx: &Context<'a, '_>,
    subject: Subject<'a>,
) -> Result<Vec<NamedPart>, Stop> {
    let mut budget = Budget::new(cx.alloc);
    let mut types = Vec::new(cx.alloc);
    types.push(type_of(cx, &mut budget, subject)?)?;
    let mut parts = Vec::new(cx.alloc);
    for number in 0..MOST_PARTS {
        let Some(place) = types.get_mut(number) else {
            break;
        };
        let ty = mem::replace(place, Ty::Never);
        parts.push(part_of(cx, &mut budget, ty, &mut types)?)?;
    }
    Ok(parts)
}
