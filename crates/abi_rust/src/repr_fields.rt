//! What a `repr` asks of the fields of a type.

ghost use Rattle.std.specs.Prelude.{◌≡◌, Ok, map, true};
ghost use Rattle.abi_tree.specs.Tree.{tree_of};
ghost use Rattle.abi_rust.specs.Aligned.{aligning, all_units, any_aligned, any_written, discriminants_checked, fields_aligned, packed_checked, place_of_repr, type_aligned};
ghost use Rattle.abi_rust.specs.Meaning.{Means, then_meant};
ghost use Rattle.abi_rust.specs.Measure.{IsMeasure, Measure, room_takers, takes_room, transparent_checked};

use crate::budget::{Budget, Context, less};
use crate::fault::{FaultKind, Stop, stop_at};
use crate::kind::is_parameter_of;
use crate::paths::{Resolution, found_by, item_at, root_of};
use crate::report::size_and_align;
use abi_tree::TypeTree;
use rust_source::{Enum, Field, Fields, Item, ItemKind, Place, Type, Variant};

/// A fault where a transparent type has more than one field that takes room or is aligned to more than a byte.
#[tactic(auto, unfolding(crate::specs::Measure::transparent_checked))]
pub(crate) fn check_transparent(
    cx: &Context<'_, '_>,
    item: &Item,
    fields: &[TypeTree],
) -> Result<(), Stop>
    ensures { (m : Measure) → IsMeasure cx.now.dl.now m →
        Means (λ _. true) (transparent_checked m item.now (map tree_of fields.now)) result }
{
    if !item.repr.transparent || fields.len() < 2 {
        return Ok(());
    }
    if room_takers(cx, fields)? > 1 {
        return Err(stop_at(place_of(item), FaultKind::TransparentFields));
    }
    Ok(())
}

/// How many of these take room or are aligned to more than a byte.
#[tactic(auto, using(crate::proofs::Measures::takers_more, crate::proofs::Measures::takers_done))]
fn room_takers(cx: &Context<'_, '_>, fields: &[TypeTree]) -> Result<usize, Stop>
    ensures { (m : Measure) → IsMeasure cx.now.dl.now m →
        Means (λ n. n) (room_takers m (map tree_of fields.now)) result }
{
    let mut count = 0usize;
    for field in fields {
        if takes_room(cx, field)? {
            count += 1;
        }
    }
    Ok(count)
}

/// Whether it takes room or is aligned to more than a byte.
fn takes_room(cx: &Context<'_, '_>, field: &TypeTree) -> Result<bool, Stop>
    ensures { (m : Measure) → IsMeasure cx.now.dl.now m →
        Means (λ is. is) (then_meant (λ s. Ok (takes_room s)) (m (tree_of field.now))) result }
{
    let (size, align) = size_and_align(cx, field)?;
    Ok(size != 0 || align != 1)
}

/// Where an item's repr stands, or its name where it has none.
fn place_of(item: &Item) -> Place
    ensures { result ≡ place_of_repr item.now }
{
    match item.repr.at {
        Some(at) => at,
        None => item.at,
    }
}

/// A fault where a packed struct or union has a field whose type has `align`, or a field of which has. What parameters
/// are given isn't looked at, nor what stands in the standard library's types, in arrays, tuples and enums, as in the
/// compiler.
#[tactic(auto, unfolding(crate::specs::Aligned::packed_checked))]
pub(crate) fn check_packed<'a>(
    cx: &Context<'a, '_>,
    budget: &mut Budget<'a>,
    item: &Item,
    fields: &Fields,
    depth_left: u32,
) -> Result<(), Stop>
    ensures { Means (λ _. true) (packed_checked cx.now depth_left item.now fields.now.all.items) result }
{
    if item.repr.packed.is_none() {
        return Ok(());
    }
    if has_aligned(cx, budget, item, fields.all.as_slice(), depth_left)? {
        return Err(stop_at(place_of(item), FaultKind::AlignedInPacked));
    }
    Ok(())
}

/// Whether a field that is written in an item has `align` in its type, or in a field of that.
#[cycle(aligning)]
#[tactic(auto, using(crate::proofs::Aligned::fields_less, crate::proofs::Aligned::fields_none))]
fn has_aligned<'a>(
    cx: &Context<'a, '_>,
    budget: &mut Budget<'a>,
    inside: &Item,
    fields: &[Field],
    depth_left: u32,
) -> Result<bool, Stop>
    ensures { Means (λ is. is) ((aligning cx.now depth_left).of_fields inside.now fields.now) result }
{
    let depth_left = less(depth_left)?;
    any_aligned(cx, budget, inside, fields, depth_left)
}

/// The same, within less room.
#[cycle(aligning)]
#[tactic(auto, using(crate::proofs::Aligned::aligned_more, crate::proofs::Aligned::aligned_done))]
fn any_aligned<'a>(
    cx: &Context<'a, '_>,
    budget: &mut Budget<'a>,
    inside: &Item,
    fields: &[Field],
    depth_left: u32,
) -> Result<bool, Stop>
    ensures { Means (λ is. is) (any_aligned cx.now (aligning cx.now depth_left) inside.now fields.now) result }
{
    for field in fields {
        if is_aligned(cx, budget, inside, &field.ty, depth_left)? {
            return Ok(true);
        }
    }
    Ok(false)
}

/// Whether a type that is written in an item has `align`, or a field of it has; a parameter of the item hasn't.
#[cycle(aligning)]
#[tactic(auto, using(crate::proofs::Aligned::type_less, crate::proofs::Aligned::type_none))]
fn is_aligned<'a>(
    cx: &Context<'a, '_>,
    budget: &mut Budget<'a>,
    inside: &Item,
    ty: &Type,
    depth_left: u32,
) -> Result<bool, Stop>
    ensures { Means (λ is. is) ((aligning cx.now depth_left).of_type inside.now ty.now) result }
{
    budget.spend()?;
    let depth_left = less(depth_left)?;
    is_aligned_with(cx, budget, inside, ty, depth_left)
}

/// The same, within less room.
#[cycle(aligning)]
#[tactic(auto, unfolding(crate::specs::Aligned::type_aligned))]
fn is_aligned_with<'a>(
    cx: &Context<'a, '_>,
    budget: &mut Budget<'a>,
    inside: &Item,
    ty: &Type,
    depth_left: u32,
) -> Result<bool, Stop>
    ensures { Means (λ is. is) (type_aligned cx.now (aligning cx.now depth_left) inside.now ty.now) result }
{
    if is_parameter_of(inside, ty) {
        return Ok(false);
    }
    let Some(Resolution::Item(number)) = found_by(cx.items, cx.scope, inside.module, ty) else {
        return Ok(false);
    };
    let Some(item) = item_at(cx.items, number) else {
        return Ok(false);
    };
    match &item.kind {
        ItemKind::Alias(ty) => is_aligned(cx, budget, item, ty, depth_left),
        ItemKind::Struct(fields) => is_item_aligned(
            cx,
            budget,
            item,
            fields.all.as_slice(),
            depth_left,
        ),
        ItemKind::Union(fields) => is_item_aligned(
            cx,
            budget,
            item,
            fields.all.as_slice(),
            depth_left,
        ),
        _ => Ok(false),
    }
}

/// Whether a struct or a union has `align`, or a field of it has.
#[cycle(aligning)]
#[tactic(auto, using(crate::proofs::Aligned::item_less, crate::proofs::Aligned::item_none))]
fn is_item_aligned<'a>(
    cx: &Context<'a, '_>,
    budget: &mut Budget<'a>,
    item: &Item,
    fields: &[Field],
    depth_left: u32,
) -> Result<bool, Stop>
    ensures { Means (λ is. is) ((aligning cx.now depth_left).of_item item.now fields.now) result }
{
    let depth_left = less(depth_left)?;
    is_item_aligned_with(cx, budget, item, fields, depth_left)
}

/// The same, within less room.
#[cycle(aligning)]
#[tactic(auto, unfolding(crate::specs::Aligned::fields_aligned))]
fn is_item_aligned_with<'a>(
    cx: &Context<'a, '_>,
    budget: &mut Budget<'a>,
    item: &Item,
    fields: &[Field],
    depth_left: u32,
) -> Result<bool, Stop>
    ensures { Means (λ is. is) (fields_aligned cx.now (aligning cx.now depth_left) item.now fields.now) result }
{
    if item.repr.align.is_some() {
        return Ok(true);
    }
    if root_of(cx.items, item.module) == cx.scope.std_root {
        return Ok(false);
    }
    has_aligned(cx, budget, item, fields, depth_left)
}

/// Whether a discriminant of these variants is written.
fn any_written(variants: &[Variant]) -> bool
    ensures { result ≡ any_written variants.now }
{
    for variant in variants {
        if variant.discriminant.is_some() {
            return true;
        }
    }
    false
}

/// Whether each of these variants is a name alone, without parentheses or braces.
pub(crate) fn all_units(variants: &[Variant]) -> bool
    ensures { result ≡ all_units variants.now }
{
    for variant in variants {
        if !variant.fields.is_unit {
            return false;
        }
    }
    true
}

/// A fault where an enum with a discriminant, and with a variant that is no name alone, has no integer as its repr.
pub(crate) fn check_discriminants(item: &Item, all: &Enum) -> Result<(), Stop>
    ensures meant { Means (λ _. true) (discriminants_checked item.now all.now.variants.items) result }
    ensures exact { result ≡ then_meant (λ _. Ok tt) (discriminants_checked item.now all.now.variants.items) }
{
    if item.repr.integer.is_some() {
        return Ok(());
    }
    if any_written(all.variants.as_slice()) && !all_units(all.variants.as_slice()) {
        return Err(stop_at(item.at, FaultKind::DiscriminantWithoutRepr));
    }
    Ok(())
}
