//! Types as trees.

ghost use Rattle.std.specs.Prelude.{◌≡◌, ◌∷◌, ◌++◌, [], IfErr, None, OnOk, Some, map, true};
ghost use Rattle.std.specs.Int.{cast_unsigned, w128};
ghost use Rattle.std.specs.Option.{option_copied, option_map};
ghost use Rattle.abi_tree.specs.Tree.{tree_of};
ghost use Rattle.abi_rust.specs.Int.{number_of_int};
ghost use Rattle.abi_rust.specs.Meaning.{Means, is_beside};
ghost use Rattle.abi_rust.specs.Measure.{IsMeasure, Measure, each_meant};
ghost use Rattle.abi_rust.specs.Resolving.{inside_of};
ghost use Rattle.abi_rust.specs.Tails.{outer_of};
ghost use Rattle.abi_rust.specs.Trees.{checked_trees, discriminant_value, enum_tree, field_tree, formed_tree, field_trees, first_limited, tree_by_item, item_tree, kind_tree, number_meant, stop_in, struct_fields, struct_tree, tree_inner, tuple_of, tuple_tree, type_tree, union_tree, variant_number, variant_as_tree, variant_tree, variant_trees};
ghost use Rattle.abi_rust.specs.Types.{all_given, givens, list_of_types, ty_of, types, where_of};
ghost use Rattle.abi_rust.specs.Values.{value_as_read};

use crate::above::{Nesting, stands_in};
use crate::budget::{Budget, Context, Instance, most_deep};
use crate::copy_types::check_union_fields;
use crate::discriminants::discriminant_kind;
use crate::evaluate::value_of;
use crate::fault::{FaultKind, Stop, stop_at};
use crate::formed::check_formed;
use crate::int::{Int, Width};
use crate::kind::outside;
use crate::operators::fitting;
use crate::paths::item_at;
use crate::places::at_place;
use crate::repr::{plain, repr_of};
use crate::repr_fields::{check_discriminants, check_packed, check_transparent};
use crate::resolve::resolve;
use crate::scalars::{function, limited, named_tree, pointer};
use crate::tail::{is_always_sized, pointee_tail};
use crate::ty::{ConstValue, GenericArg, Kind, Ty};
use abi_tree::TypeTree;
use rust_source::{Enum, Field, Fields, Item, ItemKind, Place, Variant};

/// A variant, and the discriminant of the one before it, if there is one.
#[derive(Clone, Copy)]
struct NextVariant<'a> {
    variant: &'a Variant,
    last: Option<Int>,
}

/// The tree of a type. `Stop::Size` where a type's size has to be known first.
#[cycle(trees)]
#[tactic(auto, using(crate::proofs::Trees::type_less, crate::proofs::Trees::type_none))]
pub(crate) fn tree<'a>(
    cx: &Context<'a, '_>,
    budget: &mut Budget<'a>,
    nesting: Nesting<'_>,
    ty: &Ty,
) -> Result<TypeTree, Stop>
    ensures { (m : Measure) → IsMeasure cx.now.dl.now m → Means tree_of
        ((tree_inner cx.now m nesting.entry.depth_left).of_type
        (outer_of nesting.entry.above) (ty_of ty.now)) result }
{
    budget.spend()?;
    let nesting = nesting.deeper()?;
    tree_of_type(cx, budget, nesting, ty)
}

/// The tree of a type, whatever kind of type it is.
#[cycle(trees)]
#[tactic(auto, unfolding(crate::specs::Trees::type_tree))]
fn tree_of_type<'a>(
    cx: &Context<'a, '_>,
    budget: &mut Budget<'a>,
    nesting: Nesting<'_>,
    ty: &Ty,
) -> Result<TypeTree, Stop>
    ensures { (m : Measure) → IsMeasure cx.now.dl.now m → Means tree_of
        (type_tree cx.now m (tree_inner cx.now m nesting.entry.depth_left)
        (outer_of nesting.entry.above) (ty_of ty.now)) result }
{
    match ty {
        Ty::Never => Ok(TypeTree::Never),
        Ty::Function => Ok(function(cx.dl)),
        Ty::Primitive(primitive) => match named_tree(cx.dl, *primitive) {
            Some(tree) => Ok(tree),
            None => Err(Stop::Fault(None, FaultKind::Unsized)),
        },
        Ty::Dyn => Err(Stop::Fault(None, FaultKind::Unsized)),
        Ty::Slice(_) => Err(Stop::Fault(None, FaultKind::Unsized)),
        Ty::Reference(_, pointee) => Ok(pointer(cx.dl, pointee_tail(cx, budget, pointee)?, false)),
        Ty::Pointer(pointee) => Ok(pointer(cx.dl, pointee_tail(cx, budget, pointee)?, true)),
        Ty::Array(element, count) => {
            let element = tree(cx, budget, nesting, element)?;
            Ok(TypeTree::Array(*count, Box::new(cx.alloc, element)?))
        }
        Ty::Tuple(parts) => tree_of_tuple(cx, budget, nesting, parts),
        Ty::Adt(number, given) => tree_of_item(cx, budget, nesting, *number, given.as_slice()),
    }
}

/// The tree of a tuple.
#[cycle(trees)]
fn tree_of_tuple<'a>(
    cx: &Context<'a, '_>,
    budget: &mut Budget<'a>,
    nesting: Nesting<'_>,
    parts: &[Ty],
) -> Result<TypeTree, Stop>
    ensures { (m : Measure) → IsMeasure cx.now.dl.now m → Means tree_of (tuple_tree cx.now m
        (tree_inner cx.now m nesting.entry.depth_left)
        (outer_of nesting.entry.above) (list_of_types (types (map ty_of parts.now)))) result }
{
    let fields = trees_of_types(cx, budget, nesting, parts)?;
    Ok(tuple_of(fields))
}

/// The tuple of these.
fn tuple_of(fields: Vec<TypeTree>) -> TypeTree
    ensures { tree_of result ≡ tuple_of (map tree_of fields.items) }
{
    if fields.is_empty() {
        return TypeTree::Unit;
    }
    TypeTree::Struct {
        repr: plain(),
        always_sized: false,
        fields,
    }
}

/// Puts a tree behind the others.
fn push_tree(all: &mut Vec<TypeTree>, one: TypeTree) -> Result<(), Stop>
    ensures ok { OnOk result (map tree_of all.new.items ≡ map tree_of all.old.items ++ tree_of one ∷ []) }
    ensures err { IfErr result (λ e. is_beside e ≡ true) }
{
    all.push(one)?;
    Ok(())
}

/// The trees of types.
#[cycle(trees)]
#[tactic(auto, using(crate::proofs::Trees::types_more, crate::proofs::Trees::types_done, crate::proofs::Trees::behind_none))]
fn trees_of_types<'a>(
    cx: &Context<'a, '_>,
    budget: &mut Budget<'a>,
    nesting: Nesting<'_>,
    parts: &[Ty],
) -> Result<Vec<TypeTree>, Stop>
    ensures { (m : Measure) → IsMeasure cx.now.dl.now m → Means (λ all. map tree_of all.items)
        (each_meant ((tree_inner cx.now m nesting.entry.depth_left).of_type (outer_of nesting.entry.above))
        (list_of_types (types (map ty_of parts.now)))) result }
{
    let mut trees = Vec::new(cx.alloc);
    for part in parts {
        let one = tree(cx, budget, nesting, part)?;
        push_tree(&mut trees, one)?;
    }
    Ok(trees)
}

/// The tree of an item under what its parameters are given.
#[cycle(trees)]
#[tactic(auto, using(crate::proofs::Trees::item_less, crate::proofs::Trees::item_none))]
fn tree_of_item<'a>(
    cx: &Context<'a, '_>,
    budget: &mut Budget<'a>,
    nesting: Nesting<'_>,
    number: u32,
    given: &[GenericArg],
) -> Result<TypeTree, Stop>
    ensures { (m : Measure) → IsMeasure cx.now.dl.now m → Means tree_of
        ((tree_inner cx.now m nesting.entry.depth_left).of_item (outer_of nesting.entry.above) number
        (givens (all_given given.now))) result }
{
    let nesting = nesting.deeper()?;
    tree_of_found(cx, budget, nesting, number, given)
}

/// The tree of an item under what its parameters are given, if there is one of this number.
#[cycle(trees)]
#[tactic(auto, unfolding(crate::specs::Trees::item_tree))]
fn tree_of_found<'a>(
    cx: &Context<'a, '_>,
    budget: &mut Budget<'a>,
    nesting: Nesting<'_>,
    number: u32,
    given: &[GenericArg],
) -> Result<TypeTree, Stop>
    ensures { (m : Measure) → IsMeasure cx.now.dl.now m → Means tree_of (item_tree cx.now m
        (tree_inner cx.now m nesting.entry.depth_left)
        (outer_of nesting.entry.above) number (givens (all_given given.now))) result }
{
    let Some(item) = item_at(cx.items, number) else {
        return Err(Stop::Fault(None, FaultKind::Unsized));
    };
    let instance = Instance {
        number,
        item,
        given,
    };
    tree_of_instance(cx, budget, nesting, instance)
}

/// The tree of an item that is found. `Recursive` where it stands in itself.
#[cycle(trees)]
fn tree_of_instance<'a>(
    cx: &Context<'a, '_>,
    budget: &mut Budget<'a>,
    nesting: Nesting<'_>,
    instance: Instance<'a, '_>,
) -> Result<TypeTree, Stop>
    ensures { (m : Measure) → IsMeasure cx.now.dl.now m → Means tree_of (tree_by_item cx.now m
        (tree_inner cx.now m nesting.entry.depth_left) (outer_of nesting.entry.above) instance.entry.number
        (givens (all_given instance.entry.given.now)) (Some instance.entry.item.now)) result }
{
    let item = instance.item;
    if stands_in(&nesting.above, instance.number, instance.given) {
        return Err(stop_at(item.at, FaultKind::Recursive(item.name)));
    }
    let inner = nesting.inside(instance.number, instance.given);
    tree_of_kind(cx, budget, inner, instance)
}

/// The tree of an item whose parts stand in this.
#[cycle(trees)]
fn tree_of_kind<'a>(
    cx: &Context<'a, '_>,
    budget: &mut Budget<'a>,
    nesting: Nesting<'_>,
    instance: Instance<'a, '_>,
) -> Result<TypeTree, Stop>
    ensures { (m : Measure) → IsMeasure cx.now.dl.now m → Means tree_of (kind_tree cx.now m
        (tree_inner cx.now m nesting.entry.depth_left) (outer_of nesting.entry.above) (inside_of instance.entry)
        instance.entry.number instance.entry.item.now instance.entry.item.now.kind) result }
{
    let item = instance.item;
    match &item.kind {
        ItemKind::Struct(fields) => tree_of_struct(cx, budget, nesting, instance, fields),
        ItemKind::Union(fields) => tree_of_union(cx, budget, nesting, instance, fields),
        ItemKind::Enum(all) => tree_of_enum(cx, budget, nesting, instance, all),
        _ => Err(stop_at(item.at, FaultKind::NotAType(item.name))),
    }
}

/// The tree of a struct.
#[cycle(trees)]
#[tactic(auto, unfolding(crate::specs::Trees::struct_tree))]
fn tree_of_struct<'a>(
    cx: &Context<'a, '_>,
    budget: &mut Budget<'a>,
    nesting: Nesting<'_>,
    instance: Instance<'a, '_>,
    fields: &'a Fields,
) -> Result<TypeTree, Stop>
    ensures { (m : Measure) → IsMeasure cx.now.dl.now m → Means tree_of (struct_tree cx.now m
        (tree_inner cx.now m nesting.entry.depth_left) (outer_of nesting.entry.above) (inside_of instance.entry)
        instance.entry.number instance.entry.item.now fields.now.all.items) result }
{
    let repr = repr_of(instance.item)?;
    let always_sized = is_always_sized(cx, budget, instance.number, instance.item)?;
    let fields = fields_of_struct(cx, budget, nesting, instance, fields)?;
    Ok(TypeTree::Struct {
        repr,
        always_sized,
        fields,
    })
}

/// The trees of a struct's fields.
#[cycle(trees)]
#[tactic(auto, unfolding(crate::specs::Trees::struct_fields))]
fn fields_of_struct<'a>(
    cx: &Context<'a, '_>,
    budget: &mut Budget<'a>,
    nesting: Nesting<'_>,
    instance: Instance<'a, '_>,
    fields: &'a Fields,
) -> Result<Vec<TypeTree>, Stop>
    ensures { (m : Measure) → IsMeasure cx.now.dl.now m → Means (λ all. map tree_of all.items) (struct_fields cx.now m
        (tree_inner cx.now m nesting.entry.depth_left) (outer_of nesting.entry.above) (inside_of instance.entry)
        instance.entry.item.now fields.now.all.items) result }
{
    let item = instance.item;
    check_packed(cx, budget, item, fields, most_deep())?;
    let fields = fields.all.as_slice();
    let mut trees = checked_trees(cx, budget, nesting, instance, fields)?;
    limit_first(cx, &mut trees, item.valid_range);
    Ok(trees)
}

/// Limits the first tree's first scalar to a range, where one is asked for.
fn limit_first(cx: &Context<'_, '_>, trees: &mut Vec<TypeTree>, range: Option<(u128, u128)>)
    ensures { map tree_of trees.new.items ≡ first_limited cx.now.dl.now range (map tree_of trees.old.items) }
{
    let Some((start, end)) = range else {
        return;
    };
    if trees.is_empty() {
        return;
    }
    let tree = std::mem::replace(&mut trees[0], TypeTree::Unit);
    trees[0] = limited(cx.dl, tree, start, end);
}

/// The trees of the fields of a type that may be transparent.
#[cycle(trees)]
fn checked_trees<'a>(
    cx: &Context<'a, '_>,
    budget: &mut Budget<'a>,
    nesting: Nesting<'_>,
    instance: Instance<'a, '_>,
    fields: &'a [Field],
) -> Result<Vec<TypeTree>, Stop>
    ensures { (m : Measure) → IsMeasure cx.now.dl.now m → Means (λ all. map tree_of all.items) (checked_trees cx.now m
        (tree_inner cx.now m nesting.entry.depth_left) (outer_of nesting.entry.above) (inside_of instance.entry)
        instance.entry.item.now fields.now) result }
{
    let trees = trees_of(cx, budget, nesting, instance, fields)?;
    check_transparent(cx, instance.item, trees.as_slice())?;
    Ok(trees)
}

/// The trees of fields.
#[cycle(trees)]
#[tactic(auto, using(crate::proofs::Trees::fields_more, crate::proofs::Trees::fields_done, crate::proofs::Trees::behind_none))]
pub(crate) fn trees_of<'a>(
    cx: &Context<'a, '_>,
    budget: &mut Budget<'a>,
    nesting: Nesting<'_>,
    instance: Instance<'a, '_>,
    fields: &'a [Field],
) -> Result<Vec<TypeTree>, Stop>
    ensures { (m : Measure) → IsMeasure cx.now.dl.now m → Means (λ all. map tree_of all.items) (field_trees cx.now m
        (tree_inner cx.now m nesting.entry.depth_left) (outer_of nesting.entry.above) (inside_of instance.entry)
        fields.now) result }
{
    let mut trees = Vec::new(cx.alloc);
    for field in fields {
        let one = tree_of_field(cx, budget, nesting, instance, field)?;
        push_tree(&mut trees, one)?;
    }
    Ok(trees)
}

/// The tree of a field. A fault that has no place is reported where the field's type begins.
#[cycle(trees)]
fn tree_of_field<'a>(
    cx: &Context<'a, '_>,
    budget: &mut Budget<'a>,
    nesting: Nesting<'_>,
    instance: Instance<'a, '_>,
    field: &'a Field,
) -> Result<TypeTree, Stop>
    ensures { (m : Measure) → IsMeasure cx.now.dl.now m → Means tree_of (field_tree cx.now m
        (tree_inner cx.now m nesting.entry.depth_left) (outer_of nesting.entry.above) (inside_of instance.entry)
        field.now) result }
{
    let ty = resolve(cx, budget, instance.inside(), &field.ty)?;
    match formed_tree(cx, budget, nesting, &ty) {
        Ok(one) => Ok(one),
        Err(stop) => Err(stop_in(field.start, stop)),
    }
}

/// The tree of a type that is written, whose parts have sizes where they need them.
#[cycle(trees)]
fn formed_tree<'a>(
    cx: &Context<'a, '_>,
    budget: &mut Budget<'a>,
    nesting: Nesting<'_>,
    ty: &Ty,
) -> Result<TypeTree, Stop>
    ensures { (m : Measure) → IsMeasure cx.now.dl.now m → Means tree_of
        (formed_tree cx.now m (tree_inner cx.now m nesting.entry.depth_left)
        (outer_of nesting.entry.above) (ty_of ty.now)) result }
{
    check_formed(cx, budget, ty)?;
    tree(cx, budget, nesting, ty)
}

/// A fault that has no place, reported at this one.
pub(crate) fn stop_in(at: Place, stop: Stop) -> Stop
    ensures value { result ≡ stop_in at stop }
    ensures beside { is_beside result ≡ is_beside stop }
{
    match stop {
        Stop::Fault(None, kind) => stop_at(at, kind),
        other => other,
    }
}

/// The tree of a union.
#[cycle(trees)]
#[tactic(auto, unfolding(crate::specs::Trees::union_tree))]
fn tree_of_union<'a>(
    cx: &Context<'a, '_>,
    budget: &mut Budget<'a>,
    nesting: Nesting<'_>,
    instance: Instance<'a, '_>,
    fields: &'a Fields,
) -> Result<TypeTree, Stop>
    ensures { (m : Measure) → IsMeasure cx.now.dl.now m → Means tree_of (union_tree cx.now m
        (tree_inner cx.now m nesting.entry.depth_left) (outer_of nesting.entry.above) (inside_of instance.entry)
        instance.entry.item.now fields.now.all.items) result }
{
    let repr = repr_of(instance.item)?;
    check_packed(cx, budget, instance.item, fields, most_deep())?;
    let trees = trees_of(cx, budget, nesting, instance, fields.all.as_slice())?;
    check_union_fields(cx, budget, instance.inside(), fields.all.as_slice())?;
    Ok(TypeTree::Union {
        repr,
        fields: trees,
    })
}

/// The tree of an enum.
#[cycle(trees)]
#[tactic(auto, unfolding(crate::specs::Trees::enum_tree), using(crate::proofs::Trees::tree_of_enum))]
fn tree_of_enum<'a>(
    cx: &Context<'a, '_>,
    budget: &mut Budget<'a>,
    nesting: Nesting<'_>,
    instance: Instance<'a, '_>,
    all: &'a Enum,
) -> Result<TypeTree, Stop>
    ensures { (m : Measure) → IsMeasure cx.now.dl.now m → Means tree_of (enum_tree cx.now m
        (tree_inner cx.now m nesting.entry.depth_left) (outer_of nesting.entry.above) (inside_of instance.entry)
        instance.entry.item.now all.now.variants.items) result }
{
    let repr = repr_of(instance.item)?;
    check_discriminants(instance.item, all)?;
    let variants = trees_of_variants(cx, budget, nesting, instance, all.variants.as_slice())?;
    Ok(TypeTree::Enum { repr, variants })
}

/// The discriminants of variants, and the trees of their fields.
#[cycle(trees)]
#[tactic(auto, using(crate::proofs::Trees::variants_more, crate::proofs::Trees::variants_done, crate::proofs::Trees::behind_none))]
fn trees_of_variants<'a>(
    cx: &Context<'a, '_>,
    budget: &mut Budget<'a>,
    nesting: Nesting<'_>,
    instance: Instance<'a, '_>,
    all: &'a [Variant],
) -> Result<Vec<(u128, Vec<TypeTree>)>, Stop>
    ensures { (m : Measure) → IsMeasure cx.now.dl.now m → Means (λ made. map variant_as_tree made.items)
        (variant_trees cx.now m (tree_inner cx.now m nesting.entry.depth_left) (outer_of nesting.entry.above)
        (inside_of instance.entry) instance.entry.item.now None all.now) result }
{
    let mut variants = Vec::new(cx.alloc);
    let mut last = None;
    for variant in all {
        let next = NextVariant { variant, last };
        let (number, fields) = tree_of_variant(cx, budget, nesting, instance, next)?;
        push_variant(&mut variants, number, fields)?;
        last = Some(number);
    }
    Ok(variants)
}

/// Puts a variant behind the others.
fn push_variant(
    all: &mut Vec<(u128, Vec<TypeTree>)>,
    number: Int,
    fields: Vec<TypeTree>,
) -> Result<(), Stop>
    ensures ok { OnOk result (map variant_as_tree all.new.items ≡ map variant_as_tree all.old.items
        ++ (cast_unsigned w128 (number_of_int number), map tree_of fields.items) ∷ []) }
    ensures err { IfErr result (λ e. is_beside e ≡ true) }
{
    all.push((number.bits(), fields))?;
    Ok(())
}

/// A variant's discriminant, behind the last one, and the trees of its fields.
#[cycle(trees)]
#[tactic(auto, unfolding(crate::specs::Trees::variant_tree))]
fn tree_of_variant<'a>(
    cx: &Context<'a, '_>,
    budget: &mut Budget<'a>,
    nesting: Nesting<'_>,
    instance: Instance<'a, '_>,
    next: NextVariant<'a>,
) -> Result<(Int, Vec<TypeTree>), Stop>
    ensures { (m : Measure) → IsMeasure cx.now.dl.now m → Means (λ made. (number_of_int made.0, map tree_of made.1.items))
        (variant_tree cx.now m (tree_inner cx.now m nesting.entry.depth_left) (outer_of nesting.entry.above)
        (inside_of instance.entry) instance.entry.item.now (option_map number_of_int next.entry.last)
        next.entry.variant.now) result }
{
    let number = discriminant_of(cx, budget, instance.item, next)?;
    let fields = next.variant.fields.all.as_slice();
    let trees = checked_trees(cx, budget, nesting, instance, fields)?;
    Ok((number, trees))
}

/// A variant's discriminant: what is written, or else the number behind the last one.
#[tactic(auto, unfolding(crate::specs::Trees::variant_number))]
fn discriminant_of<'a>(
    cx: &Context<'a, '_>,
    budget: &mut Budget<'a>,
    item: &'a Item,
    next: NextVariant<'a>,
) -> Result<Int, Stop>
    ensures { Means number_of_int (variant_number cx.now item.now (option_map number_of_int next.entry.last)
        next.entry.variant.now) result }
{
    match discriminant_value(cx, budget, item, next)? {
        ConstValue::Integer(_, int) => Ok(int),
        _ => Err(stop_at(next.variant.at, FaultKind::WrongType)),
    }
}

/// The value of a discriminant that may be written.
fn discriminant_value<'a>(
    cx: &Context<'a, '_>,
    budget: &mut Budget<'a>,
    item: &'a Item,
    next: NextVariant<'a>,
) -> Result<ConstValue, Stop>
    ensures { Means value_as_read (discriminant_value cx.now item.now (option_map number_of_int next.entry.last)
        next.entry.variant.now.at next.entry.variant.now.discriminant) result }
{
    match &next.variant.discriminant {
        Some(expr) => {
            let wanted = Some(Kind::Integer(discriminant_kind(item)));
            value_of(cx, budget, outside(item.module), expr, wanted)
        }
        None => number_behind(cx, item, next.last, next.variant.at),
    }
}

/// The number behind the last one, as a discriminant of the item.
#[tactic(auto, using(crate::proofs::Numbers::too_wide))]
fn number_behind(
    cx: &Context<'_, '_>,
    item: &Item,
    last: Option<Int>,
    at: Place,
) -> Result<ConstValue, Stop>
    ensures { Means value_as_read (discriminant_value cx.now item.now (option_map number_of_int last) at None) result }
{
    let kind = discriminant_kind(item);
    let width = Width::of(kind, cx.pointer_bits);
    let next = match last {
        Some(int) => int.plus(Int::positive(1)),
        None => Some(Int::positive(0)),
    };
    at_place(at, fitting(kind, width, next))
}
