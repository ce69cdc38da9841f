//! Which types aren't `Copy`, and whether a union's fields are of types that they may be of.

ghost use Rattle.std.specs.Prelude.{◌≡◌, IfErr, IfOk, map, not, true};
ghost use Rattle.abi_rust.specs.CopyTypes.{all_fit_union, fields_lack, fits_union, is_manually_dropped, is_never_copy, is_str, item_lacks, kind_lacks, lacks_copy, lacks_copy_with, meant_lacks, parts_lack, union_fields_checked, union_type_checked, variants_lack};
ghost use Rattle.abi_rust.specs.Meaning.{Means, is_beside, then_meant};
ghost use Rattle.abi_rust.specs.Resolving.{most_deep, resolved};
ghost use Rattle.abi_rust.specs.Types.{all_given, givens, ty_of, types, where_of};

use crate::budget::{Budget, Context, Env, less, most_deep};
use crate::fault::{FaultKind, Stop, stop_at};
use crate::owned::{is_item, item_in};
use crate::paths::item_at;
use crate::resolve::resolve;
use crate::tail::is_of_std;
use crate::ty::{GenericArg, Primitive, Ty};
use crate::words::Word;
use rust_source::{Field, Item, ItemKind, Type, Variant};

/// Whether an item is one of the standard library's that no `derive` of `Copy` stands at.
fn is_never_copy(cx: &Context<'_, '_>, item: &Item) -> bool
    ensures { result ≡ is_never_copy cx.now item.now }
{
    is_of_std(cx, item) && !item.derives_copy
}

/// Whether a primitive type is `str`.
fn is_str(primitive: Primitive) -> bool
    ensures { result ≡ is_str primitive }
{
    match primitive {
        Primitive::Str => true,
        _ => false,
    }
}

/// Whether a type isn't `Copy`, for certain, as far as types within one another so deep show.
#[cycle(copies)]
#[tactic(auto, using(crate::proofs::CopyLists::copy_less, crate::proofs::CopyLists::copy_none))]
fn lacks_copy<'a>(
    cx: &Context<'a, '_>,
    budget: &mut Budget<'a>,
    ty: &Ty,
    depth_left: u32,
) -> Result<bool, Stop>
    ensures ok { IfOk result (λ is. is ≡ lacks_copy cx.now depth_left (ty_of ty.now)) }
    ensures err { IfErr result (λ e. is_beside e ≡ true) }
{
    budget.spend()?;
    match less(depth_left) {
        Ok(depth_left) => lacks_copy_with(cx, budget, ty, depth_left),
        Err(_) => Ok(false),
    }
}

/// Whether a type isn't `Copy`, for certain, by its parts.
#[cycle(copies)]
#[tactic(auto, unfolding(crate::specs::CopyTypes::lacks_copy_with))]
fn lacks_copy_with<'a>(
    cx: &Context<'a, '_>,
    budget: &mut Budget<'a>,
    ty: &Ty,
    depth_left: u32,
) -> Result<bool, Stop>
    ensures ok { IfOk result
        (λ is. is ≡ lacks_copy_with cx.now (lacks_copy cx.now depth_left) (ty_of ty.now)) }
    ensures err { IfErr result (λ e. is_beside e ≡ true) }
{
    match ty {
        Ty::Dyn => Ok(true),
        Ty::Slice(_) => Ok(true),
        Ty::Reference(is_mutable, _) => Ok(*is_mutable),
        Ty::Array(element, _) => lacks_copy(cx, budget, element, depth_left),
        Ty::Tuple(parts) => parts_lack(cx, budget, parts, depth_left),
        Ty::Adt(number, given) => item_lacks(cx, budget, *number, given, depth_left),
        Ty::Primitive(primitive) => Ok(is_str(*primitive)),
        Ty::Never => Ok(false),
        Ty::Function => Ok(false),
        Ty::Pointer(_) => Ok(false),
    }
}

/// Whether one of these types isn't `Copy`.
#[cycle(copies)]
#[tactic(auto, using(crate::proofs::CopyLists::parts_on, crate::proofs::CopyLists::parts_end))]
fn parts_lack<'a>(
    cx: &Context<'a, '_>,
    budget: &mut Budget<'a>,
    parts: &[Ty],
    depth_left: u32,
) -> Result<bool, Stop>
    ensures ok { IfOk result (λ is. is
        ≡ parts_lack cx.now (lacks_copy cx.now depth_left) (types (map ty_of parts.now))) }
    ensures err { IfErr result (λ e. is_beside e ≡ true) }
{
    for part in parts {
        if lacks_copy(cx, budget, part, depth_left)? {
            return Ok(true);
        }
    }
    Ok(false)
}

/// Whether an item isn't `Copy` under what its parameters are given.
#[cycle(copies)]
#[tactic(auto, unfolding(crate::specs::CopyTypes::item_lacks), using(crate::proofs::CopyLists::item_on))]
fn item_lacks<'a>(
    cx: &Context<'a, '_>,
    budget: &mut Budget<'a>,
    number: u32,
    given: &[GenericArg],
    depth_left: u32,
) -> Result<bool, Stop>
    ensures ok { IfOk result (λ is. is ≡ item_lacks cx.now (lacks_copy cx.now depth_left) number
        (givens (all_given given.now))) }
    ensures err { IfErr result (λ e. is_beside e ≡ true) }
{
    let Some(item) = item_at(cx.items, number) else {
        return Ok(false);
    };
    if is_never_copy(cx, item) {
        return Ok(true);
    }
    let inside = Env {
        module: item.module,
        item: Some(number),
        given,
        locals: &[],
        depth_left: most_deep(),
    };
    kind_lacks(cx, budget, inside, item, depth_left)
}

/// Whether a field of what an item defines isn't `Copy`.
#[cycle(copies)]
fn kind_lacks<'a>(
    cx: &Context<'a, '_>,
    budget: &mut Budget<'a>,
    inside: Env<'_>,
    item: &'a Item,
    depth_left: u32,
) -> Result<bool, Stop>
    ensures ok { IfOk result (λ is. is ≡ kind_lacks cx.now (lacks_copy cx.now depth_left)
        (where_of inside.entry) item.now.kind) }
    ensures err { IfErr result (λ e. is_beside e ≡ true) }
{
    match &item.kind {
        ItemKind::Struct(fields) => {
            fields_lack(cx, budget, inside, fields.all.as_slice(), depth_left)
        }
        ItemKind::Union(fields) => {
            fields_lack(cx, budget, inside, fields.all.as_slice(), depth_left)
        }
        ItemKind::Enum(all) => {
            variants_lack(cx, budget, inside, all.variants.as_slice(), depth_left)
        }
        _ => Ok(false),
    }
}

/// Whether a field of one of these variants isn't `Copy`.
#[cycle(copies)]
#[tactic(auto, using(crate::proofs::CopyLists::variants_on, crate::proofs::CopyLists::variants_end))]
fn variants_lack<'a>(
    cx: &Context<'a, '_>,
    budget: &mut Budget<'a>,
    inside: Env<'_>,
    variants: &'a [Variant],
    depth_left: u32,
) -> Result<bool, Stop>
    ensures ok { IfOk result (λ is. is ≡ variants_lack cx.now (lacks_copy cx.now depth_left)
        (where_of inside.entry) variants.now) }
    ensures err { IfErr result (λ e. is_beside e ≡ true) }
{
    for variant in variants {
        if fields_lack(
            cx,
            budget,
            inside,
            variant.fields.all.as_slice(),
            depth_left,
        )? {
            return Ok(true);
        }
    }
    Ok(false)
}

/// Whether one of these fields isn't `Copy`.
#[cycle(copies)]
#[tactic(auto, using(crate::proofs::CopyLists::fields_on, crate::proofs::CopyLists::fields_end))]
fn fields_lack<'a>(
    cx: &Context<'a, '_>,
    budget: &mut Budget<'a>,
    inside: Env<'_>,
    fields: &'a [Field],
    depth_left: u32,
) -> Result<bool, Stop>
    ensures ok { IfOk result (λ is. is ≡ fields_lack cx.now (lacks_copy cx.now depth_left)
        (where_of inside.entry) fields.now) }
    ensures err { IfErr result (λ e. is_beside e ≡ true) }
{
    for field in fields {
        if written_lacks(cx, budget, inside, &field.ty, depth_left)? {
            return Ok(true);
        }
    }
    Ok(false)
}

/// Whether the type that is written in a setting isn't `Copy`. One that can't be found out may be.
#[cycle(copies)]
fn written_lacks<'a>(
    cx: &Context<'a, '_>,
    budget: &mut Budget<'a>,
    inside: Env<'_>,
    ty: &'a Type,
    depth_left: u32,
) -> Result<bool, Stop>
    ensures ok { IfOk result (λ is. is ≡ meant_lacks cx.now (lacks_copy cx.now depth_left)
        (resolved cx.now (where_of inside.entry) ty.now)) }
    ensures err { IfErr result (λ e. is_beside e ≡ true) }
{
    match resolve(cx, budget, inside.with_all_depth(), ty) {
        Ok(ty) => lacks_copy(cx, budget, &ty, depth_left),
        Err(stop) => {
            if stop.is_beside() {
                Err(stop)
            } else {
                Ok(false)
            }
        }
    }
}

/// Whether a type may be `Copy`, as far as that can be found out.
fn may_be_copy<'a>(cx: &Context<'a, '_>, budget: &mut Budget<'a>, ty: &Ty) -> Result<bool, Stop>
    ensures ok { IfOk result (λ may. may ≡ not (lacks_copy cx.now most_deep (ty_of ty.now))) }
    ensures err { IfErr result (λ e. is_beside e ≡ true) }
{
    Ok(!lacks_copy(cx, budget, ty, most_deep())?)
}

/// Whether the item is `ManuallyDrop`.
fn is_manually_dropped(cx: &Context<'_, '_>, number: u32) -> bool
    ensures { result ≡ is_manually_dropped cx.now number }
{
    is_item(item_in(cx, Word::Mem, Word::ManuallyDrop), number)
}

/// Whether a union's field may be of a type, as far as that can be found out.
#[cycle(fitting)]
fn fits_union<'a>(cx: &Context<'a, '_>, budget: &mut Budget<'a>, ty: &Ty) -> Result<bool, Stop>
    ensures ok { IfOk result (λ fits. fits ≡ fits_union cx.now (ty_of ty.now)) }
    ensures err { IfErr result (λ e. is_beside e ≡ true) }
{
    match ty {
        Ty::Reference(_, _) => Ok(true),
        Ty::Tuple(parts) => all_fit_union(cx, budget, parts),
        Ty::Array(element, _) => fits_union(cx, budget, element),
        Ty::Adt(number, _) => {
            if is_manually_dropped(cx, *number) {
                return Ok(true);
            }
            may_be_copy(cx, budget, ty)
        }
        Ty::Slice(_) => may_be_copy(cx, budget, ty),
        Ty::Pointer(_) => may_be_copy(cx, budget, ty),
        Ty::Never => may_be_copy(cx, budget, ty),
        Ty::Primitive(_) => may_be_copy(cx, budget, ty),
        Ty::Function => may_be_copy(cx, budget, ty),
        Ty::Dyn => may_be_copy(cx, budget, ty),
    }
}

/// Whether a union's fields may be of these types.
#[cycle(fitting)]
#[tactic(auto, using(crate::proofs::CopyLists::fits_on, crate::proofs::CopyLists::fits_end))]
fn all_fit_union<'a>(
    cx: &Context<'a, '_>,
    budget: &mut Budget<'a>,
    parts: &[Ty],
) -> Result<bool, Stop>
    ensures ok { IfOk result (λ fit. fit ≡ all_fit_union cx.now (types (map ty_of parts.now))) }
    ensures err { IfErr result (λ e. is_beside e ≡ true) }
{
    for part in parts {
        if !fits_union(cx, budget, part)? {
            return Ok(false);
        }
    }
    Ok(true)
}

/// A fault where a union's field may not be of its type.
fn check_union_type<'a>(
    cx: &Context<'a, '_>,
    budget: &mut Budget<'a>,
    field: &Field,
    ty: &Ty,
) -> Result<(), Stop>
    ensures { Means (λ _. true) (union_type_checked cx.now field.now (ty_of ty.now)) result }
{
    if fits_union(cx, budget, ty)? {
        return Ok(());
    }
    Err(stop_at(field.start, FaultKind::UnionField))
}

/// The same of the type that is written at the field.
fn check_union_field<'a>(
    cx: &Context<'a, '_>,
    budget: &mut Budget<'a>,
    inside: Env<'_>,
    field: &'a Field,
) -> Result<(), Stop>
    ensures { Means (λ _. true) (then_meant (union_type_checked cx.now field.now)
        (resolved cx.now (where_of inside.entry) field.now.ty)) result }
{
    let ty = resolve(cx, budget, inside.with_all_depth(), &field.ty)?;
    check_union_type(cx, budget, field, &ty)
}

/// A fault where a union's field isn't of a type that is `Copy`, a reference, `ManuallyDrop`, or a tuple or an array of
/// these (Rust Reference, "Unions").
#[tactic(auto, using(crate::proofs::CopyLists::union_more, crate::proofs::CopyLists::union_done))]
pub(crate) fn check_union_fields<'a>(
    cx: &Context<'a, '_>,
    budget: &mut Budget<'a>,
    inside: Env<'_>,
    fields: &'a [Field],
) -> Result<(), Stop>
    ensures { Means (λ _. true)
        (union_fields_checked cx.now (where_of inside.entry) fields.now) result }
{
    for field in fields {
        check_union_field(cx, budget, inside, field)?;
    }
    Ok(())
}
