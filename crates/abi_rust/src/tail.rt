//! Whether a type's size is known, and else what a pointer to it tells.

ghost use Rattle.std.specs.Prelude.{◌≡◌, IfErr, IfOk, Some, map, true};
ghost use Rattle.std.specs.Option.{option_copied, option_map};
ghost use Rattle.abi_rust.specs.Meaning.{Means, is_beside};
ghost use Rattle.abi_rust.specs.Tails.{always_sized, assumed, field_tail, has_known_size, is_of_std, tail_field, last_of, last_type, may_any, outer_of, pointee_tail, tail_inner, tail_of_item_with, tail_of_last, tail_with};
ghost use Rattle.abi_rust.specs.Types.{all_given, given_of, givens, ty_of, types};

use crate::above::{Nesting, stands_in};
use crate::budget::{Budget, Context, Instance, push_given};
use crate::fault::{FaultKind, Stop, stop_at};
use crate::int::Int;
use crate::paths::{item_at, root_of};
use crate::resolve::resolve;
use crate::ty::{ConstValue, GenericArg, Primitive, Ty};
use rust_source::{Field, IntegerKind, Item, ItemKind, Parameter, ParameterKind};
use std::alloc::Global;

/// What a pointer to a type tells beside its address.
#[derive(Clone, Copy, PartialEq, Eq)]
pub(crate) enum Tail {
    /// Nothing: the type's size is known.
    Sized,
    /// How many elements there are.
    Length,
    /// A table of the trait's functions.
    Table,
}

impl Tail {
    /// Whether the size is known.
    pub(crate) fn is_sized(self) -> bool
        ensures { result ≡ has_known_size self }
    {
        match self {
            Tail::Sized => true,
            _ => false,
        }
    }
}

/// What a pointer to the type tells.
#[tactic(auto, unfolding(crate::specs::Tails::pointee_tail))]
pub(crate) fn pointee_tail<'a>(
    cx: &Context<'a, '_>,
    budget: &mut Budget<'a>,
    ty: &Ty,
) -> Result<Tail, Stop>
    ensures { Means (λ tail. tail) (pointee_tail cx.now (ty_of ty.now)) result }
{
    tail_of(cx, budget, Nesting::alone(), ty)
}

/// What a pointer to the type tells, by the type's last field. `Recursive` where that stands in itself.
#[cycle(tails)]
#[tactic(auto, using(crate::proofs::Rooms::tail_less, crate::proofs::Rooms::tail_none))]
fn tail_of<'a>(
    cx: &Context<'a, '_>,
    budget: &mut Budget<'a>,
    nesting: Nesting<'_>,
    ty: &Ty,
) -> Result<Tail, Stop>
    ensures { Means (λ tail. tail)
        ((tail_inner cx.now nesting.entry.depth_left).tail_of (outer_of nesting.entry.above) (ty_of ty.now)) result }
{
    budget.spend()?;
    let nesting = nesting.deeper()?;
    tail_of_kind(cx, budget, nesting, ty)
}

/// What a pointer to the type tells, whatever kind of type it is.
#[cycle(tails)]
#[tactic(auto, unfolding(crate::specs::Tails::tail_with))]
fn tail_of_kind<'a>(
    cx: &Context<'a, '_>,
    budget: &mut Budget<'a>,
    nesting: Nesting<'_>,
    ty: &Ty,
) -> Result<Tail, Stop>
    ensures { Means (λ tail. tail)
        (tail_with cx.now (tail_inner cx.now nesting.entry.depth_left)
        (outer_of nesting.entry.above) (ty_of ty.now)) result }
{
    match ty {
        Ty::Slice(_) => Ok(Tail::Length),
        Ty::Primitive(Primitive::Str) => Ok(Tail::Length),
        Ty::Dyn => Ok(Tail::Table),
        Ty::Tuple(parts) => match last_part(parts) {
            Some(last) => tail_of(cx, budget, nesting, last),
            None => Ok(Tail::Sized),
        },
        Ty::Adt(number, given) => tail_of_item(cx, budget, nesting, *number, given.as_slice()),
        _ => Ok(Tail::Sized),
    }
}

/// The last of some types.
#[tactic(auto, using(crate::proofs::Lasts::last_part_is))]
fn last_part(parts: &[Ty]) -> Option<&Ty>
    ensures { option_map (λ ty. ty_of ty.now) result ≡ last_type (types (map ty_of parts.now)) }
{
    parts.last()
}

/// What a pointer to the type tells that an item is.
#[cycle(tails)]
#[tactic(auto, using(crate::proofs::Rooms::tail_item_less, crate::proofs::Rooms::tail_item_none))]
fn tail_of_item<'a>(
    cx: &Context<'a, '_>,
    budget: &mut Budget<'a>,
    nesting: Nesting<'_>,
    number: u32,
    given: &[GenericArg],
) -> Result<Tail, Stop>
    ensures { Means (λ tail. tail)
        ((tail_inner cx.now nesting.entry.depth_left).tail_of_item
        (outer_of nesting.entry.above) number (givens (all_given given.now))) result }
{
    let nesting = nesting.deeper()?;
    tail_of_found(cx, budget, nesting, number, given)
}

/// What a pointer to the type tells that an item is, if there is one of this number.
#[cycle(tails)]
#[tactic(auto, unfolding(crate::specs::Tails::tail_of_item_with))]
fn tail_of_found<'a>(
    cx: &Context<'a, '_>,
    budget: &mut Budget<'a>,
    nesting: Nesting<'_>,
    number: u32,
    given: &[GenericArg],
) -> Result<Tail, Stop>
    ensures { Means (λ tail. tail)
        (tail_of_item_with cx.now (tail_inner cx.now nesting.entry.depth_left) (outer_of nesting.entry.above) number
        (givens (all_given given.now))) result }
{
    let Some(item) = item_at(cx.items, number) else {
        return Ok(Tail::Sized);
    };
    match tail_field(cx, item) {
        Some(last) => {
            let instance = Instance {
                number,
                item,
                given,
            };
            tail_of_field(cx, budget, nesting, instance, last)
        }
        None => Ok(Tail::Sized),
    }
}

/// What a pointer to the type tells that an item is, whose last field this is.
#[cycle(tails)]
#[tactic(auto, using(crate::proofs::Lasts::list_given_is))]
fn tail_of_field<'a>(
    cx: &Context<'a, '_>,
    budget: &mut Budget<'a>,
    nesting: Nesting<'_>,
    instance: Instance<'_, '_>,
    last: &'a Field,
) -> Result<Tail, Stop>
    ensures { Means (λ tail. tail) (field_tail cx.now (tail_inner cx.now nesting.entry.depth_left)
        (outer_of nesting.entry.above) instance.entry.number (givens (all_given instance.entry.given.now))
        instance.entry.item.now (Some last.now)) result }
{
    let item = instance.item;
    if stands_in(&nesting.above, instance.number, instance.given) {
        return Err(stop_at(item.at, FaultKind::Recursive(item.name)));
    }
    let ty = resolve(cx, budget, instance.inside(), &last.ty)?;
    let inner = nesting.inside(instance.number, instance.given);
    tail_of(cx, budget, inner, &ty)
}

/// Whether an item stands in the standard library's source.
pub(crate) fn is_of_std(cx: &Context<'_, '_>, item: &Item) -> bool
    ensures { result ≡ is_of_std cx.now item.now }
{
    root_of(cx.items, item.module) == cx.scope.std_root
}

/// The field of an item that may be without a size: the last of a struct, and of a union in the standard library's source.
fn tail_field<'a>(cx: &Context<'_, '_>, item: &'a Item) -> Option<&'a Field>
    ensures { option_copied result ≡ tail_field cx.now item.now item.now.kind }
{
    match &item.kind {
        ItemKind::Struct(fields) => last_of(fields.all.as_slice()),
        ItemKind::Union(fields) => {
            if is_of_std(cx, item) {
                last_of(fields.all.as_slice())
            } else {
                None
            }
        }
        _ => None,
    }
}

/// The last of some fields.
#[tactic(auto, using(crate::proofs::Lasts::last_field_is))]
pub(crate) fn last_of(fields: &[Field]) -> Option<&Field>
    ensures { option_copied result ≡ last_of fields.now }
{
    fields.last()
}

/// Whether a parameter may be given what has no size.
fn may_any(parameters: &[Parameter]) -> bool
    ensures { result ≡ may_any parameters.now }
{
    for parameter in parameters {
        if parameter.may_be_unsized {
            return true;
        }
    }
    false
}

/// What a parameter is assumed to be given: what has no size where it may have none.
fn assumed(parameter: &Parameter) -> GenericArg
    ensures { given_of result ≡ assumed parameter.now }
{
    match parameter.kind {
        ParameterKind::Type(_) => {
            if parameter.may_be_unsized {
                GenericArg::Type(Ty::Dyn)
            } else {
                GenericArg::Type(Ty::Never)
            }
        }
        ParameterKind::Const(_, _) => GenericArg::Value(ConstValue::Integer(
            IntegerKind::Usize,
            Int::positive(0),
        )),
    }
}

/// What parameters are assumed to be given.
#[tactic(auto, using(crate::proofs::Lasts::assumed_more, crate::proofs::Lasts::assumed_all))]
fn all_assumed(alloc: Global, parameters: &[Parameter]) -> Result<Vec<GenericArg>, Stop>
    ensures ok { IfOk result (λ given. all_given given.items ≡ map assumed parameters.now) }
    ensures err { IfErr result (λ e. is_beside e ≡ true) }
{
    let mut given = Vec::new(alloc);
    for parameter in parameters {
        push_given(&mut given, assumed(parameter))?;
    }
    Ok(given)
}

/// Whether a struct's last field has a known size whatever types its parameters are given.
#[tactic(auto, unfolding(crate::specs::Tails::always_sized))]
pub(crate) fn is_always_sized<'a>(
    cx: &Context<'a, '_>,
    budget: &mut Budget<'a>,
    number: u32,
    item: &Item,
) -> Result<bool, Stop>
    ensures { Means (λ is. is) (always_sized cx.now number item.now) result }
{
    if !may_any(item.parameters.as_slice()) {
        return Ok(true);
    }
    let given = all_assumed(cx.alloc, item.parameters.as_slice())?;
    let tail = tail_of_item(cx, budget, Nesting::alone(), number, given.as_slice())?;
    Ok(tail.is_sized())
}
