//! Types without a size of their own, which are so by their last field alone.

ghost use Rattle.std.specs.Prelude.{◌≡◌, Some, true};
ghost use Rattle.abi_rust.specs.Meaning.{Means};
ghost use Rattle.abi_rust.specs.Measure.{IsMeasure, Measure};
ghost use Rattle.abi_rust.specs.Resolving.{inside_of, most_deep};
ghost use Rattle.abi_rust.specs.Tails.{outer_of};
ghost use Rattle.abi_rust.specs.Trees.{fields_before_checked, last_checked, unsized_by_item, unsized_checked, unsized_item_checked, unsized_kind_checked};
ghost use Rattle.abi_rust.specs.Types.{all_given, givens, ty_of, where_of};

use crate::above::Nesting;
use crate::budget::{Budget, Context, Env, Instance};
use crate::fault::Stop;
use crate::formed::check_formed;
use crate::paths::item_at;
use crate::resolve::resolve;
use crate::tail::last_of;
use crate::tree::{stop_in, trees_of};
use crate::ty::{GenericArg, Ty};
use rust_source::{Field, ItemKind};

/// A fault where a type without a size of its own has a part that needs one and has none.
#[tactic(auto, unfolding(crate::specs::Trees::unsized_checked))]
pub(crate) fn check_unsized<'a>(
    cx: &Context<'a, '_>,
    budget: &mut Budget<'a>,
    ty: &Ty,
) -> Result<(), Stop>
    ensures { (m : Measure) → IsMeasure cx.now.dl.now m →
        Means (λ _. true) (unsized_checked cx.now m (ty_of ty.now)) result }
{
    match ty {
        Ty::Adt(number, given) => check_item(cx, budget, *number, given.as_slice()),
        _ => Ok(()),
    }
}

/// The same of an item under what its parameters are given, if there is one of this number.
#[tactic(auto, unfolding(crate::specs::Trees::unsized_item_checked))]
fn check_item<'a>(
    cx: &Context<'a, '_>,
    budget: &mut Budget<'a>,
    number: u32,
    given: &[GenericArg],
) -> Result<(), Stop>
    ensures { (m : Measure) → IsMeasure cx.now.dl.now m → Means (λ _. true) (unsized_item_checked cx.now m number
        (givens (all_given given.now))) result }
{
    let Some(item) = item_at(cx.items, number) else {
        return Ok(());
    };
    let instance = Instance {
        number,
        item,
        given,
    };
    check_found(cx, budget, instance)
}

/// The same of an item that is found.
fn check_found<'a>(
    cx: &Context<'a, '_>,
    budget: &mut Budget<'a>,
    instance: Instance<'a, '_>,
) -> Result<(), Stop>
    ensures { (m : Measure) → IsMeasure cx.now.dl.now m → Means (λ _. true) (unsized_by_item cx.now m
        instance.entry.number (givens (all_given instance.entry.given.now)) (Some instance.entry.item.now)) result }
{
    let nesting = Nesting::alone();
    let inner = nesting.inside(instance.number, instance.given);
    check_instance(cx, budget, inner, instance)
}

/// The same of an item whose parts stand in this.
fn check_instance<'a>(
    cx: &Context<'a, '_>,
    budget: &mut Budget<'a>,
    nesting: Nesting<'_>,
    instance: Instance<'a, '_>,
) -> Result<(), Stop>
    requires { nesting.depth_left ≡ most_deep }
    ensures { (m : Measure) → IsMeasure cx.now.dl.now m → Means (λ _. true) (unsized_kind_checked cx.now m
        (outer_of nesting.entry.above) (inside_of instance.entry) instance.entry.item.now.kind) result }
{
    match &instance.item.kind {
        ItemKind::Struct(fields) => {
            check_fields_before(cx, budget, nesting, instance, fields.all.as_slice())
        }
        _ => Ok(()),
    }
}

/// A fault where a field but the last has no size, or a part of the last that needs one has none.
fn check_fields_before<'a>(
    cx: &Context<'a, '_>,
    budget: &mut Budget<'a>,
    nesting: Nesting<'_>,
    instance: Instance<'a, '_>,
    fields: &'a [Field],
) -> Result<(), Stop>
    requires { nesting.depth_left ≡ most_deep }
    ensures { (m : Measure) → IsMeasure cx.now.dl.now m → Means (λ _. true) (fields_before_checked cx.now m
        (outer_of nesting.entry.above) (inside_of instance.entry) fields.now) result }
{
    let sized = &fields[..fields.len().saturating_sub(1)];
    let _trees = trees_of(cx, budget, nesting, instance, sized)?;
    match last_of(fields) {
        Some(last) => check_last(cx, budget, instance.inside(), last),
        None => Ok(()),
    }
}

/// A fault where a part of a last field that needs a size has none.
fn check_last<'a>(
    cx: &Context<'a, '_>,
    budget: &mut Budget<'a>,
    inside: Env<'_>,
    last: &'a Field,
) -> Result<(), Stop>
    ensures { Means (λ _. true) (last_checked cx.now (where_of inside.entry) (Some last.now)) result }
{
    let ty = resolve(cx, budget, inside.with_all_depth(), &last.ty)?;
    match check_formed(cx, budget, &ty) {
        Ok(()) => Ok(()),
        Err(stop) => Err(stop_in(last.start, stop)),
    }
}
