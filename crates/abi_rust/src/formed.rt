//! Whether the parts of a type that need a size have one.

ghost use Rattle.std.specs.Prelude.{◌≡◌, ◌||◌, IfErr, IfOk, map, not, true};
ghost use Rattle.abi_rust.specs.Formed.{all_formed, all_given_formed, formed_checked, given_formed, given_lacks, is_formed, lacks_size, sized_but_last, sizes_given};
ghost use Rattle.abi_rust.specs.Kinds.{item_at, parameters_of};
ghost use Rattle.abi_rust.specs.Meaning.{Means, is_beside};
ghost use Rattle.abi_rust.specs.Types.{all_given, given_of, givens, ty_of, types};

use crate::budget::{Budget, Context};
use crate::fault::{FaultKind, Stop};
use crate::paths::item_at;
use crate::tail::pointee_tail;
use crate::ty::{GenericArg, Ty};
use rust_source::Parameter;

/// A fault where a part of a type that needs a size has none.
pub(crate) fn check_formed<'a>(
    cx: &Context<'a, '_>,
    budget: &mut Budget<'a>,
    ty: &Ty,
) -> Result<(), Stop>
    ensures { Means (λ _. true) (formed_checked cx.now (ty_of ty.now)) result }
{
    if is_formed(cx, budget, ty)? {
        return Ok(());
    }
    Err(Stop::Fault(None, FaultKind::Unsized))
}

/// Whether the parts of a type that need a size have one.
#[cycle(forming)]
fn is_formed<'a>(cx: &Context<'a, '_>, budget: &mut Budget<'a>, ty: &Ty) -> Result<bool, Stop>
    ensures ok { IfOk result (λ is. is ≡ is_formed cx.now (ty_of ty.now)) }
    ensures err { IfErr result (λ e. is_beside e ≡ true) }
{
    budget.spend()?;
    match ty {
        Ty::Tuple(parts) => {
            if !sized_but_last(cx, budget, parts)? {
                return Ok(false);
            }
            all_formed(cx, budget, parts)
        }
        Ty::Array(element, _) => {
            if lacks_size(cx, budget, element)? {
                return Ok(false);
            }
            is_formed(cx, budget, element)
        }
        Ty::Slice(element) => {
            if lacks_size(cx, budget, element)? {
                return Ok(false);
            }
            is_formed(cx, budget, element)
        }
        Ty::Reference(_, pointee) => is_formed(cx, budget, pointee),
        Ty::Pointer(pointee) => is_formed(cx, budget, pointee),
        Ty::Adt(number, given) => {
            if !item_gives_sizes(cx, budget, *number, given)? {
                return Ok(false);
            }
            all_given_formed(cx, budget, given)
        }
        Ty::Never => Ok(true),
        Ty::Primitive(_) => Ok(true),
        Ty::Function => Ok(true),
        Ty::Dyn => Ok(true),
    }
}

/// Whether the parts of each of these types have a size that need one.
#[cycle(forming)]
#[tactic(auto, using(crate::proofs::FormedLists::formed_on, crate::proofs::FormedLists::formed_end))]
fn all_formed<'a>(cx: &Context<'a, '_>, budget: &mut Budget<'a>, parts: &[Ty]) -> Result<bool, Stop>
    ensures ok { IfOk result (λ is. is ≡ all_formed cx.now (types (map ty_of parts.now))) }
    ensures err { IfErr result (λ e. is_beside e ≡ true) }
{
    for part in parts {
        if !is_formed(cx, budget, part)? {
            return Ok(false);
        }
    }
    Ok(true)
}

/// The same of what a parameter is given.
#[cycle(forming)]
fn given_formed<'a>(
    cx: &Context<'a, '_>,
    budget: &mut Budget<'a>,
    given: &GenericArg,
) -> Result<bool, Stop>
    ensures ok { IfOk result (λ is. is ≡ given_formed cx.now (given_of given.now)) }
    ensures err { IfErr result (λ e. is_beside e ≡ true) }
{
    match given {
        GenericArg::Type(ty) => is_formed(cx, budget, ty),
        GenericArg::Value(_) => Ok(true),
    }
}

/// The same of all that parameters are given.
#[cycle(forming)]
#[tactic(auto, using(crate::proofs::FormedLists::given_on, crate::proofs::FormedLists::given_end))]
fn all_given_formed<'a>(
    cx: &Context<'a, '_>,
    budget: &mut Budget<'a>,
    given: &[GenericArg],
) -> Result<bool, Stop>
    ensures ok { IfOk result (λ is. is ≡ all_given_formed cx.now (givens (all_given given.now))) }
    ensures err { IfErr result (λ e. is_beside e ≡ true) }
{
    for one in given {
        if !given_formed(cx, budget, one)? {
            return Ok(false);
        }
    }
    Ok(true)
}

/// Whether a type has no size of its own. Where that can't be found out, it counts as one that has.
#[tactic(auto, unfolding(crate::specs::Formed::lacks_size))]
fn lacks_size<'a>(cx: &Context<'a, '_>, budget: &mut Budget<'a>, ty: &Ty) -> Result<bool, Stop>
    ensures ok { IfOk result (λ is. is ≡ lacks_size cx.now (ty_of ty.now)) }
    ensures err { IfErr result (λ e. is_beside e ≡ true) }
{
    match pointee_tail(cx, budget, ty) {
        Ok(tail) => Ok(!tail.is_sized()),
        Err(stop) => {
            if stop.is_beside() {
                Err(stop)
            } else {
                Ok(false)
            }
        }
    }
}

/// Whether a type has a size of its own, or it can't be found out.
fn has_size<'a>(cx: &Context<'a, '_>, budget: &mut Budget<'a>, ty: &Ty) -> Result<bool, Stop>
    ensures ok { IfOk result (λ is. is ≡ not (lacks_size cx.now (ty_of ty.now))) }
    ensures err { IfErr result (λ e. is_beside e ≡ true) }
{
    Ok(!lacks_size(cx, budget, ty)?)
}

/// Whether what a parameter is given has no size of its own.
fn given_lacks<'a>(
    cx: &Context<'a, '_>,
    budget: &mut Budget<'a>,
    given: &GenericArg,
) -> Result<bool, Stop>
    ensures ok { IfOk result (λ is. is ≡ given_lacks cx.now (given_of given.now)) }
    ensures err { IfErr result (λ e. is_beside e ≡ true) }
{
    match given {
        GenericArg::Type(ty) => lacks_size(cx, budget, ty),
        GenericArg::Value(_) => Ok(false),
    }
}

/// Whether a parameter is `?Sized`, or is given what has a size.
fn gives_size<'a>(
    cx: &Context<'a, '_>,
    budget: &mut Budget<'a>,
    parameter: &Parameter,
    given: &GenericArg,
) -> Result<bool, Stop>
    ensures ok { IfOk result (λ is. is
        ≡ (parameter.now.may_be_unsized || not (given_lacks cx.now (given_of given.now)))) }
    ensures err { IfErr result (λ e. is_beside e ≡ true) }
{
    if parameter.may_be_unsized {
        return Ok(true);
    }
    Ok(!given_lacks(cx, budget, given)?)
}

/// Whether each of these types but the last has a size.
#[tactic(auto, using(crate::proofs::FormedLists::sized_on, crate::proofs::FormedLists::sized_last, crate::proofs::FormedLists::sized_end))]
fn sized_but_last<'a>(
    cx: &Context<'a, '_>,
    budget: &mut Budget<'a>,
    parts: &[Ty],
) -> Result<bool, Stop>
    ensures ok { IfOk result (λ is. is ≡ sized_but_last cx.now (types (map ty_of parts.now))) }
    ensures err { IfErr result (λ e. is_beside e ≡ true) }
{
    for (index, part) in parts.iter().enumerate() {
        if index + 1 >= parts.len() {
            return Ok(true);
        }
        if !has_size(cx, budget, part)? {
            return Ok(false);
        }
    }
    Ok(true)
}

/// Whether each parameter of an item that isn't `?Sized` is given what has a size.
fn item_gives_sizes<'a>(
    cx: &Context<'a, '_>,
    budget: &mut Budget<'a>,
    number: u32,
    given: &[GenericArg],
) -> Result<bool, Stop>
    ensures ok { IfOk result (λ is. is ≡ sizes_given cx.now
        (parameters_of cx.now.items.now cx.now.scope.now (item_at cx.now.items.now cx.now.scope.now number))
        (givens (all_given given.now))) }
    ensures err { IfErr result (λ e. is_beside e ≡ true) }
{
    match item_at(cx.items, number) {
        Some(item) => sizes_given(cx, budget, item.parameters.as_slice(), given),
        None => Ok(true),
    }
}

/// Whether each of these parameters that isn't `?Sized` is given what has a size.
#[tactic(auto, using(crate::proofs::FormedLists::sizes_on, crate::proofs::FormedLists::sizes_past, crate::proofs::FormedLists::sizes_end))]
fn sizes_given<'a>(
    cx: &Context<'a, '_>,
    budget: &mut Budget<'a>,
    parameters: &[Parameter],
    given: &[GenericArg],
) -> Result<bool, Stop>
    ensures ok { IfOk result
        (λ is. is ≡ sizes_given cx.now parameters.now (givens (all_given given.now))) }
    ensures err { IfErr result (λ e. is_beside e ≡ true) }
{
    for (index, parameter) in parameters.iter().enumerate() {
        let Some(one) = given.get(index) else {
            return Ok(true);
        };
        if !gives_size(cx, budget, parameter, one)? {
            return Ok(false);
        }
    }
    Ok(true)
}
