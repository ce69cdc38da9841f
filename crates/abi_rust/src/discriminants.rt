//! The variants that paths name, and which discriminants are written.

ghost use Rattle.std.specs.Prelude.{◌≡◌, slice_get, true};
ghost use Rattle.std.specs.Option.{option_copied, option_map};
ghost use Rattle.abi_rust.specs.Evaluating.{all_fieldless, cast_checked, discriminant_kind, is_castable, is_fieldless, is_integer, is_unit_at, variant_brought_in, variant_of_item, variant_of_use, variant_from, variant_named, written_before, written_from};
ghost use Rattle.abi_rust.specs.Meaning.{Means};
ghost use Rattle.abi_rust.specs.Types.{where_of};

use crate::budget::{Context, Env};
use crate::constants::owner_named;
use crate::fault::{FaultKind, Stop, stop_at};
use crate::kind::{parameter_named, single_name};
use crate::paths::{Resolution, Space, before_last, find, item_at};
use crate::ty::Kind;
use rust_source::{Expr, IntegerKind, Item, ItemKind, Path, Place, Symbol, Variant};

/// The enum and the number of the variant that a path names, by an alias too, by `Self`, or as what a `use` brings in.
#[tactic(auto, unfolding(crate::specs::Evaluating::variant_named))]
pub(crate) fn variant_named<'a>(
    cx: &Context<'a, '_>,
    env: Env<'_>,
    path: &Path,
) -> Option<(&'a Item, usize)>
    ensures { option_map (λ found. (found.0.now, found.1)) result ≡ variant_named cx.now (where_of env.entry) path.now }
{
    if let Some(name) = single_name(path) {
        return variant_brought_in(cx, env, path, name);
    }
    let last = path.segments.last()?;
    let number = owner_named(cx, env, path, path.segments.len().saturating_sub(1))?;
    variant_of(cx, number, last.name)
}

/// The variant that a name alone names, where a `use` brings it into the module: by its name, or with all of its enum.
fn variant_brought_in<'a>(
    cx: &Context<'a, '_>,
    env: Env<'_>,
    path: &Path,
    name: Symbol,
) -> Option<(&'a Item, usize)>
    ensures { option_map (λ found. (found.0.now, found.1)) result
        ≡ variant_brought_in cx.now (where_of env.entry) path.now name }
{
    if parameter_named(cx, env.item, name).is_some() {
        return None;
    }
    match find(cx.items, cx.scope, env.module, path, Space::Values) {
        Some(Resolution::Unknown) => variant_of_use(cx, cx.scope.use_of(env.module, name)?),
        None => variant_of(cx, cx.scope.enum_glob(env.module)?, name),
        _ => None,
    }
}

/// The variant that the use of this number brings in, if it does.
fn variant_of_use<'a>(cx: &Context<'a, '_>, number: u32) -> Option<(&'a Item, usize)>
    ensures { option_map (λ found. (found.0.now, found.1)) result ≡ variant_of_use cx.now number }
{
    let used = cx.items.uses.get(number as usize)?;
    let last = used.path.last()?;
    match before_last(cx.items, cx.scope, number, used) {
        Some(Resolution::Item(item)) => variant_of(cx, item, last.name),
        _ => None,
    }
}

/// The item of this number, where it is an enum, and the number of its variant of this name.
fn variant_of<'a>(cx: &Context<'a, '_>, number: u32, name: Symbol) -> Option<(&'a Item, usize)>
    ensures { option_map (λ found. (found.0.now, found.1)) result
        ≡ variant_of_item cx.now name (slice_get cx.now.items.now.items.items number) }
{
    let item = item_at(cx.items, number)?;
    match &item.kind {
        ItemKind::Enum(all) => Some((item, variant_at(all.variants.as_slice(), name)?)),
        _ => None,
    }
}

/// The number of the first variant of this name.
fn variant_at(variants: &[Variant], name: Symbol) -> Option<usize>
    ensures { result ≡ variant_from 0 name variants.now }
{
    for (index, variant) in variants.iter().enumerate() {
        if variant.name == name {
            return Some(index);
        }
    }
    None
}

/// A fault where a variant can't be cast to a type: to an integer's alone, where no variant of its enum has fields.
pub(crate) fn check_cast(item: &Item, index: usize, kind: Kind, at: Place) -> Result<(), Stop>
    ensures { Means (λ _. true) (cast_checked at kind item.now index) result }
{
    if is_integer(kind) && is_castable(&item.kind, index) {
        return Ok(());
    }
    Err(stop_at(at, FaultKind::EnumCast))
}

/// Whether it is an integer's type.
fn is_integer(kind: Kind) -> bool
    ensures { result ≡ is_integer kind }
{
    match kind {
        Kind::Integer(_) => true,
        _ => false,
    }
}

/// Whether the variant of this number is a value by its name alone, of an enum that can be cast.
fn is_castable(kind: &ItemKind, index: usize) -> bool
    ensures { result ≡ is_castable index kind.now }
{
    match kind {
        ItemKind::Enum(all) => {
            is_unit_at(all.variants.as_slice(), index) && all_fieldless(all.variants.as_slice())
        }
        _ => false,
    }
}

/// Whether the variant of this number is a name alone.
fn is_unit_at(variants: &[Variant], index: usize) -> bool
    ensures { result ≡ is_unit_at (slice_get variants.now index) }
{
    match variants.get(index) {
        Some(variant) => variant.fields.is_unit,
        None => false,
    }
}

/// Whether a variant has no fields, and parentheses or braces only where no discriminant is written.
fn is_fieldless(variant: &Variant) -> bool
    ensures { result ≡ is_fieldless variant.now }
{
    variant.fields.all.is_empty() && (variant.fields.is_unit || variant.discriminant.is_none())
}

/// Whether each of these variants is so.
fn all_fieldless(variants: &[Variant]) -> bool
    ensures { result ≡ all_fieldless variants.now }
{
    for variant in variants {
        if !is_fieldless(variant) {
            return false;
        }
    }
    true
}

/// The integer type of an enum's discriminants.
pub(crate) fn discriminant_kind(item: &Item) -> IntegerKind
    ensures { result ≡ discriminant_kind item.now }
{
    match item.repr.integer {
        Some(kind) => kind,
        None => IntegerKind::Isize,
    }
}

/// The discriminant that is written last up to a variant, and how far that stands behind it, or behind the first.
#[tactic(auto, unfolding(crate::specs::Evaluating::written_before))]
pub(crate) fn written_before(variants: &[Variant], index: usize) -> (usize, Option<&Expr>)
    ensures { (result.0, option_copied result.1) ≡ written_before index variants.now }
{
    match variants.split_first() {
        Some((first, rest)) => written_behind(rest, index, first.discriminant.as_ref()),
        None => (0, None),
    }
}

/// The same behind the first variant, whose discriminant this is.
#[tactic(auto, using(crate::proofs::Written::written_more, crate::proofs::Written::written_done, crate::proofs::Written::written_end))]
fn written_behind<'v>(
    variants: &'v [Variant],
    index: usize,
    first: Option<&'v Expr>,
) -> (usize, Option<&'v Expr>)
    ensures { (result.0, option_copied result.1)
        ≡ written_from index variants.now 0 (option_copied first.entry) }
{
    let mut behind = 0usize;
    let mut written = first;
    for (number, variant) in variants.iter().enumerate() {
        if number >= index {
            break;
        }
        match &variant.discriminant {
            Some(expr) => {
                written = Some(expr);
                behind = 0;
            }
            None => behind += 1,
        }
    }
    (behind, written)
}
