//! Imports beside items of their names.

ghost use Rattle.std.specs.Prelude.{◌≡◌, slice_get};
ghost use Rattle.std.specs.Option.{option_copied};
ghost use Rattle.abi_rust.specs.Imports.{brings_type, brings_value, is_certain, is_unit_found, is_unit_item, is_unit_struct, is_value, place_of_use, repeated_import, repeated_name, repeated_use, type_stands, value_stands};

use crate::fault::{FaultKind, Stop};
use crate::paths::{Resolution, Space, item_at, root_of};
use crate::scope::Scope;
use crate::standing::{is_constructor, numbered};
use crate::use_targets::target_in;
use rust_source::{Item, ItemKind, Items, Place, Symbol, Use};

/// Whether an item or a module is found for certain.
fn is_certain(found: Option<Resolution>) -> bool
    ensures { result ≡ is_certain found }
{
    match found {
        Some(Resolution::Item(_)) => true,
        Some(Resolution::Module(_)) => true,
        _ => false,
    }
}

/// Where a use's name stands, as its path has it.
fn place_of_use(used: &Use) -> Option<Place>
    ensures { result ≡ place_of_use used.now }
{
    Some(used.path.last()?.at)
}

/// Whether it is a struct without parentheses and braces.
fn is_unit_struct(kind: &ItemKind) -> bool
    ensures { result ≡ is_unit_struct kind.now }
{
    match kind {
        ItemKind::Struct(fields) => fields.is_unit,
        _ => false,
    }
}

/// Whether the name of an item that there may be is a value's too.
fn is_value(item: Option<&Item>) -> bool
    ensures { result ≡ is_value (option_copied item.entry) }
{
    match item {
        Some(item) => is_constructor(&item.kind),
        None => false,
    }
}

/// Whether a type, a trait or a module of this name stands in a module.
fn type_stands(items: &Items, scope: &Scope, module: u32, name: Symbol) -> bool
    ensures { result ≡ type_stands items.now scope.now «module» name }
{
    scope.ty(module, name).is_some() || scope.module(module, name).is_some()
}

/// Whether a constant, a function or a struct whose name is a value's stands there.
fn value_stands(items: &Items, scope: &Scope, module: u32, name: Symbol) -> bool
    ensures { result ≡ value_stands items.now scope.now «module» name }
{
    if scope.value(module, name).is_some() {
        return true;
    }
    match scope.ty(module, name) {
        Some(number) => is_value(item_at(items, number)),
        None => false,
    }
}

/// Whether what is found is a struct whose name is a value's wherever it may be used: those of the standard library may have
/// fields that aren't known.
fn is_unit_found(items: &Items, scope: &Scope, found: Option<Resolution>) -> bool
    ensures { result ≡ is_unit_found items.now scope.now found }
{
    let Some(Resolution::Item(number)) = found else {
        return false;
    };
    match item_at(items, number) {
        Some(item) => {
            is_unit_struct(&item.kind) && root_of(items, item.module) != scope.std_root
        }
        None => false,
    }
}

/// Whether the use of this number brings in a type, a trait or a module for certain.
fn brings_type(items: &Items, scope: &Scope, number: u32) -> bool
    ensures { result ≡ brings_type items.now scope.now number }
{
    is_certain(target_in(scope.use_targets.as_slice(), number, Space::Types))
}

/// Whether the use of this number brings in a constant, a function or a struct whose name is a value's for certain.
fn brings_value(items: &Items, scope: &Scope, number: u32) -> bool
    ensures { result ≡ brings_value items.now scope.now number }
{
    let targets = scope.use_targets.as_slice();
    is_certain(target_in(targets, number, Space::Values))
        || is_unit_found(items, scope, target_in(targets, number, Space::Types))
}

/// The fault of a use that brings in what an item of this name in its module is too.
fn repeated_name(
    items: &Items,
    scope: &Scope,
    number: u32,
    used: &Use,
    name: Symbol,
) -> Option<Stop>
    ensures { result ≡ repeated_name items.now scope.now number used.now name }
{
    let at = place_of_use(used);
    if brings_type(items, scope, number) && type_stands(items, scope, used.module, name) {
        return Some(Stop::Fault(at, FaultKind::RepeatedType(name)));
    }
    if brings_value(items, scope, number) && value_stands(items, scope, used.module, name) {
        return Some(Stop::Fault(at, FaultKind::RepeatedConstant(name)));
    }
    None
}

/// The fault of the use of this number, where it stands beside an item of its name.
fn repeated_use(items: &Items, scope: &Scope, number: u32, used: &Use) -> Option<Stop>
    ensures { result ≡ repeated_use items.now scope.now number used.now }
{
    repeated_name(items, scope, number, used, used.name?)
}

/// The fault of the first use that brings in what an item of its name in its module is too.
pub(crate) fn repeated_import(items: &Items, scope: &Scope) -> Option<Stop>
    ensures { result ≡ repeated_import items.now scope.now }
{
    for (number, used) in items.uses.iter().enumerate() {
        if let Some(stop) = repeated_use(items, scope, numbered(number), used) {
            return Some(stop);
        }
    }
    None
}
