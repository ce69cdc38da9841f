//! Which macro of a crate a call means, by where both stand (Rust Reference, "Macros by example", scopes by text).

ghost use Rattle.std.specs.Prelude.{◌≡◌, IfOk, None, Some, if◌then◌else◌, slice_get};
ghost use Rattle.rust_source.specs.Items.{items_as_read};
ghost use Rattle.rust_source.specs.MacroScope.{entry_of, handed_on, is_around, is_behind, is_in_scope, is_macro_of, is_repeated, known_in, known_macro, last_macro, macros_of_crate, shares_macros, wrapping_by_name, wrapping_meant, wrapping_named};
ghost use Rattle.rust_source.specs.Visibility.{root_around};

use crate::item::{Items, Macro, Module, Wrapping};
use crate::place::{Place, Symbol};
use crate::reader::cursor::{Cursor, place};
use crate::reader::visibility::{child_towards, root_around};
use std::alloc::{AllocError, Global};

/// The call of a macro that is next.
#[derive(Clone, Copy)]
pub(crate) struct MacroCall<'a> {
    /// What was read before it.
    pub items: &'a Items,
    /// The module that it stands in, by its number.
    pub module: u32,
    /// The tokens from it on.
    pub at: Cursor<'a>,
    /// Whether the macros of a module of its source may stand in those around it.
    pub has_macro_use: bool,
}

/// Where the root's source names the module of another file that the module with this number is, or stands in.
pub(crate) fn entry_of(modules: &[Module], number: u32) -> Option<Place>
    ensures { result ≡ entry_of modules.now number }
{
    match modules.get(number as usize) {
        Some(module) => module.entry,
        None => None,
    }
}

/// Whether the macros of the module with this number are the root's, too.
pub(crate) fn shares_macros(modules: &[Module], number: u32) -> bool
    ensures { result ≡ shares_macros modules.now number }
{
    match modules.get(number as usize) {
        Some(module) => module.shares_macros,
        None => false,
    }
}

/// Whether a macro has this name, and this root is around it.
fn is_macro_of(modules: &[Module], root: u32, name: Symbol, one: Macro) -> bool
    ensures { result ≡ is_macro_of modules.now root name one }
{
    one.name == name && root_around(modules, one.module) == root
}

/// The last macro of this name in the crate with this root.
#[tactic(auto, unfolding(crate::specs::MacroScope::last_macro))]
pub(crate) fn last_macro(items: &Items, root: u32, name: Symbol) -> Option<Macro>
    ensures { result ≡ last_macro (items_as_read items.now) root name }
{
    let mut found = None;
    for one in &items.macros {
        if is_macro_of(&items.modules, root, name, *one) {
            found = Some(*one);
        }
    }
    found
}

/// Whether a module is the one with this number, or around it.
fn is_around(modules: &[Module], outer: u32, number: u32) -> bool
    ensures { result ≡ is_around modules.now outer number }
{
    outer == number || child_towards(modules, outer, number).is_some()
}

/// Whether a macro stands in the source that begins at this place, in the module with this number or around it.
fn is_in_scope(modules: &[Module], start: u32, number: u32, one: &Macro) -> bool
    ensures { result ≡ is_in_scope modules.now start number one.now }
{
    start <= one.at.0 && is_around(modules, one.module, number)
}

/// How the macro of this name wraps the items of a call, where it stands in the source before it, and in scope.
fn wrapping_by_name(items: &Items, start: u32, number: u32, name: Symbol) -> Option<Wrapping>
    ensures { result ≡ wrapping_by_name (items_as_read items.now) start number name }
{
    let root = root_around(&items.modules, number);
    let one = last_macro(items, root, name)?;
    if is_in_scope(&items.modules, start, number, &one) {
        one.wrapping
    } else {
        None
    }
}

/// The known macro of this name, of the crate with this root.
fn known_in(known: &[Macro], root: u32, name: Symbol) -> Option<Macro>
    ensures { result ≡ known_in root name known.now }
{
    for one in known {
        if one.module == root && one.name == name {
            return Some(*one);
        }
    }
    None
}

/// Whether a call in the module with this number stands behind a place of the root's source.
fn is_behind(modules: &[Module], number: u32, call: &Cursor<'_>, at: Place) -> bool
    ensures { result ≡ is_behind modules.now number call.now at }
{
    let from = match entry_of(modules, number) {
        Some(entry) => entry,
        None => place(call),
    };
    at.0 < from.0
}

/// How the macro of this name wraps the items of a call: one that is known and meant there, or else one before it in the
/// source. None where it isn't certain.
#[tactic(auto, unfolding(crate::specs::MacroScope::wrapping_named))]
fn wrapping_named(call: &MacroCall<'_>, name: Symbol) -> Option<Wrapping>
    ensures { result ≡ wrapping_named call.now.has_macro_use (items_as_read call.now.items.now) call.now.«module» call.now.at name }
{
    let items = call.items;
    let root = root_around(&items.modules, call.module);
    if let Some(one) = known_in(&items.known_macros, root, name) {
        if is_behind(&items.modules, call.module, &call.at, one.at) {
            return one.wrapping;
        }
    }
    if call.has_macro_use {
        None
    } else {
        wrapping_by_name(items, call.at.start, call.module, name)
    }
}

/// How items are wrapped that one macro hands on to another, which has to take a predicate.
fn handed_on(first: Wrapping, second: Wrapping) -> Option<Wrapping>
    ensures { result ≡ handed_on first (Some second) }
{
    if second.takes_predicate {
        Some(Wrapping {
            stands: first.stands && second.stands,
            takes_predicate: false,
            through: None,
        })
    } else {
        None
    }
}

/// How the macro of this name wraps the items of a call, where it hands them on, with the macro that is meant there. None where
/// it isn't certain.
#[tactic(auto, unfolding(crate::specs::MacroScope::wrapping_meant))]
pub(crate) fn wrapping_meant(call: &MacroCall<'_>, name: Symbol) -> Option<Wrapping>
    ensures { result ≡ wrapping_meant call.now.has_macro_use (items_as_read call.now.items.now) call.now.«module» call.now.at name }
{
    let first = wrapping_named(call, name)?;
    let Some(through) = first.through else {
        return Some(first);
    };
    let second = wrapping_named(call, through)?;
    handed_on(first, second)
}

/// Whether another macro of the crate with this root has the name of this one, which is the first.
fn is_repeated(items: &Items, root: u32, one: Macro) -> bool
    ensures { result ≡ is_repeated (items_as_read items.now) root one }
{
    match last_macro(items, root, one.name) {
        Some(last) => last.at != one.at,
        None => false,
    }
}

/// A macro as it is known from outside of its own source, in the crate with this root, if it is.
fn known_macro(items: &Items, root: u32, one: Macro) -> Option<Macro>
    ensures { result ≡ known_macro (items_as_read items.now) root one }
{
    if one.wrapping.is_none() || root_around(&items.modules, one.module) != root {
        return None;
    }
    let mut known = one;
    known.module = root;
    if is_repeated(items, root, one) {
        known.at = Place(0);
        known.wrapping = None;
        return Some(known);
    }
    if !shares_macros(&items.modules, one.module) {
        return None;
    }
    if let Some(entry) = entry_of(&items.modules, one.module) {
        known.at = entry;
    }
    Some(known)
}

/// The macros of a crate that wrap items, as `Items::with_macros` takes them: those whose scope is all that stands behind
/// them in the source of the root with this number, of which nothing more is known where the crate has two of the name.
#[tactic(auto, unfolding(crate::specs::MacroScope::macros_of_crate))]
pub fn macros_of_crate(alloc: Global, items: &Items, root: u32) -> Result<Vec<Macro>, AllocError>
    ensures { IfOk result (λ found. found.items ≡ macros_of_crate (items_as_read items.now) root) }
{
    let mut found = Vec::new(alloc);
    for one in &items.macros {
        if let Some(known) = known_macro(items, root, *one) {
            found.push(known)?;
        }
    }
    Ok(found)
}
