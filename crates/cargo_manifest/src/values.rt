//! What TOML values hold: the entries of a table, and the strings of a list.

ghost use Rattle.std.specs.Prelude.{◌≡◌, IfOk, filter_map, map, option_map};
ghost use Rattle.toml.specs.Data.{as_str};
ghost use Rattle.toml.specs.View.{array_view, table_view, view};
ghost use Rattle.cargo_manifest.specs.Values.{bool_at, entries, entries_at, entries_in, entry_view, is_one_of, is_true_at, items, items_in, string_at, strings_at, strings_in, texts};

use std::alloc::{AllocError, Global};
use toml::value::Array;
use toml::{Table, Value};

/// The string at a key of a table. None where there is no string.
pub(crate) fn string_at<'a>(value: &'a Value, key: &str) -> Option<&'a str>
    ensures { option_map (λ s. s.now) result ≡ string_at key.now (view value.now) }
{
    match value.get(key) {
        Some(found) => found.as_str(),
        None => None,
    }
}

/// The boolean at a key of a table. None where there is no boolean.
pub(crate) fn bool_at(value: &Value, key: &str) -> Option<bool>
    ensures { result ≡ bool_at key.now (view value.now) }
{
    match value.get(key) {
        Some(found) => found.as_bool(),
        None => None,
    }
}

/// Whether a key of a table has `true`.
pub(crate) fn is_true_at(value: &Value, key: &str) -> bool
    ensures { result ≡ is_true_at key.now (view value.now) }
{
    bool_at(value, key).unwrap_or(false)
}

/// The entries of a table, in the order of their keys.
fn entries_of_table<'a>(
    alloc: Global,
    table: &'a Table,
) -> Result<Vec<(&'a str, &'a Value)>, AllocError>
    ensures { IfOk result (λ all. map entry_view all.items ≡ entries (table_view table.now)) }
{
    let mut all = Vec::new(alloc);
    for (key, value) in table.iter() {
        all.push((key.as_str(), value))?;
    }
    Ok(all)
}

/// The entries of a value that is a table, in the order of their keys. There are none where it's no table.
pub(crate) fn entries<'a>(
    alloc: Global,
    value: &'a Value,
) -> Result<Vec<(&'a str, &'a Value)>, AllocError>
    ensures { IfOk result (λ all. map entry_view all.items ≡ entries_in (view value.now)) }
{
    match value.as_table() {
        Some(table) => entries_of_table(alloc, table),
        None => Ok(Vec::new(alloc)),
    }
}

/// The entries of the table at a key. There are none where there is no table.
pub(crate) fn entries_at<'a>(
    alloc: Global,
    value: &'a Value,
    key: &str,
) -> Result<Vec<(&'a str, &'a Value)>, AllocError>
    ensures { IfOk result (λ all. map entry_view all.items ≡ entries_at key.now (view value.now)) }
{
    match value.get(key) {
        Some(found) => entries(alloc, found),
        None => Ok(Vec::new(alloc)),
    }
}

/// The items of a list.
fn items_of_array<'a>(alloc: Global, array: &'a Array) -> Result<Vec<&'a Value>, AllocError>
    ensures { IfOk result (λ all. map (λ v. view v.now) all.items ≡ items (array_view array.now)) }
{
    let mut all = Vec::new(alloc);
    for item in array {
        all.push(item)?;
    }
    Ok(all)
}

/// The items of a value that is a list. There are none where it's no list.
pub(crate) fn items<'a>(alloc: Global, value: &'a Value) -> Result<Vec<&'a Value>, AllocError>
    ensures { IfOk result (λ all. map (λ v. view v.now) all.items ≡ items_in (view value.now)) }
{
    match value.as_array() {
        Some(array) => items_of_array(alloc, array),
        None => Ok(Vec::new(alloc)),
    }
}

/// The strings among some values, in their order.
fn strings_among<'a>(alloc: Global, values: &[&'a Value]) -> Result<Vec<&'a str>, AllocError>
    ensures { IfOk result (λ all. texts all.items ≡ filter_map as_str (map (λ v. view v.now) values.now)) }
{
    let mut all = Vec::new(alloc);
    for value in values {
        if let Some(text) = value.as_str() {
            all.push(text)?;
        }
    }
    Ok(all)
}

/// The strings of a value that is a list, in their order.
pub(crate) fn strings<'a>(alloc: Global, value: &'a Value) -> Result<Vec<&'a str>, AllocError>
    ensures { IfOk result (λ all. texts all.items ≡ strings_in (view value.now)) }
{
    let all = items(alloc, value)?;
    strings_among(alloc, &all)
}

/// The strings of the list at a key, in their order. There are none where there is no list.
pub(crate) fn strings_at<'a>(
    alloc: Global,
    value: &'a Value,
    key: &str,
) -> Result<Vec<&'a str>, AllocError>
    ensures { IfOk result (λ all. texts all.items ≡ strings_at key.now (view value.now)) }
{
    match value.get(key) {
        Some(found) => strings(alloc, found),
        None => Ok(Vec::new(alloc)),
    }
}

/// Whether a text is one of these.
pub(crate) fn is_one_of(all: &[&str], text: &str) -> bool
    ensures { result ≡ is_one_of (texts all.now) text.now }
{
    for one in all {
        if *one == text {
            return true;
        }
    }
    false
}
