//! What a report has of each type, and in which order it lists them.

ghost use Rattle.std.specs.Prelude.{◌≡◌, IfOk, IsPermutation, length, map, unwrap_or};
ghost use Rattle.std.specs.List.{range_with_len};
ghost use Rattle.abi_tree.specs.Laid.{placed_of};
ghost use Rattle.abi_tree.specs.Placed.{layout_of};

use crate::options::Form;
use crate::sorting::{Selection, TypeOrder, falling_order, name_order, places_of};
use abi_tree::Laid;
use serde_json::Value;
use std::alloc::{AllocError, Global};
use std::mem;

/// What a report has of a type.
#[derive(Drop)]
pub(crate) struct TypeEntry {
    /// Its name.
    pub(crate) name: String,
    /// Its size, in bytes.
    pub(crate) size: u64,
    /// How many of its bytes are padding; none where they aren't counted.
    pub(crate) waste: Option<u64>,
    /// Its lines; none where the report is JSON.
    pub(crate) text: String,
    /// Its JSON object; null where the report is lines.
    pub(crate) value: Value,
}

impl TypeEntry {
    /// Nothing yet of a laid-out type.
    pub(crate) fn new(alloc: Global, name: &str, laid: &Laid) -> Result<TypeEntry, AllocError>
        ensures { IfOk result (λ entry. entry.size ≡ (layout_of (placed_of laid.now)).size) }
    {
        Ok(TypeEntry {
            name: String::from_str(alloc, name)?,
            size: laid.layout().size.bytes(),
            waste: None,
            text: String::new(alloc),
            value: Value::Null,
        })
    }
}

/// The sizes of types, in bytes.
fn sizes_of(alloc: Global, entries: &[TypeEntry]) -> Result<Vec<u64>, AllocError>
    ensures { IfOk result (λ sizes. sizes.items ≡ map (λ entry. entry.size) entries.now) }
{
    let mut sizes = Vec::with_capacity(alloc, entries.len())?;
    for entry in entries {
        sizes.push(entry.size)?;
    }
    Ok(sizes)
}

/// How many padding bytes types have, 0 where they aren't counted.
fn wastes_of(alloc: Global, entries: &[TypeEntry]) -> Result<Vec<u64>, AllocError>
    ensures { IfOk result (λ wastes. wastes.items ≡ map (λ entry. unwrap_or entry.waste 0) entries.now) }
{
    let mut wastes = Vec::with_capacity(alloc, entries.len())?;
    for entry in entries {
        wastes.push(entry.waste.unwrap_or(0))?;
    }
    Ok(wastes)
}

/// The names of types.
fn names_of<'a>(alloc: Global, entries: &'a [TypeEntry]) -> Result<Vec<&'a str>, AllocError>
    ensures { IfOk result (λ names. length names.items ≡ length entries.now) }
{
    let mut names = Vec::with_capacity(alloc, entries.len())?;
    for entry in entries {
        names.push(entry.name.as_str())?;
    }
    Ok(names)
}

/// The places of types, in the order in which they are listed.
fn order_of(
    alloc: Global,
    entries: &[TypeEntry],
    key: Option<TypeOrder>,
) -> Result<Vec<usize>, AllocError>
    ensures { IfOk result (λ order. IsPermutation (range_with_len 0 (length entries.now)) order.items) }
{
    match key {
        None => places_of(alloc, entries.len()),
        Some(TypeOrder::Size) => falling_order(alloc, &sizes_of(alloc, entries)?),
        Some(TypeOrder::Waste) => falling_order(alloc, &wastes_of(alloc, entries)?),
        Some(TypeOrder::Name) => name_order(alloc, &names_of(alloc, entries)?),
    }
}

/// Puts a type's lines behind the text, or its JSON object behind the others.
fn put_entry(
    text: &mut String,
    types: &mut Vec<Value>,
    form: Form,
    entry: &mut TypeEntry,
) -> Result<(), AllocError> {
    if form == Form::Json {
        types.push(mem::replace(&mut entry.value, Value::Null))?;
        return Ok(());
    }
    if form == Form::Pretty && !text.is_empty() {
        text.push_str("\n")?;
    }
    text.push_str(entry.text.as_str())
}

/// What is asked for of the types that are listed.
#[derive(Clone, Copy)]
pub(crate) struct EntriesAsked {
    pub(crate) form: Form,
    pub(crate) selection: Selection,
    /// Whether a last line has the bytes of all.
    pub(crate) with_total: bool,
}

/// The bytes of types.
#[derive(Clone, Copy)]
struct Total {
    /// How many types there are.
    count: u64,
    /// Their sizes together.
    size: u64,
    /// How many of the bytes are padding.
    waste: u64,
}

impl Total {
    /// The bytes of one more type, whose padding is counted.
    fn and(self, entry: &TypeEntry) -> Total {
        match entry.waste {
            Some(waste) => Total {
                count: self.count.saturating_add(1),
                size: self.size.saturating_add(entry.size),
                waste: self.waste.saturating_add(waste),
            },
            None => self,
        }
    }

    /// Writes them as a line.
    fn write_line(self, out: &mut String) -> Result<(), AllocError> {
        let Total { count, size, waste } = self;
        write!(
            out,
            "total waste {waste} of {size} bytes in {count} types\n"
        )
    }
}

/// Writes the last line, where the report is lines.
fn write_total(out: &mut String, form: Form, total: Total) -> Result<(), AllocError> {
    match form {
        Form::Json => Ok(()),
        Form::Pretty => {
            out.push_str("\n// ")?;
            total.write_line(out)
        }
        _ => total.write_line(out),
    }
}

/// Lists the types that are chosen, in their order: their lines, or their JSON objects; and behind lines the bytes of all
/// whose padding is counted, where that is asked for.
pub(crate) fn put_entries(
    alloc: Global,
    text: &mut String,
    types: &mut Vec<Value>,
    asked: EntriesAsked,
    entries: &mut [TypeEntry],
) -> Result<(), AllocError> {
    let order = order_of(alloc, entries, asked.selection.key)?;
    let mut total = Total {
        count: 0,
        size: 0,
        waste: 0,
    };
    for place in order.iter().take(asked.selection.count_of(order.len())) {
        if let Some(entry) = entries.get_mut(*place) {
            put_entry(text, types, asked.form, entry)?;
            total = total.and(entry);
        }
    }
    if asked.with_total {
        write_total(text, asked.form, total)?;
    }
    Ok(())
}
