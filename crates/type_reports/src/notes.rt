//! What is noted of a source on standard error, beside the report on its types.

use crate::crate_files::CrateFiles;
use crate::place::write_fault;
use abi_rust::{FaultPlace, Sources};
use std::alloc::{AllocError, Global};

/// How much of what was read is of the first crate, which stands before the others.
#[derive(Clone, Copy)]
pub(crate) struct FirstCrate {
    files: usize,
    passed_over: u64,
    types_passed: u64,
    unknown_cfgs: usize,
    /// How many items of it aren't read.
    pub(crate) unread: usize,
}

impl FirstCrate {
    /// All that was read so far.
    pub(crate) fn of(sources: &Sources, files: &CrateFiles<'_>) -> FirstCrate {
        FirstCrate {
            files: files.count(),
            passed_over: sources.passed_over(),
            types_passed: sources.types_passed(),
            unknown_cfgs: sources.unknown_cfgs().len(),
            unread: sources.unread_count(),
        }
    }
}

/// Notes of the first crate what was passed over, which names of `cfg` count as false, and which attributes may rewrite
/// their items.
pub(crate) fn write_notes(
    alloc: Global,
    notes: &mut String,
    sources: &Sources,
    files: &CrateFiles<'_>,
    first: FirstCrate,
) -> Result<(), AllocError> {
    write_counts(notes, sources, first)?;
    let mut known = Vec::new(alloc);
    for item in 0..sources.item_count() {
        if let FaultPlace::File(index, at) = sources.unknown_attribute(item) {
            let source = files.text(index);
            let name = attribute_at(source, at);
            if index < first.files && !known.contains(&name) {
                known.push(name)?;
                write_attribute(alloc, notes, files.name(index), source, (at, name))?;
            }
        }
    }
    Ok(())
}

/// Notes what was passed over, and which names of `cfg` count as false.
fn write_counts(
    notes: &mut String,
    sources: &Sources,
    first: FirstCrate,
) -> Result<(), AllocError> {
    let count = first.passed_over;
    if count > 0 {
        write!(
            notes,
            "types: {count} items that define no type are passed over\n"
        )?;
    }
    let types = first.types_passed;
    if types > 0 {
        write!(
            notes,
            "types: {types} types stand in macros and bodies, which aren't read\n"
        )?;
    }
    let unknown = sources.unknown_cfgs();
    let unknown = unknown.get(..first.unknown_cfgs).unwrap_or(unknown);
    if !unknown.is_empty() {
        notes.push_str("types: of cfg these names count as false:")?;
        for name in unknown {
            let text = sources.names().text(*name);
            write!(notes, " {text}")?;
        }
        notes.push_str("\n")?;
    }
    Ok(())
}

/// What stands before a character, or the whole text where it hasn't that.
fn text_before(text: &str, mark: char) -> &str {
    match text.split_once(mark) {
        Some((head, _)) => head,
        None => text,
    }
}

/// The path of the attribute that begins at this byte.
fn attribute_at(source: &str, at: u32) -> &str {
    let rest = source.get(at as usize..).unwrap_or("");
    let path = text_before(text_before(rest, ']'), '(');
    text_before(text_before(path, '='), ')').trim_end()
}

/// Notes an attribute that may rewrite its item, which stands there and has this name.
fn write_attribute(
    alloc: Global,
    notes: &mut String,
    file: &str,
    source: &str,
    (at, name): (u32, &str),
) -> Result<(), AllocError> {
    let text = format!(in alloc;
        "the attribute `{name}` isn't known, and may rewrite what it stands at"
    )?;
    write_fault(notes, file, source, at as usize, text.as_str())
}
