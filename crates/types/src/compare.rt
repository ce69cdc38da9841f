//! Types under several targets, or of an earlier answer and of now, side by side.

use serde_json::Value;
use std::alloc::{AllocError, Global};
use std::collections::{HashMap, HashSet};
use type_reports::{FieldFact, TypeFacts, text_in};

/// The types of one column: what they are called, and what is known of each.
#[derive(Drop)]
pub(crate) struct Column<'a> {
    title: &'a str,
    names: Vec<String>,
    facts: Vec<TypeFacts>,
}

/// A type's name, behind it the file's where it has one, and the target's where that isn't the column's.
fn full_name(alloc: Global, ty: &Value, target: Option<&str>) -> Result<String, AllocError> {
    let mut name = String::from_str(alloc, text_in(ty, "name").unwrap_or(""))?;
    if let Some(file) = text_in(ty, "file") {
        write!(name, " in {file}")?;
    }
    match (text_in(ty, "target"), target) {
        (Some(triple), None) => write!(name, " on {triple}")?,
        _ => {}
    }
    Ok(name)
}

/// Whether a type is one of a column: of a target, where the column is one's.
fn is_of(ty: &Value, target: Option<&str>) -> bool {
    match target {
        Some(target) => text_in(ty, "target") == Some(target),
        None => true,
    }
}

impl<'a> Column<'a> {
    /// Puts the types of a column behind the others.
    fn put_types(
        &mut self,
        alloc: Global,
        types: &[Value],
        target: Option<&str>,
    ) -> Result<(), AllocError> {
        for ty in types {
            if is_of(ty, target) {
                self.names.push(full_name(alloc, ty, target)?)?;
                self.facts.push(TypeFacts::of(alloc, ty)?)?;
            }
        }
        Ok(())
    }

    /// The column of these types, or of those of a target.
    pub(crate) fn of(
        alloc: Global,
        title: &'a str,
        types: &[Value],
        target: Option<&str>,
    ) -> Result<Column<'a>, AllocError> {
        let mut column = Column {
            title,
            names: Vec::new(alloc),
            facts: Vec::new(alloc),
        };
        match column.put_types(alloc, types, target) {
            Ok(()) => Ok(column),
            Err(error) => Err(error),
        }
    }
}

/// The places of names; of equal ones the last.
fn places_of<'a>(
    alloc: Global,
    names: &'a [String],
) -> Result<HashMap<&'a str, usize>, AllocError> {
    let mut places = HashMap::new(alloc);
    for (place, name) in names.iter().enumerate() {
        let _before = places.insert(name.as_str(), place)?;
    }
    Ok(places)
}

/// What a column knows of a type, and where the type's fields of each name are listed.
#[derive(Drop)]
struct FoundType<'a> {
    facts: Option<&'a TypeFacts>,
    places: HashMap<&'a str, usize>,
}

/// Where fields of each name are listed; of equal names the last.
fn field_places<'a>(
    alloc: Global,
    fields: &'a [FieldFact],
) -> Result<HashMap<&'a str, usize>, AllocError> {
    let mut places = HashMap::new(alloc);
    for (place, field) in fields.iter().enumerate() {
        let _before = places.insert(field.name.as_str(), place)?;
    }
    Ok(places)
}

impl<'a> FoundType<'a> {
    /// What is known of a type, where something is.
    fn of(alloc: Global, facts: Option<&'a TypeFacts>) -> Result<FoundType<'a>, AllocError> {
        let places = match facts {
            Some(facts) => field_places(alloc, &facts.fields)?,
            None => HashMap::new(alloc),
        };
        Ok(FoundType { facts, places })
    }

    /// The field with this name, where there is one.
    fn field(&self, name: &str) -> Option<&FieldFact> {
        match (self.facts, self.places.get(name)) {
            (Some(facts), Some(place)) => facts.fields.get(*place),
            _ => None,
        }
    }
}

/// What each column knows of the type with this name.
fn found_in<'a>(
    alloc: Global,
    columns: &'a [Column<'_>],
    places: &[HashMap<&str, usize>],
    name: &str,
) -> Result<Vec<FoundType<'a>>, AllocError> {
    let mut found = Vec::with_capacity(alloc, columns.len())?;
    for (column, known) in columns.iter().zip(places) {
        let facts = match known.get(name) {
            Some(place) => column.facts.get(*place),
            None => None,
        };
        found.push(FoundType::of(alloc, facts)?)?;
    }
    Ok(found)
}

/// Writes the size or the alignment that a column knows, a dash where it doesn't know the type.
fn number_cell(
    alloc: Global,
    facts: Option<&TypeFacts>,
    is_align: bool,
) -> Result<String, AllocError> {
    match facts {
        Some(facts) => {
            let number = if is_align { facts.align } else { facts.size };
            format!(in alloc; "{number}")
        }
        None => String::from_str(alloc, "-"),
    }
}

/// The row of sizes, or of alignments.
fn number_row(
    alloc: Global,
    found: &[FoundType<'_>],
    is_align: bool,
) -> Result<Vec<String>, AllocError> {
    let mut row = Vec::with_capacity(alloc, found.len())?;
    let word = if is_align { "align" } else { "size" };
    row.push(String::from_str(alloc, word)?)?;
    for ty in found {
        row.push(number_cell(alloc, ty.facts, is_align)?)?;
    }
    Ok(row)
}

/// Writes the offset and the size of a field, a dash where there is none.
fn field_cell(alloc: Global, field: Option<&FieldFact>) -> Result<String, AllocError> {
    match field {
        Some(field) => {
            let offset = field.offset;
            let size = field.size;
            format!(in alloc; "{offset} {size}")
        }
        None => String::from_str(alloc, "-"),
    }
}

/// The row of a field.
fn field_row(
    alloc: Global,
    found: &[FoundType<'_>],
    name: &str,
) -> Result<Vec<String>, AllocError> {
    let mut row = Vec::with_capacity(alloc, found.len())?;
    row.push(String::from_str(alloc, name)?)?;
    for ty in found {
        row.push(field_cell(alloc, ty.field(name))?)?;
    }
    Ok(row)
}

/// The names of a type's fields, each once.
fn field_names<'a>(alloc: Global, found: &[FoundType<'a>]) -> Result<Vec<&'a str>, AllocError> {
    let mut known: HashSet<&str> = HashSet::new(alloc);
    let mut names = Vec::new(alloc);
    for ty in found {
        if let Some(facts) = ty.facts {
            for field in &facts.fields {
                if known.insert(field.name.as_str())? {
                    names.push(field.name.as_str())?;
                }
            }
        }
    }
    Ok(names)
}

/// The rows of a type: its sizes, its alignments, and each field that a column knows.
fn rows_of(alloc: Global, found: &[FoundType<'_>]) -> Result<Vec<Vec<String>>, AllocError> {
    let names = field_names(alloc, found)?;
    let mut rows = Vec::new(alloc);
    rows.push(number_row(alloc, found, false)?)?;
    rows.push(number_row(alloc, found, true)?)?;
    for name in &names {
        rows.push(field_row(alloc, found, name)?)?;
    }
    Ok(rows)
}

/// Whether some cells of a row differ.
fn row_differs(row: &[String]) -> bool {
    let Some(first) = row.get(1) else {
        return false;
    };
    for cell in row.iter().skip(1) {
        if cell.as_str() != first.as_str() {
            return true;
        }
    }
    false
}

/// Whether some row has cells that differ.
fn differ(rows: &[Vec<String>]) -> bool {
    for row in rows {
        if row_differs(row) {
            return true;
        }
    }
    false
}

/// Writes a cell, and spaces up to a width in characters.
fn write_cell(out: &mut String, cell: &str, width: usize) -> Result<(), AllocError> {
    out.push_str(cell)?;
    for _space in cell.chars().count()..width {
        out.push(' ')?;
    }
    Ok(())
}

/// Writes a row: its cells in columns of these widths, without spaces at the end.
fn write_row(out: &mut String, row: &[String], widths: &[usize]) -> Result<(), AllocError> {
    for (place, cell) in row.iter().enumerate() {
        if place > 0 {
            out.push_str("  ")?;
        }
        let is_last = place.saturating_add(1) == row.len();
        let width = if is_last {
            0
        } else {
            widths.get(place).copied().unwrap_or(0)
        };
        write_cell(out, cell.as_str(), width)?;
    }
    out.push_str("\n")
}

/// How wide the columns of rows are, in characters.
fn widths_of(alloc: Global, rows: &[Vec<String>], count: usize) -> Result<Vec<usize>, AllocError> {
    let mut widths = Vec::with_capacity(alloc, count)?;
    for place in 0..count {
        let mut widest = 0usize;
        for row in rows {
            if let Some(cell) = row.get(place) {
                widest = widest.max(cell.chars().count());
            }
        }
        widths.push(widest)?;
    }
    Ok(widths)
}

/// The row above a table: the columns' titles.
fn title_row(alloc: Global, columns: &[Column<'_>]) -> Result<Vec<String>, AllocError> {
    let mut row = Vec::with_capacity(alloc, columns.len())?;
    row.push(String::new(alloc))?;
    for column in columns {
        row.push(String::from_str(alloc, column.title)?)?;
    }
    Ok(row)
}

/// Writes the table of a type.
fn write_table(
    alloc: Global,
    out: &mut String,
    columns: &[Column<'_>],
    name: &str,
    rows: &mut Vec<Vec<String>>,
) -> Result<(), AllocError> {
    write!(out, "type {name}\n")?;
    rows.insert(0, title_row(alloc, columns)?)?;
    let widths = widths_of(alloc, rows, columns.len().saturating_add(1))?;
    for row in rows.iter() {
        write_row(out, row, &widths)?;
    }
    Ok(())
}

/// Writes the table of the type with this name, where the columns differ in it, and answers whether they do.
fn compare_type(
    alloc: Global,
    out: &mut String,
    columns: &[Column<'_>],
    places: &[HashMap<&str, usize>],
    name: &str,
) -> Result<bool, AllocError> {
    let found = found_in(alloc, columns, places, name)?;
    let mut rows = rows_of(alloc, &found)?;
    if !differ(&rows) {
        return Ok(false);
    }
    write_table(alloc, out, columns, name, &mut rows)?;
    Ok(true)
}

/// The names of all types, each once.
fn all_names<'a>(alloc: Global, columns: &'a [Column<'_>]) -> Result<Vec<&'a str>, AllocError> {
    let mut known: HashSet<&str> = HashSet::new(alloc);
    let mut names = Vec::new(alloc);
    for column in columns {
        for name in &column.names {
            if known.insert(name.as_str())? {
                names.push(name.as_str())?;
            }
        }
    }
    Ok(names)
}

/// Where each column has its types.
fn all_places<'a>(
    alloc: Global,
    columns: &'a [Column<'_>],
) -> Result<Vec<HashMap<&'a str, usize>>, AllocError> {
    let mut places = Vec::with_capacity(alloc, columns.len())?;
    for column in columns {
        places.push(places_of(alloc, &column.names)?)?;
    }
    Ok(places)
}

/// Writes a table for each type that differs between the columns, one row a field, one column a target, and how many others
/// there are; and answers whether some differ. An error comes where a growth of memory was refused.
pub(crate) fn write_comparison(
    alloc: Global,
    out: &mut String,
    columns: &[Column<'_>],
) -> Result<bool, AllocError> {
    let places = all_places(alloc, columns)?;
    let names = all_names(alloc, columns)?;
    let mut differing = 0usize;
    for name in &names {
        if compare_type(alloc, out, columns, &places, name)? {
            differing = differing.saturating_add(1);
        }
    }
    let same = names.len().saturating_sub(differing);
    write!(out, "same {same}\n")?;
    Ok(differing > 0)
}
