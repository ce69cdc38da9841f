//! A report as one page of HTML, which asks for nothing from elsewhere.

use crate::escape::write_escaped;
use crate::page_marks::{FIELDS_HEAD, FOOT, HEAD, LIST_FOOT, LIST_HEAD};
use serde_json::Value;
use std::alloc::{AllocError, Global};
use std::collections::HashMap;
use type_reports::{JsonLists, list_in, number_in, text_in};

/// A page as far as it is written.
#[derive(Drop)]
struct Page {
    alloc: Global,
    bytes: Vec<u8>,
}

impl Page {
    /// Writes tags, and what else is of the page's own.
    fn put_tags(&mut self, tags: &str) -> Result<(), AllocError> {
        self.bytes.extend_from_slice(tags.as_bytes())
    }

    /// Writes a text, whatever stands in it.
    fn put_text(&mut self, text: &str) -> Result<(), AllocError> {
        write_escaped(&mut self.bytes, text)
    }

    /// Writes a number.
    fn put_number(&mut self, number: u64) -> Result<(), AllocError> {
        let digits = format!(in self.alloc; "{number}")?;
        self.put_tags(digits.as_str())
    }

    /// Writes a cell of a row with a number, marked where it isn't as in the first layout.
    fn put_cell(&mut self, number: u64, first: u64) -> Result<(), AllocError> {
        self.put_tags(if number == first {
            "<td>"
        } else {
            "<td class=\"differs\">"
        })?;
        self.put_number(number)?;
        self.put_tags("</td>")
    }
}

/// The text of a member, which is empty where there is none.
fn name_in<'a>(value: &'a Value, key: &str) -> &'a str {
    text_in(value, key).unwrap_or("")
}

/// The first byte of a run, and the one behind its last.
fn ends_of(run: &Value) -> (u64, u64) {
    let ends = match run.as_array() {
        Some(ends) => ends.as_slice(),
        None => &[],
    };
    let start = ends.first().and_then(Value::as_u64).unwrap_or(0);
    let end = ends.last().and_then(Value::as_u64).unwrap_or(0);
    (start, end)
}

/// How many bytes of a type are padding.
fn padding_of(ty: &Value) -> u64 {
    let mut sum = 0u64;
    for run in list_in(ty, "padding") {
        let (start, end) = ends_of(run);
        sum = sum.saturating_add(end.saturating_sub(start));
    }
    sum
}

/// Bytes that have a name.
#[derive(Clone, Copy)]
struct NamedBytes<'a> {
    /// The variant that it is of, where it is of one.
    variant: &'a str,
    name: &'a str,
    ty: &'a str,
    offset: u64,
    size: u64,
}

/// The bytes of a field.
fn bytes_of_field<'a>(variant: &'a str, field: &'a Value) -> NamedBytes<'a> {
    NamedBytes {
        variant,
        name: name_in(field, "name"),
        ty: name_in(field, "type"),
        offset: number_in(field, "offset"),
        size: number_in(field, "size"),
    }
}

/// The size of a primitive, in bytes, by its name: a letter, and its bits behind it; 0 where the name has none.
fn size_of_primitive(name: &str) -> u64 {
    match name.split_at_checked(1) {
        Some((_, bits)) => bits.parse::<u64>().unwrap_or(0) / 8,
        None => 0,
    }
}

/// The bytes of a tag.
fn bytes_of_tag(tag: &Value) -> NamedBytes<'_> {
    NamedBytes {
        variant: "",
        name: "tag",
        ty: name_in(tag, "primitive"),
        offset: number_in(tag, "offset"),
        size: size_of_primitive(name_in(tag, "primitive")),
    }
}

/// Writes what a part is called, as Rust has it: the name of its variant before its own.
fn write_part_name(page: &mut Page, part: NamedBytes<'_>) -> Result<(), AllocError> {
    if !part.variant.is_empty() {
        page.put_text(part.variant)?;
        page.put_tags(".")?;
    }
    page.put_text(part.name)
}

/// Writes a part into the picture of its type.
fn write_block(page: &mut Page, part: NamedBytes<'_>, kind: &str) -> Result<(), AllocError> {
    page.put_tags("<span class=\"")?;
    page.put_tags(kind)?;
    page.put_tags("\" style=\"--at:")?;
    page.put_number(part.offset)?;
    page.put_tags(";--of:")?;
    page.put_number(part.size)?;
    page.put_tags("\" title=\"")?;
    write_part_name(page, part)?;
    page.put_tags(", bytes ")?;
    page.put_number(part.offset)?;
    page.put_tags(" to ")?;
    page.put_number(part.offset.saturating_add(part.size))?;
    page.put_tags("\">")?;
    page.put_text(part.name)?;
    page.put_tags("</span>")
}

/// Writes a picture of the bytes of a type, with these fields of it, or of one of its variants, and with its tag.
fn write_picture(
    page: &mut Page,
    ty: &Value,
    variant: &str,
    fields: &[Value],
) -> Result<(), AllocError> {
    let size = number_in(ty, "size");
    if size == 0 {
        return Ok(());
    }
    page.put_tags("<div class=\"map\" aria-hidden=\"true\" style=\"--all:")?;
    page.put_number(size)?;
    page.put_tags("\">")?;
    for field in fields {
        write_block(page, bytes_of_field(variant, field), "part")?;
    }
    if let Some(tag) = ty.get("tag") {
        if tag.is_object() {
            write_block(page, bytes_of_tag(tag), "tag")?;
        }
    }
    page.put_tags("</div>")
}

/// Writes a row for a field, beside the same one of the first layout.
fn write_field(
    page: &mut Page,
    part: NamedBytes<'_>,
    first: NamedBytes<'_>,
) -> Result<(), AllocError> {
    page.put_tags("<tr><th scope=\"row\">")?;
    write_part_name(page, part)?;
    page.put_tags("</th><td><code>")?;
    page.put_text(part.ty)?;
    page.put_tags("</code></td>")?;
    page.put_cell(part.offset, first.offset)?;
    page.put_cell(part.size, first.size)?;
    page.put_tags("</tr>")
}

/// Writes a row for each field, beside those of the first layout; nothing where there are none.
fn write_fields<'a>(
    page: &mut Page,
    variant: &'a str,
    fields: &'a [Value],
    firsts: &'a [Value],
) -> Result<(), AllocError> {
    if fields.is_empty() {
        return Ok(());
    }
    page.put_tags(FIELDS_HEAD)?;
    for (index, field) in fields.iter().enumerate() {
        let part = bytes_of_field(variant, field);
        let first = match firsts.get(index) {
            Some(first) => bytes_of_field(variant, first),
            None => part,
        };
        write_field(page, part, first)?;
    }
    page.put_tags("</tbody></table>")
}

/// A type's layout, and the first one of that name, which it is compared with.
#[derive(Clone, Copy)]
struct Compared<'a> {
    ty: &'a Value,
    first: &'a Value,
}

/// Writes a variant of an enum, beside that of the first layout.
fn write_variant(
    page: &mut Page,
    compared: Compared<'_>,
    index: usize,
    variant: &Value,
) -> Result<(), AllocError> {
    let name = name_in(variant, "name");
    let fields = list_in(variant, "fields");
    let firsts = match list_in(compared.first, "variants").get(index) {
        Some(first) => list_in(first, "fields"),
        None => &[],
    };
    page.put_tags("<figure><figcaption>")?;
    page.put_text(name)?;
    page.put_tags("</figcaption>")?;
    write_picture(page, compared.ty, name, fields)?;
    write_fields(page, name, fields, firsts)?;
    page.put_tags("</figure>")
}

/// Writes the parts of a type: its fields, or its variants beside one another.
fn write_parts(page: &mut Page, compared: Compared<'_>) -> Result<(), AllocError> {
    if compared.ty.get("variants").is_some() {
        page.put_tags("<div class=\"variants\">")?;
        let variants = list_in(compared.ty, "variants");
        for (index, variant) in variants.iter().enumerate() {
            write_variant(page, compared, index, variant)?;
        }
        return page.put_tags("</div>");
    }
    let fields = list_in(compared.ty, "fields");
    write_picture(page, compared.ty, "", fields)?;
    write_fields(page, "", fields, list_in(compared.first, "fields"))
}

/// Writes where a scalar lies and what it holds, under a word; nothing where there is none.
fn write_scalar(page: &mut Page, word: &str, scalar: Option<&Value>) -> Result<(), AllocError> {
    let Some(scalar) = scalar else {
        return Ok(());
    };
    if !scalar.is_object() {
        return Ok(());
    }
    page.put_tags("<p>")?;
    page.put_tags(word)?;
    page.put_tags(" at ")?;
    page.put_number(number_in(scalar, "offset"))?;
    page.put_tags(": <code>")?;
    page.put_text(name_in(scalar, "primitive"))?;
    page.put_tags(" ")?;
    page.put_text(name_in(scalar, "range"))?;
    page.put_tags("</code></p>")
}

/// Writes which bytes are padding; nothing where none are.
fn write_padding(page: &mut Page, ty: &Value) -> Result<(), AllocError> {
    let runs = list_in(ty, "padding");
    if runs.is_empty() {
        return Ok(());
    }
    page.put_tags("<p>Padding:")?;
    for run in runs {
        let (start, end) = ends_of(run);
        page.put_tags(" ")?;
        page.put_number(start)?;
        page.put_tags("..")?;
        page.put_number(end)?;
    }
    page.put_tags("</p>")
}

/// Writes a number under a word, marked where it isn't as in the first layout.
fn write_measure(page: &mut Page, word: &str, number: u64, first: u64) -> Result<(), AllocError> {
    page.put_tags("<dt>")?;
    page.put_tags(word)?;
    page.put_tags(if number == first {
        "</dt><dd>"
    } else {
        "</dt><dd class=\"differs\">"
    })?;
    page.put_number(number)?;
    page.put_tags("</dd>")
}

/// Writes the layout of a type under one target.
fn write_layout(page: &mut Page, compared: Compared<'_>) -> Result<(), AllocError> {
    let Compared { ty, first } = compared;
    page.put_tags("<div class=\"layout\">")?;
    let target = name_in(ty, "target");
    if !target.is_empty() {
        page.put_tags("<h3>")?;
        page.put_text(target)?;
        page.put_tags("</h3>")?;
    }
    page.put_tags("<dl>")?;
    write_measure(
        page,
        "Size",
        number_in(ty, "size"),
        number_in(first, "size"),
    )?;
    write_measure(
        page,
        "Alignment",
        number_in(ty, "align"),
        number_in(first, "align"),
    )?;
    page.put_tags("</dl>")?;
    write_parts(page, compared)?;
    write_scalar(page, "Tag", ty.get("tag"))?;
    write_scalar(page, "Largest niche", ty.get("niche"))?;
    write_padding(page, ty)?;
    page.put_tags("</div>")
}

/// Writes the layouts of a type under each target, beside one another.
fn write_type(page: &mut Page, layouts: &[&Value]) -> Result<(), AllocError> {
    let Some(first) = layouts.first() else {
        return Ok(());
    };
    page.put_tags("<section id=\"")?;
    page.put_text(name_in(first, "name"))?;
    page.put_tags("\"><h2>")?;
    page.put_text(name_in(first, "name"))?;
    page.put_tags("</h2><div class=\"layouts\">")?;
    for ty in layouts {
        write_layout(page, Compared { ty, first })?;
    }
    page.put_tags("</div></section>")
}

/// Writes a type's row in the list of all: its name, which leads to its layouts, its size, its alignment and its padding.
fn write_row(page: &mut Page, layouts: &[&Value]) -> Result<(), AllocError> {
    let Some(first) = layouts.first() else {
        return Ok(());
    };
    page.put_tags("<tr><th scope=\"row\"><a href=\"#")?;
    page.put_text(name_in(first, "name"))?;
    page.put_tags("\">")?;
    page.put_text(name_in(first, "name"))?;
    page.put_tags("</a></th>")?;
    for number in [
        number_in(first, "size"),
        number_in(first, "align"),
        padding_of(first),
    ] {
        page.put_cell(number, number)?;
    }
    page.put_tags("</tr>")
}

/// The layouts of each type, by its name and the file that it is of, in the order in which they come.
fn layouts_by_name<'a>(
    alloc: Global,
    types: &'a [Value],
) -> Result<Vec<Vec<&'a Value>>, AllocError> {
    let mut places: HashMap<(&str, &str), usize> = HashMap::new(alloc);
    let mut groups: Vec<Vec<&Value>> = Vec::new(alloc);
    for ty in types {
        let key = (name_in(ty, "file"), name_in(ty, "name"));
        let known = places
            .get(&key)
            .copied()
            .and_then(|place| groups.get_mut(place));
        match known {
            Some(group) => group.push(ty)?,
            None => {
                places.insert(key, groups.len())?;
                groups.push(vec![in alloc; ty]?)?;
            }
        }
    }
    Ok(groups)
}

/// Writes what has no layout: each fault, with its place.
fn write_faults(page: &mut Page, faults: &[Value]) -> Result<(), AllocError> {
    if faults.is_empty() {
        return Ok(());
    }
    page.put_tags("<section><h2>Faults</h2><ul>")?;
    for fault in faults {
        page.put_tags("<li>")?;
        if let Some(place) = fault.get("place") {
            page.put_text(name_in(place, "file"))?;
            page.put_tags(":")?;
            page.put_number(number_in(place, "line"))?;
            page.put_tags(": ")?;
        }
        page.put_text(name_in(fault, "text"))?;
        page.put_tags("</li>")?;
    }
    page.put_tags("</ul></section>")
}

/// The page of a report: a list of all types, which can be searched and sorted, and each type's layouts, as pictures and as
/// tables. `AllocError` where memory is refused.
pub(crate) fn page_of(alloc: Global, lists: &JsonLists) -> Result<Vec<u8>, AllocError> {
    let groups = layouts_by_name(alloc, lists.types.as_slice())?;
    let mut page = Page {
        alloc,
        bytes: Vec::new(alloc),
    };
    page.put_tags(HEAD)?;
    page.put_tags(LIST_HEAD)?;
    for group in &groups {
        write_row(&mut page, group.as_slice())?;
    }
    page.put_tags(LIST_FOOT)?;
    for group in &groups {
        write_type(&mut page, group.as_slice())?;
    }
    write_faults(&mut page, lists.faults.as_slice())?;
    page.put_tags(FOOT)?;
    let Page { alloc: _, bytes } = page;
    Ok(bytes)
}
