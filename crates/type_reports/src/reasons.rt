//! Why cells that hold one type don't hold another: by the names of the other one's fields, and by what the first leaves unwritten.

use crate::json::MOST_LISTED;
use crate::labels::write_field_name;
use abi_base::{Integer, Primitive};
use abi_bytes::{NotHeld, PartStep, Why, WrongPart, why_not_held};
use abi_rust::{NamedPart, PartFields};
use abi_scalar::Scalar;
use abi_tree::{Laid, Value, read_value};
use rust_source::{FieldName, Names, Symbol};
use std::alloc::{AllocError, Global};

/// A type, laid out, and the names of its parts.
#[derive(Clone, Copy)]
pub(crate) struct ShownType<'a> {
    pub(crate) names: &'a Names,
    pub(crate) laid: &'a Laid,
    pub(crate) parts: &'a [NamedPart],
}

impl<'a> ShownType<'a> {
    /// The fields of a part, or those of a variant of it; None where they aren't known.
    fn fields(self, part: Option<usize>, variant: usize) -> Option<&'a PartFields> {
        self.parts.get(part?)?.lists.get(variant)
    }

    /// Writes the name of a variant of a part, or its index where that isn't known.
    fn write_variant(
        self,
        out: &mut String,
        part: Option<usize>,
        variant: usize,
    ) -> Result<(), AllocError> {
        match name_in(self.fields(part, variant)) {
            Some(name) => out.push_str(self.names.text(name)),
            None => write!(out, "{variant}"),
        }
    }
}

/// The name of the variant that fields are of.
fn name_in(fields: Option<&PartFields>) -> Option<Symbol> {
    fields?.variant
}

/// A field's name, and the number of its part; None where they aren't known.
fn field_at(fields: Option<&PartFields>, index: usize) -> Option<(FieldName, usize)> {
    fields?.fields.get(index).copied()
}

/// Writes a field's name, or its index where it has none, behind the way to it, and answers the number of its part.
fn write_field(
    path: &mut String,
    names: &Names,
    field: Option<(FieldName, usize)>,
    index: usize,
) -> Result<Option<usize>, AllocError> {
    if !path.is_empty() {
        path.push_str(".")?;
    }
    match field {
        Some((name, part)) => {
            write_field_name(path, names, name)?;
            Ok(Some(part))
        }
        None => {
            write!(path, "{index}")?;
            Ok(None)
        }
    }
}

/// Writes a step from a part behind the way to it, and answers the part behind it.
fn write_step(
    path: &mut String,
    ty: ShownType<'_>,
    part: Option<usize>,
    step: PartStep,
) -> Result<Option<usize>, AllocError> {
    match step {
        PartStep::Field(index) => {
            let field = field_at(ty.fields(part, 0), index);
            write_field(path, ty.names, field, index)
        }
        PartStep::VariantField(variant, index) => {
            if !path.is_empty() {
                path.push_str(".")?;
            }
            ty.write_variant(path, part, variant)?;
            let field = field_at(ty.fields(part, variant), index);
            write_field(path, ty.names, field, index)
        }
        PartStep::Element(index) => {
            write!(path, "[{index}]")?;
            Ok(part_of(field_at(ty.fields(part, 0), 0)))
        }
        PartStep::Lanes => Ok(part_of(field_at(ty.fields(part, 0), 0))),
        PartStep::Tag => Ok(part),
    }
}

/// The number of a field's part.
fn part_of(field: Option<(FieldName, usize)>) -> Option<usize> {
    match field {
        Some((_name, part)) => Some(part),
        None => None,
    }
}

/// Whether a step is to a tag.
fn is_tag(step: Option<&PartStep>) -> bool {
    match step {
        Some(PartStep::Tag) => true,
        _ => false,
    }
}

/// What a type itself is called, where it isn't held for this reason.
fn whole_of(why: Why) -> &'static str {
    match why {
        Why::NoValue => "type",
        _ => "number",
    }
}

/// Writes which part it is: `field a.b`, `element [2].b`, `tag`, `field a tag`, or `whole` where it is the type itself.
fn write_part(
    alloc: Global,
    out: &mut String,
    ty: ShownType<'_>,
    way: &[PartStep],
    whole: &str,
) -> Result<(), AllocError> {
    let mut path = String::new(alloc);
    let mut part = Some(0usize);
    for step in way {
        part = write_step(&mut path, ty, part, *step)?;
    }
    let is_tag = is_tag(way.last());
    if path.is_empty() {
        return out.push_str(if is_tag { "tag" } else { whole });
    }
    let word = if path.as_str().starts_with("[") {
        "element"
    } else {
        "field"
    };
    let end = if is_tag { " tag" } else { "" };
    write!(out, "{word} {path}{end}")
}

/// Writes which bytes a part has: of one byte its place, and of others the first and the one behind the last.
fn write_bytes(out: &mut String, part: WrongPart) -> Result<(), AllocError> {
    let start = part.start;
    if part.size == 1 {
        return write!(out, " byte {start}");
    }
    let end = start.saturating_add(part.size);
    write!(out, " bytes {start}..{end}")
}

/// Writes a number of so many bytes, two hexadecimal digits for each.
fn write_number(out: &mut String, number: u128, size: u64) -> Result<(), AllocError> {
    out.push_str("0x")?;
    for place in 0..size.min(16) {
        let behind = size.min(16) - 1 - place;
        let byte = (number.checked_shr(8 * behind as u32).unwrap_or(0) & 0xff) as u8;
        write!(out, "{byte:02x}")?;
    }
    Ok(())
}

/// The name of the primitive type that has exactly these numbers; None where several have them, or none.
fn name_of(scalar: Scalar) -> Option<&'static str> {
    match scalar {
        Scalar::Initialized {
            value: Primitive::Int(integer, false),
            valid_range,
        } => {
            let is_from_zero = valid_range.start == 0;
            if integer == Integer::I8 && is_from_zero && valid_range.end == 1 {
                Some("bool")
            } else if integer == Integer::I32 && is_from_zero && valid_range.end == 0x10ffff {
                Some("char")
            } else {
                None
            }
        }
        _ => None,
    }
}

/// Writes that a number isn't one of a scalar's.
fn write_outside(out: &mut String, scalar: Scalar) -> Result<(), AllocError> {
    if let Some(name) = name_of(scalar) {
        return write!(out, " is no {name}\n");
    }
    match scalar {
        Scalar::Initialized {
            value: _,
            valid_range,
        } => {
            let start = valid_range.start;
            let end = valid_range.end;
            write!(out, " lies outside {start}..={end}\n")
        }
        Scalar::Union { value: _ } => out.push_str(" is none of its numbers\n"),
    }
}

/// Writes why a part isn't held, behind what it is.
fn write_why(out: &mut String, part: WrongPart) -> Result<(), AllocError> {
    match part.why {
        Why::Unset(cell) => {
            let place = part.start.saturating_add(cell);
            write!(out, " byte {place} is never written\n")
        }
        Why::OutOfRange(number, scalar) => {
            write_bytes(out, part)?;
            out.push_str(": ")?;
            write_number(out, number, part.size)?;
            write_outside(out, scalar)
        }
        Why::NoVariant(number) => {
            write_bytes(out, part)?;
            out.push_str(": ")?;
            write_number(out, number, part.size)?;
            out.push_str(" names no variant\n")
        }
        Why::NoValue => out.push_str(" has no value\n"),
        Why::OtherSize => out.push_str(" has another size\n"),
    }
}

/// The run that has the byte; None where none has it.
fn run_with(runs: &[(u64, u64)], place: u64) -> Option<(u64, u64)> {
    for run in runs {
        let (start, size) = *run;
        let end = start.saturating_add(size);
        if start <= place && place < end {
            return Some((start, end));
        }
    }
    None
}

/// Cells that hold a type.
#[derive(Clone, Copy)]
struct HeldCells<'a> {
    alloc: Global,
    ty: ShownType<'a>,
    cells: &'a [Option<u8>],
}

impl HeldCells<'_> {
    /// The bytes in them, and 0 where nothing is initialised, which hold the type too.
    fn bytes(self) -> Result<Vec<u8>, AllocError> {
        let mut bytes = Vec::new(self.alloc);
        for cell in self.cells {
            bytes.push(cell.unwrap_or(0))?;
        }
        Ok(bytes)
    }

    /// The variant of the value in them; None where the type has no variants.
    fn variant(self) -> Result<Option<usize>, AllocError> {
        let bytes = self.bytes()?;
        match read_value(self.alloc, self.ty.laid, &bytes)? {
            Some(Value::Variant(index, _)) => Ok(Some(index)),
            _ => Ok(None),
        }
    }

    /// Writes that the variant in them leaves a byte, where it does.
    fn write_unused(self, out: &mut String, place: u64) -> Result<(), AllocError> {
        let Some(variant) = self.variant()? else {
            return Ok(());
        };
        let (unused, _visits) = self.ty.laid.variant_padding(self.alloc)?;
        let Some(runs) = unused.as_slice().as_raw().get(variant) else {
            return Ok(());
        };
        if let Some((start, end)) = run_with(runs.as_slice(), place) {
            out.push_str("variant ")?;
            self.ty.write_variant(out, Some(0), variant)?;
            write!(out, " unused {start}..{end} is never written\n")?;
        }
        Ok(())
    }

    /// Writes why the type writes no byte there: it is padding, or the variant leaves it. Nothing where neither is so, as in a
    /// union, and of types whose padding isn't listed.
    fn write_unwritten(self, out: &mut String, place: u64) -> Result<(), AllocError> {
        if self.ty.laid.layout().size.bytes() > MOST_LISTED {
            return Ok(());
        }
        let (padding, _visits) = self.ty.laid.padding(self.alloc)?;
        match run_with(padding.as_slice(), place) {
            Some((start, end)) => Ok(write!(out, "padding {start}..{end} is never written\n")?),
            None => self.write_unused(out, place),
        }
    }
}

/// Writes why the second type isn't held by cells that hold the first, a line from each one's side.
pub(crate) fn write_reasons(
    alloc: Global,
    out: &mut String,
    first: ShownType<'_>,
    second: ShownType<'_>,
    cells: &[Option<u8>],
) -> Result<(), AllocError> {
    let Some(found) = why_not_held(alloc, second.laid, cells)? else {
        return Ok(());
    };
    let NotHeld { way, part } = found;
    write_part(alloc, out, second, &way, whole_of(part.why))?;
    write_why(out, part)?;
    match part.why {
        Why::Unset(cell) => {
            let held = HeldCells {
                alloc,
                ty: first,
                cells,
            };
            held.write_unwritten(out, part.start.saturating_add(cell))
        }
        _ => Ok(()),
    }
}
