//! What is asserted of types, and whether it is so.

use crate::facts::TypeFacts;
use std::alloc::AllocError;

/// A number of a type.
#[derive(Clone, Copy)]
enum AssertedFact<'a> {
    /// Its size, in bytes.
    Size(u64),
    /// The offset of a field, in bytes.
    Offset(&'a str, u64),
}

/// What is asserted of a type.
#[derive(Clone, Copy)]
pub struct Assertion<'a> {
    /// The type's name.
    pub name: &'a str,
    fact: AssertedFact<'a>,
}

/// A number in decimal, where a text is one.
fn number_in(text: &str) -> Option<u64> {
    match text.trim().parse::<u64>() {
        Ok(number) => Some(number),
        Err(_) => None,
    }
}

/// What `TYPE.FIELD@OFFSET` asserts. None of another text.
fn offset_assertion(text: &str) -> Option<Assertion<'_>> {
    let (path, number) = text.rsplit_once('@')?;
    let (name, field) = path.split_once('.')?;
    Some(Assertion {
        name: name.trim(),
        fact: AssertedFact::Offset(field.trim(), number_in(number)?),
    })
}

/// What `TYPE=SIZE` asserts. None of another text.
fn size_assertion(text: &str) -> Option<Assertion<'_>> {
    let (name, number) = text.rsplit_once('=')?;
    Some(Assertion {
        name: name.trim(),
        fact: AssertedFact::Size(number_in(number)?),
    })
}

/// What a text asserts: `TYPE=SIZE`, or `TYPE.FIELD@OFFSET`, where the field may be one of a variant, `VARIANT.FIELD`. None of
/// another text.
pub fn assertion_in(text: &str) -> Option<Assertion<'_>> {
    match offset_assertion(text) {
        Some(assertion) => Some(assertion),
        None => size_assertion(text),
    }
}

/// The offset of the field with this name.
fn offset_of(facts: &TypeFacts, name: &str) -> Option<u64> {
    for field in &facts.fields {
        if field.name.as_str() == name {
            return Some(field.offset);
        }
    }
    None
}

/// Writes the end of a line: the target's name, where several were asked for.
fn end_line(out: &mut String, triple: Option<&str>) -> Result<(), AllocError> {
    if let Some(triple) = triple {
        write!(out, " on {triple}")?;
    }
    out.push_str("\n")
}

/// Writes that the size of a type is another one.
fn write_size(
    out: &mut String,
    name: &str,
    (found, wanted): (u64, u64),
    triple: Option<&str>,
) -> Result<(), AllocError> {
    write!(out, "types: {name} has size {found}, and not {wanted}")?;
    end_line(out, triple)
}

/// Writes that a field of a type lies at another offset, or that there is none of its name.
fn write_offset(
    out: &mut String,
    (name, field): (&str, &str),
    found: Option<u64>,
    wanted: u64,
    triple: Option<&str>,
) -> Result<(), AllocError> {
    match found {
        Some(found) => {
            write!(
                out,
                "types: {name}.{field} lies at {found}, and not at {wanted}"
            )?;
        }
        None => write!(out, "types: {name} has no field {field}")?,
    }
    end_line(out, triple)
}

impl Assertion<'_> {
    /// Whether it is so of its type; where it isn't, a line says what is.
    pub(crate) fn holds(
        self,
        out: &mut String,
        facts: &TypeFacts,
        triple: Option<&str>,
    ) -> Result<bool, AllocError> {
        match self.fact {
            AssertedFact::Size(wanted) => {
                if facts.size == wanted {
                    return Ok(true);
                }
                write_size(out, self.name, (facts.size, wanted), triple)?;
            }
            AssertedFact::Offset(field, wanted) => {
                let found = offset_of(facts, field);
                if found == Some(wanted) {
                    return Ok(true);
                }
                write_offset(out, (self.name, field), found, wanted, triple)?;
            }
        }
        Ok(false)
    }
}
