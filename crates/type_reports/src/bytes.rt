//! What may be done with the bytes of types (`docs/BYTES.md`).

use crate::json::put_member;
use abi_bytes::{
    FromBytes, FromZeros, Goes, IntoBytes, Transmuted, is_from_bytes, is_from_zeros, is_into_bytes,
};
use abi_tree::Laid;
use serde_json::{Map, Value};
use std::alloc::{AllocError, Global};

/// What may be done with a type's bytes. None where it would take too many steps to say.
#[derive(Clone, Copy)]
pub(crate) struct ByteAnswers {
    /// Whether zero bytes hold a value.
    from_zeros: Option<bool>,
    /// Whether all bytes hold one.
    from_bytes: Option<bool>,
    /// Whether each value has all its bytes initialised.
    into_bytes: Option<bool>,
}

/// Whether zero bytes hold a value of a type.
fn from_zeros(alloc: Global, laid: &Laid) -> Result<Option<bool>, AllocError> {
    match is_from_zeros(alloc, laid)? {
        FromZeros::Yes => Ok(Some(true)),
        FromZeros::No => Ok(Some(false)),
        FromZeros::TooLarge => Ok(None),
    }
}

/// Whether all bytes hold a value of a type.
fn from_bytes(alloc: Global, laid: &Laid) -> Result<Option<bool>, AllocError> {
    match is_from_bytes(alloc, laid)? {
        FromBytes::Yes => Ok(Some(true)),
        FromBytes::No(_) => Ok(Some(false)),
        FromBytes::TooLarge => Ok(None),
    }
}

/// Whether each value of a type has all its bytes initialised.
fn into_bytes(alloc: Global, laid: &Laid) -> Result<Option<bool>, AllocError> {
    match is_into_bytes(alloc, laid)? {
        IntoBytes::Yes => Ok(Some(true)),
        IntoBytes::No(_) => Ok(Some(false)),
        IntoBytes::TooLarge => Ok(None),
    }
}

/// An answer as a word.
fn word_of(answer: Option<bool>) -> &'static str {
    match answer {
        Some(true) => "yes",
        Some(false) => "no",
        None => "unknown",
    }
}

/// An answer as JSON: a boolean, or null.
fn value_of(answer: Option<bool>) -> Value {
    match answer {
        Some(answer) => Value::Bool(answer),
        None => Value::Null,
    }
}

impl ByteAnswers {
    /// The answers for a laid-out type.
    pub(crate) fn of(alloc: Global, laid: &Laid) -> Result<ByteAnswers, AllocError> {
        Ok(ByteAnswers {
            from_zeros: from_zeros(alloc, laid)?,
            from_bytes: from_bytes(alloc, laid)?,
            into_bytes: into_bytes(alloc, laid)?,
        })
    }

    /// Writes them as a line.
    pub(crate) fn write_line(self, out: &mut String) -> Result<(), AllocError> {
        out.push_str("bytes from_zeros ")?;
        out.push_str(word_of(self.from_zeros))?;
        out.push_str(" from_bytes ")?;
        out.push_str(word_of(self.from_bytes))?;
        out.push_str(" into_bytes ")?;
        out.push_str(word_of(self.into_bytes))?;
        out.push_str("\n")
    }

    /// Puts them into a type's JSON object.
    pub(crate) fn put_members(
        self,
        alloc: Global,
        object: &mut Map<String, Value>,
    ) -> Result<(), AllocError> {
        put_member(alloc, object, "from_zeros", value_of(self.from_zeros))?;
        put_member(alloc, object, "from_bytes", value_of(self.from_bytes))?;
        put_member(alloc, object, "into_bytes", value_of(self.into_bytes))
    }
}

/// Writes cells: two hexadecimal digits for each byte, and `--` where nothing is initialised.
fn write_cells(out: &mut String, cells: &[Option<u8>]) -> Result<(), AllocError> {
    out.push_str("cells")?;
    for cell in cells {
        match cell {
            Some(byte) => write!(out, " {byte:02x}")?,
            None => out.push_str(" --")?,
        }
    }
    out.push_str("\n")
}

/// Whether each value of the first type is one of the second.
pub(crate) fn is_yes(answer: &Transmuted) -> bool {
    match &answer.goes {
        Goes::Yes => true,
        _ => false,
    }
}

/// Writes whether each value of a type is one of another: a word, and the cells that show where it isn't.
pub(crate) fn write_goes(out: &mut String, goes: &Goes) -> Result<(), AllocError> {
    match goes {
        Goes::Yes => out.push_str("yes\n"),
        Goes::No(cells) => {
            out.push_str("no\n")?;
            write_cells(out, cells)
        }
        Goes::OtherSize => out.push_str("no\nsizes differ\n"),
        Goes::TooLarge => out.push_str("unknown\n"),
    }
}

/// Writes, where it is so, that an answer is only that of the numbers of pointers.
pub(crate) fn write_pointers(out: &mut String, answer: &Transmuted) -> Result<(), AllocError> {
    if answer.has_pointer {
        out.push_str("pointers are numbers here\n")?;
    }
    Ok(())
}

/// The cells that show where an answer is no; None elsewhere.
pub(crate) fn shown_cells(answer: &Transmuted) -> Option<&[Option<u8>]> {
    match &answer.goes {
        Goes::No(cells) => Some(cells),
        _ => None,
    }
}
