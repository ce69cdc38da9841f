//! Calls of sizes, alignments and counts that refuse a number, or answer none.

ghost use Rattle.abi_base.specs.DataLayout.{IsLawfulDataLayout};

use crate::command::Command;
use crate::print::write_align;
use abi_base::{Align, NumScalableVectors, Size, TargetDataLayout};

/// Writes the alignment of the bytes that are next, or why there is none.
fn write_align_from_bytes(command: &mut Command) {
    match Align::from_bytes(command.number()) {
        Ok(align) => write_align(command, align),
        Err(error) => {
            command.write("refused ");
            command.write_shown(&error);
        }
    }
}

/// Writes a size in bytes, or that there is none.
fn write_size(command: &mut Command, size: Option<Size>) {
    match size {
        Some(size) => command.write_number(size.bytes()),
        None => command.write("none"),
    }
}

/// Writes how many vectors the number of fields that is next makes, if it makes any.
fn write_vectors(command: &mut Command) {
    match NumScalableVectors::from_field_count(command.number() as usize) {
        Some(vectors) => command.write_number(u64::from(vectors.0)),
        None => command.write("none"),
    }
}

/// Answers the call; whether it is one of these.
pub(crate) fn answers(dl: &TargetDataLayout, command: &mut Command) -> bool
    requires { IsLawfulDataLayout dl.now }
{
    if command.is_named(b"align-from-bytes") {
        write_align_from_bytes(command);
    } else if command.is_named(b"checked-add") {
        let (first, second) = (command.size(), command.size());
        write_size(command, first.checked_add(second, dl));
    } else if command.is_named(b"checked-mul") {
        let (size, count) = (command.size(), command.number());
        write_size(command, size.checked_mul(count, dl));
    } else if command.is_named(b"scalable-vectors") {
        write_vectors(command);
    } else {
        return false;
    }
    true
}
