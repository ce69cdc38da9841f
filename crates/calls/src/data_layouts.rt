//! Calls of data layouts, lawful or not, from their strings; `-` stands for the default one.

ghost use Rattle.std.specs.Prelude.{IsTrue};
ghost use Rattle.abi_base.specs.DataLayout.{IsPointerWidth};

use crate::command::Command;
use crate::stop::{Clause, Refusal, data_layout};
use abi_base::{AddressSpace, Size, TargetDataLayout, TargetDataLayoutError};
use abi_text::read_data_layout;
use std::alloc::{AllocError, Global};

/// The data layout that a text says.
pub(crate) fn data_layout_of(alloc: Global, text: &str) -> Result<TargetDataLayout, Refusal> {
    match read_data_layout(alloc, text) {
        Ok(dl) => Ok(dl),
        Err(error) => Err(data_layout(&error)),
    }
}

/// Writes the data layout that the string that is next says, part by part, or why it says none.
fn write_read(command: &mut Command) -> Result<(), AllocError> {
    let place = command.text();
    let mut text = String::new(command.alloc);
    text.push_str(command.text_at(place))?;
    match read_data_layout(command.alloc, &text) {
        Ok(dl) => command.write_debugged(&dl),
        Err(TargetDataLayoutError::OutOfMemory) => command.mark_cut(),
        Err(error) => command.write_debugged(&error),
    }
    Ok(())
}

/// Whether a pointer or its index has 2, 4 or 8 bytes.
fn is_width(size: Size) -> bool
    ensures { IsTrue result → IsPointerWidth size }
{
    let bytes = size.bytes();
    bytes == 2 || bytes == 4 || bytes == 8
}

/// Writes the bound of sizes, and the integer that indexes the default space.
fn write_bound(dl: &TargetDataLayout, command: &mut Command) {
    if !is_width(dl.pointer_size()) || !is_width(dl.pointer_offset()) {
        return command.lacks(Clause::Width);
    }
    command.write_number(dl.obj_size_bound());
    command.write(" index ");
    command.write(dl.ptr_sized_integer().uint_ty_str());
}

/// Answers a call on a data layout; the space is what it has before it.
fn answer(dl: &TargetDataLayout, command: &mut Command, space: AddressSpace) {
    if command.is_named(b"bound") {
        write_bound(dl, command);
    } else if command.is_named(b"lawful") {
        command.write_truth(dl.is_lawful());
    } else {
        command.write_truth(dl.has_lawful_pointer(space));
    }
}

/// Answers the call; whether it is one of these.
pub(crate) fn answers(command: &mut Command) -> bool {
    if command.is_named(b"read-data-layout") {
        if write_read(command).is_err() {
            command.mark_cut();
        }
        return true;
    }
    let space = if command.is_named(b"lawful-pointer") {
        AddressSpace(command.short())
    } else if command.is_named(b"bound") || command.is_named(b"lawful") {
        AddressSpace::ZERO
    } else {
        return false;
    };
    let text = command.text();
    match data_layout_of(command.alloc, command.text_at(text)) {
        Ok(dl) => answer(&dl, command, space),
        Err(stop) => command.stop(stop),
    }
    true
}
