//! Calls that write values to bytes and read them from bytes, and that say which bytes decide.

mod print;
mod words;

use crate::command::Command;
use crate::stop::{Name, Refusal};
use crate::values::print::write_meant;
pub(crate) use crate::values::print::{write_bytes, write_cells};
use crate::values::words::{bytes, value};
use rustc_abi::{Laid, Value, ValueError, read_value, write_value};
use std::alloc::{AllocError, Global};

/// Writes the bytes of a value.
fn write_written(command: &mut Command, laid: &Laid, value: &Value) -> Result<(), Refusal> {
    match write_value(command.alloc, laid, value) {
        Ok(bytes) => write_bytes(command, &bytes),
        Err(ValueError::NotAValue) => return Err(Refusal::Refused(Name::NotAValue)),
        Err(ValueError::OutOfMemory) => command.mark_cut(),
    }
    Ok(())
}

/// `write TYPE VALUE`, from the value on
pub(crate) fn answer_write(command: &mut Command, laid: &Laid) -> Result<(), Refusal> {
    let value = value(command);
    command.end();
    write_written(command, laid, &value)
}

/// Writes the value that bytes hold, if they hold one.
fn write_held(command: &mut Command, laid: &Laid, bytes: &[u8]) -> Result<(), AllocError> {
    match read_value(command.alloc, laid, bytes)? {
        Some(value) => write_meant(command, &value),
        None => command.write("none"),
    }
    Ok(())
}

/// `read TYPE BYTE..`, from the bytes on
pub(crate) fn answer_read(command: &mut Command, laid: &Laid) -> Result<(), Refusal> {
    let bytes = bytes(command);
    command.end();
    Ok(write_held(command, laid, &bytes)?)
}

/// `decider TYPE PLACE`, from the place on
pub(crate) fn write_decider(command: &mut Command, laid: &Laid) -> Result<(), AllocError> {
    let place = command.number();
    command.end();
    match laid.decider(command.alloc, place)? {
        Some((a, b)) => {
            write_bytes(command, &a);
            command.write(" | ");
            write_bytes(command, &b);
        }
        None => command.write("none"),
    }
    Ok(())
}
