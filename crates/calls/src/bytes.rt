//! Calls that ask what may be done with the bytes of types.

use crate::command::Command;
use crate::layouts::laid_type;
use crate::stop::Refusal;
use crate::values::{write_bytes, write_cells};
use abi_base::TargetDataLayout;
use abi_bytes::{
    FromBytes, FromZeros, Goes, IntoBytes, is_from_bytes, is_from_zeros, is_into_bytes, transmute,
};
use abi_tree::Laid;
use std::alloc::AllocError;

/// `bytes TYPE`
pub(crate) fn write_byte_answers(command: &mut Command, laid: &Laid) -> Result<(), AllocError> {
    command.write("from_zeros ");
    match is_from_zeros(command.alloc, laid)? {
        FromZeros::Yes => command.write("yes"),
        FromZeros::No => command.write("no"),
        FromZeros::TooLarge => command.write("unknown"),
    }
    command.write(" from_bytes ");
    match is_from_bytes(command.alloc, laid)? {
        FromBytes::Yes => command.write("yes"),
        FromBytes::No(bytes) => {
            command.write("no ");
            write_bytes(command, &bytes);
        }
        FromBytes::TooLarge => command.write("unknown"),
    }
    command.write(" into_bytes ");
    match is_into_bytes(command.alloc, laid)? {
        IntoBytes::Yes => command.write("yes"),
        IntoBytes::No(cells) => write_cells(command, &cells),
        IntoBytes::TooLarge => command.write("unknown"),
    }
    Ok(())
}

/// Writes whether each value of one type is one of another.
fn write_transmuted(command: &mut Command, a: &Laid, b: &Laid) -> Result<(), AllocError> {
    let answer = transmute(command.alloc, a, b)?;
    match &answer.goes {
        Goes::Yes => command.write("yes"),
        Goes::No(cells) => write_cells(command, cells),
        Goes::OtherSize => command.write("size"),
        Goes::TooLarge => command.write("unknown"),
    }
    if answer.has_pointer {
        command.write(" pointer");
    }
    Ok(())
}

/// `transmute TYPE TYPE`, from the second one on
pub(crate) fn answer_transmute(
    dl: &TargetDataLayout,
    command: &mut Command,
    first: &Laid,
) -> Result<(), Refusal> {
    let second = laid_type(dl, command)?;
    Ok(write_transmuted(command, first, &second)?)
}
