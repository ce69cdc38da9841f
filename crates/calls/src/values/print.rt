//! How values and their bytes are written.

use crate::command::Command;
use rustc_abi::Value;

/// The digits of bytes.
const DIGITS: [&str; 16] = [
    "0", "1", "2", "3", "4", "5", "6", "7", "8", "9", "a", "b", "c", "d", "e", "f",
];

/// Writes bytes, each by two hexadecimal digits, or that there are none.
pub(crate) fn write_bytes(command: &mut Command, bytes: &[u8]) {
    let mut between = "";
    for byte in bytes {
        command.write(between);
        command.write(DIGITS[usize::from(*byte >> 4)]);
        command.write(DIGITS[usize::from(*byte & 15)]);
        between = " ";
    }
    if bytes.is_empty() {
        command.write("none");
    }
}

/// Writes that something isn't so, and the cells that show it, each by two hexadecimal digits, or by `--` where nothing is
/// initialised.
pub(crate) fn write_cells(command: &mut Command, cells: &[Option<u8>]) {
    command.write("no");
    for cell in cells {
        command.write(" ");
        match cell {
            Some(byte) => write_bytes(command, &[*byte]),
            None => command.write("--"),
        }
    }
}

/// Writes values between parentheses.
#[cycle(meant)]
fn write_each(command: &mut Command, values: &[Value]) {
    command.write("(");
    for value in values {
        command.write(" ");
        write_meant(command, value);
    }
    command.write(" )");
}

/// Writes a value as it is read.
#[cycle(meant)]
pub(crate) fn write_meant(command: &mut Command, value: &Value) {
    match value {
        Value::Num(number) => command.write_wide(*number),
        Value::Pair(first, second) => {
            command.write("pair ");
            command.write_wide(*first);
            command.write(" ");
            command.write_wide(*second);
        }
        Value::List(values) => write_each(command, values),
        Value::Variant(index, values) => {
            command.write_with_number("variant ", *index as u64);
            command.write(" ");
            write_each(command, values);
        }
        Value::State {
            state,
            prefix,
            locals,
        } => {
            command.write_with_number("state ", *state as u64);
            command.write(" ");
            write_each(command, prefix);
            command.write(" ");
            write_each(command, locals);
        }
        Value::Union(bytes) => {
            command.write("union ( ");
            write_bytes(command, bytes);
            command.write(" )");
        }
    }
}
