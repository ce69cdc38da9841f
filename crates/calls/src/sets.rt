//! A call of sets of bytes.

use crate::command::Command;
use crate::print::write_runs;
use abi_index::RangeSet;
use std::alloc::Global;

/// The set of bytes that the runs between the next parentheses make, each an offset and a size, one after another.
fn bytes(command: &mut Command) -> RangeSet {
    let mut bytes = RangeSet::new(command.alloc);
    command.expect(b"(");
    for _ in 0..u64::MAX {
        if !command.has_more() {
            break;
        }
        let (offset, size) = (command.short(), command.short());
        if bytes.add_range(u64::from(offset), u64::from(size)).is_err() {
            command.mark_cut();
        }
    }
    bytes
}

/// Writes the bytes of a set that are in no other.
fn write_difference(command: &mut Command) {
    let all = bytes(command);
    let cuts = bytes(command);
    match all.difference(command.alloc, &cuts) {
        Ok(left) => write_runs(command, &left),
        Err(_) => command.mark_cut(),
    }
}

/// Answers the call; whether it is `difference ( OFFSET SIZE .. ) ( OFFSET SIZE .. )`.
pub(crate) fn answers(command: &mut Command) -> bool {
    let is_named = command.is_named(b"difference");
    if is_named {
        write_difference(command);
    }
    is_named
}
