//! The answer to a line.

ghost use Rattle.abi_base.specs.DataLayout.{IsLawfulDataLayout};

use crate::command::{Command, WordSpan};
use crate::stop::{Clause, OUT_OF_MEMORY, Refusal};
use crate::{data_layouts, lists, numbers, ranges, registers, sets, types};
use abi_base::{Endian, TargetDataLayout};
use std::alloc::{AllocError, Global};

/// Answers the call; whether there is one of this name.
fn answer_call(dl: &TargetDataLayout, command: &mut Command) -> bool
    requires { IsLawfulDataLayout dl.now }
{
    lists::answers(dl, command)
        || types::answers(dl, command)
        || ranges::answers(dl, command)
        || registers::answers(dl, command)
        || numbers::answers(dl, command)
        || data_layouts::answers(command)
        || sets::answers(command)
}

/// Answers the call under a data layout, which has to be lawful; whether there is one of this name.
fn answer_under(dl: &TargetDataLayout, command: &mut Command) -> bool {
    if !dl.is_lawful() {
        command.lacks(Clause::DataLayout);
        return true;
    }
    answer_call(dl, command)
}

/// Answers the call of a line, or stops.
fn answer_words(command: &mut Command) -> Result<(), Refusal> {
    let text = if command.takes(b"under") {
        command.text()
    } else {
        WordSpan::NOWHERE
    };
    command.read_name();
    command.go_on()?;
    let unknown = Refusal::Unreadable(command.count());
    let mut dl = data_layouts::data_layout_of(command.alloc, command.text_at(text))?;
    if command.takes(b"le") {
        dl.endian = Endian::Little;
    } else if command.takes(b"be") {
        dl.endian = Endian::Big;
    }
    if !answer_under(&dl, command) {
        command.stop(unknown);
    }
    command.end();
    command.go_on()
}

/// Writes why a line has no answer but a refusal.
fn write_refusal(command: &mut Command, stop: Refusal) {
    match stop {
        Refusal::Unreadable(number) => command.write_with_number("unreadable word ", number),
        Refusal::Refused(name) => {
            command.write("refused ");
            command.write(name.as_str());
        }
        Refusal::Asks(clause) => {
            command.write("asks ");
            command.write(clause.as_str());
        }
        Refusal::OutOfMemory => command.write(OUT_OF_MEMORY),
    }
}

/// The command that a line is, with its answer.
fn answered_command(alloc: Global, line: &[u8]) -> Result<Command, AllocError> {
    let mut command = Command::new(alloc, line)?;
    if let Err(stop) = answer_words(&mut command) {
        command.clear();
        write_refusal(&mut command, stop);
    }
    Ok(command)
}

/// Writes the answer to a line, and ends it.
pub(crate) fn answer_line(alloc: Global, out: &mut String, line: &[u8]) -> Result<(), AllocError> {
    match answered_command(alloc, line) {
        Ok(command) => out.push_str(command.answer())?,
        Err(_) => out.push_str(OUT_OF_MEMORY)?,
    }
    out.push_str("\n")
}
