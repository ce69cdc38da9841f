//! The answer to a line, as it is written.

use crate::command::Command;
use crate::stop::OUT_OF_MEMORY;
use abi_base::Primitive;
use abi_text::write_primitive;
use std::alloc::AllocError;
use std::fmt::{Debug, Display};

impl Command {
    /// The whole answer.
    pub(crate) fn answer(&self) -> &str {
        if self.is_cut {
            OUT_OF_MEMORY
        } else {
            &self.answer
        }
    }

    /// Nothing is answered.
    pub(crate) fn clear(&mut self) {
        self.answer.clear();
        self.is_cut = false;
    }

    /// Something is missing.
    pub(crate) fn mark_cut(&mut self) {
        self.is_cut = true;
    }

    /// Something is missing where it couldn't be written.
    fn note(&mut self, written: Result<(), AllocError>) {
        if written.is_err() {
            self.mark_cut();
        }
    }

    /// Writes a text.
    pub(crate) fn write(&mut self, text: &str) {
        let written = self.answer.push_str(text);
        self.note(written);
    }

    /// Writes what has a text.
    pub(crate) fn write_shown<T: Display>(&mut self, it: &T) {
        let written = write!(self.answer, "{it}");
        self.note(written);
    }

    /// Writes what has a text for programmers.
    pub(crate) fn write_debugged<T: Debug>(&mut self, it: &T) {
        let written = write!(self.answer, "{it:?}");
        self.note(written);
    }

    /// Writes a number.
    pub(crate) fn write_wide(&mut self, number: u128) {
        let written = write!(self.answer, "{number}");
        self.note(written);
    }

    /// Writes a number.
    pub(crate) fn write_number(&mut self, number: u64) {
        self.write_wide(u128::from(number));
    }

    /// Writes whether something is so.
    pub(crate) fn write_truth(&mut self, holds: bool) {
        self.write(if holds { "true" } else { "false" });
    }

    /// Writes a text, and a number behind it.
    pub(crate) fn write_with_number(&mut self, before: &str, number: u64) {
        self.write(before);
        self.write_number(number);
    }

    /// Writes a text, and behind it whether something is so.
    pub(crate) fn write_with_truth(&mut self, before: &str, holds: bool) {
        self.write(before);
        self.write_truth(holds);
    }

    /// Writes a primitive.
    pub(crate) fn write_primitive(&mut self, primitive: Primitive) {
        let written = write_primitive(&mut self.answer, primitive);
        self.note(written);
    }
}
