//! What a line asks, and what is answered so far.

mod text;
mod words;

use crate::stop::{Clause, Refusal};
use std::alloc::{AllocError, AllocFailed, Global};
pub(crate) use words::meaning_of;

/// Where a word stands in its line.
#[derive(Clone, Copy)]
pub(crate) struct WordSpan {
    start: usize,
    end: usize,
}

impl WordSpan {
    /// Where no word stands.
    pub(crate) const NOWHERE: WordSpan = WordSpan { start: 0, end: 0 };
}

/// A line, where what is left of it starts, how many of its words were read, which of them names the call, why it
/// stopped, if it did, and what is answered so far, of which some is missing where a growth of memory was refused. Once
/// the line stopped no word is read, and what is asked for is some value of its type: what follows need not ask after
/// each word.
#[derive(Drop)]
pub(crate) struct Command {
    pub(crate) alloc: Global,
    line: Vec<u8>,
    start: usize,
    count: u64,
    name: WordSpan,
    stop: Option<Refusal>,
    answer: String,
    is_cut: bool,
}

impl Command {
    /// Nothing of the line is read, and nothing is answered yet.
    pub(crate) fn new(alloc: Global, line: &[u8]) -> Result<Self, AllocError> {
        let mut own = Vec::with_capacity(alloc, line.len())?;
        own.extend_from_slice(line)?;
        Ok(Command {
            alloc,
            line: own,
            start: 0,
            count: 0,
            name: WordSpan::NOWHERE,
            stop: None,
            answer: String::new(alloc),
            is_cut: false,
        })
    }

    /// Stops the line, unless it did before.
    pub(crate) fn stop(&mut self, stop: Refusal) {
        if self.stop.is_none() {
            self.stop = Some(stop);
        }
    }

    /// Stops the line, since what a call's clause asks for doesn't hold.
    pub(crate) fn lacks(&mut self, clause: Clause) {
        self.stop(Refusal::Asks(clause));
    }

    /// Stops the line unless what a call's clause asks for holds.
    pub(crate) fn asks(&mut self, holds: bool, clause: Clause) {
        if !holds {
            self.lacks(clause);
        }
    }

    /// Stops the line where the word that was read last doesn't fit.
    pub(crate) fn misfit(&mut self) {
        self.stop(Refusal::Unreadable(self.count));
    }

    /// Why the line stopped, if it did.
    pub(crate) fn go_on(&self) -> Result<(), Refusal> {
        match self.stop {
            Some(stop) => Err(stop),
            None => Ok(()),
        }
    }

    /// Stops the line where what was done couldn't be.
    pub(crate) fn keep(&mut self, done: Result<(), Refusal>) {
        if let Err(stop) = done {
            self.stop(stop);
        }
    }

    /// Stops the line where a list couldn't grow.
    pub(crate) fn grow<T: Drop>(&mut self, grown: Result<(), AllocFailed<T>>) {
        if grown.is_err() {
            self.stop(Refusal::OutOfMemory);
        }
    }
}
