//! Programs over text with readers and writers that fail, at each of their steps: what a text gives is shown by the case
//! files.

use abi_map::run_map;
use abi_text::run_layout;
use std::alloc::Global;
use std::io;
use std::io::{ErrorKind, Read, Write};

/// A program over text.
#[derive(Clone, Copy)]
enum Program {
    Layout,
    Map,
}

const PROGRAMS: [Program; 2] = [Program::Layout, Program::Map];

/// A line and a type, to which each program answers.
const INPUT: &[u8] = b"\nstruct C ( u8 u32 )\n";

impl Program {
    /// Runs it over this reader and this writer, and answers its status.
    fn run<R: Read, W: Write>(self, alloc: Global, input: &mut R, output: &mut W) -> u8 {
        match self {
            Program::Layout => run_layout(alloc, input, output),
            Program::Map => run_map(alloc, input, output),
        }
    }

    /// What it writes for the input.
    fn answer(self) -> &'static [u8] {
        match self {
            Program::Layout => {
                b"size 8 align 4\nfield 0 offset 0\nfield 1 offset 4\nniche none\npadding 1..4\n"
            }
            Program::Map => {
                b"size 8 align 4\n0..1 field 0\n1..4 padding\n4..8 field 1\nniche none\n"
            }
        }
    }
}

/// A reader that is interrupted first, then gives a byte a read, and fails at one of its reads.
#[derive(Drop)]
struct FailingReader<'a> {
    rest: &'a [u8],
    reads: u64,
    fails_at: u64,
    failed: bool,
}

impl Read for FailingReader<'_> {
    fn read(&mut self, buf: &mut [u8]) -> io::Result<usize> {
        if self.reads == self.fails_at {
            self.failed = true;
            return Err(io::Error::from(ErrorKind::ConnectionReset));
        }
        self.reads = self.reads.saturating_add(1);
        if self.reads == 1 {
            return Err(io::Error::from(ErrorKind::Interrupted));
        }
        let Some((first, rest)) = self.rest.split_first() else {
            return Ok(0);
        };
        let Some(place) = buf.first_mut() else {
            return Ok(0);
        };
        *place = *first;
        self.rest = rest;
        Ok(1)
    }
}

/// Whether the program says that reading failed, where it does so at this read, and else gives its answer.
fn reports_failed_reads(alloc: Global, program: Program, fails_at: u64) -> bool {
    let mut input = FailingReader {
        rest: INPUT,
        reads: 0,
        fails_at,
        failed: false,
    };
    let mut output = Vec::new(alloc);
    let status = program.run(alloc, &mut input, &mut output);
    if input.failed {
        status == 1 && output.as_slice() == b"refused Input\n".as_slice()
    } else {
        status == 0 && output.as_slice() == program.answer()
    }
}

// More than all that are made, so that none fails in the end.
#[test]
fn each_failed_read_is_refused(rt: HostRuntime) {
    for program in PROGRAMS {
        for fails_at in 0..50 {
            assert!(rt;
                reports_failed_reads(rt.alloc(), program, fails_at),
                "{fails_at}"
            );
        }
    }
}

/// A writer that is interrupted first, then takes a byte a write, and fails at one of its calls, of which the last one
/// flushes it; what it is asked for afterwards it notes.
#[derive(Drop)]
struct FailingWriter {
    taken: Vec<u8>,
    calls: u64,
    fails_at: u64,
    failed: bool,
    asked_again: bool,
}

impl FailingWriter {
    /// Counts a call, or fails.
    fn count(&mut self) -> io::Result<()> {
        if self.failed {
            self.asked_again = true;
        }
        if self.calls == self.fails_at {
            self.failed = true;
            return Err(io::Error::from(ErrorKind::ConnectionReset));
        }
        self.calls = self.calls.saturating_add(1);
        Ok(())
    }
}

impl Write for FailingWriter {
    fn write(&mut self, buf: &[u8]) -> io::Result<usize> {
        self.count()?;
        if self.calls == 1 {
            return Err(io::Error::from(ErrorKind::Interrupted));
        }
        let Some(first) = buf.first() else {
            return Ok(0);
        };
        match self.taken.push(*first) {
            Ok(()) => Ok(1),
            Err(_) => Err(io::Error::from(ErrorKind::OutOfMemory)),
        }
    }

    fn flush(&mut self) -> io::Result<()> {
        self.count()
    }
}

/// Whether the program ends with 1 behind a beginning of its answer, where writing fails at this call, and asks for nothing
/// more; and else gives its answer whole.
fn reports_failed_writes(alloc: Global, program: Program, fails_at: u64) -> bool {
    let mut output = FailingWriter {
        taken: Vec::new(alloc),
        calls: 0,
        fails_at,
        failed: false,
        asked_again: false,
    };
    let mut input = INPUT;
    let status = program.run(alloc, &mut input, &mut output);
    if output.failed {
        status == 1 && !output.asked_again && program.answer().starts_with(&output.taken)
    } else {
        status == 0 && output.taken.as_slice() == program.answer()
    }
}

// More than all that are made, as above.
#[test]
fn each_failed_write_ends_with_one(rt: HostRuntime) {
    for program in PROGRAMS {
        for fails_at in 0..100 {
            assert!(rt;
                reports_failed_writes(rt.alloc(), program, fails_at),
                "{fails_at}"
            );
        }
    }
}
