//! Makes calls of the libraries: each line of standard input names a call and what it is given, and standard output gets
//! a line with its answer.
#![tactic(auto)]

mod answer;
mod bytes;
mod changes;
mod command;
mod data_layouts;
mod in_order;
mod layouts;
mod lists;
mod numbers;
mod print;
mod ranges;
mod registers;
mod sets;
mod stop;
mod types;
mod values;

use abi_text::split_at_byte;
use answer::answer_line;
use std::alloc::{AllocError, Global};
use std::io;
use std::io::{Read, Write};
use std::process::ExitCode;

/// The answers to the lines of a text.
fn answers(alloc: Global, text: &[u8]) -> Result<String, AllocError> {
    let mut out = String::new(alloc);
    let mut rest = text;
    for _ in 0..u64::MAX {
        if rest.is_empty() {
            break;
        }
        let (line, more) = split_at_byte(rest, b'\n');
        answer_line(alloc, &mut out, line)?;
        rest = more.unwrap_or(&[]);
    }
    Ok(out)
}

fn main(rt: HostRuntime) -> ExitCode {
    let mut text = Vec::new(rt.alloc());
    if rt.reader().read_to_end(&mut text).is_err() {
        return ExitCode::FAILURE;
    }
    let Ok(out) = answers(rt.alloc(), &text) else {
        return ExitCode::FAILURE;
    };
    let mut output = io::writer(&rt);
    if output.write_all(out.as_bytes()).is_err() || output.flush().is_err() {
        return ExitCode::FAILURE;
    }
    ExitCode::SUCCESS
}
