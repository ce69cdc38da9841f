//! Lays out a type: standard input has a data layout string and a type, a line each, and standard output gets the
//! layout.
#![tactic(auto)]

pub use abi_text::run_layout as run;
use std::io;
use std::process::ExitCode;

fn main(rt: HostRuntime) -> ExitCode {
    ExitCode::from(run(rt.alloc(), &mut rt.reader(), &mut io::writer(&rt)))
}
