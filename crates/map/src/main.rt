//! Tells what each byte of a type holds: standard input has a data layout string and a type, a line each, and standard
//! output gets the runs of bytes that the same parts have.
#![tactic(auto)]

pub use abi_map::run_map as run;
use std::io;
use std::process::ExitCode;

fn main(rt: HostRuntime) -> ExitCode {
    ExitCode::from(run(rt.alloc(), &mut rt.reader(), &mut io::writer(&rt)))
}
