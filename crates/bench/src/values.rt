//! Data layout strings, and least ranges.

ghost use Rattle.std.specs.Prelude.{◌^◌, ◌<◌, ◌≤◌, All, IfOk};

use crate::inputs::Numbers;
use crate::report::{Line, Outcome, time};
use abi_base::{AddressSpace, Size, TargetDataLayout};
use abi_scalar::WrappingRange;
use std::alloc::{AllocError, Global};
use std::io;

/// The specs that texts are made of.
const SPECS: [&str; 5] = ["i64:64", "v128:128", "m:e", "n8:16", "f64:64"];

/// A text of `count` specs.
fn text_of(alloc: Global, count: u64) -> Result<String, AllocError> {
    let mut numbers = Numbers(5);
    let mut text = String::new(alloc);
    for step in 0..count {
        if step > 0 {
            text.push('-')?;
        }
        text.push_str(SPECS[numbers.below(5) as usize])?;
    }
    Ok(text)
}

/// The size of pointers that a data layout string says, 0 where it is refused.
fn pointer_size(alloc: Global, text: &str) -> u64 {
    match TargetDataLayout::parse_from_llvm_datalayout_string(alloc, text, AddressSpace::ZERO) {
        Ok(dl) => dl.pointer_size().bytes(),
        Err(_) => 0,
    }
}

/// Times the reading of a string of as many specs as the line has.
pub(crate) fn time_parse(rt: &HostRuntime, line: Line) -> Outcome {
    let text = text_of(rt.alloc(), line.size)?;
    time(rt, line, &|alloc| pointer_size(alloc, &text))
}

/// `count` multiples of this number.
fn values_of(alloc: Global, count: u64, by: u64) -> Result<Vec<u128>, AllocError>
    requires { by ≤ 2 }
    ensures { IfOk result (λ values. All (λ v. v < 2 ^ 32) values.items) }
{
    let mut numbers = Numbers(8);
    let mut values = Vec::new(alloc);
    for _step in 0..count {
        values.push(u128::from(numbers.below(1 << 31) * by))?;
    }
    Ok(values)
}

/// The end of the least range of these numbers of four bytes, 0 where it is refused.
fn end_of_range(alloc: Global, values: &[u128]) -> u64
    requires { All (λ v. v < 2 ^ 32) values.now }
{
    let size = Size::from_bytes(4);
    match WrappingRange::smallest_range_containing(alloc, values.iter().copied(), size) {
        Ok(Some(range)) => (range.end & 0xFFFF_FFFF) as u64,
        _ => 0,
    }
}

/// Times the search for the least range of as many values as the line has, multiples of this number.
pub(crate) fn time_least_range(rt: &HostRuntime, line: Line, by: u64) -> Outcome
    requires { by ≤ 2 }
{
    let values = values_of(rt.alloc(), line.size, by)?;
    time(rt, line, &|alloc| end_of_range(alloc, &values))
}
