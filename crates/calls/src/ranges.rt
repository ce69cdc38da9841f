//! Calls of ranges and niches.

ghost use Rattle.std.specs.Prelude.{◌≤◌, ◌<◌, All, IfSome, IsTrue};
ghost use Rattle.abi_base.specs.Primitive.{KnowsPrimitive};
ghost use Rattle.abi_scalar.specs.Niche.{IsWellFormedNiche};
ghost use Rattle.abi_scalar.specs.Range.{AreWithin, numbers_of};
ghost use Rattle.abi_scalar.specs.Scalar.{IsWellFormed};

use crate::command::Command;
use crate::print::{write_niche, write_range};
use crate::stop::{Clause, Refusal};
use abi_base::{Primitive, Size, TargetDataLayout};
use abi_scalar::{Niche, Scalar, WrappingRange};
use std::alloc::{AllocError, Global};

/// The width of a number, in bytes: 1 to 16.
fn width(command: &mut Command) -> Size
    ensures some { 1 ≤ result }
    ensures most { result ≤ 16 }
{
    let bytes = command.number();
    command.asks(bytes >= 1 && bytes <= 16, Clause::Width);
    Size::from_bytes(bytes.clamp(1, 16))
}

/// The range that is next, of numbers of `size` bytes.
fn range(command: &mut Command, size: Size) -> WrappingRange
    requires some { 1 ≤ size }
    requires most { size ≤ 16 }
    ensures { AreWithin size result }
{
    let (start, end) = (command.wide_number(), command.wide_number());
    let most = size.unsigned_int_max();
    command.asks(start <= most && end <= most, Clause::Within);
    WrappingRange {
        start: start.min(most),
        end: end.min(most),
    }
}

/// Whether it is a number of `size` bytes.
fn is_within(number: u128, size: Size) -> bool
    requires some { 1 ≤ size }
    requires most { size ≤ 16 }
    ensures { IsTrue result → number < numbers_of size }
{
    number <= size.unsigned_int_max()
}

/// Whether each of these is a number of `size` bytes.
fn are_within(numbers: &[u128], size: Size) -> bool
    requires some { 1 ≤ size }
    requires most { size ≤ 16 }
    ensures { IsTrue result → All (λ v. v < numbers_of size) numbers.now }
{
    for number in numbers {
        if !is_within(*number, size) {
            return false;
        }
    }
    true
}

/// The numbers that are next, up to the end.
fn numbers(command: &mut Command) -> Result<Vec<u128>, AllocError> {
    let mut all = Vec::new(command.alloc);
    for _ in 0..u64::MAX {
        if !command.has_word() {
            break;
        }
        all.push(command.wide_number())?;
    }
    Ok(all)
}

/// The least range of these numbers, which have to be of `size` bytes.
fn least_range(alloc: Global, size: Size, all: Vec<u128>) -> Result<Option<WrappingRange>, Refusal>
    requires some { 1 ≤ size }
    requires most { size ≤ 16 }
{
    if !are_within(&all, size) {
        return Err(Refusal::Asks(Clause::Within));
    }
    Ok(WrappingRange::smallest_range_containing(alloc, all, size)?)
}

/// Writes the least range of the numbers that are next, behind the bytes that each has.
fn write_least(command: &mut Command) -> Result<(), Refusal> {
    let size = width(command);
    let all = numbers(command)?;
    match least_range(command.alloc, size, all)? {
        Some(range) => write_range(command, range),
        None => command.write("none"),
    }
    Ok(())
}

/// Writes whether the second range that is next lies in the first.
fn write_contained(command: &mut Command) {
    let size = width(command);
    let (first, second) = (range(command, size), range(command, size));
    command.write_truth(first.contains_range(second, size));
}

/// Whether the data layout knows the primitive.
fn knows(dl: &TargetDataLayout, value: Primitive) -> bool
    ensures { IsTrue result → KnowsPrimitive dl.now value }
{
    match value {
        Primitive::Int(_, _) => true,
        Primitive::Float(_) => true,
        Primitive::Pointer(space) => dl.knows(space),
    }
}

/// Whether the data layout knows the scalar's primitive, and its ends are numbers of its width.
fn is_readable(dl: &TargetDataLayout, scalar: Scalar) -> bool
    ensures { IsTrue result → IsWellFormed dl.now scalar }
{
    if !knows(dl, scalar.primitive()) {
        return false;
    }
    let size = scalar.size(dl);
    if size.bytes() < 1 || size.bytes() > 16 {
        return false;
    }
    match scalar {
        Scalar::Initialized {
            value: _,
            valid_range,
        } => {
            let most = size.unsigned_int_max();
            valid_range.start <= most && valid_range.end <= most
        }
        Scalar::Union { value: _ } => true,
    }
}

/// The niche of a scalar at the start, whatever it has free. None where it can't be read.
fn niche(dl: &TargetDataLayout, scalar: Scalar) -> Option<Niche>
    ensures { IfSome result (IsWellFormedNiche dl.now) }
{
    match scalar {
        Scalar::Initialized { value, valid_range } if is_readable(dl, scalar) => Some(Niche {
            offset: Size::ZERO,
            value,
            valid_range,
        }),
        _ => None,
    }
}

/// Writes the first of the numbers that are handed out, and the range then.
fn write_reserved(command: &mut Command, reserved: Option<(u128, Scalar)>) {
    match reserved {
        Some((start, Scalar::Initialized { valid_range, .. })) => {
            command.write("start ");
            command.write_wide(start);
            command.write(" range ");
            write_range(command, valid_range);
        }
        _ => command.write("none"),
    }
}

/// Writes what is handed out of the free numbers of the scalar that is next, where as many as follow are asked for.
fn write_reserve(dl: &TargetDataLayout, command: &mut Command) {
    let scalar = command.scalar(dl);
    let count = command.wide_number();
    let Some(niche) = niche(dl, scalar) else {
        return command.lacks(Clause::Readable);
    };
    if count < 1 {
        return command.lacks(Clause::Any);
    }
    write_reserved(command, niche.reserve(dl, count));
}

/// Writes the niche of the scalar that is next, at the place before it.
fn write_from_scalar(dl: &TargetDataLayout, command: &mut Command) {
    let offset = command.size();
    let scalar = command.scalar(dl);
    if is_readable(dl, scalar) {
        write_niche(command, Niche::from_scalar(dl, offset, scalar));
    } else {
        command.lacks(Clause::Readable);
    }
}

/// Answers the call; whether it is one of these.
pub(crate) fn answers(dl: &TargetDataLayout, command: &mut Command) -> bool {
    if command.is_named(b"contains-range") {
        write_contained(command);
    } else if command.is_named(b"least-range") {
        let done = write_least(command);
        command.keep(done);
    } else if command.is_named(b"reserve") {
        write_reserve(dl, command);
    } else if command.is_named(b"niche-from-scalar") {
        write_from_scalar(dl, command);
    } else {
        return false;
    }
    true
}
