//! Programs that read a type and tell of it, over any reader and writer.

ghost use Rattle.std.specs.Prelude.{◌≤◌, IfSome, MatchOption, length, take};
ghost use Rattle.std.specs.Io.KnownBytes.{Appends, Keeps};
ghost use Rattle.abi_text.specs.Output.{Answered, Sent, IsOutputOf};

use crate::answers::answer_input;
use crate::report::Report;
use std::alloc::Global;
use std::io::{ErrorKind, Read, Write};

/// Writes a beginning of a text, and answers its length: 0 where the writer was interrupted. None where writing fails.
fn write_some<W: Write>(output: &mut W, text: &[u8]) -> Option<usize>
    ensures { MatchOption result (Keeps (W.contents output.old) (W.contents output.new))
        (λ count. (count ≤ length text.now) ×
        Appends (W.contents output.old) (W.contents output.new) (take count text.now)) }
{
    match output.write(text) {
        Ok(0) => None,
        Ok(count) => Some(count),
        Err(error) if error.kind() == ErrorKind::Interrupted => Some(0),
        Err(_) => None,
    }
}

/// Writes a text, and answers the status; 1 where writing fails, and nothing more is written then.
fn send<W: Write>(output: &mut W, text: &[u8], status: u8) -> u8
    ensures { Sent (W.contents output.old) (W.contents output.new) text.now status result }
{
    let mut rest = text;
    for _ in 0..u64::MAX {
        if rest.is_empty() {
            return match output.flush() {
                Ok(()) => status,
                Err(_) => 1,
            };
        }
        let Some(count) = write_some(output, rest) else {
            return 1;
        };
        rest = &rest[count..];
    }
    1
}

/// Reads an input whole, writes the answer to it, and answers the status: 0 for a type with a layout, of which `T`
/// tells, 1 for one that is refused, 2 for a text that can't be read.
///
/// The input's first line is a data layout string, its second a type. All of the answer is made before any of it is
/// written. Where reading fails it is `refused Input`, where memory is wanting `refused OutOfMemory`; where writing
/// fails the status is 1, and nothing more is written.
pub fn run<T: Report, R: Read, W: Write>(alloc: Global, input: &mut R, output: &mut W) -> u8
    ensures { IfSome (R.remaining input.old) (λ all.
        Answered (W.contents output.old) (W.contents output.new) (IsOutputOf T.reports all) result) }
{
    let mut text = Vec::new(alloc);
    match input.read_to_end(&mut text) {
        Ok(_) => match answer_input::<T>(alloc, text.as_slice()) {
            Ok(answer) => send(output, answer.text.as_bytes(), answer.status),
            Err(_) => send(output, b"refused OutOfMemory\n", 1),
        },
        Err(error) if error.kind() == ErrorKind::OutOfMemory => {
            send(output, b"refused OutOfMemory\n", 1)
        }
        Err(_) => send(output, b"refused Input\n", 1),
    }
}
