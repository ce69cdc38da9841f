//! Programs that tell the map of a type, over any reader and writer.

ghost use Rattle.std.specs.Prelude.{◌≡◌, ℕ, IfSome, List};
ghost use Rattle.abi_text.specs.Output.{Answered, IsOutputOf, Output};
ghost use Rattle.abi_map.specs.Map.{ReportsMap};
ghost use Rattle.abi_map.specs.Runs.{PaddingHasNoName, RunsFollow};

use crate::map_text::MapText;
use std::alloc::Global;
use std::io::{Read, Write};

/// Reads an input whole, writes the map of its type, and answers the status: 0 for a type with a layout, 1 for one that
/// is refused, 2 for a text that can't be read. The errors of devices are those of `abi_text::run`.
pub fn run_map<R: Read, W: Write>(alloc: Global, input: &mut R, output: &mut W) -> u8
    ensures answered { IfSome (R.remaining input.old) (λ all.
        Answered (W.contents output.old) (W.contents output.new) (IsOutputOf ReportsMap all) result) }
    ensures some { (all : List ℕ) → (output : Output) × IsOutputOf ReportsMap all output }
    ensures one { (all : List ℕ) (a b : Output) → IsOutputOf ReportsMap all a →
        IsOutputOf ReportsMap all b → a ≡ b }
    ensures runs { RunsFollow }
    ensures padding { PaddingHasNoName }
{
    abi_text::run::<MapText, R, W>(alloc, input, output)
}
