//! A type's layout as text, and programs that tell it.

ghost use Rattle.std.specs.Prelude.{◌≡◌, ℕ, IfSome, List};
ghost use Rattle.abi_text.specs.Output.{Answered, IsOutputOf, Output};
ghost use Rattle.abi_text.specs.Report.{ReportsLayout};

use crate::print::write_type;
use crate::report::Report;
use crate::running::run;
use abi_base::TargetDataLayout;
use abi_tree::Laid;
use std::alloc::{AllocError, Global};
use std::io::{Read, Write};

/// For how many bytes of a text room is asked for at the first.
const FIRST_ROOM: usize = 256;

/// A type is told by all lines of its layout.
pub struct LayoutText;

impl Report for LayoutText {
    ghost reports = { ReportsLayout };

    fn report_text(
        alloc: Global,
        _dl: &TargetDataLayout,
        laid: &Laid,
    ) -> Result<String, AllocError> {
        let mut text = String::with_capacity(alloc, FIRST_ROOM)?;
        write_type(alloc, &mut text, laid)?;
        Ok(text)
    }
}

/// Reads an input whole, writes the layout of its type, and answers the status: 0 for a type with a layout, 1 for one
/// that is refused, 2 for a text that can't be read. The errors of devices are those of `run`.
pub fn run_layout<R: Read, W: Write>(alloc: Global, input: &mut R, output: &mut W) -> u8
    ensures answered { IfSome (R.remaining input.old) (λ all. Answered (W.contents output.old)
        (W.contents output.new) (IsOutputOf ReportsLayout all) result) }
    ensures some { (all : List ℕ) → (output : Output) × IsOutputOf ReportsLayout all output }
    ensures one { (all : List ℕ) (a b : Output) → IsOutputOf ReportsLayout all a →
        IsOutputOf ReportsLayout all b → a ≡ b }
{
    run::<LayoutText, R, W>(alloc, input, output)
}
