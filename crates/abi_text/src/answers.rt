//! The answer to a text.

ghost use Rattle.std.specs.Prelude.{◌≡◌, ◌≢◌, ℕ, IfOk, List, MatchOption, true, false};
ghost use Rattle.std.specs.Str.{is_utf8};
ghost use Rattle.abi_tree.specs.Laid.{placed_of};
ghost use Rattle.abi_tree.specs.Tree.{tree_of};
ghost use Rattle.rustc_abi.specs.declared.error.LayError.{LayError};
ghost use Rattle.abi_text.specs.DataLayoutLine.{data_layout_of};
ghost use Rattle.abi_text.specs.LaidOut.{IsLaidOut};
ghost use Rattle.abi_text.specs.Names.{data_layout_error_name, error_name};
ghost use Rattle.abi_text.specs.Output.{answered_by, IsOutputOf, IsOutputOfTree, IsOutputOfType};
ghost use Rattle.abi_text.specs.Output.{IsOutputUnder, output_of_fault, refusal, output_of_text, unreadable};
ghost use Rattle.abi_text.specs.Reading.{read};
ghost use Rattle.abi_text.specs.Words.{words_of};

use crate::data_layout::read_data_layout;
use crate::fault::Fault;
use crate::lines::two_lines;
use crate::names::{data_layout_error_name, error_name};
use crate::reader::read_type;
use crate::report::Report;
use abi_base::{TargetDataLayout, TargetDataLayoutError};
use abi_tree::{Laid, TypeTree};
use rustc_abi::{LayError, lay_out};
use std::alloc::{AllocError, Global};

/// What a program writes for an input, and the status that it ends with.
#[derive(Drop)]
pub struct Answer {
    /// All that is written, with the line ends.
    pub text: String,
    /// 0 for a type with a layout, 1 for one that is refused, 2 for a text that can't be read.
    pub status: u8,
}

/// The answer to a type that has no layout, and to an input that can't be read.
fn refusal(alloc: Global, name: &str) -> Result<Answer, AllocError>
    ensures { IfOk result (λ a. answered_by a ≡ refusal name.now) }
{
    Ok(Answer {
        text: format!(in alloc; "refused {name}\n")?,
        status: 1,
    })
}

/// The answer to a text whose word of this number doesn't fit.
fn unreadable(alloc: Global, number: u64) -> Result<Answer, AllocError>
    ensures { IfOk result (λ a. answered_by a ≡ unreadable number) }
{
    Ok(Answer {
        text: format!(in alloc; "unreadable word {number}\n")?,
        status: 2,
    })
}

/// The answer to a text that can't be read; want of memory has none.
fn answer_fault(alloc: Global, fault: Fault) -> Result<Answer, AllocError>
    ensures { IfOk result (λ a. (fault ≢ Fault.OutOfMemory)
        × (answered_by a ≡ output_of_fault fault)) }
{
    match fault {
        Fault::Unreadable(number) => unreadable(alloc, number),
        Fault::TooDeep => refusal(alloc, "TooDeep"),
        Fault::OutOfMemory => Err(AllocError),
    }
}

/// The answer to a type that has no layout; want of memory has none.
fn answer_error(alloc: Global, error: LayError) -> Result<Answer, AllocError>
    ensures { IfOk result (λ a. (error ≢ LayError.OutOfMemory)
        × (answered_by a ≡ refusal (error_name error))) }
{
    match error {
        LayError::OutOfMemory => Err(AllocError),
        _ => refusal(alloc, error_name(error)),
    }
}

/// The answer to a data layout string that has a fault; want of memory has none.
fn answer_flaw(alloc: Global, error: &TargetDataLayoutError<'_>) -> Result<Answer, AllocError>
    ensures { IfOk result (λ a. (error.now ≢ TargetDataLayoutError.OutOfMemory) ×
        (answered_by a ≡ refusal (data_layout_error_name error.now))) }
{
    match error {
        TargetDataLayoutError::OutOfMemory => Err(AllocError),
        _ => refusal(alloc, data_layout_error_name(error)),
    }
}

/// The answer to a type that was laid out.
fn answer_laid<T: Report>(
    alloc: Global,
    dl: &TargetDataLayout,
    laid: &Laid,
) -> Result<Answer, AllocError>
    requires { IsLaidOut dl.now laid.now }
    ensures { IfOk result (λ a. (text : List ℕ) × T.reports dl.now (placed_of laid.now) text ×
        (answered_by a ≡ output_of_text text)) }
{
    let text = T::report_text(alloc, dl, laid)?;
    Ok(Answer { text, status: 0 })
}

/// The answer to a type under a data layout.
fn answer_tree<T: Report>(
    alloc: Global,
    dl: &TargetDataLayout,
    tree: &TypeTree,
) -> Result<Answer, AllocError>
    ensures { IfOk result (λ a. IsOutputOfTree T.reports dl.now (tree_of tree.now) (answered_by a)) }
{
    match lay_out(alloc, dl, tree) {
        Ok(laid) => answer_laid::<T>(alloc, dl, &laid),
        Err(error) => answer_error(alloc, error),
    }
}

/// The answer to the line of a type, under a data layout.
fn answer_type<T: Report>(
    alloc: Global,
    dl: &TargetDataLayout,
    line: &[u8],
) -> Result<Answer, AllocError>
    ensures { IfOk result (λ a.
        IsOutputOfType T.reports dl.now (read dl.now (words_of line.now)) (answered_by a)) }
{
    match read_type(alloc, dl, line) {
        Ok(tree) => answer_tree::<T>(alloc, dl, &tree),
        Err(fault) => answer_fault(alloc, fault),
    }
}

/// The answer to the two lines of a text: a data layout, and a type.
fn answer_text<T: Report>(alloc: Global, first: &str, second: &[u8]) -> Result<Answer, AllocError>
    ensures { IfOk result (λ a.
        IsOutputUnder T.reports (data_layout_of first.now) second.now (answered_by a)) }
{
    match read_data_layout(alloc, first) {
        Ok(dl) => answer_type::<T>(alloc, &dl, second),
        Err(error) => answer_flaw(alloc, &error),
    }
}

/// A line as text, where it is UTF-8.
fn text_of(line: &[u8]) -> Option<&str>
    ensures { MatchOption result (is_utf8 line.now ≡ false) (λ text. (is_utf8 line.now ≡ true) ×
        (text.now ≡ line.now)) }
{
    match std::str::from_utf8(line) {
        Ok(text) => Some(text),
        Err(_) => None,
    }
}

/// The answer to an input: its first line is a data layout string, its second a type, of which `T` tells. It is the
/// only one that the input has. `AllocError` where a growth of memory was refused, and no text then.
pub fn answer_input<T: Report>(alloc: Global, input: &[u8]) -> Result<Answer, AllocError>
    ensures { IfOk result (λ a. IsOutputOf T.reports input.now (answered_by a)) }
{
    let (first, second) = two_lines(input);
    match (text_of(first), text_of(second)) {
        (Some(text), Some(_)) => answer_text::<T>(alloc, text, second),
        _ => unreadable(alloc, 0),
    }
}
