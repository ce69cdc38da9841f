//! Layouts as numbers, for types as numbers.

ghost use Rattle.std.specs.Prelude.{◌≡◌, ◌<◌, ◌∷◌, [], IfOk};
ghost use Rattle.abi_tree.specs.Laid.{placed_of};
ghost use Rattle.abi_tree.specs.Placed.{layout_of};
ghost use Rattle.abi_c.specs.Numbers.FlatLayout.{flat_layout};
ghost use Rattle.abi_c.specs.Flat.{IsLayoutReply, reply_of};

use crate::laid_type::{LayoutFailure, lay_type};
use crate::numbers::write_layout;
use abi_tree::Laid;
use std::alloc::{AllocError, Global};

/// A status, and the numbers beside it.
#[derive(Drop)]
pub(crate) struct FlatAnswer {
    /// 0 for an answer, 1 for a refusal, 2 for numbers or a string that can't be read, 3 for bytes that hold no value.
    pub(crate) status: u8,
    /// The numbers.
    pub(crate) numbers: Vec<u64>,
}

/// A status with one number.
pub(crate) fn one_number(alloc: Global, status: u8, number: u8) -> Result<FlatAnswer, AllocError>
    ensures { IfOk result (λ a. reply_of a ≡ record { status = status; numbers = number ∷ [] }) }
{
    let mut numbers = Vec::new(alloc);
    numbers.push(u64::from(number))?;
    Ok(FlatAnswer { status, numbers })
}

/// The answer to a type that was laid out.
fn laid_numbers(alloc: Global, laid: &Laid) -> Result<FlatAnswer, AllocError>
    requires { (layout_of (placed_of laid.now)).align.abi < 64 }
    ensures { IfOk result (λ a. reply_of a ≡
        record { status = 0; numbers = flat_layout (placed_of laid.now) }) }
{
    Ok(FlatAnswer {
        status: 0,
        numbers: write_layout(alloc, laid)?,
    })
}

/// The answer to the numbers of a type under the data layout of a string. `AllocError` where a growth of memory was
/// refused.
pub(crate) fn answer_numbers(
    alloc: Global,
    string: &[u8],
    tree: &[u64],
) -> Result<FlatAnswer, AllocError>
    ensures { IfOk result (λ a. IsLayoutReply string.now tree.now (reply_of a)) }
{
    match lay_type(alloc, string, tree) {
        Ok(laid) => laid_numbers(alloc, &laid),
        Err(LayoutFailure::Refused { status, number }) => one_number(alloc, status, number),
        Err(LayoutFailure::OutOfMemory) => Err(AllocError),
    }
}
