//! Reads a data layout string.

ghost use Rattle.std.specs.Prelude.{◌≡◌, IfErr, IfOk, Ok};
ghost use Rattle.abi_base.specs.DataLayoutFault.{NamesFault};
ghost use Rattle.abi_text.specs.DataLayoutLine.{data_layout_of};

use abi_base::{AddressSpace, TargetDataLayout, TargetDataLayoutError};
use std::alloc::Global;

/// The data layout that a data layout string says, in LLVM's form, cut to what rustc reads; the empty text is the
/// default data layout. Its default address space is 0. Whether it is lawful is told when a type is laid out under it.
///
/// The error is the first fault, by the text's order: `InvalidAddressSpace`, `InvalidBits`, `MissingAlignment`,
/// `InvalidAlignment` or `UnknownPointerSpecification`; or `OutOfMemory`.
pub fn read_data_layout<'a>(
    alloc: Global,
    text: &'a str,
) -> Result<TargetDataLayout, TargetDataLayoutError<'a>>
    ensures ok { IfOk result (λ dl. data_layout_of text.now ≡ Ok dl) }
    ensures err { IfErr result (NamesFault (data_layout_of text.now)) }
{
    TargetDataLayout::parse_from_llvm_datalayout_string(alloc, text, AddressSpace::ZERO)
}
