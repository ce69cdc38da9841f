//! Types laid out from numbers.

ghost use Rattle.std.specs.Prelude.{◌≡◌, ◌≢◌, ◌∷◌, [], IfErr, IfOk, Ok};
ghost use Rattle.abi_base.specs.declared.data_layout.TargetDataLayout.{TargetDataLayout as Target};
ghost use Rattle.abi_tree.specs.Laid.{placed_of};
ghost use Rattle.abi_tree.specs.Tree.{Tree, tree_of};
ghost use Rattle.abi_text.specs.DataLayoutLine.{data_layout_of};
ghost use Rattle.rustc_abi.specs.declared.error.LayError.{LayError};
ghost use Rattle.abi_c.specs.Flat.{AreNumbersOf, IsLayingReply, IsLayoutReply, IsReplyIn, IsReplyOf, data_layout_error_number, refusal_number};
ghost use Rattle.abi_c.specs.LaidType.{FailsAs, IsLaidFrom, IsLaidType};

use crate::numbers::{ReadError, read_tree};
use abi_base::{TargetDataLayout, TargetDataLayoutError};
use abi_text::read_data_layout;
use abi_tree::{Laid, TypeTree};
use rustc_abi::{LayError, lay_out};
use std::alloc::Global;

/// Why there is no laid-out type.
#[derive(Clone, Copy)]
pub(crate) enum LayoutFailure {
    /// A status, and a number beside it.
    Refused { status: u8, number: u8 },
    /// A growth of memory was refused.
    OutOfMemory,
}

/// The number of why a type has no layout.
fn refusal_number(error: LayError) -> u8
    ensures { result ≡ refusal_number error }
{
    match error {
        LayError::OutOfMemory => 0,
        LayError::UnlawfulDataLayout => 1,
        LayError::BadIndex => 2,
        LayError::UnknownSpace => 3,
        LayError::BadRange => 4,
        LayError::BadAlign => 5,
        LayError::DuplicateDiscriminant => 6,
        LayError::DiscriminantTooWide => 7,
        LayError::NoState => 8,
        LayError::LocalTwice => 9,
        LayError::UnexpectedUnsized => 10,
        LayError::SizeOverflow => 11,
        LayError::EmptyUnion => 12,
        LayError::ReprConflict => 13,
        LayError::ZeroLengthSimdType => 14,
        LayError::OversizedSimdType => 15,
        LayError::NonPrimitiveSimdType => 16,
        LayError::BadOrder => 17,
    }
}

/// The number of what is wrong with a data layout string.
fn data_layout_error_number(error: &TargetDataLayoutError<'_>) -> u8
    ensures { result ≡ data_layout_error_number error.now }
{
    match error {
        TargetDataLayoutError::InvalidAddressSpace { .. } => 32,
        TargetDataLayoutError::InvalidBits { .. } => 33,
        TargetDataLayoutError::MissingAlignment { .. } => 34,
        TargetDataLayoutError::InvalidAlignment { .. } => 35,
        TargetDataLayoutError::UnknownPointerSpecification { .. } => 36,
        TargetDataLayoutError::OutOfMemory => 0,
        _ => 37,
    }
}

/// Why a type that was refused has no layout.
fn refusal_of(error: LayError) -> LayoutFailure
    ensures { FailsAs (λ reply. (error ≢ LayError.OutOfMemory) ×
        (reply ≡ record { status = 1; numbers = refusal_number error ∷ [] })) result }
{
    match error {
        LayError::OutOfMemory => LayoutFailure::OutOfMemory,
        _ => LayoutFailure::Refused {
            status: 1,
            number: refusal_number(error),
        },
    }
}

/// Why no type has a layout under a data layout string that has a fault.
fn flaw_of(error: &TargetDataLayoutError<'_>) -> LayoutFailure
    ensures { FailsAs (λ reply. (error.now ≢ TargetDataLayoutError.OutOfMemory) ×
        (reply ≡ record { status = 1; numbers = data_layout_error_number error.now ∷ [] })) result }
{
    match error {
        TargetDataLayoutError::OutOfMemory => LayoutFailure::OutOfMemory,
        _ => LayoutFailure::Refused {
            status: 1,
            number: data_layout_error_number(error),
        },
    }
}

/// Lays out a type.
fn lay_tree(alloc: Global, dl: &TargetDataLayout, tree: &TypeTree) -> Result<Laid, LayoutFailure>
    ensures ok { IfOk result (IsLaidFrom dl.now (tree_of tree.now)) }
    ensures err { IfErr result (FailsAs (IsLayingReply dl.now (tree_of tree.now))) }
{
    match lay_out(alloc, dl, tree) {
        Ok(laid) => Ok(laid),
        Err(error) => Err(refusal_of(error)),
    }
}

/// Lays out the type with these numbers.
fn lay_numbers(alloc: Global, dl: &TargetDataLayout, tree: &[u64]) -> Result<Laid, LayoutFailure>
    ensures ok { IfOk result (λ laid. (t : Tree) × AreNumbersOf tree.now t × IsLaidFrom dl.now t laid) }
    ensures err { IfErr result (FailsAs (IsReplyOf (IsLayingReply dl.now) tree.now)) }
{
    match read_tree(alloc, tree) {
        Ok(tree) => lay_tree(alloc, dl, &tree),
        Err(ReadError::Unreadable) => Err(LayoutFailure::Refused {
            status: 2,
            number: 1,
        }),
        Err(ReadError::OutOfMemory) => Err(LayoutFailure::OutOfMemory),
    }
}

/// Lays out the type with these numbers under the data layout of a text.
fn lay_under(alloc: Global, string: &str, tree: &[u64]) -> Result<Laid, LayoutFailure>
    ensures ok { IfOk result (λ laid. (dl : Target) × (t : Tree) ×
        (data_layout_of string.now ≡ Ok dl) × AreNumbersOf tree.now t × IsLaidFrom dl t laid) }
    ensures err { IfErr result (FailsAs (IsReplyIn (λ dl. IsReplyOf (IsLayingReply dl) tree.now)
        (data_layout_of string.now))) }
{
    match read_data_layout(alloc, string) {
        Ok(dl) => lay_numbers(alloc, &dl, tree),
        Err(error) => Err(flaw_of(&error)),
    }
}

/// Lays out the type with these numbers under the data layout of a string.
pub(crate) fn lay_type(alloc: Global, string: &[u8], tree: &[u64]) -> Result<Laid, LayoutFailure>
    ensures ok { IfOk result (λ laid. (dl : Target) × (t : Tree) ×
        IsLaidType string.now tree.now dl t (placed_of laid) × IsLaidFrom dl t laid) }
    ensures err { IfErr result (FailsAs (IsLayoutReply string.now tree.now)) }
{
    match std::str::from_utf8(string) {
        Ok(text) => lay_under(alloc, text, tree),
        Err(_) => Err(LayoutFailure::Refused {
            status: 2,
            number: 0,
        }),
    }
}
