//! Why a tree has no layout.

use abi_scalar::LayoutCalculatorError;
use std::alloc::{AllocError, AllocFailed};
use std::error::Error;
use std::fmt;
use std::fmt::Display;

/// Why `lay_out` answers no layout: the first fault of the tree, children first, or a that memory ran out.
#[derive(Clone, Copy, PartialEq, Eq, Debug)]
pub enum LayError {
    /// The data layout isn't lawful, so that no type has a layout under it.
    UnlawfulDataLayout,
    /// A list has more items than its index type can name, or a state or a conflict of a coroutine
    /// names a local that isn't there.
    BadIndex,
    /// A scalar is a pointer into a space that the data layout doesn't know, or whose pointers aren't lawful.
    UnknownSpace,
    /// An end of a scalar's range is no number of its width.
    BadRange,
    /// An alignment that a repr names is above 2^29 bytes.
    BadAlign,
    /// Two variants of an enum have one discriminant.
    DuplicateDiscriminant,
    /// A discriminant is no number of the type of the enum's discriminants.
    DiscriminantTooWide,
    /// A coroutine has no state, of which it needs one at least.
    NoState,
    /// A state of a coroutine holds a local twice.
    LocalTwice,
    /// A field that has to be sized is unsized, as none in a tree is.
    UnexpectedUnsized,
    /// A size is not below the data layout's bound.
    SizeOverflow,
    /// A union has no fields, of which the language asks for one.
    EmptyUnion,
    /// An enum is packed, which the language doesn't have.
    ReprConflict,
    /// A vector has no lane, of which it needs one at least.
    ZeroLengthSimdType,
    /// A vector has more lanes than the greatest number.
    OversizedSimdType,
    /// A vector's element isn't seen as one scalar.
    NonPrimitiveSimdType,
    /// An order that is handed in isn't one of the struct's fields, moves a last one that may lose its size, or stands
    /// beside a repr that fixes the order.
    BadOrder,
    /// A growth of memory was refused, which says nothing of the tree.
    OutOfMemory,
}

impl Display for LayError {
    ghost use Rattle.std.specs.Prelude.{ℕ, List, Some, codes};
    ghost use Rattle.rustc_abi.specs.declared.error.LayError.TheVariants as refusal;

    ghost output = { λ error. Some (elim error as (λ _. List ℕ) [
      | refusal.UnlawfulDataLayout ↦ codes "the data layout is not lawful"
      | refusal.BadIndex ↦ codes "a list is too long, or an index names no local"
      | refusal.UnknownSpace ↦ codes "a pointer into an unknown address space"
      | refusal.BadRange ↦ codes "an end of a range does not fit its width"
      | refusal.BadAlign ↦ codes "an alignment is above 2^29 bytes"
      | refusal.DuplicateDiscriminant ↦ codes "two variants have one discriminant"
      | refusal.DiscriminantTooWide ↦ codes "a discriminant does not fit its type"
      | refusal.NoState ↦ codes "a coroutine has no state"
      | refusal.LocalTwice ↦ codes "a state holds a local twice"
      | refusal.UnexpectedUnsized ↦ codes "an unsized type was found where a sized type was expected"
      | refusal.SizeOverflow ↦ codes "size overflow"
      | refusal.EmptyUnion ↦ codes "type is a union with no fields"
      | refusal.ReprConflict ↦ codes "type has an invalid repr"
      | refusal.ZeroLengthSimdType ↦ codes "invalid simd type definition"
      | refusal.OversizedSimdType ↦ codes "invalid simd type definition"
      | refusal.NonPrimitiveSimdType ↦ codes "invalid simd type definition"
      | refusal.BadOrder ↦ codes "field order is not allowed"
      | refusal.OutOfMemory ↦ codes "out of memory"
    ]) };

    /// What is wrong; what the calculator refuses in its words.
    fn fmt<W: fmt::Write>(&self, f: &mut fmt::Formatter<W>) -> fmt::Result {
        f.write_str(match self {
            LayError::UnlawfulDataLayout => "the data layout is not lawful",
            LayError::BadIndex => "a list is too long, or an index names no local",
            LayError::UnknownSpace => "a pointer into an unknown address space",
            LayError::BadRange => "an end of a range does not fit its width",
            LayError::BadAlign => "an alignment is above 2^29 bytes",
            LayError::DuplicateDiscriminant => "two variants have one discriminant",
            LayError::DiscriminantTooWide => "a discriminant does not fit its type",
            LayError::NoState => "a coroutine has no state",
            LayError::LocalTwice => "a state holds a local twice",
            LayError::UnexpectedUnsized =>
                "an unsized type was found where a sized type was expected",
            LayError::SizeOverflow => "size overflow",
            LayError::EmptyUnion => "type is a union with no fields",
            LayError::ReprConflict => "type has an invalid repr",
            LayError::ZeroLengthSimdType => "invalid simd type definition",
            LayError::OversizedSimdType => "invalid simd type definition",
            LayError::NonPrimitiveSimdType => "invalid simd type definition",
            LayError::BadOrder => "field order is not allowed",
            LayError::OutOfMemory => "out of memory",
        })
    }
}

impl Error for LayError {}

impl From<AllocError> for LayError {
    ghost use Rattle.std.specs.Prelude.{◌≡◌};
    ghost use Rattle.rustc_abi.specs.declared.error.LayError.TheVariants.{OutOfMemory};

    ghost from_gives = { λ _ error. error ≡ OutOfMemory };

    fn from(_error: AllocError) -> Self {
        LayError::OutOfMemory
    }
}

impl<T: Drop> From<AllocFailed<T>> for LayError {
    ghost use Rattle.std.specs.Prelude.{◌≡◌};
    ghost use Rattle.rustc_abi.specs.declared.error.LayError.TheVariants.{OutOfMemory};

    ghost from_gives = { λ _ error. error ≡ OutOfMemory };

    fn from(_error: AllocFailed<T>) -> Self {
        LayError::OutOfMemory
    }
}

impl<F: Drop> From<LayoutCalculatorError<F>> for LayError {
    ghost use Rattle.std.specs.Prelude.{◌≡◌};
    ghost use Rattle.rustc_abi.specs.Error.{lay_error};

    ghost from_gives = { λ refused error. error ≡ lay_error refused };

    fn from(refused: LayoutCalculatorError<F>) -> Self {
        match refused {
            LayoutCalculatorError::UnexpectedUnsized(_) => LayError::UnexpectedUnsized,
            LayoutCalculatorError::SizeOverflow => LayError::SizeOverflow,
            LayoutCalculatorError::EmptyUnion => LayError::EmptyUnion,
            LayoutCalculatorError::ReprConflict => LayError::ReprConflict,
            LayoutCalculatorError::ZeroLengthSimdType => LayError::ZeroLengthSimdType,
            LayoutCalculatorError::OversizedSimdType { .. } => LayError::OversizedSimdType,
            LayoutCalculatorError::NonPrimitiveSimdType(_) => LayError::NonPrimitiveSimdType,
            LayoutCalculatorError::BadOrder => LayError::BadOrder,
            LayoutCalculatorError::OutOfMemory => LayError::OutOfMemory,
        }
    }
}
