//! What a type says of itself beside its layout.

ghost use Rattle.std.specs.Prelude.{◌≡◌};
ghost use Rattle.abi_tree.specs.Mark.{mark_of};

use abi_scalar::{ReprFlags, ReprOptions};
use bitflags::Flags;

/// What a type is, as its node keeps it.
#[derive(Clone, Copy, PartialEq, Eq)]
pub enum Mark {
    /// None of the others: a number, an array, a vector, a coroutine or a state of one.
    Plain,
    /// The type without a value.
    Never,
    /// The tuple of no types.
    Unit,
    /// A struct, a union or an enum, or a variant of one.
    Adt {
        /// It is an enum, or a variant of one.
        is_enum: bool,
        /// It is laid out as its one field that isn't of no bytes and no alignment.
        is_transparent: bool,
        /// It is passed by a pointer where the calling convention isn't Rust's.
        is_passed_indirectly: bool,
    },
}

impl Mark {
    /// That of a struct, a union or an enum with this repr.
    pub fn of(is_enum: bool, repr: &ReprOptions) -> Mark
        ensures { result ≡ mark_of is_enum repr.now }
    {
        Mark::Adt {
            is_enum,
            is_transparent: repr.transparent(),
            is_passed_indirectly: repr
                .flags
                .contains(ReprFlags::PASS_INDIRECTLY_IN_NON_RUSTIC_ABIS),
        }
    }
}
