//! Why a text has no tree.

use std::alloc::{AllocError, AllocFailed};

/// Why the words of a line are no type.
#[derive(Clone, Copy, PartialEq, Eq, Debug)]
pub enum Fault {
    /// The word of this number doesn't fit; words are numbered from 1.
    Unreadable(u64),
    /// A type stands in more than 200 others.
    TooDeep,
    /// A growth of memory was refused, which says nothing of the text.
    OutOfMemory,
}

impl From<AllocError> for Fault {
    ghost use Rattle.std.specs.Prelude.{◌≡◌};
    ghost use Rattle.abi_text.specs.declared.fault.Fault.TheVariants.{OutOfMemory};

    ghost from_gives = { λ _ error. error ≡ OutOfMemory };

    fn from(_error: AllocError) -> Self {
        Fault::OutOfMemory
    }
}

impl<T: Drop> From<AllocFailed<T>> for Fault {
    ghost use Rattle.std.specs.Prelude.{◌≡◌};
    ghost use Rattle.abi_text.specs.declared.fault.Fault.TheVariants.{OutOfMemory};

    ghost from_gives = { λ _ error. error ≡ OutOfMemory };

    fn from(_error: AllocFailed<T>) -> Self {
        Fault::OutOfMemory
    }
}
