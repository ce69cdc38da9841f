//! Why numbers can't be read.

use std::alloc::{AllocError, AllocFailed};

/// Why numbers can't be read.
#[derive(Clone, Copy, PartialEq, Eq, Debug)]
pub(crate) enum ReadError {
    /// They stand for nothing, or for what is nested too deep.
    Unreadable,
    /// A growth of memory was refused.
    OutOfMemory,
}

impl From<AllocError> for ReadError {
    ghost use Rattle.std.specs.Prelude.{◌≡◌};
    ghost use Rattle.abi_c.specs.declared.numbers.error.ReadError.TheVariants.{OutOfMemory};

    ghost from_gives = { λ _ error. error ≡ OutOfMemory };

    fn from(_error: AllocError) -> Self {
        ReadError::OutOfMemory
    }
}

impl<T: Drop> From<AllocFailed<T>> for ReadError {
    ghost use Rattle.std.specs.Prelude.{◌≡◌};
    ghost use Rattle.abi_c.specs.declared.numbers.error.ReadError.TheVariants.{OutOfMemory};

    ghost from_gives = { λ _ error. error ≡ OutOfMemory };

    fn from(_error: AllocFailed<T>) -> Self {
        ReadError::OutOfMemory
    }
}
