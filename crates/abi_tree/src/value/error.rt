//! Why a value wasn't written.

ghost use Rattle.std.specs.Prelude.{Some};
ghost use Rattle.abi_tree.specs.ErrorText.{value_error_text};

use std::alloc::AllocError;
use std::error::Error;
use std::fmt;
use std::fmt::Display;

/// Why a value wasn't written to bytes.
#[derive(Clone, Copy, PartialEq, Eq, Debug)]
pub enum ValueError {
    /// The value is none of the type's.
    NotAValue,
    /// A growth of memory was refused, which says nothing of the value.
    OutOfMemory,
}

impl Display for ValueError {
    ghost output = { λ error. Some (value_error_text error) };

    /// Why it wasn't written.
    fn fmt<W: fmt::Write>(&self, f: &mut fmt::Formatter<W>) -> fmt::Result {
        f.write_str(match self {
            ValueError::NotAValue => "not a value of the type",
            ValueError::OutOfMemory => "out of memory",
        })
    }
}

impl Error for ValueError {}

impl From<AllocError> for ValueError {
    ghost use Rattle.std.specs.Prelude.{◌≡◌};
    ghost use Rattle.abi_tree.specs.declared.value.error.ValueError.TheVariants.{OutOfMemory};

    ghost from_gives = { λ _ error. error ≡ OutOfMemory };

    fn from(_error: AllocError) -> Self {
        ValueError::OutOfMemory
    }
}
