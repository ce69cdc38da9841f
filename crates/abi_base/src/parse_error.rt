//! Why a text is no data layout string.

ghost use Rattle.std.specs.Prelude.{Some};
ghost use Rattle.abi_base.specs.ErrorText.{data_layout_error_text};

use crate::align::AlignFromBytesError;
use crate::parse_number::NumberError;
use std::alloc::AllocError;
use std::error::Error;
use std::fmt;
use std::fmt::Display;

/// Why a text is no data layout string. Texts are parts of the one that was read. A cause says
/// where the fault stands: the word of the spec, `P`, `i`, `v`, or `p-` for pointers.
#[derive(PartialEq, Eq, Debug, Drop)]
pub enum TargetDataLayoutError<'a> {
    /// The text is no number of an address space, which has 32 bits.
    InvalidAddressSpace {
        /// The text that can't be read.
        addr_space: &'a str,
        /// `P`, or `p-` for pointers.
        cause: &'a str,
        /// Why it is no number.
        err: NumberError,
    },
    /// The text is no number of bits, which has 64 bits itself.
    InvalidBits {
        /// What it was to be: `size` or `alignment`.
        kind: &'a str,
        /// The text that can't be read.
        bit: &'a str,
        /// Where it stands.
        cause: &'a str,
        /// Why it is no number.
        err: NumberError,
    },
    /// A spec ends where its alignment should follow.
    MissingAlignment {
        /// Which spec it is.
        cause: &'a str,
    },
    /// A number of bits is no alignment.
    InvalidAlignment {
        /// Which spec it is.
        cause: &'a str,
        /// Why it is none, in bytes.
        err: AlignFromBytesError,
    },
    /// The data layout isn't that of the target. Never answered by the parser.
    InconsistentTargetArchitecture {
        /// The data layout's byte order.
        dl: &'a str,
        /// The target's.
        target: &'a str,
    },
    /// The pointers aren't as wide as the target's. Never answered by the parser.
    InconsistentTargetPointerWidth {
        /// The bits of the data layout's pointers.
        pointer_size: u64,
        /// The bits of the target's pointers.
        target: u16,
    },
    /// A number of bits that can't be. Never answered by the parser.
    InvalidBitsSize {
        /// Why it can't be.
        err: &'a str,
    },
    /// A pointer spec begins with a letter that none has.
    UnknownPointerSpecification {
        /// What follows the `p`, or the `pf` of fat pointers, up to the first `:`.
        err: &'a str,
    },
    /// A growth of memory was refused, which says nothing of the text.
    OutOfMemory,
}

impl<'a> Display for TargetDataLayoutError<'a> {
    ghost output = { λ error. Some (data_layout_error_text error) };

    /// What is wrong, of which spec, and why.
    fn fmt<W: fmt::Write>(&self, f: &mut fmt::Formatter<W>) -> fmt::Result {
        match self {
            Self::InvalidAddressSpace {
                addr_space,
                cause,
                err,
            } => write!(f, "address space \"{addr_space}\" of \"{cause}\": {err}"),
            Self::InvalidBits {
                kind,
                bit,
                cause,
                err,
            } => write!(f, "{kind} \"{bit}\" of \"{cause}\": {err}"),
            Self::MissingAlignment { cause } => write!(f, "no alignment of \"{cause}\""),
            Self::InvalidAlignment { cause, err } => write!(f, "alignment of \"{cause}\": {err}"),
            Self::InconsistentTargetArchitecture { dl, target } => write!(
                f,
                "byte order {dl}, not {target}"
            ),
            Self::InconsistentTargetPointerWidth {
                pointer_size,
                target,
            } => write!(f, "pointers of {pointer_size}, not {target} bits"),
            Self::InvalidBitsSize { err } => f.write_str(err),
            Self::UnknownPointerSpecification { err } => write!(
                f,
                "unknown kind of pointers \"{err}\""
            ),
            Self::OutOfMemory => f.write_str("out of memory"),
        }
    }
}

impl<'a> Error for TargetDataLayoutError<'a> {}

impl<'a> From<AllocError> for TargetDataLayoutError<'a> {
    ghost use Rattle.std.specs.Prelude.{◌≡◌};
    ghost use Rattle.abi_base.specs.declared.parse_error.TargetDataLayoutError.TheVariants.{OutOfMemory};

    ghost from_gives = { λ _ error. error ≡ OutOfMemory };

    fn from(_error: AllocError) -> Self {
        TargetDataLayoutError::OutOfMemory
    }
}
