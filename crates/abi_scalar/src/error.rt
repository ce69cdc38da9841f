//! Why a type has no layout.

ghost use Rattle.std.specs.Prelude.{◌≡◌, Some};
ghost use Rattle.std.specs.Fmt.{WritesOnOk};
ghost use Rattle.abi_scalar.specs.LayoutError.{bare_error, fallback_text};

use std::alloc::AllocError;
use std::error::Error;
use std::fmt;
use std::fmt::{Debug, Display};

/// Why a type has no layout; with the field that was refused, where there is one.
#[derive(Clone, Copy, PartialEq, Eq, Debug)]
pub enum LayoutCalculatorError<F> {
    /// A field that has to be sized is unsized: this one.
    UnexpectedUnsized(F),
    /// The size is not below the data layout's bound.
    SizeOverflow,
    /// A union has no fields, of which the language asks for one.
    EmptyUnion,
    /// An enum is packed, which the language doesn't have.
    ReprConflict,
    /// A vector has no lane, of which it needs one at least.
    ZeroLengthSimdType,
    /// A vector has more lanes than the greatest number.
    OversizedSimdType {
        /// The greatest number of lanes.
        max_lanes: usize,
    },
    /// A vector's element is no scalar: this one.
    NonPrimitiveSimdType(F),
    /// An order that is handed in names a field twice or not at all, or moves a last field that may be unsized.
    BadOrder,
    /// A growth of memory was refused, which says nothing of the type.
    OutOfMemory,
}

impl<F> LayoutCalculatorError<F> {
    /// The same refusal without the field that it names, for messages and comparison.
    pub fn without_payload(&self) -> LayoutCalculatorError<()>
        ensures { result ≡ bare_error self.now }
    {
        match self {
            LayoutCalculatorError::UnexpectedUnsized(_) => {
                LayoutCalculatorError::UnexpectedUnsized(())
            }
            LayoutCalculatorError::SizeOverflow => LayoutCalculatorError::SizeOverflow,
            LayoutCalculatorError::EmptyUnion => LayoutCalculatorError::EmptyUnion,
            LayoutCalculatorError::ReprConflict => LayoutCalculatorError::ReprConflict,
            LayoutCalculatorError::ZeroLengthSimdType => LayoutCalculatorError::ZeroLengthSimdType,
            LayoutCalculatorError::OversizedSimdType { max_lanes } => {
                LayoutCalculatorError::OversizedSimdType {
                    max_lanes: *max_lanes,
                }
            }
            LayoutCalculatorError::NonPrimitiveSimdType(_) => {
                LayoutCalculatorError::NonPrimitiveSimdType(())
            }
            LayoutCalculatorError::BadOrder => LayoutCalculatorError::BadOrder,
            LayoutCalculatorError::OutOfMemory => LayoutCalculatorError::OutOfMemory,
        }
    }

    /// Writes in plain words what is wrong.
    pub fn fallback_fmt<W: fmt::Write>(&self, f: &mut fmt::Formatter<W>) -> fmt::Result
        ensures { WritesOnOk W.write_str_gives f.old result (fallback_text self.now) f.new }
    {
        f.write_str(match self {
            LayoutCalculatorError::UnexpectedUnsized(_) => {
                "an unsized type was found where a sized type was expected"
            }
            LayoutCalculatorError::SizeOverflow => "size overflow",
            LayoutCalculatorError::EmptyUnion => "type is a union with no fields",
            LayoutCalculatorError::ReprConflict => "type has an invalid repr",
            LayoutCalculatorError::ZeroLengthSimdType
            | LayoutCalculatorError::OversizedSimdType { .. }
            | LayoutCalculatorError::NonPrimitiveSimdType(_) => "invalid simd type definition",
            LayoutCalculatorError::BadOrder => "field order is not allowed",
            LayoutCalculatorError::OutOfMemory => "out of memory",
        })
    }
}

impl<F> Display for LayoutCalculatorError<F> {
    ghost output = { λ error. Some (fallback_text error) };

    /// What is wrong, in plain words.
    fn fmt<W: fmt::Write>(&self, f: &mut fmt::Formatter<W>) -> fmt::Result {
        self.fallback_fmt(f)
    }
}

impl<F: Debug + Drop> Error for LayoutCalculatorError<F> {}

impl<F> From<AllocError> for LayoutCalculatorError<F> {
    ghost use Rattle.std.specs.Prelude.{◌≡◌};
    ghost use Rattle.abi_scalar.specs.declared.error.LayoutCalculatorError.TheVariants.{OutOfMemory};

    ghost from_gives = { λ _ error. error ≡ OutOfMemory };

    fn from(_error: AllocError) -> Self {
        LayoutCalculatorError::OutOfMemory
    }
}
