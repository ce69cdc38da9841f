//! Why a line has no answer but a refusal.

use abi_base::TargetDataLayoutError;
use abi_scalar::LayoutCalculatorError;
use abi_text::error_name;
use rustc_abi::LayError;
use std::alloc::AllocError;

/// What is answered where a growth of memory was refused.
pub(crate) const OUT_OF_MEMORY: &str = "refused OutOfMemory";

/// The name of a refusal.
#[derive(Clone, Copy)]
pub(crate) enum Name {
    /// That of a type, or of the calculator.
    Lay(LayError),
    /// A type or a value stands in too many others.
    TooDeep,
    /// A value is none of the type's.
    NotAValue,
    /// A text is no convention's name.
    Unknown,
    /// Of a data layout string, as the next.
    InvalidAddressSpace,
    InvalidBits,
    MissingAlignment,
    InvalidAlignment,
    UnknownPointerSpecification,
    /// A data layout and a target don't agree, which no text shows.
    Inconsistent,
}

impl Name {
    /// As it is written.
    pub(crate) fn as_str(self) -> &'static str {
        match self {
            Name::Lay(error) => error_name(error),
            Name::TooDeep => "TooDeep",
            Name::NotAValue => "NotAValue",
            Name::Unknown => "Unknown",
            Name::InvalidAddressSpace => "InvalidAddressSpace",
            Name::InvalidBits => "InvalidBits",
            Name::MissingAlignment => "MissingAlignment",
            Name::InvalidAlignment => "InvalidAlignment",
            Name::UnknownPointerSpecification => "UnknownPointerSpecification",
            Name::Inconsistent => "Inconsistent",
        }
    }
}

/// What a call asks, by the name of the clause in its contract, or that a count is within the limit.
#[derive(Clone, Copy)]
pub(crate) enum Clause {
    Align,
    Any,
    Count,
    DataLayout,
    Element,
    Fields,
    Prefix,
    Random,
    Readable,
    Repr,
    Sized,
    Tail,
    Variant,
    Width,
    Within,
}

impl Clause {
    /// As it is written.
    pub(crate) fn as_str(self) -> &'static str {
        match self {
            Clause::Align => "align",
            Clause::Any => "some",
            Clause::Count => "count",
            Clause::DataLayout => "data_layout",
            Clause::Element => "element",
            Clause::Fields => "fields",
            Clause::Prefix => "prefix",
            Clause::Random => "random",
            Clause::Readable => "readable",
            Clause::Repr => "repr",
            Clause::Sized => "sized",
            Clause::Tail => "tail",
            Clause::Variant => "variant",
            Clause::Width => "width",
            Clause::Within => "within",
        }
    }
}

/// Why a line has no answer but a refusal.
#[derive(Clone, Copy)]
pub(crate) enum Refusal {
    /// The word of this number doesn't fit; words are numbered from 1.
    Unreadable(u64),
    /// The call refuses what it was given.
    Refused(Name),
    /// The call asks for something that it wasn't given.
    Asks(Clause),
    /// A growth of memory was refused.
    OutOfMemory,
}

impl From<AllocError> for Refusal {
    fn from(_error: AllocError) -> Self {
        Refusal::OutOfMemory
    }
}

impl From<LayError> for Refusal {
    fn from(error: LayError) -> Self {
        match error {
            LayError::OutOfMemory => Refusal::OutOfMemory,
            _ => Refusal::Refused(Name::Lay(error)),
        }
    }
}

/// The refusal that an error of the calculator is.
pub(crate) fn calculator<F: Drop>(error: LayoutCalculatorError<F>) -> Refusal {
    match error {
        LayoutCalculatorError::UnexpectedUnsized(_) => Refusal::from(LayError::UnexpectedUnsized),
        LayoutCalculatorError::SizeOverflow => Refusal::from(LayError::SizeOverflow),
        LayoutCalculatorError::EmptyUnion => Refusal::from(LayError::EmptyUnion),
        LayoutCalculatorError::ReprConflict => Refusal::from(LayError::ReprConflict),
        LayoutCalculatorError::ZeroLengthSimdType => Refusal::from(LayError::ZeroLengthSimdType),
        LayoutCalculatorError::OversizedSimdType { .. } => Refusal::from(
            LayError::OversizedSimdType,
        ),
        LayoutCalculatorError::NonPrimitiveSimdType(_) => {
            Refusal::from(LayError::NonPrimitiveSimdType)
        }
        LayoutCalculatorError::BadOrder => Refusal::from(LayError::BadOrder),
        LayoutCalculatorError::OutOfMemory => Refusal::OutOfMemory,
    }
}

/// The refusal that a fault of a data layout string is.
pub(crate) fn data_layout(error: &TargetDataLayoutError<'_>) -> Refusal {
    Refusal::Refused(match error {
        TargetDataLayoutError::InvalidAddressSpace { .. } => Name::InvalidAddressSpace,
        TargetDataLayoutError::InvalidBits { .. } => Name::InvalidBits,
        TargetDataLayoutError::MissingAlignment { .. } => Name::MissingAlignment,
        TargetDataLayoutError::InvalidAlignment { .. } => Name::InvalidAlignment,
        TargetDataLayoutError::UnknownPointerSpecification { .. } => {
            Name::UnknownPointerSpecification
        }
        TargetDataLayoutError::OutOfMemory => return Refusal::OutOfMemory,
        _ => Name::Inconsistent,
    })
}
