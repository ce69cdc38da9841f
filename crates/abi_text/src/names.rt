//! The names of refusals, as they are written.

ghost use Rattle.std.specs.Prelude.{◌≡◌};
ghost use Rattle.abi_text.specs.Names.{data_layout_error_name, error_name};

use abi_base::TargetDataLayoutError;
use rustc_abi::LayError;

/// The name by which the refusal of a type is written: that of its variant.
pub fn error_name(error: LayError) -> &'static str
    ensures { result.now ≡ error_name error }
{
    match error {
        LayError::UnlawfulDataLayout => "UnlawfulDataLayout",
        LayError::BadIndex => "BadIndex",
        LayError::UnknownSpace => "UnknownSpace",
        LayError::BadRange => "BadRange",
        LayError::BadAlign => "BadAlign",
        LayError::DuplicateDiscriminant => "DuplicateDiscriminant",
        LayError::DiscriminantTooWide => "DiscriminantTooWide",
        LayError::NoState => "NoState",
        LayError::LocalTwice => "LocalTwice",
        LayError::UnexpectedUnsized => "UnexpectedUnsized",
        LayError::SizeOverflow => "SizeOverflow",
        LayError::EmptyUnion => "EmptyUnion",
        LayError::ReprConflict => "ReprConflict",
        LayError::ZeroLengthSimdType => "ZeroLengthSimdType",
        LayError::OversizedSimdType => "OversizedSimdType",
        LayError::NonPrimitiveSimdType => "NonPrimitiveSimdType",
        LayError::BadOrder => "BadOrder",
        LayError::OutOfMemory => "OutOfMemory",
    }
}

/// The name by which a fault of a data layout string is written: that of its variant.
pub fn data_layout_error_name(error: &TargetDataLayoutError<'_>) -> &'static str
    ensures { result.now ≡ data_layout_error_name error.now }
{
    match error {
        TargetDataLayoutError::InvalidAddressSpace { .. } => "InvalidAddressSpace",
        TargetDataLayoutError::InvalidBits { .. } => "InvalidBits",
        TargetDataLayoutError::MissingAlignment { .. } => "MissingAlignment",
        TargetDataLayoutError::InvalidAlignment { .. } => "InvalidAlignment",
        TargetDataLayoutError::InconsistentTargetArchitecture { .. } => {
            "InconsistentTargetArchitecture"
        }
        TargetDataLayoutError::InconsistentTargetPointerWidth { .. } => {
            "InconsistentTargetPointerWidth"
        }
        TargetDataLayoutError::InvalidBitsSize { .. } => "InvalidBitsSize",
        TargetDataLayoutError::UnknownPointerSpecification { .. } => "UnknownPointerSpecification",
        TargetDataLayoutError::OutOfMemory => "OutOfMemory",
    }
}
