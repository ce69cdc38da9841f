//! Why a source, or a type of it, has no tree.

ghost use Rattle.std.specs.Prelude.{◌≡◌, Some};
ghost use Rattle.abi_rust.specs.Meaning.{is_beside, is_want};
ghost use Rattle.abi_rust.specs.Reprs.{is_want_of_memory};

use rust_source::{IntegerKind, Place, SourceFaultKind, Symbol, Unevaluated};
use rustc_abi::LayError;
use std::alloc::{AllocError, AllocFailed};

/// Where a fault stands: in which of the files that were read, in their order, or in another text that the caller handed
/// in, and how many bytes behind its beginning.
#[derive(Clone, Copy, PartialEq, Eq)]
pub enum FaultPlace {
    /// In the file of this index, behind so many bytes.
    File(usize, u32),
    /// Behind this many bytes of the text that writes a type.
    Argument(u32),
    /// At no place of these.
    Nowhere,
}

/// What is wrong with a source, or with a type of it.
#[derive(Clone, Copy)]
pub enum FaultKind {
    /// A growth of memory was refused, which says nothing of the source.
    OutOfMemory,
    /// The text can't be read.
    Source(SourceFaultKind),
    /// Two types of a module have this name.
    RepeatedType(Symbol),
    /// Two constants of a module have this name.
    RepeatedConstant(Symbol),
    /// No type has this name.
    UnknownType(Symbol),
    /// No constant has this name.
    UnknownConstant(Symbol),
    /// What this name is comes, or may come, from what isn't read here.
    UnknownOrigin(Symbol),
    /// What has this name may not be used where it is.
    Private(Symbol),
    /// Several have this name.
    Ambiguous(Symbol),
    /// This name is no type's, but a constant's or a module's.
    NotAType(Symbol),
    /// This type is given another number of arguments than it has parameters, or fewer than have no default.
    WrongArguments(Symbol),
    /// An argument is a constant where the parameter is a type, or the other way round.
    WrongKindOfArgument,
    /// An argument names an associated type.
    Binding,
    /// What isn't evaluated here stands where a type or a value is needed.
    Unevaluated(Unevaluated),
    /// Types or constants need one another more than 200 deep, or a constant needs itself.
    TooDeep,
    /// What has to be looked at is more than the bound.
    TooLarge,
    /// A type contains itself without a pointer.
    Recursive(Symbol),
    /// A type has no size of its own where it needs one.
    Unsized,
    /// A value isn't of the type that is wanted.
    WrongType,
    /// A variant is cast to what is no integer, or where a variant of its enum has fields.
    EnumCast,
    /// A value doesn't fit its type.
    Overflow(IntegerKind),
    /// A division by zero.
    DivisionByZero,
    /// An alignment that a repr names is no power of two or above 2^29.
    BadAlignment,
    /// `transparent` beside another repr.
    TransparentBeside,
    /// `transparent` on a type of several fields that take room, or on an enum of another number of variants than one.
    TransparentFields,
    /// `packed` beside `align`.
    PackedAndAligned,
    /// `packed` with several sizes.
    PackedApart,
    /// `packed` on an enum.
    PackedEnum,
    /// An integer as the repr of a struct or a union.
    IntegerRepr,
    /// `transparent` on a union, which the stable language hasn't.
    TransparentUnion,
    /// An integer beside `C` as the repr of an enum whose variants are names alone.
    IntegerBesideC,
    /// A repr of an enum without variants.
    ReprWithoutVariants,
    /// A packed type contains one with `align`.
    AlignedInPacked,
    /// `Rust` beside `C` or an integer.
    RustBeside,
    /// A discriminant in an enum of which a variant has fields, and no integer as its repr.
    DiscriminantWithoutRepr,
    /// A parameter, or `Self` of an item that has some, in a constant of a type, where it doesn't stand alone.
    ParameterInConstant,
    /// `simd`, which the stable language hasn't.
    Simd,
    /// A union without fields.
    EmptyUnion,
    /// A union's field is of a type that isn't `Copy`, and no reference and no `ManuallyDrop`.
    UnionField,
    /// The type whose size is asked for has no layout.
    Layout(LayError),
}

/// What is wrong with a source or a type of it, and at which byte.
#[derive(Clone, Copy)]
pub struct Fault {
    /// Where it stands.
    pub at: FaultPlace,
    /// What it is.
    pub kind: FaultKind,
}

impl Fault {
    /// Whether a growth of memory was refused, which says nothing of the source.
    pub fn is_out_of_memory(&self) -> bool
        ensures { result ≡ is_want_of_memory self.now.kind }
    {
        match self.kind {
            FaultKind::OutOfMemory => true,
            FaultKind::Source(SourceFaultKind::OutOfMemory) => true,
            FaultKind::Layout(LayError::OutOfMemory) => true,
            _ => false,
        }
    }
}

/// Why work stopped.
#[derive(Clone, Copy)]
pub(crate) enum Stop {
    /// A fault, and its place in the sources, if it has one.
    Fault(Option<Place>, FaultKind),
    /// The size of a type has to be known first.
    Size,
}

impl Stop {
    /// Whether memory or parts that may be looked at are wanting, which says nothing of the source.
    pub(crate) fn is_beside(self) -> bool
        ensures { result ≡ is_beside self }
    {
        match self {
            Stop::Fault(_, kind) => is_want(kind),
            Stop::Size => false,
        }
    }
}

/// Whether it is such a want.
fn is_want(kind: FaultKind) -> bool
    ensures { result ≡ is_want kind }
{
    match kind {
        FaultKind::OutOfMemory => true,
        FaultKind::TooLarge => true,
        FaultKind::Layout(LayError::OutOfMemory) => true,
        _ => false,
    }
}

/// A fault at a place.
pub(crate) fn stop_at(at: Place, kind: FaultKind) -> Stop
    ensures { result ≡ Stop.Fault (Some at) kind }
{
    Stop::Fault(Some(at), kind)
}

impl From<AllocError> for Stop {
    ghost use Rattle.std.specs.Prelude.{None};
    ghost use Rattle.abi_rust.specs.declared.fault.FaultKind.TheVariants.{OutOfMemory};
    ghost use Rattle.abi_rust.specs.declared.fault.Stop.TheVariants.{Fault};

    ghost from_gives = { λ _ e. e ≡ Fault None OutOfMemory };

    fn from(_error: AllocError) -> Stop {
        Stop::Fault(None, FaultKind::OutOfMemory)
    }
}

impl<T: Drop> From<AllocFailed<T>> for Stop {
    ghost use Rattle.std.specs.Prelude.{None};
    ghost use Rattle.abi_rust.specs.declared.fault.FaultKind.TheVariants.{OutOfMemory};
    ghost use Rattle.abi_rust.specs.declared.fault.Stop.TheVariants.{Fault};

    ghost from_gives = { λ _ e. e ≡ Fault None OutOfMemory };

    fn from(_error: AllocFailed<T>) -> Stop {
        Stop::Fault(None, FaultKind::OutOfMemory)
    }
}
