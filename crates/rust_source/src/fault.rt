//! Why a source isn't read.

ghost use Rattle.std.specs.Prelude.{◌<◌, length};

use crate::place::Place;
use std::alloc::{AllocError, AllocFailed};

/// What is wrong in a source: of several faults the first, as the source is read.
#[derive(Clone, Copy, PartialEq, Eq)]
pub enum SourceFaultKind {
    /// A growth of memory was refused, which says nothing of the source. Its place says nothing either.
    OutOfMemory,
    /// The source has more than 2^30 bytes, or ends behind the last place that there is.
    TooLong,
    /// Brackets, types, expressions, attributes or modules stand in more than 200 others.
    TooDeep,
    /// A comment `/*` without its end.
    UnclosedComment,
    /// A string or a character without its end.
    UnclosedText,
    /// A character literal that has no character, or an escape that there isn't.
    BadCharacter,
    /// A number that doesn't fit 128 bits, has a digit that its base doesn't have, or an unknown suffix.
    BadNumber,
    /// A character that no token begins with.
    UnknownCharacter,
    /// A word right before a quote or a `#` that is no prefix of a literal.
    UnknownPrefix,
    /// `r#` before a word that can't be a raw name.
    BadRawName,
    /// A bracket whose partner is missing, or is of another kind.
    UnmatchedBracket,
    /// No item begins here.
    ExpectedItem,
    /// A name is missing.
    ExpectedName,
    /// No type begins here.
    ExpectedType,
    /// Parameters that a function pointer leaves open without `extern`.
    VariadicPointer,
    /// No expression begins here.
    ExpectedExpression,
    /// The fields of a struct or a union, or the variants of an enum, are missing.
    ExpectedFields,
    /// A `,` or the end of the list is missing.
    ExpectedComma,
    /// A `:` is missing.
    ExpectedColon,
    /// A `=` is missing.
    ExpectedEquals,
    /// A `;` is missing.
    ExpectedSemicolon,
    /// A `>` is missing.
    ExpectedAngle,
    /// A path of a `use` is missing.
    ExpectedUse,
    /// A restriction behind `pub` that names no module around the item.
    VisibilityOutside,
    /// `pub` before a variant, which is seen wherever its enum is.
    VisibilityOfVariant,
    /// `repr` asks for what there isn't, or stands where none may.
    BadRepr,
    /// `repr` asks for two integer types.
    RepeatedInteger,
    /// A parameter, a field or a variant whose name another one of the list has.
    RepeatedName,
    /// A `cfg` that is no predicate.
    BadCfg,
    /// What stands in the brackets of an attribute begins with no path.
    BadAttribute,
}

impl SourceFaultKind {
    /// What a user reads: lower case, without a full stop.
    pub fn text(self) -> &'static str
        ensures { 0 < length result.now }
    {
        match self {
            SourceFaultKind::OutOfMemory => "out of memory",
            SourceFaultKind::TooLong => "too long a source",
            SourceFaultKind::TooDeep => "nested too deep",
            SourceFaultKind::UnclosedComment => "this comment has no end",
            SourceFaultKind::UnclosedText => "this literal has no end",
            SourceFaultKind::BadCharacter => "no character that Rust knows",
            SourceFaultKind::BadNumber => "no number that Rust knows",
            SourceFaultKind::UnknownCharacter => "unexpected character",
            SourceFaultKind::UnknownPrefix => "no prefix that Rust knows",
            SourceFaultKind::BadRawName => "this name can't be raw",
            SourceFaultKind::UnmatchedBracket => "bracket without its partner",
            SourceFaultKind::ExpectedItem => "expected an item",
            SourceFaultKind::ExpectedName => "expected a name",
            SourceFaultKind::ExpectedType => "expected a type",
            SourceFaultKind::VariadicPointer => "`...` wants `extern` before `fn`",
            SourceFaultKind::ExpectedExpression => "expected an expression",
            SourceFaultKind::ExpectedFields => "expected fields",
            SourceFaultKind::ExpectedComma => "expected `,` or the end of the list",
            SourceFaultKind::ExpectedColon => "expected `:`",
            SourceFaultKind::ExpectedEquals => "expected `=`",
            SourceFaultKind::ExpectedSemicolon => "expected `;`",
            SourceFaultKind::ExpectedAngle => "expected `>`",
            SourceFaultKind::ExpectedUse => "expected a path to use",
            SourceFaultKind::VisibilityOutside => "expected a module around this one",
            SourceFaultKind::VisibilityOfVariant => "a variant has no visibility of its own",
            SourceFaultKind::BadRepr => "no repr that may stand here",
            SourceFaultKind::RepeatedInteger => "repr with two integer types",
            SourceFaultKind::RepeatedName => "this name stands twice",
            SourceFaultKind::BadCfg => "expected a cfg predicate",
            SourceFaultKind::BadAttribute => "expected an attribute",
        }
    }
}

/// What is wrong in a source, and where.
#[derive(Clone, Copy, PartialEq, Eq)]
pub struct SourceFault {
    /// The first byte of what is wrong; at the source's end where something is missing there.
    pub at: Place,
    /// What is wrong.
    pub kind: SourceFaultKind,
}

impl From<AllocError> for SourceFault {
    ghost use Rattle.std.specs.Prelude.{◌≡◌};
    ghost use Rattle.rust_source.specs.declared.fault.SourceFaultKind.TheVariants.{OutOfMemory};

    ghost from_gives = { λ _ error. error.kind ≡ OutOfMemory };

    fn from(_error: AllocError) -> Self {
        SourceFault {
            at: Place(0),
            kind: SourceFaultKind::OutOfMemory,
        }
    }
}

impl<T: Drop> From<AllocFailed<T>> for SourceFault {
    ghost use Rattle.std.specs.Prelude.{◌≡◌};
    ghost use Rattle.rust_source.specs.declared.fault.SourceFaultKind.TheVariants.{OutOfMemory};

    ghost from_gives = { λ _ error. error.kind ≡ OutOfMemory };

    fn from(_error: AllocFailed<T>) -> Self {
        SourceFault {
            at: Place(0),
            kind: SourceFaultKind::OutOfMemory,
        }
    }
}
