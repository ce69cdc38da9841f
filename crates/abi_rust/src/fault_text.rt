//! What a user reads of a fault.

ghost use Rattle.std.specs.Prelude.{◌≡◌, ◌++◌, IfOk, Some, string_bytes};
ghost use Rattle.std.specs.Option.{option_map};
ghost use Rattle.abi_rust.specs.FaultTexts.{GoesOn, QuotesName, in_quotes, name_of_fault};

use crate::fault::{Fault, FaultKind};
use crate::sources::Sources;
use rust_source::{IntegerKind, ItemKind, Symbol, Unevaluated};
use std::alloc::{AllocError, Global};
use std::fmt::Write;
use strsim::levenshtein;

impl Fault {
    /// Writes what is wrong, in lower case and without a full stop, with the nearest name that is known where a name
    /// isn't. An error comes where a growth of memory was refused.
    pub fn write_text(
        &self,
        alloc: Global,
        out: &mut String,
        sources: &Sources,
    ) -> Result<(), AllocError>
        ensures named { IfOk result (λ _. (name : Symbol) → name_of_fault self.now.kind ≡ Some name →
            QuotesName sources.now.names name (string_bytes out.old) (string_bytes out.new)) }
    {
        match said_of_name(self.kind) {
            Some(said) => write_named(alloc, out, sources, self.kind, said),
            None => write_plain(out, self.kind),
        }
    }
}

/// What is said of the name that a fault is about, before the name. None where it is about none.
fn said_of_name(kind: FaultKind) -> Option<(&'static str, Symbol)>
    ensures { option_map (λ said. said.1) result ≡ name_of_fault kind }
{
    match kind {
        FaultKind::RepeatedType(name) => Some(("two types are called ", name)),
        FaultKind::RepeatedConstant(name) => Some(("two constants are called ", name)),
        FaultKind::UnknownType(name) => Some(("no type is called ", name)),
        FaultKind::UnknownConstant(name) => Some(("no constant is called ", name)),
        FaultKind::UnknownOrigin(name) => Some((
            "it comes, or may come, from what isn't read here: ",
            name,
        )),
        FaultKind::Private(name) => Some(("it is private: ", name)),
        FaultKind::Ambiguous(name) => Some(("it is ambiguous: ", name)),
        FaultKind::NotAType(name) => Some(("no type, but something else is called ", name)),
        FaultKind::WrongArguments(name) => Some((
            "another number of arguments than the parameters of ",
            name,
        )),
        FaultKind::Recursive(name) => Some(("without a pointer a type contains itself: ", name)),
        _ => None,
    }
}

/// Writes what is wrong about a name: what is said before it, and the name.
fn write_named(
    alloc: Global,
    out: &mut String,
    sources: &Sources,
    kind: FaultKind,
    said: (&str, Symbol),
) -> Result<(), AllocError>
    ensures { IfOk result (λ _.
        QuotesName sources.now.names said.entry.1 (string_bytes out.old) (string_bytes out.new)) }
{
    let (text, name) = said;
    quoted(out, text, sources, name)?;
    match kind {
        FaultKind::UnknownType(_) => suggest(alloc, out, sources, name, true),
        FaultKind::UnknownConstant(_) => suggest(alloc, out, sources, name, false),
        _ => Ok(()),
    }
}

/// Writes what is wrong, but about no name.
fn write_plain(out: &mut String, kind: FaultKind) -> Result<(), AllocError> {
    match kind {
        FaultKind::Source(kind) => out.push_str(kind.text()),
        FaultKind::Layout(error) => write!(out, "{error}"),
        FaultKind::Overflow(kind) => {
            out.push_str("a value doesn't fit ")?;
            out.push_str(integer_name(kind))
        }
        FaultKind::Unevaluated(what) => out.push_str(unevaluated_text(what)),
        kind => out.push_str(plain_text(kind)),
    }
}

/// What a user reads of a fault that names nothing.
fn plain_text(kind: FaultKind) -> &'static str {
    match kind {
        FaultKind::OutOfMemory => "out of memory",
        FaultKind::WrongKindOfArgument =>
            "a type is given where a constant is wanted, or a constant for a type",
        FaultKind::Binding => "an associated type is given, which isn't evaluated here",
        FaultKind::TooDeep => "types or constants need one another more than 200 deep",
        FaultKind::TooLarge => "more types and constants have to be looked at than the bound",
        FaultKind::Unsized => "the size isn't known where it has to be",
        FaultKind::WrongType => "a value isn't of the type that is wanted",
        FaultKind::EnumCast =>
            "a variant is cast to an integer alone, and where no variant has fields",
        FaultKind::DivisionByZero => "a division by zero",
        FaultKind::BadAlignment => "an alignment has to be a power of two, and at most 2^29",
        FaultKind::TransparentBeside => "`transparent` stands alone",
        FaultKind::TransparentFields =>
            "`transparent` wants one field that takes room, or one variant",
        FaultKind::TransparentUnion => "a union can't be `transparent`",
        FaultKind::IntegerBesideC => "`C` doesn't go with an integer where no variant has fields",
        FaultKind::PackedAndAligned => "`packed` doesn't go with `align`",
        FaultKind::PackedApart => "`packed` is asked for with two sizes",
        FaultKind::PackedEnum => "an enum can't be `packed`",
        FaultKind::IntegerRepr => "an integer is a repr of enums alone",
        FaultKind::ReprWithoutVariants => "an enum without variants has no repr",
        FaultKind::AlignedInPacked => "a packed type contains one with `align`",
        FaultKind::RustBeside => "`Rust` doesn't go with `C` or an integer",
        FaultKind::DiscriminantWithoutRepr =>
            "discriminants beside variants with fields want an integer as the repr",
        FaultKind::ParameterInConstant =>
            "a parameter stands alone in a constant of a type, which can't be calculated from it",
        FaultKind::Simd => "`simd` isn't read here",
        FaultKind::EmptyUnion => "a union has no fields",
        FaultKind::UnionField =>
            "a union's field has to be `Copy`, a reference or a `ManuallyDrop`",
        _ => "",
    }
}

/// What a user reads of what isn't evaluated.
fn unevaluated_text(what: Unevaluated) -> &'static str {
    match what {
        Unevaluated::Macro => "a macro's call isn't evaluated here",
        Unevaluated::Impl => "`impl` isn't a type that is evaluated here",
        Unevaluated::Associated => "an associated type or constant isn't evaluated here",
        Unevaluated::Inferred => "`_` isn't a type that is evaluated here",
        Unevaluated::Expression => "this expression isn't evaluated here",
    }
}

/// An integer type's name.
fn integer_name(kind: IntegerKind) -> &'static str {
    match kind {
        IntegerKind::I8 => "`i8`",
        IntegerKind::I16 => "`i16`",
        IntegerKind::I32 => "`i32`",
        IntegerKind::I64 => "`i64`",
        IntegerKind::I128 => "`i128`",
        IntegerKind::Isize => "`isize`",
        IntegerKind::U8 => "`u8`",
        IntegerKind::U16 => "`u16`",
        IntegerKind::U32 => "`u32`",
        IntegerKind::U64 => "`u64`",
        IntegerKind::U128 => "`u128`",
        IntegerKind::Usize => "`usize`",
    }
}

/// Writes a text and a name in quotes.
fn quoted(out: &mut String, text: &str, sources: &Sources, name: Symbol) -> Result<(), AllocError>
    ensures { IfOk result (λ _. string_bytes out.new
        ≡ string_bytes out.old ++ text.now ++ in_quotes sources.now.names name) }
{
    out.push_str(text)?;
    out.push_str("`")?;
    out.push_str(sources.names().text(name))?;
    out.push_str("`")
}

/// Writes which name may be meant.
fn suggest(
    alloc: Global,
    out: &mut String,
    sources: &Sources,
    name: Symbol,
    is_type: bool,
) -> Result<(), AllocError>
    ensures { IfOk result (λ _. GoesOn (string_bytes out.old) (string_bytes out.new)) }
{
    match nearest(alloc, sources, name, is_type)? {
        Some(found) => {
            quoted(out, "; did you mean ", sources, found)?;
            out.push_str("?")
        }
        None => Ok(()),
    }
}

/// The name of a type, or of a constant, that is nearest to a name and isn't the same: at most a third of its bytes are
/// other ones.
fn nearest(
    alloc: Global,
    sources: &Sources,
    name: Symbol,
    is_type: bool,
) -> Result<Option<Symbol>, AllocError> {
    let text = sources.names().text(name);
    let mut least = text.len() / 3;
    let mut found = None;
    for item in &sources.items().items {
        let is_constant = match item.kind {
            ItemKind::Const(_) => true,
            _ => false,
        };
        if is_constant == is_type || item.name == name {
            continue;
        }
        let edits = levenshtein(alloc, text, sources.names().text(item.name))?;
        if edits < least || (edits == least && found.is_none()) {
            least = edits;
            found = Some(item.name);
        }
    }
    Ok(found)
}
