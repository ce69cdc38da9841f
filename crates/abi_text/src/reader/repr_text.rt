//! How the repr of a struct, and of a union, is written.

ghost use Rattle.std.specs.Prelude.{◌≡◌, is_some};
ghost use Rattle.std.specs.List.{list_all};
ghost use Rattle.abi_text.specs.Repr.{alignment_after, are_repr_words, asked_by, has_kind, integer_type_named, is_single, repr_kind, flagged, repr_part, repr_parts, plain, struct_repr, union_repr, valued_part, with_part};

use crate::number::decimal;
use crate::pieces::split_at_byte;
use crate::reader::scalar_word::integer_named;
use abi_base::{Align, IntegerType};
use abi_index::Hash64;
use abi_scalar::{ReprFlags, ReprOptions};
use bitflags::Flags;

/// A word of a repr, and what it asks for.
#[derive(Clone, Copy)]
pub(crate) enum ReprPart {
    C,
    Transparent,
    Linear,
    Packed(Align),
    Align(Align),
    Integer(IntegerType),
    /// Not always sized.
    Tail,
}

/// A kind of word in a repr.
#[derive(Clone, Copy, PartialEq, Eq)]
pub(crate) enum ReprKind {
    C,
    Transparent,
    Linear,
    Packed,
    Align,
    Integer,
    Tail,
}

/// What a struct's repr asks for.
#[derive(Clone, Copy)]
pub struct StructRepr {
    /// Its options.
    pub repr: ReprOptions,
    /// Whether the last field can't be unsized: false for `tail`.
    pub always_sized: bool,
}

/// Asks for nothing.
fn plain() -> StructRepr
    ensures { result ≡ plain }
{
    StructRepr {
        repr: ReprOptions {
            int: None,
            align: None,
            pack: None,
            flags: ReprFlags::default(),
            scalable: None,
            field_shuffle_seed: Hash64::ZERO,
        },
        always_sized: true,
    }
}

/// The alignment whose bytes the word has after this beginning.
fn alignment_after(word: &[u8], name: &[u8]) -> Option<Align>
    ensures { result ≡ alignment_after name.now word.now }
{
    Align::from_bytes(decimal(word.strip_prefix(name)?)?).ok()
}

/// The integer type of this name.
fn integer_type_named(word: &[u8]) -> Option<IntegerType>
    ensures { result ≡ integer_type_named word.now }
{
    if word == b"usize".as_slice() {
        return Some(IntegerType::Pointer(false));
    }
    if word == b"isize".as_slice() {
        return Some(IntegerType::Pointer(true));
    }
    let (integer, signed) = integer_named(word)?;
    Some(IntegerType::Fixed(integer, signed))
}

/// What a part of a repr with a value asks for.
fn valued_part(part: &[u8]) -> Option<ReprPart>
    ensures { result ≡ valued_part part.now }
{
    if let Some(integer) = integer_type_named(part) {
        return Some(ReprPart::Integer(integer));
    }
    if let Some(align) = alignment_after(part, b"packed=") {
        return Some(ReprPart::Packed(align));
    }
    Some(ReprPart::Align(alignment_after(part, b"align=")?))
}

/// What a part of a repr asks for. None for what is no word of a repr.
fn part_of(part: &[u8]) -> Option<ReprPart>
    ensures { result ≡ repr_part part.now }
{
    if part == b"C".as_slice() {
        Some(ReprPart::C)
    } else if part == b"transparent".as_slice() {
        Some(ReprPart::Transparent)
    } else if part == b"linear".as_slice() {
        Some(ReprPart::Linear)
    } else if part == b"tail".as_slice() {
        Some(ReprPart::Tail)
    } else {
        valued_part(part)
    }
}

fn kind_of(part: ReprPart) -> ReprKind
    ensures { result ≡ repr_kind part }
{
    match part {
        ReprPart::C => ReprKind::C,
        ReprPart::Transparent => ReprKind::Transparent,
        ReprPart::Linear => ReprKind::Linear,
        ReprPart::Packed(_) => ReprKind::Packed,
        ReprPart::Align(_) => ReprKind::Align,
        ReprPart::Integer(_) => ReprKind::Integer,
        ReprPart::Tail => ReprKind::Tail,
    }
}

fn has_kind(part: &[u8], kind: ReprKind) -> bool
    ensures { result ≡ has_kind kind (repr_part part.now) }
{
    match part_of(part) {
        Some(found) => kind_of(found) == kind,
        None => false,
    }
}

/// Whether each part is a word of a repr.
fn are_known(text: &[u8]) -> bool
    ensures { result ≡ list_all (λ p. is_some (repr_part p)) (repr_parts text.now) }
{
    let mut rest = Some(text);
    while let Some(text) = rest {
        let (part, more) = split_at_byte(text, b',');
        if part_of(part).is_none() {
            return false;
        }
        rest = more;
    }
    true
}

/// Whether the kind comes at most once.
fn is_single(text: &[u8], kind: ReprKind) -> bool
    ensures { result ≡ is_single kind (repr_parts text.now) }
{
    let mut seen = false;
    let mut rest = Some(text);
    while let Some(text) = rest {
        let (part, more) = split_at_byte(text, b',');
        if has_kind(part, kind) {
            if seen {
                return false;
            }
            seen = true;
        }
        rest = more;
    }
    true
}

fn are_repr_words(text: &[u8]) -> bool
    ensures { result ≡ are_repr_words (repr_parts text.now) }
{
    are_known(text)
        && is_single(text, ReprKind::C)
        && is_single(text, ReprKind::Transparent)
        && is_single(text, ReprKind::Linear)
        && is_single(text, ReprKind::Packed)
        && is_single(text, ReprKind::Align)
        && is_single(text, ReprKind::Integer)
        && is_single(text, ReprKind::Tail)
}

/// Asks for a flag too.
fn flagged(asked: &StructRepr, flag: ReprFlags) -> StructRepr
    ensures { result ≡ flagged flag.0 asked.now }
{
    let mut flags = asked.repr.flags;
    flags.insert(flag);
    let repr = ReprOptions {
        flags,
        ..asked.repr
    };
    StructRepr {
        repr,
        always_sized: asked.always_sized,
    }
}

/// What is asked for with a further word.
fn with_part(asked: &StructRepr, part: &ReprPart) -> StructRepr
    ensures { result ≡ with_part asked.now (Some part.now) }
{
    let mut repr = asked.repr;
    let mut always_sized = asked.always_sized;
    match part {
        ReprPart::C => return flagged(asked, ReprFlags::IS_C),
        ReprPart::Transparent => return flagged(asked, ReprFlags::IS_TRANSPARENT),
        ReprPart::Linear => return flagged(asked, ReprFlags::IS_LINEAR),
        ReprPart::Packed(align) => repr.pack = Some(*align),
        ReprPart::Align(align) => repr.align = Some(*align),
        ReprPart::Integer(integer) => repr.int = Some(*integer),
        ReprPart::Tail => always_sized = false,
    }
    StructRepr { repr, always_sized }
}

/// What the words ask for together.
fn asked_by(text: &[u8]) -> StructRepr
    ensures { result ≡ asked_by plain (repr_parts text.now) }
{
    let mut asked = plain();
    let mut rest = Some(text);
    while let Some(text) = rest {
        let (part, more) = split_at_byte(text, b',');
        if let Some(part) = part_of(part) {
            asked = with_part(&asked, &part);
        }
        rest = more;
    }
    asked
}

/// What a word asks for where a struct's repr stands, as `docs/FORMATS.md` tells. None where it is no repr.
pub fn struct_repr(word: &[u8]) -> Option<StructRepr>
    ensures { result ≡ struct_repr word.now }
{
    if word == b"-".as_slice() {
        Some(plain())
    } else if are_repr_words(word) {
        Some(asked_by(word))
    } else {
        None
    }
}

/// What a word asks for where a union's repr stands: what a struct's repr asks for, without `tail`. None where it is no
/// such repr.
pub(crate) fn union_repr(word: &[u8]) -> Option<ReprOptions>
    ensures { result ≡ union_repr word.now }
{
    let asked = struct_repr(word)?;
    if asked.always_sized {
        Some(asked.repr)
    } else {
        None
    }
}
