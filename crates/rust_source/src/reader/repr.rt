//! What `repr` asks for.

ghost use Rattle.std.specs.Prelude.{◌≡◌};
ghost use Rattle.rust_source.specs.Literals.{integer_kind};
ghost use Rattle.rust_source.specs.Reading.{read_as};
ghost use Rattle.rust_source.specs.Repr.{asks, bytes_in, first_at, integer_by, greater_of, misplaced, next_number, with_bytes, with_packed, with_repr, with_word, word_by, word_more};

use crate::fault::{SourceFault, SourceFaultKind};
use crate::item::Repr;
use crate::place::Place;
use crate::reader::cursor::{
    Cursor, expect_comma, fault, is_done, nth, pass, place, take_group, text_of,
};
use crate::reader::literals::{Number, integer_kind, number_of};
use crate::reader::naming::word_text;
use crate::tokens::token::{Bracket, TokenKind};

/// What an item asks for that has no `repr`.
pub(crate) const NOTHING: Repr = Repr {
    at: None,
    c: false,
    rust: false,
    transparent: false,
    simd: false,
    integer: None,
    packed: None,
    is_packed_apart: false,
    align: None,
};

/// Whether anything is asked for: `repr()` asks for nothing.
pub(crate) fn asks(asked: &Repr) -> bool
    ensures { result ≡ asks asked.now }
{
    asked.c
        || asked.rust
        || asked.transparent
        || asked.simd
        || asked.integer.is_some()
        || asked.packed.is_some()
        || asked.align.is_some()
}

/// A fault at the first `repr`, if one is there: it stands where none may.
pub(crate) fn refuse_repr(asked: &Repr) -> Result<(), SourceFault>
    ensures { result ≡ misplaced asked.now.at }
{
    match asked.at {
        Some(at) => Err(SourceFault {
            at,
            kind: SourceFaultKind::BadRepr,
        }),
        None => Ok(()),
    }
}

/// The number that is next; a bad one where none is.
#[tactic(auto, unfolding(crate::specs::Repr::next_number))]
pub(crate) fn next_number(cursor: &Cursor<'_>) -> Number
    ensures { result ≡ next_number cursor.now }
{
    match nth(cursor, 0) {
        Some(token) => match token.kind {
            TokenKind::Number => number_of(text_of(cursor, token).as_bytes()),
            _ => Number::Bad,
        },
        None => Number::Bad,
    }
}

/// The number of bytes that stands in parentheses, alone.
#[tactic(auto, unfolding(crate::specs::Repr::bytes_in))]
fn bytes_in(inside: &Cursor<'_>) -> Result<u64, SourceFault>
    ensures { result ≡ bytes_in inside.now }
{
    let bad = fault(inside, SourceFaultKind::BadRepr);
    let is_alone = nth(inside, 1).is_none();
    match next_number(inside) {
        Number::Integer(value, None) => match u64::try_from(value) {
            Ok(bytes) if is_alone => Ok(bytes),
            _ => Err(bad),
        },
        _ => Err(bad),
    }
}

/// What is asked for with `packed` more, to so many bytes.
fn with_packed(asked: Repr, bytes: u64) -> Repr
    ensures { result ≡ with_packed asked bytes }
{
    let mut asked = asked;
    match asked.packed {
        Some(before) => {
            asked.is_packed_apart = asked.is_packed_apart || before != bytes;
            asked.packed = Some(before.min(bytes));
        }
        None => asked.packed = Some(bytes),
    }
    asked
}

/// The greater of two numbers, of which one may be missing.
fn largest(one: Option<u64>, other: u64) -> Option<u64>
    ensures { result ≡ greater_of one other }
{
    match one {
        Some(one) => Some(one.max(other)),
        None => Some(other),
    }
}

/// What is asked for with an integer type more, whose name stands at the cursor.
fn with_integer(cursor: &Cursor<'_>, asked: Repr, word: &str) -> Result<Repr, SourceFault>
    ensures { result ≡ integer_by cursor.now asked (integer_kind word.now) }
{
    let mut asked = asked;
    let Some(kind) = integer_kind(word.as_bytes()) else {
        return Err(fault(cursor, SourceFaultKind::BadRepr));
    };
    if asked.integer.is_some() {
        return Err(fault(cursor, SourceFaultKind::RepeatedInteger));
    }
    asked.integer = Some(kind);
    Ok(asked)
}

/// What is asked for with a word more, which has no number and stands at the cursor.
#[tactic(auto, unfolding(crate::specs::Repr::with_word))]
fn with_word(cursor: &Cursor<'_>, asked: Repr, word: &str) -> Result<Repr, SourceFault>
    ensures { result ≡ with_word cursor.now asked word.now }
{
    let mut asked = asked;
    if word == "C" {
        asked.c = true;
    } else if word == "Rust" {
        asked.rust = true;
    } else if word == "transparent" {
        asked.transparent = true;
    } else if word == "simd" {
        asked.simd = true;
    } else if word == "packed" {
        asked = with_packed(asked, 1);
    } else {
        return with_integer(cursor, asked, word);
    }
    Ok(asked)
}

/// What is asked for with a word and its number more.
#[tactic(auto, unfolding(crate::specs::Repr::with_bytes))]
fn with_bytes(cursor: &Cursor<'_>, asked: Repr, word: &str, bytes: u64) -> Result<Repr, SourceFault>
    ensures { result ≡ with_bytes cursor.now asked word.now bytes }
{
    let mut asked = asked;
    if word == "packed" {
        asked = with_packed(asked, bytes);
    } else if word == "align" {
        asked.align = largest(asked.align, bytes);
    } else {
        return Err(fault(cursor, SourceFaultKind::BadRepr));
    }
    Ok(asked)
}

/// What is asked for with the word more that is next, whose number stands in these parentheses, if it has one.
fn with_named(
    cursor: &Cursor<'_>,
    asked: Repr,
    number: Option<Cursor<'_>>,
) -> Result<Repr, SourceFault>
    ensures { result ≡ word_by asked cursor.now number.entry }
{
    let word = word_text(cursor);
    match number {
        Some(inside) => with_bytes(cursor, asked, word, bytes_in(&inside)?),
        None => with_word(cursor, asked, word),
    }
}

/// What is asked for with the word more that is next; it is passed over, with its number and a `,`.
#[tactic(auto, unfolding(crate::specs::Repr::word_more))]
fn with_next(asked: Repr, inside: &mut Cursor<'_>) -> Result<Repr, SourceFault>
    ensures { read_as (λ asked. (asked, inside.new)) result ≡ word_more asked inside.old }
{
    let before = *inside;
    pass(inside, 1);
    let number = take_group(inside, Bracket::Round);
    let asked = with_named(&before, asked, number)?;
    expect_comma(inside)?;
    Ok(asked)
}

/// Where the first `repr` stands.
fn first_at(before: Option<Place>, here: Place) -> Place
    ensures { result ≡ first_at before here }
{
    match before {
        Some(at) => at,
        None => here,
    }
}

/// What is asked for with the words more that stand in the parentheses of a `repr`, which stands at this place.
#[tactic(auto, unfolding(crate::specs::Repr::with_repr), using(crate::proofs::ItemTurns::words_more, crate::proofs::ItemTurns::words_done))]
pub(crate) fn with_repr(asked: Repr, inside: &mut Cursor<'_>) -> Result<Repr, SourceFault>
    ensures { result ≡ with_repr asked inside.old }
{
    let mut asked = asked;
    asked.at = Some(first_at(asked.at, place(inside)));
    let turns = inside.end.saturating_sub(inside.at);
    for turn in 0..turns {
        if is_done(inside) {
            return Ok(asked);
        }
        asked = with_next(asked, inside)?;
    }
    Ok(asked)
}
