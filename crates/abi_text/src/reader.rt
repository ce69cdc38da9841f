//! Reads a type, word by word.

mod begun;
mod close;
mod read_coroutine;
mod read_order;
mod read_scalar;
pub(crate) mod repr_text;
mod scalar_word;
mod scalars;
mod type_word;

ghost use Rattle.std.specs.Prelude.{◌≡◌, ◌≤◌, ℕ, List, MatchResult, codes};
ghost use Rattle.std.specs.Str.{bytes_eq};
ghost use Rattle.abi_tree.specs.Tree.{Tree, tree_of};
ghost use Rattle.abi_text.specs.Reading.{Agrees, at_count, at_discriminant, at_enum_opening, at_enum_repr, at_lanes, at_opening, at_repr, at_type, at_union_opening, at_union_repr, at_variant_opening, begun_in, next, read, state_of};
ghost use Rattle.abi_text.specs.Numbers.{discriminant_in, number_of_bits};
ghost use Rattle.abi_text.specs.Repr.{struct_repr, union_repr};
ghost use Rattle.abi_text.specs.Words.{words_of};
ghost use Rattle.abi_text.specs.Written.{IsLineOf, IsWrittenAs, nesting};

use crate::fault::Fault;
use crate::number::{decimal, discriminant};
use crate::reader::begun::{Open, OrderWant, Reader, ScalarForm, ScalarPlace, Want, put_type};
use crate::reader::close::close;
use crate::reader::read_coroutine::{open_coroutine, read_coroutine_word};
use crate::reader::read_order::read_order_word;
use crate::reader::read_scalar::{
    begin_scalar, read_end, read_primitive, read_scalar, read_space, read_start,
};
use crate::reader::repr_text::{StructRepr, struct_repr, union_repr};
use crate::reader::type_word::{TypeWord, type_word};
use crate::words::next_word;
use abi_base::TargetDataLayout;
use abi_scalar::ReprOptions;
use abi_tree::TypeTree;
use std::alloc::Global;

/// How many types a type may be nested in.
const MOST_NESTED: usize = 200;

/// Reads a word where a type may begin.
fn read_type_word(
    alloc: Global,
    dl: &TargetDataLayout,
    number: u64,
    closes: bool,
    reader: &mut Reader,
    word: Option<TypeWord>,
) -> Result<(), Fault>
    ensures { Agrees (λ _. state_of reader.new)
        (at_type dl.now number closes (begun_in reader.old.begun.items) word) result }
{
    let Some(word) = word else {
        if closes {
            return close(alloc, number, reader);
        }
        return Err(Fault::Unreadable(number));
    };
    if reader.begun.len() > MOST_NESTED {
        return Err(Fault::TooDeep);
    }
    match word {
        TypeWord::Scalar(scalar) => {
            let (form, place) = (ScalarForm::Full, ScalarPlace::Alone);
            begin_scalar(alloc, dl, form, place, reader, scalar)
        }
        TypeWord::Pair => {
            reader.want = Want::Scalar(ScalarPlace::First);
            Ok(())
        }
        TypeWord::Never => put_type(alloc, TypeTree::Never, reader),
        TypeWord::Unit => put_type(alloc, TypeTree::Unit, reader),
        TypeWord::Array => {
            reader.want = Want::Count;
            Ok(())
        }
        TypeWord::Vector(packed) => {
            reader.want = Want::Lanes(packed);
            Ok(())
        }
        TypeWord::Struct => {
            reader.want = Want::Repr;
            Ok(())
        }
        TypeWord::Ordered => {
            reader.want = Want::Order(OrderWant::Repr);
            Ok(())
        }
        TypeWord::Union => {
            reader.want = Want::UnionRepr;
            Ok(())
        }
        TypeWord::Enum => {
            reader.want = Want::EnumRepr;
            Ok(())
        }
        TypeWord::Coroutine => open_coroutine(alloc, reader),
    }
}

/// Reads an array's count.
fn read_count(number: u64, reader: &mut Reader, word: &[u8]) -> Result<(), Fault>
    ensures { Agrees (λ _. state_of reader.new)
        (at_count number (begun_in reader.old.begun.items) (number_of_bits 64 word.now)) result }
{
    match decimal(word) {
        Some(count) => {
            reader.begun.push(Open::Elements(count))?;
            reader.want = Want::Tree;
            Ok(())
        }
        None => Err(Fault::Unreadable(number)),
    }
}

/// Reads how many lanes a vector has.
fn read_lanes(number: u64, packed: bool, reader: &mut Reader, word: &[u8]) -> Result<(), Fault>
    ensures { Agrees (λ _. state_of reader.new)
        (at_lanes number packed (begun_in reader.old.begun.items)
        (number_of_bits 64 word.now)) result }
{
    match decimal(word) {
        Some(lanes) => {
            reader.begun.push(Open::Lanes(lanes, packed))?;
            reader.want = Want::Tree;
            Ok(())
        }
        None => Err(Fault::Unreadable(number)),
    }
}

/// Reads a struct's repr.
fn read_repr(number: u64, reader: &mut Reader, word: &[u8]) -> Result<(), Fault>
    ensures { Agrees (λ _. state_of reader.new)
        (at_repr number (begun_in reader.old.begun.items) (struct_repr word.now)) result }
{
    match struct_repr(word) {
        Some(asked) => {
            reader.want = Want::Opening(asked);
            Ok(())
        }
        None => Err(Fault::Unreadable(number)),
    }
}

/// Reads a union's repr.
fn read_union_repr(number: u64, reader: &mut Reader, word: &[u8]) -> Result<(), Fault>
    ensures { Agrees (λ _. state_of reader.new)
        (at_union_repr number (begun_in reader.old.begun.items) (union_repr word.now)) result }
{
    match union_repr(word) {
        Some(repr) => {
            reader.want = Want::UnionOpening(repr);
            Ok(())
        }
        None => Err(Fault::Unreadable(number)),
    }
}

/// Reads an enum's repr.
fn read_enum_repr(number: u64, reader: &mut Reader, word: &[u8]) -> Result<(), Fault>
    ensures { Agrees (λ _. state_of reader.new)
        (at_enum_repr number (begun_in reader.old.begun.items) (union_repr word.now)) result }
{
    match union_repr(word) {
        Some(repr) => {
            reader.want = Want::EnumOpening(repr);
            Ok(())
        }
        None => Err(Fault::Unreadable(number)),
    }
}

/// Reads the parenthesis that opens a struct's fields.
fn read_opening(
    alloc: Global,
    number: u64,
    asked: StructRepr,
    reader: &mut Reader,
    word: &[u8],
) -> Result<(), Fault>
    ensures { Agrees (λ _. state_of reader.new)
        (at_opening number asked (begun_in reader.old.begun.items) (bytes_eq word.now
        (codes "("))) result }
{
    if word == b"(".as_slice() {
        reader.begun.push(Open::Fields(asked, Vec::new(alloc)))?;
        reader.want = Want::Tree;
        Ok(())
    } else {
        Err(Fault::Unreadable(number))
    }
}

/// Reads the parenthesis that opens a union's fields.
fn read_union_opening(
    alloc: Global,
    number: u64,
    repr: ReprOptions,
    reader: &mut Reader,
    word: &[u8],
) -> Result<(), Fault>
    ensures { Agrees (λ _. state_of reader.new)
        (at_union_opening number repr (begun_in reader.old.begun.items)
        (bytes_eq word.now (codes "("))) result }
{
    if word == b"(".as_slice() {
        reader.begun.push(Open::Members(repr, Vec::new(alloc)))?;
        reader.want = Want::Tree;
        Ok(())
    } else {
        Err(Fault::Unreadable(number))
    }
}

/// Reads the parenthesis that opens an enum's variants.
fn read_enum_opening(
    alloc: Global,
    number: u64,
    repr: ReprOptions,
    reader: &mut Reader,
    word: &[u8],
) -> Result<(), Fault>
    ensures { Agrees (λ _. state_of reader.new)
        (at_enum_opening number repr (begun_in reader.old.begun.items)
        (bytes_eq word.now (codes "("))) result }
{
    if word == b"(".as_slice() {
        reader.begun.push(Open::Variants(repr, Vec::new(alloc)))?;
        reader.want = Want::Discriminant;
        Ok(())
    } else {
        Err(Fault::Unreadable(number))
    }
}

/// Reads a variant's discriminant, or the parenthesis that ends the enum.
fn read_discriminant(
    alloc: Global,
    number: u64,
    reader: &mut Reader,
    word: &[u8],
) -> Result<(), Fault>
    ensures { Agrees (λ _. state_of reader.new)
        (at_discriminant number (bytes_eq word.now (codes ")")) (begun_in reader.old.begun.items)
        (discriminant_in word.now)) result }
{
    if word == b")".as_slice() {
        return close(alloc, number, reader);
    }
    match discriminant(word) {
        Some(discriminant) => {
            reader.want = Want::VariantOpening(discriminant);
            Ok(())
        }
        None => Err(Fault::Unreadable(number)),
    }
}

/// Reads the parenthesis that opens a variant's fields.
fn read_variant_opening(
    alloc: Global,
    number: u64,
    discriminant: u128,
    reader: &mut Reader,
    word: &[u8],
) -> Result<(), Fault>
    ensures { Agrees (λ _. state_of reader.new)
        (at_variant_opening number discriminant (begun_in reader.old.begun.items)
        (bytes_eq word.now (codes "("))) result }
{
    match (reader.begun.pop(), word == b"(".as_slice()) {
        (Some(Open::Variants(repr, variants)), true) => {
            reader.begun.push(Open::Variant(repr, variants, discriminant, Vec::new(alloc)))?;
            reader.want = Want::Tree;
            Ok(())
        }
        _ => Err(Fault::Unreadable(number)),
    }
}

/// Reads the next word, of this number, where this comes next within these types.
fn read_next(
    alloc: Global,
    dl: &TargetDataLayout,
    number: u64,
    want: Want,
    reader: &mut Reader,
    word: &[u8],
) -> Result<(), Fault>
    ensures { Agrees (λ _. state_of reader.new)
        (next dl.now number (begun_in reader.old.begun.items) word.now want) result }
{
    match want {
        Want::Tree => {
            let closes = word == b")".as_slice();
            read_type_word(alloc, dl, number, closes, reader, type_word(word))
        }
        Want::Scalar(place) => read_scalar(alloc, dl, number, place, reader, word),
        Want::Primitive(form, place) => {
            read_primitive(alloc, dl, number, form, place, reader, word)
        }
        Want::Space(form, place) => read_space(alloc, dl, number, form, place, reader, word),
        Want::RangeStart(value, place) => read_start(number, value, place, reader, word),
        Want::RangeEnd(value, start, place) => {
            read_end(alloc, number, value, start, place, reader, word)
        }
        Want::Count => read_count(number, reader, word),
        Want::Lanes(packed) => read_lanes(number, packed, reader, word),
        Want::Repr => read_repr(number, reader, word),
        Want::UnionRepr => read_union_repr(number, reader, word),
        Want::EnumRepr => read_enum_repr(number, reader, word),
        Want::Opening(asked) => read_opening(alloc, number, asked, reader, word),
        Want::UnionOpening(repr) => read_union_opening(alloc, number, repr, reader, word),
        Want::EnumOpening(repr) => read_enum_opening(alloc, number, repr, reader, word),
        Want::Discriminant => read_discriminant(alloc, number, reader, word),
        Want::VariantOpening(value) => read_variant_opening(alloc, number, value, reader, word),
        Want::Coroutine(part) => read_coroutine_word(alloc, number, part, reader, word),
        Want::Order(part) => read_order_word(alloc, number, part, reader, word),
        Want::End => Err(Fault::Unreadable(number)),
    }
}

/// The type that a line's words write, whole.
fn read_words(alloc: Global, dl: &TargetDataLayout, line: &[u8]) -> Result<TypeTree, Fault>
    ensures { Agrees tree_of (read dl.now (words_of line.now)) result }
{
    let mut reader = Reader {
        want: Want::Tree,
        begun: Vec::new(alloc),
        tree: None,
    };
    let mut rest = line;
    let mut number = 1u64;
    while let Some((word, more)) = next_word(rest) {
        let want = reader.want;
        read_next(alloc, dl, number, want, &mut reader, word)?;
        rest = more;
        number += 1;
    }
    match (reader.want, reader.tree) {
        (Want::End, Some(tree)) => Ok(tree),
        _ => Err(Fault::Unreadable(number)),
    }
}

/// The type that a line writes, whole, under a data layout, which tells how wide pointers and `usize` are. The words of
/// each kind of type are in `docs/FORMATS.md`; spaces may stand anywhere but within a word, and none is needed beside a
/// parenthesis.
///
/// `Unreadable` has the number of the first word that doesn't fit, counted from 1, one past the last where words are
/// missing. `TooDeep` comes at a word that begins a type in more than 200 others. Whichever is first is told, and what
/// follows isn't read. `OutOfMemory` comes where a growth of memory was refused.
pub fn read_type(alloc: Global, dl: &TargetDataLayout, line: &[u8]) -> Result<TypeTree, Fault>
    ensures exact { Agrees tree_of (read dl.now (words_of line.now)) result }
    ensures written { (t : Tree) → (words : List (List ℕ)) →
        IsWrittenAs dl.now t words → nesting t ≤ 200 → IsLineOf words line.now →
        MatchResult result (λ tree. tree_of tree ≡ t) (λ fault. fault ≡ Fault.OutOfMemory) }
{
    read_words(alloc, dl, line)
}
