//! The specs of a data layout string, one by one.

ghost use Rattle.std.specs.Prelude.{◌≡◌, ◌<◌, slice_index, true};
ghost use Rattle.std.specs.Option.{option_copied};
ghost use Rattle.abi_base.specs.declared.endian.Endian.{Endian};
ghost use Rattle.abi_base.specs.DataLayoutFault.{IsReading};
ghost use Rattle.abi_base.specs.DataLayoutSpec.{aligned_spec, aligned_word, alignment_in, begins, bits_in, index_text, instructions, integer, lettered_row, spec_parts_left, pointers_in, pointer_setting, pointer_space, space_text, setting_in, setting_of, size_written, space_in, vector};

use crate::address_space::AddressSpace;
use crate::align::Align;
use crate::endian::Endian;
use crate::parse_error::TargetDataLayoutError;
use crate::parse_number::{number_u32, number_u64};
use crate::parse_text::{begins, begins_alphabetic, has_parts, split_at_mark, tail};
use crate::pointer_spec::PointerSpec;
use crate::setting::{AlignedWord, Setting};
use crate::size::Size;

/// A number of bits.
fn bits<'a>(kind: &'a str, text: &'a str, cause: &'a str) -> Result<u64, TargetDataLayoutError<'a>>
    ensures { IsReading (bits_in kind.now text.now cause.now) result }
{
    match number_u64(text) {
        Ok(bits) => Ok(bits),
        Err(err) => Err(TargetDataLayoutError::InvalidBits {
            kind,
            bit: text,
            cause,
            err,
        }),
    }
}

/// A size, written in bits.
fn size<'a>(text: &'a str, cause: &'a str) -> Result<Size, TargetDataLayoutError<'a>>
    ensures { IsReading (size_written text.now cause.now) result }
{
    let bits = bits("size", text, cause)?;
    Ok(Size::from_bits(bits))
}

/// An alignment, written in bits: that of the first of the parts.
fn alignment<'a>(parts: Option<&'a str>, cause: &'a str) -> Result<Align, TargetDataLayoutError<'a>>
    ensures { IsReading (alignment_in (spec_parts_left 58 (option_copied parts.entry)) cause.now)
        result }
{
    let Some(parts) = parts else {
        return Err(TargetDataLayoutError::MissingAlignment { cause });
    };
    let (text, _) = split_at_mark(parts, ':');
    let bits = bits("alignment", text, cause)?;
    match Align::from_bits(bits) {
        Ok(align) => Ok(align),
        Err(err) => Err(TargetDataLayoutError::InvalidAlignment { cause, err }),
    }
}

/// An address space.
fn space<'a>(text: &'a str, cause: &'a str) -> Result<AddressSpace, TargetDataLayoutError<'a>>
    ensures { IsReading (space_in text.now cause.now) result }
{
    match number_u32(text) {
        Ok(number) => Ok(AddressSpace(number)),
        Err(err) => Err(TargetDataLayoutError::InvalidAddressSpace {
            addr_space: text,
            cause,
            err,
        }),
    }
}

/// The space of a pointer spec: 0 where there is no number.
fn pointer_space<'a>(text: &'a str) -> Result<AddressSpace, TargetDataLayoutError<'a>>
    ensures { IsReading (pointer_space text.now) result }
{
    if text.is_empty() {
        Ok(AddressSpace::ZERO)
    } else {
        space(text, "p-")
    }
}

/// The text of an index size: the fifth part of exactly five, else that of the size. The parts are
/// those that follow the size.
#[tactic(auto, using(crate::proofs::Parts::index_more, crate::proofs::Parts::left_next))]
fn index_text<'a>(size: &'a str, parts: Option<&'a str>) -> &'a str
    ensures { result.now ≡ index_text size.now (spec_parts_left 58 (option_copied parts.entry)) }
{
    let Some(parts) = parts else {
        return size;
    };
    let (_, Some(parts)) = split_at_mark(parts, ':') else {
        return size;
    };
    let (_, Some(parts)) = split_at_mark(parts, ':') else {
        return size;
    };
    match split_at_mark(parts, ':') {
        (index, None) => index,
        (_, Some(_)) => size,
    }
}

/// The pointers of a space.
#[tactic(auto, using(crate::proofs::SpecFaults::space_told, crate::proofs::SpecFaults::size_told, crate::proofs::SpecFaults::alignment_told, crate::proofs::SpecFaults::index_told, crate::proofs::SpecFaults::pointers_read))]
fn pointers<'a>(
    is_fat: bool,
    space: &'a str,
    bytes: &'a str,
    parts: Option<&'a str>,
) -> Result<Setting, TargetDataLayoutError<'a>>
    ensures { IsReading (pointers_in is_fat space.now bytes.now
        (spec_parts_left 58 (option_copied parts.entry))) result }
{
    let space = pointer_space(space)?;
    let pointer_size = size(bytes, "p-")?;
    let pointer_align = alignment(parts, "p-")?;
    let pointer_offset = size(index_text(bytes, parts), "p-")?;
    Ok(Setting::Pointer(
        space,
        PointerSpec {
            pointer_size,
            pointer_align,
            pointer_offset,
            is_fat,
        },
    ))
}

/// What follows the `p` of a pointer spec, without the mark of a fat pointer.
fn space_text(rest: &str) -> &str
    ensures { result.now ≡ space_text rest.now }
{
    if begins(rest, 'f') { tail(rest) } else { rest }
}

/// A pointer spec: what follows its `p`, and the parts after that.
fn pointer_spec<'a>(
    rest: &'a str,
    parts: Option<&'a str>,
) -> Result<Setting, TargetDataLayoutError<'a>>
    ensures { IsReading (pointer_setting rest.now (spec_parts_left 58 (option_copied parts.entry)))
        result }
{
    let Some(parts) = parts else {
        return Ok(Setting::Nothing);
    };
    let space = space_text(rest);
    if begins_alphabetic(space) {
        return Err(TargetDataLayoutError::UnknownPointerSpecification { err: space });
    }
    let (bytes, parts) = split_at_mark(parts, ':');
    pointers(begins(rest, 'f'), space, bytes, parts)
}

/// What a word that begins with `f` names an alignment of: a float.
fn float_word(word: &str) -> Option<AlignedWord>
    requires { begins 102 word.now ≡ true }
    ensures { result ≡ aligned_word word.now }
{
    if word == "f16" {
        Some(AlignedWord::F16)
    } else if word == "f32" {
        Some(AlignedWord::F32)
    } else if word == "f64" {
        Some(AlignedWord::F64)
    } else if word == "f128" {
        Some(AlignedWord::F128)
    } else {
        None
    }
}

/// What a word names an alignment of. Most words are given by their first letter alone.
fn aligned_word(word: &str) -> Option<AlignedWord>
    ensures { result ≡ aligned_word word.now }
{
    if begins(word, 'f') {
        float_word(word)
    } else if word == "a" {
        Some(AlignedWord::Aggregate)
    } else {
        None
    }
}

/// The space of functions: what follows a spec's `P`.
fn instructions<'a>(text: &'a str) -> Result<Setting, TargetDataLayoutError<'a>>
    ensures { IsReading (setting_in (instructions text.now)) result }
{
    let space = space(text, "P")?;
    Ok(Setting::Instructions(space))
}

/// The alignment of lists of fields, or of a float.
fn aligned_spec<'a>(
    named: AlignedWord,
    word: &'a str,
    parts: Option<&'a str>,
) -> Result<Setting, TargetDataLayoutError<'a>>
    ensures { IsReading (setting_in
        (aligned_spec named word.now (spec_parts_left 58 (option_copied parts.entry)))) result }
{
    let align = alignment(parts, word)?;
    Ok(Setting::Aligned(named, align))
}

/// An integer's alignment.
#[tactic(auto, using(crate::proofs::SpecFaults::width_told, crate::proofs::SpecFaults::integer_told, crate::proofs::SpecFaults::integer_read))]
fn integer<'a>(word: &'a str, parts: Option<&'a str>) -> Result<Setting, TargetDataLayoutError<'a>>
    requires { slice_index word.now 0 ≡ 105 }
    ensures { IsReading
        (setting_in (integer word.now (spec_parts_left 58 (option_copied parts.entry)))) result }
{
    let bits = bits("size", tail(word), "i")?;
    let align = alignment(parts, word)?;
    Ok(Setting::Integer(bits, align))
}

/// A vector's alignment.
#[tactic(auto, using(crate::proofs::SpecFaults::vector_size_told, crate::proofs::SpecFaults::vector_told, crate::proofs::SpecFaults::vector_read))]
fn vector<'a>(word: &'a str, parts: Option<&'a str>) -> Result<Setting, TargetDataLayoutError<'a>>
    requires { slice_index word.now 0 ≡ 118 }
    ensures { IsReading
        (setting_in (vector word.now (spec_parts_left 58 (option_copied parts.entry)))) result }
{
    let size = size(tail(word), "v")?;
    let align = alignment(parts, word)?;
    Ok(Setting::Vector(size, align))
}

/// A spec whose first part is no word of its own.
fn lettered_spec<'a>(
    word: &'a str,
    parts: Option<&'a str>,
) -> Result<Setting, TargetDataLayoutError<'a>>
    ensures { IsReading (setting_in
        (lettered_row word.now (spec_parts_left 58 (option_copied parts.entry)))) result }
{
    if begins(word, 'p') & has_parts(parts) {
        pointer_spec(tail(word), parts)
    } else if begins(word, 'i') {
        integer(word, parts)
    } else if begins(word, 'v') {
        vector(word, parts)
    } else {
        Ok(Setting::Nothing)
    }
}

/// What a spec sets. The first row that fits its first part is the one used; the error is its
/// first fault.
pub(crate) fn read_spec<'a>(spec: &'a str) -> Result<Setting, TargetDataLayoutError<'a>>
    ensures { IsReading (setting_of spec.now) result }
{
    let (word, parts) = split_at_mark(spec, ':');
    let alone = !has_parts(parts);
    if alone & (word == "e") {
        Ok(Setting::Order(Endian::Little))
    } else if alone & (word == "E") {
        Ok(Setting::Order(Endian::Big))
    } else if alone & begins(word, 'P') {
        instructions(tail(word))
    } else if let Some(named) = aligned_word(word) {
        aligned_spec(named, word, parts)
    } else {
        lettered_spec(word, parts)
    }
}
