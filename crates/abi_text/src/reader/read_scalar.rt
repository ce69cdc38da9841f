//! Reads the words of a scalar.

ghost use Rattle.std.specs.Prelude.{◌≡◌, IfErr, OnOk};
ghost use Rattle.abi_text.specs.Numbers.{number_of_bits};
ghost use Rattle.abi_text.specs.Reading.{Agrees, at_end, at_primitive, at_scalar, at_space, at_start, begin_scalar, begun_in, is_primitive, state_of};
ghost use Rattle.abi_text.specs.ScalarWords.{scalar_word};

use crate::fault::Fault;
use crate::number::{number_u32, number_u128};
use crate::reader::begun::{
    Open, Reader, ScalarForm, ScalarPlace, Want, put_primitive, put_scalar,
};
use crate::reader::scalar_word::{ScalarWord, scalar_word};
use crate::reader::scalars::{a_bool, a_char, a_ref, default_pointer, index_primitive};
use abi_base::{AddressSpace, Primitive, TargetDataLayout};
use abi_scalar::{Scalar, WrappingRange};
use std::alloc::Global;

/// Reads a word that begins a scalar, whose primitive, if it is one, makes a scalar of this form.
pub(crate) fn begin_scalar(
    alloc: Global,
    dl: &TargetDataLayout,
    form: ScalarForm,
    place: ScalarPlace,
    reader: &mut Reader,
    word: ScalarWord,
) -> Result<(), Fault>
    ensures ok { OnOk result (state_of reader.new
        ≡ begin_scalar dl.now form place (begun_in reader.old.begun.items) word) }
    ensures err { IfErr result (λ fault. fault ≡ Fault.OutOfMemory) }
{
    match word {
        ScalarWord::Integer(integer, signed) => {
            put_primitive(
                alloc,
                dl,
                Primitive::Int(integer, signed),
                form,
                place,
                reader,
            )
        }
        ScalarWord::Index(signed) => {
            put_primitive(alloc, dl, index_primitive(dl, signed), form, place, reader)
        }
        ScalarWord::Float(float) => {
            put_primitive(alloc, dl, Primitive::Float(float), form, place, reader)
        }
        ScalarWord::Pointer => put_primitive(alloc, dl, default_pointer(), form, place, reader),
        ScalarWord::PointerIn => {
            reader.want = Want::Space(form, place);
            Ok(())
        }
        ScalarWord::Bool => put_scalar(alloc, a_bool(), place, reader),
        ScalarWord::Char => put_scalar(alloc, a_char(), place, reader),
        ScalarWord::Ref => put_scalar(alloc, a_ref(dl), place, reader),
        ScalarWord::Range => {
            reader.want = Want::Primitive(ScalarForm::Range, place);
            Ok(())
        }
        ScalarWord::UnionOf => {
            reader.want = Want::Primitive(ScalarForm::Union, place);
            Ok(())
        }
    }
}

/// Whether the word begins a primitive.
fn is_primitive(word: ScalarWord) -> bool
    ensures { result ≡ is_primitive word }
{
    match word {
        ScalarWord::Integer(_, _) => true,
        ScalarWord::Index(_) => true,
        ScalarWord::Float(_) => true,
        ScalarWord::Pointer => true,
        ScalarWord::PointerIn => true,
        _ => false,
    }
}

/// Reads a word where a pair's scalar stands.
pub(crate) fn read_scalar(
    alloc: Global,
    dl: &TargetDataLayout,
    number: u64,
    place: ScalarPlace,
    reader: &mut Reader,
    word: &[u8],
) -> Result<(), Fault>
    ensures { Agrees (λ _. state_of reader.new)
        (at_scalar dl.now number place (begun_in reader.old.begun.items)
        (scalar_word word.now)) result }
{
    match scalar_word(word) {
        Some(scalar) => begin_scalar(alloc, dl, ScalarForm::Full, place, reader, scalar),
        None => Err(Fault::Unreadable(number)),
    }
}

/// Reads a word where a range's primitive, or that of a union's scalar, stands.
pub(crate) fn read_primitive(
    alloc: Global,
    dl: &TargetDataLayout,
    number: u64,
    form: ScalarForm,
    place: ScalarPlace,
    reader: &mut Reader,
    word: &[u8],
) -> Result<(), Fault>
    ensures { Agrees (λ _. state_of reader.new)
        (at_primitive dl.now number form place (begun_in reader.old.begun.items)
        (scalar_word word.now)) result }
{
    let Some(scalar) = scalar_word(word) else {
        return Err(Fault::Unreadable(number));
    };
    if is_primitive(scalar) {
        begin_scalar(alloc, dl, form, place, reader, scalar)
    } else {
        Err(Fault::Unreadable(number))
    }
}

/// Reads the number of an address space.
pub(crate) fn read_space(
    alloc: Global,
    dl: &TargetDataLayout,
    number: u64,
    form: ScalarForm,
    place: ScalarPlace,
    reader: &mut Reader,
    word: &[u8],
) -> Result<(), Fault>
    ensures { Agrees (λ _. state_of reader.new)
        (at_space dl.now number form place (begun_in reader.old.begun.items)
        (number_of_bits 32 word.now)) result }
{
    match number_u32(word) {
        Some(space) => {
            let value = Primitive::Pointer(AddressSpace(space));
            put_primitive(alloc, dl, value, form, place, reader)
        }
        None => Err(Fault::Unreadable(number)),
    }
}

/// Reads the start of a range.
pub(crate) fn read_start(
    number: u64,
    value: Primitive,
    place: ScalarPlace,
    reader: &mut Reader,
    word: &[u8],
) -> Result<(), Fault>
    ensures { Agrees (λ _. state_of reader.new)
        (at_start number value place (begun_in reader.old.begun.items)
        (number_of_bits 128 word.now)) result }
{
    match number_u128(word) {
        Some(start) => {
            reader.want = Want::RangeEnd(value, start, place);
            Ok(())
        }
        None => Err(Fault::Unreadable(number)),
    }
}

/// Reads the end of a range.
pub(crate) fn read_end(
    alloc: Global,
    number: u64,
    value: Primitive,
    start: u128,
    place: ScalarPlace,
    reader: &mut Reader,
    word: &[u8],
) -> Result<(), Fault>
    ensures { Agrees (λ _. state_of reader.new)
        (at_end number value start place (begun_in reader.old.begun.items)
        (number_of_bits 128 word.now)) result }
{
    match number_u128(word) {
        Some(end) => {
            let valid_range = WrappingRange { start, end };
            put_scalar(
                alloc,
                Scalar::Initialized { value, valid_range },
                place,
                reader,
            )
        }
        None => Err(Fault::Unreadable(number)),
    }
}
