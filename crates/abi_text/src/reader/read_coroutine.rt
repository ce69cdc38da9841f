//! Reads the words of a coroutine that belong to no type within it.

ghost use Rattle.std.specs.Prelude.{◌≡◌, ◌∷◌, IfErr, OnOk, [], codes};
ghost use Rattle.std.specs.Str.{bytes_eq};
ghost use Rattle.abi_text.specs.Numbers.{number_of_bits};
ghost use Rattle.abi_text.specs.Reading.{Agrees, at_column, at_local, at_part_opening, at_row, at_state, begun_in, coroutine_with, in_prefix, next_in_coroutine, state_of, state_opened, waiting};

use crate::fault::Fault;
use crate::number::decimal;
use crate::reader::begun::{CoroutineParts, CoroutineWant, Open, Reader, Want, wait_for};
use crate::reader::close::close;
use std::alloc::Global;

/// Waits for the prefix fields of a coroutine.
pub(crate) fn open_coroutine(alloc: Global, reader: &mut Reader) -> Result<(), Fault>
    ensures ok { OnOk result (state_of reader.new
        ≡ waiting (Want.Coroutine CoroutineWant.TypesOpening)
        (coroutine_with (in_prefix []) ∷ begun_in reader.old.begun.items)) }
    ensures err { IfErr result (λ fault. fault ≡ Fault.OutOfMemory) }
{
    let parts = CoroutineParts::Prefix(Vec::new(alloc));
    wait_for(CoroutineWant::TypesOpening, parts, reader)
}

/// Reads the parenthesis that opens the prefix fields, or the locals, of a coroutine.
fn read_types_opening(number: u64, reader: &mut Reader, word: &[u8]) -> Result<(), Fault>
    ensures { Agrees (λ _. state_of reader.new) (at_part_opening number Want.Tree
        (begun_in reader.old.begun.items) (bytes_eq word.now (codes "("))) result }
{
    if word == b"(".as_slice() {
        reader.want = Want::Tree;
        Ok(())
    } else {
        Err(Fault::Unreadable(number))
    }
}

/// Reads the parenthesis that opens a part of a coroutine which has no types, and in which this comes next.
fn read_part_opening(
    number: u64,
    part: CoroutineWant,
    reader: &mut Reader,
    word: &[u8],
) -> Result<(), Fault>
    ensures { Agrees (λ _. state_of reader.new) (at_part_opening number (Want.Coroutine part)
        (begun_in reader.old.begun.items) (bytes_eq word.now (codes "("))) result }
{
    if word == b"(".as_slice() {
        reader.want = Want::Coroutine(part);
        Ok(())
    } else {
        Err(Fault::Unreadable(number))
    }
}

/// Begins a state, between the states.
fn open_state(alloc: Global, number: u64, reader: &mut Reader) -> Result<(), Fault>
    ensures { Agrees (λ _. state_of reader.new)
        (state_opened number (begun_in reader.old.begun.items)) result }
{
    match reader.begun.pop() {
        Some(Open::Coroutine(CoroutineParts::States(prefix, locals, states))) => {
            let parts = CoroutineParts::State(prefix, locals, states, Vec::new(alloc));
            wait_for(CoroutineWant::Local, parts, reader)
        }
        _ => Err(Fault::Unreadable(number)),
    }
}

/// Reads the parenthesis that opens a state, or the one that ends the states.
fn read_state(alloc: Global, number: u64, reader: &mut Reader, word: &[u8]) -> Result<(), Fault>
    ensures { Agrees (λ _. state_of reader.new) (at_state number (bytes_eq word.now (codes ")"))
        (bytes_eq word.now (codes "(")) (begun_in reader.old.begun.items)) result }
{
    if word == b")".as_slice() {
        return close(alloc, number, reader);
    }
    if word == b"(".as_slice() {
        open_state(alloc, number, reader)
    } else {
        Err(Fault::Unreadable(number))
    }
}

/// Reads the index of a state's next local, or the parenthesis that ends the state.
fn read_local(alloc: Global, number: u64, reader: &mut Reader, word: &[u8]) -> Result<(), Fault>
    ensures { Agrees (λ _. state_of reader.new)
        (at_local number (bytes_eq word.now (codes ")")) (begun_in reader.old.begun.items)
        (number_of_bits 64 word.now)) result }
{
    if word == b")".as_slice() {
        return close(alloc, number, reader);
    }
    match (reader.begun.pop(), decimal(word)) {
        (
            Some(Open::Coroutine(CoroutineParts::State(prefix, locals, states, mut indices))),
            Some(index),
        ) => {
            indices.push(index)?;
            let parts = CoroutineParts::State(prefix, locals, states, indices);
            wait_for(CoroutineWant::Local, parts, reader)
        }
        _ => Err(Fault::Unreadable(number)),
    }
}

/// Reads the row of the next conflict, or the parenthesis that ends the coroutine.
fn read_row(alloc: Global, number: u64, reader: &mut Reader, word: &[u8]) -> Result<(), Fault>
    ensures { Agrees (λ _. state_of reader.new)
        (at_row number (bytes_eq word.now (codes ")")) (begun_in reader.old.begun.items)
        (number_of_bits 64 word.now)) result }
{
    if word == b")".as_slice() {
        return close(alloc, number, reader);
    }
    match decimal(word) {
        Some(row) => {
            reader.want = Want::Coroutine(CoroutineWant::Column(row));
            Ok(())
        }
        None => Err(Fault::Unreadable(number)),
    }
}

/// Reads the column of a conflict with this row.
fn read_column(number: u64, row: u64, reader: &mut Reader, word: &[u8]) -> Result<(), Fault>
    ensures { Agrees (λ _. state_of reader.new)
        (at_column number row (begun_in reader.old.begun.items)
        (number_of_bits 64 word.now)) result }
{
    match (reader.begun.pop(), decimal(word)) {
        (
            Some(Open::Coroutine(CoroutineParts::Conflicts(prefix, locals, states, mut conflicts))),
            Some(column),
        ) => {
            conflicts.push((row, column))?;
            let parts = CoroutineParts::Conflicts(prefix, locals, states, conflicts);
            wait_for(CoroutineWant::Row, parts, reader)
        }
        _ => Err(Fault::Unreadable(number)),
    }
}

/// Reads a coroutine's next word, of this number, where no type may come.
pub(crate) fn read_coroutine_word(
    alloc: Global,
    number: u64,
    want: CoroutineWant,
    reader: &mut Reader,
    word: &[u8],
) -> Result<(), Fault>
    ensures { Agrees (λ _. state_of reader.new)
        (next_in_coroutine number (begun_in reader.old.begun.items) word.now want) result }
{
    match want {
        CoroutineWant::TypesOpening => read_types_opening(number, reader, word),
        CoroutineWant::StatesOpening => {
            read_part_opening(number, CoroutineWant::State, reader, word)
        }
        CoroutineWant::State => read_state(alloc, number, reader, word),
        CoroutineWant::Local => read_local(alloc, number, reader, word),
        CoroutineWant::ConflictsOpening => {
            read_part_opening(number, CoroutineWant::Row, reader, word)
        }
        CoroutineWant::Row => read_row(alloc, number, reader, word),
        CoroutineWant::Column(row) => read_column(number, row, reader, word),
    }
}
