//! Reads the words of a struct whose order is handed in that are none of a type within it.

ghost use Rattle.std.specs.Prelude.{◌≡◌, codes};
ghost use Rattle.std.specs.Str.{bytes_eq};
ghost use Rattle.abi_text.specs.Numbers.{number_of_bits};
ghost use Rattle.abi_text.specs.Reading.{Agrees, at_fields_opening, at_index, at_order_opening, at_order_repr, begun_in, next_in_order, state_of};
ghost use Rattle.abi_text.specs.Repr.{struct_repr};

use crate::fault::Fault;
use crate::number::decimal;
use crate::reader::begun::{Open, OrderWant, Reader, Want};
use crate::reader::close::close;
use crate::reader::repr_text::{StructRepr, struct_repr};
use std::alloc::Global;

/// Reads the repr.
fn read_order_repr(number: u64, reader: &mut Reader, word: &[u8]) -> Result<(), Fault>
    ensures { Agrees (λ _. state_of reader.new)
        (at_order_repr number (begun_in reader.old.begun.items) (struct_repr word.now)) result }
{
    match struct_repr(word) {
        Some(asked) => {
            reader.want = Want::Order(OrderWant::Opening(asked));
            Ok(())
        }
        None => Err(Fault::Unreadable(number)),
    }
}

/// Reads the parenthesis that opens the order.
fn read_order_opening(
    alloc: Global,
    number: u64,
    asked: StructRepr,
    reader: &mut Reader,
    word: &[u8],
) -> Result<(), Fault>
    ensures { Agrees (λ _. state_of reader.new)
        (at_order_opening number asked (begun_in reader.old.begun.items)
        (bytes_eq word.now (codes "("))) result }
{
    if word == b"(".as_slice() {
        let order = Open::Ordering(asked, Vec::new(alloc));
        reader.begun.push(order)?;
        reader.want = Want::Order(OrderWant::Index);
        Ok(())
    } else {
        Err(Fault::Unreadable(number))
    }
}

/// Reads the order's next index, or the parenthesis that ends the order.
fn read_index(alloc: Global, number: u64, reader: &mut Reader, word: &[u8]) -> Result<(), Fault>
    ensures { Agrees (λ _. state_of reader.new)
        (at_index number (bytes_eq word.now (codes ")")) (begun_in reader.old.begun.items)
        (number_of_bits 64 word.now)) result }
{
    if word == b")".as_slice() {
        return close(alloc, number, reader);
    }
    match (reader.begun.pop(), decimal(word)) {
        (Some(Open::Ordering(asked, mut order)), Some(index)) => {
            order.push(index)?;
            let order = Open::Ordering(asked, order);
            reader.begun.push(order)?;
            reader.want = Want::Order(OrderWant::Index);
            Ok(())
        }
        _ => Err(Fault::Unreadable(number)),
    }
}

/// Reads the parenthesis that opens the fields.
fn read_fields_opening(
    alloc: Global,
    number: u64,
    reader: &mut Reader,
    word: &[u8],
) -> Result<(), Fault>
    ensures { Agrees (λ _. state_of reader.new)
        (at_fields_opening number (begun_in reader.old.begun.items) (bytes_eq word.now
        (codes "("))) result }
{
    match (reader.begun.pop(), word == b"(".as_slice()) {
        (Some(Open::Ordering(asked, order)), true) => {
            let fields = Open::Ordered(asked, order, Vec::new(alloc));
            reader.begun.push(fields)?;
            reader.want = Want::Tree;
            Ok(())
        }
        _ => Err(Fault::Unreadable(number)),
    }
}

/// Reads the next word, of this number, of a struct whose order is handed in, where no type may come.
pub(crate) fn read_order_word(
    alloc: Global,
    number: u64,
    want: OrderWant,
    reader: &mut Reader,
    word: &[u8],
) -> Result<(), Fault>
    ensures { Agrees (λ _. state_of reader.new)
        (next_in_order number (begun_in reader.old.begun.items) word.now want) result }
{
    match want {
        OrderWant::Repr => read_order_repr(number, reader, word),
        OrderWant::Opening(asked) => read_order_opening(alloc, number, asked, reader, word),
        OrderWant::Index => read_index(alloc, number, reader, word),
        OrderWant::FieldsOpening => read_fields_opening(alloc, number, reader, word),
    }
}
