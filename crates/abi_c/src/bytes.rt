//! What may be done with the bytes of types, as numbers.

ghost use Rattle.std.specs.Prelude.{◌≡◌, ◌++◌, ◌⊎◌, IfOk, OnOk};
ghost use Rattle.automata.specs.Cell.{letter_of};
ghost use Rattle.abi_base.specs.declared.data_layout.TargetDataLayout.{TargetDataLayout as Target};
ghost use Rattle.abi_tree.specs.Laid.{placed_of};
ghost use Rattle.abi_tree.specs.declared.laid.Laid.{Laid as OneLaid};
ghost use Rattle.abi_tree.specs.Tree.{Tree};
ghost use Rattle.abi_c.specs.Flat.{reply_of};
ghost use Rattle.abi_c.specs.FlatBytes.{IsBytesOf, IsLaidAs, IsReplyOfNone, IsReplyOfTwo, IsTransmuteOf};
ghost use Rattle.abi_c.specs.FlatValues.{IsReplyOfLaid};
ghost use Rattle.abi_c.specs.LaidType.{IsLaidFrom};
ghost use Rattle.abi_c.specs.Numbers.FlatCells.{flat_cells, flat_from, flat_goes, flat_into, flat_zeros};

use crate::flat::{FlatAnswer, one_number};
use crate::laid_type::{LayoutFailure, lay_type};
use crate::numbers::write_bytes;
use abi_bytes::{
    FromBytes, FromZeros, Goes, IntoBytes, is_from_bytes, is_from_zeros, is_into_bytes, transmute,
};
use abi_tree::Laid;
use std::alloc::{AllocError, Global};

/// The letter of a cell: a byte, or 256 where nothing is initialised.
fn letter_of(cell: Option<u8>) -> u64
    ensures { result ≡ letter_of cell }
{
    match cell {
        Some(byte) => u64::from(byte),
        None => 256,
    }
}

/// Adds the number of an answer, and its cells behind their count.
fn write_cells(out: &mut Vec<u64>, answer: u64, cells: &[Option<u8>]) -> Result<(), AllocError>
    ensures { OnOk result (out.new.items ≡ out.old.items ++ flat_cells answer cells.now) }
{
    out.extend_from_slice(&[answer, cells.len() as u64])?;
    for cell in cells {
        out.push(letter_of(*cell))?;
    }
    Ok(())
}

/// Adds whether each value of one type is one of another.
fn write_goes(out: &mut Vec<u64>, goes: &Goes) -> Result<(), AllocError>
    ensures { OnOk result (out.new.items ≡ out.old.items ++ flat_goes goes.now) }
{
    match goes {
        Goes::Yes => write_cells(out, 0, &[]),
        Goes::No(cells) => write_cells(out, 1, cells.as_slice()),
        Goes::OtherSize => write_cells(out, 2, &[]),
        Goes::TooLarge => write_cells(out, 3, &[]),
    }
}

/// Adds whether zero bytes hold a value.
fn write_zeros(out: &mut Vec<u64>, answer: FromZeros) -> Result<(), AllocError>
    ensures { OnOk result (out.new.items ≡ out.old.items ++ flat_zeros answer) }
{
    match answer {
        FromZeros::Yes => write_cells(out, 0, &[]),
        FromZeros::No => write_cells(out, 1, &[]),
        FromZeros::TooLarge => write_cells(out, 3, &[]),
    }
}

/// Adds whether all bytes hold a value.
fn write_from(out: &mut Vec<u64>, answer: &FromBytes) -> Result<(), AllocError>
    ensures { OnOk result (out.new.items ≡ out.old.items ++ flat_from answer.now) }
{
    match answer {
        FromBytes::Yes => write_cells(out, 0, &[]),
        FromBytes::No(bytes) => {
            out.push(1)?;
            write_bytes(out, bytes.as_slice())
        }
        FromBytes::TooLarge => write_cells(out, 3, &[]),
    }
}

/// Adds whether all that holds a value is initialised.
fn write_into(out: &mut Vec<u64>, answer: &IntoBytes) -> Result<(), AllocError>
    ensures { OnOk result (out.new.items ≡ out.old.items ++ flat_into answer.now) }
{
    match answer {
        IntoBytes::Yes => write_cells(out, 0, &[]),
        IntoBytes::No(cells) => write_cells(out, 1, cells.as_slice()),
        IntoBytes::TooLarge => write_cells(out, 3, &[]),
    }
}

/// The answers about the bytes of a laid-out type.
fn numbers_of_laid(alloc: Global, laid: &Laid) -> Result<FlatAnswer, AllocError>
    ensures { IfOk result (λ a. (dl : Target) (t : Tree) → IsLaidFrom dl t laid.now →
        IsBytesOf dl t (placed_of laid.now) (reply_of a)) }
{
    let zeros = is_from_zeros(alloc, laid)?;
    let from = is_from_bytes(alloc, laid)?;
    let into = is_into_bytes(alloc, laid)?;
    let mut numbers = Vec::new(alloc);
    write_zeros(&mut numbers, zeros)?;
    write_from(&mut numbers, &from)?;
    write_into(&mut numbers, &into)?;
    Ok(FlatAnswer { status: 0, numbers })
}

/// The answers about the bytes of the type with these numbers. `AllocError` where a growth of memory was refused.
pub(crate) fn answer_bytes(
    alloc: Global,
    string: &[u8],
    tree: &[u64],
) -> Result<FlatAnswer, AllocError>
    ensures { IfOk result (λ a. IsReplyOfLaid IsBytesOf string.now tree.now (reply_of a)) }
{
    match lay_type(alloc, string, tree) {
        Ok(laid) => numbers_of_laid(alloc, &laid),
        Err(LayoutFailure::Refused { status, number }) => one_number(alloc, status, number),
        Err(LayoutFailure::OutOfMemory) => Err(AllocError),
    }
}

/// The answer whether each value of a laid-out type is one of another.
fn numbers_of_two(alloc: Global, a: &Laid, b: &Laid) -> Result<FlatAnswer, AllocError>
    ensures { IfOk result (λ r. IsTransmuteOf a.now b.now (reply_of r)) }
{
    let transmuted = transmute(alloc, a, b)?;
    let mut numbers = Vec::new(alloc);
    numbers.push(u64::from(transmuted.has_pointer))?;
    write_goes(&mut numbers, &transmuted.goes)?;
    Ok(FlatAnswer { status: 0, numbers })
}

/// The same of a laid-out type and the type with these numbers.
fn answer_second(
    alloc: Global,
    string: &[u8],
    a: &Laid,
    second: &[u64],
) -> Result<FlatAnswer, AllocError>
    ensures { IfOk result (λ r. ((b : OneLaid) × IsLaidAs string.now second.now b × IsTransmuteOf a.now b (reply_of r))
        ⊎ IsReplyOfNone string.now second.now (reply_of r)) }
{
    match lay_type(alloc, string, second) {
        Ok(b) => numbers_of_two(alloc, a, &b),
        Err(LayoutFailure::Refused { status, number }) => one_number(alloc, status, number),
        Err(LayoutFailure::OutOfMemory) => Err(AllocError),
    }
}

/// The same of the types with these numbers. `AllocError` where a growth of memory was refused.
pub(crate) fn answer_transmute(
    alloc: Global,
    string: &[u8],
    first: &[u64],
    second: &[u64],
) -> Result<FlatAnswer, AllocError>
    ensures { IfOk result (λ r. IsReplyOfTwo IsTransmuteOf string.now first.now second.now (reply_of r)) }
{
    match lay_type(alloc, string, first) {
        Ok(a) => answer_second(alloc, string, &a, second),
        Err(LayoutFailure::Refused { status, number }) => one_number(alloc, status, number),
        Err(LayoutFailure::OutOfMemory) => Err(AllocError),
    }
}
