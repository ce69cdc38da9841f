//! Calls of laid-out types: what handles of them report, their padding, their values, and their bytes.

ghost use Rattle.std.specs.Prelude.{IsTrue};
ghost use Rattle.abi_tree.specs.Handles.{IsHandle};
ghost use Rattle.abi_types.specs.Ty.Runs.{IsVariantIndex};

use crate::bytes::{answer_transmute, write_byte_answers};
use crate::command::Command;
use crate::layouts::{Layout, laid_type};
use crate::print::write_runs;
use crate::registers::write_reg;
use crate::stop::{Clause, Refusal};
use crate::values::{answer_read, answer_write, write_decider};
use abi_base::TargetDataLayout;
use abi_index::VariantIdx;
use abi_scalar::Variants;
use abi_tree::Laid;
use abi_types::{Heterogeneous, HomogeneousAggregate, TyAndLayout};
use rustc_abi::TreeTy;
use std::alloc::{AllocError, Global};

/// A laid-out type, or a part of one.
type Handle<'a> = TyAndLayout<'a, TreeTy<'a>>;

/// Writes the register that a type is uniform with.
fn write_uniform(command: &mut Command, it: Handle<'_>)
    requires { IsHandle it }
{
    match it.homogeneous_aggregate(&()) {
        Ok(HomogeneousAggregate::Homogeneous(reg)) => write_reg(command, reg),
        Ok(HomogeneousAggregate::NoData) => command.write("NoData"),
        Err(Heterogeneous) => command.write("Heterogeneous"),
    }
}

/// Writes the padding of a type, by any of its variants.
fn write_padding(command: &mut Command, it: Handle<'_>) -> Result<(), Refusal>
    requires { IsHandle it }
{
    if it.data().is_unsized() {
        return Err(Refusal::Asks(Clause::Sized));
    }
    let padding = it.variant_independent_padding_ranges(command.alloc, &())?;
    write_runs(command, &padding);
    Ok(())
}

/// Writes the padding of a type, and how many of its nodes were read for it.
fn write_laid_padding(command: &mut Command, laid: &Laid) -> Result<(), AllocError> {
    let (padding, visits) = laid.padding(command.alloc)?;
    write_runs(command, &padding);
    command.write_with_number(" reads ", visits as u64);
    command.write_with_number(" of ", laid.node_count() as u64);
    Ok(())
}

/// The index of a variant; no line asks for one above a million.
fn variant_of(index: u64) -> Result<VariantIdx, Refusal> {
    if index > 1_000_000 {
        return Err(Refusal::Asks(Clause::Variant));
    }
    Ok(VariantIdx::from_usize(index as usize))
}

/// Whether the index is that of a variant, where a tag distinguishes several.
fn is_variant(layout: &Layout, index: VariantIdx) -> bool
    ensures { IsTrue result → IsVariantIndex layout.now.variants index }
{
    match &layout.variants {
        Variants::Multiple { variants, .. } => index.as_usize() < variants.len(),
        _ => true,
    }
}

/// Writes the bytes that other variants of a type use, and the one that is next doesn't.
fn write_unused(command: &mut Command, it: Handle<'_>) -> Result<(), Refusal>
    requires { IsHandle it }
{
    let index = variant_of(command.number())?;
    if !is_variant(it.data(), index) {
        return Err(Refusal::Asks(Clause::Variant));
    }
    let unused = it.variant_dependent_padding_ranges(command.alloc, &(), index)?;
    write_runs(command, &unused);
    Ok(())
}

/// Calls on a laid-out type.
#[derive(Clone, Copy)]
enum TypeCall {
    Uniform,
    Padding,
    LaidPadding,
    Unused,
    Write,
    Read,
    Decider,
    AllInhabited,
    Bytes,
    Transmute,
}

const TYPE_CALLS: [(&[u8], TypeCall); 10] = [
    (b"uniform", TypeCall::Uniform),
    (b"padding", TypeCall::Padding),
    (b"laid-padding", TypeCall::LaidPadding),
    (b"unused", TypeCall::Unused),
    (b"write", TypeCall::Write),
    (b"read", TypeCall::Read),
    (b"decider", TypeCall::Decider),
    (b"all-inhabited", TypeCall::AllInhabited),
    (b"bytes", TypeCall::Bytes),
    (b"transmute", TypeCall::Transmute),
];

/// Answers a call on a laid-out type.
fn answer(
    dl: &TargetDataLayout,
    command: &mut Command,
    asked: TypeCall,
    laid: &Laid,
) -> Result<(), Refusal> {
    match asked {
        TypeCall::Uniform => write_uniform(command, laid.root()),
        TypeCall::Padding => return write_padding(command, laid.root()),
        TypeCall::LaidPadding => return Ok(write_laid_padding(command, laid)?),
        TypeCall::Unused => return write_unused(command, laid.root()),
        TypeCall::Write => return answer_write(command, laid),
        TypeCall::Read => return answer_read(command, laid),
        TypeCall::Decider => return Ok(write_decider(command, laid)?),
        TypeCall::AllInhabited => command.write_truth(laid.all_inhabited()),
        TypeCall::Bytes => return Ok(write_byte_answers(command, laid)?),
        TypeCall::Transmute => return answer_transmute(dl, command, laid),
    }
    Ok(())
}

/// Answers a call on the type that is next.
fn call_on_type(
    dl: &TargetDataLayout,
    command: &mut Command,
    asked: TypeCall,
) -> Result<(), Refusal> {
    let laid = laid_type(dl, command)?;
    answer(dl, command, asked, &laid)
}

/// Answers the call; whether it is one of these.
pub(crate) fn answers(dl: &TargetDataLayout, command: &mut Command) -> bool {
    let Some(asked) = command.meaning_of_name(&TYPE_CALLS) else {
        return false;
    };
    let done = call_on_type(dl, command, asked);
    command.keep(done);
    true
}
