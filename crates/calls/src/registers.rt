//! Calls of registers and of calling conventions.

ghost use Rattle.std.specs.Prelude.{IsTrue};
ghost use Rattle.abi_types.specs.Reg.{HasAlign};

use crate::command::Command;
use crate::print::{write_align, write_true};
use crate::stop::{Clause, Name, Refusal};
use abi_base::{Integer, Primitive, RegKind, Size, TargetDataLayout};
use abi_types::{CVariadicStatus, ExternAbi, Reg, all_names};
use std::alloc::{AllocError, Global};

/// Writes a register: its kind and its size in bytes.
pub(crate) fn write_reg(command: &mut Command, reg: Reg) {
    command.write(kind_name(reg.kind));
    command.write_with_number(" ", reg.size.bytes());
    if let RegKind::Vector { hint_vector_elem } = reg.kind {
        command.write(" of ");
        command.write_primitive(hint_vector_elem);
    }
}

const KINDS: [(&[u8], RegKind); 4] = [
    (b"Integer", RegKind::Integer),
    (b"Float", RegKind::Float),
    (b"PpcF128", RegKind::PpcF128),
    (b"Vector", SIGNED_BYTES),
];

/// A vector of signed bytes.
const SIGNED_BYTES: RegKind = RegKind::Vector {
    hint_vector_elem: Primitive::Int(Integer::I8, true),
};

/// Whether a register has an alignment.
fn has_align(dl: &TargetDataLayout, reg: Reg) -> bool
    ensures { IsTrue result → HasAlign dl.now reg }
{
    let bytes = reg.size.bytes();
    match reg.kind {
        RegKind::Integer => bytes >= 1 && bytes <= 16,
        RegKind::Float => bytes == 2 || bytes == 4 || bytes == 8 || bytes == 16,
        RegKind::PpcF128 => true,
        RegKind::Vector { .. } => bytes <= 1 << 29 || dl.vector_align.get(reg.size).is_some(),
    }
}

/// Writes the alignment of the register of the kind and the size that are next.
fn write_reg_align(dl: &TargetDataLayout, command: &mut Command) {
    let kind = command.one_of(&KINDS, RegKind::Integer);
    let size = command.size();
    let reg = Reg { kind, size };
    if has_align(dl, reg) {
        write_align(command, reg.align(dl));
    } else {
        command.lacks(Clause::Align);
    }
}

/// The name of a kind of register.
fn kind_name(kind: RegKind) -> &'static str {
    match kind {
        RegKind::Integer => "Integer",
        RegKind::Float => "Float",
        RegKind::PpcF128 => "PpcF128",
        RegKind::Vector { .. } => "Vector",
    }
}

/// The convention of the name that is next.
fn convention(command: &mut Command) -> ExternAbi {
    let name = command.text();
    match command.text_at(name).parse::<ExternAbi>() {
        Ok(abi) => abi,
        Err(_) => {
            command.stop(Refusal::Refused(Name::Unknown));
            ExternAbi::Rust
        }
    }
}

/// Writes a convention's number and name, and what it is fit for.
fn write_convention(command: &mut Command, abi: ExternAbi) {
    command.write_with_number("", u64::from(abi.as_packed()));
    command.write(" ");
    command.write(abi.as_str());
    command.write(" ");
    command.write_shown(&abi);
    command.write(" ");
    let variadic = abi.supports_c_variadic();
    write_true(
        command,
        &[
            ("rustic", abi.is_rustic_abi()),
            ("variadic", variadic == CVariadicStatus::Stable),
            ("tail-call", abi.supports_guaranteed_tail_call()),
            ("fn-trait", abi.is_fn_trait_compatible()),
        ],
    );
}

/// Writes the names of all conventions.
fn write_names(command: &mut Command) -> Result<(), AllocError> {
    let names = all_names(command.alloc)?;
    let mut between = "";
    for name in &names {
        command.write(between);
        command.write(*name);
        between = " ";
    }
    Ok(())
}

/// Answers the call; whether it is one of these.
pub(crate) fn answers(dl: &TargetDataLayout, command: &mut Command) -> bool {
    if command.is_named(b"reg-align") {
        write_reg_align(dl, command);
    } else if command.is_named(b"convention") {
        let abi = convention(command);
        write_convention(command, abi);
    } else if command.is_named(b"convention-names") {
        if write_names(command).is_err() {
            command.mark_cut();
        }
    } else {
        return false;
    }
    true
}
