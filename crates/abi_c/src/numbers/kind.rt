//! Kinds of types.

ghost use Rattle.std.specs.Prelude.{◌≡◌, IfErr, IfOk, Some, drop};
ghost use Rattle.abi_c.specs.Numbers.Pieces.{Fails, front_as};
ghost use Rattle.abi_c.specs.Numbers.Kinds.{kind_numbered};

use crate::numbers::error::ReadError;
use crate::numbers::words::{numbered, read_word};

/// A kind of type, in the order of their numbers.
#[derive(Clone, Copy)]
pub(crate) enum TypeKind {
    Scalar,
    Pair,
    Never,
    Unit,
    Array,
    Vector,
    Struct,
    Ordered,
    Union,
    Enum,
    Coroutine,
}

const KINDS: [TypeKind; 11] = [
    TypeKind::Scalar,
    TypeKind::Pair,
    TypeKind::Never,
    TypeKind::Unit,
    TypeKind::Array,
    TypeKind::Vector,
    TypeKind::Struct,
    TypeKind::Ordered,
    TypeKind::Union,
    TypeKind::Enum,
    TypeKind::Coroutine,
];

/// The number of a kind.
pub(crate) fn read_kind(numbers: &[u64], at: &mut usize) -> Result<TypeKind, ReadError>
    ensures ok { IfOk result (λ a. front_as kind_numbered (drop at.old numbers.now) ≡
        Some (a, drop at.new numbers.now)) }
    ensures err { IfErr result (Fails (front_as kind_numbered (drop at.old numbers.now))) }
{
    let number = read_word(numbers, at)?;
    numbered(&KINDS, number)
}
