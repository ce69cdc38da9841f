//! Literals' values.

ghost use Rattle.std.specs.Prelude.{◌≡◌};
ghost use Rattle.abi_rust.specs.Evaluating.{inner_kind, literal, literal_kind};
ghost use Rattle.abi_rust.specs.Int.{number_of_int};
ghost use Rattle.abi_rust.specs.Meaning.{Means};
ghost use Rattle.abi_rust.specs.Values.{value_as_read};

use crate::budget::Context;
use crate::fault::{FaultKind, Stop, stop_at};
use crate::int::{Int, Width};
use crate::operators::fitting;
use crate::places::at_place;
use crate::ty::{ConstValue, Kind};
use rust_source::{Expr, IntegerKind, Place};

/// The type of a literal: of its suffix, the one that is wanted, or an `i32`.
fn literal_kind(suffix: Option<IntegerKind>, wanted: Option<Kind>) -> Option<IntegerKind>
    ensures { result ≡ literal_kind suffix wanted }
{
    match suffix {
        Some(kind) => Some(kind),
        None => match wanted {
            Some(Kind::Integer(kind)) => Some(kind),
            Some(_) => None,
            None => Some(IntegerKind::I32),
        },
    }
}

/// A literal's value: of the type of its suffix, of the one that is wanted, or an `i32`.
pub(crate) fn literal(
    cx: &Context<'_, '_>,
    int: Int,
    suffix: Option<IntegerKind>,
    wanted: Option<Kind>,
    at: Place,
) -> Result<ConstValue, Stop>
    ensures { Means value_as_read (literal cx.now.pointer_bits (number_of_int int) suffix wanted at) result }
{
    let Some(kind) = literal_kind(suffix, wanted) else {
        return Err(stop_at(at, FaultKind::WrongType));
    };
    let width = Width::of(kind, cx.pointer_bits);
    if int.is_below(Int::positive(0)) && !width.is_signed {
        return Err(stop_at(at, FaultKind::WrongType));
    }
    at_place(at, fitting(kind, width, Some(int)))
}

/// The type that a literal has behind which a cast to a type stands.
pub(crate) fn inner_kind(operand: &Expr, kind: Kind) -> Option<Kind>
    ensures { result ≡ inner_kind kind operand.now }
{
    match operand {
        Expr::Integer(_, _, _) => match kind {
            Kind::Char => Some(Kind::Integer(IntegerKind::U8)),
            Kind::Integer(_) => Some(kind),
            Kind::Bool => None,
        },
        Expr::Unary(_, operand, _) => inner_kind(operand, kind),
        _ => None,
    }
}
