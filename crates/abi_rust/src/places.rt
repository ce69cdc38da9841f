//! Where expressions stand, and faults in them.

ghost use Rattle.std.specs.Prelude.{◌≡◌};
ghost use Rattle.abi_rust.specs.Evaluating.{made_at};
ghost use Rattle.abi_rust.specs.Meaning.{Means};
ghost use Rattle.abi_rust.specs.Operators.{seen};
ghost use Rattle.abi_rust.specs.Values.{value_as_read};
ghost use Rattle.abi_rust.specs.Places.{place_of_expr, place_of_path};

use crate::fault::{FaultKind, Stop, stop_at};
use crate::ty::ConstValue;
use rust_source::{Expr, Path, Place};

/// Where an expression stands.
pub(crate) fn place_of(expr: &Expr) -> Place
    ensures { result ≡ place_of_expr expr.now }
{
    match expr {
        Expr::Integer(_, _, at) => *at,
        Expr::Char(_, at) => *at,
        Expr::Bool(_, at) => *at,
        Expr::Text(_, at) => *at,
        Expr::Path(path) => place_of_path(path),
        Expr::Call(_, _, at) => *at,
        Expr::Unary(_, _, at) => *at,
        Expr::Binary(_, _, _, at) => *at,
        Expr::Cast(_, _, at) => *at,
        Expr::If(_, _, _, at) => *at,
        Expr::Let(_, _, _, _, at) => *at,
        Expr::Unevaluated(_, at) => *at,
    }
}

/// Where a path's last name stands.
#[tactic(auto, unfolding(crate::specs::Places::place_of_path))]
pub(crate) fn place_of_path(path: &Path) -> Place
    ensures { result ≡ place_of_path path.now }
{
    match path.segments.last() {
        Some(segment) => segment.at,
        None => Place(0),
    }
}

/// A fault at a place, where there is one.
pub(crate) fn at_place(at: Place, found: Result<ConstValue, FaultKind>) -> Result<ConstValue, Stop>
    ensures { Means value_as_read (made_at at (seen value_as_read found)) result }
{
    match found {
        Ok(value) => Ok(value),
        Err(kind) => Err(stop_at(at, kind)),
    }
}
