//! Blocks: `let`s, and the expression behind them.

ghost use Rattle.std.specs.Prelude.{◌≡◌, IfErr, IfOk};
ghost use Rattle.rust_source.specs.Names.{texts};
ghost use Rattle.rust_source.specs.Reading.{Reads};
ghost use Rattle.rust_source.specs.Syntax.{expr_of, local, other_type, type_of};
ghost use Rattle.rust_source.specs.Terms.{block_read, block_with, local_read, local_type, readers};

use crate::fault::{SourceFault, SourceFaultKind};
use crate::names::Names;
use crate::place::{Place, Symbol};
use crate::reader::cursor::{Cursor, expect, place, take, take_word};
use crate::reader::depth::one_level_deeper;
use crate::reader::expressions::{read_expression, read_joined};
use crate::reader::naming::take_name;
use crate::reader::types::read_type;
use crate::syntax::{Expr, Type, Unevaluated};
use crate::tokens::keyword::Keyword;
use std::alloc::Global;

/// The name of a `let`, and where that stands.
#[derive(Clone, Copy)]
pub(crate) struct LocalName {
    pub(crate) name: Symbol,
    pub(crate) at: Place,
}

/// A type that isn't written, and is inferred.
pub(crate) fn inferred(at: Place) -> Type
    ensures { type_of result ≡ other_type Unevaluated.Inferred at }
{
    Type::Unevaluated(Unevaluated::Inferred, at)
}

/// A `let` of a value of a type, and what follows it.
pub(crate) fn with_local(
    alloc: Global,
    named: LocalName,
    ty: Type,
    value: Expr,
    rest: Expr,
) -> Result<Expr, SourceFault>
    ensures ok { IfOk result (λ whole. expr_of whole
        ≡ local named.name.0 (type_of ty) (expr_of value) (expr_of rest) named.at) }
    ensures err { IfErr result (λ fault. fault.kind ≡ SourceFaultKind.OutOfMemory) }
{
    let ty = Box::new(alloc, ty)?;
    let value = Box::new(alloc, value)?;
    let rest = Box::new(alloc, rest)?;
    Ok(Expr::Let(named.name, ty, value, rest, named.at))
}

/// The type of a `let`, behind its name.
#[cycle(terms)]
fn read_local_type(
    names: &mut Names,
    cursor: &mut Cursor<'_>,
    depth_left: u32,
) -> Result<Type, SourceFault>
    ensures { Reads (λ ty. (type_of ty, cursor.new))
        (local_type (readers depth_left) cursor.old (texts names.old)) (texts names.new) result }
{
    if take(cursor, b':') {
        return read_type(names, cursor, depth_left);
    }
    Ok(inferred(place(cursor)))
}

/// A `let`, behind its name, with what follows it.
#[cycle(terms)]
#[tactic(auto, unfolding(crate::specs::Terms::local_read))]
fn read_local(
    names: &mut Names,
    cursor: &mut Cursor<'_>,
    named: LocalName,
    depth_left: u32,
) -> Result<Expr, SourceFault>
    ensures { Reads (λ value. (expr_of value, cursor.new))
        (local_read (readers depth_left) named.name named.at cursor.old (texts names.old)) (texts names.new) result }
{
    let ty = read_local_type(names, cursor, depth_left)?;
    expect(cursor, b'=', SourceFaultKind::ExpectedExpression)?;
    let value = read_expression(names, cursor, depth_left)?;
    expect(cursor, b';', SourceFaultKind::ExpectedSemicolon)?;
    let rest = read_block(names, cursor, depth_left)?;
    with_local(names.alloc(), named, ty, value, rest)
}

/// What stands in braces, one level deeper.
#[cycle(terms)]
#[tactic(auto, unfolding(crate::specs::Terms::block_with))]
fn read_block_within(
    names: &mut Names,
    cursor: &mut Cursor<'_>,
    depth_left: u32,
) -> Result<Expr, SourceFault>
    ensures { Reads (λ value. (expr_of value, cursor.new))
        (block_with (readers depth_left) cursor.old (texts names.old)) (texts names.new) result }
{
    let at = place(cursor);
    if !take_word(cursor, Keyword::Let) {
        return read_joined(names, cursor, depth_left);
    }
    let (name, _at) = take_name(names, cursor)?;
    read_local(names, cursor, LocalName { name, at }, depth_left)
}

/// What stands in braces: `let`s, and the expression behind them.
#[cycle(terms)]
#[tactic(auto, using(crate::proofs::Depths::block_less, crate::proofs::Depths::block_none))]
pub(crate) fn read_block(
    names: &mut Names,
    cursor: &mut Cursor<'_>,
    depth_left: u32,
) -> Result<Expr, SourceFault>
    ensures { Reads (λ value. (expr_of value, cursor.new))
        (block_read depth_left cursor.old (texts names.old)) (texts names.new) result }
{
    let depth_left = one_level_deeper(cursor, depth_left)?;
    read_block_within(names, cursor, depth_left)
}
