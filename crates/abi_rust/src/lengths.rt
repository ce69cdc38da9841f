//! The lengths of arrays and strings that constants are.

ghost use Rattle.std.specs.Prelude.{◌≡◌};
ghost use Rattle.std.specs.Option.{option_copied, option_map};
ghost use Rattle.abi_rust.specs.Evaluating.{asks_length, bytes_asked, bytes_of, bytes_of_item, length_asked, length_of, length_of_item, length_read, length_written};
ghost use Rattle.abi_rust.specs.Kinds.{item_at};
ghost use Rattle.abi_rust.specs.Types.{where_of};

use crate::budget::{Context, Env};
use crate::constants::{constant_named, inside_constant, value_given};
use crate::kind::names_method;
use crate::paths::item_at;
use crate::words::Word;
use rust_source::{Expr, Item, ItemKind, Path, Type};

/// An array's length, and where it stands.
#[derive(Clone, Copy)]
pub(crate) struct LengthExpr<'a> {
    pub(crate) env: Env<'static>,
    pub(crate) length: &'a Expr,
}

/// Whether a path is that of the method `len`.
fn asks_length(cx: &Context<'_, '_>, path: &Path) -> bool
    ensures { result ≡ asks_length cx.now path.now }
{
    match path.segments.last() {
        Some(last) => names_method(path) && cx.scope.words.is(last.name, Word::Len),
        None => false,
    }
}

/// The length of the array that a type is, or points to.
fn length_written(ty: &Type) -> Option<&Expr>
    ensures { option_copied result ≡ length_written ty.now }
{
    match ty {
        Type::Array(_, length) => Some(length),
        Type::Reference(_, pointee) => length_written(pointee),
        _ => None,
    }
}

/// The length of the array that a constant is, or points to.
fn length_of_constant<'a>(cx: &Context<'a, '_>, number: u32) -> Option<LengthExpr<'a>>
    ensures { option_map length_read result ≡ length_of_item cx.now number
        (item_at cx.now.items.now cx.now.scope.now number) }
{
    let item = item_at(cx.items, number)?;
    match &item.kind {
        ItemKind::Const(constant) => Some(LengthExpr {
            env: inside_constant(cx, number, item),
            length: length_written(&constant.ty)?,
        }),
        _ => None,
    }
}

/// The length of the array that an expression is, where it names a constant that is one, or points to one.
fn length_of<'a>(cx: &Context<'a, '_>, env: Env<'_>, expr: &Expr) -> Option<LengthExpr<'a>>
    ensures { option_map length_read result ≡ length_of cx.now (where_of env.entry) expr.now }
{
    let Expr::Path(path) = expr else {
        return None;
    };
    let number = constant_named(cx, env, path)?;
    if value_given(cx, env, path).is_some() {
        return None;
    }
    length_of_constant(cx, number)
}

/// How many bytes the string has that a constant is.
fn bytes_of_constant(item: &Item) -> Option<u64>
    ensures { result ≡ bytes_of_item item.now.kind }
{
    let ItemKind::Const(constant) = &item.kind else {
        return None;
    };
    match &constant.value {
        Some(Expr::Text(bytes, _)) => Some(*bytes),
        _ => None,
    }
}

/// How many bytes the string has that an expression is: a literal, or a constant that is one.
fn bytes_of(cx: &Context<'_, '_>, env: Env<'_>, expr: &Expr) -> Option<u64>
    ensures { result ≡ bytes_of cx.now (where_of env.entry) expr.now }
{
    match expr {
        Expr::Text(bytes, _) => Some(*bytes),
        Expr::Path(path) => {
            if value_given(cx, env, path).is_some() {
                return None;
            }
            bytes_of_constant(item_at(cx.items, constant_named(cx, env, path)?)?)
        }
        _ => None,
    }
}

/// How many bytes the string has that an expression is, where the method `len` is called on it.
pub(crate) fn bytes_asked(
    cx: &Context<'_, '_>,
    env: Env<'_>,
    path: &Path,
    text: &Expr,
) -> Option<u64>
    ensures { result ≡ bytes_asked cx.now (where_of env.entry) path.now text.now }
{
    if asks_length(cx, path) {
        bytes_of(cx, env, text)
    } else {
        None
    }
}

/// The length of the array that an expression is, where the method `len` is called on it.
pub(crate) fn length_asked<'a>(
    cx: &Context<'a, '_>,
    env: Env<'_>,
    path: &Path,
    array: &Expr,
) -> Option<LengthExpr<'a>>
    ensures { option_map length_read result ≡ length_asked cx.now (where_of env.entry) path.now array.now }
{
    if asks_length(cx, path) {
        length_of(cx, env, array)
    } else {
        None
    }
}
