//! Functions that constants call.

ghost use Rattle.std.specs.Prelude.{◌≡◌};
ghost use Rattle.std.specs.Option.{option_copied, option_map};
ghost use Rattle.abi_rust.specs.Kinds.{function_called, function_read, function_result, result_kind};
ghost use Rattle.abi_rust.specs.Types.{where_of};

use crate::budget::{Context, Env};
use crate::constants::constant_named;
use crate::kind::{kind_written, outside};
use crate::paths::item_at;
use crate::ty::Kind;
use rust_source::{Expr, Item, ItemKind, Path, Type};

/// A function that constants may call.
#[derive(Clone, Copy)]
pub(crate) struct Function<'a> {
    /// Its number among the items.
    pub(crate) number: u32,
    pub(crate) item: &'a Item,
    /// The type of its result.
    pub(crate) result: &'a Type,
    pub(crate) body: &'a Expr,
}

/// The type of the result, where a type is that of a function with its result alone.
fn function_result(ty: &Type) -> Option<&Type>
    ensures { option_copied result ≡ function_result ty.now }
{
    match ty {
        Type::Function(all) => all.first(),
        _ => None,
    }
}

/// The function that a path names, where constants may call it.
#[tactic(auto, unfolding(crate::specs::Kinds::function_called))]
pub(crate) fn function_called<'a>(
    cx: &Context<'a, '_>,
    env: Env<'_>,
    path: &Path,
) -> Option<Function<'a>>
    ensures { option_map function_read result ≡ function_called cx.now.items.now cx.now.scope.now (where_of env.entry) path.now }
{
    let number = constant_named(cx, env, path)?;
    let item = item_at(cx.items, number)?;
    let ItemKind::Const(constant) = &item.kind else {
        return None;
    };
    if !constant.is_function {
        return None;
    }
    Some(Function {
        number,
        item,
        result: function_result(&constant.ty)?,
        body: constant.value.as_ref()?,
    })
}

/// The type of what a function gives, where it is one of constants.
pub(crate) fn result_kind(cx: &Context<'_, '_>, function: Function<'_>) -> Option<Kind>
    ensures { result ≡ result_kind cx.now.items.now cx.now.scope.now (function_read function.entry) }
{
    kind_written(cx, outside(function.item.module), function.result)
}
