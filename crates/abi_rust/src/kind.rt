//! The type of a constant expression, found without its value.

ghost use Rattle.std.specs.Prelude.{◌≡◌, ◌&&◌, IfSome, map, slice_get};
ghost use Rattle.std.specs.Option.{option_and_then, option_copied, option_map};
ghost use Rattle.rust_source.specs.declared.syntax.Path.{out-Path};
ghost use Rattle.abi_rust.specs.Kinds.{choice_kind, constant_type, function_called, given_named, hides, integer_call, is_local, is_given, is_open, is_parameter_of, is_shift, is_test, kind_of_called, kind_of_names, kind_found, kind_given, kind_of_expr, kind_of_primitive, kind_used, kind_written, limit_type, local_at, local_kind, local_named, name_alone, names_method, number_from, operand_kind, operands_kind, outside, parameter_named, parameter_type, parameters_of, path_kind, single_name};
ghost use Rattle.abi_rust.specs.Places.{last_name};
ghost use Rattle.abi_rust.specs.Resolving.{most_deep};
ghost use Rattle.abi_rust.specs.Types.{given_of, local_read, where_of};
ghost use Rattle.abi_rust.specs.Values.{value_as_read};

use crate::budget::{Context, Env, Local, most_deep};
use crate::calls::{function_called, result_kind};
use crate::constants::{constant_named, inside_constant};
use crate::methods::{IntegerCall, kind_made};
use crate::paths::{Resolution, find_prefix, found_by, item_at, most_aliases};
use crate::ty::{ConstValue, GenericArg, Kind, Primitive, Ty};
use crate::words::Word;
use rust_source::{
    Binary, Expr, IntegerKind, Item, ItemKind, Parameter, ParameterKind, Path, Segment, Symbol,
    Type,
};

/// An operator between its operands.
#[derive(Clone, Copy)]
pub(crate) struct BinaryExpr<'a> {
    pub(crate) operator: Binary,
    pub(crate) left: &'a Expr,
    pub(crate) right: &'a Expr,
}

/// Whether something stands in angle brackets behind a name.
pub(crate) fn is_given(segment: &Segment) -> bool
    ensures { result ≡ is_given segment.now }
{
    segment.lifetimes > 0 || !segment.arguments.is_empty()
}

/// The name of a path that is one name without arguments.
#[tactic(auto, unfolding(crate::specs::Kinds::single_name))]
pub(crate) fn single_name(path: &Path) -> Option<Symbol>
    ensures { result ≡ single_name path.now }
{
    let segment = path.segments.first()?;
    if path.is_global || path.segments.len() != 1 || is_given(segment) {
        return None;
    }
    Some(segment.name)
}

/// The number of the item's parameter of this name.
#[tactic(auto, unfolding(crate::specs::Kinds::parameter_named))]
pub(crate) fn parameter_named(
    cx: &Context<'_, '_>,
    item: Option<u32>,
    name: Symbol,
) -> Option<usize>
    ensures { result ≡ parameter_named cx.now.items.now cx.now.scope.now item name }
{
    let item = item_at(cx.items, item?)?;
    number_named(item, name)
}

/// Whether a type that is written in an item is one of its parameters.
pub(crate) fn is_parameter_of(item: &Item, ty: &Type) -> bool
    ensures { result ≡ is_parameter_of item.now ty.now }
{
    let Type::Path(path) = ty else {
        return false;
    };
    match single_name(path) {
        Some(name) => number_named(item, name).is_some(),
        None => false,
    }
}

/// The number of the first parameter of this name.
fn number_named(item: &Item, name: Symbol) -> Option<usize>
    ensures { result ≡ number_from 0 name item.now.parameters.items }
{
    for (index, parameter) in item.parameters.iter().enumerate() {
        if parameter.name == name {
            return Some(index);
        }
    }
    None
}

/// What the parameter of this name is given.
#[tactic(auto, unfolding(crate::specs::Kinds::given_named))]
pub(crate) fn given_named<'g>(
    cx: &Context<'_, '_>,
    env: Env<'g>,
    name: Symbol,
) -> Option<&'g GenericArg>
    ensures { option_map (λ given. given_of given.now) result
        ≡ given_named cx.now.items.now cx.now.scope.now (where_of env.entry) name }
{
    env.given.get(parameter_named(cx, env.item, name)?)
}

/// The value of the last `let` of this name.
pub(crate) fn local_named(locals: &[Local], name: Symbol) -> Option<ConstValue>
    ensures { option_map value_as_read result ≡ local_named (map local_read locals.now) name.0 }
{
    for local in locals {
        if local.name == name {
            return Some(local.value);
        }
    }
    None
}

/// The value of the `let` that a path names.
fn local_at(env: Env<'_>, path: &Path) -> Option<ConstValue>
    ensures { option_map value_as_read result ≡ local_at (where_of env.entry) path.now }
{
    local_named(env.locals, single_name(path)?)
}

/// Whether a `let` of this name hides another one, or a parameter. What a `match` compares is named by nothing else.
fn hides(cx: &Context<'_, '_>, env: Env<'_>, name: Symbol) -> bool
    ensures { result ≡ hides cx.now.items.now cx.now.scope.now (where_of env.entry) name }
{
    if name == Symbol::UNDERSCORE {
        return false;
    }
    local_named(env.locals, name).is_some() || parameter_named(cx, env.item, name).is_some()
}

/// The type of constants that a primitive type is.
fn kind_of_primitive(primitive: Primitive) -> Option<Kind>
    ensures { result ≡ kind_of_primitive primitive }
{
    match primitive {
        Primitive::Bool => Some(Kind::Bool),
        Primitive::Char => Some(Kind::Char),
        Primitive::Integer(kind) => Some(Kind::Integer(kind)),
        Primitive::Str => None,
        Primitive::Float(_) => None,
    }
}

/// The type of constants that the parameter of this name is given, if it is one.
fn kind_given(cx: &Context<'_, '_>, env: Env<'_>, name: Symbol) -> Option<Kind>
    ensures { result
        ≡ kind_given (given_named cx.now.items.now cx.now.scope.now (where_of env.entry) name) }
{
    match given_named(cx, env, name)? {
        GenericArg::Type(Ty::Primitive(primitive)) => kind_of_primitive(*primitive),
        _ => None,
    }
}

/// The type of constants that a type is, if it is one.
pub(crate) fn kind_written(cx: &Context<'_, '_>, env: Env<'_>, ty: &Type) -> Option<Kind>
    ensures { result ≡ kind_written cx.now.items.now cx.now.scope.now (where_of env.entry) ty.now }
{
    let Type::Path(path) = ty else {
        return None;
    };
    kind_at(cx, env, path, path.segments.len())
}

/// The name that the first names of a path are, so many of them, where they are one.
pub(crate) fn name_alone(path: &Path, count: usize) -> Option<Symbol>
    ensures { result ≡ name_alone count (out-Path path.now).segments.items }
{
    if count == 1 {
        let segment = path.segments.first()?;
        return Some(segment.name);
    }
    None
}

/// The type of constants that the first names of a path are, so many of them, if they are one.
#[tactic(auto, unfolding(crate::specs::Kinds::kind_of_names))]
pub(crate) fn kind_at(cx: &Context<'_, '_>, env: Env<'_>, path: &Path, count: usize) -> Option<Kind>
    ensures { result ≡ kind_of_names cx.now.items.now cx.now.scope.now (where_of env.entry) path.now count }
{
    if let Some(name) = name_alone(path, count) {
        if parameter_named(cx, env.item, name).is_some() {
            return kind_given(cx, env, name);
        }
    }
    kind_found(cx, find_prefix(cx.items, cx.scope, env.module, path, count))
}

/// The type of constants that a type is, by its aliases.
#[tactic(auto, unfolding(crate::specs::Kinds::kind_found), using(crate::proofs::Rooms::kind_more, crate::proofs::Rooms::kind_done))]
fn kind_found(cx: &Context<'_, '_>, found: Option<Resolution>) -> Option<Kind>
    ensures { result ≡ kind_found cx.now.items.now cx.now.scope.now found }
{
    let mut found = found;
    let turns = most_aliases();
    for turn in 0..turns {
        let number = match found {
            Some(Resolution::Primitive(primitive)) => return kind_of_primitive(primitive),
            Some(Resolution::Item(number)) => number,
            _ => return None,
        };
        let item = item_at(cx.items, number)?;
        let ItemKind::Alias(ty) = &item.kind else {
            return None;
        };
        found = found_by(cx.items, cx.scope, item.module, ty);
    }
    None
}

/// The type of an expression, where its parts tell it.
pub(crate) fn kind_of(cx: &Context<'_, '_>, env: Env<'_>, expr: &Expr) -> Option<Kind>
    ensures { result ≡ kind_of_expr cx.now.items.now cx.now.scope.now (where_of env.entry) expr.now }
{
    match expr {
        Expr::Integer(_, suffix, _) => Some(Kind::Integer((*suffix)?)),
        Expr::Char(_, _) => Some(Kind::Char),
        Expr::Bool(_, _) => Some(Kind::Bool),
        Expr::Text(_, _) => None,
        Expr::Path(path) => kind_of_path(cx, env, path),
        Expr::Call(path, _, _) => kind_of_call(cx, env, path),
        Expr::Unary(_, operand, _) => kind_of(cx, env, operand),
        Expr::Binary(operator, left, right, _) => {
            if is_test(*operator) {
                return Some(Kind::Bool);
            }
            let kind = kind_of(cx, env, left);
            if kind.is_some() || is_shift(*operator) {
                return kind;
            }
            kind_of(cx, env, right)
        }
        Expr::Cast(_, ty, _) => kind_written(cx, env, ty),
        Expr::If(_, left, right, _) => {
            let kind = kind_of(cx, env, left);
            if kind.is_some() {
                return kind;
            }
            kind_of(cx, env, right)
        }
        Expr::Let(name, _, _, rest, _) => {
            if hides(cx, env, *name) {
                return None;
            }
            kind_of(cx, env, rest)
        }
        Expr::Unevaluated(_, _) => None,
    }
}

/// Whether a path is that of a method's call.
pub(crate) fn names_method(path: &Path) -> bool
    ensures { result ≡ names_method (out-Path path.now).segments.items }
{
    path.segments.len() == 2 && path.segments[0].name == Symbol::UNDERSCORE
}

/// The method of integers that a path calls, if it does.
#[tactic(auto, unfolding(crate::specs::Kinds::integer_call))]
pub(crate) fn integer_call(cx: &Context<'_, '_>, env: Env<'_>, path: &Path) -> Option<IntegerCall>
    ensures { result ≡ integer_call cx.now.items.now cx.now.scope.now (where_of env.entry) path.now }
{
    let last = path.segments.last()?;
    let method = cx.scope.words.method(last.name)?;
    if names_method(path) {
        return Some(IntegerCall { method, kind: None });
    }
    match kind_at(cx, env, path, path.segments.len().saturating_sub(1)) {
        Some(Kind::Integer(kind)) => Some(IntegerCall {
            method,
            kind: Some(kind),
        }),
        _ => None,
    }
}

/// The type of a call: of a method's, as far as its path tells it, of a function's result, and else that of `size_of`.
fn kind_of_call(cx: &Context<'_, '_>, env: Env<'_>, path: &Path) -> Option<Kind>
    ensures { result ≡ kind_of_called cx.now.items.now cx.now.scope.now
        (integer_call cx.now.items.now cx.now.scope.now (where_of env.entry) path.now)
        (function_called cx.now.items.now cx.now.scope.now (where_of env.entry) path.now) }
{
    if let Some(called) = integer_call(cx, env, path) {
        return kind_made(called);
    }
    match function_called(cx, env, path) {
        Some(function) => result_kind(cx, function),
        None => Some(Kind::Integer(IntegerKind::Usize)),
    }
}

/// The type of the constant that a path names.
#[tactic(auto, unfolding(crate::specs::Kinds::path_kind))]
fn kind_of_path(cx: &Context<'_, '_>, env: Env<'_>, path: &Path) -> Option<Kind>
    ensures { result ≡ path_kind cx.now.items.now cx.now.scope.now (where_of env.entry) path.now }
{
    if let Some(value) = local_at(env, path) {
        return Some(value.kind());
    }
    if let Some(name) = single_name(path) {
        if let Some(index) = parameter_named(cx, env.item, name) {
            return kind_of_parameter(cx, env.item, index);
        }
    }
    match constant_named(cx, env, path) {
        Some(number) => kind_of_constant(cx, number),
        None => kind_of_limit(cx, env, path),
    }
}

/// The type of the constant of this number.
#[tactic(auto, unfolding(crate::specs::Kinds::constant_type))]
pub(crate) fn kind_of_constant(cx: &Context<'_, '_>, number: u32) -> Option<Kind>
    ensures { result ≡ constant_type cx.now.items.now cx.now.scope.now number }
{
    let item = item_at(cx.items, number)?;
    match &item.kind {
        ItemKind::Const(constant) => {
            kind_written(cx, inside_constant(cx, number, item), &constant.ty)
        }
        _ => None,
    }
}

/// The type of a limit that a path names, as `T::BITS`.
fn kind_of_limit(cx: &Context<'_, '_>, env: Env<'_>, path: &Path) -> Option<Kind>
    ensures { result
        ≡ limit_type cx.now.items.now cx.now.scope.now (where_of env.entry) path.now (last_name path.now) }
{
    let last = path.segments.last()?;
    if cx.scope.words.is(last.name, Word::Bits) {
        return Some(Kind::Integer(IntegerKind::U32));
    }
    kind_at(cx, env, path, path.segments.len().saturating_sub(1))
}

/// The type of an item's constant parameter.
#[tactic(auto, unfolding(crate::specs::Kinds::parameter_type))]
pub(crate) fn kind_of_parameter(
    cx: &Context<'_, '_>,
    item: Option<u32>,
    index: usize,
) -> Option<Kind>
    ensures { result ≡ parameter_type cx.now.items.now cx.now.scope.now item index }
{
    let item = item_at(cx.items, item?)?;
    let parameter = parameter_at(item, index)?;
    match &parameter.kind {
        ParameterKind::Const(ty, _) => kind_written(cx, outside(item.module), ty),
        ParameterKind::Type(_) => None,
    }
}

/// The parameter of this number.
fn parameter_at(item: &Item, index: usize) -> Option<&Parameter>
    ensures { option_copied result ≡ slice_get item.now.parameters.items index }
{
    item.parameters.get(index)
}

/// A module outside of items, with all depth left.
pub(crate) fn outside(module: u32) -> Env<'static>
    ensures place { where_of result ≡ outside «module» }
    ensures depth { result.depth_left ≡ most_deep }
{
    Env {
        module,
        item: None,
        given: &[],
        locals: &[],
        depth_left: most_deep(),
    }
}

/// Whether the operator answers a `bool` whatever its operands are.
pub(crate) fn is_test(operator: Binary) -> bool
    ensures { result ≡ is_test operator }
{
    match operator {
        Binary::Equal | Binary::NotEqual => true,
        Binary::Less | Binary::LessOrEqual | Binary::Greater | Binary::GreaterOrEqual => true,
        Binary::And | Binary::Or => true,
        _ => false,
    }
}

/// Whether the operator's operands may be of two types.
pub(crate) fn is_shift(operator: Binary) -> bool
    ensures { result ≡ is_shift operator }
{
    match operator {
        Binary::Shl | Binary::Shr => true,
        _ => false,
    }
}

/// Whether nothing in an expression tells its type.
fn is_open(expr: &Expr) -> bool
    ensures { result ≡ is_open expr.now }
{
    match expr {
        Expr::Integer(_, suffix, _) => suffix.is_none(),
        Expr::Unary(_, operand, _) => is_open(operand),
        Expr::Binary(_, left, right, _) => is_open(left) && is_open(right),
        Expr::If(_, yes, no, _) => is_open(yes) && is_open(no),
        _ => false,
    }
}

/// A choice between two expressions.
#[derive(Clone, Copy)]
pub(crate) struct ChoiceExpr<'a> {
    pub(crate) condition: &'a Expr,
    pub(crate) yes: &'a Expr,
    pub(crate) no: &'a Expr,
}

/// Whether nothing in both branches of a choice tells their type.
pub(crate) fn leaves_open(expr: ChoiceExpr<'_>) -> bool
    ensures { result ≡ (is_open expr.entry.yes.now && is_open expr.entry.no.now) }
{
    is_open(expr.yes) && is_open(expr.no)
}

/// The type of a choice: the one that is wanted, or that of a branch.
pub(crate) fn choice_kind(
    cx: &Context<'_, '_>,
    env: Env<'_>,
    expr: ChoiceExpr<'_>,
    wanted: Option<Kind>,
) -> Option<Kind>
    ensures { result ≡ choice_kind cx.now.items.now cx.now.scope.now (where_of env.entry)
        expr.entry.yes.now expr.entry.no.now wanted }
{
    if wanted.is_some() {
        return wanted;
    }
    let kind = kind_of(cx, env, expr.yes);
    if kind.is_some() {
        return kind;
    }
    kind_of(cx, env, expr.no)
}

/// The type that an operator's first operand has to have, where one is known.
pub(crate) fn operand_kind(
    cx: &Context<'_, '_>,
    env: Env<'_>,
    expr: BinaryExpr<'_>,
    wanted: Option<Kind>,
) -> Option<Kind>
    ensures { result ≡ operand_kind cx.now.items.now cx.now.scope.now (where_of env.entry)
        expr.entry.operator expr.entry.left.now expr.entry.right.now wanted }
{
    if !is_test(expr.operator) && wanted.is_some() {
        return wanted;
    }
    let kind = kind_of(cx, env, expr.left);
    if kind.is_some() || is_shift(expr.operator) {
        return kind;
    }
    kind_of(cx, env, expr.right)
}

/// Whether a path is this name alone.
fn is_local(name: Symbol, path: &Path) -> bool
    ensures { result ≡ is_local name (single_name path.now) }
{
    match single_name(path) {
        Some(other) => name == other,
        None => false,
    }
}

/// The type of which an expression uses the value of a `let` whose type isn't known: that of its first use where one is known.
fn kind_used(
    cx: &Context<'_, '_>,
    env: Env<'_>,
    name: Symbol,
    expr: &Expr,
    wanted: Option<Kind>,
) -> Option<Kind>
    ensures { result ≡ kind_used cx.now.items.now cx.now.scope.now (where_of env.entry) name expr.now wanted }
{
    match expr {
        Expr::Path(path) => { if is_local(name, path) { wanted } else { None } }
        Expr::Unary(_, operand, _) => kind_used(cx, env, name, operand, wanted),
        Expr::Binary(operator, left, right, _) => {
            let expr = BinaryExpr {
                operator: *operator,
                left,
                right,
            };
            let kind = operand_kind(cx, env, expr, wanted);
            if kind.is_none() {
                return None;
            }
            let used = kind_used(cx, env, name, left, kind);
            if used.is_some() || is_shift(*operator) {
                return used;
            }
            kind_used(cx, env, name, right, kind)
        }
        Expr::If(condition, yes, no, _) => {
            let used = kind_used(cx, env, name, condition, Some(Kind::Bool));
            if used.is_some() {
                return used;
            }
            let used = kind_used(cx, env, name, yes, wanted);
            if used.is_some() {
                return used;
            }
            kind_used(cx, env, name, no, wanted)
        }
        Expr::Let(other, ty, value, rest, _) => {
            let kind = kind_written(cx, env, ty);
            if kind.is_some() {
                let used = kind_used(cx, env, name, value, kind);
                if used.is_some() {
                    return used;
                }
            }
            if *other == name || hides(cx, env, *other) {
                return None;
            }
            kind_used(cx, env, name, rest, wanted)
        }
        _ => None,
    }
}

/// A `let`: its name, the type that is written, its value, and what follows it.
#[derive(Clone, Copy)]
pub(crate) struct LetExpr<'a> {
    pub(crate) name: Symbol,
    pub(crate) ty: &'a Type,
    pub(crate) value: &'a Expr,
    pub(crate) rest: &'a Expr,
}

/// The type of the value of a `let`: the one that is written, or the value's own, or the one of which what follows uses it.
pub(crate) fn local_kind(
    cx: &Context<'_, '_>,
    env: Env<'_>,
    expr: LetExpr<'_>,
    wanted: Option<Kind>,
) -> Option<Kind>
    ensures { result ≡ local_kind cx.now.items.now cx.now.scope.now (where_of env.entry)
        expr.entry.name expr.entry.ty.now expr.entry.value.now expr.entry.rest.now wanted }
{
    let written = kind_written(cx, env, expr.ty);
    if written.is_some() {
        return written;
    }
    let own = kind_of(cx, env, expr.value);
    if own.is_some() {
        return own;
    }
    kind_used(cx, env, expr.name, expr.rest, wanted)
}
