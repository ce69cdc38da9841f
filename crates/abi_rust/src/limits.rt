//! The limits of integer types and of `char`, as constants name them.

ghost use Rattle.std.specs.Prelude.{◌≡◌};
ghost use Rattle.std.specs.Option.{option_map};
ghost use Rattle.rust_source.specs.declared.syntax.Segment.{out-Segment};
ghost use Rattle.abi_rust.specs.Evaluating.{barred, limit, limit_named, limit_of, limit_of_char, unknown_of};
ghost use Rattle.abi_rust.specs.Kinds.{kind_of_names};
ghost use Rattle.abi_rust.specs.Meaning.{Means};
ghost use Rattle.abi_rust.specs.Types.{where_of};
ghost use Rattle.abi_rust.specs.Values.{value_as_read};

use crate::budget::{Context, Env};
use crate::fault::{FaultKind, Stop, stop_at};
use crate::int::{Int, Width};
use crate::kind::kind_at;
use crate::paths::{Resolution, Space, find, find_prefix};
use crate::ty::{ConstValue, Kind};
use crate::words::Word;
use rust_source::{IntegerKind, Path, Symbol, Unevaluated};

/// `T::MAX`, `T::MIN` or `T::BITS` of an integer type, and the first two of `char`.
#[tactic(auto, unfolding(crate::specs::Evaluating::limit))]
pub(crate) fn limit(cx: &Context<'_, '_>, env: Env<'_>, path: &Path) -> Result<ConstValue, Stop>
    ensures { Means value_as_read (limit cx.now (where_of env.entry) path.now) result }
{
    let count = path.segments.len().saturating_sub(1);
    let Some(last) = path.segments.last() else {
        return Err(Stop::Fault(None, FaultKind::Unevaluated(Unevaluated::Expression)));
    };
    if let Some(kind) = barred(cx, env.module, path) {
        return Err(stop_at(last.at, kind));
    }
    if count == 0 {
        return Err(stop_at(last.at, FaultKind::UnknownConstant(last.name)));
    }
    match limit_of(cx, kind_at(cx, env, path, count), last.name) {
        Some(value) => Ok(value),
        None => Err(stop_at(last.at, unknown_of(cx, env.module, path, count, last.name))),
    }
}

/// What is wrong with a path to a constant that may not be used where it stands, or to one of several.
fn barred(cx: &Context<'_, '_>, module: u32, path: &Path) -> Option<FaultKind>
    ensures { result ≡ barred cx.now «module» path.now }
{
    match find(cx.items, cx.scope, module, path, Space::Values) {
        Some(Resolution::Hidden(name)) => Some(FaultKind::Private(name)),
        Some(Resolution::Ambiguous(name)) => Some(FaultKind::Ambiguous(name)),
        _ => None,
    }
}

/// The first or the last character, by its name.
fn limit_of_char(cx: &Context<'_, '_>, name: Symbol) -> Option<ConstValue>
    ensures { option_map value_as_read result ≡ limit_of_char cx.now name }
{
    let words = cx.scope.words;
    if words.is(name, Word::Max) {
        return Some(ConstValue::Char(0x10_ffff));
    }
    if words.is(name, Word::Min) {
        return Some(ConstValue::Char(0));
    }
    None
}

/// The limit of this name of a type, if it is an integer's or `char`'s.
fn limit_of(cx: &Context<'_, '_>, kind: Option<Kind>, name: Symbol) -> Option<ConstValue>
    ensures { option_map value_as_read result ≡ limit_of cx.now name kind }
{
    match kind {
        Some(Kind::Integer(kind)) => limit_named(cx, kind, name),
        Some(Kind::Char) => limit_of_char(cx, name),
        _ => None,
    }
}

/// What is wrong with a path whose last name is no constant's.
#[tactic(auto, unfolding(crate::specs::Evaluating::unknown_of))]
fn unknown_of(
    cx: &Context<'_, '_>,
    module: u32,
    path: &Path,
    count: usize,
    name: Symbol,
) -> FaultKind
    ensures { result ≡ unknown_of cx.now «module» path.now count name }
{
    match find_prefix(cx.items, cx.scope, module, path, count) {
        Some(Resolution::Module(_)) => FaultKind::UnknownConstant(name),
        _ => FaultKind::Unevaluated(Unevaluated::Associated),
    }
}

/// The limit of this name of an integer type.
fn limit_named(cx: &Context<'_, '_>, kind: IntegerKind, name: Symbol) -> Option<ConstValue>
    ensures { option_map value_as_read result ≡ limit_named cx.now kind name }
{
    let width = Width::of(kind, cx.pointer_bits);
    let words = cx.scope.words;
    if words.is(name, Word::Max) {
        return Some(ConstValue::Integer(kind, width.max()));
    }
    if words.is(name, Word::Min) {
        return Some(ConstValue::Integer(kind, width.min()));
    }
    if words.is(name, Word::Bits) {
        let bits = Int::positive(u128::from(width.bits));
        return Some(ConstValue::Integer(IntegerKind::U32, bits));
    }
    None
}
