//! Parts of a value: a field of a variant, both numbers of a pair, a local of a coroutine's state.

ghost use Rattle.std.specs.Prelude.{◌≡◌, ℕ, IfOk, MatchOption, None, Some};
ghost use Rattle.abi_tree.specs.Holding.{Holds};
ghost use Rattle.abi_tree.specs.Laid.{endian_of, placed_of};
ghost use Rattle.abi_tree.specs.OfTree.{IsOfTree};
ghost use Rattle.abi_tree.specs.Value.{Values, state, two, value_of, values_of, variant};
ghost use Rattle.guarantees.specs.Field.{IsValueFound, value_at};

use crate::debugger::item_at;
use rustc_abi::{Laid, Value, read_value};
use std::alloc::{AllocError, Global};

/// The fields of the variant with this index, where the value is one of it.
fn fields_of(value: Value, wanted: usize) -> Option<Vec<Value>>
    ensures { MatchOption result ((vs : Values) → value_of value ≡ variant wanted vs → ⊥)
        (λ fields. value_of value ≡ variant wanted (values_of fields.items)) }
{
    match value {
        Value::Variant(named, fields) => { if named == wanted { Some(fields) } else { None } }
        _ => None,
    }
}

/// The locals of the state with this index, where the value is one in it.
fn locals_of(value: Value, wanted: usize) -> Option<Vec<Value>>
    ensures { MatchOption result ((ps vs : Values) → value_of value ≡ state wanted ps vs → ⊥)
        (λ locals. (ps : Values) × (value_of value ≡ state wanted ps (values_of locals.items))) }
{
    match value {
        Value::State {
            state,
            prefix: _prefix,
            locals,
        } => { if state == wanted { Some(locals) } else { None } }
        _ => None,
    }
}

/// The two numbers, where the value is a pair.
fn both_of(value: &Value) -> Option<(u128, u128)>
    ensures { MatchOption result ((n m : ℕ) → value_of value.now ≡ two n m → ⊥)
        (λ both. value_of value.now ≡ two both.0 both.1) }
{
    match value {
        Value::Pair(first, second) => Some((*first, *second)),
        _ => None,
    }
}

/// The value of a field of an enum's variant, in source order, out of the enum's bytes. `None` where the bytes hold
/// another variant or none, or one whose fields end before the index.
///
/// `AllocError` where a growth of memory was refused.
pub fn field_of_variant(
    alloc: Global,
    laid: &Laid,
    bytes: &[u8],
    wanted: usize,
    index: usize,
) -> Result<Option<Value>, AllocError>
    requires laid { IsOfTree laid.now }
    ensures field { IfOk result (λ found. (vs : Values) →
        Holds (endian_of laid.now) (placed_of laid.now) bytes.now (variant wanted vs) →
        IsValueFound found (value_at vs index)) }
    ensures none { IfOk result (λ found. ((vs : Values) → Holds (endian_of laid.now)
        (placed_of laid.now) bytes.now (variant wanted vs) → ⊥) → found ≡ None) }
{
    let Some(value) = read_value(alloc, laid, bytes)? else {
        return Ok(None);
    };
    match fields_of(value, wanted) {
        Some(fields) => Ok(item_at(fields, index)),
        None => Ok(None),
    }
}

/// The value of a local that a coroutine keeps in one of its states, in the state's order, out of the coroutine's bytes.
/// `None` where the bytes hold another state or none, or one whose locals end before the index.
///
/// `AllocError` where a growth of memory was refused.
pub fn local_of_state(
    alloc: Global,
    laid: &Laid,
    bytes: &[u8],
    wanted: usize,
    index: usize,
) -> Result<Option<Value>, AllocError>
    requires laid { IsOfTree laid.now }
    ensures local { IfOk result (λ found. (ps vs : Values) →
        Holds (endian_of laid.now) (placed_of laid.now) bytes.now (state wanted ps vs) →
        IsValueFound found (value_at vs index)) }
    ensures none { IfOk result (λ found. ((ps vs : Values) → Holds (endian_of laid.now)
        (placed_of laid.now) bytes.now (state wanted ps vs) → ⊥) → found ≡ None) }
{
    let Some(value) = read_value(alloc, laid, bytes)? else {
        return Ok(None);
    };
    match locals_of(value, wanted) {
        Some(locals) => Ok(item_at(locals, index)),
        None => Ok(None),
    }
}

/// Both numbers of a pair, out of its bytes. `None` where the bytes hold no pair.
///
/// `AllocError` where a growth of memory was refused.
pub fn numbers_of(
    alloc: Global,
    laid: &Laid,
    bytes: &[u8],
) -> Result<Option<(u128, u128)>, AllocError>
    requires laid { IsOfTree laid.now }
    ensures numbers { IfOk result (λ found. (n m : ℕ) →
        Holds (endian_of laid.now) (placed_of laid.now) bytes.now (two n m) → found ≡ Some (n, m)) }
    ensures none { IfOk result (λ found. ((n m : ℕ) →
        Holds (endian_of laid.now) (placed_of laid.now) bytes.now (two n m) → ⊥) → found ≡ None) }
{
    match read_value(alloc, laid, bytes)? {
        Some(value) => Ok(both_of(&value)),
        None => Ok(None),
    }
}
