//! The own faults of a coroutine.

ghost use Rattle.std.specs.Prelude.{◌≡◌, ◌+◌, ◌++◌, ◌||◌, ℕ, IfOk, OnErr, OnOk, map, nat_le, nat_lt, take};
ghost use Rattle.std.specs.List.{list_any};
ghost use Rattle.rustc_abi.specs.Enums.{has_equal};
ghost use Rattle.rustc_abi.specs.Laying.{coroutine_fault, has_bad_index, most_fields};

use crate::discriminants::has_equal;
use crate::error::LayError;
use crate::lay_fields::{MOST_FIELDS, has_bad_index};
use std::alloc::{AllocError, Global};

/// Whether a list is longer than its indices can name: that of prefix fields, tag and locals, that of states, or one
/// state's.
fn has_long_list(prefix: usize, locals: usize, states: &[Vec<u64>]) -> bool
    ensures { result ≡ (nat_lt most_fields (prefix + 1 + locals) || has_bad_index
        (map (λ state. state.items) states.now)) }
{
    prefix >= MOST_FIELDS || locals >= MOST_FIELDS - prefix || has_bad_index(states)
}

/// Whether some index names none of `locals` locals.
fn is_some_unknown(locals: u64, indices: &[u64]) -> bool
    ensures { result ≡ list_any (nat_le locals) indices.now }
{
    for index in indices {
        if *index >= locals {
            return true;
        }
    }
    false
}

/// Whether some conflict names none of `locals` locals.
fn has_unknown_conflict(locals: u64, conflicts: &[(u64, u64)]) -> bool
    ensures { result ≡ list_any (λ c. nat_le locals c.0 || nat_le locals c.1) conflicts.now }
{
    for pair in conflicts {
        if pair.0 >= locals || pair.1 >= locals {
            return true;
        }
    }
    false
}

/// Whether some state names none of `locals` locals.
fn has_unknown_local(locals: u64, states: &[Vec<u64>]) -> bool
    ensures { result ≡ list_any (list_any (nat_le locals)) (map (λ state. state.items) states.now) }
{
    for state in states {
        if is_some_unknown(locals, state) {
            return true;
        }
    }
    false
}

/// Puts these indices behind the others, as numbers of 128 bits. `AllocError` where memory is refused: then some of
/// them stand behind the others.
fn put_numbers(numbers: &mut Vec<u128>, indices: &[u64]) -> Result<(), AllocError>
    ensures ok { OnOk result (numbers.new.items ≡ numbers.old.items ++ indices.now) }
    ensures err { OnErr result ((count : ℕ)
        × (numbers.new.items ≡ numbers.old.items ++ take count indices.now)) }
{
    for index in indices {
        numbers.push(*index as u128)?;
    }
    Ok(())
}

/// Whether one of these indices stands there twice; the numbers are made anew.
fn is_one_twice(alloc: Global, numbers: &mut Vec<u128>, indices: &[u64]) -> Result<bool, AllocError>
    ensures { IfOk result (λ twice. twice ≡ has_equal indices.now) }
{
    numbers.clear();
    put_numbers(numbers, indices)?;
    has_equal(alloc, numbers)
}

/// Whether a state holds a local twice.
fn holds_twice(alloc: Global, states: &[Vec<u64>]) -> Result<bool, AllocError>
    ensures { IfOk result (λ twice.
        twice ≡ list_any has_equal (map (λ state. state.items) states.now)) }
{
    let mut numbers = Vec::new(alloc);
    for state in states {
        if is_one_twice(alloc, &mut numbers, state)? {
            return Ok(true);
        }
    }
    Ok(false)
}

/// The own fault of a coroutine of `prefix` prefix fields and `locals` locals, if it has one.
pub(crate) fn coroutine_fault(
    alloc: Global,
    prefix: usize,
    locals: usize,
    states: &[Vec<u64>],
    conflicts: &[(u64, u64)],
) -> Result<Option<LayError>, AllocError>
    ensures { IfOk result (λ fault. fault ≡ coroutine_fault prefix locals
        (map (λ state. state.items) states.now) conflicts.now) }
{
    if has_long_list(prefix, locals, states) {
        return Ok(Some(LayError::BadIndex));
    }
    if states.is_empty() {
        return Ok(Some(LayError::NoState));
    }
    if has_unknown_local(locals as u64, states) || has_unknown_conflict(locals as u64, conflicts) {
        return Ok(Some(LayError::BadIndex));
    }
    if holds_twice(alloc, states)? {
        return Ok(Some(LayError::LocalTwice));
    }
    Ok(None)
}
