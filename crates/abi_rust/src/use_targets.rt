//! What each use brings in.

ghost use Rattle.std.specs.Prelude.{◌≡◌, IfErr, IfOk, true};
ghost use Rattle.abi_rust.specs.Names.{most_uses, target_in, targets_on, use_target, use_targets};
ghost use Rattle.abi_rust.specs.Standing.{IsMemory};

use crate::fault::Stop;
use crate::paths::{NameTables, Resolution, Space, target_of};
use crate::scope::Scope;
use crate::standing::numbered;
use rust_source::{Items, Use};
use std::alloc::Global;

/// How many uses may lead from one to another.
const MOST_USES: u32 = 32;

/// What a use brings in.
#[derive(Clone, Copy)]
pub(crate) struct UseTarget {
    /// A type or a module, if anything.
    pub(crate) types: Option<Resolution>,
    /// A constant, if anything.
    pub(crate) values: Option<Resolution>,
}

/// How many uses may lead from one to another.
#[tactic(auto, unfolding(crate::specs::Names::most_uses))]
fn most_uses() -> u32
    ensures { result ≡ most_uses }
{
    MOST_USES
}

/// What the use of this number is known to bring in, of these names.
pub(crate) fn target_in(targets: &[UseTarget], number: u32, space: Space) -> Option<Resolution>
    ensures { result ≡ target_in targets.now number space }
{
    let target = targets.get(number as usize)?;
    match space {
        Space::Types => target.types,
        Space::Values => target.values,
    }
}

/// What each use brings in. It is found in rounds, since what a use names may be what others bring in: until a round
/// finds what the one before it did, or as many as uses may lead from one to another.
pub(crate) fn use_targets(
    alloc: Global,
    items: &Items,
    scope: &Scope,
) -> Result<Vec<UseTarget>, Stop>
    ensures all { IfOk result (λ all. all.items ≡ use_targets items.now scope.now most_uses) }
    ensures err { IfErr result IsMemory }
{
    let mut known = Vec::new(alloc);
    let rounds = most_uses();
    for round in 0..rounds {
        let found = targets_on(alloc, items, scope, known.as_slice())?;
        if are_same(found.as_slice(), known.as_slice()) {
            return Ok(found);
        }
        known = found;
    }
    Ok(known)
}

/// What each use brings in, by what others are known to.
fn targets_on(
    alloc: Global,
    items: &Items,
    scope: &Scope,
    known: &[UseTarget],
) -> Result<Vec<UseTarget>, Stop>
    ensures all { IfOk result (λ all.
        all.items ≡ targets_on (use_target items.now scope.now known.now) 0 items.now.uses.items) }
    ensures err { IfErr result IsMemory }
{
    let mut all = Vec::new(alloc);
    for (number, used) in items.uses.iter().enumerate() {
        all.push(use_target(items, scope, known, numbered(number), used))?;
    }
    Ok(all)
}

/// What a use brings in, by what others are known to. A glob leads to a module, and to no constant.
fn use_target(
    items: &Items,
    scope: &Scope,
    known: &[UseTarget],
    number: u32,
    used: &Use,
) -> UseTarget
    ensures { result ≡ use_target items.now scope.now known.now number used.now }
{
    let tables = NameTables {
        items,
        scope,
        targets: known,
    };
    let values = if used.is_glob {
        None
    } else {
        target_of(tables, number, used, Space::Values)
    };
    UseTarget {
        types: target_of(tables, number, used, Space::Types),
        values,
    }
}

/// Whether two lists are found to be the same.
#[tactic(auto, using(crate::proofs::TargetLemmas::same_more, crate::proofs::TargetLemmas::same_end))]
fn are_same(a: &[UseTarget], b: &[UseTarget]) -> bool
    ensures { result ≡ true → a.now ≡ b.now }
{
    if a.len() != b.len() {
        return false;
    }
    for (index, one) in a.iter().enumerate() {
        let Some(other) = b.get(index) else {
            return false;
        };
        if !is_same_target(*one, *other) {
            return false;
        }
    }
    true
}

/// Whether two uses are found to bring in the same.
fn is_same_target(a: UseTarget, b: UseTarget) -> bool
    ensures { result ≡ true → a ≡ b }
{
    is_same(a.types, b.types) && is_same(a.values, b.values)
}

/// Whether two names are found to lead to the same.
fn is_same(a: Option<Resolution>, b: Option<Resolution>) -> bool
    ensures { result ≡ true → a ≡ b }
{
    match (a, b) {
        (Some(Resolution::Module(a)), Some(Resolution::Module(b))) => a == b,
        (Some(Resolution::Item(a)), Some(Resolution::Item(b))) => a == b,
        (Some(Resolution::Primitive(a)), Some(Resolution::Primitive(b))) => a == b,
        (Some(Resolution::Hidden(a)), Some(Resolution::Hidden(b))) => a == b,
        (Some(Resolution::Ambiguous(a)), Some(Resolution::Ambiguous(b))) => a == b,
        (Some(Resolution::Unknown), Some(Resolution::Unknown)) => true,
        (None, None) => true,
        _ => false,
    }
}
