//! Which parts have a byte.

ghost use Rattle.std.specs.Prelude.{◌≡◌, ℕ, ◌+◌, ◌<◌, ◌≤◌, ◌^◌, [], IfOk, OnOk, get_or, length, map};
ghost use Rattle.abi_tree.specs.Parts.{kept_part};
ghost use Rattle.abi_map.specs.Covering.{AreAscending, HaveNames, PutsNames, name_at, name_of, names_of};

use abi_tree::{PartBytes, PartName};
use std::alloc::{AllocError, Global};

/// The place of the first of these numbers that isn't below a bound.
fn first_from(starts: &[u64], bound: u64) -> usize
    requires { AreAscending starts.now }
    ensures before { (s : ℕ) → s < result → s < length starts.now → get_or starts.now s 0 < bound }
    ensures behind { (s : ℕ) → result ≤ s → s < length starts.now → bound ≤ get_or starts.now s 0 }
{
    match starts.binary_search(&bound) {
        Ok(place) => place,
        Err(place) => place,
    }
}

/// Puts a name behind those of each start that a run of bytes has.
fn put_run(
    starts: &[u64],
    names: &mut Vec<Vec<PartName>>,
    name: PartName,
    run: (u64, u64),
) -> Result<(), AllocError>
    requires ascend { AreAscending starts.now }
    requires fits { run.0 + run.1 < 2 ^ 64 }
    requires same { length names.old.items ≡ length starts.now }
    ensures { OnOk result
        (PutsNames starts.now names.old.items names.new.items (name_at name run)) }
{
    let end = run.0 + run.1;
    for s in first_from(starts, run.0)..starts.len() {
        if starts[s] >= end {
            return Ok(());
        }
        names[s].push(name)?;
    }
    Ok(())
}

/// Puts a part's name behind those of each start that it has.
fn put_part(
    starts: &[u64],
    names: &mut Vec<Vec<PartName>>,
    part: &PartBytes,
) -> Result<(), AllocError>
    requires ascend { AreAscending starts.now }
    requires same { length names.old.items ≡ length starts.now }
    ensures { OnOk result (PutsNames starts.now names.old.items names.new.items
        (name_of (kept_part part.now))) }
{
    for run in part.bytes.as_slice() {
        put_run(starts, names, part.name, *run)?;
    }
    Ok(())
}

/// `count` lists, each without a name.
fn no_names(alloc: Global, count: usize) -> Result<Vec<Vec<PartName>>, AllocError>
    ensures long { IfOk result (λ names. length names.items ≡ count) }
    ensures none { IfOk result (λ names. (s : ℕ) → names_of names.items s ≡ []) }
{
    let mut names = Vec::with_capacity(alloc, count)?;
    for _ in 0..count {
        names.push(Vec::new(alloc))?;
    }
    Ok(names)
}

/// The names of the parts that have each of the starts.
pub(crate) fn names_at(
    alloc: Global,
    parts: &[PartBytes],
    starts: &[u64],
) -> Result<Vec<Vec<PartName>>, AllocError>
    requires { AreAscending starts.now }
    ensures { IfOk result (λ names. HaveNames (map kept_part parts.now) starts.now names.items) }
{
    let mut names = no_names(alloc, starts.len())?;
    for part in parts {
        put_part(starts, &mut names, part)?;
    }
    Ok(names)
}
