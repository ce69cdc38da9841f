//! The states of a coroutine and the conflicts between its locals, as the calculator takes them.

ghost use Rattle.std.specs.Prelude.{◌≡◌, ℕ, ◌<◌, ◌≤◌, ◌==◌, ◌&&◌, All, IfOk, length, map};
ghost use Rattle.std.specs.List.{list_any};
ghost use Rattle.abi_index.specs.Relation.{column_count, is_entry, row_count};
ghost use Rattle.rustc_abi.specs.Laying.{most_fields};

use abi_index::{BitMatrix, FieldIdx, IndexVec};
use std::alloc::{AllocError, Global};

/// The locals that a state names.
fn state_locals(alloc: Global, indices: &[u64]) -> Result<IndexVec<FieldIdx, u32>, AllocError>
    requires few { length indices.now ≤ most_fields }
    requires known { All (λ k. k < most_fields) indices.now }
    ensures { IfOk result (λ named. named ≡ indices.now) }
{
    let mut named = IndexVec::new(alloc);
    for index in indices {
        let _place: FieldIdx = named.push(*index as u32)?;
    }
    Ok(named)
}

/// The locals that each state names.
pub(crate) fn each_state_locals(
    alloc: Global,
    states: &[Vec<u64>],
) -> Result<Vec<IndexVec<FieldIdx, u32>>, AllocError>
    requires few { All (λ state. length state.items ≤ most_fields) states.now }
    requires known { All (λ state. All (λ k. k < most_fields) state.items) states.now }
    ensures { IfOk result (λ named. named.items ≡ map (λ state. state.items) states.now) }
{
    let mut each = Vec::with_capacity(alloc, states.len())?;
    for state in states {
        each.push(state_locals(alloc, state)?)?;
    }
    Ok(each)
}

/// The conflicts between `count` locals.
pub(crate) fn conflicts(
    alloc: Global,
    count: usize,
    pairs: &[(u64, u64)],
) -> Result<BitMatrix<u32, u32>, AllocError>
    requires few { count ≤ most_fields }
    requires known { All (λ pair. (pair.0 < count) × (pair.1 < count)) pairs.now }
    ensures rows { IfOk result (λ relation. row_count relation ≡ count) }
    ensures columns { IfOk result (λ relation. column_count relation ≡ count) }
    ensures entries { IfOk result (λ relation. (row column : ℕ) → is_entry relation row column
        ≡ list_any (λ pair. (row == pair.0) && (column == pair.1)) pairs.now) }
{
    let mut relation = BitMatrix::new(alloc, count, count)?;
    for pair in pairs {
        let _is_new = relation.insert(pair.0 as u32, pair.1 as u32)?;
    }
    Ok(relation)
}
