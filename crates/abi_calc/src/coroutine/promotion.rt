//! Which locals of a coroutine are promoted.

ghost use Rattle.std.specs.Prelude.{◌≡◌, ℕ, ◌+◌, ◌<◌, ◌≤◌, ◌==◌, ◌&&◌, ◌||◌, not, All, IfOk, List, fold, if◌then◌else◌, length, map, nat_lt, slice_index, true};
ghost use Rattle.std.specs.List.{list_any};
ghost use Rattle.abi_index.specs.AscendingList.{has_number};
ghost use Rattle.abi_index.specs.BitSet.{domain_size, is_member};
ghost use Rattle.abi_index.specs.Relation.{column_count, row_count};
ghost use Rattle.abi_univariant.specs.Placement.{source_order};
ghost use Rattle.abi_calc.specs.Coroutine.Promotion.{after_conflict, after_row, need_no_promotion, local_to_promote, held_by_several, holder_of, holders_of, promote, promoted_of, used_count};

use abi_index::{BitMatrix, DenseBitSet, Idx, IndexVec};
use std::alloc::{AllocError, Global};

/// Notes that the state at this place holds these locals.
fn note_holder<LocalIdx: Idx>(holders: &mut [usize], state: &[LocalIdx], place: usize)
    requires { All (λ l. LocalIdx.number l < length holders.old) state.now }
    ensures { (k : ℕ) → k < length holders.old → slice_index holders.new k ≡ (if has_number
        (map LocalIdx.number state.now) k then place else slice_index holders.old k) }
{
    for local in state {
        holders[local.index()] = place;
    }
}

/// For each of so many locals the first state that holds it; where none does, the number of states.
fn holders_of<FieldIdx: Idx, LocalIdx: Idx>(
    alloc: Global,
    states: &[IndexVec<FieldIdx, LocalIdx>],
    count: usize,
) -> Result<Vec<usize>, AllocError>
    requires { All (All (λ l. LocalIdx.number l < count)) states.now }
    ensures { IfOk result (λ holders. holders.items ≡ holders_of
        (map (map LocalIdx.number) states.now) count) }
{
    let mut holders = Vec::with_capacity(alloc, count)?;
    holders.resize(count, states.len())?;
    for place in (0..states.len()).rev() {
        note_holder(&mut holders, states[place].as_slice().as_raw(), place);
    }
    Ok(holders)
}

/// Puts those of the locals in that the state at this place holds, and an earlier one too.
fn insert_later<LocalIdx: Idx>(
    several: &mut DenseBitSet<LocalIdx>,
    holders: &[usize],
    state: &[LocalIdx],
    place: usize,
)
    requires within { All (λ l. LocalIdx.number l < length holders.now) state.now }
    requires size { domain_size several.old ≡ length holders.now }
    ensures members { (k : ℕ) → is_member several.new k ≡ (is_member several.old k || (has_number
        (map LocalIdx.number state.now) k && not (slice_index holders.now k == place))) }
    ensures size { domain_size several.new ≡ domain_size several.old }
{
    for local in state {
        if holders[local.index()] != place {
            let _is_new = several.insert(*local);
        }
    }
}

/// The locals that several states hold, of those that have these first holders.
fn held_by_several<FieldIdx: Idx, LocalIdx: Idx>(
    alloc: Global,
    states: &[IndexVec<FieldIdx, LocalIdx>],
    holders: &[usize],
) -> Result<DenseBitSet<LocalIdx>, AllocError>
    requires count { length holders.now ≤ LocalIdx.MAX_INDEX + 1 }
    requires within { All (All (λ l. LocalIdx.number l < length holders.now)) states.now }
    requires holders { holders.now ≡ holders_of
        (map (map LocalIdx.number) states.now) (length holders.now) }
    ensures { IfOk result (λ set. set ≡ held_by_several
        (map (map LocalIdx.number) states.now) (length holders.now)) }
{
    let mut several = DenseBitSet::new_empty(alloc, holders.len())?;
    for place in 0..states.len() {
        insert_later(
            &mut several,
            holders,
            states[place].as_slice().as_raw(),
            place,
        );
    }
    Ok(several)
}

/// Whether one state is the first that holds both locals, or no state holds either.
#[tactic(auto, using(crate::proofs::CoroutineLemmas::Steps::same_holder))]
fn have_same_holder<LocalIdx: Idx>(holders: &[usize], a: LocalIdx, b: LocalIdx) -> bool
    requires first { LocalIdx.number a < length holders.now }
    requires second { LocalIdx.number b < length holders.now }
    ensures { (states : List (List ℕ)) → holders.now ≡ holders_of states (length holders.now)
        → result ≡ (holder_of states (LocalIdx.number a) == holder_of states (LocalIdx.number b)) }
{
    holders[a.index()] == holders[b.index()]
}

/// Whether a row's local and a column's need no promotion: the column's is promoted already, or one state is the first
/// that holds both, or none is, while the row's isn't promoted.
fn need_no_promotion<LocalIdx: Idx>(
    holders: &[usize],
    row: LocalIdx,
    column: LocalIdx,
    promoted: &DenseBitSet<LocalIdx>,
) -> bool
    requires row { LocalIdx.number row < length holders.now }
    requires column { LocalIdx.number column < length holders.now }
    requires size { domain_size promoted.now ≡ length holders.now }
    ensures { (states : List (List ℕ)) → holders.now ≡ holders_of states (length holders.now)
        → result ≡ need_no_promotion states (LocalIdx.number row) (LocalIdx.number column) promoted.now }
{
    promoted.contains(column) || (!promoted.contains(row) && have_same_holder(holders, row, column))
}

/// Which of two locals is promoted: the row's where its row has more conflicts, else the column's.
fn local_to_promote<LocalIdx: Idx>(
    conflicts: &BitMatrix<LocalIdx, LocalIdx>,
    row: LocalIdx,
    column: LocalIdx,
) -> LocalIdx
    requires row { LocalIdx.number row < row_count conflicts.now }
    requires column { LocalIdx.number column < row_count conflicts.now }
    ensures { LocalIdx.number result ≡ local_to_promote conflicts.now (LocalIdx.number row)
        (LocalIdx.number column) }
{
    if conflicts.count(row) > conflicts.count(column) {
        row
    } else {
        column
    }
}

/// Promotes one more local.
#[tactic(auto, using(crate::proofs::CoroutineLemmas::Steps::promoted_one))]
fn promote<LocalIdx: Idx>(local: LocalIdx, promoted: &mut DenseBitSet<LocalIdx>)
    requires { LocalIdx.number local < domain_size promoted.old }
    ensures { promoted.new ≡ promote (LocalIdx.number local) promoted.old }
{
    let _is_new = promoted.insert(local);
}

/// Settles the conflict of a row's local with a column's: promotes one of them where that is needed.
#[tactic(auto, using(crate::proofs::CoroutineLemmas::Steps::promoted_size))]
fn resolve_conflict<LocalIdx: Idx>(
    holders: &[usize],
    conflicts: &BitMatrix<LocalIdx, LocalIdx>,
    row: LocalIdx,
    column: LocalIdx,
    promoted: &mut DenseBitSet<LocalIdx>,
)
    requires count { length holders.now ≡ row_count conflicts.now }
    requires size { domain_size promoted.old ≡ row_count conflicts.now }
    requires row { LocalIdx.number row < row_count conflicts.now }
    requires column { LocalIdx.number column < row_count conflicts.now }
    ensures size { domain_size promoted.new ≡ row_count conflicts.now }
    ensures settled { (states : List (List ℕ)) → holders.now ≡ holders_of states
        (row_count conflicts.now) → promoted.new ≡ after_conflict states conflicts.now
        (LocalIdx.number row) promoted.old (LocalIdx.number column) }
{
    if !need_no_promotion(holders, row, column, promoted) {
        promote(local_to_promote(conflicts, row, column), promoted);
    }
}

/// Settles the conflicts of a row, unless its local is promoted already.
fn resolve_row<LocalIdx: Idx>(
    holders: &[usize],
    conflicts: &BitMatrix<LocalIdx, LocalIdx>,
    row: LocalIdx,
    promoted: &mut DenseBitSet<LocalIdx>,
)
    requires square { column_count conflicts.now ≡ row_count conflicts.now }
    requires most { row_count conflicts.now ≤ LocalIdx.MAX_INDEX + 1 }
    requires count { length holders.now ≡ row_count conflicts.now }
    requires size { domain_size promoted.old ≡ row_count conflicts.now }
    requires row { LocalIdx.number row < row_count conflicts.now }
    ensures size { domain_size promoted.new ≡ row_count conflicts.now }
    ensures settled { (states : List (List ℕ)) →
        holders.now ≡ holders_of states (row_count conflicts.now) →
        promoted.new ≡ after_row states conflicts.now promoted.old (LocalIdx.number row) }
{
    if promoted.contains(row) {
        return;
    }
    for column in conflicts.iter(row) {
        resolve_conflict(holders, conflicts, row, column, promoted);
    }
}

/// Settles the conflicts of all rows.
fn resolve_rows<LocalIdx: Idx>(
    holders: &[usize],
    conflicts: &BitMatrix<LocalIdx, LocalIdx>,
    promoted: &mut DenseBitSet<LocalIdx>,
)
    requires square { column_count conflicts.now ≡ row_count conflicts.now }
    requires most { row_count conflicts.now ≤ LocalIdx.MAX_INDEX + 1 }
    requires count { length holders.now ≡ row_count conflicts.now }
    requires size { domain_size promoted.old ≡ row_count conflicts.now }
    ensures size { domain_size promoted.new ≡ row_count conflicts.now }
    ensures settled { (states : List (List ℕ)) →
        holders.now ≡ holders_of states (row_count conflicts.now) → promoted.new ≡ fold
        (after_row states conflicts.now) promoted.old (source_order (row_count conflicts.now)) }
{
    for row in conflicts.rows() {
        resolve_row(holders, conflicts, row, promoted);
    }
}

/// Whether a state holds a local that isn't promoted.
fn is_used<LocalIdx: Idx>(state: &[LocalIdx], promoted: &DenseBitSet<LocalIdx>) -> bool
    requires { All (λ l. LocalIdx.number l < domain_size promoted.now) state.now }
    ensures { result ≡ list_any (λ local. not (is_member promoted.now local))
        (map LocalIdx.number state.now) }
{
    for local in state {
        if !promoted.contains(*local) {
            return true;
        }
    }
    false
}

/// How many states hold a local that isn't promoted.
fn used_count<FieldIdx: Idx, LocalIdx: Idx>(
    states: &[IndexVec<FieldIdx, LocalIdx>],
    promoted: &DenseBitSet<LocalIdx>,
) -> usize
    requires { All (All (λ l. LocalIdx.number l < domain_size promoted.now)) states.now }
    ensures { result ≡ used_count (map (map LocalIdx.number) states.now) promoted.now }
{
    let mut count = 0;
    for state in states {
        if is_used(state.as_slice().as_raw(), promoted) {
            count += 1;
        }
    }
    count
}

/// Promotes all locals where fewer than two states hold another.
#[tactic(auto, using(crate::proofs::CoroutineLemmas::Steps::promoted_all))]
fn promote_if_few<FieldIdx: Idx, LocalIdx: Idx>(
    states: &[IndexVec<FieldIdx, LocalIdx>],
    promoted: &mut DenseBitSet<LocalIdx>,
)
    requires { All (All (λ l. LocalIdx.number l < domain_size promoted.old)) states.now }
    ensures { promoted.new ≡ (if nat_lt (used_count (map (map LocalIdx.number) states.now)
        promoted.old) 2 then map (λ local. true) promoted.old else promoted.old) }
{
    if used_count(states, promoted) < 2 {
        promoted.insert_all();
    }
}

/// How many locals there are: one for each row of their conflicts.
fn local_count<LocalIdx: Idx>(conflicts: &BitMatrix<LocalIdx, LocalIdx>) -> usize
    ensures count { result ≡ row_count conflicts.now }
    ensures within { result ≤ LocalIdx.MAX_INDEX + 1 }
{
    let mut count = 0;
    for _row in conflicts.rows() {
        count += 1;
    }
    count
}

/// The locals that lie beside the prefix fields and the tag, where they share no byte with any other: those that
/// several states hold. Then the rows of the conflicts ascend, without those of promoted locals, and the columns of
/// each: of two locals that aren't settled the one whose row has more conflicts is promoted, the column's where both
/// have as many. Where fewer than two states hold another, all are. A refused request for memory is the one error.
pub(crate) fn promoted_locals<FieldIdx: Idx, LocalIdx: Idx>(
    alloc: Global,
    states: &[IndexVec<FieldIdx, LocalIdx>],
    conflicts: &BitMatrix<LocalIdx, LocalIdx>,
) -> Result<DenseBitSet<LocalIdx>, AllocError>
    requires square { column_count conflicts.now ≡ row_count conflicts.now }
    requires within { All (All (λ l. LocalIdx.number l < row_count conflicts.now)) states.now }
    ensures exact { IfOk result
        (λ set. set ≡ promoted_of (map (map LocalIdx.number) states.now) conflicts.now) }
{
    let holders = holders_of(alloc, states, local_count(conflicts))?;
    let mut promoted = held_by_several(alloc, states, &holders)?;
    resolve_rows(&holders, conflicts, &mut promoted);
    promote_if_few(states, &mut promoted);
    Ok(promoted)
}
