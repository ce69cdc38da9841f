//! Runs of bytes that are collected, of which a set is made at once.

ghost use Rattle.std.specs.Prelude.{◌≡◌, ℕ, ◌+◌, ◌*◌, ◌-◌, ◌<◌, ◌≤◌, ◌^◌, [], ◌∷◌, All, IfOk, IsOk, OnErr, OnOk, nat_lt};
ghost use Rattle.abi_index.specs.RangeSet.{is_in_ranges};
ghost use Rattle.abi_index.specs.Runs.{Adds, Extends, HaveEnds, moved_to, repeated};

use crate::inline_vec::{Front, InlineVec};
use crate::range_set::RangeSet;
use std::alloc::{AllocError, Global};
use std::marker::Model;

/// Runs of bytes in the order in which they were put in, of which `build` makes a set. They may meet, and are sorted
/// but once.
#[derive(Drop)]
pub struct RangeSetBuilder {
    runs: InlineVec<(u64, u64)>,
}

impl Model for RangeSetBuilder {
    ghost use Rattle.std.specs.Prelude.{List, ℕ};
    ghost use Rattle.abi_index.specs.Runs.{HaveEnds};

    ghost Value = { List (ℕ × ℕ) };

    ghost view = { λ a. a.runs.items };

    ghost invariant = { λ a. HaveEnds a.runs.items };
}

/// The set of the bytes of these runs, each of which is put in behind those before it where they ascend.
fn set_of(alloc: Global, runs: &[(u64, u64)]) -> Result<RangeSet, AllocError>
    requires { HaveEnds runs.now }
    ensures { IfOk result (λ set. (k : ℕ) → is_in_ranges set k ≡ is_in_ranges runs.now k) }
{
    let mut set = RangeSet::new(alloc);
    for run in runs {
        set.add_range(run.0, run.1)?;
    }
    Ok(set)
}

/// The set of the bytes of these runs, which are sorted once.
fn set_of_any(alloc: Global, runs: Vec<(u64, u64)>) -> Result<RangeSet, AllocError>
    requires { HaveEnds runs.items }
    ensures { IfOk result (λ set. (k : ℕ) → is_in_ranges set k ≡ is_in_ranges runs.items k) }
{
    let mut runs = runs;
    runs.sort_unstable_by_key(|run| run.0);
    set_of(alloc, runs.as_slice())
}

/// The set of the bytes of two runs, of which the one that begins first is put in first.
fn set_of_two(alloc: Global, first: (u64, u64), second: (u64, u64)) -> Result<RangeSet, AllocError>
    requires { HaveEnds (first ∷ second ∷ []) }
    ensures { IfOk result (λ set. (k : ℕ) →
        is_in_ranges set k ≡ is_in_ranges (first ∷ second ∷ []) k) }
{
    if first.0 <= second.0 {
        set_of(alloc, &[first, second])
    } else {
        set_of(alloc, &[second, first])
    }
}

impl RangeSetBuilder {
    /// A set without bytes yet, which asks for no memory.
    pub fn new(alloc: Global) -> Self
        ensures { result ≡ [] }
    {
        RangeSetBuilder {
            runs: InlineVec::new(alloc),
        }
    }

    /// Puts in the `size` bytes from byte `offset` on. `AllocError` where memory is refused: then all is as it was. No
    /// bytes ask for none.
    #[tactic(auto, using(crate::proofs::RunsLemmas::adds_run, crate::proofs::RunsLemmas::extends_by))]
    pub fn add_range(&mut self, offset: u64, size: u64) -> Result<(), AllocError>
        requires { offset + size < 2 ^ 64 }
        ensures bytes { OnOk result (Adds self.old self.new (moved_to offset (λ k.
            nat_lt k size))) }
        ensures kept { Extends self.old self.new }
        ensures none { size ≡ 0 → IsOk result }
        ensures err { OnErr result (self.new ≡ self.old) }
    {
        if size > 0 {
            self.runs.push((offset, size))?;
        }
        Ok(())
    }

    /// Puts in the bytes of a set, each `offset` bytes further on. `AllocError` where memory is refused: then what was
    /// there before is still there, in its order, and some of the set may be.
    #[tactic(auto, using(crate::proofs::RunsLemmas::adds_none, crate::proofs::RunsLemmas::adds_next, crate::proofs::RunsLemmas::extends_twice))]
    pub fn add_set(&mut self, set: &RangeSet, offset: u64) -> Result<(), AllocError>
        requires { All (λ run. offset + (run.0 + run.1) < 2 ^ 64) set.now }
        ensures bytes { OnOk result (Adds self.old self.new
            (moved_to offset (is_in_ranges set.now))) }
        ensures kept { Extends self.old self.new }
    {
        for run in set.as_slice() {
            self.add_range(offset + run.0, run.1)?;
        }
        Ok(())
    }

    /// Puts in the bytes of `count` elements, each with those of the set and `stride` bytes after the one before; the
    /// first lies at `offset`. Where the set covers an element whole, all of them are one run. `AllocError` where
    /// memory is refused: then what was there before is still there, in its order, and some of the elements may be.
    pub fn add_repeated(
        &mut self,
        set: &RangeSet,
        stride: u64,
        count: u64,
        offset: u64,
    ) -> Result<(), AllocError>
        requires some { 0 < stride }
        requires inside { All (λ run. run.0 + run.1 ≤ stride) set.now }
        requires fits { All (λ run.
            offset + stride * (count - 1) + (run.0 + run.1) < 2 ^ 64) set.now }
        ensures bytes { OnOk result (Adds self.old self.new
            (moved_to offset (repeated stride count (is_in_ranges set.now)))) }
        ensures kept { Extends self.old self.new }
    {
        let runs = set.as_slice();
        if runs.is_empty() || count == 0 {
            return Ok(());
        }
        if runs[0].0 == 0 && runs[0].1 == stride {
            return self.add_range(offset, stride * count);
        }
        for i in 0..count {
            self.add_set(set, offset + stride * i)?;
        }
        Ok(())
    }

    /// The set of the bytes that were put in. The runs are sorted once, so that each is put into the set behind the
    /// others. `AllocError` where memory is refused.
    pub fn build(self, alloc: Global) -> Result<RangeSet, AllocError>
        ensures bytes { IfOk result (λ set. (k : ℕ) → is_in_ranges set k ≡ is_in_ranges self k) }
    {
        match self.runs.into_parts() {
            (Front::Empty, runs) => set_of_any(alloc, runs),
            (Front::One(run), _) => set_of(alloc, &[run]),
            (Front::Two(pair), _) => set_of_two(alloc, pair.first, pair.second),
        }
    }
}
