//! Sets of bytes, kept as runs.

ghost use Rattle.std.specs.Prelude.{◌≡◌, ℕ, ◌<◌, ◌+◌, ◌^◌, ◌&&◌, ◌||◌, not, nat_lt, [], IfOk, IsOk, OnOk, OnErr};
ghost use Rattle.abi_index.specs.RangeSet.{is_in_run, is_in_ranges, AreMaximalRuns};

use crate::add_run::add_run;
use crate::inline_vec::InlineVec;
use crate::try_clone::TryClone;
use crate::uncut::add_uncut;
use std::alloc::{AllocError, Global};
use std::fmt;
use std::fmt::Debug;
use std::marker::Model;

/// A set of byte numbers, kept as ascending maximal runs of bytes.
#[derive(Drop)]
pub struct RangeSet {
    alloc: Global,
    runs: InlineVec<(u64, u64)>,
}

impl Model for RangeSet {
    ghost use Rattle.std.specs.Prelude.{List, ℕ};
    ghost use Rattle.abi_index.specs.RangeSet.{AreMaximalRuns};

    ghost Value = { List (ℕ × ℕ) };

    ghost view = { λ a. a.runs.items };

    ghost invariant = { λ a. AreMaximalRuns 0 a.runs.items };
}

impl PartialEq for RangeSet {
    ghost use Rattle.std.specs.Cmp.{and_equiv, on_equiv, nat_eq_equiv, partial_equiv_from_equiv};
    ghost use Rattle.std.specs.Cmp.Lexicographic.{pointwise, lists_per};

    ghost eq = { λ x y. pointwise ⟦<(u64, u64) as PartialEq>⟧.eq x y };

    ghost laws = { lists_per (partial_equiv_from_equiv (and_equiv (on_equiv (λ run. run.0) nat_eq_equiv) (on_equiv (λ run. run.1) nat_eq_equiv))) };

    fn eq(&self, other: &Self) -> bool {
        self.as_slice() == other.as_slice()
    }
}

impl Eq for RangeSet {
    ghost use Rattle.std.specs.Cmp.{and_equiv, on_equiv, nat_eq_equiv};
    ghost use Rattle.std.specs.Cmp.Lexicographic.{lists_equiv};

    ghost laws = { lists_equiv (and_equiv (on_equiv (λ run. run.0) nat_eq_equiv) (on_equiv (λ run. run.1) nat_eq_equiv)) };
}

impl Debug for RangeSet {
    fn fmt<W: fmt::Write>(&self, f: &mut fmt::Formatter<W>) -> fmt::Result {
        self.as_slice().fmt(f)
    }
}

impl TryClone for RangeSet {
    fn try_clone(&self, alloc: Global) -> Result<Self, AllocError> {
        let runs = InlineVec::from_vec(Vec::from_slice(alloc, self.runs.as_slice())?);
        Ok(RangeSet { alloc, runs })
    }
}

impl RangeSet {
    /// The empty set, which asks for no memory.
    pub fn new(alloc: Global) -> Self
        ensures { result ≡ [] }
    {
        RangeSet {
            alloc,
            runs: InlineVec::new(alloc),
        }
    }

    /// Puts in the `size` bytes from byte `offset` on. `AllocError` where memory is refused: then the set is as it was.
    /// Bytes that begin no earlier than the last run are put in without going over the others, and no bytes ask for no
    /// memory.
    pub fn add_range(&mut self, offset: u64, size: u64) -> Result<(), AllocError>
        requires { offset + size < 2 ^ 64 }
        ensures bytes { OnOk result ((k : ℕ) →
            is_in_ranges self.new k ≡ (is_in_run k (offset, size) || is_in_ranges self.old k)) }
        ensures none { size ≡ 0 → IsOk result }
        ensures err { OnErr result (self.new ≡ self.old) }
    {
        if size > 0 {
            add_run(self.alloc, &mut self.runs, offset, offset + size)?;
        }
        Ok(())
    }

    /// The bytes of this set that aren't in the other, in no more steps than the two have runs together. `AllocError`
    /// where memory is refused.
    pub fn difference(&self, alloc: Global, other: &RangeSet) -> Result<RangeSet, AllocError>
        ensures bytes { IfOk result (λ set. (k : ℕ) →
            is_in_ranges set k ≡ (is_in_ranges self.now k && not (is_in_ranges other.now k))) }
    {
        let mut rest = RangeSet::new(alloc);
        let mut next = 0;
        for run in self.as_slice() {
            let (offset, size) = *run;
            // The runs ascend: what ends no later than one of them has no byte of the next.
            next = add_uncut(&mut rest, offset, offset + size, other.as_slice(), next)?;
        }
        Ok(rest)
    }

    /// The bytes of this set before byte `end`. `AllocError` where memory is refused.
    #[tactic(auto, using(crate::proofs::UncutLemmas::first_bytes))]
    pub fn prefix(&self, alloc: Global, end: u64) -> Result<RangeSet, AllocError>
        ensures bytes { IfOk result (λ set. (k : ℕ) →
            is_in_ranges set k ≡ (nat_lt k end && is_in_ranges self.now k)) }
    {
        let mut beyond = RangeSet::new(alloc);
        beyond.add_range(end, u64::MAX - end)?;
        self.difference(alloc, &beyond)
    }

    /// The runs, each as its offset and its size in bytes: ascending, none empty, no two of them meet.
    pub fn as_slice(&self) -> &[(u64, u64)]
        ensures runs { result.now ≡ self.now }
        ensures maximal { AreMaximalRuns 0 result.now }
    {
        self.runs.as_slice()
    }
}
