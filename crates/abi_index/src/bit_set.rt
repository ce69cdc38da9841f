//! Sets of indices.

ghost use Rattle.std.specs.Prelude.{◌≡◌, ℕ, ◌≤◌, ◌<◌, ◌+◌, ◌==◌, ◌||◌, not, false, List, length, IfOk, map, nat_lt, count_by};
ghost use Rattle.abi_index.specs.BitSet.{domain_size, is_member, members_of, members_left};

use crate::bit_set_iter::BitSetIter;
use crate::idx::Idx;
use std::alloc::{AllocError, Global};
use std::fmt;
use std::fmt::Debug;
use std::marker::{Model, PhantomData};

/// A set of indices below a size, for sets that hold many of them.
#[derive(Drop)]
pub struct DenseBitSet<I: Idx> {
    bits: Vec<bool>,
    of: PhantomData<I>,
}

impl<I: Idx> Model for DenseBitSet<I> {
    ghost use Rattle.std.specs.Prelude.{List, Bool, ◌+◌, ◌≤◌, length};

    ghost Value = { List Bool };

    ghost view = { λ a. a.bits.items };

    ghost invariant = { λ a. length a.bits.items ≤ I.MAX_INDEX + 1 };
}

impl<I: Idx> PartialEq for DenseBitSet<I> {
    ghost use Rattle.std.specs.Cmp.Lexicographic.{pointwise, lists_per};
    ghost use Rattle.std.specs.Cmp.Rules.{comparing};

    ghost eq = { λ x y. pointwise ⟦<bool as PartialEq>⟧.eq x y };

    ghost laws = { lists_per (Prim.search comparing) };

    fn eq(&self, other: &Self) -> bool {
        self.bits == other.bits
    }
}

impl<I: Idx> Eq for DenseBitSet<I> {
    ghost use Rattle.std.specs.Cmp.Lexicographic.{lists_equiv};
    ghost use Rattle.std.specs.Cmp.Rules.{comparing};

    ghost laws = { lists_equiv (Prim.search comparing) };
}

impl<I: Idx> Debug for DenseBitSet<I> {
    fn fmt<W: fmt::Write>(&self, f: &mut fmt::Formatter<W>) -> fmt::Result {
        f.debug_list().entries(self.iter()).finish()
    }
}

impl<I: Idx> DenseBitSet<I> {
    /// The empty set, with room for the indices below `size`: no more than there are.
    pub fn new_empty(alloc: Global, size: usize) -> Result<Self, AllocError>
        requires { size ≤ I.MAX_INDEX + 1 }
        ensures size { IfOk result (λ set. domain_size set ≡ size) }
        ensures empty { IfOk result (λ set. (k : ℕ) → is_member set k ≡ false) }
    {
        let mut bits = Vec::with_capacity(alloc, size)?;
        bits.resize(size, false)?;
        Ok(DenseBitSet {
            bits,
            of: PhantomData,
        })
    }

    /// Puts an index in, and answers whether it is new. It takes no memory.
    pub fn insert(&mut self, item: I) -> bool
        requires { I.number item < domain_size self.old }
        ensures is_new { result ≡ not (is_member self.old (I.number item)) }
        ensures members { (k : ℕ) →
            is_member self.new k ≡ (is_member self.old k || k == I.number item) }
        ensures size { domain_size self.new ≡ domain_size self.old }
    {
        let place = item.index();
        let is_new = !self.bits[place];
        self.bits[place] = true;
        is_new
    }

    /// Puts every index below the size in.
    #[tactic(auto, using(crate::proofs::BitSetLemmas::all_members))]
    pub fn insert_all(&mut self)
        ensures members { (k : ℕ) → is_member self.new k ≡ nat_lt k (domain_size self.old) }
        ensures size { domain_size self.new ≡ domain_size self.old }
    {
        self.bits.as_mut_slice().fill(true);
    }

    /// Whether an index, which has to be below the size, is a member.
    pub fn contains(&self, item: I) -> bool
        requires { I.number item < domain_size self.now }
        ensures { result ≡ is_member self.now (I.number item) }
    {
        self.bits[item.index()]
    }

    /// How many members there are, at most as many as the domain has indices.
    #[tactic(auto, using(crate::proofs::BitSetLemmas::count_members))]
    pub fn count(&self) -> usize
        ensures { result ≡ length (members_of self.now) }
    {
        count_set(self.bits.as_slice())
    }

    /// Goes over the members, ascending.
    pub fn iter(&self) -> BitSetIter<'_, I>
        ensures { members_left I.at result ≡ map I.at (members_of self.now) }
    {
        BitSetIter::new(self.bits.as_slice())
    }
}

/// How many of these are set.
fn count_set(bits: &[bool]) -> usize
    ensures { result ≡ count_by (λ b. b) bits.now }
{
    bits.iter().filter(|bit| **bit).count()
}
