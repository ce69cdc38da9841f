//! Lists whose places are named by an index type.

ghost use Rattle.std.specs.Prelude.{◌≡◌, ◌≤◌, ◌<◌, ◌+◌, List, [], ◌∷◌, ◌++◌, length, OnOk, OnErr, IfOk, slice_get, map, IsOk};
ghost use Rattle.abi_index.specs.InlineVec.{TwoFit};
ghost use Rattle.std.specs.List.{range_with_len};
ghost use Rattle.std.specs.Slice.Iter.{iter_rest};
ghost use Rattle.std.specs.Iterator.Adapters.{IterYieldsInOrder};
ghost use Rattle.abi_index.specs.Indices.{indices_left};
ghost use Rattle.std.specs.Option.{option_copied};
ghost use Rattle.abi_index.specs.Slice.{items_of};

use crate::idx::Idx;
use crate::index_slice::IndexSlice;
use crate::indices::Indices;
use crate::inline_vec::InlineVec;
use std::alloc::{AllocError, Global};
use std::fmt;
use std::fmt::Debug;
use std::hash::{Hash, Hasher};
use std::marker::{Model, PhantomData};
use std::slice::Iter;

/// A list whose places are named by an index type: it has at most as many items as the type has indices.
#[derive(Drop)]
pub struct IndexVec<I: Idx, T> {
    raw: InlineVec<T>,
    of: PhantomData<I>,
}

impl<I: Idx, T> Model for IndexVec<I, T> {
    ghost use Rattle.std.specs.Prelude.{List, ◌+◌, ◌≤◌, length};

    ghost Value = { List T };

    ghost view = { λ a. a.raw.items };

    ghost invariant = { λ a. length a.raw.items ≤ I.MAX_INDEX + 1 };
}

impl<I: Idx, T: PartialEq> PartialEq for IndexVec<I, T> {
    ghost use Rattle.std.specs.Cmp.Lexicographic.{pointwise, lists_per};

    ghost eq = { λ x y. pointwise T.eq x y };

    ghost laws = { lists_per T.laws };

    fn eq(&self, other: &Self) -> bool {
        self.raw.as_slice() == other.raw.as_slice()
    }
}

impl<I: Idx, T: Eq> Eq for IndexVec<I, T> {
    ghost use Rattle.std.specs.Cmp.Lexicographic.{lists_equiv};

    ghost laws = { lists_equiv T.Eq.laws };
}

impl<I: Idx, T: Hash> Hash for IndexVec<I, T> {
    ghost use Rattle.std.specs.Hash as fed;
    ghost use Rattle.std.specs.Hash.{items_Alike};

    ghost hash_input = { λ v. fed.slice T.hash_input v };

    ghost respects_eq = { (items_Alike (record { fed = T.respects_eq })).fed };

    fn hash<H: Hasher>(&self, state: &mut H) {
        self.raw.as_slice().hash(state);
    }
}

impl<I: Idx, T: Debug> Debug for IndexVec<I, T> {
    fn fmt<W: fmt::Write>(&self, f: &mut fmt::Formatter<W>) -> fmt::Result {
        self.raw.as_slice().fmt(f)
    }
}

impl<I: Idx, T> IndexVec<I, T> {
    /// An empty list, which asks for no memory yet.
    pub fn new(alloc: Global) -> Self
        ensures { result ≡ [] }
    {
        IndexVec {
            raw: InlineVec::new(alloc),
            of: PhantomData,
        }
    }

    /// An empty list with room for `capacity` items, which is asked for once, here: `push` asks for none before there
    /// are so many. `AllocError` where the room is refused.
    pub fn with_capacity(alloc: Global, capacity: usize) -> Result<Self, AllocError>
        ensures ok { IfOk result (λ list. list ≡ []) }
        // Room for at most two items is in the list itself, and isn't asked for.
        ensures inline { capacity ≤ 2 → IsOk result }
    {
        Ok(IndexVec {
            raw: InlineVec::with_capacity(alloc, capacity)?,
            of: PhantomData,
        })
    }

    /// The list of these items, which has to be no longer than the index type can name. Nothing is copied.
    pub fn from_raw(raw: Vec<T>) -> Self
        requires { length raw.items ≤ I.MAX_INDEX + 1 }
        ensures { result ≡ raw.items }
    {
        IndexVec {
            raw: InlineVec::from_vec(raw),
            of: PhantomData,
        }
    }

    /// How many items there are: no more than the index type can name.
    pub fn len(&self) -> usize
        ensures count { result ≡ length self.now }
        ensures within { result ≤ I.MAX_INDEX + 1 }
    {
        self.raw.len()
    }

    /// Puts an item last, and answers its index. A refused growth leaves the list as it was.
    pub fn push(&mut self, item: T) -> Result<I, AllocError>
    where
        T: Drop,
        requires { length self.old ≤ I.MAX_INDEX }
        ensures ok { OnOk result (self.new ≡ self.old ++ item ∷ []) }
        ensures index { IfOk result (λ i. i ≡ I.at (length self.old)) }
        ensures err { OnErr result (self.new ≡ self.old) }
        // A list that has at most two items then asks for no memory.
        ensures inline { TwoFit T.row → length self.old < 2 → IsOk result }
    {
        let index = self.raw.len();
        self.raw.push(item)?;
        Ok(I::new(index))
    }

    /// The item at an index, if the list goes so far.
    pub fn get(&self, index: I) -> Option<&T>
        ensures { option_copied result ≡ slice_get self.now (I.number index) }
    {
        self.raw.as_slice().get(index.index())
    }

    /// The items as a view, which is indexed as the list is.
    pub fn as_slice(&self) -> IndexSlice<'_, I, T>
        ensures { items_of result ≡ self.now }
    {
        IndexSlice::new(self.raw.as_slice())
    }

    /// The index that the next item would have.
    pub fn next_index(&self) -> I
        requires { length self.now ≤ I.MAX_INDEX }
        ensures { result ≡ I.at (length self.now) }
    {
        I::new(self.raw.len())
    }

    /// The indices of the items, in order.
    pub fn indices(&self) -> Indices<I>
        ensures { indices_left I.at result ≡ map I.at (range_with_len 0 (length self.now)) }
    {
        Indices::with_count(self.raw.len())
    }

    /// Goes over the items, in order.
    pub fn iter(&self) -> Iter<'_, T>
        ensures rest { iter_rest result ≡ self.now }
        ensures runs { IterYieldsInOrder T }
    {
        self.raw.as_slice().iter()
    }
}

impl<I: Idx, T: Copy> IndexVec<I, T> {
    /// A copy of its own, for items that are plain data.
    pub fn try_clone(&self, alloc: Global) -> Result<Self, AllocError>
        ensures ok { IfOk result (λ copy. copy ≡ self.now) }
        // A copy of at most two items asks for no memory.
        ensures inline { TwoFit T.row → length self.now ≤ 2 → IsOk result }
    {
        let mut raw = InlineVec::with_capacity(alloc, self.raw.len())?;
        for item in self.raw.as_slice() {
            raw.push(*item)?;
        }
        Ok(IndexVec {
            raw,
            of: PhantomData,
        })
    }
}
