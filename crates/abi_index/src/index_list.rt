//! Lists whose places are named by an index type, with all items in an allocation.

ghost use Rattle.std.specs.Prelude.{◌≡◌, ◌≤◌, ◌+◌, length, slice_get, map};
ghost use Rattle.std.specs.List.{range_with_len};
ghost use Rattle.std.specs.Slice.Iter.{iter_rest};
ghost use Rattle.std.specs.Iterator.Adapters.{IterYieldsInOrder};
ghost use Rattle.abi_index.specs.Indices.{indices_left};
ghost use Rattle.std.specs.Option.{option_copied};
ghost use Rattle.abi_index.specs.Slice.{items_of};

use crate::idx::Idx;
use crate::index_slice::IndexSlice;
use crate::indices::Indices;
use crate::try_clone::TryClone;
use std::alloc::{AllocError, Global};
use std::fmt;
use std::fmt::Debug;
use std::hash::{Hash, Hasher};
use std::marker::{Model, PhantomData};
use std::slice::Iter;

/// A list whose places are named by an index type: it has at most as many items as the type has indices. All of them are
/// in an allocation, be they one or two, so that what has such a list has no room for items.
#[derive(Drop)]
pub struct IndexList<I: Idx, T> {
    raw: Vec<T>,
    of: PhantomData<I>,
}

impl<I: Idx, T> Model for IndexList<I, T> {
    ghost use Rattle.std.specs.Prelude.{List, ◌+◌, ◌≤◌, length};

    ghost Value = { List T };

    ghost view = { λ a. a.raw.items };

    ghost invariant = { λ a. length a.raw.items ≤ I.MAX_INDEX + 1 };
}

impl<I: Idx, T: PartialEq> PartialEq for IndexList<I, T> {
    ghost use Rattle.std.specs.Cmp.Lexicographic.{pointwise, lists_per};

    ghost eq = { λ x y. pointwise T.eq x y };

    ghost laws = { lists_per T.laws };

    fn eq(&self, other: &Self) -> bool {
        self.raw.as_slice() == other.raw.as_slice()
    }
}

impl<I: Idx, T: Eq> Eq for IndexList<I, T> {
    ghost use Rattle.std.specs.Cmp.Lexicographic.{lists_equiv};

    ghost laws = { lists_equiv T.Eq.laws };
}

impl<I: Idx, T: Hash> Hash for IndexList<I, T> {
    ghost use Rattle.std.specs.Hash as fed;
    ghost use Rattle.std.specs.Hash.{items_Alike};

    ghost hash_input = { λ v. fed.slice T.hash_input v };

    ghost respects_eq = { (items_Alike (record { fed = T.respects_eq })).fed };

    fn hash<H: Hasher>(&self, state: &mut H) {
        self.raw.as_slice().hash(state);
    }
}

impl<I: Idx, T: Debug> Debug for IndexList<I, T> {
    fn fmt<W: fmt::Write>(&self, f: &mut fmt::Formatter<W>) -> fmt::Result {
        self.raw.as_slice().fmt(f)
    }
}

impl<I: Idx, T> IndexList<I, T> {
    /// The list of these items, which has to be no longer than the index type can name. Nothing is copied.
    pub fn from_raw(raw: Vec<T>) -> Self
        requires { length raw.items ≤ I.MAX_INDEX + 1 }
        ensures { result ≡ raw.items }
    {
        IndexList {
            raw,
            of: PhantomData,
        }
    }

    /// How many items there are: no more than the index type can name.
    pub fn len(&self) -> usize
        ensures count { result ≡ length self.now }
        ensures within { result ≤ I.MAX_INDEX + 1 }
    {
        self.raw.len()
    }

    /// The item at an index, if the list goes so far.
    pub fn get(&self, index: I) -> Option<&T>
        ensures { option_copied result ≡ slice_get self.now (I.number index) }
    {
        self.raw.get(index.index())
    }

    /// The items as a view, which is indexed as the list is.
    pub fn as_slice(&self) -> IndexSlice<'_, I, T>
        ensures { items_of result ≡ self.now }
    {
        IndexSlice::new(self.raw.as_slice())
    }

    /// The indices of the items, in order.
    pub fn indices(&self) -> Indices<I>
        ensures { indices_left I.at result ≡ map I.at (range_with_len 0 (length self.now)) }
    {
        Indices::with_count(self.raw.len())
    }

    /// Goes over the items, in order.
    pub fn iter(&self) -> Iter<'_, T>
        ensures rest { iter_rest result ≡ self.now }
        ensures runs { IterYieldsInOrder T }
    {
        self.raw.iter()
    }
}

impl<I: Idx, T: TryClone> TryClone for IndexList<I, T> {
    fn try_clone(&self, alloc: Global) -> Result<Self, AllocError> {
        let mut raw = Vec::with_capacity(alloc, self.raw.len())?;
        for item in self.raw.as_slice() {
            raw.push(item.try_clone(alloc)?)?;
        }
        Ok(IndexList {
            raw,
            of: PhantomData,
        })
    }
}
