//! Borrowed views of lists whose places are named by an index type.

ghost use Rattle.std.specs.Prelude.{◌≡◌, ◌≤◌, ◌+◌, length, slice_get, map};

use crate::idx::Idx;
use crate::indices::Indices;
use std::alloc::AllocError;
use std::fmt;
use std::fmt::Debug;
use std::marker::PhantomData;
use std::slice::Iter;

/// A borrowed view of a list whose places are named by an index type: it shows at most as many items as the type has
/// indices.
pub struct IndexSlice<'a, I: Idx, T> {
    raw: &'a [T],
    of: PhantomData<I>,
    pub ghost within: { length raw.now ≤ I.MAX_INDEX + 1 },
}

impl<'a, I: Idx, T> Clone for IndexSlice<'a, I, T> {
    ghost use Rattle.std.specs.Prelude.{⊤};

    ghost is_clone = { λ a b. a ≡ b };

    ghost is_infallible = { λ _. ⊤ };

    fn clone(&self) -> Result<Self, AllocError> {
        Ok(*self)
    }
}

impl<'a, I: Idx, T> Copy for IndexSlice<'a, I, T> {}

impl<'a, I: Idx, T: PartialEq> PartialEq for IndexSlice<'a, I, T> {
    ghost use Rattle.std.specs.Cmp.{on_per};
    ghost use Rattle.std.specs.Cmp.Lexicographic.{pointwise, lists_per};
    ghost use Rattle.abi_index.specs.Slice.{items_of};

    ghost eq = { λ x y. pointwise T.eq (items_of x) (items_of y) };

    ghost laws = { on_per items_of (lists_per T.laws) };

    fn eq(&self, other: &Self) -> bool {
        self.raw == other.raw
    }
}

impl<'a, I: Idx, T: Eq> Eq for IndexSlice<'a, I, T> {
    ghost use Rattle.std.specs.Cmp.{on_equiv};
    ghost use Rattle.std.specs.Cmp.Lexicographic.{lists_equiv};
    ghost use Rattle.abi_index.specs.Slice.{items_of};

    ghost laws = { on_equiv items_of (lists_equiv T.Eq.laws) };
}

impl<'a, I: Idx, T: Debug> Debug for IndexSlice<'a, I, T> {
    fn fmt<W: fmt::Write>(&self, f: &mut fmt::Formatter<W>) -> fmt::Result {
        self.raw.fmt(f)
    }
}

impl<'a, I: Idx, T> IndexSlice<'a, I, T> {
    ghost use Rattle.std.specs.List.{range_with_len};
    ghost use Rattle.std.specs.Slice.Iter.{iter_rest};
    ghost use Rattle.std.specs.Iterator.Adapters.{IterYieldsInOrder};
    ghost use Rattle.std.specs.Option.{option_copied};
    ghost use Rattle.abi_index.specs.Indices.{indices_left};
    ghost use Rattle.abi_index.specs.Slice.{items_of};

    /// A view of these items: no more than the index type can name.
    pub fn new(raw: &'a [T]) -> Self
        requires { length raw.now ≤ I.MAX_INDEX + 1 }
        ensures { items_of result ≡ raw.now }
    {
        IndexSlice {
            raw,
            of: PhantomData,
        }
    }

    /// How many items there are: no more than the index type can name.
    pub fn len(self) -> usize
        ensures count { result ≡ length (items_of self.entry) }
        ensures within { result ≤ I.MAX_INDEX + 1 }
    {
        self.raw.len()
    }

    /// The item at an index, if the list goes so far.
    pub fn get(self, index: I) -> Option<&'a T>
        ensures { option_copied result ≡ slice_get (items_of self.entry) (I.number index) }
    {
        self.raw.get(index.index())
    }

    /// The items as a slice, without the index type.
    pub fn as_raw(self) -> &'a [T]
        ensures items { result.now ≡ items_of self.entry }
        ensures within { length result.now ≤ I.MAX_INDEX + 1 }
    {
        self.raw
    }

    /// The index that the next item would have.
    pub fn next_index(self) -> I
        requires { length (items_of self) ≤ I.MAX_INDEX }
        ensures { result ≡ I.at (length (items_of self.entry)) }
    {
        I::new(self.raw.len())
    }

    /// The indices of the items, in order.
    pub fn indices(self) -> Indices<I>
        ensures { indices_left I.at result
            ≡ map I.at (range_with_len 0 (length (items_of self.entry))) }
    {
        Indices::with_count(self.raw.len())
    }

    /// Goes over the items, in order.
    pub fn iter(self) -> Iter<'a, T>
        ensures rest { iter_rest result ≡ (items_of self.entry) }
        ensures runs { IterYieldsInOrder T }
    {
        self.raw.iter()
    }
}
