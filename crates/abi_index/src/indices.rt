//! Going over the indices of a list.

ghost use Rattle.std.specs.Prelude.{◌≡◌, ◌≤◌, ◌+◌, map};
ghost use Rattle.std.specs.List.{range_with_len};
ghost use Rattle.std.specs.Iterator.{YieldsFirst, item_count};

use crate::idx::Idx;
use std::marker::PhantomData;

/// The indices of a list's places, in order.
#[derive(Drop, PartialEq, Eq, Debug)]
pub struct Indices<I: Idx> {
    next: usize,
    end: usize,
    of: PhantomData<I>,
    ghost within: { end ≤ I.MAX_INDEX + 1 },
}

impl<I: Idx> Indices<I> {
    ghost use Rattle.abi_index.specs.Indices.{indices_left};

    /// The indices of `count` places.
    pub(crate) fn with_count(count: usize) -> Self
        requires { count ≤ I.MAX_INDEX + 1 }
        ensures { indices_left I.at result ≡ map I.at (range_with_len 0 count) }
    {
        Indices {
            next: 0,
            end: count,
            of: PhantomData,
        }
    }
}

impl<I: Idx> Iterator for Indices<I> {
    ghost use Rattle.abi_index.specs.Indices.{indices_left};

    type Item = I;

    ghost next_gives = { YieldsFirst (λ s. indices_left I.at s) };

    ghost remaining = { item_count (λ s. indices_left I.at s) };

    fn next(&mut self) -> Option<I> {
        if self.next >= self.end {
            return None;
        }
        let index = I::new(self.next);
        self.next += 1;
        Some(index)
    }

    #[tactic(auto, using(crate::proofs::IndicesLemmas::length_indices))]
    fn size_hint(&self) -> (usize, Option<usize>) {
        let left = self.end.saturating_sub(self.next);
        (left, Some(left))
    }
}
