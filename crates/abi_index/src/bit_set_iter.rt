//! Going over the members of a set.

ghost use Rattle.std.specs.Prelude.{◌≡◌, ◌≤◌, ◌+◌, length, map};
ghost use Rattle.std.specs.Iterator.{YieldsFirst, item_count};

use crate::first_member::first_from;
use crate::idx::Idx;
use std::marker::PhantomData;

/// An iterator over the members of a set, ascending.
#[derive(Drop, PartialEq, Eq, Debug)]
pub struct BitSetIter<'a, I: Idx> {
    bits: &'a [bool],
    next: usize,
    of: PhantomData<I>,
    ghost within: { length bits.now ≤ I.MAX_INDEX + 1 },
}

impl<'a, I: Idx> BitSetIter<'a, I> {
    ghost use Rattle.abi_index.specs.BitSet.{members_of, members_left};

    /// The members of a set of which the list says them.
    pub(crate) fn new(bits: &'a [bool]) -> Self
        requires { length bits.now ≤ I.MAX_INDEX + 1 }
        ensures { members_left I.at result ≡ map I.at (members_of bits.now) }
    {
        BitSetIter {
            bits,
            next: 0,
            of: PhantomData,
        }
    }
}

impl<'a, I: Idx> Iterator for BitSetIter<'a, I> {
    ghost use Rattle.abi_index.specs.BitSet.{members_left};

    type Item = I;

    ghost next_gives = { YieldsFirst (λ s. members_left I.at s) };

    ghost remaining = { item_count (λ s. members_left I.at s) };

    fn next(&mut self) -> Option<I> {
        let place = first_from(self.bits, self.next)?;
        self.next = place + 1;
        Some(I::new(place))
    }

    #[tactic(auto, using(crate::proofs::BitSetLemmas::few_left))]
    fn size_hint(&self) -> (usize, Option<usize>) {
        (0, Some(self.bits.len().saturating_sub(self.next)))
    }
}
