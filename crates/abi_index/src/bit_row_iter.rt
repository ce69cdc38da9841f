//! Going over the columns of a row.

ghost use Rattle.std.specs.Prelude.{◌≡◌, ◌≤◌, All, map};
ghost use Rattle.std.specs.Iterator.{YieldsFirst, item_count};

use crate::idx::Idx;
use std::marker::PhantomData;

/// The columns that are related to a row, ascending.
#[derive(Drop, PartialEq, Eq, Debug)]
pub struct BitRowIter<'a, C: Idx> {
    left: &'a [u32],
    of: PhantomData<C>,
    ghost within: { All (λ c. c ≤ C.MAX_INDEX) left.now },
}

impl<'a, C: Idx> BitRowIter<'a, C> {
    ghost use Rattle.abi_index.specs.BitRow.{columns_left};

    /// These columns.
    pub(crate) fn new(left: &'a [u32]) -> Self
        requires { All (λ c. c ≤ C.MAX_INDEX) left.now }
        ensures { columns_left C.at result ≡ map C.at left.now }
    {
        BitRowIter {
            left,
            of: PhantomData,
        }
    }
}

impl<'a, C: Idx> Iterator for BitRowIter<'a, C> {
    ghost use Rattle.abi_index.specs.BitRow.{columns_left};

    type Item = C;

    ghost next_gives = { YieldsFirst (λ s. columns_left C.at s) };

    ghost remaining = { item_count (λ s. columns_left C.at s) };

    fn next(&mut self) -> Option<C> {
        let (first, left) = self.left.split_first()?;
        self.left = left;
        Some(C::new(*first as usize))
    }

    fn size_hint(&self) -> (usize, Option<usize>) {
        (self.left.len(), Some(self.left.len()))
    }
}
