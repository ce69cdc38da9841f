//! Going over fields as they follow one another in memory.

ghost use Rattle.std.specs.Prelude.{◌≡◌, length, IfSome, Some};
ghost use Rattle.std.specs.Iterator.{YieldsFirst, UpTo, at_most, item_count};
ghost use Rattle.std.specs.Iterator.SizeHint.{IsWithinCount};
ghost use Rattle.abi_scalar.specs.Order.{HasPlaceForEach, IsAscending, NeverStepsBack, indices_by_offset, place_count, places_in, places_left};

use crate::fields_shape::FieldsShape;
use abi_index::Idx;

/// Which fields are still to come.
#[derive(Drop, PartialEq, Eq, Debug)]
enum Order<'a, FieldIdx> {
    /// These, in this order.
    Listed(&'a [FieldIdx]),
    /// Those at the places from `next` to before `end`.
    Counted { next: usize, end: usize },
}

/// The places of fields in source order, in the order in which the fields follow one another in memory.
#[derive(Drop, PartialEq, Eq, Debug)]
pub struct IncreasingOffset<'a, FieldIdx> {
    order: Order<'a, FieldIdx>,
}

impl<FieldIdx: Idx> FieldsShape<FieldIdx> {
    /// The fields, none of them taken yet.
    fn memory_order(&self) -> Order<'_, FieldIdx>
        ensures { places_in FieldIdx.number result ≡ indices_by_offset FieldIdx.number self.now }
    {
        match self {
            FieldsShape::Primitive => Order::Counted { next: 0, end: 1 },
            FieldsShape::Union(count) => Order::Counted {
                next: 0,
                end: count.get(),
            },
            FieldsShape::Array { stride: _, count } => {
                Order::Counted {
                    next: 0,
                    end: *count as usize,
                }
            }
            FieldsShape::Arbitrary {
                offsets: _,
                in_memory_order,
            } => Order::Listed(in_memory_order.as_slice().as_raw()),
        }
    }

    /// The places of the fields in source order, in the order in which the fields follow one another in memory: a
    /// field's offset is no smaller than the one before, where the memory order is one. A scalar counts as one
    /// field, at place 0.
    ///
    /// Asked of a shape whose listed fields have as many places in memory order as offsets.
    pub fn index_by_increasing_offset(&self) -> IncreasingOffset<'_, FieldIdx>
        requires { HasPlaceForEach self.now }
        ensures items { places_left FieldIdx.number result
            ≡ indices_by_offset FieldIdx.number self.now }
        ensures count { length (places_left FieldIdx.number result) ≡ place_count self.now }
        ensures ascending { IsAscending FieldIdx.number self.now →
            NeverStepsBack self.now (places_left FieldIdx.number result) }
    {
        IncreasingOffset {
            order: self.memory_order(),
        }
    }
}

impl<'a, FieldIdx: Idx> Iterator for IncreasingOffset<'a, FieldIdx> {
    type Item = usize;

    ghost next_gives = { YieldsFirst (λ s. places_left FieldIdx.number s) };

    ghost remaining = { item_count (λ s. places_left FieldIdx.number s) };

    #[tactic(auto, using(crate::proofs::OrderLemmas::places_begin, crate::proofs::OrderLemmas::places_end))]
    fn next(&mut self) -> Option<usize> {
        match self.order {
            Order::Listed(order) => {
                let (first, others) = order.split_first()?;
                let place = first.index();
                self.order = Order::Listed(others);
                Some(place)
            }
            Order::Counted { next, end } => {
                if next >= end {
                    return None;
                }
                self.order = Order::Counted {
                    next: next + 1,
                    end,
                };
                Some(next)
            }
        }
    }

    /// The number of places that are still to come, twice.
    fn size_hint(&self) -> (usize, Option<usize>)
        ensures lower { IsWithinCount result.0
            (at_most (length (places_left FieldIdx.number self.now))) }
        ensures upper { IfSome result.1
            (UpTo (at_most (length (places_left FieldIdx.number self.now)))) }
        ensures exact { let left = length (places_left FieldIdx.number self.now) in
            result ≡ (left, Some left) }
    {
        let left = self.len();
        (left, Some(left))
    }
}

impl<'a, FieldIdx: Idx> ExactSizeIterator for IncreasingOffset<'a, FieldIdx> {
    #[tactic(auto, using(crate::proofs::OrderLemmas::range_length))]
    fn len(&self) -> usize {
        match &self.order {
            Order::Listed(order) => order.len(),
            Order::Counted { next, end } => end.saturating_sub(*next),
        }
    }
}
