//! Niches: numbers that a place inside a type never holds.

ghost use Rattle.std.specs.Prelude.{◌≡◌, ◌↔◌, IsSome};
ghost use Rattle.abi_scalar.specs.Count.{AreSoMany};
ghost use Rattle.abi_scalar.specs.Range.{IsFree};
ghost use Rattle.abi_scalar.specs.Scalar.{IsWellFormed};
ghost use Rattle.abi_scalar.specs.Niche.{niche_size, available_in, niche_at, HasFreeNumber, IsWellFormedNiche};

use crate::scalar::Scalar;
use crate::wrapping_range::WrappingRange;
use abi_base::{HasDataLayout, Primitive, Size};

/// A place inside a type, and the numbers that it holds there: all others of its width are free.
#[derive(Clone, Copy, PartialEq, Eq, Hash, Debug)]
pub struct Niche {
    /// Where it begins, in bytes from the type's start.
    pub offset: Size,
    /// What it consists of, which gives its width.
    pub value: Primitive,
    /// The numbers that the scalar there may hold; all others are free.
    pub valid_range: WrappingRange,
}

impl Niche {
    /// The niche of a scalar at an offset. None for a union's scalar, and where no number is free.
    pub fn from_scalar<C: HasDataLayout>(cx: &C, offset: Size, scalar: Scalar) -> Option<Niche>
        requires { IsWellFormed (C.target cx.now) scalar }
        ensures exact { result ≡ niche_at (C.target cx.now) offset scalar }
        ensures free { IsSome result ↔ HasFreeNumber (C.target cx.now) scalar }
    {
        match scalar {
            Scalar::Initialized { value, valid_range } => {
                let niche = Niche {
                    offset,
                    value,
                    valid_range,
                };
                if niche.available(cx) == 0 {
                    None
                } else {
                    Some(niche)
                }
            }
            Scalar::Union { value: _ } => None,
        }
    }

    /// How many numbers of its width are outside its range, free for variants.
    #[tactic(auto, using(crate::proofs::CountLemmas::free_counted))]
    pub fn available<C: HasDataLayout>(&self, cx: &C) -> u128
        requires { IsWellFormedNiche (C.target cx.now) self.now }
        ensures exact { result ≡ available_in (C.target cx.now) self.now }
        ensures count { AreSoMany
            (IsFree (niche_size (C.target cx.now) self.now) self.now.valid_range) result }
    {
        self.valid_range.free_count(self.value.size(cx))
    }
}
