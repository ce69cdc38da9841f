//! What lists of fields have together that are the variants of one type.

ghost use Rattle.std.specs.Prelude.{◌≡◌, ◌+◌, ◌%◌, ◌^◌, max};
ghost use Rattle.abi_univariant.specs.Fields.{greater_of};
ghost use Rattle.abi_univariant.specs.UnivariantLayouts.{list_of};
ghost use Rattle.abi_univariant.specs.Summary.{no_lists, with_list};

use crate::univariant_layouts::VariantRest;
use abi_base::{Align, Size};
use abi_index::{Hash64, Idx};
use abi_scalar::VariantLayout;

/// What several lists of fields have together, which the type takes over whose variants they are.
#[derive(Clone, Copy)]
pub struct Summary {
    /// The greatest size in bytes; 0 where there is no list.
    pub size: Size,
    /// The greatest alignment; that of a byte where there is no list.
    pub align: Align,
    /// The greatest alignment before `repr(align)` raised them; that of a byte where there is no list.
    pub unadjusted_abi_align: Align,
    /// The greatest alignment that a `repr(align)` asks for.
    pub max_repr_align: Option<Align>,
    /// Whether no list has values.
    pub uninhabited: bool,
    /// The sum of the seeds, modulo 2 to the 64.
    pub randomization_seed: Hash64,
}

/// The greater of two alignments, where there are any.
fn greater_of(a: Option<Align>, b: Option<Align>) -> Option<Align>
    ensures { result ≡ greater_of a b }
{
    match (a, b) {
        (Some(a), Some(b)) => Some(a.max(b)),
        (None, b) => b,
        (a, None) => a,
    }
}

impl Summary {
    /// Of no list.
    pub(crate) fn new() -> Self
        ensures { result ≡ no_lists }
    {
        Summary {
            size: Size::ZERO,
            align: Align::ONE,
            unadjusted_abi_align: Align::ONE,
            max_repr_align: None,
            uninhabited: true,
            randomization_seed: Hash64::ZERO,
        }
    }

    /// With one list more.
    pub(crate) fn with<FieldIdx: Idx, VariantIdx: Idx>(
        self,
        variant: &VariantLayout<FieldIdx>,
        rest: &VariantRest<VariantIdx>,
    ) -> Self
        ensures { result ≡ with_list self (list_of variant.now rest.now) }
    {
        Summary {
            size: self.size.max(variant.size),
            align: self.align.max(rest.align),
            unadjusted_abi_align: self.unadjusted_abi_align.max(rest.unadjusted_abi_align),
            max_repr_align: greater_of(self.max_repr_align, rest.max_repr_align),
            uninhabited: self.uninhabited & variant.is_uninhabited(),
            randomization_seed: self
                .randomization_seed
                .wrapping_add(rest.randomization_seed),
        }
    }

    /// The greatest alignment, and no less than this one.
    pub fn align_with(&self, own: Align) -> Align
        ensures { result ≡ max own self.now.align }
    {
        own.max(self.align)
    }

    /// The greatest alignment before `repr(align)` raised them, and no less than this one.
    pub fn unadjusted_align_with(&self, own: Align) -> Align
        ensures { result ≡ max own self.now.unadjusted_abi_align }
    {
        own.max(self.unadjusted_abi_align)
    }

    /// The greatest alignment that a `repr(align)` asks for, this one or one in the lists.
    pub fn max_repr_align_with(&self, own: Option<Align>) -> Option<Align>
        ensures { result ≡ greater_of own self.now.max_repr_align }
    {
        greater_of(own, self.max_repr_align)
    }

    /// The sum of the seeds and this one, modulo 2 to the 64.
    pub fn seed_with(&self, own: Hash64) -> Hash64
        ensures { result ≡ (self.now.randomization_seed + own) % 2 ^ 64 }
    {
        self.randomization_seed.wrapping_add(own)
    }
}
