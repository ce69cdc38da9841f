//! The niche of a list of fields.

ghost use Rattle.std.specs.Prelude.{◌≡◌, ◌+◌, ◌^◌, ◌<◌, IfSome, if◌then◌else◌, max, nat_lt};
ghost use Rattle.abi_scalar.specs.Lawful.{IsLawfulNiche};
ghost use Rattle.abi_scalar.specs.Niche.{IsWellFormedNiche};
ghost use Rattle.abi_univariant.specs.ListNiche.{IsPlacedField, biased_niche, niche_found, niche_of_part, niche_of_placed, placed_field, space_beside};

use crate::order::NicheBias;
use crate::part::Parts;
use abi_base::{HasDataLayout, Size};
use abi_index::Idx;
use abi_scalar::{LayoutHandle, Niche};

/// A field's niche, counted from the start of the list.
pub(crate) fn niche_of_part(offset: Size, own: &Option<Niche>) -> Option<Niche>
    requires { IfSome own.now (λ niche. offset + niche.offset < 2 ^ 64) }
    ensures { result ≡ niche_of_part offset own.now }
{
    let niche = (*own)?;
    Some(Niche {
        offset: offset + niche.offset,
        value: niche.value,
        valid_range: niche.valid_range,
    })
}

/// The greatest niche of the fields placed so far: the first of those that are as great, and the last.
#[derive(Clone, Copy)]
pub struct GreatestNiche {
    pub first: Option<Niche>,
    pub last: Option<Niche>,
    /// How many numbers each has free, 0 where there is none.
    pub free: u128,
}

impl GreatestNiche {
    /// The one that counts: the first for a bias to the start, the last for one to the end.
    pub(crate) fn niche_by_bias(&self, bias: NicheBias) -> Option<Niche>
        ensures { result ≡ biased_niche bias self.now.first self.now.last }
    {
        match bias {
            NicheBias::Start => self.first,
            NicheBias::End => self.last,
        }
    }
}

/// A field that lies at an offset.
#[derive(Clone, Copy)]
pub struct PlacedField {
    pub index: usize,
    pub offset: Size,
}

/// The fields with the greatest niche while fields are placed: their niches are copied when all lie.
#[derive(Clone, Copy)]
pub struct NicheSoFar {
    pub first: Option<PlacedField>,
    pub last: Option<PlacedField>,
    /// How many numbers each niche has free, 0 where there is none.
    pub free: u128,
}

/// The niche of a field that lies, if there is one.
fn niche_of_placed<FieldIdx: Idx, VariantIdx: Idx, F: LayoutHandle<FieldIdx, VariantIdx>>(
    parts: &Parts<'_, FieldIdx, VariantIdx, F>,
    field: Option<PlacedField>,
) -> Option<Niche>
    requires { IsPlacedField parts.now field }
    ensures { result ≡ niche_of_placed parts.now field }
{
    match field {
        Some(field) => {
            let own = &parts.layout_at(field.index).largest_niche;
            niche_of_part(field.offset, own)
        }
        None => None,
    }
}

impl NicheSoFar {
    /// That of no fields.
    pub const NONE: NicheSoFar = NicheSoFar {
        first: None,
        last: None,
        free: 0,
    };

    /// The greatest niche with that of one more field, which has so many free numbers.
    #[inline(always)]
    pub(crate) fn with(self, index: usize, offset: Size, free: u128) -> Self
        ensures first { result.first ≡ (if nat_lt self.free free then placed_field index offset
            else self.first) }
        ensures last { result.last ≡ (if nat_lt free self.free then self.last
            else placed_field index offset) }
        ensures free { result.free ≡ max self.free free }
    {
        if free < self.free {
            return self;
        }
        let last = Some(PlacedField { index, offset });
        NicheSoFar {
            first: if free > self.free { last } else { self.first },
            last,
            free,
        }
    }

    /// The niches themselves, counted from the start of the list.
    pub(crate) fn niches<FieldIdx: Idx, VariantIdx: Idx, F: LayoutHandle<FieldIdx, VariantIdx>>(
        self,
        parts: &Parts<'_, FieldIdx, VariantIdx, F>,
    ) -> GreatestNiche
        requires first { IsPlacedField parts.now self.first }
        requires last { IsPlacedField parts.now self.last }
        ensures { result ≡ niche_found parts.now self }
    {
        GreatestNiche {
            first: niche_of_placed(parts, self.first),
            last: niche_of_placed(parts, self.last),
            free: self.free,
        }
    }
}

/// The space before the niche or after it, whichever is more, in a list of this size. None where the niche touches
/// an edge.
pub(crate) fn space_beside<C: HasDataLayout>(cx: &C, size: Size, niche: &Niche) -> Option<Size>
    requires readable { IsWellFormedNiche (C.target cx.now) niche.now }
    requires inside { IsLawfulNiche (C.target cx.now) size niche.now }
    ensures { result ≡ space_beside (C.target cx.now) size (Some niche.now) }
{
    let end = niche.offset + niche.value.size(cx);
    let after = size - end;
    if niche.offset > Size::ZERO && after > Size::ZERO {
        Some(niche.offset.max(after))
    } else {
        None
    }
}
