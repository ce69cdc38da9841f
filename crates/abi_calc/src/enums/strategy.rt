//! Which way a type with variants is laid out.

ghost use Rattle.std.specs.Prelude.{◌≡◌, ◌-◌, length, map};
ghost use Rattle.std.specs.List.{find, list_all, range_with_len};
ghost use Rattle.abi_calc.specs.Enums.EnumStrategy.{is_absent, is_free, is_present, strategy_of, takes_no_room, variant_at};

use abi_index::{Idx, IndexVec};
use abi_scalar::{LayoutData, LayoutHandle, ReprOptions};
use abi_univariant::any_uninhabited;

/// Which way a type with variants is laid out.
#[derive(Clone, Copy)]
pub enum EnumStrategy {
    /// Nowhere: no variant has values.
    NoValue,
    /// As the list of the fields of this variant.
    OneList(usize),
    /// With a tag or a niche that distinguishes variants.
    Several,
}

/// Whether the type is sized, has no bytes and is aligned to one.
pub(crate) fn takes_no_room<FieldIdx: Idx, VariantIdx: Idx>(
    layout: &LayoutData<FieldIdx, VariantIdx>,
) -> bool
    ensures { result ≡ takes_no_room layout.now }
{
    layout.is_1zst()
}

/// Whether each field takes no room.
fn all_take_no_room<FieldIdx: Idx, VariantIdx: Idx, F: LayoutHandle<FieldIdx, VariantIdx>>(
    fields: &[F],
) -> bool
    ensures { result ≡ list_all takes_no_room (map F.layout_of fields.now) }
{
    for field in fields {
        if !takes_no_room(field.layout()) {
            return false;
        }
    }
    true
}

/// Whether a variant with these fields is absent: it has no values and takes no room.
pub(crate) fn is_absent<FieldIdx: Idx, VariantIdx: Idx, F: LayoutHandle<FieldIdx, VariantIdx>>(
    fields: &[F],
) -> bool
    ensures { result ≡ is_absent (map F.layout_of fields.now) }
{
    any_uninhabited(fields) && all_take_no_room(fields)
}

/// Whether the layout of the variants is free: neither C nor an integer is asked for.
pub(crate) fn is_free(repr: &ReprOptions) -> bool
    ensures { result ≡ is_free repr.now }
{
    !repr.inhibit_enum_layout_opt()
}

/// Whether a variant with these fields is present.
fn is_present<FieldIdx: Idx, VariantIdx: Idx, F: LayoutHandle<FieldIdx, VariantIdx>>(
    repr: &ReprOptions,
    fields: &[F],
) -> bool
    ensures { result ≡ is_present repr.now (map F.layout_of fields.now) }
{
    !is_free(repr) || !is_absent(fields)
}

/// The first variant that is present, from a place on.
#[tactic(auto, using(crate::proofs::EnumLemmas::EnumStrategy::find_end))]
fn present_from<FieldIdx: Idx, VariantIdx: Idx, F: LayoutHandle<FieldIdx, VariantIdx>>(
    repr: &ReprOptions,
    variants: &[IndexVec<FieldIdx, F>],
    from: usize,
) -> Option<usize>
    ensures { result ≡ find (λ i. is_present repr.now (variant_at (map
        (map F.layout_of) variants.now) i)) (range_with_len from (length variants.now - from)) }
{
    for index in from..variants.len() {
        if is_present(repr, variants[index].as_slice().as_raw()) {
            return Some(index);
        }
    }
    None
}

/// Which way a struct, or an enum, with these variants is laid out.
pub(crate) fn strategy_of<FieldIdx: Idx, VariantIdx: Idx, F: LayoutHandle<FieldIdx, VariantIdx>>(
    is_enum: bool,
    repr: &ReprOptions,
    variants: &[IndexVec<FieldIdx, F>],
) -> EnumStrategy
    ensures { result ≡ strategy_of is_enum repr.now (map (map F.layout_of) variants.now) }
{
    if !is_enum {
        return EnumStrategy::OneList(0);
    }
    let Some(first) = present_from(repr, variants, 0) else {
        return EnumStrategy::NoValue;
    };
    if !is_free(repr) {
        return EnumStrategy::Several;
    }
    match present_from(repr, variants, first + 1) {
        None => EnumStrategy::OneList(first),
        Some(_) => EnumStrategy::Several,
    }
}
