//! What a type takes over from all of its fields together, be it a list or a union.

ghost use Rattle.std.specs.Prelude.{◌≡◌, map};
ghost use Rattle.std.specs.List.{list_any};
ghost use Rattle.abi_univariant.specs.Fields.{greatest_align, greatest_repr_align, greatest_size, greatest_unadjusted, lies_as_in_c, seed_with};

use abi_base::{Align, Size};
use abi_index::{Hash64, Idx};
use abi_scalar::{LayoutHandle, ReprOptions};

/// The greatest of the fields' sizes.
pub(crate) fn greatest_size<FieldIdx: Idx, VariantIdx: Idx, F: LayoutHandle<FieldIdx, VariantIdx>>(
    fields: &[F],
) -> Size
    ensures { result ≡ greatest_size (map F.layout_of fields.now) }
{
    let mut greatest = Size::ZERO;
    for field in fields {
        greatest = greatest.max(field.layout().size);
    }
    greatest
}

/// The greatest of the fields' alignments and this one.
pub fn greatest_align<FieldIdx: Idx, VariantIdx: Idx, F: LayoutHandle<FieldIdx, VariantIdx>>(
    own: Align,
    fields: &[F],
) -> Align
    ensures { result ≡ greatest_align own (map F.layout_of fields.now) }
{
    let mut greatest = own;
    for field in fields {
        greatest = greatest.max(field.layout().align.abi);
    }
    greatest
}

/// The greatest of the fields' alignments before `repr(align)` raised them, and this one.
pub(crate) fn greatest_unadjusted<
    FieldIdx: Idx,
    VariantIdx: Idx,
    F: LayoutHandle<FieldIdx, VariantIdx>,
>(own: Align, fields: &[F]) -> Align
    ensures { result ≡ greatest_unadjusted own (map F.layout_of fields.now) }
{
    let mut greatest = own;
    for field in fields {
        greatest = greatest.max(field.layout().unadjusted_abi_align);
    }
    greatest
}

/// The greatest alignment that a `repr(align)` asks for, this one or one in the fields.
pub(crate) fn greatest_repr_align<
    FieldIdx: Idx,
    VariantIdx: Idx,
    F: LayoutHandle<FieldIdx, VariantIdx>,
>(own: Option<Align>, fields: &[F]) -> Option<Align>
    ensures { result ≡ greatest_repr_align own (map F.layout_of fields.now) }
{
    let mut greatest = own;
    for field in fields {
        greatest = match (greatest, field.layout().max_repr_align) {
            (Some(a), Some(b)) => Some(a.max(b)),
            (None, b) => b,
            (a, None) => a,
        };
    }
    greatest
}

/// Whether some field lies as `repr(C)` has it.
fn any_repr_c<FieldIdx: Idx, VariantIdx: Idx, F: LayoutHandle<FieldIdx, VariantIdx>>(
    fields: &[F],
) -> bool
    ensures { result ≡ list_any (λ f. f.repr_c) (map F.layout_of fields.now) }
{
    for field in fields {
        if field.layout().repr_c {
            return true;
        }
    }
    false
}

/// Whether the type lies as `repr(C)` has it: by its own `repr`, or as one field does that it is transparent over.
pub(crate) fn lies_as_in_c<FieldIdx: Idx, VariantIdx: Idx, F: LayoutHandle<FieldIdx, VariantIdx>>(
    repr: &ReprOptions,
    fields: &[F],
) -> bool
    ensures { result ≡ lies_as_in_c repr.now (map F.layout_of fields.now) }
{
    if repr.transparent() {
        repr.c() | any_repr_c(fields)
    } else {
        repr.c()
    }
}

/// The sum of the fields' seeds and this one, modulo 2 to the 64.
pub(crate) fn seed_with<FieldIdx: Idx, VariantIdx: Idx, F: LayoutHandle<FieldIdx, VariantIdx>>(
    own: Hash64,
    fields: &[F],
) -> Hash64
    ensures { result ≡ seed_with own (map F.layout_of fields.now) }
{
    let mut seed = Hash64::ZERO;
    for field in fields {
        seed = seed.wrapping_add(field.layout().randomization_seed);
    }
    seed.wrapping_add(own)
}
