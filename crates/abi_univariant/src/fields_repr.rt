//! How a list of fields is to be laid out.

ghost use Rattle.std.specs.Prelude.{◌≡◌, ◌+◌, ◌^◌, ◌<◌, ◌≤◌};
ghost use Rattle.std.specs.Int.{next_multiple_of};
ghost use Rattle.abi_univariant.specs.Part.{max_align};
ghost use Rattle.abi_univariant.specs.Placement.{cut, own_align, fields_repr, unraised_repr};

use abi_base::{Align, Size, StructKind, TargetDataLayout};
use abi_scalar::ReprOptions;

/// How a list of fields is to be laid out.
#[derive(Clone, Copy)]
pub struct FieldsRepr {
    pub kind: StructKind,
    /// No field is aligned to more than this.
    pub pack: Option<Align>,
    /// The list's alignment is at least this.
    pub align: Align,
    /// The fields may be moved out of source order.
    pub reorderable: bool,
}

/// The alignment that a list begins with: that of aggregates, or of a byte where its fields are packed.
pub(crate) fn own_align(dl: &TargetDataLayout, repr: &ReprOptions) -> Align
    ensures { result ≡ own_align dl.now repr.now }
{
    if repr.packed() {
        dl.i8_align
    } else {
        dl.aggregate_align
    }
}

/// What this `repr` asks of a list of this kind.
pub(crate) fn fields_repr(dl: &TargetDataLayout, repr: &ReprOptions, kind: StructKind) -> FieldsRepr
    ensures { result ≡ fields_repr dl.now repr.now kind }
{
    let own = own_align(dl, repr);
    FieldsRepr {
        kind,
        pack: repr.pack,
        align: own.max(repr.align.unwrap_or(Align::ONE)),
        reorderable: !repr.inhibit_struct_field_reordering(),
    }
}

/// The same before `repr(align)` raises the alignment.
pub(crate) fn unraised_repr(
    dl: &TargetDataLayout,
    repr: &ReprOptions,
    list: &FieldsRepr,
) -> FieldsRepr
    ensures { result ≡ unraised_repr dl.now repr.now list.now.kind }
{
    FieldsRepr {
        kind: list.kind,
        pack: repr.pack,
        align: own_align(dl, repr),
        reorderable: !repr.inhibit_struct_field_reordering(),
    }
}

/// The alignment, but no more than the pack's.
pub(crate) fn cut_to(align: Align, pack: Option<Align>) -> Align
    ensures value { result ≡ cut pack align }
    ensures bound { result ≤ align }
{
    match pack {
        Some(pack) => align.min(pack),
        None => align,
    }
}

/// The least multiple of the alignment that is no less.
#[tactic(auto, using(crate::proofs::Offsets::Rounding::round_below))]
pub fn round_up(offset: Size, align: Align) -> Size
    requires offset { offset < 2 ^ 63 }
    requires align { align ≤ max_align }
    ensures value { result ≡ next_multiple_of offset (2 ^ align) }
    ensures lower_bound { offset ≤ result }
    ensures upper_bound { result < offset + 2 ^ max_align }
{
    offset.align_to(align)
}
