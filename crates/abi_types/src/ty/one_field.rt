//! The one field of a type that has bytes.

ghost use Rattle.std.specs.Prelude.{◌≡◌, ◌<◌, IfSome};
ghost use Rattle.std.specs.Option.{option_map};
ghost use Rattle.abi_scalar.specs.Shape.{field_count};
ghost use Rattle.abi_types.specs.Ty.Typed.{field_in, layout_in};
ghost use Rattle.abi_types.specs.Ty.Walks.{only_field, non_1zst_field, non_zst_field};
ghost use Rattle.abi_types.specs.Ty.NoBytes.{has_no_bytes};

use crate::ty::interface::{TyAbiInterface, TyAndLayout};
use crate::ty::walk::{At, Walk};
use abi_index::{FieldIdx, VariantIdx};
use abi_scalar::{FieldsShape, LayoutData};

/// What has no bytes.
#[derive(Clone, Copy)]
pub(crate) enum NoBytes {
    /// Bytes in memory, of which there are none.
    OfAnyAlign,
    /// What is sized, without a byte, and aligned to one byte.
    OfLeastAlign,
}

impl NoBytes {
    /// Whether the layout is such.
    #[tactic(auto, using(crate::proofs::OneFieldLemmas::zst_decided, crate::proofs::OneFieldLemmas::zst1_decided))]
    pub(crate) fn holds(self, layout: &LayoutData<FieldIdx, VariantIdx>) -> bool
        ensures { result ≡ has_no_bytes self layout.now }
    {
        match self {
            NoBytes::OfAnyAlign => layout.is_zst(),
            NoBytes::OfLeastAlign => layout.is_1zst(),
        }
    }
}

/// The index of the one field that isn't such; None where there is no such field, or several. Elements of an array are
/// all one type: of two or more none is the only one.
#[tactic(auto, using(crate::proofs::OneFieldLemmas::one_field_steps))]
pub(crate) fn only_field<W: Walk>(this: W, kind: NoBytes) -> Option<usize>
    requires { W.is_valid this }
    ensures index { result ≡ only_field (has_no_bytes kind) (layout_in (W.typed_of this))
        (field_in (W.typed_of this)) }
    ensures within { IfSome result (λ i. i < field_count (layout_in (W.typed_of this)).fields) }
{
    let fields = &this.layout().fields;
    if let FieldsShape::Array { stride: _, count } = fields {
        if *count > 1 {
            return None;
        }
    }
    let mut found: Option<usize> = None;
    for i in 0..fields.count() {
        if !kind.holds(this.field(i).layout()) {
            if found.is_some() {
                return None;
            }
            found = Some(i);
        }
    }
    found
}

/// The one field that isn't such, and its index; None where there is no such field, or several.
#[tactic(auto, using(crate::proofs::OneFieldLemmas::can_be_named))]
fn only_field_of<W: Walk>(this: W, kind: NoBytes) -> Option<(FieldIdx, W)>
    requires { W.is_valid this }
    ensures index { option_map (λ found. found.0) result ≡ only_field (has_no_bytes kind)
        (layout_in (W.typed_of this)) (field_in (W.typed_of this)) }
    ensures field { IfSome result (λ found.
        W.typed_of found.1 ≡ field_in (W.typed_of this) found.0) }
    ensures valid { IfSome result (λ found. W.is_valid found.1) }
{
    let i = only_field(this, kind)?;
    Some((FieldIdx::from_usize(i), this.field(i)))
}

impl<'a, Ty> TyAndLayout<'a, Ty> {
    /// The one field that has bytes or is aligned to more than one, and its index; None where there is no such field,
    /// or several.
    pub fn non_1zst_field<C>(&self, cx: &C) -> Option<(FieldIdx, TyAndLayout<'a, Ty>)>
    where
        Ty: TyAbiInterface<'a, C> + Copy,
        requires { Ty.is_valid self.now }
        ensures index { option_map (λ found. found.0) result
            ≡ non_1zst_field (Ty.typed_of self.now) }
        ensures field { IfSome result (λ found.
            Ty.typed_of found.1 ≡ field_in (Ty.typed_of self.now) found.0) }
        ensures valid { IfSome result (λ found. Ty.is_valid found.1) }
    {
        let at = At::new(self, cx);
        let (i, field) = only_field_of(at, NoBytes::OfLeastAlign)?;
        Some((i, field.as_ty_and_layout()))
    }

    /// The one field that has bytes, and its index; None where there is no such field, or several.
    pub fn non_zst_field_ignore_alignment<C>(
        &self,
        cx: &C,
    ) -> Option<(FieldIdx, TyAndLayout<'a, Ty>)>
    where
        Ty: TyAbiInterface<'a, C> + Copy,
        requires { Ty.is_valid self.now }
        ensures index { option_map (λ found. found.0) result
            ≡ non_zst_field (Ty.typed_of self.now) }
        ensures field { IfSome result (λ found.
            Ty.typed_of found.1 ≡ field_in (Ty.typed_of self.now) found.0) }
        ensures valid { IfSome result (λ found. Ty.is_valid found.1) }
    {
        let at = At::new(self, cx);
        let (i, field) = only_field_of(at, NoBytes::OfAnyAlign)?;
        Some((i, field.as_ty_and_layout()))
    }
}
