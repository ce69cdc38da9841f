//! A type as walks go through it.

ghost use Rattle.std.specs.Prelude.{◌≡◌, ℕ, ◌<◌};
ghost use Rattle.abi_scalar.specs.Shape.{field_count};
ghost use Rattle.abi_types.specs.Ty.Typed.{Typed, at_variant, field_in, layout_in, marks_of};
ghost use Rattle.abi_types.specs.Ty.Lawful.{IsWellFormedType, NamesVariant, DepthFalls};

use crate::ty::interface::{TyAbiInterface, TyAndLayout};
use crate::ty::layout::Layout;
use abi_index::{FieldIdx, VariantIdx};
use abi_scalar::LayoutData;

/// A place in a type, with all that a walk asks of it. No lifetime is named in it, so that a recursion may have it as
/// its bound.
pub(crate) trait Walk: Copy {
    /// The layout is one of the type.
    ghost is_valid: { Self → Type 0 };

    /// A number that falls at each field, and at each variant that a tag distinguishes.
    ghost depth_of: { Self → ℕ };

    /// The type.
    ghost typed_of: { Self → Typed };

    /// Its layout.
    fn layout(&self) -> &LayoutData<FieldIdx, VariantIdx>
        requires { is_valid self.now }
        ensures { result.now ≡ layout_in (typed_of self.now) };

    /// A field of it.
    fn field(self, i: usize) -> Self
        requires valid { is_valid self }
        requires within { i < field_count (layout_in (typed_of self)).fields }
        ensures valid { is_valid result }
        ensures field { typed_of result ≡ field_in (typed_of self) i }
        ensures falls { depth_of result < depth_of self };

    /// One of its variants.
    fn variant(self, index: VariantIdx) -> Self
        requires valid { is_valid self }
        requires named { NamesVariant (layout_in (typed_of self)).variants index }
        ensures valid { is_valid result }
        ensures variant { typed_of result ≡ at_variant (typed_of self) index }
        ensures falls { DepthFalls (layout_in (typed_of self)).variants
            (depth_of result) (depth_of self) };

    /// Whether it is laid out as its one field that isn't of no bytes and no alignment.
    fn is_transparent(self) -> bool
        requires { is_valid self }
        ensures { result ≡ (marks_of (typed_of self)).is_transparent };

    /// Whether it is the language's own type of complex numbers.
    fn is_complex(self) -> bool
        requires { is_valid self }
        ensures { result ≡ (marks_of (typed_of self)).is_complex };

    /// Whether it is marked to be passed by a pointer where the calling convention isn't Rust's.
    fn is_passed_indirectly(self) -> bool
        requires { is_valid self }
        ensures { result ≡ (marks_of (typed_of self)).is_passed_indirectly };

    /// Its fields and variants lie inside it, and are those that its layout promises.
    ghost lawful_law: { (this : Self) → is_valid this → IsWellFormedType (typed_of this) };
}

/// A type, and what its questions are asked with.
#[derive_where(Clone, Copy; Ty)]
pub(crate) struct At<'a, 'c, Ty, C> {
    pub(crate) ty: Ty,
    pub(crate) layout: Layout<'a>,
    pub(crate) cx: &'c C,
}

impl<'a, 'c, Ty, C> At<'a, 'c, Ty, C> {
    /// The type as walks go through it.
    pub(crate) fn new(of: &TyAndLayout<'a, Ty>, cx: &'c C) -> Self
    where
        Ty: Copy,
        ensures { record { ty = result.ty; layout = result.layout } ≡ of.now }
    {
        At {
            ty: of.ty,
            layout: of.layout,
            cx,
        }
    }

    /// The type alone.
    pub(crate) fn as_ty_and_layout(self) -> TyAndLayout<'a, Ty>
        ensures { result ≡ record { ty = self.entry.ty; layout = self.entry.layout } }
    {
        TyAndLayout {
            ty: self.ty,
            layout: self.layout,
        }
    }
}

impl<'a, 'c, C, Ty: TyAbiInterface<'a, C> + Copy> Walk for At<'a, 'c, Ty, C> {
    ghost is_valid = { λ at. Ty.is_valid (record { ty = at.ty; layout = at.layout }) };

    ghost depth_of = { λ at. Ty.depth_of (record { ty = at.ty; layout = at.layout }) };

    ghost typed_of = { λ at. Ty.typed_of (record { ty = at.ty; layout = at.layout }) };

    ghost lawful_law = { λ at. Ty.lawful_law (record { ty = at.ty; layout = at.layout }) };

    fn layout(&self) -> &LayoutData<FieldIdx, VariantIdx> {
        self.layout.0
    }

    fn field(self, i: usize) -> Self {
        let cx = self.cx;
        let field = Ty::ty_and_layout_field(self.as_ty_and_layout(), cx, i);
        At::new(&field, cx)
    }

    fn variant(self, index: VariantIdx) -> Self {
        let cx = self.cx;
        let variant = Ty::ty_and_layout_for_variant(self.as_ty_and_layout(), cx, index);
        At::new(&variant, cx)
    }

    fn is_transparent(self) -> bool {
        Ty::is_transparent(self.as_ty_and_layout())
    }

    fn is_complex(self) -> bool {
        let cx = self.cx;
        Ty::is_complex_number_lang_item(self.as_ty_and_layout(), cx)
    }

    fn is_passed_indirectly(self) -> bool {
        Ty::is_pass_indirectly_in_non_rustic_abis_flag_set(self.as_ty_and_layout())
    }
}
