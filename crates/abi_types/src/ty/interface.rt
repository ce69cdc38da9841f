//! Types that tell how they are laid out.

ghost use Rattle.std.specs.Prelude.{◌≡◌, ℕ, ◌<◌};
ghost use Rattle.abi_scalar.specs.Shape.{field_count};
ghost use Rattle.abi_types.specs.Ty.Typed.{Typed, at_variant, field_in, layout_in, marks_of};
ghost use Rattle.abi_types.specs.Ty.Lawful.{IsWellFormedType, NamesVariant, DepthFalls};

use crate::ty::layout::Layout;
use abi_base::{PointeeInfo, Size};
use abi_index::{FieldIdx, VariantIdx};
use abi_scalar::LayoutData;
use std::fmt;
use std::fmt::{Debug, Display};

/// A type beside its layout, as walks and conventions take it.
#[derive(Clone, Copy, PartialEq, Eq, Hash)]
pub struct TyAndLayout<'a, Ty> {
    /// The type.
    pub ty: Ty,
    /// Its layout.
    pub layout: Layout<'a>,
}

impl<'a, Ty: Display> Debug for TyAndLayout<'a, Ty> {
    /// The type as it is displayed, and the layout.
    fn fmt<W: fmt::Write>(&self, f: &mut fmt::Formatter<W>) -> fmt::Result {
        f.debug_struct("TyAndLayout")
            .field("ty", &format_args!("{}", self.ty))
            .field("layout", &self.layout)
            .finish()
    }
}

impl<'a, Ty> TyAndLayout<'a, Ty> {
    /// The layout itself, as it was laid out.
    pub fn data(&self) -> &'a LayoutData<FieldIdx, VariantIdx>
        ensures { result.now ≡ self.now.layout.0.now }
    {
        self.layout.data()
    }
}

/// What a type says of itself, beside its layout: its fields and variants, each with its own layout, and marks.
///
/// The laws speak of `this` alone and hold for every `cx`: all that is answered has to be found from
/// `this`, and nothing in `cx` alone. So a type carries what it says, as interned types do: an index
/// beside a reference to the table that it points into.
///
/// An implementation proves its laws of each `this` of which `is_valid` holds. The type has the layout
/// beside it. Each field lies inside it, at its offset, and no variant is larger. The elements of an
/// array are all one type, each of at most as many bytes as the stride; fields that are no elements are
/// at most 0xFFFF_FF01, as many as an index names. A complex number has a field. All of this holds of
/// its fields and variants, too, and of theirs; the depth falls at each field, and at each variant that
/// a tag distinguishes.
pub trait TyAbiInterface<'a, C>: Sized + Debug + Display {
    ghost use Rattle.abi_types.specs.declared.ty.interface.TyAndLayout.{TyAndLayout};

    /// The layout is one of this type. Every call asks for it, and none tests it.
    ghost is_valid: { TyAndLayout Self → Type 0 };

    /// At least as many as types lie one in another in it.
    ghost depth_of: { TyAndLayout Self → ℕ };

    /// All that it says.
    ghost typed_of: { TyAndLayout Self → Typed };

    /// The type at one of its variants: the variant alone, without the tag, where a tag distinguishes variants; and the
    /// type itself where there is one variant.
    fn ty_and_layout_for_variant(
        this: TyAndLayout<'a, Self>,
        cx: &C,
        variant_index: VariantIdx,
    ) -> TyAndLayout<'a, Self>
        requires valid { is_valid this }
        requires named { NamesVariant (layout_in (typed_of this)).variants variant_index }
        ensures valid { is_valid result }
        ensures variant { typed_of result ≡ at_variant (typed_of this.entry) variant_index }
        ensures falls { DepthFalls (layout_in (typed_of this.entry)).variants
            (depth_of result) (depth_of this.entry) };

    /// The type of a field.
    fn ty_and_layout_field(this: TyAndLayout<'a, Self>, cx: &C, i: usize) -> TyAndLayout<'a, Self>
        requires valid { is_valid this }
        requires within { i < field_count (layout_in (typed_of this)).fields }
        ensures valid { is_valid result }
        ensures field { typed_of result ≡ field_in (typed_of this.entry) i }
        ensures falls { depth_of result < depth_of this.entry };

    /// What stands behind the pointer at an offset, where there is one of which that is known.
    fn ty_and_layout_pointee_info_at(
        this: TyAndLayout<'a, Self>,
        cx: &C,
        offset: Size,
    ) -> Option<PointeeInfo>
        requires { is_valid this }
        ensures { result ≡ (marks_of (typed_of this.entry)).pointee offset };

    /// Whether it is a struct, a union or an enum, or a variant of one.
    fn is_adt(this: TyAndLayout<'a, Self>) -> bool
        requires { is_valid this }
        ensures { result ≡ (marks_of (typed_of this.entry)).is_adt };

    /// Whether it is an enum, or a variant of one.
    fn is_enum(this: TyAndLayout<'a, Self>) -> bool
        requires { is_valid this }
        ensures { result ≡ (marks_of (typed_of this.entry)).is_enum };

    /// Whether it is the type without a value.
    fn is_never(this: TyAndLayout<'a, Self>) -> bool
        requires { is_valid this }
        ensures { result ≡ (marks_of (typed_of this.entry)).is_never };

    /// Whether it is a tuple.
    fn is_tuple(this: TyAndLayout<'a, Self>) -> bool
        requires { is_valid this }
        ensures { result ≡ (marks_of (typed_of this.entry)).is_tuple };

    /// Whether it is the tuple of no types.
    fn is_unit(this: TyAndLayout<'a, Self>) -> bool
        requires { is_valid this }
        ensures { result ≡ (marks_of (typed_of this.entry)).is_unit };

    /// Whether it is laid out as its one field that isn't of no bytes and no alignment.
    fn is_transparent(this: TyAndLayout<'a, Self>) -> bool
        requires { is_valid this }
        ensures { result ≡ (marks_of (typed_of this.entry)).is_transparent };

    /// Whether it is the language's own type of complex numbers.
    fn is_complex_number_lang_item(this: TyAndLayout<'a, Self>, cx: &C) -> bool
        requires { is_valid this }
        ensures { result ≡ (marks_of (typed_of this.entry)).is_complex };

    /// Whether it is a vector whose length the machine decides.
    fn is_scalable_vector(this: TyAndLayout<'a, Self>) -> bool
        requires { is_valid this }
        ensures { result ≡ (marks_of (typed_of this.entry)).is_scalable_vector };

    /// Whether it is marked to be passed by a pointer where the calling convention isn't Rust's.
    fn is_pass_indirectly_in_non_rustic_abis_flag_set(this: TyAndLayout<'a, Self>) -> bool
        requires { is_valid this }
        ensures { result ≡ (marks_of (typed_of this.entry)).is_passed_indirectly };

    /// A number that falls at each field, and at each variant that a tag distinguishes.
    fn depth(this: TyAndLayout<'a, Self>) -> u64
        requires { is_valid this }
        ensures { result ≡ depth_of this.entry };

    /// The layout that it says is the one beside it.
    ghost layout_law: { (this : TyAndLayout Self) → is_valid this → layout_in (typed_of this) ≡ this.layout.0.now };

    /// Its fields and variants lie inside it, its elements are all one type and no greater than the
    /// stride, its other fields can be named by an index, and a complex number has a field; and so of
    /// all that is in it.
    ghost lawful_law: { (this : TyAndLayout Self) → is_valid this → IsWellFormedType (typed_of this) };
}

impl<'a, Ty> TyAndLayout<'a, Ty> {
    /// The type at one of its variants: the variant alone, without the tag, where a tag distinguishes variants; and the
    /// type itself where there is one variant.
    pub fn for_variant<C>(self, cx: &C, variant_index: VariantIdx) -> TyAndLayout<'a, Ty>
    where
        Ty: TyAbiInterface<'a, C>,
        requires valid { Ty.is_valid self }
        requires named { NamesVariant (layout_in (Ty.typed_of self)).variants variant_index }
        ensures valid { Ty.is_valid result }
        ensures variant { Ty.typed_of result ≡ at_variant (Ty.typed_of self.entry) variant_index }
        ensures falls { DepthFalls (layout_in (Ty.typed_of self.entry)).variants
            (Ty.depth_of result) (Ty.depth_of self.entry) }
    {
        Ty::ty_and_layout_for_variant(self, cx, variant_index)
    }

    /// The type of the field with this index, beside its layout.
    pub fn field<C>(self, cx: &C, i: usize) -> TyAndLayout<'a, Ty>
    where
        Ty: TyAbiInterface<'a, C>,
        requires valid { Ty.is_valid self }
        requires within { i < field_count (layout_in (Ty.typed_of self)).fields }
        ensures valid { Ty.is_valid result }
        ensures field { Ty.typed_of result ≡ field_in (Ty.typed_of self.entry) i }
        ensures falls { Ty.depth_of result < Ty.depth_of self.entry }
    {
        Ty::ty_and_layout_field(self, cx, i)
    }

    /// What stands behind the pointer at an offset, where there is one of which that is known.
    pub fn pointee_info_at<C>(self, cx: &C, offset: Size) -> Option<PointeeInfo>
    where
        Ty: TyAbiInterface<'a, C>,
        requires { Ty.is_valid self }
        ensures { result ≡ (marks_of (Ty.typed_of self.entry)).pointee offset }
    {
        Ty::ty_and_layout_pointee_info_at(self, cx, offset)
    }

    /// Whether it is a struct, a union or an enum, or a variant of one.
    pub fn is_adt<C>(self) -> bool
    where
        Ty: TyAbiInterface<'a, C>,
        requires { Ty.is_valid self }
        ensures { result ≡ (marks_of (Ty.typed_of self.entry)).is_adt }
    {
        Ty::is_adt(self)
    }

    /// Whether it is an enum, or a variant of one.
    pub fn is_enum<C>(self) -> bool
    where
        Ty: TyAbiInterface<'a, C>,
        requires { Ty.is_valid self }
        ensures { result ≡ (marks_of (Ty.typed_of self.entry)).is_enum }
    {
        Ty::is_enum(self)
    }

    /// Whether it is the type without a value.
    pub fn is_never<C>(self) -> bool
    where
        Ty: TyAbiInterface<'a, C>,
        requires { Ty.is_valid self }
        ensures { result ≡ (marks_of (Ty.typed_of self.entry)).is_never }
    {
        Ty::is_never(self)
    }

    /// Whether it is a tuple.
    pub fn is_tuple<C>(self) -> bool
    where
        Ty: TyAbiInterface<'a, C>,
        requires { Ty.is_valid self }
        ensures { result ≡ (marks_of (Ty.typed_of self.entry)).is_tuple }
    {
        Ty::is_tuple(self)
    }

    /// Whether it is the tuple of no types.
    pub fn is_unit<C>(self) -> bool
    where
        Ty: TyAbiInterface<'a, C>,
        requires { Ty.is_valid self }
        ensures { result ≡ (marks_of (Ty.typed_of self.entry)).is_unit }
    {
        Ty::is_unit(self)
    }

    /// Whether it is laid out as its one field that isn't of no bytes and no alignment.
    pub fn is_transparent<C>(self) -> bool
    where
        Ty: TyAbiInterface<'a, C>,
        requires { Ty.is_valid self }
        ensures { result ≡ (marks_of (Ty.typed_of self.entry)).is_transparent }
    {
        Ty::is_transparent(self)
    }

    /// Whether it is a vector whose length the machine decides.
    pub fn is_scalable_vector<C>(self) -> bool
    where
        Ty: TyAbiInterface<'a, C>,
        requires { Ty.is_valid self }
        ensures { result ≡ (marks_of (Ty.typed_of self.entry)).is_scalable_vector }
    {
        Ty::is_scalable_vector(self)
    }
}
