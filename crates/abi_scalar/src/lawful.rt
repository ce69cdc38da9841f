//! The test of whether a layout is lawful.

ghost use Rattle.std.specs.Prelude.{◌≡◌, ◌↔◌, ◌≤◌, IsTrue, IfSome};
ghost use Rattle.abi_base.specs.DataLayout.{IsLawfulDataLayout};
ghost use Rattle.abi_base.specs.Primitive.{IsLawfulPrimitive};
ghost use Rattle.abi_scalar.specs.declared.backend_repr.BackendRepr.TheVariants.{ScalarPair};
ghost use Rattle.abi_scalar.specs.declared.scalar.Scalar.TheVariants.{Initialized};
ghost use Rattle.abi_scalar.specs.Range.{AreWithin};
ghost use Rattle.abi_scalar.specs.Scalar.{IsLawfulScalar};
ghost use Rattle.abi_scalar.specs.Lawful.{IsLawfulNiche, IsLawfulView, IsNicheOfView, HasLawfulTag, IsLawfulLayout};

use crate::backend_repr::BackendRepr;
use crate::layout_data::LayoutData;
use crate::niche::Niche;
use crate::scalar::Scalar;
use crate::variants::Variants;
use crate::wrapping_range::{WrappingRange, greatest_number};
use abi_base::{Align, Primitive, Size, TargetDataLayout};
use abi_index::Idx;

/// Whether the primitive is no pointer, or a lawful one.
fn is_lawful_primitive(dl: &TargetDataLayout, value: Primitive) -> bool
    ensures { IsTrue result ↔ IsLawfulPrimitive dl.now value }
{
    match value {
        Primitive::Int(_, _) => true,
        Primitive::Float(_) => true,
        Primitive::Pointer(space) => dl.has_lawful_pointer(space),
    }
}

/// Whether both ends are numbers of `size` bytes.
fn are_within(range: WrappingRange, size: Size) -> bool
    requires some { 1 ≤ size }
    requires most { size ≤ 16 }
    ensures { IsTrue result ↔ AreWithin size range }
{
    let greatest = greatest_number(size);
    range.start <= greatest && range.end <= greatest
}

/// Whether the scalar's pointer is lawful, and its range's ends fit its bytes.
fn is_lawful_scalar(dl: &TargetDataLayout, scalar: Scalar) -> bool
    ensures { IsTrue result ↔ IsLawfulScalar dl.now scalar }
{
    if !is_lawful_primitive(dl, scalar.primitive()) {
        return false;
    }
    match scalar {
        Scalar::Initialized { value, valid_range } => are_within(valid_range, value.size(dl)),
        Scalar::Union { value: _ } => true,
    }
}

/// Whether the niche lies inside a type of this size, with a lawful pointer, ends that fit, and a free number.
fn is_lawful_niche(dl: &TargetDataLayout, size: Size, niche: &Niche) -> bool
    ensures { IsTrue result ↔ IsLawfulNiche dl.now size niche.now }
{
    if !is_lawful_primitive(dl, niche.value) {
        return false;
    }
    let width = niche.value.size(dl);
    if !are_within(niche.valid_range, width) || size < width {
        return false;
    }
    niche.offset <= size - width && niche.valid_range.has_free(width)
}

/// Whether two scalars are lawful, and the second begins after the first and ends inside a type of this size.
fn is_lawful_pair(dl: &TargetDataLayout, size: Size, a: Scalar, b: Scalar, b_offset: Size) -> bool
    ensures { IsTrue result ↔ IsLawfulView dl.now size (ScalarPair a b b_offset) }
{
    if !is_lawful_scalar(dl, a) || !is_lawful_scalar(dl, b) {
        return false;
    }
    let b_size = b.size(dl);
    a.size(dl) <= b_offset && b_size <= size && b_offset <= size - b_size
}

/// Whether the view's scalars are lawful and lie as they should in a type of this size.
fn is_lawful_view(dl: &TargetDataLayout, size: Size, view: &BackendRepr) -> bool
    ensures { IsTrue result ↔ IsLawfulView dl.now size view.now }
{
    match *view {
        BackendRepr::Scalar(scalar) => is_lawful_scalar(dl, scalar) && scalar.size(dl) == size,
        BackendRepr::ScalarPair { a, b, b_offset } => is_lawful_pair(dl, size, a, b, b_offset),
        BackendRepr::SimdScalableVector {
            element,
            count: _,
            number_of_vectors: _,
        } => is_lawful_scalar(dl, element),
        BackendRepr::SimdVector { element, count: _ } => is_lawful_scalar(dl, element),
        BackendRepr::Memory { sized: _ } => true,
    }
}

/// Whether the niche is this scalar at this offset.
fn is_niche_at(niche: &Niche, offset: Size, scalar: Scalar) -> bool
    ensures { IsTrue result ↔ ((niche.now.offset ≡ offset) ×
        (scalar ≡ Initialized niche.now.value niche.now.valid_range)) }
{
    let of_niche = Scalar::Initialized {
        value: niche.value,
        valid_range: niche.valid_range,
    };
    niche.offset == offset && scalar == of_niche
}

/// Whether the niche is the view's scalar, or one of its two, where it has one or two.
fn is_niche_of_view(view: &BackendRepr, niche: &Niche) -> bool
    ensures { IsTrue result ↔ IsNicheOfView view.now niche.now }
{
    match *view {
        BackendRepr::Scalar(only) => is_niche_at(niche, Size::ZERO, only),
        BackendRepr::ScalarPair { a, b, b_offset } => {
            is_niche_at(niche, Size::ZERO, a) || is_niche_at(niche, b_offset, b)
        }
        _ => true,
    }
}

impl<FieldIdx: Idx, VariantIdx: Idx> LayoutData<FieldIdx, VariantIdx> {
    /// Whether the tag, if there is one, is lawful.
    fn has_lawful_tag(&self, dl: &TargetDataLayout) -> bool
        ensures { IsTrue result ↔ HasLawfulTag dl.now self.now.variants }
    {
        match &self.variants {
            Variants::Empty => true,
            Variants::Single { index: _ } => true,
            Variants::Multiple {
                tag,
                tag_encoding: _,
                tag_field: _,
                variants: _,
            } => is_lawful_scalar(dl, *tag),
        }
    }

    /// Whether the niche, if there is one, is lawful and agrees with the view.
    fn has_lawful_niche(&self, dl: &TargetDataLayout) -> bool
        ensures { IsTrue result
            ↔ (IfSome self.now.largest_niche (IsLawfulNiche dl.now self.now.size)
            × IfSome self.now.largest_niche (IsNicheOfView self.now.backend_repr)) }
    {
        match &self.largest_niche {
            Some(niche) => {
                is_lawful_niche(dl, self.size, niche) && is_niche_of_view(&self.backend_repr, niche)
            }
            None => true,
        }
    }

    /// Whether the layout is lawful, as every call on layouts asks: the size is a multiple of the alignment and
    /// below the data layout's bound, the alignment is at most 2^29 bytes, and the niche, the view and the tag
    /// lie inside and have ranges of their width.
    pub fn is_lawful(&self, dl: &TargetDataLayout) -> bool
        requires { IsLawfulDataLayout dl.now }
        ensures { IsTrue result ↔ IsLawfulLayout dl.now self.now }
    {
        let align = self.align.abi;
        align <= Align::MAX
            && self.size.is_aligned(align)
            && self.size.bytes() < dl.obj_size_bound()
            && self.has_lawful_niche(dl)
            && is_lawful_view(dl, self.size, &self.backend_repr)
            && self.has_lawful_tag(dl)
    }
}
