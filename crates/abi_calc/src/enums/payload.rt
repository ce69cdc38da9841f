//! What the variants of a tagged enum hold beside the tag, as a code generator sees it.

ghost use Rattle.std.specs.Prelude.{◌≡◌, ◌<◌, ◌&&◌, All, Some, length, map, nat_lt, slice_get};
ghost use Rattle.abi_base.specs.DataLayout.{IsLawfulDataLayout};
ghost use Rattle.abi_base.specs.Primitive.{IsLawfulPrimitive};
ghost use Rattle.abi_scalar.specs.Lawful.{IsLawfulLayout};
ghost use Rattle.abi_scalar.specs.Scalar.{IsLawfulScalar, primitive_of, scalar_size};
ghost use Rattle.abi_calc.specs.declared.enums.payload.Payload.TheVariants.{Nothing, One};
ghost use Rattle.abi_calc.specs.Enums.Growth.{moved_offset};
ghost use Rattle.abi_calc.specs.Enums.Payload.{IsWellFormedPayload, payload_of_two, beside_tag, common_payload, common_of, has_same_place, is_initialized, is_memory, is_of_scalars, payload_at, payload_of, payload_of_field, scalar_of, variant_with_view, shared_primitive, tagged_view};
ghost use Rattle.abi_calc.specs.Enums.Lists.{AreListsOf};
ghost use Rattle.abi_calc.specs.Enums.Tagged.{payloads_of};

use crate::enums::growth::moved_offset;
use crate::enums::single::widened_scalar;
use abi_base::{Align, HasDataLayout, Primitive, Size, TargetDataLayout};
use abi_index::{Idx, IndexVec};
use abi_scalar::{BackendRepr, LayoutData, LayoutHandle, Scalar, VariantLayout, WrappingRange};
use abi_univariant::{UnivariantLayouts, pair_view};

/// What one variant holds beside the tag.
#[derive(Clone, Copy)]
pub enum Payload {
    /// Nothing that has bytes.
    Nothing,
    /// One scalar at an offset, every number of its width counting as held.
    One(Scalar, Size),
    /// Something else.
    Other,
}

/// What a field with this layout is at an offset.
fn payload_of_field<FieldIdx: Idx, VariantIdx: Idx>(
    dl: &TargetDataLayout,
    field: &LayoutData<FieldIdx, VariantIdx>,
    offset: Size,
) -> Payload
    requires data_layout { IsLawfulDataLayout dl.now }
    requires field { IsLawfulLayout dl.now field.now }
    ensures value { result ≡ payload_of_field dl.now field.now offset }
    ensures lawful { IsWellFormedPayload dl.now result }
{
    if field.is_zst() {
        return Payload::Nothing;
    }
    match field.backend_repr {
        BackendRepr::Scalar(scalar) => Payload::One(widened_scalar(dl, scalar), offset),
        _ => Payload::Other,
    }
}

/// Two of them in one variant.
fn payload_of_two(first: Payload, second: Payload) -> Payload
    ensures { result ≡ payload_of_two first second }
{
    match (first, second) {
        (Payload::Nothing, p) => p,
        (p, Payload::Nothing) => p,
        _ => Payload::Other,
    }
}

/// What a variant's fields are together, beside a tag that grew from the old size to the new one; the offsets are those
/// beside the old tag.
pub(crate) fn payload_of<FieldIdx: Idx, VariantIdx: Idx, F: LayoutHandle<FieldIdx, VariantIdx>>(
    dl: &TargetDataLayout,
    old: Size,
    new: Size,
    fields: &[F],
    offsets: &[Size],
) -> Payload
    requires data_layout { IsLawfulDataLayout dl.now }
    requires fields { All (λ f. IsLawfulLayout dl.now (F.layout_of f)) fields.now }
    requires count { length offsets.now ≡ length fields.now }
    ensures value { result ≡ payload_of dl.now (map F.layout_of fields.now)
        (map (moved_offset old new) offsets.now) }
    ensures lawful { IsWellFormedPayload dl.now result }
{
    let mut payload = Payload::Nothing;
    for index in 0..fields.len() {
        let offset = moved_offset(old, new, offsets[index]);
        payload = payload_of_two(
            payload,
            payload_of_field(dl, fields[index].layout(), offset),
        );
    }
    payload
}

/// Whether both are equally large and equally aligned.
fn has_same_place(dl: &TargetDataLayout, a: Primitive, b: Primitive) -> bool
    requires data_layout { IsLawfulDataLayout dl.now }
    requires first { IsLawfulPrimitive dl.now a }
    requires second { IsLawfulPrimitive dl.now b }
    ensures { result ≡ has_same_place dl.now a b }
{
    a.size(dl) == b.size(dl) && a.default_align(dl) == b.default_align(dl)
}

/// The primitive that two variants share.
fn shared_primitive(dl: &TargetDataLayout, a: Primitive, b: Primitive) -> Option<Primitive>
    requires data_layout { IsLawfulDataLayout dl.now }
    requires first { IsLawfulPrimitive dl.now a }
    requires second { IsLawfulPrimitive dl.now b }
    ensures { result ≡ shared_primitive dl.now a b }
{
    match (a, b) {
        (Primitive::Int(x, _), Primitive::Int(y, _)) if x == y => Some(a),
        (Primitive::Float(x), Primitive::Float(y)) if x == y => Some(a),
        (Primitive::Pointer(x), Primitive::Pointer(y)) if x == y => Some(a),
        (Primitive::Pointer(_), Primitive::Int(_, _)) if has_same_place(dl, a, b) => Some(a),
        (Primitive::Int(_, _), Primitive::Pointer(_)) if has_same_place(dl, a, b) => Some(b),
        _ => None,
    }
}

/// Every number of the primitive's width, or any bytes where not each variant has a number there.
fn scalar_of(dl: &TargetDataLayout, initialized: bool, value: Primitive) -> Scalar
    requires data_layout { IsLawfulDataLayout dl.now }
    requires value { IsLawfulPrimitive dl.now value }
    ensures value { result ≡ scalar_of dl.now initialized value }
    ensures lawful { IsLawfulScalar dl.now result }
{
    if initialized {
        Scalar::Initialized {
            value,
            valid_range: WrappingRange::full(value.size(dl)),
        }
    } else {
        Scalar::Union { value }
    }
}

/// Whether the scalar may not be left without a number.
fn is_initialized(scalar: Scalar) -> bool
    ensures { result ≡ is_initialized scalar }
{
    match scalar {
        Scalar::Initialized { .. } => true,
        Scalar::Union { .. } => false,
    }
}

/// What two scalars at one offset have in common.
fn common_scalar(dl: &TargetDataLayout, a: Scalar, b: Scalar, offset: Size) -> Payload
    requires data_layout { IsLawfulDataLayout dl.now }
    requires first { IsLawfulScalar dl.now a }
    requires second { IsLawfulScalar dl.now b }
    ensures value { result ≡ payload_at dl.now (is_initialized a && is_initialized b) offset
        (shared_primitive dl.now (primitive_of a) (primitive_of b)) }
    ensures lawful { IsWellFormedPayload dl.now result }
{
    match shared_primitive(dl, a.primitive(), b.primitive()) {
        Some(value) => {
            Payload::One(
                scalar_of(dl, is_initialized(a) && is_initialized(b), value),
                offset,
            )
        }
        None => Payload::Other,
    }
}

/// What a variant with nothing has in common with another.
fn common_with_nothing(dl: &TargetDataLayout, other: Payload) -> Payload
    requires { IsWellFormedPayload dl.now other }
    ensures value { result ≡ common_payload dl.now Nothing other }
    ensures lawful { IsWellFormedPayload dl.now result }
{
    match other {
        Payload::Nothing => Payload::Nothing,
        Payload::One(scalar, offset) => Payload::One(scalar.to_union(), offset),
        Payload::Other => Payload::Other,
    }
}

/// What two scalars have in common, each at its offset.
fn common_of_two(dl: &TargetDataLayout, a: Scalar, offset: Size, b: Scalar, other: Size) -> Payload
    requires data_layout { IsLawfulDataLayout dl.now }
    requires first { IsLawfulScalar dl.now a }
    requires second { IsLawfulScalar dl.now b }
    ensures value { result ≡ common_payload dl.now (One a offset) (One b other) }
    ensures lawful { IsWellFormedPayload dl.now result }
{
    if offset == other {
        common_scalar(dl, a, b, offset)
    } else {
        Payload::Other
    }
}

/// What a variant with one scalar has in common with another.
fn common_with_one(dl: &TargetDataLayout, scalar: Scalar, offset: Size, other: Payload) -> Payload
    requires data_layout { IsLawfulDataLayout dl.now }
    requires first { IsLawfulScalar dl.now scalar }
    requires second { IsWellFormedPayload dl.now other }
    ensures value { result ≡ common_payload dl.now (One scalar offset) other }
    ensures lawful { IsWellFormedPayload dl.now result }
{
    match other {
        Payload::Nothing => Payload::One(scalar.to_union(), offset),
        Payload::One(second, at) => common_of_two(dl, scalar, offset, second, at),
        Payload::Other => Payload::Other,
    }
}

/// What two variants have in common.
fn common_payload(dl: &TargetDataLayout, a: Payload, b: Payload) -> Payload
    requires data_layout { IsLawfulDataLayout dl.now }
    requires first { IsWellFormedPayload dl.now a }
    requires second { IsWellFormedPayload dl.now b }
    ensures value { result ≡ common_payload dl.now a b }
    ensures lawful { IsWellFormedPayload dl.now result }
{
    match a {
        Payload::Nothing => common_with_nothing(dl, b),
        Payload::One(scalar, offset) => common_with_one(dl, scalar, offset, b),
        Payload::Other => Payload::Other,
    }
}

/// What the variant of this index holds.
fn variant_payload<FieldIdx: Idx, VariantIdx: Idx, F: LayoutHandle<FieldIdx, VariantIdx>>(
    dl: &TargetDataLayout,
    old: Size,
    new: Size,
    variants: &[IndexVec<FieldIdx, F>],
    lists: &UnivariantLayouts<FieldIdx, VariantIdx>,
    index: usize,
) -> Payload
    requires data_layout { IsLawfulDataLayout dl.now }
    requires fields { All (All (λ f. IsLawfulLayout dl.now (F.layout_of f))) variants.now }
    requires lists { AreListsOf variants.now lists.now }
    requires within { index < length lists.now }
    ensures value { slice_get (payloads_of dl.now old new
        (map (map F.layout_of) variants.now) lists.now) index ≡ Some result }
    ensures lawful { IsWellFormedPayload dl.now result }
{
    let fields = variants[index].as_slice().as_raw();
    payload_of(dl, old, new, fields, lists.at(index).offsets())
}

/// What all variants have in common, whose lists these are, beside a tag that grew from the old size to the new one.
fn common_of<FieldIdx: Idx, VariantIdx: Idx, F: LayoutHandle<FieldIdx, VariantIdx>>(
    dl: &TargetDataLayout,
    old: Size,
    new: Size,
    variants: &[IndexVec<FieldIdx, F>],
    lists: &UnivariantLayouts<FieldIdx, VariantIdx>,
) -> Payload
    requires data_layout { IsLawfulDataLayout dl.now }
    requires fields { All (All (λ f. IsLawfulLayout dl.now (F.layout_of f))) variants.now }
    requires lists { AreListsOf variants.now lists.now }
    ensures value { result ≡ common_of dl.now
        (payloads_of dl.now old new (map (map F.layout_of) variants.now) lists.now) }
    ensures lawful { IsWellFormedPayload dl.now result }
{
    if lists.len() == 0 {
        return Payload::Nothing;
    }
    let mut shared = variant_payload(dl, old, new, variants, lists, 0);
    for index in 1..lists.len() {
        shared = common_payload(
            dl,
            shared,
            variant_payload(dl, old, new, variants, lists, index),
        );
    }
    shared
}

/// The tag and one scalar beside it, where a pair of them lies as they do.
fn beside_tag(
    dl: &TargetDataLayout,
    tag: Scalar,
    size: Size,
    align: Align,
    payload: Payload,
) -> BackendRepr
    requires data_layout { IsLawfulDataLayout dl.now }
    requires tag { IsLawfulScalar dl.now tag }
    requires payload { IsWellFormedPayload dl.now payload }
    ensures { result ≡ beside_tag dl.now tag size align payload }
{
    match payload {
        Payload::One(scalar, offset) => {
            pair_view(dl, size, align, Size::ZERO, tag, offset, scalar)
        }
        Payload::Nothing | Payload::Other => BackendRepr::Memory { sized: true },
    }
}

/// How a code generator sees a tagged enum of this size and alignment.
#[tactic(auto, using(crate::proofs::EnumLemmas::Payload::tag_known))]
pub(crate) fn tagged_view<FieldIdx: Idx, VariantIdx: Idx, F: LayoutHandle<FieldIdx, VariantIdx>>(
    dl: &TargetDataLayout,
    tag: Scalar,
    size: Size,
    align: Align,
    old: Size,
    variants: &[IndexVec<FieldIdx, F>],
    lists: &UnivariantLayouts<FieldIdx, VariantIdx>,
) -> BackendRepr
    requires data_layout { IsLawfulDataLayout dl.now }
    requires tag { IsLawfulScalar dl.now tag }
    requires fields { All (All (λ f. IsLawfulLayout dl.now (F.layout_of f))) variants.now }
    requires lists { AreListsOf variants.now lists.now }
    ensures { result ≡ tagged_view dl.now tag size align (payloads_of dl.now old
        (scalar_size dl.now tag) (map (map F.layout_of) variants.now) lists.now) }
{
    let new = tag.size(dl);
    if new == size {
        return BackendRepr::Scalar(tag);
    }
    beside_tag(
        dl,
        tag,
        size,
        align,
        common_of(dl, old, new, variants, lists),
    )
}

/// Whether the view is of one scalar or two.
fn is_of_scalars(view: BackendRepr) -> bool
    ensures { result ≡ is_of_scalars view }
{
    match view {
        BackendRepr::Scalar(_) | BackendRepr::ScalarPair { .. } => true,
        _ => false,
    }
}

/// Whether the view is bytes in memory.
fn is_memory(view: BackendRepr) -> bool
    ensures { result ≡ is_memory view }
{
    match view {
        BackendRepr::Memory { .. } => true,
        _ => false,
    }
}

/// Whether the variant takes the view of its enum over: it has fields and is bytes in memory, and the view is of
/// scalars.
fn takes_view<FieldIdx: Idx>(view: &BackendRepr, variant: &VariantLayout<FieldIdx>) -> bool
    ensures { result ≡ (is_of_scalars view.now && is_memory variant.now.backend_repr && nat_lt 0
        (length variant.now.field_offsets)) }
{
    is_of_scalars(*view) && is_memory(variant.backend_repr) && variant.has_fields()
}

/// Makes the variant a part of an enum of this view and size.
pub(crate) fn adopt_view<FieldIdx: Idx>(
    view: &BackendRepr,
    size: Size,
    variant: &mut VariantLayout<FieldIdx>,
)
    ensures { variant.new ≡ variant_with_view view.now size variant.old }
{
    if takes_view(view, variant) {
        variant.backend_repr = *view;
        variant.size = variant.size.max(size);
    }
}
