//! Unions: fields that share their bytes.

ghost use Rattle.std.specs.Prelude.{◌≡◌, ◌↔◌, ℕ, ◌≤◌, All, Contains, IfOk, IfSome, IsTrue, None, map};
ghost use Rattle.abi_base.specs.DataLayout.{IsLawfulDataLayout};
ghost use Rattle.abi_scalar.specs.declared.backend_repr.BackendRepr.{BackendRepr};
ghost use Rattle.abi_scalar.specs.Layout.{IsZst};
ghost use Rattle.abi_scalar.specs.Lawful.{IsLawfulLayout};
ghost use Rattle.abi_scalar.specs.View.{union_view};
ghost use Rattle.abi_univariant.specs.Union.{CountsForView, HasView, IsAlignedFor, IsCommonView, IsUnionAnswer, IsUnionView, KnowsScalarsOf, first_unsized, raised_to, unraised_align, union_align};

use crate::fields::{greatest_align, greatest_repr_align, greatest_size, lies_as_in_c, seed_with};
use crate::fields_repr::{cut_to, own_align};
use abi_base::{AbiAlign, Align, HasDataLayout, TargetDataLayout};
use abi_index::Idx;
use abi_scalar::{
    BackendRepr, FieldCount, FieldsShape, LayoutCalculatorError, LayoutData, LayoutHandle,
    ReprOptions, Variants,
};

/// The first field whose size isn't known beforehand.
fn first_unsized<FieldIdx: Idx, VariantIdx: Idx, F: LayoutHandle<FieldIdx, VariantIdx> + Copy>(
    fields: &[F],
) -> Option<F>
    ensures { result ≡ first_unsized F.layout_of fields.now }
{
    for field in fields {
        if field.layout().is_unsized() {
            return Some(*field);
        }
    }
    None
}

/// Whether both views are the same, holding any numbers.
#[tactic(auto, using(crate::proofs::UnionsVectors::UnionLemmas::same_union))]
fn is_same_view(view: &BackendRepr, other: &BackendRepr) -> bool
    ensures { IsTrue result ↔ (union_view view.now ≡ union_view other.now) }
{
    view.to_union().eq_up_to_validity(&other.to_union())
}

/// Whether the field has no bytes, or the view and the alignment of the other.
fn agrees<FieldIdx: Idx, VariantIdx: Idx>(
    field: &LayoutData<FieldIdx, VariantIdx>,
    first: &LayoutData<FieldIdx, VariantIdx>,
) -> bool
    ensures { IsTrue result ↔ (CountsForView field.now →
        HasView (union_view first.now.backend_repr) first.now.align.abi field.now) }
{
    field.is_zst()
        || (is_same_view(&field.backend_repr, &first.backend_repr)
            && field.align.abi == first.align.abi)
}

/// The first field that is no sized type without bytes.
fn first_counted<FieldIdx: Idx, VariantIdx: Idx, F: LayoutHandle<FieldIdx, VariantIdx> + Copy>(
    fields: &[F],
) -> Option<F>
    ensures some { IfSome result (λ h. Contains fields.now h) }
    ensures counts { IfSome result (λ h. CountsForView (F.layout_of h)) }
    ensures none { result ≡ None → All (λ h. IsZst (F.layout_of h)) fields.now }
{
    for field in fields {
        if !field.layout().is_zst() {
            return Some(*field);
        }
    }
    None
}

/// Whether each field has no bytes, or the view and the alignment of the other.
fn all_agree<FieldIdx: Idx, VariantIdx: Idx, F: LayoutHandle<FieldIdx, VariantIdx>>(
    fields: &[F],
    first: &LayoutData<FieldIdx, VariantIdx>,
) -> bool
    ensures { IsTrue result ↔ All (λ h. CountsForView (F.layout_of h) → HasView
        (union_view first.now.backend_repr) first.now.align.abi (F.layout_of h)) fields.now }
{
    for field in fields {
        if !agrees(field.layout(), first) {
            return false;
        }
    }
    true
}

/// The view that the fields have in common, holding any numbers.
fn common_view<FieldIdx: Idx, VariantIdx: Idx, F: LayoutHandle<FieldIdx, VariantIdx> + Copy>(
    fields: &[F],
) -> Option<BackendRepr>
    ensures some { IfSome result (λ view. (align : ℕ)
        × IsCommonView (map F.layout_of fields.now) view align) }
    ensures none { result ≡ None → (view : BackendRepr) (align : ℕ) →
        IsCommonView (map F.layout_of fields.now) view align → ⊥ }
{
    let first = first_counted(fields)?;
    if all_agree(fields, first.layout()) {
        Some(first.layout().backend_repr.to_union())
    } else {
        None
    }
}

/// Whether one scalar or two are aligned so, and a vector's lanes no more.
fn is_aligned_for<C: HasDataLayout>(cx: &C, view: &BackendRepr, align: Align) -> bool
    requires { KnowsScalarsOf (C.target cx.now) view.now }
    ensures { IsTrue result ↔ IsAlignedFor (C.target cx.now) view.now align }
{
    match *view {
        BackendRepr::Scalar(scalar) => scalar.default_align(cx) == align,
        BackendRepr::ScalarPair { a, b, b_offset: _ } => {
            a.default_align(cx).max(b.default_align(cx)) == align
        }
        BackendRepr::SimdVector { element, count: _ } => element.default_align(cx) <= align,
        BackendRepr::SimdScalableVector {
            element: _,
            count: _,
            number_of_vectors: _,
        } => true,
        BackendRepr::Memory { sized: _ } => true,
    }
}

/// The alignment, no less than a `repr(align)` asks for.
fn raised_align(repr: &ReprOptions, align: Align) -> Align
    ensures { result ≡ raised_to repr.now.align align }
{
    match repr.align {
        Some(least) => align.max(least),
        None => align,
    }
}

/// A union's alignment before `repr(align)` raises it.
fn unraised_align<FieldIdx: Idx, VariantIdx: Idx, F: LayoutHandle<FieldIdx, VariantIdx>>(
    dl: &TargetDataLayout,
    repr: &ReprOptions,
    fields: &[F],
) -> Align
    ensures { result ≡ unraised_align dl.now repr.now (map F.layout_of fields.now) }
{
    let own = own_align(dl, repr);
    cut_to(greatest_align(own, fields), repr.pack)
}

/// A union's view: the one that all fields have in common, where it goes with the union's alignment.
fn view_of_union<FieldIdx: Idx, VariantIdx: Idx, F: LayoutHandle<FieldIdx, VariantIdx> + Copy>(
    dl: &TargetDataLayout,
    repr: &ReprOptions,
    fields: &[F],
    align: Align,
) -> BackendRepr
    requires fields { All (λ f. IsLawfulLayout dl.now (F.layout_of f)) fields.now }
    requires align { align ≡ union_align dl.now repr.now (map F.layout_of fields.now) }
    ensures { IsUnionView dl.now repr.now (map F.layout_of fields.now) result }
{
    if !repr.inhibits_union_abi_opt() {
        if let Some(view) = common_view(fields) {
            if is_aligned_for(dl, &view, align) {
                return view;
            }
        }
    }
    BackendRepr::Memory { sized: true }
}

/// The layout of a union of these fields: all of them at offset 0, as large and as aligned as the greatest of them, cut
/// to `packed` and raised to `align` (Rust Reference, "Type layout"). It asks for no memory.
///
/// Refused as `UnexpectedUnsized` with the first field whose size isn't known beforehand, else as `EmptyUnion` where
/// there are no fields, else as `SizeOverflow` where the size is not below the data layout's bound.
pub fn layout_of_union<
    FieldIdx: Idx,
    VariantIdx: Idx,
    F: LayoutHandle<FieldIdx, VariantIdx> + Copy,
>(
    dl: &TargetDataLayout,
    repr: &ReprOptions,
    fields: &[F],
) -> Result<LayoutData<FieldIdx, VariantIdx>, LayoutCalculatorError<F>>
    requires data_layout { IsLawfulDataLayout dl.now }
    requires fields { All (λ f. IsLawfulLayout dl.now (F.layout_of f)) fields.now }
    requires align { IfSome repr.now.align (λ align. align ≤ 29) }
    ensures exact { IsUnionAnswer F.layout_of (VariantIdx.at 0) dl.now repr.now fields.now result }
    ensures lawful { IfOk result (IsLawfulLayout dl.now) }
{
    if let Some(field) = first_unsized(fields) {
        return Err(LayoutCalculatorError::UnexpectedUnsized(field));
    }
    let Some(count) = FieldCount::new(fields.len()) else {
        return Err(LayoutCalculatorError::EmptyUnion);
    };
    let unadjusted_abi_align = unraised_align(dl, repr, fields);
    let align = raised_align(repr, unadjusted_abi_align);
    let size = greatest_size(fields).align_to(align);
    if size.bytes() >= dl.obj_size_bound() {
        return Err(LayoutCalculatorError::SizeOverflow);
    }
    Ok(LayoutData {
        fields: FieldsShape::Union(count),
        variants: Variants::Single {
            index: VariantIdx::new(0),
        },
        backend_repr: view_of_union(dl, repr, fields, align),
        largest_niche: None,
        uninhabited: false,
        align: AbiAlign::new(align),
        size,
        max_repr_align: greatest_repr_align(repr.align, fields),
        unadjusted_abi_align,
        repr_c: lies_as_in_c(repr, fields),
        randomization_seed: seed_with(repr.field_shuffle_seed, fields),
    })
}
