//! Whether two layouts are the same in all that they tell.

ghost use Rattle.std.specs.Prelude.{◌≡◌, ◌≢◌, IsTrue, MatchBool};

use abi_base::Size;
use abi_index::{FieldIdx, VariantIdx};
use abi_scalar::{
    BackendRepr, FieldsShape, LayoutData, Scalar, TagEncoding, VariantLayout, Variants,
};

/// Whether both lists have the same sizes.
fn are_same_sizes(a: &[Size], b: &[Size]) -> bool
    ensures { MatchBool result (a.now ≡ b.now) (a.now ≢ b.now) }
{
    *a == *b
}

/// Whether both lists have the same fields.
fn are_same_fields(a: &[FieldIdx], b: &[FieldIdx]) -> bool
    ensures { MatchBool result (a.now ≡ b.now) (a.now ≢ b.now) }
{
    *a == *b
}

/// Whether fields lie alike.
fn is_same_shape(a: &FieldsShape<FieldIdx>, b: &FieldsShape<FieldIdx>) -> bool
    ensures { IsTrue result → a.now ≡ b.now }
{
    match a {
        FieldsShape::Primitive => match b {
            FieldsShape::Primitive => true,
            _ => false,
        },
        FieldsShape::Union(n) => match b {
            FieldsShape::Union(m) => *n == *m,
            _ => false,
        },
        FieldsShape::Array {
            stride: s,
            count: n,
        } => match b {
            FieldsShape::Array {
                stride: t,
                count: m,
            } => *s == *t && *n == *m,
            _ => false,
        },
        FieldsShape::Arbitrary {
            offsets: xs,
            in_memory_order: os,
        } => match b {
            FieldsShape::Arbitrary {
                offsets: ys,
                in_memory_order: ps,
            } => {
                are_same_sizes(xs.as_slice().as_raw(), ys.as_slice().as_raw())
                    && are_same_fields(os.as_slice().as_raw(), ps.as_slice().as_raw())
            }
            _ => false,
        },
    }
}

/// Whether both scalars are the same.
fn is_same_scalar(a: &Scalar, b: &Scalar) -> bool
    ensures { IsTrue result → a.now ≡ b.now }
{
    *a == *b
}

/// Whether a code generator sees the values alike.
fn is_same_view(a: &BackendRepr, b: &BackendRepr) -> bool
    ensures { IsTrue result → a.now ≡ b.now }
{
    match a {
        BackendRepr::Scalar(s) => match b {
            BackendRepr::Scalar(t) => is_same_scalar(s, t),
            _ => false,
        },
        BackendRepr::ScalarPair {
            a: s,
            b: t,
            b_offset: o,
        } => match b {
            BackendRepr::ScalarPair {
                a: u,
                b: v,
                b_offset: p,
            } => is_same_scalar(s, u) && is_same_scalar(t, v) && *o == *p,
            _ => false,
        },
        BackendRepr::SimdScalableVector {
            element: s,
            count: n,
            number_of_vectors: v,
        } => match b {
            BackendRepr::SimdScalableVector {
                element: t,
                count: m,
                number_of_vectors: w,
            } => is_same_scalar(s, t) && *n == *m && *v == *w,
            _ => false,
        },
        BackendRepr::SimdVector {
            element: s,
            count: n,
        } => match b {
            BackendRepr::SimdVector {
                element: t,
                count: m,
            } => is_same_scalar(s, t) && *n == *m,
            _ => false,
        },
        BackendRepr::Memory { sized: s } => match b {
            BackendRepr::Memory { sized: t } => *s == *t,
            _ => false,
        },
    }
}

/// Whether a tag's number names variants alike.
fn is_same_encoding(a: &TagEncoding<VariantIdx>, b: &TagEncoding<VariantIdx>) -> bool
    ensures { IsTrue result → a.now ≡ b.now }
{
    match a {
        TagEncoding::Direct => match b {
            TagEncoding::Direct => true,
            TagEncoding::Niche { .. } => false,
        },
        TagEncoding::Niche {
            untagged_variant: u,
            niche_variants: xs,
            niche_start: n,
        } => match b {
            TagEncoding::Niche {
                untagged_variant: v,
                niche_variants: ys,
                niche_start: m,
            } => *u == *v && xs.start == ys.start && xs.last == ys.last && *n == *m,
            TagEncoding::Direct => false,
        },
    }
}

/// Whether both variants are laid out alike.
fn is_same_variant(a: &VariantLayout<FieldIdx>, b: &VariantLayout<FieldIdx>) -> bool
    ensures { IsTrue result → a.now ≡ b.now }
{
    a.size == b.size
        && is_same_view(&a.backend_repr, &b.backend_repr)
        && are_same_sizes(
            a.field_offsets.as_slice().as_raw(),
            b.field_offsets.as_slice().as_raw(),
        )
        && are_same_fields(a.in_memory_order(), b.in_memory_order())
        && a.largest_niche() == b.largest_niche()
        && a.is_uninhabited() == b.is_uninhabited()
}

/// Whether all variants are laid out alike.
fn are_same_variants(a: &[VariantLayout<FieldIdx>], b: &[VariantLayout<FieldIdx>]) -> bool
    ensures { IsTrue result → a.now ≡ b.now }
{
    if a.len() != b.len() {
        return false;
    }
    for i in 0..a.len() {
        if !is_same_variant(&a[i], &b[i]) {
            return false;
        }
    }
    true
}

/// Whether the variants are the same, and distinguished alike.
fn has_same_variants(a: &Variants<FieldIdx, VariantIdx>, b: &Variants<FieldIdx, VariantIdx>) -> bool
    ensures { IsTrue result → a.now ≡ b.now }
{
    match a {
        Variants::Empty => match b {
            Variants::Empty => true,
            _ => false,
        },
        Variants::Single { index: i } => match b {
            Variants::Single { index: j } => *i == *j,
            _ => false,
        },
        Variants::Multiple {
            tag: s,
            tag_encoding: e,
            tag_field: i,
            variants: xs,
        } => match b {
            Variants::Multiple {
                tag: t,
                tag_encoding: f,
                tag_field: j,
                variants: ys,
            } => {
                is_same_scalar(s, t)
                    && is_same_encoding(e, f)
                    && *i == *j
                    && are_same_variants(xs.as_slice().as_raw(), ys.as_slice().as_raw())
            }
            _ => false,
        },
    }
}

/// Whether both tell the same, but for fields, variants, the view and the niche.
fn has_same_rest(a: &LayoutData<FieldIdx, VariantIdx>, b: &LayoutData<FieldIdx, VariantIdx>) -> bool
    ensures { IsTrue result → a.now ≡ record b.now {
      fields = a.now.fields;
      variants = a.now.variants;
      backend_repr = a.now.backend_repr;
      largest_niche = a.now.largest_niche;
    } }
{
    a.uninhabited == b.uninhabited
        && a.align == b.align
        && a.size == b.size
        && a.max_repr_align == b.max_repr_align
        && a.unadjusted_abi_align == b.unadjusted_abi_align
        && a.repr_c == b.repr_c
        && a.randomization_seed == b.randomization_seed
}

/// Whether both layouts are the same. What mostly differs is compared first.
pub(crate) fn is_same_layout(
    a: &LayoutData<FieldIdx, VariantIdx>,
    b: &LayoutData<FieldIdx, VariantIdx>,
) -> bool
    ensures { IsTrue result → a.now ≡ b.now }
{
    a.size == b.size
        && has_same_variants(&a.variants, &b.variants)
        && has_same_rest(a, b)
        && is_same_shape(&a.fields, &b.fields)
        && is_same_view(&a.backend_repr, &b.backend_repr)
        && a.largest_niche == b.largest_niche
}
