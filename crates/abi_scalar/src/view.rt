//! What a view of a type says.

ghost use Rattle.std.specs.Prelude.{◌≡◌, ◌↔◌, IsTrue};
ghost use Rattle.abi_scalar.specs.View.{IsUnsizedView, IsSizedView, IsScalarView, IsScalarOrSimdView, IsBoolView, IsSignedView, IsSameUpToValidity, IsScalarOf, IsPairOf, IsVectorOf, KnowsView, HasFittingSize, platform_align, platform_size, union_view};

use crate::backend_repr::BackendRepr;
use crate::lane_count::BackendLaneCount;
use abi_base::{Align, HasDataLayout, Primitive, Size};

impl BackendRepr {
    /// Whether the size is known only with a value.
    pub fn is_unsized(&self) -> bool
        ensures { IsTrue result ↔ IsUnsizedView self.now }
    {
        match *self {
            BackendRepr::Memory { sized } => !sized,
            _ => false,
        }
    }

    /// Whether the size is known beforehand: bytes in memory may be unsized.
    pub fn is_sized(&self) -> bool
        ensures { IsTrue result ↔ IsSizedView self.now }
    {
        match *self {
            BackendRepr::Memory { sized } => sized,
            _ => true,
        }
    }

    /// Whether it is one scalar, which vectors are not.
    pub fn is_scalar(&self) -> bool
        ensures { IsTrue result ↔ IsScalarView self.now }
    {
        matches!(self, BackendRepr::Scalar(_))
    }

    /// Whether it is one scalar or consists of vectors.
    pub fn is_scalar_or_simd(&self) -> bool
        ensures { IsTrue result ↔ IsScalarOrSimdView self.now }
    {
        match *self {
            BackendRepr::Scalar(_) => true,
            BackendRepr::SimdVector {
                element: _,
                count: _,
            } => true,
            BackendRepr::SimdScalableVector {
                element: _,
                count: _,
                number_of_vectors: _,
            } => true,
            _ => false,
        }
    }

    /// Whether it is one scalar that is a `bool`.
    pub fn is_bool(&self) -> bool
        ensures { IsTrue result ↔ IsBoolView self.now }
    {
        match *self {
            BackendRepr::Scalar(scalar) => scalar.is_bool(),
            _ => false,
        }
    }

    /// The same view, holding any numbers, as that of a union's field. Bytes in memory become sized ones.
    pub fn to_union(&self) -> BackendRepr
        ensures { result ≡ union_view self.now }
    {
        match *self {
            BackendRepr::Scalar(scalar) => BackendRepr::Scalar(scalar.to_union()),
            BackendRepr::ScalarPair { a, b, b_offset } => {
                BackendRepr::ScalarPair {
                    a: a.to_union(),
                    b: b.to_union(),
                    b_offset,
                }
            }
            BackendRepr::SimdScalableVector {
                element,
                count,
                number_of_vectors,
            } => BackendRepr::SimdScalableVector {
                element: element.to_union(),
                count,
                number_of_vectors,
            },
            BackendRepr::SimdVector { element, count } => {
                BackendRepr::SimdVector {
                    element: element.to_union(),
                    count,
                }
            }
            BackendRepr::Memory { sized: _ } => BackendRepr::Memory { sized: true },
        }
    }

    /// Whether its one scalar is a signed integer. Asked of one scalar alone.
    pub fn is_signed(&self) -> bool
        requires { IsScalarView self.now }
        ensures { IsTrue result ↔ IsSignedView self.now }
    {
        match *self {
            BackendRepr::Scalar(scalar) => scalar.is_signed(),
            _ => unreachable!(),
        }
    }

    /// The alignment of one scalar, or the greater of two; None for vectors and bytes in memory.
    pub fn scalar_platform_align<C: HasDataLayout>(&self, cx: &C) -> Option<Align>
        requires { KnowsView (C.target cx.now) self.now }
        ensures { result ≡ platform_align (C.target cx.now) self.now }
    {
        match *self {
            BackendRepr::Scalar(scalar) => Some(scalar.default_align(cx)),
            BackendRepr::ScalarPair { a, b, b_offset: _ } => Some(
                a.default_align(cx).max(b.default_align(cx)),
            ),
            _ => None,
        }
    }

    /// How many bytes one scalar takes, or two with what lies between and after them; None for vectors and bytes
    /// in memory.
    pub fn scalar_size<C: HasDataLayout>(&self, cx: &C) -> Option<Size>
        requires known { KnowsView (C.target cx.now) self.now }
        requires fits { HasFittingSize (C.target cx.now) self.now }
        ensures { result ≡ platform_size (C.target cx.now) self.now }
    {
        match *self {
            BackendRepr::Scalar(scalar) => Some(scalar.size(cx)),
            BackendRepr::ScalarPair { a, b, b_offset } => {
                let align = a.default_align(cx).max(b.default_align(cx));
                let end = b_offset + b.size(cx);
                Some(end.align_to(align))
            }
            _ => None,
        }
    }

    /// Whether both agree but for the numbers that their scalars may hold. Vectors whose length the machine
    /// decides, and bytes in memory, have to be the same.
    pub fn eq_up_to_validity(&self, other: &BackendRepr) -> bool
        ensures { IsTrue result ↔ IsSameUpToValidity self.now other.now }
    {
        match *self {
            BackendRepr::Scalar(s) => other.is_scalar_of(s.primitive()),
            BackendRepr::ScalarPair { a, b, b_offset } => {
                other.is_pair_of(a.primitive(), b.primitive(), b_offset)
            }
            BackendRepr::SimdVector { element, count } => {
                other.is_vector_of(element.primitive(), count)
            }
            BackendRepr::SimdScalableVector {
                element: _,
                count: _,
                number_of_vectors: _,
            } => *self == *other,
            BackendRepr::Memory { sized: _ } => *self == *other,
        }
    }

    /// Whether it is one scalar of this primitive.
    fn is_scalar_of(&self, value: Primitive) -> bool
        ensures { IsTrue result ↔ IsScalarOf value self.now }
    {
        match *self {
            BackendRepr::Scalar(scalar) => scalar.is_of(value),
            _ => false,
        }
    }

    /// Whether it is two scalars of these primitives, the second at this offset.
    fn is_pair_of(&self, first: Primitive, second: Primitive, offset: Size) -> bool
        ensures { IsTrue result ↔ IsPairOf first second offset self.now }
    {
        match *self {
            BackendRepr::ScalarPair { a, b, b_offset } => {
                a.is_of(first) && b.is_of(second) && b_offset == offset
            }
            _ => false,
        }
    }

    /// Whether it is a vector of `lanes` lanes of this primitive.
    fn is_vector_of(&self, value: Primitive, lanes: BackendLaneCount) -> bool
        ensures { IsTrue result ↔ IsVectorOf value lanes self.now }
    {
        match *self {
            BackendRepr::SimdVector { element, count } => { element.is_of(value) && count == lanes }
            _ => false,
        }
    }
}
