//! Vectors: lanes of one scalar.

ghost use Rattle.std.specs.Prelude.{◌≡◌, ◌≢◌, ◌*◌, ◌^◌, ◌≤◌, ◌<◌, IfOk, IsTrue};
ghost use Rattle.std.specs.Int.{◌∣◌};
ghost use Rattle.abi_base.specs.DataLayout.{IsLawfulDataLayout, size_bound, vector_align_of};
ghost use Rattle.abi_scalar.specs.Lawful.{IsLawfulLayout};
ghost use Rattle.abi_univariant.specs.Simd.{if_below, is_tight, lanes_answer, scalable_answer, simd_align, simd_answer, simd_view, vector_layout};

use crate::one_item::one;
use abi_base::{AbiAlign, Align, NumScalableVectors, Size, TargetDataLayout};
use abi_index::{Hash64, Idx};
use abi_scalar::{
    BackendLaneCount, BackendRepr, FieldsShape, LayoutCalculatorError, LayoutData, LayoutHandle,
    Scalar, Variants,
};
use std::alloc::Global;

/// The lanes of one vector.
#[derive(Clone, Copy)]
struct Lanes {
    /// What each of them is.
    scalar: Scalar,
    count: BackendLaneCount,
    /// All of them, in bytes.
    size: Size,
}

/// Whether it is packed, and its lanes are no power of two.
fn is_tight(repr_packed: bool, count: BackendLaneCount) -> bool
    ensures { result ≡ is_tight repr_packed count }
{
    repr_packed && !count.as_u32().is_power_of_two()
}

/// A vector's view.
fn simd_view(lanes: &Lanes, repr_packed: bool) -> BackendRepr
    ensures { result ≡ simd_view repr_packed lanes.now }
{
    if is_tight(repr_packed, lanes.count) {
        BackendRepr::Memory { sized: true }
    } else {
        BackendRepr::SimdVector {
            element: lanes.scalar,
            count: lanes.count,
        }
    }
}

/// The lanes of one vector. Refused by their count, then by the element, then by their size.
fn lanes_of<FieldIdx: Idx, VariantIdx: Idx, F: LayoutHandle<FieldIdx, VariantIdx> + Copy>(
    dl: &TargetDataLayout,
    element: F,
    count: u64,
) -> Result<Lanes, LayoutCalculatorError<F>>
    requires { IsLawfulDataLayout dl.now }
    ensures { result ≡ lanes_answer F.layout_of (size_bound dl.now) element count }
{
    let count = match BackendLaneCount::new(count) {
        Ok(count) => count,
        Err(error) => return Err(error),
    };
    let layout = element.layout();
    let BackendRepr::Scalar(scalar) = layout.backend_repr else {
        return Err(LayoutCalculatorError::NonPrimitiveSimdType(element));
    };
    match layout.size.checked_mul(count.as_u64(), dl) {
        Some(size) => Ok(Lanes {
            scalar,
            count,
            size,
        }),
        None => Err(LayoutCalculatorError::SizeOverflow),
    }
}

/// The layout of an element's vectors with this view, this size and this alignment.
fn layout_of_vectors<FieldIdx: Idx, VariantIdx: Idx, F>(
    alloc: Global,
    dl: &TargetDataLayout,
    element: &LayoutData<FieldIdx, VariantIdx>,
    backend_repr: BackendRepr,
    bytes: Size,
    align: Align,
    count: BackendLaneCount,
) -> Result<LayoutData<FieldIdx, VariantIdx>, LayoutCalculatorError<F>>
    requires data_layout { IsLawfulDataLayout dl.now }
    requires small { bytes < 2 ^ 62 }
    requires limit { align ≤ 29 }
    ensures { result ≡ if_below (size_bound dl.now) (vector_layout (VariantIdx.at 0)
        (FieldIdx.at 0) element.now backend_repr bytes align count) }
{
    let size = bytes.align_to(align);
    if size.bytes() >= dl.obj_size_bound() {
        return Err(LayoutCalculatorError::SizeOverflow);
    }
    Ok(LayoutData {
        fields: FieldsShape::Arbitrary {
            offsets: one(alloc, Size::ZERO),
            in_memory_order: one(alloc, FieldIdx::new(0)),
        },
        variants: Variants::Single {
            index: VariantIdx::new(0),
        },
        backend_repr,
        largest_niche: element.largest_niche,
        uninhabited: false,
        align: AbiAlign::new(align),
        size,
        max_repr_align: None,
        unadjusted_abi_align: element.align.abi,
        repr_c: false,
        randomization_seed: element
            .randomization_seed
            .wrapping_add(Hash64::new(count.as_u64())),
    })
}

/// The alignment of vectors of the size.
fn vector_align(dl: &TargetDataLayout, size: Size) -> Align
    requires data_layout { IsLawfulDataLayout dl.now }
    requires small { size ≤ 2 ^ 29 }
    ensures value { result ≡ vector_align_of dl.now size }
    ensures limit { result ≤ 29 }
{
    dl.rust_vector_align(size)
}

/// A vector's alignment.
fn simd_align(dl: &TargetDataLayout, lanes: &Lanes, repr_packed: bool) -> Align
    requires data_layout { IsLawfulDataLayout dl.now }
    requires some { 1 ≤ lanes.now.size }
    requires small { lanes.now.size ≤ 2 ^ 29 }
    ensures value { result ≡ simd_align dl.now repr_packed lanes.now }
    ensures tight { IsTrue (is_tight repr_packed lanes.now.count) → 2 ^ result ∣ lanes.now.size }
    ensures limit { result ≤ 29 }
{
    if is_tight(repr_packed, lanes.count) {
        Align::max_aligned_factor(lanes.size)
    } else {
        vector_align(dl, lanes.size)
    }
}

/// The layout of a vector of `count` lanes: one field at offset 0, the array of its lanes, rounded up to the alignment
/// of vectors of that size, or without padding where it is packed and its lanes are no power of two.
///
/// Refused as `OversizedSimdType` for more than 32768 lanes and as `ZeroLengthSimdType` for none, else as
/// `NonPrimitiveSimdType` with an element that is no scalar, else as `SizeOverflow` where the size is not below the
/// data layout's bound. It asks for no memory.
pub fn layout_of_simd<FieldIdx: Idx, VariantIdx: Idx, F: LayoutHandle<FieldIdx, VariantIdx> + Copy>(
    alloc: Global,
    dl: &TargetDataLayout,
    element: F,
    count: u64,
    repr_packed: bool,
) -> Result<LayoutData<FieldIdx, VariantIdx>, LayoutCalculatorError<F>>
    requires data_layout { IsLawfulDataLayout dl.now }
    requires element { IsLawfulLayout dl.now (F.layout_of element) }
    ensures exact { result ≡ simd_answer F.layout_of (VariantIdx.at 0)
        (FieldIdx.at 0) dl.now element count repr_packed }
    ensures tight { IsTrue (is_tight repr_packed count)
        → IfOk result (λ l. l.size ≡ (F.layout_of element).size * count) }
    ensures lawful { IfOk result (IsLawfulLayout dl.now) }
{
    let lanes = lanes_of(dl, element, count)?;
    let backend_repr = simd_view(&lanes, repr_packed);
    let align = simd_align(dl, &lanes, repr_packed);
    let Lanes { count, size, .. } = lanes;
    layout_of_vectors(
        alloc,
        dl,
        element.layout(),
        backend_repr,
        size,
        align,
        count,
    )
}

/// The layout of some vectors whose length the machine decides: their size here is that of `count` lanes each, all of
/// them together rounded up to the alignment of vectors as large as one. They are one field at offset 0.
///
/// Refused as `OversizedSimdType` for more than 32768 lanes and as `ZeroLengthSimdType` for none, else as
/// `NonPrimitiveSimdType` with an element that is no scalar, else as `SizeOverflow` where the size of one vector or
/// that of all is not below the data layout's bound. It asks for no memory.
pub fn layout_of_scalable<
    FieldIdx: Idx,
    VariantIdx: Idx,
    F: LayoutHandle<FieldIdx, VariantIdx> + Copy,
>(
    alloc: Global,
    dl: &TargetDataLayout,
    element: F,
    count: u64,
    number_of_vectors: NumScalableVectors,
) -> Result<LayoutData<FieldIdx, VariantIdx>, LayoutCalculatorError<F>>
    requires data_layout { IsLawfulDataLayout dl.now }
    requires element { IsLawfulLayout dl.now (F.layout_of element) }
    ensures exact { result ≡ scalable_answer F.layout_of (VariantIdx.at 0)
        (FieldIdx.at 0) dl.now element count number_of_vectors }
    ensures lawful { number_of_vectors.0 ≢ 0 → IfOk result (IsLawfulLayout dl.now) }
{
    let lanes = lanes_of(dl, element, count)?;
    let bytes = lanes.size * u64::from(number_of_vectors.0);
    let align = vector_align(dl, lanes.size);
    let backend_repr = BackendRepr::SimdScalableVector {
        element: lanes.scalar,
        count: lanes.count,
        number_of_vectors,
    };
    layout_of_vectors(
        alloc,
        dl,
        element.layout(),
        backend_repr,
        bytes,
        align,
        lanes.count,
    )
}
