//! Vectors: lanes of one scalar.

ghost use Rattle.std.specs.Prelude.{◌≡◌, ◌≢◌, ◌*◌, IfOk, IsTrue, false, true};
ghost use Rattle.abi_base.specs.DataLayout.{IsLawfulDataLayout};
ghost use Rattle.abi_scalar.specs.declared.backend_repr.BackendRepr.TheVariants.{Memory, Scalar as OneScalar, SimdVector};
ghost use Rattle.abi_scalar.specs.declared.scalar.Scalar.{Scalar};
ghost use Rattle.abi_scalar.specs.Lawful.{IsLawfulLayout};
ghost use Rattle.abi_scalar.specs.Order.{HasPlaceForEach, IsAscending};
ghost use Rattle.abi_univariant.specs.Simd.{AreSizedVectors, IsSizedVector, is_tight, lanes_align, scalable_answer, simd_answer};

use crate::calculator::LayoutCalculator;
use abi_base::{HasDataLayout, NumScalableVectors};
use abi_index::Idx;
use abi_scalar::{LayoutCalculatorError, LayoutData, LayoutHandle};
use abi_univariant::{layout_of_scalable, layout_of_simd};
use std::alloc::Global;

impl<Cx: HasDataLayout> LayoutCalculator<Cx> {
    /// The layout of a vector of so many lanes: one field at offset 0, the array of its lanes, rounded up to the
    /// alignment of vectors of that size. A packed vector whose lanes are no power of two has no padding: it is bytes
    /// in memory, aligned to the greatest power of two in its size.
    ///
    /// Refused as `OversizedSimdType` for more than 32768 lanes and as `ZeroLengthSimdType` for none, else as
    /// `NonPrimitiveSimdType` with an element that is no scalar, else as `SizeOverflow` where the size is not below the
    /// data layout's bound. It asks for no memory.
    pub fn layout_of_simd_type<
        FieldIdx: Idx,
        VariantIdx: Idx,
        F: LayoutHandle<FieldIdx, VariantIdx> + Copy,
    >(
        &self,
        alloc: Global,
        element: F,
        count: u64,
        repr_packed: bool,
    ) -> Result<LayoutData<FieldIdx, VariantIdx>, LayoutCalculatorError<F>>
        requires data_layout { IsLawfulDataLayout (Cx.target self.now.cx) }
        requires element { IsLawfulLayout (Cx.target self.now.cx) (F.layout_of element) }
        ensures exact { result ≡ simd_answer F.layout_of (VariantIdx.at 0) (FieldIdx.at 0)
            (Cx.target self.now.cx) element count repr_packed }
        ensures sized { IsSizedVector (Cx.target self.now.cx) (F.layout_of element) count repr_packed result }
        ensures tight { IsTrue (is_tight repr_packed count) →
            IfOk result (λ l. l.size ≡ (F.layout_of element).size * count) }
        ensures lawful { IfOk result (IsLawfulLayout (Cx.target self.now.cx)) }
        ensures niche { IfOk result (λ l. l.largest_niche ≡ (F.layout_of element).largest_niche) }
        ensures alignment { IfOk result (λ l. l.align.abi ≡ lanes_align
            (Cx.target self.now.cx) repr_packed count ((F.layout_of element).size * count)) }
        ensures view { (scalar : Scalar) → (F.layout_of element).backend_repr ≡ OneScalar scalar →
            is_tight repr_packed count ≡ false →
            IfOk result (λ l. l.backend_repr ≡ SimdVector scalar count) }
        ensures tight_view { is_tight repr_packed count ≡ true →
            IfOk result (λ l. l.backend_repr ≡ Memory true) }
        ensures places { IfOk result (λ l. HasPlaceForEach l.fields) }
        ensures ascending { IfOk result (λ l. IsAscending FieldIdx.number l.fields) }
    {
        layout_of_simd(alloc, self.cx.data_layout(), element, count, repr_packed)
    }

    /// The layout of some vectors whose length the machine decides: their size here is that of so many lanes each, all
    /// of them together rounded up to the alignment of vectors as large as one. They are one field at offset 0.
    ///
    /// Refused as `OversizedSimdType` for more than 32768 lanes and as `ZeroLengthSimdType` for none, else as
    /// `NonPrimitiveSimdType` with an element that is no scalar, else as `SizeOverflow` where the size of one vector or
    /// that of all is not below the data layout's bound. It asks for no memory.
    pub fn layout_of_scalable_vector_type<
        FieldIdx: Idx,
        VariantIdx: Idx,
        F: LayoutHandle<FieldIdx, VariantIdx> + Copy,
    >(
        &self,
        alloc: Global,
        element: F,
        count: u64,
        number_of_vectors: NumScalableVectors,
    ) -> Result<LayoutData<FieldIdx, VariantIdx>, LayoutCalculatorError<F>>
        requires data_layout { IsLawfulDataLayout (Cx.target self.now.cx) }
        requires element { IsLawfulLayout (Cx.target self.now.cx) (F.layout_of element) }
        ensures exact { result ≡ scalable_answer F.layout_of (VariantIdx.at 0) (FieldIdx.at 0)
            (Cx.target self.now.cx) element count number_of_vectors }
        ensures sized { AreSizedVectors (Cx.target self.now.cx) (F.layout_of element) count number_of_vectors result }
        ensures lawful { number_of_vectors.0 ≢ 0 →
            IfOk result (IsLawfulLayout (Cx.target self.now.cx)) }
        ensures niche { IfOk result (λ l. l.largest_niche ≡ (F.layout_of element).largest_niche) }
        ensures places { IfOk result (λ l. HasPlaceForEach l.fields) }
        ensures ascending { IfOk result (λ l. IsAscending FieldIdx.number l.fields) }
    {
        layout_of_scalable(
            alloc,
            self.cx.data_layout(),
            element,
            count,
            number_of_vectors,
        )
    }
}
