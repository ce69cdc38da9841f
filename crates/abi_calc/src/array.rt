//! Arrays and slices.

ghost use Rattle.std.specs.Prelude.{◌≡◌, ◌≢◌, ◌*◌, ◌≤◌, Err, IfErr, IfOk, None, is_some, unwrap_or};
ghost use Rattle.abi_base.specs.DataLayout.{IsLawfulDataLayout, size_bound};
ghost use Rattle.abi_scalar.specs.declared.backend_repr.BackendRepr.TheVariants.{Memory};
ghost use Rattle.abi_scalar.specs.Lawful.{IsLawfulLayout};
ghost use Rattle.abi_scalar.specs.Order.{HasPlaceForEach, IsAscending};
ghost use Rattle.abi_univariant.specs.Array.{array_answer};

use crate::calculator::LayoutCalculator;
use abi_base::HasDataLayout;
use abi_index::Idx;
use abi_scalar::{LayoutCalculatorError, LayoutData};
use abi_univariant::layout_of_array;

impl<Cx: HasDataLayout> LayoutCalculator<Cx> {
    /// The layout of so many elements, one after another; without a count, that of a slice.
    ///
    /// A slice has a size of 0 here, since only its values say how many elements they have.
    ///
    /// Element `n` lies `n` times the element's size from the start (Rust Reference, "Array layout").
    ///
    /// Refused as `SizeOverflow` where the size is not below the data layout's bound.
    pub fn layout_of_array_like<FieldIdx: Idx, VariantIdx: Idx, F>(
        &self,
        element: &LayoutData<FieldIdx, VariantIdx>,
        count_if_sized: Option<u64>,
    ) -> Result<LayoutData<FieldIdx, VariantIdx>, LayoutCalculatorError<F>>
        requires data_layout { IsLawfulDataLayout (Cx.target self.now.cx) }
        requires element { IsLawfulLayout (Cx.target self.now.cx) element.now }
        ensures exact { result ≡ array_answer (VariantIdx.at 0)
            (Cx.target self.now.cx) element.now count_if_sized }
        ensures size { IfOk result
            (λ array. array.size ≡ element.now.size * unwrap_or count_if_sized 0) }
        ensures lawful { IfOk result (IsLawfulLayout (Cx.target self.now.cx)) }

        // It is aligned as the element is, is bytes in memory, and has the element's niche where there is an element.
        ensures alignment { IfOk result (λ array. array.align ≡ element.now.align) }
        ensures view { IfOk result (λ array. array.backend_repr ≡ Memory (is_some count_if_sized)) }
        ensures niche { unwrap_or count_if_sized 0 ≢ 0 →
            IfOk result (λ array. array.largest_niche ≡ element.now.largest_niche) }
        ensures no_niche { unwrap_or count_if_sized 0 ≡ 0 →
            IfOk result (λ array. array.largest_niche ≡ None) }

        // It is refused for its size alone, and exactly where that isn't below the bound.
        ensures too_large { result ≡ Err LayoutCalculatorError.SizeOverflow →
            size_bound (Cx.target self.now.cx) ≤ element.now.size * unwrap_or count_if_sized 0 }
        ensures refused { size_bound (Cx.target self.now.cx) ≤ element.now.size * unwrap_or
            count_if_sized 0 → result ≡ Err LayoutCalculatorError.SizeOverflow }
        ensures no_other { IfErr result (λ e. e ≡ LayoutCalculatorError.SizeOverflow) }
        ensures places { IfOk result (λ array. HasPlaceForEach array.fields) }
        ensures ascending { IfOk result (λ array. IsAscending FieldIdx.number array.fields) }
    {
        layout_of_array(self.cx.data_layout(), element, count_if_sized)
    }
}
