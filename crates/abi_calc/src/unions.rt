//! Unions: fields that share their bytes.

ghost use Rattle.std.specs.Prelude.{◌≡◌, ◌+◌, ◌≤◌, All, IfOk, IfSome, None, false, length, map};
ghost use Rattle.abi_index.specs.Slice.{items_of};
ghost use Rattle.abi_base.specs.DataLayout.{IsLawfulDataLayout};
ghost use Rattle.abi_scalar.specs.declared.fields_shape.FieldsShape.TheVariants.{Union};
ghost use Rattle.abi_scalar.specs.declared.variants.Variants.TheVariants.{Single};
ghost use Rattle.abi_scalar.specs.Lawful.{IsLawfulLayout};
ghost use Rattle.abi_scalar.specs.Order.{HasPlaceForEach, IsAscending};
ghost use Rattle.abi_univariant.specs.Union.{IsSizedUnion, IsUnionAnswer, IsUnionView, only_of, union_align};
ghost use Rattle.abi_calc.specs.Marks.{HasUnionMarks};

use crate::calculator::LayoutCalculator;
use abi_base::HasDataLayout;
use abi_index::{Idx, IndexSlice, IndexVec};
use abi_scalar::{LayoutCalculatorError, LayoutData, LayoutHandle, ReprOptions};
use abi_univariant::layout_of_union;
use std::alloc::Global;

/// The fields of the one variant.
fn only_fields<'a, FieldIdx: Idx, VariantIdx: Idx, F>(
    variants: IndexSlice<'a, VariantIdx, IndexVec<FieldIdx, F>>,
) -> &'a [F]
    requires { length (items_of variants) ≡ 1 }
    ensures { result.now ≡ only_of (items_of variants.entry) }
{
    let variants = variants.as_raw();
    variants[0].as_slice().as_raw()
}

impl<Cx: HasDataLayout> LayoutCalculator<Cx> {
    /// The layout of a union, from the fields of its one variant: all of them at offset 0 (Rust Reference, "Type
    /// layout"). It is as large and as aligned as the greatest of them, cut to `packed` and raised to `align`, has no
    /// niche and counts as inhabited.
    ///
    /// A view that all fields with bytes have in common is the union's, holding any numbers, unless the union is
    /// `repr(C)` or aligned otherwise.
    ///
    /// Refused as `UnexpectedUnsized` with the first field whose size isn't known beforehand, else as `EmptyUnion`
    /// where there are no fields, else as `SizeOverflow` where the size is not below the data layout's bound. No memory
    /// is asked for: `alloc` stands where the neighbouring calls have it.
    pub fn layout_of_union<
        FieldIdx: Idx,
        VariantIdx: Idx,
        F: LayoutHandle<FieldIdx, VariantIdx> + Copy,
    >(
        &self,
        _alloc: Global,
        repr: &ReprOptions,
        variants: IndexSlice<'_, VariantIdx, IndexVec<FieldIdx, F>>,
    ) -> Result<LayoutData<FieldIdx, VariantIdx>, LayoutCalculatorError<F>>
        requires data_layout { IsLawfulDataLayout (Cx.target self.now.cx) }
        requires one { length (items_of variants) ≡ 1 }
        requires fields { All (λ f. IsLawfulLayout (Cx.target self.now.cx) (F.layout_of f))
            (only_of (items_of variants)) }
        requires align { IfSome repr.now.align (λ align. align ≤ 29) }
        ensures exact { IsUnionAnswer F.layout_of (VariantIdx.at 0) (Cx.target self.now.cx) repr.now
            (only_of (items_of variants.entry)) result }
        ensures sized { IsSizedUnion (Cx.target self.now.cx) repr.now
            (map F.layout_of (only_of (items_of variants.entry))) result }
        ensures lawful { IfOk result (IsLawfulLayout (Cx.target self.now.cx)) }
        ensures fields { IfOk result (λ l. l.fields ≡ Union (length (only_of (items_of variants.entry)))) }
        ensures niche { IfOk result (λ l. l.largest_niche ≡ None) }
        ensures inhabited { IfOk result (λ l. l.uninhabited ≡ false) }
        ensures single { IfOk result (λ l. l.variants ≡ Single (VariantIdx.at 0)) }
        ensures alignment { IfOk result (λ l. l.align.abi ≡ union_align (Cx.target self.now.cx)
            repr.now (map F.layout_of (only_of (items_of variants.entry)))) }
        ensures view { IfOk result (λ l. IsUnionView (Cx.target self.now.cx) repr.now
            (map F.layout_of (only_of (items_of variants.entry))) l.backend_repr) }
        ensures marks { IfOk result (HasUnionMarks (Cx.target self.now.cx) repr.now
            (map F.layout_of (only_of (items_of variants.entry)))) }
        ensures places { IfOk result (λ l. HasPlaceForEach l.fields) }
        ensures ascending { IfOk result (λ l. IsAscending FieldIdx.number l.fields) }
    {
        let fields = only_fields(variants);
        layout_of_union(self.cx.data_layout(), repr, fields)
    }
}
