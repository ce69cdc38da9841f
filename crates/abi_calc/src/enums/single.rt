//! Types that are the list of one variant's fields.

ghost use Rattle.std.specs.Prelude.{◌≡◌, ◌⊎◌, All, Err, IfErr, IfOk, length, map};
ghost use Rattle.abi_index.specs.Slice.{items_of};
ghost use Rattle.abi_base.specs.DataLayout.{IsLawfulDataLayout, size_bound};
ghost use Rattle.abi_scalar.specs.Lawful.{IsLawfulLayout};
ghost use Rattle.abi_scalar.specs.Scalar.{IsLawfulScalar};
ghost use Rattle.abi_scalar.specs.Order.{HasPlaceForEach, IsAscending};
ghost use Rattle.abi_scalar.specs.Shape.{listed_offsets};
ghost use Rattle.abi_univariant.specs.Answer.{IsAnswer};
ghost use Rattle.abi_univariant.specs.Apart.{AreApart};
ghost use Rattle.abi_univariant.specs.Least.{IsEachOrderTooLarge, IsLeastSize, LiesInSomeOrder};
ghost use Rattle.abi_univariant.specs.List.{AreSized, HasLawfulAligns};
ghost use Rattle.abi_univariant.specs.Placement.{IsWellFormedPrefix, IsNonEmptyIfUnsized};
ghost use Rattle.abi_calc.specs.Enums.Single.{HasWellFormedScalars, IsSingleAnswer, allowed_niche, allowed_view, single_kind, widened_scalar, widened_view};

use crate::calculator::LayoutCalculator;
use abi_base::{HasDataLayout, NicheOptimizations, StructKind, TargetDataLayout};
use abi_index::{Idx, IndexSlice};
use abi_scalar::{
    BackendRepr, LayoutCalculatorError, LayoutData, LayoutHandle, Niche, ReprOptions, Scalar,
    Variants, WrappingRange,
};
use std::alloc::Global;

/// Of which kind the list of a type with one variant of so many fields is.
pub(crate) fn single_kind(is_enum: bool, always_sized: bool, count: usize) -> StructKind
    ensures kind { result ≡ single_kind is_enum always_sized count }
    ensures tail { IsNonEmptyIfUnsized result count }
{
    if is_enum || always_sized || count == 0 {
        StructKind::AlwaysSized
    } else {
        StructKind::MaybeUnsized
    }
}

/// The scalar, holding every number of its width where it holds numbers.
pub(crate) fn widened_scalar(dl: &TargetDataLayout, scalar: Scalar) -> Scalar
    requires data_layout { IsLawfulDataLayout dl.now }
    requires scalar { IsLawfulScalar dl.now scalar }
    ensures { result ≡ widened_scalar dl.now scalar }
{
    match scalar {
        Scalar::Initialized { value, .. } => Scalar::Initialized {
            value,
            valid_range: WrappingRange::full(value.size(dl)),
        },
        Scalar::Union { .. } => scalar,
    }
}

/// The view without free numbers.
fn widened_view(dl: &TargetDataLayout, view: BackendRepr) -> BackendRepr
    requires data_layout { IsLawfulDataLayout dl.now }
    requires view { HasWellFormedScalars dl.now view }
    ensures { result ≡ widened_view dl.now view }
{
    match view {
        BackendRepr::Scalar(scalar) => BackendRepr::Scalar(widened_scalar(dl, scalar)),
        BackendRepr::ScalarPair { a, b, b_offset } => BackendRepr::ScalarPair {
            a: widened_scalar(dl, a),
            b: widened_scalar(dl, b),
            b_offset,
        },
        BackendRepr::SimdVector { element, count } => BackendRepr::SimdVector {
            element: widened_scalar(dl, element),
            count,
        },
        BackendRepr::SimdScalableVector {
            element,
            count,
            number_of_vectors,
        } => BackendRepr::SimdScalableVector {
            element: widened_scalar(dl, element),
            count,
            number_of_vectors,
        },
        BackendRepr::Memory { .. } => view,
    }
}

/// The view, without free numbers where they may not be used.
fn allowed_view(
    dl: &TargetDataLayout,
    optimizations: NicheOptimizations,
    view: BackendRepr,
) -> BackendRepr
    requires data_layout { IsLawfulDataLayout dl.now }
    requires view { HasWellFormedScalars dl.now view }
    ensures { result ≡ allowed_view dl.now optimizations view }
{
    match optimizations {
        NicheOptimizations::Enabled => view,
        NicheOptimizations::Disabled => widened_view(dl, view),
    }
}

/// The niche, where it may be used.
fn allowed_niche(optimizations: NicheOptimizations, niche: Option<Niche>) -> Option<Niche>
    ensures { result ≡ allowed_niche optimizations niche }
{
    match optimizations {
        NicheOptimizations::Enabled => niche,
        NicheOptimizations::Disabled => None,
    }
}

impl<Cx: HasDataLayout> LayoutCalculator<Cx> {
    /// The layout of a type that is the list of these fields, those of its one variant, which has this index. Where
    /// niches may not be used it has none, and its scalars hold every number of their width.
    pub(crate) fn layout_of_single<
        FieldIdx: Idx,
        VariantIdx: Idx,
        F: LayoutHandle<FieldIdx, VariantIdx> + Copy,
    >(
        &self,
        alloc: Global,
        fields: IndexSlice<'_, FieldIdx, F>,
        index: VariantIdx,
        repr: &ReprOptions,
        kind: StructKind,
        optimizations: NicheOptimizations,
    ) -> Result<LayoutData<FieldIdx, VariantIdx>, LayoutCalculatorError<F>>
        requires data_layout { IsLawfulDataLayout (Cx.target self.now.cx) }
        requires fields { All (λ f. IsLawfulLayout (Cx.target self.now.cx)
            (F.layout_of f)) (items_of fields) }
        requires repr { HasLawfulAligns repr.now }
        requires prefix { IsWellFormedPrefix kind (size_bound (Cx.target self.now.cx)) }
        requires tail { IsNonEmptyIfUnsized kind (length (items_of fields)) }
        ensures exact { IsSingleAnswer F.layout_of FieldIdx.at (VariantIdx.at 0) index
            (Cx.target self.now.cx) repr.now kind optimizations (items_of fields.entry) result }
        ensures lawful { IfOk result (IsLawfulLayout (Cx.target self.now.cx)) }
        ensures apart { IfOk result (λ l. AreApart l.size (listed_offsets l.fields)
            (map (λ f. (F.layout_of f).size) (items_of fields.entry))) }
        ensures placed { IfOk result (LiesInSomeOrder FieldIdx.at
            (Cx.target self.now.cx) repr.now kind (map F.layout_of (items_of fields.entry))) }
        ensures least { IfOk result (λ l. IsLeastSize (Cx.target self.now.cx) repr.now kind
            (map F.layout_of (items_of fields.entry)) l.size) }
        ensures too_large { result ≡ Err LayoutCalculatorError.SizeOverflow → IsEachOrderTooLarge
            (Cx.target self.now.cx) repr.now kind (map F.layout_of (items_of fields.entry)) }
        ensures refused { AreSized (map F.layout_of (items_of fields.entry)) → IsEachOrderTooLarge
            (Cx.target self.now.cx) repr.now kind (map F.layout_of (items_of fields.entry)) →
            IsAnswer (Err LayoutCalculatorError.SizeOverflow) result }
        ensures no_other { AreSized (map F.layout_of (items_of fields.entry)) → IfErr result (λ e.
            (e ≡ LayoutCalculatorError.SizeOverflow) ⊎ (e ≡ LayoutCalculatorError.OutOfMemory)) }
        ensures places { IfOk result (λ l. HasPlaceForEach l.fields) }
        ensures ascending { IfOk result (λ l. IsAscending FieldIdx.number l.fields) }
    {
        let dl = self.cx.data_layout();
        let mut layout = self.layout_of_univariant(alloc, fields, repr, kind)?;
        layout.variants = Variants::Single { index };
        layout.backend_repr = allowed_view(dl, optimizations, layout.backend_repr);
        layout.largest_niche = allowed_niche(optimizations, layout.largest_niche);
        Ok(layout)
    }
}
