//! The lists of an enum's variants.

ghost use Rattle.std.specs.Prelude.{◌≡◌, ◌+◌, ◌≤◌, ◌⊎◌, All, IfErr, IfOk, length, map};
ghost use Rattle.abi_base.specs.DataLayout.{IsLawfulDataLayout, size_bound};
ghost use Rattle.abi_scalar.specs.Lawful.{IsLawfulLayout};
ghost use Rattle.abi_univariant.specs.List.{HasLawfulAligns, IsUnivariantError};
ghost use Rattle.abi_univariant.specs.Placement.{IsWellFormedPrefix, IsSized};
ghost use Rattle.abi_calc.specs.Enums.Lists.{AreGoodLists, AreListLayouts, AreListsOf, IsFirstListError, IsGoodList, align_with_all, behind_tag};

use crate::calculator::LayoutCalculator;
use abi_base::{Align, HasDataLayout, Integer, StructKind, TargetDataLayout};
use abi_index::{Idx, IndexVec};
use abi_scalar::{LayoutCalculatorError, LayoutHandle, ReprOptions};
use abi_univariant::{UnivariantLayout, UnivariantLayouts, greatest_align, list_of_fields};
use std::alloc::Global;

/// The greatest alignment of all variants' fields, and no less than this one.
pub(crate) fn align_with_all<FieldIdx: Idx, VariantIdx: Idx, F: LayoutHandle<FieldIdx, VariantIdx>>(
    own: Align,
    variants: &[IndexVec<FieldIdx, F>],
) -> Align
    ensures { result ≡ align_with_all own (map (map F.layout_of) variants.now) }
{
    let mut greatest = own;
    for fields in variants {
        greatest = greatest_align(greatest, fields.as_slice().as_raw());
    }
    greatest
}

/// Of which kind the variants' lists are: each lies behind the tag; under C behind as much as a union of them would.
pub(crate) fn behind_tag<FieldIdx: Idx, VariantIdx: Idx, F: LayoutHandle<FieldIdx, VariantIdx>>(
    dl: &TargetDataLayout,
    repr: &ReprOptions,
    tag: Integer,
    variants: &[IndexVec<FieldIdx, F>],
) -> StructKind
    requires data_layout { IsLawfulDataLayout dl.now }
    requires fields { All (All (λ f. IsLawfulLayout dl.now (F.layout_of f))) variants.now }
    ensures kind { result ≡ behind_tag dl.now repr.now tag (map (map F.layout_of) variants.now) }
    ensures prefix { IsWellFormedPrefix result (size_bound dl.now) }
{
    let own = tag.align(dl);
    let align = if repr.c() {
        align_with_all(own, variants)
    } else {
        own
    };
    StructKind::Prefixed(tag.size(), align)
}

impl<Cx: HasDataLayout> LayoutCalculator<Cx> {
    /// The layout of one variant's fields as a list of this kind, which is sized.
    #[inline(never)]
    pub(crate) fn list_of_variant<
        FieldIdx: Idx,
        VariantIdx: Idx,
        F: LayoutHandle<FieldIdx, VariantIdx> + Copy,
    >(
        &self,
        alloc: Global,
        fields: &IndexVec<FieldIdx, F>,
        repr: &ReprOptions,
        kind: &StructKind,
    ) -> Result<UnivariantLayout<FieldIdx, VariantIdx>, LayoutCalculatorError<F>>
        requires data_layout { IsLawfulDataLayout (Cx.target self.now.cx) }
        requires fields { All (λ f. IsLawfulLayout (Cx.target self.now.cx)
            (F.layout_of f)) fields.now }
        requires repr { HasLawfulAligns repr.now }
        requires prefix { IsWellFormedPrefix kind.now (size_bound (Cx.target self.now.cx)) }
        requires sized { IsSized kind.now }
        ensures within { length fields.now ≤ FieldIdx.MAX_INDEX + 1 }
        ensures good { IfOk result (IsGoodList F.layout_of FieldIdx.at (VariantIdx.at 0)
            (Cx.target self.now.cx) repr.now kind.now fields.now) }
        ensures fault { IfErr result (λ e.
            IsUnivariantError F.layout_of (Cx.target self.now.cx) repr.now kind.now fields.now e ⊎
            (e ≡ LayoutCalculatorError.OutOfMemory)) }
    {
        list_of_fields(alloc, self.cx.data_layout(), fields.as_slice(), repr, *kind)
    }

    /// The layout of each variant's fields as a list of this kind, which is sized. Refused as the first variant is
    /// whose fields have none.
    pub(crate) fn lists_of_variants<
        FieldIdx: Idx,
        VariantIdx: Idx,
        F: LayoutHandle<FieldIdx, VariantIdx> + Copy,
    >(
        &self,
        alloc: Global,
        variants: &[IndexVec<FieldIdx, F>],
        repr: &ReprOptions,
        kind: &StructKind,
    ) -> Result<UnivariantLayouts<FieldIdx, VariantIdx>, LayoutCalculatorError<F>>
        requires data_layout { IsLawfulDataLayout (Cx.target self.now.cx) }
        requires fields { All (All (λ f. IsLawfulLayout (Cx.target self.now.cx)
            (F.layout_of f))) variants.now }
        requires repr { HasLawfulAligns repr.now }
        requires prefix { IsWellFormedPrefix kind.now (size_bound (Cx.target self.now.cx)) }
        requires sized { IsSized kind.now }
        ensures exact { IfOk result (λ lists.
            AreListLayouts F.layout_of FieldIdx.at (VariantIdx.at 0)
            (Cx.target self.now.cx) repr.now kind.now variants.now lists) }
        ensures good { IfOk result (λ lists.
            AreGoodLists F.layout_of FieldIdx.at (VariantIdx.at 0)
            (Cx.target self.now.cx) repr.now kind.now variants.now lists) }
        ensures within { IfOk result
            (λ lists. All (λ fields. length fields ≤ FieldIdx.MAX_INDEX + 1) variants.now) }
        ensures lists { IfOk result (λ lists. AreListsOf variants.now lists) }
        ensures lawful { IfOk result (λ lists. All (IsLawfulLayout (Cx.target self.now.cx)) lists) }
        ensures fault { IfErr result (λ e. IsFirstListError F.layout_of FieldIdx.at
            (VariantIdx.at 0) (Cx.target self.now.cx) repr.now kind.now variants.now e ⊎
            (e ≡ LayoutCalculatorError.OutOfMemory)) }
    {
        let mut lists = UnivariantLayouts::with_capacity(alloc, variants.len())?;
        for fields in variants {
            let list = match self.list_of_variant(alloc, fields, repr, kind) {
                Ok(list) => list,
                Err(error) => return Err(error),
            };
            lists.push(list)?;
        }
        Ok(lists)
    }
}
