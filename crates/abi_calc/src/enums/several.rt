//! Enums of several variants: with a tag, or with a niche where that is the better layout.

ghost use Rattle.std.specs.Prelude.{◌≡◌, ◌<◌, ◌≤◌, ◌+◌, ◌⊎◌, All, Err, IfOk, IfSome, IsTrue, None, Ok, Option, Some, length, map};
ghost use Rattle.std.specs.Iterator.{IsFinite};
ghost use Rattle.std.specs.Iterator.Runs.{EachRunFrom, WholeRun};
ghost use Rattle.abi_base.specs.DataLayout.{IsLawfulDataLayout};
ghost use Rattle.abi_scalar.specs.Lawful.{IsLawfulLayout, IsLawfulNiche};
ghost use Rattle.abi_univariant.specs.List.{HasLawfulAligns};
ghost use Rattle.abi_calc.specs.Enums.Beside.{AreDistinguished};
ghost use Rattle.abi_calc.specs.Enums.Answer.{HasOneEach};
ghost use Rattle.abi_calc.specs.Enums.Bounds.{least_whole, most_free};
ghost use Rattle.abi_calc.specs.Enums.Choice.{IsNicheAnswer, preferred_layout};
ghost use Rattle.abi_calc.specs.Enums.Discriminants.{counted_discriminants};
ghost use Rattle.abi_calc.specs.Enums.Lists.{AreGoodLists, AreListLayouts};
ghost use Rattle.abi_calc.specs.Enums.Promised.{AreSizedVariants, IsSizedEnum};
ghost use Rattle.abi_calc.specs.Enums.Several.{AreWellFormedTags, HasEnumSize, IsAskedFor, IsBestAnswer, IsBetterAnswer, IsEnumAnswer, IsSeveralAnswer};

use crate::calculator::LayoutCalculator;
use crate::enums::bounds::{FirstLayout, tag_wins, which_first, wins};
use crate::enums::choice::preferred_layout;
use crate::enums::discriminants::{
    TagRequest, collect_discriminants, counted_discriminants, discr_range,
};
use abi_base::{HasDataLayout, Integer, Size, TargetDataLayout};
use abi_index::{Idx, IndexVec};
use abi_scalar::{
    LayoutCalculatorError, LayoutData, LayoutHandle, RangeFrom, RangeToInclusive, ReprOptions,
};
use std::alloc::Global;

/// The tag's integer, and whether it is signed, that is answered where it has to hold these discriminants.
fn tag_integer<D: Fn(RangeFrom<i128>, RangeToInclusive<u128>) -> (Integer, bool)>(
    dl: &TargetDataLayout,
    repr: &ReprOptions,
    values: &[u128],
    discr_range_of_repr: D,
) -> (Integer, bool)
where
    D: Drop,
    requires data_layout { IsLawfulDataLayout dl.now }
    requires callable { D.IsAlwaysCallable discr_range_of_repr }
    ensures { IsAskedFor dl.now repr.now (D.post discr_range_of_repr) values.now result.0 result.1 }
{
    let asked = discr_range(dl, repr, values);
    discr_range_of_repr(
        RangeFrom { start: asked.least },
        RangeToInclusive {
            last: asked.greatest,
        },
    )
}

impl<Cx: HasDataLayout> LayoutCalculator<Cx> {
    /// The better of this layout with a niche and of the one with a tag, which is asked for as this integer and holds
    /// these discriminants. Where the one with a tag can't be the better one, it isn't made. Refused as it is, though
    /// there be one with a niche.
    fn layout_beside_niche<
        FieldIdx: Idx,
        VariantIdx: Idx,
        F: LayoutHandle<FieldIdx, VariantIdx> + Copy,
    >(
        &self,
        alloc: Global,
        repr: &ReprOptions,
        variants: &[IndexVec<FieldIdx, F>],
        tag: TagRequest<'_>,
        niche: LayoutData<FieldIdx, VariantIdx>,
    ) -> Result<LayoutData<FieldIdx, VariantIdx>, LayoutCalculatorError<F>>
        requires data_layout { IsLawfulDataLayout (Cx.target self.now.cx) }
        requires fields { All (All (λ f. IsLawfulLayout (Cx.target self.now.cx)
            (F.layout_of f))) variants.now }
        requires repr { HasLawfulAligns repr.now }
        requires unpacked { repr.now.pack ≡ None }
        requires count { length variants.now ≤ VariantIdx.MAX_INDEX + 1 }
        requires some { 0 < length variants.now }
        requires niche { IsNicheAnswer AreGoodLists F.layout_of FieldIdx.at VariantIdx.at
            (Cx.target self.now.cx) repr.now variants.now (Some niche) }
        requires within { All (λ fields. length fields ≤ FieldIdx.MAX_INDEX + 1) variants.now }
        ensures exact { (result ≡ Err LayoutCalculatorError.OutOfMemory) ⊎ IsBetterAnswer
            F.layout_of FieldIdx.at FieldIdx.number (VariantIdx.at 0) (Cx.target self.now.cx) repr.now
            tag.entry.integer tag.entry.is_signed tag.entry.values.now variants.now (Some niche) result }
    {
        let dl = self.cx.data_layout();
        if wins(dl, tag.integer, &niche, variants) {
            return Ok(niche);
        }
        match self.layout_of_tagged(alloc, variants, repr, tag) {
            Ok(tagged) => Ok(preferred_layout(dl, tagged, niche)),
            Err(error) => Err(error),
        }
    }

    /// The better of both layouts, where that with a niche is made first, and that with a tag only if it may be better.
    fn layout_niche_first<
        FieldIdx: Idx,
        VariantIdx: Idx,
        F: LayoutHandle<FieldIdx, VariantIdx> + Copy,
    >(
        &self,
        alloc: Global,
        repr: &ReprOptions,
        variants: &[IndexVec<FieldIdx, F>],
        tag: TagRequest<'_>,
    ) -> Result<LayoutData<FieldIdx, VariantIdx>, LayoutCalculatorError<F>>
        requires data_layout { IsLawfulDataLayout (Cx.target self.now.cx) }
        requires fields { All (All (λ f. IsLawfulLayout (Cx.target self.now.cx)
            (F.layout_of f))) variants.now }
        requires repr { HasLawfulAligns repr.now }
        requires unpacked { repr.now.pack ≡ None }
        requires count { length variants.now ≤ VariantIdx.MAX_INDEX + 1 }
        requires some { 0 < length variants.now }
        ensures exact { (result ≡ Err LayoutCalculatorError.OutOfMemory) ⊎ IsBestAnswer F.layout_of
            FieldIdx.at FieldIdx.number VariantIdx.at (Cx.target self.now.cx) repr.now
            tag.entry.integer tag.entry.is_signed tag.entry.values.now variants.now result }
        ensures within { IfOk result
            (λ l. All (λ fields. length fields ≤ FieldIdx.MAX_INDEX + 1) variants.now) }
    {
        match self.layout_of_niche(alloc, variants, repr) {
            Ok(Some(niche)) => self.layout_beside_niche(alloc, repr, variants, tag, niche),
            Ok(None) => self.layout_of_tagged(alloc, variants, repr, tag),
            Err(want) => Err(want),
        }
    }

    /// The better of this layout with a tag and of the one with a niche, if there is one.
    fn layout_beside_tag<
        FieldIdx: Idx,
        VariantIdx: Idx,
        F: LayoutHandle<FieldIdx, VariantIdx> + Copy,
    >(
        &self,
        alloc: Global,
        repr: &ReprOptions,
        variants: &[IndexVec<FieldIdx, F>],
        tagged: LayoutData<FieldIdx, VariantIdx>,
    ) -> Result<LayoutData<FieldIdx, VariantIdx>, LayoutCalculatorError<F>>
        requires data_layout { IsLawfulDataLayout (Cx.target self.now.cx) }
        requires fields { All (All (λ f. IsLawfulLayout (Cx.target self.now.cx)
            (F.layout_of f))) variants.now }
        requires repr { HasLawfulAligns repr.now }
        requires count { length variants.now ≤ VariantIdx.MAX_INDEX + 1 }
        requires niche { IfSome tagged.largest_niche
            (IsLawfulNiche (Cx.target self.now.cx) tagged.size) }
        ensures exact { (result ≡ Err LayoutCalculatorError.OutOfMemory) ⊎
            ((niche : Option (LayoutData FieldIdx VariantIdx)) × IsNicheAnswer AreListLayouts
            F.layout_of FieldIdx.at VariantIdx.at (Cx.target self.now.cx) repr.now variants.now niche ×
            (result ≡ Ok (preferred_layout (Cx.target self.now.cx) tagged niche))) }
    {
        match self.layout_of_niche(alloc, variants, repr) {
            Ok(Some(niche)) => Ok(preferred_layout(self.cx.data_layout(), tagged, niche)),
            Ok(None) => Ok(tagged),
            Err(want) => Err(want),
        }
    }

    /// The better of both layouts, where that with a tag is made first, and that with a niche only if it may be better:
    /// that has at least so many bytes, and at most so many free numbers.
    fn layout_tag_first<
        FieldIdx: Idx,
        VariantIdx: Idx,
        F: LayoutHandle<FieldIdx, VariantIdx> + Copy,
    >(
        &self,
        alloc: Global,
        repr: &ReprOptions,
        variants: &[IndexVec<FieldIdx, F>],
        tag: TagRequest<'_>,
        bounds: (Size, u128),
    ) -> Result<LayoutData<FieldIdx, VariantIdx>, LayoutCalculatorError<F>>
        requires data_layout { IsLawfulDataLayout (Cx.target self.now.cx) }
        requires fields { All (All (λ f. IsLawfulLayout (Cx.target self.now.cx)
            (F.layout_of f))) variants.now }
        requires repr { HasLawfulAligns repr.now }
        requires unpacked { repr.now.pack ≡ None }
        requires count { length variants.now ≤ VariantIdx.MAX_INDEX + 1 }
        requires some { 0 < length variants.now }
        requires least { bounds.0
            ≡ least_whole (Cx.target self.now.cx) (map (map F.layout_of) variants.now) }
        requires free { bounds.1
            ≡ most_free (Cx.target self.now.cx) repr.now (map (map F.layout_of) variants.now) }
        ensures exact { (result ≡ Err LayoutCalculatorError.OutOfMemory) ⊎ IsBestAnswer F.layout_of
            FieldIdx.at FieldIdx.number VariantIdx.at (Cx.target self.now.cx) repr.now
            tag.entry.integer tag.entry.is_signed tag.entry.values.now variants.now result }
        ensures within { IfOk result
            (λ l. All (λ fields. length fields ≤ FieldIdx.MAX_INDEX + 1) variants.now) }
    {
        match self.layout_of_tagged(alloc, variants, repr, tag) {
            Ok(tagged) => {
                if tag_wins(self.cx.data_layout(), bounds.0, bounds.1, &tagged) {
                    return Ok(tagged);
                }
                self.layout_beside_tag(alloc, repr, variants, tagged)
            }
            Err(refusal) => Err(refusal),
        }
    }

    /// The better of the layout with a tag, which is asked for as this integer and holds these discriminants, and of the
    /// one with a niche, if there is one. Refused as the one with a tag is, though there be one with a niche.
    fn better_layout<FieldIdx: Idx, VariantIdx: Idx, F: LayoutHandle<FieldIdx, VariantIdx> + Copy>(
        &self,
        alloc: Global,
        repr: &ReprOptions,
        variants: &[IndexVec<FieldIdx, F>],
        tag: TagRequest<'_>,
    ) -> Result<LayoutData<FieldIdx, VariantIdx>, LayoutCalculatorError<F>>
        requires data_layout { IsLawfulDataLayout (Cx.target self.now.cx) }
        requires fields { All (All (λ f. IsLawfulLayout (Cx.target self.now.cx)
            (F.layout_of f))) variants.now }
        requires repr { HasLawfulAligns repr.now }
        requires unpacked { repr.now.pack ≡ None }
        requires count { length variants.now ≤ VariantIdx.MAX_INDEX + 1 }
        requires some { 0 < length variants.now }
        ensures exact { (result ≡ Err LayoutCalculatorError.OutOfMemory) ⊎ IsBestAnswer F.layout_of
            FieldIdx.at FieldIdx.number VariantIdx.at (Cx.target self.now.cx) repr.now
            tag.entry.integer tag.entry.is_signed tag.entry.values.now variants.now result }
        ensures within { IfOk result
            (λ l. All (λ fields. length fields ≤ FieldIdx.MAX_INDEX + 1) variants.now) }
    {
        match which_first(self.cx.data_layout(), repr, tag.integer, variants) {
            FirstLayout::OnlyTagged => { self.layout_of_tagged(alloc, variants, repr, tag) }
            FirstLayout::Tagged { least, free } => {
                self.layout_tag_first(alloc, repr, variants, tag, (least, free))
            }
            FirstLayout::Niche => self.layout_niche_first(alloc, repr, variants, tag),
        }
    }

    /// The layout of an enum of several variants that isn't packed, from the discriminants of all: the better of the
    /// one with a tag and, if there is one, that with a niche. Refused as the layout with a tag is, though there be one
    /// with a niche.
    fn layout_of_enum<
        FieldIdx: Idx,
        VariantIdx: Idx,
        F: LayoutHandle<FieldIdx, VariantIdx> + Copy,
        D: Fn(RangeFrom<i128>, RangeToInclusive<u128>) -> (Integer, bool),
    >(
        &self,
        alloc: Global,
        repr: &ReprOptions,
        variants: &[IndexVec<FieldIdx, F>],
        discr_range_of_repr: D,
        discriminants: &[(VariantIdx, u128)],
    ) -> Result<LayoutData<FieldIdx, VariantIdx>, LayoutCalculatorError<F>>
    where
        D: Drop,
        requires data_layout { IsLawfulDataLayout (Cx.target self.now.cx) }
        requires fields { All (All (λ f. IsLawfulLayout (Cx.target self.now.cx)
            (F.layout_of f))) variants.now }
        requires repr { HasLawfulAligns repr.now }
        requires unpacked { repr.now.pack ≡ None }
        requires count { length variants.now ≤ VariantIdx.MAX_INDEX + 1 }
        requires some { 0 < length variants.now }
        requires named { All (λ item.
            VariantIdx.number item.0 < length variants.now) discriminants.now }
        requires callable { D.IsAlwaysCallable discr_range_of_repr }
        requires tags { AreWellFormedTags VariantIdx.number (Cx.target self.now.cx) repr.now
            (D.post discr_range_of_repr) (map (map F.layout_of) variants.now) discriminants.now }
        ensures exact { IsEnumAnswer F.layout_of FieldIdx.at
            FieldIdx.number VariantIdx.at VariantIdx.number (Cx.target self.now.cx) repr.now
            (D.post discr_range_of_repr) variants.now discriminants.now result }
        ensures lawful { IfOk result (IsLawfulLayout (Cx.target self.now.cx)) }
        ensures within { IfOk result
            (λ l. All (λ fields. length fields ≤ FieldIdx.MAX_INDEX + 1) variants.now) }
        ensures tag_distinguishes { IfOk result (AreDistinguished (Cx.target self.now.cx) VariantIdx.number
            (map (map F.layout_of) variants.now) discriminants.now) }
        ensures sized { IsSizedEnum F.layout_of
            (HasEnumSize F.layout_of FieldIdx.at (VariantIdx.at 0)) (Cx.target self.now.cx) repr.now
            (D.post discr_range_of_repr) (counted_discriminants VariantIdx.number repr.now
            (map (map F.layout_of) variants.now) discriminants.now) variants.now result }
    {
        let values = counted_discriminants(alloc, repr, variants, discriminants)?;
        let asked = tag_integer(self.cx.data_layout(), repr, &values, discr_range_of_repr);
        let tag = TagRequest {
            integer: asked.0,
            is_signed: asked.1,
            values: &values,
        };
        self.better_layout(alloc, repr, variants, tag)
    }

    /// The layout of an enum of several variants, from the discriminants of all, which the iterator gives. Refused as
    /// `ReprConflict` where the enum is packed, whatever its fields.
    pub(crate) fn layout_of_several<
        FieldIdx: Idx,
        VariantIdx: Idx,
        F: LayoutHandle<FieldIdx, VariantIdx> + Copy,
        D: Fn(RangeFrom<i128>, RangeToInclusive<u128>) -> (Integer, bool),
        I: Iterator<Item = (VariantIdx, u128)>,
    >(
        &self,
        alloc: Global,
        repr: &ReprOptions,
        variants: &[IndexVec<FieldIdx, F>],
        discr_range_of_repr: D,
        discriminants: I,
    ) -> Result<LayoutData<FieldIdx, VariantIdx>, LayoutCalculatorError<F>>
    where
        D: Drop,
        I: Drop,
        requires data_layout { IsLawfulDataLayout (Cx.target self.now.cx) }
        requires fields { All (All (λ f. IsLawfulLayout (Cx.target self.now.cx) (F.layout_of f))) variants.now }
        requires repr { HasLawfulAligns repr.now }
        requires count { length variants.now ≤ VariantIdx.MAX_INDEX + 1 }
        requires some { 0 < length variants.now }
        requires callable { D.IsAlwaysCallable discr_range_of_repr }
        requires can { I.can_next discriminants }
        requires ends { IsFinite (I.remaining discriminants) }
        requires each { EachRunFrom I.next_gives discriminants (λ run. IsTrue run.whole →
            HasOneEach VariantIdx.number (length variants.now) run.items ×
            AreWellFormedTags VariantIdx.number (Cx.target self.now.cx) repr.now
            (D.post discr_range_of_repr) (map (map F.layout_of) variants.now) run.items) }
        ensures exact { IsSeveralAnswer
            F.layout_of FieldIdx.at FieldIdx.number VariantIdx.at VariantIdx.number
            (Cx.target self.now.cx) repr.now (D.post discr_range_of_repr) variants.now
            (λ items. WholeRun I.next_gives discriminants (λ run. items ≡ run.items)) result }
        ensures lawful { IfOk result (IsLawfulLayout (Cx.target self.now.cx)) }
        ensures within { IfOk result (λ l. All (λ fields. length fields ≤ FieldIdx.MAX_INDEX + 1) variants.now) }
        ensures tag_distinguishes { IfOk result (λ l. WholeRun I.next_gives discriminants (λ run. AreDistinguished
            (Cx.target self.now.cx) VariantIdx.number (map (map F.layout_of) variants.now) run.items l)) }
        ensures sized { AreSizedVariants F.layout_of FieldIdx.at (VariantIdx.at 0) VariantIdx.number
            (Cx.target self.now.cx) repr.now (D.post discr_range_of_repr) I.next_gives discriminants
            variants.now result }
    {
        if repr.packed() {
            return Err(LayoutCalculatorError::ReprConflict);
        }
        let items = collect_discriminants(alloc, variants.len(), discriminants)?;
        self.layout_of_enum(alloc, repr, variants, discr_range_of_repr, &items)
    }
}
