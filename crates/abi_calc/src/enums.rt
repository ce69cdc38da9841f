//! Types with variants: which way they are laid out, and how a tag distinguishes the variants.

mod bounds;
mod choice;
mod discriminants;
mod growth;
mod in_niche;
pub(crate) mod lists;
mod niche;
mod payload;
mod several;
mod single;
mod strategy;
pub(crate) mod tagged;

ghost use Rattle.std.specs.Prelude.{◌≡◌, All, IfOk, IsTrue, false, length, map};
ghost use Rattle.std.specs.Iterator.{IsFinite};
ghost use Rattle.std.specs.Iterator.Runs.{EachRunFrom, WholeRun};
ghost use Rattle.abi_index.specs.Slice.{items_of};
ghost use Rattle.abi_base.specs.DataLayout.{IsLawfulDataLayout};
ghost use Rattle.abi_scalar.specs.Lawful.{IsLawfulLayout};
ghost use Rattle.abi_univariant.specs.List.{HasLawfulAligns};
ghost use Rattle.abi_calc.specs.Enums.Answer.{HasOneEach, IsTypeAnswer};
ghost use Rattle.abi_calc.specs.Enums.EnumStrategy.{strategy_of};
ghost use Rattle.abi_calc.specs.Enums.Promised.{IsStructOrEnum};
ghost use Rattle.abi_calc.specs.Enums.Several.{AreWellFormedTags};

use crate::calculator::LayoutCalculator;
use crate::enums::single::single_kind;
use crate::enums::strategy::{EnumStrategy, strategy_of};
use abi_base::{HasDataLayout, Integer, NicheOptimizations};
use abi_index::{Idx, IndexSlice, IndexVec};
use abi_scalar::{
    LayoutCalculatorError, LayoutData, LayoutHandle, RangeFrom, RangeToInclusive, ReprOptions,
};
use std::alloc::Global;

impl<Cx: HasDataLayout> LayoutCalculator<Cx> {
    /// The layout of a struct, from the fields of its one variant, or of an enum, from those of each.
    ///
    /// A variant is absent where some of its fields has no values and none takes room, unless C or an integer is asked
    /// for. An enum without a present variant is `never_type`. A struct, and an enum with one present variant that asks
    /// for neither C nor an integer, is the list of that variant's fields; a struct's is maybe unsized where it has
    /// fields and `always_sized` is false. There alone `niche_optimizations` counts: where niches are disabled, the
    /// type has none.
    ///
    /// Every other enum has a tag before the fields of its variants, or one that lies in a niche of the variant that is
    /// greatest, the last of equals. The layout with a niche is taken where it is smaller, or as large with more free
    /// numbers left. `discr_range_of_repr` gives the tag's integer, and whether it is signed, from the least and the
    /// greatest number that it has to hold, and `discriminants` gives each variant's discriminant, as the number of 128
    /// bits that it is in two's complement (Rust Reference, "Type layout" and "Enumerations").
    ///
    /// A list is refused as by `layout_of_univariant`. Another enum is refused as `ReprConflict` where it is packed,
    /// else as the first of its variants is, laid out behind the tag, and as `SizeOverflow` where the greatest of them,
    /// rounded up to the greatest alignment, isn't below the data layout's bound, though there be a layout with a
    /// niche. `OutOfMemory` may come at any time.
    ///
    /// The data layout, the fields' layouts and the alignments of `repr` have to be lawful, and a struct has one
    /// variant. Each variant has one discriminant; the integer is no wider than the type that `repr` names for
    /// discriminants, and by it those of the variants that may have values differ.
    pub fn layout_of_struct_or_enum<
        FieldIdx: Idx,
        VariantIdx: Idx,
        F: LayoutHandle<FieldIdx, VariantIdx> + Copy,
        D: Fn(RangeFrom<i128>, RangeToInclusive<u128>) -> (Integer, bool),
        I: Iterator<Item = (VariantIdx, u128)>,
    >(
        &self,
        alloc: Global,
        repr: &ReprOptions,
        variants: IndexSlice<'_, VariantIdx, IndexVec<FieldIdx, F>>,
        is_enum: bool,
        niche_optimizations: NicheOptimizations,
        discr_range_of_repr: D,
        discriminants: I,
        always_sized: bool,
    ) -> Result<LayoutData<FieldIdx, VariantIdx>, LayoutCalculatorError<F>>
    where
        D: Drop,
        I: Drop,
        requires data_layout { IsLawfulDataLayout (Cx.target self.now.cx) }
        requires fields { All (All (λ f. IsLawfulLayout (Cx.target self.now.cx)
            (F.layout_of f))) (items_of variants) }
        requires repr { HasLawfulAligns repr.now }
        requires one { is_enum ≡ false → length (items_of variants) ≡ 1 }
        requires callable { D.IsAlwaysCallable discr_range_of_repr }
        requires can { I.can_next discriminants }
        requires ends { IsFinite (I.remaining discriminants) }
        requires each { EachRunFrom I.next_gives discriminants (λ run. IsTrue run.whole →
            HasOneEach VariantIdx.number (length (items_of variants)) run.items ×
            AreWellFormedTags VariantIdx.number (Cx.target self.now.cx) repr.now
            (D.post discr_range_of_repr) (map (map F.layout_of) (items_of variants)) run.items) }
        ensures exact { IsTypeAnswer F.layout_of FieldIdx.at FieldIdx.number VariantIdx.at VariantIdx.number
            (Cx.target self.now.cx) repr.now (items_of variants.entry) is_enum always_sized niche_optimizations
            (D.post discr_range_of_repr) (λ items. WholeRun I.next_gives discriminants (λ run. items ≡ run.items))
            (strategy_of is_enum repr.now (map (map F.layout_of) (items_of variants.entry))) result }
        ensures lawful { IfOk result (IsLawfulLayout (Cx.target self.now.cx)) }
        ensures promised { IsStructOrEnum F.layout_of FieldIdx.at FieldIdx.number VariantIdx.at VariantIdx.number
            (Cx.target self.now.cx) repr.now is_enum always_sized niche_optimizations
            (D.post discr_range_of_repr) I.next_gives discriminants (items_of variants.entry) result }
    {
        let all = variants.as_raw();
        match strategy_of(is_enum, repr, all) {
            EnumStrategy::NoValue => Ok(LayoutData::never_type(&self.cx)),
            EnumStrategy::OneList(index) => {
                let fields = &all[index];
                let kind = single_kind(is_enum, always_sized, fields.len());
                self.layout_of_single(
                    alloc,
                    fields.as_slice(),
                    VariantIdx::new(index),
                    repr,
                    kind,
                    niche_optimizations,
                )
            }
            EnumStrategy::Several => {
                self.layout_of_several(alloc, repr, all, discr_range_of_repr, discriminants)
            }
        }
    }
}
