//! Lists of fields, one after another in memory.

ghost use Rattle.std.specs.Prelude.{All, length};
ghost use Rattle.abi_index.specs.Slice.{items_of};
ghost use Rattle.abi_base.specs.DataLayout.{IsLawfulDataLayout, size_bound};
ghost use Rattle.abi_scalar.specs.Lawful.{IsLawfulLayout};
ghost use Rattle.abi_univariant.specs.List.{HasLawfulAligns};
ghost use Rattle.abi_univariant.specs.Placement.{IsWellFormedPrefix, IsNonEmptyIfUnsized};
ghost use Rattle.abi_calc.specs.Univariant.{IsUnivariant};

use crate::calculator::LayoutCalculator;
use abi_base::{HasDataLayout, StructKind};
use abi_index::{Idx, IndexSlice};
use abi_scalar::{LayoutCalculatorError, LayoutData, LayoutHandle, ReprOptions};
use abi_univariant::layout_of_fields;
use std::alloc::Global;

impl<Cx: HasDataLayout> LayoutCalculator<Cx> {
    /// The layout of a struct's or a tuple's fields, or of those of an enum's variant, one after another: each at
    /// the least multiple of its alignment that no field before it reaches. With `packed` no alignment counts for
    /// more than the pack's; fields after a prefix begin behind it.
    ///
    /// Fields stay in source order where the `repr` asks for C, a vector, `linear` or an integer. Else they are
    /// moved so that the list has the least size of all orders, the last field of a maybe-unsized list staying
    /// last; among such orders, niches come near the start, or near the end where that leaves more room.
    ///
    /// Refused as `UnexpectedUnsized` with a field whose size isn't known beforehand, unless it is the last of a
    /// maybe-unsized list, and as `SizeOverflow` where a field's end or the size isn't below the data layout's
    /// bound: the first fault in memory order is reported. `OutOfMemory` may come at any time.
    ///
    /// The data layout, the fields' layouts and the alignments of `repr` and `kind` have to be lawful, a prefix
    /// smaller than the bound, and a maybe-unsized list not empty.
    pub fn layout_of_univariant<
        FieldIdx: Idx,
        VariantIdx: Idx,
        F: LayoutHandle<FieldIdx, VariantIdx> + Copy,
    >(
        &self,
        alloc: Global,
        fields: IndexSlice<'_, FieldIdx, F>,
        repr: &ReprOptions,
        kind: StructKind,
    ) -> Result<LayoutData<FieldIdx, VariantIdx>, LayoutCalculatorError<F>>
        requires data_layout { IsLawfulDataLayout (Cx.target self.now.cx) }
        requires fields { All (λ f. IsLawfulLayout (Cx.target self.now.cx)
            (F.layout_of f)) (items_of fields) }
        requires repr { HasLawfulAligns repr.now }
        requires prefix { IsWellFormedPrefix kind (size_bound (Cx.target self.now.cx)) }
        requires tail { IsNonEmptyIfUnsized kind (length (items_of fields)) }
        ensures { IsUnivariant F.layout_of FieldIdx.at FieldIdx.number (VariantIdx.at 0)
            (Cx.target self.now.cx) repr.now kind (items_of fields.entry) result }
    {
        layout_of_fields(alloc, self.cx.data_layout(), fields, repr, kind)
    }
}
