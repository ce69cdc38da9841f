//! Lists of fields in an order that is handed in.

ghost use Rattle.std.specs.Prelude.{All, IsTrue, length};
ghost use Rattle.abi_index.specs.Slice.{items_of};
ghost use Rattle.abi_base.specs.DataLayout.{IsLawfulDataLayout, size_bound};
ghost use Rattle.abi_scalar.specs.Lawful.{IsLawfulLayout};
ghost use Rattle.abi_scalar.specs.Repr.{may_randomize};
ghost use Rattle.abi_univariant.specs.List.{HasLawfulAligns};
ghost use Rattle.abi_univariant.specs.Placement.{IsWellFormedPrefix, IsNonEmptyIfUnsized};
ghost use Rattle.abi_calc.specs.Univariant.{IsUnivariantInOrder};

use crate::calculator::LayoutCalculator;
use abi_base::{HasDataLayout, StructKind};
use abi_index::{Idx, IndexSlice};
use abi_scalar::{LayoutCalculatorError, LayoutData, LayoutHandle, ReprOptions};
use abi_univariant::layout_of_fields_in_order;
use std::alloc::Global;

impl<Cx: HasDataLayout> LayoutCalculator<Cx> {
    /// The layout of the fields that `layout_of_univariant` takes, one after another in memory in this order, which may
    /// leave more padding than the least. The niche is the greatest of the fields', of equals the first in memory.
    ///
    /// Refused first of all as `BadOrder` where the order doesn't name the index of each field once, or moves the last
    /// field of a maybe-unsized list. Then as `UnexpectedUnsized` with a field whose size isn't known beforehand,
    /// unless it is the last of a maybe-unsized list, and as `SizeOverflow` where a field's end or the size isn't below
    /// the data layout's bound: the first fault in memory order is reported. `OutOfMemory` may come at any time.
    ///
    /// What `layout_of_univariant` asks is asked here, and that the `repr` leaves the order free and lets it be
    /// shuffled, as `ReprOptions::can_randomize_type_layout` says. This call is this crate's own.
    pub fn layout_of_univariant_in_order<
        FieldIdx: Idx,
        VariantIdx: Idx,
        F: LayoutHandle<FieldIdx, VariantIdx> + Copy,
    >(
        &self,
        alloc: Global,
        fields: IndexSlice<'_, FieldIdx, F>,
        repr: &ReprOptions,
        kind: StructKind,
        order: &[FieldIdx],
    ) -> Result<LayoutData<FieldIdx, VariantIdx>, LayoutCalculatorError<F>>
        requires data_layout { IsLawfulDataLayout (Cx.target self.now.cx) }
        requires fields { All (λ f. IsLawfulLayout (Cx.target self.now.cx)
            (F.layout_of f)) (items_of fields) }
        requires repr { HasLawfulAligns repr.now }
        requires prefix { IsWellFormedPrefix kind (size_bound (Cx.target self.now.cx)) }
        requires tail { IsNonEmptyIfUnsized kind (length (items_of fields)) }
        requires random { IsTrue (may_randomize repr.now) }
        ensures { IsUnivariantInOrder F.layout_of FieldIdx.at FieldIdx.number (VariantIdx.at 0)
            (Cx.target self.now.cx) repr.now kind order.now (items_of fields.entry) result }
    {
        layout_of_fields_in_order(alloc, self.cx.data_layout(), fields, repr, kind, order)
    }
}
