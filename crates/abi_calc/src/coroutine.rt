//! Coroutines: their states share bytes behind the fields that every state has.

mod layout;
mod lists;
mod promotion;
mod states;

ghost use Rattle.std.specs.Prelude.{◌≡◌, ◌≢◌, ◌+◌, ◌<◌, ◌≤◌, All, IfOk, length, map};
ghost use Rattle.std.specs.List.{AllPairs};
ghost use Rattle.abi_base.specs.DataLayout.{IsLawfulDataLayout};
ghost use Rattle.abi_index.specs.BitSet.{domain_size};
ghost use Rattle.abi_index.specs.Relation.{Relation};
ghost use Rattle.abi_index.specs.Slice.{items_of};
ghost use Rattle.abi_scalar.specs.declared.scalar.Scalar.{Scalar};
ghost use Rattle.abi_scalar.specs.Lawful.{IsLawfulLayout};
ghost use Rattle.abi_scalar.specs.Simple.{scalar_layout};
ghost use Rattle.abi_calc.specs.Coroutine.Answer.{IsPromotedAnswer, IsStatesAnswer};
ghost use Rattle.abi_calc.specs.Coroutine.Requirements.{AreStates, GivesTagLayout};
ghost use Rattle.abi_calc.specs.Coroutine.Clash.{IsDistinguishedByState};
ghost use Rattle.abi_calc.specs.Coroutine.Layout.{IsStateTag};
ghost use Rattle.abi_calc.specs.Coroutine.Promised.{ArePromotedBy, HasLocalsApart, IsGoodCoroutine, IsSizedCoroutine, IsSizedPromoted};

use crate::calculator::LayoutCalculator;
pub use crate::coroutine::layout::state_tag;
use crate::coroutine::layout::{CoroutineStates, layout_of_lists};
use crate::coroutine::lists::{default_repr, first_fields, state_list_kind};
use crate::coroutine::promotion::promoted_locals;
use abi_base::{HasDataLayout, StructKind};
use abi_index::{BitMatrix, DenseBitSet, Idx, IndexSlice, IndexVec};
use abi_scalar::{LayoutCalculatorError, LayoutData, LayoutHandle, Scalar};
use std::alloc::Global;

impl<Cx: HasDataLayout> LayoutCalculator<Cx> {
    /// The layout of a coroutine of which these locals are promoted, and whose tag this field holds: the prefix fields,
    /// the tag and the promoted locals are one list, and each state's other locals are a list behind it.
    ///
    /// Refused as the first list is, then as the first state is whose list has no layout, and as `SizeOverflow` where
    /// the greatest of the lists, rounded up to the greatest alignment, isn't below the data layout's bound.
    /// `OutOfMemory` may come at any time.
    fn layout_of_promoted<
        FieldIdx: Idx,
        VariantIdx: Idx,
        LocalIdx: Idx,
        F: LayoutHandle<FieldIdx, VariantIdx> + Copy,
    >(
        &self,
        alloc: Global,
        locals: &[F],
        prefix: IndexVec<FieldIdx, F>,
        states: &[IndexVec<FieldIdx, LocalIdx>],
        promoted: &DenseBitSet<LocalIdx>,
        tag: Scalar,
        field: F,
    ) -> Result<LayoutData<FieldIdx, VariantIdx>, LayoutCalculatorError<F>>
        requires data_layout { IsLawfulDataLayout (Cx.target self.now.cx) }
        requires locals { All (λ f. IsLawfulLayout (Cx.target self.now.cx) (F.layout_of f)) locals.now }
        requires prefix { All (λ f. IsLawfulLayout (Cx.target self.now.cx) (F.layout_of f)) prefix }
        requires tag { IsStateTag (length states.now) tag }
        requires field { F.layout_of field ≡ scalar_layout (VariantIdx.at 0)
            (Cx.target self.now.cx) tag }
        requires few { length states.now ≤ VariantIdx.MAX_INDEX + 1 }
        requires named { length locals.now ≤ LocalIdx.MAX_INDEX + 1 }
        requires within { All (All (λ l. LocalIdx.number l < length locals.now)) states.now }
        requires once { All (λ state. AllPairs (λ a b. a ≢ b) (map LocalIdx.number state)) states.now }
        requires same { domain_size promoted.now ≡ length locals.now }
        requires count { length prefix + length locals.now ≤ FieldIdx.MAX_INDEX }
        ensures exact { IsPromotedAnswer F.layout_of FieldIdx.at FieldIdx.number (VariantIdx.at 0)
            (Cx.target self.now.cx) prefix tag field locals.now
            (map (map LocalIdx.number) states.now) promoted.now result }
        ensures lawful { IfOk result (IsLawfulLayout (Cx.target self.now.cx)) }
        ensures tag_distinguishes { IfOk result
            (IsDistinguishedByState (Cx.target self.now.cx) FieldIdx.at (map F.layout_of prefix)
            (map F.layout_of locals.now) (map (map LocalIdx.number) states.now)) }
        ensures apart { (conflicts : Relation) →
            ArePromotedBy (length locals.now) (map (map LocalIdx.number) states.now) promoted.now conflicts →
            IfOk result (HasLocalsApart (map (map LocalIdx.number) states.now) conflicts (map F.layout_of locals.now)) }
        ensures sized { IsSizedPromoted (Cx.target self.now.cx) (map F.layout_of prefix)
            (scalar_layout (VariantIdx.at 0) (Cx.target self.now.cx) tag) (map F.layout_of locals.now)
            (map (map LocalIdx.number) states.now) promoted.now result }
    {
        let count = prefix.len();
        let fields = first_fields(prefix, field, locals, promoted)?;
        let first = match self.list_of_variant(
            alloc,
            &fields,
            &default_repr(),
            &StructKind::AlwaysSized,
        ) {
            Ok(first) => first,
            Err(error) => return Err(error),
        };
        let kind = state_list_kind(&first);
        let lists = match self.lists_of_own(alloc, locals, promoted, states, &kind) {
            Ok(lists) => lists,
            Err(error) => return Err(error),
        };
        let dl = self.cx.data_layout();
        let saved = CoroutineStates {
            promoted,
            count: locals.len(),
            states,
        };
        layout_of_lists(alloc, dl, count, tag, saved, first, lists)
    }

    /// The layout of a coroutine, from those of its locals and of its prefix fields, and from the locals that live in
    /// each state.
    ///
    /// Some locals are promoted: they lie beside the prefix fields and the tag, where they share no byte with any
    /// other. A local that several states hold is promoted. Then the conflicts are gone through, by rows and in them by
    /// columns, both ascending. A row is passed over whose local is promoted before it is come to, and a column whose
    /// local is promoted or, while the row's isn't, of the row's state, or where no state holds either. Else the row's
    /// is promoted where its row has more conflicts than the column's, and otherwise the column's; the row goes on
    /// either way. All are promoted where fewer than two states hold another local.
    ///
    /// The tag is the least unsigned integer that has the number of each state, and `tag_to_layout` gives a handle of
    /// its layout. Prefix fields, tag and promoted locals are one list, whose fields may be moved, and each state's
    /// other locals are such a list behind it; the size in bytes is that of the greatest list, rounded up to the
    /// greatest alignment. The layout's own fields are the prefix fields and the tag, and a state's are its locals. It
    /// has no niche.
    ///
    /// Refused as the first list is by `layout_of_univariant`, then as the first state is whose list is refused, and as
    /// `SizeOverflow` where the size isn't below the data layout's bound. `OutOfMemory` may come at any time.
    ///
    /// The data layout and the fields' layouts have to be lawful. There is a state, none lists a local twice, and the
    /// conflicts are between the locals. The prefix fields, the tag and the locals together can be named by the index
    /// type of fields.
    pub fn layout_of_coroutine<
        FieldIdx: Idx,
        VariantIdx: Idx,
        LocalIdx: Idx,
        F: LayoutHandle<FieldIdx, VariantIdx> + Copy,
        T: Fn(Scalar) -> F,
    >(
        &self,
        alloc: Global,
        local_layouts: IndexSlice<'_, LocalIdx, F>,
        prefix_layouts: IndexVec<FieldIdx, F>,
        variant_fields: IndexSlice<'_, VariantIdx, IndexVec<FieldIdx, LocalIdx>>,
        storage_conflicts: &BitMatrix<LocalIdx, LocalIdx>,
        tag_to_layout: T,
    ) -> Result<LayoutData<FieldIdx, VariantIdx>, LayoutCalculatorError<F>>
    where
        T: Drop,
        requires data_layout { IsLawfulDataLayout (Cx.target self.now.cx) }
        requires locals { All (λ f. IsLawfulLayout (Cx.target self.now.cx) (F.layout_of f))
            (items_of local_layouts) }
        requires prefix { All (λ f. IsLawfulLayout (Cx.target self.now.cx) (F.layout_of f)) prefix_layouts }
        requires states { AreStates LocalIdx.number (length (items_of local_layouts))
            (items_of variant_fields) storage_conflicts.now }
        requires count { length prefix_layouts + length (items_of local_layouts) ≤ FieldIdx.MAX_INDEX }
        requires callable { T.IsAlwaysCallable tag_to_layout }
        requires tag { GivesTagLayout F.layout_of (VariantIdx.at 0) (Cx.target self.now.cx)
            (T.post tag_to_layout) (length (items_of variant_fields)) }
        ensures exact { IsStatesAnswer F.layout_of FieldIdx.at FieldIdx.number (VariantIdx.at 0)
            LocalIdx.number (Cx.target self.now.cx) (T.post tag_to_layout) prefix_layouts
            (items_of local_layouts.entry) (items_of variant_fields.entry) storage_conflicts.now result }
        ensures lawful { IfOk result (IsLawfulLayout (Cx.target self.now.cx)) }
        ensures good { IfOk result
            (IsGoodCoroutine FieldIdx.at FieldIdx.number (VariantIdx.at 0) (Cx.target self.now.cx)
            (map F.layout_of prefix_layouts) (map F.layout_of (items_of local_layouts.entry))
            (map (map LocalIdx.number) (items_of variant_fields.entry)) storage_conflicts.now) }
        ensures sized { (tag : Scalar) → IsStateTag (length (items_of variant_fields.entry)) tag → IsSizedCoroutine
            (Cx.target self.now.cx) (map F.layout_of prefix_layouts) (scalar_layout (VariantIdx.at 0) (Cx.target self.now.cx) tag)
            (map F.layout_of (items_of local_layouts.entry))
            (map (map LocalIdx.number) (items_of variant_fields.entry)) storage_conflicts.now result }
    {
        let locals = local_layouts.as_raw();
        let states = variant_fields.as_raw();
        let tag = state_tag(states.len());
        let field = tag_to_layout(tag);
        let promoted = promoted_locals(alloc, states, storage_conflicts)?;
        self.layout_of_promoted(alloc, locals, prefix_layouts, states, &promoted, tag, field)
    }
}
