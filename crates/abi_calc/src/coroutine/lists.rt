//! The lists of a coroutine: the first one, and one for each state behind it.

ghost use Rattle.std.specs.Prelude.{◌≡◌, ◌+◌, ◌<◌, ◌≤◌, ◌⊎◌, All, IfErr, IfOk, length, map};
ghost use Rattle.abi_base.specs.DataLayout.{IsLawfulDataLayout, size_bound};
ghost use Rattle.abi_index.specs.BitSet.{domain_size};
ghost use Rattle.abi_scalar.specs.Lawful.{IsLawfulLayout};
ghost use Rattle.abi_univariant.specs.List.{IsUnivariantError};
ghost use Rattle.abi_univariant.specs.Placement.{IsWellFormedPrefix, IsSized};
ghost use Rattle.abi_calc.specs.Coroutine.Lists.{state_list_kind, default_repr, first_list, own_list};
ghost use Rattle.abi_calc.specs.Coroutine.Sizes.{own_lists};
ghost use Rattle.abi_calc.specs.Enums.Lists.{AreGoodLists, IsFirstListError, IsGoodList};

use crate::calculator::LayoutCalculator;
use abi_base::{HasDataLayout, StructKind};
use abi_index::{DenseBitSet, Idx, IndexVec};
use abi_scalar::{LayoutCalculatorError, LayoutHandle, ReprOptions};
use abi_univariant::{UnivariantLayout, UnivariantLayouts};
use std::alloc::{AllocError, Global};

/// The `repr` of each list: it asks for nothing.
pub(crate) fn default_repr() -> ReprOptions
    ensures { result ≡ default_repr }
{
    ReprOptions::default()
}

/// Of which kind the states' lists are: each lies behind the first one.
pub(crate) fn state_list_kind<FieldIdx: Idx, VariantIdx: Idx>(
    first: &UnivariantLayout<FieldIdx, VariantIdx>,
) -> StructKind
    ensures { result ≡ state_list_kind first.now }
{
    StructKind::Prefixed(first.size(), first.align())
}

/// The fields of the first list: the prefix fields, the one that holds the tag, and the promoted locals, ascending.
pub(crate) fn first_fields<FieldIdx: Idx, LocalIdx: Idx, F: Copy>(
    prefix: IndexVec<FieldIdx, F>,
    tag: F,
    locals: &[F],
    promoted: &DenseBitSet<LocalIdx>,
) -> Result<IndexVec<FieldIdx, F>, AllocError>
    requires count { length prefix + length locals.now ≤ FieldIdx.MAX_INDEX }
    requires named { length locals.now ≤ LocalIdx.MAX_INDEX + 1 }
    requires same { domain_size promoted.now ≡ length locals.now }
    ensures { IfOk result (λ fields. fields ≡ first_list prefix tag locals.now promoted.now) }
{
    let mut fields = prefix;
    let _index = fields.push(tag)?;
    for (place, local) in locals.iter().enumerate() {
        if promoted.contains(LocalIdx::new(place)) {
            let _index = fields.push(*local)?;
        }
    }
    Ok(fields)
}

/// The fields of a state's own list: its locals that aren't promoted, as it lists them.
fn own_fields<FieldIdx: Idx, LocalIdx: Idx, F: Copy>(
    alloc: Global,
    locals: &[F],
    promoted: &DenseBitSet<LocalIdx>,
    state: &IndexVec<FieldIdx, LocalIdx>,
) -> Result<IndexVec<FieldIdx, F>, AllocError>
    requires within { All (λ l. LocalIdx.number l < length locals.now) state.now }
    requires same { domain_size promoted.now ≡ length locals.now }
    ensures { IfOk result (λ own. own ≡ own_list locals.now promoted.now
        (map LocalIdx.number state.now)) }
{
    let mut own = IndexVec::new(alloc);
    for local in state.as_slice().as_raw() {
        if !promoted.contains(*local) {
            let _index = own.push(locals[local.index()])?;
        }
    }
    Ok(own)
}

impl<Cx: HasDataLayout> LayoutCalculator<Cx> {
    /// The layout of a state's own list, of this kind, which is sized.
    fn list_of_own<
        FieldIdx: Idx,
        VariantIdx: Idx,
        LocalIdx: Idx,
        F: LayoutHandle<FieldIdx, VariantIdx> + Copy,
    >(
        &self,
        alloc: Global,
        locals: &[F],
        promoted: &DenseBitSet<LocalIdx>,
        state: &IndexVec<FieldIdx, LocalIdx>,
        kind: &StructKind,
    ) -> Result<UnivariantLayout<FieldIdx, VariantIdx>, LayoutCalculatorError<F>>
        requires data_layout { IsLawfulDataLayout (Cx.target self.now.cx) }
        requires locals { All (λ f. IsLawfulLayout (Cx.target self.now.cx)
            (F.layout_of f)) locals.now }
        requires within { All (λ l. LocalIdx.number l < length locals.now) state.now }
        requires same { domain_size promoted.now ≡ length locals.now }
        requires prefix { IsWellFormedPrefix kind.now (size_bound (Cx.target self.now.cx)) }
        requires sized { IsSized kind.now }
        ensures within { IfOk result (λ list. length (own_list locals.now promoted.now
            (map LocalIdx.number state.now)) ≤ FieldIdx.MAX_INDEX + 1) }
        ensures good { IfOk result (IsGoodList F.layout_of FieldIdx.at (VariantIdx.at 0)
            (Cx.target self.now.cx) default_repr kind.now
            (own_list locals.now promoted.now (map LocalIdx.number state.now))) }
        ensures fault { IfErr result (λ e.
            IsUnivariantError F.layout_of (Cx.target self.now.cx) default_repr kind.now
            (own_list locals.now promoted.now (map LocalIdx.number state.now)) e ⊎
            (e ≡ LayoutCalculatorError.OutOfMemory)) }
    {
        let fields = own_fields(alloc, locals, promoted, state)?;
        self.list_of_variant(alloc, &fields, &default_repr(), kind)
    }

    /// The layout of each state's own list, of this kind, which is sized. Refused as the first of them is that has
    /// none.
    pub(crate) fn lists_of_own<
        FieldIdx: Idx,
        VariantIdx: Idx,
        LocalIdx: Idx,
        F: LayoutHandle<FieldIdx, VariantIdx> + Copy,
    >(
        &self,
        alloc: Global,
        locals: &[F],
        promoted: &DenseBitSet<LocalIdx>,
        states: &[IndexVec<FieldIdx, LocalIdx>],
        kind: &StructKind,
    ) -> Result<UnivariantLayouts<FieldIdx, VariantIdx>, LayoutCalculatorError<F>>
        requires data_layout { IsLawfulDataLayout (Cx.target self.now.cx) }
        requires locals { All (λ f. IsLawfulLayout (Cx.target self.now.cx)
            (F.layout_of f)) locals.now }
        requires within { All (All (λ l. LocalIdx.number l < length locals.now)) states.now }
        requires same { domain_size promoted.now ≡ length locals.now }
        requires prefix { IsWellFormedPrefix kind.now (size_bound (Cx.target self.now.cx)) }
        requires sized { IsSized kind.now }
        ensures good { IfOk result (λ lists. AreGoodLists F.layout_of FieldIdx.at (VariantIdx.at 0)
            (Cx.target self.now.cx) default_repr kind.now
            (own_lists locals.now promoted.now (map (map LocalIdx.number) states.now)) lists) }
        ensures within { IfOk result (λ lists.
            All (λ own. length own ≤ FieldIdx.MAX_INDEX + 1)
            (own_lists locals.now promoted.now (map (map LocalIdx.number) states.now))) }
        ensures fault { IfErr result (λ e. IsFirstListError F.layout_of FieldIdx.at (VariantIdx.at
            0) (Cx.target self.now.cx) default_repr kind.now (own_lists locals.now promoted.now
            (map (map LocalIdx.number) states.now)) e ⊎ (e ≡ LayoutCalculatorError.OutOfMemory)) }
    {
        let mut lists = UnivariantLayouts::with_capacity(alloc, states.len())?;
        for state in states {
            let list = match self.list_of_own(alloc, locals, promoted, state, kind) {
                Ok(list) => list,
                Err(error) => return Err(error),
            };
            lists.push(list)?;
        }
        Ok(lists)
    }
}
