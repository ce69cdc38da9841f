//! The order that a list's fields lie in, by the fields' indices.

ghost use Rattle.std.specs.Prelude.{◌≡◌, ◌+◌, ◌<◌, ◌≤◌, ◌++◌, ◌∷◌, [], All, IfOk, IsPermutation, OnOk, length, map, slice_index};
ghost use Rattle.std.specs.List.Sorted.{IsSortedByKey, IsStableByKey};
ghost use Rattle.abi_univariant.specs.Order.{compare_keys, key_at, sort_key};
ghost use Rattle.abi_univariant.specs.LawfulPart.{IsAlignedPart};
ghost use Rattle.abi_univariant.specs.Placement.{source_order};

use crate::order::{SortKey, SortRule, key_in};
use crate::part::Parts;
use abi_index::{Idx, IndexVec};
use abi_scalar::LayoutHandle;
use std::alloc::{AllocError, Global};
use std::marker::Model;

/// The fields of a list as they lie in memory, each by its index. Contracts see the list of their numbers.
#[derive(Drop)]
pub struct MemoryOrder<FieldIdx: Idx> {
    fields: Vec<FieldIdx>,
}

impl<FieldIdx: Idx> Model for MemoryOrder<FieldIdx> {
    ghost use Rattle.std.specs.Prelude.{All, List, ℕ, ◌+◌, ◌≤◌, length, map};

    ghost Value = { List ℕ };

    ghost view = { λ a. map FieldIdx.number a.fields.items };

    ghost invariant = { λ a. All (λ n. n ≤ FieldIdx.MAX_INDEX) (map FieldIdx.number a.fields.items)
        × (length a.fields.items ≤ FieldIdx.MAX_INDEX + 1) };
}

impl<FieldIdx: Idx> MemoryOrder<FieldIdx> {
    /// Source order of `count` fields, with room for `room` of them.
    pub(crate) fn in_source_order(
        alloc: Global,
        room: usize,
        count: usize,
    ) -> Result<Self, AllocError>
        requires { count ≤ FieldIdx.MAX_INDEX + 1 }
        ensures { IfOk result (λ order. order ≡ source_order count) }
    {
        let mut fields = Vec::with_capacity(alloc, room)?;
        for index in 0..count {
            fields.push(FieldIdx::new(index))?;
        }
        Ok(MemoryOrder { fields })
    }

    /// The order of these fields.
    pub(crate) fn of(alloc: Global, fields: &[FieldIdx]) -> Result<Self, AllocError>
        requires few { length fields.now ≤ FieldIdx.MAX_INDEX + 1 }
        requires within { All (λ n. n ≤ FieldIdx.MAX_INDEX) (map FieldIdx.number fields.now) }
        ensures { IfOk result (λ order. order ≡ map FieldIdx.number fields.now) }
    {
        let fields = Vec::from_slice(alloc, fields)?;
        Ok(MemoryOrder { fields })
    }

    /// How many fields it names.
    pub(crate) fn len(&self) -> usize
        ensures { result ≡ length self.now }
    {
        self.fields.len()
    }

    /// The field at a place of memory order.
    pub(crate) fn at(&self, place: usize) -> usize
        requires { place < length self.now }
        ensures { result ≡ slice_index self.now place }
    {
        self.fields[place].index()
    }

    /// Sorts the fields by these keys, and leaves those of equal keys as they follow one another.
    pub(crate) fn sort_by_keys(&mut self, keys: &[SortKey]) -> Result<(), AllocError>
        ensures permutes { IsPermutation self.old self.new }
        ensures sorted { OnOk result (IsSortedByKey (key_at keys.now) compare_keys self.new) }
        ensures stable { IsStableByKey (key_at keys.now) compare_keys self.old self.new }
    {
        self.fields.sort_by_key(|field| key_in(keys, field.index()))
    }

    /// Sorts the fields by the keys of these parts, and leaves those of equal keys as they follow one another. Each key is
    /// found anew where it is compared.
    pub(crate) fn sort<VariantIdx: Idx, F: LayoutHandle<FieldIdx, VariantIdx>>(
        &mut self,
        parts: &Parts<'_, FieldIdx, VariantIdx, F>,
        rule: &SortRule,
    ) -> Result<(), AllocError>
        requires { All IsAlignedPart parts.now }
        ensures permutes { IsPermutation self.old self.new }
        ensures sorted { OnOk result
            (IsSortedByKey (key_at (map (sort_key rule.now) parts.now)) compare_keys self.new) }
        ensures stable { IsStableByKey (key_at (map (sort_key rule.now) parts.now))
            compare_keys self.old self.new }
    {
        self.fields.sort_by_key(
            |field|
                requires { All IsAlignedPart parts.now }
            { rule.key_at(parts, field.index()) },
        )
    }

    /// Puts one more field last.
    pub(crate) fn push(&mut self, index: usize) -> Result<(), AllocError>
        requires few { length self.old ≤ FieldIdx.MAX_INDEX }
        requires within { index ≤ FieldIdx.MAX_INDEX }
        ensures { OnOk result (self.new ≡ self.old ++ index ∷ []) }
    {
        self.fields.push(FieldIdx::new(index))?;
        Ok(())
    }

    /// The fields themselves. Nothing is copied.
    pub(crate) fn into_fields(self) -> IndexVec<u32, FieldIdx>
        ensures { result ≡ map FieldIdx.at self }
    {
        IndexVec::from_raw(self.fields)
    }
}
