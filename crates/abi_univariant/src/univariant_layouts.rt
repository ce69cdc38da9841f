//! The layouts of several lists of fields, which are to be the variants of a type.

ghost use Rattle.std.specs.Prelude.{◌≡◌, ◌<◌, ◌++◌, ◌∷◌, [], IfOk, OnOk, Some, length, map, slice_get};
ghost use Rattle.abi_scalar.specs.Variant.{variant_of};
ghost use Rattle.abi_univariant.specs.Summary.{summary_of};

use crate::fields_ref::FieldsRef;
use crate::summary::Summary;
use crate::univariant_layout::UnivariantLayout;
use abi_base::Align;
use abi_index::{Hash64, Idx};
use abi_scalar::VariantLayout;
use std::alloc::{AllocError, Global};
use std::marker::Model;

/// What a list has beside what it has as a variant.
#[derive(Clone, Copy)]
pub struct VariantRest<VariantIdx> {
    /// Which variant the list is.
    pub(crate) index: VariantIdx,
    /// The alignment.
    pub(crate) align: Align,
    /// The greatest alignment that a `repr(align)` asks for.
    pub(crate) max_repr_align: Option<Align>,
    /// The alignment before `repr(align)` raised it.
    pub(crate) unadjusted_abi_align: Align,
    /// Whether the fields lie as `repr(C)` has them.
    pub(crate) repr_c: bool,
    /// A hash of the parts, to seed a shuffle of fields with.
    pub(crate) randomization_seed: Hash64,
}

impl<VariantIdx> VariantRest<VariantIdx> {
    /// The alignment of the whole list.
    pub fn align(&self) -> Align
        ensures { result ≡ self.now.align }
    {
        self.align
    }
}

/// The layouts of several lists of fields, each already as the variant of a type that it is to be, so that no variant
/// is there twice. Contracts see the list of their layouts.
#[derive(Drop)]
pub struct UnivariantLayouts<FieldIdx: Idx, VariantIdx: Idx> {
    variants: Vec<VariantLayout<FieldIdx>>,
    rests: Vec<VariantRest<VariantIdx>>,
    /// What they have together, kept as they come, so that nobody goes over them again.
    summary: Summary,
}

impl<FieldIdx: Idx, VariantIdx: Idx> Model for UnivariantLayouts<FieldIdx, VariantIdx> {
    ghost use Rattle.std.specs.Prelude.{◌≡◌, List, length};
    ghost use Rattle.abi_scalar.specs.declared.layout_data.LayoutData.{LayoutData};
    ghost use Rattle.abi_univariant.specs.UnivariantLayouts.{lists_of};
    ghost use Rattle.abi_univariant.specs.Summary.{summary_of};

    ghost Value = { List (LayoutData FieldIdx VariantIdx) };

    ghost view = { λ a. lists_of a.variants.items a.rests.items };

    ghost invariant = { λ a. (length a.variants.items ≡ length a.rests.items)
        × (a.summary ≡ summary_of (lists_of a.variants.items a.rests.items)) };
}

impl<FieldIdx: Idx, VariantIdx: Idx> UnivariantLayouts<FieldIdx, VariantIdx> {
    /// An empty list of layouts, with room for `capacity` of them. `AllocError` where the room is refused.
    pub fn with_capacity(alloc: Global, capacity: usize) -> Result<Self, AllocError>
        ensures { IfOk result (λ lists. lists ≡ []) }
    {
        Ok(UnivariantLayouts {
            variants: Vec::with_capacity(alloc, capacity)?,
            rests: Vec::with_capacity(alloc, capacity)?,
            summary: Summary::new(),
        })
    }

    /// How many lists there are.
    pub fn len(&self) -> usize
        ensures { result ≡ length self.now }
    {
        self.rests.len()
    }

    /// What the lists have together.
    pub fn summary(&self) -> Summary
        ensures { result ≡ summary_of self.now }
    {
        self.summary
    }

    /// The list at an index, lent, as one layout.
    pub fn at(&self, index: usize) -> FieldsRef<'_, FieldIdx, VariantIdx>
        requires { index < length self.now }
        ensures { slice_get self.now index ≡ Some result }
    {
        FieldsRef::new(&self.variants[index], &self.rests[index])
    }

    /// Puts a list behind the others. `AllocError` where memory is refused.
    pub fn push(&mut self, list: UnivariantLayout<FieldIdx, VariantIdx>) -> Result<(), AllocError>
        ensures { OnOk result (self.new ≡ self.old ++ list ∷ []) }
    {
        self.variants.reserve(1)?;
        self.rests.reserve(1)?;
        let (variant, rest) = list.into_parts();
        self.summary = self.summary.with(&variant, &rest);
        self.variants.push_reserved(variant);
        self.rests.push_reserved(rest);
        Ok(())
    }

    /// What each has as a variant, and the rest of each.
    pub fn into_parts(self) -> (Vec<VariantLayout<FieldIdx>>, Vec<VariantRest<VariantIdx>>)
        ensures variants { result.0.items ≡ map variant_of self }
        ensures aligns { map (λ r. r.align) result.1.items ≡ map (λ l. l.align.abi) self }
    {
        (self.variants, self.rests)
    }
}
