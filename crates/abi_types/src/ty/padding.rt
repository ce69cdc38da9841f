//! The data places of a type, and its padding: the bytes that no part of it covers, in any variant or in one.

ghost use Rattle.std.specs.Prelude.{◌≡◌, ℕ, ◌+◌, ◌<◌, ◌≤◌, ◌&&◌, IfOk, not, true};
ghost use Rattle.abi_index.specs.Idx.{greatest_place};
ghost use Rattle.abi_index.specs.RangeSet.{is_in_ranges};
ghost use Rattle.abi_types.specs.Ty.Typed.{layout_in};
ghost use Rattle.abi_types.specs.Ty.Walks.{is_sized};
ghost use Rattle.abi_types.specs.Ty.Places.{is_padding, is_place, is_shared_place, is_unused};
ghost use Rattle.abi_types.specs.Ty.Runs.{AreUnused, AreUnusedOf, IsVariantOfSeveral, IsVariantIndex};

use crate::ty::interface::{TyAbiInterface, TyAndLayout};
use crate::ty::places::{places_of, put_fields};
use crate::ty::walk::{At, Walk};
use abi_index::{IndexVec, RangeSet, RangeSetBuilder, VariantIdx};
use abi_scalar::Variants;
use std::alloc::{AllocError, Global};

/// The bytes that some part covers.
fn data<W: Walk>(alloc: Global, this: W) -> Result<RangeSet, AllocError>
    requires { W.is_valid this }
    ensures { IfOk result (λ set. (k : ℕ) → is_in_ranges set k ≡ is_place (W.typed_of this) k) }
{
    // It is a number of 64 bits, which the walks ask for.
    let _size = this.layout().size.bytes();
    places_of(alloc, this)
}

/// The bytes below the size that no part covers.
fn padding<W: Walk>(alloc: Global, this: W) -> Result<RangeSet, AllocError>
    requires { W.is_valid this }
    ensures { IfOk result (λ set. (k : ℕ) → is_in_ranges set k ≡ is_padding (W.typed_of this) k) }
{
    let places = data(alloc, this)?;
    let mut whole = RangeSet::new(alloc);
    whole.add_range(0, this.layout().size.bytes())?;
    whole.difference(alloc, &places)
}

/// Of the bytes that some part covers those that no field covers that all variants have.
fn beside_shared<W: Walk>(alloc: Global, this: W, any: &RangeSet) -> Result<RangeSet, AllocError>
    requires valid { W.is_valid this }
    requires any { (k : ℕ) → is_in_ranges any.now k ≡ is_place (W.typed_of this) k }
    ensures { IfOk result (λ set. (k : ℕ) → is_in_ranges set k
        ≡ (is_place (W.typed_of this) k && not (is_shared_place (W.typed_of this) k))) }
{
    // It is a number of 64 bits, which the walks ask for.
    let _size = this.layout().size.bytes();
    let mut runs = RangeSetBuilder::new(alloc);
    put_fields(alloc, this, 0, &mut runs)?;
    let shared = runs.build(alloc)?;
    any.difference(alloc, &shared)
}

/// Those of the bytes beside the shared ones that this variant, one of several, doesn't cover.
fn unused_of<W: Walk>(
    alloc: Global,
    this: W,
    variant: VariantIdx,
    beside: &RangeSet,
) -> Result<RangeSet, AllocError>
    requires valid { W.is_valid this }
    requires variant { IsVariantOfSeveral (layout_in (W.typed_of this)).variants variant }
    requires beside { (k : ℕ) → is_in_ranges beside.now k ≡
        (is_place (W.typed_of this) k && not (is_shared_place (W.typed_of this) k)) }
    ensures { IfOk result (λ set. (k : ℕ) →
        is_in_ranges set k ≡ is_unused (W.typed_of this) variant k) }
{
    let _size = this.layout().size.bytes();
    let own = places_of(alloc, this.variant(variant))?;
    beside.difference(alloc, &own)
}

/// The bytes that some variant covers, and neither this one nor a field that all of them have.
fn unused_runs<W: Walk>(alloc: Global, this: W, variant: VariantIdx) -> Result<RangeSet, AllocError>
    requires valid { W.is_valid this }
    requires variant { IsVariantIndex (layout_in (W.typed_of this)).variants variant }
    ensures { IfOk result (λ set. (k : ℕ) →
        is_in_ranges set k ≡ is_unused (W.typed_of this) variant k) }
{
    match &this.layout().variants {
        Variants::Multiple { .. } => {
            let any = data(alloc, this)?;
            let beside = beside_shared(alloc, this, &any)?;
            unused_of(alloc, this, variant, &beside)
        }
        _ => Ok(RangeSet::new(alloc)),
    }
}

/// Of each of the first `count` variants the bytes that some variant covers, and neither this one nor a field that
/// all of them have; `any` are those that some part covers.
#[tactic(auto, using(crate::proofs::PlacesLemmas::unused_more))]
fn unused_of_each<W: Walk>(
    alloc: Global,
    this: W,
    count: usize,
    any: &RangeSet,
) -> Result<IndexVec<VariantIdx, RangeSet>, AllocError>
    requires valid { W.is_valid this }
    requires any { (k : ℕ) → is_in_ranges any.now k ≡ is_place (W.typed_of this) k }
    requires several { (v : ℕ) → v < count →
        IsVariantOfSeveral (layout_in (W.typed_of this)).variants v }
    requires few { count ≤ greatest_place + 1 }
    ensures { IfOk result (λ sets. AreUnusedOf (W.typed_of this) count sets) }
{
    let beside = beside_shared(alloc, this, any)?;
    let mut sets = Vec::with_capacity(alloc, count)?;
    for v in 0..count {
        sets.push(unused_of(alloc, this, VariantIdx::from_usize(v), &beside)?)?;
    }
    Ok(IndexVec::from_raw(sets))
}

/// Of each variant that a tag distinguishes the bytes that it leaves unused.
fn each_unused<W: Walk>(
    alloc: Global,
    this: W,
) -> Result<IndexVec<VariantIdx, RangeSet>, AllocError>
    requires { W.is_valid this }
    ensures { IfOk result (λ sets. AreUnused (W.typed_of this) sets) }
{
    match &this.layout().variants {
        Variants::Multiple { variants, .. } => {
            let any = data(alloc, this)?;
            unused_of_each(alloc, this, variants.len(), &any)
        }
        _ => Ok(IndexVec::new(alloc)),
    }
}

impl<'a, Ty> TyAndLayout<'a, Ty> {
    /// The type's data places: the bytes that some part covers, in any variant. `AllocError` where memory is refused.
    pub fn data_ranges<C>(&self, alloc: Global, cx: &C) -> Result<RangeSet, AllocError>
    where
        Ty: TyAbiInterface<'a, C> + Copy,
        requires { Ty.is_valid self.now }
        ensures { IfOk result (λ set. (k : ℕ) →
            is_in_ranges set k ≡ is_place (Ty.typed_of self.now) k) }
    {
        data(alloc, At::new(self, cx))
    }

    /// The bytes that decide nothing, whatever the value: those below the size that no part covers, in any variant.
    /// `AllocError` where memory is refused.
    pub fn variant_independent_padding_ranges<C>(
        &self,
        alloc: Global,
        cx: &C,
    ) -> Result<RangeSet, AllocError>
    where
        Ty: TyAbiInterface<'a, C> + Copy,
        requires valid { Ty.is_valid self.now }
        requires sized { is_sized (layout_in (Ty.typed_of self.now)).backend_repr ≡ true }
        ensures { IfOk result (λ set. (k : ℕ) →
            is_in_ranges set k ≡ is_padding (Ty.typed_of self.now) k) }
    {
        padding(alloc, At::new(self, cx))
    }

    /// The bytes that decide nothing in a variant and do in another: those that some variant covers, and neither this
    /// one nor a field that all of them have, as the tag. None where no tag distinguishes variants; where one does, the
    /// index has to be that of a variant. `AllocError` where memory is refused.
    pub fn variant_dependent_padding_ranges<C>(
        &self,
        alloc: Global,
        cx: &C,
        variant_index: VariantIdx,
    ) -> Result<RangeSet, AllocError>
    where
        Ty: TyAbiInterface<'a, C> + Copy,
        requires valid { Ty.is_valid self.now }
        requires variant { IsVariantIndex (layout_in (Ty.typed_of self.now)).variants
            variant_index }
        ensures { IfOk result (λ set. (k : ℕ) →
            is_in_ranges set k ≡ is_unused (Ty.typed_of self.now) variant_index k) }
    {
        unused_runs(alloc, At::new(self, cx), variant_index)
    }

    /// What `variant_dependent_padding_ranges` answers, of each variant that a tag distinguishes, in one walk over the
    /// type; none where no tag does. `AllocError` where memory is refused.
    pub fn each_variant_dependent_padding_ranges<C>(
        &self,
        alloc: Global,
        cx: &C,
    ) -> Result<IndexVec<VariantIdx, RangeSet>, AllocError>
    where
        Ty: TyAbiInterface<'a, C> + Copy,
        requires { Ty.is_valid self.now }
        ensures { IfOk result (λ sets. AreUnused (Ty.typed_of self.now) sets) }
    {
        each_unused(alloc, At::new(self, cx))
    }
}
