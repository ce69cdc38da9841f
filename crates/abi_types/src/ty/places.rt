//! The data places of a type: the bytes that some part of it covers.

ghost use Rattle.std.specs.Prelude.{◌≡◌, ℕ, ◌+◌, ◌*◌, ◌-◌, ◌<◌, ◌≤◌, ◌^◌, IfOk, OnOk};
ghost use Rattle.abi_index.specs.RangeSet.{is_in_ranges};
ghost use Rattle.abi_scalar.specs.Shape.{field_count};
ghost use Rattle.abi_types.specs.Ty.Typed.{layout_in, variant_in};
ghost use Rattle.abi_types.specs.Ty.Places.{covers_element, is_place, is_shared_place, variants_cover};
ghost use Rattle.abi_index.specs.Runs.{Adds, moved_to};
ghost use Rattle.abi_types.specs.Ty.Runs.{elements_cover, first_cover};

use crate::ty::walk::Walk;
use abi_base::Size;
use abi_index::{RangeSet, RangeSetBuilder, VariantIdx};
use abi_scalar::{FieldsShape, Variants};
use std::alloc::{AllocError, Global};

/// Puts the runs of a type's data places behind the others, moved on by an offset.
#[cycle(places)]
pub(crate) fn put_places<W: Walk>(
    alloc: Global,
    this: W,
    offset: u64,
    all: &mut RangeSetBuilder,
) -> Result<(), AllocError>
    requires valid { W.is_valid this }
    requires fits { offset + (layout_in (W.typed_of this)).size < 2 ^ 64 }
    ensures { OnOk result (Adds all.old all.new (moved_to offset (is_place (W.typed_of this)))) }
{
    // A type of no bytes has no data places, however many fields it has.
    if this.layout().size == Size::ZERO {
        return Ok(());
    }
    put_fields(alloc, this, offset, all)?;
    put_variants(alloc, this, offset, all)
}

/// Puts the runs of what a type's fields cover behind the others, moved on by an offset; a type without fields is
/// covered whole.
#[inline(always)]
#[cycle(places)]
pub(crate) fn put_fields<W: Walk>(
    alloc: Global,
    this: W,
    offset: u64,
    all: &mut RangeSetBuilder,
) -> Result<(), AllocError>
    requires valid { W.is_valid this }
    requires fits { offset + (layout_in (W.typed_of this)).size < 2 ^ 64 }
    ensures { OnOk result (Adds all.old all.new (moved_to offset
        (is_shared_place (W.typed_of this)))) }
{
    match &this.layout().fields {
        FieldsShape::Primitive => all.add_range(offset, this.layout().size.bytes()),
        FieldsShape::Union(count) => put_listed(alloc, this, count.get(), offset, all),
        FieldsShape::Array { stride, count } => {
            if *count == 0 {
                return Ok(());
            }
            put_elements(alloc, this.field(0), stride.bytes(), *count, offset, all)
        }
        FieldsShape::Arbitrary {
            offsets,
            in_memory_order: _,
        } => put_listed(alloc, this, offsets.len(), offset, all),
    }
}

/// Puts the runs of what the first `count` fields cover behind the others, moved on by an offset.
#[inline(always)]
#[cycle(places)]
fn put_listed<W: Walk>(
    alloc: Global,
    this: W,
    count: usize,
    offset: u64,
    all: &mut RangeSetBuilder,
) -> Result<(), AllocError>
    requires valid { W.is_valid this }
    requires within { count ≤ field_count (layout_in (W.typed_of this)).fields }
    requires fits { offset + (layout_in (W.typed_of this)).size < 2 ^ 64 }
    ensures { OnOk result (Adds all.old all.new (moved_to offset
        (first_cover (W.typed_of this) count))) }
{
    for i in 0..count {
        let place = offset + this.layout().fields.offset(i).bytes();
        put_places(alloc, this.field(i), place, all)?;
    }
    Ok(())
}

/// Puts the runs of what `count` elements of one type cover behind the others, moved on by an offset. The runs of one
/// of them are found once.
#[cycle(places)]
fn put_elements<W: Walk>(
    alloc: Global,
    element: W,
    stride: u64,
    count: u64,
    offset: u64,
    all: &mut RangeSetBuilder,
) -> Result<(), AllocError>
    requires valid { W.is_valid element }
    requires some { 0 < count }
    requires fits { offset + stride * (count - 1) + (layout_in (W.typed_of element)).size < 2 ^ 64 }
    ensures { OnOk result (Adds all.old all.new (moved_to offset
        (elements_cover (W.typed_of element) stride count))) }
{
    let one = element_places(alloc, element)?;
    if stride == 0 {
        return all.add_set(&one, offset);
    }
    let below = one.prefix(alloc, stride)?;
    all.add_repeated(&below, stride, count, offset)
}

/// The bytes that an element of an array covers: all where it is one scalar.
#[cycle(places)]
fn element_places<W: Walk>(alloc: Global, element: W) -> Result<RangeSet, AllocError>
    requires valid { W.is_valid element }
    requires fits { (layout_in (W.typed_of element)).size < 2 ^ 64 }
    ensures { IfOk result (λ set. (k : ℕ) → is_in_ranges set k
        ≡ covers_element (layout_in (W.typed_of element)) (is_place (W.typed_of element)) k) }
{
    if element.layout().backend_repr.is_scalar() {
        let mut set = RangeSet::new(alloc);
        set.add_range(0, element.layout().size.bytes())?;
        return Ok(set);
    }
    places_of(alloc, element)
}

/// The data places of a type.
#[cycle(places)]
pub(crate) fn places_of<W: Walk>(alloc: Global, this: W) -> Result<RangeSet, AllocError>
    requires valid { W.is_valid this }
    requires fits { (layout_in (W.typed_of this)).size < 2 ^ 64 }
    ensures { IfOk result (λ set. (k : ℕ) → is_in_ranges set k ≡ is_place (W.typed_of this) k) }
{
    let mut runs = RangeSetBuilder::new(alloc);
    put_places(alloc, this, 0, &mut runs)?;
    runs.build(alloc)
}

/// Puts the runs of what the variants cover that a tag distinguishes behind the others, moved on by an offset.
#[inline(always)]
#[cycle(places)]
#[tactic(auto, using(crate::proofs::PlacesLemmas::variant_fits, crate::proofs::PlacesLemmas::variant_falls))]
fn put_variants<W: Walk>(
    alloc: Global,
    this: W,
    offset: u64,
    all: &mut RangeSetBuilder,
) -> Result<(), AllocError>
    requires valid { W.is_valid this }
    requires fits { offset + (layout_in (W.typed_of this)).size < 2 ^ 64 }
    ensures { OnOk result (Adds all.old all.new
        (moved_to offset (variants_cover (layout_in (W.typed_of this)).variants (λ v.
        is_place (variant_in (W.typed_of this) v))))) }
{
    match &this.layout().variants {
        Variants::Multiple { variants, .. } => {
            for v in 0..variants.len() {
                put_places(alloc, this.variant(VariantIdx::from_usize(v)), offset, all)?;
            }
            Ok(())
        }
        _ => Ok(()),
    }
}
