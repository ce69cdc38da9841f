//! The least size that fields have in any order, and an order in which they have it.

ghost use Rattle.std.specs.Prelude.{◌≡◌, ◌≤◌, ◌+◌, All, IfOk, length, map};
ghost use Rattle.abi_index.specs.Idx.{greatest_place};
ghost use Rattle.abi_base.specs.DataLayout.{IsLawfulDataLayout, size_bound};
ghost use Rattle.abi_scalar.specs.Lawful.{IsLawfulLayout};
ghost use Rattle.abi_scalar.specs.Shape.{listed_order};
ghost use Rattle.abi_univariant.specs.List.{HasLawfulAligns};
ghost use Rattle.abi_univariant.specs.Placement.{IsNonEmptyIfUnsized, IsWellFormedPrefix};
ghost use Rattle.type_reports.specs.LeastOrder.{IsLeastOrder, with_free_order};

use abi_base::{StructKind, TargetDataLayout};
use abi_index::{FieldIdx, IndexSlice, VariantIdx};
use abi_scalar::{FieldsShape, LayoutData, ReprFlags, ReprOptions};
use rustc_abi::{LayError, LayoutCalculator};
use std::alloc::{AllocError, Global};

/// The layout of a field.
pub(crate) type FieldLayout<'a> = &'a LayoutData<FieldIdx, VariantIdx>;

/// The least size that fields have in any order, and an order in which they have it.
#[derive(Drop)]
pub(crate) struct LeastOrder {
    /// The size, in bytes.
    pub(crate) size: u64,
    /// The fields, as they lie in memory.
    pub(crate) order: Vec<FieldIdx>,
}

/// What asks for the same alignment and packing, and leaves the order free.
fn with_free_order(repr: &ReprOptions) -> ReprOptions
    ensures { result ≡ with_free_order repr.now }
{
    ReprOptions {
        int: None,
        flags: ReprFlags::default(),
        ..*repr
    }
}

/// The fields of a list, as they lie in memory.
fn memory_order(
    alloc: Global,
    layout: &LayoutData<FieldIdx, VariantIdx>,
) -> Result<Vec<FieldIdx>, AllocError>
    ensures { IfOk result (λ order. order.items ≡ listed_order layout.now.fields) }
{
    match &layout.fields {
        FieldsShape::Arbitrary {
            offsets: _,
            in_memory_order,
        } => Vec::from_slice(alloc, in_memory_order.as_slice().as_raw()),
        _ => Ok(Vec::new(alloc)),
    }
}

/// The least size that fields of these layouts have in any order, and an order in which they have it, under the same
/// alignment and packing. What the kind keeps in its place stays there: a prefix first, a last field that may lose its size
/// last. Refused as `layout_of_univariant` refuses it.
pub(crate) fn least_order(
    alloc: Global,
    dl: &TargetDataLayout,
    fields: &[FieldLayout<'_>],
    repr: &ReprOptions,
    kind: StructKind,
) -> Result<LeastOrder, LayError>
    requires data_layout { IsLawfulDataLayout dl.now }
    requires fields { All (λ f. IsLawfulLayout dl.now f.now) fields.now }
    requires few { length fields.now ≤ greatest_place + 1 }
    requires repr { HasLawfulAligns repr.now }
    requires prefix { IsWellFormedPrefix kind (size_bound dl.now) }
    requires tail { IsNonEmptyIfUnsized kind (length fields.now) }
    ensures { IfOk result (λ found. IsLeastOrder dl.now repr.now kind (map (λ f. f.now) fields.now) found.size found.order.items) }
{
    let free = with_free_order(repr);
    let fields = IndexSlice::new(fields);
    let layout = LayoutCalculator::new(dl).layout_of_univariant(alloc, fields, &free, kind)?;
    Ok(LeastOrder {
        size: layout.size.bytes(),
        order: memory_order(alloc, &layout)?,
    })
}
