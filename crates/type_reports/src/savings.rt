//! What another order of fields, or a pointer in place of the largest variant, would save.

ghost use Rattle.std.specs.Prelude.{◌≡◌, ◌≤◌, ◌+◌, All, IfOk, IfSome, IsTrue, length, map};
ghost use Rattle.abi_index.specs.Idx.{greatest_place};
ghost use Rattle.abi_base.specs.DataLayout.{IsLawfulDataLayout, size_bound};
ghost use Rattle.abi_scalar.specs.Lawful.{IsLawfulLayout};
ghost use Rattle.abi_tree.specs.Laid.{placed_of};
ghost use Rattle.abi_tree.specs.Placed.{layout_of};
ghost use Rattle.abi_univariant.specs.List.{HasLawfulAligns};
ghost use Rattle.abi_univariant.specs.Placement.{IsNonEmptyIfUnsized, IsWellFormedPrefix};
ghost use Rattle.type_reports.specs.LeastOrder.{IsLeastOrder};

use crate::json::size_of_tree;
use crate::least::{FieldLayout, LeastOrder, least_order};
use crate::sorting::falling_order;
use crate::waste::waste_of;
use abi_base::{Align, Primitive, Size, StructKind, TargetDataLayout};
use abi_index::{FieldIdx, Idx, VariantIdx};
use abi_scalar::{LayoutData, ReprOptions, Scalar, Variants, WrappingRange};
use abi_tree::{Laid, TypeTree};
use rustc_abi::{LayError, lay_out};
use std::alloc::{AllocError, Global};
use std::mem;

/// The variants of an enum: their discriminants and fields.
type VariantTrees<'a> = &'a [(u128, Vec<TypeTree>)];

/// By what types are laid out.
#[derive(Clone, Copy)]
pub(crate) struct LayContext<'a> {
    pub(crate) alloc: Global,
    pub(crate) dl: &'a TargetDataLayout,
}

/// How large a list of fields is at least.
#[derive(Drop)]
pub(crate) struct ListCost {
    /// The variant that has the fields; none where they are those of a struct or a union.
    pub(crate) variant: Option<usize>,
    /// The least size that they have in any order, in bytes.
    pub(crate) least: u64,
    /// An order in which they have it, where their type has a fixed one.
    pub(crate) order: Option<Vec<FieldIdx>>,
}

/// The largest variant of an enum that has fields.
#[derive(Clone, Copy)]
pub(crate) struct LargestVariant {
    /// The variant.
    pub(crate) index: usize,
    /// Its size, in bytes.
    pub(crate) size: u64,
    /// The largest of the others, and its size, where there are others.
    pub(crate) next: Option<(usize, u64)>,
    /// The size of the enum, were the variant's fields behind a pointer.
    pub(crate) boxed: u64,
}

/// What could be saved of a type.
#[derive(Drop)]
pub(crate) struct Savings {
    /// How many of its bytes are padding; none where they aren't counted.
    pub(crate) waste: Option<u64>,
    /// Its lists of fields.
    pub(crate) lists: Vec<ListCost>,
    /// Its largest variant.
    pub(crate) largest: Option<LargestVariant>,
}

/// Whether an alignment, where there is one, is one that a type can ask for.
fn is_within_limit(align: Option<Align>) -> bool
    ensures { IsTrue result → IfSome align (λ a. a ≤ 29) }
{
    match align {
        Some(align) => align <= Align::MAX,
        None => true,
    }
}

/// Whether so many fields may be a list of this kind.
fn is_lawful_kind(dl: &TargetDataLayout, kind: &StructKind, count: usize) -> bool
    requires { IsLawfulDataLayout dl.now }
    ensures prefix { IsTrue result → IsWellFormedPrefix kind.now (size_bound dl.now) }
    ensures tail { IsTrue result → IsNonEmptyIfUnsized kind.now count }
{
    match *kind {
        StructKind::AlwaysSized => true,
        StructKind::MaybeUnsized => count > 0,
        StructKind::Prefixed(size, align) => {
            size.bytes() < dl.obj_size_bound() && align <= Align::MAX
        }
    }
}

/// Whether a list of so many fields can be laid out at all.
fn is_lawful_list(
    dl: &TargetDataLayout,
    repr: &ReprOptions,
    kind: &StructKind,
    count: usize,
) -> bool
    ensures data_layout { IsTrue result → IsLawfulDataLayout dl.now }
    ensures few { IsTrue result → count ≤ greatest_place + 1 }
    ensures repr { IsTrue result → HasLawfulAligns repr.now }
    ensures prefix { IsTrue result → IsWellFormedPrefix kind.now (size_bound dl.now) }
    ensures tail { IsTrue result → IsNonEmptyIfUnsized kind.now count }
{
    if !dl.is_lawful() {
        return false;
    }
    count <= FieldIdx::MAX_INDEX
        && is_within_limit(repr.align)
        && is_within_limit(repr.pack)
        && is_lawful_kind(dl, kind, count)
}

/// The types of fields, laid out.
fn laid_fields(cx: LayContext<'_>, trees: &[TypeTree]) -> Result<Vec<Laid>, LayError>
    ensures { IfOk result (λ all. All (λ laid. IsLawfulLayout cx.entry.dl.now (layout_of (placed_of laid))) all.items) }
{
    let mut all = Vec::with_capacity(cx.alloc, trees.len())?;
    for tree in trees {
        let laid = lay_out(cx.alloc, cx.dl, tree)?;
        all.push(laid)?;
    }
    Ok(all)
}

/// The layouts of types.
fn layouts_of<'a>(alloc: Global, types: &'a [Laid]) -> Result<Vec<FieldLayout<'a>>, AllocError>
    ensures { IfOk result (λ all. map (λ l. l.now) all.items ≡ map (λ laid. layout_of (placed_of laid)) types.now) }
{
    let mut all = Vec::with_capacity(alloc, types.len())?;
    for laid in types {
        all.push(laid.layout())?;
    }
    Ok(all)
}

/// The least order of fields that are laid out; none where they can't be a list.
fn least_of_laid(
    cx: LayContext<'_>,
    fields: &[Laid],
    repr: &ReprOptions,
    kind: &StructKind,
) -> Result<Option<LeastOrder>, LayError>
    requires { All (λ laid. IsLawfulLayout cx.dl.now (layout_of (placed_of laid))) fields.now }
    ensures { IfOk result (λ found. IfSome found (λ least. IsLeastOrder cx.entry.dl.now repr.now kind.now
        (map (λ laid. layout_of (placed_of laid)) fields.now) least.size least.order.items)) }
{
    if !is_lawful_list(cx.dl, repr, kind, fields.len()) {
        return Ok(None);
    }
    let layouts = layouts_of(cx.alloc, fields)?;
    Ok(Some(least_order(cx.alloc, cx.dl, &layouts, repr, *kind)?))
}

/// The list of these fields, whose type has them in a fixed order; of this size where another isn't known.
fn fixed_list(
    cx: LayContext<'_>,
    fields: &[TypeTree],
    repr: &ReprOptions,
    kind: &StructKind,
    size: u64,
) -> Result<ListCost, LayError> {
    let laid = laid_fields(cx, fields)?;
    let found = least_of_laid(cx, &laid, repr, kind)?;
    Ok(match found {
        Some(LeastOrder { size, order }) => ListCost {
            variant: None,
            least: size,
            order: Some(order),
        },
        None => free_list(size),
    })
}

/// A list of this size, whose order is free, so that it is the least.
fn free_list(size: u64) -> ListCost {
    ListCost {
        variant: None,
        least: size,
        order: None,
    }
}

/// The list of a struct's fields, which has this size.
fn list_of_struct(
    cx: LayContext<'_>,
    repr: &ReprOptions,
    always_sized: bool,
    fields: &[TypeTree],
    size: u64,
) -> Result<ListCost, LayError> {
    if !repr.inhibit_struct_field_reordering() {
        return Ok(free_list(size));
    }
    let kind = if always_sized || fields.is_empty() {
        StructKind::AlwaysSized
    } else {
        StructKind::MaybeUnsized
    };
    fixed_list(cx, fields, repr, &kind, size)
}

/// The size of a variant, from the first byte of the enum on; 0 where it is left out.
fn variant_size(layout: &LayoutData<FieldIdx, VariantIdx>, variant: usize) -> u64 {
    match &layout.variants {
        Variants::Empty => 0,
        Variants::Single { index } => {
            if index.as_usize() == variant {
                layout.size.bytes()
            } else {
                0
            }
        }
        Variants::Multiple {
            tag: _,
            tag_encoding: _,
            tag_field: _,
            variants,
        } => match variants.as_slice().as_raw().get(variant) {
            Some(layout) => layout.size.bytes(),
            None => 0,
        },
    }
}

/// The greatest of an alignment and those of types.
fn greatest_align(own: Align, types: &[Laid]) -> Align {
    let mut greatest = own;
    for laid in types {
        greatest = greatest.max(laid.layout().align.abi);
    }
    greatest
}

/// The greatest of an alignment and those of all fields of variants.
fn align_with_all(
    cx: LayContext<'_>,
    own: Align,
    variants: VariantTrees<'_>,
) -> Result<Align, LayError> {
    let mut greatest = own;
    for (_, fields) in variants {
        greatest = greatest_align(greatest, &laid_fields(cx, fields)?);
    }
    Ok(greatest)
}

/// Of which kind the lists of variants are in a fixed order: each lies behind the tag; under C behind as much as a union of
/// them would.
fn kind_of_variants(
    cx: LayContext<'_>,
    repr: &ReprOptions,
    variants: VariantTrees<'_>,
    layout: &LayoutData<FieldIdx, VariantIdx>,
) -> Result<StructKind, LayError> {
    let Variants::Multiple { tag, .. } = &layout.variants else {
        return Ok(StructKind::AlwaysSized);
    };
    let Primitive::Int(tag, _) = tag.primitive() else {
        return Ok(StructKind::AlwaysSized);
    };
    let own = tag.align(cx.dl);
    let align = if repr.c() {
        align_with_all(cx, own, variants)?
    } else {
        own
    };
    Ok(StructKind::Prefixed(tag.size(), align))
}

/// The list of the fields of a variant, which has this size.
fn list_of_variant(
    cx: LayContext<'_>,
    repr: &ReprOptions,
    fields: &[TypeTree],
    kind: &StructKind,
    size: u64,
) -> Result<ListCost, LayError> {
    if repr.inhibit_struct_field_reordering() {
        fixed_list(cx, fields, repr, kind, size)
    } else {
        Ok(free_list(size))
    }
}

/// The lists of the variants that have fields.
fn lists_of_enum(
    cx: LayContext<'_>,
    repr: &ReprOptions,
    variants: VariantTrees<'_>,
    laid: &Laid,
) -> Result<Vec<ListCost>, LayError> {
    let layout = laid.layout();
    let kind = kind_of_variants(cx, repr, variants, layout)?;
    let mut lists = Vec::with_capacity(cx.alloc, variants.len())?;
    for (index, (_, fields)) in variants.iter().enumerate() {
        if !fields.is_empty() {
            let size = variant_size(layout, index);
            let list = list_of_variant(cx, repr, fields, &kind, size)?;
            lists.push(ListCost {
                variant: Some(index),
                ..list
            })?;
        }
    }
    Ok(lists)
}

/// One list.
fn one_list(alloc: Global, list: ListCost) -> Result<Vec<ListCost>, AllocError> {
    let mut lists = Vec::with_capacity(alloc, 1)?;
    lists.push(list)?;
    Ok(lists)
}

/// The lists of a type's fields.
fn lists_of(cx: LayContext<'_>, tree: &TypeTree, laid: &Laid) -> Result<Vec<ListCost>, LayError> {
    let size = laid.layout().size.bytes();
    match tree {
        TypeTree::Struct {
            repr,
            always_sized,
            fields,
        } => {
            let list = list_of_struct(cx, repr, *always_sized, fields, size)?;
            Ok(one_list(cx.alloc, list)?)
        }
        TypeTree::Union { repr: _, fields: _ } => Ok(one_list(cx.alloc, free_list(size))?),
        TypeTree::Enum { repr, variants } => lists_of_enum(cx, repr, variants, laid),
        _ => Ok(Vec::new(cx.alloc)),
    }
}

/// What could be saved of a type with named parts; of one without them only how many bytes are padding.
pub(crate) fn savings_of(
    cx: LayContext<'_>,
    tree: &TypeTree,
    has_parts: bool,
    laid: &Laid,
    largest: Option<LargestVariant>,
) -> Result<Savings, LayError> {
    let waste = waste_of(cx.alloc, laid)?;
    if !has_parts {
        return Ok(Savings {
            waste,
            lists: Vec::new(cx.alloc),
            largest: None,
        });
    }
    Ok(Savings {
        waste,
        lists: lists_of(cx, tree, laid)?,
        largest,
    })
}

/// The tree of a pointer that isn't null.
fn pointer_tree(dl: &TargetDataLayout) -> TypeTree {
    let size = Size::from_bytes(dl.pointer_size().bytes().min(16).max(1));
    TypeTree::Scalar(Scalar::Initialized {
        value: Primitive::Pointer(dl.default_address_space),
        valid_range: WrappingRange {
            start: 1,
            end: WrappingRange::full(size).end,
        },
    })
}

/// Puts other fields in the place of a variant's, and answers those that were there.
fn exchange_fields(tree: &mut TypeTree, variant: usize, fields: Vec<TypeTree>) -> Vec<TypeTree> {
    match tree {
        TypeTree::Enum { repr: _, variants } => match variants.get_mut(variant) {
            Some((_, own)) => mem::replace(own, fields),
            None => fields,
        },
        _ => fields,
    }
}

/// The size of an enum, were the fields of a variant behind a pointer. The tree is as before in the end.
fn size_with_box(cx: LayContext<'_>, tree: &mut TypeTree, variant: usize) -> Result<u64, LayError> {
    let mut pointer = Vec::with_capacity(cx.alloc, 1)?;
    pointer.push(pointer_tree(cx.dl))?;
    let own = exchange_fields(tree, variant, pointer);
    let size = size_of_tree(cx.alloc, cx.dl, tree);
    let _pointer = exchange_fields(tree, variant, own);
    size
}

/// The sizes of variants, from the first byte of the enum on.
fn variant_sizes(
    alloc: Global,
    layout: &LayoutData<FieldIdx, VariantIdx>,
    count: usize,
) -> Result<Vec<u64>, AllocError> {
    let mut sizes = Vec::with_capacity(alloc, count)?;
    for variant in 0..count {
        sizes.push(variant_size(layout, variant))?;
    }
    Ok(sizes)
}

/// The largest variant that has fields, and its size; of equal ones the first. And the largest of the others.
fn largest_of_sizes(
    alloc: Global,
    variants: VariantTrees<'_>,
    sizes: &[u64],
) -> Result<Option<LargestVariant>, AllocError> {
    let mut largest: Option<usize> = None;
    let mut next: Option<usize> = None;
    for place in falling_order(alloc, sizes)? {
        let has_fields = variants
            .get(place)
            .is_some_and(|(_, fields)| !fields.is_empty());
        if largest.is_none() && has_fields {
            largest = Some(place);
        } else if next.is_none() {
            next = Some(place);
        }
    }
    let size_at = |place: usize| sizes.get(place).copied().unwrap_or(0);
    Ok(largest.map(|index| LargestVariant {
        index,
        size: size_at(index),
        next: next.map(|place| (place, size_at(place))),
        boxed: 0,
    }))
}

/// The largest variant of an enum that has fields, and the next.
fn largest_of_tree(
    cx: LayContext<'_>,
    tree: &TypeTree,
) -> Result<Option<LargestVariant>, LayError> {
    let TypeTree::Enum { repr: _, variants } = tree else {
        return Ok(None);
    };
    let laid = lay_out(cx.alloc, cx.dl, tree)?;
    let sizes = variant_sizes(cx.alloc, laid.layout(), variants.len())?;
    Ok(largest_of_sizes(cx.alloc, variants, &sizes)?)
}

/// The largest variant that has fields, were it behind a pointer, too; none where no variant of an enum has fields. The tree
/// is as before in the end.
pub(crate) fn largest_variant(
    cx: LayContext<'_>,
    tree: &mut TypeTree,
) -> Result<Option<LargestVariant>, LayError> {
    let found = largest_of_tree(cx, tree)?;
    let Some(largest) = found else {
        return Ok(None);
    };
    let boxed = size_with_box(cx, tree, largest.index)?;
    Ok(Some(LargestVariant { boxed, ..largest }))
}
