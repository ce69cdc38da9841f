//! Parts of a type that cells don't hold: the first of each node, in the order of its fields and elements.

ghost use Rattle.std.specs.Prelude.{◌≡◌, ◌∷◌, ◌+◌, ◌*◌, ◌^◌, ◌<◌, ◌≤◌, All, IfOk, MatchOption, None, Some, [], length, true};
ghost use Rattle.abi_scalar.specs.Shape.{listed_offsets};
ghost use Rattle.abi_scalar.specs.Layout.{Layout};
ghost use Rattle.abi_tree.specs.Nodes.{own_fields, parts_at, placed_at, variant_left};
ghost use Rattle.abi_tree.specs.Placed.{pair, size_of, vector};
ghost use Rattle.abi_tree.specs.Room.{has_room, have_room};
ghost use Rattle.abi_tree.specs.Well.{all_at};
ghost use Rattle.abi_tree.specs.Widths.{is_narrow};
ghost use Rattle.abi_bytes.specs.Holding.{AreEach, HoldCells, HoldCellsOfParts, HoldScalar, cells_at};
ghost use Rattle.abi_bytes.specs.NotHeld.{IsWhyNumber, IsWrong, MakeAt};
ghost use Rattle.abi_bytes.specs.WrongParts.{ArePartsIn, IsTagIn, IsWrongElement, IsWrongIn, Judges, JudgesParts, JudgesState, JudgesTag, JudgesType, field_step};
ghost use Rattle.abi_bytes.specs.declared.not_held.PartStep.TheVariants.{Tag};

use crate::cell_numbers::number_at;
use crate::cell_walk::CellWalk;
use crate::nodes::{are_two_numbers, is_list};
use crate::not_held::{NotHeld, PartStep, Why, WrongPart};
use abi_base::Size;
use abi_index::{FieldIdx, Idx, VariantIdx};
use abi_scalar::{LayoutData, Scalar, TagEncoding, Variants};
use abi_tree::{Shape, encoding_of, is_named, offsets, own_parts, state_tag_offset, tag_offset};
use std::alloc::{AllocError, Global};

/// Fields at their offsets in a type of so many cells that lies at a place: those of a variant, where one is given.
#[derive(Clone, Copy)]
struct PartsAt<'a> {
    at: usize,
    size: u64,
    variant: Option<usize>,
    offsets: &'a [Size],
    children: &'a [usize],
}

/// A tag at its offset in a type of so many cells that lies at a place, and the variants beside it, each with its number and
/// its node.
#[derive(Clone, Copy)]
struct TagAt<'a> {
    at: usize,
    size: u64,
    offset: u64,
    width: u64,
    encoding: &'a TagEncoding<VariantIdx>,
    variants: &'a [(u128, usize)],
}

/// The step to a field: to one of a variant, where that is given.
fn field_step(variant: Option<usize>, index: usize) -> PartStep
    ensures { result ≡ field_step variant index }
{
    match variant {
        None => PartStep::Field(index),
        Some(variant) => PartStep::VariantField(variant, index),
    }
}

/// Which variant is left of an enum without a tag.
fn index_left(layout: &LayoutData<FieldIdx, VariantIdx>) -> usize
    ensures { result ≡ variant_left layout.now.variants }
{
    match &layout.variants {
        Variants::Single { index } => index.as_usize(),
        _ => 0,
    }
}

/// Puts a step before the way to a part that cells don't hold.
fn put_step(step: PartStep, found: NotHeld) -> Result<NotHeld, AllocError>
    ensures way { IfOk result (λ f. f.way.items ≡ step ∷ found.way.items) }
    ensures part { IfOk result (λ f. f.part ≡ found.part) }
{
    let NotHeld { mut way, part } = found;
    way.insert(0, step)?;
    Ok(NotHeld { way, part })
}

/// That cells don't hold the type itself, of so many cells at a place.
fn wrong_here(alloc: Global, at: usize, size: u64, why: Why) -> NotHeld
    ensures way { result.way.items ≡ [] }
    ensures part { result.part ≡ record { start = at; size = size; why = why } }
{
    let part = WrongPart {
        start: at as u64,
        size,
        why,
    };
    let way = Vec::new(alloc);
    NotHeld { way, part }
}

/// Why a number of so many cells at a place isn't held.
fn why_no_number(walk: CellWalk<'_>, scalar: Scalar, at: usize, size: u64) -> Option<Why>
    requires narrow { is_narrow size scalar ≡ true }
    requires fits { at + size ≤ length walk.cells.now }
    ensures { MatchOption result
        (HoldScalar walk.entry.order size scalar (cells_at walk.entry.cells.now at size))
        (λ why. (HoldScalar walk.entry.order size scalar (cells_at walk.entry.cells.now at size) → ⊥)
        × IsWhyNumber walk.entry.order walk.entry.cells.now scalar at size why) }
{
    match scalar {
        Scalar::Initialized {
            value: _,
            valid_range,
        } => match number_at(walk.order, walk.cells, at, size as usize) {
            Ok(number) => if valid_range.contains(number) {
                None
            } else {
                Some(Why::OutOfRange(number, scalar))
            },
            Err(place) => Some(Why::Unset(place as u64)),
        },
        Scalar::Union { value: _ } => None,
    }
}

/// The part of a node, which lies at a place, that isn't held.
#[cycle(wrong)]
pub(crate) fn node_wrong(
    walk: CellWalk<'_>,
    node: usize,
    at: usize,
) -> Result<Option<NotHeld>, AllocError>
    requires there { node < length walk.nodes.now }
    requires room { has_room (placed_at walk.nodes.now node) ≡ true }
    requires fits { at + size_of (placed_at walk.nodes.now node) ≤ length walk.cells.now }
    ensures { IfOk result (JudgesType walk.entry (placed_at walk.entry.nodes.now node) at) }
{
    let here = walk.nodes.node(node);
    let layout = here.layout;
    let size = layout.size.bytes();
    match here.shape {
        Shape::Scalar(scalar) => match why_no_number(walk, *scalar, at, size) {
            Some(why) => Ok(Some(wrong_here(walk.alloc, at, size, why))),
            None => Ok(None),
        },
        Shape::Pair { first, second } => pair_wrong(walk, node, layout, (*first, *second), at),
        Shape::Never(_) => Ok(Some(wrong_here(walk.alloc, at, size, Why::NoValue))),
        Shape::Elements { count, element } => elements_wrong(walk, *element, *count, at),
        Shape::Fields(_, children) => parts_wrong(
            walk,
            node,
            PartsAt {
                at,
                size,
                variant: None,
                offsets: offsets(layout),
                children,
            },
        ),
        Shape::Union(_, _) => Ok(None),
        Shape::Vector(lanes) => vector_wrong(walk, *lanes, at, size),
        Shape::Single(_, children) => parts_wrong(
            walk,
            node,
            PartsAt {
                at,
                size,
                variant: Some(index_left(layout)),
                offsets: offsets(layout),
                children,
            },
        ),
        Shape::Tagged {
            mark: _,
            tag,
            variants,
        } => variants_wrong(
            walk,
            node,
            TagAt {
                at,
                size,
                offset: tag_offset(layout),
                width: walk.nodes.layout(*tag).size.bytes(),
                encoding: &encoding_of(layout),
                variants,
            },
        ),
        Shape::States {
            prefix,
            tag,
            states,
        } => states_wrong(
            walk,
            node,
            PartsAt {
                at,
                size,
                variant: None,
                offsets: offsets(layout),
                children: prefix,
            },
            TagAt {
                at,
                size,
                offset: state_tag_offset(layout, prefix.len()),
                width: walk.nodes.layout(*tag).size.bytes(),
                encoding: &TagEncoding::Direct,
                variants: states,
            },
        ),
    }
}

/// The same of a node that is two numbers, at the first two offsets.
#[cycle(wrong)]
fn pair_wrong(
    walk: CellWalk<'_>,
    node: usize,
    layout: &LayoutData<FieldIdx, VariantIdx>,
    numbers: (usize, usize),
    at: usize,
) -> Result<Option<NotHeld>, AllocError>
    requires there { node < length walk.nodes.now }
    requires before { All (λ child. child < node) (numbers.0 ∷ numbers.1 ∷ []) }
    requires room { have_room layout.now.size (parts_at (listed_offsets layout.now.fields)
        (all_at walk.nodes.now (numbers.0 ∷ numbers.1 ∷ []))) ≡ true }
    requires fits { at + layout.now.size ≤ length walk.cells.now }
    ensures { IfOk result (JudgesType walk.entry (pair layout.now (parts_at
        (listed_offsets layout.now.fields) (all_at walk.entry.nodes.now (numbers.0 ∷ numbers.1 ∷ [])))) at) }
{
    let (first, second) = numbers;
    let offsets = offsets(layout);
    let size = layout.size.bytes();
    if !are_two_numbers(walk.nodes, offsets, first, second) {
        return Ok(Some(wrong_here(walk.alloc, at, size, Why::NoValue)));
    }
    let parts = PartsAt {
        at,
        size,
        variant: None,
        offsets,
        children: &[first, second],
    };
    parts_wrong(walk, node, parts)
}

/// The same of a node that is a vector of so many cells, by its lanes.
#[cycle(wrong)]
fn vector_wrong(
    walk: CellWalk<'_>,
    lanes: usize,
    at: usize,
    size: u64,
) -> Result<Option<NotHeld>, AllocError>
    requires there { lanes < length walk.nodes.now }
    requires room { has_room (placed_at walk.nodes.now lanes) ≡ true }
    requires inside { size_of (placed_at walk.nodes.now lanes) ≤ size }
    requires fits { at + size ≤ length walk.cells.now }
    ensures { IfOk result (λ found. (layout : Layout) → layout.size ≡ size → Judges
        (HoldCells walk.entry.order (vector layout (placed_at walk.entry.nodes.now lanes))
        (cells_at walk.entry.cells.now at size))
        (IsWrong walk.entry.order walk.entry.cells.now
        (vector layout (placed_at walk.entry.nodes.now lanes)) at) found) }
{
    if !is_list(walk.nodes, lanes) {
        return Ok(Some(wrong_here(walk.alloc, at, size, Why::NoValue)));
    }
    match node_wrong(walk, lanes, at)? {
        Some(found) => Ok(Some(put_step(PartStep::Lanes, found)?)),
        None => Ok(None),
    }
}

/// The element, of so many that lie one after another from a place on, that isn't held. All elements without cells are one.
#[cycle(wrong)]
fn elements_wrong(
    walk: CellWalk<'_>,
    element: usize,
    count: u64,
    at: usize,
) -> Result<Option<NotHeld>, AllocError>
    requires there { element < length walk.nodes.now }
    requires room { has_room (placed_at walk.nodes.now element) ≡ true }
    requires fits { at + size_of (placed_at walk.nodes.now element) * count ≤ length walk.cells.now }
    ensures { IfOk result (Judges
        (AreEach (HoldCells walk.entry.order (placed_at walk.entry.nodes.now element)) count
        (size_of (placed_at walk.entry.nodes.now element)) 0
        (cells_at walk.entry.cells.now at (size_of (placed_at walk.entry.nodes.now element) * count)))
        (IsWrongElement walk.entry.order walk.entry.cells.now
        (placed_at walk.entry.nodes.now element) at count)) }
{
    let size = walk.nodes.layout(element).size.bytes();
    let turns = if size == 0 { count.min(1) } else { count };
    for i in 0..turns {
        let start = at + (i * size) as usize;
        if let Some(found) = node_wrong(walk, element, start)? {
            return Ok(Some(put_step(PartStep::Element(i), found)?));
        }
    }
    Ok(None)
}

/// The field that isn't held; each is as a node before this one.
#[cycle(wrong)]
fn parts_wrong(
    walk: CellWalk<'_>,
    node: usize,
    parts: PartsAt<'_>,
) -> Result<Option<NotHeld>, AllocError>
    requires there { node < length walk.nodes.now }
    requires parts { ArePartsIn walk node parts }
    ensures { IfOk result (JudgesParts walk.entry parts.entry) }
{
    let PartsAt {
        at,
        size: _,
        variant,
        offsets,
        children,
    } = parts;
    let count = offsets.len().min(children.len());
    for i in 0..count {
        let start = at + offsets[i].bytes() as usize;
        if let Some(found) = node_wrong(walk, children[i], start)? {
            return Ok(Some(put_step(field_step(variant, i), found)?));
        }
    }
    Ok(None)
}

/// That a tag isn't held.
fn tag_wrong(alloc: Global, tag: TagAt<'_>, why: Why) -> Result<NotHeld, AllocError>
    requires { tag.at + tag.offset < 2 ^ 64 }
    ensures way { IfOk result (λ f. f.way.items ≡ Tag ∷ []) }
    ensures part { IfOk result (λ f.
        f.part ≡ record { start = tag.entry.at + tag.entry.offset; size = tag.entry.width; why = why }) }
{
    let start = tag.at + tag.offset as usize;
    let found = wrong_here(alloc, start, tag.width, why);
    put_step(PartStep::Tag, found)
}

/// The field that isn't held of the variant, with this index and this node, beside a tag.
#[cycle(wrong)]
fn own_wrong(
    walk: CellWalk<'_>,
    variant: usize,
    index: usize,
    tag: TagAt<'_>,
) -> Result<Option<NotHeld>, AllocError>
    requires there { variant < length walk.nodes.now }
    requires room { have_room tag.size (own_fields (placed_at walk.nodes.now variant)) ≡ true }
    requires fits { tag.at + tag.size ≤ length walk.cells.now }
    ensures { IfOk result (Judges
        (HoldCellsOfParts walk.entry.order (own_fields (placed_at walk.entry.nodes.now variant))
        (cells_at walk.entry.cells.now tag.entry.at tag.entry.size))
        (IsWrongIn walk.entry.order walk.entry.cells.now (Some index)
        (own_fields (placed_at walk.entry.nodes.now variant)) tag.entry.at)) }
{
    let (offsets, children) = own_parts(walk.nodes, variant);
    let parts = PartsAt {
        at: tag.at,
        size: tag.size,
        variant: Some(index),
        offsets,
        children,
    };
    parts_wrong(walk, variant, parts)
}

/// What isn't held of a tag with this number and of the variants beside it, each of which is as a node before this one.
#[cycle(wrong)]
fn named_wrong(
    walk: CellWalk<'_>,
    node: usize,
    tag: TagAt<'_>,
    number: u128,
) -> Result<Option<NotHeld>, AllocError>
    requires there { node < length walk.nodes.now }
    requires tag { IsTagIn walk node tag }
    requires made { MakeAt walk.order walk.cells.now (tag.at + tag.offset) tag.width number }
    ensures { IfOk result (JudgesTag walk.entry tag.entry) }
{
    let width = Size::from_bytes(tag.width);
    let mut found = None;
    for i in 0..tag.variants.len() {
        if is_named(walk.nodes, tag.encoding, width, tag.variants, i, number) {
            match own_wrong(walk, tag.variants[i].1, i, tag)? {
                Some(wrong) => found = Some(wrong),
                None => return Ok(None),
            }
        }
    }
    match found {
        Some(wrong) => Ok(Some(wrong)),
        None => Ok(Some(tag_wrong(walk.alloc, tag, Why::NoVariant(number))?)),
    }
}

/// What isn't held of a tag and of the variants beside it, each of which is as a node before this one.
#[cycle(wrong)]
fn variants_wrong(
    walk: CellWalk<'_>,
    node: usize,
    tag: TagAt<'_>,
) -> Result<Option<NotHeld>, AllocError>
    requires there { node < length walk.nodes.now }
    requires tag { IsTagIn walk node tag }
    ensures { IfOk result (JudgesTag walk.entry tag.entry) }
{
    let start = tag.at + tag.offset as usize;
    match number_at(walk.order, walk.cells, start, tag.width as usize) {
        Ok(number) => named_wrong(walk, node, tag, number),
        Err(place) => {
            let why = Why::Unset(place as u64);
            Ok(Some(tag_wrong(walk.alloc, tag, why)?))
        }
    }
}

/// What isn't held of the prefix fields of a coroutine, of its tag and of the states beside that.
#[cycle(wrong)]
fn states_wrong(
    walk: CellWalk<'_>,
    node: usize,
    prefix: PartsAt<'_>,
    tag: TagAt<'_>,
) -> Result<Option<NotHeld>, AllocError>
    requires there { node < length walk.nodes.now }
    requires prefix { ArePartsIn walk node prefix }
    requires tag { IsTagIn walk node tag }
    requires one { (prefix.at ≡ tag.at) × (prefix.size ≡ tag.size) × (prefix.variant ≡ None) }
    ensures { IfOk result (JudgesState walk.entry prefix.entry tag.entry) }
{
    match parts_wrong(walk, node, prefix)? {
        Some(found) => Ok(Some(found)),
        None => variants_wrong(walk, node, tag),
    }
}
