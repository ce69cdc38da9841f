//! The bytes of a value.

ghost use Rattle.std.specs.Prelude.{◌≡◌, ℕ, ◌+◌, ◌*◌, ◌<◌, ◌≤◌, All, IfErr, IfOk, List, OnOk, length, get_or, nat_lt, true, false};
ghost use Rattle.abi_base.specs.declared.data_layout.TargetDataLayout.{TargetDataLayout};
ghost use Rattle.abi_tree.specs.declared.value.error.ValueError.{ValueError};
ghost use Rattle.abi_tree.specs.Tree.{Tree};
ghost use Rattle.abi_tree.specs.Values.{IsValueOf};
ghost use Rattle.abi_tree.specs.Laid.{endian_of, placed_of};
ghost use Rattle.abi_tree.specs.Value.{value_count, value_of, values_of};
ghost use Rattle.abi_tree.specs.Bytes.{AreBytes, number_of, picked_bytes};
ghost use Rattle.abi_tree.specs.declared.mark.Mark.{Mark};
ghost use Rattle.abi_tree.specs.Placed.{Placed, size_of, tagged};
ghost use Rattle.abi_tree.specs.Places.{is_data_place};
ghost use Rattle.abi_scalar.specs.Shape.{listed_offsets};
ghost use Rattle.abi_tree.specs.Tag.{Names};
ghost use Rattle.abi_tree.specs.Holding.{Holds};
ghost use Rattle.abi_tree.specs.Nodes.{tagged_variants_in, encoding_of, own_fields, parts_at, placed_at, states_in, tag_offset, types_in};
ghost use Rattle.abi_tree.specs.Well.{all_at};
ghost use Rattle.abi_tree.specs.Room.{tagged_variants_have_room, has_room, have_room};
ghost use Rattle.abi_index.specs.RangeSet.{AreMaximalRuns, is_in_ranges};
ghost use Rattle.abi_tree.specs.Reading.{KeepsValues, AnswersHeld};
ghost use Rattle.abi_tree.specs.Covering.{is_covered, is_tagged};
ghost use Rattle.abi_tree.specs.Putting.{PutsTaggedVariant, PutsEach, PutsParts, PutsTag, PutsValue};
ghost use Rattle.abi_tree.specs.Writing.{IsPutOver};

use crate::counted::CountedNodes;
use crate::laid::Laid;
use crate::node::{Shape, offsets, state_tag_offset, tag_offset};
use crate::runs_of::data_places;
use crate::value::Value;
use crate::value::error::ValueError;
use crate::value::named::{encoding_of, niche_number, own_parts};
use crate::value::read::read_node;
use crate::value::same::is_same;
use crate::value::walk::ValueWalk;
use abi_base::{Endian, Size};
use abi_index::{FieldIdx, Idx, VariantIdx};
use abi_scalar::{LayoutData, TagEncoding};
use std::alloc::{AllocError, Global};

/// One byte of a number of `width` bytes: the one with this index in memory.
fn byte_at(order: Endian, number: u128, width: usize, i: usize) -> u8
    requires width { width ≤ 16 }
    requires index { i < width }
    ensures { (b : List ℕ) → AreBytes b → length b ≡ width →
        number ≡ number_of order b → result ≡ get_or b i 0 }
{
    let place = match order {
        Endian::Little => i,
        Endian::Big => width - 1 - i,
    };
    ((number >> (8 * place)) % 256) as u8
}

/// Puts a number of `width` bytes over those from a place on.
pub(crate) fn put_number(order: Endian, number: u128, width: usize, at: usize, bytes: &mut [u8])
    requires width { width ≤ 16 }
    requires fits { at + width ≤ length bytes.old }
    ensures long { length bytes.new ≡ length bytes.old }
    ensures put { (b : List ℕ) → AreBytes b → length b ≡ width → number ≡ number_of order b →
        IsPutOver (λ k. nat_lt k width) at b bytes.old bytes.new }
{
    for i in 0..width {
        bytes[at + i] = byte_at(order, number, width, i);
    }
}

/// Puts a union's data bytes over those at the runs' places, counted from a place on.
fn put_places(runs: &[(u64, u64)], content: &[u8], at: usize, size: usize, bytes: &mut [u8])
    requires maximal { AreMaximalRuns 0 runs.now }
    requires inside { All (λ run. run.0 + run.1 ≤ size) runs.now }
    requires fits { at + size ≤ length bytes.old }
    ensures long { length bytes.new ≡ length bytes.old }
    ensures put { (b : List ℕ) →
        length b ≡ size → content.now ≡ picked_bytes (is_in_ranges runs.now) 0 b →
        IsPutOver (is_in_ranges runs.now) at b bytes.old bytes.new }
{
    let mut next = 0;
    for run in runs {
        for k in run.0..run.0 + run.1 {
            if next < content.len() {
                bytes[at + k as usize] = content[next];
                next += 1;
            }
        }
    }
}

/// What a node names beside its layout where a tag distinguishes its variants or states: the prefix fields, which an enum
/// has none of, the tag, and the variants or states, each with its number.
#[derive(Clone, Copy)]
pub(crate) struct TaggedNodes<'a> {
    pub(crate) prefix: &'a [usize],
    pub(crate) tag: usize,
    pub(crate) tagged_variants: &'a [(u128, usize)],
}

/// What a node of this shape names beside its layout; nothing where there is no tag.
pub(crate) fn tagged_nodes(shape: &Shape) -> TaggedNodes<'_>
    ensures tagged { (mark : Mark) (tag : ℕ) (all : _) → shape.now ≡ Shape.Tagged mark tag all →
        (result.tag ≡ tag) × (result.tagged_variants.now ≡ all.items) }
    ensures states { (prefix : _) (tag : ℕ) (all : _) → shape.now ≡ Shape.States prefix tag all →
        (result.prefix.now ≡ prefix.items) × (result.tag ≡ tag) × (result.tagged_variants.now ≡ all.items) }
{
    match shape {
        Shape::Tagged {
            mark: _,
            tag,
            variants,
        } => TaggedNodes {
            prefix: &[],
            tag: *tag,
            tagged_variants: variants,
        },
        Shape::States {
            prefix,
            tag,
            states,
        } => TaggedNodes {
            prefix,
            tag: *tag,
            tagged_variants: states,
        },
        _ => TaggedNodes {
            prefix: &[],
            tag: 0,
            tagged_variants: &[],
        },
    }
}

/// What a tag and the variants or states beside it are written by: how it distinguishes them, its node, its offset in
/// bytes, the variants or states, each with its number, and how many bytes all of them lie in.
#[derive(Clone, Copy)]
pub(crate) struct TagLayout<'a> {
    pub(crate) encoding: &'a TagEncoding<VariantIdx>,
    pub(crate) tag: usize,
    pub(crate) offset: u64,
    pub(crate) tagged_variants: &'a [(u128, usize)],
    pub(crate) size: usize,
}

/// The number that a tag of this width has for a variant, where the variant has one of its own.
fn tag_number(
    encoding: &TagEncoding<VariantIdx>,
    width: Size,
    variants: &[(u128, usize)],
    i: usize,
) -> u128
    requires width { width ≤ 16 }
    requires index { i < length variants.now }
    ensures { (done : List Placed) (tag : ℕ) → Names encoding.now width
        (tagged_variants_in done variants.now) tag i → is_tagged encoding.now i ≡ true → result ≡ tag }
{
    match encoding {
        TagEncoding::Direct => width.truncate(variants[i].0),
        TagEncoding::Niche {
            untagged_variant: _,
            niche_variants,
            niche_start,
        } => {
            let first = niche_variants.start.as_usize();
            if first <= i {
                niche_number(width, first, *niche_start, i)
            } else {
                0
            }
        }
    }
}

/// Whether the variant has a number of its own in the tag.
fn is_tagged(encoding: &TagEncoding<VariantIdx>, i: usize) -> bool
    ensures { result ≡ is_tagged encoding.now i }
{
    match encoding {
        TagEncoding::Direct => true,
        TagEncoding::Niche {
            untagged_variant,
            ..
        } => untagged_variant.as_usize() != i,
    }
}

/// Puts the tag of a variant over the bytes at its offset, where the variant has a number of its own.
pub(crate) fn write_tag(
    order: Endian,
    tag_layout: TagLayout<'_>,
    width: Size,
    i: usize,
    at: usize,
    bytes: &mut [u8],
)
    requires width { width ≤ 16 }
    requires index { i < length tag_layout.tagged_variants.now }
    requires fits { at + (tag_layout.offset + width) ≤ length bytes.old }
    ensures long { length bytes.new ≡ length bytes.old }
    ensures put { PutsTag order at bytes.old bytes.new tag_layout.entry.encoding.now
        tag_layout.entry.offset width tag_layout.entry.tagged_variants.now i }
{
    if is_tagged(tag_layout.encoding, i) {
        let number = tag_number(tag_layout.encoding, width, tag_layout.tagged_variants, i);
        put_number(
            order,
            number,
            width.bytes() as usize,
            at + tag_layout.offset as usize,
            bytes,
        );
    }
}

/// Puts a union's data bytes over those from a place on.
fn write_union(
    walk: ValueWalk<'_>,
    node: usize,
    content: &[u8],
    at: usize,
    bytes: &mut [u8],
) -> Result<(), AllocError>
    requires there { node < length walk.nodes.now }
    requires room { has_room (placed_at walk.nodes.now node) ≡ true }
    requires fits { at + size_of (placed_at walk.nodes.now node) ≤ length bytes.old }
    ensures long { length bytes.new ≡ length bytes.old }
    ensures put { OnOk result ((b : List ℕ) →
        length b ≡ size_of (placed_at walk.entry.nodes.now node) →
        content.now ≡ picked_bytes (is_data_place (placed_at walk.entry.nodes.now node)) 0 b →
        IsPutOver (is_data_place (placed_at walk.entry.nodes.now node)) at b bytes.old bytes.new) }
{
    let size = walk.nodes.layout(node).size.bytes() as usize;
    let places = data_places(walk.alloc, CountedNodes::new(walk.nodes), node)?;
    put_places(places.as_slice(), content, at, size, bytes);
    Ok(())
}

/// Puts a value over the bytes of a node, wherever its parts cover one. Of a value that no bytes of the node hold
/// nothing is said.
#[cycle(write)]
pub(crate) fn write_node(
    walk: ValueWalk<'_>,
    node: usize,
    value: &Value,
    at: usize,
    bytes: &mut [u8],
) -> Result<(), AllocError>
    requires there { node < length walk.nodes.now }
    requires room { has_room (placed_at walk.nodes.now node) ≡ true }
    requires fits { at + size_of (placed_at walk.nodes.now node) ≤ length bytes.old }
    ensures long { length bytes.new ≡ length bytes.old }
    ensures put { OnOk result (PutsValue walk.entry.order at bytes.old bytes.new
        (placed_at walk.entry.nodes.now node) (value_of value.now)) }
{
    let nodes = walk.nodes;
    let here = nodes.node(node);
    let layout = here.layout;
    match here.shape {
        Shape::Scalar(_) => {
            let size = layout.size.bytes() as usize;
            put_number(walk.order, value.number(), size, at, bytes);
            Ok(())
        }
        Shape::Pair { first, second } => {
            let (one, two) = value.pair();
            let numbers = [Value::Num(one), Value::Num(two)];
            write_fields(walk, node, layout, &[*first, *second], &numbers, at, bytes)
        }
        Shape::Never(_) => Ok(()),
        Shape::Elements { count, element } => {
            write_elements(walk, *element, *count, value.list(), at, bytes)
        }
        Shape::Fields(_, children) => {
            write_fields(walk, node, layout, children, value.list(), at, bytes)
        }
        Shape::Union(_, _) => write_union(walk, node, value.union(), at, bytes),
        Shape::Vector(lanes) => write_node(walk, *lanes, value, at, bytes),
        Shape::Single(_, children) => {
            let (_index, values) = value.variant();
            write_fields(walk, node, layout, children, values, at, bytes)
        }
        Shape::Tagged { .. } => {
            write_variant(
                walk,
                node,
                layout,
                tagged_nodes(here.shape),
                value,
                at,
                bytes,
            )
        }
        Shape::States { .. } => {
            write_state(
                walk,
                node,
                layout,
                tagged_nodes(here.shape),
                value,
                at,
                bytes,
            )
        }
    }
}

/// Puts the values of `count` elements over their bytes, one after another.
#[cycle(write)]
fn write_elements(
    walk: ValueWalk<'_>,
    element: usize,
    count: u64,
    values: &[Value],
    at: usize,
    bytes: &mut [u8],
) -> Result<(), AllocError>
    requires there { element < length walk.nodes.now }
    requires room { has_room (placed_at walk.nodes.now element) ≡ true }
    requires fits { at + size_of (placed_at walk.nodes.now element) * count ≤ length bytes.old }
    ensures long { length bytes.new ≡ length bytes.old }
    ensures put { OnOk result (value_count (values_of values.now) ≡ count →
        PutsEach walk.entry.order at bytes.old bytes.new
        (placed_at walk.entry.nodes.now element) (values_of values.now)) }
{
    let size = walk.nodes.layout(element).size.bytes() as usize;
    for i in 0..values.len().min(count as usize) {
        write_node(walk, element, &values[i], at + i * size, bytes)?;
    }
    Ok(())
}

/// Puts the values of fields over the bytes at these offsets, as those of these nodes. The node whose fields they are,
/// which stands behind theirs, and how many bytes they lie in serve the contract alone.
#[cycle(write)]
fn write_parts(
    walk: ValueWalk<'_>,
    node: usize,
    parts: (&[Size], &[usize]),
    values: &[Value],
    at: usize,
    size: usize,
    bytes: &mut [u8],
) -> Result<(), AllocError>
    requires there { node < length walk.nodes.now }
    requires before { All (λ child. child < node) parts.1.now }
    requires room { have_room size
        (parts_at parts.0.now (all_at walk.nodes.now parts.1.now)) ≡ true }
    requires fits { at + size ≤ length bytes.old }
    ensures long { length bytes.new ≡ length bytes.old }
    ensures put { OnOk result (PutsParts walk.entry.order at bytes.old bytes.new
        (parts_at parts.entry.0.now (all_at walk.entry.nodes.now parts.entry.1.now))
        (values_of values.now)) }
{
    let (offsets, children) = parts;
    for i in 0..offsets.len().min(children.len()).min(values.len()) {
        let place = at + offsets[i].bytes() as usize;
        write_node(walk, children[i], &values[i], place, bytes)?;
    }
    Ok(())
}

/// Puts the values of the fields of a node, which has this layout, over their bytes.
#[cycle(write)]
fn write_fields(
    walk: ValueWalk<'_>,
    node: usize,
    layout: &LayoutData<FieldIdx, VariantIdx>,
    children: &[usize],
    values: &[Value],
    at: usize,
    bytes: &mut [u8],
) -> Result<(), AllocError>
    requires there { node < length walk.nodes.now }
    requires before { All (λ child. child < node) children.now }
    requires room { have_room layout.now.size
        (parts_at (listed_offsets layout.now.fields) (all_at walk.nodes.now children.now)) ≡ true }
    requires fits { at + layout.now.size ≤ length bytes.old }
    ensures long { length bytes.new ≡ length bytes.old }
    ensures put { OnOk result (PutsParts walk.entry.order at bytes.old bytes.new
        (parts_at (listed_offsets layout.now.fields) (all_at walk.entry.nodes.now children.now))
        (values_of values.now)) }
{
    let size = layout.size.bytes() as usize;
    let parts = (offsets(layout), children);
    write_parts(walk, node, parts, values, at, size, bytes)
}

/// Puts a variant over the bytes of a node that has this layout, a tag and variants beside it.
#[cycle(write)]
fn write_variant(
    walk: ValueWalk<'_>,
    node: usize,
    layout: &LayoutData<FieldIdx, VariantIdx>,
    beside: TaggedNodes<'_>,
    value: &Value,
    at: usize,
    bytes: &mut [u8],
) -> Result<(), AllocError>
    requires there { node < length walk.nodes.now }
    requires first { beside.tag < node }
    requires before { All (λ v. v.1 < node) beside.tagged_variants.now }
    requires width { size_of (placed_at walk.nodes.now beside.tag) ≤ 16 }
    requires inside { tag_offset layout.now + size_of (placed_at walk.nodes.now beside.tag)
        ≤ layout.now.size }
    requires room { tagged_variants_have_room layout.now.size
        (tagged_variants_in (types_in walk.nodes.now) beside.tagged_variants.now) ≡ true }
    requires fits { at + layout.now.size ≤ length bytes.old }
    ensures long { length bytes.new ≡ length bytes.old }
    ensures put { OnOk result ((mark : Mark) → PutsValue walk.entry.order at bytes.old bytes.new
        (tagged layout.now mark (tag_offset layout.now)
        (placed_at walk.entry.nodes.now beside.entry.tag) (encoding_of layout.now.variants)
        (tagged_variants_in (types_in walk.entry.nodes.now) beside.entry.tagged_variants.now)) (value_of value.now)) }
{
    let encoding = encoding_of(layout);
    let tag_layout = TagLayout {
        encoding: &encoding,
        tag: beside.tag,
        offset: tag_offset(layout),
        tagged_variants: beside.tagged_variants,
        size: layout.size.bytes() as usize,
    };
    let (index, values) = value.variant();
    write_tagged_variant(walk, node, tag_layout, index, values, at, bytes)
}

/// Puts a state over the bytes of a node that has this layout, prefix fields, a tag and states beside it.
#[cycle(write)]
fn write_state(
    walk: ValueWalk<'_>,
    node: usize,
    layout: &LayoutData<FieldIdx, VariantIdx>,
    beside: TaggedNodes<'_>,
    value: &Value,
    at: usize,
    bytes: &mut [u8],
) -> Result<(), AllocError>
    requires there { node < length walk.nodes.now }
    requires fields { All (λ child. child < node) beside.prefix.now }
    requires first { beside.tag < node }
    requires before { All (λ v. v.1 < node) beside.tagged_variants.now }
    requires width { size_of (placed_at walk.nodes.now beside.tag) ≤ 16 }
    requires room { has_room (states_in (types_in walk.nodes.now) layout.now beside.prefix.now
        beside.tag beside.tagged_variants.now) ≡ true }
    requires fits { at + layout.now.size ≤ length bytes.old }
    ensures long { length bytes.new ≡ length bytes.old }
    ensures put { OnOk result (PutsValue walk.entry.order at bytes.old bytes.new
        (states_in (types_in walk.entry.nodes.now) layout.now beside.entry.prefix.now
        beside.entry.tag beside.entry.tagged_variants.now) (value_of value.now)) }
{
    let direct = TagEncoding::Direct;
    let tag_layout = TagLayout {
        encoding: &direct,
        tag: beside.tag,
        offset: state_tag_offset(layout, beside.prefix.len()),
        tagged_variants: beside.tagged_variants,
        size: layout.size.bytes() as usize,
    };
    let (state, shared, locals) = value.state();
    write_fields(walk, node, layout, beside.prefix, shared, at, bytes)?;
    write_tagged_variant(walk, node, tag_layout, state, locals, at, bytes)
}

/// Puts the tag of a variant, and the values of its fields, over their bytes.
#[cycle(write)]
fn write_tagged_variant(
    walk: ValueWalk<'_>,
    node: usize,
    tag_layout: TagLayout<'_>,
    index: usize,
    values: &[Value],
    at: usize,
    bytes: &mut [u8],
) -> Result<(), AllocError>
    requires there { node < length walk.nodes.now }
    requires first { tag_layout.tag < node }
    requires before { All (λ v. v.1 < node) tag_layout.tagged_variants.now }
    requires width { size_of (placed_at walk.nodes.now tag_layout.tag) ≤ 16 }
    requires inside { tag_layout.offset + size_of (placed_at walk.nodes.now tag_layout.tag) ≤ tag_layout.size }
    requires room { tagged_variants_have_room tag_layout.size
        (tagged_variants_in (types_in walk.nodes.now) tag_layout.tagged_variants.now) ≡ true }
    requires fits { at + tag_layout.size ≤ length bytes.old }
    ensures long { length bytes.new ≡ length bytes.old }
    ensures put { OnOk result (PutsTaggedVariant walk.entry.order at bytes.old bytes.new
        tag_layout.entry.encoding.now tag_layout.entry.offset (placed_at walk.entry.nodes.now tag_layout.entry.tag)
        (tagged_variants_in (types_in walk.entry.nodes.now) tag_layout.entry.tagged_variants.now) index
        (values_of values.now)) }
{
    if index >= tag_layout.tagged_variants.len() {
        return Ok(());
    }
    let width = walk.nodes.layout(tag_layout.tag).size;
    write_tag(walk.order, tag_layout, width, index, at, bytes);
    write_own(
        walk,
        tag_layout.tagged_variants[index].1,
        values,
        at,
        tag_layout.size,
        bytes,
    )
}

/// Puts the values of the fields of a variant, which has a node of its own, over their bytes.
#[cycle(write)]
fn write_own(
    walk: ValueWalk<'_>,
    variant: usize,
    values: &[Value],
    at: usize,
    size: usize,
    bytes: &mut [u8],
) -> Result<(), AllocError>
    requires there { variant < length walk.nodes.now }
    requires room { have_room size (own_fields (placed_at walk.nodes.now variant)) ≡ true }
    requires fits { at + size ≤ length bytes.old }
    ensures long { length bytes.new ≡ length bytes.old }
    ensures put { OnOk result (PutsParts walk.entry.order at bytes.old bytes.new
        (own_fields (placed_at walk.entry.nodes.now variant)) (values_of values.now)) }
{
    let parts = own_parts(walk.nodes, variant);
    write_parts(walk, variant, parts, values, at, size, bytes)
}

/// Whether these bytes hold the value as those of a node, where they hold no more than one.
fn holds(walk: ValueWalk<'_>, node: usize, value: &Value, bytes: &[u8]) -> Result<bool, AllocError>
    requires there { node < length walk.nodes.now }
    requires room { has_room (placed_at walk.nodes.now node) ≡ true }
    ensures bytes { AreBytes bytes.now }
    ensures held { IfOk result (AnswersHeld walk.entry.order
        (placed_at walk.entry.nodes.now node) bytes.now (value_of value.now)) }
{
    match read_node(walk, node, bytes)? {
        Some(found) => Ok(is_same(&found, value)),
        None => Ok(false),
    }
}

/// The bytes that hold a value of the type: as many as the type is large, with 0 wherever no part of the value covers
/// one.
///
/// `NotAValue` where the value is none of the type's: a number that its scalar doesn't have, a list of another length,
/// a variant or a state that isn't there, or one without values, a union's bytes of another count, a value of another
/// kind. `OutOfMemory` where a growth of memory was refused; as many bytes as the type is large are asked for before
/// the value is looked at.
pub fn write_value(alloc: Global, laid: &Laid, value: &Value) -> Result<Vec<u8>, ValueError>
    // What is answered.
    ensures holds { IfOk result (λ bytes.
        Holds (endian_of laid.now) (placed_of laid.now) bytes.items (value_of value.now)) }
    ensures zero { IfOk result (λ bytes. (k : ℕ) → is_covered (placed_of laid.now)
        (value_of value.now) k ≡ false → get_or bytes.items k 0 ≡ 0) }

    // When, for each tree whose values the layout keeps.
    ensures value { IfOk result (λ _. (dl : TargetDataLayout) (tree : Tree) →
        KeepsValues dl tree laid.now →
        IsValueOf dl tree (placed_of laid.now) (value_of value.now)) }
    ensures not_a_value { IfErr result (λ e. e ≡ ValueError.NotAValue →
        (dl : TargetDataLayout) (tree : Tree) → KeepsValues dl tree laid.now →
        IsValueOf dl tree (placed_of laid.now) (value_of value.now) → ⊥) }
{
    let nodes = laid.nodes();
    let root = nodes.len() - 1;
    let order = laid.endian();
    let walk = ValueWalk {
        alloc,
        order,
        nodes,
    };
    let size = nodes.layout(root).size.bytes() as usize;
    let mut bytes = vec![in alloc; 0u8; size]?;
    write_node(walk, root, value, 0, &mut bytes)?;
    if holds(walk, root, value, &bytes)? {
        Ok(bytes)
    } else {
        Err(ValueError::NotAValue)
    }
}
