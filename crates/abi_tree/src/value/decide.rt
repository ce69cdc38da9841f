//! The bytes of a value that covers a place.

ghost use Rattle.std.specs.Prelude.{◌≡◌, ℕ, ◌+◌, ◌*◌, ◌<◌, ◌≤◌, ◌&&◌, [], All, IfOk, IfSome, IsTrue, List, None, Some, false, get_or, length, map, true};
ghost use Rattle.abi_base.specs.declared.data_layout.TargetDataLayout.{TargetDataLayout};
ghost use Rattle.abi_index.specs.RangeSet.{AreMaximalRuns, is_in_ranges, is_in_run};
ghost use Rattle.abi_tree.specs.Bytes.{AreBytes};
ghost use Rattle.abi_tree.specs.Deciding.{Decide, DifferAt, KeepsPlaces, tagged_variant_for};
ghost use Rattle.abi_tree.specs.Deciding.{first_tagged, first_with, place_in, some_number};
ghost use Rattle.abi_tree.specs.Laid.{endian_of, placed_of};
ghost use Rattle.abi_tree.specs.Laws.{have_lists};
ghost use Rattle.abi_tree.specs.Needed.{HaveSets, IsKept, IsPartAt};
ghost use Rattle.abi_tree.specs.Nodes.{tagged_variants_in, lent_node, parts_at, placed_at, types_in};
ghost use Rattle.abi_tree.specs.Placed.{size_of};
ghost use Rattle.abi_tree.specs.Places.{is_data_place};
ghost use Rattle.abi_tree.specs.Tree.{Tree};
ghost use Rattle.abi_tree.specs.Well.{all_at};
ghost use Rattle.abi_tree.specs.Widths.{have_widths};
ghost use Rattle.abi_tree.specs.Putting.{PutsCovering, PutsCoveringTaggedVariant, PutsCoveringEach, PutsCoveringParts};
ghost use Rattle.abi_tree.specs.Writing.{IsCopied, IsPutOver};
ghost use Rattle.abi_tree.specs.declared.mark.Mark.{Mark};

use crate::counted::CountedNodes;
use crate::laid::Laid;
use crate::needed::needed_nodes;
use crate::node::{NodeRef, Shape, offsets, state_tag_offset, tag_offset};
use crate::nodes::Nodes;
use crate::runs_of::{set_at, sets_of};
use crate::value::named::encoding_of;
use crate::value::write::{TagLayout, put_number, tagged_nodes, write_tag};
use abi_base::{Endian, Size};
use abi_index::{Idx, RangeSet, VariantIdx};
use abi_scalar::{Scalar, TagEncoding};
use std::alloc::{AllocError, Global};

/// What a walk that puts a covering value hands on from node to node: the order of a number's bytes, the nodes, those
/// of them that the data places of the last one rest on, and the data places of each of these.
#[derive(Clone, Copy)]
struct Cover<'a> {
    order: Endian,
    nodes: &'a Nodes,
    kept: &'a [Option<NodeRef<'a>>],
    sets: &'a [RangeSet],
    ghost widths: { have_widths [] nodes.now ≡ true },
}

/// The place, counted from the offset, where it is one of `size` bytes from there on.
fn place_in(place: Option<u64>, offset: u64, size: u64) -> Option<u64>
    ensures { result ≡ place_in place offset size }
{
    match place {
        Some(k) => {
            if offset <= k && k - offset < size {
                Some(k - offset)
            } else {
                None
            }
        }
        None => None,
    }
}

/// A number that the scalar holds.
fn some_number(scalar: &Scalar) -> u128
    ensures { result ≡ some_number scalar.now }
{
    match scalar {
        Scalar::Initialized {
            value: _,
            valid_range,
        } => valid_range.start,
        Scalar::Union { value: _ } => 0,
    }
}

/// Whether byte `k` is in the run, which has a first byte and a length.
fn is_in_run(run: (u64, u64), k: u64) -> bool
    ensures { result ≡ is_in_run k run }
{
    run.0 <= k && k - run.0 < run.1
}

/// Whether the set has the byte.
fn has_byte(set: &RangeSet, k: u64) -> bool
    ensures { result ≡ is_in_ranges set.now k }
{
    let runs = set.as_slice();
    for run in runs {
        if is_in_run(*run, k) {
            return true;
        }
    }
    false
}

/// The index of the first variant that has a number of its own in the tag.
fn first_tagged(encoding: &TagEncoding<VariantIdx>) -> usize
    ensures { result ≡ first_tagged encoding.now }
{
    match encoding {
        TagEncoding::Direct => 0,
        TagEncoding::Niche {
            untagged_variant,
            niche_variants: _,
            niche_start: _,
        } => {
            if untagged_variant.as_usize() == 0 {
                1
            } else {
                0
            }
        }
    }
}

/// The index of the first variant a field of which has the place, or else another index.
fn first_with(cover: Cover<'_>, variants: &[(u128, usize)], k: u64, otherwise: usize) -> usize
    requires sets { HaveSets cover.nodes.now cover.kept.now cover.sets.now }
    requires kept { All (λ v. IsKept cover.kept.now v.1) variants.now }
    requires listed { have_lists (types_in cover.nodes.now) (map (λ v. v.1) variants.now) ≡ true }
    ensures { result
        ≡ first_with (tagged_variants_in (types_in cover.entry.nodes.now) variants.now) k 0 otherwise }
{
    for i in 0..variants.len() {
        if has_byte(set_at(cover.sets, variants[i].1), k) {
            return i;
        }
    }
    otherwise
}

/// The index of the variant of which a value covers the place.
fn tagged_variant_for(cover: Cover<'_>, tag_layout: TagLayout<'_>, place: Option<u64>) -> usize
    requires sets { HaveSets cover.nodes.now cover.kept.now cover.sets.now }
    requires kept { All (λ v. IsKept cover.kept.now v.1) tag_layout.tagged_variants.now }
    requires listed { have_lists (types_in cover.nodes.now) (map (λ v. v.1) tag_layout.tagged_variants.now) ≡ true }
    ensures { result ≡ tagged_variant_for tag_layout.entry.encoding.now
        (tagged_variants_in (types_in cover.entry.nodes.now) tag_layout.entry.tagged_variants.now) place }
{
    let first = first_tagged(tag_layout.encoding);
    match place {
        Some(k) => first_with(cover, tag_layout.tagged_variants, k, first),
        None => first,
    }
}

/// Puts 0 over the bytes at the runs' places, counted from a place on.
fn put_zeros(runs: &[(u64, u64)], at: usize, size: usize, bytes: &mut [u8])
    requires maximal { AreMaximalRuns 0 runs.now }
    requires inside { All (λ run. run.0 + run.1 ≤ size) runs.now }
    requires fits { at + size ≤ length bytes.old }
    ensures long { length bytes.new ≡ length bytes.old }
    ensures put { (b : List ℕ) → length b ≡ size →
        ((k : ℕ) → is_in_ranges runs.now k ≡ true → get_or b k 0 ≡ 0) →
        IsPutOver (is_in_ranges runs.now) at b bytes.old bytes.new }
{
    for run in runs {
        for k in run.0..run.0 + run.1 {
            bytes[at + k as usize] = 0;
        }
    }
}

/// Whether the `count` bytes from a place on are 0.
fn are_zeros(bytes: &[u8], at: usize, count: usize) -> bool
    requires { at + count ≤ length bytes.now }
    ensures { IsTrue result → (k : ℕ) → k < count → get_or bytes.now (at + k) 0 ≡ 0 }
{
    for k in 0..count {
        if bytes[at + k] != 0 {
            return false;
        }
    }
    true
}

/// The index of the first element of `size` bytes that doesn't have the place: at most one has it.
fn first_without(place: Option<u64>, size: u64) -> u64
    ensures { place_in place (result * size) size ≡ None }
{
    match place {
        Some(k) => if k < size { 1 } else { 0 },
        None => 0,
    }
}

/// Whether an element may be a copy of the one that it is like: of one before it, where all bytes were 0, and where it
/// doesn't have the place.
fn may_copy(blank: bool, like: u64, i: u64, here: Option<u64>) -> bool
    ensures { IsTrue result → (blank ≡ true) × (like < i) × (here ≡ None) }
{
    blank && like < i && here.is_none()
}

/// Copies `size` bytes to a place behind them.
fn copy_bytes(bytes: &mut [u8], from: usize, to: usize, size: usize)
    requires behind { from + size ≤ to }
    requires fits { to + size ≤ length bytes.old }
    ensures { IsCopied from to size bytes.old bytes.new }
{
    bytes.copy_within(from..from + size, to);
}

/// Puts a value that covers the place over the bytes of a node, wherever its parts cover one.
#[cycle(cover)]
fn put_node(cover: Cover<'_>, node: usize, place: Option<u64>, at: usize, bytes: &mut [u8])
    requires sets { HaveSets cover.nodes.now cover.kept.now cover.sets.now }
    requires kept { IsKept cover.kept.now node }
    requires fits { at + size_of (placed_at cover.nodes.now node) ≤ length bytes.old }
    ensures long { length bytes.new ≡ length bytes.old }
    ensures put { PutsCovering cover.entry.order at bytes.old bytes.new place
        (placed_at cover.entry.nodes.now node) }
{
    let here = cover.nodes.node(node);
    let list = offsets(here.layout);
    let size = here.layout.size.bytes() as usize;
    if size == 0 {
        return;
    }
    match here.shape {
        Shape::Scalar(scalar) => put_number(cover.order, some_number(scalar), size, at, bytes),
        Shape::Pair { first, second } => {
            put_parts(cover, node, list, &[*first, *second], place, at, bytes)
        }
        Shape::Never(_) => {}
        Shape::Elements { count, element } => {
            put_elements(cover, *element, *count, place, at, bytes)
        }
        Shape::Fields(_, children) => put_parts(cover, node, list, children, place, at, bytes),
        Shape::Union(_, _) => put_zeros(set_at(cover.sets, node).as_slice(), at, size, bytes),
        Shape::Vector(lanes) => put_node(cover, *lanes, place, at, bytes),
        Shape::Single(_, children) => put_parts(cover, node, list, children, place, at, bytes),
        Shape::Tagged { .. } => put_variant(cover, node, here, place, at, bytes),
        Shape::States { .. } => put_state(cover, node, here, place, at, bytes),
    }
}

/// Puts a variant that covers the place, and its tag, over the bytes of a node that has a tag and variants beside it.
#[cycle(cover)]
fn put_variant(
    cover: Cover<'_>,
    node: usize,
    here: NodeRef<'_>,
    place: Option<u64>,
    at: usize,
    bytes: &mut [u8],
)
    requires sets { HaveSets cover.nodes.now cover.kept.now cover.sets.now }
    requires kept { IsKept cover.kept.now node }
    requires fits { at + size_of (placed_at cover.nodes.now node) ≤ length bytes.old }
    requires here { lent_node here ≡ get_or cover.nodes.now node (lent_node here) }
    requires some { 0 < here.layout.now.size }
    requires tagged { (mark : Mark) × (tag : ℕ) × (all : _)
        × (here.shape.now ≡ Shape.Tagged mark tag all) }
    ensures long { length bytes.new ≡ length bytes.old }
    ensures put { PutsCovering cover.entry.order at bytes.old bytes.new place
        (placed_at cover.entry.nodes.now node) }
{
    let beside = tagged_nodes(here.shape);
    let encoding = encoding_of(here.layout);
    let tag_layout = TagLayout {
        encoding: &encoding,
        tag: beside.tag,
        offset: tag_offset(here.layout),
        tagged_variants: beside.tagged_variants,
        size: here.layout.size.bytes() as usize,
    };
    put_tagged_variant(cover, node, tag_layout, place, at, bytes)
}

/// Puts a state that covers the place, its tag and the prefix fields over the bytes of a node that has these.
#[cycle(cover)]
fn put_state(
    cover: Cover<'_>,
    node: usize,
    here: NodeRef<'_>,
    place: Option<u64>,
    at: usize,
    bytes: &mut [u8],
)
    requires sets { HaveSets cover.nodes.now cover.kept.now cover.sets.now }
    requires kept { IsKept cover.kept.now node }
    requires fits { at + size_of (placed_at cover.nodes.now node) ≤ length bytes.old }
    requires here { lent_node here ≡ get_or cover.nodes.now node (lent_node here) }
    requires some { 0 < here.layout.now.size }
    requires states { (prefix : _) × (tag : ℕ) × (all : _)
        × (here.shape.now ≡ Shape.States prefix tag all) }
    ensures long { length bytes.new ≡ length bytes.old }
    ensures put { PutsCovering cover.entry.order at bytes.old bytes.new place
        (placed_at cover.entry.nodes.now node) }
{
    let beside = tagged_nodes(here.shape);
    let direct = TagEncoding::Direct;
    let tag_layout = TagLayout {
        encoding: &direct,
        tag: beside.tag,
        offset: state_tag_offset(here.layout, beside.prefix.len()),
        tagged_variants: beside.tagged_variants,
        size: here.layout.size.bytes() as usize,
    };
    let list = offsets(here.layout);
    put_parts(cover, node, list, beside.prefix, place, at, bytes);
    put_tagged_variant(cover, node, tag_layout, place, at, bytes)
}

/// Puts `count` elements over their bytes, one after another. Where these are all 0 yet, as they are where parts don't
/// overlap, the first that doesn't have the place is put, and the others that don't are copies of it.
#[cycle(cover)]
fn put_elements(
    cover: Cover<'_>,
    element: usize,
    count: u64,
    place: Option<u64>,
    at: usize,
    bytes: &mut [u8],
)
    requires sets { HaveSets cover.nodes.now cover.kept.now cover.sets.now }
    requires kept { IsKept cover.kept.now element }
    requires fits { at + size_of (placed_at cover.nodes.now element) * count ≤ length bytes.old }
    ensures long { length bytes.new ≡ length bytes.old }
    ensures put { PutsCoveringEach cover.entry.order at bytes.old bytes.new place
        (placed_at cover.entry.nodes.now element) count }
{
    let size = cover.nodes.layout(element).size.bytes();
    let blank = are_zeros(bytes, at, (size * count) as usize);
    let like = first_without(place, size);
    for i in 0..count {
        let start = at + (i * size) as usize;
        let here = place_in(place, i * size, size);
        if may_copy(blank, like, i, here) {
            copy_bytes(bytes, at + (like * size) as usize, start, size as usize);
        } else {
            put_node(cover, element, here, start, bytes);
        }
    }
}

/// Puts fields over the bytes at these offsets, each as a node before this one.
#[cycle(cover)]
fn put_parts(
    cover: Cover<'_>,
    node: usize,
    offsets: &[Size],
    children: &[usize],
    place: Option<u64>,
    at: usize,
    bytes: &mut [u8],
)
    requires sets { HaveSets cover.nodes.now cover.kept.now cover.sets.now }
    requires parts { (i : ℕ) → i < length offsets.now →
        i < length children.now → IsPartAt cover.nodes.now cover.kept.now node (length bytes.old)
        (at + get_or offsets.now i 0) (get_or children.now i 0) }
    ensures long { length bytes.new ≡ length bytes.old }
    ensures put { PutsCoveringParts cover.entry.order at bytes.old bytes.new place
        (parts_at offsets.now (all_at cover.entry.nodes.now children.now)) }
{
    for i in 0..offsets.len().min(children.len()) {
        let offset = offsets[i].bytes();
        let size = cover.nodes.layout(children[i]).size.bytes();
        let here = place_in(place, offset, size);
        put_node(cover, children[i], here, at + offset as usize, bytes);
    }
}

/// Puts the tag of the variant of which a value covers the place, and its fields, over their bytes.
#[cycle(cover)]
fn put_tagged_variant(
    cover: Cover<'_>,
    node: usize,
    tag_layout: TagLayout<'_>,
    place: Option<u64>,
    at: usize,
    bytes: &mut [u8],
)
    requires sets { HaveSets cover.nodes.now cover.kept.now cover.sets.now }
    requires tag { tag_layout.tag < length cover.nodes.now }
    requires before { All (λ v. v.1 < node) tag_layout.tagged_variants.now }
    requires kept { All (λ v. IsKept cover.kept.now v.1) tag_layout.tagged_variants.now }
    requires listed { have_lists (types_in cover.nodes.now) (map (λ v. v.1) tag_layout.tagged_variants.now) ≡ true }
    requires width { size_of (placed_at cover.nodes.now tag_layout.tag) ≤ 16 }
    requires inside { at + (tag_layout.offset + size_of (placed_at cover.nodes.now tag_layout.tag))
        ≤ length bytes.old }
    requires fits { All (λ v. at + size_of (placed_at cover.nodes.now v.1) ≤ length bytes.old)
        tag_layout.tagged_variants.now }
    ensures long { length bytes.new ≡ length bytes.old }
    ensures put { PutsCoveringTaggedVariant cover.entry.order at bytes.old bytes.new place
        tag_layout.entry.encoding.now tag_layout.entry.offset (placed_at cover.entry.nodes.now tag_layout.entry.tag)
        (types_in cover.entry.nodes.now) tag_layout.entry.tagged_variants.now }
{
    let i = tagged_variant_for(cover, tag_layout, place);
    if i >= tag_layout.tagged_variants.len() {
        return;
    }
    let width = cover.nodes.layout(tag_layout.tag).size;
    write_tag(cover.order, tag_layout, width, i, at, bytes);
    put_node(cover, tag_layout.tagged_variants[i].1, place, at, bytes)
}

/// The bytes of a value that covers the place, where it is a data place; `None` elsewhere.
fn covering_bytes(alloc: Global, laid: &Laid, place: u64) -> Result<Option<Vec<u8>>, AllocError>
    ensures some { IfOk result (λ found. IfSome found (λ bytes.
        is_data_place (placed_of laid.now) place ≡ true)) }
    ensures none { IfOk result (λ found. found ≡ None →
        is_data_place (placed_of laid.now) place ≡ false) }
    ensures long { IfOk result (λ found. IfSome found (λ bytes.
        length bytes.items ≡ size_of (placed_of laid.now))) }
    ensures put { IfOk result (λ found. IfSome found (λ bytes. (old : List ℕ) ×
        PutsCovering (endian_of laid.now) 0 old bytes.items (Some place) (placed_of laid.now))) }
{
    let nodes = laid.nodes();
    let root = nodes.len() - 1;
    let (kept, _visits) = needed_nodes(alloc, CountedNodes::new(nodes), root)?;
    let sets = sets_of(alloc, &kept)?;
    if !has_byte(set_at(&sets, root), place) {
        return Ok(None);
    }
    let cover = Cover {
        order: laid.endian(),
        nodes,
        kept: &kept,
        sets: &sets,
    };
    let size = nodes.layout(root).size.bytes() as usize;
    let mut bytes = vec![in alloc; 0u8; size]?;
    put_node(cover, root, Some(place), 0, &mut bytes);
    Ok(Some(bytes))
}

/// The same bytes with the next one at a place, behind 255 with 0.
fn with_next(alloc: Global, bytes: &[u8], place: usize) -> Result<Vec<u8>, AllocError>
    requires { place < length bytes.now }
    ensures differ { IfOk result (λ made. DifferAt place bytes.now made.items) }
    ensures bytes { AreBytes bytes.now }
    ensures made { IfOk result (λ made. AreBytes made.items) }
{
    let mut made = Vec::new(alloc);
    made.extend_from_slice(bytes)?;
    made[place] = bytes[place].wrapping_add(1);
    Ok(made)
}

/// The bytes of a value that covers the place, and these with another byte there; `None` where it is no data place.
pub(crate) fn decider(
    alloc: Global,
    laid: &Laid,
    place: u64,
) -> Result<Option<(Vec<u8>, Vec<u8>)>, AllocError>
    ensures some { IfOk result (λ found. IfSome found (λ pair.
        is_data_place (placed_of laid.now) place ≡ true)) }
    ensures none { IfOk result (λ found. found ≡ None →
        is_data_place (placed_of laid.now) place ≡ false) }
    ensures decides { IfOk result (λ found.
        IfSome found (λ pair. (dl : TargetDataLayout) (tree : Tree) → KeepsPlaces dl tree laid.now →
        Decide (endian_of laid.now) (placed_of laid.now) place pair.0.items pair.1.items)) }
{
    match covering_bytes(alloc, laid, place)? {
        Some(bytes) => {
            let other = with_next(alloc, &bytes, place as usize)?;
            Ok(Some((bytes, other)))
        }
        None => Ok(None),
    }
}
