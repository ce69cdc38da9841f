//! The runs of a node's data places: the bytes that decide which value is held.

ghost use Rattle.std.specs.Prelude.{◌≡◌, ℕ, ◌+◌, ◌*◌, ◌-◌, ◌^◌, ◌<◌, ◌≤◌, ◌&&◌, ◌||◌, [], All, IfOk, IfSome, IsTrue, List, None, OnOk, false, get_or, length, map, not, true, nat_lt};
ghost use Rattle.abi_index.specs.RangeSet.{is_in_ranges, is_in_run};
ghost use Rattle.abi_index.specs.Runs.{Adds, moved_to, repeated};
ghost use Rattle.abi_tree.specs.declared.node.Node.{Node as OneNode};
ghost use Rattle.abi_tree.specs.Laws.{keep_laws};
ghost use Rattle.abi_tree.specs.Needed.{AreMade, AreNeeded, AreVisits, IsMadeOf, IsSet, parts_cover, sets_at, some_covers};
ghost use Rattle.abi_tree.specs.Nodes.{lent_node, meaning, parts_at, placed_at};
ghost use Rattle.abi_tree.specs.Placed.{Placed};
ghost use Rattle.abi_tree.specs.Places.{is_data_place, is_place_of_part};
ghost use Rattle.abi_tree.specs.Room.{has_room};
ghost use Rattle.abi_tree.specs.Runs.{is_padding_of};
ghost use Rattle.abi_tree.specs.Well.{all_at, are_nodes};

use crate::counted::CountedNodes;
use crate::needed::{needed_nodes, placed_children};
use crate::node::{NodeRef, Shape, offsets, state_tag_offset, tag_offset};
use abi_base::Size;
use abi_index::{RangeSet, RangeSetBuilder};
use std::alloc::{AllocError, Global};

/// Types of at most so many bytes have these marked one by one.
const MOST_MARKED: usize = 64;

/// The set that was made for a place.
pub(crate) fn set_at(done: &[RangeSet], place: usize) -> &RangeSet
    requires { place < length done.now }
    ensures { result.now ≡ get_or done.now place [] }
{
    &done[place]
}

/// Puts in the sets of fields, each at its offset.
pub(crate) fn put_parts(
    runs: &mut RangeSetBuilder,
    offsets: &[Size],
    children: &[usize],
    done: &[RangeSet],
) -> Result<(), AllocError>
    requires made { All (IsSet done.now) children.now }
    requires fits { (i : ℕ) → i < length offsets.now → i < length children.now →
        All (λ run. get_or offsets.now i 0 + (run.0 + run.1) < 2 ^ 64) (get_or done.now
        (get_or children.now i 0) []) }
    ensures { OnOk result (Adds runs.old runs.new (parts_cover offsets.now
        (sets_at done.now children.now))) }
{
    for i in 0..offsets.len().min(children.len()) {
        runs.add_set(set_at(done, children[i]), offsets[i].bytes())?;
    }
    Ok(())
}

/// Puts in the sets of a union's fields, all at one place.
fn put_fields(
    runs: &mut RangeSetBuilder,
    children: &[usize],
    done: &[RangeSet],
) -> Result<(), AllocError>
    requires made { All (IsSet done.now) children.now }
    ensures { OnOk result (Adds runs.old runs.new (some_covers (sets_at done.now children.now))) }
{
    for child in children {
        runs.add_set(set_at(done, *child), 0)?;
    }
    Ok(())
}

/// Puts in the sets of variants, all at one place.
fn put_variants(
    runs: &mut RangeSetBuilder,
    variants: &[(u128, usize)],
    done: &[RangeSet],
) -> Result<(), AllocError>
    requires made { All (IsSet done.now) (map (λ v. v.1) variants.now) }
    ensures { OnOk result (Adds runs.old runs.new (some_covers (sets_at done.now
        (map (λ v. v.1) variants.now)))) }
{
    for variant in variants {
        runs.add_set(set_at(done, variant.1), 0)?;
    }
    Ok(())
}

/// Puts in the set of a tag at its offset, and those of variants.
fn put_tagged(
    runs: &mut RangeSetBuilder,
    offset: u64,
    tag: usize,
    variants: &[(u128, usize)],
    done: &[RangeSet],
) -> Result<(), AllocError>
    requires tag { IsSet done.now tag }
    requires fits { All (λ run. offset + (run.0 + run.1) < 2 ^ 64) (get_or done.now tag []) }
    requires made { All (IsSet done.now) (map (λ v. v.1) variants.now) }
    ensures { OnOk result (Adds runs.old runs.new
        (λ k. moved_to offset (is_in_ranges (get_or done.now tag [])) k || some_covers
        (sets_at done.now (map (λ v. v.1) variants.now)) k)) }
{
    runs.add_set(set_at(done, tag), offset)?;
    put_variants(runs, variants, done)
}

/// Puts in the set of `count` elements, which together have this size and are not without bytes.
fn put_elements(
    runs: &mut RangeSetBuilder,
    size: u64,
    count: u64,
    element: &RangeSet,
) -> Result<(), AllocError>
    requires some { 0 < size }
    requires inside { (stride : ℕ) × (size ≡ stride * count)
        × All (λ run. run.0 + run.1 ≤ stride) element.now }
    ensures { OnOk result ((stride : ℕ) → size ≡ stride * count →
        Adds runs.old runs.new (repeated stride count (is_in_ranges element.now))) }
{
    runs.add_repeated(element, size / count, count, 0)
}

/// Puts in the runs of a node's data places, of which it has some.
fn put_places(
    runs: &mut RangeSetBuilder,
    node: NodeRef<'_>,
    done: &[RangeSet],
) -> Result<(), AllocError>
    requires some { 0 < node.layout.now.size }
    requires made { (types : List Placed) × IsMadeOf types (lent_node node) done.now }
    ensures { OnOk result ((types : List Placed) → IsMadeOf types (lent_node node.entry) done.now →
        Adds runs.old runs.new (is_data_place (meaning types node.entry.layout.now node.entry.shape.now))) }
{
    let layout = node.layout;
    let size = layout.size.bytes();
    match node.shape {
        Shape::Scalar(_) => runs.add_range(0, size),
        Shape::Never(_) => runs.add_range(0, size),
        Shape::Pair { first, second } => put_parts(
            runs,
            offsets(layout),
            placed_children(layout, &[*first, *second]),
            done,
        ),
        Shape::Elements { count, element } => {
            put_elements(runs, size, *count, set_at(done, *element))
        }
        Shape::Fields(_, children) => {
            put_parts(
                runs,
                offsets(layout),
                placed_children(layout, children),
                done,
            )
        }
        Shape::Union(_, children) => put_fields(runs, children, done),
        Shape::Vector(lanes) => runs.add_set(set_at(done, *lanes), 0),
        Shape::Single(_, children) => {
            put_parts(
                runs,
                offsets(layout),
                placed_children(layout, children),
                done,
            )
        }
        Shape::Tagged {
            mark: _,
            tag,
            variants,
        } => put_tagged(runs, tag_offset(layout), *tag, variants, done),
        Shape::States {
            prefix,
            tag,
            states,
        } => {
            put_parts(runs, offsets(layout), placed_children(layout, prefix), done)?;
            let offset = state_tag_offset(layout, prefix.len());
            put_tagged(runs, offset, *tag, states, done)
        }
    }
}

/// The first bytes, so many of them.
fn first_bytes(alloc: Global, count: u64) -> Result<RangeSet, AllocError>
    ensures { IfOk result (λ set. (k : ℕ) → is_in_ranges set k ≡ nat_lt k count) }
{
    let mut set = RangeSet::new(alloc);
    set.add_range(0, count)?;
    Ok(set)
}

/// The runs of a node's data places, made from those of the nodes before it whose data places are its own.
fn runs_of(alloc: Global, node: NodeRef<'_>, done: &[RangeSet]) -> Result<RangeSet, AllocError>
    requires { (types : List Placed) × IsMadeOf types (lent_node node) done.now }
    ensures { IfOk result (λ set. (types : List Placed) →
        IsMadeOf types (lent_node node.entry) done.now → (k : ℕ) →
        is_in_ranges set k ≡ is_data_place (meaning types node.entry.layout.now node.entry.shape.now) k) }
{
    if node.layout.size == Size::ZERO {
        return Ok(RangeSet::new(alloc));
    }
    if let Shape::Scalar(_) = node.shape {
        return first_bytes(alloc, node.layout.size.bytes());
    }
    let mut runs = RangeSetBuilder::new(alloc);
    put_places(&mut runs, node, done)?;
    runs.build(alloc)
}

/// The runs of a node's data places, where it is kept.
fn next_set(
    alloc: Global,
    kept: Option<NodeRef<'_>>,
    done: &[RangeSet],
) -> Result<RangeSet, AllocError>
    requires { IfSome kept (λ node. (types : List Placed) × IsMadeOf types (lent_node node) done.now) }
    ensures { IfOk result (λ set. IfSome kept.entry (λ node. (types : List Placed) →
        IsMadeOf types (lent_node node) done.now → (k : ℕ) →
        is_in_ranges set k ≡ is_data_place (meaning types node.layout.now node.shape.now) k)) }
{
    match kept {
        Some(node) => runs_of(alloc, node, done),
        None => Ok(RangeSet::new(alloc)),
    }
}

/// The data places of each node that is kept, at its place.
pub(crate) fn sets_of(
    alloc: Global,
    kept: &[Option<NodeRef<'_>>],
) -> Result<Vec<RangeSet>, AllocError>
    requires { (ns : List OneNode) × AreNeeded ns kept.now }
    ensures { IfOk result (λ sets. (ns : List OneNode) → AreNeeded ns kept.now →
        AreMade ns kept.now (length kept.now) sets.items) }
{
    let mut done = Vec::with_capacity(alloc, kept.len())?;
    for at in 0..kept.len() {
        let set = next_set(alloc, kept[at], &done)?;
        // Its runs are maximal, which those that are made of it ask for.
        let _runs = set.as_slice();
        done.push(set)?;
    }
    Ok(done)
}

/// The data places of the last node that is kept, from those of the first on.
fn joined_runs(alloc: Global, kept: &[Option<NodeRef<'_>>]) -> Result<RangeSet, AllocError>
    requires { (ns : List OneNode) × AreNeeded ns kept.now }
    ensures { IfOk result (λ set. (ns : List OneNode) → AreNeeded ns kept.now →
        (k : ℕ) → is_in_ranges set k ≡ is_data_place (placed_at ns (length kept.now - 1)) k) }
{
    let mut done = sets_of(alloc, kept)?;
    match done.pop() {
        Some(set) => Ok(set),
        None => Ok(RangeSet::new(alloc)),
    }
}

/// The size of a node that is kept.
fn kept_size(kept: &[Option<NodeRef<'_>>], node: usize) -> u64
    requires { node < length kept.now }
    ensures { IfSome (get_or kept.now node None) (λ root. result ≡ root.layout.now.size) }
{
    match kept[node] {
        Some(root) => root.layout.size.bytes(),
        None => 0,
    }
}

/// The data places of a node.
pub(crate) fn data_places(
    alloc: Global,
    nodes: CountedNodes<'_>,
    node: usize,
) -> Result<RangeSet, AllocError>
    requires none { nodes.visits ≡ 0 }
    requires there { node < length nodes.nodes.now }
    requires well { are_nodes 0 nodes.nodes.now ≡ true }
    requires laws { keep_laws [] nodes.nodes.now ≡ true }
    requires room { has_room (placed_at nodes.nodes.now node) ≡ true }
    ensures { IfOk result (λ set. (k : ℕ) →
        is_in_ranges set k ≡ is_data_place (placed_at nodes.entry.nodes.now node) k) }
{
    let (kept, _visits) = needed_nodes(alloc, nodes, node)?;
    joined_runs(alloc, &kept)
}

/// The size of the number that is kept at a place, if one is.
fn number_size(kept: &[Option<NodeRef<'_>>], place: usize) -> Option<u64>
    ensures { IfSome result (λ size. (ns : List OneNode) → AreNeeded ns kept.now → (k : ℕ) →
        is_data_place (placed_at ns place) k ≡ nat_lt k size) }
{
    let node = (*kept.get(place)?)?;
    match node.shape {
        Shape::Scalar(_) => Some(node.layout.size.bytes()),
        _ => None,
    }
}

/// Marks a run of bytes, where it ends among the marks; whether it does.
fn mark_run(marks: &mut [bool], offset: u64, size: u64) -> bool
    ensures long { length marks.new ≡ length marks.old }
    ensures marked { IsTrue result → (k : ℕ) →
        get_or marks.new k false ≡ (get_or marks.old k false || is_in_run k (offset, size)) }
{
    let count = marks.len() as u64;
    if offset > count || size > count - offset {
        return false;
    }
    for at in offset..offset + size {
        marks[at as usize] = true;
    }
    true
}

/// Marks the bytes of fields, each at its offset, where all are numbers that end among the marks; whether they are.
fn mark_numbers(
    marks: &mut [bool],
    offsets: &[Size],
    children: &[usize],
    kept: &[Option<NodeRef<'_>>],
) -> bool
    ensures { IsTrue result → (ns : List OneNode) → AreNeeded ns kept.now → (k : ℕ) →
        get_or marks.new k false ≡ (get_or marks.old k false
        || is_place_of_part (parts_at offsets.now (all_at ns children.now)) k) }
{
    for i in 0..offsets.len().min(children.len()) {
        let Some(size) = number_size(kept, children[i]) else {
            return false;
        };
        if !mark_run(marks, offsets[i].bytes(), size) {
            return false;
        }
    }
    true
}

/// Those of the first bytes, so many of them, that aren't marked.
fn unmarked_bytes(alloc: Global, marks: &[bool], size: u64) -> Result<RangeSet, AllocError>
    requires { size ≤ length marks.now }
    ensures { IfOk result (λ set. (k : ℕ) →
        is_in_ranges set k ≡ (nat_lt k size && not (get_or marks.now k false))) }
{
    let mut set = RangeSet::new(alloc);
    for at in 0..size {
        if !marks[at as usize] {
            set.add_range(at, 1)?;
        }
    }
    Ok(set)
}

/// The padding of the node at a place, where it has few bytes, and its fields are numbers.
fn numbers_padding(
    alloc: Global,
    kept: &[Option<NodeRef<'_>>],
    place: usize,
) -> Result<Option<RangeSet>, AllocError>
    ensures { IfOk result (λ found. IfSome found (λ set. (ns : List OneNode) → AreNeeded ns kept.now →
        (k : ℕ) → is_in_ranges set k ≡ is_padding_of (placed_at ns place) k)) }
{
    let Some(Some(node)) = kept.get(place) else {
        return Ok(None);
    };
    let Shape::Fields(_, children) = node.shape else {
        return Ok(None);
    };
    let size = node.layout.size.bytes();
    let mut marks = [false; MOST_MARKED];
    if size <= MOST_MARKED as u64
        && mark_numbers(&mut marks, offsets(node.layout), children, kept)
    {
        let set = unmarked_bytes(alloc, &marks, size)?;
        Ok(Some(set))
    } else {
        Ok(None)
    }
}

/// The padding of the last node that is kept: what the data places leave of its bytes.
#[inline(never)]
fn joined_padding(
    alloc: Global,
    kept: &[Option<NodeRef<'_>>],
    node: usize,
) -> Result<RangeSet, AllocError>
    requires needed { (ns : List OneNode) × AreNeeded ns kept.now }
    requires last { length kept.now ≡ node + 1 }
    ensures { IfOk result (λ set. (ns : List OneNode) → AreNeeded ns kept.now → (k : ℕ) →
        is_in_ranges set k ≡ is_padding_of (placed_at ns node) k) }
{
    let places = joined_runs(alloc, kept)?;
    let mut whole = RangeSet::new(alloc);
    whole.add_range(0, kept_size(kept, node))?;
    let rest = whole.difference(alloc, &places)?;
    Ok(rest)
}

/// The padding of the last node that is kept. The bytes of a few numbers are marked one by one, which takes fewer steps
/// than sets of them.
fn kept_padding(
    alloc: Global,
    kept: &[Option<NodeRef<'_>>],
    node: usize,
) -> Result<RangeSet, AllocError>
    requires needed { (ns : List OneNode) × AreNeeded ns kept.now }
    requires last { length kept.now ≡ node + 1 }
    ensures { IfOk result (λ set. (ns : List OneNode) → AreNeeded ns kept.now → (k : ℕ) →
        is_in_ranges set k ≡ is_padding_of (placed_at ns node) k) }
{
    match numbers_padding(alloc, kept, node)? {
        Some(set) => Ok(set),
        None => joined_padding(alloc, kept, node),
    }
}

/// The padding of a node: the bytes below its size that are no data places; and how many nodes were read.
pub(crate) fn padding(
    alloc: Global,
    nodes: CountedNodes<'_>,
    node: usize,
) -> Result<(RangeSet, usize), AllocError>
    requires none { nodes.visits ≡ 0 }
    requires there { node < length nodes.nodes.now }
    requires well { are_nodes 0 nodes.nodes.now ≡ true }
    requires laws { keep_laws [] nodes.nodes.now ≡ true }
    requires room { has_room (placed_at nodes.nodes.now node) ≡ true }
    ensures ranges { IfOk result (λ r. (k : ℕ) →
        is_in_ranges r.0 k ≡ is_padding_of (placed_at nodes.entry.nodes.now node) k) }
    ensures visits { IfOk result (λ r. AreVisits nodes.entry.nodes.now node r.1) }
    ensures few { IfOk result (λ r. r.1 ≤ node + 1) }
{
    let (kept, visits) = needed_nodes(alloc, nodes, node)?;
    let set = kept_padding(alloc, &kept, node)?;
    Ok((set, visits))
}
