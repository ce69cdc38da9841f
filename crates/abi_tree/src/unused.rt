//! What each variant that a tag distinguishes leaves unused.

ghost use Rattle.std.specs.Prelude.{◌≡◌, ℕ, ◌&&◌, ◌+◌, ◌<◌, ◌≤◌, [], All, IfOk, List, OnOk, get_or, length, not, true};
ghost use Rattle.abi_index.specs.Idx.{greatest_place};
ghost use Rattle.abi_index.specs.RangeSet.{is_in_ranges};
ghost use Rattle.abi_index.specs.Runs.{Adds};
ghost use Rattle.abi_scalar.specs.Variant.{variants_of};
ghost use Rattle.abi_types.specs.Ty.Runs.{IsVariantIndex};
ghost use Rattle.abi_tree.specs.declared.node.Node.{Node as OneNode};
ghost use Rattle.abi_tree.specs.Laws.{keep_laws};
ghost use Rattle.abi_tree.specs.Needed.{AreNeeded, AreVisits, IsMadeOf, LeaveOut, numbered_nodes};
ghost use Rattle.abi_tree.specs.Nodes.{lent_node, meaning, placed_at};
ghost use Rattle.abi_tree.specs.Placed.{Placed, layout_of};
ghost use Rattle.abi_tree.specs.Places.{is_data_place};
ghost use Rattle.abi_tree.specs.Room.{has_room};
ghost use Rattle.abi_tree.specs.Runs.{is_place_of_each};
ghost use Rattle.abi_tree.specs.Typed.{variant_nodes};
ghost use Rattle.abi_tree.specs.Unused.{is_left_unused};
ghost use Rattle.abi_tree.specs.Well.{are_nodes};

use crate::counted::CountedNodes;
use crate::needed::{needed_nodes, placed_children};
use crate::node::{NodeRef, Shape, offsets, state_tag_offset, tag_offset};
use crate::runs_of::{put_parts, set_at, sets_of};
use abi_base::Size;
use abi_index::{IndexVec, RangeSet, RangeSetBuilder, VariantIdx};
use abi_scalar::Variants;
use std::alloc::{AllocError, Global};

/// The variants or states that a tag distinguishes, each with its number and its node.
pub(crate) fn numbered_nodes(shape: &Shape) -> &[(u128, usize)]
    ensures { result.now ≡ numbered_nodes shape.now }
{
    match shape {
        Shape::Tagged {
            mark: _,
            tag: _,
            variants,
        } => variants,
        Shape::States {
            prefix: _,
            tag: _,
            states,
        } => states,
        _ => &[],
    }
}

/// Puts in the data places that each variant has: those of a tag, and of prefix fields.
fn put_common(
    runs: &mut RangeSetBuilder,
    node: NodeRef<'_>,
    done: &[RangeSet],
) -> Result<(), AllocError>
    requires some { 0 < node.layout.now.size }
    requires made { (types : List Placed) × IsMadeOf types (lent_node node) done.now }
    ensures { OnOk result ((types : List Placed) → IsMadeOf types (lent_node node.entry) done.now →
        Adds runs.old runs.new
        (is_place_of_each (meaning types node.entry.layout.now node.entry.shape.now))) }
{
    let layout = node.layout;
    // It is a number of 64 bits, below which all parts end.
    let _size = layout.size.bytes();
    match node.shape {
        Shape::Tagged {
            mark: _,
            tag,
            variants: _,
        } => runs.add_set(set_at(done, *tag), tag_offset(layout)),
        Shape::States {
            prefix,
            tag,
            states: _,
        } => {
            put_parts(runs, offsets(layout), placed_children(layout, prefix), done)?;
            runs.add_set(set_at(done, *tag), state_tag_offset(layout, prefix.len()))
        }
        _ => Ok(()),
    }
}

/// Of these bytes those that no tag and no prefix field has.
fn beside_common(
    alloc: Global,
    node: NodeRef<'_>,
    done: &[RangeSet],
    any: &RangeSet,
) -> Result<RangeSet, AllocError>
    requires some { 0 < node.layout.now.size }
    requires made { (types : List Placed) × IsMadeOf types (lent_node node) done.now }
    ensures { IfOk result (λ set. (types : List Placed) →
        IsMadeOf types (lent_node node.entry) done.now → (k : ℕ) → is_in_ranges set k ≡
        (is_in_ranges any.now k && not (is_place_of_each
        (meaning types node.entry.layout.now node.entry.shape.now) k))) }
{
    let mut runs = RangeSetBuilder::new(alloc);
    put_common(&mut runs, node, done)?;
    let common = runs.build(alloc)?;
    any.difference(alloc, &common)
}

/// Of each of the first `count` variants those of the bytes that its own set doesn't have.
fn unused_of_each(
    alloc: Global,
    variants: &[(u128, usize)],
    count: usize,
    bytes: &RangeSet,
    done: &[RangeSet],
) -> Result<IndexVec<VariantIdx, RangeSet>, AllocError>
    requires few { count ≤ greatest_place + 1 }
    requires there { count ≤ length variants.now }
    requires made { All (λ v. v.1 < length done.now) variants.now }
    ensures { IfOk result (LeaveOut bytes.now done.now variants.now count) }
{
    let mut sets = Vec::with_capacity(alloc, count)?;
    for v in 0..count {
        sets.push(bytes.difference(alloc, set_at(done, variants[v].1))?)?;
    }
    Ok(IndexVec::from_raw(sets))
}

/// Of the bytes that some variant of a node covers those that each of its `count` variants leaves unused.
fn unused_of_several(
    alloc: Global,
    node: NodeRef<'_>,
    done: &[RangeSet],
    any: &RangeSet,
    count: usize,
) -> Result<IndexVec<VariantIdx, RangeSet>, AllocError>
    requires some { 0 < node.layout.now.size }
    requires made { (types : List Placed) × IsMadeOf types (lent_node node) done.now }
    requires few { count ≤ greatest_place + 1 }
    requires count { count ≡ length (variant_nodes node.shape.now) }
    ensures { IfOk result (λ sets. (types : List Placed) →
        IsMadeOf types (lent_node node.entry) done.now →
        ((k : ℕ) → is_in_ranges any.now k ≡
        is_data_place (meaning types node.entry.layout.now node.entry.shape.now) k) →
        (v k : ℕ) → v < count → is_in_ranges (get_or sets v []) k ≡
        is_left_unused (meaning types node.entry.layout.now node.entry.shape.now) v k) }
{
    let bytes = beside_common(alloc, node, done, any)?;
    unused_of_each(alloc, numbered_nodes(node.shape), count, &bytes, done)
}

/// Of the bytes that some variant of a node covers those that each variant that a tag distinguishes leaves unused.
fn unused_of(
    alloc: Global,
    node: NodeRef<'_>,
    done: &[RangeSet],
    any: &RangeSet,
) -> Result<IndexVec<VariantIdx, RangeSet>, AllocError>
    requires made { (types : List Placed) × IsMadeOf types (lent_node node) done.now }
    requires count { length (variants_of node.layout.now.variants)
        ≡ length (variant_nodes node.shape.now) }
    ensures { IfOk result (λ sets. (types : List Placed) →
        IsMadeOf types (lent_node node.entry) done.now →
        ((k : ℕ) → is_in_ranges any.now k ≡
        is_data_place (meaning types node.entry.layout.now node.entry.shape.now) k) →
        (v k : ℕ) → IsVariantIndex node.entry.layout.now.variants v → is_in_ranges (get_or sets v []) k ≡
        is_left_unused (meaning types node.entry.layout.now node.entry.shape.now) v k) }
{
    if node.layout.size == Size::ZERO {
        return Ok(IndexVec::new(alloc));
    }
    match &node.layout.variants {
        Variants::Multiple {
            tag: _,
            tag_encoding: _,
            tag_field: _,
            variants,
        } => unused_of_several(alloc, node, done, any, variants.len()),
        _ => Ok(IndexVec::new(alloc)),
    }
}

/// The bytes that each variant of the last node that is kept leaves unused.
fn kept_unused(
    alloc: Global,
    kept: &[Option<NodeRef<'_>>],
    node: usize,
) -> Result<IndexVec<VariantIdx, RangeSet>, AllocError>
    requires needed { (ns : List OneNode) × AreNeeded ns kept.now }
    requires last { length kept.now ≡ node + 1 }
    ensures { IfOk result (λ sets. (ns : List OneNode) → AreNeeded ns kept.now →
        (v k : ℕ) → IsVariantIndex (layout_of (placed_at ns node)).variants v →
        is_in_ranges (get_or sets v []) k ≡ is_left_unused (placed_at ns node) v k) }
{
    let done = sets_of(alloc, kept)?;
    match kept[node] {
        Some(root) => unused_of(alloc, root, &done, set_at(&done, node)),
        None => Ok(IndexVec::new(alloc)),
    }
}

/// The bytes that each variant of a node leaves unused, though another one covers them; and how many nodes were read.
pub(crate) fn variant_padding(
    alloc: Global,
    nodes: CountedNodes<'_>,
    node: usize,
) -> Result<(IndexVec<VariantIdx, RangeSet>, usize), AllocError>
    requires none { nodes.visits ≡ 0 }
    requires there { node < length nodes.nodes.now }
    requires well { are_nodes 0 nodes.nodes.now ≡ true }
    requires laws { keep_laws [] nodes.nodes.now ≡ true }
    requires room { has_room (placed_at nodes.nodes.now node) ≡ true }
    ensures unused { IfOk result (λ r. (v k : ℕ) →
        IsVariantIndex (layout_of (placed_at nodes.entry.nodes.now node)).variants v →
        is_in_ranges (get_or r.0 v []) k ≡ is_left_unused (placed_at nodes.entry.nodes.now node) v k) }
    ensures visits { IfOk result (λ r. AreVisits nodes.entry.nodes.now node r.1) }
    ensures few { IfOk result (λ r. r.1 ≤ node + 1) }
{
    let (kept, visits) = needed_nodes(alloc, nodes, node)?;
    let unused = kept_unused(alloc, &kept, node)?;
    Ok((unused, visits))
}
