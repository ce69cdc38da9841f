//! The nodes that a node's data places rest on, each read once.

ghost use Rattle.std.specs.Prelude.{◌≡◌, ◌+◌, ◌<◌, ◌≤◌, [], All, IfOk, None, length, map, replicate, true};
ghost use Rattle.abi_tree.specs.Laws.{keep_laws};
ghost use Rattle.abi_tree.specs.Needed.{AreNeeded, AreVisits, MarksPlaces, named_by, placed_nodes};
ghost use Rattle.abi_tree.specs.Nodes.{placed_at};
ghost use Rattle.abi_tree.specs.Room.{has_room};
ghost use Rattle.abi_tree.specs.Well.{are_nodes};

use crate::counted::CountedNodes;
use crate::node::{NodeRef, Shape, offsets};
use abi_index::{FieldIdx, VariantIdx};
use abi_scalar::LayoutData;
use std::alloc::{AllocError, Global};

/// Those of these children that have an offset in the layout.
pub(crate) fn placed_children<'a>(
    layout: &LayoutData<FieldIdx, VariantIdx>,
    children: &'a [usize],
) -> &'a [usize]
    ensures { result.now ≡ placed_nodes layout.now children.now }
{
    let count = offsets(layout).len().min(children.len());
    &children[..count]
}

/// Marks places.
fn mark(needed: &mut [bool], places: &[usize])
    requires { All (λ i. i < length needed.old) places.now }
    ensures { MarksPlaces needed.old needed.new places.now }
{
    for place in places {
        needed[*place] = true;
    }
}

/// Marks the places of variants.
fn mark_variants(needed: &mut [bool], variants: &[(u128, usize)])
    requires { All (λ i. i < length needed.old) (map (λ v. v.1) variants.now) }
    ensures { MarksPlaces needed.old needed.new (map (λ v. v.1) variants.now) }
{
    for variant in variants {
        needed[variant.1] = true;
    }
}

/// Marks the places of the nodes whose data places are a node's own.
fn mark_named(needed: &mut [bool], node: NodeRef<'_>)
    requires { All (λ i. i < length needed.old) (named_by node.layout.now node.shape.now) }
    ensures { MarksPlaces needed.old needed.new
        (named_by node.entry.layout.now node.entry.shape.now) }
{
    let layout = node.layout;
    match node.shape {
        Shape::Scalar(_) => {}
        Shape::Never(_) => {}
        Shape::Pair { first, second } => mark(needed, placed_children(layout, &[*first, *second])),
        Shape::Elements { count: _, element } => mark(needed, &[*element]),
        Shape::Fields(_, children) => mark(needed, placed_children(layout, children)),
        Shape::Union(_, children) => mark(needed, children),
        Shape::Vector(lanes) => mark(needed, &[*lanes]),
        Shape::Single(_, children) => mark(needed, placed_children(layout, children)),
        Shape::Tagged {
            mark: _,
            tag,
            variants,
        } => {
            mark(needed, &[*tag]);
            mark_variants(needed, variants);
        }
        Shape::States {
            prefix,
            tag,
            states,
        } => {
            mark(needed, placed_children(layout, prefix));
            mark(needed, &[*tag]);
            mark_variants(needed, states);
        }
    }
}

/// `count` places, at none of which a node is kept.
fn no_nodes_read<'a>(alloc: Global, count: usize) -> Result<Vec<Option<NodeRef<'a>>>, AllocError>
    ensures { IfOk result (λ kept. kept.items ≡ replicate count None) }
{
    let mut kept = Vec::with_capacity(alloc, count)?;
    for _i in 0..count {
        kept.push(None)?;
    }
    Ok(kept)
}

/// The nodes that the data places of the node at `root` rest on, each at its place, and how many were read: each of
/// those once, from the last to the first. Nothing below a node without bytes is needed, and an array of no elements
/// has none.
#[tactic(auto, using(crate::proofs::Places::NeededLemmas::counted_all))]
pub(crate) fn needed_nodes<'a>(
    alloc: Global,
    mut nodes: CountedNodes<'a>,
    root: usize,
) -> Result<(Vec<Option<NodeRef<'a>>>, usize), AllocError>
    requires none { nodes.visits ≡ 0 }
    requires there { root < length nodes.nodes.now }
    requires well { are_nodes 0 nodes.nodes.now ≡ true }
    requires laws { keep_laws [] nodes.nodes.now ≡ true }
    requires room { has_room (placed_at nodes.nodes.now root) ≡ true }
    ensures needed { IfOk result (λ r. AreNeeded nodes.entry.nodes.now r.0.items) }
    ensures long { IfOk result (λ r. length r.0.items ≡ root + 1) }
    ensures visits { IfOk result (λ r. AreVisits nodes.entry.nodes.now root r.1) }
    ensures few { IfOk result (λ r. r.1 ≤ root + 1) }
{
    // Their count fits a number of 64 bits.
    let _count = nodes.len();
    let mut needed = vec![in alloc; false; root + 1]?;
    needed[root] = true;
    let mut kept = no_nodes_read(alloc, root + 1)?;
    for at in (0..root + 1).rev() {
        if needed[at] {
            let node = nodes.visit(at);
            if node.layout.size.bytes() > 0 {
                mark_named(&mut needed, node);
            }
            kept[at] = Some(node);
        }
    }
    Ok((kept, nodes.visits()))
}
