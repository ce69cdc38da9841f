//! The parts of a type that was laid out, and the bytes that each has. Types inside them aren't opened.

ghost use Rattle.std.specs.Prelude.{◌≡◌, ℕ, ◌+◌, ◌<◌, ◌≤◌, ◌∷◌, ◌++◌, [], All, IfOk, IfSome, List, None, OnOk, Option, Some, get_or, length, map, true};
ghost use Rattle.abi_index.specs.RangeSet.{is_in_ranges};
ghost use Rattle.abi_index.specs.Runs.{moved_to};
ghost use Rattle.abi_scalar.specs.Shape.{listed_offsets};
ghost use Rattle.abi_tree.specs.declared.node.Node.{Node as OneNode};
ghost use Rattle.abi_tree.specs.Laws.{keep_laws};
ghost use Rattle.abi_tree.specs.Needed.{AreNeeded, ArePartsMade, AreVisits, HaveSets, IsKept, IsPartMade, numbered_nodes};
ghost use Rattle.abi_tree.specs.Nodes.{tagged_variants_in, own_fields, parts_at, parts_at_0, placed_at, placed_in, types_in};
ghost use Rattle.abi_tree.specs.Parts.{all_parts, common_parts, field_name, field_parts, placed_part, kept_part, parts_of_tagged_variants, variant_parts};
ghost use Rattle.abi_tree.specs.Placed.{Placed};
ghost use Rattle.abi_tree.specs.Places.{is_data_place};
ghost use Rattle.abi_tree.specs.Room.{has_room};
ghost use Rattle.abi_tree.specs.Well.{are_nodes};

use crate::counted::CountedNodes;
use crate::needed::needed_nodes;
use crate::node::{NodeRef, Shape, offsets, state_tag_offset, tag_offset};
use crate::runs_of::{set_at, sets_of};
use crate::unused::numbered_nodes;
use abi_base::Size;
use abi_index::{FieldIdx, RangeSet, RangeSetBuilder, VariantIdx};
use abi_scalar::LayoutData;
use std::alloc::{AllocError, Global};

/// What a part of a type is.
#[derive(Clone, Copy)]
pub enum PartName {
    /// The one number that the type is.
    Number,
    /// All elements of an array.
    Elements,
    /// All lanes of a vector.
    Lanes,
    /// The field with this index in source order.
    Field(usize),
    /// The tag, which distinguishes variants.
    Tag,
    /// Of the variant with the first index the field with the second.
    VariantField(usize, usize),
}

/// A part of a type, and its data places, which are counted in bytes from the type's start.
#[derive(Drop)]
pub struct PartBytes {
    /// What the part is.
    pub name: PartName,
    /// Its data places.
    pub bytes: RangeSet,
}

/// The nodes that a type's data places rest on, and the data places of each.
#[derive(Clone, Copy)]
struct Sets<'a> {
    alloc: Global,
    kept: &'a [Option<NodeRef<'a>>],
    done: &'a [RangeSet],
}

/// The data places of a child that lies at an offset in so many bytes; where there are none, it has none.
fn part_bytes(sets: Sets<'_>, size: u64, offset: u64, child: usize) -> Result<RangeSet, AllocError>
    requires { (types : List Placed) × IsPartMade types sets.done.now size offset child }
    ensures { IfOk result (λ set. (types : List Placed) →
        IsPartMade types sets.entry.done.now size offset child → (k : ℕ) →
        is_in_ranges set k ≡ moved_to offset (is_data_place (placed_in types child)) k) }
{
    if size == 0 {
        return Ok(RangeSet::new(sets.alloc));
    }
    let mut runs = RangeSetBuilder::new(sets.alloc);
    runs.add_set(set_at(sets.done, child), offset)?;
    runs.build(sets.alloc)
}

/// What a field is called: of the variant, where one is given.
fn field_name(variant: Option<usize>, index: usize) -> PartName
    ensures { result ≡ field_name variant index }
{
    match variant {
        Some(variant) => PartName::VariantField(variant, index),
        None => PartName::Field(index),
    }
}

/// Puts fields behind other parts, each at its offset.
fn put_fields(
    sets: Sets<'_>,
    parts: &mut Vec<PartBytes>,
    variant: Option<usize>,
    layout: &LayoutData<FieldIdx, VariantIdx>,
    children: &[usize],
) -> Result<(), AllocError>
    requires { (types : List Placed) × ArePartsMade types sets.done.now layout.now.size
        (listed_offsets layout.now.fields) children.now }
    ensures { OnOk result ((types : List Placed) → ArePartsMade types sets.entry.done.now
        layout.now.size (listed_offsets layout.now.fields) children.now →
        map kept_part parts.new.items ≡ map kept_part parts.old.items ++ field_parts variant 0
        (parts_at (listed_offsets layout.now.fields) (map (placed_in types) children.now))) }
{
    let size = layout.size.bytes();
    let offsets = offsets(layout);
    for i in 0..offsets.len().min(children.len()) {
        let bytes = part_bytes(sets, size, offsets[i].bytes(), children[i])?;
        let name = field_name(variant, i);
        parts.push(PartBytes { name, bytes })?;
    }
    Ok(())
}

/// Puts a union's fields behind other parts, all of which begin where it does.
fn put_overlapping(
    sets: Sets<'_>,
    parts: &mut Vec<PartBytes>,
    size: u64,
    children: &[usize],
) -> Result<(), AllocError>
    requires { (types : List Placed) × ((i : ℕ) → i < length children.now →
        IsPartMade types sets.done.now size 0 (get_or children.now i 0)) }
    ensures { OnOk result ((types : List Placed) → ((i : ℕ) → i < length children.now →
        IsPartMade types sets.entry.done.now size 0 (get_or children.now i 0)) →
        map kept_part parts.new.items ≡ map kept_part parts.old.items ++ field_parts None 0
        (parts_at_0 (map (placed_in types) children.now))) }
{
    for i in 0..children.len() {
        let bytes = part_bytes(sets, size, 0, children[i])?;
        let name = PartName::Field(i);
        parts.push(PartBytes { name, bytes })?;
    }
    Ok(())
}

/// Puts one part behind others: a tag at its offset, or the whole.
fn put_one(
    sets: Sets<'_>,
    parts: &mut Vec<PartBytes>,
    name: PartName,
    place: (u64, u64),
    child: usize,
) -> Result<(), AllocError>
    requires { (types : List Placed) × IsPartMade types sets.done.now place.0 place.1 child }
    ensures { OnOk result ((types : List Placed) →
        IsPartMade types sets.entry.done.now place.0 place.1 child → map kept_part parts.new.items
        ≡ map kept_part parts.old.items ++ placed_part name place.1 (placed_in types child) ∷ []) }
{
    let (size, offset) = place;
    let bytes = part_bytes(sets, size, offset, child)?;
    parts.push(PartBytes { name, bytes })?;
    Ok(())
}

/// Puts the parts that the last node that is kept has whatever its variant behind others.
fn put_common(
    sets: Sets<'_>,
    parts: &mut Vec<PartBytes>,
    node: NodeRef<'_>,
    place: usize,
) -> Result<(), AllocError>
    requires some { 0 < node.layout.now.size }
    requires sets { (ns : List OneNode) × HaveSets ns sets.kept.now sets.done.now }
    requires here { get_or sets.kept.now place None ≡ Some node }
    ensures { OnOk result ((ns : List OneNode) → HaveSets ns sets.entry.kept.now sets.entry.done.now →
        map kept_part parts.new.items ≡ map kept_part parts.old.items ++ common_parts (placed_at ns place)) }
{
    let layout = node.layout;
    let size = layout.size.bytes();
    match node.shape {
        Shape::Scalar(_) => put_one(sets, parts, PartName::Number, (size, 0), place),
        Shape::Never(_) => put_one(sets, parts, PartName::Number, (size, 0), place),
        Shape::Pair { first, second } => {
            put_fields(sets, parts, None, layout, &[*first, *second])
        }
        Shape::Elements {
            count: _,
            element: _,
        } => put_one(sets, parts, PartName::Elements, (size, 0), place),
        Shape::Fields(_, children) => put_fields(sets, parts, None, layout, children),
        Shape::Union(_, children) => put_overlapping(sets, parts, size, children),
        Shape::Vector(_) => put_one(sets, parts, PartName::Lanes, (size, 0), place),
        Shape::Single(_, children) => put_fields(sets, parts, None, layout, children),
        Shape::Tagged {
            mark: _,
            tag,
            variants: _,
        } => put_one(sets, parts, PartName::Tag, (size, tag_offset(layout)), *tag),
        Shape::States {
            prefix,
            tag,
            states: _,
        } => {
            put_fields(sets, parts, None, layout, prefix)?;
            let offset = state_tag_offset(layout, prefix.len());
            put_one(sets, parts, PartName::Tag, (size, offset), *tag)
        }
    }
}

/// Puts the fields of a variant, the one with this index, behind other parts.
fn put_variant(
    sets: Sets<'_>,
    parts: &mut Vec<PartBytes>,
    variant: usize,
    place: usize,
) -> Result<(), AllocError>
    requires { (ns : List OneNode) × HaveSets ns sets.kept.now sets.done.now
        × IsKept sets.kept.now place }
    ensures { OnOk result ((ns : List OneNode) → HaveSets ns sets.entry.kept.now sets.entry.done.now →
        IsKept sets.entry.kept.now place → map kept_part parts.new.items ≡ map kept_part parts.old.items
        ++ field_parts (Some variant) 0 (own_fields (placed_at ns place))) }
{
    match sets.kept[place] {
        Some(node) => match node.shape {
            Shape::Fields(_, children) => {
                put_fields(sets, parts, Some(variant), node.layout, children)
            }
            _ => Ok(()),
        },
        None => Ok(()),
    }
}

/// Puts the fields of all these variants behind other parts.
fn put_variants(
    sets: Sets<'_>,
    parts: &mut Vec<PartBytes>,
    variants: &[(u128, usize)],
) -> Result<(), AllocError>
    requires { (ns : List OneNode) × HaveSets ns sets.kept.now sets.done.now
        × All (λ v. IsKept sets.kept.now v.1) variants.now }
    ensures { OnOk result ((ns : List OneNode) → HaveSets ns sets.entry.kept.now sets.entry.done.now →
        All (λ v. IsKept sets.entry.kept.now v.1) variants.now → map kept_part parts.new.items
        ≡ map kept_part parts.old.items ++ parts_of_tagged_variants 0 (tagged_variants_in (types_in ns) variants.now)) }
{
    for v in 0..variants.len() {
        put_variant(sets, parts, v, variants[v].1)?;
    }
    Ok(())
}

/// The parts of a node; none where it has no bytes.
fn parts_of(sets: Sets<'_>, node: NodeRef<'_>, place: usize) -> Result<Vec<PartBytes>, AllocError>
    requires sets { (ns : List OneNode) × HaveSets ns sets.kept.now sets.done.now }
    requires here { get_or sets.kept.now place None ≡ Some node }
    ensures { IfOk result (λ parts. (ns : List OneNode) →
        HaveSets ns sets.entry.kept.now sets.entry.done.now →
        map kept_part parts.items ≡ all_parts (placed_at ns place)) }
{
    let mut parts = Vec::new(sets.alloc);
    if node.layout.size == Size::ZERO {
        return Ok(parts);
    }
    put_common(sets, &mut parts, node, place)?;
    put_variants(sets, &mut parts, numbered_nodes(node.shape))?;
    Ok(parts)
}

/// The parts of the last node that is kept.
fn kept_parts(
    alloc: Global,
    kept: &[Option<NodeRef<'_>>],
    node: usize,
) -> Result<Vec<PartBytes>, AllocError>
    requires needed { (ns : List OneNode) × AreNeeded ns kept.now }
    requires last { length kept.now ≡ node + 1 }
    ensures { IfOk result (λ parts. (ns : List OneNode) → AreNeeded ns kept.now →
        map kept_part parts.items ≡ all_parts (placed_at ns node)) }
{
    let done = sets_of(alloc, kept)?;
    let sets = Sets {
        alloc,
        kept,
        done: &done,
    };
    match kept[node] {
        Some(root) => parts_of(sets, root, node),
        None => Ok(Vec::new(alloc)),
    }
}

/// The parts of a node, and how many nodes were read.
pub(crate) fn parts(
    alloc: Global,
    nodes: CountedNodes<'_>,
    node: usize,
) -> Result<(Vec<PartBytes>, usize), AllocError>
    requires none { nodes.visits ≡ 0 }
    requires there { node < length nodes.nodes.now }
    requires well { are_nodes 0 nodes.nodes.now ≡ true }
    requires laws { keep_laws [] nodes.nodes.now ≡ true }
    requires room { has_room (placed_at nodes.nodes.now node) ≡ true }
    ensures parts { IfOk result (λ r.
        map kept_part r.0.items ≡ all_parts (placed_at nodes.entry.nodes.now node)) }
    ensures visits { IfOk result (λ r. AreVisits nodes.entry.nodes.now node r.1) }
    ensures few { IfOk result (λ r. r.1 ≤ node + 1) }
{
    let (kept, visits) = needed_nodes(alloc, nodes, node)?;
    let parts = kept_parts(alloc, &kept, node)?;
    Ok((parts, visits))
}
