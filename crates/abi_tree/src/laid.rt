//! Types that were laid out.

ghost use Rattle.std.specs.Prelude.{◌≡◌, ℕ, ◌-◌, ◌<◌, ◌≤◌, [], IfOk, get_or, length, map, true};
ghost use Rattle.abi_tree.specs.Nodes.{root_of};
ghost use Rattle.abi_tree.specs.Well.{AreWell, are_nodes};
ghost use Rattle.abi_tree.specs.Laws.{keep_laws};
ghost use Rattle.abi_tree.specs.Widths.{have_widths};
ghost use Rattle.abi_tree.specs.Room.{has_room};

use crate::counted::CountedNodes;
use crate::handle::{TreeTy, handle_at};
use crate::nodes::Nodes;
use crate::parts::{PartBytes, parts};
use crate::runs_of::padding;
use crate::unused::variant_padding;
use crate::value::decide::decider;
use abi_base::Endian;
use abi_index::{FieldIdx, IndexVec, RangeSet, VariantIdx};
use abi_scalar::LayoutData;
use abi_types::TyAndLayout;
use std::alloc::{AllocError, Global};
use std::fmt;
use std::fmt::Debug;

/// A type that was laid out: its layout, and those of its parts. Two are equal where all of these are, and the byte
/// order. How it prints isn't promised.
#[derive(Drop, PartialEq, Eq)]
pub struct Laid {
    pub(crate) nodes: Nodes,
    endian: Endian,
    ghost some: { 0 < length nodes },
    ghost earlier: { are_nodes 0 nodes ≡ true },
    ghost laws: { keep_laws [] nodes ≡ true },
    ghost widths: { have_widths [] nodes ≡ true },
    ghost room: { has_room (root_of nodes) ≡ true },
}

impl Debug for Laid {
    fn fmt<W: fmt::Write>(&self, f: &mut fmt::Formatter<W>) -> fmt::Result {
        f.debug_struct("Laid")
            .field("layout", self.layout())
            .field("nodes", &self.node_count())
            .field("endian", &self.endian)
            .finish()
    }
}

impl Laid {
    ghost use Rattle.abi_tree.specs.Laid.{placed_of, endian_of, node_count_of, typed_of};
    ghost use Rattle.abi_tree.specs.Handles.{IsHandle, tree_type};
    ghost use Rattle.abi_tree.specs.Seen.{Sees};
    ghost use Rattle.abi_tree.specs.Needed.{AreVisits};
    ghost use Rattle.abi_tree.specs.Placed.{layout_of, size_of};
    ghost use Rattle.abi_tree.specs.Places.{is_data_place};
    ghost use Rattle.std.specs.Prelude.{◌&&◌, IfSome, None, false};
    ghost use Rattle.abi_base.specs.declared.data_layout.TargetDataLayout.{TargetDataLayout};
    ghost use Rattle.abi_tree.specs.Tree.{Tree};
    ghost use Rattle.abi_tree.specs.Deciding.{all_inhabited_of, are_inhabited, Decide};
    ghost use Rattle.abi_tree.specs.OfTree.{KeepsTree};
    ghost use Rattle.abi_tree.specs.Runs.{is_padding_of};
    ghost use Rattle.abi_index.specs.RangeSet.{is_in_ranges};
    ghost use Rattle.abi_types.specs.Ty.Runs.{IsVariantIndex};
    ghost use Rattle.abi_tree.specs.Parts.{all_parts, kept_part};
    ghost use Rattle.abi_tree.specs.Unused.{is_left_unused};

    /// The type of the last node, as it was laid out. For `lay_out` alone, which makes the nodes.
    pub fn new(nodes: Nodes, endian: Endian) -> Laid
        requires some { 0 < length nodes }
        requires well { AreWell nodes }
        requires room { has_room (root_of nodes) ≡ true }
        ensures placed { placed_of result ≡ root_of nodes }
        ensures endian { endian_of result ≡ endian }
        ensures count { node_count_of result ≡ length nodes }
        ensures flags { all_inhabited_of result ≡ are_inhabited nodes }
    {
        Laid { nodes, endian }
    }

    /// Its nodes, of which the last is the type's. Each names earlier ones alone, keeps its layout's laws, and has numbers of at
    /// most 16 bytes. For what reads types by their nodes, as a walk over all of them; `root` lends the type as a handle.
    pub fn nodes(&self) -> &Nodes
        ensures same { result.now ≡ self.now.nodes }
        ensures some { 0 < length result.now }
        ensures earlier { are_nodes 0 result.now ≡ true }
        ensures laws { keep_laws [] result.now ≡ true }
        ensures widths { have_widths [] result.now ≡ true }
        ensures room { has_room (root_of result.now) ≡ true }
    {
        &self.nodes
    }

    /// The layout of the whole type, as the calculator answered it.
    pub fn layout(&self) -> &LayoutData<FieldIdx, VariantIdx>
        ensures { result.now ≡ layout_of (placed_of self.now) }
    {
        self.nodes.layout(self.nodes.len() - 1)
    }

    /// The type as a handle, beside its layout: what asks types for their fields and variants takes it. All data places
    /// of the type lie below its size.
    pub fn root(&self) -> TyAndLayout<'_, TreeTy<'_>>
        ensures valid { IsHandle result }
        ensures typed { tree_type result ≡ typed_of self.now }
        ensures seen { Sees (tree_type result) (placed_of self.now) }
        ensures layout { result.layout.0.now ≡ layout_of (placed_of self.now) }
        ensures within { (k : ℕ) → is_data_place (placed_of self.now) k ≡ true →
            k < size_of (placed_of self.now) }
    {
        handle_at(self, self.nodes().len() - 1)
    }

    /// How many nodes the type is laid out as: one for each type in it, and more where it has a pair, a vector, or
    /// variants beside a tag.
    pub fn node_count(&self) -> usize
        ensures { result ≡ node_count_of self.now }
    {
        self.nodes.len()
    }

    /// The bytes of the type that decide nothing, whatever the value: those below its size that are no data places; and
    /// how many nodes were read for it: each of those that its data places rest on, once. `AllocError` where memory is
    /// refused.
    pub fn padding(&self, alloc: Global) -> Result<(RangeSet, usize), AllocError>
        ensures ranges { IfOk result (λ r. (k : ℕ) →
            is_in_ranges r.0 k ≡ is_padding_of (placed_of self.now) k) }
        ensures visits { IfOk result (λ r.
            AreVisits self.now.nodes (node_count_of self.now - 1) r.1) }
        ensures few { IfOk result (λ r. r.1 ≤ node_count_of self.now) }
    {
        padding(alloc, CountedNodes::new(&self.nodes), self.nodes.len() - 1)
    }

    /// What each variant that a tag distinguishes leaves unused: the bytes that some variant covers, and neither this one nor
    /// what all have, as the tag; none where no tag does. And how many nodes were read for it, as `padding` has it. What
    /// `variant_dependent_padding_ranges` answers of the handle, for each variant in one call: all of it lies below the
    /// type's size. `AllocError` where memory is refused.
    pub fn variant_padding(
        &self,
        alloc: Global,
    ) -> Result<(IndexVec<VariantIdx, RangeSet>, usize), AllocError>
        ensures unused { IfOk result (λ r. (v k : ℕ) →
            IsVariantIndex (layout_of (placed_of self.now)).variants v →
            is_in_ranges (get_or r.0 v []) k ≡ is_left_unused (placed_of self.now) v k) }
        ensures within { IfOk result (λ r. (v k : ℕ) →
            IsVariantIndex (layout_of (placed_of self.now)).variants v →
            is_in_ranges (get_or r.0 v []) k ≡ true → k < size_of (placed_of self.now)) }
        ensures visits { IfOk result (λ r.
            AreVisits self.now.nodes (node_count_of self.now - 1) r.1) }
        ensures few { IfOk result (λ r. r.1 ≤ node_count_of self.now) }
    {
        variant_padding(alloc, CountedNodes::new(&self.nodes), self.nodes.len() - 1)
    }

    /// The parts of the type, each with its data places: its number, elements or lanes, or its fields and its tag, and
    /// behind these the fields of all variants that the tag distinguishes. A type without bytes has none. And how many nodes
    /// were read for it, as `padding` has it. `AllocError` where memory is refused.
    pub fn parts(&self, alloc: Global) -> Result<(Vec<PartBytes>, usize), AllocError>
        ensures parts { IfOk result (λ r. map kept_part r.0.items ≡ all_parts (placed_of self.now)) }
        ensures visits { IfOk result (λ r.
            AreVisits self.now.nodes (node_count_of self.now - 1) r.1) }
        ensures few { IfOk result (λ r. r.1 ≤ node_count_of self.now) }
    {
        parts(alloc, CountedNodes::new(&self.nodes), self.nodes.len() - 1)
    }

    /// Whether each type in the type has a value: no layout in it is flagged as having none, be it that of a variant that
    /// is left out, of a local that no state holds, or of an element of which there is none.
    pub fn all_inhabited(&self) -> bool
        ensures { result ≡ all_inhabited_of self.now }
    {
        for i in 0..self.nodes.len() {
            if self.nodes.layout(i).uninhabited {
                return false;
            }
        }
        true
    }

    /// That the byte at a place decides: bytes that hold a value, and the same with another byte there, which don't hold
    /// it. `None` where the place is none that decides a value, since it is padding or lies behind the type, or where
    /// some type in the type has no value. `AllocError` where memory is refused.
    pub fn decider(
        &self,
        alloc: Global,
        place: u64,
    ) -> Result<Option<(Vec<u8>, Vec<u8>)>, AllocError>
        // Where there is an answer.
        ensures only { IfOk result (λ found. IfSome found (λ pair.
            (all_inhabited_of self.now ≡ true)
            × (is_data_place (placed_of self.now) place ≡ true))) }
        ensures none { IfOk result (λ found. found ≡ None →
            (all_inhabited_of self.now && is_data_place (placed_of self.now) place) ≡ false) }

        // What it is, for each tree that the laid-out type keeps, as `lay_out` says of its own.
        ensures decides { IfOk result (λ found. IfSome found (λ pair.
            (dl : TargetDataLayout) (tree : Tree) → KeepsTree dl tree self.now →
            Decide (endian_of self.now) (placed_of self.now) place pair.0.items pair.1.items)) }
    {
        if self.all_inhabited() {
            decider(alloc, self, place)
        } else {
            Ok(None)
        }
    }

    /// The order of the bytes of a number in the type.
    pub fn endian(&self) -> Endian
        ensures { result ≡ endian_of self.now }
    {
        self.endian
    }
}
