//! What the making of a type's formulas hands on.

ghost use Rattle.std.specs.Prelude.{◌≡◌, ◌≤◌, [], length, true};
ghost use Rattle.abi_tree.specs.Well.{are_nodes};
ghost use Rattle.abi_tree.specs.Widths.{have_widths};

use abi_base::Endian;
use abi_tree::Nodes;
use std::alloc::Global;

/// Where memory comes from, the order of the bytes of the type's numbers, its nodes, and where the formulas of the first of
/// these are.
#[derive(Clone, Copy)]
pub(crate) struct Making<'a> {
    pub(crate) alloc: Global,
    pub(crate) order: Endian,
    pub(crate) nodes: &'a Nodes,
    pub(crate) made: &'a Vec<usize>,
    pub(crate) ghost well: { are_nodes 0 nodes.now ≡ true },
    pub(crate) ghost widths: { have_widths [] nodes.now ≡ true },
    pub(crate) ghost few: { length made.now.items ≤ length nodes.now },
}
