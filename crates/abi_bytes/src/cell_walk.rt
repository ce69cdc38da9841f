//! What a walk over a type's nodes beside cells hands on.

ghost use Rattle.std.specs.Prelude.{◌≡◌, [], true};
ghost use Rattle.abi_tree.specs.Well.{are_nodes};
ghost use Rattle.abi_tree.specs.Widths.{have_widths};

use abi_base::Endian;
use abi_tree::Nodes;
use std::alloc::Global;

/// Where memory comes from, the order of the bytes of the type's numbers, its nodes, and the cells of the whole type.
#[derive(Clone, Copy)]
pub(crate) struct CellWalk<'a> {
    pub(crate) alloc: Global,
    pub(crate) order: Endian,
    pub(crate) nodes: &'a Nodes,
    pub(crate) cells: &'a [Option<u8>],
    pub(crate) ghost well: { are_nodes 0 nodes.now ≡ true },
    pub(crate) ghost widths: { have_widths [] nodes.now ≡ true },
}
