//! What a walk over the nodes of a value's type hands on.

ghost use Rattle.std.specs.Prelude.{◌≡◌, [], true};
ghost use Rattle.abi_tree.specs.Well.{are_nodes};
ghost use Rattle.abi_tree.specs.Laws.{keep_laws};
ghost use Rattle.abi_tree.specs.Widths.{have_widths};

use crate::nodes::Nodes;
use abi_base::Endian;
use std::alloc::Global;

/// What a walk over nodes hands on from node to node: where memory comes from, the order of a number's bytes, and the
/// nodes.
#[derive(Clone, Copy)]
pub(crate) struct ValueWalk<'a> {
    pub(crate) alloc: Global,
    pub(crate) order: Endian,
    pub(crate) nodes: &'a Nodes,
    pub(crate) ghost well: { are_nodes 0 nodes.now ≡ true },
    pub(crate) ghost laws: { keep_laws [] nodes.now ≡ true },
    pub(crate) ghost widths: { have_widths [] nodes.now ≡ true },
}
