//! Readings that nobody counts: those of handles and of values, which read as often as their callers ask.

ghost use Rattle.std.specs.Prelude.{◌≡◌, ◌<◌, get_or, length};
ghost use Rattle.abi_tree.specs.Placed.{layout_of};
ghost use Rattle.abi_tree.specs.Nodes.{lent_node, placed_at};

use crate::node::NodeRef;
use crate::nodes::Nodes;
use abi_index::{FieldIdx, VariantIdx};
use abi_scalar::LayoutData;

impl Nodes {
    /// The node at a place, which is not counted.
    pub fn node(&self, at: usize) -> NodeRef<'_>
        requires { at < length self.now }
        ensures { lent_node result ≡ get_or self.now at (lent_node result) }
    {
        let mut visits = 0;
        self.visit(at, &mut visits)
    }

    /// The layout of the node at a place.
    pub fn layout(&self, at: usize) -> &LayoutData<FieldIdx, VariantIdx>
        requires { at < length self.now }
        ensures { result.now ≡ layout_of (placed_at self.now at) }
    {
        self.node(at).layout
    }
}
