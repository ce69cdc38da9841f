//! Nodes whose readings are counted.

ghost use Rattle.std.specs.Prelude.{◌≡◌, ◌+◌, ◌-◌, ◌^◌, ◌<◌, get_or, length};
ghost use Rattle.abi_tree.specs.Nodes.{lent_node};

use crate::node::NodeRef;
use crate::nodes::Nodes;

/// Nodes, and how many of them were read. What is lent these, and not the nodes, reads no node that isn't counted.
#[derive(Drop)]
pub(crate) struct CountedNodes<'a> {
    nodes: &'a Nodes,
    visits: usize,
}

impl<'a> CountedNodes<'a> {
    /// These nodes, of which none was read.
    pub(crate) fn new(nodes: &'a Nodes) -> CountedNodes<'a>
        ensures nodes { result.nodes.now ≡ nodes.now }
        ensures none { result.visits ≡ 0 }
    {
        CountedNodes { nodes, visits: 0 }
    }

    /// How many nodes there are.
    pub(crate) fn len(&self) -> usize
        ensures { result ≡ length self.now.nodes.now }
    {
        self.nodes.len()
    }

    /// How many were read.
    pub(crate) fn visits(&self) -> usize
        ensures { result ≡ self.now.visits }
    {
        self.visits
    }

    /// The node at a place, which is counted.
    pub(crate) fn visit(&mut self, at: usize) -> NodeRef<'a>
        requires there { at < length self.old.nodes.now }
        requires few { self.old.visits < 2 ^ 64 - 1 }
        ensures node { lent_node result ≡ get_or self.old.nodes.now at (lent_node result) }
        ensures same { self.new.nodes ≡ self.old.nodes }
        ensures visits { self.new.visits ≡ self.old.visits + 1 }
    {
        self.nodes.visit(at, &mut self.visits)
    }
}
