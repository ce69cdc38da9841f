//! The nodes of a type that was laid out: equal layouts of nodes that were put near one another are kept once.
//!
//! The vectors are private to this file, and the one call that hands a node out adds one to the counter that it is lent. So
//! no other file can read a node that isn't counted.

ghost use Rattle.std.specs.Prelude.{◌≡◌, ◌+◌, ◌-◌, ◌<◌, ◌^◌, ◌∷◌, ◌++◌, [], OnErr, OnOk, get_or, length};
ghost use Rattle.abi_scalar.specs.Scalar.{IsWellFormed};
ghost use Rattle.abi_scalar.specs.Simple.{scalar_layout};
ghost use Rattle.abi_tree.specs.declared.node.Shape.TheVariants.{Scalar as Number};
ghost use Rattle.abi_tree.specs.Nodes.{lent_node};

use crate::layouts::{place_of, scalar_place};
use crate::node::{Node, NodeRef, Shape};
use abi_base::TargetDataLayout;
use abi_index::{FieldIdx, VariantIdx};
use abi_scalar::{LayoutData, Scalar};
use std::alloc::{AllocError, Global};
use std::marker::Model;

/// For how many nodes room is asked for at the first.
const FIRST_ROOM: usize = 12;

/// A node as it is kept: its layout by its place among those that are kept, and what it consists of.
#[derive(Drop)]
pub(crate) struct Entry {
    layout: usize,
    shape: Shape,
}

/// The nodes of a type that is laid out, in their order. A node that is put behind them, with the layout of one of
/// those before it, keeps that layout, and no copy of it.
#[derive(Drop)]
pub struct Nodes {
    layouts: Vec<LayoutData<FieldIdx, VariantIdx>>,
    entries: Vec<Entry>,
}

impl Model for Nodes {
    ghost use Rattle.std.specs.Prelude.{List};
    ghost use Rattle.abi_tree.specs.declared.node.Node.{Node as OneNode};

    ghost Value = { List OneNode };

    ghost use Rattle.abi_tree.specs.Entries.{AreEntries, nodes_of};

    ghost view = { λ a. nodes_of a.layouts.items a.entries.items };

    ghost invariant = { λ a. AreEntries a.layouts.items a.entries.items };
}

/// Whether two nodes are equal.
fn is_equal(a: NodeRef<'_>, b: NodeRef<'_>) -> bool
    ensures { result ≡ ⟦<Node as PartialEq>⟧.eq (lent_node a.entry) (lent_node b.entry) }
{
    *a.layout == *b.layout && *a.shape == *b.shape
}

impl PartialEq for Nodes {
    ghost use Rattle.std.specs.Cmp.Lexicographic.{pointwise, lists_per};
    ghost use Rattle.abi_tree.specs.contracts.node.NodePartialEq.TheImpl.Laws as NodeLaws;

    ghost eq = { λ x y. pointwise ⟦<Node as PartialEq>⟧.eq x y };

    ghost laws = { lists_per NodeLaws.laws-law };

    fn eq(&self, other: &Self) -> bool {
        if self.len() != other.len() {
            return false;
        }
        for at in 0..self.len() {
            let mut visits = 0;
            if !is_equal(self.visit(at, &mut visits), other.visit(at, &mut visits)) {
                return false;
            }
        }
        true
    }
}

impl Eq for Nodes {
    ghost use Rattle.std.specs.Cmp.Lexicographic.{lists_equiv};
    ghost use Rattle.abi_tree.specs.contracts.node.NodeEq.TheImpl.Laws as NodeLaws;

    ghost laws = { lists_equiv NodeLaws.laws-law };
}

/// Puts an entry behind the others. Where a growth is refused, they are as they were.
#[inline(always)]
fn put_entry(entries: &mut Vec<Entry>, entry: Entry) -> Result<(), AllocError>
    ensures ok { OnOk result (entries.new.items ≡ entries.old.items ++ entry ∷ []) }
    ensures err { OnErr result (entries.new.items ≡ entries.old.items) }
{
    if entries.is_empty() {
        entries.reserve(FIRST_ROOM)?;
    }
    entries.push(entry)?;
    Ok(())
}

impl Nodes {
    /// No nodes yet, for which no memory is asked.
    pub fn new(alloc: Global) -> Nodes
        ensures { result ≡ [] }
    {
        Nodes {
            layouts: Vec::new(alloc),
            entries: Vec::new(alloc),
        }
    }

    /// How many there are.
    pub fn len(&self) -> usize
        ensures { result ≡ length self.now }
    {
        self.entries.len()
    }

    /// Puts a node behind the others. `AllocError` where memory is refused: then they are as they were.
    #[inline(always)]
    pub fn push(
        &mut self,
        layout: LayoutData<FieldIdx, VariantIdx>,
        shape: Shape,
    ) -> Result<(), AllocError>
        ensures ok { OnOk result
            (self.new ≡ self.old ++ record { layout = layout; shape = shape } ∷ []) }
        ensures err { OnErr result (self.new ≡ self.old) }
    {
        let place = place_of(&mut self.layouts, layout)?;
        put_entry(
            &mut self.entries,
            Entry {
                layout: place,
                shape,
            },
        )?;
        Ok(())
    }

    /// Puts a number behind the others, which has the layout that it has by itself. `AllocError` where memory is refused:
    /// then they are as they were.
    pub fn push_scalar(&mut self, dl: &TargetDataLayout, value: Scalar) -> Result<(), AllocError>
        requires { IsWellFormed dl.now value }
        ensures ok { OnOk result (self.new ≡ self.old
            ++ record { layout = scalar_layout 0 dl.now value; shape = Number value } ∷ []) }
        ensures err { OnErr result (self.new ≡ self.old) }
    {
        let at = scalar_place(&mut self.layouts, dl, value)?;
        let shape = Shape::Scalar(value);
        put_entry(&mut self.entries, Entry { layout: at, shape })?;
        Ok(())
    }

    /// The node at a place. The counter says how many were read, this one with them.
    pub(crate) fn visit(&self, at: usize, visits: &mut usize) -> NodeRef<'_>
        requires there { at < length self.now }
        requires few { visits.old < 2 ^ 64 - 1 }
        ensures node { lent_node result ≡ get_or self.now at (lent_node result) }
        ensures visits { visits.new ≡ visits.old + 1 }
    {
        *visits += 1;
        let entry = &self.entries[at];
        NodeRef {
            layout: &self.layouts[entry.layout],
            shape: &entry.shape,
        }
    }
}
