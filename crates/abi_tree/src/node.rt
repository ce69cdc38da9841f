//! Types that were laid out, as nodes that name earlier ones by number.

ghost use Rattle.std.specs.Prelude.{◌≡◌};
ghost use Rattle.abi_tree.specs.Nodes.{state_tag_offset, tag_offset};
ghost use Rattle.abi_scalar.specs.Shape.{listed_offsets};

use crate::mark::Mark;
use abi_base::Size;
use abi_index::{FieldIdx, VariantIdx};
use abi_scalar::{FieldsShape, LayoutData, Scalar};

/// What a node consists of. Children are named by their places among the nodes.
#[derive(Drop, PartialEq, Eq)]
pub enum Shape {
    /// A number.
    Scalar(Scalar),
    /// Two numbers, each a child; the layout says where they lie.
    Pair {
        /// The first.
        first: usize,
        /// The second.
        second: usize,
    },
    /// No value.
    Never(Mark),
    /// An array: how many elements there are, and the node that each is as.
    Elements {
        /// How many there are.
        count: u64,
        /// The child.
        element: usize,
    },
    /// A child for each field, in source order; the layout says where they lie.
    Fields(Mark, Vec<usize>),
    /// A child for each field, in source order, all at offset 0.
    Union(Mark, Vec<usize>),
    /// Lanes; the child is their array, which stands directly before.
    Vector(usize),
    /// A child for each field of the one variant that is left; the layout says which that is, and where they lie.
    Single(Mark, Vec<usize>),
    /// A tag, and variants beside it, each a child of fields with its discriminant; the layout says where the tag lies,
    /// and how it distinguishes them.
    Tagged {
        /// What it says of itself.
        mark: Mark,
        /// The tag.
        tag: usize,
        /// Each variant's discriminant and child, in source order.
        variants: Vec<(u128, usize)>,
    },
    /// A child for each prefix field, a tag, and states beside it, each a child of fields with its index; the layout
    /// says where the prefix fields lie and, behind them in its list of offsets, the tag.
    States {
        /// The prefix fields, in source order.
        prefix: Vec<usize>,
        /// The tag.
        tag: usize,
        /// Each state's index and child, in order.
        states: Vec<(u128, usize)>,
    },
}

/// A type that was laid out, as one of the nodes of a `Laid`: what clauses see of it.
#[derive(Drop, PartialEq, Eq)]
pub struct Node {
    /// How it is laid out: its size, its alignment, its fields' offsets, its variants.
    pub layout: LayoutData<FieldIdx, VariantIdx>,
    /// What it consists of: a number, or parts by their places among the nodes.
    pub shape: Shape,
}

/// A node that is lent.
#[derive(Clone, Copy)]
pub struct NodeRef<'a> {
    /// How it is laid out.
    pub layout: &'a LayoutData<FieldIdx, VariantIdx>,
    /// What it consists of.
    pub shape: &'a Shape,
}

/// The offsets of fields that are listed one by one, in source order, and none where the layout lists none.
pub fn offsets(layout: &LayoutData<FieldIdx, VariantIdx>) -> &[Size]
    ensures { result.now ≡ listed_offsets layout.now.fields }
{
    match &layout.fields {
        FieldsShape::Arbitrary {
            offsets,
            in_memory_order: _,
        } => offsets.as_slice().as_raw(),
        _ => &[],
    }
}

/// Where the tag of several variants lies, and 0 where the layout has none.
pub fn tag_offset(layout: &LayoutData<FieldIdx, VariantIdx>) -> u64
    ensures { result ≡ tag_offset layout.now }
{
    match offsets(layout).first() {
        Some(offset) => offset.bytes(),
        None => 0,
    }
}

/// Where the tag of a coroutine's states lies, behind `prefix` prefix fields in the list of offsets, and 0 where it has none.
pub fn state_tag_offset(layout: &LayoutData<FieldIdx, VariantIdx>, prefix: usize) -> u64
    ensures { result ≡ state_tag_offset layout.now prefix }
{
    match offsets(layout).get(prefix) {
        Some(offset) => offset.bytes(),
        None => 0,
    }
}
