//! Nodes that are put behind others.

ghost use Rattle.std.specs.Prelude.{◌≡◌, ◌≤◌, IfErr, IfOk, OnErr, length, map, true};
ghost use Rattle.abi_tree.specs.Placed.{layout_of};
ghost use Rattle.abi_tree.specs.Nodes.{types_in, meaning};
ghost use Rattle.abi_tree.specs.Laws.{keeps_laws};
ghost use Rattle.abi_tree.specs.Widths.{has_width};
ghost use Rattle.abi_tree.specs.Well.{all_at, is_node, IsPut};
ghost use Rattle.rustc_abi.specs.Count.{HasMore};
ghost use Rattle.rustc_abi.specs.Adding.{AreStillThere, AreThere};
ghost use Rattle.rustc_abi.specs.Laying.{most_fields};

use crate::error::LayError;
use abi_index::{FieldIdx, IndexVec, VariantIdx};
use abi_scalar::LayoutData;
use abi_tree::{Nodes, Shape};
use std::alloc::{AllocError, Global};

/// Puts a node behind the others. `OutOfMemory` where memory is refused: then they are as they were.
#[inline(always)]
pub(crate) fn add(
    nodes: &mut Nodes,
    layout: LayoutData<FieldIdx, VariantIdx>,
    shape: Shape,
) -> Result<usize, LayError>
    requires earlier { is_node (length nodes.old) shape ≡ true }
    requires laws { keeps_laws (types_in nodes.old) layout shape ≡ true }
    requires widths { has_width (types_in nodes.old) layout shape ≡ true }
    ensures ok { IfOk result (λ i. IsPut nodes.old nodes.new i
        (meaning (types_in nodes.old) layout shape)) }
    ensures count { IfOk result (λ i.
        HasMore 1 layout.uninhabited nodes.old nodes.new) }
    ensures err { IfErr result (λ e. e ≡ LayError.OutOfMemory) }
    ensures kept { OnErr result (nodes.new ≡ nodes.old) }
    ensures behind { AreStillThere nodes.old nodes.new }
{
    let node = nodes.len();
    nodes.push(layout, shape)?;
    Ok(node)
}

/// The layouts of the nodes at these places, as those of fields.
pub(crate) fn layouts_at<'a>(
    alloc: Global,
    nodes: &'a Nodes,
    children: &[usize],
) -> Result<IndexVec<FieldIdx, &'a LayoutData<FieldIdx, VariantIdx>>, AllocError>
    requires count { length children.now ≤ most_fields }
    requires there { AreThere (length nodes.now) children.now }
    ensures { IfOk result (λ layouts.
        map (λ lent. lent.now) layouts ≡ map layout_of (all_at nodes.now children.now)) }
{
    let mut layouts = IndexVec::with_capacity(alloc, children.len())?;
    for child in children {
        let _field: FieldIdx = layouts.push(nodes.layout(*child))?;
    }
    Ok(layouts)
}
