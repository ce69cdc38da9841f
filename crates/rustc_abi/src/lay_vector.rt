//! How vectors are laid out, once their element is.

ghost use Rattle.std.specs.Prelude.{◌≡◌, ◌<◌, IfOk, IfErr, Ok, length};
ghost use Rattle.abi_base.specs.DataLayout.{IsLawfulDataLayout};
ghost use Rattle.abi_scalar.specs.Lawful.{IsLawfulLayout};
ghost use Rattle.abi_univariant.specs.Simd.{simd_answer};
ghost use Rattle.abi_tree.specs.Tree.{Tree, vector};
ghost use Rattle.abi_tree.specs.Placed.{layout_of};
ghost use Rattle.abi_tree.specs.Nodes.{placed_at};
ghost use Rattle.rustc_abi.specs.Laying.{IsLaying, vector_answer};
ghost use Rattle.rustc_abi.specs.Error.{named};
ghost use Rattle.abi_tree.specs.Fits.{Fits};
ghost use Rattle.rustc_abi.specs.Adding.{AreStillThere, IsAdded, IsRefusal};
ghost use Rattle.rustc_abi.specs.Count.{IsOwnPut};

use crate::error::LayError;
use crate::lay_array::elements_layout;
use crate::layout_cx::LayoutCx;
use crate::node::add;
use abi_calc::LayoutCalculator;
use abi_index::{FieldIdx, VariantIdx};
use abi_scalar::LayoutData;
use abi_tree::{Nodes, Shape};

/// The layout of a vector of `lanes` lanes, each as the node `element`.
fn vector_layout(
    cx: LayoutCx<'_>,
    nodes: &Nodes,
    lanes: u64,
    packed: bool,
    element: usize,
) -> Result<LayoutData<FieldIdx, VariantIdx>, LayError>
    requires data_layout { IsLawfulDataLayout cx.dl.now }
    requires there { element < length nodes.now }
    requires lawful { IsLawfulLayout cx.dl.now (layout_of (placed_at nodes.now element)) }
    ensures ok { IfOk result (λ l. named
        (simd_answer (λ h. h) 0 0 cx.entry.dl.now (layout_of (placed_at nodes.now element)) lanes packed)
        ≡ Ok l) }
    ensures err { IfErr result (IsRefusal (named (simd_answer (λ h. h) 0 0 cx.entry.dl.now
        (layout_of (placed_at nodes.now element)) lanes packed))) }
    ensures lawful { IfOk result (IsLawfulLayout cx.entry.dl.now) }
{
    let answer = LayoutCalculator::new(cx.dl).layout_of_simd_type(
        cx.alloc,
        nodes.layout(element),
        lanes,
        packed,
    );
    Ok(answer?)
}

/// A node for a vector of `lanes` lanes, each as the node `element`, behind one for the array of the lanes.
pub(crate) fn add_vector(
    cx: LayoutCx<'_>,
    nodes: &mut Nodes,
    lanes: u64,
    packed: bool,
    element: usize,
) -> Result<usize, LayError>
    requires data_layout { IsLawfulDataLayout cx.dl.now }
    requires there { element < length nodes.old }
    requires lawful { IsLawfulLayout cx.dl.now (layout_of (placed_at nodes.old element)) }
    ensures ok { IfOk result
        (λ i. (t : Tree) → IsLaying cx.entry.dl.now t (Ok (placed_at nodes.old element)) →
        Fits cx.entry.dl.now t (placed_at nodes.old element) →
        IsAdded cx.entry.dl.now nodes.old nodes.new i (vector lanes packed t)) }
    ensures own { IfOk result (IsOwnPut nodes.old nodes.new) }
    ensures err { IfErr result (IsRefusal (vector_answer cx.entry.dl.now lanes packed
        (placed_at nodes.old element))) }
    ensures behind { AreStillThere nodes.old nodes.new }
{
    let layout = vector_layout(cx, nodes, lanes, packed, element)?;
    let array = elements_layout(cx.dl, nodes, lanes, element)?;
    let node = add(
        nodes,
        array,
        Shape::Elements {
            count: lanes,
            element,
        },
    )?;
    add(nodes, layout, Shape::Vector(node))
}
