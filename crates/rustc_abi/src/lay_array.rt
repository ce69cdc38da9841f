//! How arrays are laid out, once their element is.

ghost use Rattle.std.specs.Prelude.{◌≡◌, ◌<◌, ℕ, Some, IfOk, IfErr, Ok, OnErr, length};
ghost use Rattle.abi_base.specs.DataLayout.{IsLawfulDataLayout};
ghost use Rattle.abi_scalar.specs.Lawful.{IsLawfulLayout};
ghost use Rattle.abi_univariant.specs.Array.{array_answer};
ghost use Rattle.abi_tree.specs.Tree.{Tree, array};
ghost use Rattle.abi_tree.specs.Placed.{layout_of};
ghost use Rattle.abi_tree.specs.Nodes.{placed_at};
ghost use Rattle.rustc_abi.specs.Laying.{IsLaying, elements_answer};
ghost use Rattle.rustc_abi.specs.Error.{named};
ghost use Rattle.abi_tree.specs.Fits.{Fits};
ghost use Rattle.rustc_abi.specs.Adding.{AreStillThere, IsAdded, IsRefusal};
ghost use Rattle.rustc_abi.specs.Count.{IsOwnPut};

use crate::error::LayError;
use crate::node::add;
use abi_base::TargetDataLayout;
use abi_calc::LayoutCalculator;
use abi_index::{FieldIdx, VariantIdx};
use abi_scalar::{LayoutCalculatorError, LayoutData};
use abi_tree::{Nodes, Shape};

/// The layout of `count` elements, each as the node `element`.
pub(crate) fn elements_layout(
    dl: &TargetDataLayout,
    nodes: &Nodes,
    count: u64,
    element: usize,
) -> Result<LayoutData<FieldIdx, VariantIdx>, LayError>
    requires data_layout { IsLawfulDataLayout dl.now }
    requires there { element < length nodes.now }
    requires lawful { IsLawfulLayout dl.now (layout_of (placed_at nodes.now element)) }
    ensures exact { result ≡ named {H = ℕ}
        (array_answer 0 dl.now (layout_of (placed_at nodes.now element)) (Some count)) }
    ensures lawful { IfOk result (IsLawfulLayout dl.now) }
{
    let answer: Result<_, LayoutCalculatorError<u32>> = LayoutCalculator::new(
        dl,
    ).layout_of_array_like(nodes.layout(element), Some(count));
    Ok(answer?)
}

/// A node for `count` elements, each as the node `element`.
pub(crate) fn add_elements(
    dl: &TargetDataLayout,
    nodes: &mut Nodes,
    count: u64,
    element: usize,
) -> Result<usize, LayError>
    requires data_layout { IsLawfulDataLayout dl.now }
    requires there { element < length nodes.old }
    requires lawful { IsLawfulLayout dl.now (layout_of (placed_at nodes.old element)) }
    ensures ok { IfOk result
        (λ i. (t : Tree) → IsLaying dl.now t (Ok (placed_at nodes.old element)) →
        Fits dl.now t (placed_at nodes.old element) →
        IsAdded dl.now nodes.old nodes.new i (array count t)) }
    ensures own { IfOk result (IsOwnPut nodes.old nodes.new) }
    ensures err { IfErr result (IsRefusal (elements_answer dl.now count
        (placed_at nodes.old element))) }
    ensures kept { OnErr result (nodes.new ≡ nodes.old) }
    ensures behind { AreStillThere nodes.old nodes.new }
{
    let layout = elements_layout(dl, nodes, count, element)?;
    add(nodes, layout, Shape::Elements { count, element })
}
