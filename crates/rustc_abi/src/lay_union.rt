//! How unions are laid out, once their fields are.

ghost use Rattle.std.specs.Prelude.{◌≡◌, ◌≤◌, IfOk, IfErr, Ok, None, length, OnErr, map};
ghost use Rattle.abi_base.specs.DataLayout.{IsLawfulDataLayout};
ghost use Rattle.abi_scalar.specs.Lawful.{IsLawfulLayout};
ghost use Rattle.abi_univariant.specs.List.{HasLawfulAligns};
ghost use Rattle.abi_tree.specs.Tree.{union};
ghost use Rattle.abi_tree.specs.Placed.{layout_of};
ghost use Rattle.rustc_abi.specs.Laying.{IsUnionOf, IsUnited, fields_fault, most_fields};
ghost use Rattle.rustc_abi.specs.Error.{IsRefused};
ghost use Rattle.abi_tree.specs.Well.{all_at};
ghost use Rattle.rustc_abi.specs.Adding.{AreStillThere, AreThere, HaveLawfulLayouts, IsTypeAdded};
ghost use Rattle.rustc_abi.specs.Count.{IsOwnPut};

use crate::error::LayError;
use crate::lay_fields::fields_fault;
use crate::layout_cx::LayoutCx;
use crate::node::{add, layouts_at};
use abi_calc::LayoutCalculator;
use abi_index::{FieldIdx, IndexSlice, VariantIdx};
use abi_scalar::{LayoutData, ReprOptions};
use abi_tree::{Mark, Nodes, Shape};

/// The layout of a union of fields, each as one of the nodes.
fn union_layout(
    cx: LayoutCx<'_>,
    nodes: &Nodes,
    repr: &ReprOptions,
    children: &[usize],
) -> Result<LayoutData<FieldIdx, VariantIdx>, LayError>
    requires aligns { HasLawfulAligns repr.now }
    requires count { length children.now ≤ most_fields }
    requires data_layout { IsLawfulDataLayout cx.dl.now }
    requires there { AreThere (length nodes.now) children.now }
    requires lawful { HaveLawfulLayouts cx.dl.now (all_at nodes.now children.now) }
    ensures ok { IfOk result (λ l.
        IsUnited cx.entry.dl.now repr.now (map layout_of (all_at nodes.now children.now)) (Ok l)) }
    ensures err { IfErr result (IsRefused (IsUnited cx.entry.dl.now repr.now (map layout_of
        (all_at nodes.now children.now)))) }
    ensures lawful { IfOk result (IsLawfulLayout cx.entry.dl.now) }
{
    let variants = [layouts_at(cx.alloc, nodes, children)?];
    let answer = LayoutCalculator::new(cx.dl).layout_of_union(
        cx.alloc,
        repr,
        IndexSlice::new(&variants),
    );
    Ok(answer?)
}

/// A node for a union without a fault of its own.
fn add_faultless_union(
    cx: LayoutCx<'_>,
    nodes: &mut Nodes,
    repr: &ReprOptions,
    children: Vec<usize>,
) -> Result<usize, LayError>
    requires data_layout { IsLawfulDataLayout cx.dl.now }
    requires there { AreThere (length nodes.old) children.items }
    requires lawful { HaveLawfulLayouts cx.dl.now (all_at nodes.old children.items) }
    requires faultless { fields_fault repr.now (all_at nodes.old children.items) ≡ None }
    ensures ok { IfOk result (IsTypeAdded cx.entry.dl.now nodes.old nodes.new
        (union repr.now) (all_at nodes.old children.items)) }
    ensures own { IfOk result (IsOwnPut nodes.old nodes.new) }
    ensures err { IfErr result (IsRefused (IsUnionOf cx.entry.dl.now repr.now
        (all_at nodes.old children.items))) }
    ensures kept { OnErr result (nodes.new ≡ nodes.old) }
    ensures behind { AreStillThere nodes.old nodes.new }
{
    let layout = union_layout(cx, nodes, repr, &children)?;
    add(nodes, layout, Shape::Union(Mark::of(false, repr), children))
}

/// A node for a union of fields, each as one of the nodes.
pub(crate) fn add_union(
    cx: LayoutCx<'_>,
    nodes: &mut Nodes,
    repr: &ReprOptions,
    children: Vec<usize>,
) -> Result<usize, LayError>
    requires data_layout { IsLawfulDataLayout cx.dl.now }
    requires there { AreThere (length nodes.old) children.items }
    requires lawful { HaveLawfulLayouts cx.dl.now (all_at nodes.old children.items) }
    ensures ok { IfOk result (IsTypeAdded cx.entry.dl.now nodes.old nodes.new
        (union repr.now) (all_at nodes.old children.items)) }
    ensures own { IfOk result (IsOwnPut nodes.old nodes.new) }
    ensures err { IfErr result (IsRefused (IsUnionOf cx.entry.dl.now repr.now
        (all_at nodes.old children.items))) }
    ensures kept { OnErr result (nodes.new ≡ nodes.old) }
    ensures behind { AreStillThere nodes.old nodes.new }
{
    match fields_fault(repr, &children) {
        Some(fault) => Err(fault),
        None => add_faultless_union(cx, nodes, repr, children),
    }
}
