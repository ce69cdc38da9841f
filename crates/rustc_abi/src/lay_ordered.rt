//! How structs are laid out in an order that is handed in, once their fields are.

ghost use Rattle.std.specs.Prelude.{◌≡◌, ◌<◌, ◌≤◌, ◌⊎◌, List, IfOk, IfErr, IfSome, IsTrue, Ok, None, Some, length, All, OnErr, map};
ghost use Rattle.abi_base.specs.DataLayout.{IsLawfulDataLayout};
ghost use Rattle.abi_scalar.specs.Lawful.{IsLawfulLayout};
ghost use Rattle.abi_scalar.specs.Repr.{may_randomize};
ghost use Rattle.abi_scalar.specs.Shape.{listed_offsets};
ghost use Rattle.abi_univariant.specs.Apart.{AreApart};
ghost use Rattle.abi_univariant.specs.List.{HasLawfulAligns};
ghost use Rattle.abi_univariant.specs.ListNiche.{IsNicheOfPart};
ghost use Rattle.abi_tree.specs.Tree.{struct};
ghost use Rattle.abi_tree.specs.Placed.{Placed, layout_of, size_of};
ghost use Rattle.abi_tree.specs.Well.{all_at};
ghost use Rattle.rustc_abi.specs.Adding.{AreStillThere, AreThere, HaveLawfulLayouts, IsTypeAdded};
ghost use Rattle.rustc_abi.specs.Count.{IsOwnPut};
ghost use Rattle.rustc_abi.specs.Error.{IsRefused};
ghost use Rattle.rustc_abi.specs.Laying.{IsListedInOrder, IsOrderedFieldsAnswer, most_fields, ordered_fault, with_randomize_flag};
ghost use Rattle.rustc_abi.specs.declared.error.LayError.TheVariants.{BadOrder, OutOfMemory};

use crate::error::LayError;
use crate::lay_fields::{fields_fault, kind_of};
use crate::layout_cx::LayoutCx;
use crate::node::{add, layouts_at};
use abi_base::StructKind;
use abi_calc::LayoutCalculator;
use abi_index::{FieldIdx, VariantIdx};
use abi_scalar::{LayoutData, ReprFlags, ReprOptions};
use abi_tree::{Mark, Nodes, Shape};
use bitflags::Flags;
use std::alloc::Global;

/// The same repr, under which fields may lie in any order.
fn with_randomize_flag(repr: &ReprOptions) -> ReprOptions
    ensures { result ≡ with_randomize_flag repr.now }
{
    let mut flags = repr.flags;
    flags.insert(ReprFlags::RANDOMIZE_LAYOUT);
    ReprOptions { flags, ..*repr }
}

/// The own fault of a struct whose order is handed in, if it has one.
fn ordered_fault(repr: &ReprOptions, children: &[usize]) -> Option<LayError>
    ensures { (ps : List Placed) → length ps ≡ length children.now →
        result ≡ ordered_fault repr.now ps }
{
    match fields_fault(repr, children) {
        Some(fault) => Some(fault),
        None if repr.inhibit_struct_field_reordering() => Some(LayError::BadOrder),
        None => None,
    }
}

/// The fields that these numbers name, of `count` fields; `BadOrder` where one names none.
fn fields_named(alloc: Global, order: &[u64], count: usize) -> Result<Vec<FieldIdx>, LayError>
    requires { count ≤ most_fields }
    ensures ok { IfOk result (λ fields. fields.items ≡ order.now) }
    ensures err { IfErr result (λ e. (e ≡ OutOfMemory) ⊎ ((e ≡ BadOrder)
        × (All (λ i. i < count) order.now → ⊥))) }
{
    let mut fields = Vec::with_capacity(alloc, order.len())?;
    for &index in order {
        if index >= count as u64 {
            return Err(LayError::BadOrder);
        }
        fields.push(FieldIdx::from_usize(index as usize))?;
    }
    Ok(fields)
}

/// The layout of fields, each as one of the nodes, in the order that is handed in.
fn ordered_layout(
    cx: LayoutCx<'_>,
    nodes: &Nodes,
    repr: &ReprOptions,
    kind: StructKind,
    order: &[u64],
    children: &[usize],
) -> Result<LayoutData<FieldIdx, VariantIdx>, LayError>
    requires kind { (kind ≡ StructKind.AlwaysSized) ⊎ ((kind ≡ StructKind.MaybeUnsized)
        × (0 < length children.now)) }
    requires aligns { HasLawfulAligns repr.now }
    requires free { IsTrue (may_randomize repr.now) }
    requires count { length children.now ≤ most_fields }
    requires data_layout { IsLawfulDataLayout cx.dl.now }
    requires there { AreThere (length nodes.now) children.now }
    requires lawful { HaveLawfulLayouts cx.dl.now (all_at nodes.now children.now) }
    ensures ok { IfOk result (λ l. IsListedInOrder cx.entry.dl.now repr.now kind order.now
        (map layout_of (all_at nodes.now children.now)) (Ok l)) }
    ensures err { IfErr result (IsRefused (IsListedInOrder cx.entry.dl.now repr.now kind order.now
        (map layout_of (all_at nodes.now children.now)))) }
    ensures lawful { IfOk result (IsLawfulLayout cx.entry.dl.now) }
    ensures apart { IfOk result (λ l.
        AreApart l.size (listed_offsets l.fields) (map size_of (all_at nodes.now children.now))) }
    ensures niche { IfOk result (λ l. IfSome l.largest_niche
        (IsNicheOfPart (listed_offsets l.fields) (map layout_of (all_at nodes.now children.now)))) }
{
    let order = fields_named(cx.alloc, order, children.len())?;
    let layouts = layouts_at(cx.alloc, nodes, children)?;
    let answer = LayoutCalculator::new(cx.dl).layout_of_univariant_in_order(
        cx.alloc,
        layouts.as_slice(),
        repr,
        kind,
        &order,
    );
    Ok(answer?)
}

/// A node for the fields of a struct without a fault of its own, in the order that is handed in.
fn add_faultless_ordered(
    cx: LayoutCx<'_>,
    nodes: &mut Nodes,
    repr: &ReprOptions,
    always_sized: bool,
    order: &[u64],
    children: Vec<usize>,
) -> Result<usize, LayError>
    requires data_layout { IsLawfulDataLayout cx.dl.now }
    requires there { AreThere (length nodes.old) children.items }
    requires lawful { HaveLawfulLayouts cx.dl.now (all_at nodes.old children.items) }
    requires faultless { ordered_fault repr.now (all_at nodes.old children.items) ≡ None }
    ensures ok { IfOk result (IsTypeAdded cx.entry.dl.now nodes.old nodes.new
        (struct repr.now always_sized (Some order.now)) (all_at nodes.old children.items)) }
    ensures own { IfOk result (IsOwnPut nodes.old nodes.new) }
    ensures err { IfErr result (IsRefused (IsOrderedFieldsAnswer cx.entry.dl.now repr.now always_sized
        order.now (all_at nodes.old children.items))) }
    ensures kept { OnErr result (nodes.new ≡ nodes.old) }
    ensures behind { AreStillThere nodes.old nodes.new }
{
    let kind = kind_of(always_sized, &children);
    let layout = ordered_layout(
        cx,
        nodes,
        &with_randomize_flag(repr),
        kind,
        order,
        &children,
    )?;
    add(
        nodes,
        layout,
        Shape::Fields(Mark::of(false, repr), children),
    )
}

/// A node for fields, each as one of the nodes, in the order that is handed in.
pub(crate) fn add_ordered(
    cx: LayoutCx<'_>,
    nodes: &mut Nodes,
    repr: &ReprOptions,
    always_sized: bool,
    order: &[u64],
    children: Vec<usize>,
) -> Result<usize, LayError>
    requires data_layout { IsLawfulDataLayout cx.dl.now }
    requires there { AreThere (length nodes.old) children.items }
    requires lawful { HaveLawfulLayouts cx.dl.now (all_at nodes.old children.items) }
    ensures ok { IfOk result (IsTypeAdded cx.entry.dl.now nodes.old nodes.new
        (struct repr.now always_sized (Some order.now)) (all_at nodes.old children.items)) }
    ensures own { IfOk result (IsOwnPut nodes.old nodes.new) }
    ensures err { IfErr result (IsRefused (IsOrderedFieldsAnswer cx.entry.dl.now repr.now always_sized
        order.now (all_at nodes.old children.items))) }
    ensures kept { OnErr result (nodes.new ≡ nodes.old) }
    ensures behind { AreStillThere nodes.old nodes.new }
{
    match ordered_fault(repr, &children) {
        Some(fault) => Err(fault),
        None => add_faultless_ordered(cx, nodes, repr, always_sized, order, children),
    }
}
