//! How structs are laid out, once their fields are.

ghost use Rattle.std.specs.Prelude.{◌≡◌, ◌<◌, ◌≤◌, ◌⊎◌, List, IfOk, IfErr, IfSome, Ok, None, length, OnErr, map};
ghost use Rattle.abi_base.specs.DataLayout.{IsLawfulDataLayout};
ghost use Rattle.abi_scalar.specs.Lawful.{IsLawfulLayout};
ghost use Rattle.abi_scalar.specs.Shape.{listed_offsets};
ghost use Rattle.abi_univariant.specs.Apart.{AreApart};
ghost use Rattle.abi_univariant.specs.List.{HasLawfulAligns};
ghost use Rattle.abi_univariant.specs.ListNiche.{IsNicheOfPart};
ghost use Rattle.abi_tree.specs.Tree.{struct};
ghost use Rattle.abi_tree.specs.Placed.{Placed, layout_of, size_of};
ghost use Rattle.rustc_abi.specs.Laying.{IsFieldsAnswer, IsLaidList, fields_fault, has_bad_align, has_bad_index, is_above_limit, kind_of, most_fields};
ghost use Rattle.rustc_abi.specs.Error.{IsRefused};
ghost use Rattle.abi_tree.specs.Well.{all_at};
ghost use Rattle.rustc_abi.specs.Adding.{AreStillThere, AreThere, HaveLawfulLayouts, IsTypeAdded};
ghost use Rattle.rustc_abi.specs.Count.{IsOwnPut};

use crate::error::LayError;
use crate::layout_cx::LayoutCx;
use crate::node::{add, layouts_at};
use abi_base::{Align, StructKind};
use abi_calc::LayoutCalculator;
use abi_index::{FieldIdx, VariantIdx};
use abi_scalar::{LayoutData, ReprOptions};
use abi_tree::{Mark, Nodes, Shape};

/// How many fields a list may have.
pub(crate) const MOST_FIELDS: usize = 0xFFFF_FF01;

/// Whether an alignment that a repr names, if it does, is above 2^29 bytes.
fn is_above_limit(align: Option<Align>) -> bool
    ensures { result ≡ is_above_limit align }
{
    match align {
        Some(align) => align > Align::MAX,
        None => false,
    }
}

/// Whether an alignment that a repr names is above 2^29 bytes.
pub(crate) fn has_bad_align(repr: &ReprOptions) -> bool
    ensures { result ≡ has_bad_align repr.now }
{
    is_above_limit(repr.align) || is_above_limit(repr.pack)
}

/// Whether there are more lists, or more items in one, than an index can name.
pub(crate) fn has_bad_index<T>(lists: &[Vec<T>]) -> bool
    ensures items { result ≡ has_bad_index (map (λ list. list.items) lists.now) }
    ensures types { (all : List (List Placed)) →
        map length all ≡ map (λ list. length list.items) lists.now → result ≡ has_bad_index all }
{
    if lists.len() > MOST_FIELDS {
        return true;
    }
    for list in lists {
        if list.len() > MOST_FIELDS {
            return true;
        }
    }
    false
}

/// The own fault of a struct or union, if it has one.
pub(crate) fn fields_fault(repr: &ReprOptions, children: &[usize]) -> Option<LayError>
    ensures { (ps : List Placed) → length ps ≡ length children.now →
        result ≡ fields_fault repr.now ps }
{
    if children.len() > MOST_FIELDS {
        return Some(LayError::BadIndex);
    }
    if has_bad_align(repr) {
        return Some(LayError::BadAlign);
    }
    None
}

/// Whether the list is always sized: where the struct says so, and where it has no fields.
pub(crate) fn kind_of(always_sized: bool, children: &[usize]) -> StructKind
    ensures { (ps : List Placed) → length ps ≡ length children.now →
        result ≡ kind_of always_sized ps }
{
    if always_sized || children.is_empty() {
        StructKind::AlwaysSized
    } else {
        StructKind::MaybeUnsized
    }
}

/// The layout of fields, each as one of the nodes.
fn fields_layout(
    cx: LayoutCx<'_>,
    nodes: &Nodes,
    repr: &ReprOptions,
    kind: StructKind,
    children: &[usize],
) -> Result<LayoutData<FieldIdx, VariantIdx>, LayError>
    requires kind { (kind ≡ StructKind.AlwaysSized) ⊎ ((kind ≡ StructKind.MaybeUnsized)
        × (0 < length children.now)) }
    requires aligns { HasLawfulAligns repr.now }
    requires count { length children.now ≤ most_fields }
    requires data_layout { IsLawfulDataLayout cx.dl.now }
    requires there { AreThere (length nodes.now) children.now }
    requires lawful { HaveLawfulLayouts cx.dl.now (all_at nodes.now children.now) }
    ensures ok { IfOk result (λ l. IsLaidList cx.entry.dl.now repr.now kind
        (map layout_of (all_at nodes.now children.now)) (Ok l)) }
    ensures err { IfErr result (IsRefused
        (IsLaidList cx.entry.dl.now repr.now kind (map layout_of (all_at nodes.now children.now)))) }
    ensures lawful { IfOk result (IsLawfulLayout cx.entry.dl.now) }
    ensures apart { IfOk result (λ l.
        AreApart l.size (listed_offsets l.fields) (map size_of (all_at nodes.now children.now))) }
    ensures niche { IfOk result (λ l.
        IfSome l.largest_niche (IsNicheOfPart (listed_offsets l.fields)
        (map layout_of (all_at nodes.now children.now)))) }
{
    let layouts = layouts_at(cx.alloc, nodes, children)?;
    let answer = LayoutCalculator::new(cx.dl).layout_of_univariant(
        cx.alloc,
        layouts.as_slice(),
        repr,
        kind,
    );
    Ok(answer?)
}

/// A node for the fields of a struct without a fault of its own.
fn add_faultless_fields(
    cx: LayoutCx<'_>,
    nodes: &mut Nodes,
    repr: &ReprOptions,
    always_sized: bool,
    children: Vec<usize>,
) -> Result<usize, LayError>
    requires data_layout { IsLawfulDataLayout cx.dl.now }
    requires there { AreThere (length nodes.old) children.items }
    requires lawful { HaveLawfulLayouts cx.dl.now (all_at nodes.old children.items) }
    requires faultless { fields_fault repr.now (all_at nodes.old children.items) ≡ None }
    ensures ok { IfOk result (IsTypeAdded cx.entry.dl.now nodes.old nodes.new
        (struct repr.now always_sized None) (all_at nodes.old children.items)) }
    ensures own { IfOk result (IsOwnPut nodes.old nodes.new) }
    ensures err { IfErr result (IsRefused
        (IsFieldsAnswer cx.entry.dl.now repr.now always_sized (all_at nodes.old children.items))) }
    ensures kept { OnErr result (nodes.new ≡ nodes.old) }
    ensures behind { AreStillThere nodes.old nodes.new }
{
    let kind = kind_of(always_sized, &children);
    let layout = fields_layout(cx, nodes, repr, kind, &children)?;
    add(
        nodes,
        layout,
        Shape::Fields(Mark::of(false, repr), children),
    )
}

/// A node for fields, each as one of the nodes.
pub(crate) fn add_fields(
    cx: LayoutCx<'_>,
    nodes: &mut Nodes,
    repr: &ReprOptions,
    always_sized: bool,
    children: Vec<usize>,
) -> Result<usize, LayError>
    requires data_layout { IsLawfulDataLayout cx.dl.now }
    requires there { AreThere (length nodes.old) children.items }
    requires lawful { HaveLawfulLayouts cx.dl.now (all_at nodes.old children.items) }
    ensures ok { IfOk result (IsTypeAdded cx.entry.dl.now nodes.old nodes.new
        (struct repr.now always_sized None) (all_at nodes.old children.items)) }
    ensures own { IfOk result (IsOwnPut nodes.old nodes.new) }
    ensures err { IfErr result (IsRefused
        (IsFieldsAnswer cx.entry.dl.now repr.now always_sized (all_at nodes.old children.items))) }
    ensures kept { OnErr result (nodes.new ≡ nodes.old) }
    ensures behind { AreStillThere nodes.old nodes.new }
{
    match fields_fault(repr, &children) {
        Some(fault) => Err(fault),
        None => add_faultless_fields(cx, nodes, repr, always_sized, children),
    }
}
