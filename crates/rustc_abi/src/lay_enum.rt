//! How enums are laid out, once the fields of their variants are.

ghost use Rattle.std.specs.Prelude.{◌≡◌, ◌<◌, ◌≤◌, ◌∷◌, [], List, IfOk, IfErr, Ok, None, Some, length, map, option_map, slice_get, All, false, true};
ghost use Rattle.std.specs.List.{list_all};
ghost use Rattle.abi_base.specs.DataLayout.{IsLawfulDataLayout};
ghost use Rattle.abi_scalar.specs.Lawful.{IsLawfulLayout};
ghost use Rattle.abi_scalar.specs.Scalar.{IsWellFormed};
ghost use Rattle.abi_scalar.specs.Variant.{variant_layout, variants_of};
ghost use Rattle.abi_univariant.specs.List.{HasLawfulAligns};
ghost use Rattle.abi_tree.specs.Placed.{Placed, size_of, tagged};
ghost use Rattle.abi_tree.specs.Nodes.{encoding_of, tag_offset};
ghost use Rattle.rustc_abi.specs.Enums.{IsEnumed, IsTagIntegerAnswer, tagged_variants_at, has_equal, is_discriminant, layouts_of};
ghost use Rattle.rustc_abi.specs.Laying.{IsEnumOf, enum_fault, most_fields, one_scalar, placed_enum};
ghost use Rattle.rustc_abi.specs.Inside.{VariantsInside};
ghost use Rattle.abi_tree.specs.Laws.{have_places};
ghost use Rattle.rustc_abi.specs.Error.{IsRefused};
ghost use Rattle.abi_tree.specs.Well.{IsPut};
ghost use Rattle.rustc_abi.specs.Adding.{AreTaggedVariants, AreEachThere, AreStillThere, HasWellFormedTag, HasVariants, HaveLawfulLayouts, HavePlaces, IsEnumAdded, variants_in};
ghost use Rattle.rustc_abi.specs.Count.{HasMore, IsOwnPut};

use crate::discriminants::{has_equal, is_discriminant, number_variants};
use crate::error::LayError;
use crate::lay_fields::{has_bad_align, has_bad_index};
use crate::layout_cx::LayoutCx;
use crate::node::{add, layouts_at};
use crate::tag_integer::tag_integer;
use abi_base::{Integer, NicheOptimizations, TargetDataLayout};
use abi_calc::LayoutCalculator;
use abi_index::{FieldIdx, IndexSlice, IndexVec, VariantIdx};
use abi_scalar::{LayoutData, RangeFrom, RangeToInclusive, ReprOptions, Scalar, Variants};
use abi_tree::{Mark, Node, Nodes, Shape};
use std::alloc::{AllocError, Global};

/// Whether each number is one of the type of the enum's discriminants.
fn are_discriminants(dl: &TargetDataLayout, repr: &ReprOptions, numbers: &[u128]) -> bool
    requires { IsLawfulDataLayout dl.now }
    ensures { result ≡ list_all (is_discriminant dl.now repr.now) numbers.now }
{
    for number in numbers {
        if !is_discriminant(dl, repr, *number) {
            return false;
        }
    }
    true
}

/// The own fault of an enum, if it has one.
fn enum_fault(
    cx: LayoutCx<'_>,
    repr: &ReprOptions,
    numbers: &[u128],
    children: &[Vec<usize>],
) -> Result<Option<LayError>, AllocError>
    requires { IsLawfulDataLayout cx.dl.now }
    ensures { IfOk result (λ fault. (variants : List (List Placed)) →
        map length variants ≡ map (λ c. length c.items) children.now →
        fault ≡ enum_fault cx.entry.dl.now repr.now numbers.now variants) }
{
    if has_bad_index(children) {
        return Ok(Some(LayError::BadIndex));
    }
    if has_bad_align(repr) {
        return Ok(Some(LayError::BadAlign));
    }
    if has_equal(cx.alloc, numbers)? {
        return Ok(Some(LayError::DuplicateDiscriminant));
    }
    if !are_discriminants(cx.dl, repr, numbers) {
        return Ok(Some(LayError::DiscriminantTooWide));
    }
    Ok(None)
}

/// The layouts of the fields of variants, each as one of the nodes.
fn variant_layouts<'a>(
    alloc: Global,
    nodes: &'a Nodes,
    children: &[Vec<usize>],
) -> Result<Vec<IndexVec<FieldIdx, &'a LayoutData<FieldIdx, VariantIdx>>>, AllocError>
    requires count { All (λ fields. length fields.items ≤ most_fields) children.now }
    requires there { AreEachThere (length nodes.now) children.now }
    ensures { IfOk result (λ layouts. map (map (λ lent. lent.now)) layouts.items
        ≡ layouts_of (variants_in nodes.now children.now)) }
{
    let mut layouts = Vec::with_capacity(alloc, children.len())?;
    for fields in children {
        layouts.push(layouts_at(alloc, nodes, fields)?)?;
    }
    Ok(layouts)
}

/// The calculator's answer to variants with these discriminants, where the tag's integer that is asked for is the
/// enum's.
fn calculator_answer<D: Fn(RangeFrom<i128>, RangeToInclusive<u128>) -> (Integer, bool)>(
    cx: LayoutCx<'_>,
    repr: &ReprOptions,
    variants: &[IndexVec<FieldIdx, &LayoutData<FieldIdx, VariantIdx>>],
    discr_range_of_repr: D,
    numbers: &[u128],
) -> Result<LayoutData<FieldIdx, VariantIdx>, LayError>
where
    D: Drop,
    requires data_layout { IsLawfulDataLayout cx.dl.now }
    requires aligns { HasLawfulAligns repr.now }
    requires few { length variants.now ≤ most_fields }
    requires each { length numbers.now ≡ length variants.now }
    requires lawful { All (All (λ lent. IsLawfulLayout cx.dl.now lent.now)) variants.now }
    requires differ { has_equal numbers.now ≡ false }
    requires narrow { list_all (is_discriminant cx.dl.now repr.now) numbers.now ≡ true }
    requires callable { D.IsAlwaysCallable discr_range_of_repr }
    requires asked { (from : _) (to : _) (answer : _) → D.post discr_range_of_repr from to answer →
        IsTagIntegerAnswer cx.dl.now repr.now from to answer }
    ensures ok { IfOk result (λ l. (all : List (List Placed)) →
        map (map (λ lent. lent.now)) variants.now ≡ layouts_of all →
        IsEnumed cx.entry.dl.now repr.now numbers.now all (Ok l)) }
    ensures err { IfErr result (λ e. (all : List (List Placed)) →
        map (map (λ lent. lent.now)) variants.now ≡ layouts_of all →
        IsRefused (IsEnumed cx.entry.dl.now repr.now numbers.now all) e) }
{
    let items = number_variants(cx.alloc, numbers)?;
    let answer = LayoutCalculator::new(cx.dl).layout_of_struct_or_enum(
        cx.alloc,
        repr,
        IndexSlice::new(variants),
        true,
        NicheOptimizations::Enabled,
        discr_range_of_repr,
        items.iter().copied(),
        true,
    );
    Ok(answer?)
}

/// The layout of an enum without a fault of its own, from its discriminants and from the fields of its variants, each
/// as one of the nodes.
fn enum_layout(
    cx: LayoutCx<'_>,
    nodes: &Nodes,
    repr: &ReprOptions,
    numbers: &[u128],
    children: &[Vec<usize>],
) -> Result<LayoutData<FieldIdx, VariantIdx>, LayError>
    requires data_layout { IsLawfulDataLayout cx.dl.now }
    requires faultless { enum_fault cx.dl.now repr.now numbers.now
        (variants_in nodes.now children.now) ≡ None }
    requires each { length numbers.now ≡ length children.now }
    requires there { AreEachThere (length nodes.now) children.now }
    requires lawful { All (HaveLawfulLayouts cx.dl.now) (variants_in nodes.now children.now) }
    ensures ok { IfOk result (λ l.
        IsEnumed cx.entry.dl.now repr.now numbers.now (variants_in nodes.now children.now) (Ok l)) }
    ensures err { IfErr result (IsRefused (IsEnumed cx.entry.dl.now repr.now numbers.now
        (variants_in nodes.now children.now))) }
{
    let variants = variant_layouts(cx.alloc, nodes, children)?;
    let dl = cx.dl;
    calculator_answer(
        cx,
        repr,
        &variants,
        |least, greatest| tag_integer(dl, repr, least.start, greatest.last),
        numbers,
    )
}

/// The node of a variant or state: its fields, with the layout that it has as a type of its own, and the mark.
fn own_node(
    alloc: Global,
    whole: &LayoutData<FieldIdx, VariantIdx>,
    mark: Mark,
    index: VariantIdx,
    fields: Vec<usize>,
) -> Result<Node, AllocError>
    requires { index < length (variants_of whole.now.variants) }
    ensures layout { IfOk result (λ node. Some node.layout ≡ option_map
        (variant_layout whole.now index) (slice_get (variants_of whole.now.variants) index)) }
    ensures shape { IfOk result (λ node. node.shape ≡ Shape.Fields mark fields) }
{
    let layout = LayoutData::for_variant(alloc, whole, index)?;
    Ok(Node {
        layout,
        shape: Shape::Fields(mark, fields),
    })
}

/// A node for each variant or state beside a tag, with its number, the layout that it has as a type of its own, and the
/// mark.
pub(crate) fn add_variants(
    alloc: Global,
    nodes: &mut Nodes,
    layout: &LayoutData<FieldIdx, VariantIdx>,
    mark: Mark,
    numbers: &[u128],
    children: Vec<Vec<usize>>,
) -> Result<Vec<(u128, usize)>, LayError>
    requires variants { length (variants_of layout.now.variants) ≡ length children.items }
    requires each { length numbers.now ≡ length children.items }
    requires few { length children.items ≤ most_fields }
    requires few_each { All (λ fields. length fields.items ≤ most_fields) children.items }
    requires there { AreEachThere (length nodes.old) children.items }
    requires inside { VariantsInside layout.now.size (variants_of layout.now.variants)
        (variants_in nodes.old children.items) }
    ensures ok { IfOk result (λ variants. AreTaggedVariants nodes.old nodes.new
        (map (λ l. l.size) (variants_of layout.now.variants)) variants.items
        (tagged_variants_at layout.now mark 0 (variants_of layout.now.variants) numbers.now
        (variants_in nodes.old children.items))) }
    ensures count { IfOk result (λ variants.
        HasMore (length variants.items) false nodes.old nodes.new) }
    ensures err { IfErr result (λ e. e ≡ LayError.OutOfMemory) }
    ensures behind { AreStillThere nodes.old nodes.new }
{
    let mut variants = Vec::with_capacity(alloc, children.len())?;
    for fields in children {
        let at = variants.len();
        let own = own_node(alloc, layout, mark, VariantIdx::from_usize(at), fields)?;
        let node = add(nodes, own.layout, own.shape)?;
        variants.push((numbers[at], node))?;
    }
    Ok(variants)
}

/// Variants that a tag distinguishes: the discriminant of each, and its fields as nodes.
#[derive(Drop)]
struct VariantNodes<'a> {
    numbers: &'a [u128],
    children: Vec<Vec<usize>>,
}

/// A node for an enum of several variants with this layout and this tag, behind one for the tag and one for each
/// variant.
fn add_tagged(
    cx: LayoutCx<'_>,
    nodes: &mut Nodes,
    layout: LayoutData<FieldIdx, VariantIdx>,
    mark: Mark,
    tag: Scalar,
    variant_nodes: VariantNodes<'_>,
) -> Result<usize, LayError>
    requires tag { IsWellFormed cx.dl.now tag }
    requires variants { length (variants_of layout.variants) ≡ length variant_nodes.children.items }
    requires each { length variant_nodes.numbers.now ≡ length variant_nodes.children.items }
    requires few { length variant_nodes.children.items ≤ most_fields }
    requires few_each { All (λ fields. length fields.items ≤ most_fields) variant_nodes.children.items }
    requires there { AreEachThere (length nodes.old) variant_nodes.children.items }
    requires places { have_places layout.size layout.fields
        (size_of (one_scalar cx.dl.now tag) ∷ []) ≡ true }
    requires inside { VariantsInside layout.size (variants_of layout.variants)
        (variants_in nodes.old variant_nodes.children.items) }
    ensures ok { IfOk result (λ i. IsPut nodes.old nodes.new i (tagged layout mark
        (tag_offset layout) (one_scalar cx.entry.dl.now tag) (encoding_of layout.variants)
        (tagged_variants_at layout mark 0 (variants_of layout.variants) variant_nodes.entry.numbers.now
        (variants_in nodes.old variant_nodes.entry.children.items)))) }
    ensures own { IfOk result (IsOwnPut nodes.old nodes.new) }
    ensures err { IfErr result (λ e. e ≡ LayError.OutOfMemory) }
    ensures behind { AreStillThere nodes.old nodes.new }
{
    let tag = add(nodes, LayoutData::scalar(&cx.dl, tag), Shape::Scalar(tag))?;
    let variants = add_variants(
        cx.alloc,
        nodes,
        &layout,
        mark,
        variant_nodes.numbers,
        variant_nodes.children,
    )?;
    add(
        nodes,
        layout,
        Shape::Tagged {
            mark,
            tag,
            variants,
        },
    )
}

/// A node for an enum with this layout, behind those for its tag and its variants where it has several.
fn add_placed(
    cx: LayoutCx<'_>,
    nodes: &mut Nodes,
    layout: LayoutData<FieldIdx, VariantIdx>,
    repr: &ReprOptions,
    variant_nodes: VariantNodes<'_>,
) -> Result<usize, LayError>
    requires tag { HasWellFormedTag cx.dl.now layout.variants }
    requires variants { HasVariants (length variant_nodes.children.items) layout.variants }
    requires each { length variant_nodes.numbers.now ≡ length variant_nodes.children.items }
    requires few { length variant_nodes.children.items ≤ most_fields }
    requires few_each { All (λ fields. length fields.items ≤ most_fields) variant_nodes.children.items }
    requires there { AreEachThere (length nodes.old) variant_nodes.children.items }
    requires places { HavePlaces cx.dl.now layout
        (variants_in nodes.old variant_nodes.children.items) layout.variants }
    ensures ok { IfOk result (λ i. IsPut nodes.old nodes.new i (placed_enum cx.entry.dl.now
        repr.now variant_nodes.entry.numbers.now (variants_in nodes.old variant_nodes.entry.children.items) layout)) }
    ensures own { IfOk result (IsOwnPut nodes.old nodes.new) }
    ensures err { IfErr result (λ e. e ≡ LayError.OutOfMemory) }
    ensures behind { AreStillThere nodes.old nodes.new }
{
    let mark = Mark::of(true, repr);
    match layout.variants {
        Variants::Empty => add(nodes, layout, Shape::Never(mark)),
        Variants::Single { index } => {
            let mut children = variant_nodes.children;
            let fields = children.swap_remove(index.as_usize());
            add(nodes, layout, Shape::Single(mark, fields))
        }
        Variants::Multiple { tag, .. } => {
            add_tagged(cx, nodes, layout, mark, tag, variant_nodes)
        }
    }
}

/// A node for an enum without a fault of its own.
fn add_faultless_enum(
    cx: LayoutCx<'_>,
    nodes: &mut Nodes,
    repr: &ReprOptions,
    numbers: &[u128],
    children: Vec<Vec<usize>>,
) -> Result<usize, LayError>
    requires data_layout { IsLawfulDataLayout cx.dl.now }
    requires faultless { enum_fault cx.dl.now repr.now numbers.now
        (variants_in nodes.old children.items) ≡ None }
    requires each { length numbers.now ≡ length children.items }
    requires there { AreEachThere (length nodes.old) children.items }
    requires lawful { All (HaveLawfulLayouts cx.dl.now) (variants_in nodes.old children.items) }
    ensures ok { IfOk result (IsEnumAdded cx.entry.dl.now nodes.old nodes.new
        repr.now numbers.now (variants_in nodes.old children.items)) }
    ensures own { IfOk result (IsOwnPut nodes.old nodes.new) }
    ensures err { IfErr result (IsRefused
        (IsEnumOf cx.entry.dl.now repr.now numbers.now (variants_in nodes.old children.items))) }
    ensures behind { AreStillThere nodes.old nodes.new }
{
    let layout = enum_layout(cx, nodes, repr, numbers, &children)?;
    let variant_nodes = VariantNodes { numbers, children };
    add_placed(cx, nodes, layout, repr, variant_nodes)
}

/// A node for an enum of these variants, the fields of each as nodes.
pub(crate) fn add_enum(
    cx: LayoutCx<'_>,
    nodes: &mut Nodes,
    repr: &ReprOptions,
    numbers: &[u128],
    children: Vec<Vec<usize>>,
) -> Result<usize, LayError>
    requires data_layout { IsLawfulDataLayout cx.dl.now }
    requires each { length numbers.now ≡ length children.items }
    requires there { AreEachThere (length nodes.old) children.items }
    requires lawful { All (HaveLawfulLayouts cx.dl.now) (variants_in nodes.old children.items) }
    ensures ok { IfOk result (IsEnumAdded cx.entry.dl.now nodes.old nodes.new
        repr.now numbers.now (variants_in nodes.old children.items)) }
    ensures own { IfOk result (IsOwnPut nodes.old nodes.new) }
    ensures err { IfErr result (IsRefused
        (IsEnumOf cx.entry.dl.now repr.now numbers.now (variants_in nodes.old children.items))) }
    ensures behind { AreStillThere nodes.old nodes.new }
{
    match enum_fault(cx, repr, numbers, &children)? {
        Some(fault) => Err(fault),
        None => add_faultless_enum(cx, nodes, repr, numbers, children),
    }
}
