//! How trees are laid out: children before parents, left to right.

ghost use Rattle.std.specs.Prelude.{IfOk, IfErr, map, option_map};
ghost use Rattle.abi_base.specs.DataLayout.{IsLawfulDataLayout};
ghost use Rattle.abi_tree.specs.Tree.{coroutine, enum, struct, tree_of, trees, trees_of_variants};
ghost use Rattle.rustc_abi.specs.Laying.{IsLaying, AreLaying, VariantsLaying};
ghost use Rattle.rustc_abi.specs.Error.{IsRefused};
ghost use Rattle.rustc_abi.specs.Adding.{AreAdded, AreStillThere, AreVariantsAdded, IsAdded};
ghost use Rattle.rustc_abi.specs.Count.{AreCounted, AreVariantsCounted, IsCounted};

use crate::discriminants::discriminants;
use crate::error::LayError;
use crate::lay_array::add_elements;
use crate::lay_coroutine::{StateNodes, add_coroutine};
use crate::lay_enum::add_enum;
use crate::lay_fields::add_fields;
use crate::lay_ordered::add_ordered;
use crate::lay_scalar::{add_never, add_pair, add_scalar, add_unit};
use crate::lay_union::add_union;
use crate::lay_vector::add_vector;
use crate::layout_cx::LayoutCx;
use abi_scalar::ReprOptions;
use abi_tree::{Nodes, TypeTree};

/// Lays out a type behind the nodes that are there.
#[cycle(lay)]
pub(crate) fn lay_tree(
    cx: LayoutCx<'_>,
    nodes: &mut Nodes,
    tree: &TypeTree,
) -> Result<usize, LayError>
    requires { IsLawfulDataLayout cx.dl.now }
    ensures ok { IfOk result (λ i.
        IsAdded cx.entry.dl.now nodes.old nodes.new i (tree_of tree.now)) }
    ensures counted { IfOk result (λ i.
        IsCounted cx.entry.dl.now nodes.old nodes.new (tree_of tree.now)) }
    ensures err { IfErr result (IsRefused (IsLaying cx.entry.dl.now (tree_of tree.now))) }
    ensures behind { AreStillThere nodes.old nodes.new }
{
    match tree {
        TypeTree::Scalar(value) => add_scalar(cx.dl, nodes, *value),
        TypeTree::Pair(a, b) => add_pair(cx, nodes, *a, *b),
        TypeTree::Never => add_never(cx.dl, nodes),
        TypeTree::Unit => add_unit(cx, nodes),
        TypeTree::Array(count, element) => {
            let element = lay_tree(cx, nodes, element)?;
            add_elements(cx.dl, nodes, *count, element)
        }
        TypeTree::Struct {
            repr,
            always_sized,
            fields,
        } => lay_struct(cx, nodes, repr, *always_sized, None, fields),
        TypeTree::Ordered {
            repr,
            always_sized,
            order,
            fields,
        } => lay_struct(cx, nodes, repr, *always_sized, Some(order), fields),
        TypeTree::Vector {
            lanes,
            packed,
            element,
        } => {
            let element = lay_tree(cx, nodes, element)?;
            add_vector(cx, nodes, *lanes, *packed, element)
        }
        TypeTree::Union { repr, fields } => {
            let children = lay_each(cx, nodes, fields)?;
            add_union(cx, nodes, repr, children)
        }
        TypeTree::Enum { repr, variants } => lay_enum(cx, nodes, repr, variants),
        TypeTree::Coroutine {
            prefix,
            locals,
            states,
            conflicts,
        } => lay_coroutine(cx, nodes, prefix, locals, states, conflicts),
    }
}

/// Lays out a struct behind its fields, in the order that is handed in, if one is.
#[cycle(lay)]
fn lay_struct(
    cx: LayoutCx<'_>,
    nodes: &mut Nodes,
    repr: &ReprOptions,
    always_sized: bool,
    order: Option<&Vec<u64>>,
    fields: &[TypeTree],
) -> Result<usize, LayError>
    requires { IsLawfulDataLayout cx.dl.now }
    ensures ok { IfOk result (λ i. IsAdded cx.entry.dl.now nodes.old nodes.new i
        (struct repr.now always_sized (option_map (λ o. o.now.items) order.entry)
        (trees (map tree_of fields.now)))) }
    ensures counted { IfOk result (λ i. IsCounted cx.entry.dl.now nodes.old nodes.new
        (struct repr.now always_sized (option_map (λ o. o.now.items) order.entry)
        (trees (map tree_of fields.now)))) }
    ensures err { IfErr result (IsRefused (IsLaying cx.entry.dl.now (struct repr.now always_sized
        (option_map (λ o. o.now.items) order.entry) (trees (map tree_of fields.now))))) }
    ensures behind { AreStillThere nodes.old nodes.new }
{
    let children = lay_each(cx, nodes, fields)?;
    match order {
        None => add_fields(cx, nodes, repr, always_sized, children),
        Some(order) => add_ordered(cx, nodes, repr, always_sized, order, children),
    }
}

/// Lays out an enum behind the fields of its variants.
#[cycle(lay)]
fn lay_enum(
    cx: LayoutCx<'_>,
    nodes: &mut Nodes,
    repr: &ReprOptions,
    variants: &[(u128, Vec<TypeTree>)],
) -> Result<usize, LayError>
    requires { IsLawfulDataLayout cx.dl.now }
    ensures ok { IfOk result (λ i. IsAdded cx.entry.dl.now nodes.old nodes.new i (enum repr.now
        (trees_of_variants variants.now))) }
    ensures counted { IfOk result (λ i. IsCounted cx.entry.dl.now nodes.old nodes.new
        (enum repr.now (trees_of_variants variants.now))) }
    ensures err { IfErr result (IsRefused (IsLaying cx.entry.dl.now (enum repr.now
        (trees_of_variants variants.now)))) }
    ensures behind { AreStillThere nodes.old nodes.new }
{
    let numbers = discriminants(cx.alloc, variants)?;
    let children = lay_variants(cx, nodes, variants)?;
    add_enum(cx, nodes, repr, &numbers, children)
}

/// Lays out a coroutine behind its prefix fields and its locals.
#[cycle(lay)]
fn lay_coroutine(
    cx: LayoutCx<'_>,
    nodes: &mut Nodes,
    prefix: &[TypeTree],
    locals: &[TypeTree],
    states: &[Vec<u64>],
    conflicts: &[(u64, u64)],
) -> Result<usize, LayError>
    requires { IsLawfulDataLayout cx.dl.now }
    ensures ok { IfOk result (λ i. IsAdded cx.entry.dl.now nodes.old nodes.new i
        (coroutine (trees (map tree_of prefix.now)) (trees (map tree_of locals.now))
        (map (λ state. state.items) states.now) conflicts.now)) }
    ensures counted { IfOk result (λ i. IsCounted cx.entry.dl.now nodes.old nodes.new
        (coroutine (trees (map tree_of prefix.now)) (trees (map tree_of locals.now))
        (map (λ state. state.items) states.now) conflicts.now)) }
    ensures err { IfErr result (IsRefused (IsLaying cx.entry.dl.now
        (coroutine (trees (map tree_of prefix.now)) (trees (map tree_of locals.now))
        (map (λ state. state.items) states.now) conflicts.now))) }
    ensures behind { AreStillThere nodes.old nodes.new }
{
    let prefix = lay_each(cx, nodes, prefix)?;
    let locals = lay_each(cx, nodes, locals)?;
    let state_nodes = StateNodes {
        locals: &locals,
        states,
        pairs: conflicts,
    };
    add_coroutine(cx, nodes, prefix, state_nodes)
}

/// Lays out types, one after another, and answers their nodes.
#[cycle(lay)]
fn lay_each(
    cx: LayoutCx<'_>,
    nodes: &mut Nodes,
    fields: &[TypeTree],
) -> Result<Vec<usize>, LayError>
    requires { IsLawfulDataLayout cx.dl.now }
    ensures ok { IfOk result (λ children.
        AreAdded cx.entry.dl.now nodes.old nodes.new children.items (map tree_of fields.now)) }
    ensures counted { IfOk result (λ children.
        AreCounted cx.entry.dl.now nodes.old nodes.new (trees (map tree_of fields.now))) }
    ensures err { IfErr result (IsRefused (AreLaying cx.entry.dl.now (trees (map tree_of fields.now)))) }
    ensures behind { AreStillThere nodes.old nodes.new }
{
    let mut children = Vec::with_capacity(cx.alloc, fields.len())?;
    for field in fields {
        let child = lay_tree(cx, nodes, field)?;
        children.push(child)?;
    }
    Ok(children)
}

/// Lays out the fields of variants, one after another, and answers their nodes.
#[cycle(lay)]
fn lay_variants(
    cx: LayoutCx<'_>,
    nodes: &mut Nodes,
    all: &[(u128, Vec<TypeTree>)],
) -> Result<Vec<Vec<usize>>, LayError>
    requires { IsLawfulDataLayout cx.dl.now }
    ensures ok { IfOk result (λ children. AreVariantsAdded cx.entry.dl.now nodes.old nodes.new
        children.items (trees_of_variants all.now)) }
    ensures counted { IfOk result (λ children.
        AreVariantsCounted cx.entry.dl.now nodes.old nodes.new (trees_of_variants all.now)) }
    ensures err { IfErr result (IsRefused (VariantsLaying cx.entry.dl.now (trees_of_variants all.now))) }
    ensures behind { AreStillThere nodes.old nodes.new }
{
    let mut children = Vec::with_capacity(cx.alloc, all.len())?;
    for variant in all {
        let fields = lay_each(cx, nodes, &variant.1)?;
        children.push(fields)?;
    }
    Ok(children)
}
