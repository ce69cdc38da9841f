//! How coroutines are laid out, once their prefix fields and their locals are.

ghost use Rattle.std.specs.Prelude.{◌≡◌, ◌≢◌, ◌+◌, ◌++◌, ◌∷◌, [], true, ◌<◌, ◌≤◌, All, Err, IfErr, IfOk, None, Ok, false, get_or, length, map};
ghost use Rattle.std.specs.List.{AllPairs};
ghost use Rattle.abi_base.specs.DataLayout.{IsLawfulDataLayout};
ghost use Rattle.abi_index.specs.Relation.{column_count, row_count};
ghost use Rattle.abi_scalar.specs.Lawful.{IsLawfulLayout};
ghost use Rattle.abi_scalar.specs.Scalar.{IsWellFormed};
ghost use Rattle.abi_scalar.specs.Variant.{variants_of};
ghost use Rattle.abi_univariant.specs.Placement.{source_order};
ghost use Rattle.abi_calc.specs.Coroutine.Layout.{IsStateTag};
ghost use Rattle.abi_tree.specs.Placed.{size_of};
ghost use Rattle.rustc_abi.specs.Inside.{VariantsInside};
ghost use Rattle.abi_tree.specs.Laws.{have_places};
ghost use Rattle.abi_tree.specs.Nodes.{placed_in};
ghost use Rattle.rustc_abi.specs.Coroutines.{IsCoroutined, IsCoroutinedAs};
ghost use Rattle.rustc_abi.specs.Laying.{IsCoroutineOf, coroutine_fault, most_fields, one_scalar, placed_coroutine};
ghost use Rattle.rustc_abi.specs.Error.{IsRefused};
ghost use Rattle.abi_tree.specs.Well.{IsPut, all_at};
ghost use Rattle.rustc_abi.specs.Adding.{AreTaggedVariants, AreEachThere, AreStillThere, AreThere, HaveLawfulLayouts, IsCoroutineAdded, variants_in};
ghost use Rattle.rustc_abi.specs.Enums.{tagged_variants_at};
ghost use Rattle.rustc_abi.specs.Count.{HasMore, IsOwnPut};

use crate::conflicts::{conflicts, each_state_locals};
use crate::coroutine_fault::coroutine_fault;
use crate::error::LayError;
use crate::lay_enum::add_variants;
use crate::layout_cx::LayoutCx;
use crate::node::{add, layouts_at};
use abi_calc::{LayoutCalculator, state_tag};
use abi_index::{BitMatrix, FieldIdx, IndexSlice, IndexVec, VariantIdx};
use abi_scalar::{LayoutData, Scalar};
use abi_tree::{Mark, Nodes, Shape};
use std::alloc::{AllocError, Global};

/// The indices of `count` states, as the numbers that name them.
#[tactic(auto, using(crate::proofs::Coroutines::StateNodesLemmas::indices_more))]
fn indices(alloc: Global, count: usize) -> Result<Vec<u128>, AllocError>
    ensures { IfOk result (λ indices. indices.items ≡ source_order count) }
{
    let mut indices = Vec::with_capacity(alloc, count)?;
    for index in 0..count {
        indices.push(index as u128)?;
    }
    Ok(indices)
}

/// The nodes of a coroutine's locals, the indices of those that each state has, and those of each two that conflict.
#[derive(Clone, Copy)]
pub(crate) struct StateNodes<'a> {
    pub(crate) locals: &'a [usize],
    pub(crate) states: &'a [Vec<u64>],
    pub(crate) pairs: &'a [(u64, u64)],
}

/// The nodes of the locals with these indices.
fn local_nodes(alloc: Global, locals: &[usize], indices: &[u64]) -> Result<Vec<usize>, AllocError>
    requires { All (λ k. k < length locals.now) indices.now }
    ensures { IfOk result (λ nodes. nodes.items ≡ map (λ k. get_or locals.now k 0) indices.now) }
{
    let mut nodes = Vec::with_capacity(alloc, indices.len())?;
    for index in indices {
        nodes.push(locals[*index as usize])?;
    }
    Ok(nodes)
}

/// The nodes of each state's locals, which its indices name.
fn each_state_nodes(
    alloc: Global,
    locals: &[usize],
    states: &[Vec<u64>],
) -> Result<Vec<Vec<usize>>, AllocError>
    requires { All (λ ks. All (λ k. k < length locals.now) ks.items) states.now }
    ensures { IfOk result (λ children. map (λ c. c.items) children.items
        ≡ map (λ ks. map (λ k. get_or locals.now k 0) ks.items) states.now) }
{
    let mut children = Vec::with_capacity(alloc, states.len())?;
    for indices in states {
        children.push(local_nodes(alloc, locals, indices)?)?;
    }
    Ok(children)
}

/// A node for each state beside the tag, with its locals and with its index as number. A state is no struct, union or
/// enum, and says nothing of itself.
fn add_each_state(
    alloc: Global,
    nodes: &mut Nodes,
    layout: &LayoutData<FieldIdx, VariantIdx>,
    children: Vec<Vec<usize>>,
) -> Result<Vec<(u128, usize)>, LayError>
    requires each { length (variants_of layout.now.variants) ≡ length children.items }
    requires few { length children.items ≤ most_fields }
    requires few_each { All (λ fields. length fields.items ≤ most_fields) children.items }
    requires there { AreEachThere (length nodes.old) children.items }
    requires inside { VariantsInside layout.now.size (variants_of layout.now.variants)
        (variants_in nodes.old children.items) }
    ensures ok { IfOk result (λ states. AreTaggedVariants nodes.old nodes.new
        (map (λ l. l.size) (variants_of layout.now.variants)) states.items
        (tagged_variants_at layout.now Mark.Plain 0 (variants_of layout.now.variants)
        (source_order (length children.items)) (variants_in nodes.old children.items))) }
    ensures count { IfOk result (λ states.
        HasMore (length states.items) false nodes.old nodes.new) }
    ensures err { IfErr result (λ e. e ≡ LayError.OutOfMemory) }
    ensures behind { AreStillThere nodes.old nodes.new }
{
    let numbers = indices(alloc, children.len())?;
    add_variants(alloc, nodes, layout, Mark::Plain, &numbers, children)
}

/// A node for a coroutine with this layout and this tag, behind one for the tag and one for each state: each state has
/// the locals that its indices name, and its own index as number.
fn add_states(
    cx: LayoutCx<'_>,
    nodes: &mut Nodes,
    layout: LayoutData<FieldIdx, VariantIdx>,
    tag: Scalar,
    prefix: Vec<usize>,
    state_nodes: StateNodes<'_>,
) -> Result<usize, LayError>
    requires tag { IsWellFormed cx.dl.now tag }
    requires each { length (variants_of layout.variants) ≡ length state_nodes.states.now }
    requires few { length state_nodes.states.now ≤ most_fields }
    requires few_each { All (λ ks. length ks.items ≤ most_fields) state_nodes.states.now }
    requires prefix { AreThere (length nodes.old) prefix.items }
    requires there { AreThere (length nodes.old) state_nodes.locals.now }
    requires known { All (λ ks. All (λ k. k < length state_nodes.locals.now) ks.items) state_nodes.states.now }
    requires places { have_places layout.size layout.fields
        (map size_of (all_at nodes.old prefix.items) ++ size_of (one_scalar cx.dl.now tag) ∷ [])
        ≡ true }
    requires inside { VariantsInside layout.size (variants_of layout.variants) (map (λ ks.
        map (placed_in (all_at nodes.old state_nodes.locals.now)) ks.items) state_nodes.states.now) }
    ensures ok { IfOk result (λ i. IsPut nodes.old nodes.new i (placed_coroutine cx.entry.dl.now
        (all_at nodes.old prefix.items) tag (all_at nodes.old state_nodes.entry.locals.now)
        (map (λ state. state.items) state_nodes.entry.states.now) layout)) }
    ensures own { IfOk result (IsOwnPut nodes.old nodes.new) }
    ensures err { IfErr result (λ e. e ≡ LayError.OutOfMemory) }
    ensures behind { AreStillThere nodes.old nodes.new }
{
    let children = each_state_nodes(cx.alloc, state_nodes.locals, state_nodes.states)?;
    let tag = add(nodes, LayoutData::scalar(&cx.dl, tag), Shape::Scalar(tag))?;
    let states = add_each_state(cx.alloc, nodes, &layout, children)?;
    add(
        nodes,
        layout,
        Shape::States {
            prefix,
            tag,
            states,
        },
    )
}

/// The calculator's answer to a coroutine of these states and conflicts, whose tag lies in this field.
fn calculator_answer(
    cx: LayoutCx<'_>,
    prefix: IndexVec<FieldIdx, &LayoutData<FieldIdx, VariantIdx>>,
    tag: Scalar,
    locals: &[&LayoutData<FieldIdx, VariantIdx>],
    states: &[IndexVec<FieldIdx, u32>],
    conflicts: &BitMatrix<u32, u32>,
) -> Result<LayoutData<FieldIdx, VariantIdx>, LayError>
    requires data_layout { IsLawfulDataLayout cx.dl.now }
    requires prefix { All (λ lent. IsLawfulLayout cx.dl.now lent.now) prefix }
    requires locals { All (λ lent. IsLawfulLayout cx.dl.now lent.now) locals.now }
    requires tag { IsStateTag (length states.now) tag }
    requires some { 0 < length states.now }
    requires few { length states.now ≤ most_fields }
    requires count { length prefix + 1 + length locals.now ≤ most_fields }
    requires known { All (All (λ k. k < length locals.now)) states.now }
    requires once { All (AllPairs (λ a b. a ≢ b)) states.now }
    requires rows { row_count conflicts.now ≡ length locals.now }
    requires columns { column_count conflicts.now ≡ length locals.now }
    ensures ok { IfOk result (λ l. IsCoroutinedAs cx.entry.dl.now (map (λ lent. lent.now) prefix.entry)
        tag (one_scalar cx.entry.dl.now tag) (map (λ lent. lent.now) locals.now) states.now
        conflicts.now (λ answers. answers (Ok l))) }
    ensures err { IfErr result (λ e. IsCoroutinedAs cx.entry.dl.now (map (λ lent. lent.now) prefix.entry)
        tag (one_scalar cx.entry.dl.now tag) (map (λ lent. lent.now) locals.now) states.now
        conflicts.now (λ answers. IsRefused answers e)) }
{
    let field = LayoutData::scalar(&cx.dl, tag);
    let answer = LayoutCalculator::new(cx.dl).layout_of_coroutine(
        cx.alloc,
        IndexSlice::new(locals),
        prefix,
        IndexSlice::new(states),
        conflicts,
        |_tag: Scalar| &field,
    );
    Ok(answer?)
}

/// The layout of a coroutine without a fault of its own, from its prefix fields and its locals, each as one of the
/// nodes.
fn coroutine_layout(
    cx: LayoutCx<'_>,
    nodes: &Nodes,
    prefix: &[usize],
    tag: Scalar,
    state_nodes: StateNodes<'_>,
) -> Result<LayoutData<FieldIdx, VariantIdx>, LayError>
    requires data_layout { IsLawfulDataLayout cx.dl.now }
    requires faultless { coroutine_fault (length prefix.now) (length state_nodes.locals.now)
        (map (λ state. state.items) state_nodes.states.now) state_nodes.pairs.now ≡ None }
    requires tag { IsStateTag (length state_nodes.states.now) tag }
    requires before { AreThere (length nodes.now) prefix.now }
    requires there { AreThere (length nodes.now) state_nodes.locals.now }
    requires prefix { HaveLawfulLayouts cx.dl.now (all_at nodes.now prefix.now) }
    requires locals { HaveLawfulLayouts cx.dl.now (all_at nodes.now state_nodes.locals.now) }
    ensures ok { IfOk result (λ l. IsCoroutined cx.entry.dl.now (all_at nodes.now prefix.now) tag
        (one_scalar cx.entry.dl.now tag) (all_at nodes.now state_nodes.entry.locals.now)
        (map (λ state. state.items) state_nodes.entry.states.now) state_nodes.entry.pairs.now (Ok l)) }
    ensures err { IfErr result (IsRefused (IsCoroutined cx.entry.dl.now (all_at nodes.now prefix.now) tag
        (one_scalar cx.entry.dl.now tag) (all_at nodes.now state_nodes.entry.locals.now)
        (map (λ state. state.items) state_nodes.entry.states.now) state_nodes.entry.pairs.now)) }
{
    let relation = conflicts(cx.alloc, state_nodes.locals.len(), state_nodes.pairs)?;
    let states = each_state_locals(cx.alloc, state_nodes.states)?;
    let prefix = layouts_at(cx.alloc, nodes, prefix)?;
    let locals = layouts_at(cx.alloc, nodes, state_nodes.locals)?;
    calculator_answer(
        cx,
        prefix,
        tag,
        locals.as_slice().as_raw(),
        &states,
        &relation,
    )
}

/// A node for a coroutine without a fault of its own.
fn add_faultless_coroutine(
    cx: LayoutCx<'_>,
    nodes: &mut Nodes,
    prefix: Vec<usize>,
    state_nodes: StateNodes<'_>,
) -> Result<usize, LayError>
    requires data_layout { IsLawfulDataLayout cx.dl.now }
    requires faultless { coroutine_fault (length prefix.items) (length state_nodes.locals.now)
        (map (λ state. state.items) state_nodes.states.now) state_nodes.pairs.now ≡ None }
    requires before { AreThere (length nodes.old) prefix.items }
    requires there { AreThere (length nodes.old) state_nodes.locals.now }
    requires prefix { HaveLawfulLayouts cx.dl.now (all_at nodes.old prefix.items) }
    requires locals { HaveLawfulLayouts cx.dl.now (all_at nodes.old state_nodes.locals.now) }
    ensures ok { IfOk result (IsCoroutineAdded cx.entry.dl.now nodes.old nodes.new
        (all_at nodes.old prefix.items) (all_at nodes.old state_nodes.entry.locals.now)
        (map (λ state. state.items) state_nodes.entry.states.now) state_nodes.entry.pairs.now) }
    ensures own { IfOk result (IsOwnPut nodes.old nodes.new) }
    ensures err { IfErr result (IsRefused (IsCoroutineOf cx.entry.dl.now
        (all_at nodes.old prefix.items) (all_at nodes.old state_nodes.entry.locals.now)
        (map (λ state. state.items) state_nodes.entry.states.now) state_nodes.entry.pairs.now)) }
    ensures behind { AreStillThere nodes.old nodes.new }
{
    let tag = state_tag(state_nodes.states.len());
    let layout = coroutine_layout(cx, nodes, &prefix, tag, state_nodes)?;
    add_states(cx, nodes, layout, tag, prefix, state_nodes)
}

/// A node for a coroutine of these prefix fields and locals, each as one of the nodes.
pub(crate) fn add_coroutine(
    cx: LayoutCx<'_>,
    nodes: &mut Nodes,
    prefix: Vec<usize>,
    state_nodes: StateNodes<'_>,
) -> Result<usize, LayError>
    requires data_layout { IsLawfulDataLayout cx.dl.now }
    requires before { AreThere (length nodes.old) prefix.items }
    requires there { AreThere (length nodes.old) state_nodes.locals.now }
    requires prefix { HaveLawfulLayouts cx.dl.now (all_at nodes.old prefix.items) }
    requires locals { HaveLawfulLayouts cx.dl.now (all_at nodes.old state_nodes.locals.now) }
    ensures ok { IfOk result (IsCoroutineAdded cx.entry.dl.now nodes.old nodes.new
        (all_at nodes.old prefix.items) (all_at nodes.old state_nodes.entry.locals.now)
        (map (λ state. state.items) state_nodes.entry.states.now) state_nodes.entry.pairs.now) }
    ensures own { IfOk result (IsOwnPut nodes.old nodes.new) }
    ensures err { IfErr result (IsRefused (IsCoroutineOf cx.entry.dl.now
        (all_at nodes.old prefix.items) (all_at nodes.old state_nodes.entry.locals.now)
        (map (λ state. state.items) state_nodes.entry.states.now) state_nodes.entry.pairs.now)) }
    ensures behind { AreStillThere nodes.old nodes.new }
{
    match coroutine_fault(
        cx.alloc,
        prefix.len(),
        state_nodes.locals.len(),
        state_nodes.states,
        state_nodes.pairs,
    )? {
        Some(fault) => Err(fault),
        None => add_faultless_coroutine(cx, nodes, prefix, state_nodes),
    }
}
