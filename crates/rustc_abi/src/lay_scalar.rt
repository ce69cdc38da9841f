//! How types without parts, and pairs of scalars, are laid out.

ghost use Rattle.std.specs.Prelude.{◌≡◌, ◌<◌, IfOk, IfErr, Err, None, Ok, OnErr, false, true};
ghost use Rattle.abi_base.specs.DataLayout.{IsLawfulDataLayout, size_bound};
ghost use Rattle.abi_scalar.specs.Pair.{pair_layout, pair_size};
ghost use Rattle.abi_scalar.specs.Scalar.{primitive_of};
ghost use Rattle.abi_tree.specs.Tree.{scalar, pair, never, unit};
ghost use Rattle.abi_scalar.specs.Lawful.{IsLawfulLayout};
ghost use Rattle.abi_tree.specs.Placed.{layout_of};
ghost use Rattle.rustc_abi.specs.Laying.{one_scalar, pair_answer, placed_by, scalar_answer, two_scalars};
ghost use Rattle.rustc_abi.specs.declared.error.LayError.{LayError};
ghost use Rattle.rustc_abi.specs.ScalarFault.{is_lawful_primitive, has_range_within, scalar_fault};
ghost use Rattle.abi_tree.specs.Well.{IsPut};
ghost use Rattle.rustc_abi.specs.Adding.{AreStillThere, IsAdded, IsRefusal};
ghost use Rattle.rustc_abi.specs.Count.{HasMore, IsOwnPut};

use crate::error::LayError;
use crate::layout_cx::LayoutCx;
use crate::node::add;
use abi_base::{Primitive, TargetDataLayout};
use abi_index::{FieldIdx, VariantIdx};
use abi_scalar::{LayoutData, Scalar};
use abi_tree::{Mark, Nodes, Shape};

/// Whether both ends of its range, if it has one, are numbers of its width.
#[inline(always)]
fn has_range_within(dl: &TargetDataLayout, value: Scalar) -> bool
    requires { is_lawful_primitive dl.now (primitive_of value) ≡ true }
    ensures { result ≡ has_range_within dl.now value }
{
    match value {
        Scalar::Initialized { value, valid_range } => {
            let greatest = value.size(dl).unsigned_int_max();
            valid_range.start <= greatest && valid_range.end <= greatest
        }
        Scalar::Union { value: _ } => true,
    }
}

/// The fault, if it has one, of a scalar whose pointer has none: its range's.
#[inline(always)]
fn range_fault(dl: &TargetDataLayout, value: Scalar) -> Option<LayError>
    requires { is_lawful_primitive dl.now (primitive_of value) ≡ true }
    ensures { result ≡ scalar_fault dl.now value }
{
    if has_range_within(dl, value) {
        None
    } else {
        Some(LayError::BadRange)
    }
}

/// The scalar's fault, if it has one: its pointer's before its range's.
#[inline(always)]
fn scalar_fault(dl: &TargetDataLayout, value: Scalar) -> Option<LayError>
    ensures { result ≡ scalar_fault dl.now value }
{
    if let Primitive::Pointer(space) = value.primitive() {
        if !dl.has_lawful_pointer(space) {
            return Some(LayError::UnknownSpace);
        }
    }
    range_fault(dl, value)
}

/// A node for a scalar without a fault.
fn add_faultless_scalar(
    dl: &TargetDataLayout,
    nodes: &mut Nodes,
    value: Scalar,
) -> Result<usize, LayError>
    requires data_layout { IsLawfulDataLayout dl.now }
    requires faultless { scalar_fault dl.now value ≡ None }
    ensures ok { IfOk result (λ i.
        IsPut nodes.old nodes.new i (one_scalar dl.now value)) }
    ensures lawful { IsLawfulLayout dl.now (layout_of (one_scalar dl.now value)) }
    ensures count { IfOk result (λ i. HasMore 1 false nodes.old nodes.new) }
    ensures err { IfErr result (λ e. e ≡ LayError.OutOfMemory) }
    ensures kept { OnErr result (nodes.new ≡ nodes.old) }
    ensures behind { AreStillThere nodes.old nodes.new }
{
    let node = nodes.len();
    nodes.push_scalar(dl, value)?;
    Ok(node)
}

/// A node for a scalar. Its fault is reported before memory is asked for.
#[inline(never)]
pub(crate) fn add_scalar(
    dl: &TargetDataLayout,
    nodes: &mut Nodes,
    value: Scalar,
) -> Result<usize, LayError>
    requires { IsLawfulDataLayout dl.now }
    ensures ok { IfOk result (λ i.
        IsAdded dl.now nodes.old nodes.new i (scalar value)) }
    ensures own { IfOk result (IsOwnPut nodes.old nodes.new) }
    ensures err { IfErr result (IsRefusal (scalar_answer dl.now value)) }
    ensures fault { (e : LayError) → scalar_answer dl.now value ≡ Err e → result ≡ Err e }
    ensures kept { OnErr result (nodes.new ≡ nodes.old) }
    ensures behind { AreStillThere nodes.old nodes.new }
{
    match scalar_fault(dl, value) {
        Some(fault) => Err(fault),
        None => add_faultless_scalar(dl, nodes, value),
    }
}

/// Two scalars' layout, or their fault: the first's, then the second's, then that their size isn't below the bound. No
/// memory is asked for.
fn lay_two(
    cx: LayoutCx<'_>,
    a: Scalar,
    b: Scalar,
) -> Result<LayoutData<FieldIdx, VariantIdx>, LayError>
    requires { IsLawfulDataLayout cx.dl.now }
    ensures exact { IfOk result (λ layout. layout ≡ pair_layout 0 0 1 cx.entry.dl.now a b) }
    ensures lawful { IfOk result (IsLawfulLayout cx.entry.dl.now) }
    ensures answer { pair_answer cx.entry.dl.now a b ≡ placed_by (λ _. two_scalars cx.entry.dl.now a b) result }
{
    if let Some(fault) = scalar_fault(cx.dl, a) {
        return Err(fault);
    }
    if let Some(fault) = scalar_fault(cx.dl, b) {
        return Err(fault);
    }
    let layout = LayoutData::scalar_pair(cx.alloc, &cx.dl, a, b);
    if layout.size.bytes() < cx.dl.obj_size_bound() {
        Ok(layout)
    } else {
        Err(LayError::SizeOverflow)
    }
}

/// Nodes for two scalars without faults, whose size is below the bound, and one for both, with their layout.
fn add_two(
    dl: &TargetDataLayout,
    nodes: &mut Nodes,
    a: Scalar,
    b: Scalar,
    layout: LayoutData<FieldIdx, VariantIdx>,
) -> Result<usize, LayError>
    requires data_layout { IsLawfulDataLayout dl.now }
    requires first { scalar_fault dl.now a ≡ None }
    requires second { scalar_fault dl.now b ≡ None }
    requires below { pair_size dl.now a b < size_bound dl.now }
    requires exact { layout ≡ pair_layout 0 0 1 dl.now a b }
    requires lawful { IsLawfulLayout dl.now layout }
    ensures ok { IfOk result (λ i. IsAdded dl.now nodes.old nodes.new i (pair a b)) }
    ensures own { IfOk result (IsOwnPut nodes.old nodes.new) }
    ensures err { IfErr result (λ e. e ≡ LayError.OutOfMemory) }
    ensures behind { AreStillThere nodes.old nodes.new }
{
    let first = add_faultless_scalar(dl, nodes, a)?;
    let second = add_faultless_scalar(dl, nodes, b)?;
    add(nodes, layout, Shape::Pair { first, second })
}

/// A node for two scalars, and one for each of them. Their fault is reported before memory is asked for.
#[inline(never)]
pub(crate) fn add_pair(
    cx: LayoutCx<'_>,
    nodes: &mut Nodes,
    a: Scalar,
    b: Scalar,
) -> Result<usize, LayError>
    requires { IsLawfulDataLayout cx.dl.now }
    ensures ok { IfOk result (λ i. IsAdded cx.entry.dl.now nodes.old nodes.new i (pair a b)) }
    ensures own { IfOk result (IsOwnPut nodes.old nodes.new) }
    ensures err { IfErr result (IsRefusal (pair_answer cx.entry.dl.now a b)) }
    ensures fault { (e : LayError) → pair_answer cx.entry.dl.now a b ≡ Err e → result ≡ Err e }
    ensures behind { AreStillThere nodes.old nodes.new }
{
    let layout = lay_two(cx, a, b)?;
    add_two(cx.dl, nodes, a, b, layout)
}

/// A node for a type with no values.
#[inline(never)]
pub(crate) fn add_never(dl: &TargetDataLayout, nodes: &mut Nodes) -> Result<usize, LayError>
    requires { IsLawfulDataLayout dl.now }
    ensures ok { IfOk result (λ i. IsAdded dl.now nodes.old nodes.new i never) }
    ensures own { IfOk result (IsOwnPut nodes.old nodes.new) }
    ensures err { IfErr result (λ e. e ≡ LayError.OutOfMemory) }
    ensures kept { OnErr result (nodes.new ≡ nodes.old) }
    ensures behind { AreStillThere nodes.old nodes.new }
{
    add(
        nodes,
        LayoutData::never_type(&dl),
        Shape::Never(Mark::Never),
    )
}

/// A node for a type with one value, which takes no bytes.
#[inline(never)]
pub(crate) fn add_unit(cx: LayoutCx<'_>, nodes: &mut Nodes) -> Result<usize, LayError>
    requires { IsLawfulDataLayout cx.dl.now }
    ensures ok { IfOk result (λ i. IsAdded cx.entry.dl.now nodes.old nodes.new i unit) }
    ensures own { IfOk result (IsOwnPut nodes.old nodes.new) }
    ensures err { IfErr result (λ e. e ≡ LayError.OutOfMemory) }
    ensures kept { OnErr result (nodes.new ≡ nodes.old) }
    ensures behind { AreStillThere nodes.old nodes.new }
{
    add(
        nodes,
        LayoutData::unit(cx.alloc, &cx.dl, true),
        Shape::Fields(Mark::Unit, Vec::new(cx.alloc)),
    )
}
