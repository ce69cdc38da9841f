//! Calls of the calculator for lists of fields, unions and scalable vectors, and layouts that a line hands in: whether one
//! is lawful, and all that it reports.

ghost use Rattle.std.specs.Prelude.{◌≤◌, All, IfOk, IsTrue, length};
ghost use Rattle.abi_base.specs.DataLayout.{IsLawfulDataLayout, size_bound};
ghost use Rattle.abi_scalar.specs.Lawful.{IsLawfulLayout};
ghost use Rattle.abi_univariant.specs.List.{HasLawfulAligns};
ghost use Rattle.abi_univariant.specs.Placement.{IsWellFormedPrefix, IsNonEmptyIfUnsized};

use crate::command::Command;
use crate::in_order::univariant_in_order;
use crate::layouts::{
    Layout, MOST_ITEMS, are_lawful, calculated, is_lawful_align, layout, layouts, lend_layouts,
};
use crate::print::write_layout_or_stop;
use crate::stop::{Clause, Refusal};
use abi_base::{Align, NumScalableVectors, Size, StructKind, TargetDataLayout};
use abi_calc::LayoutCalculator;
use abi_index::{FieldIdx, IndexSlice, IndexVec};
use abi_scalar::ReprOptions;
use std::alloc::Global;

/// What is known of a list beside its fields.
#[derive(Clone, Copy)]
pub(crate) struct ListRepr {
    pub(crate) repr: ReprOptions,
    kind: StructKind,
}

/// The kind of list that is next.
fn kind(command: &mut Command) -> StructKind {
    if command.takes(b"prefixed") {
        let size = command.size();
        StructKind::Prefixed(size, command.align())
    } else if command.takes(b"maybe-unsized") {
        StructKind::MaybeUnsized
    } else {
        command.expect(b"always-sized");
        StructKind::AlwaysSized
    }
}

/// The repr and the kind of list that are next.
pub(crate) fn list_repr(command: &mut Command) -> ListRepr {
    let repr = command.repr().repr;
    let kind = kind(command);
    ListRepr { repr, kind }
}

/// Whether the prefix, if there is one, ends below the bound and is aligned within the limit.
fn is_well_formed_prefix(dl: &TargetDataLayout, kind: &StructKind) -> bool
    requires { IsLawfulDataLayout dl.now }
    ensures { IsTrue result → IsWellFormedPrefix kind.now (size_bound dl.now) }
{
    match kind {
        StructKind::Prefixed(size, align) => {
            size.bytes() < dl.obj_size_bound() && *align <= Align::MAX
        }
        _ => true,
    }
}

/// Whether a list of `count` fields has a last one where that may be unsized.
fn has_tail(kind: &StructKind, count: usize) -> bool
    ensures { IsTrue result → IsNonEmptyIfUnsized kind.now count }
{
    match kind {
        StructKind::MaybeUnsized => count > 0,
        _ => true,
    }
}

/// Whether the alignments that a repr names are within the limit.
fn has_lawful_aligns(repr: &ReprOptions) -> bool
    ensures { IsTrue result → HasLawfulAligns repr.now }
{
    is_lawful_align(repr.align) && is_lawful_align(repr.pack)
}

/// Whether these fields may be handed in as a list, or which clause says that they may not.
fn check_list(dl: &TargetDataLayout, fields: &[&Layout], asked: &ListRepr) -> Result<(), Refusal>
    requires { IsLawfulDataLayout dl.now }
    ensures count { IfOk result (λ _. length fields.now ≤ 1_000_000) }
    ensures fields { IfOk result (λ _. All (λ f. IsLawfulLayout dl.now f.now) fields.now) }
    ensures repr { IfOk result (λ _. HasLawfulAligns asked.now.repr) }
    ensures prefix { IfOk result (λ _. IsWellFormedPrefix asked.now.kind (size_bound dl.now)) }
    ensures tail { IfOk result (λ _. IsNonEmptyIfUnsized asked.now.kind (length fields.now)) }
{
    if fields.len() > MOST_ITEMS {
        return Err(Refusal::Asks(Clause::Count));
    }
    if !are_lawful(dl, fields) {
        return Err(Refusal::Asks(Clause::Fields));
    }
    if !has_lawful_aligns(&asked.repr) {
        return Err(Refusal::Asks(Clause::Repr));
    }
    if !is_well_formed_prefix(dl, &asked.kind) {
        return Err(Refusal::Asks(Clause::Prefix));
    }
    if !has_tail(&asked.kind, fields.len()) {
        return Err(Refusal::Asks(Clause::Tail));
    }
    Ok(())
}

/// The list of these fields, in this order where there is one, as the calculator has it.
fn list_of(
    alloc: Global,
    dl: &TargetDataLayout,
    fields: &[&Layout],
    asked: &ListRepr,
    order: Option<&[FieldIdx]>,
) -> Result<Layout, Refusal>
    requires { IsLawfulDataLayout dl.now }
{
    check_list(dl, fields, asked)?;
    let ListRepr { repr, kind } = *asked;
    let laying = LayoutCalculator::new(dl);
    let fields = IndexSlice::new(fields);
    let Some(order) = order else {
        return calculated(laying.layout_of_univariant(alloc, fields, &repr, kind));
    };
    if !repr.can_randomize_type_layout() {
        return Err(Refusal::Asks(Clause::Random));
    }
    calculated(laying.layout_of_univariant_in_order(alloc, fields, &repr, kind, order))
}

/// The list of these, in this order where there is one, as the calculator has it.
pub(crate) fn list_made(
    alloc: Global,
    dl: &TargetDataLayout,
    made: &[Layout],
    asked: &ListRepr,
    order: Option<&[FieldIdx]>,
) -> Result<Layout, Refusal>
    requires { IsLawfulDataLayout dl.now }
{
    let fields = lend_layouts(alloc, made)?;
    list_of(alloc, dl, &fields, asked, order)
}

/// `univariant REPR KIND ( LAYOUT.. )`
fn univariant(dl: &TargetDataLayout, command: &mut Command) -> Result<Layout, Refusal>
    requires { IsLawfulDataLayout dl.now }
{
    let asked = list_repr(command);
    let made = layouts(dl, command);
    list_made(command.alloc, dl, &made, &asked, None)
}

/// The union of these, as the calculator has it.
fn union_made(
    alloc: Global,
    dl: &TargetDataLayout,
    made: &[Layout],
    repr: &ReprOptions,
) -> Result<Layout, Refusal>
    requires { IsLawfulDataLayout dl.now }
{
    let fields = lend_layouts(alloc, made)?;
    if !are_lawful(dl, &fields) {
        return Err(Refusal::Asks(Clause::Fields));
    }
    if !has_lawful_aligns(repr) {
        return Err(Refusal::Asks(Clause::Repr));
    }
    let lists = [IndexVec::from_raw(fields)];
    calculated(LayoutCalculator::new(dl).layout_of_union(alloc, repr, IndexSlice::new(&lists)))
}

/// `union REPR ( LAYOUT.. )`
fn union_of(dl: &TargetDataLayout, command: &mut Command) -> Result<Layout, Refusal>
    requires { IsLawfulDataLayout dl.now }
{
    let repr = command.repr().repr;
    let made = layouts(dl, command);
    union_made(command.alloc, dl, &made, &repr)
}

/// So many scalable vectors of so many of these.
fn vectors_of(
    alloc: Global,
    dl: &TargetDataLayout,
    element: &Layout,
    lanes: u64,
    vectors: NumScalableVectors,
) -> Result<Layout, Refusal>
    requires { IsLawfulDataLayout dl.now }
{
    if !element.is_lawful(dl) {
        return Err(Refusal::Asks(Clause::Element));
    }
    let laying = LayoutCalculator::new(dl);
    calculated(laying.layout_of_scalable_vector_type(alloc, element, lanes, vectors))
}

/// `scalable VECTORS LANES LAYOUT`
fn scalable(dl: &TargetDataLayout, command: &mut Command) -> Result<Layout, Refusal>
    requires { IsLawfulDataLayout dl.now }
{
    let vectors = NumScalableVectors(command.byte());
    let lanes = command.number();
    let element = layout(dl, command);
    vectors_of(command.alloc, dl, &element, lanes, vectors)
}

/// `lawful-layout LAYOUT`
fn write_lawful(dl: &TargetDataLayout, command: &mut Command)
    requires { IsLawfulDataLayout dl.now }
{
    let layout = layout(dl, command);
    command.write_truth(layout.is_lawful(dl));
}

/// Answers the call; whether it is one of these.
pub(crate) fn answers(dl: &TargetDataLayout, command: &mut Command) -> bool
    requires { IsLawfulDataLayout dl.now }
{
    if command.is_named(b"lawful-layout") {
        write_lawful(dl, command);
        return true;
    }
    let made = if command.is_named(b"layout") {
        Ok(layout(dl, command))
    } else if command.is_named(b"univariant") {
        univariant(dl, command)
    } else if command.is_named(b"univariant-in-order") {
        univariant_in_order(dl, command)
    } else if command.is_named(b"union") {
        union_of(dl, command)
    } else if command.is_named(b"scalable") {
        scalable(dl, command)
    } else {
        return false;
    };
    write_layout_or_stop(command, made);
    true
}
