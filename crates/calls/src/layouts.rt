//! Layouts that a line hands in: those of types, changed or not.

ghost use Rattle.std.specs.Prelude.{◌≤◌, All, IfOk, IfSome, IsTrue, length};
ghost use Rattle.abi_base.specs.DataLayout.{IsLawfulDataLayout};
ghost use Rattle.abi_scalar.specs.Lawful.{IsLawfulLayout};

use crate::changes::change;
use crate::command::Command;
use crate::stop::{Clause, Refusal, calculator};
use abi_base::{Align, TargetDataLayout};
use abi_calc::LayoutCalculator;
use abi_index::{FieldIdx, TryClone, VariantIdx};
use abi_scalar::{LayoutCalculatorError, LayoutData};
use abi_tree::{Laid, TypeTree};
use rustc_abi::lay_out;
use std::alloc::{AllocError, Global};

/// The layout of a type.
pub(crate) type Layout = LayoutData<FieldIdx, VariantIdx>;

/// No list of a line has more items.
pub(crate) const MOST_ITEMS: usize = 1_000_000;

/// The type, laid out.
fn laid_tree(alloc: Global, dl: &TargetDataLayout, tree: &TypeTree) -> Result<Laid, Refusal> {
    match lay_out(alloc, dl, tree) {
        Ok(laid) => Ok(laid),
        Err(error) => Err(Refusal::from(error)),
    }
}

/// The type that the next words write, laid out.
pub(crate) fn laid_type(dl: &TargetDataLayout, command: &mut Command) -> Result<Laid, Refusal> {
    let tree = command.tree(dl)?;
    laid_tree(command.alloc, dl, &tree)
}

/// The layout of a type, copied.
fn copied(alloc: Global, laid: &Laid) -> Result<Layout, Refusal> {
    match laid.layout().try_clone(alloc) {
        Ok(layout) => Ok(layout),
        Err(_) => Err(Refusal::OutOfMemory),
    }
}

/// The layout of the type that the next words write.
fn type_layout(dl: &TargetDataLayout, command: &mut Command) -> Result<Layout, Refusal> {
    let laid = laid_type(dl, command)?;
    copied(command.alloc, &laid)
}

/// The layout that the calculator answers, or its refusal.
pub(crate) fn calculated<F: Drop>(
    answer: Result<Layout, LayoutCalculatorError<F>>,
) -> Result<Layout, Refusal> {
    match answer {
        Ok(layout) => Ok(layout),
        Err(error) => Err(calculator(error)),
    }
}

/// The slice of these.
fn slice_of(dl: &TargetDataLayout, element: &Layout) -> Result<Layout, Refusal>
    requires { IsLawfulDataLayout dl.now }
{
    if !element.is_lawful(dl) {
        return Err(Refusal::Asks(Clause::Element));
    }
    calculated::<&Layout>(LayoutCalculator::new(dl).layout_of_array_like(element, None))
}

/// The layout that is made; of a line that stops, since there is none, that of the unit type.
fn or_unit(dl: &TargetDataLayout, command: &mut Command, made: Result<Layout, Refusal>) -> Layout {
    match made {
        Ok(layout) => layout,
        Err(stop) => {
            command.stop(stop);
            Layout::unit(command.alloc, dl, true)
        }
    }
}

/// The layout of the slice of the type that the next words write.
fn slice_layout(dl: &TargetDataLayout, command: &mut Command) -> Result<Layout, Refusal>
    requires { IsLawfulDataLayout dl.now }
{
    let element = type_layout(dl, command)?;
    slice_of(dl, &element)
}

/// The layout that the next words describe: that of a type, or of a slice of it, changed where `but` follows.
pub(crate) fn layout(dl: &TargetDataLayout, command: &mut Command) -> Layout
    requires { IsLawfulDataLayout dl.now }
{
    let made = if command.takes(b"slice") {
        slice_layout(dl, command)
    } else {
        type_layout(dl, command)
    };
    let mut layout = or_unit(dl, command, made);
    for _ in 0..u64::MAX {
        if !command.takes(b"but") {
            break;
        }
        change(dl, command, &mut layout);
    }
    layout
}

/// The layouts between the parentheses that are next.
pub(crate) fn layouts(dl: &TargetDataLayout, command: &mut Command) -> Vec<Layout>
    requires { IsLawfulDataLayout dl.now }
{
    command.expect(b"(");
    let mut all = Vec::new(command.alloc);
    for _ in 0..u64::MAX {
        if !command.has_more() {
            break;
        }
        let item = layout(dl, command);
        command.grow(all.push(item));
    }
    all
}

/// Each of these, lent.
fn lend_each<'a>(alloc: Global, layouts: &'a [Layout]) -> Result<Vec<&'a Layout>, AllocError> {
    let mut all = Vec::with_capacity(alloc, layouts.len())?;
    for layout in layouts {
        all.push(layout)?;
    }
    Ok(all)
}

/// Each of these, lent, where they aren't too many.
pub(crate) fn lend_layouts<'a>(
    alloc: Global,
    layouts: &'a [Layout],
) -> Result<Vec<&'a Layout>, Refusal>
    ensures { IfOk result (λ all. length all.items ≤ 1_000_000) }
{
    match lend_each(alloc, layouts) {
        Ok(all) if all.len() <= MOST_ITEMS => Ok(all),
        Ok(_) => Err(Refusal::Asks(Clause::Count)),
        Err(_) => Err(Refusal::OutOfMemory),
    }
}

/// Whether each of these is lawful.
pub(crate) fn are_lawful(dl: &TargetDataLayout, layouts: &[&Layout]) -> bool
    requires { IsLawfulDataLayout dl.now }
    ensures { IsTrue result → All (λ f. IsLawfulLayout dl.now f.now) layouts.now }
{
    for layout in layouts {
        if !layout.is_lawful(dl) {
            return false;
        }
    }
    true
}

/// Whether the alignment, if there is one, is within the limit.
pub(crate) fn is_lawful_align(align: Option<Align>) -> bool
    ensures { IsTrue result → IfSome align (λ a. a ≤ 29) }
{
    match align {
        Some(align) => align <= Align::MAX,
        None => true,
    }
}
