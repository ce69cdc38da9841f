//! Repetitions that fall into periods, so that one of these says it of all.

ghost use Rattle.std.specs.Prelude.{◌≡◌, ◌*◌, ◌<◌, ◌≤◌, IfOk, IfSome, IsTrue, List, OnOk, length};
ghost use Rattle.automata.specs.Formula.{Formula, each};
ghost use Rattle.automata.specs.Formulas.{Keeps};
ghost use Rattle.automata.specs.Inclusion.{AreTooMany, IsDecided, IsInclusion};
ghost use Rattle.automata.specs.Nodes.{formula_in, formulas_in};
ghost use Rattle.automata.specs.Reach.{ArePeriods, AreReaches, IsOfPeriods, IsRepeated, copies, reach};

use crate::formulas::Formulas;
use crate::inclusion::{Inclusion, compare_cells};
use crate::node::FormulaNode;
use crate::reach::reaches;
use std::alloc::{AllocError, Global};

/// Where one period shows a no, the cells of all are told where there are at most so many.
const MOST_CELLS: u64 = 1 << 26;

/// So often a formula, each time so many cells further on.
#[derive(Clone, Copy)]
pub(crate) struct Repeated {
    pub(crate) count: u64,
    pub(crate) size: u64,
    pub(crate) element: usize,
}

/// So many periods of a size, in each of which so many elements of one repetition and of another lie.
#[derive(Clone, Copy)]
pub(crate) struct Periods {
    pub(crate) count: u64,
    pub(crate) size: u64,
    pub(crate) left: u64,
    pub(crate) right: u64,
}

/// What a formula repeats, if it does.
fn repetition_of(formulas: &Formulas, f: usize) -> Option<Repeated>
    requires { f < length (formulas_in formulas.now) }
    ensures { IfSome result (IsRepeated (formulas_in formulas.now) f) }
{
    match formulas.node(f) {
        FormulaNode::Each {
            count,
            size,
            element,
        } => Some(Repeated {
            count,
            size,
            element,
        }),
        _ => None,
    }
}

/// The greatest number that divides both.
fn common_divisor(number: u64, other: u64) -> u64 {
    let mut divisor = number;
    let mut rest = other;
    while rest > 0 {
        let next = divisor % rest;
        divisor = rest;
        rest = next;
    }
    divisor
}

/// Whether a number is the product of two.
fn is_product(number: u64, first: u64, second: u64) -> bool
    ensures { IsTrue result → number ≡ first * second }
{
    number as u128 == first as u128 * second as u128
}

/// The least periods of two repetitions, where they are as long.
fn periods_of(left: Repeated, right: Repeated) -> Option<Periods>
    ensures { IfSome result (ArePeriods left right) }
{
    let divisor = common_divisor(left.size, right.size);
    if divisor == 0 || right.size == 0 || right.size / divisor == 0 {
        return None;
    }
    let in_left = right.size / divisor;
    let in_right = left.size / divisor;
    let count = left.count / in_left;
    let size = left.size.saturating_mul(in_left);
    if is_product(left.count, count, in_left)
        && is_product(right.count, count, in_right)
        && is_product(size, in_left, left.size)
        && is_product(size, in_right, right.size)
    {
        return Some(Periods {
            count,
            size,
            left: in_left,
            right: in_right,
        });
    }
    None
}

/// Whether a formula looks at no more than so many first cells.
fn is_within(reaches: &Vec<u64>, f: usize, size: u64) -> bool
    requires { f < length reaches.now.items }
    ensures { (fs : List Formula) → AreReaches fs reaches.now.items → IsTrue result → reach (formula_in fs f) ≤ size }
{
    reaches[f] < 18446744073709551615 && reaches[f] <= size
}

/// Cells, so often one behind another.
fn copies_of(
    alloc: Global,
    cells: &Vec<Option<u8>>,
    count: u64,
) -> Result<Vec<Option<u8>>, AllocError>
    ensures { IfOk result (λ all. all.items ≡ copies count cells.now.items) }
{
    let mut all = Vec::new(alloc);
    for _ in 0..count {
        all.extend_from_slice(cells.as_slice())?;
    }
    Ok(all)
}

/// What the comparison of one period says of so many, which have so many cells; `None` where it says nothing, or where the cells
/// that it would tell are too many.
fn inclusion_of_periods(
    alloc: Global,
    inclusion: Inclusion,
    count: u64,
    size: u64,
) -> Result<Option<Inclusion>, AllocError>
    ensures { IfOk result (λ found. IfSome found (IsOfPeriods count inclusion)) }
{
    match inclusion {
        Inclusion::Included => Ok(Some(Inclusion::Included)),
        Inclusion::Missing(cells) => {
            if size > MOST_CELLS {
                return Ok(None);
            }
            let all = copies_of(alloc, &cells, count)?;
            Ok(Some(Inclusion::Missing(all)))
        }
        Inclusion::TooLarge => Ok(None),
    }
}

/// Whether each of some periods, of which there are at least two, is as long as it has to be.
fn are_several(p: Periods, size: u64) -> bool
    ensures size { IsTrue result → size ≡ p.count * p.size }
    ensures count { IsTrue result → 0 < p.count }
    ensures left { IsTrue result → 0 < p.left }
    ensures right { IsTrue result → 0 < p.right }
{
    p.count > 1 && p.left > 0 && p.right > 0 && is_product(size, p.count, p.size)
}

/// Whether one repetition reads all that another reads, where one period says it.
fn compare_by_period(
    alloc: Global,
    formulas: &mut Formulas,
    left: Repeated,
    right: Repeated,
    size: u64,
) -> Result<Option<Inclusion>, AllocError>
    requires left { left.element < length (formulas_in formulas.old) }
    requires right { right.element < length (formulas_in formulas.old) }
    ensures inclusion { IfOk result (λ found. IfSome found (IsDecided
        (each left.count left.size (formula_in (formulas_in formulas.old) left.element))
        (each right.count right.size (formula_in (formulas_in formulas.old) right.element)) size)) }
    ensures kept { OnOk result (Keeps (formulas_in formulas.old) (formulas_in formulas.new)) }
{
    let p = match periods_of(left, right) {
        Some(p) => p,
        None => return Ok(None),
    };
    if !are_several(p, size) {
        return Ok(None);
    }
    let reaches = reaches(alloc, formulas)?;
    if !is_within(&reaches, left.element, left.size) {
        return Ok(None);
    }
    if !is_within(&reaches, right.element, right.size) {
        return Ok(None);
    }
    let one = formulas.repetition(alloc, p.left, left.size, left.element)?;
    let other = formulas.repetition(alloc, p.right, right.size, right.element)?;
    let inclusion = compare_cells(alloc, formulas, one, other, p.size)?;
    let found = inclusion_of_periods(alloc, inclusion, p.count, size)?;
    Ok(found)
}

/// The same of any two formulas: `None` where they aren't repetitions, too.
fn compare_by_periods(
    alloc: Global,
    formulas: &mut Formulas,
    left: usize,
    right: usize,
    size: u64,
) -> Result<Option<Inclusion>, AllocError>
    requires left { left < length (formulas_in formulas.old) }
    requires right { right < length (formulas_in formulas.old) }
    ensures inclusion { IfOk result (λ found. IfSome found (IsDecided (formula_in (formulas_in formulas.old) left)
        (formula_in (formulas_in formulas.old) right) size)) }
    ensures kept { OnOk result (Keeps (formulas_in formulas.old) (formulas_in formulas.new)) }
{
    if let Some(one) = repetition_of(formulas, left) {
        if let Some(other) = repetition_of(formulas, right) {
            let found = compare_by_period(alloc, formulas, one, other, size)?;
            return Ok(found);
        }
    }
    Ok(None)
}

/// Whether the second formula reads all lists of so many cells that the first one reads. Two repetitions are compared by a
/// period, and by all cells only where that doesn't say it. `TooLarge` where it would take more than `STEPS` steps.
/// `AllocError` where memory is refused.
pub fn compare(
    alloc: Global,
    formulas: &mut Formulas,
    left: usize,
    right: usize,
    size: u64,
) -> Result<Inclusion, AllocError>
    requires left { left < length (formulas_in formulas.old) }
    requires right { right < length (formulas_in formulas.old) }
    ensures inclusion { IfOk result (IsInclusion (formula_in (formulas_in formulas.old) left)
        (formula_in (formulas_in formulas.old) right) size) }
    ensures too_large { IfOk result (λ answer. answer ≡ Inclusion.TooLarge →
        AreTooMany (formulas_in formulas.new) left right) }
    ensures kept { OnOk result (Keeps (formulas_in formulas.old) (formulas_in formulas.new)) }
{
    if let Some(inclusion) = compare_by_periods(alloc, formulas, left, right, size)? {
        return Ok(inclusion);
    }
    let inclusion = compare_cells(alloc, formulas, left, right, size)?;
    Ok(inclusion)
}
