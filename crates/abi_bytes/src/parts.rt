//! Formulas for parts of a type.

ghost use Rattle.std.specs.Prelude.{◌+◌, ◌<◌, ◌≤◌, All, IfOk, length, min};
ghost use Rattle.automata.specs.Formula.{gap, never};
ghost use Rattle.automata.specs.Formulas.{IsMade};
ghost use Rattle.automata.specs.Nodes.{formula_in, formulas_in};
ghost use Rattle.abi_tree.specs.Nodes.{parts_at};
ghost use Rattle.abi_tree.specs.Well.{all_at};
ghost use Rattle.abi_bytes.specs.Formulas.{AreMade, HoldAt, HoldBetween, IsFormula};
ghost use Rattle.abi_bytes.specs.Holding.{HoldCellsOfParts};

use crate::making::Making;
use abi_base::Size;
use automata::Formulas;
use std::alloc::{AllocError, Global};

/// Cells from an offset on, of which a formula reads so many.
#[derive(Clone, Copy)]
pub(crate) struct Piece {
    pub(crate) offset: u64,
    pub(crate) size: u64,
    pub(crate) formula: usize,
}

/// Parts at their offsets in a whole of so many cells.
#[derive(Clone, Copy)]
pub(crate) struct PartList<'a> {
    pub(crate) whole: u64,
    pub(crate) offsets: &'a [Size],
    pub(crate) children: &'a [usize],
}

/// The formula for a piece of a whole of so many cells, and that for no cells where it doesn't end inside.
pub(crate) fn piece_formula(
    alloc: Global,
    formulas: &mut Formulas,
    whole: u64,
    piece: Piece,
) -> Result<usize, AllocError>
    requires { piece.formula < length (formulas_in formulas.old) }
    ensures inside { IfOk result (λ place. piece.offset + piece.size ≤ whole → IsMade (formulas_in formulas.old)
        (formulas_in formulas.new) (gap piece.offset (formula_in (formulas_in formulas.old) piece.formula)) place) }
    ensures outside { IfOk result (λ place. whole < piece.offset + piece.size →
        IsMade (formulas_in formulas.old) (formulas_in formulas.new) never place) }
{
    if piece.offset as u128 + piece.size as u128 <= whole as u128 {
        let place = formulas.gap(alloc, piece.offset, piece.formula)?;
        return Ok(place);
    }
    let place = formulas.no_cells(alloc)?;
    Ok(place)
}

/// The formula for cells that hold a node, which is done, from the offset on.
pub(crate) fn part_formula(
    walk: Making<'_>,
    formulas: &mut Formulas,
    whole: u64,
    offset: u64,
    node: usize,
) -> Result<usize, AllocError>
    requires made { AreMade (formulas_in formulas.old) walk.order walk.nodes.now walk.made.now.items }
    requires done { node < length walk.made.now.items }
    ensures { IfOk result (IsFormula (formulas_in formulas.old) (formulas_in formulas.new) whole
        (HoldAt walk.entry.order walk.entry.nodes.now offset node)) }
{
    let piece = Piece {
        offset,
        size: walk.nodes.layout(node).size.bytes(),
        formula: walk.made[node],
    };
    let place = piece_formula(walk.alloc, formulas, whole, piece)?;
    Ok(place)
}

/// The formula for cells that hold the parts from the start to below the end, which are done.
fn parts_between(
    walk: Making<'_>,
    formulas: &mut Formulas,
    parts: PartList<'_>,
    start: usize,
    end: usize,
) -> Result<usize, AllocError>
    requires made { AreMade (formulas_in formulas.old) walk.order walk.nodes.now walk.made.now.items }
    requires done { All (λ child. child < length walk.made.now.items) parts.children.now }
    requires offsets { end ≤ length parts.offsets.now }
    requires children { end ≤ length parts.children.now }
    ensures { IfOk result (IsFormula (formulas_in formulas.old) (formulas_in formulas.new) parts.entry.whole
        (HoldBetween walk.entry.order walk.entry.nodes.now parts.entry.offsets.now parts.entry.children.now start end)) }
{
    if end <= start {
        let place = formulas.any_cells(walk.alloc)?;
        return Ok(place);
    }
    if end - start == 1 {
        let offset = parts.offsets[start].bytes();
        let place = part_formula(walk, formulas, parts.whole, offset, parts.children[start])?;
        return Ok(place);
    }
    let middle = start + (end - start) / 2;
    let first = parts_between(walk, formulas, parts, start, middle)?;
    let second = parts_between(walk, formulas, parts, middle, end)?;
    let place = formulas.conjunction(walk.alloc, first, second)?;
    Ok(place)
}

/// The formula for cells that hold parts, which are done. It is made by halves, so that it is no deeper than their count asks.
pub(crate) fn parts_formula(
    walk: Making<'_>,
    formulas: &mut Formulas,
    parts: PartList<'_>,
) -> Result<usize, AllocError>
    requires made { AreMade (formulas_in formulas.old) walk.order walk.nodes.now walk.made.now.items }
    requires done { All (λ child. child < length walk.made.now.items) parts.children.now }
    ensures { IfOk result (IsFormula (formulas_in formulas.old) (formulas_in formulas.new) parts.entry.whole
        (HoldCellsOfParts walk.entry.order (parts_at parts.entry.offsets.now (all_at walk.entry.nodes.now parts.entry.children.now)))) }
{
    let count = parts.offsets.len().min(parts.children.len());
    let place = parts_between(walk, formulas, parts, 0, count)?;
    Ok(place)
}
