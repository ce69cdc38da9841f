//! Formulas of nodes: numbers, two numbers, elements and lanes.

ghost use Rattle.std.specs.Prelude.{◌≡◌, ◌∷◌, ◌<◌, [], IfOk, MatchBool, length, true};
ghost use Rattle.automata.specs.Nodes.{formulas_in};
ghost use Rattle.abi_scalar.specs.Shape.{listed_offsets};
ghost use Rattle.abi_tree.specs.Nodes.{parts_at, placed_at};
ghost use Rattle.abi_tree.specs.Placed.{size_of};
ghost use Rattle.abi_tree.specs.Well.{all_at, are_nodes};
ghost use Rattle.abi_tree.specs.Widths.{is_narrow};
ghost use Rattle.abi_bytes.specs.Formulas.{AreMade, HoldAt, IsFormula};
ghost use Rattle.abi_bytes.specs.Holding.{AreEach, AreTwoNumbers, HoldCells, HoldCellsOfParts, HoldScalar, IsList, IsNumber};

use crate::making::Making;
use crate::numbers::range_formula;
use crate::parts::{PartList, part_formula, parts_formula};
use abi_base::Size;
use abi_index::{FieldIdx, VariantIdx};
use abi_scalar::{LayoutData, Scalar};
use abi_tree::{Nodes, Shape, offsets};
use automata::Formulas;
use std::alloc::AllocError;

/// Whether a node is a number.
fn is_number(nodes: &Nodes, node: usize) -> bool
    requires there { node < length nodes.now }
    requires well { are_nodes 0 nodes.now ≡ true }
    ensures { MatchBool result (IsNumber (placed_at nodes.now node)) (IsNumber (placed_at nodes.now node) → ⊥) }
{
    match nodes.node(node).shape {
        Shape::Scalar(_) => true,
        _ => false,
    }
}

/// Whether a node's values are lists.
pub(crate) fn is_list(nodes: &Nodes, node: usize) -> bool
    requires there { node < length nodes.now }
    requires well { are_nodes 0 nodes.now ≡ true }
    ensures { MatchBool result (IsList (placed_at nodes.now node)) (IsList (placed_at nodes.now node) → ⊥) }
{
    match nodes.node(node).shape {
        Shape::Elements {
            count: _,
            element: _,
        } => true,
        Shape::Vector(_) => true,
        Shape::Fields(_, _) => true,
        _ => false,
    }
}

/// Whether two nodes at the first two of these offsets are numbers.
pub(crate) fn are_two_numbers(nodes: &Nodes, offsets: &[Size], first: usize, second: usize) -> bool
    requires first { first < length nodes.now }
    requires second { second < length nodes.now }
    requires well { are_nodes 0 nodes.now ≡ true }
    ensures { MatchBool result
        (AreTwoNumbers (parts_at offsets.now (all_at nodes.now (first ∷ second ∷ []))))
        (AreTwoNumbers (parts_at offsets.now (all_at nodes.now (first ∷ second ∷ []))) → ⊥) }
{
    if offsets.len() < 2 {
        return false;
    }
    if !is_number(nodes, first) {
        return false;
    }
    is_number(nodes, second)
}

/// The formula for a scalar of so many bytes.
pub(crate) fn scalar_formula(
    walk: Making<'_>,
    formulas: &mut Formulas,
    width: Size,
    scalar: Scalar,
) -> Result<usize, AllocError>
    requires { is_narrow width scalar ≡ true }
    ensures { IfOk result (IsFormula (formulas_in formulas.old) (formulas_in formulas.new) width
        (HoldScalar walk.entry.order width scalar)) }
{
    match scalar {
        Scalar::Initialized {
            value: _,
            valid_range,
        } => {
            let width = width.bytes() as usize;
            let place = range_formula(walk.alloc, formulas, walk.order, width, valid_range)?;
            Ok(place)
        }
        Scalar::Union { value: _ } => {
            let place = formulas.any_cells(walk.alloc)?;
            Ok(place)
        }
    }
}

/// The formula for two numbers at the first two offsets, which are done.
pub(crate) fn pair_formula(
    walk: Making<'_>,
    formulas: &mut Formulas,
    layout: &LayoutData<FieldIdx, VariantIdx>,
    first: usize,
    second: usize,
) -> Result<usize, AllocError>
    requires made { AreMade (formulas_in formulas.old) walk.order walk.nodes.now walk.made.now.items }
    requires first { first < length walk.made.now.items }
    requires second { second < length walk.made.now.items }
    ensures { IfOk result (IsFormula (formulas_in formulas.old) (formulas_in formulas.new) layout.now.size (λ w.
        AreTwoNumbers (parts_at (listed_offsets layout.now.fields) (all_at walk.entry.nodes.now (first ∷ second ∷ [])))
        × HoldCellsOfParts walk.entry.order (parts_at (listed_offsets layout.now.fields)
        (all_at walk.entry.nodes.now (first ∷ second ∷ []))) w)) }
{
    let offsets = offsets(layout);
    if are_two_numbers(walk.nodes, offsets, first, second) {
        let children = [first, second];
        let parts = PartList {
            whole: layout.size.bytes(),
            offsets,
            children: &children,
        };
        let place = parts_formula(walk, formulas, parts)?;
        return Ok(place);
    }
    let place = formulas.no_cells(walk.alloc)?;
    Ok(place)
}

/// The formula for so many elements in a whole of so many cells, each as the node, which is done.
pub(crate) fn elements_formula(
    walk: Making<'_>,
    formulas: &mut Formulas,
    whole: u64,
    count: u64,
    element: usize,
) -> Result<usize, AllocError>
    requires made { AreMade (formulas_in formulas.old) walk.order walk.nodes.now walk.made.now.items }
    requires done { element < length walk.made.now.items }
    ensures { IfOk result (IsFormula (formulas_in formulas.old) (formulas_in formulas.new) whole
        (AreEach (HoldCells walk.entry.order (placed_at walk.entry.nodes.now element)) count
        (size_of (placed_at walk.entry.nodes.now element)) 0)) }
{
    let size = walk.nodes.layout(element).size.bytes();
    if count as u128 * size as u128 <= whole as u128 {
        let place = formulas.repetition(walk.alloc, count, size, walk.made[element])?;
        return Ok(place);
    }
    let place = formulas.no_cells(walk.alloc)?;
    Ok(place)
}

/// The formula for lanes, which are done, in a whole of so many cells.
pub(crate) fn vector_formula(
    walk: Making<'_>,
    formulas: &mut Formulas,
    whole: u64,
    lanes: usize,
) -> Result<usize, AllocError>
    requires made { AreMade (formulas_in formulas.old) walk.order walk.nodes.now walk.made.now.items }
    requires done { lanes < length walk.made.now.items }
    ensures { IfOk result (IsFormula (formulas_in formulas.old) (formulas_in formulas.new) whole (λ w.
        IsList (placed_at walk.entry.nodes.now lanes) × HoldAt walk.entry.order walk.entry.nodes.now 0 lanes w)) }
{
    if is_list(walk.nodes, lanes) {
        let place = part_formula(walk, formulas, whole, 0, lanes)?;
        return Ok(place);
    }
    let place = formulas.no_cells(walk.alloc)?;
    Ok(place)
}
