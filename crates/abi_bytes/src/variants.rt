//! Formulas for variants beside a tag.

ghost use Rattle.std.specs.Prelude.{◌≡◌, ◌<◌, ◌≤◌, All, IfOk, length};
ghost use Rattle.automata.specs.Nodes.{formulas_in};
ghost use Rattle.abi_tree.specs.Nodes.{tagged_variants_in, types_in};
ghost use Rattle.abi_bytes.specs.Formulas.{AreMade, HoldSomeVariant, HoldVariant, IsFormula};

use crate::making::Making;
use crate::parts::{PartList, Piece, parts_formula, piece_formula};
use crate::tags::{Tagging, tag_formula};
use abi_tree::own_parts;
use automata::Formulas;
use std::alloc::AllocError;

/// The formula for cells of which the tag names a variant, and that hold its parts, which are done.
fn variant_formula(
    walk: Making<'_>,
    formulas: &mut Formulas,
    tagging: Tagging<'_>,
    i: usize,
) -> Result<usize, AllocError>
    requires made { AreMade (formulas_in formulas.old) walk.order walk.nodes.now walk.made.now.items }
    requires width { tagging.width ≤ 16 }
    requires done { All (λ v. v.1 < length walk.made.now.items) tagging.variants.now }
    requires index { i < length tagging.variants.now }
    ensures { IfOk result (IsFormula (formulas_in formulas.old) (formulas_in formulas.new) tagging.entry.whole
        (HoldVariant walk.entry.order tagging.entry.encoding.now tagging.entry.offset tagging.entry.width
        (tagged_variants_in (types_in walk.entry.nodes.now) tagging.entry.variants.now) i)) }
{
    let formula = tag_formula(walk, formulas, tagging, i)?;
    let piece = Piece {
        offset: tagging.offset,
        size: tagging.width,
        formula,
    };
    let tag = piece_formula(walk.alloc, formulas, tagging.whole, piece)?;
    let (offsets, children) = own_parts(walk.nodes, tagging.variants[i].1);
    let parts = PartList {
        whole: tagging.whole,
        offsets,
        children,
    };
    let own = parts_formula(walk, formulas, parts)?;
    let place = formulas.conjunction(walk.alloc, tag, own)?;
    Ok(place)
}

/// The same of one of the variants from the start to below the end.
fn variants_between(
    walk: Making<'_>,
    formulas: &mut Formulas,
    tagging: Tagging<'_>,
    start: usize,
    end: usize,
) -> Result<usize, AllocError>
    requires made { AreMade (formulas_in formulas.old) walk.order walk.nodes.now walk.made.now.items }
    requires width { tagging.width ≤ 16 }
    requires done { All (λ v. v.1 < length walk.made.now.items) tagging.variants.now }
    requires end { end ≤ length tagging.variants.now }
    ensures { IfOk result (IsFormula (formulas_in formulas.old) (formulas_in formulas.new) tagging.entry.whole
        (HoldSomeVariant walk.entry.order tagging.entry.encoding.now tagging.entry.offset tagging.entry.width
        (tagged_variants_in (types_in walk.entry.nodes.now) tagging.entry.variants.now) start end)) }
{
    if end <= start {
        let place = formulas.no_cells(walk.alloc)?;
        return Ok(place);
    }
    if end - start == 1 {
        let place = variant_formula(walk, formulas, tagging, start)?;
        return Ok(place);
    }
    let middle = start + (end - start) / 2;
    let first = variants_between(walk, formulas, tagging, start, middle)?;
    let second = variants_between(walk, formulas, tagging, middle, end)?;
    let place = formulas.disjunction(walk.alloc, first, second)?;
    Ok(place)
}

/// The formula for cells of which the tag names a variant whose parts, which are done, they hold.
pub(crate) fn variants_formula(
    walk: Making<'_>,
    formulas: &mut Formulas,
    tagging: Tagging<'_>,
) -> Result<usize, AllocError>
    requires made { AreMade (formulas_in formulas.old) walk.order walk.nodes.now walk.made.now.items }
    requires width { tagging.width ≤ 16 }
    requires done { All (λ v. v.1 < length walk.made.now.items) tagging.variants.now }
    ensures { IfOk result (IsFormula (formulas_in formulas.old) (formulas_in formulas.new) tagging.entry.whole
        (HoldSomeVariant walk.entry.order tagging.entry.encoding.now tagging.entry.offset tagging.entry.width
        (tagged_variants_in (types_in walk.entry.nodes.now) tagging.entry.variants.now) 0 (length tagging.entry.variants.now))) }
{
    let count = tagging.variants.len();
    let place = variants_between(walk, formulas, tagging, 0, count)?;
    Ok(place)
}
