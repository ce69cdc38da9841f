//! The formula of a type: those of its nodes, one after another.

ghost use Rattle.std.specs.Prelude.{◌≡◌, ◌<◌, ◌≤◌, ◌^◌, All, IfOk, IfSome, None, length};
ghost use Rattle.automata.specs.Nodes.{formulas_in};
ghost use Rattle.abi_scalar.specs.Shape.{listed_offsets};
ghost use Rattle.abi_scalar.specs.declared.variants.TagEncoding.TheVariants.{Direct};
ghost use Rattle.abi_tree.specs.Laid.{endian_of, placed_of};
ghost use Rattle.abi_tree.specs.Nodes.{encoding_of, parts_at, placed_at, state_tag_offset, tag_offset, tagged_variants_in, types_in};
ghost use Rattle.abi_tree.specs.Placed.{size_of};
ghost use Rattle.abi_tree.specs.Well.{all_at};
ghost use Rattle.abi_bytes.specs.Formulas.{AreMade, HoldSomeVariant, IsFormula};
ghost use Rattle.abi_bytes.specs.Holding.{HoldCells, HoldCellsOfParts};

use crate::making::Making;
use crate::nodes::{elements_formula, pair_formula, scalar_formula, vector_formula};
use crate::parts::{PartList, parts_formula};
use crate::tags::Tagging;
use crate::variants::variants_formula;
use abi_index::{FieldIdx, VariantIdx};
use abi_scalar::{LayoutData, TagEncoding};
use abi_tree::{Laid, Shape, encoding_of, offsets, state_tag_offset, tag_offset};
use automata::{Formulas, STEPS};
use std::alloc::{AllocError, Global};

/// The formula for cells that hold the nodes, which are done, at the offsets that a layout lists.
fn fields_formula(
    walk: Making<'_>,
    formulas: &mut Formulas,
    layout: &LayoutData<FieldIdx, VariantIdx>,
    children: &Vec<usize>,
) -> Result<usize, AllocError>
    requires made { AreMade (formulas_in formulas.old) walk.order walk.nodes.now walk.made.now.items }
    requires done { All (λ child. child < length walk.made.now.items) children.now.items }
    ensures { IfOk result (IsFormula (formulas_in formulas.old) (formulas_in formulas.new) layout.now.size
        (HoldCellsOfParts walk.entry.order (parts_at (listed_offsets layout.now.fields)
        (all_at walk.entry.nodes.now children.now.items)))) }
{
    let parts = PartList {
        whole: layout.size.bytes(),
        offsets: offsets(layout),
        children: children.as_slice(),
    };
    let place = parts_formula(walk, formulas, parts)?;
    Ok(place)
}

/// The formula for cells of which the tag, which is done, names one of the variants, which are done, and that hold its parts.
fn tagged_formula(
    walk: Making<'_>,
    formulas: &mut Formulas,
    layout: &LayoutData<FieldIdx, VariantIdx>,
    tag: usize,
    variants: &Vec<(u128, usize)>,
) -> Result<usize, AllocError>
    requires made { AreMade (formulas_in formulas.old) walk.order walk.nodes.now walk.made.now.items }
    requires tag { tag < length walk.nodes.now }
    requires width { size_of (placed_at walk.nodes.now tag) ≤ 16 }
    requires done { All (λ v. v.1 < length walk.made.now.items) variants.now.items }
    ensures { IfOk result (IsFormula (formulas_in formulas.old) (formulas_in formulas.new) layout.now.size
        (HoldSomeVariant walk.entry.order (encoding_of layout.now.variants) (tag_offset layout.now)
        (size_of (placed_at walk.entry.nodes.now tag))
        (tagged_variants_in (types_in walk.entry.nodes.now) variants.now.items) 0 (length variants.now.items))) }
{
    let encoding = encoding_of(layout);
    let tagging = Tagging {
        whole: layout.size.bytes(),
        offset: tag_offset(layout),
        width: walk.nodes.layout(tag).size.bytes(),
        encoding: &encoding,
        variants: variants.as_slice(),
    };
    let place = variants_formula(walk, formulas, tagging)?;
    Ok(place)
}

/// The formula for cells that hold the prefix fields of a coroutine, and of which the tag names a state whose parts they hold;
/// all of these are done.
fn states_formula(
    walk: Making<'_>,
    formulas: &mut Formulas,
    layout: &LayoutData<FieldIdx, VariantIdx>,
    prefix: &Vec<usize>,
    state: (usize, &Vec<(u128, usize)>),
) -> Result<usize, AllocError>
    requires made { AreMade (formulas_in formulas.old) walk.order walk.nodes.now walk.made.now.items }
    requires prefix { All (λ child. child < length walk.made.now.items) prefix.now.items }
    requires tag { state.0 < length walk.nodes.now }
    requires width { size_of (placed_at walk.nodes.now state.0) ≤ 16 }
    requires done { All (λ v. v.1 < length walk.made.now.items) state.1.now.items }
    ensures { IfOk result (IsFormula (formulas_in formulas.old) (formulas_in formulas.new) layout.now.size (λ w.
        HoldCellsOfParts walk.entry.order (parts_at (listed_offsets layout.now.fields)
        (all_at walk.entry.nodes.now prefix.now.items)) w
        × HoldSomeVariant walk.entry.order Direct (state_tag_offset layout.now (length prefix.now.items))
        (size_of (placed_at walk.entry.nodes.now state.entry.0))
        (tagged_variants_in (types_in walk.entry.nodes.now) state.entry.1.now.items) 0 (length state.entry.1.now.items) w)) }
{
    let (tag, states) = state;
    let fields = prefix.as_slice();
    let shared = fields_formula(walk, formulas, layout, prefix)?;
    let encoding = TagEncoding::Direct;
    let tagging = Tagging {
        whole: layout.size.bytes(),
        offset: state_tag_offset(layout, fields.len()),
        width: walk.nodes.layout(tag).size.bytes(),
        encoding: &encoding,
        variants: states.as_slice(),
    };
    let named = variants_formula(walk, formulas, tagging)?;
    let place = formulas.conjunction(walk.alloc, shared, named)?;
    Ok(place)
}

/// The formula for cells that hold a node; those that it names are done.
fn node_formula(walk: Making<'_>, formulas: &mut Formulas, node: usize) -> Result<usize, AllocError>
    requires made { AreMade (formulas_in formulas.old) walk.order walk.nodes.now walk.made.now.items }
    requires there { node < length walk.nodes.now }
    requires done { node ≡ length walk.made.now.items }
    ensures { IfOk result (IsFormula (formulas_in formulas.old) (formulas_in formulas.new)
        (size_of (placed_at walk.entry.nodes.now node))
        (HoldCells walk.entry.order (placed_at walk.entry.nodes.now node))) }
{
    let here = walk.nodes.node(node);
    let layout = here.layout;
    let size = layout.size;
    match here.shape {
        Shape::Scalar(scalar) => scalar_formula(walk, formulas, size, *scalar),
        Shape::Pair { first, second } => pair_formula(walk, formulas, layout, *first, *second),
        Shape::Never(_) => formulas.no_cells(walk.alloc),
        Shape::Elements { count, element } => {
            elements_formula(walk, formulas, size.bytes(), *count, *element)
        }
        Shape::Fields(_, children) => fields_formula(walk, formulas, layout, children),
        Shape::Union(_, _) => formulas.any_cells(walk.alloc),
        Shape::Vector(lanes) => vector_formula(walk, formulas, size.bytes(), *lanes),
        Shape::Single(_, children) => fields_formula(walk, formulas, layout, children),
        Shape::Tagged {
            mark: _,
            tag,
            variants,
        } => tagged_formula(walk, formulas, layout, *tag, variants),
        Shape::States {
            prefix,
            tag,
            states,
        } => states_formula(walk, formulas, layout, prefix, (*tag, states)),
    }
}

/// The formula for cells that hold a type; `None` where there would be more formulas than `STEPS`. `AllocError` where memory is
/// refused.
pub(crate) fn type_formula(
    alloc: Global,
    formulas: &mut Formulas,
    laid: &Laid,
) -> Result<Option<usize>, AllocError>
    ensures formula { IfOk result (λ found. IfSome found (IsFormula (formulas_in formulas.old) (formulas_in formulas.new)
        (size_of (placed_of laid.now)) (HoldCells (endian_of laid.now) (placed_of laid.now)))) }
    ensures too_large { IfOk result (λ found. found ≡ None → 2 ^ 22 ≤ length (formulas_in formulas.new)) }
{
    let nodes = laid.nodes();
    let order = laid.endian();
    let mut made = Vec::new(alloc);
    for node in 0..nodes.len() {
        if formulas.len() >= STEPS {
            return Ok(None);
        }
        let walk = Making {
            alloc,
            order,
            nodes,
            made: &made,
        };
        let place = node_formula(walk, formulas, node)?;
        made.push(place)?;
    }
    Ok(Some(made[nodes.len() - 1]))
}
