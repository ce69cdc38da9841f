//! How large a C compiler has a union.

ghost use Rattle.std.specs.Prelude.{IfErr, IfOk, List, Ok, map};
ghost use Rattle.abi_tree.specs.Placed.{Placed};
ghost use Rattle.abi_tree.specs.Tree.{Tree, tree_of, trees};
ghost use Rattle.rustc_abi.specs.Fault.{IsRefusedFor};
ghost use Rattle.rustc_abi.specs.Laying.{AreLaying};
ghost use Rattle.guarantees.specs.InC.{HasExtent, IsUnionInC, LieTogetherAsInC};

use crate::binding_generator::{CExtent, c_repr, extent_of};
use rustc_abi::{LayError, TargetDataLayout, TypeTree};
use std::alloc::Global;

/// How large C has a union of these fields, and how aligned, under a data layout.
///
/// The errors are those of `lay_out`.
pub fn c_union(
    alloc: Global,
    dl: &TargetDataLayout,
    fields: Vec<TypeTree>,
) -> Result<CExtent, LayError>
    // Of the fields as they are laid out by themselves.
    ensures placed { IfOk result (λ c. (placed : List Placed) ×
        AreLaying dl.now (trees (map tree_of fields.items)) (Ok placed) ×
        LieTogetherAsInC dl.now.aggregate_align placed c.size c.align) }

    // It is what the union has as it is laid out; it is refused only where it has no layout, or memory is wanting.
    ensures laid { IfOk result (λ c. (tree : Tree) ×
        IsUnionInC tree (trees (map tree_of fields.items)) × HasExtent dl.now tree c.size c.align) }
    ensures refused { IfErr result (λ e. (tree : Tree) ×
        IsUnionInC tree (trees (map tree_of fields.items)) × IsRefusedFor dl.now tree e) }
{
    let tree = TypeTree::Union {
        repr: c_repr(None, None),
        fields,
    };
    extent_of(alloc, dl, &tree)
}
