//! How large a C compiler has an enum without fields.

ghost use Rattle.std.specs.Prelude.{◌≡◌, ◌<◌, IfErr, IfOk, length, map};
ghost use Rattle.abi_base.specs.Size.{signed_value};
ghost use Rattle.abi_tree.specs.Tree.{Tree, trees_of_variants};
ghost use Rattle.rustc_abi.specs.Fault.{IsRefusedFor};
ghost use Rattle.guarantees.specs.EnumInC.{IsEnumInC, LiesAsEnumInC, without_fields};
ghost use Rattle.guarantees.specs.InC.{HasExtent};

use crate::binding_generator::{CExtent, c_repr, extent_of};
use rustc_abi::{LayError, TargetDataLayout, TypeTree};
use std::alloc::{AllocError, Global};

/// A variant without fields for each discriminant.
fn variants_of(alloc: Global, numbers: &[u128]) -> Result<Vec<(u128, Vec<TypeTree>)>, AllocError>
    ensures { IfOk result (λ all. trees_of_variants all.items ≡ without_fields numbers.now) }
{
    let mut all = Vec::new(alloc);
    for number in numbers {
        all.push((*number, Vec::new(alloc)))?;
    }
    Ok(all)
}

/// How large C has an enum with these numbers, none of which has fields, and how aligned, under a data layout: as an
/// integer that has each of them. A number is kept in two's complement of 128 bits, as a tree has its discriminants. C
/// has no enum without a number.
///
/// The errors are those of `lay_out`.
pub fn c_enum(alloc: Global, dl: &TargetDataLayout, numbers: &[u128]) -> Result<CExtent, LayError>
    ensures integer { IfOk result (λ c. 0 < length numbers.now →
        LiesAsEnumInC dl.now (map (signed_value 128) numbers.now) c.size c.align) }

    // It is what the enum has as it is laid out; it is refused only where it has no layout, or memory is wanting.
    ensures laid { IfOk result (λ c. (tree : Tree) ×
        IsEnumInC tree numbers.now × HasExtent dl.now tree c.size c.align) }
    ensures refused { IfErr result (λ e. (tree : Tree) ×
        IsEnumInC tree numbers.now × IsRefusedFor dl.now tree e) }
{
    let repr = c_repr(None, None);
    let tree = TypeTree::Enum {
        repr,
        variants: variants_of(alloc, numbers)?,
    };
    extent_of(alloc, dl, &tree)
}
