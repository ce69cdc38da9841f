//! Numbers loaded at an offset, and both numbers of a pair.

ghost use Rattle.std.specs.Prelude.{◌≡◌, ◌+◌, ◌<◌, ◌≤◌, ℕ, IfErr, IfOk, IfSome, None, Ok, length};
ghost use Rattle.abi_tree.specs.Bytes.{bytes_at, number_of};
ghost use Rattle.abi_tree.specs.Holding.{Holds};
ghost use Rattle.abi_tree.specs.Placed.{Placed};
ghost use Rattle.abi_tree.specs.Tree.{tree_of};
ghost use Rattle.abi_tree.specs.Value.{Value as Meant};
ghost use Rattle.abi_tree.specs.Values.{LocalsHaveValues};
ghost use Rattle.abi_scalar.specs.Range.{numbers_of};
ghost use Rattle.abi_scalar.specs.Scalar.{IsLawfulScalar, scalar_size};
ghost use Rattle.abi_scalar.specs.declared.scalar.Scalar.{Scalar as Seen};
ghost use Rattle.rustc_abi.specs.Fault.{IsRefusedFor};
ghost use Rattle.rustc_abi.specs.Laying.{IsLaying};
ghost use Rattle.guarantees.specs.Loaded.{HasLayout, IsNumberAt, IsSeenAsPair};

use crate::code_generator::{Loaded, is_value, number_in};
use crate::slice::bytes_from;
use rustc_abi::{BackendRepr, LayError, Scalar, Size, TargetDataLayout, TypeTree, lay_out};
use std::alloc::Global;

/// Both numbers of a pair that were loaded.
#[derive(Clone, Copy)]
pub struct LoadedPair {
    /// The first, at offset 0.
    pub first: Loaded,
    /// The second.
    pub second: Loaded,
    /// How many bytes lie before the second.
    pub offset: Size,
}

/// Loads the number of a scalar at an offset, in bytes.
pub fn load_at(dl: &TargetDataLayout, scalar: Scalar, offset: Size, bytes: &[u8]) -> Loaded
    requires lawful { IsLawfulScalar dl.now scalar }
    requires inside { offset + scalar_size dl.now scalar ≤ length bytes.now }
    ensures scalar { result.scalar ≡ scalar }
    ensures number { result.number ≡
        number_of dl.now.endian (bytes_at bytes.now offset (scalar_size dl.now scalar)) }
    ensures bound { result.number < numbers_of (scalar_size dl.now scalar) }
{
    let size = scalar.size(dl);
    match bytes_from(bytes, offset.bytes(), size.bytes()) {
        Some(part) => Loaded {
            scalar,
            number: number_in(dl.endian, part),
        },
        None => unreachable!(),
    }
}

/// Loads both numbers of a type that is seen as two scalars, out of its bytes. `None` where the type is seen otherwise,
/// and where the bytes hold no value of it.
///
/// The errors are those of `lay_out`.
pub fn load_pair(
    alloc: Global,
    dl: &TargetDataLayout,
    tree: &TypeTree,
    bytes: &[u8],
) -> Result<Option<LoadedPair>, LayError>
    requires locals { LocalsHaveValues dl.now (tree_of tree.now) }

    // What is loaded: of each scalar a number that it holds.
    ensures seen { IfOk result (λ found. IfSome found (λ pair.
        IsSeenAsPair dl.now (tree_of tree.now) pair.first.scalar pair.second.scalar pair.offset)) }
    ensures first { IfOk result (λ found. IfSome found (λ pair.
        IsNumberAt dl.now bytes.now 0 pair.first.scalar pair.first.number)) }
    ensures second { IfOk result (λ found. IfSome found (λ pair.
        IsNumberAt dl.now bytes.now pair.offset pair.second.scalar pair.second.number)) }

    // When.
    ensures none { IfOk result (λ found. found ≡ None →
        (placed : Placed) → IsLaying dl.now (tree_of tree.now) (Ok placed) →
        (a b : Seen) (offset : ℕ) → IsSeenAsPair dl.now (tree_of tree.now) a b offset →
        (v : Meant) → Holds dl.now.endian placed bytes.now v → ⊥) }
    ensures laid { IfOk result (λ _. HasLayout dl.now (tree_of tree.now)) }
    ensures refused { IfErr result (IsRefusedFor dl.now (tree_of tree.now)) }
{
    let laid = lay_out(alloc, dl, tree)?;
    let (a, b, offset) = match laid.layout().backend_repr {
        BackendRepr::ScalarPair { a, b, b_offset } => (a, b, b_offset),
        _ => return Ok(None),
    };
    if !is_value(alloc, &laid, bytes)? {
        return Ok(None);
    }
    let first = load_at(dl, a, Size::ZERO, bytes);
    let second = load_at(dl, b, offset, bytes);
    Ok(Some(LoadedPair {
        first,
        second,
        offset,
    }))
}
