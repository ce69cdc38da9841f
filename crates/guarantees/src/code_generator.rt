//! A code generator: numbers loaded from memory.

mod pairs;
mod stores;
mod tags;

ghost use Rattle.std.specs.Prelude.{◌≡◌, ◌⊎◌, ◌<◌, ◌≤◌, IfErr, IfOk, IfSome, MatchBool, None, Ok, length};
ghost use Rattle.abi_tree.specs.Bytes.{number_of};
ghost use Rattle.abi_tree.specs.Holding.{Holds};
ghost use Rattle.abi_tree.specs.Laid.{endian_of, placed_of};
ghost use Rattle.abi_tree.specs.Placed.{Placed};
ghost use Rattle.abi_tree.specs.Tree.{tree_of};
ghost use Rattle.abi_tree.specs.Value.{Value as Meant};
ghost use Rattle.abi_tree.specs.Values.{LocalsHaveValues};
ghost use Rattle.abi_scalar.specs.Range.{numbers_of};
ghost use Rattle.abi_scalar.specs.Scalar.{IsBool, IsNumberOf, scalar_size};
ghost use Rattle.abi_scalar.specs.declared.scalar.Scalar.{Scalar as Seen};
ghost use Rattle.rustc_abi.specs.Fault.{IsRefusedFor};
ghost use Rattle.rustc_abi.specs.Laying.{IsLaying};
ghost use Rattle.guarantees.specs.Loaded.{HasLayout, IsSeenAs};

pub use pairs::{LoadedPair, load_at, load_pair};
use rustc_abi::{
    BackendRepr, Endian, Laid, LayError, Scalar, TargetDataLayout, TypeTree, lay_out, read_value,
};
use std::alloc::{AllocError, Global};
pub use stores::store;
pub use tags::variant_named;

/// A number that was loaded.
#[derive(Clone, Copy)]
pub struct Loaded {
    /// The scalar that the whole type is seen as.
    pub scalar: Scalar,
    /// The number, of as many bytes as the type has.
    pub number: u128,
}

/// The number that these bytes make, at most 16.
pub(crate) fn number_in(order: Endian, bytes: &[u8]) -> u128
    requires { length bytes.now ≤ 16 }
    ensures value { result ≡ number_of order bytes.now }
    ensures bound { result < numbers_of (length bytes.now) }
{
    match order {
        Endian::Little => match bytes {
            [] => 0,
            [first, rest @ ..] => u128::from(*first) + 256 * number_in(order, rest),
        },
        Endian::Big => match bytes {
            [] => 0,
            [rest @ .., last] => u128::from(*last) + 256 * number_in(order, rest),
        },
    }
}

/// Whether these bytes hold a value of the type.
pub(crate) fn is_value(alloc: Global, laid: &Laid, bytes: &[u8]) -> Result<bool, AllocError>
    ensures { IfOk result (λ yes. MatchBool yes
        ((v : Meant) × Holds (endian_of laid.now) (placed_of laid.now) bytes.now v)
        ((v : Meant) → Holds (endian_of laid.now) (placed_of laid.now) bytes.now v → ⊥)) }
{
    match read_value(alloc, laid, bytes)? {
        Some(_value) => Ok(true),
        None => Ok(false),
    }
}

/// Loads the number of a type that is seen as one scalar, out of its bytes. `None` where the type is seen otherwise,
/// and where the bytes hold no value of it.
///
/// The errors are those of `lay_out`.
pub fn load(
    alloc: Global,
    dl: &TargetDataLayout,
    tree: &TypeTree,
    bytes: &[u8],
) -> Result<Option<Loaded>, LayError>
    requires locals { LocalsHaveValues dl.now (tree_of tree.now) }

    // What is loaded, and when.
    ensures seen { IfOk result (λ found. IfSome found (λ loaded.
        IsSeenAs dl.now (tree_of tree.now) loaded.scalar)) }
    ensures number { IfOk result (λ found. IfSome found (λ loaded.
        loaded.number ≡ number_of dl.now.endian bytes.now)) }
    ensures held { IfOk result (λ found. IfSome found (λ _. (placed : Placed) × (v : Meant) ×
        IsLaying dl.now (tree_of tree.now) (Ok placed) × Holds dl.now.endian placed bytes.now v)) }
    ensures none { IfOk result (λ found. found ≡ None →
        (placed : Placed) → IsLaying dl.now (tree_of tree.now) (Ok placed) →
        (scalar : Seen) → IsSeenAs dl.now (tree_of tree.now) scalar →
        (v : Meant) → Holds dl.now.endian placed bytes.now v → ⊥) }

    // The number is one of the scalar's range, so that of a `bool` it is 0 or 1.
    ensures range { IfOk result (λ found. IfSome found (λ loaded.
        IsNumberOf (scalar_size dl.now loaded.scalar) loaded.scalar loaded.number)) }
    ensures bool { IfOk result (λ found. IfSome found (λ loaded. IsBool loaded.scalar →
        (loaded.number ≡ 0) ⊎ (loaded.number ≡ 1))) }

    // It is answered only where the type has a layout, and refused only where it has none, or memory is wanting.
    ensures laid { IfOk result (λ _. HasLayout dl.now (tree_of tree.now)) }
    ensures refused { IfErr result (IsRefusedFor dl.now (tree_of tree.now)) }
{
    let laid = lay_out(alloc, dl, tree)?;
    let scalar = match laid.layout().backend_repr {
        BackendRepr::Scalar(scalar) => scalar,
        _ => return Ok(None),
    };
    if !is_value(alloc, &laid, bytes)? {
        return Ok(None);
    }
    let number = number_in(dl.endian, bytes);
    Ok(Some(Loaded { scalar, number }))
}
