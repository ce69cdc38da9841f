//! The variant that a tag names.

ghost use Rattle.std.specs.Prelude.{◌≡◌, ℕ, IfOk, IfSome, MatchOption, None, Some};
ghost use Rattle.abi_tree.specs.Holding.{Holds};
ghost use Rattle.abi_tree.specs.Laid.{endian_of, placed_of};
ghost use Rattle.abi_tree.specs.OfTree.{IsOfTree};
ghost use Rattle.abi_tree.specs.Value.{Values, value_of, variant};
ghost use Rattle.guarantees.specs.Loaded.{IsNamed};

use rustc_abi::{Laid, Value, read_value};
use std::alloc::{AllocError, Global};

/// The index of the variant that the value is of, where it is one of an enum.
fn index_of(value: &Value) -> Option<usize>
    ensures { MatchOption result ((i : ℕ) (vs : Values) → value_of value.now ≡ variant i vs → ⊥)
        (λ i. (vs : Values) × (value_of value.now ≡ variant i vs)) }
{
    match value {
        Value::Variant(index, _fields) => Some(*index),
        _ => None,
    }
}

/// The index of the variant that the tag in an enum's bytes names, or of the only one. `None` where the bytes hold no
/// value of an enum.
///
/// `AllocError` where a growth of memory was refused.
pub fn variant_named(alloc: Global, laid: &Laid, bytes: &[u8]) -> Result<Option<usize>, AllocError>
    requires laid { IsOfTree laid.now }

    // It is the tag that names it, and the value that the bytes hold is of it.
    ensures named { IfOk result (λ found.
        IfSome found (IsNamed (endian_of laid.now) (placed_of laid.now) bytes.now)) }
    ensures variant { IfOk result (λ found. (i : ℕ) (vs : Values) →
        Holds (endian_of laid.now) (placed_of laid.now) bytes.now (variant i vs) → found ≡ Some i) }
    ensures none { IfOk result (λ found. ((i : ℕ) (vs : Values) →
        Holds (endian_of laid.now) (placed_of laid.now) bytes.now (variant i vs) → ⊥) →
        found ≡ None) }
{
    match read_value(alloc, laid, bytes)? {
        Some(value) => Ok(index_of(&value)),
        None => Ok(None),
    }
}
