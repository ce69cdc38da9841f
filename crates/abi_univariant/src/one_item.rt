//! A list with one item: the one field that a vector's lanes are kept in, or the one that a tag is.

ghost use Rattle.std.specs.Prelude.{◌≡◌, ◌∷◌, []};
ghost use Rattle.abi_index.specs.InlineVec.{TwoFit};

use abi_index::{Idx, IndexVec};
use std::alloc::{AllocError, Global};

/// A list with one item. It asks for no memory.
pub fn one<I: Idx, T: Copy>(alloc: Global, item: T) -> IndexVec<I, T>
    requires { TwoFit T.row }
    ensures { result ≡ item ∷ [] }
{
    let mut list = IndexVec::new(alloc);
    let index: Result<I, AllocError> = list.push(item);
    prove!(index.is_ok());
    list
}
