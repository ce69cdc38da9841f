//! Types that consist of one vector.

ghost use Rattle.std.specs.Prelude.{◌≡◌};
ghost use Rattle.abi_types.specs.Ty.Walks.{is_single_vector};

use crate::ty::interface::{TyAbiInterface, TyAndLayout};
use crate::ty::walk::{At, Walk};
use abi_base::Size;
use abi_scalar::BackendRepr;

/// Whether it is a vector of this size, or a type whose one field, at 0, is one or is such a type.
#[tactic(auto, using(crate::proofs::VectorLemmas::vector_steps))]
fn walk_vector<W: Walk>(this: W, expected_size: Size) -> bool
    requires { W.is_valid this }
    ensures { result ≡ is_single_vector expected_size (W.typed_of this) }
{
    let mut at = this;
    'wrappers: loop {
        let layout = at.layout();
        let size = layout.size.bytes();
        match layout.backend_repr {
            BackendRepr::SimdVector {
                element: _,
                count: _,
            } => return size == expected_size.bytes(),
            BackendRepr::Memory { sized: _ } => {
                if layout.fields.count() != 1 || layout.fields.offset(0) != Size::ZERO {
                    return false;
                }
                at = at.field(0);
            }
            _ => return false,
        }
    }
}

impl<'a, Ty> TyAndLayout<'a, Ty> {
    /// Whether it is a vector of this size and of a known number of lanes, or bytes in memory whose one field, at 0, is
    /// one or is such a type.
    pub fn is_single_vector_element<C>(self, cx: &C, expected_size: Size) -> bool
    where
        Ty: TyAbiInterface<'a, C> + Copy,
        requires { Ty.is_valid self }
        ensures { result ≡ is_single_vector expected_size (Ty.typed_of self.entry) }
    {
        walk_vector(At::new(&self, cx), expected_size)
    }
}
